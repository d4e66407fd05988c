//! Laws of the expansion, as contracts of functions that do nothing.
ghost use Rattle.il_called.specs.WorkedExpansion.{WorkedExpansion};

/// The expansion of a procedure with one call, worked out by hand.
pub fn worked_expansion()
    ensures { WorkedExpansion }
{}
