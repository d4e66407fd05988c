//! A law of path reports, as the contract of a function that does nothing.
ghost use Rattle.path_expr.specs.Laws.{DefinitionsNameEarlierOnes};

/// Each definition of a path report names only definitions with smaller numbers, and the whole names one of them all, so
/// that a reader who goes through them in order always knows what is named.
pub fn definitions_name_earlier_ones()
    ensures { DefinitionsNameEarlierOnes }
{}
