//! Laws of the expansion and of the stack machine, as contracts of functions that do nothing.
ghost use Rattle.il_inline.specs.Expanded.{SameExpansion};
ghost use Rattle.il_inline.specs.WorkedRun.{WorkedRun};

/// Steps through a call, worked out by hand.
pub fn worked_run()
    ensures { WorkedRun }
{}

/// Two expansions of one text say the same: their texts, their origins and their spans are equal. This law costs nothing.
pub fn same_expansion()
    ensures { SameExpansion }
{}
