//! Laws of slices, as contracts of functions that do nothing.
ghost use Rattle.flow_slice.specs.Laws.{SlicesAreChecked, SlicesEndAlike};

/// Each slice of a checked procedure is checked.
pub fn slices_are_checked()
    ensures { SlicesAreChecked }
{}

/// For every checked procedure, every variable and all sets that are closed under the rules of relevance: where a run of
/// the procedure ends, the run of its slice from the same state ends, with the same value of the variable.
pub fn slices_end_alike()
    ensures { SlicesEndAlike }
{}
