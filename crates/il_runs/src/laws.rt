//! Laws of the expansion, as contracts of functions that do nothing.
ghost use Rattle.il_runs.specs.Laws.{InlinedLinesStepAlike, MovedLinesStepAlike, RenumberedHaveSameValue};
ghost use Rattle.il_runs.specs.Runs.{ExpandedRunsAlike};

/// An expression whose places have other numbers has the value and the truth that it has where these places have their
/// values under their own numbers. This law costs nothing.
pub fn renumbered_have_same_value()
    ensures { RenumberedHaveSameValue }
{}

/// A line of a procedure, as it stands in the expansion of that procedure, steps as it does where it is written: to the
/// same line, as the expansion numbers it, or to the same halt, with the same values of the procedure's places. This law
/// costs nothing.
pub fn moved_lines_step_alike()
    ensures { MovedLinesStepAlike }
{}

/// A line of a procedure, as it stands where that procedure is called, steps as it does in the procedure, but for three
/// halts: outside the precondition and outside the postcondition an assertion fails there, and at the end the run goes on
/// behind the line. This law costs nothing.
pub fn inlined_lines_step_alike()
    ensures { InlinedLinesStepAlike }
{}

/// The expansion of a procedure runs as the procedure does where it is written, with a stack of frames: after any number of
/// steps of the stack machine the expanded run comes to a line that comes from the line at which the last frame stands, or
/// halts as the stack machine does on a line that comes from its line, with the first frame's values in its own places; and
/// the stack machine halts wherever the expanded run does. Where the last frame stands at a call of a procedure that has no
/// variables, the line comes from the callee's first line. This law costs nothing.
///
/// It is the copy rule of Algol 60 (Naur and others, 1963) as a theorem.
pub fn expanded_runs_alike()
    ensures { ExpandedRunsAlike }
{}
