//! The reduction theorem and two laws beside it, as contracts of functions that do nothing.
ghost use Rattle.interval_reduce.specs.Laws.{LevelsTellShape, OneDerivation, ReductionTheorem};

/// The levels of every well formed graph end with one interval exactly where no cycle of it is twice entered, and the
/// order then has each reachable line but the first and the last exactly once (Allen and Cocke, A program data flow
/// analysis procedure, 1976; Hecht and Ullman, Flow graph reducibility, 1972).
pub fn reduction_theorem()
    ensures { ReductionTheorem }
{}

/// The levels end with one interval exactly where the shape of the graph is reducible: where it is not, it shows a cycle
/// and two paths that enter it first at different lines.
pub fn levels_tell_shape()
    ensures { LevelsTellShape }
{}

/// A graph has one derivation at most: its intervals, their order and the order of its lines are fixed.
pub fn one_derivation()
    ensures { OneDerivation }
{}
