use il_core::{CheckedProc, List};

/// A test that a slice fixes to one truth value.
#[derive(Clone, Copy)]
pub struct Fixed {
    /// The test's line.
    pub line: usize,
    /// The truth value.
    pub taken: bool,
}

/// What the slice of a procedure for one variable keeps and fixes.
#[derive(Drop)]
pub struct Outline {
    /// The reachable lines that are relevant, ascending.
    pub keep: List<usize>,
    /// The reachable tests that are fixed, ascending.
    pub fixed: List<Fixed>,
}

/// The slice of a procedure for one variable.
#[derive(Drop)]
pub struct SlicedProc {
    /// The slice itself, a procedure with the same name, places and arcs.
    pub proc: CheckedProc,
    /// The reachable lines that are relevant, ascending.
    pub keep: List<usize>,
    /// The reachable tests that are fixed, ascending.
    pub fixed: List<Fixed>,
}
