use il_core::List;

/// A loop of a procedure.
#[derive(Drop)]
pub struct LoopInfo {
    /// The loop head: the line through which every way into the loop leads.
    pub head: usize,
    /// The head and the lines of the loop, ascending.
    pub members: List<usize>,
    /// The ASSERT lines with which the loop begins, ascending.
    pub leading: List<usize>,
}

/// A cycle that can be entered first at two lines, with a path to each.
#[derive(Drop)]
pub struct Entries {
    /// The lines of the cycle, the least of them first; an arc goes from each to the next and from the last to the first.
    pub cycle: List<usize>,
    /// A path from line 0 that meets the cycle at its last line alone.
    pub first_path: List<usize>,
    /// A path from line 0 that meets the cycle at its last line alone, which is greater than that of the first path.
    pub second_path: List<usize>,
}

/// Whether each cycle has one entry.
#[derive(Drop)]
pub enum Shape {
    /// No cycle of reachable lines can be entered first at two lines.
    Reducible,
    /// Some cycle can.
    TwoEntries(Entries),
}

/// The control structure of a procedure.
#[derive(Drop)]
pub struct Control {
    /// The lines that no path from line 0 reaches, ascending.
    pub unreachable: List<usize>,
    /// The reachable lines from which the last line is not reached, ascending.
    pub stuck: List<usize>,
    /// The loops by their heads, ascending.
    pub loops: List<LoopInfo>,
    /// Whether each cycle has one entry.
    pub shape: Shape,
}
