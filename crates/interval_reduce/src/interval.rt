use il_core::List;

/// A part of a graph that is entered at its head alone.
#[derive(Drop)]
pub struct Interval {
    /// The node through which each path into the interval leads.
    pub head: usize,
    /// The head, then the other nodes in the order in which they were taken.
    pub members: List<usize>,
}

/// The reduction of a graph by intervals.
#[derive(Drop)]
pub struct Derivation {
    /// The intervals of each level; the nodes of the next level are their heads.
    pub levels: List<List<Interval>>,
    /// For a reducible graph, each reachable node but the first and the last in the order in which intervals take them;
    /// empty for any other graph.
    pub order: List<usize>,
}
