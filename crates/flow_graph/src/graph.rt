use il_core::List;

/// What a line is to the analyses of the graph.
#[derive(Clone, Copy, Debug, PartialEq, Eq)]
pub enum NodeKind {
    /// An assignment.
    Assign,
    /// IF or EXIT WHEN.
    Test,
    /// ASSERT.
    Assertion,
    /// ENDIF, LOOP, LABEL or SKIP.
    Plain,
    /// PRE, ELSE, ENDLOOP, EXIT, GOTO or RETURN.
    Other,
    /// ENDPROC.
    Last,
}

/// A line of a procedure.
#[derive(Clone, Copy, Debug, PartialEq, Eq)]
pub struct Node {
    /// What the line is.
    pub kind: NodeKind,
    /// Bit p for each place p that an assignment or a test reads; 0 for every other line.
    pub reads: u64,
    /// The place that an assignment writes.
    pub writes: Option<usize>,
    /// Bit p for each OUT or INOUT variable p, at ENDPROC; 0 for every other line.
    pub last_reads: u64,
}

/// An arc from the line `tail` to the line `head`.
#[derive(Clone, Copy, Debug, PartialEq, Eq)]
pub struct Arc {
    /// The line that it leaves.
    pub tail: usize,
    /// The line that it enters.
    pub head: usize,
}

/// The graph of a procedure.
#[derive(Drop)]
pub struct FlowGraph {
    /// One node for each line, in line order.
    pub nodes: List<Node>,
    /// The arcs in the order of their tails, the true arc of a test first.
    pub arcs: List<Arc>,
}
