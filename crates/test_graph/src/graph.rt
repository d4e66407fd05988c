use il_core::{Halt, List};
use sym_terms::{Literal, Term};

/// A node of a graph of tests and assignments.
#[derive(Debug, Drop)]
pub enum TestNode {
    /// A single decision: the node that follows where the literal holds, then the node that follows where it does not.
    Test(Literal, usize, usize),
    /// The place that gets the value of a term, and the node that follows.
    Assign(usize, Term, usize),
    /// A line, and the first node of its decisions.
    AtLine(usize, usize),
    /// A halt.
    Stop(Halt),
}

/// The decisions of each line of a procedure as nodes that name one another by their numbers.
#[derive(Debug, Drop)]
pub struct TestGraph {
    /// The nodes.
    pub nodes: List<TestNode>,
    /// The number of the node `AtLine` of each line.
    pub entries: List<usize>,
}
