use il_core::List;

/// The ends of an arc: the node that it leaves and the node that it enters.
#[derive(Clone, Copy, PartialEq, Eq)]
pub struct Ends {
    pub tail: usize,
    pub head: usize,
}

/// How a value of a plan is made of lower values, which are named by their numbers: a sum, a product, or any number of
/// turns, none among them, of one value.
#[derive(Clone, Copy, Debug, PartialEq, Eq)]
pub enum Step {
    Plus(usize, usize),
    Times(usize, usize),
    Star(usize),
}

/// The steps of an elimination, and the number of the value that answers each target, or `None` where no path goes.
/// Values are numbered from 0: first the arcs in their order, then the steps in theirs.
#[derive(Drop)]
pub struct Plan {
    pub steps: List<Step>,
    pub answers: List<Option<usize>>,
}

/// An arc with its value.
#[derive(Drop)]
pub struct Entry<A> {
    pub tail: usize,
    pub head: usize,
    pub value: A,
}
