/// The number of a node in its pool.
#[derive(Clone, Copy, Debug, PartialEq, Eq, Hash)]
pub struct TermId {
    /// The position, counted from 0.
    pub index: usize,
}

/// A node of a term whose parts are nodes of the same pool.
#[derive(Clone, Copy, Debug, PartialEq, Eq, Hash)]
pub enum TermNode {
    /// A number.
    Num(i128),
    /// The value of a place.
    Var(usize),
    /// The sum of two terms.
    Add(TermId, TermId),
    /// The product of two terms.
    Mul(TermId, TermId),
    /// The quotient of two terms.
    Div(TermId, TermId),
    /// The remainder of two terms.
    Mod(TermId, TermId),
}
