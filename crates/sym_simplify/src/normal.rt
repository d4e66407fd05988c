use il_core::{List, Relation};

/// A normal term: a constant and parts, strictly ascending by atom.
#[cycle(normal)]
#[derive(Debug, Drop)]
pub struct Normal {
    /// The constant.
    pub constant: i128,
    /// The parts.
    pub parts: List<Part>,
}

/// A part of a normal term: an atom as often as the coefficient says, which is not 0.
#[cycle(normal)]
#[derive(Debug, Drop)]
pub struct Part {
    /// How often.
    pub coefficient: i128,
    /// What.
    pub atom: Atom,
}

/// What no sum takes apart.
#[cycle(normal)]
#[derive(Debug, Drop)]
pub enum Atom {
    /// The value of a place.
    Var(usize),
    /// A product of two terms, the lesser first.
    Mul(Box<Normal>, Box<Normal>),
    /// A quotient.
    Div(Box<Normal>, Box<Normal>),
    /// A remainder.
    Mod(Box<Normal>, Box<Normal>),
}

/// A comparison of parts to a number.
#[derive(Debug, Drop)]
pub struct Kept {
    /// The parts, with the constant 0 and a first coefficient above 0.
    pub sum: Normal,
    /// How they compare to the bound.
    pub relation: Relation,
    /// The bound.
    pub bound: i128,
}

/// The form of a literal.
#[derive(Debug, Drop)]
pub enum LitForm {
    /// It holds in every state.
    Always,
    /// It holds in no state.
    Never,
    /// It holds where this does.
    Keep(Kept),
}

/// A normal term all of whose atoms are places.
#[derive(Drop)]
pub struct LinearTerm {
    /// The constant.
    pub constant: i128,
    /// The parts, ascending by place.
    pub parts: List<LinearPart>,
}

/// A place as often as the coefficient says.
#[derive(Clone, Copy, PartialEq, Eq)]
pub struct LinearPart {
    /// How often.
    pub coefficient: i128,
    /// The place.
    pub place: usize,
}
