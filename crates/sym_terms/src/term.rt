ghost use Rattle.std.specs.Prelude.{◌≡◌, IfOk};
ghost use Rattle.sym_terms.specs.Tree.{tree_of};

use il_core::{NoMemory, Relation};
use std::alloc::Global;

/// A term over the places of a state. Its values are whole numbers without bound.
#[derive(Debug, Drop)]
pub enum Term {
    /// A number.
    Num(i128),
    /// The value of a place.
    Var(usize),
    /// The sum of two terms.
    Add(Box<Term>, Box<Term>),
    /// The product of two terms.
    Mul(Box<Term>, Box<Term>),
    /// The quotient of two terms, which is 0 where the divisor is 0.
    Div(Box<Term>, Box<Term>),
    /// The remainder of two terms, which is the dividend where the divisor is 0.
    Mod(Box<Term>, Box<Term>),
}

/// A comparison of two terms.
#[derive(Debug, Drop)]
pub struct Literal {
    /// The left side.
    pub left: Term,
    /// How it compares to the right side.
    pub relation: Relation,
    /// The right side.
    pub right: Term,
}

impl Term {
    /// The same term in memory of its own.
    pub fn copied(&self, alloc: Global) -> Result<Term, NoMemory>
        ensures { IfOk result (λ t. tree_of t ≡ tree_of self.now) }
    {
        match self {
            Term::Num(number) => Ok(Term::Num(*number)),
            Term::Var(place) => Ok(Term::Var(*place)),
            Term::Add(a, b) => Ok(Term::Add(
                Box::new(alloc, a.copied(alloc)?)?,
                Box::new(alloc, b.copied(alloc)?)?,
            )),
            Term::Mul(a, b) => Ok(Term::Mul(
                Box::new(alloc, a.copied(alloc)?)?,
                Box::new(alloc, b.copied(alloc)?)?,
            )),
            Term::Div(a, b) => Ok(Term::Div(
                Box::new(alloc, a.copied(alloc)?)?,
                Box::new(alloc, b.copied(alloc)?)?,
            )),
            Term::Mod(a, b) => Ok(Term::Mod(
                Box::new(alloc, a.copied(alloc)?)?,
                Box::new(alloc, b.copied(alloc)?)?,
            )),
        }
    }
}
