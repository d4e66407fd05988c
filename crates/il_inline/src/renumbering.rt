//! Expressions over places that have other numbers.
ghost use Rattle.std.specs.Prelude.{◌≡◌, ◌<◌, IfOk};
ghost use Rattle.il_core.specs.Expression.{expression_of};
ghost use Rattle.il_called.specs.Expansion.{renumbered};
ghost use Rattle.il_inline.specs.Within.{NamesBelow};
ghost use Rattle.il_inline.specs.Held.{place_under};

use il_core::{Expr, NoMemory};
use std::alloc::Global;

/// How places are numbered anew: the first ones keep their numbers, the others are moved up.
#[derive(Clone, Copy)]
pub struct Renumbering {
    /// How many places keep their numbers.
    pub kept: usize,
    /// By how much the others are moved.
    pub shift: usize,
}

impl Renumbering {
    /// The new number of a place.
    pub fn place(self, place: usize) -> usize
        requires { place_under self place < 64 }
        ensures { result ≡ place_under self place }
    {
        if place < self.kept {
            place
        } else {
            place + self.shift
        }
    }
}

/// The same expression over places that have new numbers, in memory of its own.
pub fn renumbered(alloc: Global, under: Renumbering, expr: &Expr) -> Result<Expr, NoMemory>
    requires { NamesBelow 64 (renumbered (place_under under) (expression_of expr.now)) }
    ensures { IfOk result (λ e. expression_of e ≡ renumbered (place_under under) (expression_of expr.now)) }
{
    match expr {
        Expr::Num(number) => Ok(Expr::Num(*number)),
        Expr::Var(place) => Ok(Expr::Var(under.place(*place))),
        Expr::Flag(place) => Ok(Expr::Flag(under.place(*place))),
        Expr::Truth(truth) => Ok(Expr::Truth(*truth)),
        Expr::Neg(inner) => Ok(Expr::Neg(Box::new(alloc, renumbered(alloc, under, inner)?)?)),
        Expr::Not(inner) => Ok(Expr::Not(Box::new(alloc, renumbered(alloc, under, inner)?)?)),
        Expr::Binary(op, left, right) => Ok(Expr::Binary(
            *op,
            Box::new(alloc, renumbered(alloc, under, left)?)?,
            Box::new(alloc, renumbered(alloc, under, right)?)?,
        )),
    }
}
