//! Copies of checked expressions.
ghost use Rattle.std.specs.Prelude.{◌≡◌, IfOk};
ghost use Rattle.il_core.specs.Expression.{expression_of};

use il_core::{Expr, NoMemory};
use std::alloc::Global;

/// The same expression in memory of its own.
pub fn copied(alloc: Global, expr: &Expr) -> Result<Expr, NoMemory>
    ensures { IfOk result (λ e. expression_of e ≡ expression_of expr.now) }
{
    match expr {
        Expr::Num(number) => Ok(Expr::Num(*number)),
        Expr::Var(place) => Ok(Expr::Var(*place)),
        Expr::Flag(place) => Ok(Expr::Flag(*place)),
        Expr::Truth(truth) => Ok(Expr::Truth(*truth)),
        Expr::Neg(inner) => Ok(Expr::Neg(Box::new(alloc, copied(alloc, inner)?)?)),
        Expr::Not(inner) => Ok(Expr::Not(Box::new(alloc, copied(alloc, inner)?)?)),
        Expr::Binary(op, left, right) => Ok(Expr::Binary(
            *op,
            Box::new(alloc, copied(alloc, left)?)?,
            Box::new(alloc, copied(alloc, right)?)?,
        )),
    }
}
