//! The term of an expression.
ghost use Rattle.std.specs.Prelude.{◌≡◌, ℕ, IfOk, pos, negsuc, neg_ℤ, ◌+ℤ◌, ◌-ℤ◌};
ghost use Rattle.il_core.specs.Expression.{expression_of};
ghost use Rattle.line_machine.specs.Static.{bounds_in};
ghost use Rattle.sym_terms.specs.Tree.{tree_of};
ghost use Rattle.test_graph.specs.Term as spec;
ghost use Rattle.test_graph.specs.Decision.{fitted_term, lies_within};

use il_core::{BinOp, Expr, NoMemory, Place};
use line_machine::StaticBounds;
use std::alloc::Global;
use sym_terms::Term;

/// -1 times a term.
fn opposite(alloc: Global, term: Term) -> Result<Term, NoMemory>
    ensures { IfOk result (λ t. tree_of t ≡ spec.opposite_term (tree_of term)) }
{
    Ok(Term::Mul(Box::new(alloc, Term::Num(-1))?, Box::new(alloc, term)?))
}

/// The term of an operator between two terms; 0 where it is none for whole numbers.
fn of_operator(alloc: Global, op: BinOp, left: Term, right: Term) -> Result<Term, NoMemory>
    ensures { IfOk result (λ t. tree_of t ≡ spec.operator_term op (tree_of left) (tree_of right)) }
{
    match op {
        BinOp::Add => Ok(Term::Add(Box::new(alloc, left)?, Box::new(alloc, right)?)),
        BinOp::Sub => Ok(Term::Add(
            Box::new(alloc, left)?,
            Box::new(alloc, opposite(alloc, right)?)?,
        )),
        BinOp::Mul => Ok(Term::Mul(Box::new(alloc, left)?, Box::new(alloc, right)?)),
        BinOp::Div => Ok(Term::Div(Box::new(alloc, left)?, Box::new(alloc, right)?)),
        BinOp::Mod => Ok(Term::Mod(Box::new(alloc, left)?, Box::new(alloc, right)?)),
        BinOp::Compare(_) | BinOp::And | BinOp::Or => Ok(Term::Num(0)),
    }
}

/// The term of an expression for whole numbers; 0 stands for a condition.
pub(crate) fn term_of(alloc: Global, expr: &Expr) -> Result<Term, NoMemory>
    ensures { IfOk result (λ t. tree_of t ≡ spec.term_of (expression_of expr.now)) }
{
    match expr {
        Expr::Num(value) => Ok(Term::Num(*value)),
        Expr::Var(place) => Ok(Term::Var(*place)),
        Expr::Neg(inner) => {
            let term = term_of(alloc, inner)?;
            opposite(alloc, term)
        }
        Expr::Binary(op, left, right) => {
            let first = term_of(alloc, left)?;
            let second = term_of(alloc, right)?;
            of_operator(alloc, *op, first, second)
        }
        Expr::Flag(_) | Expr::Truth(_) | Expr::Not(_) => Ok(Term::Num(0)),
    }
}

/// How many values a range has.
fn range_length(place: &Place) -> i128
    ensures { result ≡ (place.now.greatest -ℤ place.now.least) +ℤ pos 1 }
{
    i128::from(place.greatest) - i128::from(place.least) + 1
}

/// The opposite of a range's least value.
fn opposite_least(place: &Place) -> i128
    ensures { result ≡ neg_ℤ place.now.least }
{
    -i128::from(place.least)
}

/// The term of the value in the place's range that differs from the term's by a multiple of the range's length.
fn wrapped_term(alloc: Global, place: &Place, term: Term) -> Result<Term, NoMemory>
    ensures { IfOk result (λ t. tree_of t ≡ spec.wrapped_term place.now (tree_of term)) }
{
    let length = range_length(place);
    let down = opposite_least(place);
    let above = Term::Add(Box::new(alloc, term)?, Box::new(alloc, Term::Num(down))?);
    let rest = Term::Mod(Box::new(alloc, above)?, Box::new(alloc, Term::Num(length))?);
    Ok(Term::Add(
        Box::new(alloc, Term::Num(i128::from(place.least)))?,
        Box::new(alloc, rest)?,
    ))
}

/// Whether bounds lie within the place's range.
fn lies_within(place: &Place, bounds: StaticBounds) -> bool
    ensures { result ≡ lies_within place.now (bounds_in bounds) }
{
    i128::from(place.least) <= bounds.low && bounds.high <= i128::from(place.greatest)
}

/// What a place with a wrapping range gets of a term with these static bounds.
pub(crate) fn fitted_term(
    alloc: Global,
    place: &Place,
    bounds: StaticBounds,
    term: Term,
) -> Result<Term, NoMemory>
    ensures { IfOk result (λ t. tree_of t ≡ fitted_term place.now (bounds_in bounds) (tree_of term)) }
{
    if lies_within(place, bounds) {
        Ok(term)
    } else {
        wrapped_term(alloc, place, term)
    }
}
