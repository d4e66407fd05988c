//! The value of an expression in a state.
ghost use Rattle.std.specs.Prelude.{◌≡◌, ◌^◌, ◌≤◌, ℤ, Some, None, IfSome, unsigned_abs, neg_ℤ, ◌+ℤ◌, ◌-ℤ◌, ◌*ℤ◌};
ghost use Rattle.std.specs.Option.{option_map};
ghost use Rattle.il_core.specs.Expression.{expression_of};
ghost use Rattle.il_core.specs.Evaluation.{value_at, calculated, compares, of_both, whole, holds, both_hold, either_holds};
ghost use Rattle.line_machine.specs.Fits.{IsSmall, PartsFit};

use il_core::{BinOp, Expr, Relation};

/// The value of place `place`, as `i128`.
pub fn value_in(vals: &[i64], place: usize) -> i128
    ensures { result ≡ value_at vals.now place }
{
    match vals.get(place) {
        Some(value) => i128::from(*value),
        None => 0,
    }
}

/// What an operator makes of two numbers; `None` is division by zero.
pub fn calculate(op: BinOp, left: i128, right: i128) -> Option<i128>
    requires dividend { unsigned_abs left ≤ 2 ^ 126 }
    requires outcome { IsSmall (calculated op left right) }
    ensures { result ≡ calculated op left right }
{
    match op {
        BinOp::Add => Some(left + right),
        BinOp::Sub => Some(left - right),
        BinOp::Mul => Some(left * right),
        BinOp::Div => {
            if right == 0 {
                None
            } else {
                Some(left.div_euclid(right))
            }
        }
        BinOp::Mod => {
            if right == 0 {
                None
            } else {
                Some(left.rem_euclid(right))
            }
        }
        BinOp::Compare(_) | BinOp::And | BinOp::Or => None,
    }
}

/// The opposite number.
pub fn negated(value: i128) -> i128
    requires { unsigned_abs value ≤ 2 ^ 126 }
    ensures { result ≡ neg_ℤ value }
{
    -value
}

/// The value of a numeric expression; `None` where a divisor is 0.
pub fn whole_value(vals: &[i64], expr: &Expr) -> Option<i128>
    requires { PartsFit vals.now (expression_of expr.now) }
    ensures value { result ≡ whole (expression_of expr.now) vals.now }
    ensures small { IfSome result (λ v. unsigned_abs v ≤ 2 ^ 126) }
{
    match expr {
        Expr::Num(value) => Some(*value),
        Expr::Var(place) => Some(value_in(vals, *place)),
        Expr::Neg(inner) => match whole_value(vals, inner) {
            Some(value) => Some(negated(value)),
            None => None,
        },
        Expr::Binary(op, left, right) => match whole_value(vals, left) {
            Some(first) => match whole_value(vals, right) {
                Some(second) => calculate(*op, first, second),
                None => None,
            },
            None => None,
        },
        Expr::Flag(_) | Expr::Truth(_) | Expr::Not(_) => None,
    }
}

/// Whether a relation holds between two numbers.
pub fn is_related(relation: Relation, left: i128, right: i128) -> bool
    ensures { result ≡ compares relation left right }
{
    match relation {
        Relation::Eq => left == right,
        Relation::Ne => left != right,
        Relation::Lt => left < right,
        Relation::Le => left <= right,
        Relation::Gt => left > right,
        Relation::Ge => left >= right,
    }
}

/// The truth of a comparison; `None` where a divisor is 0.
fn comparison(vals: &[i64], relation: Relation, left: &Expr, right: &Expr) -> Option<bool>
    requires left { PartsFit vals.now (expression_of left.now) }
    requires right { PartsFit vals.now (expression_of right.now) }
    ensures { result ≡ of_both (λ x y. Some (compares relation x y)) (whole (expression_of left.now) vals.now) (whole (expression_of right.now) vals.now) }
{
    match whole_value(vals, left) {
        Some(first) => match whole_value(vals, right) {
            Some(second) => Some(is_related(relation, first, second)),
            None => None,
        },
        None => None,
    }
}

/// The truth of a condition; `None` where a divisor that is evaluated is 0. AND and OR stop when they are decided.
pub fn truth_value(vals: &[i64], expr: &Expr) -> Option<bool>
    requires { PartsFit vals.now (expression_of expr.now) }
    ensures { result ≡ holds (expression_of expr.now) vals.now }
{
    match expr {
        Expr::Flag(place) => Some(value_in(vals, *place) >= 1),
        Expr::Truth(truth) => Some(*truth),
        Expr::Not(inner) => match truth_value(vals, inner) {
            Some(truth) => Some(!truth),
            None => None,
        },
        Expr::Binary(BinOp::Compare(relation), left, right) => comparison(
            vals, *relation, left, right,
        ),
        Expr::Binary(BinOp::And, left, right) => match truth_value(vals, left) {
            Some(true) => truth_value(vals, right),
            decided => decided,
        },
        Expr::Binary(BinOp::Or, left, right) => match truth_value(vals, left) {
            Some(false) => truth_value(vals, right),
            decided => decided,
        },
        _ => None,
    }
}
