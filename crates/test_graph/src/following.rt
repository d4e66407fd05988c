//! Evaluation along given decisions: each decision that comes up is compared with the next one of a path. The position
//! in the path is `None` once a decision has differed, or the path has ended before it.
ghost use Rattle.std.specs.Prelude.{◌≡◌, ◌^◌, ◌≤◌, ◌≤ℤ◌, Some, None, IfSome, IsTrue, true, false, ◌↔◌, unsigned_abs, ◌++◌};
ghost use Rattle.il_core.specs.Expression.{expression_of};
ghost use Rattle.il_core.specs.Bounds.{IsNarrow};
ghost use Rattle.il_core.specs.Evaluation.{compares, of_both, whole, holds};
ghost use Rattle.il_core.specs.declared.operator.BinOp.TheVariants as op;
ghost use Rattle.line_machine.specs.Fits.{PartsFit};
ghost use Rattle.test_graph.specs.Followed.{followed_one, followed, zero_path, guard_path, whole_path, behind, compared, truth_path, greatest_path, range_path};

use crate::lowering::holds_zero;
use il_core::{BinOp, Expr, Place, Relation};
use line_machine::{calculate, is_related, negated, static_bounds, value_in};

/// The value of an expression, `None` where a divisor is 0, and the position behind the expression's decisions.
#[derive(Clone, Copy)]
pub(crate) struct Valued {
    pub(crate) value: Option<i128>,
    pub(crate) at: Option<usize>,
}

/// The truth of a condition, `None` where a divisor is 0, and the position behind its decisions.
#[derive(Clone, Copy)]
pub(crate) struct Decided {
    pub(crate) truth: Option<bool>,
    pub(crate) at: Option<usize>,
}

/// The position behind one more decision.
pub(crate) fn follow(path: &[bool], at: Option<usize>, decision: bool) -> Option<usize>
    ensures { result ≡ followed_one path.now at decision }
{
    match at {
        Some(used) => match path.get(used) {
            Some(next) => {
                if *next == decision {
                    Some(used + 1)
                } else {
                    None
                }
            }
            None => None,
        },
        None => None,
    }
}

/// The position behind the decision that a divisor is not 0.
#[tactic(auto, using(crate::proofs::FollowedPath::following))]
fn zero_along(
    places: &[Place],
    right: &Expr,
    divisor: i128,
    path: &[bool],
    at: Option<usize>,
) -> Option<usize>
    requires { IsNarrow places.now (expression_of right.now) }
    ensures { result ≡ followed path.now at (zero_path places.now (expression_of right.now) (Some divisor)) }
{
    if holds_zero(static_bounds(places, right)) {
        follow(path, at, divisor != 0)
    } else {
        at
    }
}

/// The position behind the decision of an operator whose right side has this value.
fn guard_along(
    places: &[Place],
    op: BinOp,
    right: &Expr,
    divisor: i128,
    path: &[bool],
    at: Option<usize>,
) -> Option<usize>
    requires { IsNarrow places.now (expression_of right.now) }
    ensures { result ≡ followed path.now at (guard_path places.now op (expression_of right.now) (Some divisor)) }
{
    match op {
        BinOp::Div => zero_along(places, right, divisor, path, at),
        BinOp::Mod => zero_along(places, right, divisor, path, at),
        BinOp::Add | BinOp::Sub | BinOp::Mul | BinOp::Compare(_) | BinOp::And | BinOp::Or => at,
    }
}

/// The value of a numeric expression, along a path.
#[tactic(auto, using(crate::proofs::FollowedPath::following))]
pub(crate) fn whole_along(
    places: &[Place],
    vals: &[i64],
    expr: &Expr,
    path: &[bool],
    at: Option<usize>,
) -> Valued
    requires narrow { IsNarrow places.now (expression_of expr.now) }
    requires fits { PartsFit vals.now (expression_of expr.now) }
    ensures value { result.value ≡ whole (expression_of expr.now) vals.now }
    ensures small { IfSome result.value (λ v. unsigned_abs v ≤ 2 ^ 126) }
    ensures at { result.at ≡ followed path.now at (whole_path places.now (expression_of expr.now) vals.now) }
{
    match expr {
        Expr::Num(value) => Valued {
            value: Some(*value),
            at,
        },
        Expr::Var(place) => Valued {
            value: Some(value_in(vals, *place)),
            at,
        },
        Expr::Neg(inner) => {
            let found = whole_along(places, vals, inner, path, at);
            match found.value {
                Some(value) => Valued {
                    value: Some(negated(value)),
                    at: found.at,
                },
                None => found,
            }
        }
        Expr::Binary(op, left, right) => {
            let first = whole_along(places, vals, left, path, at);
            match first.value {
                Some(dividend) => {
                    let second = whole_along(places, vals, right, path, first.at);
                    match second.value {
                        Some(divisor) => Valued {
                            value: calculate(*op, dividend, divisor),
                            at: guard_along(places, *op, right, divisor, path, second.at),
                        },
                        None => second,
                    }
                }
                None => first,
            }
        }
        Expr::Flag(_) | Expr::Truth(_) | Expr::Not(_) => Valued { value: None, at },
    }
}

/// The truth of a comparison, along a path.
#[tactic(auto, using(crate::proofs::FollowedPath::following))]
fn compare_along(
    places: &[Place],
    vals: &[i64],
    relation: Relation,
    left: &Expr,
    right: &Expr,
    path: &[bool],
    at: Option<usize>,
) -> Decided
    requires left_narrow { IsNarrow places.now (expression_of left.now) }
    requires right_narrow { IsNarrow places.now (expression_of right.now) }
    requires left_fits { PartsFit vals.now (expression_of left.now) }
    requires right_fits { PartsFit vals.now (expression_of right.now) }
    ensures truth { result.truth ≡ of_both (λ x y. Some (compares relation x y)) (whole (expression_of left.now) vals.now) (whole (expression_of right.now) vals.now) }
    ensures at { result.at ≡ followed path.now at (whole_path places.now (expression_of left.now) vals.now ++ behind (whole (expression_of left.now) vals.now) (whole_path places.now (expression_of right.now) vals.now ++ compared (op.Compare relation) (whole (expression_of left.now) vals.now) (whole (expression_of right.now) vals.now))) }
{
    let first = whole_along(places, vals, left, path, at);
    match first.value {
        Some(a) => {
            let second = whole_along(places, vals, right, path, first.at);
            match second.value {
                Some(b) => {
                    let truth = is_related(relation, a, b);
                    Decided {
                        truth: Some(truth),
                        at: follow(path, second.at, truth),
                    }
                }
                None => Decided {
                    truth: None,
                    at: second.at,
                },
            }
        }
        None => Decided {
            truth: None,
            at: first.at,
        },
    }
}

fn is_true(found: Decided) -> bool
    ensures { IsTrue result ↔ (found.truth ≡ Some true) }
{
    match found.truth {
        Some(truth) => truth,
        None => false,
    }
}

fn is_false(found: Decided) -> bool
    ensures { IsTrue result ↔ (found.truth ≡ Some false) }
{
    match found.truth {
        Some(truth) => !truth,
        None => false,
    }
}

/// The truth of a condition, along a path. AND and OR stop when they are decided.
#[tactic(auto, using(crate::proofs::FollowedPath::following))]
pub(crate) fn truth_along(
    places: &[Place],
    vals: &[i64],
    expr: &Expr,
    path: &[bool],
    at: Option<usize>,
) -> Decided
    requires narrow { IsNarrow places.now (expression_of expr.now) }
    requires fits { PartsFit vals.now (expression_of expr.now) }
    ensures truth { result.truth ≡ holds (expression_of expr.now) vals.now }
    ensures at { result.at ≡ followed path.now at (truth_path places.now (expression_of expr.now) vals.now) }
{
    match expr {
        Expr::Flag(place) => {
            let truth = value_in(vals, *place) >= 1;
            Decided {
                truth: Some(truth),
                at: follow(path, at, truth),
            }
        }
        Expr::Truth(truth) => Decided {
            truth: Some(*truth),
            at,
        },
        Expr::Not(inner) => {
            let found = truth_along(places, vals, inner, path, at);
            match found.truth {
                Some(truth) => Decided {
                    truth: Some(!truth),
                    at: found.at,
                },
                None => found,
            }
        }
        Expr::Binary(op, left, right) => match op {
            BinOp::Compare(relation) => compare_along(
                places, vals, *relation, left, right, path, at,
            ),
            BinOp::And => {
                let first = truth_along(places, vals, left, path, at);
                if is_true(first) {
                    truth_along(places, vals, right, path, first.at)
                } else {
                    first
                }
            }
            BinOp::Or => {
                let first = truth_along(places, vals, left, path, at);
                if is_false(first) {
                    truth_along(places, vals, right, path, first.at)
                } else {
                    first
                }
            }
            BinOp::Add | BinOp::Sub | BinOp::Mul | BinOp::Div | BinOp::Mod => Decided {
                truth: None,
                at,
            },
        },
        Expr::Num(_) | Expr::Var(_) | Expr::Neg(_) => Decided { truth: None, at },
    }
}
