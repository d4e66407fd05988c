//! The static bounds of an expression, by its form and the ranges of its places alone.
ghost use Rattle.std.specs.Prelude.{◌≡◌, ◌≤◌, ◌^◌, ◌+ℤ◌, ◌-ℤ◌, ◌*ℤ◌, pos, neg_ℤ, slice_get, unsigned_abs};
ghost use Rattle.std.specs.Int.{int_min, int_max};
ghost use Rattle.il_core.specs.Expression.{expression_of};
ghost use Rattle.il_core.specs.Bounds.{only, reach, is_positive_constant, are_natural, quotient_bounds, remainder_bounds, operator_bounds, place_bounds, bounds_of, AreSmall, IsNarrow};
ghost use Rattle.il_core.specs.declared.operator.BinOp.TheVariants as op;
ghost use Rattle.line_machine.specs.Static.{bounds_in};

use il_core::{BinOp, Expr, Place};

/// The least and the greatest value that an expression can have, by its form and the ranges of its places alone.
#[derive(Clone, Copy, Debug, PartialEq, Eq)]
pub struct StaticBounds {
    /// The least value.
    pub low: i128,
    /// The greatest value.
    pub high: i128,
}

/// The static bounds of an expression, in time linear in its length. A condition has none, and 0 stands there.
///
/// Each part of the expression has static bounds within 2^126 on either side of 0.
pub fn static_bounds(places: &[Place], expr: &Expr) -> StaticBounds
    requires { IsNarrow places.now (expression_of expr.now) }
    ensures bounds { bounds_in result ≡ bounds_of places.now (expression_of expr.now) }
    ensures small { AreSmall (bounds_in result) }
{
    match expr {
        Expr::Num(value) => StaticBounds::only(*value),
        Expr::Var(place) => StaticBounds::of_place(places, *place),
        Expr::Neg(inner) => static_bounds(places, inner).negated(),
        Expr::Binary(op, left, right) => {
            let first = static_bounds(places, left);
            let second = static_bounds(places, right);
            StaticBounds::of_operator(*op, first, second)
        }
        Expr::Flag(_) | Expr::Truth(_) | Expr::Not(_) => StaticBounds::only(0),
    }
}

fn product(a: i128, b: i128) -> i128
    requires { unsigned_abs (a *ℤ b) ≤ 2 ^ 126 }
    ensures { result ≡ a *ℤ b }
{
    a * b
}

fn least(a: i128, b: i128) -> i128
    ensures { result ≡ int_min a b }
{
    a.min(b)
}

fn greatest(a: i128, b: i128) -> i128
    ensures { result ≡ int_max a b }
{
    a.max(b)
}

impl StaticBounds {
    /// The bounds of one value.
    fn only(value: i128) -> StaticBounds
        ensures { bounds_in result ≡ only value }
    {
        StaticBounds {
            low: value,
            high: value,
        }
    }

    /// The declared range of a place; 0 where there is no such place.
    fn of_place(places: &[Place], place: usize) -> StaticBounds
        ensures { bounds_in result ≡ place_bounds (slice_get places.now place) }
    {
        match places.get(place) {
            Some(place) => StaticBounds {
                low: i128::from(place.least),
                high: i128::from(place.greatest),
            },
            None => StaticBounds::only(0),
        }
    }

    /// The bounds of the opposite number.
    fn negated(self) -> StaticBounds
        requires { AreSmall (bounds_in self) }
        ensures low { result.low ≡ neg_ℤ self.high }
        ensures high { result.high ≡ neg_ℤ self.low }
    {
        StaticBounds {
            low: -self.high,
            high: -self.low,
        }
    }

    fn sum(self, other: StaticBounds) -> StaticBounds
        requires { AreSmall (operator_bounds op.Add (bounds_in self) (bounds_in other)) }
        ensures low { result.low ≡ self.low +ℤ other.low }
        ensures high { result.high ≡ self.high +ℤ other.high }
    {
        StaticBounds {
            low: self.low + other.low,
            high: self.high + other.high,
        }
    }

    fn difference(self, other: StaticBounds) -> StaticBounds
        requires { AreSmall (operator_bounds op.Sub (bounds_in self) (bounds_in other)) }
        ensures low { result.low ≡ self.low -ℤ other.high }
        ensures high { result.high ≡ self.high -ℤ other.low }
    {
        StaticBounds {
            low: self.low - other.high,
            high: self.high - other.low,
        }
    }

    /// The bounds of a factor's products with numbers between these bounds.
    fn times(self, factor: i128) -> StaticBounds
        requires low { unsigned_abs (factor *ℤ self.low) ≤ 2 ^ 126 }
        requires high { unsigned_abs (factor *ℤ self.high) ≤ 2 ^ 126 }
        ensures low { result.low ≡ int_min (factor *ℤ self.low) (factor *ℤ self.high) }
        ensures high { result.high ≡ int_max (factor *ℤ self.low) (factor *ℤ self.high) }
    {
        let first = product(factor, self.low);
        let second = product(factor, self.high);
        StaticBounds {
            low: least(first, second),
            high: greatest(first, second),
        }
    }

    /// The least and the greatest of both.
    fn joined(self, other: StaticBounds) -> StaticBounds
        ensures low { result.low ≡ int_min self.low other.low }
        ensures high { result.high ≡ int_max self.high other.high }
    {
        StaticBounds {
            low: least(self.low, other.low),
            high: greatest(self.high, other.high),
        }
    }

    #[tactic(auto, using(crate::proofs::Four::four_small))]
    fn product(self, other: StaticBounds) -> StaticBounds
        requires { AreSmall (operator_bounds op.Mul (bounds_in self) (bounds_in other)) }
        ensures low { result.low ≡ int_min (int_min (self.low *ℤ other.low) (self.low *ℤ other.high)) (int_min (self.high *ℤ other.low) (self.high *ℤ other.high)) }
        ensures high { result.high ≡ int_max (int_max (self.low *ℤ other.low) (self.low *ℤ other.high)) (int_max (self.high *ℤ other.low) (self.high *ℤ other.high)) }
    {
        let first = other.times(self.low);
        let second = other.times(self.high);
        first.joined(second)
    }

    /// The greater absolute value of the bounds.
    fn reach(self) -> i128
        requires { AreSmall (bounds_in self) }
        ensures { result ≡ pos (reach (bounds_in self)) }
    {
        self.low.unsigned_abs().max(self.high.unsigned_abs()) as i128
    }

    fn is_positive_constant(self) -> bool
        ensures { result ≡ is_positive_constant (bounds_in self) }
    {
        self.low == self.high && 0 < self.low
    }

    fn are_natural(self, other: StaticBounds) -> bool
        ensures { result ≡ are_natural (bounds_in self) (bounds_in other) }
    {
        0 <= self.low && 0 <= other.low
    }

    fn quotient(self, divisor: StaticBounds) -> StaticBounds
        requires { AreSmall (bounds_in self) }
        ensures { bounds_in result ≡ quotient_bounds (bounds_in self) (bounds_in divisor) }
    {
        if divisor.is_positive_constant() {
            StaticBounds {
                low: self.low.div_euclid(divisor.low),
                high: self.high.div_euclid(divisor.low),
            }
        } else if self.are_natural(divisor) {
            StaticBounds {
                low: 0,
                high: self.high,
            }
        } else {
            let reach = self.reach();
            StaticBounds {
                low: -reach,
                high: reach,
            }
        }
    }

    fn remainder(divisor: StaticBounds) -> StaticBounds
        requires { AreSmall (bounds_in divisor) }
        ensures { bounds_in result ≡ remainder_bounds (bounds_in divisor) }
    {
        let greatest = divisor.reach() - 1;
        StaticBounds {
            low: 0,
            high: greatest.max(0),
        }
    }

    /// The bounds of an operator over its sides' bounds.
    fn of_operator(op: BinOp, left: StaticBounds, right: StaticBounds) -> StaticBounds
        requires left { AreSmall (bounds_in left) }
        requires right { AreSmall (bounds_in right) }
        requires outcome { AreSmall (operator_bounds op (bounds_in left) (bounds_in right)) }
        ensures { bounds_in result ≡ operator_bounds op (bounds_in left) (bounds_in right) }
    {
        match op {
            BinOp::Add => left.sum(right),
            BinOp::Sub => left.difference(right),
            BinOp::Mul => left.product(right),
            BinOp::Div => left.quotient(right),
            BinOp::Mod => StaticBounds::remainder(right),
            BinOp::Compare(_) | BinOp::And | BinOp::Or => StaticBounds::only(0),
        }
    }
}
