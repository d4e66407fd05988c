ghost use Rattle.std.specs.Prelude.{◌≡◌, ◌≤◌, ◌^◌, pos, unsigned_abs};
ghost use Rattle.il_core.specs.Bounds.{only, spanning, reach, is_positive_constant, are_natural, quotient_bounds, remainder_bounds, operator_bounds};
ghost use Rattle.il_core.specs.declared.operator.BinOp.TheVariants as op;
ghost use Rattle.il_types.specs.Narrow.{is_small, if_small, opposite_bounds};

use il_core::BinOp;
use std::marker::Model;

/// The greatest absolute value of a static bound.
const BOUND_LIMIT: u128 = 1 << 126;

/// Static bounds, each at most 2^126 on either side of 0.
#[derive(Clone, Copy)]
pub struct Bounds {
    low: i128,
    high: i128,
}

impl Model for Bounds {
    ghost use Rattle.std.specs.Prelude.{◌≡◌, true, refl};
    ghost use Rattle.il_core.specs.Bounds.{Bounds};
    ghost use Rattle.il_types.specs.Narrow.{is_small};

    ghost Value = { Bounds };

    ghost view = { λ b. record { low = b.low; high = b.high } };

    ghost invariant = { λ b. (is_small b.low ≡ true) × (is_small b.high ≡ true) };

    ghost inverse = { λ v. record { low = v.low; high = v.high } };

    ghost inverse_ok = { λ a h. refl };
}

fn is_small(value: i128) -> bool
    ensures { result ≡ is_small value }
{
    value.unsigned_abs() <= BOUND_LIMIT
}

impl Bounds {
    /// These bounds; `None` where one is above the limit.
    pub(crate) fn new(low: i128, high: i128) -> Option<Bounds>
        ensures { result ≡ if_small (record { low = low; high = high }) }
    {
        if is_small(low) && is_small(high) {
            Some(Bounds { low, high })
        } else {
            None
        }
    }

    /// The bounds of a condition.
    pub(crate) fn none() -> Bounds
        ensures { result ≡ only (pos 0) }
    {
        Bounds { low: 0, high: 0 }
    }

    /// The bounds of one value.
    pub(crate) fn only(value: i128) -> Option<Bounds>
        ensures { result ≡ if_small (only value) }
    {
        Bounds::new(value, value)
    }

    fn low(&self) -> i128
        ensures value { result ≡ self.now.low }
        ensures small { unsigned_abs result ≤ 2 ^ 126 }
    {
        self.low
    }

    fn high(&self) -> i128
        ensures value { result ≡ self.now.high }
        ensures small { unsigned_abs result ≤ 2 ^ 126 }
    {
        self.high
    }

    /// The bounds of the opposite number.
    pub(crate) fn negated(self) -> Option<Bounds>
        ensures { result ≡ if_small (opposite_bounds self) }
    {
        Bounds::new(-self.high(), -self.low())
    }

    fn sum(self, other: Bounds) -> Option<Bounds>
        ensures { result ≡ if_small (operator_bounds op.Add self other) }
    {
        Bounds::new(
            self.low().saturating_add(other.low()),
            self.high().saturating_add(other.high()),
        )
    }

    fn difference(self, other: Bounds) -> Option<Bounds>
        ensures { result ≡ if_small (operator_bounds op.Sub self other) }
    {
        Bounds::new(
            self.low().saturating_sub(other.high()),
            self.high().saturating_sub(other.low()),
        )
    }

    /// A product that overflows is above the limit, and so is the least or the greatest product then.
    fn product(self, other: Bounds) -> Option<Bounds>
        ensures { result ≡ if_small (operator_bounds op.Mul self other) }
    {
        let first = self.low().saturating_mul(other.low());
        let second = self.low().saturating_mul(other.high());
        let third = self.high().saturating_mul(other.low());
        let fourth = self.high().saturating_mul(other.high());
        Bounds::new(
            first.min(second).min(third.min(fourth)),
            first.max(second).max(third.max(fourth)),
        )
    }

    /// The greater absolute value of the bounds.
    fn reach(&self) -> i128
        ensures value { result ≡ pos (reach self.now) }
        ensures small { unsigned_abs result ≤ 2 ^ 126 }
    {
        self.low().unsigned_abs().max(self.high().unsigned_abs()) as i128
    }

    fn is_positive_constant(&self) -> bool
        ensures { result ≡ is_positive_constant self.now }
    {
        self.low() == self.high() && 0 < self.low()
    }

    fn are_natural(&self, other: &Bounds) -> bool
        ensures { result ≡ are_natural self.now other.now }
    {
        0 <= self.low() && 0 <= other.low()
    }

    fn quotient(self, divisor: Bounds) -> Option<Bounds>
        ensures { result ≡ if_small (quotient_bounds self divisor) }
    {
        if divisor.is_positive_constant() {
            let by = divisor.low();
            Bounds::new(self.low().div_euclid(by), self.high().div_euclid(by))
        } else if self.are_natural(&divisor) {
            Bounds::new(0, self.high())
        } else {
            let reach = self.reach();
            Bounds::new(-reach, reach)
        }
    }

    fn remainder(divisor: Bounds) -> Option<Bounds>
        ensures { result ≡ if_small (remainder_bounds divisor) }
    {
        let greatest = divisor.reach() - 1;
        Bounds::new(0, greatest.max(0))
    }

    /// The bounds of an operator over its sides' bounds; `None` where they are above the limit.
    pub(crate) fn of_operator(op: BinOp, left: Bounds, right: Bounds) -> Option<Bounds>
        ensures { result ≡ if_small (operator_bounds op left right) }
    {
        match op {
            BinOp::Add => left.sum(right),
            BinOp::Sub => left.difference(right),
            BinOp::Mul => left.product(right),
            BinOp::Div => left.quotient(right),
            BinOp::Mod => Bounds::remainder(right),
            BinOp::Compare(_) => Bounds::only(0),
            BinOp::And => Bounds::only(0),
            BinOp::Or => Bounds::only(0),
        }
    }
}
