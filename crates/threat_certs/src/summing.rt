//! Sums of shares.
ghost use Rattle.std.specs.Prelude.{◌≡◌, ◌≤◌, ◌<◌, ◌<ℤ◌, ◌^◌, ◌↔◌, pos, All, Some, IfOk, IsTrue, length, slice_get};
ghost use Rattle.sym_simplify.specs.Easy.{IsKept};
ghost use Rattle.sym_simplify.specs.Literal.{literal_form_of};
ghost use Rattle.cert_rules.specs.Acceptance.{IsNegativeSum, IsSumOf};
ghost use Rattle.threat_certs.specs.Measuring.{on_sides, IsMeasured, IsShareOf};

use crate::adding::Total;
use crate::quantity::{Subject, quantity_of};
use il_core::{NoMemory, Relation, Share};
use std::alloc::Global;

/// The greatest number of shares of a sum.
const SHARES: usize = 128;

/// The greatest factor of a share.
const TIMES: u32 = 65_536;

/// The quantity of a share's item as often as its factor says; `None` exactly where it has none, or the factor is not
/// allowed.
fn share_of<'a>(
    alloc: Global,
    subject: &Subject<'a>,
    sides: &[Option<Relation>],
    share: Share,
) -> Result<Option<Total<'a>>, NoMemory>
    requires kept { All (λ l. IsKept (literal_form_of l)) subject.now.literals.now }
    requires sides { length sides.now ≡ length subject.now.literals.now }
    ensures { IfOk result (IsMeasured (2 ^ 117) (IsShareOf subject.now.places.now subject.now.pc (on_sides subject.now.literals.now sides.now) share)) }
{
    if share.times == 0 || share.times > TIMES {
        return Ok(None);
    }
    match quantity_of(alloc, subject, sides, share.item)? {
        Some(quantity) => Ok(Some(quantity.times(alloc, i128::from(share.times))?)),
        None => Ok(None),
    }
}

fn share_at(shares: &[Share], at: usize) -> Share
    requires { at < length shares.now }
    ensures { slice_get shares.now at ≡ Some result }
{
    shares[at]
}

/// The sum of shares; `None` exactly where one of them has no quantity, or a factor that is not allowed.
fn sum_of<'a>(
    alloc: Global,
    subject: &Subject<'a>,
    sides: &[Option<Relation>],
    shares: &[Share],
) -> Result<Option<Total<'a>>, NoMemory>
    requires kept { All (λ l. IsKept (literal_form_of l)) subject.now.literals.now }
    requires sides { length sides.now ≡ length subject.now.literals.now }
    requires few { length shares.now ≤ 128 }
    ensures { IfOk result (IsMeasured (2 ^ 125) (IsSumOf subject.now.places.now subject.now.pc (on_sides subject.now.literals.now sides.now) shares.now)) }
{
    let mut sum = Total {
        constant: 0,
        parts: Vec::new(alloc),
    };
    let mut left = shares.len();
    while left > 0 {
        left -= 1;
        let share = share_at(shares, left);
        match share_of(alloc, subject, sides, share)? {
            Some(more) => sum = more.plus(alloc, &sum)?,
            None => return Ok(None),
        }
    }
    Ok(Some(sum))
}

/// Whether nothing but a number below 0 is left.
fn is_negative(sum: &Total<'_>) -> bool
    ensures { IsTrue result ↔ ((length sum.now.parts.items ≤ 0) × (sum.now.constant <ℤ pos 0)) }
{
    sum.parts.is_empty() && sum.constant < 0
}

/// Whether 1 to 128 shares come to a number below 0. No shares come to 0.
pub fn is_negative_sum(
    alloc: Global,
    subject: &Subject<'_>,
    sides: &[Option<Relation>],
    shares: &[Share],
) -> Result<bool, NoMemory>
    requires kept { All (λ l. IsKept (literal_form_of l)) subject.now.literals.now }
    requires sides { length sides.now ≡ length subject.now.literals.now }
    ensures { IfOk result (λ b. IsTrue b ↔ IsNegativeSum subject.now.places.now subject.now.pc (on_sides subject.now.literals.now sides.now) shares.now) }
{
    if shares.len() > SHARES {
        return Ok(false);
    }
    match sum_of(alloc, subject, sides, shares)? {
        Some(sum) => Ok(is_negative(&sum)),
        None => Ok(false),
    }
}
