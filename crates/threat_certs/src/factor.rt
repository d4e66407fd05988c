//! The greatest common factor of a literal's coefficients (Euclid, Elements, book VII), and the parts divided by it.
ghost use Rattle.std.specs.Prelude.{◌≡◌, ◌≤◌, ◌^◌, ◌<ℤ◌, pos, unsigned_abs, IfOk};
ghost use Rattle.std.specs.Int.{int_div_euclid, IsGcd};
ghost use Rattle.sym_simplify.specs.Easy.{AreCoefficientsWithin};
ghost use Rattle.sym_simplify.specs.Held.{factor_of, form_of};
ghost use Rattle.sym_simplify.specs.Literal.{BeginsAboveZero};
ghost use Rattle.sym_simplify.specs.Normal.{constant_of};
ghost use Rattle.threat_certs.specs.Adding.{divided, factor_in, total_in};
ghost use Rattle.cert_rules.specs.Quantity.{IsReduced};

use crate::adding::{Counted, Indeterminate, Total};
use il_core::NoMemory;
use std::alloc::Global;
use sym_simplify::{Normal, Part};

/// The greatest common divisor of two numbers.
fn greatest_divisor(a: u128, b: u128) -> u128
    ensures { IsGcd a b result }
{
    let mut x = a;
    let mut y = b;
    while y != 0 {
        let rest = x % y;
        x = y;
        y = rest;
    }
    x
}

/// How far a coefficient is from 0.
fn size_of(part: &Part) -> u128
    ensures { result ≡ unsigned_abs part.now.coefficient }
{
    part.coefficient.unsigned_abs()
}

/// The greatest number that divides each coefficient.
fn divisor_of(sum: &Normal) -> u128
    requires constant { constant_of (form_of sum.now) ≡ pos 0 }
    requires first { BeginsAboveZero (form_of sum.now) }
    requires coefficients { AreCoefficientsWithin (2 ^ 100) (form_of sum.now) }
    ensures small { result ≤ 2 ^ 100 }
    ensures reduced { IsReduced (form_of sum.now) result (divided (pos result) (pos 0) (form_of sum.now)) }
{
    let mut divisor = 0;
    for part in sum.parts.as_slice() {
        divisor = greatest_divisor(divisor, size_of(part));
    }
    divisor
}

/// The greatest number that divides each coefficient.
pub fn common_factor(sum: &Normal) -> i128
    requires constant { constant_of (form_of sum.now) ≡ pos 0 }
    requires first { BeginsAboveZero (form_of sum.now) }
    requires coefficients { AreCoefficientsWithin (2 ^ 100) (form_of sum.now) }
    ensures above { pos 0 <ℤ result }
    ensures reduced { IsReduced (form_of sum.now) (unsigned_abs result) (divided result (pos 0) (form_of sum.now)) }
{
    divisor_of(sum) as i128
}

/// A part divided by a number.
fn divided_part(part: &Part, factor: i128) -> Counted<'_>
    requires { pos 0 <ℤ factor }
    ensures coefficient { result.coefficient ≡ int_div_euclid part.now.coefficient factor }
    ensures factor { factor_in result.factor ≡ factor_of part.now.atom }
{
    Counted {
        coefficient: part.coefficient.div_euclid(factor),
        factor: Indeterminate::Held(&part.atom),
    }
}

/// The parts divided by a number, and another constant.
pub fn divided_by<'a>(
    alloc: Global,
    sum: &'a Normal,
    factor: i128,
    constant: i128,
) -> Result<Total<'a>, NoMemory>
    requires { pos 0 <ℤ factor }
    ensures { IfOk result (λ t. total_in t ≡ divided factor constant (form_of sum.now)) }
{
    let mut parts = Vec::new(alloc);
    for part in sum.parts.as_slice() {
        parts.push(divided_part(part, factor))?;
    }
    Ok(Total { constant, parts })
}
