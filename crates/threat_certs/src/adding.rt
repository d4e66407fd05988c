//! Sums of numbers and atoms with coefficients, in the order of the atoms. Two are added as sums of sparse polynomials are
//! (D. E. Knuth, The Art of Computer Programming, volume 1, 1968), in as many steps as both have parts.
ghost use Rattle.std.specs.Prelude.{◌≡◌, ◌<◌, ◌*◌, ◌^◌, ◌≤◌, ◌++◌, [], ◌∷◌, Some, length, drop, slice_get, unsigned_abs, ◌+ℤ◌, ◌*ℤ◌, pos, OnOk, IfOk, if◌then◌else◌};
ghost use Rattle.std.specs.Ordering.{int_eq};
ghost use Rattle.sym_simplify.specs.Form.{place};
ghost use Rattle.sym_simplify.specs.Held.{factor_of};
ghost use Rattle.sym_simplify.specs.Merge.{merge, scale_parts};
ghost use Rattle.sym_simplify.specs.Order.{factor_cmp};
ghost use Rattle.threat_certs.specs.Adding.{factor_in, with_coefficient, total_in, AreNumbersWithin};

use crate::comparing::compare_atoms;
use il_core::NoMemory;
use std::alloc::Global;
use std::cmp::Ordering;
use sym_simplify::Atom;

/// What is counted: a place, or an atom that a literal holds.
#[derive(Clone, Copy)]
pub enum Indeterminate<'a> {
    /// The value of a place.
    Place(usize),
    /// An atom.
    Held(&'a Atom),
}

/// An indeterminate as often as a coefficient says.
#[derive(Clone, Copy)]
pub struct Counted<'a> {
    /// How often.
    pub coefficient: i128,
    /// What.
    pub factor: Indeterminate<'a>,
}

/// A number and counted indeterminates, whose atoms ascend.
#[derive(Drop)]
pub struct Total<'a> {
    /// The number.
    pub constant: i128,
    /// The parts.
    pub parts: Vec<Counted<'a>>,
}

/// How a place compares to an atom.
fn compare_place(number: usize, atom: &Atom) -> Ordering
    ensures { result ≡ factor_cmp (place number) (factor_of atom.now) }
{
    match atom {
        Atom::Var(other) => number.cmp(other),
        Atom::Mul(_, _) | Atom::Div(_, _) | Atom::Mod(_, _) => Ordering::Less,
    }
}

/// How an atom compares to a place.
fn compare_to_place(atom: &Atom, number: usize) -> Ordering
    ensures { result ≡ factor_cmp (factor_of atom.now) (place number) }
{
    match atom {
        Atom::Var(other) => other.cmp(&number),
        Atom::Mul(_, _) | Atom::Div(_, _) | Atom::Mod(_, _) => Ordering::Greater,
    }
}

/// How two indeterminates compare.
fn compare(left: &Counted<'_>, right: &Counted<'_>) -> Ordering
    ensures { result ≡ factor_cmp (factor_in left.now.factor) (factor_in right.now.factor) }
{
    match left.factor {
        Indeterminate::Place(number) => match right.factor {
            Indeterminate::Place(other) => number.cmp(&other),
            Indeterminate::Held(other) => compare_place(number, other),
        },
        Indeterminate::Held(atom) => match right.factor {
            Indeterminate::Place(other) => compare_to_place(atom, other),
            Indeterminate::Held(other) => compare_atoms(atom, other),
        },
    }
}

/// A part again.
fn part_at<'a>(parts: &[Counted<'a>], at: usize) -> Counted<'a>
    requires { at < length parts.now }
    ensures { slice_get parts.now at ≡ Some result }
{
    parts[at]
}

/// Adds the second part with the sum of both coefficients, unless that is 0.
fn push_sum<'a>(
    parts: &mut Vec<Counted<'a>>,
    part: &Counted<'a>,
    other: &Counted<'a>,
) -> Result<(), NoMemory>
    requires left { unsigned_abs part.now.coefficient ≤ 2 ^ 125 }
    requires right { unsigned_abs other.now.coefficient ≤ 2 ^ 125 }
    ensures { OnOk result (parts.new.items ≡ (if int_eq (part.now.coefficient +ℤ other.now.coefficient) (pos 0) then parts.old.items else parts.old.items ++ with_coefficient (part.now.coefficient +ℤ other.now.coefficient) other.now ∷ [])) }
{
    let coefficient = part.coefficient + other.coefficient;
    if coefficient != 0 {
        parts.push(Counted {
            coefficient,
            factor: other.factor,
        })?;
    }
    Ok(())
}

/// Adds the parts from a position on.
fn append_from<'a>(
    parts: &mut Vec<Counted<'a>>,
    more: &[Counted<'a>],
    from: usize,
) -> Result<(), NoMemory>
    requires { from ≤ length more.now }
    ensures { OnOk result (parts.new.items ≡ parts.old.items ++ drop from more.now) }
{
    parts.extend_from_slice(&more[from..])?;
    Ok(())
}

/// The parts with the sum of the constants.
fn with_sum<'a>(left: &Total<'a>, right: &Total<'a>, parts: Vec<Counted<'a>>) -> Total<'a>
    requires left { unsigned_abs left.now.constant ≤ 2 ^ 125 }
    requires right { unsigned_abs right.now.constant ≤ 2 ^ 125 }
    ensures constant { result.constant ≡ left.now.constant +ℤ right.now.constant }
    ensures parts { result.parts.items ≡ parts.entry.items }
{
    Total {
        constant: left.constant + right.constant,
        parts,
    }
}

/// The parts with the constant multiplied.
fn with_multiple<'a>(factor: i128, total: &Total<'a>, parts: Vec<Counted<'a>>) -> Total<'a>
    requires { unsigned_abs factor * unsigned_abs total.now.constant < 2 ^ 120 }
    ensures constant { result.constant ≡ factor *ℤ total.now.constant }
    ensures parts { result.parts.items ≡ parts.entry.items }
{
    Total {
        constant: factor * total.constant,
        parts,
    }
}

fn times_part<'a>(factor: i128, part: &Counted<'a>) -> Counted<'a>
    requires { unsigned_abs factor * unsigned_abs part.now.coefficient < 2 ^ 120 }
    ensures { result ≡ with_coefficient (factor *ℤ part.now.coefficient) part.now }
{
    Counted {
        coefficient: factor * part.coefficient,
        factor: part.factor,
    }
}

impl<'a> Total<'a> {
    /// The sum of both.
    pub fn plus(&self, alloc: Global, other: &Total<'a>) -> Result<Total<'a>, NoMemory>
        requires left { AreNumbersWithin (2 ^ 125) (total_in self.now) }
        requires right { AreNumbersWithin (2 ^ 125) (total_in other.now) }
        ensures { IfOk result (λ t. total_in t ≡ merge (total_in self.now) (total_in other.now)) }
    {
        let mut parts = Vec::new(alloc);
        let mut i = 0;
        let mut j = 0;
        while i < self.parts.len() && j < other.parts.len() {
            let first = part_at(&self.parts, i);
            let second = part_at(&other.parts, j);
            match compare(&first, &second) {
                Ordering::Less => {
                    parts.push(first)?;
                    i += 1;
                }
                Ordering::Equal => {
                    push_sum(&mut parts, &first, &second)?;
                    i += 1;
                    j += 1;
                }
                Ordering::Greater => {
                    parts.push(second)?;
                    j += 1;
                }
            }
        }
        append_from(&mut parts, &self.parts, i)?;
        append_from(&mut parts, &other.parts, j)?;
        Ok(with_sum(self, other, parts))
    }

    /// The total as often as a factor says.
    pub fn times(&self, alloc: Global, factor: i128) -> Result<Total<'a>, NoMemory>
        requires factor { unsigned_abs factor ≤ 2 ^ 16 }
        requires small { AreNumbersWithin (2 ^ 102) (total_in self.now) }
        ensures { IfOk result (λ t. total_in t ≡ scale_parts factor (total_in self.now)) }
    {
        let mut parts = Vec::new(alloc);
        for part in &self.parts {
            parts.push(times_part(factor, part))?;
        }
        Ok(with_multiple(factor, self, parts))
    }
}
