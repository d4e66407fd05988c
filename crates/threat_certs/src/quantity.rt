//! The quantity of an item, as a number and counted atoms.
ghost use Rattle.std.specs.Prelude.{◌≡◌, ℕ, ◌≤◌, ◌<◌, ◌^◌, [], All, List, Option, Some, MatchOption, length, slice_get, unsigned_abs, pos, neg_ℤ, ◌<ℤ◌, IfOk};
ghost use Rattle.std.specs.Int.{int_div_euclid};
ghost use Rattle.il_core.specs.declared.certificate.Item.TheVariants.{Up, Down, Never, Low, High, OldUp, OldDown};
ghost use Rattle.il_core.specs.declared.operator.Relation.{Relation as Side};
ghost use Rattle.il_core.specs.Run.{inout_from, variable_count};
ghost use Rattle.sym_simplify.specs.Easy.{IsKept};
ghost use Rattle.sym_simplify.specs.Form.{constant, part, place};
ghost use Rattle.sym_simplify.specs.Literal.{literal_form_of};
ghost use Rattle.sym_simplify.specs.Norm.{normal_of};
ghost use Rattle.threat_certs.specs.Adding.{total_in};
ghost use Rattle.threat_certs.specs.Measuring.{form_in, on_side, on_sides, IsComparison, IsMeasured, IsNeverOf};
ghost use Rattle.cert_rules.specs.Quantity.{highest, lowest, less, IsCopyOf, IsDown, IsQuantity, IsUp};

use crate::adding::{Counted, Indeterminate, Total};
use crate::factor::{common_factor, divided_by};
use il_core::{Item, Mode, NoMemory, Place, Relation};
use std::alloc::Global;
use sym_simplify::{Kept, LitForm};

/// What a certificate speaks of.
#[derive(Clone, Copy)]
pub struct Subject<'a> {
    /// The places of the procedure.
    pub places: &'a [Place],
    /// The first line of the threat's region.
    pub pc: usize,
    /// The forms of the threat's literals.
    pub literals: &'a [LitForm],
}

/// A literal that compares parts to a number, on the side that is looked at.
#[derive(Clone, Copy)]
pub struct Comparison<'a> {
    /// The parts and the number.
    pub kept: &'a Kept,
    /// How they compare.
    pub relation: Relation,
}

/// The greatest whole number that a relation to a bound allows; `None` where there is none.
fn highest(relation: Relation, bound: i128) -> Option<i128>
    requires { unsigned_abs bound ≤ 2 ^ 100 }
    ensures { result ≡ highest relation bound }
{
    match relation {
        Relation::Eq | Relation::Le => Some(bound),
        Relation::Lt => Some(bound - 1),
        Relation::Ne | Relation::Gt | Relation::Ge => None,
    }
}

/// The least whole number that a relation to a bound allows; `None` where there is none.
fn lowest(relation: Relation, bound: i128) -> Option<i128>
    requires { unsigned_abs bound ≤ 2 ^ 100 }
    ensures { result ≡ lowest relation bound }
{
    match relation {
        Relation::Eq | Relation::Ge => Some(bound),
        Relation::Gt => Some(bound + 1),
        Relation::Ne | Relation::Lt | Relation::Le => None,
    }
}

/// What a literal compares, on a side; `None` where it compares nothing.
fn comparison_on<'a>(literal: &'a LitForm, side: Option<Relation>) -> Option<Comparison<'a>>
    requires { IsKept (literal_form_of literal.now) }
    ensures { IsComparison (Some (on_side (literal_form_of literal.now) side)) result }
{
    match literal {
        LitForm::Always | LitForm::Never => None,
        LitForm::Keep(kept) => Some(Comparison {
            kept,
            relation: side.unwrap_or(kept.relation),
        }),
    }
}

/// The side of the literal at a position that is looked at, if it is split.
pub fn side_at(sides: &[Option<Relation>], at: usize) -> Option<Relation>
    requires { at < length sides.now }
    ensures { slice_get sides.now at ≡ Some result }
{
    sides[at]
}

/// What a literal compares, on the side that is looked at; `None` where it compares nothing.
pub fn comparison_at<'a>(
    subject: &Subject<'a>,
    sides: &[Option<Relation>],
    at: usize,
) -> Option<Comparison<'a>>
    requires kept { All (λ l. IsKept (literal_form_of l)) subject.now.literals.now }
    requires sides { length sides.now ≡ length subject.now.literals.now }
    ensures { IsComparison (slice_get (on_sides subject.now.literals.now sides.now) at) result }
{
    match subject.literals.get(at) {
        Some(literal) => comparison_on(literal, side_at(sides, at)),
        None => None,
    }
}

/// The greatest whole number that a literal allows; `None` where there is none.
fn most_of(literal: &Comparison<'_>) -> Option<i128>
    requires { unsigned_abs literal.now.kept.now.bound ≤ 2 ^ 100 }
    ensures { result ≡ highest literal.now.relation literal.now.kept.now.bound }
{
    highest(literal.relation, literal.kept.bound)
}

/// The least whole number that a literal allows; `None` where there is none.
fn fewest_of(literal: &Comparison<'_>) -> Option<i128>
    requires { unsigned_abs literal.now.kept.now.bound ≤ 2 ^ 100 }
    ensures { result ≡ lowest literal.now.relation literal.now.kept.now.bound }
{
    lowest(literal.relation, literal.kept.bound)
}

/// The negated quotient, rounded down.
fn negated_floor(most: i128, factor: i128) -> i128
    requires above { pos 0 <ℤ factor }
    requires small { unsigned_abs most ≤ 2 ^ 101 }
    ensures { result ≡ neg_ℤ (int_div_euclid most factor) }
{
    -most.div_euclid(factor)
}

/// The negated quotient, rounded up.
fn negated_ceiling(fewest: i128, factor: i128) -> i128
    requires above { pos 0 <ℤ factor }
    requires small { unsigned_abs fewest ≤ 2 ^ 101 }
    ensures { result ≡ int_div_euclid (neg_ℤ fewest) factor }
{
    (-fewest).div_euclid(factor)
}

/// The quotient of the greatest number that a literal allows, rounded down, less the reduced parts.
fn up<'a>(alloc: Global, literal: &Comparison<'a>) -> Result<Option<Total<'a>>, NoMemory>
    requires { IsKept (form_in literal.now) }
    ensures { IfOk result (IsMeasured (2 ^ 101) (IsUp (form_in literal.now))) }
{
    let Some(most) = most_of(literal) else {
        return Ok(None);
    };
    let factor = common_factor(&literal.kept.sum);
    let floor = negated_floor(most, factor);
    let negated = divided_by(alloc, &literal.kept.sum, factor, floor)?;
    Ok(Some(negated.times(alloc, -1)?))
}

/// The reduced parts less the quotient of the least number that a literal allows, rounded up.
fn down<'a>(alloc: Global, literal: &Comparison<'a>) -> Result<Option<Total<'a>>, NoMemory>
    requires { IsKept (form_in literal.now) }
    ensures { IfOk result (IsMeasured (2 ^ 101) (IsDown (form_in literal.now))) }
{
    let Some(fewest) = fewest_of(literal) else {
        return Ok(None);
    };
    let factor = common_factor(&literal.kept.sum);
    let ceiling = negated_ceiling(fewest, factor);
    Ok(Some(divided_by(alloc, &literal.kept.sum, factor, ceiling)?))
}

/// A place as often as a coefficient says, and a number.
fn single<'a>(
    alloc: Global,
    coefficient: i128,
    number: usize,
    offset: i128,
) -> Result<Total<'a>, NoMemory>
    ensures { IfOk result (λ t. total_in t ≡ part coefficient (place number) (constant offset)) }
{
    let mut parts = Vec::new(alloc);
    parts.push(Counted {
        coefficient,
        factor: Indeterminate::Place(number),
    })?;
    Ok(Total {
        constant: offset,
        parts,
    })
}

/// One place less another.
fn difference<'a>(alloc: Global, left: usize, right: usize) -> Result<Total<'a>, NoMemory>
    ensures { IfOk result (λ t. total_in t ≡ normal_of (less left right)) }
{
    let first = single(alloc, 1, left, 0)?;
    let second = single(alloc, -1, right, 0)?;
    first.plus(alloc, &second)
}

/// The number of variables among places.
fn variables_in(places: &[Place]) -> usize
    ensures { result ≡ variable_count places.now }
{
    let mut count = 0;
    for place in places {
        if !place.old {
            count += 1;
        }
    }
    count
}

/// The place of the INOUT variable of this number.
fn inout_at(places: &[Place], number: usize) -> Option<usize>
    ensures { result ≡ slice_get (inout_from 0 places.now) number }
{
    let mut left = number;
    for (index, place) in places.iter().enumerate() {
        if !place.old && place.mode == Mode::InOut {
            if left == 0 {
                return Some(index);
            }
            left -= 1;
        }
    }
    None
}

/// The variable of an OLD copy; `None` where the place is none.
fn variable_of(places: &[Place], copy: usize) -> Option<usize>
    ensures { MatchOption result ((v : ℕ) → IsCopyOf places.now v copy → ⊥) (λ v. IsCopyOf places.now v copy) }
{
    let number = copy.checked_sub(variables_in(places))?;
    inout_at(places, number)
}

/// The variable of an OLD copy less the copy, at line 0.
fn old_up<'a>(
    alloc: Global,
    subject: &Subject<'a>,
    copy: usize,
) -> Result<Option<Total<'a>>, NoMemory>
    ensures { IfOk result (IsMeasured (2 ^ 101) (IsQuantity subject.now.places.now subject.now.pc [] (OldUp copy))) }
{
    if subject.pc != 0 {
        return Ok(None);
    }
    match variable_of(subject.places, copy) {
        Some(variable) => Ok(Some(difference(alloc, variable, copy)?)),
        None => Ok(None),
    }
}

/// An OLD copy less its variable, at line 0.
fn old_down<'a>(
    alloc: Global,
    subject: &Subject<'a>,
    copy: usize,
) -> Result<Option<Total<'a>>, NoMemory>
    ensures { IfOk result (IsMeasured (2 ^ 101) (IsQuantity subject.now.places.now subject.now.pc [] (OldDown copy))) }
{
    if subject.pc != 0 {
        return Ok(None);
    }
    match variable_of(subject.places, copy) {
        Some(variable) => Ok(Some(difference(alloc, copy, variable)?)),
        None => Ok(None),
    }
}

/// Where a literal never holds, a number below 0 is at least 0 wherever it does.
fn never_total<'a>(alloc: Global, literal: &LitForm) -> Option<Total<'a>>
    ensures { IsMeasured (2 ^ 101) (IsNeverOf (literal_form_of literal.now)) result }
{
    match literal {
        LitForm::Never => Some(Total {
            constant: -1,
            parts: Vec::new(alloc),
        }),
        LitForm::Always | LitForm::Keep(_) => None,
    }
}

/// The same for the literal at a position.
fn never_at<'a>(alloc: Global, subject: &Subject<'a>, at: usize) -> Option<Total<'a>>
    ensures { (sides : List (Option Side)) → length sides ≡ length subject.now.literals.now → IsMeasured (2 ^ 101) (IsQuantity subject.now.places.now subject.now.pc (on_sides subject.now.literals.now sides) (Never at)) result }
{
    match subject.literals.get(at) {
        Some(literal) => never_total(alloc, literal),
        None => None,
    }
}

/// The negated least value of a place.
fn negated_least(place: &Place) -> i128
    ensures value { result ≡ neg_ℤ place.now.least }
    ensures small { unsigned_abs result ≤ 2 ^ 63 }
{
    -i128::from(place.least)
}

/// The greatest value of a place.
fn greatest_of(place: &Place) -> i128
    ensures value { result ≡ place.now.greatest }
    ensures small { unsigned_abs result ≤ 2 ^ 63 }
{
    i128::from(place.greatest)
}

/// How far a place is from the least value of its range.
fn low<'a>(alloc: Global, subject: &Subject<'a>, at: usize) -> Result<Option<Total<'a>>, NoMemory>
    ensures { IfOk result (IsMeasured (2 ^ 101) (IsQuantity subject.now.places.now subject.now.pc [] (Low at))) }
{
    match subject.places.get(at) {
        Some(place) => Ok(Some(single(alloc, 1, at, negated_least(place))?)),
        None => Ok(None),
    }
}

/// How far a place is from the greatest value of its range.
fn high<'a>(alloc: Global, subject: &Subject<'a>, at: usize) -> Result<Option<Total<'a>>, NoMemory>
    ensures { IfOk result (IsMeasured (2 ^ 101) (IsQuantity subject.now.places.now subject.now.pc [] (High at))) }
{
    match subject.places.get(at) {
        Some(place) => Ok(Some(single(alloc, -1, at, greatest_of(place))?)),
        None => Ok(None),
    }
}

/// The quantity of what the literal at a position allows at most.
fn up_at<'a>(
    alloc: Global,
    subject: &Subject<'a>,
    sides: &[Option<Relation>],
    at: usize,
) -> Result<Option<Total<'a>>, NoMemory>
    requires kept { All (λ l. IsKept (literal_form_of l)) subject.now.literals.now }
    requires sides { length sides.now ≡ length subject.now.literals.now }
    ensures { IfOk result (IsMeasured (2 ^ 101) (IsQuantity subject.now.places.now subject.now.pc (on_sides subject.now.literals.now sides.now) (Up at))) }
{
    match comparison_at(subject, sides, at) {
        Some(literal) => up(alloc, &literal),
        None => Ok(None),
    }
}

/// The quantity of what the literal at a position allows at least.
fn down_at<'a>(
    alloc: Global,
    subject: &Subject<'a>,
    sides: &[Option<Relation>],
    at: usize,
) -> Result<Option<Total<'a>>, NoMemory>
    requires kept { All (λ l. IsKept (literal_form_of l)) subject.now.literals.now }
    requires sides { length sides.now ≡ length subject.now.literals.now }
    ensures { IfOk result (IsMeasured (2 ^ 101) (IsQuantity subject.now.places.now subject.now.pc (on_sides subject.now.literals.now sides.now) (Down at))) }
{
    match comparison_at(subject, sides, at) {
        Some(literal) => down(alloc, &literal),
        None => Ok(None),
    }
}

/// The quantity of an item; `None` exactly where it has none.
pub fn quantity_of<'a>(
    alloc: Global,
    subject: &Subject<'a>,
    sides: &[Option<Relation>],
    item: Item,
) -> Result<Option<Total<'a>>, NoMemory>
    requires kept { All (λ l. IsKept (literal_form_of l)) subject.now.literals.now }
    requires sides { length sides.now ≡ length subject.now.literals.now }
    ensures { IfOk result (IsMeasured (2 ^ 101) (IsQuantity subject.now.places.now subject.now.pc (on_sides subject.now.literals.now sides.now) item)) }
{
    match item {
        Item::Up(at) => up_at(alloc, subject, sides, at),
        Item::Down(at) => down_at(alloc, subject, sides, at),
        Item::Never(at) => Ok(never_at(alloc, subject, at)),
        Item::Low(at) => low(alloc, subject, at),
        Item::High(at) => high(alloc, subject, at),
        Item::OldUp(copy) => old_up(alloc, subject, copy),
        Item::OldDown(copy) => old_down(alloc, subject, copy),
    }
}
