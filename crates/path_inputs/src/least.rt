//! Whether some input meets literals, and the least one.
ghost use Rattle.std.specs.Prelude.{◌≡◌, ◌↔◌, ◌≤◌, ◌^◌, ◌-ℤ◌, ◌≤ℤ◌, ◌∷◌, unsigned_abs, All, map, take, drop, length, IfOk, IsTrue, MatchOption};
ghost use Rattle.il_core.specs.Places.{AreCheckedPlaces};
ghost use Rattle.difference.specs.Constraints.{IsUnknown, IsRange, IsGiven, value_at};
ghost use Rattle.difference.specs.Answers.{IsSplit, IsFirst};
ghost use Rattle.sym_simplify.specs.Literal.{literal_form_of};
ghost use Rattle.sym_simplify.specs.Easy.{IsKept};
ghost use Rattle.sym_simplify.specs.Places.{HasLiteralPlacesBelow};
ghost use Rattle.path_inputs.specs.Bounding.{MeetsEither, IsJudged, AreJudged, IsAnswered};
ghost use Rattle.path_inputs.specs.Least.{IsPlainlyRefuted, IsLeastInput};

use crate::system::system_of;
use difference::{Constraint, Range64, Split, SplitSolved, solve_splits};
use il_core::{List, NoMemory, Place};
use std::alloc::Global;
use sym_simplify::LitForm;

/// The number of `/=` literals of which both sides are tried.
const SPLITS: usize = 8;

/// The value of a side of a constraint.
fn value_of(values: &[i64], side: Option<usize>) -> i128
    requires { IsUnknown (length values.now) side }
    ensures value { result ≡ value_at values.now side }
    ensures small { unsigned_abs result ≤ 2 ^ 63 }
{
    match side {
        Some(place) => values[place] as i128,
        None => 0,
    }
}

/// Whether one value less another is at most a bound.
fn is_within(left: i128, right: i128, bound: i128) -> bool
    requires left { unsigned_abs left ≤ 2 ^ 63 }
    requires right { unsigned_abs right ≤ 2 ^ 63 }
    ensures { IsTrue result ↔ ((left -ℤ right) ≤ℤ bound) }
{
    left - right <= bound
}

/// Whether values meet a constraint.
fn is_met(values: &[i64], constraint: Constraint) -> bool
    requires { IsGiven (length values.now) constraint }
    ensures { IsTrue result ↔ ((value_at values.now constraint.left -ℤ value_at values.now constraint.right) ≤ℤ constraint.bound) }
{
    is_within(
        value_of(values, constraint.left),
        value_of(values, constraint.right),
        constraint.bound,
    )
}

/// Whether values meet a side of a split.
fn is_either_met(values: &[i64], split: Split) -> bool
    requires { IsSplit (length values.now) split }
    ensures { IsTrue result ↔ MeetsEither values.now split }
{
    is_met(values, split.low) || is_met(values, split.high)
}

/// Whether some solution meets a side of each split, of which there are at most nine.
fn is_solvable(
    alloc: Global,
    ranges: &[Range64],
    constraints: &[Constraint],
    splits: &[Split],
) -> Result<bool, NoMemory>
    requires ranges { All IsRange ranges.now }
    requires given { All (IsGiven (length ranges.now)) constraints.now }
    requires splits { All (IsSplit (length ranges.now)) splits.now }
    requires few { length splits.now ≤ 9 }
    ensures { IfOk result (IsJudged ranges.now constraints.now splits.now) }
{
    match solve_splits(alloc, ranges, constraints, splits)? {
        SplitSolved::Least(_) => Ok(true),
        SplitSolved::Unmet => Ok(false),
    }
}

/// A split before others.
fn with_first(alloc: Global, first: Split, splits: &[Split]) -> Result<Vec<Split>, NoMemory>
    ensures { IfOk result (λ v. v.items ≡ first ∷ splits.now) }
{
    let mut all = Vec::new(alloc);
    all.push(first)?;
    all.extend_from_slice(splits)?;
    Ok(all)
}

/// Whether some solution meets a side of the split `other` and of each of `splits`, of whose first choice `values` are the
/// least solution.
fn judge(
    alloc: Global,
    ranges: &[Range64],
    constraints: &[Constraint],
    splits: &[Split],
    values: &[i64],
    other: Split,
) -> Result<bool, NoMemory>
    requires ranges { All IsRange ranges.now }
    requires given { All (IsGiven (length ranges.now)) constraints.now }
    requires splits { All (IsSplit (length ranges.now)) splits.now }
    requires other { IsSplit (length ranges.now) other }
    requires few { length splits.now ≤ 8 }
    requires values { IsFirst ranges.now constraints.now splits.now values.now }
    ensures { IfOk result (IsJudged ranges.now constraints.now (other ∷ splits.now)) }
{
    if is_either_met(values, other) {
        return Ok(true);
    }
    let all = with_first(alloc, other, splits)?;
    is_solvable(alloc, ranges, constraints, &all)
}

/// Whether this is so for each of the others.
fn judge_all(
    alloc: Global,
    ranges: &[Range64],
    constraints: &[Constraint],
    splits: &[Split],
    values: &[i64],
    others: &[Split],
) -> Result<bool, NoMemory>
    requires ranges { All IsRange ranges.now }
    requires given { All (IsGiven (length ranges.now)) constraints.now }
    requires splits { All (IsSplit (length ranges.now)) splits.now }
    requires others { All (IsSplit (length ranges.now)) others.now }
    requires few { length splits.now ≤ 8 }
    requires values { IsFirst ranges.now constraints.now splits.now values.now }
    ensures { IfOk result (AreJudged ranges.now constraints.now splits.now others.now) }
{
    for other in others {
        if !judge(alloc, ranges, constraints, splits, values, *other)? {
            return Ok(false);
        }
    }
    Ok(true)
}

/// The first eight splits, and the others.
fn first_and_others(splits: &[Split]) -> (&[Split], &[Split])
    ensures first { result.0.now ≡ take 8 splits.now }
    ensures others { result.1.now ≡ drop 8 splits.now }
{
    match splits.split_at_checked(SPLITS) {
        Some(both) => both,
        None => (splits, &[]),
    }
}

/// The least solution of the first choice of sides of the first eight splits, where each other split has a solution beside
/// them; `None` exactly where not.
fn solve_all(
    alloc: Global,
    ranges: &[Range64],
    constraints: &[Constraint],
    splits: &[Split],
) -> Result<Option<List<i64>>, NoMemory>
    requires ranges { All IsRange ranges.now }
    requires given { All (IsGiven (length ranges.now)) constraints.now }
    requires splits { All (IsSplit (length ranges.now)) splits.now }
    ensures { IfOk result (IsAnswered ranges.now constraints.now splits.now) }
{
    let (tried, others) = first_and_others(splits);
    let values = match solve_splits(alloc, ranges, constraints, tried)? {
        SplitSolved::Least(values) => values,
        SplitSolved::Unmet => return Ok(None),
    };
    if judge_all(alloc, ranges, constraints, tried, values.as_slice(), others)? {
        Ok(Some(values))
    } else {
        Ok(None)
    }
}

/// The least input that meets the literals of a path, whose region begins at line `pc`. The places are those of a checked
/// procedure; the inputs are the initial states at line 0 and the states in range elsewhere. Each literal is over these
/// places and has the form that `norm_literal` gives, its coefficients and its bound inside ±2^100.
///
/// The easy literals other than `/=` and the first eight easy `/=` decide: of these `/=` both sides are tried, `<` first,
/// and the answer is the pointwise least input of the first choice of sides that any input meets. `None` comes exactly
/// where the literals are plainly refuted: no input meets all these, or some easy `/=` holds in no input that does. Hard
/// literals decide nothing, so the answer need not meet them. `NoMemory` comes only where memory runs out.
///
/// The constraints are solved once for the first eight `/=`, and once more for each easy `/=` beyond them that the answer
/// does not meet. One solving tries at most two sides for each of nine `/=`, each as a search for shortest paths.
pub fn least_input(
    alloc: Global,
    places: &[Place],
    pc: usize,
    literals: &[LitForm],
) -> Result<Option<List<i64>>, NoMemory>
    requires places { AreCheckedPlaces places.now }
    requires below { All (λ l. HasLiteralPlacesBelow (length places.now) (literal_form_of l)) literals.now }
    requires kept { All (λ l. IsKept (literal_form_of l)) literals.now }
    ensures { IfOk result (λ o. MatchOption o (IsPlainlyRefuted places.now pc (map literal_form_of literals.now)) (IsLeastInput places.now pc (map literal_form_of literals.now))) }
{
    let system = system_of(alloc, places, pc, literals)?;
    solve_all(alloc, &system.ranges, &system.constraints, &system.splits)
}
