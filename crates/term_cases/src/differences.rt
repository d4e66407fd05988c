//! Difference constraints: their least solutions, and what refutes them.
ghost use Rattle.std.specs.Prelude.{IsTrue, All, length};
ghost use Rattle.difference.specs.Constraints.{IsUnknown, IsRange, IsGiven};
ghost use Rattle.difference.specs.Answers.{IsSplit};

use difference::{
    Constraint, Edge, Range64, Solved, Split, SplitSolved, refute, solve, solve_splits,
};
use il_core::NoMemory;
use std::alloc::Global;
use std::test::Fail;

const WIDEST: i128 = 1 << 101;

const NARROWEST: i128 = -(1 << 101);

fn below(left: Option<usize>, right: Option<usize>, bound: i128) -> Constraint {
    Constraint { left, right, bound }
}

fn range(least: i64, greatest: i64) -> Range64 {
    Range64 { least, greatest }
}

/// The one unknown is at least `low`, or at least `high`.
fn split(low: u8, high: u8) -> Split {
    Split {
        low: below(None, Some(0), 0 - i128::from(low)),
        high: below(None, Some(0), 0 - i128::from(high)),
    }
}

fn is_known(count: usize, side: Option<usize>) -> bool
    ensures { IsTrue result → IsUnknown count side }
{
    match side {
        None => true,
        Some(unknown) => unknown < count,
    }
}

fn is_given(count: usize, constraint: &Constraint) -> bool
    ensures { IsTrue result → IsGiven count constraint.now }
{
    is_known(count, constraint.left)
        && is_known(count, constraint.right)
        && constraint.bound.unsigned_abs() <= 1 << 101
}

fn are_ranges(ranges: &[Range64]) -> bool
    ensures { IsTrue result → All IsRange ranges.now }
{
    ranges.iter().all(|range| range.least <= range.greatest)
}

fn are_given(count: usize, constraints: &[Constraint]) -> bool
    ensures { IsTrue result → All (IsGiven count) constraints.now }
{
    constraints
        .iter()
        .all(|constraint| is_given(count, constraint))
}

fn are_splits(count: usize, splits: &[Split]) -> bool
    ensures { IsTrue result → All (IsSplit count) splits.now }
{
    splits.iter().all(|split| is_given(count, &split.low) && is_given(count, &split.high))
}

/// Constraints, each with its sides and its bound.
fn constraints_of(
    alloc: Global,
    rows: &[(Option<usize>, Option<usize>, i128)],
) -> Result<Vec<Constraint>, NoMemory> {
    let mut constraints = Vec::new(alloc);
    for (left, right, bound) in rows {
        constraints.push(below(*left, *right, *bound))?;
    }
    Ok(constraints)
}

/// The ranges of the unknowns, constraints, and the least solution, if any.
type Case<'a> = (
    &'a str,
    &'a [Range64],
    &'a [(Option<usize>, Option<usize>, i128)],
    Option<&'a [i64]>,
);

/// Whether the constraints of a case have its least solution, or else are refuted.
fn is_as(alloc: Global, case: &Case) -> Result<bool, Fail> {
    let (_, ranges, rows, wanted) = case;
    let constraints = constraints_of(alloc, rows)?;
    if !are_ranges(ranges) || !are_given(ranges.len(), &constraints) {
        return Err(Fail::from("no case"));
    }
    let refuted = refute(alloc, ranges, &constraints)?.is_some();
    match solve(alloc, ranges, &constraints)? {
        Solved::Least(values) => Ok(!refuted && *wanted == Some(values.as_slice())),
        Solved::Cycle(_named) => Ok(refuted && wanted.is_none()),
    }
}

/// A range of digits.
const DIGIT: Range64 = Range64 {
    least: 0,
    greatest: 9,
};

/// All numbers.
const ANY: Range64 = Range64 {
    least: i64::MIN,
    greatest: i64::MAX,
};

/// The number 7 alone.
const SEVEN: Range64 = Range64 {
    least: 7,
    greatest: 7,
};

#[test]
fn solves_and_refutes(rt: HostRuntime) -> Result<(), Fail> {
    let cases: [Case; 12] = [
        ("no unknown and no constraint", &[], &[], Some(&[])),
        ("no constraint", &[DIGIT, DIGIT], &[], Some(&[0, 0])),
        (
            "two constraints",
            &[DIGIT, DIGIT],
            &[(Some(0), Some(1), -3), (Some(1), None, 8)],
            Some(&[0, 3]),
        ),
        (
            "a third that closes a cycle",
            &[DIGIT, DIGIT],
            &[
                (Some(0), Some(1), -3),
                (Some(1), None, 8),
                (Some(1), Some(0), 2),
            ],
            None,
        ),
        (
            "an equality",
            &[DIGIT, DIGIT],
            &[(Some(0), Some(1), 4), (Some(1), Some(0), -4)],
            Some(&[4, 0]),
        ),
        (
            "equalities that differ",
            &[DIGIT, DIGIT],
            &[(Some(0), None, 3), (None, Some(0), -4)],
            None,
        ),
        (
            "a range of one value",
            &[SEVEN, DIGIT],
            &[(Some(0), Some(1), 0)],
            Some(&[7, 7]),
        ),
        (
            "a range of one value that is too high",
            &[SEVEN, DIGIT],
            &[(Some(0), Some(1), -3)],
            None,
        ),
        (
            "the ends of the numbers",
            &[ANY, ANY],
            &[(None, Some(0), -9_223_372_036_854_775_807)],
            Some(&[i64::MAX, i64::MIN]),
        ),
        (
            "one beyond",
            &[ANY, ANY],
            &[(None, Some(0), -9_223_372_036_854_775_808)],
            None,
        ),
        (
            "the widest bound",
            &[ANY, ANY],
            &[(Some(0), Some(1), WIDEST)],
            Some(&[i64::MIN, i64::MIN]),
        ),
        (
            "the narrowest bound",
            &[ANY, ANY],
            &[(Some(0), Some(1), NARROWEST)],
            None,
        ),
    ];
    for case in cases.iter() {
        let (name, _, _, _) = case;
        assert!(rt; is_as(rt.alloc(), case)?, "{name}");
    }
    Ok(())
}

#[test]
fn names_the_cycle(rt: HostRuntime) -> Result<(), Fail> {
    let ranges = [range(0, 9), range(0, 9)];
    let constraints = [
        below(Some(0), Some(1), -3),
        below(Some(1), None, 8),
        below(Some(1), Some(0), 2),
    ];
    assert!(rt; are_ranges(&ranges));
    assert!(rt; are_given(2, &constraints));
    match solve(rt.alloc(), &ranges, &constraints)? {
        Solved::Least(_values) => assert!(rt; false),
        Solved::Cycle(named) => {
            assert!(rt; named.as_slice().contains(&0) && named.as_slice().contains(&2));
        }
    }
    if let Some(edges) = refute(rt.alloc(), &ranges, &constraints)? {
        assert_eq!(rt;
            edges.as_slice(),
            [Edge::Given(0), Edge::Given(2)].as_slice()
        );
    }
    Ok(())
}

#[test]
fn follows_a_long_chain(rt: HostRuntime) -> Result<(), Fail> {
    let mut ranges = Vec::new(rt.alloc());
    for _unknown in 0..64usize {
        ranges.push(range(0, 62))?;
    }
    let mut constraints = Vec::new(rt.alloc());
    for unknown in 0..63usize {
        constraints.push(below(Some(unknown), Some(unknown + 1), -1))?;
    }
    assert!(rt; are_ranges(&ranges));
    assert!(rt; are_given(ranges.len(), &constraints));
    let edges = refute(rt.alloc(), &ranges, &constraints)?;
    assert_eq!(rt; edges.map_or(0, |edges| edges.len()), 65);
    Ok(())
}

/// Whether the least solution of these splits of one digit is the wanted one.
fn is_split_as(alloc: Global, rows: &[(u8, u8)], wanted: Option<&[i64]>) -> Result<bool, Fail> {
    let mut splits = Vec::new(alloc);
    for (low, high) in rows {
        splits.push(split(*low, *high))?;
    }
    if !are_splits(1, &splits) || splits.len() > 9 {
        return Err(Fail::from("no case"));
    }
    match solve_splits(alloc, &[DIGIT], &[], &splits)? {
        SplitSolved::Least(values) => Ok(wanted == Some(values.as_slice())),
        SplitSolved::Unmet => Ok(wanted.is_none()),
    }
}

#[test]
fn tries_the_low_side_first(rt: HostRuntime) -> Result<(), Fail> {
    let cases: [(&str, &[(u8, u8)], Option<&[i64]>); 5] = [
        ("no split", &[], Some(&[0])),
        ("both sides", &[(5, 3)], Some(&[5])),
        ("the low one fails", &[(10, 3)], Some(&[3])),
        (
            "the low one of the second fails",
            &[(1, 2), (11, 4)],
            Some(&[4]),
        ),
        ("neither", &[(1, 2), (11, 12)], None),
    ];
    for (name, rows, wanted) in cases {
        assert!(rt; is_split_as(rt.alloc(), rows, wanted)?, "{name}");
    }
    Ok(())
}
