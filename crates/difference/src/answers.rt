ghost use Rattle.std.specs.Prelude.{◌≡◌, ◌≤◌, ◌∷◌, [], ℤ, List, length, slice_get, All, IfOk, IfSome, MatchOption};
ghost use Rattle.std.specs.Option.{option_map};
ghost use Rattle.difference.specs.Constraints.{IsRange, IsGiven, IsSolution};
ghost use Rattle.difference.specs.Chains.{IsRefuted, givens};
ghost use Rattle.difference.specs.Rounds.{IsFiled, IsReady};
ghost use Rattle.difference.specs.Answers.{IsSolved, IsSplit, IsSplitSolved, IsSearched};

use crate::rounds::{Found, Table, copied, lifted, run, start, table_of};
use crate::solving::Board;
use crate::{Constraint, Edge, Range64, Split};
use il_core::{List, NoMemory};
use std::alloc::Global;

/// What `solve` answers.
#[derive(Drop)]
pub enum Solved {
    /// The solution that is nowhere above another one, a value for each unknown.
    Least(List<i64>),
    /// There is no solution: the indices of constraints that have none together within the ranges.
    Cycle(List<usize>),
}

/// What `solve_splits` answers.
#[derive(Drop)]
pub enum SplitSolved {
    /// The least solution of the first choice of sides that has one.
    Least(List<i64>),
    /// No choice of sides has a solution.
    Unmet,
}

/// The indices of the constraints among the edges.
fn named(alloc: Global, edges: &[Edge]) -> Result<Vec<usize>, NoMemory>
    ensures { IfOk result (λ v. v.items ≡ givens edges.now) }
{
    let mut places = Vec::new(alloc);
    for edge in edges {
        if let Edge::Given(index) = edge {
            places.push(*index)?;
        }
    }
    Ok(places)
}

/// The pointwise least solution of the constraints within the ranges, or constraints that have none. Each range's
/// least value is not above its greatest, each side names a range by its index, and each bound is inside ±2^101.
/// `Cycle` comes exactly where there is no solution.
pub fn solve(
    alloc: Global,
    ranges: &[Range64],
    constraints: &[Constraint],
) -> Result<Solved, NoMemory>
    requires ranges { All IsRange ranges.now }
    requires given { All (IsGiven (length ranges.now)) constraints.now }
    ensures { IfOk result (IsSolved ranges.now constraints.now) }
{
    match lifted(alloc, ranges, constraints)? {
        Found::Least(board) => Ok(Solved::Least(List::from_vec(board.values))),
        Found::Refuted(edges) => Ok(Solved::Cycle(List::from_vec(named(alloc, &edges)?))),
    }
}

/// Edges that show that the constraints have no solution within the ranges, under the conditions of `solve`: their
/// quantities sum to a negative number whatever the values, none stands twice, and they are at most one more than the
/// unknowns. `None` comes exactly where there is a solution.
pub fn refute(
    alloc: Global,
    ranges: &[Range64],
    constraints: &[Constraint],
) -> Result<Option<List<Edge>>, NoMemory>
    requires ranges { All IsRange ranges.now }
    requires given { All (IsGiven (length ranges.now)) constraints.now }
    ensures sum { IfOk result (λ o. IfSome o (IsRefuted ranges.now constraints.now)) }
    ensures exact { IfOk result (λ o. MatchOption o ((vals : List ℤ) × IsSolution ranges.now constraints.now vals) (λ _. (vals : List ℤ) → IsSolution ranges.now constraints.now vals → ⊥)) }
{
    match lifted(alloc, ranges, constraints)? {
        Found::Least(_) => Ok(None),
        Found::Refuted(edges) => Ok(Some(List::from_vec(edges))),
    }
}

/// The first of the splits, and the others.
fn first_and_rest(splits: &[Split]) -> Option<(Split, &[Split])>
    ensures { MatchOption result (splits.now ≡ []) (λ p. splits.now ≡ p.0 ∷ p.1.now) }
{
    match splits {
        [] => None,
        [first, rest @ ..] => Some((*first, rest)),
    }
}

/// The least solution of the first choice of sides under the constraints so far. It goes on from the board of the
/// constraints before the last one, since more constraints only lift the values. Constraints without a solution have
/// none with more of them, so a choice is given up as soon as its first sides have none.
fn search(
    alloc: Global,
    ranges: &[Range64],
    given: &mut Vec<Constraint>,
    splits: &[Split],
    table: &Table,
    board: Board,
) -> Result<Option<Vec<i64>>, NoMemory>
    requires ranges { All IsRange ranges.now }
    requires given { All (IsGiven (length ranges.now)) given.old.items }
    requires splits { All (IsSplit (length ranges.now)) splits.now }
    requires filed { IsFiled (length ranges.now) given.old.items table.now }
    requires ready { IsReady ranges.now given.old.items table.now.count board }
    ensures found { IfOk result (λ o. IsSearched ranges.now given.old.items splits.now (option_map (λ v. v.items) o)) }
    ensures same { IfOk result (λ _. given.new.items ≡ given.old.items) }
{
    let least = match run(alloc, ranges, given, table, board)? {
        Found::Least(board) => board,
        Found::Refuted(_) => return Ok(None),
    };
    let Some((first, rest)) = first_and_rest(splits) else {
        return Ok(Some(least.values));
    };
    let count = given.len();
    given.push(first.low)?;
    let low = search(alloc, ranges, given, rest, table, copied(alloc, &least)?)?;
    given.truncate(count);
    if low.is_some() {
        return Ok(low);
    }
    given.push(first.high)?;
    let high = search(alloc, ranges, given, rest, table, least)?;
    given.truncate(count);
    Ok(high)
}

/// The least solution of the first choice of sides of the splits that has one, under the conditions of `solve` for the
/// constraints and for both sides of each split, of which there are at most nine. Choices are ordered split by split
/// from the first, low before high. `Unmet` comes exactly where no choice has a solution.
pub fn solve_splits(
    alloc: Global,
    ranges: &[Range64],
    constraints: &[Constraint],
    splits: &[Split],
) -> Result<SplitSolved, NoMemory>
    requires ranges { All IsRange ranges.now }
    requires given { All (IsGiven (length ranges.now)) constraints.now }
    requires splits { All (IsSplit (length ranges.now)) splits.now }
    requires few { length splits.now ≤ 9 }
    ensures { IfOk result (IsSplitSolved ranges.now constraints.now splits.now) }
{
    let mut given = Vec::from_slice(alloc, constraints)?;
    let table = table_of(alloc, ranges, constraints)?;
    let board = start(alloc, ranges, constraints)?;
    match search(alloc, ranges, &mut given, splits, &table, board)? {
        Some(values) => Ok(SplitSolved::Least(List::from_vec(values))),
        None => Ok(SplitSolved::Unmet),
    }
}
