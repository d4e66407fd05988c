ghost use Rattle.std.specs.Prelude.{◌≡◌, ◌≤◌, ◌<◌, ◌+◌, ◌++◌, ◌∷◌, [], true, false, ℕ, length, slice_get, slice_set, All, IfOk, Vec, map};
ghost use Rattle.difference.specs.Constraints.{IsUnknown, IsRange, IsGiven};
ghost use Rattle.difference.specs.Solving.{slot};
ghost use Rattle.difference.specs.Rounds.{IsFiled, IsReady, IsCalm, IsSweep, IsRound, IsFound, HasPushed};

use crate::chain::Step;
use crate::solving::{Arc, Board, Outcome, constraint_at, pass, range_at, spread};
use crate::{Constraint, Edge, Range64};
use il_core::NoMemory;
use std::alloc::Global;

/// The first `count` constraints, in a bucket for each unknown that is their left side, and one more for those with no
/// left side.
#[derive(Drop)]
pub struct Table {
    pub count: usize,
    pub buckets: Vec<Vec<Arc>>,
}

/// What lifting ends with.
#[derive(Drop)]
pub enum Found {
    /// The board of the least solution.
    Least(Board),
    /// Edges that show that there is none.
    Refuted(Vec<Edge>),
}

/// The place of a side among the buckets.
fn slot_of(count: usize, side: Option<usize>) -> usize
    ensures { result ≡ slot count side }
{
    match side {
        None => count,
        Some(unknown) => unknown,
    }
}

/// The arc of a constraint.
fn arc_of(index: usize, constraint: Constraint) -> Arc
    ensures index { result.index ≡ index }
    ensures right { result.right ≡ constraint.right }
    ensures bound { result.bound ≡ constraint.bound }
{
    Arc {
        index,
        right: constraint.right,
        bound: constraint.bound,
    }
}

/// Adds an arc to a bucket.
fn file(buckets: &mut Vec<Vec<Arc>>, place: usize, arc: Arc) -> Result<(), NoMemory>
    requires { place < length buckets.old.items }
    ensures { IfOk result (λ _. HasPushed buckets.old.items buckets.new.items place arc) }
{
    buckets[place].push(arc)?;
    Ok(())
}

/// The table of all constraints.
pub fn table_of(
    alloc: Global,
    ranges: &[Range64],
    constraints: &[Constraint],
) -> Result<Table, NoMemory>
    requires { All (IsGiven (length ranges.now)) constraints.now }
    ensures filed { IfOk result (IsFiled (length ranges.now) constraints.now) }
    ensures whole { IfOk result (λ t. t.count ≡ length constraints.now) }
{
    let mut buckets = Vec::with_capacity(alloc, ranges.len())?;
    for _range in ranges {
        buckets.push(Vec::new(alloc))?;
    }
    buckets.push(Vec::new(alloc))?;
    for index in 0..constraints.len() {
        let constraint = constraint_at(constraints, index);
        let place = slot_of(ranges.len(), constraint.left);
        file(&mut buckets, place, arc_of(index, constraint))?;
    }
    Ok(Table {
        count: constraints.len(),
        buckets,
    })
}

/// The bucket at a place.
fn bucket_at(buckets: &[Vec<Arc>], place: usize) -> &[Arc]
    requires { place < length buckets.now }
    ensures { (v : Vec Arc Global) × (slice_get buckets.now place ≡ Some v) × (result.now ≡ v.items) }
{
    buckets[place].as_slice()
}

/// The chain that proves the least value of a range.
fn first_chain(alloc: Global, node: usize, value: i64) -> Result<Vec<Step>, NoMemory>
    ensures { IfOk result (λ v. v.items ≡ record { node = node; value = value; edge = Edge.Low node } ∷ []) }
{
    let edge = Edge::Low(node);
    let mut chain = Vec::new(alloc);
    chain.push(Step { node, value, edge })?;
    Ok(chain)
}

/// The least values of all ranges.
pub fn start(
    alloc: Global,
    ranges: &[Range64],
    constraints: &[Constraint],
) -> Result<Board, NoMemory>
    requires { All IsRange ranges.now }
    ensures { IfOk result (IsReady ranges.now constraints.now (length constraints.now)) }
{
    let mut values = Vec::with_capacity(alloc, ranges.len())?;
    let mut chains = Vec::with_capacity(alloc, ranges.len())?;
    let mut pending = Vec::with_capacity(alloc, ranges.len())?;
    for node in 0..ranges.len() {
        let range = range_at(ranges, node);
        values.push(range.least)?;
        chains.push(first_chain(alloc, node, range.least)?)?;
        pending.push(true)?;
    }
    pending.push(true)?;
    Ok(Board {
        values,
        chains,
        pending,
    })
}

/// Makes a side quiet.
fn hush(board: &mut Board, place: usize)
    requires { place < length board.old.pending.items }
    ensures values { board.new.values.items ≡ board.old.values.items }
    ensures chains { board.new.chains.items ≡ board.old.chains.items }
    ensures pending { board.new.pending.items ≡ slice_set board.old.pending.items place false }
{
    board.pending[place] = false;
}

/// Lets the constraints with the left side at a place lift, unless the side is quiet.
fn calm(
    alloc: Global,
    ranges: &[Range64],
    constraints: &[Constraint],
    table: &Table,
    place: usize,
    board: &mut Board,
) -> Result<Outcome, NoMemory>
    requires ranges { All IsRange ranges.now }
    requires given { All (IsGiven (length ranges.now)) constraints.now }
    requires filed { IsFiled (length ranges.now) constraints.now table.now }
    requires ready { IsReady ranges.now constraints.now table.now.count board.old }
    requires place { place < length ranges.now + 1 }
    ensures { IfOk result (IsCalm ranges.now constraints.now table.now.count place board.old board.new) }
{
    if !board.pending[place] {
        return Ok(Outcome::Quiet);
    }
    hush(board, place);
    let outcome = spread(
        alloc,
        ranges,
        constraints,
        place,
        bucket_at(&table.buckets, place),
        board,
    )?;
    Ok(outcome)
}

/// Lets the constraints of each side that is not quiet lift.
fn sweep(
    alloc: Global,
    ranges: &[Range64],
    constraints: &[Constraint],
    table: &Table,
    board: &mut Board,
) -> Result<Outcome, NoMemory>
    requires ranges { All IsRange ranges.now }
    requires given { All (IsGiven (length ranges.now)) constraints.now }
    requires filed { IsFiled (length ranges.now) constraints.now table.now }
    requires ready { IsReady ranges.now constraints.now table.now.count board.old }
    ensures { IfOk result (IsSweep ranges.now constraints.now table.now.count board.old board.new) }
{
    let mut changed = false;
    for place in 0..table.buckets.len() {
        match calm(alloc, ranges, constraints, table, place, board)? {
            Outcome::Quiet => {}
            Outcome::Raised => changed = true,
            Outcome::Refuted(edges) => return Ok(Outcome::Refuted(edges)),
        }
    }
    if changed {
        Ok(Outcome::Raised)
    } else {
        Ok(Outcome::Quiet)
    }
}

/// Lets the constraints behind the table lift, and where they change nothing those in it.
fn round(
    alloc: Global,
    ranges: &[Range64],
    constraints: &[Constraint],
    table: &Table,
    board: &mut Board,
) -> Result<Outcome, NoMemory>
    requires ranges { All IsRange ranges.now }
    requires given { All (IsGiven (length ranges.now)) constraints.now }
    requires filed { IsFiled (length ranges.now) constraints.now table.now }
    requires ready { IsReady ranges.now constraints.now table.now.count board.old }
    ensures { IfOk result (IsRound ranges.now constraints.now table.now.count board.old board.new) }
{
    match pass(alloc, ranges, constraints, table.count, board)? {
        Outcome::Quiet => {
            let outcome = sweep(alloc, ranges, constraints, table, board)?;
            Ok(outcome)
        }
        Outcome::Raised => Ok(Outcome::Raised),
        Outcome::Refuted(edges) => Ok(Outcome::Refuted(edges)),
    }
}

/// Lifts the values of a board until each constraint is met.
pub fn run(
    alloc: Global,
    ranges: &[Range64],
    constraints: &[Constraint],
    table: &Table,
    mut board: Board,
) -> Result<Found, NoMemory>
    requires ranges { All IsRange ranges.now }
    requires given { All (IsGiven (length ranges.now)) constraints.now }
    requires filed { IsFiled (length ranges.now) constraints.now table.now }
    requires ready { IsReady ranges.now constraints.now table.now.count board }
    ensures { IfOk result (IsFound ranges.now constraints.now table.now.count) }
{
    loop {
        match round(alloc, ranges, constraints, table, &mut board)? {
            Outcome::Quiet => return Ok(Found::Least(board)),
            Outcome::Raised => {}
            Outcome::Refuted(edges) => return Ok(Found::Refuted(edges)),
        }
    }
}

/// Lifts the least values of the ranges until each constraint is met.
pub fn lifted(
    alloc: Global,
    ranges: &[Range64],
    constraints: &[Constraint],
) -> Result<Found, NoMemory>
    requires ranges { All IsRange ranges.now }
    requires given { All (IsGiven (length ranges.now)) constraints.now }
    ensures { IfOk result (IsFound ranges.now constraints.now (length constraints.now)) }
{
    let table = table_of(alloc, ranges, constraints)?;
    let board = start(alloc, ranges, constraints)?;
    let found = run(alloc, ranges, constraints, &table, board)?;
    Ok(found)
}

/// The board once more.
pub fn copied(alloc: Global, board: &Board) -> Result<Board, NoMemory>
    ensures values { IfOk result (λ b. b.values.items ≡ board.now.values.items) }
    ensures pending { IfOk result (λ b. b.pending.items ≡ board.now.pending.items) }
    ensures chains { IfOk result (λ b. map (λ c. c.items) b.chains.items ≡ map (λ c. c.items) board.now.chains.items) }
{
    let values = Vec::from_slice(alloc, &board.values)?;
    let pending = Vec::from_slice(alloc, &board.pending)?;
    let mut chains = Vec::with_capacity(alloc, board.chains.len())?;
    for chain in &board.chains {
        chains.push(Vec::from_slice(alloc, chain)?)?;
    }
    Ok(Board {
        values,
        chains,
        pending,
    })
}
