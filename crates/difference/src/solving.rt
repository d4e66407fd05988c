ghost use Rattle.std.specs.Prelude.{◌≡◌, ◌≤◌, ◌<◌, ◌<ℤ◌, ◌≤ℤ◌, ◌-ℤ◌, ◌^◌, ◌↔◌, IsTrue, pos, ◌++◌, ◌∷◌, ◌+◌, true, [], length, slice_get, slice_set, All, IfOk, MatchOption, unsigned_abs, Vec, map};
ghost use Rattle.difference.specs.Constraints.{number, value_at, IsUnknown, IsRange, IsGiven, Meets};
ghost use Rattle.difference.specs.Chains.{Kept, IsRefuted};
ghost use Rattle.difference.specs.Solving.{IsPulled, IsLift, IsApplied, IsPass, IsSpread, IsArc};

use crate::chain::{Step, evidence, extended, find_node};
use crate::{Constraint, Edge, Range64};
use il_core::NoMemory;
use std::alloc::Global;

/// The value of each unknown so far, and the chain that proves that no solution has a lesser one.
#[derive(Drop)]
pub struct Board {
    pub values: Vec<i64>,
    pub chains: Vec<Vec<Step>>,
    /// Whether the constraints with this unknown as their left side have yet to lift by its value; at the last place,
    /// those with no left side.
    pub pending: Vec<bool>,
}

/// A constraint without its left side, and its index.
#[derive(Clone, Copy)]
pub struct Arc {
    pub index: usize,
    pub right: Option<usize>,
    pub bound: i128,
}

/// What a constraint does to the values.
#[derive(Drop)]
pub enum Lift {
    /// They meet it.
    Met,
    /// It raises an unknown to a value, by a chain.
    Raised(usize, i64, Vec<Step>),
    /// It shows that there is no solution.
    Refuted(Vec<Edge>),
}

/// What constraints did to a board.
#[derive(Drop)]
pub enum Outcome {
    /// Nothing.
    Quiet,
    /// They raised a value.
    Raised,
    /// They show that there is no solution.
    Refuted(Vec<Edge>),
}

/// The value of a side.
#[inline(always)]
fn value_of(values: &[i64], side: Option<usize>) -> i128
    requires { IsUnknown (length values.now) side }
    ensures value { result ≡ value_at values.now side }
    ensures small { unsigned_abs result ≤ 2 ^ 63 }
{
    match side {
        None => 0,
        Some(unknown) => i128::from(values[unknown]),
    }
}

/// What a constraint asks its right side to be at least.
#[inline(always)]
fn reach_of(values: &[i64], constraint: Constraint) -> i128
    requires { IsGiven (length values.now) constraint }
    ensures { result ≡ value_at values.now constraint.left -ℤ constraint.bound }
{
    value_of(values, constraint.left) - constraint.bound
}

/// Whether the values meet a constraint.
#[inline(always)]
fn is_met(values: &[i64], constraint: Constraint) -> bool
    requires { IsGiven (length values.now) constraint }
    ensures { IsTrue result ↔ Meets values.now constraint }
{
    reach_of(values, constraint) <= value_of(values, constraint.right)
}

/// The value of the unknown at a place, or 0 at the place behind them.
fn value_in(values: &[i64], place: usize) -> i128
    ensures value { result ≡ number values.now place }
    ensures small { unsigned_abs result ≤ 2 ^ 63 }
{
    if place < values.len() {
        i128::from(values[place])
    } else {
        0
    }
}

/// Whether the values meet an arc whose left side has the value `start`.
#[inline(always)]
fn is_arc_met(values: &[i64], start: i128, arc: Arc) -> bool
    requires right { IsUnknown (length values.now) arc.right }
    requires bound { unsigned_abs arc.bound ≤ 2 ^ 101 }
    requires start { unsigned_abs start ≤ 2 ^ 63 }
    ensures { IsTrue result ↔ ((start -ℤ arc.bound) ≤ℤ value_at values.now arc.right) }
{
    start - arc.bound <= value_of(values, arc.right)
}

/// A number between two values, as a value.
fn narrowed(reach: i128, low: i64, high: i64) -> i64
    requires low { low <ℤ reach }
    requires high { reach ≤ℤ high }
    ensures { result ≡ reach }
{
    reach as i64
}

pub fn constraint_at(constraints: &[Constraint], index: usize) -> Constraint
    requires { index < length constraints.now }
    ensures { slice_get constraints.now index ≡ Some result }
{
    constraints[index]
}

pub fn range_at(ranges: &[Range64], index: usize) -> Range64
    requires { index < length ranges.now }
    ensures { slice_get ranges.now index ≡ Some result }
{
    ranges[index]
}

/// The chain of a side, empty where it has no unknown.
fn chain_at(chains: &[Vec<Step>], side: Option<usize>) -> &[Step]
    requires { IsUnknown (length chains.now) side }
    ensures { MatchOption side (result.now ≡ []) (λ k. (c : Vec Step Global) × (slice_get chains.now k ≡ Some c) × (result.now ≡ c.items)) }
{
    match side {
        None => &[],
        Some(unknown) => chains[unknown].as_slice(),
    }
}

/// Raises an unknown to what a constraint asks, or shows that this cannot be: the unknown stands on the chain of the
/// constraint's left side, so that the edges behind it close a negative cycle, or its range ends below.
fn raise_to(
    alloc: Global,
    ranges: &[Range64],
    constraints: &[Constraint],
    board: &Board,
    index: usize,
    node: usize,
) -> Result<Lift, NoMemory>
    requires ranges { All IsRange ranges.now }
    requires given { All (IsGiven (length ranges.now)) constraints.now }
    requires kept { Kept ranges.now constraints.now board.now.values.items board.now.chains.items }
    requires pulled { IsPulled constraints.now board.now.values.items index node }
    ensures { IfOk result (IsLift ranges.now constraints.now board.now.values.items index) }
{
    let constraint = constraint_at(constraints, index);
    let reach = reach_of(&board.values, constraint);
    let before = chain_at(&board.chains, constraint.left);
    let edge = Edge::Given(index);
    if let Some(place) = find_node(before, node) {
        return Ok(Lift::Refuted(evidence(alloc, &before[place + 1..], edge)?));
    }
    let greatest = range_at(ranges, node).greatest;
    if reach > i128::from(greatest) {
        let mut edges = evidence(alloc, before, edge)?;
        edges.push(Edge::High(node))?;
        return Ok(Lift::Refuted(edges));
    }
    let value = narrowed(reach, board.values[node], greatest);
    let chain = extended(alloc, before, Step { node, value, edge })?;
    Ok(Lift::Raised(node, value, chain))
}

/// What the constraint with this index does.
fn lift_by(
    alloc: Global,
    ranges: &[Range64],
    constraints: &[Constraint],
    board: &Board,
    index: usize,
) -> Result<Lift, NoMemory>
    requires ranges { All IsRange ranges.now }
    requires given { All (IsGiven (length ranges.now)) constraints.now }
    requires kept { Kept ranges.now constraints.now board.now.values.items board.now.chains.items }
    requires known { index < length constraints.now }
    ensures { IfOk result (IsLift ranges.now constraints.now board.now.values.items index) }
{
    let constraint = constraint_at(constraints, index);
    let reach = reach_of(&board.values, constraint);
    if reach <= value_of(&board.values, constraint.right) {
        return Ok(Lift::Met);
    }
    match constraint.right {
        None => {
            let before = chain_at(&board.chains, constraint.left);
            Ok(Lift::Refuted(evidence(alloc, before, Edge::Given(index))?))
        }
        Some(node) => raise_to(alloc, ranges, constraints, board, index, node),
    }
}

/// Gives an unknown a value and its chain.
fn put(board: &mut Board, node: usize, value: i64, chain: Vec<Step>)
    requires values { node < length board.old.values.items }
    requires chains { node < length board.old.chains.items }
    requires pending { node < length board.old.pending.items }
    ensures values { board.new.values.items ≡ slice_set board.old.values.items node value }
    ensures chains { board.new.chains.items ≡ slice_set board.old.chains.items node chain }
    ensures pending { board.new.pending.items ≡ slice_set board.old.pending.items node true }
{
    board.values[node] = value;
    board.chains[node] = chain;
    board.pending[node] = true;
}

/// Lets the constraint with this index lift, behind a call of its own since most are met.
#[inline(never)]
fn enforce(
    alloc: Global,
    ranges: &[Range64],
    constraints: &[Constraint],
    index: usize,
    board: &mut Board,
) -> Result<Outcome, NoMemory>
    requires ranges { All IsRange ranges.now }
    requires given { All (IsGiven (length ranges.now)) constraints.now }
    requires kept { Kept ranges.now constraints.now board.old.values.items board.old.chains.items }
    requires size { length board.old.pending.items ≡ length ranges.now + 1 }
    requires known { index < length constraints.now }
    ensures { IfOk result (IsApplied ranges.now constraints.now index board.old board.new) }
{
    match lift_by(alloc, ranges, constraints, board, index)? {
        Lift::Met => Ok(Outcome::Quiet),
        Lift::Raised(node, value, chain) => {
            put(board, node, value, chain);
            Ok(Outcome::Raised)
        }
        Lift::Refuted(edges) => Ok(Outcome::Refuted(edges)),
    }
}

/// Lets the constraint with this index lift where it is not met.
#[inline(always)]
fn apply(
    alloc: Global,
    ranges: &[Range64],
    constraints: &[Constraint],
    index: usize,
    board: &mut Board,
) -> Result<Outcome, NoMemory>
    requires ranges { All IsRange ranges.now }
    requires given { All (IsGiven (length ranges.now)) constraints.now }
    requires kept { Kept ranges.now constraints.now board.old.values.items board.old.chains.items }
    requires size { length board.old.pending.items ≡ length ranges.now + 1 }
    requires known { index < length constraints.now }
    ensures { IfOk result (IsApplied ranges.now constraints.now index board.old board.new) }
{
    if is_met(&board.values, constraint_at(constraints, index)) {
        return Ok(Outcome::Quiet);
    }
    let outcome = enforce(alloc, ranges, constraints, index, board)?;
    Ok(outcome)
}

/// Lets each constraint from `first` on lift once.
pub fn pass(
    alloc: Global,
    ranges: &[Range64],
    constraints: &[Constraint],
    first: usize,
    board: &mut Board,
) -> Result<Outcome, NoMemory>
    requires ranges { All IsRange ranges.now }
    requires given { All (IsGiven (length ranges.now)) constraints.now }
    requires kept { Kept ranges.now constraints.now board.old.values.items board.old.chains.items }
    requires size { length board.old.pending.items ≡ length ranges.now + 1 }
    ensures { IfOk result (IsPass ranges.now constraints.now first board.old board.new) }
{
    let mut changed = false;
    for index in first..constraints.len() {
        match apply(alloc, ranges, constraints, index, board)? {
            Outcome::Quiet => {}
            Outcome::Raised => changed = true,
            Outcome::Refuted(edges) => return Ok(Outcome::Refuted(edges)),
        }
    }
    if changed {
        Ok(Outcome::Raised)
    } else {
        Ok(Outcome::Quiet)
    }
}

/// Lets each constraint of a bucket lift once, whose left sides are at a place.
pub fn spread(
    alloc: Global,
    ranges: &[Range64],
    constraints: &[Constraint],
    place: usize,
    bucket: &[Arc],
    board: &mut Board,
) -> Result<Outcome, NoMemory>
    requires ranges { All IsRange ranges.now }
    requires given { All (IsGiven (length ranges.now)) constraints.now }
    requires kept { Kept ranges.now constraints.now board.old.values.items board.old.chains.items }
    requires size { length board.old.pending.items ≡ length ranges.now + 1 }
    requires known { All (IsArc (length ranges.now) constraints.now place) bucket.now }
    ensures { IfOk result (IsSpread ranges.now constraints.now bucket.now board.old board.new) }
{
    let start = value_in(&board.values, place);
    let mut changed = false;
    for arc in bucket {
        if is_arc_met(&board.values, start, *arc) {
            continue;
        }
        match enforce(alloc, ranges, constraints, arc.index, board)? {
            Outcome::Quiet => {}
            Outcome::Raised => changed = true,
            Outcome::Refuted(edges) => return Ok(Outcome::Refuted(edges)),
        }
    }
    if changed {
        Ok(Outcome::Raised)
    } else {
        Ok(Outcome::Quiet)
    }
}
