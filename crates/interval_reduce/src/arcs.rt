//! The arcs of the levels.
ghost use Rattle.std.specs.Prelude.{◌≡◌, ℕ, ◌<◌, ◌↔◌, ◌++◌, ◌∷◌, [], length, map, replicate, slice_index, slice_index_or, slice_set, nat_eq, IfOk, if◌then◌else◌};
ghost use Rattle.std.specs.List.{list_any};
ghost use Rattle.il_core.specs.LineGraph.{IsIn};
ghost use Rattle.flow_graph.specs.Graph.{Joins, IsWellFormed, heads_from, tails_into};
ghost use Rattle.flow_graph.specs.Search.{IsMarked, AreBelow, row_of};
ghost use Rattle.flow_graph.specs.Reached.{IsReached};
ghost use Rattle.interval_reduce.specs.Growth.{members_of};
ghost use Rattle.interval_reduce.specs.Level.{owner, NextArc};
ghost use Rattle.interval_reduce.specs.Arcs.{StaysBelow, IsCarried};

use crate::interval::Interval;
use flow_graph::{Arc, FlowGraph, reachable};
use il_core::{List, NoMemory};
use std::alloc::Global;

/// The arcs that leave marked lines.
fn marked_arcs(alloc: Global, marks: &[bool], arcs: &[Arc]) -> Result<List<Arc>, NoMemory>
    requires { StaysBelow (length marks.now) arcs.now }
    ensures { IfOk result (λ l. (a b : ℕ) → Joins l a b ↔ (Joins arcs.now a b × IsMarked marks.now a)) }
{
    let mut marked = List::new(alloc);
    for arc in arcs {
        if marks[arc.tail] {
            marked.push(*arc)?;
        }
    }
    Ok(marked)
}

/// The arcs that leave reachable lines.
pub fn first_arcs(alloc: Global, graph: &FlowGraph) -> Result<List<Arc>, NoMemory>
    requires { IsWellFormed graph.now }
    ensures { IfOk result (λ l. (a b : ℕ) → Joins l a b ↔ (Joins graph.now.arcs a b × IsReached graph.now.arcs a)) }
{
    let reached = reachable(alloc, graph)?;
    let arcs = marked_arcs(alloc, reached.as_slice(), graph.arcs.as_slice())?;
    Ok(arcs)
}

/// `count` empty rows.
fn empty_rows(alloc: Global, count: usize) -> Result<Vec<List<usize>>, NoMemory>
    ensures { IfOk result (λ v. v.items ≡ replicate count []) }
{
    let mut rows = Vec::with_capacity(alloc, count)?;
    for _row in 0..count {
        rows.push(List::new(alloc))?;
    }
    Ok(rows)
}

/// Adds `item` to the end of a row.
fn extend_row(rows: &mut Vec<List<usize>>, row: usize, item: usize) -> Result<(), NoMemory>
    requires { row < length rows.old.items }
    ensures { IfOk result (λ _. rows.new.items ≡ slice_set rows.old.items row (slice_index_or rows.old.items row [] ++ item ∷ [])) }
{
    rows[row].push(item)?;
    Ok(())
}

/// For each line below `count` the nodes that arcs into it leave.
pub fn tail_rows(alloc: Global, count: usize, arcs: &[Arc]) -> Result<Vec<List<usize>>, NoMemory>
    requires { StaysBelow count arcs.now }
    ensures size { IfOk result (λ rows. length rows.items ≡ count) }
    ensures rows { IfOk result (λ rows. (k : ℕ) → row_of rows.items k ≡ tails_into arcs.now k) }
{
    let mut rows = empty_rows(alloc, count)?;
    for arc in arcs {
        extend_row(&mut rows, arc.head, arc.tail)?;
    }
    Ok(rows)
}

/// For each line below `count` the nodes that its arcs enter.
pub fn head_rows(alloc: Global, count: usize, arcs: &[Arc]) -> Result<Vec<List<usize>>, NoMemory>
    requires { StaysBelow count arcs.now }
    ensures size { IfOk result (λ rows. length rows.items ≡ count) }
    ensures rows { IfOk result (λ rows. (k : ℕ) → row_of rows.items k ≡ heads_from arcs.now k) }
{
    let mut rows = empty_rows(alloc, count)?;
    for arc in arcs {
        extend_row(&mut rows, arc.tail, arc.head)?;
    }
    Ok(rows)
}

/// Each number below `count` at its own place.
fn own_places(alloc: Global, count: usize) -> Result<Vec<usize>, NoMemory>
    ensures size { IfOk result (λ v. length v.items ≡ count) }
    ensures places { IfOk result (λ v. (k : ℕ) → k < count → slice_index v.items k ≡ k) }
{
    let mut places = Vec::with_capacity(alloc, count)?;
    for place in 0..count {
        places.push(place)?;
    }
    Ok(places)
}

/// Notes the head for each member of its interval.
fn note_members(head: usize, members: &[usize], owners: &mut Vec<usize>)
    requires { AreBelow (length owners.old.items) members.now }
    ensures size { length owners.new.items ≡ length owners.old.items }
    ensures owners { (v : ℕ) → slice_index owners.new.items v ≡ (if list_any (nat_eq v) members.now then head else slice_index owners.old.items v) }
{
    for member in members {
        owners[*member] = head;
    }
}

/// Notes for each node the head of the first interval that holds it.
fn note_level(level: &[Interval], owners: &mut Vec<usize>)
    requires below { AreBelow (length owners.old.items) (members_of level.now) }
    requires places { (v : ℕ) → v < length owners.old.items → slice_index owners.old.items v ≡ v }
    ensures size { length owners.new.items ≡ length owners.old.items }
    ensures owners { (v : ℕ) → v < length owners.old.items → slice_index owners.new.items v ≡ owner level.now v }
{
    match level {
        [] => {}
        [first, rest @ ..] => {
            note_level(rest, owners);
            note_members(first.head, first.members.as_slice(), owners);
        }
    }
}

/// For each line below `count` the head of the interval that holds it; the line itself where none does.
fn owners_in(alloc: Global, count: usize, level: &[Interval]) -> Result<Vec<usize>, NoMemory>
    requires { AreBelow count (members_of level.now) }
    ensures size { IfOk result (λ v. length v.items ≡ count) }
    ensures owners { IfOk result (λ v. (k : ℕ) → k < count → slice_index v.items k ≡ owner level.now k) }
{
    let mut owners = own_places(alloc, count)?;
    note_level(level, &mut owners);
    Ok(owners)
}

/// The owner of a line.
fn owner_at(owners: &[usize], at: usize) -> usize
    requires { at < length owners.now }
    ensures { result ≡ slice_index owners.now at }
{
    owners[at]
}

/// The arcs between different owners.
fn carried_arcs(alloc: Global, owners: &[usize], arcs: &[Arc]) -> Result<List<Arc>, NoMemory>
    requires { StaysBelow (length owners.now) arcs.now }
    ensures { IfOk result (λ l. (a b : ℕ) → Joins l a b ↔ IsCarried (slice_index owners.now) arcs.now a b) }
{
    let mut carried = List::new(alloc);
    for arc in arcs {
        let tail = owner_at(owners, arc.tail);
        let head = owner_at(owners, arc.head);
        if tail != head {
            carried.push(Arc { tail, head })?;
        }
    }
    Ok(carried)
}

/// The arcs of the next level: one wherever an arc leaves one interval for another.
pub fn next_arcs(
    alloc: Global,
    count: usize,
    arcs: &[Arc],
    level: &[Interval],
) -> Result<List<Arc>, NoMemory>
    requires arcs { StaysBelow count arcs.now }
    requires members { AreBelow count (members_of level.now) }
    ensures { IfOk result (λ l. (a b : ℕ) → Joins l a b ↔ NextArc (Joins arcs.now) level.now a b) }
{
    let owners = owners_in(alloc, count, level)?;
    let carried = carried_arcs(alloc, owners.as_slice(), arcs)?;
    Ok(carried)
}
