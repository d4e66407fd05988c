//! The intervals of one level: each grows from its head until it may take no more.
ghost use Rattle.std.specs.Prelude.{◌≡◌, ℕ, ◌<◌, ◌⊎◌, ◌↔◌, ◌++◌, ◌∷◌, [], ◌==◌, not, true, false, filter, length, replicate, slice_set, IfOk, OnOk};
ghost use Rattle.std.specs.List.{count_by};
ghost use Rattle.il_core.specs.LineGraph.{IsIn};
ghost use Rattle.flow_graph.specs.Search.{IsMarked, IsUnmarked, AreBelow, StayBelow, Reaches, row_of};
ghost use Rattle.interval_reduce.specs.Choice.{Precedes};
ghost use Rattle.interval_reduce.specs.Growth.{AreMarked, AreFree, AreConverse, IsBorderAfter, TakesNext};
ghost use Rattle.interval_reduce.specs.Level.{IsLevel};

use crate::choice::{least_fitting, least_of, row_at};
use crate::interval::Interval;
use il_core::{List, NoMemory};
use std::alloc::Global;

/// `count` marks, none of which is set.
fn no_marks(alloc: Global, count: usize) -> Result<Vec<bool>, NoMemory>
    ensures { IfOk result (λ v. v.items ≡ replicate count false) }
{
    Ok(vec![in alloc; false; count]?)
}

/// Removes a node wherever it stands.
fn remove(nodes: &mut Vec<usize>, node: usize)
    ensures { nodes.new.items ≡ filter (λ v. not (v == node)) nodes.old.items }
{
    nodes.retain(|other| *other != node);
}

/// Adds the nodes of a row that are not taken.
fn add_free(row: &[usize], taken: &[bool], nodes: &mut Vec<usize>) -> Result<(), NoMemory>
    requires { AreBelow (length taken.now) row.now }
    ensures { IfOk result (λ _. (v : ℕ) → IsIn nodes.new.items v
        ↔ (IsIn nodes.old.items v ⊎ (IsIn row.now v × IsUnmarked taken.now v))) }
{
    for node in row {
        if !taken[*node] {
            nodes.push(*node)?;
        }
    }
    Ok(())
}

/// Takes a node: marks it, and moves the border behind it.
fn take(
    node: usize,
    succs: &[List<usize>],
    taken: &mut Vec<bool>,
    border: &mut Vec<usize>,
) -> Result<(), NoMemory>
    requires taken { length taken.old.items ≡ length succs.now }
    requires node { node < length succs.now }
    requires rows { StayBelow (length succs.now) succs.now }
    ensures taken { OnOk result (taken.new.items ≡ slice_set taken.old.items node true) }
    ensures border { IfOk result (λ _. IsBorderAfter node (row_of succs.now node) taken.new.items border.old.items border.new.items) }
{
    taken[node] = true;
    remove(border, node);
    add_free(row_at(succs, node), taken.as_slice(), border)?;
    Ok(())
}

/// Unmarks nodes.
fn unmark(nodes: &[usize], marks: &mut Vec<bool>)
    requires { AreBelow (length marks.old.items) nodes.now }
    ensures size { length marks.new.items ≡ length marks.old.items }
    ensures unmarked { (v : ℕ) → IsMarked marks.new.items v → IsMarked marks.old.items v × (IsIn nodes.now v → ⊥) }
{
    for node in nodes {
        marks[*node] = false;
    }
}

/// The interval of a head behind earlier intervals, whose nodes are `taken` and whose border is `border`. It finds no node
/// marked in `inside`, and leaves none.
pub fn interval(
    alloc: Global,
    head: usize,
    preds: &[List<usize>],
    succs: &[List<usize>],
    taken: &mut Vec<bool>,
    inside: &mut Vec<bool>,
    border: &mut Vec<usize>,
) -> Result<Interval, NoMemory>
    requires taken { length taken.old.items ≡ length preds.now }
    requires inside { length inside.old.items ≡ length preds.now }
    requires none_inside { AreMarked inside.old.items [] }
    requires succs { length succs.now ≡ length preds.now }
    requires rows { StayBelow (length preds.now) preds.now }
    requires next_rows { StayBelow (length preds.now) succs.now }
    requires same_arcs { AreConverse preds.now succs.now }
    requires below { head < length preds.now }
    requires reached { Reaches (Precedes preds.now) 0 head }
    requires head { IsUnmarked taken.old.items head }
    requires border { AreFree taken.old.items border.old.items }
    ensures head { IfOk result (λ i. i.head ≡ head) }
    ensures size { IfOk result (λ _. length taken.new.items ≡ length taken.old.items) }
    ensures inside { IfOk result (λ _. length inside.new.items ≡ length inside.old.items) }
    ensures none_inside { IfOk result (λ _. AreMarked inside.new.items []) }
    ensures border { IfOk result (λ _. AreFree taken.new.items border.new.items) }
    ensures fewer { IfOk result (λ _. count_by not taken.new.items < count_by not taken.old.items) }
    ensures next { IfOk result (λ i. TakesNext preds.now taken.old.items border.old.items i taken.new.items border.new.items) }
{
    let mut members = List::new(alloc);
    take(head, succs, taken, border)?;
    inside[head] = true;
    members.push(head)?;
    while let Some(node) = least_fitting(border.as_slice(), preds, inside.as_slice()) {
        take(node, succs, taken, border)?;
        inside[node] = true;
        members.push(node)?;
    }
    unmark(members.as_slice(), inside);
    Ok(Interval { head, members })
}

/// The intervals of a graph with these predecessors and successors, in the order in which they are made.
pub fn level(
    alloc: Global,
    preds: &[List<usize>],
    succs: &[List<usize>],
) -> Result<List<Interval>, NoMemory>
    requires some { 0 < length preds.now }
    requires succs { length succs.now ≡ length preds.now }
    requires rows { StayBelow (length preds.now) preds.now }
    requires next_rows { StayBelow (length preds.now) succs.now }
    requires same_arcs { AreConverse preds.now succs.now }
    ensures { IfOk result (λ l. IsLevel (Reaches (Precedes preds.now) 0) (Precedes preds.now) l) }
{
    let mut taken = no_marks(alloc, preds.len())?;
    let mut inside = no_marks(alloc, preds.len())?;
    let mut border = Vec::new(alloc);
    let mut level = List::new(alloc);
    level.push(interval(alloc, 0, preds, succs, &mut taken, &mut inside, &mut border)?)?;
    while let Some(head) = least_of(border.as_slice()) {
        level.push(interval(
            alloc,
            head,
            preds,
            succs,
            &mut taken,
            &mut inside,
            &mut border,
        )?)?;
    }
    Ok(level)
}
