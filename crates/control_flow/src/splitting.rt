//! The arcs into each line: those back to it, which make it a loop head, and those that go forward.
ghost use Rattle.std.specs.Prelude.{◌≡◌, ℕ, ◌+◌, ◌<◌, ◌↔◌, ◌⊎◌, ◌∷◌, ◌++◌, [], length, replicate, IfOk, slice_get, Some, slice_set};
ghost use Rattle.il_core.specs.LineGraph.{IsIn};
ghost use Rattle.flow_graph.specs.Graph.{IsWellFormed, Joins};
ghost use Rattle.flow_graph.specs.Search.{IsMarked, AreBelow, row_of};
ghost use Rattle.flow_graph.specs.Reached.{IsReached, Lists};
ghost use Rattle.control_flow.specs.Loop.{IsBackArc, IsHead};
ghost use Rattle.control_flow.specs.Control.{IsLoop, AreLoops, heads_of};
ghost use Rattle.control_flow.specs.Forward.{AreHeads, AreTails, AreRows, AreLoopsBelow, IsForward, IsReachedAround, MarksUnreachable};

use crate::ascending::{all_low, low_lines};
use crate::control::LoopInfo;
use crate::loops::loop_of;
use crate::marks::without;
use crate::rows::{marked_of, reached_around, row_at};
use flow_graph::FlowGraph;
use il_core::{List, NoMemory};
use std::alloc::Global;

/// The loops of a graph, and for each line those to which arcs go forward from it.
#[derive(Drop)]
pub struct ArcSplit {
    pub loops: List<LoopInfo>,
    pub forward: List<List<usize>>,
}

/// `count` empty rows.
fn empty_rows(alloc: Global, count: usize) -> Result<Vec<List<usize>>, NoMemory>
    ensures size { IfOk result (λ v. length v.items ≡ count) }
    ensures empty { IfOk result (λ v. (a b : ℕ) → IsIn (row_of v.items a) b → ⊥) }
{
    let mut rows = Vec::with_capacity(alloc, count)?;
    for _row in 0..count {
        rows.push(List::new(alloc))?;
    }
    Ok(rows)
}

/// Adds `item` to the end of a row.
fn extend_row(rows: &mut Vec<List<usize>>, row: usize, item: usize) -> Result<(), NoMemory>
    requires { row < length rows.old.items }
    ensures { IfOk result (λ _. rows.new.items ≡ slice_set rows.old.items row (row_of rows.old.items row ++ item ∷ [])) }
{
    rows[row].push(item)?;
    Ok(())
}

/// Adds `item` to the end of each of the rows of `lines`.
fn extend_rows(rows: &mut Vec<List<usize>>, lines: &[usize], item: usize) -> Result<(), NoMemory>
    requires { AreBelow (length rows.old.items) lines.now }
    ensures size { IfOk result (λ _. length rows.new.items ≡ length rows.old.items) }
    ensures exact { IfOk result (λ _. (a b : ℕ) → IsIn (row_of rows.new.items a) b ↔ (IsIn (row_of rows.old.items a) b ⊎ (IsIn lines.now a × (b ≡ item)))) }
{
    for line in lines {
        extend_row(rows, *line, item)?;
    }
    Ok(())
}

/// The tails of the arcs back to the line of a row of tails: the reached ones that are not reached around it.
fn back_tails(
    alloc: Global,
    graph: &FlowGraph,
    row: &[usize],
    reached: &[bool],
    around: &[bool],
    line: usize,
) -> Result<List<usize>, NoMemory>
    requires formed { IsWellFormed graph.now }
    requires row { (u : ℕ) → IsIn row.now u ↔ Joins graph.now.arcs u line }
    requires reached_size { length reached.now ≡ length graph.now.nodes }
    requires reached { (k : ℕ) → IsMarked reached.now k ↔ IsReached graph.now.arcs k }
    requires around_size { length around.now ≡ length graph.now.nodes }
    requires around { (k : ℕ) → IsMarked around.now k ↔ IsReachedAround graph.now.arcs line k }
    ensures { IfOk result (λ tails. (u : ℕ) → IsIn tails u ↔ IsBackArc graph.now.arcs u line) }
{
    let through = without(alloc, reached, around)?;
    let tails = marked_of(alloc, row, through.as_slice())?;
    Ok(tails)
}

/// Adds the loop of `line` where arcs come back to it, from the tails `back`.
fn add_loop(
    alloc: Global,
    graph: &FlowGraph,
    tails: &[List<usize>],
    unreached: &[bool],
    loops: &mut List<LoopInfo>,
    line: usize,
    back: &[usize],
) -> Result<(), NoMemory>
    requires formed { IsWellFormed graph.now }
    requires tails { AreTails graph.now tails.now }
    requires unreached { MarksUnreachable graph.now unreached.now }
    requires line { line < length graph.now.nodes }
    requires loops { AreLoopsBelow graph.now line loops.old }
    requires back { (u : ℕ) → IsIn back.now u ↔ IsBackArc graph.now.arcs u line }
    ensures { IfOk result (λ _. AreLoopsBelow graph.now (line + 1) loops.new) }
{
    if !back.is_empty() {
        let info = loop_of(alloc, graph, tails, unreached, line, back)?;
        loops.push(info)?;
    }
    Ok(())
}

/// The loops and the forward arcs of a graph, of which `heads` and `tails` are the rows. Where walks that go up at each step
/// come to all tails of the arcs into a line, and these are less than it, all these arcs go forward, and no search is made.
pub fn split_arcs(
    alloc: Global,
    graph: &FlowGraph,
    heads: &[List<usize>],
    tails: &[List<usize>],
    reached: &[bool],
    unreached: &[bool],
) -> Result<ArcSplit, NoMemory>
    requires formed { IsWellFormed graph.now }
    requires heads { AreHeads graph.now heads.now }
    requires tails { AreTails graph.now tails.now }
    requires reached_size { length reached.now ≡ length graph.now.nodes }
    requires reached { (k : ℕ) → IsMarked reached.now k ↔ IsReached graph.now.arcs k }
    requires unreached { MarksUnreachable graph.now unreached.now }
    ensures loops { IfOk result (λ s. AreLoops graph.now s.loops) }
    ensures forward { IfOk result (λ s. AreRows (length graph.now.nodes) (IsForward graph.now.arcs) s.forward) }
{
    let count = graph.nodes.len();
    let mut loops = List::new(alloc);
    let mut forward = empty_rows(alloc, count)?;
    let low = low_lines(alloc, graph, tails)?;
    for line in 1..count {
        let row = row_at(tails, line);
        if all_low(row, low.as_slice(), line) {
            extend_rows(&mut forward, row, line)?;
        } else {
            let around = reached_around(alloc, graph, heads, line)?;
            let front = marked_of(alloc, row, around.as_slice())?;
            extend_rows(&mut forward, front.as_slice(), line)?;
            let back = back_tails(alloc, graph, row, reached, around.as_slice(), line)?;
            add_loop(
                alloc,
                graph,
                tails,
                unreached,
                &mut loops,
                line,
                back.as_slice(),
            )?;
        }
    }
    Ok(ArcSplit {
        loops,
        forward: List::from_vec(forward),
    })
}
