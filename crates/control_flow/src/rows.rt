//! Rows of the lines behind and before each line, and what is found along them.
ghost use Rattle.std.specs.Prelude.{◌≡◌, ℕ, ◌+◌, ◌<◌, ◌↔◌, ◌⊎◌, [], length, replicate, IfOk};
ghost use Rattle.il_core.specs.LineGraph.{IsIn};
ghost use Rattle.flow_graph.specs.Graph.{Joins, IsWellFormed};
ghost use Rattle.flow_graph.specs.Search.{IsMarked, IsWalk, Reaches, AreBelow, row_of};
ghost use Rattle.control_flow.specs.Loop.{ComesRound, IsBackArc};
ghost use Rattle.control_flow.specs.Forward.{AreHeads, AreTails, AreRows, IsReachedAround};

use crate::marks::marks_between;
use flow_graph::{FlowGraph, predecessors, search, successors};
use il_core::{List, NoMemory};
use std::alloc::Global;

/// For each line those behind it.
pub fn heads_of(alloc: Global, graph: &FlowGraph) -> Result<List<List<usize>>, NoMemory>
    requires { IsWellFormed graph.now }
    ensures { IfOk result (AreHeads graph.now) }
{
    let rows = successors(alloc, graph)?;
    Ok(rows)
}

/// For each line those before it.
pub fn tails_of(alloc: Global, graph: &FlowGraph) -> Result<List<List<usize>>, NoMemory>
    requires { IsWellFormed graph.now }
    ensures { IfOk result (AreTails graph.now) }
{
    let rows = predecessors(alloc, graph)?;
    Ok(rows)
}

/// The row of a line.
pub fn row_at(rows: &[List<usize>], at: usize) -> &[usize]
    requires { at < length rows.now }
    ensures { result.now ≡ row_of rows.now at }
{
    rows[at].as_slice()
}

/// The lines of a row that are marked.
pub fn marked_of(alloc: Global, row: &[usize], marks: &[bool]) -> Result<List<usize>, NoMemory>
    requires { AreBelow (length marks.now) row.now }
    ensures { IfOk result (λ lines. (k : ℕ) → IsIn lines k ↔ (IsIn row.now k × IsMarked marks.now k)) }
{
    let mut lines = List::new(alloc);
    for at in row {
        if marks[*at] {
            lines.push(*at)?;
        }
    }
    Ok(lines)
}

/// Marks of the lines to which walks from line 0 come that do not pass `line`.
pub fn reached_around(
    alloc: Global,
    graph: &FlowGraph,
    heads: &[List<usize>],
    line: usize,
) -> Result<List<bool>, NoMemory>
    requires formed { IsWellFormed graph.now }
    requires heads { AreHeads graph.now heads.now }
    requires inside { (0 < line) × (line < length graph.now.nodes) }
    ensures size { IfOk result (λ marks. length marks ≡ length graph.now.nodes) }
    ensures exact { IfOk result (λ marks. (k : ℕ) → IsMarked marks k ↔ IsReachedAround graph.now.arcs line k) }
{
    let blocked = marks_between(alloc, heads.len(), line, line + 1)?;
    let marks = search(alloc, heads, blocked.as_slice(), &[0])?;
    Ok(marks)
}

/// Marks of the lines from which the last line is reached.
pub fn ending(
    alloc: Global,
    graph: &FlowGraph,
    tails: &[List<usize>],
) -> Result<List<bool>, NoMemory>
    requires formed { IsWellFormed graph.now }
    requires tails { AreTails graph.now tails.now }
    ensures size { IfOk result (λ marks. length marks ≡ length graph.now.nodes) }
    ensures exact { IfOk result (λ marks. (k last : ℕ) → last + 1 ≡ length graph.now.nodes → IsMarked marks k ↔ Reaches (Joins graph.now.arcs) k last) }
{
    let count = tails.len();
    let blocked = marks_between(alloc, count, 0, 0)?;
    let marks = search(alloc, tails, blocked.as_slice(), &[count - 1])?;
    Ok(marks)
}

/// Marks of the lines that come to the tail of an arc back to `head` along a walk that does not pass `head`.
pub fn coming_round(
    alloc: Global,
    graph: &FlowGraph,
    tails: &[List<usize>],
    head: usize,
    back: &[usize],
) -> Result<List<bool>, NoMemory>
    requires formed { IsWellFormed graph.now }
    requires tails { AreTails graph.now tails.now }
    requires inside { head < length graph.now.nodes }
    requires back { (u : ℕ) → IsIn back.now u ↔ IsBackArc graph.now.arcs u head }
    ensures size { IfOk result (λ marks. length marks ≡ length graph.now.nodes) }
    ensures exact { IfOk result (λ marks. (k : ℕ) → IsMarked marks k ↔ ComesRound graph.now.arcs head k) }
{
    let blocked = marks_between(alloc, tails.len(), head, head + 1)?;
    let marks = search(alloc, tails, blocked.as_slice(), back)?;
    Ok(marks)
}
