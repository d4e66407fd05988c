//! Whether each cycle has one entry: whether no cycle has forward arcs alone (Hecht and Ullman, 1974).
ghost use Rattle.std.specs.Prelude.{◌≡◌, ℕ, ◌<◌, ◌≤◌, ◌≢◌, ◌↔◌, length, IfOk, MatchBool, MatchOption, IsTrue};
ghost use Rattle.il_core.specs.LineGraph.{IsIn};
ghost use Rattle.flow_graph.specs.Graph.{IsWellFormed, Joins};
ghost use Rattle.flow_graph.specs.Search.{StayBelow};
ghost use Rattle.control_flow.specs.Cycle.{IsReducible};
ghost use Rattle.control_flow.specs.Forward.{AreRows, AreTails, ComesBack, InRow, IsForward};

use crate::marks::marks_between;
use crate::rows::row_at;
use flow_graph::{FlowGraph, search};
use il_core::{List, NoMemory};
use std::alloc::Global;

/// Whether a line of a row is greater than `line`.
fn has_later(row: &[usize], line: usize) -> bool
    ensures { MatchBool result ((u : ℕ) × IsIn row.now u × (line < u)) ((u : ℕ) → IsIn row.now u → u ≤ line) }
{
    for at in row {
        if *at > line {
            return true;
        }
    }
    false
}

/// Whether a closed walk along the rows goes from a line over lines that are not less back to it; `row` has the lines
/// whose rows it is in. Without a greater line in that row there is none, and no search is made.
fn comes_back(
    alloc: Global,
    rows: &[List<usize>],
    row: &[usize],
    line: usize,
) -> Result<bool, NoMemory>
    requires rows { StayBelow (length rows.now) rows.now }
    requires row { (u : ℕ) → InRow rows.now u line → IsIn row.now u × (u ≢ line) }
    requires line { line < length rows.now }
    ensures { IfOk result (λ found. IsTrue found ↔ ComesBack rows.now line) }
{
    if !has_later(row, line) {
        return Ok(false);
    }
    let blocked = marks_between(alloc, rows.len(), 0, line)?;
    let marks = search(alloc, rows, blocked.as_slice(), row_at(rows, line))?;
    Ok(marks.as_slice()[line])
}

/// The least line to which a cycle of forward arcs comes back; `None` exactly where no cycle is twice entered.
pub fn forward_cycle(
    alloc: Global,
    graph: &FlowGraph,
    tails: &[List<usize>],
    forward: &[List<usize>],
) -> Result<Option<usize>, NoMemory>
    requires formed { IsWellFormed graph.now }
    requires tails { AreTails graph.now tails.now }
    requires forward { AreRows (length graph.now.nodes) (IsForward graph.now.arcs) forward.now }
    ensures { IfOk result (λ found. MatchOption found (IsReducible (Joins graph.now.arcs) 0) (λ line. (line < length forward.now) × ComesBack forward.now line)) }
{
    for line in 0..forward.len() {
        if comes_back(alloc, forward, row_at(tails, line), line)? {
            return Ok(Some(line));
        }
    }
    Ok(None)
}
