//! Low lines: those to which a walk from line 0 comes that goes up at each step, and so passes no greater line.
ghost use Rattle.std.specs.Prelude.{◌≡◌, ℕ, ◌<◌, ◌≤◌, ◌↔◌, length, IfOk, IsTrue};
ghost use Rattle.il_core.specs.LineGraph.{IsIn};
ghost use Rattle.flow_graph.specs.Graph.{IsWellFormed};
ghost use Rattle.flow_graph.specs.Search.{IsMarked};
ghost use Rattle.control_flow.specs.Forward.{AreTails, IsReachedBelow};

use crate::rows::row_at;
use flow_graph::FlowGraph;
use il_core::{List, NoMemory};
use std::alloc::Global;

/// Whether a line is less than `line` and marked.
fn is_low(marks: &[bool], line: usize, at: usize) -> bool
    requires { line ≤ length marks.now }
    ensures { IsTrue result ↔ ((at < line) × IsMarked marks.now at) }
{
    at < line && marks[at]
}

/// Whether all lines of a row are less than `line` and marked.
pub fn all_low(row: &[usize], marks: &[bool], line: usize) -> bool
    requires { line ≤ length marks.now }
    ensures { IsTrue result → (u : ℕ) → IsIn row.now u → (u < line) × IsMarked marks.now u }
{
    for at in row {
        if !is_low(marks, line, *at) {
            return false;
        }
    }
    true
}

/// Whether a line of a row is less than `line` and marked.
fn has_low(row: &[usize], marks: &[bool], line: usize) -> bool
    requires { line ≤ length marks.now }
    ensures { IsTrue result → (u : ℕ) × IsIn row.now u × (u < line) × IsMarked marks.now u }
{
    for at in row {
        if is_low(marks, line, *at) {
            return true;
        }
    }
    false
}

/// Marks of low lines.
pub fn low_lines(
    alloc: Global,
    graph: &FlowGraph,
    tails: &[List<usize>],
) -> Result<Vec<bool>, NoMemory>
    requires formed { IsWellFormed graph.now }
    requires tails { AreTails graph.now tails.now }
    ensures size { IfOk result (λ m. length m.items ≡ length graph.now.nodes) }
    ensures low { IfOk result (λ m. (k : ℕ) → IsMarked m.items k → IsReachedBelow graph.now.arcs k) }
{
    let mut marks = Vec::with_capacity(alloc, graph.nodes.len())?;
    marks.push(true)?;
    for line in 1..graph.nodes.len() {
        let low = has_low(row_at(tails, line), marks.as_slice(), line);
        marks.push(low)?;
    }
    Ok(marks)
}
