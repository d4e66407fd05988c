//! Rows: for each node the nodes that follow it, or those before it.
ghost use Rattle.std.specs.Prelude.{◌≡◌, ℕ, ◌<◌, ◌≤◌, ◌∷◌, ◌++◌, [], length, replicate, IfOk, slice_index_or, slice_set};
ghost use Rattle.il_core.specs.LineGraph.{IsIn};
ghost use Rattle.flow_graph.specs.Graph.{heads_from, tails_into, IsWellFormed};
ghost use Rattle.flow_graph.specs.Search.{row_of};

use crate::graph::{Arc, FlowGraph};
use il_core::{List, NoMemory};
use std::alloc::Global;

/// `count` empty rows.
fn empty_rows(alloc: Global, count: usize) -> Result<Vec<List<usize>>, NoMemory>
    ensures { IfOk result (λ v. v.items ≡ replicate count []) }
{
    let mut rows = Vec::with_capacity(alloc, count)?;
    for _row in 0..count {
        rows.push(List::new(alloc))?;
    }
    Ok(rows)
}

/// Adds `item` to the end of a row.
fn extend_row(rows: &mut Vec<List<usize>>, row: usize, item: usize) -> Result<(), NoMemory>
    requires { row < length rows.old.items }
    ensures { IfOk result (λ _. rows.new.items ≡ slice_set rows.old.items row (slice_index_or rows.old.items row [] ++ item ∷ [])) }
{
    rows[row].push(item)?;
    Ok(())
}

/// For each node the nodes that its arcs enter, in the order of the arcs. The only error is `NoMemory`.
pub fn successors(alloc: Global, graph: &FlowGraph) -> Result<List<List<usize>>, NoMemory>
    requires { IsWellFormed graph.now }
    ensures size { IfOk result (λ rows. length rows ≡ length graph.now.nodes) }
    ensures rows { IfOk result (λ rows. (k : ℕ) → row_of rows k ≡ heads_from graph.now.arcs k) }
{
    let mut rows = empty_rows(alloc, graph.nodes.len())?;
    for arc in graph.arcs.as_slice() {
        extend_row(&mut rows, arc.tail, arc.head)?;
    }
    Ok(List::from_vec(rows))
}

/// For each node the nodes that arcs into it leave, in the order of the arcs. The only error is `NoMemory`.
pub fn predecessors(alloc: Global, graph: &FlowGraph) -> Result<List<List<usize>>, NoMemory>
    requires { IsWellFormed graph.now }
    ensures size { IfOk result (λ rows. length rows ≡ length graph.now.nodes) }
    ensures rows { IfOk result (λ rows. (k : ℕ) → row_of rows k ≡ tails_into graph.now.arcs k) }
{
    let mut rows = empty_rows(alloc, graph.nodes.len())?;
    for arc in graph.arcs.as_slice() {
        extend_row(&mut rows, arc.head, arc.tail)?;
    }
    Ok(List::from_vec(rows))
}
