//! What can be reached from seeds over rows of following lines.
ghost use Rattle.std.specs.Prelude.{◌≡◌, ℕ, ◌<◌, ◌↔◌, length, replicate, false, IsTrue, IfOk};
ghost use Rattle.il_core.specs.LineGraph.{IsIn};
ghost use Rattle.flow_graph.specs.Graph.{Joins, IsWellFormed};
ghost use Rattle.flow_graph.specs.Search.{IsMarked, IsUnmarked, IsFound, Reaches, AreBelow, StayBelow, row_of};
ghost use Rattle.flow_graph.specs.Expansion.{Expansion};

use crate::graph::FlowGraph;
use crate::rows::successors;
use il_core::{List, NoMemory};
use std::alloc::Global;

/// `count` marks, none of which is set.
pub fn no_marks(alloc: Global, count: usize) -> Result<Vec<bool>, NoMemory>
    ensures { IfOk result (λ v. v.items ≡ replicate count false) }
{
    Ok(vec![in alloc; false; count]?)
}

/// The row at `at`.
pub fn row_at(rows: &[List<usize>], at: usize) -> &[usize]
    requires { at < length rows.now }
    ensures { result.now ≡ row_of rows.now at }
{
    rows[at].as_slice()
}

/// Whether a line is neither blocked nor marked.
fn is_open(blocked: &[bool], marked: &Vec<bool>, at: usize) -> bool
    requires size { length blocked.now ≡ length marked.now.items }
    requires within { at < length blocked.now }
    ensures { IsTrue result ↔ (IsUnmarked blocked.now at × IsUnmarked marked.now.items at) }
{
    !blocked[at] && !marked[at]
}

/// Marks each line of `row` that is neither blocked nor marked, and adds it to the work.
pub fn expand(
    row: &[usize],
    blocked: &[bool],
    marked: &mut Vec<bool>,
    work: &mut Vec<usize>,
) -> Result<(), NoMemory>
    requires size { length blocked.now ≡ length marked.old.items }
    requires below { AreBelow (length blocked.now) row.now }
    ensures { IfOk result (λ _. Expansion row.now blocked.now marked.old.items work.old.items marked.new.items work.new.items) }
{
    for at in row {
        if is_open(blocked, marked, *at) {
            marked[*at] = true;
            work.push(*at)?;
        }
    }
    Ok(())
}

/// For each line whether a walk over lines that are not blocked comes to it from a seed, each step of which goes from a
/// line to one in its row. A blocked seed begins no walk. There is one row and one entry of `blocked` per line, and the
/// rows and the seeds name lines. The only error is `NoMemory`.
pub fn search(
    alloc: Global,
    rows: &[List<usize>],
    blocked: &[bool],
    seeds: &[usize],
) -> Result<List<bool>, NoMemory>
    requires size { length blocked.now ≡ length rows.now }
    requires rows { StayBelow (length rows.now) rows.now }
    requires seeds { AreBelow (length rows.now) seeds.now }
    ensures size { IfOk result (λ marks. length marks ≡ length rows.now) }
    ensures exact { IfOk result (λ marks. (k : ℕ) → IsMarked marks k ↔ IsFound rows.now blocked.now seeds.now k) }
{
    let mut marked = no_marks(alloc, rows.len())?;
    let mut work = Vec::new(alloc);
    expand(seeds, blocked, &mut marked, &mut work)?;
    while let Some(at) = work.pop() {
        expand(row_at(rows, at), blocked, &mut marked, &mut work)?;
    }
    Ok(List::from_vec(marked))
}

/// For each node whether a walk along arcs comes to it from node 0. The only error is `NoMemory`.
pub fn reachable(alloc: Global, graph: &FlowGraph) -> Result<List<bool>, NoMemory>
    requires { IsWellFormed graph.now }
    ensures size { IfOk result (λ marks. length marks ≡ length graph.now.nodes) }
    ensures exact { IfOk result (λ marks. (k : ℕ) → IsMarked marks k ↔ Reaches (Joins graph.now.arcs) 0 k) }
{
    let rows = successors(alloc, graph)?;
    let blocked = no_marks(alloc, graph.nodes.len())?;
    let marks = search(alloc, rows.as_slice(), blocked.as_slice(), &[0])?;
    Ok(marks)
}
