//! The control structure of a graph.
ghost use Rattle.std.specs.Prelude.{◌≡◌, ℕ, ◌<◌, ◌↔◌, length, IfOk};
ghost use Rattle.flow_graph.specs.Graph.{IsWellFormed, Joins};
ghost use Rattle.flow_graph.specs.Search.{IsMarked};
ghost use Rattle.flow_graph.specs.Reached.{IsReached, Lists};
ghost use Rattle.control_flow.specs.Control.{IsControlOf, IsShape, IsStuck};
ghost use Rattle.control_flow.specs.Forward.{AreHeads, AreTails, AreRows, IsForward, MarksUnreachable};

use crate::control::{Control, Shape};
use crate::evidence::entries_at;
use crate::marks::{marked_lines, marks_between, without};
use crate::rows::{ending, heads_of, tails_of};
use crate::shaping::forward_cycle;
use crate::splitting::split_arcs;
use flow_graph::{FlowGraph, reachable};
use il_core::{List, NoMemory};
use std::alloc::Global;

/// Marks of the lines that are not reached.
fn unreached_marks(
    alloc: Global,
    graph: &FlowGraph,
    reached: &[bool],
) -> Result<Vec<bool>, NoMemory>
    requires size { length reached.now ≡ length graph.now.nodes }
    requires reached { (k : ℕ) → IsMarked reached.now k ↔ IsReached graph.now.arcs k }
    ensures { IfOk result (λ marks. MarksUnreachable graph.now marks.items) }
{
    let count = reached.len();
    let all = marks_between(alloc, count, 0, count)?;
    let marks = without(alloc, all.as_slice(), reached)?;
    Ok(marks)
}

/// The reached lines from which the last line is not reached, ascending.
fn stuck_lines(
    alloc: Global,
    graph: &FlowGraph,
    tails: &[List<usize>],
    reached: &[bool],
) -> Result<List<usize>, NoMemory>
    requires formed { IsWellFormed graph.now }
    requires tails { AreTails graph.now tails.now }
    requires size { length reached.now ≡ length graph.now.nodes }
    requires reached { (k : ℕ) → IsMarked reached.now k ↔ IsReached graph.now.arcs k }
    ensures { IfOk result (Lists (IsStuck graph.now)) }
{
    let ends = ending(alloc, graph, tails)?;
    let marks = without(alloc, reached, ends.as_slice())?;
    let lines = marked_lines(alloc, marks.as_slice())?;
    Ok(lines)
}

/// Whether each cycle has one entry, from the rows of the forward arcs.
fn shape_of(
    alloc: Global,
    graph: &FlowGraph,
    heads: &[List<usize>],
    tails: &[List<usize>],
    forward: &[List<usize>],
) -> Result<Shape, NoMemory>
    requires formed { IsWellFormed graph.now }
    requires heads { AreHeads graph.now heads.now }
    requires tails { AreTails graph.now tails.now }
    requires forward { AreRows (length graph.now.nodes) (IsForward graph.now.arcs) forward.now }
    ensures { IfOk result (IsShape graph.now) }
{
    let found = forward_cycle(alloc, graph, tails, forward)?;
    match found {
        None => Ok(Shape::Reducible),
        Some(line) => {
            let entries = entries_at(alloc, graph, heads, tails, forward, line)?;
            Ok(Shape::TwoEntries(entries))
        }
    }
}

/// The control structure of a well formed graph. The only error is `NoMemory`.
///
/// `unreachable` has the lines that no walk from line 0 reaches, `stuck` the reachable lines from which the last line is
/// not reached, and `loops` a loop for each line to which an arc comes back: each ascending, as are the members and the
/// leading assertions of a loop. `shape` is `Reducible` exactly where no cycle can be entered first at two of its lines;
/// else it has such a cycle, which starts at its least line and repeats none, with a path to each of two of its lines,
/// that of the first path less than that of the second. Each path starts at line 0, repeats no line and meets the cycle
/// at its last line alone.
///
/// Loop heads are lines that stand on every walk to a tail of an arc into them, found by one search for each line that
/// avoids it; the graph is reducible where the other arcs form no cycle (Hecht and Ullman, Characterizations of reducible
/// flow graphs, 1974). The time is at most quadratic in the lines.
pub fn control_of(alloc: Global, graph: &FlowGraph) -> Result<Control, NoMemory>
    requires { IsWellFormed graph.now }
    ensures { IfOk result (IsControlOf graph.now) }
{
    let heads = heads_of(alloc, graph)?;
    let tails = tails_of(alloc, graph)?;
    let reached = reachable(alloc, graph)?;
    let behind = heads.as_slice();
    let before = tails.as_slice();
    let marks = reached.as_slice();
    let unreached = unreached_marks(alloc, graph, marks)?;
    let split = split_arcs(alloc, graph, behind, before, marks, unreached.as_slice())?;
    let shape = shape_of(alloc, graph, behind, before, split.forward.as_slice())?;
    let unreachable = marked_lines(alloc, unreached.as_slice())?;
    let stuck = stuck_lines(alloc, graph, before, marks)?;
    Ok(Control {
        unreachable,
        stuck,
        loops: split.loops,
        shape,
    })
}
