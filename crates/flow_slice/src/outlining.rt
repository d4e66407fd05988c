//! What a slice keeps and fixes, without the slice.
ghost use Rattle.std.specs.Prelude.{◌≡◌, IfOk, length};
ghost use Rattle.il_core.specs.Checked.{procedure_of};
ghost use Rattle.flow_graph.specs.Graph.{graph_of};
ghost use Rattle.info_flow.specs.Growth.{is_relevant};
ghost use Rattle.flow_slice.specs.Searched.{AreReached, AreTails};
ghost use Rattle.flow_slice.specs.Slice.{IsOutline};

use crate::distance::distances;
use crate::fixing::{fixed_tests, kept_lines};
use crate::sliced::Outline;
use flow_graph::FlowGraph;
use il_core::{CheckedProc, List, NoMemory};
use std::alloc::Global;

/// The lines that a slice of a procedure keeps and the tests that it fixes, as `slice` answers them, and no slice. `marks`
/// has for each line whether it is relevant. `graph` is the graph of the procedure, `reached` has its reachable lines, and
/// `before` for each line those from which arcs lead to it, as `reachable` and `predecessors` answer them: what is found
/// once serves every variable. The only error is `NoMemory`.
///
/// One breadth-first search, in time linear in lines and arcs.
pub fn outline(
    alloc: Global,
    proc: &CheckedProc,
    graph: &FlowGraph,
    reached: &[bool],
    before: &[List<usize>],
    marks: &[bool],
) -> Result<Outline, NoMemory>
    requires graph { graph.now ≡ graph_of (procedure_of proc.now) }
    requires reached { AreReached graph.now reached.now }
    requires before { AreTails graph.now before.now }
    requires size { length marks.now ≡ length graph.now.nodes }
    ensures { IfOk result (IsOutline graph.now (is_relevant marks.now)) }
{
    let lines = proc.lines().as_slice();
    let distances = distances(alloc, graph, before, marks)?;
    let keep = kept_lines(alloc, reached, marks)?;
    let fixed = fixed_tests(alloc, lines, reached, marks, distances.as_slice())?;
    Ok(Outline { keep, fixed })
}
