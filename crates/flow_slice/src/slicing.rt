//! The slice of a procedure.
ghost use Rattle.std.specs.Prelude.{◌≡◌, ℕ, IfOk};
ghost use Rattle.il_core.specs.Checked.{procedure_of};
ghost use Rattle.flow_graph.specs.Graph.{graph_of};
ghost use Rattle.info_flow.specs.Growth.{AreLeast, is_relevant};
ghost use Rattle.flow_slice.specs.Slice.{IsSliced};
ghost use Rattle.flow_slice.specs.Laws.{EndAlike};

use crate::distance::distances;
use crate::fixing::{fixed_tests, kept_lines};
use crate::lines::sliced_lines;
use crate::sliced::SlicedProc;
use flow_graph::{FlowGraph, predecessors, reachable};
use il_core::{CheckedProc, List, NoMemory, Place};
use info_flow::RelevantSets;
use std::alloc::Global;

/// The same places in memory of their own.
fn copied_places(alloc: Global, places: &[Place]) -> Result<List<Place>, NoMemory>
    ensures { IfOk result (λ copies. copies ≡ places.now) }
{
    Ok(List::from_vec(Vec::from_slice(alloc, places)?))
}

/// The slice of a procedure for one variable: its relevant assignments and tests stay; every other assignment and every
/// assertion becomes SKIP, the precondition and the postcondition become TRUE, and every other test is fixed to FALSE where
/// a path from the line of its false arc to a relevant line is shorter than each from the line of its true arc, and to TRUE
/// elsewhere. Lines that no path reaches are sliced too. With it come the reachable lines that are relevant and the
/// reachable tests that are fixed. `graph` is the graph of the procedure, and `relevant` has the relevant lines and the
/// needed places of the variable, as `relevant` of information flow answers them. The only error is `NoMemory`.
///
/// The slice is a checked procedure with the same name, places and arcs. Where a run of the procedure ends, the run of the
/// slice from the same state ends, with the same value of the variable (Weiser, Program slicing, 1984, asks this of a
/// slice). The time is linear in the lines and their expressions.
pub fn slice(
    alloc: Global,
    proc: &CheckedProc,
    graph: &FlowGraph,
    relevant: &RelevantSets,
) -> Result<SlicedProc, NoMemory>
    requires graph { graph.now ≡ graph_of (procedure_of proc.now) }
    requires relevant { (v : ℕ) × AreLeast graph.now v relevant.now.lines relevant.now.needs }
    ensures slice { IfOk result (IsSliced proc.now (is_relevant relevant.now.lines)) }
    ensures ends { IfOk result (λ r. (v : ℕ) → AreLeast graph.now v relevant.now.lines relevant.now.needs → EndAlike (procedure_of proc.now) (procedure_of r.proc) v) }
{
    let lines = proc.lines().as_slice();
    let marks = relevant.lines.as_slice();
    let rows = predecessors(alloc, graph)?;
    let before = rows.as_slice();
    let distances = distances(alloc, graph, before, marks)?;
    let reached = reachable(alloc, graph)?;
    let keep = kept_lines(alloc, reached.as_slice(), marks)?;
    let fixed = fixed_tests(
        alloc,
        lines,
        reached.as_slice(),
        marks,
        distances.as_slice(),
    )?;
    let sliced = sliced_lines(alloc, lines, marks, distances.as_slice())?;
    let places = copied_places(alloc, proc.places().as_slice())?;
    Ok(SlicedProc {
        proc: CheckedProc::new(proc.name(), places, sliced),
        keep,
        fixed,
    })
}
