//! The slices of a procedure.
ghost use Rattle.std.specs.Prelude.{◌≡◌, IfOk};
ghost use Rattle.il_core.specs.Checked.{procedure_of};
ghost use Rattle.flow_graph.specs.Graph.{graph_of, IsWellFormed};
ghost use Rattle.flow_slice.specs.Searched.{AreReached, AreTails};
ghost use Rattle.info_flow.specs.Together.{HaveLeast, AreLeastOfEach};
ghost use Rattle.report.specs.Sliced.{AreSlices, IsSliceRow};

use flow_graph::{FlowGraph, predecessors, reachable};
use flow_slice::outline;
use il_core::{CheckedProc, List, NoMemory};
use info_flow::VariableSets;
use report::SliceRow;
use std::alloc::Global;

/// What the slice for one variable keeps and fixes.
fn slice_row(
    alloc: Global,
    proc: &CheckedProc,
    graph: &FlowGraph,
    reached: &[bool],
    before: &[List<usize>],
    found: &VariableSets,
) -> Result<SliceRow, NoMemory>
    requires graph { graph.now ≡ graph_of (procedure_of proc.now) }
    requires reached { AreReached graph.now reached.now }
    requires before { AreTails graph.now before.now }
    requires least { HaveLeast graph.now found.now }
    ensures place { IfOk result (λ row. row.place ≡ found.now.place) }
    ensures row { IfOk result (IsSliceRow graph.now) }
{
    let marks = found.sets.lines.as_slice();
    let outline = outline(alloc, proc, graph, reached, before, marks)?;
    Ok(SliceRow {
        place: found.place,
        keep: outline.keep,
        fixed: outline.fixed,
    })
}

/// The slice for each variable of a reducible procedure, in the order of the places, from the sets of each: one search for
/// each variable. The only error is `NoMemory`.
pub(crate) fn slices_of(
    alloc: Global,
    proc: &CheckedProc,
    graph: &FlowGraph,
    found: &[VariableSets],
) -> Result<List<SliceRow>, NoMemory>
    requires graph { graph.now ≡ graph_of (procedure_of proc.now) }
    requires formed { IsWellFormed graph.now }
    requires found { AreLeastOfEach graph.now proc.now.places found.now }
    ensures { IfOk result (AreSlices graph.now proc.now.places) }
{
    let marks = reachable(alloc, graph)?;
    let rows = predecessors(alloc, graph)?;
    let reached = marks.as_slice();
    let before = rows.as_slice();
    let mut slices = List::new(alloc);
    for sets in found {
        let row = slice_row(alloc, proc, graph, reached, before, sets)?;
        slices.push(row)?;
    }
    Ok(slices)
}
