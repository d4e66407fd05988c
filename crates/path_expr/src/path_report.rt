//! All paths through a procedure as one expression.
ghost use Rattle.std.specs.Prelude.{◌≡◌, ◌∷◌, [], length, IfOk};
ghost use Rattle.flow_graph.specs.Graph.{IsWellFormed};
ghost use Rattle.flow_graph.specs.Reached.{IsInnerOrder, Lists};
ghost use Rattle.path_expr.specs.Report.{IsLive, IsPathReportOf, WordsArePaths};
ghost use Rattle.path_expr.specs.Marks.{CountFromOne};

use crate::definitions::definitions;
use crate::live::{ends_of, live_arcs};
use crate::report::PathReport;
use flow_graph::{FlowGraph, reachable};
use il_core::NoMemory;
use regular_algebra::plan;
use std::alloc::Global;

/// All paths from line 0 of a graph to its last line as one expression over its arcs, with its definitions: those steps of
/// one plan of elimination, over the arcs of the reachable lines in the given order of the lines, that the answer uses. The
/// words of the whole are exactly the paths, as the numbers of their arcs from 1; it is zero where there is none.
///
/// The order has each reachable line but line 0 and the last exactly once, and no other line. The only error is
/// `NoMemory`. By elimination (Carré 1971); the time is that of `plan`, and linear in arcs and steps besides.
pub fn paths(alloc: Global, graph: &FlowGraph, order: &[usize]) -> Result<PathReport, NoMemory>
    requires formed { IsWellFormed graph.now }
    requires order { IsInnerOrder graph.now order.now }
    ensures report { IfOk result (λ p. IsPathReportOf graph.now order.now p) }
    ensures words { IfOk result (λ p. WordsArePaths graph.now p) }
{
    let marks = reachable(alloc, graph)?;
    let live = live_arcs(alloc, graph.arcs.as_slice(), marks.as_slice())?;
    report_over(alloc, graph, order, live.as_slice())
}

/// All paths as one expression, from the numbers of the arcs that leave reachable lines.
fn report_over(
    alloc: Global,
    graph: &FlowGraph,
    order: &[usize],
    live: &[usize],
) -> Result<PathReport, NoMemory>
    requires formed { IsWellFormed graph.now }
    requires order { IsInnerOrder graph.now order.now }
    requires live { Lists (IsLive graph.now.arcs) live.now }
    requires small { CountFromOne live.now }
    ensures report { IfOk result (λ p. IsPathReportOf graph.now order.now p) }
    ensures words { IfOk result (λ p. WordsArePaths graph.now p) }
{
    let ends = ends_of(alloc, graph.arcs.as_slice(), live)?;
    let count = graph.nodes.len();
    let made = plan(alloc, count, ends.as_slice(), order, 0, &[count - 1])?;
    let answer = only(made.answers.as_slice());
    definitions(alloc, live, made.steps.as_slice(), answer)
}

/// The one answer of a plan with one target.
pub(crate) fn only(answers: &[Option<usize>]) -> Option<usize>
    requires { length answers.now ≡ 1 }
    ensures { answers.now ≡ result ∷ [] }
{
    answers[0]
}
