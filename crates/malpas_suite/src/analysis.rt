//! The report of a procedure.
ghost use Rattle.std.specs.Prelude.{◌≡◌, ◌<◌, IfOk, IfSome, Some, length, slice_get};
ghost use Rattle.il_core.specs.Checked.{procedure_of};
ghost use Rattle.il_core.specs.Text.{text_of, text_procedure};
ghost use Rattle.il_inline.specs.Expanded.{IsExpandedText, whole_of};
ghost use Rattle.flow_graph.specs.Graph.{graph_of, IsWellFormed, HasPlaces};
ghost use Rattle.control_flow.specs.Control.{IsControlOf};
ghost use Rattle.control_flow.specs.declared.control.Shape.TheVariants.{Reducible};
ghost use Rattle.interval_reduce.specs.Derivation.{IsDerivationOf, Reduces};
ghost use Rattle.report.specs.Reported.{AreAnalyses, AreAnalysesBy, IsProcReportOf, call_lines};
ghost use Rattle.report.specs.Certified.{threats_in, AreMade};
ghost use Rattle.report.specs.Headline.{InputsHaveOneRow, IsSafeWhereClean, SourcesGiveEqualValues, TellsOfRuns};
ghost use Rattle.threat_certs.specs.Settled.{AreSound};

use crate::calls::calls_of;
use crate::certificates::{made_of, rows_of};
use crate::inputs::inputs_of;
use crate::slices::slices_of;
use crate::tables::tables_of;
use compliance::{Threat, threats};
use control_flow::{Control, Shape, control_of};
use data_use::data_use;
use flow_graph::{FlowGraph, build};
use il_core::{CheckedProc, List, NamedCert, NoMemory};
use il_inline::Expanded;
use info_flow::flows_and_sets;
use interval_reduce::{Derivation, derive};
use path_expr::paths;
use report::{Analyses, CallLine, ProcReport};
use std::alloc::Global;
use test_graph::lower;
use threat_certs::{certified_threats_mean_no_bad_run, listed_threats_are_sound};

/// The analyses of a reducible procedure, from its graph, its control structure and its derivation. The graph of its
/// tests is given back at the end.
fn analyses_of(
    alloc: Global,
    proc: &CheckedProc,
    graph: &FlowGraph,
    control: &Control,
    derivation: &Derivation,
) -> Result<Analyses, NoMemory>
    requires graph { graph.now ≡ graph_of (procedure_of proc.now) }
    requires formed { IsWellFormed graph.now }
    requires placed { HasPlaces graph.now proc.now.places }
    requires control { IsControlOf (graph_of (procedure_of proc.now)) control.now }
    requires shape { control.now.shape ≡ Reducible }
    requires derivation { IsDerivationOf (graph_of (procedure_of proc.now)) control.now.shape derivation.now }
    requires reduces { Reduces graph.now control.now.shape derivation.now }
    ensures analyses { IfOk result (AreAnalyses (procedure_of proc.now) control.now.loops derivation.now.order) }
    ensures made { IfOk result (λ a. AreMade proc.now.name proc.now.places a.threats a.made) }
    ensures one_row { IfOk result (InputsHaveOneRow (procedure_of proc.now) control.now.loops) }
    ensures safe { IfOk result (IsSafeWhereClean (procedure_of proc.now) control.now.loops) }
    ensures equal_values { IfOk result (SourcesGiveEqualValues (procedure_of proc.now) control.now.loops) }
{
    listed_threats_are_sound();
    let places = proc.places().as_slice();
    let order = derivation.order.as_slice();
    let tests = lower(alloc, proc)?;
    let found = flows_and_sets(alloc, graph, places, order)?;
    let tables = tables_of(alloc, proc, &tests, control, derivation)?;
    let inputs = inputs_of(alloc, proc, control, tables.as_slice())?;
    let threats = threats(alloc, proc, &tests, control, derivation)?;
    let made = made_of(alloc, proc, threats.as_slice())?;
    Ok(Analyses {
        paths: paths(alloc, graph, order)?,
        usage: data_use(alloc, graph, places, order)?,
        slices: slices_of(alloc, proc, graph, found.sets.as_slice())?,
        flows: found.flows,
        tables,
        inputs,
        threats,
        made,
    })
}

/// The analyses of a procedure exactly where its shape is reducible, from its graph, its control structure and its
/// derivation.
fn analyses_by(
    alloc: Global,
    proc: &CheckedProc,
    graph: &FlowGraph,
    control: &Control,
    derivation: &Derivation,
) -> Result<Option<Analyses>, NoMemory>
    requires graph { graph.now ≡ graph_of (procedure_of proc.now) }
    requires formed { IsWellFormed graph.now }
    requires placed { HasPlaces graph.now proc.now.places }
    requires control { IsControlOf (graph_of (procedure_of proc.now)) control.now }
    requires derivation { IsDerivationOf (graph_of (procedure_of proc.now)) control.now.shape derivation.now }
    requires reduces { Reduces graph.now control.now.shape derivation.now }
    ensures analyses { IfOk result (AreAnalysesBy (procedure_of proc.now) control.now.loops control.now.shape derivation.now.order) }
    ensures made { IfOk result (λ analyses. IfSome analyses (λ a. AreMade proc.now.name proc.now.places a.threats a.made)) }
    ensures one_row { IfOk result (λ analyses. IfSome analyses (InputsHaveOneRow (procedure_of proc.now) control.now.loops)) }
    ensures safe { IfOk result (λ analyses. IfSome analyses (IsSafeWhereClean (procedure_of proc.now) control.now.loops)) }
    ensures equal_values { IfOk result (λ analyses. IfSome analyses (SourcesGiveEqualValues (procedure_of proc.now) control.now.loops)) }
{
    match control.shape {
        Shape::Reducible => Ok(Some(analyses_of(alloc, proc, graph, control, derivation)?)),
        Shape::TwoEntries(_) => Ok(None),
    }
}

/// The threats that are told of; none of a procedure that is not analysed.
fn threats_in(analyses: &Option<Analyses>) -> &[Threat]
    ensures { result.now ≡ threats_in analyses.now }
{
    match analyses {
        Some(all) => all.threats.as_slice(),
        None => &[],
    }
}

/// The report of a procedure that makes these calls.
fn report_of(
    alloc: Global,
    proc: &CheckedProc,
    calls: List<CallLine>,
    certs: &[NamedCert],
) -> Result<ProcReport, NoMemory>
    ensures report { IfOk result (IsProcReportOf certs.now (text_procedure proc.now)) }
    ensures calls { IfOk result (λ r. r.calls ≡ calls) }
    ensures runs { IfOk result (λ r. IfSome r.analyses (TellsOfRuns (procedure_of proc.now) r.control.loops r.certs)) }
{
    listed_threats_are_sound();
    certified_threats_mean_no_bad_run();
    let places = proc.places().as_slice();
    let graph = build(alloc, proc)?;
    let control = control_of(alloc, &graph)?;
    let derivation = derive(alloc, &graph, &control)?;
    let analyses = analyses_by(alloc, proc, &graph, &control, &derivation)?;
    let certs = rows_of(alloc, proc, threats_in(&analyses), certs)?;
    let places = Vec::from_slice(alloc, places)?;
    Ok(ProcReport {
        name: proc.name(),
        places: List::from_vec(places),
        lines: proc.lines().len(),
        calls,
        arcs: graph.arcs,
        control,
        derivation,
        analyses,
        certs,
    })
}

/// The report of the procedure of this number, counted from 0, of an expanded text. The procedure, its lines and its runs
/// are those of the expanded text, which has no calls. Told are its name, places, lines and arcs, the lines that stand
/// for each of its calls with the name of the procedure called, its control structure, the derivation of its graph by
/// intervals (Allen and Cocke, A program data flow analysis procedure, 1976) and, exactly where that structure is
/// reducible, its analyses: all paths as one expression over the arcs (Carré, An algebra for network routing problems,
/// 1971), the use of each variable (by elimination, Carré, Graphs and Networks, 1979), what its final value rests on
/// (after Bergeretti and Carré, Information-flow and data-flow analysis of while-programs, 1985), the slice for each
/// variable (Weiser, Program slicing, 1984), the table of each
/// region (King, Symbolic execution and program testing, 1976) and the threats to it, each with its verdict (by inductive
/// assertions, Floyd, Assigning meanings to programs, 1967), with a certificate for each that is refuted (sums of
/// inequalities, Farkas, Theorie der einfachen Ungleichungen, 1902). So `analyses` is `None` exactly where some cycle can be
/// entered first at two lines. Of the given certificates each that names the procedure has a row, in order, which says
/// whether it is accepted for a threat that is there; those of other procedures have none.
///
/// Each table of a region within its size has exactly one row for each input of the region, and stepping the lines from
/// that input gives the row's stop and values. Where no table is past its size and every threat is refuted, no run from
/// the precondition faults, fails an assertion or ends outside the postcondition; and neither where each threat that is
/// not refuted has a row that says that its certificate is accepted. Two runs that end, and whose initial
/// states agree on the sources of a row of flow, end with equal values of its variable.
///
/// The structure and the derivation take time at most quadratic in the lines, and the rest that of `paths`, `data_use`,
/// `flows`, `outline`, `table` and `threats`: eliminations, for each variable rounds of questions about tests and one
/// breadth-first search, and walks over the paths of the regions, of which each has at most 16,384 within its size. The only error is `NoMemory`.
pub fn analyse_proc(
    alloc: Global,
    text: &Expanded,
    number: usize,
    certs: &[NamedCert],
) -> Result<ProcReport, NoMemory>
    requires fits { IsExpandedText text.now }
    requires number { number < length text.now.text.procs }
    ensures report { IfOk result (λ r. IfSome (slice_get (text_of text.now.text).procs number) (λ p. IsProcReportOf certs.now p r)) }
    ensures calls { IfOk result (λ r. slice_get (call_lines (whole_of text.now)) number ≡ Some r.calls) }
    ensures runs { IfOk result (λ r. IfSome (slice_get (text_of text.now.text).procs number)
        (λ p. IfSome r.analyses (TellsOfRuns p.body r.control.loops r.certs))) }
{
    let calls = calls_of(alloc, text, number)?;
    let proc = &text.text.procs().as_slice()[number];
    report_of(alloc, proc, calls, certs)
}
