//! The rows of information flow.
ghost use Rattle.std.specs.Prelude.{◌≡◌, ◌<◌, ◌↔◌, ℕ, map, length, IsTrue, IfOk};
ghost use Rattle.il_core.specs.LineGraph.{IsIn};
ghost use Rattle.flow_graph.specs.Graph.{IsWellFormed, HasPlaces};
ghost use Rattle.flow_graph.specs.Reached.{IsInnerOrder, IsReached, Lists};
ghost use Rattle.flow_graph.specs.Search.{IsMarked};
ghost use Rattle.info_flow.specs.declared.relevance.VariableSets.{VariableSets};
ghost use Rattle.info_flow.specs.declared.row.FlowRow.{FlowRow};
ghost use Rattle.info_flow.specs.Growth.{HasPlace, IsChosen};
ghost use Rattle.info_flow.specs.Sources.{AreSources, AreFlows, HaveEqualValues};
ghost use Rattle.info_flow.specs.Together.{HaveLeast, AreLeastOfEach};

use crate::masks::{has_place, mask_at};
use crate::relevance::{VariableSets, sets_of_each};
use crate::row::FlowRow;
use crate::sets::is_test;
use flow_graph::{FlowGraph, reachable};
use il_core::{List, NoMemory, Place};
use std::alloc::Global;

/// The places of a mask, ascending.
fn places_of(alloc: Global, mask: u64) -> Result<List<usize>, NoMemory>
    ensures { IfOk result (λ places. Lists (HasPlace mask) places) }
{
    let mut places = List::new(alloc);
    for place in 0..64 {
        if has_place(mask, place) {
            places.push(place)?;
        }
    }
    Ok(places)
}

/// Whether a line is a reachable test that is relevant.
fn is_chosen(graph: &FlowGraph, reached: &[bool], lines: &[bool], line: usize) -> bool
    requires line { line < length graph.now.nodes }
    requires reached { length reached.now ≡ length graph.now.nodes }
    requires lines { length lines.now ≡ length graph.now.nodes }
    ensures { IsTrue result ↔ IsChosen graph.now reached.now lines.now line }
{
    reached[line] && is_test(graph, line) && lines[line]
}

/// The reachable tests that are relevant, ascending.
fn chosen_tests(
    alloc: Global,
    graph: &FlowGraph,
    reached: &[bool],
    lines: &[bool],
) -> Result<List<usize>, NoMemory>
    requires reached { length reached.now ≡ length graph.now.nodes }
    requires lines { length lines.now ≡ length graph.now.nodes }
    ensures { IfOk result (λ tests. Lists (IsChosen graph.now reached.now lines.now) tests) }
{
    let mut tests = List::new(alloc);
    for line in 0..graph.nodes.len() {
        if is_chosen(graph, reached, lines, line) {
            tests.push(line)?;
        }
    }
    Ok(tests)
}

/// The row of a variable, by its sets.
fn row_of_sets(
    alloc: Global,
    graph: &FlowGraph,
    reached: &[bool],
    found: &VariableSets,
) -> Result<FlowRow, NoMemory>
    requires formed { IsWellFormed graph.now }
    requires size { length reached.now ≡ length graph.now.nodes }
    requires reached { (k : ℕ) → IsMarked reached.now k ↔ IsReached graph.now.arcs k }
    requires least { HaveLeast graph.now found.now }
    ensures place { IfOk result (λ row. row.place ≡ found.now.place) }
    ensures sources { IfOk result (AreSources graph.now) }
{
    let lines = found.sets.lines.as_slice();
    let needs = found.sets.needs.as_slice();
    let sources = places_of(alloc, mask_at(needs, 0))?;
    let tests = chosen_tests(alloc, graph, reached, lines)?;
    Ok(FlowRow {
        place: found.place,
        sources,
        tests,
    })
}

/// The rows of variables, by their sets.
fn rows_of_sets(
    alloc: Global,
    graph: &FlowGraph,
    found: &[VariableSets],
) -> Result<List<FlowRow>, NoMemory>
    requires formed { IsWellFormed graph.now }
    requires least { (sets : VariableSets) → IsIn found.now sets → HaveLeast graph.now sets }
    ensures places { IfOk result (λ rows. map (λ row. row.place) rows ≡ map (λ sets. sets.place) found.now) }
    ensures sources { IfOk result (λ rows. (row : FlowRow) → IsIn rows row → AreSources graph.now row) }
{
    let reached = reachable(alloc, graph)?;
    let mut rows = List::new(alloc);
    for sets in found {
        let row = row_of_sets(alloc, graph, reached.as_slice(), sets)?;
        rows.push(row)?;
    }
    Ok(rows)
}

/// The rows of information flow, and what they were read off.
#[derive(Drop)]
pub struct FlowsAndSets {
    /// For each variable, in the order of the places, what its final value rests on.
    pub flows: List<FlowRow>,
    /// For each variable, in the order of the places, what is relevant to it, line by line.
    pub sets: List<VariableSets>,
}

/// The rows that `flows` answers, and beside them, for each variable in the order of the places, the sets that `relevant`
/// answers: these are found once for both. The graph, the places and the order are as `flows` asks. The only error is
/// `NoMemory`.
pub fn flows_and_sets(
    alloc: Global,
    graph: &FlowGraph,
    places: &[Place],
    order: &[usize],
) -> Result<FlowsAndSets, NoMemory>
    requires formed { IsWellFormed graph.now }
    requires places { HasPlaces graph.now places.now }
    requires order { IsInnerOrder graph.now order.now }
    ensures flows { IfOk result (λ both. AreFlows graph.now places.now both.flows) }
    ensures agree { IfOk result (λ both. HaveEqualValues graph.now places.now both.flows) }
    ensures sets { IfOk result (λ both. AreLeastOfEach graph.now places.now both.sets) }
{
    let sets = sets_of_each(alloc, graph, places)?;
    let flows = rows_of_sets(alloc, graph, sets.as_slice())?;
    Ok(FlowsAndSets { flows, sets })
}

/// For each variable, in the order of the places, what its final value rests on: the places whose initial values decide
/// it, and the reachable tests that decide it, both ascending. There are at most 64 places, which are those that the
/// graph reads, assigns and hands back, and `order` has each reachable line but the first and the last exactly once. The
/// only error is `NoMemory`.
///
/// The sources are the places that line 0 needs, and the tests the relevant ones, of the least sets of relevant lines and
/// needed places (after Bergeretti and Carré, Information-flow and data-flow analysis of while-programs, 1985). In each
/// checked procedure with this graph and these places, two runs that end, and whose initial states agree on a row's
/// sources, end with equal values of its variable.
///
/// The sets are found by passes over the graph; the order is not used. A round of a variable takes time linear in the
/// graph for each test that is not yet relevant to it, and each round but the last finds a relevant test.
pub fn flows(
    alloc: Global,
    graph: &FlowGraph,
    places: &[Place],
    order: &[usize],
) -> Result<List<FlowRow>, NoMemory>
    requires formed { IsWellFormed graph.now }
    requires places { HasPlaces graph.now places.now }
    requires order { IsInnerOrder graph.now order.now }
    ensures flows { IfOk result (AreFlows graph.now places.now) }
    ensures agree { IfOk result (HaveEqualValues graph.now places.now) }
{
    let both = flows_and_sets(alloc, graph, places, order)?;
    Ok(both.flows)
}
