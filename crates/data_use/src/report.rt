//! The report on data use.
ghost use Rattle.std.specs.Prelude.{◌≡◌, ◌+◌, ◌≤◌, ◌<◌, ◌↔◌, ◌++◌, [], ◌∷◌, ℕ, length, map, IsTrue, IfOk, OnOk};
ghost use Rattle.il_core.specs.LineGraph.{IsIn};
ghost use Rattle.flow_graph.specs.Graph.{IsWellFormed, HasPlaces};
ghost use Rattle.flow_graph.specs.Reached.{IsInnerOrder};
ghost use Rattle.regular_algebra.specs.Relation.{Joins};
ghost use Rattle.data_use.specs.Points.{number};
ghost use Rattle.data_use.specs.Sums.{TellsRow, AreSums, AddsRows, IsPlanOf};
ghost use Rattle.data_use.specs.Routes.{IsRoute};
ghost use Rattle.data_use.specs.Facts.{IsUseRow, variables_from, place_of};

use crate::lines::entries_of;
use crate::points::{POINTS, Point};
use crate::routes::{plan_of, routes};
use crate::row::UseRow;
use flow_graph::{Arc, FlowGraph, reachable};
use il_core::{List, NoMemory, Place};
use regular_algebra::{BitRelation, Plan, evaluate};
use std::alloc::Global;

/// How many variables share one relation, which has room for the seven points of nine.
const GROUP: usize = 9;

/// Whether the relation leads from one point of a variable to another, where its points are numbered from `first` on.
fn leads(relation: &BitRelation, first: usize, from: Point, to: Point) -> bool
    requires { first + 7 ≤ 66 }
    ensures { IsTrue result ↔ Joins relation.now (first + number from) (first + number to) }
{
    relation.has(first + from.number(), first + to.number())
}

/// The row of a variable, from what all walks join and what the walks to the last line join.
fn row_of(anywhere: &BitRelation, at_end: &BitRelation, first: usize, place: usize) -> UseRow
    requires { first + 7 ≤ 66 }
    ensures place { result.place ≡ place }
    ensures facts { TellsRow anywhere.now at_end.now first result }
{
    UseRow {
        place,
        read_first: leads(anywhere, first, Point::Fresh, Point::ReadFirst),
        overwritten: leads(anywhere, first, Point::Any, Point::Overwritten),
        last_write: leads(at_end, first, Point::Any, Point::JustWritten),
        never_read: !leads(anywhere, first, Point::Any, Point::ReadOnce),
        never_written: !leads(anywhere, first, Point::Any, Point::WrittenOnce),
        end_unwritten: leads(at_end, first, Point::Fresh, Point::Fresh),
    }
}

/// Adds the rows of a group of variables.
fn add_rows(
    rows: &mut Vec<UseRow>,
    graph: &FlowGraph,
    anywhere: &BitRelation,
    at_end: &BitRelation,
    group: &[usize],
) -> Result<(), NoMemory>
    requires few { length group.now ≤ 9 }
    requires sums { AreSums graph.now group.now anywhere.now at_end.now }
    ensures { OnOk result (AddsRows graph.now group.now rows.old.items rows.new.items) }
{
    for (slot, variable) in group.iter().enumerate() {
        rows.push(row_of(anywhere, at_end, slot * POINTS, *variable))?;
    }
    Ok(())
}

/// Sums up the walks for a group of variables, and adds their rows.
fn add_group(
    alloc: Global,
    rows: &mut Vec<UseRow>,
    graph: &FlowGraph,
    routes: &[Arc],
    plan: &Plan,
    group: &[usize],
) -> Result<(), NoMemory>
    requires formed { IsWellFormed graph.now }
    requires routes { (a : Arc) → IsIn routes.now a ↔ IsRoute graph.now a }
    requires plan { IsPlanOf (length graph.now.nodes) routes.now plan.now }
    requires few { length group.now ≤ 9 }
    requires low { (v : ℕ) → IsIn group.now v → v < 64 }
    ensures { OnOk result (AddsRows graph.now group.now rows.old.items rows.new.items) }
{
    let entries = entries_of(alloc, graph.nodes.as_slice(), routes, group)?;
    let values = evaluate(alloc, plan, entries.as_slice())?;
    let sums = values.as_slice();
    add_rows(rows, graph, &sums[0], &sums[1], group)?;
    Ok(())
}

/// The order with the last line behind it.
fn with_last(alloc: Global, order: &[usize], last: usize) -> Result<Vec<usize>, NoMemory>
    ensures { IfOk result (λ v. v.items ≡ order.now ++ last ∷ []) }
{
    let mut full = Vec::new(alloc);
    full.extend_from_slice(order)?;
    full.push(last)?;
    Ok(full)
}

/// The places that are variables and no OLD copies.
fn variables(alloc: Global, places: &[Place]) -> Result<Vec<usize>, NoMemory>
    ensures { IfOk result (λ v. v.items ≡ variables_from 0 places.now) }
{
    let mut variables = Vec::new(alloc);
    for (number, place) in places.iter().enumerate() {
        if !place.old {
            variables.push(number)?;
        }
    }
    Ok(variables)
}

/// How each variable is used: one row for each place that is no OLD copy, in the order of the places. The only error is
/// `NoMemory`.
///
/// An assignment reads the variables of its right side and then writes its target, a test reads, and the last line reads
/// the variables that are handed back. The facts speak of walks from line 0, the events of all lines of a walk included:
/// those on the last write and on no write at the end of walks to the last line, the others of walks to any line.
///
/// The places are those of the graph's nodes. The order has each reachable line but line 0 and the last exactly once; it
/// changes no fact, only the time that is taken.
///
/// The walks are summed up by elimination (Carré, Graphs and Networks, 1979). Its plan is made once, in rows that hold only
/// their entries. The plan's steps are then taken once for every nine variables.
pub fn data_use(
    alloc: Global,
    graph: &FlowGraph,
    places: &[Place],
    order: &[usize],
) -> Result<List<UseRow>, NoMemory>
    requires formed { IsWellFormed graph.now }
    requires placed { HasPlaces graph.now places.now }
    requires order { IsInnerOrder graph.now order.now }
    ensures places { IfOk result (λ rows. map place_of rows ≡ variables_from 0 places.now) }
    ensures facts { IfOk result (λ rows. (row : UseRow) → IsIn rows row → IsUseRow graph.now row) }
{
    let marks = reachable(alloc, graph)?;
    let arcs = routes(alloc, graph, marks.as_slice())?;
    let full = with_last(alloc, order, graph.nodes.len() - 1)?;
    let plan = plan_of(alloc, graph, arcs.as_slice(), full.as_slice())?;
    let variables = variables(alloc, places)?;
    let mut rows = Vec::new(alloc);
    let mut rest = variables.as_slice();
    while !rest.is_empty() {
        let (group, later) = rest.split_at(rest.len().min(GROUP));
        add_group(alloc, &mut rows, graph, arcs.as_slice(), &plan, group)?;
        rest = later;
    }
    Ok(List::from_vec(rows))
}
