//! The arcs over which walks are summed up, and the plan by which they are.
ghost use Rattle.std.specs.Prelude.{◌≡◌, ◌<◌, ◌↔◌, ◌⊎◌, ℕ, length, map, IfOk, OnOk};
ghost use Rattle.il_core.specs.LineGraph.{IsIn};
ghost use Rattle.flow_graph.specs.Graph.{IsWellFormed};
ghost use Rattle.flow_graph.specs.Search.{IsMarked};
ghost use Rattle.flow_graph.specs.Reached.{IsReached};
ghost use Rattle.data_use.specs.Routes.{IsRoute};
ghost use Rattle.data_use.specs.Sums.{ends_along, IsFullOrder, IsPlanOf};

use flow_graph::{Arc, FlowGraph};
use il_core::NoMemory;
use regular_algebra::{Ends, Plan, plan};
use std::alloc::Global;

/// Adds the arcs whose tail is marked.
fn add_arcs(routes: &mut Vec<Arc>, arcs: &[Arc], marks: &[bool]) -> Result<(), NoMemory>
    requires { (a : Arc) → IsIn arcs.now a → a.tail < length marks.now }
    ensures { OnOk result ((a : Arc) → IsIn routes.new.items a ↔ (IsIn routes.old.items a ⊎ (IsIn arcs.now a × IsMarked marks.now a.tail))) }
{
    for arc in arcs {
        if marks[arc.tail] {
            routes.push(*arc)?;
        }
    }
    Ok(())
}

/// Adds an arc from each marked line to the node behind the lines.
fn add_exits(routes: &mut Vec<Arc>, marks: &[bool]) -> Result<(), NoMemory>
    ensures { OnOk result ((a : Arc) → IsIn routes.new.items a ↔ (IsIn routes.old.items a ⊎ ((a.head ≡ length marks.now) × IsMarked marks.now a.tail))) }
{
    for (line, mark) in marks.iter().enumerate() {
        if *mark {
            routes.push(Arc {
                tail: line,
                head: marks.len(),
            })?;
        }
    }
    Ok(())
}

/// The arcs of the marked lines, an arc from each of them to the node behind the lines, and one from the last line, where
/// it is marked, to the node behind that.
pub fn routes(alloc: Global, graph: &FlowGraph, marks: &[bool]) -> Result<Vec<Arc>, NoMemory>
    requires formed { IsWellFormed graph.now }
    requires size { length marks.now ≡ length graph.now.nodes }
    requires marks { (k : ℕ) → IsMarked marks.now k ↔ IsReached graph.now.arcs k }
    ensures { IfOk result (λ v. (a : Arc) → IsIn v.items a ↔ IsRoute graph.now a) }
{
    let count = graph.nodes.len();
    let mut routes = Vec::new(alloc);
    add_arcs(&mut routes, graph.arcs.as_slice(), marks)?;
    add_exits(&mut routes, marks)?;
    if marks[count - 1] {
        routes.push(Arc {
            tail: count - 1,
            head: count + 1,
        })?;
    }
    Ok(routes)
}

/// The ends of the arcs.
fn ends_along(alloc: Global, arcs: &[Arc]) -> Result<Vec<Ends>, NoMemory>
    ensures { IfOk result (λ ends. ends.items ≡ map ends_along arcs.now) }
{
    let mut ends = Vec::with_capacity(alloc, arcs.len())?;
    for arc in arcs {
        ends.push(Ends {
            tail: arc.tail,
            head: arc.head,
        })?;
    }
    Ok(ends)
}

/// The plan that sums up the walks along the routes to any line, and those to the last line. It serves each group of
/// variables.
pub fn plan_of(
    alloc: Global,
    graph: &FlowGraph,
    routes: &[Arc],
    order: &[usize],
) -> Result<Plan, NoMemory>
    requires formed { IsWellFormed graph.now }
    requires routes { (a : Arc) → IsIn routes.now a ↔ IsRoute graph.now a }
    requires order { IsFullOrder graph.now order.now }
    ensures { IfOk result (IsPlanOf (length graph.now.nodes) routes.now) }
{
    let count = graph.nodes.len();
    let ends = ends_along(alloc, routes)?;
    let targets = [count, count + 1];
    plan(alloc, count + 2, ends.as_slice(), order, 0, &targets)
}
