//! The derivation of a graph.
ghost use Rattle.std.specs.Prelude.{◌≡◌, ℕ, ◌+◌, ◌++◌, drop, filter, length, nat_eq, not, IfOk, OnOk};
ghost use Rattle.std.specs.List.{flat_map};
ghost use Rattle.flow_graph.specs.Graph.{IsWellFormed};
ghost use Rattle.control_flow.specs.Control.{IsControlOf};
ghost use Rattle.interval_reduce.specs.Derivation.{IsDerivationOf, Reduces, taken, order_of};

use crate::arcs::first_arcs;
use crate::interval::{Derivation, Interval};
use crate::levels::levels_from;
use control_flow::{Control, Shape};
use flow_graph::FlowGraph;
use il_core::{List, NoMemory};
use std::alloc::Global;

/// The members of an interval behind its head.
fn taken(interval: &Interval) -> &[usize]
    ensures { result.now ≡ taken interval.now }
{
    match interval.members.as_slice() {
        [_, taken @ ..] => taken,
        none => none,
    }
}

/// Adds what an interval takes, without line `last`.
fn add_interval(order: &mut List<usize>, last: usize, interval: &Interval) -> Result<(), NoMemory>
    ensures { OnOk result (order.new ≡ order.old ++ filter (λ v. not (nat_eq (v + 1) (last + 1))) (taken interval.now)) }
{
    for node in taken(interval) {
        if *node != last {
            order.push(*node)?;
        }
    }
    Ok(())
}

/// Adds what the intervals of a level take, without line `last`.
fn add_level(order: &mut List<usize>, last: usize, level: &[Interval]) -> Result<(), NoMemory>
    ensures { OnOk result (order.new ≡ order.old ++ filter (λ v. not (nat_eq (v + 1) (last + 1))) (flat_map taken level.now)) }
{
    for interval in level {
        add_interval(order, last, interval)?;
    }
    Ok(())
}

/// What intervals take, level by level, without line `last`.
fn order_of(alloc: Global, last: usize, levels: &[List<Interval>]) -> Result<List<usize>, NoMemory>
    ensures { IfOk result (λ order. order ≡ order_of (last + 1) levels.now) }
{
    let mut order = List::new(alloc);
    for level in levels {
        add_level(&mut order, last, level.as_slice())?;
    }
    Ok(order)
}

/// The levels of a graph by intervals, and the order in which its lines are taken into them; `control` is the control
/// structure of the graph. Level 0 is the graph of the reachable lines, and its first interval has the head 0. An
/// interval takes, again and again, the least node in no interval whose predecessors are all inside it, and the next
/// head is the least node in no interval with a predecessor in one. The levels end with the first that has one interval,
/// or whose intervals are all single nodes: with one interval exactly where no cycle can be entered first at two lines.
///
/// For a reducible graph the order has each reachable line but line 0 and the last exactly once; for any other graph it
/// is empty. The only error is `NoMemory`.
///
/// Intervals are those of Allen and Cocke, A program data flow analysis procedure, 1976; that the nodes are taken in
/// their order makes the answer unique. A level takes time linear in the lines and arcs, and for each node that it takes
/// time linear in the nodes outside to which arcs lead from intervals: quadratic at most.
pub fn derive(alloc: Global, graph: &FlowGraph, control: &Control) -> Result<Derivation, NoMemory>
    requires formed { IsWellFormed graph.now }
    requires control { IsControlOf graph.now control.now }
    ensures derived { IfOk result (λ d. IsDerivationOf graph.now control.now.shape d) }
    ensures reduces { IfOk result (λ d. Reduces graph.now control.now.shape d) }
{
    let count = graph.nodes.len();
    let levels = levels_from(alloc, count, first_arcs(alloc, graph)?)?;
    let order = match control.shape {
        Shape::Reducible => order_of(alloc, count - 1, levels.as_slice())?,
        Shape::TwoEntries(_) => List::new(alloc),
    };
    Ok(Derivation { levels, order })
}
