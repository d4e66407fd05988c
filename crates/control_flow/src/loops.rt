//! Loops: their members, and the assertions with which they begin.
ghost use Rattle.std.specs.Prelude.{◌≡◌, ℕ, ◌+◌, ◌<◌, ◌≤◌, ◌↔◌, length, IfOk, Some, IsTrue};
ghost use Rattle.il_core.specs.LineGraph.{IsIn};
ghost use Rattle.flow_graph.specs.Graph.{IsWellFormed};
ghost use Rattle.flow_graph.specs.Search.{IsMarked};
ghost use Rattle.flow_graph.specs.Reached.{IsReached, Lists};
ghost use Rattle.control_flow.specs.Loop.{kind_at, IsAssertion, IsBackArc, IsLeading, IsMember};
ghost use Rattle.control_flow.specs.Control.{IsLoop};
ghost use Rattle.control_flow.specs.Forward.{AreTails, IsInRun, MarksUnreachable};

use crate::control::LoopInfo;
use crate::marks::{marked_lines, without};
use crate::rows::coming_round;
use flow_graph::{FlowGraph, Node, NodeKind};
use il_core::{List, NoMemory};
use std::alloc::Global;

/// What the line `at` is.
fn kind_at(nodes: &[Node], at: usize) -> NodeKind
    requires { at < length nodes.now }
    ensures { kind_at nodes.now at ≡ Some result }
{
    nodes[at].kind
}

/// Whether the line `at` is an assertion.
fn is_assertion(nodes: &[Node], at: usize) -> bool
    requires { at < length nodes.now }
    ensures { IsTrue result ↔ IsAssertion nodes.now at }
{
    matches!(kind_at(nodes, at), NodeKind::Assertion)
}

/// The run of assertions that begins at the line `start`, ascending.
fn assertions_from(alloc: Global, nodes: &[Node], start: usize) -> Result<List<usize>, NoMemory>
    requires { start ≤ length nodes.now }
    ensures { IfOk result (Lists (IsInRun nodes.now start)) }
{
    let mut lines = List::new(alloc);
    for at in start..nodes.len() {
        if !is_assertion(nodes, at) {
            return Ok(lines);
        }
        lines.push(at)?;
    }
    Ok(lines)
}

/// The assertions with which the loop of `head` begins, ascending.
fn leading_lines(alloc: Global, nodes: &[Node], head: usize) -> Result<List<usize>, NoMemory>
    requires { head < length nodes.now }
    ensures { IfOk result (Lists (IsLeading nodes.now head)) }
{
    match kind_at(nodes, head) {
        NodeKind::Assertion => assertions_from(alloc, nodes, head),
        NodeKind::Plain => assertions_from(alloc, nodes, head + 1),
        _ => Ok(List::new(alloc)),
    }
}

/// The members of the loop of `head`, ascending, of which `back` has the tails of the arcs back to it.
fn members_of(
    alloc: Global,
    graph: &FlowGraph,
    tails: &[List<usize>],
    unreached: &[bool],
    head: usize,
    back: &[usize],
) -> Result<List<usize>, NoMemory>
    requires formed { IsWellFormed graph.now }
    requires tails { AreTails graph.now tails.now }
    requires unreached { MarksUnreachable graph.now unreached.now }
    requires head { (head < length graph.now.nodes) × IsReached graph.now.arcs head }
    requires back { (u : ℕ) → IsIn back.now u ↔ IsBackArc graph.now.arcs u head }
    ensures { IfOk result (Lists (IsMember graph.now.arcs head)) }
{
    let found = coming_round(alloc, graph, tails, head, back)?;
    let mut members = without(alloc, found.as_slice(), unreached)?;
    members[head] = true;
    marked_lines(alloc, members.as_slice())
}

/// The loop of `head`, of which `back` has the tails of the arcs back to it.
pub fn loop_of(
    alloc: Global,
    graph: &FlowGraph,
    tails: &[List<usize>],
    unreached: &[bool],
    head: usize,
    back: &[usize],
) -> Result<LoopInfo, NoMemory>
    requires formed { IsWellFormed graph.now }
    requires tails { AreTails graph.now tails.now }
    requires unreached { MarksUnreachable graph.now unreached.now }
    requires head { (head < length graph.now.nodes) × IsReached graph.now.arcs head }
    requires back { (u : ℕ) → IsIn back.now u ↔ IsBackArc graph.now.arcs u head }
    ensures head { IfOk result (λ l. l.head ≡ head) }
    ensures exact { IfOk result (IsLoop graph.now) }
{
    Ok(LoopInfo {
        head,
        members: members_of(alloc, graph, tails, unreached, head, back)?,
        leading: leading_lines(alloc, graph.nodes.as_slice(), head)?,
    })
}
