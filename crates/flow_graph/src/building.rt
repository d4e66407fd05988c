//! The graph of a checked procedure.
ghost use Rattle.std.specs.Prelude.{◌≡◌, ℕ, ◌+◌, ◌≤◌, ◌<◌, ◌++◌, length, map, IfOk, OnOk};
ghost use Rattle.il_core.specs.Procedure.{instruction_of};
ghost use Rattle.il_core.specs.LineGraph.{heads_of};
ghost use Rattle.il_core.specs.Checked.{procedure_of};
ghost use Rattle.flow_graph.specs.Graph.{kind_of, reads_of, written_by, node_of, arc_to, arcs_from, graph_of, returned_from, IsWellFormed, HasPlaces, ReadsExactly};
ghost use Rattle.flow_graph.specs.Heads.{heads_in};

use crate::graph::{Arc, FlowGraph, Node, NodeKind};
use crate::masks::{read_mask, returned_mask};
use il_core::{CheckedProc, Line, List, NoMemory};
use std::alloc::Global;

/// The lines to which a line may lead, the true one of a test first.
enum Heads {
    Nowhere,
    One(usize),
    Two(usize, usize),
}

/// What a line is.
fn kind_of(line: &Line) -> NodeKind
    ensures { result ≡ kind_of (instruction_of line.now) }
{
    match line {
        Line::Assign(_, _) => NodeKind::Assign,
        Line::If(_, _) | Line::ExitWhen(_, _) => NodeKind::Test,
        Line::Assert(_) => NodeKind::Assertion,
        Line::EndIf | Line::Loop | Line::Label | Line::Skip => NodeKind::Plain,
        Line::EndProc(_) => NodeKind::Last,
        Line::Pre(_)
        | Line::Else(_)
        | Line::EndLoop(_)
        | Line::Exit(_)
        | Line::Goto(_)
        | Line::Return(_) => NodeKind::Other,
    }
}

/// The mask of the places that an assignment or a test reads.
fn reads_of(line: &Line) -> u64
    ensures { result ≡ reads_of (instruction_of line.now) }
{
    match line {
        Line::Assign(_, expr) | Line::If(expr, _) | Line::ExitWhen(expr, _) => read_mask(expr),
        _ => 0,
    }
}

/// The place that an assignment writes.
fn written_by(line: &Line) -> Option<usize>
    ensures { result ≡ written_by (instruction_of line.now) }
{
    match line {
        Line::Assign(place, _) => Some(*place),
        _ => None,
    }
}

/// The node of a line; `returned` is what ENDPROC reads.
fn node_of(returned: u64, line: &Line) -> Node
    ensures { result ≡ node_of returned (instruction_of line.now) }
{
    let kind = kind_of(line);
    Node {
        kind,
        reads: reads_of(line),
        writes: written_by(line),
        last_reads: if matches!(kind, NodeKind::Last) {
            returned
        } else {
            0
        },
    }
}

/// The lines to which the line `at` may lead.
fn heads_of(at: usize, line: &Line) -> Heads
    requires { at < 1000 }
    ensures { heads_in result ≡ heads_of at (instruction_of line.now) }
{
    match line {
        Line::If(_, target) => Heads::Two(at + 1, *target),
        Line::ExitWhen(_, target) => Heads::Two(*target, at + 1),
        Line::Else(target)
        | Line::EndLoop(target)
        | Line::Exit(target)
        | Line::Goto(target)
        | Line::Return(target) => Heads::One(*target),
        Line::EndProc(_) => Heads::Nowhere,
        _ => Heads::One(at + 1),
    }
}

/// Adds the arcs of a line.
fn add_arcs(arcs: &mut List<Arc>, tail: usize, heads: Heads) -> Result<(), NoMemory>
    ensures { OnOk result (arcs.new ≡ arcs.old ++ map (arc_to tail) (heads_in heads)) }
{
    match heads {
        Heads::Nowhere => {}
        Heads::One(head) => arcs.push(Arc { tail, head })?,
        Heads::Two(first, second) => {
            arcs.push(Arc { tail, head: first })?;
            arcs.push(Arc { tail, head: second })?;
        }
    }
    Ok(())
}

/// The nodes of lines, in their order.
pub fn nodes_of(alloc: Global, returned: u64, lines: &[Line]) -> Result<Vec<Node>, NoMemory>
    ensures { IfOk result (λ v. v.items ≡ map (λ line. node_of returned (instruction_of line)) lines.now) }
{
    Ok(
        lines
            .iter()
            .map(|line| node_of(returned, line))
            .collect(alloc)?,
    )
}

/// The arcs of lines, in their order.
pub fn arcs_of(alloc: Global, lines: &[Line]) -> Result<List<Arc>, NoMemory>
    requires { length lines.now ≤ 1000 }
    ensures { IfOk result (λ arcs. arcs ≡ arcs_from 0 (map instruction_of lines.now)) }
{
    let mut arcs = List::new(alloc);
    for (tail, line) in lines.iter().enumerate() {
        add_arcs(&mut arcs, tail, heads_of(tail, line))?;
    }
    Ok(arcs)
}

/// The graph of a checked procedure: a node for each line, and the arcs in line order, the true arc of a test first. The
/// only error is `NoMemory`.
///
/// The graph is well formed, its nodes read and write places of the procedure alone, and each mask has the bits of
/// exactly the places that the line reads.
pub fn build(alloc: Global, proc: &CheckedProc) -> Result<FlowGraph, NoMemory>
    ensures graph { IfOk result (λ g. g ≡ graph_of (procedure_of proc.now)) }
    ensures formed { IfOk result IsWellFormed }
    ensures placed { IfOk result (λ g. HasPlaces g proc.now.places) }
    ensures reads { IfOk result (λ g. ReadsExactly (map instruction_of proc.now.lines) g.nodes) }
{
    let lines = proc.lines().as_slice();
    let returned = returned_mask(proc.places().as_slice());
    let nodes = nodes_of(alloc, returned, lines)?;
    let arcs = arcs_of(alloc, lines)?;
    Ok(FlowGraph {
        nodes: List::from_vec(nodes),
        arcs,
    })
}
