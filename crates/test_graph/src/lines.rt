//! The graph of a procedure's lines.
ghost use Rattle.std.specs.Prelude.{◌≡◌, ℕ, ◌<◌, ◌≤◌, ◌+◌, List, length, slice_get, slice_set, Some, None, IfOk};
ghost use Rattle.il_core.specs.Expression.{expression_of};
ghost use Rattle.il_core.specs.Procedure.{instruction_of};
ghost use Rattle.il_core.specs.Bounds.{IsNarrow};
ghost use Rattle.il_core.specs.Checked.{FitsAt, procedure_of};
ghost use Rattle.test_graph.specs.Decision.{Decision, done, halts, decided_on, decision_of};
ghost use Rattle.test_graph.specs.Lowered.{IsLowered};
ghost use Rattle.test_graph.specs.declared.graph.TestNode.TheVariants as node;
ghost use Rattle.test_graph.specs.Standing.{Grows, Fall, Stands, AreOwn, IsInside, begun, numbers};

use crate::assigning::lower_assignment;
use crate::lowering::{lower_condition, put_stop};
use crate::{TestGraph, TestNode};
use il_core::{CheckedProc, Expr, Halt, Line, List, Next, NoMemory, Place};
use std::alloc::Global;

/// The node of a line, or a new one of a halt. The first `count` nodes are those of the lines.
#[tactic(auto, using(crate::proofs::StandingLines::assigning))]
fn put_next(nodes: &mut Vec<TestNode>, count: usize, next: Next) -> Result<usize, NoMemory>
    requires falls { Fall nodes.old.items }
    requires count { count ≤ length nodes.old.items }
    requires inside { IsInside count next }
    ensures within { IfOk result (λ id. id < length nodes.new.items) }
    ensures grows { Grows nodes.old.items nodes.new.items }
    ensures falls { Fall nodes.new.items }
    ensures stands { IfOk result (λ id. (entries : _) → AreOwn count entries → Stands entries nodes.new.items id (done None next)) }
{
    match next {
        Next::At(line) => Ok(line),
        Next::Halted(halt) => put_stop(nodes, halt),
    }
}

/// Adds the decisions of a condition at line `pc`, and where it leads when it is true and when it is not.
#[tactic(auto, using(crate::proofs::StandingLines::assigning))]
fn lower_between(
    alloc: Global,
    nodes: &mut Vec<TestNode>,
    places: &[Place],
    count: usize,
    pc: usize,
    expr: &Expr,
    on: Next,
    off: Next,
) -> Result<usize, NoMemory>
    requires falls { Fall nodes.old.items }
    requires count { count ≤ length nodes.old.items }
    requires narrow { IsNarrow places.now (expression_of expr.now) }
    requires on { IsInside count on }
    requires off { IsInside count off }
    ensures within { IfOk result (λ id. id < length nodes.new.items) }
    ensures grows { Grows nodes.old.items nodes.new.items }
    ensures falls { Fall nodes.new.items }
    ensures stands { IfOk result (λ id. (entries : _) → AreOwn count entries → Stands entries nodes.new.items id (decided_on places.now (expression_of expr.now) (done None on) (done None off) (halts (Halt.DivZero pc)))) }
{
    let met = put_next(nodes, count, on)?;
    let unmet = put_next(nodes, count, off)?;
    let fault = put_stop(nodes, Halt::DivZero(pc))?;
    lower_condition(alloc, nodes, places, expr, met, unmet, fault)
}

/// Adds the decisions of a line, and tells the first node of them.
#[tactic(auto, using(crate::proofs::StandingLines::assigning))]
fn lower_line(
    alloc: Global,
    nodes: &mut Vec<TestNode>,
    places: &[Place],
    count: usize,
    pc: usize,
    line: &Line,
) -> Result<usize, NoMemory>
    requires falls { Fall nodes.old.items }
    requires count { count ≤ length nodes.old.items }
    requires pc { pc < count }
    requires some { 2 ≤ count }
    requires fits { FitsAt places.now count pc (instruction_of line.now) }
    ensures within { IfOk result (λ id. id < length nodes.new.items) }
    ensures grows { Grows nodes.old.items nodes.new.items }
    ensures falls { Fall nodes.new.items }
    ensures stands { IfOk result (λ id. (entries : _) → AreOwn count entries → Stands entries nodes.new.items id (decision_of places.now pc (instruction_of line.now))) }
{
    match line {
        Line::Pre(e) => {
            let outside = Next::Halted(Halt::Outside);
            lower_between(
                alloc,
                nodes,
                places,
                count,
                pc,
                e,
                Next::At(pc + 1),
                outside,
            )
        }
        Line::Assign(index, e) => lower_assignment(alloc, nodes, places, pc, *index, e),
        Line::If(e, target) => {
            let behind = Next::At(*target);
            lower_between(alloc, nodes, places, count, pc, e, Next::At(pc + 1), behind)
        }
        Line::ExitWhen(e, target) => {
            let behind = Next::At(*target);
            lower_between(alloc, nodes, places, count, pc, e, behind, Next::At(pc + 1))
        }
        Line::Assert(e) => {
            let failed = Next::Halted(Halt::FailedAssert(pc));
            lower_between(alloc, nodes, places, count, pc, e, Next::At(pc + 1), failed)
        }
        Line::EndProc(e) => {
            let end = Next::Halted(Halt::End);
            let failed = Next::Halted(Halt::FailedPost);
            lower_between(alloc, nodes, places, count, pc, e, end, failed)
        }
        Line::Else(target)
        | Line::EndLoop(target)
        | Line::Exit(target)
        | Line::Goto(target)
        | Line::Return(target) => Ok(*target),
        Line::EndIf | Line::Loop | Line::Label | Line::Skip => Ok(pc + 1),
    }
}

/// The nodes of the first `count` lines, of which none is lowered yet.
fn line_nodes(alloc: Global, count: usize) -> Result<Vec<TestNode>, NoMemory>
    ensures { IfOk result (λ nodes. nodes.items ≡ begun count) }
{
    let mut nodes = Vec::with_capacity(alloc, count)?;
    for pc in 0..count {
        nodes.push(TestNode::AtLine(pc, pc))?;
    }
    Ok(nodes)
}

/// The numbers of these nodes.
fn line_entries(alloc: Global, count: usize) -> Result<Vec<usize>, NoMemory>
    ensures { IfOk result (λ entries. entries.items ≡ numbers count) }
{
    let mut entries = Vec::with_capacity(alloc, count)?;
    for pc in 0..count {
        entries.push(pc)?;
    }
    Ok(entries)
}

/// Gives the node of a line the first node of the line's decisions.
fn set_first(nodes: &mut Vec<TestNode>, pc: usize, first: usize)
    requires { pc < length nodes.old.items }
    ensures { nodes.new.items ≡ slice_set nodes.old.items pc (node.AtLine pc first) }
{
    nodes[pc] = TestNode::AtLine(pc, first);
}

/// The line of this number.
pub(crate) fn line_at(lines: &[Line], pc: usize) -> &Line
    requires { pc < length lines.now }
    ensures { slice_get lines.now pc ≡ Some result.now }
{
    &lines[pc]
}

/// The graph of a checked procedure's lines: behind the node of each line stand exactly the line's decisions, each a
/// test whose true side comes first, then its assignment, where it has one, and then the node of the next line or a
/// halt. From each line and each state in range they give the step of the line machine.
///
/// Tests and assignments name nodes with lower numbers, so a walk over them ends at a line or a halt. Each part of a
/// condition adds its nodes once, however many ways lead through it, so time and nodes are linear in the length of the
/// lines, but for the terms of divisors and of values with a range test, which stand in their tests too. There may be
/// nodes that no other names.
pub fn lower(alloc: Global, proc: &CheckedProc) -> Result<TestGraph, NoMemory>
    ensures { IfOk result (λ g. IsLowered (procedure_of proc.now) g) }
{
    let places = proc.places().as_slice();
    let lines = proc.lines().as_slice();
    let count = lines.len();
    let mut nodes = line_nodes(alloc, count)?;
    for pc in 0..count {
        let line = line_at(lines, pc);
        let first = lower_line(alloc, &mut nodes, places, count, pc, line)?;
        set_first(&mut nodes, pc, first);
    }
    let entries = line_entries(alloc, count)?;
    Ok(TestGraph {
        nodes: List::from_vec(nodes),
        entries: List::from_vec(entries),
    })
}
