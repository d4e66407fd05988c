//! The written lines from which the lines of an expansion come, and the lines of each call.
ghost use Rattle.std.specs.Prelude.{◌≡◌, ◌++◌, ◌+◌, ◌<◌, ◌≤◌, length, map, sum_by, count_by, replicate, IfOk};
ghost use Rattle.il_core.specs.Run.{inout_from};
ghost use Rattle.il_called.specs.Called.{written_of};
ghost use Rattle.il_called.specs.Expansion.{each_from, origin_at, origins_of, repeated, variables_in, is_returned, call_width, width_of};
ghost use Rattle.il_inline.specs.Held.{callee_held, callees_held, CallsBelow, AllCallBelow};
ghost use Rattle.il_inline.specs.Slots.{spans_by};

use crate::inlined::Inlined;
use crate::layout::Layout;
use crate::variables::{inouts_in, returned_count, variables_in};
use il_called::{CallSpan, CalledLine, CalledProc, Origin};
use il_core::{List, NoMemory};
use std::alloc::Global;

/// An origin so many times.
fn repeated(alloc: Global, origin: Origin, times: usize) -> Result<Vec<Origin>, NoMemory>
    ensures { IfOk result (λ v. v.items ≡ replicate times origin) }
{
    Ok(vec![in alloc; origin; times]?)
}

/// Adds an origin so many times.
fn repeat(
    alloc: Global,
    origin: Origin,
    times: usize,
    out: &mut Vec<Origin>,
) -> Result<(), NoMemory>
    ensures { IfOk result (λ _. out.new.items ≡ out.old.items ++ repeated origin times) }
{
    let same = repeated(alloc, origin, times)?;
    out.extend_from_slice(same.as_slice())?;
    Ok(())
}

/// Adds the origins of the lines of a call that stands at `origin`: the callee's own lines keep theirs, all others come from
/// the call.
fn push_call_origins(
    alloc: Global,
    origin: Origin,
    written: &CalledProc,
    callee: &Inlined,
    out: &mut Vec<Origin>,
) -> Result<(), NoMemory>
    requires { call_width (callee_held written.now callee.now) ≤ 1000 }
    ensures { IfOk result (λ _. out.new.items ≡ out.old.items ++ (repeated origin (length (variables_in written.now.places) + length (inout_from 0 written.now.places)) ++ callee.now.origins ++ repeated origin (count_by (λ v. is_returned v.mode) (variables_in written.now.places)))) }
{
    let variables = variables_in(alloc, written.places.as_slice())?;
    let inouts = inouts_in(alloc, written.places.as_slice())?;
    repeat(alloc, origin, variables.len() + inouts.len(), out)?;
    out.extend_from_slice(callee.origins.as_slice())?;
    repeat(alloc, origin, returned_count(variables.as_slice()), out)
}

/// Adds the origins of the lines that a line becomes.
fn push_origins(
    alloc: Global,
    written: &[CalledProc],
    inlined: &[Inlined],
    at: usize,
    line: &CalledLine,
    out: &mut Vec<Origin>,
) -> Result<(), NoMemory>
    requires sizes { length inlined.now ≤ length written.now }
    requires below { CallsBelow (length inlined.now) (written_of line.now) }
    requires few { width_of (callees_held written.now inlined.now) (written_of line.now) ≤ 1000 }
    ensures { IfOk result (λ _. out.new.items ≡ out.old.items ++ origins_of (callees_held written.now inlined.now) (length inlined.now) at (written_of line.now)) }
{
    let origin = Origin {
        procedure: inlined.len(),
        line: at,
    };
    match line {
        CalledLine::Own(_) => {
            out.push(origin)?;
            Ok(())
        }
        CalledLine::Call(callee, _) => {
            push_call_origins(alloc, origin, &written[*callee], &inlined[*callee], out)
        }
    }
}

/// The origins of the lines of an expansion. Linear in them.
pub fn origins_of(
    alloc: Global,
    written: &[CalledProc],
    inlined: &[Inlined],
    lines: &[CalledLine],
) -> Result<List<Origin>, NoMemory>
    requires sizes { length inlined.now ≤ length written.now }
    requires below { AllCallBelow (length inlined.now) (map written_of lines.now) }
    requires few { sum_by (width_of (callees_held written.now inlined.now)) (map written_of lines.now) ≤ 1000 }
    ensures { IfOk result (λ made. made ≡ each_from (origins_of (callees_held written.now inlined.now) (length inlined.now)) 0 (map written_of lines.now)) }
{
    let mut made = Vec::new(alloc);
    for (at, line) in lines.iter().enumerate() {
        push_origins(alloc, written, inlined, at, line, &mut made)?;
    }
    Ok(List::from_vec(made))
}

/// Adds the lines of a call, where the line is one.
fn push_span(
    layout: &Layout,
    at: usize,
    line: &CalledLine,
    out: &mut List<CallSpan>,
) -> Result<(), NoMemory>
    requires { at < 1000 }
    ensures { IfOk result (λ _. out.new ≡ out.old ++ spans_by layout.now at (written_of line.now)) }
{
    match line {
        CalledLine::Own(_) => Ok(()),
        CalledLine::Call(callee, _) => out.push(CallSpan {
            first: layout.start(at),
            last: layout.start(at + 1).saturating_sub(1),
            callee: *callee,
        }),
    }
}

/// The lines of each call of a procedure. Linear in its lines.
pub fn spans_by(
    alloc: Global,
    layout: &Layout,
    lines: &[CalledLine],
) -> Result<List<CallSpan>, NoMemory>
    requires { length lines.now ≤ 1000 }
    ensures { IfOk result (λ made. made ≡ each_from (spans_by layout.now) 0 (map written_of lines.now)) }
{
    let mut made = List::new(alloc);
    for (at, line) in lines.iter().enumerate() {
        push_span(layout, at, line, &mut made)?;
    }
    Ok(made)
}
