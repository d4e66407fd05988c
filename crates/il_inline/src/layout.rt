//! Where the lines of a procedure and the places that its calls bring stand in its expansion.
ghost use Rattle.std.specs.Prelude.{◌≡◌, ◌+◌, ◌<◌, ◌≤◌, length, map, sum_by, count_by, IfOk};
ghost use Rattle.il_core.specs.Run.{inout_from};
ghost use Rattle.il_called.specs.Called.{written_of};
ghost use Rattle.il_called.specs.Expansion.{variables_in, is_returned, call_width, width_of, brings};
ghost use Rattle.il_inline.specs.Held.{callee_held, callees_held, CallsBelow, AllCallBelow};
ghost use Rattle.il_inline.specs.Slots.{slot_behind, slots_from, end_from, slot_in, start_in};

use crate::inlined::Inlined;
use crate::variables::{inouts_in, returned_count, variables_in};
use il_called::{CalledLine, CalledProc};
use il_core::{List, NoMemory, Place};
use std::alloc::Global;

/// What stands before a line of a procedure with calls.
#[derive(Clone, Copy, Debug, PartialEq, Eq)]
pub struct Slot {
    /// How many lines of the expansion stand before it.
    pub start: usize,
    /// How many places: the variables, and what the calls before it bring.
    pub base: usize,
    /// How many calls.
    pub calls: usize,
}

/// The slots of a procedure's lines, and that of its end.
#[derive(Drop)]
pub struct Layout {
    /// One for each line.
    pub slots: List<Slot>,
    /// What stands before the end.
    pub end: Slot,
}

impl Layout {
    /// The slot of a line; past the last line that of the end.
    pub fn slot(&self, line: usize) -> Slot
        ensures { result ≡ slot_in self.now line }
    {
        match self.slots.get(line) {
            Some(slot) => *slot,
            None => self.end,
        }
    }

    /// The line of the expansion at which a line begins.
    pub fn start(&self, line: usize) -> usize
        ensures { result ≡ start_in self.now line }
    {
        self.slot(line).start
    }
}

/// How many lines a call becomes of a procedure with these places, whose expansion has so many lines.
fn call_width(alloc: Global, places: &[Place], lines: usize) -> Result<usize, NoMemory>
    requires { length (variables_in places.now) + length (inout_from 0 places.now) + lines + count_by (λ v. is_returned v.mode) (variables_in places.now) ≤ 1000 }
    ensures { IfOk result (λ n. n ≡ length (variables_in places.now) + length (inout_from 0 places.now) + lines + count_by (λ v. is_returned v.mode) (variables_in places.now)) }
{
    let variables = variables_in(alloc, places)?;
    let inouts = inouts_in(alloc, places)?;
    Ok(variables.len() + inouts.len() + lines + returned_count(variables.as_slice()))
}

/// What stands behind a call.
fn slot_behind_call(
    alloc: Global,
    before: Slot,
    written: &CalledProc,
    callee: &Inlined,
) -> Result<Slot, NoMemory>
    requires lines { before.start + call_width (callee_held written.now callee.now) ≤ 1000 }
    requires places { before.base + length callee.now.proc.places ≤ 64 }
    requires calls { before.calls < 1000 }
    ensures { IfOk result (λ s. s ≡ record { start = before.start + call_width (callee_held written.now callee.now); base = before.base + length callee.now.proc.places; calls = before.calls + 1 }) }
{
    let width = call_width(alloc, written.places.as_slice(), callee.proc.lines().len())?;
    Ok(Slot {
        start: before.start + width,
        base: before.base + callee.proc.places().len(),
        calls: before.calls + 1,
    })
}

/// What stands behind a line.
fn slot_behind(
    alloc: Global,
    written: &[CalledProc],
    inlined: &[Inlined],
    before: Slot,
    line: &CalledLine,
) -> Result<Slot, NoMemory>
    requires sizes { length inlined.now ≤ length written.now }
    requires below { CallsBelow (length inlined.now) (written_of line.now) }
    requires lines { before.start + width_of (callees_held written.now inlined.now) (written_of line.now) ≤ 1000 }
    requires places { before.base + brings (callees_held written.now inlined.now) (written_of line.now) ≤ 64 }
    requires calls { before.calls < 1000 }
    ensures { IfOk result (λ s. s ≡ slot_behind (callees_held written.now inlined.now) before (written_of line.now)) }
{
    match line {
        CalledLine::Own(_) => Ok(Slot {
            start: before.start + 1,
            ..before
        }),
        CalledLine::Call(callee, _) => {
            slot_behind_call(alloc, before, &written[*callee], &inlined[*callee])
        }
    }
}

/// The layout of a procedure with so many variables and these lines. Linear in the lines and in the places of the procedures
/// that they call.
pub fn layout_of(
    alloc: Global,
    written: &[CalledProc],
    inlined: &[Inlined],
    variables: usize,
    lines: &[CalledLine],
) -> Result<Layout, NoMemory>
    requires sizes { length inlined.now ≤ length written.now }
    requires below { AllCallBelow (length inlined.now) (map written_of lines.now) }
    requires lines { sum_by (width_of (callees_held written.now inlined.now)) (map written_of lines.now) ≤ 1000 }
    requires places { variables + sum_by (brings (callees_held written.now inlined.now)) (map written_of lines.now) ≤ 64 }
    requires calls { length lines.now ≤ 1000 }
    ensures slots { IfOk result (λ it. it.slots ≡ slots_from (callees_held written.now inlined.now) (record { start = 0; base = variables; calls = 0 }) (map written_of lines.now)) }
    ensures end { IfOk result (λ it. it.end ≡ end_from (callees_held written.now inlined.now) (record { start = 0; base = variables; calls = 0 }) (map written_of lines.now)) }
{
    let mut slots = List::new(alloc);
    let mut end = Slot {
        start: 0,
        base: variables,
        calls: 0,
    };
    for line in lines {
        slots.push(end)?;
        end = slot_behind(alloc, written, inlined, end, line)?;
    }
    Ok(Layout { slots, end })
}
