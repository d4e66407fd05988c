//! The lines of an expansion.
ghost use Rattle.std.specs.Prelude.{◌≡◌, ◌++◌, ◌+◌, ◌-◌, ◌≤◌, length, map, IfOk};
ghost use Rattle.il_core.specs.Procedure.{instruction_of};
ghost use Rattle.il_core.specs.Run.{inout_from};
ghost use Rattle.il_called.specs.Called.{passed_of, written_of};
ghost use Rattle.il_called.specs.Expansion.{inlined, call_lines, call_width, entry_width, each_from, variables_in};
ghost use Rattle.il_inline.specs.Fits.{LineFits, AllFit};
ghost use Rattle.il_inline.specs.Held.{place_under, callee_held, callees_held};
ghost use Rattle.il_inline.specs.Slots.{lines_by};
ghost use Rattle.il_inline.specs.Within.{AreWithin};

use crate::entering::{copy_old, enter};
use crate::inlined::Inlined;
use crate::layout::{Layout, Slot};
use crate::leaving::leave;
use crate::lines::{inlined, moved};
use crate::renumbering::Renumbering;
use crate::variables::{inouts_in, variables_in};
use il_called::{Argument, CalledLine, CalledProc};
use il_core::{Line, List, NoMemory, Place};
use std::alloc::Global;

/// Adds a callee's own lines, which begin at line `middle`.
fn push_body(
    alloc: Global,
    under: Renumbering,
    middle: usize,
    lines: &[Line],
    out: &mut List<Line>,
) -> Result<(), NoMemory>
    requires { AreWithin (map (inlined (place_under under) (λ q. middle + q)) (map instruction_of lines.now)) }
    ensures { IfOk result (λ _. map instruction_of out.new ≡ map instruction_of out.old ++ map (inlined (place_under under) (λ q. middle + q)) (map instruction_of lines.now)) }
{
    for line in lines {
        out.push(inlined(alloc, under, middle, line)?)?;
    }
    Ok(())
}

/// What a callee's entry is made of.
#[derive(Drop)]
struct Entry {
    /// Its variables.
    variables: Vec<Place>,
    /// The numbers of its INOUT variables.
    inouts: Vec<usize>,
    /// The place of its first OLD copy.
    first: usize,
    /// The line at which its own lines begin.
    middle: usize,
}

/// The entry of a callee, before which stands what `slot` says.
fn entry_of(
    alloc: Global,
    slot: Slot,
    written: &CalledProc,
    callee: &Inlined,
) -> Result<Entry, NoMemory>
    requires start { slot.start + call_width (callee_held written.now callee.now) ≤ 1000 }
    requires base { slot.base + length callee.now.proc.places ≤ 64 }
    ensures variables { IfOk result (λ e. e.variables.items ≡ variables_in written.now.places) }
    ensures inouts { IfOk result (λ e. e.inouts.items ≡ inout_from 0 written.now.places) }
    ensures first { IfOk result (λ e. e.first ≡ slot.base + (length callee.now.proc.places - length (inout_from 0 written.now.places))) }
    ensures middle { IfOk result (λ e. e.middle ≡ slot.start + entry_width (callee_held written.now callee.now)) }
{
    let variables = variables_in(alloc, written.places.as_slice())?;
    let inouts = inouts_in(alloc, written.places.as_slice())?;
    let first = slot.base + callee.proc.places().len().saturating_sub(inouts.len());
    let middle = slot.start + (variables.len() + inouts.len());
    Ok(Entry {
        variables,
        inouts,
        first,
        middle,
    })
}

/// Adds the lines of a call, before which stands what `slot` says.
fn push_call(
    alloc: Global,
    places: &[Place],
    under: Renumbering,
    slot: Slot,
    written: &CalledProc,
    callee: &Inlined,
    arguments: &[Argument],
    out: &mut List<Line>,
) -> Result<(), NoMemory>
    requires within { AreWithin (call_lines places.now (place_under under) slot.base slot.start (callee_held written.now callee.now) (map passed_of arguments.now)) }
    requires start { slot.start + call_width (callee_held written.now callee.now) ≤ 1000 }
    requires base { slot.base + length callee.now.proc.places ≤ 64 }
    ensures { IfOk result (λ _. map instruction_of out.new ≡ map instruction_of out.old ++ call_lines places.now (place_under under) slot.base slot.start (callee_held written.now callee.now) (map passed_of arguments.now)) }
{
    let entry = entry_of(alloc, slot, written, callee)?;
    let variables = entry.variables.as_slice();
    let inouts = entry.inouts.as_slice();
    let up = Renumbering {
        kept: 0,
        shift: slot.base,
    };
    enter(alloc, places, under, slot.base, variables, arguments, out)?;
    copy_old(
        written.places.as_slice(),
        slot.base,
        entry.first,
        inouts,
        out,
    )?;
    push_body(alloc, up, entry.middle, callee.proc.lines().as_slice(), out)?;
    leave(under, slot.base, variables, arguments, out)?;
    Ok(())
}

/// Adds the lines that a line becomes.
fn push_line(
    alloc: Global,
    written: &[CalledProc],
    inlined: &[Inlined],
    places: &[Place],
    under: Renumbering,
    layout: &Layout,
    at: usize,
    line: &CalledLine,
    out: &mut List<Line>,
) -> Result<(), NoMemory>
    requires sizes { length inlined.now ≤ length written.now }
    requires fits { LineFits (callees_held written.now inlined.now) (length inlined.now) layout.now at (written_of line.now) }
    requires within { AreWithin (lines_by (callees_held written.now inlined.now) places.now under layout.now at (written_of line.now)) }
    ensures { IfOk result (λ _. map instruction_of out.new ≡ map instruction_of out.old ++ lines_by (callees_held written.now inlined.now) places.now under layout.now at (written_of line.now)) }
{
    match line {
        CalledLine::Own(own) => out.push(moved(alloc, under, layout, own)?),
        CalledLine::Call(callee, arguments) => push_call(
            alloc,
            places,
            under,
            layout.slot(at),
            &written[*callee],
            &inlined[*callee],
            arguments.as_slice(),
            out,
        ),
    }
}

/// The lines of an expansion. Linear in them.
pub fn lines_by(
    alloc: Global,
    written: &[CalledProc],
    inlined: &[Inlined],
    places: &[Place],
    under: Renumbering,
    layout: &Layout,
    lines: &[CalledLine],
) -> Result<List<Line>, NoMemory>
    requires sizes { length inlined.now ≤ length written.now }
    requires fit { AllFit (callees_held written.now inlined.now) (length inlined.now) layout.now 0 (map written_of lines.now) }
    requires within { AreWithin (each_from (lines_by (callees_held written.now inlined.now) places.now under layout.now) 0 (map written_of lines.now)) }
    ensures { IfOk result (λ made. map instruction_of made ≡ each_from (lines_by (callees_held written.now inlined.now) places.now under layout.now) 0 (map written_of lines.now)) }
{
    let mut made = List::new(alloc);
    for (at, line) in lines.iter().enumerate() {
        push_line(
            alloc, written, inlined, places, under, layout, at, line, &mut made,
        )?;
    }
    Ok(made)
}
