//! Lines that stand elsewhere, over places that have other numbers.
ghost use Rattle.std.specs.Prelude.{◌≡◌, ◌+◌, IfOk};
ghost use Rattle.il_core.specs.Procedure.{instruction_of};
ghost use Rattle.il_called.specs.Expansion.{moved, inlined};
ghost use Rattle.il_inline.specs.Slots.{start_in};
ghost use Rattle.il_inline.specs.Within.{IsWithin};
ghost use Rattle.il_inline.specs.Held.{place_under};

use crate::layout::Layout;
use crate::renumbering::{Renumbering, renumbered};
use il_core::{Line, NoMemory};
use std::alloc::Global;

/// A line of the caller itself, each target of which is replaced by the line at which it begins.
pub fn moved(
    alloc: Global,
    under: Renumbering,
    layout: &Layout,
    line: &Line,
) -> Result<Line, NoMemory>
    requires { IsWithin 64 1000 (moved (place_under under) (start_in layout.now) (instruction_of line.now)) }
    ensures { IfOk result (λ made. instruction_of made ≡ moved (place_under under) (start_in layout.now) (instruction_of line.now)) }
{
    match line {
        Line::Pre(e) => Ok(Line::Pre(renumbered(alloc, under, e)?)),
        Line::Assign(place, e) => Ok(Line::Assign(
            under.place(*place),
            renumbered(alloc, under, e)?,
        )),
        Line::If(e, q) => Ok(Line::If(renumbered(alloc, under, e)?, layout.start(*q))),
        Line::Else(q) => Ok(Line::Else(layout.start(*q))),
        Line::EndIf => Ok(Line::EndIf),
        Line::Loop => Ok(Line::Loop),
        Line::EndLoop(q) => Ok(Line::EndLoop(layout.start(*q))),
        Line::Exit(q) => Ok(Line::Exit(layout.start(*q))),
        Line::ExitWhen(e, q) => Ok(Line::ExitWhen(renumbered(alloc, under, e)?, layout.start(*q))),
        Line::Label => Ok(Line::Label),
        Line::Goto(q) => Ok(Line::Goto(layout.start(*q))),
        Line::Skip => Ok(Line::Skip),
        Line::Assert(e) => Ok(Line::Assert(renumbered(alloc, under, e)?)),
        Line::Return(q) => Ok(Line::Return(layout.start(*q))),
        Line::EndProc(e) => Ok(Line::EndProc(renumbered(alloc, under, e)?)),
    }
}

/// A line of a callee whose lines begin at line `middle`: its precondition and its postcondition are asserted, and RETURN
/// goes to the latter.
pub fn inlined(
    alloc: Global,
    under: Renumbering,
    middle: usize,
    line: &Line,
) -> Result<Line, NoMemory>
    requires { IsWithin 64 1000 (inlined (place_under under) (λ q. middle + q) (instruction_of line.now)) }
    ensures { IfOk result (λ made. instruction_of made ≡ inlined (place_under under) (λ q. middle + q) (instruction_of line.now)) }
{
    match line {
        Line::Pre(e) => Ok(Line::Assert(renumbered(alloc, under, e)?)),
        Line::Assign(place, e) => Ok(Line::Assign(
            under.place(*place),
            renumbered(alloc, under, e)?,
        )),
        Line::If(e, q) => Ok(Line::If(renumbered(alloc, under, e)?, middle + *q)),
        Line::Else(q) => Ok(Line::Else(middle + *q)),
        Line::EndIf => Ok(Line::EndIf),
        Line::Loop => Ok(Line::Loop),
        Line::EndLoop(q) => Ok(Line::EndLoop(middle + *q)),
        Line::Exit(q) => Ok(Line::Exit(middle + *q)),
        Line::ExitWhen(e, q) => Ok(Line::ExitWhen(renumbered(alloc, under, e)?, middle + *q)),
        Line::Label => Ok(Line::Label),
        Line::Goto(q) | Line::Return(q) => Ok(Line::Goto(middle + *q)),
        Line::Skip => Ok(Line::Skip),
        Line::Assert(e) | Line::EndProc(e) => Ok(Line::Assert(renumbered(alloc, under, e)?)),
    }
}
