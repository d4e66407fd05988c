//! The places of an expansion.
ghost use Rattle.std.specs.Prelude.{◌≡◌, ℕ, ◌++◌, ◌+◌, ◌≤◌, length, map, IfOk};
ghost use Rattle.il_called.specs.Called.{written_of};
ghost use Rattle.il_called.specs.Expansion.{each_from, brought};
ghost use Rattle.il_inline.specs.Fits.{AreShort};
ghost use Rattle.il_inline.specs.Held.{CallsBelow, AllCallBelow};
ghost use Rattle.il_inline.specs.Slots.{slot_in, places_by};

use crate::inlined::Inlined;
use crate::layout::Layout;
use crate::naming::brought;
use il_called::CalledLine;
use il_core::{NoMemory, Place};
use std::alloc::Global;

/// Adds the places that the call of this number brings for those of its callee.
fn push_brought(
    alloc: Global,
    call: usize,
    places: &[Place],
    out: &mut Vec<Place>,
) -> Result<(), NoMemory>
    requires { AreShort (map (brought call) places.now) }
    ensures { IfOk result (λ _. out.new.items ≡ out.old.items ++ map (brought call) places.now) }
{
    for place in places {
        out.push(brought(alloc, call, place)?)?;
    }
    Ok(())
}

/// Adds the places that a line brings.
fn push_places(
    alloc: Global,
    inlined: &[Inlined],
    layout: &Layout,
    at: usize,
    line: &CalledLine,
    out: &mut Vec<Place>,
) -> Result<(), NoMemory>
    requires below { CallsBelow (length inlined.now) (written_of line.now) }
    requires calls { (slot_in layout.now at).calls ≤ 1000 }
    requires short { AreShort (places_by inlined.now layout.now at (written_of line.now)) }
    ensures { IfOk result (λ _. out.new.items ≡ out.old.items ++ places_by inlined.now layout.now at (written_of line.now)) }
{
    match line {
        CalledLine::Own(_) => Ok(()),
        CalledLine::Call(callee, _) => {
            let places = inlined[*callee].proc.places().as_slice();
            push_brought(alloc, layout.slot(at).calls + 1, places, out)
        }
    }
}

/// Adds the places that the calls of a procedure bring. Linear in its lines and in these places.
pub fn push_all_places(
    alloc: Global,
    inlined: &[Inlined],
    layout: &Layout,
    lines: &[CalledLine],
    out: &mut Vec<Place>,
) -> Result<(), NoMemory>
    requires below { AllCallBelow (length inlined.now) (map written_of lines.now) }
    requires calls { (n : ℕ) → (slot_in layout.now n).calls ≤ 1000 }
    requires short { AreShort (each_from (places_by inlined.now layout.now) 0 (map written_of lines.now)) }
    ensures { IfOk result (λ _. out.new.items ≡ out.old.items ++ each_from (places_by inlined.now layout.now) 0 (map written_of lines.now)) }
{
    for (at, line) in lines.iter().enumerate() {
        push_places(alloc, inlined, layout, at, line, out)?;
    }
    Ok(())
}
