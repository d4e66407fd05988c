//! The names of the places that a call brings.
ghost use Rattle.std.specs.Prelude.{◌≡◌, ◌≤◌, length, IfOk, if◌then◌else◌};
ghost use Rattle.il_core.specs.Name.{is_name};
ghost use Rattle.il_called.specs.Expansion.{brought_name, brought};

use il_core::{Mode, Name, NoMemory, Place};
use itoa::Buffer;
use std::alloc::Global;

/// The letter before the number of the call.
fn letter_of(old: bool) -> u8
    ensures { result ≡ (if old then 111 else 99) }
{
    if old { b'o' } else { b'c' }
}

/// The name that a place has which the call of this number, counted from 1, brings.
fn brought_name(alloc: Global, call: usize, place: &Place) -> Result<Name, NoMemory>
    requires { length (brought_name call place.now) ≤ 40 }
    ensures { IfOk result (λ name. name ≡ brought_name call place.now) }
{
    let mut digits = Buffer::new();
    let mut bytes = Vec::new(alloc);
    bytes.push(letter_of(place.old))?;
    bytes.extend_from_slice(digits.format(call).as_bytes())?;
    bytes.extend_from_slice(b"_")?;
    bytes.extend_from_slice(place.name.as_bytes())?;
    match Name::new(bytes.as_slice()) {
        Some(name) => Ok(name),
        None => unreachable!(),
    }
}

/// The place that the call of this number brings for a place of its callee.
pub fn brought(alloc: Global, call: usize, place: &Place) -> Result<Place, NoMemory>
    requires { length (brought_name call place.now) ≤ 40 }
    ensures { IfOk result (λ it. it ≡ brought call place.now) }
{
    Ok(Place {
        name: brought_name(alloc, call, place)?,
        mode: Mode::Local,
        old: false,
        ..*place
    })
}
