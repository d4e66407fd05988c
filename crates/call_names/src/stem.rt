//! How the new names begin that a call brings.
ghost use Rattle.std.specs.Prelude.{◌≡◌, ◌++◌, nat_eq, IfOk, if◌then◌else◌};
ghost use Rattle.std.specs.Cmp.Lexicographic.{pointwise};
ghost use Rattle.call_names.specs.Search.{mark, begins_with};

use il_core::{Name, NoMemory};
use itoa::Buffer;
use std::alloc::Global;

/// The letter before the number of a call.
fn letter_of(old: bool) -> u8
    ensures { result ≡ (if old then 111 else 99) }
{
    if old { b'o' } else { b'c' }
}

/// Some bytes, and what stands behind them and in front of the names that the call of a number brings, of places that are OLD copies or not.
pub(crate) fn stem_of_call(
    alloc: Global,
    front: &[u8],
    old: bool,
    call: usize,
) -> Result<Vec<u8>, NoMemory>
    ensures { IfOk result (λ v. v.items ≡ front.now ++ mark old call) }
{
    let mut digits = Buffer::new();
    let mut bytes = Vec::new(alloc);
    bytes.extend_from_slice(front)?;
    bytes.push(letter_of(old))?;
    bytes.extend_from_slice(digits.format(call).as_bytes())?;
    bytes.extend_from_slice(b"_")?;
    Ok(bytes)
}

/// Whether a name begins with these bytes.
pub(crate) fn begins_with(stem: &[u8], name: &Name) -> bool
    ensures { result ≡ begins_with stem.now name.now }
{
    name.as_bytes().strip_prefix(stem).is_some()
}

/// Whether a name is these bytes and another name behind them.
pub(crate) fn is_joined(stem: &[u8], last: &Name, name: &Name) -> bool
    ensures { result ≡ pointwise nat_eq (stem.now ++ last.now) name.now }
{
    match name.as_bytes().strip_prefix(stem) {
        None => false,
        Some(left) => last.as_bytes() == left,
    }
}
