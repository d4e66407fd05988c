//! The numbers of the calls as whose new names some names go on: most calls are passed over by their number alone.
ghost use Rattle.std.specs.Prelude.{◌≡◌, ◌==◌, ◌++◌, ◌<◌, ◌^◌, ℕ, Bool, true, List, length, position, nat_eq, Some, IfSome, IfOk};
ghost use Rattle.std.specs.List.{list_any};
ghost use Rattle.std.specs.Option.{option_to_list};
ghost use Rattle.call_names.specs.Search.{mark};
ghost use Rattle.call_names.specs.Numbers.{AreNumbersBehind};

use il_core::{Name, NoMemory};
use std::alloc::Global;

/// The place of the first underscore.
fn underscore(bytes: &[u8]) -> Option<usize>
    ensures place { result ≡ position (λ b. b == 95) bytes.now }
    ensures within { IfSome result (λ place. place < length bytes.now) }
{
    bytes.iter().position(|byte| *byte == b'_')
}

/// The number of the call where these bytes begin as new names of a call do.
fn call_number(bytes: &[u8]) -> Option<usize>
    ensures { (old : Bool) (k : ℕ) (rest : List ℕ) → k < 2 ^ 64 → bytes.now ≡ mark old k ++ rest → result ≡ Some k }
{
    let end = match underscore(bytes) {
        Some(end) => end,
        None => return None,
    };
    if end == 0 {
        return None;
    }
    let text = match str::from_utf8(&bytes[1..end]) {
        Ok(text) => text,
        Err(_) => return None,
    };
    match text.parse() {
        Ok(number) => Some(number),
        Err(_) => None,
    }
}

/// The number of the call where a name begins with these bytes and goes on as new names of a call begin.
fn number_behind(stem: &[u8], name: &Name) -> Option<usize>
    ensures { (old : Bool) (k : ℕ) (rest : List ℕ) → k < 2 ^ 64 → name.now ≡ stem.now ++ (mark old k ++ rest) → result ≡ Some k }
{
    match name.as_bytes().strip_prefix(stem) {
        None => None,
        Some(rest) => call_number(rest),
    }
}

/// Puts a number behind the others, if there is one.
fn push_number(numbers: &mut Vec<usize>, number: Option<usize>) -> Result<(), NoMemory>
    ensures { IfOk result (λ _. numbers.new.items ≡ numbers.old.items ++ option_to_list number) }
{
    match number {
        None => Ok(()),
        Some(number) => {
            numbers.push(number)?;
            Ok(())
        }
    }
}

/// The numbers of the calls as whose new names some of the names go on behind these bytes.
pub(crate) fn numbers_behind(
    alloc: Global,
    stem: &[u8],
    names: &[Name],
) -> Result<Vec<usize>, NoMemory>
    ensures { IfOk result (λ v. AreNumbersBehind stem.now names.now v.items) }
{
    let mut numbers = Vec::new(alloc);
    for name in names {
        push_number(&mut numbers, number_behind(stem, name))?;
    }
    Ok(numbers)
}

/// Whether a number is one of these.
pub(crate) fn is_one_of(number: usize, numbers: &[usize]) -> bool
    ensures { result ≡ list_any (nat_eq number) numbers.now }
{
    numbers.iter().any(|other| number == *other)
}
