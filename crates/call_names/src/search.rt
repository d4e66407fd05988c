//! The first of some names among the new names that a call brings.
ghost use Rattle.std.specs.Prelude.{◌≡◌, ◌++◌, true, List, map, find, filter, Some, None, IfOk, if◌then◌else◌};
ghost use Rattle.il_called.specs.Called.{WrittenProcedure};
ghost use Rattle.call_names.specs.Search.{is_among, mark, names_under, places_at};
ghost use Rattle.call_names.specs.Outlines.{AreOutlined};
ghost use Rattle.call_names.specs.Sorted.{AreInOrder};
ghost use Rattle.call_names.specs.declared.outline.Variable.{Variable};

use crate::number::{is_one_of, numbers_behind};
use crate::outline::{Outline, Variable};
use crate::sorted::all_beginning_with;
use crate::stem::{is_joined, stem_of_call};
use il_core::{Name, NoMemory};
use std::alloc::Global;

/// The bytes with a name behind them, where that is one of the names sought.
fn sought_name(stem: &[u8], last: &Name, sought: &[Name]) -> Option<Name>
    ensures { result ≡ (if is_among sought.now (stem.now ++ last.now) then Some (stem.now ++ last.now) else None) }
{
    for name in sought {
        if is_joined(stem, last, name) {
            return Some(*name);
        }
    }
    None
}

/// The first of the names sought among those of variables behind these bytes.
fn first_variable(stem: &[u8], variables: &[Variable], sought: &[Name]) -> Option<Name>
    ensures { result ≡ find (is_among sought.now) (map (λ (v : Variable). stem.now ++ v.name) variables.now) }
{
    for variable in variables {
        match sought_name(stem, &variable.name, sought) {
            Some(name) => return Some(name),
            None => {}
        }
    }
    None
}

/// The bytes with the name of a variable behind them, where that is one of the names sought and the variable has an OLD copy.
fn sought_copy(stem: &[u8], variable: &Variable, sought: &[Name]) -> Option<Name>
    ensures { result ≡ (if variable.now.copied then (if is_among sought.now (stem.now ++ variable.now.name) then Some (stem.now ++ variable.now.name) else None) else None) }
{
    if variable.copied {
        sought_name(stem, &variable.name, sought)
    } else {
        None
    }
}

/// The first of the names sought among those of the variables behind these bytes that have an OLD copy.
fn first_copied(stem: &[u8], variables: &[Variable], sought: &[Name]) -> Option<Name>
    ensures { result ≡ find (is_among sought.now) (map (λ (v : Variable). stem.now ++ v.name) (filter (λ (v : Variable). v.copied) variables.now)) }
{
    for variable in variables {
        match sought_copy(stem, variable, sought) {
            Some(name) => return Some(name),
            None => {}
        }
    }
    None
}

/// The first of the names sought among those of the OLD copies that a call brings, behind these bytes.
fn first_copy(
    alloc: Global,
    variables: &[Variable],
    front: &[u8],
    call: usize,
    sought: &[Name],
) -> Result<Option<Name>, NoMemory>
    requires { AreInOrder sought.now }
    ensures { IfOk result (λ o. o ≡ find (is_among sought.now) (map (λ (v : Variable). front.now ++ mark true call ++ v.name) (filter (λ (v : Variable). v.copied) variables.now))) }
{
    let stem = stem_of_call(alloc, front, true, call)?;
    let those = all_beginning_with(stem.as_slice(), sought);
    if those.is_empty() {
        return Ok(None);
    }
    Ok(first_copied(stem.as_slice(), variables, those))
}

/// The first of the names sought among the new names that a call of a number brings which calls the procedure of a number, each behind these
/// bytes. It goes deeper only into the calls with whose numbers a name sought goes on, so at most as deep as the longest of them has bytes.
pub(crate) fn first_new(
    alloc: Global,
    outlines: &[Outline],
    number: usize,
    front: &[u8],
    call: usize,
    sought: &[Name],
) -> Result<Option<Name>, NoMemory>
    requires { AreInOrder sought.now }
    ensures { IfOk result (λ o. (procs : List WrittenProcedure) → AreOutlined procs outlines.now → o ≡ find (is_among sought.now) (names_under front.now call (places_at procs number))) }
{
    let outline = match outlines.get(number) {
        None => return Ok(None),
        Some(outline) => outline,
    };
    let variables = outline.variables.as_slice();
    let stem = stem_of_call(alloc, front, false, call)?;
    let those = all_beginning_with(stem.as_slice(), sought);
    if those.is_empty() {
        return first_copy(alloc, variables, front, call, sought);
    }
    match first_variable(stem.as_slice(), variables, those) {
        Some(name) => return Ok(Some(name)),
        None => {}
    }
    let numbers = numbers_behind(alloc, stem.as_slice(), those)?;
    let before = &outlines[..number];
    for (k, callee) in outline.calls.as_slice().iter().enumerate() {
        if !is_one_of(k + 1, numbers.as_slice()) {
            continue;
        }
        match first_new(alloc, before, *callee, stem.as_slice(), k + 1, those)? {
            Some(name) => return Ok(Some(name)),
            None => {}
        }
    }
    first_copy(alloc, variables, front, call, sought)
}
