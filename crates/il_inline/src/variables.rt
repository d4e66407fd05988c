//! The variables of a procedure that is called.
ghost use Rattle.std.specs.Prelude.{◌≡◌, ◌+◌, ◌≤◌, length, filter, map, count_by, IfOk};
ghost use Rattle.il_core.specs.Run.{inout_from};
ghost use Rattle.il_called.specs.Called.{passed_of};
ghost use Rattle.il_called.specs.Expansion.{variables_in, is_parameter, is_read, is_returned, left_behind};
ghost use Rattle.il_core.specs.declared.statement.Mode.TheVariants.{Input};

use il_called::Argument;
use il_core::{Mode, NoMemory, Place};
use std::alloc::Global;

/// Whether a variable is a parameter.
pub fn is_parameter(mode: Mode) -> bool
    ensures { result ≡ is_parameter mode }
{
    match mode {
        Mode::Input | Mode::InOut | Mode::Output => true,
        Mode::Local => false,
    }
}

/// Whether its argument is read at the call.
pub fn is_read(mode: Mode) -> bool
    ensures { result ≡ is_read mode }
{
    match mode {
        Mode::Input | Mode::InOut => true,
        Mode::Output | Mode::Local => false,
    }
}

/// Whether it is handed back.
pub fn is_returned(mode: Mode) -> bool
    ensures { result ≡ is_returned mode }
{
    match mode {
        Mode::InOut | Mode::Output => true,
        Mode::Input | Mode::Local => false,
    }
}

/// The arguments without the first.
fn without_first(arguments: &[Argument]) -> &[Argument]
    ensures { map passed_of result.now ≡ left_behind Input (map passed_of arguments.now) }
{
    match arguments {
        [] => arguments,
        [_, behind @ ..] => behind,
    }
}

/// The arguments that are left behind a variable.
pub fn left_behind(mode: Mode, arguments: &[Argument]) -> &[Argument]
    ensures { map passed_of result.now ≡ left_behind mode (map passed_of arguments.now) }
{
    if is_parameter(mode) {
        without_first(arguments)
    } else {
        arguments
    }
}

/// The variables among the places of a procedure.
pub fn variables_in(alloc: Global, places: &[Place]) -> Result<Vec<Place>, NoMemory>
    ensures { IfOk result (λ v. v.items ≡ variables_in places.now) }
{
    let variables = places
        .iter()
        .filter(|place| !place.old)
        .copied()
        .collect(alloc)?;
    Ok(variables)
}

/// The numbers of its INOUT variables.
pub fn inouts_in(alloc: Global, places: &[Place]) -> Result<Vec<usize>, NoMemory>
    ensures { IfOk result (λ v. v.items ≡ inout_from 0 places.now) }
{
    let mut found = Vec::new(alloc);
    for (number, place) in places.iter().enumerate() {
        if !place.old && place.mode == Mode::InOut {
            found.push(number)?;
        }
    }
    Ok(found)
}

/// How many variables are handed back.
pub fn returned_count(variables: &[Place]) -> usize
    ensures { result ≡ count_by (λ v. is_returned v.mode) variables.now }
{
    variables
        .iter()
        .filter(|variable| is_returned(variable.mode))
        .count()
}
