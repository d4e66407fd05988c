//! The lines before a callee's own: its variables get their first values, and its OLD copies those of their variables.
ghost use Rattle.std.specs.Prelude.{◌≡◌, ◌++◌, ◌+◌, ◌<◌, ◌≤◌, length, map, IfOk};
ghost use Rattle.il_core.specs.Expression.{expression_of};
ghost use Rattle.il_core.specs.Procedure.{instruction_of};
ghost use Rattle.il_called.specs.Called.{passed_of, variable_of};
ghost use Rattle.il_called.specs.Expansion.{read_as, read_at, least_of, argument_value, first_value, entered, copied};
ghost use Rattle.il_inline.specs.Within.{NamesBelow, AreWithin};
ghost use Rattle.il_inline.specs.Held.{place_under};

use crate::renumbering::{Renumbering, renumbered};
use crate::variables::{is_read, left_behind};
use il_called::Argument;
use il_core::{Expr, Line, List, NoMemory, Place};
use std::alloc::Global;

/// The value of a place, read under a number.
pub fn read_as(place: &Place, number: usize) -> Expr
    ensures { expression_of result ≡ read_as place.now number }
{
    if place.flag {
        Expr::Flag(number)
    } else {
        Expr::Var(number)
    }
}

/// The least value of a place.
fn least_of(place: &Place) -> Expr
    ensures { expression_of result ≡ least_of place.now }
{
    if place.flag {
        Expr::Truth(false)
    } else {
        Expr::Num(i128::from(place.least))
    }
}

/// The value of a variable of the caller.
fn variable_value(places: &[Place], under: Renumbering, place: usize) -> Expr
    requires { NamesBelow 64 (argument_value places.now (place_under under) (variable_of place)) }
    ensures { expression_of result ≡ argument_value places.now (place_under under) (variable_of place) }
{
    match places.get(place) {
        Some(there) => read_as(there, under.place(place)),
        None => Expr::Var(under.place(place)),
    }
}

/// The value of an argument.
fn argument_value(
    alloc: Global,
    places: &[Place],
    under: Renumbering,
    argument: &Argument,
) -> Result<Expr, NoMemory>
    requires { NamesBelow 64 (argument_value places.now (place_under under) (passed_of argument.now)) }
    ensures { IfOk result (λ e. expression_of e ≡ argument_value places.now (place_under under) (passed_of argument.now)) }
{
    match argument {
        Argument::Value(expr) => renumbered(alloc, under, expr),
        Argument::Variable(place) => Ok(variable_value(places, under, *place)),
    }
}

/// The first value of a variable of the callee: its argument's, or the least of its range.
fn first_value(
    alloc: Global,
    places: &[Place],
    under: Renumbering,
    variable: &Place,
    arguments: &[Argument],
) -> Result<Expr, NoMemory>
    requires { NamesBelow 64 (first_value places.now (place_under under) variable.now (map passed_of arguments.now)) }
    ensures { IfOk result (λ e. expression_of e ≡ first_value places.now (place_under under) variable.now (map passed_of arguments.now)) }
{
    match arguments {
        [] => Ok(least_of(variable)),
        [argument, ..] => {
            if is_read(variable.mode) {
                argument_value(alloc, places, under, argument)
            } else {
                Ok(least_of(variable))
            }
        }
    }
}

/// Adds the lines that give the callee's variables their first values; the first of them has number `base`.
pub fn enter(
    alloc: Global,
    places: &[Place],
    under: Renumbering,
    base: usize,
    variables: &[Place],
    arguments: &[Argument],
    out: &mut List<Line>,
) -> Result<(), NoMemory>
    requires { AreWithin (entered places.now (place_under under) base variables.now (map passed_of arguments.now)) }
    ensures { IfOk result (λ _. map instruction_of out.new ≡ map instruction_of out.old ++ entered places.now (place_under under) base variables.now (map passed_of arguments.now)) }
{
    let mut place = base;
    let mut rest = arguments;
    for variable in variables {
        let value = first_value(alloc, places, under, variable, rest)?;
        out.push(Line::Assign(place, value))?;
        place += 1;
        rest = left_behind(variable.mode, rest);
    }
    Ok(())
}

/// The value of the place of a number, read under another.
fn read_at(places: &[Place], place: usize, number: usize) -> Expr
    ensures { expression_of result ≡ read_at places.now place number }
{
    match places.get(place) {
        Some(there) => read_as(there, number),
        None => Expr::Var(number),
    }
}

/// Adds the lines that give the OLD copies of these variables of the callee their values; the callee's places are numbered
/// from `base` on, and the first copy has number `first`.
pub fn copy_old(
    places: &[Place],
    base: usize,
    first: usize,
    inouts: &[usize],
    out: &mut List<Line>,
) -> Result<(), NoMemory>
    requires { AreWithin (copied places.now base first inouts.now) }
    ensures { IfOk result (λ _. map instruction_of out.new ≡ map instruction_of out.old ++ copied places.now base first inouts.now) }
{
    let mut copy = first;
    for inout in inouts {
        let value = read_at(places, *inout, base + *inout);
        out.push(Line::Assign(copy, value))?;
        copy += 1;
    }
    Ok(())
}
