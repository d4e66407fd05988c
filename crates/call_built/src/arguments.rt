ghost use Rattle.std.specs.Prelude.{◌≡◌, ◌<◌, ◌-◌, map, length, unwrap_or, IfOk};
ghost use Rattle.il_core.specs.Tree.{tree_of};
ghost use Rattle.il_called.specs.Called.{passed_of, written_of};
ghost use Rattle.call_rules.specs.Callee.{paired, pairings, procedure_named};
ghost use Rattle.call_rules.specs.CalledText.{passed, call_line};
ghost use Rattle.call_rules.specs.Parameters.{AreParameters};

use call_rules::{Parameter, Parameters, back_to, parameters_named, procedure_named};
use il_built::{build_expression, place_of_name};
use il_called::{Argument, CalledLine};
use il_core::{List, Name, NoMemory, RawExpr};
use il_types::Setting;
use std::alloc::Global;

/// What an argument gives its parameter: the variable to which the parameter is handed back, else a value.
fn argument_of(
    alloc: Global,
    setting: &Setting<'_>,
    parameter: Option<Parameter>,
    argument: &RawExpr,
) -> Result<Argument, NoMemory>
    requires { setting.now.at < length setting.now.stmts }
    ensures { IfOk result (λ a. passed_of a ≡ passed setting.now (paired parameter (tree_of argument.now))) }
{
    match back_to(parameter, argument) {
        None => {
            let value = build_expression(alloc, setting, argument)?;
            Ok(Argument::Value(value))
        }
        Some(name) => Ok(Argument::Variable(place_of_name(setting, &name))),
    }
}

/// What the arguments of a call give the parameters. An argument past the last parameter is a value.
fn arguments_of(
    alloc: Global,
    setting: &Setting<'_>,
    parameters: &[Parameter],
    arguments: &[RawExpr],
) -> Result<List<Argument>, NoMemory>
    requires { setting.now.at < length setting.now.stmts }
    ensures { IfOk result (λ v. map passed_of v ≡ map (passed setting.now) (pairings parameters.now (map tree_of arguments.now))) }
{
    let mut given = List::new(alloc);
    for (k, argument) in arguments.iter().enumerate() {
        let parameter = parameters.get(k).copied();
        given.push(argument_of(alloc, setting, parameter, argument)?)?;
    }
    Ok(given)
}

/// The number of the procedure that a call names, counted from 0; that of its own procedure where the name is no procedure's.
fn callee_of(setting: &Setting<'_>, name: &Name) -> usize
    ensures { result ≡ unwrap_or (procedure_named setting.now name.now) setting.now.owner - 1 }
{
    procedure_named(setting, name)
        .unwrap_or(setting.owner())
        .saturating_sub(1)
}

/// The line that a call is. An error comes where memory runs out. Linear in the arguments but for the look-ups by name.
pub(crate) fn call_of(
    alloc: Global,
    setting: &Setting<'_>,
    parameters: &Parameters,
    name: &Name,
    arguments: &[RawExpr],
) -> Result<CalledLine, NoMemory>
    requires inside { setting.now.at < length setting.now.stmts }
    requires parameters { AreParameters setting.now.stmts parameters.now }
    ensures { IfOk result (λ line. written_of line ≡ call_line setting.now name.now (map tree_of arguments.now)) }
{
    let taken = parameters_named(setting, parameters, name);
    let given = arguments_of(alloc, setting, taken, arguments)?;
    Ok(CalledLine::Call(callee_of(setting, name), given))
}
