ghost use Rattle.std.specs.Prelude.{◌≡◌, ◌+◌, ◌<◌, ◌^◌, is_some, map, slice_get};
ghost use Rattle.std.specs.List.{list_all};
ghost use Rattle.il_core.specs.Statement.{statement_of};
ghost use Rattle.il_core.specs.Tree.{tree_of};
ghost use Rattle.il_types.specs.Narrow.{static_bounds};
ghost use Rattle.il_called.specs.Expansion.{is_returned};
ghost use Rattle.call_rules.specs.Callee.{paired, pairings};
ghost use Rattle.call_rules.specs.Calls.{single_name, back_to, first_unknown, unknown_in_call, may_be_given, kind_given, takes_back, is_typed_pairing, is_typed_call, may_take_back, is_allowed_pairing, is_allowed_call, is_narrow_call, call_fault};
ghost use Rattle.call_rules.specs.Parameters.{AreParameters};

use crate::callee::{parameters_named, procedure_named};
use crate::parameters::{Parameter, Parameters};
use il_core::{Code, Mode, Name, RawExpr};
use il_types::{
    Found, Kind, Part, Rule, Setting, keeps_modes, kind_of, kind_of_variable, may_assign, may_hold,
    mode_of, naming, static_bounds, unknown_in, unknown_name, unless,
};

/// Whether a parameter of a mode is assigned back.
pub fn is_returned(mode: Mode) -> bool
    ensures { result ≡ is_returned mode }
{
    match mode {
        Mode::Input => false,
        Mode::InOut => true,
        Mode::Output => true,
        Mode::Local => false,
    }
}

fn single_name(argument: &RawExpr) -> Option<Name>
    ensures { result ≡ single_name (tree_of argument.now) }
{
    match argument {
        RawExpr::Ident(name) => Some(*name),
        _ => None,
    }
}

/// The variable to which a parameter is assigned back, where it is given a single name.
pub fn back_to(parameter: Option<Parameter>, argument: &RawExpr) -> Option<Name>
    ensures { result ≡ back_to (paired parameter (tree_of argument.now)) }
{
    match parameter {
        None => None,
        Some(parameter) => if is_returned(parameter.mode) {
            single_name(argument)
        } else {
            None
        },
    }
}

/// The first name of some arguments that is unknown.
fn first_unknown(setting: &Setting<'_>, arguments: &[RawExpr]) -> Option<Name>
    ensures { result ≡ first_unknown setting.now (map tree_of arguments.now) }
{
    for argument in arguments {
        if let Some(name) = unknown_in(setting, argument) {
            return Some(name);
        }
    }
    None
}

/// The first name of a call that is unknown.
fn unknown_in_call(setting: &Setting<'_>, name: &Name, arguments: &[RawExpr]) -> Option<Name>
    ensures { result ≡ unknown_in_call setting.now name.now (map tree_of arguments.now) }
{
    match unknown_name(setting, name) {
        Some(name) => Some(name),
        None => first_unknown(setting, arguments),
    }
}

fn may_be_given(parameter: Option<Parameter>, kind: Option<Kind>) -> bool
    ensures { result ≡ may_be_given parameter kind }
{
    match parameter {
        None => kind.is_some(),
        Some(parameter) => may_hold(parameter.kind, kind),
    }
}

fn kind_given(parameter: Option<Parameter>) -> Option<Kind>
    ensures { result ≡ kind_given parameter }
{
    match parameter {
        None => None,
        Some(parameter) => parameter.kind,
    }
}

fn takes_back(setting: &Setting<'_>, parameter: Option<Parameter>, argument: &RawExpr) -> bool
    ensures { result ≡ takes_back setting.now (paired parameter (tree_of argument.now)) (back_to (paired parameter (tree_of argument.now))) }
{
    match back_to(parameter, argument) {
        None => true,
        Some(name) => may_hold(kind_of_variable(setting, &name), kind_given(parameter)),
    }
}

/// Whether an argument has a kind that its parameter takes, and takes its parameter back.
fn is_typed_pairing(setting: &Setting<'_>, parameter: Option<Parameter>, argument: &RawExpr) -> bool
    ensures { result ≡ is_typed_pairing setting.now (paired parameter (tree_of argument.now)) }
{
    may_be_given(parameter, kind_of(setting, argument)) && takes_back(setting, parameter, argument)
}

/// The parameter of argument `at`, where there is one.
fn parameter_at(parameters: &[Parameter], at: usize) -> Option<Parameter>
    ensures { result ≡ slice_get parameters.now at }
{
    parameters.get(at).copied()
}

/// Whether all arguments are typed.
fn are_typed(setting: &Setting<'_>, parameters: &[Parameter], arguments: &[RawExpr]) -> bool
    ensures { result ≡ list_all (is_typed_pairing setting.now) (pairings parameters.now (map tree_of arguments.now)) }
{
    for (k, argument) in arguments.iter().enumerate() {
        if !is_typed_pairing(setting, parameter_at(parameters, k), argument) {
            return false;
        }
    }
    true
}

/// Whether a call keeps the rules of types.
fn is_typed_call(
    setting: &Setting<'_>,
    parameters: &Parameters,
    name: &Name,
    arguments: &[RawExpr],
) -> bool
    requires { AreParameters setting.now.stmts parameters.now }
    ensures { result ≡ is_typed_call setting.now name.now (map tree_of arguments.now) }
{
    match procedure_named(setting, name) {
        None => false,
        Some(number) => are_typed(setting, parameters.of(number), arguments),
    }
}

fn may_take_back(setting: &Setting<'_>, name: Option<Name>) -> bool
    ensures { result ≡ may_take_back setting.now name }
{
    match name {
        None => true,
        Some(name) => may_assign(mode_of(setting, &name)),
    }
}

/// Whether the modes allow an argument, and that its parameter is assigned back to it.
fn is_allowed_pairing(
    setting: &Setting<'_>,
    parameter: Option<Parameter>,
    argument: &RawExpr,
) -> bool
    ensures { result ≡ is_allowed_pairing setting.now (paired parameter (tree_of argument.now)) }
{
    may_take_back(setting, back_to(parameter, argument))
        && keeps_modes(setting, Part::Action, argument)
}

/// Whether the modes allow all arguments.
fn are_allowed(setting: &Setting<'_>, parameters: &[Parameter], arguments: &[RawExpr]) -> bool
    ensures { result ≡ list_all (is_allowed_pairing setting.now) (pairings parameters.now (map tree_of arguments.now)) }
{
    for (k, argument) in arguments.iter().enumerate() {
        if !is_allowed_pairing(setting, parameter_at(parameters, k), argument) {
            return false;
        }
    }
    true
}

/// Whether each argument has small static bounds.
fn are_narrow(setting: &Setting<'_>, arguments: &[RawExpr]) -> bool
    ensures { result ≡ is_narrow_call setting.now (map tree_of arguments.now) }
{
    for argument in arguments {
        if static_bounds(setting, argument).is_none() {
            return false;
        }
    }
    true
}

/// What a call breaks of a rule.
pub(crate) fn call_fault(
    rule: Rule,
    setting: &Setting<'_>,
    parameters: &Parameters,
    name: &Name,
    arguments: &[RawExpr],
) -> Option<Found>
    requires { AreParameters setting.now.stmts parameters.now }
    ensures { result ≡ call_fault rule setting.now name.now (map tree_of arguments.now) }
{
    match rule {
        Rule::Known => match unknown_in_call(setting, name, arguments) {
            None => None,
            Some(name) => Some(naming(Code::Unknown, name)),
        },
        Rule::Typed => unless(
            is_typed_call(setting, parameters, name, arguments),
            Code::Typing,
        ),
        Rule::Allowed => {
            let parameters = parameters_named(setting, parameters, name);
            unless(are_allowed(setting, parameters, arguments), Code::Access)
        }
        Rule::Filled => None,
        Rule::Narrow => unless(are_narrow(setting, arguments), Code::Wide),
        Rule::Limited => None,
    }
}
