//! What a call gives to the parameters of its procedure.
ghost use Rattle.std.specs.Prelude.{◌≡◌, ◌+◌, ◌≤◌, ◌<◌, map, slice_get, filter_map, length, nat_eq};
ghost use Rattle.std.specs.Cmp.Lexicographic.{pointwise};
ghost use Rattle.std.specs.List.{list_all, list_any};
ghost use Rattle.il_core.specs.Tree.{tree_of};
ghost use Rattle.call_rules.specs.Callee.{paired, pairings};
ghost use Rattle.call_rules.specs.Calls.{back_to};
ghost use Rattle.call_rules.specs.Fits.{is_suited, are_apart, fit_parameters};
ghost use Rattle.call_fits.specs.Apart.{names_left, is_same, stands_in};

use call_rules::{Parameter, back_to, is_returned};
use il_core::{Name, RawExpr};

/// The parameter of argument `at`, where there is one.
fn parameter_at(parameters: &[Parameter], at: usize) -> Option<Parameter>
    ensures { result ≡ slice_get parameters.now at }
{
    parameters.get(at).copied()
}

/// Whether an argument is a single name, where its parameter is handed back.
fn is_suited(parameter: Option<Parameter>, argument: &RawExpr) -> bool
    ensures { result ≡ is_suited (paired parameter (tree_of argument.now)) }
{
    match parameter {
        None => true,
        Some(known) => !is_returned(known.mode) || back_to(parameter, argument).is_some(),
    }
}

/// Whether all arguments are single names, where their parameters are handed back.
fn are_suited(parameters: &[Parameter], arguments: &[RawExpr]) -> bool
    ensures { result ≡ list_all is_suited (pairings parameters.now (map tree_of arguments.now)) }
{
    for (k, argument) in arguments.iter().enumerate() {
        if !is_suited(parameter_at(parameters, k), argument) {
            return false;
        }
    }
    true
}

/// Whether a parameter is handed back to the variable of a name.
fn is_given(parameter: Option<Parameter>, argument: &RawExpr, name: &Name) -> bool
    ensures { result ≡ is_same name.now (back_to (paired parameter (tree_of argument.now))) }
{
    match back_to(parameter, argument) {
        None => false,
        Some(other) => *name == other,
    }
}

/// Whether a parameter from number `from` on is handed back to the variable of a name.
fn is_given_from(parameters: &[Parameter], arguments: &[RawExpr], from: usize, name: &Name) -> bool
    requires { from ≤ length arguments.now }
    ensures { result ≡ list_any (pointwise nat_eq name.now) (names_left parameters.now arguments.now from) }
{
    for k in from..arguments.len() {
        if is_given(parameter_at(parameters, k), &arguments[k], name) {
            return true;
        }
    }
    false
}

/// Whether the variable to which parameter `at` is handed back is given to a later one too.
fn is_given_again(
    parameters: &[Parameter],
    arguments: &[RawExpr],
    at: usize,
    argument: &RawExpr,
) -> bool
    requires { at < length arguments.now }
    ensures { result ≡ stands_in (back_to (paired (slice_get parameters.now at) (tree_of argument.now))) (names_left parameters.now arguments.now (at + 1)) }
{
    match back_to(parameter_at(parameters, at), argument) {
        None => false,
        Some(name) => is_given_from(parameters, arguments, at + 1, &name),
    }
}

/// Whether no two parameters are handed back to one variable. The time is the square of the number of arguments.
fn are_apart(parameters: &[Parameter], arguments: &[RawExpr]) -> bool
    ensures { result ≡ are_apart (filter_map back_to (pairings parameters.now (map tree_of arguments.now))) }
{
    for (k, argument) in arguments.iter().enumerate() {
        if is_given_again(parameters, arguments, k, argument) {
            return false;
        }
    }
    true
}

/// Whether a call's arguments fit the parameters of its procedure.
pub(crate) fn fit_parameters(parameters: &[Parameter], arguments: &[RawExpr]) -> bool
    ensures { result ≡ fit_parameters parameters.now (map tree_of arguments.now) }
{
    parameters.len() == arguments.len()
        && are_suited(parameters, arguments)
        && are_apart(parameters, arguments)
}
