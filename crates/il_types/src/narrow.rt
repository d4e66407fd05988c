ghost use Rattle.std.specs.Prelude.{◌≡◌, ◌<◌};
ghost use Rattle.il_core.specs.Statement.{statement_of};
ghost use Rattle.il_core.specs.Tree.{tree_of};
ghost use Rattle.il_types.specs.Narrow.{if_small, variable_bounds, value_bounds, named_bounds, recalled_value, recalled_bounds, bounds_of_two, static_bounds, is_narrow};

use crate::bounds::Bounds;
use crate::range::{is_flag, range_of_use};
use crate::setting::{Setting, declaration};
use il_core::{BinOp, Form, Name, RawExpr, TypeUse};

/// The bounds of a variable of a type.
fn variable_bounds(setting: &Setting<'_>, used: &TypeUse) -> Option<Bounds>
    ensures { result ≡ if_small (variable_bounds setting.now used.now) }
{
    if is_flag(setting, used) {
        Bounds::only(0)
    } else {
        let range = range_of_use(setting, used);
        Bounds::new(i128::from(range.least), i128::from(range.greatest))
    }
}

/// The bounds of what a statement declares, as a value.
fn value_bounds(setting: &Setting<'_>, spot: (usize, usize), form: &Form) -> Option<Bounds>
    ensures { result ≡ if_small (value_bounds setting.now spot (statement_of form.now)) }
{
    match form {
        Form::Const(_, value) => Bounds::only(i128::from(*value)),
        Form::EnumType(_, _) => Bounds::only(spot.1.saturating_sub(1) as i128),
        Form::Variable(_, _, used) => variable_bounds(&setting.at_statement(spot.0), used),
        _ => Bounds::only(0),
    }
}

/// The bounds of a name as a value.
fn named_bounds(setting: &Setting<'_>, name: &Name) -> Option<Bounds>
    ensures { result ≡ if_small (named_bounds setting.now name.now) }
{
    match declaration(setting, name) {
        None => Bounds::only(0),
        Some((spot, form)) => value_bounds(setting, spot, form),
    }
}

/// The bounds of what a statement declares, behind OLD.
fn recalled_value(setting: &Setting<'_>, spot: (usize, usize), form: &Form) -> Option<Bounds>
    ensures { result ≡ if_small (recalled_value setting.now spot (statement_of form.now)) }
{
    match form {
        Form::Variable(_, _, used) => variable_bounds(&setting.at_statement(spot.0), used),
        _ => Bounds::only(0),
    }
}

/// The bounds of a name behind OLD.
fn recalled_bounds(setting: &Setting<'_>, name: &Name) -> Option<Bounds>
    ensures { result ≡ if_small (recalled_bounds setting.now name.now) }
{
    match declaration(setting, name) {
        None => Bounds::only(0),
        Some((spot, form)) => recalled_value(setting, spot, form),
    }
}

fn bounds_of_two(op: BinOp, left: Option<Bounds>, right: Option<Bounds>) -> Option<Bounds>
    ensures { result ≡ bounds_of_two op left right }
{
    match left {
        None => None,
        Some(left) => match right {
            None => None,
            Some(right) => Bounds::of_operator(op, left, right),
        },
    }
}

/// The static bounds of an expression, by its form and the declared ranges of its names; `None` where a part of it has one outside 2^126
/// on either side of 0. Linear in the expression but for the look-ups by name.
pub fn static_bounds(setting: &Setting<'_>, expr: &RawExpr) -> Option<Bounds>
    ensures { result ≡ static_bounds setting.now (tree_of expr.now) }
{
    match expr {
        RawExpr::Num(value) => Bounds::only(i128::from(*value)),
        RawExpr::Ident(name) => named_bounds(setting, name),
        RawExpr::Old(name) => recalled_bounds(setting, name),
        RawExpr::Truth(_) => Some(Bounds::none()),
        RawExpr::Neg(inner) => match static_bounds(setting, inner) {
            None => None,
            Some(bounds) => bounds.negated(),
        },
        RawExpr::Not(inner) => match static_bounds(setting, inner) {
            None => None,
            Some(_) => Some(Bounds::none()),
        },
        RawExpr::Binary(op, left, right) => bounds_of_two(
            *op,
            static_bounds(setting, left),
            static_bounds(setting, right),
        ),
    }
}

/// Whether each part of the expression of a statement, where it has one, has small static bounds.
pub(crate) fn is_narrow(setting: &Setting<'_>, form: &Form) -> bool
    ensures { result ≡ is_narrow setting.now (statement_of form.now) }
{
    match form {
        Form::Pre(expr) => static_bounds(setting, expr).is_some(),
        Form::Post(expr) => static_bounds(setting, expr).is_some(),
        Form::Assign(_, expr) => static_bounds(setting, expr).is_some(),
        Form::If(expr) => static_bounds(setting, expr).is_some(),
        Form::ExitWhen(expr) => static_bounds(setting, expr).is_some(),
        Form::Assert(expr) => static_bounds(setting, expr).is_some(),
        _ => true,
    }
}
