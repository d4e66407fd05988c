ghost use Rattle.std.specs.Prelude.{◌≡◌};
ghost use Rattle.il_core.specs.Statement.{statement_of};
ghost use Rattle.il_core.specs.Tree.{tree_of};
ghost use Rattle.il_types.specs.Unknown.{unknown_name, unknown_bound, unknown_bounds, unknown_use, unknown_in, unknown};

use crate::setting::Setting;
use il_core::{Bound, Form, Name, RawExpr, TypeUse};

/// A name that has no declaration in force where it is used, or `None` where it has one. One or two look-ups.
pub fn unknown_name(setting: &Setting<'_>, name: &Name) -> Option<Name>
    ensures { result ≡ unknown_name setting.now name.now }
{
    match setting.in_force(name) {
        Some(_) => None,
        None => Some(*name),
    }
}

fn unknown_bound(setting: &Setting<'_>, bound: &Bound) -> Option<Name>
    ensures { result ≡ unknown_bound setting.now bound.now }
{
    match bound {
        Bound::Number(_) => None,
        Bound::Constant(name) => unknown_name(setting, name),
    }
}

fn unknown_bounds(setting: &Setting<'_>, least: &Bound, greatest: &Bound) -> Option<Name>
    ensures { result ≡ unknown_bounds setting.now least.now greatest.now }
{
    match unknown_bound(setting, least) {
        Some(name) => Some(name),
        None => unknown_bound(setting, greatest),
    }
}

fn unknown_use(setting: &Setting<'_>, used: &TypeUse) -> Option<Name>
    ensures { result ≡ unknown_use setting.now used.now }
{
    match used {
        TypeUse::Bool => None,
        TypeUse::Named(name) => unknown_name(setting, name),
        TypeUse::Range(least, greatest) => unknown_bounds(setting, least, greatest),
        TypeUse::Wrap(least, greatest) => unknown_bounds(setting, least, greatest),
    }
}

/// The first name of an expression that has no declaration in force where it is used, from left to right; `None` where each has one.
/// Linear in the expression but for the look-ups by name.
pub fn unknown_in(setting: &Setting<'_>, expr: &RawExpr) -> Option<Name>
    ensures { result ≡ unknown_in setting.now (tree_of expr.now) }
{
    match expr {
        RawExpr::Num(_) => None,
        RawExpr::Ident(name) => unknown_name(setting, name),
        RawExpr::Old(name) => unknown_name(setting, name),
        RawExpr::Truth(_) => None,
        RawExpr::Neg(inner) => unknown_in(setting, inner),
        RawExpr::Not(inner) => unknown_in(setting, inner),
        RawExpr::Binary(_, left, right) => match unknown_in(setting, left) {
            Some(name) => Some(name),
            None => unknown_in(setting, right),
        },
    }
}

/// The first name of a statement that is unknown.
pub(crate) fn unknown(setting: &Setting<'_>, form: &Form) -> Option<Name>
    ensures { result ≡ unknown setting.now (statement_of form.now) }
{
    match form {
        Form::RangeType(_, least, greatest) => unknown_bounds(setting, least, greatest),
        Form::WrapType(_, least, greatest) => unknown_bounds(setting, least, greatest),
        Form::Variable(_, _, used) => unknown_use(setting, used),
        Form::Pre(expr) => unknown_in(setting, expr),
        Form::Post(expr) => unknown_in(setting, expr),
        Form::Assign(name, expr) => match unknown_name(setting, name) {
            Some(name) => Some(name),
            None => unknown_in(setting, expr),
        },
        Form::If(expr) => unknown_in(setting, expr),
        Form::ExitWhen(expr) => unknown_in(setting, expr),
        Form::Assert(expr) => unknown_in(setting, expr),
        _ => None,
    }
}
