ghost use Rattle.std.specs.Prelude.{◌≡◌, ◌<◌, length, IfOk};
ghost use Rattle.il_core.specs.Expression.{expression_of};
ghost use Rattle.il_core.specs.Statement.{statement_of};
ghost use Rattle.il_core.specs.Tree.{tree_of};
ghost use Rattle.il_types.specs.Built.{assigned_place, read, built_value, built_name, built_recalled, built_copy, built};

use il_core::{Expr, Form, Name, NoMemory, RawExpr};
use il_types::{Setting, declaration, is_flag};
use std::alloc::Global;

/// A place as an expression.
fn read(is_flag: bool, place: usize) -> Expr
    ensures { expression_of result ≡ read is_flag place }
{
    if is_flag {
        Expr::Flag(place)
    } else {
        Expr::Var(place)
    }
}

/// What a statement declares, as a value.
fn built_value(setting: &Setting<'_>, spot: (usize, usize), form: &Form) -> Expr
    requires within { spot.0 < length setting.now.stmts }
    ensures { expression_of result ≡ built_value setting.now spot (statement_of form.now) }
{
    match form {
        Form::Const(_, value) => Expr::Num(i128::from(*value)),
        Form::EnumType(_, _) => Expr::Num(spot.1.saturating_sub(1) as i128),
        Form::Variable(_, _, used) => read(
            is_flag(&setting.at_statement(spot.0), used),
            setting.counts_before(spot.0).variables,
        ),
        _ => Expr::Num(0),
    }
}

/// A name as a value.
fn built_name(setting: &Setting<'_>, name: &Name) -> Expr
    ensures { expression_of result ≡ built_name setting.now name.now }
{
    match declaration(setting, name) {
        None => Expr::Num(0),
        Some((spot, form)) => built_value(setting, spot, form),
    }
}

/// What a statement declares, behind OLD.
fn built_recalled(setting: &Setting<'_>, spot: (usize, usize), form: &Form) -> Expr
    requires within { spot.0 < length setting.now.stmts }
    requires inside { setting.now.at < length setting.now.stmts }
    ensures { expression_of result ≡ built_recalled setting.now spot (statement_of form.now) }
{
    match form {
        Form::Variable(_, _, used) => {
            let variables = setting.counts_before(setting.at()).variables;
            let copies = setting.counts_before(spot.0).copies;
            let place = variables + copies;
            read(is_flag(&setting.at_statement(spot.0), used), place)
        }
        _ => Expr::Num(0),
    }
}

/// A name behind OLD.
fn built_copy(setting: &Setting<'_>, name: &Name) -> Expr
    requires { setting.now.at < length setting.now.stmts }
    ensures { expression_of result ≡ built_copy setting.now name.now }
{
    match declaration(setting, name) {
        None => Expr::Num(0),
        Some((spot, form)) => built_recalled(setting, spot, form),
    }
}

/// The checked expression that a written one stands for where it is used; 0 stands where a name has no value. An error comes where
/// memory runs out. The time is linear in the expression but for the look-ups by name.
pub fn build_expression(
    alloc: Global,
    setting: &Setting<'_>,
    raw: &RawExpr,
) -> Result<Expr, NoMemory>
    requires { setting.now.at < length setting.now.stmts }
    ensures { IfOk result (λ e. expression_of e ≡ built setting.now (tree_of raw.now)) }
{
    match raw {
        RawExpr::Num(value) => Ok(Expr::Num(i128::from(*value))),
        RawExpr::Ident(name) => Ok(built_name(setting, name)),
        RawExpr::Old(name) => Ok(built_copy(setting, name)),
        RawExpr::Truth(value) => Ok(Expr::Truth(*value)),
        RawExpr::Neg(inner) => {
            let inner = build_expression(alloc, setting, inner)?;
            Ok(Expr::Neg(Box::new(alloc, inner)?))
        }
        RawExpr::Not(inner) => {
            let inner = build_expression(alloc, setting, inner)?;
            Ok(Expr::Not(Box::new(alloc, inner)?))
        }
        RawExpr::Binary(op, left, right) => {
            let left = build_expression(alloc, setting, left)?;
            let right = build_expression(alloc, setting, right)?;
            Ok(Expr::Binary(*op, Box::new(alloc, left)?, Box::new(alloc, right)?))
        }
    }
}

/// The number of the place of the variable that a name stands for where it is used; 0 where the name has no declaration in force. One
/// or two look-ups by name.
pub fn place_of_name(setting: &Setting<'_>, name: &Name) -> usize
    ensures { result ≡ assigned_place setting.now name.now }
{
    match declaration(setting, name) {
        None => 0,
        Some((spot, _)) => setting.counts_before(spot.0).variables,
    }
}
