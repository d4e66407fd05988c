ghost use Rattle.std.specs.Prelude.{◌≡◌};
ghost use Rattle.il_core.specs.Statement.{statement_of};
ghost use Rattle.il_core.specs.Tree.{tree_of};
ghost use Rattle.il_types.specs.Typing.{constant_in, bound_value, type_in, kind_of_use, variable_in, kind_of_variable, value_in, kind_of_value, is_whole, is_truth, is_enumeration, are_of_one, are_whole, are_truth, is_equality, are_comparable, kind_if, kind_of_two, kind_of, are_bounds, is_type, may_hold, is_condition, is_typed};

use crate::kind::Kind;
use crate::setting::{Setting, declaration};
use il_core::{BinOp, Bound, Form, Name, RawExpr, Relation, TypeUse};

fn constant_in(form: &Form) -> Option<i64>
    ensures { result ≡ constant_in (statement_of form.now) }
{
    match form {
        Form::Const(_, value) => Some(*value),
        _ => None,
    }
}

/// The value of an end of a range; `None` where its name is no constant's.
pub(crate) fn bound_value(setting: &Setting<'_>, bound: &Bound) -> Option<i64>
    ensures { result ≡ bound_value setting.now bound.now }
{
    match bound {
        Bound::Number(value) => Some(*value),
        Bound::Constant(name) => match declaration(setting, name) {
            None => None,
            Some((_, form)) => constant_in(form),
        },
    }
}

fn type_in(spot: (usize, usize), form: &Form) -> Option<Kind>
    ensures { result ≡ type_in spot (statement_of form.now) }
{
    match form {
        Form::RangeType(_, _, _) => Some(Kind::Whole),
        Form::WrapType(_, _, _) => Some(Kind::Whole),
        Form::EnumType(_, _) => if spot.1 == 0 {
            Some(Kind::Enumeration(spot.0))
        } else {
            None
        },
        _ => None,
    }
}

/// The kind of the values of a type, where the type is used; `None` where its name is no type's. One or two look-ups.
pub fn kind_of_use(setting: &Setting<'_>, used: &TypeUse) -> Option<Kind>
    ensures { result ≡ kind_of_use setting.now used.now }
{
    match used {
        TypeUse::Bool => Some(Kind::Truth),
        TypeUse::Named(name) => match declaration(setting, name) {
            None => None,
            Some((spot, form)) => type_in(spot, form),
        },
        TypeUse::Range(_, _) => Some(Kind::Whole),
        TypeUse::Wrap(_, _) => Some(Kind::Whole),
    }
}

fn variable_in(setting: &Setting<'_>, spot: (usize, usize), form: &Form) -> Option<Kind>
    ensures { result ≡ variable_in setting.now spot (statement_of form.now) }
{
    match form {
        Form::Variable(_, _, used) => kind_of_use(&setting.at_statement(spot.0), used),
        _ => None,
    }
}

/// The kind of the variable that a name stands for; `None` where it stands for none, or its type is none. A few look-ups.
pub fn kind_of_variable(setting: &Setting<'_>, name: &Name) -> Option<Kind>
    ensures { result ≡ kind_of_variable setting.now name.now }
{
    match declaration(setting, name) {
        None => None,
        Some((spot, form)) => variable_in(setting, spot, form),
    }
}

fn value_in(setting: &Setting<'_>, spot: (usize, usize), form: &Form) -> Option<Kind>
    ensures { result ≡ value_in setting.now spot (statement_of form.now) }
{
    match form {
        Form::Const(_, _) => Some(Kind::Whole),
        Form::EnumType(_, _) => if spot.1 == 0 {
            None
        } else {
            Some(Kind::Enumeration(spot.0))
        },
        Form::Variable(_, _, used) => kind_of_use(&setting.at_statement(spot.0), used),
        _ => None,
    }
}

/// The kind of the value that a name stands for.
fn kind_of_value(setting: &Setting<'_>, name: &Name) -> Option<Kind>
    ensures { result ≡ kind_of_value setting.now name.now }
{
    match declaration(setting, name) {
        None => None,
        Some((spot, form)) => value_in(setting, spot, form),
    }
}

fn is_whole(kind: Option<Kind>) -> bool
    ensures { result ≡ is_whole kind }
{
    match kind {
        Some(Kind::Whole) => true,
        _ => false,
    }
}

pub(crate) fn is_truth(kind: Option<Kind>) -> bool
    ensures { result ≡ is_truth kind }
{
    match kind {
        Some(Kind::Truth) => true,
        _ => false,
    }
}

fn is_enumeration(at: usize, kind: Option<Kind>) -> bool
    ensures { result ≡ is_enumeration at kind }
{
    match kind {
        Some(Kind::Enumeration(other)) => at == other,
        _ => false,
    }
}

fn are_of_one(left: Option<Kind>, right: Option<Kind>) -> bool
    ensures { result ≡ are_of_one left right }
{
    match left {
        Some(Kind::Enumeration(at)) => is_enumeration(at, right),
        _ => false,
    }
}

fn are_whole(left: Option<Kind>, right: Option<Kind>) -> bool
    ensures { result ≡ are_whole left right }
{
    is_whole(left) && is_whole(right)
}

fn are_truth(left: Option<Kind>, right: Option<Kind>) -> bool
    ensures { result ≡ are_truth left right }
{
    is_truth(left) && is_truth(right)
}

fn is_equality(relation: Relation) -> bool
    ensures { result ≡ is_equality relation }
{
    match relation {
        Relation::Eq => true,
        Relation::Ne => true,
        _ => false,
    }
}

fn are_comparable(relation: Relation, left: Option<Kind>, right: Option<Kind>) -> bool
    ensures { result ≡ are_comparable relation left right }
{
    are_whole(left, right) || (is_equality(relation) && are_of_one(left, right))
}

fn kind_if(kept: bool, kind: Kind) -> Option<Kind>
    ensures { result ≡ kind_if kept kind }
{
    if kept { Some(kind) } else { None }
}

fn kind_of_two(op: BinOp, left: Option<Kind>, right: Option<Kind>) -> Option<Kind>
    ensures { result ≡ kind_of_two op left right }
{
    match op {
        BinOp::Compare(relation) => kind_if(are_comparable(relation, left, right), Kind::Truth),
        BinOp::And => kind_if(are_truth(left, right), Kind::Truth),
        BinOp::Or => kind_if(are_truth(left, right), Kind::Truth),
        _ => kind_if(are_whole(left, right), Kind::Whole),
    }
}

/// The kind of an expression; `None` where it breaks the typing rules. Linear in the expression but for the look-ups by name.
pub fn kind_of(setting: &Setting<'_>, expr: &RawExpr) -> Option<Kind>
    ensures { result ≡ kind_of setting.now (tree_of expr.now) }
{
    match expr {
        RawExpr::Num(_) => Some(Kind::Whole),
        RawExpr::Ident(name) => kind_of_value(setting, name),
        RawExpr::Old(name) => kind_of_variable(setting, name),
        RawExpr::Truth(_) => Some(Kind::Truth),
        RawExpr::Neg(inner) => kind_if(is_whole(kind_of(setting, inner)), Kind::Whole),
        RawExpr::Not(inner) => kind_if(is_truth(kind_of(setting, inner)), Kind::Truth),
        RawExpr::Binary(op, left, right) => kind_of_two(
            *op,
            kind_of(setting, left),
            kind_of(setting, right),
        ),
    }
}

fn are_bounds(setting: &Setting<'_>, least: &Bound, greatest: &Bound) -> bool
    ensures { result ≡ are_bounds setting.now least.now greatest.now }
{
    bound_value(setting, least).is_some() && bound_value(setting, greatest).is_some()
}

fn is_type(setting: &Setting<'_>, used: &TypeUse) -> bool
    ensures { result ≡ is_type setting.now used.now }
{
    match used {
        TypeUse::Range(least, greatest) => are_bounds(setting, least, greatest),
        TypeUse::Wrap(least, greatest) => are_bounds(setting, least, greatest),
        _ => kind_of_use(setting, used).is_some(),
    }
}

/// Whether a variable of one kind holds a value of the other: both are whole, both truth values, or both of one enumeration.
pub fn may_hold(variable: Option<Kind>, value: Option<Kind>) -> bool
    ensures { result ≡ may_hold variable value }
{
    are_whole(variable, value) || (are_truth(variable, value) || are_of_one(variable, value))
}

fn is_condition(setting: &Setting<'_>, expr: &RawExpr) -> bool
    ensures { result ≡ is_condition setting.now (tree_of expr.now) }
{
    is_truth(kind_of(setting, expr))
}

/// Whether a statement keeps the rules of types.
pub(crate) fn is_typed(setting: &Setting<'_>, form: &Form) -> bool
    ensures { result ≡ is_typed setting.now (statement_of form.now) }
{
    match form {
        Form::RangeType(_, least, greatest) => are_bounds(setting, least, greatest),
        Form::WrapType(_, least, greatest) => are_bounds(setting, least, greatest),
        Form::Variable(_, _, used) => is_type(setting, used),
        Form::Pre(expr) => is_condition(setting, expr),
        Form::Post(expr) => is_condition(setting, expr),
        Form::Assign(name, expr) => may_hold(
            kind_of_variable(setting, name),
            kind_of(setting, expr),
        ),
        Form::If(expr) => is_condition(setting, expr),
        Form::ExitWhen(expr) => is_condition(setting, expr),
        Form::Assert(expr) => is_condition(setting, expr),
        _ => true,
    }
}
