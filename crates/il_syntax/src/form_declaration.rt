ghost use Rattle.std.specs.Prelude.{◌≡◌};
ghost use Rattle.std.specs.Option.{option_map};
ghost use Rattle.il_core.specs.Statement.{statement_of, enum_type};
ghost use Rattle.il_syntax.specs.Expression.{kinds};
ghost use Rattle.il_syntax.specs.FormReading.{constant_of, definition, type_definition, variable_of, reading_of, range_type_of, wrap_type_of, range_of, names_of, Answers};

use crate::expression::ExpressionEnd;
use crate::form_enumeration::names_of;
use crate::form_range::{range_of, type_of, value_of};
use crate::form_token::{is_left, is_wrap, name_before_colon, name_before_equal};
use il_core::{Form, Mode, Name, Token};
use std::alloc::Global;

/// The constant that stands behind CONST.
pub(crate) fn constant(tokens: &[Token]) -> Result<Form, ExpressionEnd>
    ensures { Answers (reading_of (constant_of (kinds tokens.now))) result }
{
    let Some((name, rest)) = name_before_equal(tokens) else {
        return Err(ExpressionEnd::NoForm);
    };
    match value_of(rest) {
        Some(value) => Ok(Form::Const(name, value)),
        None => Err(ExpressionEnd::NoForm),
    }
}

/// The variable that stands behind its mode.
pub(crate) fn variable(mode: Mode, tokens: &[Token]) -> Result<Form, ExpressionEnd>
    ensures { Answers (reading_of (variable_of mode (kinds tokens.now))) result }
{
    let Some((name, rest)) = name_before_colon(tokens) else {
        return Err(ExpressionEnd::NoForm);
    };
    match type_of(rest) {
        Some(declared) => Ok(Form::Variable(mode, name, declared)),
        None => Err(ExpressionEnd::NoForm),
    }
}

fn range_type(name: Name, tokens: &[Token]) -> Result<Form, ExpressionEnd>
    ensures { Answers (reading_of (option_map (range_type_of name) (range_of (kinds tokens.now)))) result }
{
    match range_of(tokens) {
        Some((least, greatest)) => Ok(Form::RangeType(name, least, greatest)),
        None => Err(ExpressionEnd::NoForm),
    }
}

fn wrap_type(name: Name, tokens: &[Token]) -> Result<Form, ExpressionEnd>
    ensures { Answers (reading_of (option_map (wrap_type_of name) (range_of (kinds tokens.now)))) result }
{
    match range_of(tokens) {
        Some((least, greatest)) => Ok(Form::WrapType(name, least, greatest)),
        None => Err(ExpressionEnd::NoForm),
    }
}

fn enum_type(alloc: Global, name: Name, tokens: &[Token]) -> Result<Form, ExpressionEnd>
    ensures { Answers (reading_of (option_map (λ values. enum_type name values) (names_of (kinds tokens.now)))) result }
{
    match names_of(alloc, tokens) {
        Ok(Some(values)) => Ok(Form::EnumType(name, values)),
        Ok(None) => Err(ExpressionEnd::NoForm),
        Err(_) => Err(ExpressionEnd::NoMemory),
    }
}

/// What the name of a type stands for, behind its `=`.
fn definition(alloc: Global, name: Name, tokens: &[Token]) -> Result<Form, ExpressionEnd>
    ensures { Answers (reading_of (definition name (kinds tokens.now))) result }
{
    let Some((first, rest)) = tokens.split_first() else {
        return Err(ExpressionEnd::NoForm);
    };
    if is_left(&first.kind) {
        enum_type(alloc, name, rest)
    } else if is_wrap(&first.kind) {
        wrap_type(name, rest)
    } else {
        range_type(name, tokens)
    }
}

/// The type that stands behind TYPE.
pub(crate) fn type_definition(alloc: Global, tokens: &[Token]) -> Result<Form, ExpressionEnd>
    ensures { Answers (reading_of (type_definition (kinds tokens.now))) result }
{
    let Some((name, rest)) = name_before_equal(tokens) else {
        return Err(ExpressionEnd::NoForm);
    };
    definition(alloc, name, rest)
}
