ghost use Rattle.std.specs.Prelude.{◌≡◌};
ghost use Rattle.il_core.specs.Statement.{statement_of};
ghost use Rattle.il_syntax.specs.Expression.{kinds};
ghost use Rattle.std.specs.Option.{ok_or};
ghost use Rattle.il_syntax.specs.declared.expression.ExpressionEnd.TheVariants as end;
ghost use Rattle.il_syntax.specs.FormReading.{alone, name_at, name_of, keyed, exit_of, assignment, call_with, reading, Answers};

use crate::expression::{ExpressionEnd, expression};
use crate::form_call::arguments_of_call;
use crate::form_declaration::{constant, type_definition, variable};
use crate::form_token::{is_becomes, is_end, is_when, name_at, name_of};
use il_core::{Form, Keyword, Mode, Name, Token, TokenKind};
use std::alloc::Global;

/// `EXIT`, or `EXIT WHEN` and an expression.
fn exit(alloc: Global, tokens: &[Token]) -> Result<Form, ExpressionEnd>
    ensures { Answers (exit_of (kinds tokens.now)) result }
{
    let Some((first, rest)) = tokens.split_first() else {
        return Ok(Form::Exit);
    };
    if is_when(&first.kind) {
        Ok(Form::ExitWhen(expression(alloc, rest)?))
    } else {
        Err(ExpressionEnd::NoForm)
    }
}

/// The assignment to a name.
fn assignment(alloc: Global, name: Name, tokens: &[Token]) -> Result<Form, ExpressionEnd>
    ensures { Answers (assignment name (kinds tokens.now)) result }
{
    let Some((first, rest)) = tokens.split_first() else {
        return Err(ExpressionEnd::NoForm);
    };
    if is_becomes(&first.kind) {
        Ok(Form::Assign(name, expression(alloc, rest)?))
    } else {
        Err(ExpressionEnd::NoForm)
    }
}

/// The call of the name at the front, with the arguments behind it.
fn call(alloc: Global, tokens: &[Token]) -> Result<Form, ExpressionEnd>
    ensures { Answers (call_with (name_at (kinds tokens.now))) result }
{
    let Some((name, rest)) = name_at(tokens) else {
        return Err(ExpressionEnd::NoForm);
    };
    Ok(Form::Call(name, arguments_of_call(alloc, rest)?))
}

/// The form where there is no further token.
fn alone(form: Form, tokens: &[Token]) -> Result<Form, ExpressionEnd>
    ensures { Answers (alone (statement_of form) (kinds tokens.now)) result }
{
    if is_end(tokens) {
        Ok(form)
    } else {
        Err(ExpressionEnd::NoForm)
    }
}

/// The name that all of the tokens are.
fn lone_name(tokens: &[Token]) -> Result<Name, ExpressionEnd>
    ensures { result ≡ ok_or (name_of (kinds tokens.now)) end.NoForm }
{
    match name_of(tokens) {
        Some(name) => Ok(name),
        None => Err(ExpressionEnd::NoForm),
    }
}

/// The form that a keyword begins.
fn keyed(alloc: Global, keyword: Keyword, tokens: &[Token]) -> Result<Form, ExpressionEnd>
    ensures { Answers (keyed keyword (kinds tokens.now)) result }
{
    match keyword {
        Keyword::KwTitle => Ok(Form::Title(lone_name(tokens)?)),
        Keyword::KwConst => constant(tokens),
        Keyword::KwType => type_definition(alloc, tokens),
        Keyword::KwProc => Ok(Form::Proc(lone_name(tokens)?)),
        Keyword::KwIn => variable(Mode::Input, tokens),
        Keyword::KwInout => variable(Mode::InOut, tokens),
        Keyword::KwOut => variable(Mode::Output, tokens),
        Keyword::KwLocal => variable(Mode::Local, tokens),
        Keyword::KwPre => Ok(Form::Pre(expression(alloc, tokens)?)),
        Keyword::KwPost => Ok(Form::Post(expression(alloc, tokens)?)),
        Keyword::KwIf => Ok(Form::If(expression(alloc, tokens)?)),
        Keyword::KwElse => alone(Form::Else, tokens),
        Keyword::KwEndif => alone(Form::EndIf, tokens),
        Keyword::KwLoop => alone(Form::Loop, tokens),
        Keyword::KwEndloop => alone(Form::EndLoop, tokens),
        Keyword::KwExit => exit(alloc, tokens),
        Keyword::KwLabel => Ok(Form::Label(lone_name(tokens)?)),
        Keyword::KwGoto => Ok(Form::Goto(lone_name(tokens)?)),
        Keyword::KwCall => call(alloc, tokens),
        Keyword::KwSkip => alone(Form::Skip, tokens),
        Keyword::KwAssert => Ok(Form::Assert(expression(alloc, tokens)?)),
        Keyword::KwReturn => alone(Form::Return, tokens),
        Keyword::KwEndproc => alone(Form::EndProc, tokens),
        Keyword::KwFinish => alone(Form::Finish, tokens),
        _ => Err(ExpressionEnd::NoForm),
    }
}

/// The form of the statement that the tokens spell, all of them but its `;`.
pub(crate) fn form(alloc: Global, tokens: &[Token]) -> Result<Form, ExpressionEnd>
    ensures { Answers (reading (kinds tokens.now)) result }
{
    let Some((first, rest)) = tokens.split_first() else {
        return Err(ExpressionEnd::NoForm);
    };
    match first.kind {
        TokenKind::Key(keyword) => keyed(alloc, keyword, rest),
        TokenKind::Ident(name) => assignment(alloc, name, rest),
        _ => Err(ExpressionEnd::NoForm),
    }
}
