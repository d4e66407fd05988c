ghost use Rattle.std.specs.Prelude.{◌≡◌, ◌<◌, length, IfSome};
ghost use Rattle.il_syntax.specs.Expression.{kinds};
ghost use Rattle.il_syntax.specs.Arguments.{ListedGive, ArgumentsGive};
ghost use Rattle.il_syntax.specs.ArgumentReading.{argument_len, IsCut};

use crate::expression::{ExpressionEnd, expression};
use crate::form_token::{is_comma, is_left, is_right};
use il_core::{List, RawExpr, Token};
use std::alloc::Global;

/// The number of tokens before the first comma, or of all where there is none.
fn argument_len(tokens: &[Token]) -> usize
    ensures { result ≡ argument_len tokens.now }
{
    for (i, token) in tokens.iter().enumerate() {
        if is_comma(&token.kind) {
            return i;
        }
    }
    tokens.len()
}

/// The tokens before the first comma, and those behind it, where there is one.
fn first_argument(tokens: &[Token]) -> (&[Token], Option<&[Token]>)
    ensures cut { IsCut (kinds tokens.now) (kinds result.0.now) result.1 }
    ensures shorter { IfSome result.1 (λ behind. length behind.now < length tokens.now) }
{
    let (front, rest) = tokens.split_at(argument_len(tokens));
    match rest.split_first() {
        None => (front, None),
        Some((_, behind)) => (front, Some(behind)),
    }
}

/// The expressions that stand with commas between them in all of the tokens.
fn listed(alloc: Global, tokens: &[Token]) -> Result<List<RawExpr>, ExpressionEnd>
    ensures { ListedGive (kinds tokens.now) result }
{
    let mut arguments = List::new(alloc);
    let mut rest = tokens;
    loop {
        let (front, behind) = first_argument(rest);
        match expression(alloc, front) {
            Ok(argument) => arguments.push(argument)?,
            Err(end) => return Err(end),
        }
        match behind {
            None => return Ok(arguments),
            Some(after) => rest = after,
        }
    }
}

/// The arguments that stand behind the name in a CALL, in all of the tokens: none where there are no tokens, else at least one, in
/// parentheses with commas between them, each an expression with a depth of at most 200 of its own. `NoForm` comes exactly where
/// the tokens are no arguments, `NoMemory` where memory runs out. Linear in the tokens.
pub(crate) fn arguments_of_call(
    alloc: Global,
    tokens: &[Token],
) -> Result<List<RawExpr>, ExpressionEnd>
    ensures { ArgumentsGive (kinds tokens.now) result }
{
    let Some((first, behind)) = tokens.split_first() else {
        return Ok(List::new(alloc));
    };
    let Some((last, inner)) = behind.split_last() else {
        return Err(ExpressionEnd::NoForm);
    };
    if is_left(&first.kind) && is_right(&last.kind) {
        listed(alloc, inner)
    } else {
        Err(ExpressionEnd::NoForm)
    }
}
