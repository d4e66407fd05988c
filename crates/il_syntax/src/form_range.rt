ghost use Rattle.std.specs.Prelude.{◌≡◌};
ghost use Rattle.std.specs.Option.{option_map};
ghost use Rattle.il_syntax.specs.Expression.{kinds};
ghost use Rattle.il_syntax.specs.FormReading.{positive, negative, number_at, value_at, value_of, bound_at, range_of, word_type, type_of, range_use, wrap_of};

use crate::form_token::{
    behind_dots, is_bool, is_end, is_minus, is_wrap, name_at, name_in, number_in,
};
use il_core::{Bound, Token, TokenKind, TypeUse};

/// A number without sign as a value; `None` above the greatest value.
fn positive(number: u64) -> Option<i64>
    ensures { result ≡ positive number }
{
    i64::try_from(number).ok()
}

/// A number behind a minus as a value; `None` below the least value.
fn negative(number: u64) -> Option<i64>
    ensures { result ≡ negative number }
{
    0i64.checked_sub_unsigned(number)
}

/// A number without sign at the front, and the tokens behind it.
fn positive_at(tokens: &[Token]) -> Option<(i64, &[Token])>
    ensures { option_map (λ x. (x.0, kinds x.1.now)) result ≡ number_at positive (kinds tokens.now) }
{
    let (first, rest) = tokens.split_first()?;
    let number = number_in(&first.kind)?;
    let value = positive(number)?;
    Some((value, rest))
}

/// A number behind a minus at the front, and the tokens behind it.
fn negative_at(tokens: &[Token]) -> Option<(i64, &[Token])>
    ensures { option_map (λ x. (x.0, kinds x.1.now)) result ≡ number_at negative (kinds tokens.now) }
{
    let (first, rest) = tokens.split_first()?;
    let number = number_in(&first.kind)?;
    let value = negative(number)?;
    Some((value, rest))
}

/// A value at the front, and the tokens behind it.
fn value_at(tokens: &[Token]) -> Option<(i64, &[Token])>
    ensures { option_map (λ x. (x.0, kinds x.1.now)) result ≡ value_at (kinds tokens.now) }
{
    let (first, rest) = tokens.split_first()?;
    if is_minus(&first.kind) {
        negative_at(rest)
    } else {
        positive_at(tokens)
    }
}

/// The value that all of the tokens are.
pub(crate) fn value_of(tokens: &[Token]) -> Option<i64>
    ensures { result ≡ value_of (kinds tokens.now) }
{
    let (value, rest) = value_at(tokens)?;
    if is_end(rest) { Some(value) } else { None }
}

/// A bound at the front, and the tokens behind it.
fn bound_at(tokens: &[Token]) -> Option<(Bound, &[Token])>
    ensures { option_map (λ x. (x.0, kinds x.1.now)) result ≡ bound_at (kinds tokens.now) }
{
    if let Some((name, rest)) = name_at(tokens) {
        return Some((Bound::Constant(name), rest));
    }
    let (value, rest) = value_at(tokens)?;
    Some((Bound::Number(value), rest))
}

/// The range that all of the tokens are, least value first.
pub(crate) fn range_of(tokens: &[Token]) -> Option<(Bound, Bound)>
    ensures { result ≡ range_of (kinds tokens.now) }
{
    let Some((least, rest)) = bound_at(tokens) else {
        return None;
    };
    let after = behind_dots(rest)?;
    let Some((greatest, end)) = bound_at(after) else {
        return None;
    };
    if is_end(end) {
        Some((least, greatest))
    } else {
        None
    }
}

/// The type that one token is: BOOL or a name.
fn word_type(word: &TokenKind) -> Option<TypeUse>
    ensures { result ≡ word_type word.now }
{
    if is_bool(word) {
        return Some(TypeUse::Bool);
    }
    match name_in(word) {
        Some(name) => Some(TypeUse::Named(name)),
        None => None,
    }
}

/// The range that all of the tokens are, as a type.
fn range_type(tokens: &[Token]) -> Option<TypeUse>
    ensures { result ≡ option_map range_use (range_of (kinds tokens.now)) }
{
    match range_of(tokens) {
        Some((least, greatest)) => Some(TypeUse::Range(least, greatest)),
        None => None,
    }
}

/// The range that all of the tokens are, as a wrapping type.
fn wrap_type(tokens: &[Token]) -> Option<TypeUse>
    ensures { result ≡ option_map wrap_of (range_of (kinds tokens.now)) }
{
    match range_of(tokens) {
        Some((least, greatest)) => Some(TypeUse::Wrap(least, greatest)),
        None => None,
    }
}

/// The type that all of the tokens are.
pub(crate) fn type_of(tokens: &[Token]) -> Option<TypeUse>
    ensures { result ≡ type_of (kinds tokens.now) }
{
    let (first, rest) = tokens.split_first()?;
    if is_end(rest) {
        word_type(&first.kind)
    } else if is_wrap(&first.kind) {
        wrap_type(rest)
    } else {
        range_type(tokens)
    }
}
