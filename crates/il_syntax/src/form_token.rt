ghost use Rattle.std.specs.Prelude.{◌≡◌};
ghost use Rattle.std.specs.Option.{option_map};
ghost use Rattle.il_syntax.specs.Expression.{kinds};
ghost use Rattle.il_syntax.specs.FormReading.{name_in, number_in, is_equal, is_colon, is_becomes, is_dots, is_minus, is_comma, is_left, is_right, is_bool, is_wrap, is_when, name_at, name_before, name_of, behind, is_end};

use il_core::{Keyword, Name, Symbol, Token, TokenKind};

/// The name that a token is.
pub(crate) fn name_in(kind: &TokenKind) -> Option<Name>
    ensures { result ≡ name_in kind.now }
{
    match kind {
        TokenKind::Ident(name) => Some(*name),
        _ => None,
    }
}

/// The number that a token is.
pub(crate) fn number_in(kind: &TokenKind) -> Option<u64>
    ensures { result ≡ number_in kind.now }
{
    match kind {
        TokenKind::Number(number) => Some(*number),
        _ => None,
    }
}

pub(crate) fn is_equal(kind: &TokenKind) -> bool
    ensures { result ≡ is_equal kind.now }
{
    matches!(kind, TokenKind::Symbol(Symbol::Equal))
}

pub(crate) fn is_colon(kind: &TokenKind) -> bool
    ensures { result ≡ is_colon kind.now }
{
    matches!(kind, TokenKind::Symbol(Symbol::Colon))
}

pub(crate) fn is_becomes(kind: &TokenKind) -> bool
    ensures { result ≡ is_becomes kind.now }
{
    matches!(kind, TokenKind::Symbol(Symbol::Becomes))
}

pub(crate) fn is_dots(kind: &TokenKind) -> bool
    ensures { result ≡ is_dots kind.now }
{
    matches!(kind, TokenKind::Symbol(Symbol::Dots))
}

pub(crate) fn is_minus(kind: &TokenKind) -> bool
    ensures { result ≡ is_minus kind.now }
{
    matches!(kind, TokenKind::Symbol(Symbol::Minus))
}

pub(crate) fn is_comma(kind: &TokenKind) -> bool
    ensures { result ≡ is_comma kind.now }
{
    matches!(kind, TokenKind::Symbol(Symbol::Comma))
}

pub(crate) fn is_left(kind: &TokenKind) -> bool
    ensures { result ≡ is_left kind.now }
{
    matches!(kind, TokenKind::Symbol(Symbol::LeftParen))
}

pub(crate) fn is_right(kind: &TokenKind) -> bool
    ensures { result ≡ is_right kind.now }
{
    matches!(kind, TokenKind::Symbol(Symbol::RightParen))
}

pub(crate) fn is_bool(kind: &TokenKind) -> bool
    ensures { result ≡ is_bool kind.now }
{
    matches!(kind, TokenKind::Key(Keyword::KwBool))
}

pub(crate) fn is_wrap(kind: &TokenKind) -> bool
    ensures { result ≡ is_wrap kind.now }
{
    matches!(kind, TokenKind::Key(Keyword::KwWrap))
}

pub(crate) fn is_when(kind: &TokenKind) -> bool
    ensures { result ≡ is_when kind.now }
{
    matches!(kind, TokenKind::Key(Keyword::KwWhen))
}

/// Whether there is no token.
pub(crate) fn is_end(tokens: &[Token]) -> bool
    ensures { result ≡ is_end (kinds tokens.now) }
{
    match tokens {
        [] => true,
        _ => false,
    }
}

/// A name at the front, and the tokens behind it.
pub(crate) fn name_at(tokens: &[Token]) -> Option<(Name, &[Token])>
    ensures { option_map (λ x. (x.0, kinds x.1.now)) result ≡ name_at (kinds tokens.now) }
{
    let Some((first, rest)) = tokens.split_first() else {
        return None;
    };
    match name_in(&first.kind) {
        Some(name) => Some((name, rest)),
        None => None,
    }
}

/// The name that all of the tokens are.
pub(crate) fn name_of(tokens: &[Token]) -> Option<Name>
    ensures { result ≡ name_of (kinds tokens.now) }
{
    let Some((name, rest)) = name_at(tokens) else {
        return None;
    };
    if is_end(rest) { Some(name) } else { None }
}

/// A name and `=` at the front, and the tokens behind them.
pub(crate) fn name_before_equal(tokens: &[Token]) -> Option<(Name, &[Token])>
    ensures { option_map (λ x. (x.0, kinds x.1.now)) result ≡ name_before is_equal (kinds tokens.now) }
{
    let Some((name, rest)) = name_at(tokens) else {
        return None;
    };
    let Some((first, after)) = rest.split_first() else {
        return None;
    };
    if is_equal(&first.kind) {
        Some((name, after))
    } else {
        None
    }
}

/// A name and `:` at the front, and the tokens behind them.
pub(crate) fn name_before_colon(tokens: &[Token]) -> Option<(Name, &[Token])>
    ensures { option_map (λ x. (x.0, kinds x.1.now)) result ≡ name_before is_colon (kinds tokens.now) }
{
    let Some((name, rest)) = name_at(tokens) else {
        return None;
    };
    let Some((first, after)) = rest.split_first() else {
        return None;
    };
    if is_colon(&first.kind) {
        Some((name, after))
    } else {
        None
    }
}

/// The tokens behind `..` at the front.
pub(crate) fn behind_dots(tokens: &[Token]) -> Option<&[Token]>
    ensures { option_map (λ rest. kinds rest.now) result ≡ behind is_dots (kinds tokens.now) }
{
    let Some((first, rest)) = tokens.split_first() else {
        return None;
    };
    if is_dots(&first.kind) {
        Some(rest)
    } else {
        None
    }
}
