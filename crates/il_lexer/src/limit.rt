ghost use Rattle.std.specs.Prelude.{◌≡◌, MatchOption, MatchBool};
ghost use Rattle.il_lexer.specs.Limit.{limit_behind, IsWithin, IsAbove, AreWithinLimits, IsFirstExcess};

use il_core::{Symbol, Token, TokenKind};

/// The greatest value of a number that stands behind no `-`.
const PLAIN_LIMIT: u64 = (1 << 63) - 1;

/// The limit of a number behind this token.
fn limit_behind(kind: &TokenKind) -> u64
    ensures { result ≡ limit_behind kind.now }
{
    match kind {
        TokenKind::Symbol(Symbol::Minus) => PLAIN_LIMIT + 1,
        _ => PLAIN_LIMIT,
    }
}

/// Whether the token is a number above the limit.
fn exceeds(kind: &TokenKind, limit: u64) -> bool
    ensures { MatchBool result (IsAbove limit kind.now) (IsWithin limit kind.now) }
{
    match kind {
        TokenKind::Number(value) => *value > limit,
        _ => false,
    }
}

/// The place of the first number above its limit.
pub(crate) fn first_excess(tokens: &[Token]) -> Option<usize>
    ensures { MatchOption result (AreWithinLimits tokens.now) (IsFirstExcess tokens.now) }
{
    let mut limit = PLAIN_LIMIT;
    for token in tokens {
        if exceeds(&token.kind, limit) {
            return Some(token.first);
        }
        limit = limit_behind(&token.kind);
    }
    None
}
