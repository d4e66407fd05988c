ghost use Rattle.std.specs.Prelude.{◌≡◌, ◌≢◌, ◌<◌, ◌≤◌, length, slice_index, MatchOption, false};
ghost use Rattle.std.specs.Str.{byte};
ghost use Rattle.std.specs.Char.{is_ascii_alphabetic, is_ascii_digit};
ghost use Rattle.il_lexer.specs.Symbol.{single_symbol, symbol_before_equal, double_symbol};
ghost use Rattle.il_lexer.specs.Step.{is_white, StepsAt};

use crate::step::Step;
use il_core::{Symbol, TokenKind};

fn single_symbol(byte: u8) -> Option<Symbol>
    ensures { result ≡ single_symbol byte }
{
    match byte {
        b':' => Some(Symbol::Colon),
        b';' => Some(Symbol::Semicolon),
        b',' => Some(Symbol::Comma),
        b'(' => Some(Symbol::LeftParen),
        b')' => Some(Symbol::RightParen),
        b'+' => Some(Symbol::Plus),
        b'-' => Some(Symbol::Minus),
        b'*' => Some(Symbol::Times),
        b'=' => Some(Symbol::Equal),
        b'<' => Some(Symbol::Less),
        b'>' => Some(Symbol::Greater),
        _ => None,
    }
}

fn symbol_before_equal(byte: u8) -> Option<Symbol>
    ensures { result ≡ symbol_before_equal byte }
{
    match byte {
        b':' => Some(Symbol::Becomes),
        b'/' => Some(Symbol::Unequal),
        b'<' => Some(Symbol::AtMost),
        b'>' => Some(Symbol::AtLeast),
        _ => None,
    }
}

fn double_symbol(first: u8, second: u8) -> Option<Symbol>
    ensures { result ≡ double_symbol first second }
{
    match second {
        b'=' => symbol_before_equal(first),
        b'.' if first == b'.' => Some(Symbol::Dots),
        _ => None,
    }
}

/// The symbol that the first two bytes spell.
fn double_at(rest: &[u8]) -> Option<Symbol>
    ensures { MatchOption result
        (2 ≤ length rest.now → double_symbol (slice_index rest.now 0) (slice_index rest.now 1) ≡ None)
        (λ symbol. (2 ≤ length rest.now) × (double_symbol (slice_index rest.now 0) (slice_index rest.now 1) ≡ Some symbol)) }
{
    if rest.len() >= 2 {
        double_symbol(rest[0], rest[1])
    } else {
        None
    }
}

/// The longest symbol at the front of `rest`.
pub(crate) fn symbol_step(rest: &[u8]) -> Option<Step>
    requires some { 0 < length rest.now }
    requires no_space { is_white (slice_index rest.now 0) ≡ false }
    requires no_comment { slice_index rest.now 0 ≢ byte "[" }
    requires no_word { is_ascii_alphabetic (slice_index rest.now 0) ≡ false }
    requires no_number { is_ascii_digit (slice_index rest.now 0) ≡ false }
    ensures { StepsAt rest.now result }
{
    match double_at(rest) {
        Some(symbol) => Some(Step {
            len: 2,
            kind: Some(TokenKind::Symbol(symbol)),
        }),
        None => match single_symbol(rest[0]) {
            Some(symbol) => Some(Step {
                len: 1,
                kind: Some(TokenKind::Symbol(symbol)),
            }),
            None => None,
        },
    }
}
