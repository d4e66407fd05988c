ghost use Rattle.std.specs.Prelude.{◌≡◌, ◌<◌, ◌==◌, length, slice_index, IfSome, position};
ghost use Rattle.std.specs.Str.{byte};
ghost use Rattle.il_lexer.specs.Step.{is_white, StepsAt};

use crate::number::number_step;
use crate::symbol::symbol_step;
use crate::word::word_step;
use il_core::TokenKind;

/// What stands at the front of a text: its number of bytes, and which token it is; `None` for a blank.
#[derive(Clone, Copy)]
pub(crate) struct Step {
    pub(crate) len: usize,
    pub(crate) kind: Option<TokenKind>,
}

fn is_white(byte: u8) -> bool
    ensures { result ≡ is_white byte }
{
    byte == b'\t' || byte == b'\n' || byte == b'\r' || byte == b' '
}

/// The place of the first `]`.
fn close_place(rest: &[u8]) -> Option<usize>
    ensures place { result ≡ position (λ b. b == byte "]") rest.now }
    ensures within { IfSome result (λ place. place < length rest.now) }
{
    rest.iter().position(|byte| *byte == b']')
}

/// The comment up to its `]`; `None` where it is not closed.
fn comment_step(rest: &[u8]) -> Option<Step>
    requires { slice_index rest.now 0 ≡ byte "[" }
    ensures { StepsAt rest.now result }
{
    match close_place(rest) {
        Some(place) => Some(Step {
            len: place + 1,
            kind: None,
        }),
        None => None,
    }
}

/// The blank or the token at the front of `rest`; `None` exactly where neither stands there.
pub(crate) fn step_at(rest: &[u8]) -> Option<Step>
    requires { 0 < length rest.now }
    ensures { StepsAt rest.now result }
{
    let first = rest[0];
    if is_white(first) {
        Some(Step { len: 1, kind: None })
    } else if first == b'[' {
        comment_step(rest)
    } else if first.is_ascii_alphabetic() {
        word_step(rest)
    } else if first.is_ascii_digit() {
        Some(number_step(rest))
    } else {
        symbol_step(rest)
    }
}
