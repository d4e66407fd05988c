ghost use Rattle.std.specs.Prelude.{◌≡◌, ◌-◌, ◌^◌, min, All, IsTrue, false, slice_index};
ghost use Rattle.std.specs.List.{prefix_len};
ghost use Rattle.std.specs.Char.{is_ascii_alphabetic, is_ascii_digit};
ghost use Rattle.il_lexer.specs.Spelling.{decimal};
ghost use Rattle.il_lexer.specs.Step.{IsStep};

use crate::step::Step;
use il_core::TokenKind;

/// How many digits stand at the front.
fn digits_len(rest: &[u8]) -> usize
    ensures { result ≡ prefix_len is_ascii_digit rest.now }
{
    rest.iter().take_while(|byte| byte.is_ascii_digit()).count()
}

/// The number that the digits spell, or the greatest `u64` where it is more.
fn value_of(digits: &[u8]) -> u64
    requires { All (λ b. IsTrue (is_ascii_digit b)) digits.now }
    ensures { result ≡ min (decimal digits.now) (2 ^ 64 - 1) }
{
    let mut value = 0u64;
    for digit in digits {
        value = value
            .saturating_mul(10)
            .saturating_add(u64::from(*digit - b'0'));
    }
    value
}

/// The number at the front of `rest`.
pub(crate) fn number_step(rest: &[u8]) -> Step
    requires digit { IsTrue (is_ascii_digit (slice_index rest.now 0)) }
    requires no_word { is_ascii_alphabetic (slice_index rest.now 0) ≡ false }
    ensures { IsStep rest.now result }
{
    let len = digits_len(rest);
    let value = value_of(&rest[..len]);
    Step {
        len,
        kind: Some(TokenKind::Number(value)),
    }
}
