ghost use Rattle.std.specs.Prelude.{◌≡◌, ◌≢◌, IsTrue, false, slice_index};
ghost use Rattle.std.specs.List.{prefix_len};
ghost use Rattle.std.specs.Str.{byte};
ghost use Rattle.il_core.specs.Name.{is_name, is_name_part, starts_with_letter};
ghost use Rattle.il_lexer.specs.Spelling.{word_kind};
ghost use Rattle.il_lexer.specs.Step.{is_white, StepsAt};

use crate::keyword::keyword_of;
use crate::step::Step;
use il_core::{NAME_LIMIT, Name, TokenKind};

/// The greatest number of bytes of a word: no keyword is longer than a name may be.
const WORD_LIMIT: usize = NAME_LIMIT;

/// How many letters, digits and underscores stand at the front.
fn word_len(rest: &[u8]) -> usize
    ensures { result ≡ prefix_len is_name_part rest.now }
{
    rest.iter()
        .take_while(|byte| byte.is_ascii_alphanumeric() || **byte == b'_')
        .count()
}

/// The token that a word of at most 40 bytes is.
fn word_kind(word: &[u8]) -> TokenKind
    requires { IsTrue (is_name word.now) }
    ensures { result ≡ word_kind word.now }
{
    match keyword_of(word) {
        Some(keyword) => TokenKind::Key(keyword),
        None => TokenKind::Ident(Name::new(word).unwrap()),
    }
}

/// The word at the front of `rest`; `None` where it has more than 40 bytes.
pub(crate) fn word_step(rest: &[u8]) -> Option<Step>
    requires letter { IsTrue (starts_with_letter rest.now) }
    requires no_space { is_white (slice_index rest.now 0) ≡ false }
    requires no_comment { slice_index rest.now 0 ≢ byte "[" }
    ensures { StepsAt rest.now result }
{
    let len = word_len(rest);
    if len <= WORD_LIMIT {
        let kind = word_kind(&rest[..len]);
        Some(Step {
            len,
            kind: Some(kind),
        })
    } else {
        None
    }
}
