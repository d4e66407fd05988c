ghost use Rattle.std.specs.Prelude.{◌≡◌, ◌+◌, ◌^◌, ◌<◌, ◌≤◌, ◌++◌, length, IfOk, OnOk, MatchResult};
ghost use Rattle.il_lexer.specs.Cut.{token_of, AreTokens, AreInOrder, IsCutEnd};
ghost use Rattle.il_lexer.specs.Limit.{AreWithinLimits};
ghost use Rattle.il_lexer.specs.Reading.{high_place, LexGives, OneReading};

use crate::limit::first_excess;
use crate::step::{Step, step_at};
use il_core::{Code, List, NoMemory, Refusal, TextEnd, Token};
use std::alloc::Global;

/// The place of the first byte above 127.
fn high_place(text: &[u8]) -> Option<usize>
    ensures { result ≡ high_place text.now }
{
    text.iter().position(|byte| *byte > 127)
}

fn refused(code: Code, place: usize) -> TextEnd
    ensures { result ≡ TextEnd.Refused (record { code = code; place = place; name = None }) }
{
    TextEnd::Refused(Refusal {
        code,
        place,
        name: None,
    })
}

/// Adds the token of a step that begins at `at`, if it is no blank.
fn push_token(tokens: &mut List<Token>, at: usize, step: &Step) -> Result<(), NoMemory>
    requires { at + step.now.len < 2 ^ 64 }
    ensures { OnOk result (tokens.new ≡ tokens.old ++ token_of at step.now.len step.now.kind) }
{
    let kind = step.kind;
    match kind {
        Some(kind) => tokens.push(Token {
            kind,
            first: at,
            after: at + step.len,
        }),
        None => Ok(()),
    }
}

/// The tokens of the text, its numbers without limits; refused at the first place where no token stands.
fn cut(alloc: Global, text: &[u8]) -> Result<List<Token>, TextEnd>
    ensures tokens { MatchResult result (AreTokens text.now) (IsCutEnd text.now) }
    ensures spans { IfOk result (λ tokens. AreInOrder 0 tokens (length text.now)) }
{
    let mut tokens = List::new(alloc);
    let mut at = 0;
    while at < text.len() {
        let Some(step) = step_at(&text[at..]) else {
            return Err(refused(Code::Lexical, at));
        };
        push_token(&mut tokens, at, &step)?;
        at += step.len;
    }
    Ok(tokens)
}

/// The tokens of `text` in order, each with its span, as `Ok`; blanks between them are white space and comments.
///
/// The text has 1,048,576 bytes at most. `Refused` comes with `Code::NotAscii` at the first byte above 127, also in a
/// comment; else with `Code::Lexical` at the first place where no token stands: a byte that begins none, the `[` of a
/// comment that is not closed, or the first byte of a name of more than 40 bytes; else with `Code::Number` at the first
/// number above 2^63, or of 2^63 where the token before it is not `-`. No name is told. `NoMemory` is the only free
/// answer.
pub fn lex(alloc: Global, text: &[u8]) -> Result<List<Token>, TextEnd>
    requires { length text.now ≤ 1048576 }
    ensures reading { LexGives text.now result }
    ensures spans { IfOk result (λ tokens. AreInOrder 0 tokens (length text.now)) }
    ensures limits { IfOk result AreWithinLimits }
{
    if let Some(place) = high_place(text) {
        return Err(refused(Code::NotAscii, place));
    }
    let tokens = cut(alloc, text)?;
    match first_excess(tokens.as_slice()) {
        Some(place) => Err(refused(Code::Number, place)),
        None => Ok(tokens),
    }
}

/// The law that no text has two readings: no two lists of tokens, no list and a refusal, no two refusals. A call does
/// nothing; its clause is the law.
pub fn one_reading()
    ensures { OneReading }
{}
