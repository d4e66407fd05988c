ghost use Rattle.std.specs.Prelude.{◌≤◌, length, map};
ghost use Rattle.il_core.specs.Statement.{placed};
ghost use Rattle.il_syntax.specs.Order.{IsInOrder};
ghost use Rattle.acceptance.specs.Acceptance.{AcceptGives, OneAnswer, StatementsGive, TokensGive};

use il_blocks::{match_blocks, one_links};
use il_calls::check_calls;
use il_core::{Stmt, TextEnd, Token};
use il_inline::{Expanded, expand};
use il_lexer::{lex, one_reading};
use il_syntax::{one_parse, parse};
use std::alloc::Global;

/// The expansion of statements in order, or their refusal.
fn expanded(alloc: Global, stmts: &[Stmt]) -> Result<Expanded, TextEnd>
    requires { IsInOrder (map placed stmts.now) }
    ensures { StatementsGive (map placed stmts.now) result }
{
    let links = match_blocks(alloc, stmts)?;
    let called = check_calls(alloc, stmts, links.as_slice())?;
    Ok(expand(alloc, &called)?)
}

/// The expansion of the tokens of a text of `text_len` bytes, or their refusal.
fn expanded_tokens(alloc: Global, text_len: usize, tokens: &[Token]) -> Result<Expanded, TextEnd>
    ensures { TokensGive text_len tokens.now result }
{
    match parse(alloc, text_len, tokens) {
        Err(end) => Err(end),
        Ok(stmts) => expanded(alloc, stmts.as_slice()),
    }
}

/// The expansion of a text of at most 1,048,576 bytes: its checked text once each call is expanded in place, with the
/// line as written from which each line comes. `Refused` comes with the first refusal of the text, exactly where it
/// has one: each code is looked for over the whole text before the next, `Code::NotAscii`, `Lexical`, `Number`,
/// `Syntax`, `Order`, `Unmatched`, and then those of `il_calls::check_calls`, in its order; it stands at its first
/// place. `NoMemory` is the only free answer. The time is linear in the text and its expansion but for the look-ups
/// by name.
#[tactic(auto, unfolding(crate::specs::Acceptance::Accepts, crate::specs::Acceptance::HasRefusal))]
pub fn accept(alloc: Global, text: &[u8]) -> Result<Expanded, TextEnd>
    requires { length text.now ≤ 1048576 }
    ensures { AcceptGives text.now result }
{
    match lex(alloc, text) {
        Err(end) => Err(end),
        Ok(tokens) => expanded_tokens(alloc, text.len(), tokens.as_slice()),
    }
}

/// No text has two answers: no two expansions, no expansion and a refusal, no two refusals. This law costs nothing.
pub fn one_answer()
    ensures { OneAnswer }
{
    one_reading();
    one_parse();
    one_links();
    call_rules::one_answer();
}
