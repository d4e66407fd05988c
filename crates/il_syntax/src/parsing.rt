ghost use Rattle.il_syntax.specs.Parse.{ParseGives, OneParse};

use crate::order::order_break;
use crate::statement::{refused, statements};
use il_core::{Code, List, Stmt, TextEnd, Token};
use std::alloc::Global;

/// The statements that the tokens of a text spell, in their order, each with the place of its first byte. The text has
/// `text_len` bytes. `Refused` comes with `Code::Syntax` at the first statement without a form, or at the first token
/// left behind the last `;`; where there is none of these, with `Code::Order` at the first statement that can't stand
/// where it stands, or at `text_len` where the statements end before FINISH. It takes time linear in the tokens.
pub fn parse(alloc: Global, text_len: usize, tokens: &[Token]) -> Result<List<Stmt>, TextEnd>
    ensures { ParseGives text_len tokens.now result }
{
    let stmts = statements(alloc, tokens)?;
    match order_break(text_len, stmts.as_slice()) {
        None => Ok(stmts),
        Some(place) => Err(refused(Code::Order, place)),
    }
}

/// No list of tokens has two answers of `parse`: no two lists of statements, no list and a refusal, no two refusals.
pub fn one_parse()
    ensures { OneParse }
{}
