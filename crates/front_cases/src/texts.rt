//! Texts, and texts as statements.
ghost use Rattle.std.specs.Prelude.{IfOk, map};
ghost use Rattle.il_core.specs.Statement.{placed};
ghost use Rattle.il_syntax.specs.Order.{IsInOrder};

use il_core::{List, NoMemory, Refusal, Stmt, TextEnd};
use il_lexer::lex;
use il_syntax::parse;
use std::alloc::{AllocError, Global};
use std::test::Fail;

/// Parentheses around a name, so many that the depth is `depth`.
pub fn nested(alloc: Global, depth: usize) -> Result<String, AllocError> {
    let mut text = String::new(alloc);
    for _ in 1..depth {
        text.push_str("( ")?;
    }
    text.push_str("a")?;
    for _ in 1..depth {
        text.push_str(" )")?;
    }
    Ok(text)
}

/// The statements of a text, or its refusal.
pub fn statements_of(alloc: Global, text: &[u8]) -> Result<Result<List<Stmt>, Refusal>, Fail>
    ensures { IfOk result (λ read. IfOk read (λ stmts. IsInOrder (map placed stmts))) }
{
    if text.len() > 1_048_576 {
        return Err(Fail::from("too long"));
    }
    let end = match lex(alloc, text) {
        Ok(tokens) => match parse(alloc, text.len(), tokens.as_slice()) {
            Ok(stmts) => return Ok(Ok(stmts)),
            Err(end) => end,
        },
        Err(end) => end,
    };
    match end {
        TextEnd::Refused(refusal) => Ok(Err(refusal)),
        TextEnd::NoMemory => Err(Fail::from(NoMemory)),
    }
}

/// The number of the statement that stands at a place of a text.
pub fn number_at(text: &str, place: usize) -> usize {
    text.as_bytes()
        .iter()
        .take(place)
        .filter(|byte| **byte == b';')
        .count()
}
