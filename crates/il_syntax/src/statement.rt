ghost use Rattle.std.specs.Prelude.{◌≡◌, ◌<◌, ◌∷◌, length};
ghost use Rattle.il_syntax.specs.Parse.{is_semicolon, pieces, place_of};
ghost use Rattle.il_syntax.specs.Expression.{kinds};
ghost use Rattle.il_syntax.specs.StatementReading.{piece_len, StatementIs, StatementsAre};

use crate::expression::ExpressionEnd;
use crate::form::form;
use il_core::{Code, Form, List, Refusal, Stmt, Symbol, TextEnd, Token, TokenKind};
use std::alloc::Global;

fn is_semicolon(kind: &TokenKind) -> bool
    ensures { result ≡ is_semicolon kind.now }
{
    matches!(kind, TokenKind::Symbol(Symbol::Semicolon))
}

/// The number of tokens up to and with the first `;`, or of all tokens where there is none.
fn piece_len(tokens: &[Token]) -> usize
    ensures { result ≡ piece_len tokens.now }
{
    for (i, token) in tokens.iter().enumerate() {
        if is_semicolon(&token.kind) {
            return i + 1;
        }
    }
    tokens.len()
}

/// The tokens up to and with the first `;`, all where there is none, and the tokens behind them.
fn first_piece(tokens: &[Token]) -> (&[Token], &[Token])
    requires { 0 < length tokens.now }
    ensures cut { pieces tokens.now ≡ result.0.now ∷ pieces result.1.now }
    ensures shorter { length result.1.now < length tokens.now }
{
    tokens.split_at(piece_len(tokens))
}

/// The place of the first byte of a piece.
fn place_of(piece: &[Token]) -> usize
    ensures { result ≡ place_of piece.now }
{
    match piece.first() {
        Some(token) => token.first,
        None => 0,
    }
}

/// The form of the statement that a piece is. `NoForm` comes exactly where it is none.
fn statement(alloc: Global, piece: &[Token]) -> Result<Form, ExpressionEnd>
    ensures { StatementIs (kinds piece.now) result }
{
    let Some((last, body)) = piece.split_last() else {
        return Err(ExpressionEnd::NoForm);
    };
    if is_semicolon(&last.kind) {
        form(alloc, body)
    } else {
        Err(ExpressionEnd::NoForm)
    }
}

/// A refusal that names no name.
pub(crate) fn refused(code: Code, place: usize) -> TextEnd
    ensures { result ≡ TextEnd.Refused (record { code = code; place = place; name = None }) }
{
    TextEnd::Refused(Refusal {
        code,
        place,
        name: None,
    })
}

/// The statements that the pieces of the tokens are, or the first piece that is none.
pub(crate) fn statements(alloc: Global, tokens: &[Token]) -> Result<List<Stmt>, TextEnd>
    ensures { StatementsAre tokens.now result }
{
    let mut stmts = List::new(alloc);
    let mut rest = tokens;
    while !rest.is_empty() {
        let (piece, after) = first_piece(rest);
        let place = place_of(piece);
        match statement(alloc, piece) {
            Ok(form) => stmts.push(Stmt { place, form })?,
            Err(ExpressionEnd::NoForm) => return Err(refused(Code::Syntax, place)),
            Err(ExpressionEnd::NoMemory) => return Err(TextEnd::NoMemory),
        }
        rest = after;
    }
    Ok(stmts)
}
