ghost use Rattle.std.specs.Prelude.{◌≡◌};
ghost use Rattle.il_lexer.specs.Keyword.{outer_keyword, variable_keyword, control_keyword, plain_keyword, keyword_of};

use il_core::Keyword;

/// What stands outside the bodies of procedures.
#[tactic(auto, unfolding(crate::specs::Keyword::outer_keyword))]
fn outer_keyword(bytes: &[u8]) -> Option<Keyword>
    ensures { result ≡ outer_keyword bytes.now }
{
    if bytes == b"TITLE".as_slice() {
        Some(Keyword::KwTitle)
    } else if bytes == b"CONST".as_slice() {
        Some(Keyword::KwConst)
    } else if bytes == b"TYPE".as_slice() {
        Some(Keyword::KwType)
    } else if bytes == b"PROC".as_slice() {
        Some(Keyword::KwProc)
    } else if bytes == b"ENDPROC".as_slice() {
        Some(Keyword::KwEndproc)
    } else if bytes == b"FINISH".as_slice() {
        Some(Keyword::KwFinish)
    } else if bytes == b"PRE".as_slice() {
        Some(Keyword::KwPre)
    } else if bytes == b"POST".as_slice() {
        Some(Keyword::KwPost)
    } else if bytes == b"WRAP".as_slice() {
        Some(Keyword::KwWrap)
    } else {
        None
    }
}

/// Variables and truth values.
#[tactic(auto, unfolding(crate::specs::Keyword::variable_keyword))]
fn variable_keyword(bytes: &[u8]) -> Option<Keyword>
    ensures { result ≡ variable_keyword bytes.now }
{
    if bytes == b"IN".as_slice() {
        Some(Keyword::KwIn)
    } else if bytes == b"INOUT".as_slice() {
        Some(Keyword::KwInout)
    } else if bytes == b"OUT".as_slice() {
        Some(Keyword::KwOut)
    } else if bytes == b"LOCAL".as_slice() {
        Some(Keyword::KwLocal)
    } else if bytes == b"BOOL".as_slice() {
        Some(Keyword::KwBool)
    } else if bytes == b"OLD".as_slice() {
        Some(Keyword::KwOld)
    } else if bytes == b"TRUE".as_slice() {
        Some(Keyword::KwTrue)
    } else if bytes == b"FALSE".as_slice() {
        Some(Keyword::KwFalse)
    } else {
        None
    }
}

/// The flow of control.
#[tactic(auto, unfolding(crate::specs::Keyword::control_keyword))]
fn control_keyword(bytes: &[u8]) -> Option<Keyword>
    ensures { result ≡ control_keyword bytes.now }
{
    if bytes == b"IF".as_slice() {
        Some(Keyword::KwIf)
    } else if bytes == b"ELSE".as_slice() {
        Some(Keyword::KwElse)
    } else if bytes == b"ENDIF".as_slice() {
        Some(Keyword::KwEndif)
    } else if bytes == b"LOOP".as_slice() {
        Some(Keyword::KwLoop)
    } else if bytes == b"ENDLOOP".as_slice() {
        Some(Keyword::KwEndloop)
    } else if bytes == b"EXIT".as_slice() {
        Some(Keyword::KwExit)
    } else if bytes == b"WHEN".as_slice() {
        Some(Keyword::KwWhen)
    } else if bytes == b"LABEL".as_slice() {
        Some(Keyword::KwLabel)
    } else if bytes == b"GOTO".as_slice() {
        Some(Keyword::KwGoto)
    } else {
        None
    }
}

/// Plain statements and operators.
#[tactic(auto, unfolding(crate::specs::Keyword::plain_keyword))]
fn plain_keyword(bytes: &[u8]) -> Option<Keyword>
    ensures { result ≡ plain_keyword bytes.now }
{
    if bytes == b"SKIP".as_slice() {
        Some(Keyword::KwSkip)
    } else if bytes == b"ASSERT".as_slice() {
        Some(Keyword::KwAssert)
    } else if bytes == b"RETURN".as_slice() {
        Some(Keyword::KwReturn)
    } else if bytes == b"CALL".as_slice() {
        Some(Keyword::KwCall)
    } else if bytes == b"NOT".as_slice() {
        Some(Keyword::KwNot)
    } else if bytes == b"AND".as_slice() {
        Some(Keyword::KwAnd)
    } else if bytes == b"OR".as_slice() {
        Some(Keyword::KwOr)
    } else if bytes == b"DIV".as_slice() {
        Some(Keyword::KwDiv)
    } else if bytes == b"MOD".as_slice() {
        Some(Keyword::KwMod)
    } else {
        None
    }
}

/// The keyword that the bytes spell, if any.
pub(crate) fn keyword_of(bytes: &[u8]) -> Option<Keyword>
    ensures { result ≡ keyword_of bytes.now }
{
    outer_keyword(bytes)
        .or_else(|| variable_keyword(bytes))
        .or_else(|| control_keyword(bytes))
        .or_else(|| plain_keyword(bytes))
}
