//! What no clause says: that the definitions mean the tokens of the text language, and that a call succeeds.
use il_core::{Code, Keyword, Name, NoMemory, Symbol, TextEnd, TokenKind};
use il_lexer::lex;
use std::alloc::Global;
use std::test::Fail;

fn name(bytes: &[u8]) -> Result<TokenKind, Fail> {
    let name = Name::new(bytes).ok_or("no name")?;
    Ok(TokenKind::Ident(name))
}

#[test]
fn tokens_with_spans(rt: HostRuntime) -> Result<(), Fail> {
    let text = b"TITLE Title_1[ := [ ]:= : ;,().. + -*=/= <=< >=>\t007 a..b\n1=2:==";
    let wanted = [
        (TokenKind::Key(Keyword::KwTitle), 0, 5),
        (name(b"Title_1")?, 6, 13),
        (TokenKind::Symbol(Symbol::Becomes), 21, 23),
        (TokenKind::Symbol(Symbol::Colon), 24, 25),
        (TokenKind::Symbol(Symbol::Semicolon), 26, 27),
        (TokenKind::Symbol(Symbol::Comma), 27, 28),
        (TokenKind::Symbol(Symbol::LeftParen), 28, 29),
        (TokenKind::Symbol(Symbol::RightParen), 29, 30),
        (TokenKind::Symbol(Symbol::Dots), 30, 32),
        (TokenKind::Symbol(Symbol::Plus), 33, 34),
        (TokenKind::Symbol(Symbol::Minus), 35, 36),
        (TokenKind::Symbol(Symbol::Times), 36, 37),
        (TokenKind::Symbol(Symbol::Equal), 37, 38),
        (TokenKind::Symbol(Symbol::Unequal), 38, 40),
        (TokenKind::Symbol(Symbol::AtMost), 41, 43),
        (TokenKind::Symbol(Symbol::Less), 43, 44),
        (TokenKind::Symbol(Symbol::AtLeast), 45, 47),
        (TokenKind::Symbol(Symbol::Greater), 47, 48),
        (TokenKind::Number(7), 49, 52),
        (name(b"a")?, 53, 54),
        (TokenKind::Symbol(Symbol::Dots), 54, 56),
        (name(b"b")?, 56, 57),
        (TokenKind::Number(1), 58, 59),
        (TokenKind::Symbol(Symbol::Equal), 59, 60),
        (TokenKind::Number(2), 60, 61),
        (TokenKind::Symbol(Symbol::Becomes), 61, 63),
        (TokenKind::Symbol(Symbol::Equal), 63, 64),
    ];
    let tokens = lex(rt.alloc(), text)?;
    assert_eq!(rt; tokens.len(), wanted.len());
    for (token, (kind, first, after)) in tokens.as_slice().iter().zip(wanted) {
        assert!(rt;
            token.kind == kind && token.first == first && token.after == after,
            "at {first}"
        );
    }
    Ok(())
}

/// Whether a text is one token of this kind.
fn is_token(alloc: Global, text: &str, kind: TokenKind) -> Result<bool, Fail> {
    let bytes = text.as_bytes();
    if bytes.len() > 1_048_576 {
        return Err(Fail::from("too long"));
    }
    let tokens = lex(alloc, bytes)?;
    Ok(tokens.len() == 1 && tokens.get(0).is_some_and(|token| token.kind == kind))
}

#[test]
fn keywords_have_their_spellings(rt: HostRuntime) -> Result<(), Fail> {
    let cases = [
        ("TITLE", Keyword::KwTitle),
        ("CONST", Keyword::KwConst),
        ("TYPE", Keyword::KwType),
        ("PROC", Keyword::KwProc),
        ("IN", Keyword::KwIn),
        ("INOUT", Keyword::KwInout),
        ("OUT", Keyword::KwOut),
        ("LOCAL", Keyword::KwLocal),
        ("BOOL", Keyword::KwBool),
        ("PRE", Keyword::KwPre),
        ("POST", Keyword::KwPost),
        ("IF", Keyword::KwIf),
        ("ELSE", Keyword::KwElse),
        ("ENDIF", Keyword::KwEndif),
        ("LOOP", Keyword::KwLoop),
        ("ENDLOOP", Keyword::KwEndloop),
        ("EXIT", Keyword::KwExit),
        ("WHEN", Keyword::KwWhen),
        ("LABEL", Keyword::KwLabel),
        ("GOTO", Keyword::KwGoto),
        ("SKIP", Keyword::KwSkip),
        ("ASSERT", Keyword::KwAssert),
        ("RETURN", Keyword::KwReturn),
        ("ENDPROC", Keyword::KwEndproc),
        ("FINISH", Keyword::KwFinish),
        ("OLD", Keyword::KwOld),
        ("TRUE", Keyword::KwTrue),
        ("FALSE", Keyword::KwFalse),
        ("NOT", Keyword::KwNot),
        ("AND", Keyword::KwAnd),
        ("OR", Keyword::KwOr),
        ("DIV", Keyword::KwDiv),
        ("MOD", Keyword::KwMod),
        ("CALL", Keyword::KwCall),
        ("WRAP", Keyword::KwWrap),
    ];
    for (text, keyword) in cases {
        assert!(rt;
            is_token(rt.alloc(), text, TokenKind::Key(keyword))?,
            "{text}"
        );
        // A word is no keyword where one more letter stands behind it, or a small one before it.
        let longer = format!(in rt.alloc(); "{text}S")?;
        assert!(rt;
            is_token(rt.alloc(), longer.as_str(), name(longer.as_bytes())?)?,
            "{longer}"
        );
        let later = format!(in rt.alloc(); "e{text}")?;
        assert!(rt;
            is_token(rt.alloc(), later.as_str(), name(later.as_bytes())?)?,
            "{later}"
        );
    }
    Ok(())
}

/// The front of a text, which ends inside a token.
const COPY: &[u8] =
    b"TITLE copy;\nPROC p;\nIN a : 0 .. 9;\nINOUT b : 0 .. 9;\nOUT c : 0 .. 9;\nLOCAL d : 0 .. 9;\n";

/// Whether a text is refused with this code at this place or, without a code, has this number of tokens.
fn is_as(alloc: Global, text: &[u8], code: Option<Code>, number: usize) -> Result<bool, Fail> {
    if text.len() > 1_048_576 {
        return Err(Fail::from("too long"));
    }
    match lex(alloc, text) {
        Ok(tokens) => Ok(code.is_none() && tokens.len() == number),
        Err(TextEnd::Refused(refusal)) => Ok(Some(refusal.code) == code && refusal.place == number),
        Err(TextEnd::NoMemory) => Err(Fail::from(NoMemory)),
    }
}

#[test]
fn readings(rt: HostRuntime) -> Result<(), Fail> {
    // Each text with its refusal's code and place, or with its number of tokens.
    let cases = [
        (b"".as_slice(), None, 0),
        (b"d #= a;".as_slice(), Some(Code::Lexical), 2),
        (b"a [\xC8] b".as_slice(), Some(Code::NotAscii), 3),
        (b"# [\x80".as_slice(), Some(Code::NotAscii), 3),
        (b"\x0B".as_slice(), Some(Code::Lexical), 0),
        (b"a\x7F".as_slice(), Some(Code::Lexical), 1),
        (b"[\x0B\x0C\x7F]\r\n".as_slice(), None, 0),
        (
            b"abcdefghijklmnopqrstuvwxyzABCDEFGHIJKLMN".as_slice(),
            None,
            1,
        ),
        (
            b" abcdefghijklmnopqrstuvwxyzABCDEFGHIJKLMN_".as_slice(),
            Some(Code::Lexical),
            1,
        ),
        (b"a := [b; [c;".as_slice(), Some(Code::Lexical), 5),
        (b"[a [b] c] d".as_slice(), Some(Code::Lexical), 8),
        (b"_a".as_slice(), Some(Code::Lexical), 0),
        (b"a / b".as_slice(), Some(Code::Lexical), 2),
        (b": =".as_slice(), None, 2),
        (b"titleTITLE Title".as_slice(), None, 2),
        (b"c = 9223372036854775807;".as_slice(), None, 4),
        (
            b"c = 9223372036854775808;".as_slice(),
            Some(Code::Number),
            4,
        ),
        (b"c = -9223372036854775808;".as_slice(), None, 5),
        (b"c = - [x] 09223372036854775808;".as_slice(), None, 5),
        (
            b"c = -9223372036854775809;".as_slice(),
            Some(Code::Number),
            5,
        ),
        (
            b"c = -(9223372036854775808);".as_slice(),
            Some(Code::Number),
            6,
        ),
        (
            b"0 99999999999999999999999".as_slice(),
            Some(Code::Number),
            2,
        ),
        (
            b"99999999999999999999999 .".as_slice(),
            Some(Code::Lexical),
            24,
        ),
        (&COPY[..30], Some(Code::Lexical), 29),
        (&COPY[..31], None, 11),
        (&COPY[..48], Some(Code::Lexical), 47),
        (&COPY[..64], Some(Code::Lexical), 63),
        (&COPY[..82], Some(Code::Lexical), 81),
    ];
    for (text, code, number) in cases {
        assert!(rt; is_as(rt.alloc(), text, code, number)?, "{text:?}");
    }
    Ok(())
}

#[test]
fn greatest_text(rt: HostRuntime) -> Result<(), Fail> {
    let text = vec![in rt.alloc(); b' '; 1048576]?;
    let tokens = lex(rt.alloc(), &text)?;
    assert!(rt; tokens.is_empty());
    Ok(())
}
