//! What no clause says: that the definitions mean the rules of the text language, and that a call succeeds.
use crate::written::{COPY, VALVE};
use acceptance::{accept, one_answer};
use il_core::{Code, Many, Name, Refusal, TextEnd};
use std::alloc::{AllocError, Global};
use std::test::Fail;

/// The number of procedures of a text and of the lines and places of its first one, or its refusal.
fn outcome(alloc: Global, text: &[u8]) -> Result<Result<(usize, usize, usize), Refusal>, Fail> {
    if text.len() > 1_048_576 {
        return Err(Fail::from("too long"));
    }
    match accept(alloc, text) {
        Ok(expanded) => {
            let procs = expanded.text.procs();
            let first = procs.get(0).ok_or("no procedure")?;
            Ok(Ok((procs.len(), first.lines().len(), first.places().len())))
        }
        Err(TextEnd::Refused(refusal)) => Ok(Err(refusal)),
        Err(TextEnd::NoMemory) => Err(Fail::from("out of memory")),
    }
}

/// So many pieces, each with its number between two parts.
fn numbered(alloc: Global, count: usize, before: &str, after: &str) -> Result<String, AllocError> {
    let mut pieces = String::new(alloc);
    for number in 0..count {
        let piece = format!(in alloc; "{before}{number}{after}")?;
        pieces.push_str(piece.as_str())?;
    }
    Ok(pieces)
}

/// The refusal with a code at a place; it tells a name unless that is empty.
fn refusal_at(place: usize, code: Code, name: &str) -> Refusal {
    Refusal {
        code,
        place,
        name: Name::new(name.as_bytes()),
    }
}

/// Whether a text is answered as wanted; a wanted refusal has its code and its name, and stands at the place.
fn is_answered(
    alloc: Global,
    text: &[u8],
    place: usize,
    wanted: Result<(usize, usize, usize), (Code, &str)>,
) -> Result<bool, Fail> {
    let found = outcome(alloc, text)?;
    match wanted {
        Ok(sizes) => Ok(found == Ok(sizes)),
        Err((code, name)) => Ok(found == Err(refusal_at(place, code, name))),
    }
}

#[test]
fn texts_are_answered(rt: HostRuntime) -> Result<(), Fail> {
    one_answer();
    assert!(rt; is_answered(rt.alloc(), COPY, 0, Ok((1, 5, 5)))?);
    assert!(rt; is_answered(rt.alloc(), VALVE, 0, Ok((2, 14, 4)))?);
    let procs = numbered(rt.alloc(), 64, "PROC p", ";PRE TRUE;POST TRUE;ENDPROC;")?;
    let labels = numbered(rt.alloc(), 998, "LABEL l", ";")?;
    let lines = format!(in rt.alloc(); "PROC p;PRE TRUE;POST TRUE;{labels}")?;
    let more_lines = format!(in rt.alloc(); "{lines}SKIP;")?;
    let variables = numbered(rt.alloc(), 32, "INOUT v", " : 0 .. 1;")?;
    let places = format!(in rt.alloc(); "PROC p;{variables}")?;
    // The text is a title, two parts and FINISH; where it is refused, that is where the second part begins.
    let cases = [
        // a title and a label as variable
        (
            "PROC p;OUT t : 0 .. 9;PRE TRUE;POST TRUE;",
            "LABEL t;GOTO t;ENDPROC;",
            Ok((1, 4, 1)),
        ),
        // a range that wraps
        (
            "TYPE w = WRAP 0 .. 255;PROC p;INOUT a : w;PRE TRUE;POST TRUE;",
            "a := a + 1;ENDPROC;",
            Ok((1, 3, 2)),
        ),
        // bounds of 2^126
        (
            "PROC p;PRE TRUE;POST TRUE;",
            "ASSERT 0 < ( - 9223372036854775808 ) * ( - 9223372036854775808 );ENDPROC;",
            Ok((1, 3, 0)),
        ),
        // 64 procedures
        (procs.as_str(), "", Ok((64, 2, 0))),
        // 1000 lines
        (lines.as_str(), "ENDPROC;", Ok((1, 1000, 0))),
        // 64 places
        (
            places.as_str(),
            "PRE TRUE;POST TRUE;ENDPROC;",
            Ok((1, 2, 64)),
        ),
        // no token
        (
            "PROC p;PRE TRUE;POST TRUE;",
            "#;ENDPROC;",
            Err((Code::Lexical, "")),
        ),
        // no form
        (
            "PROC p;PRE TRUE;POST TRUE;",
            "a :=;ENDPROC;",
            Err((Code::Syntax, "")),
        ),
        // a second POST
        (
            "PROC p;PRE TRUE;POST TRUE;",
            "POST TRUE;ENDPROC;",
            Err((Code::Order, "")),
        ),
        // a loose ENDIF behind a name declared twice
        (
            "PROC p;IN p : 0 .. 9;PRE TRUE;POST TRUE;",
            "ENDIF;ENDPROC;",
            Err((Code::Unmatched, "")),
        ),
        // two clashes in one enumeration
        (
            "CONST a = 1;CONST b = 2;",
            "TYPE e = ( c, b, a );PROC p;PRE TRUE;POST TRUE;ENDPROC;",
            Err((Code::Twice, "b")),
        ),
        // a procedure declared twice behind an unknown name
        (
            "PROC p;PRE x;POST TRUE;ENDPROC;",
            "PROC p;PRE TRUE;POST TRUE;ENDPROC;",
            Err((Code::Twice, "p")),
        ),
        // a variable of another procedure
        (
            "PROC p;OUT a : 0 .. 9;PRE TRUE;POST TRUE;ENDPROC;PROC q;PRE TRUE;POST TRUE;",
            "ASSERT a = 1;ENDPROC;",
            Err((Code::Unknown, "a")),
        ),
        // a constant before its statement
        (
            "",
            "TYPE r = 0 .. n;CONST n = 9;PROC p;PRE TRUE;POST TRUE;ENDPROC;",
            Err((Code::Unknown, "n")),
        ),
        // a truth value for a number
        (
            "PROC p;OUT a : 0 .. 9;PRE TRUE;POST TRUE;",
            "a := a < 3;ENDPROC;",
            Err((Code::Typing, "")),
        ),
        // an order of enumeration values
        (
            "TYPE e = ( low, high );PROC p;IN a : e;",
            "PRE a < high;POST TRUE;ENDPROC;",
            Err((Code::Typing, "")),
        ),
        // an IN variable assigned
        (
            "PROC p;IN a : 0 .. 9;PRE TRUE;POST TRUE;",
            "a := 1;ENDPROC;",
            Err((Code::Access, "")),
        ),
        // OLD in an assignment
        (
            "PROC p;INOUT a : 0 .. 9;PRE TRUE;POST TRUE;",
            "a := OLD a;ENDPROC;",
            Err((Code::Access, "")),
        ),
        // a LOCAL in POST
        (
            "PROC p;LOCAL a : 0 .. 9;PRE TRUE;",
            "POST a = 1;ENDPROC;",
            Err((Code::Access, "")),
        ),
        // an empty WRAP range
        (
            "",
            "TYPE w = WRAP 1 .. 0;PROC p;PRE TRUE;POST TRUE;ENDPROC;",
            Err((Code::EmptyRange, "")),
        ),
        // a variable without values
        (
            "CONST n = -1;PROC p;",
            "IN a : 0 .. n;PRE TRUE;POST TRUE;ENDPROC;",
            Err((Code::EmptyRange, "")),
        ),
        // a wide part of a small remainder
        (
            "PROC p;IN a : 0 .. 9;PRE TRUE;POST TRUE;",
            "ASSERT a * 9223372036854775807 * 9223372036854775807 MOD 2 = 0;ENDPROC;",
            Err((Code::Wide, "")),
        ),
        // bounds above 2^126
        (
            "PROC p;PRE TRUE;POST TRUE;",
            "ASSERT 0 < ( - 9223372036854775808 ) * ( - 9223372036854775808 ) + 1;ENDPROC;",
            Err((Code::Wide, "")),
        ),
        // the 65th procedure
        (
            procs.as_str(),
            "PROC q;PRE TRUE;POST TRUE;ENDPROC;",
            Err((Code::TooMany(Many::Procedures), "")),
        ),
        // the line numbered 1000
        (
            more_lines.as_str(),
            "ENDPROC;",
            Err((Code::TooMany(Many::Lines), "")),
        ),
        // the 65th place
        (
            places.as_str(),
            "IN a : 0 .. 1;PRE TRUE;POST TRUE;ENDPROC;",
            Err((Code::TooMany(Many::Places), "")),
        ),
    ];
    for (front, rest, wanted) in cases {
        let text = format!(in rt.alloc(); "TITLE t;{front}{rest}FINISH;")?;
        let place = front.len().saturating_add(8);
        assert!(rt;
            is_answered(rt.alloc(), text.as_bytes(), place, wanted)?,
            "{text}"
        );
    }
    Ok(())
}
