//! The first fault of a text by the rules of names, types, modes and ranges.
use crate::texts::{number_at, statements_of};
use il_core::{Code, Name};
use il_types::first_refusal;
use std::alloc::Global;
use std::test::Fail;

/// A declaration, which is statement 2, a precondition, statement 6, an assignment, statement 8, and what refuses them.
type Case<'a> = (&'a str, &'a str, &'a str, Option<(Code, usize, &'a str)>);

/// Whether the first refusal of a case is the wanted one: its code, the number of its statement, and its name, if any.
fn is_as(alloc: Global, case: &Case) -> Result<bool, Fail> {
    let (declared, condition, assigned, wanted) = case;
    let text = format!(in alloc;
        "TITLE t;CONST c = 3;TYPE {declared};PROC p;IN a : 0 .. c;LOCAL b : BOOL;PRE {condition};POST TRUE;{assigned};ENDPROC;FINISH;"
    )?;
    let Ok(stmts) = statements_of(alloc, text.as_bytes())? else {
        return Err(Fail::from("no statements"));
    };
    match (first_refusal(alloc, stmts.as_slice())?, wanted) {
        (None, None) => Ok(true),
        (Some(found), Some((code, number, name))) => Ok(
            found.code == *code
                && number_at(text.as_str(), found.place) == *number
                && found.name == Name::new(name.as_bytes()),
        ),
        _ => Ok(false),
    }
}

#[test]
fn texts_are_answered(rt: HostRuntime) -> Result<(), Fail> {
    let cases: [Case; 9] = [
        ("r = 0 .. 9", "TRUE", "b := FALSE", None),
        (
            "e = ( x , e )",
            "TRUE",
            "b := TRUE",
            Some((Code::Twice, 2, "e")),
        ),
        (
            "e = ( x , b )",
            "TRUE",
            "b := TRUE",
            Some((Code::Twice, 5, "b")),
        ),
        (
            "r = 0 .. a",
            "TRUE",
            "b := TRUE",
            Some((Code::Unknown, 2, "a")),
        ),
        ("r = 0 .. 9", "TRUE", "b := a", Some((Code::Typing, 8, ""))),
        (
            "e = ( x , y )",
            "x",
            "b := TRUE",
            Some((Code::Typing, 6, "")),
        ),
        ("r = 0 .. 9", "b", "b := TRUE", Some((Code::Access, 6, ""))),
        ("r = 0 .. 9", "TRUE", "a := 1", Some((Code::Access, 8, ""))),
        (
            "r = 4 .. c",
            "TRUE",
            "b := TRUE",
            Some((Code::EmptyRange, 2, "")),
        ),
    ];
    for case in cases.iter() {
        let (declared, condition, assigned, _) = case;
        assert!(rt;
            is_as(rt.alloc(), case)?,
            "{declared} {condition} {assigned}"
        );
    }
    Ok(())
}
