//! Limits that calls reach and pass, in texts that are built.
use crate::rows::is_answered;
use il_core::{Code, Many};
use std::alloc::Global;
use std::test::Fail;

/// A procedure of a name with these variables and so many lines, its PRE and ENDPROC among them.
fn skips(alloc: Global, name: &str, variables: &str, lines: usize) -> Result<String, Fail> {
    let mut text = format!(in alloc; "PROC {name};{variables}PRE TRUE;POST TRUE;")?;
    for _ in 2..lines {
        text.push_str("SKIP;")?;
    }
    text.push_str("ENDPROC;")?;
    Ok(text)
}

#[test]
fn calls_count_as_their_expansions(rt: HostRuntime) -> Result<(), Fail> {
    let lines = Some((Code::TooMany(Many::Lines), ""));
    let x = "INOUT x : 0 .. 9;";
    // the variables and the lines of a procedure `a`, the variables of the caller and its body, and the answer
    let cases = [
        // what `a` is and a call of it: 1,000 lines
        ("", 998, "", "CALL a;", None),
        ("", 999, "", "CALL a;^", lines),
        ("", 1000, "", "^CALL a;", lines),
        // values in and out, and an OLD copy
        ("INOUT v : 0 .. 9;", 995, x, "CALL a (x);", None),
        ("INOUT v : 0 .. 9;", 996, x, "CALL a (x);^", lines),
        (
            "IN v : 0 .. 9;LOCAL w : BOOL;",
            996,
            "",
            "CALL a (1);",
            None,
        ),
        (
            "IN v : 0 .. 9;LOCAL w : BOOL;",
            997,
            "",
            "CALL a (1);^",
            lines,
        ),
        ("OUT v : 0 .. 9;", 996, x, "CALL a (x);", None),
        ("OUT v : 0 .. 9;", 997, x, "CALL a (x);^", lines),
        // the second call passes the limit
        ("", 500, "", "CALL a;^CALL a;", lines),
        // lines that a call which does not fit counts as
        ("INOUT v : 0 .. 9;", 1000, x, "^CALL a;", lines),
    ];
    for (declared, count, variables, body, wanted) in cases {
        let called = skips(rt.alloc(), "a", declared, count)?;
        let text = format!(in rt.alloc();
            "TITLE t;{called}PROC p;{variables}PRE TRUE;POST TRUE;{body}ENDPROC;FINISH;"
        )?;
        assert!(rt;
            is_answered(rt.alloc(), text.as_str(), wanted)?,
            "{declared} {count} {body}"
        );
    }
    Ok(())
}

#[test]
fn calls_of_calls_count_too(rt: HostRuntime) -> Result<(), Fail> {
    let called = skips(rt.alloc(), "a", "", 499)?;
    let cases = [
        ("CALL a;^CALL c;", Some((Code::TooMany(Many::Lines), ""))),
        ("CALL a;", None),
    ];
    for (body, wanted) in cases {
        let text = format!(in rt.alloc();
            "TITLE t;{called}PROC c;PRE TRUE;POST TRUE;CALL a;ENDPROC;PROC p;PRE TRUE;POST TRUE;{body}ENDPROC;FINISH;"
        )?;
        assert!(rt; is_answered(rt.alloc(), text.as_str(), wanted)?, "{body}");
    }
    Ok(())
}
