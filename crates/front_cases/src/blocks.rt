//! The links of lines.
use crate::texts::{number_at, statements_of};
use il_blocks::{check_blocks, match_blocks, one_links, one_match};
use il_core::{Link, NoMemory, TextEnd};
use std::alloc::Global;
use std::test::Fail;

/// Lines with their targets, as `3` or `3>5`.
fn shown(alloc: Global, links: &[Link]) -> Result<String, Fail> {
    let mut out = String::new(alloc);
    for link in links {
        match link {
            Link::NoLine => {}
            Link::Plain(line) => out.push_str(format!(in alloc; "{line} ")?.as_str())?,
            Link::Jump(line, target) => out.push_str(format!(in alloc;
                "{line}>{target} "
            )?.as_str())?,
        }
    }
    Ok(out)
}

/// The links of the lines of a body, or the number of the statement at fault; the body begins with statement 4.
fn answer(alloc: Global, body: &str) -> Result<String, Fail> {
    let text = format!(in alloc; "TITLE t;PROC p;PRE TRUE;POST TRUE;{body}ENDPROC;FINISH;")?;
    let Ok(stmts) = statements_of(alloc, text.as_bytes())? else {
        return Ok(format!(in alloc; "no statements")?);
    };
    match match_blocks(alloc, stmts.as_slice()) {
        Ok(links) => shown(alloc, links.as_slice()),
        Err(TextEnd::Refused(refusal)) => {
            let number = number_at(text.as_str(), refusal.place);
            Ok(format!(in alloc; "at {number}")?)
        }
        Err(TextEnd::NoMemory) => Err(Fail::from(NoMemory)),
    }
}

fn is_as(alloc: Global, body: &str, want: &str) -> Result<bool, Fail> {
    Ok(answer(alloc, body)?.as_str() == want)
}

#[test]
fn links_are_those_of_the_line_machine(rt: HostRuntime) -> Result<(), Fail> {
    let cases = [
        ("SKIP;", "0 1 2 "),
        // An IF without ELSE, one with ELSE.
        ("IF TRUE;SKIP;ENDIF;", "0 1>3 2 3 4 "),
        ("IF TRUE;SKIP;ELSE;SKIP;ENDIF;", "0 1>4 2 3>5 4 5 6 "),
        // An EXIT in an IF inside a LOOP.
        (
            "LOOP;IF TRUE;EXIT;ENDIF;EXIT WHEN TRUE;ENDLOOP;SKIP;",
            "0 1 2>4 3>7 4 5>7 6>1 7 8 ",
        ),
        // A GOTO forward, backward and into a block.
        (
            "GOTO a;GOTO b;LABEL a;GOTO a;LOOP;LABEL b;ENDLOOP;",
            "0 1>3 2>6 3 4>3 5 6 7>5 8 ",
        ),
        ("IF TRUE;RETURN;ENDIF;SKIP;", "0 1>3 2>5 3 4 5 "),
        // Blocks ten deep.
        (
            "IF TRUE;LOOP;IF TRUE;LOOP;IF TRUE;LOOP;IF TRUE;LOOP;IF TRUE;LOOP;EXIT;ENDLOOP;ENDIF;ENDLOOP;ENDIF;ENDLOOP;ENDIF;ENDLOOP;ENDIF;ENDLOOP;ENDIF;",
            "0 1>21 2 3>19 4 5>17 6 7>15 8 9>13 10 11>13 12>10 13 14>8 15 16>6 17 18>4 19 20>2 21 22 ",
        ),
        // Two procedures with one label.
        (
            "LABEL a;RETURN;ENDPROC;PROC q;PRE TRUE;POST TRUE;GOTO a;SKIP;LABEL a;",
            "0 1 2>3 3 0 1>3 2 3 4 ",
        ),
        // Closers that fit no innermost open block.
        ("ELSE;", "at 4"),
        ("LOOP;ENDIF;ENDLOOP;", "at 5"),
        ("LOOP;IF TRUE;ENDLOOP;ENDIF;", "at 6"),
        // A second ELSE.
        ("IF TRUE;ELSE;ELSE;ENDIF;", "at 6"),
        // An EXIT in no LOOP.
        ("IF TRUE;EXIT;ENDIF;", "at 5"),
        ("LOOP;ENDLOOP;EXIT WHEN TRUE;", "at 6"),
        // A block that is open at ENDPROC.
        ("IF TRUE;", "at 5"),
        ("LOOP;ENDPROC;PROC q;PRE TRUE;POST TRUE;ENDLOOP;", "at 5"),
        // A LABEL that repeats one of its procedure.
        ("LABEL a;LABEL b;LABEL a;", "at 6"),
        // A GOTO that names no LABEL of its procedure.
        ("GOTO a;", "at 4"),
        ("LABEL a;ENDPROC;PROC q;PRE TRUE;POST TRUE;GOTO a;", "at 9"),
        // The first of several faults.
        ("GOTO a;ELSE;EXIT;", "at 4"),
        ("ELSE;GOTO a;EXIT;", "at 4"),
        ("LABEL a;EXIT;LABEL a;GOTO b;", "at 5"),
    ];
    for (body, want) in cases {
        assert!(rt; is_as(rt.alloc(), body, want)?, "at {body}");
    }
    Ok(())
}

#[test]
fn no_statements_have_no_fault(rt: HostRuntime) {
    one_match();
    one_links();
    assert_eq!(rt; check_blocks(rt.alloc(), &[]), Ok(()));
}
