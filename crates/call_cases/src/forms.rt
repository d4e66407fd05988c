//! The forms of CALL, and where it may stand.
use crate::rows::is_answered;
use il_core::Code;
use std::test::Fail;

#[test]
fn calls_have_two_forms(rt: HostRuntime) -> Result<(), Fail> {
    let rows = [
        // a call without arguments
        (
            "TITLE t;PROC nil;PRE TRUE;POST TRUE;ENDPROC;PROC p;PRE TRUE;POST TRUE;CALL nil;ENDPROC;FINISH;",
            None,
        ),
        // a call with one argument
        (
            "TITLE t;PROC inc;INOUT v : 0 .. 9;PRE v <= 8;POST v = OLD v + 1;v := v + 1;ENDPROC;PROC p;INOUT x : 0 .. 9;PRE TRUE;POST TRUE;CALL inc (x);ENDPROC;FINISH;",
            None,
        ),
        // a call with several arguments, over white space and comments
        (
            "TITLE t;PROC get;IN i : 0 .. 9;OUT o : 0 .. 9;LOCAL l : 0 .. 9;PRE TRUE;POST TRUE;l := i;o := l;ENDPROC;PROC p;INOUT x : 0 .. 9;PRE TRUE;POST TRUE;CALL get\n( 1 [ in ] , x );ENDPROC;FINISH;",
            None,
        ),
        // no name
        (
            "TITLE t;PROC nil;PRE TRUE;POST TRUE;ENDPROC;PROC p;PRE TRUE;POST TRUE;^CALL;ENDPROC;FINISH;",
            Some((Code::Syntax, "")),
        ),
        // a number in place of a name
        (
            "TITLE t;PROC nil;PRE TRUE;POST TRUE;ENDPROC;PROC p;PRE TRUE;POST TRUE;^CALL 3;ENDPROC;FINISH;",
            Some((Code::Syntax, "")),
        ),
        // a keyword in place of a name
        (
            "TITLE t;PROC nil;PRE TRUE;POST TRUE;ENDPROC;PROC p;PRE TRUE;POST TRUE;^CALL IF;ENDPROC;FINISH;",
            Some((Code::Syntax, "")),
        ),
        // arguments in place of a name
        (
            "TITLE t;PROC inc;INOUT v : 0 .. 9;PRE v <= 8;POST v = OLD v + 1;v := v + 1;ENDPROC;PROC p;INOUT x : 0 .. 9;PRE TRUE;POST TRUE;^CALL (x);ENDPROC;FINISH;",
            Some((Code::Syntax, "")),
        ),
        // empty parentheses
        (
            "TITLE t;PROC nil;PRE TRUE;POST TRUE;ENDPROC;PROC p;PRE TRUE;POST TRUE;^CALL nil ();ENDPROC;FINISH;",
            Some((Code::Syntax, "")),
        ),
        // no parentheses
        (
            "TITLE t;PROC inc;INOUT v : 0 .. 9;PRE v <= 8;POST v = OLD v + 1;v := v + 1;ENDPROC;PROC p;INOUT x : 0 .. 9;PRE TRUE;POST TRUE;^CALL inc x;ENDPROC;FINISH;",
            Some((Code::Syntax, "")),
        ),
        // a comma too many behind
        (
            "TITLE t;PROC inc;INOUT v : 0 .. 9;PRE v <= 8;POST v = OLD v + 1;v := v + 1;ENDPROC;PROC p;INOUT x : 0 .. 9;PRE TRUE;POST TRUE;^CALL inc (x,);ENDPROC;FINISH;",
            Some((Code::Syntax, "")),
        ),
        // a comma too many in front
        (
            "TITLE t;PROC inc;INOUT v : 0 .. 9;PRE v <= 8;POST v = OLD v + 1;v := v + 1;ENDPROC;PROC p;INOUT x : 0 .. 9;PRE TRUE;POST TRUE;^CALL inc (, x);ENDPROC;FINISH;",
            Some((Code::Syntax, "")),
        ),
        // no comma
        (
            "TITLE t;PROC two;INOUT v : 0 .. 9;OUT w : 0 .. 9;PRE TRUE;POST TRUE;w := v;ENDPROC;PROC p;INOUT x : 0 .. 9;INOUT y : 0 .. 9;PRE TRUE;POST TRUE;^CALL two (x y);ENDPROC;FINISH;",
            Some((Code::Syntax, "")),
        ),
        // parentheses that are not closed
        (
            "TITLE t;PROC inc;INOUT v : 0 .. 9;PRE v <= 8;POST v = OLD v + 1;v := v + 1;ENDPROC;PROC p;INOUT x : 0 .. 9;PRE TRUE;POST TRUE;^CALL inc (x;ENDPROC;FINISH;",
            Some((Code::Syntax, "")),
        ),
        // two lists
        (
            "TITLE t;PROC inc;INOUT v : 0 .. 9;PRE v <= 8;POST v = OLD v + 1;v := v + 1;ENDPROC;PROC p;INOUT x : 0 .. 9;PRE TRUE;POST TRUE;^CALL inc (x) (x);ENDPROC;FINISH;",
            Some((Code::Syntax, "")),
        ),
        // a mode in the list
        (
            "TITLE t;PROC inc;INOUT v : 0 .. 9;PRE v <= 8;POST v = OLD v + 1;v := v + 1;ENDPROC;PROC p;INOUT x : 0 .. 9;PRE TRUE;POST TRUE;^CALL inc (INOUT x);ENDPROC;FINISH;",
            Some((Code::Syntax, "")),
        ),
        // a name without CALL
        (
            "TITLE t;PROC inc;INOUT v : 0 .. 9;PRE v <= 8;POST v = OLD v + 1;v := v + 1;ENDPROC;PROC p;INOUT x : 0 .. 9;PRE TRUE;POST TRUE;^inc (x);ENDPROC;FINISH;",
            Some((Code::Syntax, "")),
        ),
        // an argument that chains comparisons
        (
            "TITLE t;PROC see;IN i : 0 .. 9;IN j : 0 .. 9;PRE TRUE;POST TRUE;ENDPROC;PROC p;INOUT x : 0 .. 9;PRE TRUE;POST TRUE;^CALL see (1 < 2 < 3, 4);ENDPROC;FINISH;",
            Some((Code::Syntax, "")),
        ),
        // an argument of depth 201
        (
            "TITLE t;PROC see;IN i : 0 .. 9;IN j : 0 .. 9;PRE TRUE;POST TRUE;ENDPROC;PROC p;PRE TRUE;POST TRUE;^CALL see (1, ((((((((((((((((((((((((((((((((((((((((((((((((((((((((((((((((((((((((((((((((((((((((((((((((((((((((((((((((((((((((((((((((((((((((((((((((((((((((((((((((((((((((((((((((((((((((((((((((((((((((2)))))))))))))))))))))))))))))))))))))))))))))))))))))))))))))))))))))))))))))))))))))))))))))))))))))))))))))))))))))))))))))))))))))))))))))))))))))))))))))))))))))))))))))))))))))))))))))))))))))))));ENDPROC;FINISH;",
            Some((Code::Syntax, "")),
        ),
        // a call before the procedures
        (
            "TITLE t;^CALL p;PROC p;PRE TRUE;POST TRUE;ENDPROC;FINISH;",
            Some((Code::Order, "")),
        ),
        // a call between procedures
        (
            "TITLE t;PROC nil;PRE TRUE;POST TRUE;ENDPROC;^CALL nil;PROC p;PRE TRUE;POST TRUE;ENDPROC;FINISH;",
            Some((Code::Order, "")),
        ),
        // a call between variables
        (
            "TITLE t;PROC inc;INOUT v : 0 .. 9;PRE v <= 8;POST v = OLD v + 1;v := v + 1;ENDPROC;PROC p;INOUT x : 0 .. 9;^CALL inc (x);INOUT y : 0 .. 9;PRE TRUE;POST TRUE;ENDPROC;FINISH;",
            Some((Code::Order, "")),
        ),
        // a variable behind a call
        (
            "TITLE t;PROC inc;INOUT v : 0 .. 9;PRE v <= 8;POST v = OLD v + 1;v := v + 1;ENDPROC;PROC p;INOUT x : 0 .. 9;PRE TRUE;POST TRUE;CALL inc (x);^LOCAL z : BOOL;ENDPROC;FINISH;",
            Some((Code::Order, "")),
        ),
        // calls in tests and loops
        (
            "TITLE t;PROC inc;INOUT v : 0 .. 9;PRE v <= 8;POST v = OLD v + 1;v := v + 1;ENDPROC;PROC p;INOUT x : 0 .. 9;PRE TRUE;POST TRUE;IF x = 1;CALL inc (x);ELSE;LOOP;CALL inc (x);EXIT;ENDLOOP;ENDIF;ENDPROC;FINISH;",
            None,
        ),
        // a call opens no block
        (
            "TITLE t;PROC inc;INOUT v : 0 .. 9;PRE v <= 8;POST v = OLD v + 1;v := v + 1;ENDPROC;PROC p;INOUT x : 0 .. 9;PRE TRUE;POST TRUE;CALL inc (x);^ENDIF;ENDPROC;FINISH;",
            Some((Code::Unmatched, "")),
        ),
        // a procedure is no label
        (
            "TITLE t;PROC nil;PRE TRUE;POST TRUE;ENDPROC;PROC p;PRE TRUE;POST TRUE;CALL nil;^GOTO nil;ENDPROC;FINISH;",
            Some((Code::Unmatched, "")),
        ),
        // a label with the name of the procedure called
        (
            "TITLE t;PROC nil;PRE TRUE;POST TRUE;ENDPROC;PROC p;PRE TRUE;POST TRUE;GOTO nil;LABEL nil;CALL nil;ENDPROC;FINISH;",
            None,
        ),
    ];
    for (text, wanted) in rows {
        assert!(rt; is_answered(rt.alloc(), text, wanted)?, "{text}");
    }
    Ok(())
}
