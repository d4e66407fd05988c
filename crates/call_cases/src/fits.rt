//! Limits, and calls that do not fit.
use crate::rows::is_answered;
use il_core::{Code, Many};
use std::test::Fail;

#[test]
fn calls_fit_and_keep_the_limits(rt: HostRuntime) -> Result<(), Fail> {
    let rows = [
        // the second call passes 64 places
        (
            "TITLE t;PROC a;LOCAL a0 : 0 .. 9;LOCAL a1 : 0 .. 9;LOCAL a2 : 0 .. 9;LOCAL a3 : 0 .. 9;LOCAL a4 : 0 .. 9;LOCAL a5 : 0 .. 9;LOCAL a6 : 0 .. 9;LOCAL a7 : 0 .. 9;LOCAL a8 : 0 .. 9;LOCAL a9 : 0 .. 9;LOCAL a10 : 0 .. 9;LOCAL a11 : 0 .. 9;LOCAL a12 : 0 .. 9;LOCAL a13 : 0 .. 9;LOCAL a14 : 0 .. 9;LOCAL a15 : 0 .. 9;LOCAL a16 : 0 .. 9;LOCAL a17 : 0 .. 9;LOCAL a18 : 0 .. 9;LOCAL a19 : 0 .. 9;LOCAL a20 : 0 .. 9;LOCAL a21 : 0 .. 9;LOCAL a22 : 0 .. 9;LOCAL a23 : 0 .. 9;LOCAL a24 : 0 .. 9;LOCAL a25 : 0 .. 9;LOCAL a26 : 0 .. 9;LOCAL a27 : 0 .. 9;LOCAL a28 : 0 .. 9;LOCAL a29 : 0 .. 9;PRE TRUE;POST TRUE;ENDPROC;PROC p;LOCAL b0 : 0 .. 9;LOCAL b1 : 0 .. 9;LOCAL b2 : 0 .. 9;LOCAL b3 : 0 .. 9;LOCAL b4 : 0 .. 9;PRE TRUE;POST TRUE;CALL a;^CALL a;ENDPROC;FINISH;",
            Some((Code::TooMany(Many::Places), "")),
        ),
        // its own procedure
        (
            "TITLE t;PROC nil;PRE TRUE;POST TRUE;ENDPROC;PROC p;PRE TRUE;POST TRUE;^CALL p;ENDPROC;FINISH;",
            Some((Code::BadCall, "")),
        ),
        // its own procedure with its arguments
        (
            "TITLE t;PROC inc;INOUT v : 0 .. 9;PRE v <= 8;POST v = OLD v + 1;v := v + 1;ENDPROC;PROC p;INOUT x : 0 .. 9;PRE TRUE;POST TRUE;CALL inc (x);^CALL p (x);ENDPROC;FINISH;",
            Some((Code::BadCall, "")),
        ),
        // the first procedure calls itself
        (
            "TITLE t;PROC p;INOUT x : 0 .. 9;PRE TRUE;POST TRUE;^CALL p (x);ENDPROC;FINISH;",
            Some((Code::BadCall, "")),
        ),
        // no argument for one parameter
        (
            "TITLE t;PROC inc;INOUT v : 0 .. 9;PRE v <= 8;POST v = OLD v + 1;v := v + 1;ENDPROC;PROC p;INOUT x : 0 .. 9;PRE TRUE;POST TRUE;^CALL inc;ENDPROC;FINISH;",
            Some((Code::BadCall, "")),
        ),
        // one argument for two parameters
        (
            "TITLE t;PROC two;INOUT v : 0 .. 9;OUT w : 0 .. 9;PRE TRUE;POST TRUE;w := v;ENDPROC;PROC p;INOUT x : 0 .. 9;PRE TRUE;POST TRUE;^CALL two (x);ENDPROC;FINISH;",
            Some((Code::BadCall, "")),
        ),
        // one argument for no parameter
        (
            "TITLE t;PROC nil;PRE TRUE;POST TRUE;ENDPROC;PROC p;INOUT x : 0 .. 9;PRE TRUE;POST TRUE;^CALL nil (x);ENDPROC;FINISH;",
            Some((Code::BadCall, "")),
        ),
        // a LOCAL variable is no parameter
        (
            "TITLE t;PROC get;IN i : 0 .. 9;OUT o : 0 .. 9;LOCAL l : 0 .. 9;PRE TRUE;POST TRUE;l := i;o := l;ENDPROC;PROC p;INOUT x : 0 .. 9;INOUT y : 0 .. 9;PRE TRUE;POST TRUE;^CALL get (1, x, y);ENDPROC;FINISH;",
            Some((Code::BadCall, "")),
        ),
        // an expression for INOUT
        (
            "TITLE t;PROC inc;INOUT v : 0 .. 9;PRE v <= 8;POST v = OLD v + 1;v := v + 1;ENDPROC;PROC p;INOUT x : 0 .. 9;PRE TRUE;POST TRUE;^CALL inc (x + 0);ENDPROC;FINISH;",
            Some((Code::BadCall, "")),
        ),
        // a number for INOUT
        (
            "TITLE t;PROC inc;INOUT v : 0 .. 9;PRE v <= 8;POST v = OLD v + 1;v := v + 1;ENDPROC;PROC p;INOUT x : 0 .. 9;PRE TRUE;POST TRUE;^CALL inc (3);ENDPROC;FINISH;",
            Some((Code::BadCall, "")),
        ),
        // a name in parentheses for INOUT
        (
            "TITLE t;PROC inc;INOUT v : 0 .. 9;PRE v <= 8;POST v = OLD v + 1;v := v + 1;ENDPROC;PROC p;INOUT x : 0 .. 9;PRE TRUE;POST TRUE;CALL inc (((x)));ENDPROC;FINISH;",
            None,
        ),
        // a name with a minus for INOUT
        (
            "TITLE t;PROC inc;INOUT v : 0 .. 9;PRE v <= 8;POST v = OLD v + 1;v := v + 1;ENDPROC;PROC p;INOUT x : 0 .. 9;PRE TRUE;POST TRUE;^CALL inc (-x);ENDPROC;FINISH;",
            Some((Code::BadCall, "")),
        ),
        // NOT NOT before a name for INOUT
        (
            "TITLE t;CONST k = 3;TYPE r = 0 .. 9;TYPE hue = ( red, green );TYPE tone = ( high, low );PROC tell;IN f : BOOL;IN h : hue;INOUT g : BOOL;OUT q : hue;PRE TRUE;POST TRUE;ENDPROC;PROC p;INOUT b : BOOL;OUT u : hue;LOCAL n : tone;INOUT x : 0 .. 9;PRE TRUE;POST TRUE;^CALL tell (b, red, NOT NOT b, u);ENDPROC;FINISH;",
            Some((Code::BadCall, "")),
        ),
        // one variable for INOUT and OUT
        (
            "TITLE t;PROC two;INOUT v : 0 .. 9;OUT w : 0 .. 9;PRE TRUE;POST TRUE;w := v;ENDPROC;PROC p;INOUT x : 0 .. 9;PRE TRUE;POST TRUE;^CALL two (x, x);ENDPROC;FINISH;",
            Some((Code::BadCall, "")),
        ),
        // one variable for INOUT and in parentheses for OUT
        (
            "TITLE t;PROC two;INOUT v : 0 .. 9;OUT w : 0 .. 9;PRE TRUE;POST TRUE;w := v;ENDPROC;PROC p;INOUT x : 0 .. 9;PRE TRUE;POST TRUE;^CALL two (x, (x));ENDPROC;FINISH;",
            Some((Code::BadCall, "")),
        ),
        // two variables for INOUT and OUT
        (
            "TITLE t;PROC two;INOUT v : 0 .. 9;OUT w : 0 .. 9;PRE TRUE;POST TRUE;w := v;ENDPROC;PROC p;INOUT x : 0 .. 9;INOUT y : 0 .. 9;PRE TRUE;POST TRUE;CALL two (x, y);ENDPROC;FINISH;",
            None,
        ),
        // one variable for IN and OUT
        (
            "TITLE t;PROC get;IN i : 0 .. 9;OUT o : 0 .. 9;LOCAL l : 0 .. 9;PRE TRUE;POST TRUE;l := i;o := l;ENDPROC;PROC p;INOUT x : 0 .. 9;PRE TRUE;POST TRUE;CALL get (x, x);ENDPROC;FINISH;",
            None,
        ),
        // one variable for IN twice
        (
            "TITLE t;PROC see;IN i : 0 .. 9;IN j : 0 .. 9;PRE TRUE;POST TRUE;ENDPROC;PROC p;INOUT x : 0 .. 9;PRE TRUE;POST TRUE;CALL see (x, x);ENDPROC;FINISH;",
            None,
        ),
        // a new name of 40 bytes
        (
            "TITLE t;PROC a;IN vvvvvvvvvvvvvvvvvvvvvvvvvvvvvvvvvvvvv : 0 .. 9;PRE TRUE;POST TRUE;ENDPROC;PROC p;PRE TRUE;POST TRUE;CALL a (1);ENDPROC;FINISH;",
            None,
        ),
        // a new name of 41 bytes
        (
            "TITLE t;PROC a;IN vvvvvvvvvvvvvvvvvvvvvvvvvvvvvvvvvvvvvv : 0 .. 9;PRE TRUE;POST TRUE;ENDPROC;PROC p;PRE TRUE;POST TRUE;^CALL a (1);ENDPROC;FINISH;",
            Some((Code::BadCall, "")),
        ),
        // a LOCAL variable's new name of 41 bytes
        (
            "TITLE t;PROC a;LOCAL vvvvvvvvvvvvvvvvvvvvvvvvvvvvvvvvvvvvvv : 0 .. 9;PRE TRUE;POST TRUE;ENDPROC;PROC p;PRE TRUE;POST TRUE;^CALL a;ENDPROC;FINISH;",
            Some((Code::BadCall, "")),
        ),
        // the tenth call makes 41 bytes
        (
            "TITLE t;PROC a;IN vvvvvvvvvvvvvvvvvvvvvvvvvvvvvvvvvvvvv : 0 .. 9;PRE TRUE;POST TRUE;ENDPROC;PROC p;PRE TRUE;POST TRUE;CALL a (1);CALL a (1);CALL a (1);CALL a (1);CALL a (1);CALL a (1);CALL a (1);CALL a (1);CALL a (1);^CALL a (1);ENDPROC;FINISH;",
            Some((Code::BadCall, "")),
        ),
        // an inner call makes 41 bytes
        (
            "TITLE t;PROC a;LOCAL vvvvvvvvvvvvvvvvvvvvvvvvvvvvvvvvvvv : BOOL;PRE TRUE;POST TRUE;ENDPROC;PROC c;PRE TRUE;POST TRUE;CALL a;ENDPROC;PROC p;PRE TRUE;POST TRUE;^CALL c;ENDPROC;FINISH;",
            Some((Code::BadCall, "")),
        ),
        // an inner call makes 40 bytes
        (
            "TITLE t;PROC a;LOCAL vvvvvvvvvvvvvvvvvvvvvvvvvvvvvvvvvv : BOOL;PRE TRUE;POST TRUE;ENDPROC;PROC c;PRE TRUE;POST TRUE;CALL a;ENDPROC;PROC p;PRE TRUE;POST TRUE;CALL c;ENDPROC;FINISH;",
            None,
        ),
        // a long name that is not called
        (
            "TITLE t;PROC a;LOCAL vvvvvvvvvvvvvvvvvvvvvvvvvvvvvvvvvvvvvvvv : BOOL;PRE TRUE;POST TRUE;ENDPROC;PROC nil;PRE TRUE;POST TRUE;ENDPROC;PROC p;PRE TRUE;POST TRUE;CALL nil;ENDPROC;FINISH;",
            None,
        ),
        // the first of two calls that do not fit
        (
            "TITLE t;PROC inc;INOUT v : 0 .. 9;PRE v <= 8;POST v = OLD v + 1;v := v + 1;ENDPROC;PROC p;INOUT x : 0 .. 9;PRE TRUE;POST TRUE;^CALL inc;CALL p;ENDPROC;FINISH;",
            Some((Code::BadCall, "")),
        ),
        // a wrong type behind a call that does not fit
        (
            "TITLE t;PROC inc;INOUT v : 0 .. 9;PRE v <= 8;POST v = OLD v + 1;v := v + 1;ENDPROC;PROC p;INOUT x : 0 .. 9;PRE TRUE;POST TRUE;CALL inc;^CALL inc (TRUE);ENDPROC;FINISH;",
            Some((Code::Typing, "")),
        ),
    ];
    for (text, wanted) in rows {
        assert!(rt; is_answered(rt.alloc(), text, wanted)?, "{text}");
    }
    Ok(())
}
