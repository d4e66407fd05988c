//! Names that are declared twice, and names that are unknown.
use crate::rows::is_answered;
use il_core::Code;
use std::test::Fail;

#[test]
fn names_are_known_and_declared_once(rt: HostRuntime) -> Result<(), Fail> {
    let rows = [
        // a variable has the new name of a variable
        (
            "TITLE t;PROC inc;INOUT v : 0 .. 9;PRE v <= 8;POST v = OLD v + 1;v := v + 1;ENDPROC;PROC p;INOUT x : 0 .. 9;LOCAL c1_v : BOOL;PRE TRUE;POST TRUE;^CALL inc (x);ENDPROC;FINISH;",
            Some((Code::Twice, "c1_v")),
        ),
        // a variable has the new name of another call
        (
            "TITLE t;PROC inc;INOUT v : 0 .. 9;PRE v <= 8;POST v = OLD v + 1;v := v + 1;ENDPROC;PROC p;INOUT x : 0 .. 9;LOCAL c2_v : BOOL;PRE TRUE;POST TRUE;CALL inc (x);ENDPROC;FINISH;",
            None,
        ),
        // a variable has the new name in capitals
        (
            "TITLE t;PROC inc;INOUT v : 0 .. 9;PRE v <= 8;POST v = OLD v + 1;v := v + 1;ENDPROC;PROC p;INOUT x : 0 .. 9;LOCAL C1_v : BOOL;PRE TRUE;POST TRUE;CALL inc (x);ENDPROC;FINISH;",
            None,
        ),
        // a variable has a new name with a zero in front
        (
            "TITLE t;PROC inc;INOUT v : 0 .. 9;PRE v <= 8;POST v = OLD v + 1;v := v + 1;ENDPROC;PROC p;INOUT x : 0 .. 9;LOCAL c01_v : BOOL;PRE TRUE;POST TRUE;CALL inc (x);ENDPROC;FINISH;",
            None,
        ),
        // a variable has the new name of an OLD copy
        (
            "TITLE t;PROC inc;INOUT v : 0 .. 9;PRE v <= 8;POST v = OLD v + 1;v := v + 1;ENDPROC;PROC p;INOUT x : 0 .. 9;IN o1_v : BOOL;PRE TRUE;POST TRUE;^CALL inc (x);ENDPROC;FINISH;",
            Some((Code::Twice, "o1_v")),
        ),
        // an IN parameter has no OLD copy
        (
            "TITLE t;PROC get;IN i : 0 .. 9;OUT o : 0 .. 9;LOCAL l : 0 .. 9;PRE TRUE;POST TRUE;l := i;o := l;ENDPROC;PROC p;INOUT x : 0 .. 9;IN o1_i : BOOL;PRE TRUE;POST TRUE;CALL get (1, x);ENDPROC;FINISH;",
            None,
        ),
        // a LOCAL variable is brought too
        (
            "TITLE t;PROC get;IN i : 0 .. 9;OUT o : 0 .. 9;LOCAL l : 0 .. 9;PRE TRUE;POST TRUE;l := i;o := l;ENDPROC;PROC p;INOUT x : 0 .. 9;OUT c1_l : BOOL;PRE TRUE;POST TRUE;^CALL get (1, x);ENDPROC;FINISH;",
            Some((Code::Twice, "c1_l")),
        ),
        // the second call brings the name
        (
            "TITLE t;PROC inc;INOUT v : 0 .. 9;PRE v <= 8;POST v = OLD v + 1;v := v + 1;ENDPROC;PROC p;INOUT x : 0 .. 9;LOCAL c2_v : BOOL;PRE TRUE;POST TRUE;CALL inc (x);^CALL inc (x);ENDPROC;FINISH;",
            Some((Code::Twice, "c2_v")),
        ),
        // a call behind a RETURN counts
        (
            "TITLE t;PROC inc;INOUT v : 0 .. 9;PRE v <= 8;POST v = OLD v + 1;v := v + 1;ENDPROC;PROC p;INOUT x : 0 .. 9;LOCAL c2_v : BOOL;PRE TRUE;POST TRUE;CALL inc (x);RETURN;^CALL inc (x);ENDPROC;FINISH;",
            Some((Code::Twice, "c2_v")),
        ),
        // calls are counted in each procedure
        (
            "TITLE t;PROC inc;INOUT v : 0 .. 9;PRE v <= 8;POST v = OLD v + 1;v := v + 1;ENDPROC;PROC outer;INOUT y : 0 .. 9;PRE TRUE;POST TRUE;CALL inc (y);ENDPROC;PROC p;INOUT x : 0 .. 9;LOCAL c2_v : BOOL;PRE TRUE;POST TRUE;CALL inc (x);ENDPROC;FINISH;",
            None,
        ),
        // the tenth call
        (
            "TITLE t;PROC inc;INOUT v : 0 .. 9;PRE v <= 8;POST v = OLD v + 1;v := v + 1;ENDPROC;PROC p;INOUT x : 0 .. 9;LOCAL c10_v : BOOL;PRE TRUE;POST TRUE;CALL inc (x);CALL inc (x);CALL inc (x);CALL inc (x);CALL inc (x);CALL inc (x);CALL inc (x);CALL inc (x);CALL inc (x);^CALL inc (x);ENDPROC;FINISH;",
            Some((Code::Twice, "c10_v")),
        ),
        // a call of its own counts
        (
            "TITLE t;PROC inc;INOUT v : 0 .. 9;PRE v <= 8;POST v = OLD v + 1;v := v + 1;ENDPROC;PROC p;INOUT x : 0 .. 9;LOCAL c2_v : BOOL;PRE TRUE;POST TRUE;CALL p (x);^CALL inc (x);ENDPROC;FINISH;",
            Some((Code::Twice, "c2_v")),
        ),
        // a call of its own brings nothing
        (
            "TITLE t;PROC inc;INOUT v : 0 .. 9;PRE v <= 8;POST v = OLD v + 1;v := v + 1;ENDPROC;PROC p;INOUT x : 0 .. 9;LOCAL c1_x : BOOL;PRE TRUE;POST TRUE;^CALL p (x);ENDPROC;FINISH;",
            Some((Code::BadCall, "")),
        ),
        // a call of an unknown procedure counts
        (
            "TITLE t;PROC inc;INOUT v : 0 .. 9;PRE v <= 8;POST v = OLD v + 1;v := v + 1;ENDPROC;PROC p;INOUT x : 0 .. 9;LOCAL c2_v : BOOL;PRE TRUE;POST TRUE;CALL q;^CALL inc (x);ENDPROC;FINISH;",
            Some((Code::Twice, "c2_v")),
        ),
        // a call of a later procedure brings nothing
        (
            "TITLE t;PROC p;INOUT x : 0 .. 9;LOCAL c1_v : BOOL;PRE TRUE;POST TRUE;^CALL inc (x);ENDPROC;PROC inc;INOUT v : 0 .. 9;PRE v <= 8;POST v = OLD v + 1;v := v + 1;ENDPROC;FINISH;",
            Some((Code::Unknown, "inc")),
        ),
        // a call that does not fit brings its places
        (
            "TITLE t;PROC inc;INOUT v : 0 .. 9;PRE v <= 8;POST v = OLD v + 1;v := v + 1;ENDPROC;PROC p;INOUT x : 0 .. 9;LOCAL c1_v : BOOL;PRE TRUE;POST TRUE;^CALL inc;ENDPROC;FINISH;",
            Some((Code::Twice, "c1_v")),
        ),
        // what an inner call brought
        (
            "TITLE t;PROC inc;INOUT v : 0 .. 9;PRE v <= 8;POST v = OLD v + 1;v := v + 1;ENDPROC;PROC outer;INOUT y : 0 .. 9;PRE TRUE;POST TRUE;CALL inc (y);ENDPROC;PROC p;INOUT x : 0 .. 9;LOCAL c1_c1_v : BOOL;PRE TRUE;POST TRUE;^CALL outer (x);ENDPROC;FINISH;",
            Some((Code::Twice, "c1_c1_v")),
        ),
        // an OLD copy that an inner call brought
        (
            "TITLE t;PROC inc;INOUT v : 0 .. 9;PRE v <= 8;POST v = OLD v + 1;v := v + 1;ENDPROC;PROC outer;INOUT y : 0 .. 9;PRE TRUE;POST TRUE;CALL inc (y);ENDPROC;PROC p;INOUT x : 0 .. 9;LOCAL c1_o1_v : BOOL;PRE TRUE;POST TRUE;^CALL outer (x);ENDPROC;FINISH;",
            Some((Code::Twice, "c1_o1_v")),
        ),
        // an inner place is no OLD copy
        (
            "TITLE t;PROC inc;INOUT v : 0 .. 9;PRE v <= 8;POST v = OLD v + 1;v := v + 1;ENDPROC;PROC outer;INOUT y : 0 .. 9;PRE TRUE;POST TRUE;CALL inc (y);ENDPROC;PROC p;INOUT x : 0 .. 9;LOCAL o1_o1_v : BOOL;LOCAL o1_c1_v : BOOL;PRE TRUE;POST TRUE;CALL outer (x);ENDPROC;FINISH;",
            None,
        ),
        // a variable before an OLD copy
        (
            "TITLE t;PROC inc;INOUT v : 0 .. 9;PRE v <= 8;POST v = OLD v + 1;v := v + 1;ENDPROC;PROC p;INOUT x : 0 .. 9;LOCAL o1_v : BOOL;LOCAL c1_v : BOOL;PRE TRUE;POST TRUE;^CALL inc (x);ENDPROC;FINISH;",
            Some((Code::Twice, "c1_v")),
        ),
        // what an inner call brought before an OLD copy
        (
            "TITLE t;PROC inc;INOUT v : 0 .. 9;PRE v <= 8;POST v = OLD v + 1;v := v + 1;ENDPROC;PROC outer;INOUT y : 0 .. 9;PRE TRUE;POST TRUE;CALL inc (y);ENDPROC;PROC p;INOUT x : 0 .. 9;LOCAL o1_y : BOOL;LOCAL c1_o1_v : BOOL;PRE TRUE;POST TRUE;^CALL outer (x);ENDPROC;FINISH;",
            Some((Code::Twice, "c1_o1_v")),
        ),
        // variables in the callee's order
        (
            "TITLE t;PROC two;INOUT v : 0 .. 9;OUT w : 0 .. 9;PRE TRUE;POST TRUE;w := v;ENDPROC;PROC p;INOUT x : 0 .. 9;INOUT y : 0 .. 9;LOCAL c1_w : BOOL;LOCAL c1_v : BOOL;PRE TRUE;POST TRUE;^CALL two (x, y);ENDPROC;FINISH;",
            Some((Code::Twice, "c1_v")),
        ),
        // a later procedure has the new name
        (
            "TITLE t;PROC inc;INOUT v : 0 .. 9;PRE v <= 8;POST v = OLD v + 1;v := v + 1;ENDPROC;PROC p;INOUT x : 0 .. 9;PRE TRUE;POST TRUE;CALL inc (x);ENDPROC;PROC c1_v;PRE TRUE;POST TRUE;ENDPROC;FINISH;",
            None,
        ),
        // a constant, a type and a value with new names
        (
            "TITLE t;CONST c1_v = 1;TYPE o1_v = ( c2_v );PROC inc;INOUT v : 0 .. 9;PRE v <= 8;POST v = OLD v + 1;v := v + 1;ENDPROC;PROC p;INOUT x : 0 .. 9;PRE TRUE;POST TRUE;CALL inc (x);CALL inc (x);ENDPROC;FINISH;",
            None,
        ),
        // a variable of the procedure called has such a name
        (
            "TITLE t;PROC a;IN c1_v : BOOL;PRE TRUE;POST TRUE;ENDPROC;PROC inc;INOUT v : 0 .. 9;PRE v <= 8;POST v = OLD v + 1;v := v + 1;ENDPROC;PROC p;INOUT x : 0 .. 9;PRE TRUE;POST TRUE;CALL inc (x);ENDPROC;FINISH;",
            None,
        ),
        // an earlier fault of names comes first
        (
            "TITLE t;PROC inc;INOUT v : 0 .. 9;PRE v <= 8;POST v = OLD v + 1;v := v + 1;ENDPROC;PROC p;INOUT x : 0 .. 9;^LOCAL x : BOOL;LOCAL c1_v : BOOL;PRE TRUE;POST TRUE;CALL inc (x);ENDPROC;FINISH;",
            Some((Code::Twice, "x")),
        ),
        // no procedure of the name
        (
            "TITLE t;PROC nil;PRE TRUE;POST TRUE;ENDPROC;PROC p;PRE TRUE;POST TRUE;^CALL q;ENDPROC;FINISH;",
            Some((Code::Unknown, "q")),
        ),
        // a later procedure
        (
            "TITLE t;PROC p;PRE TRUE;POST TRUE;^CALL nil;ENDPROC;PROC nil;PRE TRUE;POST TRUE;ENDPROC;FINISH;",
            Some((Code::Unknown, "nil")),
        ),
        // an earlier procedure
        (
            "TITLE t;PROC nil;PRE TRUE;POST TRUE;ENDPROC;PROC p;PRE TRUE;POST TRUE;CALL nil;ENDPROC;FINISH;",
            None,
        ),
        // an argument without declaration
        (
            "TITLE t;PROC inc;INOUT v : 0 .. 9;PRE v <= 8;POST v = OLD v + 1;v := v + 1;ENDPROC;PROC p;INOUT x : 0 .. 9;PRE TRUE;POST TRUE;^CALL inc (z);ENDPROC;FINISH;",
            Some((Code::Unknown, "z")),
        ),
        // a variable of the procedure called
        (
            "TITLE t;PROC inc;INOUT v : 0 .. 9;PRE v <= 8;POST v = OLD v + 1;v := v + 1;ENDPROC;PROC p;INOUT x : 0 .. 9;PRE TRUE;POST TRUE;^CALL inc (v);ENDPROC;FINISH;",
            Some((Code::Unknown, "v")),
        ),
        // a variable that both have
        (
            "TITLE t;PROC inc;INOUT v : 0 .. 9;PRE v <= 8;POST v = OLD v + 1;v := v + 1;ENDPROC;PROC p;INOUT v : 0 .. 9;PRE TRUE;POST TRUE;CALL inc (v);ENDPROC;FINISH;",
            None,
        ),
        // the name called is the first
        (
            "TITLE t;PROC inc;INOUT v : 0 .. 9;PRE v <= 8;POST v = OLD v + 1;v := v + 1;ENDPROC;PROC p;INOUT x : 0 .. 9;PRE TRUE;POST TRUE;^CALL q (z);ENDPROC;FINISH;",
            Some((Code::Unknown, "q")),
        ),
        // the first of two arguments
        (
            "TITLE t;PROC see;IN i : 0 .. 9;IN j : 0 .. 9;PRE TRUE;POST TRUE;ENDPROC;PROC p;INOUT x : 0 .. 9;PRE TRUE;POST TRUE;^CALL see (1 + z, y);ENDPROC;FINISH;",
            Some((Code::Unknown, "z")),
        ),
        // an argument past the last parameter
        (
            "TITLE t;PROC inc;INOUT v : 0 .. 9;PRE v <= 8;POST v = OLD v + 1;v := v + 1;ENDPROC;PROC p;INOUT x : 0 .. 9;PRE TRUE;POST TRUE;^CALL inc (x, z);ENDPROC;FINISH;",
            Some((Code::Unknown, "z")),
        ),
        // an argument of what is no procedure
        (
            "TITLE t;CONST k = 3;TYPE r = 0 .. 9;TYPE hue = ( red, green );TYPE tone = ( high, low );PROC p;INOUT x : 0 .. 9;PRE TRUE;POST TRUE;^CALL k (z);ENDPROC;FINISH;",
            Some((Code::Unknown, "z")),
        ),
        // a name under OLD
        (
            "TITLE t;PROC see;IN i : 0 .. 9;IN j : 0 .. 9;PRE TRUE;POST TRUE;ENDPROC;PROC p;INOUT x : 0 .. 9;PRE TRUE;POST TRUE;^CALL see (1, OLD z);ENDPROC;FINISH;",
            Some((Code::Unknown, "z")),
        ),
        // the title is no procedure
        (
            "TITLE t;PROC nil;PRE TRUE;POST TRUE;ENDPROC;PROC p;PRE TRUE;POST TRUE;^CALL t;ENDPROC;FINISH;",
            Some((Code::Unknown, "t")),
        ),
        // a label is no procedure
        (
            "TITLE t;PROC nil;PRE TRUE;POST TRUE;ENDPROC;PROC p;PRE TRUE;POST TRUE;LABEL a;^CALL a;ENDPROC;FINISH;",
            Some((Code::Unknown, "a")),
        ),
    ];
    for (text, wanted) in rows {
        assert!(rt; is_answered(rt.alloc(), text, wanted)?, "{text}");
    }
    Ok(())
}
