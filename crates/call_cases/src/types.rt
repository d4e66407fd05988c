//! What may be given to a parameter: types, modes and bounds.
use crate::rows::is_answered;
use il_core::Code;
use std::test::Fail;

#[test]
fn arguments_are_assigned(rt: HostRuntime) -> Result<(), Fail> {
    let rows = [
        // a call of a constant
        (
            "TITLE t;CONST k = 3;TYPE r = 0 .. 9;TYPE hue = ( red, green );TYPE tone = ( high, low );PROC p;INOUT x : 0 .. 9;PRE TRUE;POST TRUE;^CALL k;ENDPROC;FINISH;",
            Some((Code::Typing, "")),
        ),
        // a call of a type
        (
            "TITLE t;CONST k = 3;TYPE r = 0 .. 9;TYPE hue = ( red, green );TYPE tone = ( high, low );PROC p;INOUT x : 0 .. 9;PRE TRUE;POST TRUE;^CALL r;ENDPROC;FINISH;",
            Some((Code::Typing, "")),
        ),
        // a call of an enumeration's value
        (
            "TITLE t;CONST k = 3;TYPE r = 0 .. 9;TYPE hue = ( red, green );TYPE tone = ( high, low );PROC p;INOUT x : 0 .. 9;PRE TRUE;POST TRUE;^CALL red (x);ENDPROC;FINISH;",
            Some((Code::Typing, "")),
        ),
        // a call of a variable
        (
            "TITLE t;PROC nil;PRE TRUE;POST TRUE;ENDPROC;PROC p;INOUT x : 0 .. 9;PRE TRUE;POST TRUE;^CALL x;ENDPROC;FINISH;",
            Some((Code::Typing, "")),
        ),
        // a call of a variable that a later procedure is named after
        (
            "TITLE t;PROC nil;PRE TRUE;POST TRUE;ENDPROC;PROC p;LOCAL q : BOOL;PRE TRUE;POST TRUE;^CALL q;ENDPROC;PROC q;PRE TRUE;POST TRUE;ENDPROC;FINISH;",
            Some((Code::Typing, "")),
        ),
        // arguments of all types
        (
            "TITLE t;CONST k = 3;TYPE r = 0 .. 9;TYPE hue = ( red, green );TYPE tone = ( high, low );PROC tell;IN f : BOOL;IN h : hue;INOUT g : BOOL;OUT q : hue;PRE TRUE;POST TRUE;ENDPROC;PROC p;INOUT b : BOOL;OUT u : hue;LOCAL n : tone;INOUT x : 0 .. 9;PRE TRUE;POST TRUE;CALL tell (x > 1, red, b, u);ENDPROC;FINISH;",
            None,
        ),
        // a number for BOOL
        (
            "TITLE t;CONST k = 3;TYPE r = 0 .. 9;TYPE hue = ( red, green );TYPE tone = ( high, low );PROC tell;IN f : BOOL;IN h : hue;INOUT g : BOOL;OUT q : hue;PRE TRUE;POST TRUE;ENDPROC;PROC p;INOUT b : BOOL;OUT u : hue;LOCAL n : tone;INOUT x : 0 .. 9;PRE TRUE;POST TRUE;^CALL tell (1, red, b, u);ENDPROC;FINISH;",
            Some((Code::Typing, "")),
        ),
        // a condition for a number
        (
            "TITLE t;PROC see;IN i : 0 .. 9;IN j : 0 .. 9;PRE TRUE;POST TRUE;ENDPROC;PROC p;INOUT x : 0 .. 9;PRE TRUE;POST TRUE;^CALL see (TRUE, x);ENDPROC;FINISH;",
            Some((Code::Typing, "")),
        ),
        // a value of another enumeration
        (
            "TITLE t;CONST k = 3;TYPE r = 0 .. 9;TYPE hue = ( red, green );TYPE tone = ( high, low );PROC tell;IN f : BOOL;IN h : hue;INOUT g : BOOL;OUT q : hue;PRE TRUE;POST TRUE;ENDPROC;PROC p;INOUT b : BOOL;OUT u : hue;LOCAL n : tone;INOUT x : 0 .. 9;PRE TRUE;POST TRUE;^CALL tell (b, high, b, u);ENDPROC;FINISH;",
            Some((Code::Typing, "")),
        ),
        // a number for an enumeration
        (
            "TITLE t;CONST k = 3;TYPE r = 0 .. 9;TYPE hue = ( red, green );TYPE tone = ( high, low );PROC tell;IN f : BOOL;IN h : hue;INOUT g : BOOL;OUT q : hue;PRE TRUE;POST TRUE;ENDPROC;PROC p;INOUT b : BOOL;OUT u : hue;LOCAL n : tone;INOUT x : 0 .. 9;PRE TRUE;POST TRUE;^CALL tell (b, 0, b, u);ENDPROC;FINISH;",
            Some((Code::Typing, "")),
        ),
        // a variable of another type for INOUT
        (
            "TITLE t;CONST k = 3;TYPE r = 0 .. 9;TYPE hue = ( red, green );TYPE tone = ( high, low );PROC tell;IN f : BOOL;IN h : hue;INOUT g : BOOL;OUT q : hue;PRE TRUE;POST TRUE;ENDPROC;PROC p;INOUT b : BOOL;OUT u : hue;LOCAL n : tone;INOUT x : 0 .. 9;PRE TRUE;POST TRUE;^CALL tell (b, red, x, u);ENDPROC;FINISH;",
            Some((Code::Typing, "")),
        ),
        // a variable of another enumeration for OUT
        (
            "TITLE t;CONST k = 3;TYPE r = 0 .. 9;TYPE hue = ( red, green );TYPE tone = ( high, low );PROC tell;IN f : BOOL;IN h : hue;INOUT g : BOOL;OUT q : hue;PRE TRUE;POST TRUE;ENDPROC;PROC p;INOUT b : BOOL;OUT u : hue;LOCAL n : tone;INOUT x : 0 .. 9;PRE TRUE;POST TRUE;^CALL tell (b, red, b, n);ENDPROC;FINISH;",
            Some((Code::Typing, "")),
        ),
        // variables of other ranges
        (
            "TITLE t;PROC a;INOUT v : -5 .. 3;PRE TRUE;POST TRUE;ENDPROC;PROC p;INOUT x : WRAP 4 .. 8;PRE TRUE;POST TRUE;CALL a (x);ENDPROC;FINISH;",
            None,
        ),
        // a constant for IN
        (
            "TITLE t;CONST k = 3;TYPE r = 0 .. 9;TYPE hue = ( red, green );TYPE tone = ( high, low );PROC inc;INOUT v : 0 .. 9;PRE v <= 8;POST v = OLD v + 1;v := v + 1;ENDPROC;PROC see;IN i : 0 .. 9;IN j : 0 .. 9;PRE TRUE;POST TRUE;ENDPROC;PROC p;INOUT x : 0 .. 9;PRE TRUE;POST TRUE;CALL see (k, x);ENDPROC;FINISH;",
            None,
        ),
        // a constant for INOUT
        (
            "TITLE t;CONST k = 3;TYPE r = 0 .. 9;TYPE hue = ( red, green );TYPE tone = ( high, low );PROC inc;INOUT v : 0 .. 9;PRE v <= 8;POST v = OLD v + 1;v := v + 1;ENDPROC;PROC p;INOUT x : 0 .. 9;PRE TRUE;POST TRUE;^CALL inc (k);ENDPROC;FINISH;",
            Some((Code::Typing, "")),
        ),
        // a constant in parentheses for INOUT
        (
            "TITLE t;CONST k = 3;TYPE r = 0 .. 9;TYPE hue = ( red, green );TYPE tone = ( high, low );PROC inc;INOUT v : 0 .. 9;PRE v <= 8;POST v = OLD v + 1;v := v + 1;ENDPROC;PROC p;INOUT x : 0 .. 9;PRE TRUE;POST TRUE;^CALL inc ((k));ENDPROC;FINISH;",
            Some((Code::Typing, "")),
        ),
        // a value for OUT
        (
            "TITLE t;CONST k = 3;TYPE r = 0 .. 9;TYPE hue = ( red, green );TYPE tone = ( high, low );PROC tell;IN f : BOOL;IN h : hue;INOUT g : BOOL;OUT q : hue;PRE TRUE;POST TRUE;ENDPROC;PROC p;INOUT b : BOOL;OUT u : hue;LOCAL n : tone;INOUT x : 0 .. 9;PRE TRUE;POST TRUE;^CALL tell (b, green, b, green);ENDPROC;FINISH;",
            Some((Code::Typing, "")),
        ),
        // a type for IN
        (
            "TITLE t;CONST k = 3;TYPE r = 0 .. 9;TYPE hue = ( red, green );TYPE tone = ( high, low );PROC see;IN i : 0 .. 9;IN j : 0 .. 9;PRE TRUE;POST TRUE;ENDPROC;PROC p;INOUT x : 0 .. 9;PRE TRUE;POST TRUE;^CALL see (r, 1);ENDPROC;FINISH;",
            Some((Code::Typing, "")),
        ),
        // a procedure for INOUT
        (
            "TITLE t;PROC nil;PRE TRUE;POST TRUE;ENDPROC;PROC inc;INOUT v : 0 .. 9;PRE v <= 8;POST v = OLD v + 1;v := v + 1;ENDPROC;PROC p;INOUT x : 0 .. 9;PRE TRUE;POST TRUE;^CALL inc (nil);ENDPROC;FINISH;",
            Some((Code::Typing, "")),
        ),
        // no name of the wrong type for OUT
        (
            "TITLE t;PROC get;IN i : 0 .. 9;OUT o : 0 .. 9;LOCAL l : 0 .. 9;PRE TRUE;POST TRUE;l := i;o := l;ENDPROC;PROC p;INOUT x : 0 .. 9;PRE TRUE;POST TRUE;^CALL get (1, x = 1);ENDPROC;FINISH;",
            Some((Code::Typing, "")),
        ),
        // no name of the right type for OUT
        (
            "TITLE t;PROC get;IN i : 0 .. 9;OUT o : 0 .. 9;LOCAL l : 0 .. 9;PRE TRUE;POST TRUE;l := i;o := l;ENDPROC;PROC p;INOUT x : 0 .. 9;PRE TRUE;POST TRUE;^CALL get (1, x + 1);ENDPROC;FINISH;",
            Some((Code::BadCall, "")),
        ),
        // TRUE for OUT BOOL
        (
            "TITLE t;CONST k = 3;TYPE r = 0 .. 9;TYPE hue = ( red, green );TYPE tone = ( high, low );PROC tell;IN f : BOOL;IN h : hue;INOUT g : BOOL;OUT q : hue;PRE TRUE;POST TRUE;ENDPROC;PROC p;INOUT b : BOOL;OUT u : hue;LOCAL n : tone;INOUT x : 0 .. 9;PRE TRUE;POST TRUE;^CALL tell (b, red, TRUE, u);ENDPROC;FINISH;",
            Some((Code::BadCall, "")),
        ),
        // a badly typed argument past the last parameter
        (
            "TITLE t;PROC inc;INOUT v : 0 .. 9;PRE v <= 8;POST v = OLD v + 1;v := v + 1;ENDPROC;PROC p;INOUT x : 0 .. 9;PRE TRUE;POST TRUE;^CALL inc (x, 1 + TRUE);ENDPROC;FINISH;",
            Some((Code::Typing, "")),
        ),
        // a type past the last parameter
        (
            "TITLE t;CONST k = 3;TYPE r = 0 .. 9;TYPE hue = ( red, green );TYPE tone = ( high, low );PROC inc;INOUT v : 0 .. 9;PRE v <= 8;POST v = OLD v + 1;v := v + 1;ENDPROC;PROC p;INOUT x : 0 .. 9;PRE TRUE;POST TRUE;^CALL inc (x, hue);ENDPROC;FINISH;",
            Some((Code::Typing, "")),
        ),
        // any type past the last parameter
        (
            "TITLE t;CONST k = 3;TYPE r = 0 .. 9;TYPE hue = ( red, green );TYPE tone = ( high, low );PROC inc;INOUT v : 0 .. 9;PRE v <= 8;POST v = OLD v + 1;v := v + 1;ENDPROC;PROC p;INOUT x : 0 .. 9;PRE TRUE;POST TRUE;^CALL inc (x, red);ENDPROC;FINISH;",
            Some((Code::BadCall, "")),
        ),
        // a badly typed argument of a call of its own
        (
            "TITLE t;PROC nil;PRE TRUE;POST TRUE;ENDPROC;PROC p;INOUT x : 0 .. 9;PRE TRUE;POST TRUE;^CALL p (TRUE);ENDPROC;FINISH;",
            Some((Code::Typing, "")),
        ),
        // a wrong type before a clash of modes
        (
            "TITLE t;PROC inc;INOUT v : 0 .. 9;PRE v <= 8;POST v = OLD v + 1;v := v + 1;ENDPROC;PROC p;IN x : 0 .. 9;PRE TRUE;POST TRUE;^CALL inc (x = 1);ENDPROC;FINISH;",
            Some((Code::Typing, "")),
        ),
        // an IN variable for INOUT
        (
            "TITLE t;PROC inc;INOUT v : 0 .. 9;PRE v <= 8;POST v = OLD v + 1;v := v + 1;ENDPROC;PROC p;IN x : 0 .. 9;PRE TRUE;POST TRUE;^CALL inc (x);ENDPROC;FINISH;",
            Some((Code::Access, "")),
        ),
        // an IN variable in parentheses for INOUT
        (
            "TITLE t;PROC inc;INOUT v : 0 .. 9;PRE v <= 8;POST v = OLD v + 1;v := v + 1;ENDPROC;PROC p;IN x : 0 .. 9;PRE TRUE;POST TRUE;^CALL inc ((x));ENDPROC;FINISH;",
            Some((Code::Access, "")),
        ),
        // an IN variable for OUT
        (
            "TITLE t;PROC get;IN i : 0 .. 9;OUT o : 0 .. 9;LOCAL l : 0 .. 9;PRE TRUE;POST TRUE;l := i;o := l;ENDPROC;PROC p;IN x : 0 .. 9;PRE TRUE;POST TRUE;^CALL get (1, x);ENDPROC;FINISH;",
            Some((Code::Access, "")),
        ),
        // an IN variable for IN
        (
            "TITLE t;PROC get;IN i : 0 .. 9;OUT o : 0 .. 9;LOCAL l : 0 .. 9;PRE TRUE;POST TRUE;l := i;o := l;ENDPROC;PROC p;IN x : 0 .. 9;OUT y : 0 .. 9;PRE TRUE;POST TRUE;CALL get (x, y);ENDPROC;FINISH;",
            None,
        ),
        // an IN variable in an expression for OUT
        (
            "TITLE t;PROC get;IN i : 0 .. 9;OUT o : 0 .. 9;LOCAL l : 0 .. 9;PRE TRUE;POST TRUE;l := i;o := l;ENDPROC;PROC p;IN x : 0 .. 9;PRE TRUE;POST TRUE;^CALL get (1, x + 1);ENDPROC;FINISH;",
            Some((Code::BadCall, "")),
        ),
        // OUT and LOCAL variables for INOUT and OUT
        (
            "TITLE t;PROC two;INOUT v : 0 .. 9;OUT w : 0 .. 9;PRE TRUE;POST TRUE;w := v;ENDPROC;PROC p;OUT x : 0 .. 9;LOCAL y : 0 .. 9;PRE TRUE;POST TRUE;CALL two (x, y);ENDPROC;FINISH;",
            None,
        ),
        // OUT and LOCAL variables for IN
        (
            "TITLE t;PROC see;IN i : 0 .. 9;IN j : 0 .. 9;PRE TRUE;POST TRUE;ENDPROC;PROC p;OUT x : 0 .. 9;LOCAL y : 0 .. 9;PRE TRUE;POST TRUE;CALL see (x, y);ENDPROC;FINISH;",
            None,
        ),
        // OLD for IN
        (
            "TITLE t;PROC see;IN i : 0 .. 9;IN j : 0 .. 9;PRE TRUE;POST TRUE;ENDPROC;PROC p;INOUT x : 0 .. 9;PRE TRUE;POST TRUE;^CALL see (1, OLD x);ENDPROC;FINISH;",
            Some((Code::Access, "")),
        ),
        // OLD for INOUT
        (
            "TITLE t;PROC inc;INOUT v : 0 .. 9;PRE v <= 8;POST v = OLD v + 1;v := v + 1;ENDPROC;PROC p;INOUT x : 0 .. 9;PRE TRUE;POST TRUE;^CALL inc (OLD x);ENDPROC;FINISH;",
            Some((Code::Access, "")),
        ),
        // OLD past the last parameter
        (
            "TITLE t;PROC inc;INOUT v : 0 .. 9;PRE v <= 8;POST v = OLD v + 1;v := v + 1;ENDPROC;PROC p;INOUT x : 0 .. 9;PRE TRUE;POST TRUE;^CALL inc (x, OLD x);ENDPROC;FINISH;",
            Some((Code::Access, "")),
        ),
        // OLD of what is no INOUT variable
        (
            "TITLE t;PROC see;IN i : 0 .. 9;IN j : 0 .. 9;PRE TRUE;POST TRUE;ENDPROC;PROC p;LOCAL x : 0 .. 9;PRE TRUE;POST TRUE;^CALL see (1, OLD x);ENDPROC;FINISH;",
            Some((Code::Access, "")),
        ),
        // an IN variable for INOUT in a call of its own
        (
            "TITLE t;PROC nil;PRE TRUE;POST TRUE;ENDPROC;PROC p;INOUT x : 0 .. 9;IN y : 0 .. 9;PRE TRUE;POST TRUE;^CALL p (y, 1);ENDPROC;FINISH;",
            Some((Code::Access, "")),
        ),
        // an IN variable past the last parameter
        (
            "TITLE t;PROC inc;INOUT v : 0 .. 9;PRE v <= 8;POST v = OLD v + 1;v := v + 1;ENDPROC;PROC p;IN y : 0 .. 9;INOUT x : 0 .. 9;PRE TRUE;POST TRUE;^CALL inc (x, y);ENDPROC;FINISH;",
            Some((Code::BadCall, "")),
        ),
        // an argument that is as wide as may be
        (
            "TITLE t;PROC see;IN i : 0 .. 9;IN j : 0 .. 9;PRE TRUE;POST TRUE;ENDPROC;PROC p;INOUT x : 0 .. 9;PRE TRUE;POST TRUE;CALL see (x, 9223372036854775807 * 9223372036854775807);ENDPROC;FINISH;",
            None,
        ),
        // an argument that is too wide
        (
            "TITLE t;PROC see;IN i : 0 .. 9;IN j : 0 .. 9;PRE TRUE;POST TRUE;ENDPROC;PROC p;INOUT x : 0 .. 9;PRE TRUE;POST TRUE;^CALL see (1, x * 9223372036854775807 * 9223372036854775807);ENDPROC;FINISH;",
            Some((Code::Wide, "")),
        ),
        // too wide inside a condition
        (
            "TITLE t;CONST k = 3;TYPE r = 0 .. 9;TYPE hue = ( red, green );TYPE tone = ( high, low );PROC tell;IN f : BOOL;IN h : hue;INOUT g : BOOL;OUT q : hue;PRE TRUE;POST TRUE;ENDPROC;PROC p;INOUT b : BOOL;OUT u : hue;LOCAL n : tone;INOUT x : 0 .. 9;PRE TRUE;POST TRUE;^CALL tell (x * 9223372036854775807 * 9223372036854775807 > 1, red, b, u);ENDPROC;FINISH;",
            Some((Code::Wide, "")),
        ),
        // too wide for OUT
        (
            "TITLE t;PROC get;IN i : 0 .. 9;OUT o : 0 .. 9;LOCAL l : 0 .. 9;PRE TRUE;POST TRUE;l := i;o := l;ENDPROC;PROC p;INOUT x : 0 .. 9;PRE TRUE;POST TRUE;^CALL get (1, x * 9223372036854775807 * 9223372036854775807);ENDPROC;FINISH;",
            Some((Code::Wide, "")),
        ),
        // too wide past the last parameter
        (
            "TITLE t;PROC inc;INOUT v : 0 .. 9;PRE v <= 8;POST v = OLD v + 1;v := v + 1;ENDPROC;PROC p;INOUT x : 0 .. 9;PRE TRUE;POST TRUE;^CALL inc (x, x * 9223372036854775807 * 9223372036854775807);ENDPROC;FINISH;",
            Some((Code::Wide, "")),
        ),
        // too wide in a call of its own
        (
            "TITLE t;PROC nil;PRE TRUE;POST TRUE;ENDPROC;PROC p;INOUT x : 0 .. 9;PRE TRUE;POST TRUE;^CALL p (x * 9223372036854775807 * 9223372036854775807);ENDPROC;FINISH;",
            Some((Code::Wide, "")),
        ),
        // the widest ranges for INOUT
        (
            "TITLE t;PROC a;INOUT v : -9223372036854775808 .. 9223372036854775807;PRE TRUE;POST TRUE;ENDPROC;PROC p;INOUT x : -9223372036854775808 .. 9223372036854775807;PRE TRUE;POST TRUE;CALL a (x);ENDPROC;FINISH;",
            None,
        ),
        // an empty range before a call
        (
            "TITLE t;PROC inc;INOUT v : 0 .. 9;PRE v <= 8;POST v = OLD v + 1;v := v + 1;ENDPROC;PROC p;INOUT x : 0 .. 9;^LOCAL z : 1 .. 0;PRE TRUE;POST TRUE;CALL inc;ENDPROC;FINISH;",
            Some((Code::EmptyRange, "")),
        ),
    ];
    for (text, wanted) in rows {
        assert!(rt; is_answered(rt.alloc(), text, wanted)?, "{text}");
    }
    Ok(())
}
