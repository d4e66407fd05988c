//! The text language by bytes: what its words, symbols and rules mean, told by the reports and the refusals of texts. What is
//! expected was worked out by hand from the pages on the language and compared with the second implementation, so that a
//! fault in a definition shows that the program and its contract share.
use crate::reported::{NOTHING, PATHS, TABLES, reported};
use report_text::Selection;
use std::alloc::Global;
use std::test::Fail;

const SEMANTIC: Selection = Selection {
    semantic: true,
    ..NOTHING
};

const INPUTS: Selection = Selection {
    inputs: true,
    ..SEMANTIC
};

const USE: Selection = Selection {
    usage: true,
    ..NOTHING
};

const WORDS: Selection = Selection {
    usage: true,
    ..INPUTS
};

const LINES: Selection = Selection {
    control: true,
    ..PATHS
};

/// Whether a text of these declarations and procedures is answered by these bytes.
fn is_answered(alloc: Global, asked: Selection, body: &str, wanted: &str) -> Result<bool, Fail> {
    let text = format!(in alloc; "TITLE t;{body}FINISH;")?;
    let sink = reported(alloc, asked, text.as_str())?;
    Ok(sink.held() == wanted.as_bytes())
}

#[test]
fn texts_have_their_reports(rt: HostRuntime) -> Result<(), Fail> {
    // The sections that are asked for, declarations and procedures, and the report.
    let cases: [(Selection, &str, &str); 5] = [
        // each way to declare a name, each mode and each operator
        (
            WORDS,
            "CONST low = - 3;TYPE small = low .. 3;TYPE ring = WRAP 0 .. 9;TYPE hue = ( red , green );PROC p;IN a : small;INOUT b : ring;OUT c : hue;LOCAL d : BOOL;PRE a + 1 /= 0 AND b >= 8;POST NOT c = red OR OLD b < b;d := a * 2 - 1 <= 1;b := b + 5 DIV 2 MOD 4;c := green;IF d;c := red;ENDIF;ASSERT TRUE AND b > 0 OR FALSE;ENDPROC;",
            "MALPAS PROFILE 2\nTITLE t\nPROCEDURE p LINES 9\nUSE\nVAR a RF=Y OW=N LW=N NR=N NW=Y EU=Y\nVAR b RF=Y OW=N LW=N NR=N NW=N EU=N\nVAR c RF=N OW=Y LW=N NR=N NW=N EU=N\nVAR d RF=N OW=N LW=N NR=N NW=N EU=N\nSEMANTIC\nREGION L0\nROW 1 PATH TTTTTTT\nIF a /= -1\nIF b >= 8\nIF 2*a <= 2\nIF ((b + 2) MOD 10) > 0\nIF OLD b - ((b + 2) MOD 10) < 0\nSTOP END\nb := ((b + 2) MOD 10)\nc := 0\nd := 1\nROW 2 PATH TTTTTTF\nIF a /= -1\nIF b >= 8\nIF 2*a <= 2\nIF ((b + 2) MOD 10) > 0\nIF OLD b - ((b + 2) MOD 10) >= 0\nSTOP POST\nb := ((b + 2) MOD 10)\nc := 0\nd := 1\nROW 3 PATH TTTTF\nIF a /= -1\nIF b >= 8\nIF 2*a <= 2\nIF ((b + 2) MOD 10) <= 0\nSTOP ASSERT L7\nb := ((b + 2) MOD 10)\nc := 0\nd := 1\nROW 4 PATH TTFFTF\nIF a /= -1\nIF b >= 8\nIF 2*a > 2\nIF ((b + 2) MOD 10) > 0\nSTOP END\nb := ((b + 2) MOD 10)\nc := 1\nd := 0\nROW 5 PATH TTFFF\nIF a /= -1\nIF b >= 8\nIF 2*a > 2\nIF ((b + 2) MOD 10) <= 0\nSTOP ASSERT L7\nb := ((b + 2) MOD 10)\nc := 1\nd := 0\nROW 6 PATH TF\nIF a /= -1\nIF b < 8\nSTOP OUTSIDE\nROW 7 PATH F\nIF a = -1\nSTOP OUTSIDE\nINPUTS\nREGION L0\nROW 1 INPUT -\nROW 2 INPUT -\nROW 3 INPUT a = -3, b = 8, c = 0, d = 0, OLD b = 8\nROW 4 INPUT -\nROW 5 INPUT a = 2, b = 8, c = 0, d = 0, OLD b = 8\nROW 6 INPUT a = -3, b = 0, c = 0, d = 0, OLD b = 0\nROW 7 INPUT a = -1, b = 0, c = 0, d = 0, OLD b = 0\nSTATUS 1\n",
        ),
        // each line of control, with its arcs
        (
            LINES,
            "PROC p;IN x : 0 .. 9;PRE TRUE;POST TRUE;LOOP;IF x = 1;EXIT;ELSE;SKIP;ENDIF;EXIT WHEN x = 2;ENDLOOP;GOTO l;RETURN;LABEL l;ASSERT x = 4;ENDPROC;",
            "MALPAS PROFILE 1\nTITLE t\nPROCEDURE p LINES 14\nCONTROL\nUNREACHABLE L4 L10\nSTUCK -\nLOOP L1: L1 L2 L5 L6 L7 L8 LEADING -\nLEVEL 0\nINTERVAL L0: L0\nINTERVAL L1: L1 L2 L3 L5 L6 L7 L8 L9 L11 L12 L13\nLEVEL 1\nINTERVAL L0: L0 L1\nSHAPE REDUCIBLE\nPATHS\nARC a1 L0 L1\nARC a2 L1 L2\nARC a3 L2 L3\nARC a4 L2 L5\nARC a5 L3 L9\nARC a6 L4 L6\nARC a7 L5 L6\nARC a8 L6 L7\nARC a9 L7 L9\nARC a10 L7 L8\nARC a11 L8 L1\nARC a12 L9 L11\nARC a13 L10 L13\nARC a14 L11 L12\nARC a15 L12 L13\nE1 = a2 . a3\nE2 = a2 . a4\nE3 = E1 . a5\nE4 = E2 . a7\nE5 = E4 . a8\nE6 = E5 . a10\nE7 = E5 . a9\nE8 = E3 + E7\nE9 = E6 . a11\nE10 = E8 . a12\nE11 = E10 . a14\nE12 = E11 . a15\nE13 = E9 *\nE14 = a1 . E13\nE15 = E14 . E12\nALL = E15\nSTATUS 1\n",
        ),
        // the values of constants, the numbers of an enumeration, the places of OLD copies, and the POST of each procedure
        (
            TABLES,
            "CONST c = -4;CONST d = 0012;TYPE e = ( red , green , blue );TYPE r = c .. d;PROC p;INOUT x : r;IN y : r;INOUT z : e;OUT w : BOOL;PRE OLD x = c AND z = blue;POST x = d AND z = OLD z;x := d;w := TRUE;RETURN;ENDPROC;PROC q;OUT v : e;PRE TRUE;POST v = green;v := green;ENDPROC;",
            "MALPAS PROFILE 1\nTITLE t\nPROCEDURE p LINES 5\nSEMANTIC\nREGION L0\nROW 1 PATH TTTT\nIF OLD x = -4\nIF z = 2\nIF z - OLD z = 0\nSTOP END\nx := 12\nw := 1\nROW 2 PATH TF\nIF OLD x = -4\nIF z /= 2\nSTOP OUTSIDE\nROW 3 PATH F\nIF OLD x /= -4\nSTOP OUTSIDE\nINPUTS\nREGION L0\nROW 1 INPUT x = -4, y = -4, z = 2, w = 0, OLD x = -4, OLD z = 2\nROW 2 INPUT x = -4, y = -4, z = 0, w = 0, OLD x = -4, OLD z = 0\nROW 3 INPUT x = -3, y = -4, z = 0, w = 0, OLD x = -3, OLD z = 0\nCOMPLIANCE\nREGION L0\nTHREAT 1 PATH TTTF STOP POST FALSE\nTHREAT 2 PATH TTF STOP POST FALSE\nTHREATS 2 FALSE 2 SHOWN 0 OPEN 0 PAST 0\nPROCEDURE q LINES 3\nSEMANTIC\nREGION L0\nROW 1 PATH T\nSTOP END\nv := 1\nINPUTS\nREGION L0\nROW 1 INPUT v = 0\nCOMPLIANCE\nREGION L0\nTHREAT 1 PATH F STOP POST FALSE\nTHREATS 1 FALSE 1 SHOWN 0 OPEN 0 PAST 0\nSTATUS 0\n",
        ),
        // OLD in PRE, POST and ASSERT
        (
            TABLES,
            "PROC p;INOUT a : 0 .. 9;PRE OLD a = 1;POST OLD a < a;ASSERT OLD a = a;a := 2;ENDPROC;",
            "MALPAS PROFILE 1\nTITLE t\nPROCEDURE p LINES 4\nSEMANTIC\nREGION L0\nROW 1 PATH TTT\nIF OLD a = 1\nIF a - OLD a = 0\nIF OLD a < 2\nSTOP END\na := 2\nROW 2 PATH F\nIF OLD a /= 1\nSTOP OUTSIDE\nINPUTS\nREGION L0\nROW 1 INPUT a = 1, OLD a = 1\nROW 2 INPUT a = 0, OLD a = 0\nCOMPLIANCE\nREGION L0\nTHREAT 1 PATH TTF STOP POST FALSE\nTHREAT 2 PATH TF STOP ASSERT L1 FALSE\nTHREATS 2 FALSE 2 SHOWN 0 OPEN 0 PAST 0\nSTATUS 0\n",
        ),
        // procedures with the names of a variable and of a label of an earlier one
        (
            USE,
            "PROC p;IN q : BOOL;PRE q;POST TRUE;LABEL r;ENDPROC;PROC q;PRE TRUE;POST TRUE;ENDPROC;PROC r;PRE TRUE;POST TRUE;ENDPROC;",
            "MALPAS PROFILE 1\nTITLE t\nPROCEDURE p LINES 3\nUSE\nVAR q RF=N OW=N LW=N NR=Y NW=Y EU=Y\nPROCEDURE q LINES 2\nUSE\nPROCEDURE r LINES 2\nUSE\nSTATUS 0\n",
        ),
    ];
    for (asked, body, wanted) in cases.iter() {
        assert!(rt; is_answered(rt.alloc(), *asked, body, wanted)?, "{body}");
    }
    Ok(())
}

/// Whether an expression without variables has this value, which an assignment of it to a place of this type shows.
fn has_value(alloc: Global, declared: &str, expression: &str, value: &str) -> Result<bool, Fail> {
    let body = format!(in alloc;
        "CONST n = -0004;PROC p;OUT q : {declared};PRE TRUE;POST TRUE;q := {expression};ENDPROC;"
    )?;
    let wanted = format!(in alloc;
        "MALPAS PROFILE 1\nTITLE t\nPROCEDURE p LINES 3\nSEMANTIC\nREGION L0\nROW 1 PATH -\nSTOP END\nq := {value}\nSTATUS 0\n"
    )?;
    is_answered(alloc, SEMANTIC, body.as_str(), wanted.as_str())
}

#[test]
fn numbers_have_their_values(rt: HostRuntime) -> Result<(), Fail> {
    let cases = [
        ("007", "7"),
        ("n", "-4"),
        ("n * n", "16"),
        ("2 + 3 * 4", "14"),
        ("( 2 + 3 ) * 4", "20"),
        ("9 - 3 - 2", "4"),
        ("9 - ( 3 - 2 )", "8"),
        ("- 2 + 5", "3"),
        ("100 DIV 7 MOD 4", "2"),
        ("100 MOD 7 * 3", "6"),
        ("2 * 3 DIV 4", "1"),
        ("7 DIV 2", "3"),
        ("- 7 DIV 2", "-3"),
        ("( - 7 ) DIV 2", "-4"),
        ("7 DIV ( - 2 )", "-3"),
        ("( - 7 ) DIV ( - 2 )", "4"),
        ("( - 6 ) DIV 2", "-3"),
        ("7 MOD 2", "1"),
        ("- 7 MOD 2", "-1"),
        ("( - 7 ) MOD 2", "1"),
        ("7 MOD ( - 2 )", "1"),
        ("( - 7 ) MOD ( - 2 )", "1"),
        ("( - 6 ) MOD 2", "0"),
    ];
    for (expression, value) in cases {
        assert!(rt;
            has_value(rt.alloc(), "-999 .. 999", expression, value)?,
            "{expression}"
        );
    }
    Ok(())
}

#[test]
fn conditions_have_their_values(rt: HostRuntime) -> Result<(), Fail> {
    let cases = [
        ("TRUE", "1"),
        ("FALSE", "0"),
        ("NOT TRUE", "0"),
        ("NOT FALSE", "1"),
        ("NOT NOT TRUE", "1"),
        ("TRUE AND TRUE", "1"),
        ("TRUE AND FALSE", "0"),
        ("FALSE OR TRUE", "1"),
        ("FALSE OR FALSE", "0"),
        ("TRUE OR FALSE AND FALSE", "1"),
        ("( TRUE OR FALSE ) AND FALSE", "0"),
        ("NOT FALSE AND FALSE", "0"),
        ("NOT ( FALSE AND FALSE )", "1"),
        ("NOT TRUE OR TRUE", "1"),
        ("NOT ( TRUE OR TRUE )", "0"),
    ];
    for (expression, value) in cases {
        assert!(rt;
            has_value(rt.alloc(), "BOOL", expression, value)?,
            "{expression}"
        );
    }
    Ok(())
}

/// Whether a test by a relation has these two sides, each with its literal and its least input.
fn has_sides(
    alloc: Global,
    relation: &str,
    holds: (&str, u8),
    fails: (&str, u8),
) -> Result<bool, Fail> {
    let body = format!(in alloc;
        "PROC p;IN x : 0 .. 9;PRE TRUE;POST TRUE;IF x {relation} 5;ENDIF;ENDPROC;"
    )?;
    let (yes, least) = holds;
    let (no, other) = fails;
    let wanted = format!(in alloc;
        "MALPAS PROFILE 1\nTITLE t\nPROCEDURE p LINES 4\nSEMANTIC\nREGION L0\nROW 1 PATH T\nIF {yes}\nSTOP END\nROW 2 PATH F\nIF {no}\nSTOP END\nINPUTS\nREGION L0\nROW 1 INPUT x = {least}\nROW 2 INPUT x = {other}\nSTATUS 0\n"
    )?;
    is_answered(alloc, INPUTS, body.as_str(), wanted.as_str())
}

#[test]
fn relations_hold_of_their_inputs(rt: HostRuntime) -> Result<(), Fail> {
    let cases = [
        ("=", ("x = 5", 5), ("x /= 5", 0)),
        ("/=", ("x /= 5", 0), ("x = 5", 5)),
        ("<", ("x < 5", 0), ("x >= 5", 5)),
        ("<=", ("x <= 5", 0), ("x > 5", 6)),
        (">", ("x > 5", 6), ("x <= 5", 0)),
        (">=", ("x >= 5", 5), ("x < 5", 0)),
    ];
    for (relation, holds, fails) in cases {
        assert!(rt;
            has_sides(rt.alloc(), relation, holds, fails)?,
            "{relation}"
        );
    }
    Ok(())
}

/// The body of a procedure that assigns a quotient or a remainder to a range.
fn assigned(alloc: Global, a: &str, b: &str, term: &str, range: (i8, i8)) -> Result<String, Fail> {
    let (least, greatest) = range;
    Ok(format!(in alloc;
        "PROC p;IN a : {a};IN b : {b};OUT q : {least} .. {greatest};PRE TRUE;POST TRUE;q := {term};ENDPROC;"
    )?)
}

/// Whether a term has these static bounds: an assignment to them takes no decision, and one to a range that is less by one on
/// either side takes two.
fn has_bounds(alloc: Global, a: &str, b: &str, term: &str, bounds: (i8, i8)) -> Result<bool, Fail> {
    let front = "MALPAS PROFILE 1\nTITLE t\nPROCEDURE p LINES 3\nSEMANTIC\nREGION L0\n";
    let whole = assigned(alloc, a, b, term, bounds)?;
    let free = format!(in alloc; "{front}ROW 1 PATH -\nSTOP END\nq := ({term})\nSTATUS 0\n")?;
    let (least, greatest) = (bounds.0.saturating_add(1), bounds.1.saturating_sub(1));
    let less = assigned(alloc, a, b, term, (least, greatest))?;
    let decided = format!(in alloc;
        "{front}ROW 1 PATH TT\nIF ({term}) >= {least}\nIF ({term}) <= {greatest}\nSTOP END\nq := ({term})\nROW 2 PATH TF\nIF ({term}) >= {least}\nIF ({term}) > {greatest}\nSTOP RANGE L1\nROW 3 PATH F\nIF ({term}) < {least}\nSTOP RANGE L1\nSTATUS 1\n"
    )?;
    Ok(
        is_answered(alloc, SEMANTIC, whole.as_str(), free.as_str())?
            && is_answered(alloc, SEMANTIC, less.as_str(), decided.as_str())?,
    )
}

#[test]
fn quotients_and_remainders_have_their_bounds(rt: HostRuntime) -> Result<(), Fail> {
    // The ranges of a and b, the term, and its bounds.
    let cases = [
        // a quotient by one number above 0
        ("-7 .. 7", "2 .. 3", "a DIV 3", (-3, 2)),
        ("-7 .. -1", "2 .. 3", "a DIV 2", (-4, -1)),
        ("3 .. 7", "2 .. 3", "a DIV 2", (1, 3)),
        // of sides that are at least 0
        ("3 .. 7", "2 .. 3", "a DIV b", (0, 7)),
        // any other
        ("3 .. 7", "-3 .. -2", "a DIV b", (-7, 7)),
        ("-7 .. -3", "2 .. 3", "a DIV b", (-7, 7)),
        ("-7 .. -3", "-3 .. -2", "a DIV b", (-7, 7)),
        ("-7 .. 5", "2 .. 3", "a DIV b", (-7, 7)),
        ("-5 .. 7", "-3 .. -2", "a DIV b", (-7, 7)),
        ("3 .. 7", "2 .. 3", "a DIV (-2)", (-7, 7)),
        // a remainder
        ("-7 .. 7", "2 .. 3", "a MOD 3", (0, 2)),
        ("-7 .. 7", "2 .. 3", "a MOD (-3)", (0, 2)),
        ("3 .. 7", "2 .. 5", "a MOD b", (0, 4)),
        ("3 .. 7", "-5 .. -2", "a MOD b", (0, 4)),
        ("-7 .. -3", "2 .. 5", "a MOD b", (0, 4)),
        ("-7 .. -3", "-5 .. -2", "a MOD b", (0, 4)),
    ];
    for (a, b, term, bounds) in cases {
        assert!(rt;
            has_bounds(rt.alloc(), a, b, term, bounds)?,
            "{a} {b} {term}"
        );
    }
    Ok(())
}

/// Whether a text is refused with this code and these words at the first byte of its second part.
fn is_refused(alloc: Global, front: &str, rest: &str, told: (&str, &str)) -> Result<bool, Fail> {
    let (code, words) = told;
    let body = format!(in alloc; "{front}{rest}")?;
    let place = front.len().saturating_add(8);
    let wanted = format!(in alloc; "malpas: {code} at byte {place}: {words}\n")?;
    is_answered(alloc, NOTHING, body.as_str(), wanted.as_str())
}

const NO_FORM: (&str, &str) = ("E05", "statement has no form");

const TYPING: (&str, &str) = ("E10", "wrong type");

const MODE: (&str, &str) = ("E11", "wrong mode");

/// What stands before the body of a procedure with a variable that has an OLD copy.
const COPIED: &str = "PROC p;INOUT a : 0 .. 9;PRE TRUE;POST TRUE;";

#[test]
fn wrong_modes_are_refused(rt: HostRuntime) -> Result<(), Fail> {
    // What stands before the statement at fault, and the statement with what stands behind it.
    let cases = [
        ("PROC p;IN a : 0 .. 9;PRE TRUE;", "POST OLD a = 0;ENDPROC;"),
        ("PROC p;OUT a : 0 .. 9;PRE TRUE;", "POST OLD a = 0;ENDPROC;"),
        (
            "PROC p;LOCAL a : 0 .. 9;PRE TRUE;POST TRUE;",
            "ASSERT OLD a = 0;ENDPROC;",
        ),
        (COPIED, "a := OLD a;ENDPROC;"),
        (COPIED, "IF OLD a = 0;ENDIF;ENDPROC;"),
        (
            "PROC p;INOUT a : 0 .. 9;PRE TRUE;POST TRUE;LOOP;",
            "EXIT WHEN OLD a = 0;ENDLOOP;ENDPROC;",
        ),
        ("PROC p;OUT a : 0 .. 9;", "PRE a = 0;POST TRUE;ENDPROC;"),
        ("PROC p;LOCAL a : BOOL;", "PRE a;POST TRUE;ENDPROC;"),
        ("PROC p;LOCAL a : BOOL;PRE TRUE;", "POST a;ENDPROC;"),
        (
            "PROC p;IN a : BOOL;PRE TRUE;POST TRUE;",
            "a := TRUE;ENDPROC;",
        ),
    ];
    for (front, rest) in cases {
        assert!(rt; is_refused(rt.alloc(), front, rest, MODE)?, "{front}{rest}");
    }
    Ok(())
}

#[test]
fn wrong_types_are_refused(rt: HostRuntime) -> Result<(), Fail> {
    // What stands before the statement at fault, and the statement with what stands behind it.
    let cases = [
        // two enumerations, an enumeration and a value of another, an enumeration and a number
        (
            "TYPE e = ( x , y );TYPE f = ( z );PROC p;IN a : e;IN b : f;",
            "PRE a = b;POST TRUE;ENDPROC;",
        ),
        (
            "TYPE e = ( x , y );TYPE f = ( z );PROC p;IN a : e;",
            "PRE a /= z;POST TRUE;ENDPROC;",
        ),
        (
            "TYPE e = ( x , y );PROC p;IN a : e;",
            "PRE a = 1;POST TRUE;ENDPROC;",
        ),
        // a value of an enumeration, an earlier and a later variable, and a type as a bound
        (
            "TYPE e = ( x , y );",
            "TYPE r = 0 .. y;PROC p;PRE TRUE;POST TRUE;ENDPROC;",
        ),
        (
            "PROC p;IN a : 0 .. 9;",
            "IN b : 0 .. a;PRE TRUE;POST TRUE;ENDPROC;",
        ),
        (
            "PROC p;",
            "IN b : 0 .. a;IN a : 0 .. 9;PRE TRUE;POST TRUE;ENDPROC;",
        ),
        (
            "TYPE r = 0 .. 9;",
            "TYPE s = 0 .. r;PROC p;PRE TRUE;POST TRUE;ENDPROC;",
        ),
        // a variable of itself and a constant as a type
        ("PROC p;", "IN a : a;PRE TRUE;POST TRUE;ENDPROC;"),
        (
            "CONST c = 1;PROC p;",
            "IN a : c;PRE TRUE;POST TRUE;ENDPROC;",
        ),
        // a procedure as a value
        ("PROC p;", "PRE p = 0;POST TRUE;ENDPROC;"),
    ];
    for (front, rest) in cases {
        assert!(rt;
            is_refused(rt.alloc(), front, rest, TYPING)?,
            "{front}{rest}"
        );
    }
    Ok(())
}

#[test]
fn a_reserved_word_is_no_name(rt: HostRuntime) -> Result<(), Fail> {
    let front = "PROC p;PRE TRUE;POST TRUE;";
    assert!(rt; is_refused(rt.alloc(), front, "CALL := 1;ENDPROC;", NO_FORM)?);
    Ok(())
}
