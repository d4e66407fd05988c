//! The rows and hazards of worked texts.
use crate::regions::{Asked, found_of};
use crate::row_text::found_text;
use std::alloc::Global;
use std::process::Abort;
use std::test::Fail;

/// A region of a text, what of it is asked for, and what that is. The places stand by number in the order of
/// their declarations, and then the OLD copies.
type Case<'a> = (usize, Asked, &'a str);

/// An addition that may leave the range.
const RANGE: &[u8] =
    b"TITLE t; PROC p; INOUT x : 0 .. 9; PRE TRUE; POST TRUE; x := x + 1; ENDPROC; FINISH;";

/// A quotient that may have no value, and may leave the range on both sides.
const QUOTIENT: &[u8] =
    b"TITLE t; PROC p; IN a : 0 .. 9; IN b : -2 .. 2; OUT q : -3 .. 3; PRE TRUE; POST TRUE; \
q := a DIV b; ENDPROC; FINISH;";

/// A condition with a quotient on its right side.
const CONDITION: &[u8] =
    b"TITLE t; PROC p; IN a : 0 .. 1; IN b : 0 .. 5; OUT r : 0 .. 1; PRE TRUE; POST TRUE; \
r := 0; IF a = 1 AND 10 DIV b > 2; r := 1; ENDIF; ENDPROC; FINISH;";

/// A test whose true side is met by no input.
const REFUTED: &[u8] = b"TITLE t; PROC p; IN x : 0 .. 9; LOCAL y : 0 .. 1; PRE TRUE; POST TRUE; \
IF x > 5; IF x < 3; y := 1; ENDIF; ENDIF; ENDPROC; FINISH;";

/// Assertions that fail behind a test whose true side is met by no input, and on its other side.
const BELOW: &[u8] = b"TITLE t; PROC p; IN x : 0 .. 9; PRE TRUE; POST TRUE; \
IF x > 5; IF x < 3; ASSERT x = 1; ASSERT x = 2; ENDIF; ASSERT x < 9; ENDIF; ENDPROC; FINISH;";

/// A product, compared twice in the same way.
const PRODUCT: &[u8] = b"TITLE t; PROC p; IN x : 0 .. 9; IN y : 0 .. 9; PRE TRUE; POST TRUE; \
IF x * y < 3; ASSERT x * y < 3; ENDIF; ENDPROC; FINISH;";

/// A loop that counts, with two leading assertions.
const COUNTING: &[u8] =
    b"TITLE t; PROC p; IN n : 0 .. 9; OUT i : 0 .. 9; PRE TRUE; POST i = n; i := 0; LOOP; ASSERT 0 <= i; \
ASSERT i <= n; EXIT WHEN i >= n; i := i + 1; ENDLOOP; ENDPROC; FINISH;";

/// A loop that never ends.
const ENDLESS: &[u8] =
    b"TITLE t; PROC p; OUT y : 0 .. 1; PRE TRUE; POST TRUE; LOOP; SKIP; ENDLOOP; ENDPROC; FINISH;";

/// An addition and a product that wrap.
const WRAPPING: &[u8] =
    b"TITLE t; PROC p; INOUT x : WRAP 0 .. 9; INOUT z : WRAP -128 .. 127; PRE TRUE; POST TRUE; \
x := x + 1; z := z * 2; ENDPROC; FINISH;";

/// Places that change in turn on both sides of a test, and are compared behind it.
const TURNS: &[u8] =
    b"TITLE t; PROC p; IN c : 0 .. 9; INOUT x : 0 .. 9; INOUT y : 0 .. 9; PRE TRUE; POST TRUE; \
IF c = 1; x := 3; ELSE; y := x; ENDIF; IF x <= y; SKIP; ENDIF; ENDPROC; FINISH;";

/// Whether the rows and hazards of a text's regions are as the cases show them.
fn assert_rows(rt: &impl Abort, alloc: Global, text: &[u8], cases: &[Case]) -> Result<(), Fail> {
    for (region, asked, wanted) in cases {
        let found = found_of(alloc, text, *region, *asked)?;
        let found = found_text(alloc, &found)?;
        assert_eq!(rt; found.as_str(), *wanted);
    }
    Ok(())
}

#[test]
fn faults_have_rows(rt: HostRuntime) -> Result<(), Fail> {
    let range: [Case; 1] = [(
        0,
        Asked::Table,
        "T: 1*v0 + 0 <= 8; Halted(End); v0 := 1*v0 + 1\nF: 1*v0 + 0 > 8; Halted(Range(1))\n",
    )];
    assert_rows(&rt, rt.alloc(), RANGE, &range)?;
    let quotient: [Case; 1] = [(
        0,
        Asked::Table,
        "TTT: 1*v1 + 0 /= 0; 1*(1*v0 + 0 DIV 1*v1 + 0) + 0 >= -3; 1*(1*v0 + 0 DIV 1*v1 + 0) + 0 <= 3; Halted(End); \
v2 := 1*(1*v0 + 0 DIV 1*v1 + 0) + 0\n\
TTF: 1*v1 + 0 /= 0; 1*(1*v0 + 0 DIV 1*v1 + 0) + 0 >= -3; 1*(1*v0 + 0 DIV 1*v1 + 0) + 0 > 3; Halted(Range(1))\n\
TF: 1*v1 + 0 /= 0; 1*(1*v0 + 0 DIV 1*v1 + 0) + 0 < -3; Halted(Range(1))\n\
F: 1*v1 + 0 = 0; Halted(DivZero(1))\n",
    )];
    assert_rows(&rt, rt.alloc(), QUOTIENT, &quotient)?;
    let condition: [Case; 1] = [(
        0,
        Asked::Table,
        "TTT: 1*v0 + 0 = 1; 1*v1 + 0 /= 0; 1*(10 DIV 1*v1 + 0) + 0 > 2; Halted(End); v2 := 1\n\
TTF: 1*v0 + 0 = 1; 1*v1 + 0 /= 0; 1*(10 DIV 1*v1 + 0) + 0 <= 2; Halted(End); v2 := 0\n\
TF: 1*v0 + 0 = 1; 1*v1 + 0 = 0; Halted(DivZero(2)); v2 := 0\n\
F: 1*v0 + 0 /= 1; Halted(End); v2 := 0\n",
    )];
    assert_rows(&rt, rt.alloc(), CONDITION, &condition)
}

#[test]
fn refuted_paths_have_long_rows_alone(rt: HostRuntime) -> Result<(), Fail> {
    let refuted: [Case; 2] = [
        (
            0,
            Asked::Table,
            "TF: 1*v0 + 0 > 5; 1*v0 + 0 >= 3; Halted(End)\nF: 1*v0 + 0 <= 5; Halted(End)\n",
        ),
        (
            0,
            Asked::Long,
            "TT: 1*v0 + 0 > 5; 1*v0 + 0 < 3; Halted(End); v1 := 1\nTF: 1*v0 + 0 > 5; 1*v0 + 0 >= 3; Halted(End)\n\
F: 1*v0 + 0 <= 5; Halted(End)\n",
        ),
    ];
    assert_rows(&rt, rt.alloc(), REFUTED, &refuted)?;
    let product: [Case; 1] = [(
        0,
        Asked::Table,
        "TT: 1*(1*v0 + 0 MUL 1*v1 + 0) + 0 < 3; 1*(1*v0 + 0 MUL 1*v1 + 0) + 0 < 3; Halted(End)\n\
TF: 1*(1*v0 + 0 MUL 1*v1 + 0) + 0 < 3; 1*(1*v0 + 0 MUL 1*v1 + 0) + 0 >= 3; Halted(FailedAssert(2))\n\
F: 1*(1*v0 + 0 MUL 1*v1 + 0) + 0 >= 3; Halted(End)\n",
    )];
    assert_rows(&rt, rt.alloc(), PRODUCT, &product)
}

#[test]
fn loops_are_cut_at_their_heads(rt: HostRuntime) -> Result<(), Fail> {
    let counting: [Case; 3] = [
        (0, Asked::Table, ": Head(2); v1 := 0\n"),
        (
            0,
            Asked::Long,
            "TT: ALWAYS; 1*v0 + 0 >= 0; Head(2); v1 := 0\n\
TF: ALWAYS; 1*v0 + 0 < 0; Halted(FailedAssert(4)); v1 := 0\n\
F: NEVER; Halted(FailedAssert(3)); v1 := 0\n",
        ),
        (
            1,
            Asked::Table,
            "TTTT: 1*v1 + 0 >= 0; 1*v0 + -1*v1 + 0 >= 0; 1*v0 + -1*v1 + 0 <= 0; 1*v0 + -1*v1 + 0 = 0; Halted(End)\n\
TTFT: 1*v1 + 0 >= 0; 1*v0 + -1*v1 + 0 >= 0; 1*v0 + -1*v1 + 0 > 0; 1*v1 + 0 <= 8; Head(2); v1 := 1*v1 + 1\n\
TF: 1*v1 + 0 >= 0; 1*v0 + -1*v1 + 0 < 0; Halted(FailedAssert(4))\n",
        ),
    ];
    assert_rows(&rt, rt.alloc(), COUNTING, &counting)?;
    let endless: [Case; 2] = [
        (0, Asked::Table, ": Head(1)\n"),
        (1, Asked::Long, ": Head(1)\n"),
    ];
    assert_rows(&rt, rt.alloc(), ENDLESS, &endless)
}

#[test]
fn values_stand_by_place(rt: HostRuntime) -> Result<(), Fail> {
    let wrapping: [Case; 1] = [(
        0,
        Asked::Table,
        ": Halted(End); v0 := 1*(1*v0 + 1 MOD 10) + 0; v1 := 1*(2*v1 + 128 MOD 256) + -128\n",
    )];
    assert_rows(&rt, rt.alloc(), WRAPPING, &wrapping)?;
    let turns: [Case; 1] = [(
        0,
        Asked::Table,
        "TT: 1*v0 + 0 = 1; 1*v2 + 0 >= 3; Halted(End); v1 := 3\n\
TF: 1*v0 + 0 = 1; 1*v2 + 0 < 3; Halted(End); v1 := 3\n\
FT: 1*v0 + 0 /= 1; ALWAYS; Halted(End); v2 := 1*v1 + 0\n",
    )];
    assert_rows(&rt, rt.alloc(), TURNS, &turns)
}

#[test]
fn hazards_have_their_least_input(rt: HostRuntime) -> Result<(), Fail> {
    let range: [Case; 1] = [(0, Asked::Hazards, "F: 1*v0 + 0 > 8; Range(1); LEAST 9 9\n")];
    assert_rows(&rt, rt.alloc(), RANGE, &range)?;
    let below: [Case; 1] = [(
        0,
        Asked::Hazards,
        "TTTTF: 1*v0 + 0 > 5; 1*v0 + 0 < 3; 1*v0 + 0 = 1; 1*v0 + 0 = 2; 1*v0 + 0 >= 9; FailedAssert(6); REFUTED\n\
TTTF: 1*v0 + 0 > 5; 1*v0 + 0 < 3; 1*v0 + 0 = 1; 1*v0 + 0 /= 2; FailedAssert(4); REFUTED\n\
TTF: 1*v0 + 0 > 5; 1*v0 + 0 < 3; 1*v0 + 0 /= 1; FailedAssert(3); REFUTED\n\
TFF: 1*v0 + 0 > 5; 1*v0 + 0 >= 3; 1*v0 + 0 >= 9; FailedAssert(6); LEAST 9\n",
    )];
    assert_rows(&rt, rt.alloc(), BELOW, &below)?;
    let product: [Case; 1] = [(
        0,
        Asked::Hazards,
        "TF: 1*(1*v0 + 0 MUL 1*v1 + 0) + 0 < 3; 1*(1*v0 + 0 MUL 1*v1 + 0) + 0 >= 3; FailedAssert(2); LEAST 0 0\n",
    )];
    assert_rows(&rt, rt.alloc(), PRODUCT, &product)
}
