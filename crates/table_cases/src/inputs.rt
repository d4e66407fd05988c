//! The test inputs of worked texts.
use crate::regions::{Asked, found_of};
use crate::row_text::found_text;
use std::alloc::Global;
use std::test::Fail;

/// The declarations and lines of a procedure, a region of it, and a line for the test input of each row of that region.
/// The places stand by number in the order of their declarations, and then the OLD copies.
type Case<'a> = (&'a str, usize, &'a str);

/// Whether the test inputs of a region are as the case shows them.
fn is_answered(alloc: Global, case: &Case) -> Result<bool, Fail> {
    let (body, region, wanted) = case;
    let text = format!(in alloc; "TITLE t; PROC p; {body} ENDPROC; FINISH;")?;
    let found = found_of(alloc, text.as_str().as_bytes(), *region, Asked::Inputs)?;
    let found = found_text(alloc, &found)?;
    Ok(found.as_str() == *wanted)
}

#[test]
fn rows_have_test_inputs(rt: HostRuntime) -> Result<(), Fail> {
    let cases: [Case; 11] = [
        // a value that may pass its range
        (
            "INOUT x : 0 .. 9; PRE TRUE; POST TRUE; x := x + 1;",
            0,
            "LEAST 0 0\nLEAST 9 9\n",
        ),
        // a product, whose rows no least input tells apart
        (
            "IN x : 0 .. 9; IN y : 0 .. 9; PRE TRUE; POST TRUE; IF x * y < 3; ASSERT x * y < 3; ENDIF;",
            0,
            "LEAST 0 0\nNONE\nNONE\n",
        ),
        // no place
        ("PRE TRUE; POST TRUE; SKIP;", 0, "LEAST\n"),
        // values that wrap, which only steps tell
        (
            "INOUT x : WRAP 0 .. 9; OUT z : WRAP -128 .. 127; PRE TRUE; POST TRUE; x := x + 9; z := x * 2; ASSERT x > 0;",
            0,
            "LEAST 0 -128 0\nNONE\n",
        ),
        // truth values
        (
            "IN b : BOOL; OUT c : BOOL; PRE TRUE; POST TRUE; IF b; c := NOT b; ELSE; c := TRUE; ENDIF;",
            0,
            "LEAST 1 0\nLEAST 0 0\n",
        ),
        // OLD copies, which are equal at the first line
        (
            "INOUT x : 0 .. 9; PRE TRUE; POST OLD x < x; IF x < 7; x := x + 2; ENDIF;",
            0,
            "LEAST 0 0\nLEAST 7 7\n",
        ),
        // a loop, up to its head, and on from there, where OLD copies may differ
        (
            "INOUT x : 3 .. 9; PRE TRUE; POST TRUE; x := 5; LOOP; ASSERT OLD x < x; EXIT WHEN x = 9; x := x + 1; ENDLOOP;",
            0,
            "LEAST 3 3\n",
        ),
        (
            "INOUT x : 3 .. 9; PRE TRUE; POST TRUE; x := 5; LOOP; ASSERT OLD x < x; EXIT WHEN x = 9; x := x + 1; ENDLOOP;",
            1,
            "LEAST 9 3\nLEAST 4 3\nLEAST 3 3\n",
        ),
        // a loop that never ends
        (
            "OUT y : 2 .. 4; PRE TRUE; POST TRUE; LOOP; SKIP; ENDLOOP;",
            1,
            "LEAST 2\n",
        ),
        // eight `/=` with variables
        (
            "IN x : 0 .. 9; IN y : 0 .. 9; PRE TRUE; POST TRUE; ASSERT x /= y; ASSERT x /= y + 1; ASSERT x /= y + 2; \
ASSERT x /= y + 3; ASSERT x /= y + 4; ASSERT x /= y + 5; ASSERT x /= y + 6; ASSERT x /= y + 7;",
            0,
            "LEAST 0 1\nLEAST 7 0\nLEAST 6 0\nLEAST 5 0\nLEAST 4 0\nLEAST 3 0\nLEAST 2 0\nLEAST 1 0\nLEAST 0 0\n",
        ),
        // nine of them, of which the least input meets only the first eight
        (
            "IN x : 0 .. 9; IN y : 0 .. 9; PRE TRUE; POST TRUE; ASSERT x /= y; ASSERT x /= y + 1; ASSERT x /= y + 2; \
ASSERT x /= y + 3; ASSERT x /= y + 4; ASSERT x /= y + 5; ASSERT x /= y + 6; ASSERT x /= y + 7; ASSERT x + 1 /= y;",
            0,
            "NONE\nLEAST 0 1\nLEAST 7 0\nLEAST 6 0\nLEAST 5 0\nLEAST 4 0\nLEAST 3 0\nLEAST 2 0\nLEAST 1 0\nLEAST 0 0\n",
        ),
    ];
    for case in cases.iter() {
        assert!(rt; is_answered(rt.alloc(), case)?);
    }
    Ok(())
}
