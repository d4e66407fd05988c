//! Procedures without loops.
use crate::listed::are_threats;
use std::test::Fail;

/// An assignment may leave the range of its variable.
const RANGE: &[u8] =
    b"TITLE t;PROC p;INOUT x : 0 .. 9;PRE TRUE;POST TRUE;x := x + 1;ENDPROC;FINISH;";

/// A quotient may have the divisor 0, or leave the range.
const QUOTIENT: &[u8] =
    b"TITLE t;PROC p;IN a : 0 .. 9;IN b : -2 .. 2;OUT q : -3 .. 3;PRE TRUE;POST TRUE;q := a DIV b;ENDPROC;FINISH;";

/// A condition divides by 0 only where its first part is true.
const CONDITION: &[u8] =
    b"TITLE t;PROC p;IN a : 0 .. 1;IN b : 0 .. 5;OUT r : 0 .. 1;PRE TRUE;POST TRUE;r := 0;IF a = 1 AND 10 DIV b > 2;r := 1;ENDIF;ENDPROC;FINISH;";

/// No path leads to a fault.
const SOUND: &[u8] =
    b"TITLE t;PROC p;IN x : 0 .. 9;LOCAL y : 0 .. 1;PRE TRUE;POST TRUE;IF x > 5;IF x < 3;y := 1;ENDIF;ENDIF;ENDPROC;FINISH;";

/// A product decides twice alike.
const PRODUCT: &[u8] =
    b"TITLE t;PROC p;IN x : 0 .. 9;IN y : 0 .. 9;PRE TRUE;POST TRUE;IF x * y < 3;ASSERT x * y < 3;ENDIF;ENDPROC;FINISH;";

/// Of two numbers, the one that is not 0 is 1.
const SPLIT_OF_TWO: &[u8] =
    b"TITLE t;PROC p;IN x : 0 .. 1;PRE TRUE;POST TRUE;IF x /= 0;ASSERT x = 1;ENDIF;ENDPROC;FINISH;";

/// Of ten numbers, some are neither 0 nor 1.
const SPLIT_OF_TEN: &[u8] =
    b"TITLE t;PROC p;IN x : 0 .. 9;PRE TRUE;POST TRUE;IF x /= 0;ASSERT x = 1;ENDIF;ENDPROC;FINISH;";

/// Assertions that fail behind a test whose true side is met by no input, and on its other side.
const BELOW: &[u8] =
    b"TITLE t;PROC p;IN x : 0 .. 9;PRE TRUE;POST TRUE;IF x > 5;IF x < 3;ASSERT x = 1;ASSERT x = 2;ENDIF;ASSERT x < 9;ENDIF;ENDPROC;FINISH;";

/// The precondition itself divides by 0; where it is false, nothing is wrong.
const PRECONDITION: &[u8] =
    b"TITLE t;PROC p;IN a : 0 .. 5;PRE 10 DIV a > 2;POST TRUE;SKIP;ENDPROC;FINISH;";

/// More paths than a region within its size has, each of which may leave the range.
const PAST: &[u8] =
    b"TITLE t;PROC p;INOUT x : 0 .. 9;IN a : 0 .. 99;PRE TRUE;POST TRUE;IF a >= 1;SKIP;ENDIF;IF a >= 2;SKIP;ENDIF;IF a >= 3;SKIP;ENDIF;IF a >= 4;SKIP;ENDIF;IF a >= 5;SKIP;ENDIF;IF a >= 6;SKIP;ENDIF;IF a >= 7;SKIP;ENDIF;IF a >= 8;SKIP;ENDIF;IF a >= 9;SKIP;ENDIF;IF a >= 10;SKIP;ENDIF;IF a >= 11;SKIP;ENDIF;IF a >= 12;SKIP;ENDIF;IF a >= 13;SKIP;ENDIF;IF a >= 14;SKIP;ENDIF;x := x + 1;ENDPROC;FINISH;";

#[test]
fn faults_are_shown(rt: HostRuntime) -> Result<(), Fail> {
    let range: [&str; 1] = ["L0 F Range(1) SHOWN 9 9"];
    assert!(rt; are_threats(rt.alloc(), RANGE, 0, &range)?);
    let condition: [&str; 1] = ["L0 TF DivZero(2) SHOWN 1 0 0"];
    assert!(rt; are_threats(rt.alloc(), CONDITION, 0, &condition)?);
    let precondition: [&str; 1] = ["L0 F DivZero(0) SHOWN 0"];
    assert!(rt; are_threats(rt.alloc(), PRECONDITION, 0, &precondition)?);
    Ok(())
}

#[test]
fn hard_literals_stay_open(rt: HostRuntime) -> Result<(), Fail> {
    let quotient: [&str; 3] = [
        "L0 TTF Range(1) OPEN 1",
        "L0 TF Range(1) OPEN 1",
        "L0 F DivZero(1) SHOWN 0 0 -3",
    ];
    assert!(rt; are_threats(rt.alloc(), QUOTIENT, 0, &quotient)?);
    let product: [&str; 1] = ["L0 TF FailedAssert(2) OPEN 0"];
    assert!(rt; are_threats(rt.alloc(), PRODUCT, 0, &product)?);
    Ok(())
}

#[test]
fn splits_are_tried(rt: HostRuntime) -> Result<(), Fail> {
    let two: [&str; 1] = ["L0 TF FailedAssert(2) FALSE"];
    assert!(rt; are_threats(rt.alloc(), SPLIT_OF_TWO, 0, &two)?);
    let ten: [&str; 1] = ["L0 TF FailedAssert(2) SHOWN 2"];
    assert!(rt; are_threats(rt.alloc(), SPLIT_OF_TEN, 0, &ten)?);
    Ok(())
}

#[test]
fn below_what_is_refuted_all_is(rt: HostRuntime) -> Result<(), Fail> {
    let below: [&str; 4] = [
        "L0 TTTTF FailedAssert(6) FALSE",
        "L0 TTTF FailedAssert(4) FALSE",
        "L0 TTF FailedAssert(3) FALSE",
        "L0 TFF FailedAssert(6) SHOWN 9",
    ];
    assert!(rt; are_threats(rt.alloc(), BELOW, 0, &below)?);
    Ok(())
}

#[test]
fn none_is_listed(rt: HostRuntime) -> Result<(), Fail> {
    assert!(rt; are_threats(rt.alloc(), SOUND, 0, &[])?);
    assert!(rt; are_threats(rt.alloc(), PAST, 0, &[])?);
    Ok(())
}
