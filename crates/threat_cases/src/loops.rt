//! Procedures with one loop.
use crate::listed::are_threats;
use std::test::Fail;

/// The assertions hold on entry, are kept, and give the postcondition.
const COUNTING: &[u8] =
    b"TITLE t;PROC p;IN n : 0 .. 9;OUT i : 0 .. 9;PRE TRUE;POST i = n;i := 0;LOOP;ASSERT 0 <= i;ASSERT i <= n;EXIT WHEN i >= n;i := i + 1;ENDLOOP;ENDPROC;FINISH;";

/// The assertion is false on some entries and is lost by the body.
const LOST: &[u8] =
    b"TITLE t;PROC p;IN n : 0 .. 9;LOCAL i : 0 .. 9;PRE TRUE;POST TRUE;i := 3;LOOP;ASSERT i <= n;EXIT WHEN i >= n;i := i + 2;ENDLOOP;ENDPROC;FINISH;";

/// An assertion over three variables.
const SUM: &[u8] =
    b"TITLE t;PROC p;IN n : 0 .. 9;IN k : 0 .. 9;OUT s : 0 .. 18;LOCAL i : 0 .. 9;PRE TRUE;POST s = k + n;s := k;i := 0;LOOP;ASSERT i <= n;ASSERT s = k + i;EXIT WHEN i = n;i := i + 1;s := s + 1;ENDLOOP;ENDPROC;FINISH;";

#[test]
fn counting_is_sound(rt: HostRuntime) -> Result<(), Fail> {
    let wanted: [&str; 6] = [
        "L0 TF FailedAssert(4) FALSE",
        "L0 F FailedAssert(3) FALSE",
        "L2 TTTF FailedPost FALSE",
        "L2 TTFTTF FailedAssert(4) FALSE",
        "L2 TTFTF FailedAssert(3) FALSE",
        "L2 TTFF Range(6) FALSE",
    ];
    assert!(rt; are_threats(rt.alloc(), COUNTING, 0, &wanted)?);
    Ok(())
}

#[test]
fn a_lost_assertion_is_shown(rt: HostRuntime) -> Result<(), Fail> {
    let wanted: [&str; 3] = [
        "L0 F FailedAssert(3) SHOWN 0 0",
        "L2 TFTF FailedAssert(3) SHOWN 1 0",
        "L2 TFF Range(5) SHOWN 9 8",
    ];
    assert!(rt; are_threats(rt.alloc(), LOST, 0, &wanted)?);
    Ok(())
}

#[test]
fn a_sum_of_three_is_open(rt: HostRuntime) -> Result<(), Fail> {
    let wanted: [&str; 7] = [
        "L0 TF FailedAssert(5) FALSE",
        "L0 F FailedAssert(4) FALSE",
        "L3 TTTF FailedPost OPEN 1",
        "L3 TTFTTTF FailedAssert(5) OPEN 1",
        "L3 TTFTTF FailedAssert(4) FALSE",
        "L3 TTFTF Range(8) OPEN 1",
        "L3 TTFF Range(7) FALSE",
    ];
    assert!(rt; are_threats(rt.alloc(), SUM, 0, &wanted)?);
    Ok(())
}
