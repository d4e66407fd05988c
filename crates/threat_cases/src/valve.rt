//! The controller of a valve: both of its procedures are sound.
use crate::listed::are_threats;
use std::test::Fail;

const VALVE: &[u8] =
    b"TITLE valve;CONST full = 100;TYPE level = 0 .. full;TYPE state = ( shut, filling, draining );PROC fill;IN goal : level;INOUT height : level;OUT mode : state;PRE height <= goal;POST height = goal AND OLD height <= height;mode := filling;LOOP;ASSERT height <= goal;ASSERT OLD height <= height;EXIT WHEN height = goal;IF height + 10 > goal;height := goal;ELSE;height := height + 10;ENDIF;ENDLOOP;mode := shut;ENDPROC;PROC drain;IN low : level;INOUT height : level;OUT mode : state;OUT alarm : BOOL;PRE low <= height;POST height = low AND NOT alarm;mode := draining;alarm := FALSE;LOOP;ASSERT low <= height;ASSERT mode = draining;ASSERT NOT alarm;EXIT WHEN height <= low;height := height - 1;ENDLOOP;IF mode = draining;mode := shut;ELSE;alarm := TRUE;ENDIF;ENDPROC;FINISH;";

#[test]
fn filling_is_sound(rt: HostRuntime) -> Result<(), Fail> {
    let wanted: [&str; 9] = [
        "L0 TTF FailedAssert(4) FALSE",
        "L0 TF FailedAssert(3) FALSE",
        "L2 TTTTF FailedPost FALSE",
        "L2 TTTF FailedPost FALSE",
        "L2 TTFTTF FailedAssert(4) FALSE",
        "L2 TTFTF FailedAssert(3) FALSE",
        "L2 TTFFTTF FailedAssert(4) FALSE",
        "L2 TTFFTF FailedAssert(3) FALSE",
        "L2 TTFFF Range(9) FALSE",
    ];
    assert!(rt; are_threats(rt.alloc(), VALVE, 0, &wanted)?);
    Ok(())
}

#[test]
fn draining_is_sound(rt: HostRuntime) -> Result<(), Fail> {
    let wanted: [&str; 11] = [
        "L0 TTTT FailedAssert(6) FALSE",
        "L0 TTF FailedAssert(5) FALSE",
        "L0 TF FailedAssert(4) FALSE",
        "L3 TTFTTTT FailedPost FALSE",
        "L3 TTFTTF FailedPost FALSE",
        "L3 TTFTFTT FailedPost FALSE",
        "L3 TTFTFF FailedPost FALSE",
        "L3 TTFFTTTT FailedAssert(6) FALSE",
        "L3 TTFFTTF FailedAssert(5) FALSE",
        "L3 TTFFTF FailedAssert(4) FALSE",
        "L3 TTFFF Range(8) FALSE",
    ];
    assert!(rt; are_threats(rt.alloc(), VALVE, 1, &wanted)?);
    Ok(())
}
