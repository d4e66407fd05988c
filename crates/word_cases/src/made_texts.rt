//! Made texts: their bytes, and that they are accepted, with the lines that are stated.
ghost use Rattle.std.specs.Prelude.{◌≤◌};

use acceptance::accept;
use made_text::make_text;
use std::alloc::Global;
use std::test::Fail;

/// The made text of 3.
const OF_THREE: &str =
    "TITLE gen;\nPROC p;\nINOUT x : 0 .. 200;\nPRE TRUE;\nPOST x >= 3;\nLOOP;\nEXIT WHEN x >= 1;\nx := x + 1;\nENDLOOP;\nLOOP;\nEXIT WHEN x >= 2;\nx := x + 1;\nENDLOOP;\nLOOP;\nEXIT WHEN x >= 3;\nx := x + 1;\nENDLOOP;\nENDPROC;\nFINISH;\n";

/// The made text of 1.
const OF_ONE: &str =
    "TITLE gen;\nPROC p;\nINOUT x : 0 .. 200;\nPRE TRUE;\nPOST x >= 1;\nLOOP;\nEXIT WHEN x >= 1;\nx := x + 1;\nENDLOOP;\nENDPROC;\nFINISH;\n";

/// How the made text of 200 begins and ends.
const FRONT: &str =
    "TITLE gen;\nPROC p;\nINOUT x : 0 .. 200;\nPRE TRUE;\nPOST x >= 200;\nLOOP;\nEXIT WHEN x >= 1;\n";

const END: &str = "LOOP;\nEXIT WHEN x >= 200;\nx := x + 1;\nENDLOOP;\nENDPROC;\nFINISH;\n";

/// The number of lines of the one procedure of the made text of a number, where it is accepted.
fn lines_of(alloc: Global, number: u8) -> Result<usize, Fail>
    requires { (1 ≤ number) × (number ≤ 200) }
{
    let text = make_text(alloc, number)?;
    match accept(alloc, text.as_slice()) {
        Ok(expanded) => match expanded.text.procs().as_slice() {
            [one] => Ok(one.lines().len()),
            _ => Ok(0),
        },
        Err(_) => Ok(0),
    }
}

#[test]
fn writes_the_text_of_one_and_of_three(rt: HostRuntime) -> Result<(), Fail> {
    assert_eq!(rt; make_text(rt.alloc(), 1)?.as_slice(), OF_ONE.as_bytes());
    assert_eq!(rt; make_text(rt.alloc(), 3)?.as_slice(), OF_THREE.as_bytes());
    Ok(())
}

#[test]
fn writes_the_text_of_two_hundred(rt: HostRuntime) -> Result<(), Fail> {
    let text = make_text(rt.alloc(), 200)?;
    assert!(rt; text.starts_with(FRONT.as_bytes()));
    assert!(rt; text.ends_with(END.as_bytes()));
    Ok(())
}

/// Each number there is: none is left to a proof by samples.
#[test]
fn each_made_text_is_accepted_with_its_lines(rt: HostRuntime) -> Result<(), Fail> {
    for number in 1..=200 {
        let lines = lines_of(rt.alloc(), number)?;
        assert_eq!(rt; lines, 4 * usize::from(number) + 2, "at {number}");
    }
    Ok(())
}
