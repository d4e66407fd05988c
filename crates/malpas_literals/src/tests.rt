use crate::text::Found;
use crate::top::list_literals;
use il_edge::{MemSink, MemSource};
use std::alloc::Global;
use std::test::Fail;

/// A sum whose bound is given, with a certificate behind it that is no certificate.
const SUM: &str =
    "TITLE t;\nPROC p;\nIN a : 0 .. 99;\nINOUT b : 0 .. 99;\nOUT s : 0 .. 198;\nPRE a + b <= 100;\nPOST s <= 100;\ns := a + b;\nENDPROC;\nFINISH;\n%%\nCERT\n";

/// Its listing.
const SUM_LISTING: &str =
    "MALPAS LITERALS 1\nPROCEDURE p\nPLACE 0 0 99 a\nPLACE 1 0 99 b\nPLACE 2 0 198 s\nPLACE 3 0 99 OLD b\nTHREAT 1 REGION L0\nLITERAL 0 a + b <= 100\nLITERAL 1 a + b > 100\nEND\n";

/// A procedure without a threat that is open, and one whose loop is entered in its middle.
const LADDER: &str =
    "TITLE t;\nPROC q;\nINOUT x : -9 .. 9;\nPRE TRUE;\nPOST TRUE;\nx := x + 1;\nENDPROC;\nPROC p;\nINOUT x : 0 .. 9;\nPRE TRUE;\nPOST TRUE;\nIF x = 0;\nGOTO mid;\nENDIF;\nLOOP;\nSKIP;\nLABEL mid;\nEXIT WHEN x = 1;\nENDLOOP;\nENDPROC;\nFINISH;\n";

/// Its listing.
const LADDER_LISTING: &str =
    "MALPAS LITERALS 1\nPROCEDURE q\nPLACE 0 -9 9 x\nPLACE 1 -9 9 OLD x\nPROCEDURE p\nPLACE 0 0 9 x\nPLACE 1 0 9 OLD x\nIRREDUCIBLE\nEND\n";

/// The line of a text whose first statement has no form.
const REFUSED: &str = "malpas: E05 at byte 0: statement has no form\n";

/// The status of a run on a text whose calls of these numbers fail, and how many bytes are held, which are the first ones
/// of `written`.
fn run(
    alloc: Global,
    text: &str,
    reads: &[usize],
    calls: &[usize],
    written: &str,
) -> Result<(u8, usize), Fail> {
    let mut source = MemSource::new(alloc, text.as_bytes(), 16, reads)?;
    let mut sink = MemSink::new(alloc, 16, 1000, calls)?;
    let outcome = list_literals(alloc, &mut source, &mut sink);
    let found = match outcome.found {
        Found::Threats(_) => 0,
        Found::Refused(_) => 2,
        Found::ReadFault => 3,
        Found::NoMemory => 5,
    };
    if outcome.status != found && outcome.status != 4 {
        return Err(Fail::from("another status"));
    }
    if !written.as_bytes().starts_with(sink.held()) {
        return Err(Fail::from("other bytes"));
    }
    Ok((outcome.status, sink.held().len()))
}

#[test]
fn lists_literals_or_refuses(rt: HostRuntime) -> Result<(), Fail> {
    let alloc = rt.alloc();
    for (text, status, written) in [
        (SUM, 0, SUM_LISTING),
        (LADDER, 0, LADDER_LISTING),
        ("TITEL;\n%%\nTITLE t;\n", 2, REFUSED),
    ] {
        let answer = run(alloc, text, &[], &[], written)?;
        assert_eq!(rt; answer, (status, written.len()), "{text}");
    }
    Ok(())
}

#[test]
fn tells_each_read_that_fails(rt: HostRuntime) -> Result<(), Fail> {
    let alloc = rt.alloc();
    let reads = SUM.len().div_ceil(16) + 1;
    for number in 1..reads + 1 {
        assert_eq!(rt; run(alloc, SUM, &[number], &[], "")?, (3, 0));
    }
    assert_eq!(rt;
        run(alloc, SUM, &[reads + 1], &[], SUM_LISTING)?,
        (0, SUM_LISTING.len())
    );
    Ok(())
}

#[test]
fn tells_each_write_and_flush_that_fails(rt: HostRuntime) -> Result<(), Fail> {
    let alloc = rt.alloc();
    let mut before = 0;
    for number in 1..1000usize {
        let (status, held) = run(alloc, SUM, &[], &[number], SUM_LISTING)?;
        if status == 0 {
            assert_eq!(rt; before, SUM_LISTING.len());
            return Ok(());
        }
        assert!(rt; status == 4 && before <= held && held - before <= 16);
        before = held;
    }
    Err(Fail::from("no run that does not fail"))
}
