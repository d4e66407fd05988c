//! The tables of texts with calls, from their bytes to those of the report.
use acceptance::accept;
use il_core::{NoMemory, TextEnd};
use il_edge::SureSink;
use malpas_suite::analyse;
use report_text::{Selection, put};
use std::alloc::Global;
use std::test::Fail;

/// The tables alone.
const SEMANTIC: Selection = Selection {
    control: false,
    usage: false,
    flow: false,
    slice: false,
    paths: false,
    semantic: true,
    inputs: false,
    compliance: false,
    certificates: false,
};

/// The bytes of the report of an accepted text.
fn reported(alloc: Global, text: &str) -> Result<SureSink, Fail> {
    let bytes = text.as_bytes();
    if bytes.len() > 1_048_576 {
        return Err(Fail::from("too long"));
    }
    let mut sink = SureSink::new(alloc, 5_000)?;
    match accept(alloc, bytes) {
        Ok(expanded) => {
            let report = analyse(alloc, &expanded, &[])?;
            put(&report, SEMANTIC, &mut sink)?;
        }
        Err(TextEnd::Refused(_)) => return Err(Fail::from("refused")),
        Err(TextEnd::NoMemory) => return Err(Fail::from(NoMemory)),
    }
    Ok(sink)
}

#[test]
fn called_procedures_have_their_tables(rt: HostRuntime) -> Result<(), Fail> {
    let cases = [
        // a callee with an OLD value and places that wrap
        (
            "TITLE t;PROC step;INOUT v : WRAP 0 .. 9;LOCAL n : 0 .. 9;PRE TRUE;POST v /= OLD v;n := 1;v := v + n;ENDPROC;PROC p;INOUT x : WRAP 0 .. 9;PRE TRUE;POST x /= OLD x;CALL step (x);ENDPROC;FINISH;",
            "MALPAS PROFILE 2\nTITLE t\nPROCEDURE step LINES 4\nSEMANTIC\nREGION L0\nROW 1 PATH T\nIF OLD v - ((v + 1) MOD 10) /= 0\nSTOP END\nv := ((v + 1) MOD 10)\nn := 1\nROW 2 PATH F\nIF OLD v - ((v + 1) MOD 10) = 0\nSTOP POST\nv := ((v + 1) MOD 10)\nn := 1\nPROCEDURE p LINES 10\nEXPANDED L1 L8 step\nSEMANTIC\nREGION L0\nROW 1 PATH TT\nIF x - ((x + 1) MOD 10) /= 0\nIF OLD x - ((x + 1) MOD 10) /= 0\nSTOP END\nx := ((x + 1) MOD 10)\nc1_v := ((x + 1) MOD 10)\nc1_n := 1\no1_v := x\nROW 2 PATH TF\nIF x - ((x + 1) MOD 10) /= 0\nIF OLD x - ((x + 1) MOD 10) = 0\nSTOP POST\nx := ((x + 1) MOD 10)\nc1_v := ((x + 1) MOD 10)\nc1_n := 1\no1_v := x\nROW 3 PATH F\nIF x - ((x + 1) MOD 10) = 0\nSTOP ASSERT L7\nc1_v := ((x + 1) MOD 10)\nc1_n := 1\no1_v := x\nSTATUS 1\n",
        ),
        // a call in a loop: OUT and LOCAL places begin anew at each call
        (
            "TITLE t;PROC count;OUT o : 3 .. 20;LOCAL l : 2 .. 20;PRE TRUE;POST o = 5;o := o + l;l := l + 1;ENDPROC;PROC p;OUT x : 3 .. 20;LOCAL n : 0 .. 2;PRE TRUE;POST x = 5;n := 0;x := 5;LOOP;ASSERT x = 5;EXIT WHEN n >= 2;CALL count (x);n := n + 1;ENDLOOP;ENDPROC;FINISH;",
            "MALPAS PROFILE 1\nTITLE t\nPROCEDURE count LINES 4\nSEMANTIC\nREGION L0\nROW 1 PATH TTT\nIF o + l <= 20\nIF l <= 19\nIF o + l = 5\nSTOP END\no := o + l\nl := l + 1\nROW 2 PATH TTF\nIF o + l <= 20\nIF l <= 19\nIF o + l /= 5\nSTOP POST\no := o + l\nl := l + 1\nROW 3 PATH TF\nIF o + l <= 20\nIF l > 19\nSTOP RANGE L2\no := o + l\nROW 4 PATH F\nIF o + l > 20\nSTOP RANGE L1\nPROCEDURE p LINES 16\nEXPANDED L6 L12 count\nSEMANTIC\nREGION L0\nROW 1 PATH -\nSTOP HEAD L3\nx := 5\nn := 0\nREGION L3\nROW 1 PATH TTT\nIF x = 5\nIF n >= 2\nIF x = 5\nSTOP END\nROW 2 PATH TFTTTT\nIF x = 5\nIF n < 2\nIF n <= 1\nSTOP HEAD L3\nx := 5\nn := n + 1\nc1_o := 5\nc1_l := 3\nROW 3 PATH F\nIF x /= 5\nSTOP ASSERT L4\nSTATUS 1\n",
        ),
    ];
    for (text, wanted) in cases {
        let sink = reported(rt.alloc(), text)?;
        assert!(rt; sink.held() == wanted.as_bytes(), "{text}");
    }
    Ok(())
}
