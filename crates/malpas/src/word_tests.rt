use crate::top::malpas;
use il_edge::{SureSink, SureSource};
use std::alloc::Global;
use std::process::Abort;
use std::test::Fail;

/// A straight procedure.
const COPY: &str =
    "TITLE copy;\nPROC p;\nIN a : 0 .. 9;\nINOUT b : 0 .. 9;\nOUT c : 0 .. 9;\nLOCAL d : 0 .. 9;\nPRE TRUE;\nPOST TRUE;\nd := a;\nc := b;\nb := d;\nENDPROC;\nFINISH;\n";

/// The flow of its information alone.
const COPY_FLOW: &str =
    "MALPAS PROFILE 1\nTITLE copy\nPROCEDURE p LINES 5\nFLOW\nVAR a FROM a TESTS -\nVAR b FROM a TESTS -\nVAR c FROM b TESTS -\nVAR d FROM a TESTS -\nSTATUS 0\n";

/// A procedure that can leave the range of its variable.
const RISING: &str =
    "TITLE t;\nPROC p;\nINOUT x : 0 .. 9;\nPRE TRUE;\nPOST TRUE;\nx := x + 1;\nENDPROC;\nFINISH;\n";

/// Its use of variables alone, with the status of the whole report.
const RISING_USE: &str =
    "MALPAS PROFILE 1\nTITLE t\nPROCEDURE p LINES 3\nUSE\nVAR x RF=Y OW=N LW=N NR=N NW=N EU=N\nSTATUS 1\n";

/// A loop whose number of turns decides the final value of v.
const COUNTING: &str =
    "TITLE t;\nPROC p;\nIN c : 0 .. 9;\nOUT v : 0 .. 99;\nLOCAL i : 0 .. 9;\nPRE TRUE;\nPOST TRUE;\nv := 0;\ni := 0;\nLOOP;\nEXIT WHEN i >= c;\nv := v + 2;\ni := i + 1;\nENDLOOP;\nENDPROC;\nFINISH;\n";

/// Its slices alone, with the status of the whole report.
const COUNTING_SLICE: &str =
    "MALPAS PROFILE 1\nTITLE t\nPROCEDURE p LINES 9\nSLICE\nVAR c KEEP L8 FIXED L4=T\nVAR v KEEP L1 L2 L4 L5 L6 L8 FIXED -\nVAR i KEEP L2 L4 L6 L8 FIXED -\nSTATUS 1\n";

/// A loop that never ends.
const ENDLESS: &str =
    "TITLE t;\nPROC p;\nOUT y : 0 .. 1;\nPRE TRUE;\nPOST TRUE;\nLOOP;\nSKIP;\nENDLOOP;\nENDPROC;\nFINISH;\n";

/// Its flow and its slice.
const ENDLESS_SLICE: &str =
    "MALPAS PROFILE 1\nTITLE t\nPROCEDURE p LINES 5\nFLOW\nVAR y FROM - TESTS -\nSLICE\nVAR y KEEP - FIXED -\nSTATUS 0\n";

/// A loop that is entered in its middle.
const LADDER: &str =
    "TITLE t;\nPROC p;\nINOUT x : 0 .. 9;\nPRE TRUE;\nPOST TRUE;\nIF x = 0;\nGOTO mid;\nENDIF;\nLOOP;\nSKIP;\nLABEL mid;\nEXIT WHEN x = 1;\nENDLOOP;\nENDPROC;\nFINISH;\n";

/// Its slices, which are not given.
const LADDER_SLICE: &str =
    "MALPAS PROFILE 1\nTITLE t\nPROCEDURE p LINES 10\nSLICE\nNOT REPORTED IRREDUCIBLE\nSTATUS 1\n";

/// A procedure that calls another.
const CALLING: &str =
    "TITLE t;\nPROC inc;\nINOUT v : 0 .. 5;\nPRE TRUE;\nPOST TRUE;\nv := v + 1;\nENDPROC;\nPROC main;\nINOUT x : 0 .. 5;\nPRE TRUE;\nPOST TRUE;\nCALL inc(x);\nENDPROC;\nFINISH;\n";

/// The control structure of both, with the lines that stand for the call.
const CALLING_CONTROL: &str =
    "MALPAS PROFILE 1\nTITLE t\nPROCEDURE inc LINES 3\nCONTROL\nUNREACHABLE -\nSTUCK -\nLEVEL 0\nINTERVAL L0: L0 L1 L2\nSHAPE REDUCIBLE\nPROCEDURE main LINES 8\nEXPANDED L1 L6 inc\nCONTROL\nUNREACHABLE -\nSTUCK -\nLEVEL 0\nINTERVAL L0: L0 L1 L2 L3 L4 L5 L6 L7\nSHAPE REDUCIBLE\nSTATUS 1\n";

/// The summary of the made text of 3.
const OF_THREE: &str =
    "GENERATED 3\nLINES 14\nREGIONS 4\nROWS 7\nTHREATS 4\nFALSE 4\nSHOWN 0\nOPEN 0\nPAST 0\n";

/// Runs the top call with some words on a text, and compares what it writes.
fn expect(
    rt: &impl Abort,
    alloc: Global,
    words: &[&str],
    text: &str,
    status: u8,
    written: &str,
) -> Result<(), Fail> {
    let mut all = Vec::new(alloc);
    for word in words {
        all.push(String::from_str(alloc, word)?)?;
    }
    let mut source = SureSource::new(alloc, text.as_bytes())?;
    let mut sink = SureSink::new(alloc, 1000)?;
    let outcome = malpas(alloc, all.as_slice(), &mut source, &mut sink);
    assert_eq!(rt; sink.held(), written.as_bytes());
    assert_eq!(rt; outcome.status, status);
    Ok(())
}

#[test]
fn writes_the_sections_that_are_selected(rt: HostRuntime) -> Result<(), Fail> {
    expect(&rt, rt.alloc(), &["--flow", "--flow"], COPY, 0, COPY_FLOW)?;
    expect(&rt, rt.alloc(), &["--use"], RISING, 1, RISING_USE)
}

#[test]
fn tells_the_lines_of_a_call(rt: HostRuntime) -> Result<(), Fail> {
    expect(&rt, rt.alloc(), &["--control"], CALLING, 1, CALLING_CONTROL)
}

#[test]
fn writes_slices_where_they_are_asked_for(rt: HostRuntime) -> Result<(), Fail> {
    expect(&rt, rt.alloc(), &["--slice"], COUNTING, 1, COUNTING_SLICE)?;
    expect(
        &rt,
        rt.alloc(),
        &["--slice", "--flow"],
        ENDLESS,
        0,
        ENDLESS_SLICE,
    )?;
    expect(&rt, rt.alloc(), &["--slice"], LADDER, 1, LADDER_SLICE)
}

#[test]
fn writes_the_summary_of_a_made_text(rt: HostRuntime) -> Result<(), Fail> {
    expect(&rt, rt.alloc(), &["--generate", "3"], "", 0, OF_THREE)?;
    expect(
        &rt,
        rt.alloc(),
        &["--use", "--generate=3"],
        COPY,
        0,
        OF_THREE,
    )?;
    expect(
        &rt,
        rt.alloc(),
        &["--certificates", "--generate=3"],
        "%%\n",
        0,
        OF_THREE,
    )
}

#[test]
fn refuses_words_that_spell_no_request(rt: HostRuntime) -> Result<(), Fail> {
    let refused = "malpas: words not understood\n";
    for words in [
        &["--generate"].as_slice(),
        &["--flow=x"].as_slice(),
        &["flow"].as_slice(),
    ] {
        expect(&rt, rt.alloc(), words, COPY, 6, refused)?;
    }
    Ok(())
}
