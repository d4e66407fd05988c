//! What lies between the layers: texts through the lexer and the parser.
use crate::texts::statements_of;
use il_core::Code;
use std::alloc::Global;
use std::test::Fail;

const COPY: &[u8] =
    b"TITLE copy;\nPROC p;\nIN a : 0 .. 9;\nINOUT b : 0 .. 9;\nOUT c : 0 .. 9;\nLOCAL d : 0 .. 9;\nPRE TRUE;\nPOST TRUE;\nd := a;\nc := b;\nb := d;\nENDPROC;\nFINISH;\n";

/// A valve controller: constants, types, conditions, loops, assertions and two procedures.
const VALVE: &[u8] =
    b"TITLE valve;\nCONST full = 100;\nTYPE level = 0 .. full;\nTYPE state = ( shut, filling, draining );\nPROC fill;\nIN goal : level;\nINOUT height : level;\nOUT mode : state;\nPRE height <= goal;\nPOST height = goal AND OLD height <= height;\nmode := filling;\nLOOP;\nASSERT height <= goal;\nASSERT OLD height <= height;\nEXIT WHEN height = goal;\nIF height + 10 > goal;\nheight := goal;\nELSE;\nheight := height + 10;\nENDIF;\nENDLOOP;\nmode := shut;\nENDPROC;\nPROC drain;\nIN low : level;\nINOUT height : level;\nOUT mode : state;\nOUT alarm : BOOL;\nPRE low <= height;\nPOST height = low AND NOT alarm;\nmode := draining;\nalarm := FALSE;\nLOOP;\nASSERT low <= height;\nASSERT mode = draining;\nASSERT NOT alarm;\nEXIT WHEN height <= low;\nheight := height - 1;\nENDLOOP;\nIF mode = draining;\nmode := shut;\nELSE;\nalarm := TRUE;\nENDIF;\nENDPROC;\nFINISH;\n";

/// The number of statements of a text, or the code and place of its refusal.
fn statements_in(alloc: Global, text: &[u8]) -> Result<Result<usize, (Code, usize)>, Fail> {
    match statements_of(alloc, text)? {
        Ok(stmts) => Ok(Ok(stmts.len())),
        Err(refusal) => Ok(Err((refusal.code, refusal.place))),
    }
}

/// The lengths of the fronts of the text that end just behind a `;`.
const ENDS: [usize; 13] = [11, 19, 34, 52, 68, 86, 96, 107, 115, 123, 131, 140, 148];

/// What a front of the text of this length gives: the end of its last whole statement tells the place.
fn wanted(length: usize) -> Result<usize, (Code, usize)> {
    if length >= 148 {
        return Ok(13);
    }
    if [30, 48, 64, 82].contains(&length) {
        return Err((Code::Lexical, length - 1));
    }
    match ENDS.iter().filter(|end| **end <= length).max() {
        None if length == 0 => Err((Code::Order, 0)),
        None => Err((Code::Syntax, 0)),
        Some(end) if length <= end.saturating_add(1) => Err((Code::Order, length)),
        Some(end) => Err((Code::Syntax, end.saturating_add(1))),
    }
}

#[test]
fn each_front_of_a_text(rt: HostRuntime) -> Result<(), Fail> {
    for length in 0..COPY.len() + 1 {
        let found = statements_in(rt.alloc(), &COPY[..length])?;
        assert!(rt; found == wanted(length), "{length}");
    }
    Ok(())
}

#[test]
fn a_valve_controller(rt: HostRuntime) -> Result<(), Fail> {
    assert!(rt; statements_in(rt.alloc(), VALVE)? == Ok(46));
    Ok(())
}
