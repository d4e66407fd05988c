//! What calls become.
use crate::rows::{INC, OUTER};
use acceptance::accept;
use il_called::{CallSpan, Origin};
use il_core::CheckedProc;
use il_inline::Expanded;
use std::alloc::Global;
use std::test::Fail;

/// The expansion of the text of some procedures.
fn expansion(alloc: Global, procs: &str) -> Result<Expanded, Fail> {
    let text = format!(in alloc; "TITLE t;{procs}FINISH;")?;
    let bytes = text.as_bytes();
    if bytes.len() > 1_048_576 {
        return Err(Fail::from("too long"));
    }
    match accept(alloc, bytes) {
        Ok(expanded) => Ok(expanded),
        Err(_) => Err(Fail::from("not accepted")),
    }
}

/// The names of the places of a procedure, in order.
fn names_of(alloc: Global, proc: &CheckedProc) -> Result<String, Fail> {
    let mut text = String::new(alloc);
    for place in proc.places().as_slice() {
        for byte in place.name.as_bytes() {
            text.push(char::from(*byte))?;
        }
        text.push(' ')?;
    }
    Ok(text)
}

/// The origins of lines, each as the number of its procedure and the line.
fn origins_of(alloc: Global, origins: &[Origin]) -> Result<String, Fail> {
    let mut text = String::new(alloc);
    for origin in origins {
        let one = format!(in alloc; "{}:{} ", origin.procedure, origin.line)?;
        text.push_str(one.as_str())?;
    }
    Ok(text)
}

/// The lines of calls, each with the number of the procedure called.
fn spans_of(alloc: Global, spans: &[CallSpan]) -> Result<String, Fail> {
    let mut text = String::new(alloc);
    for span in spans {
        let one = format!(in alloc; "{}-{}:{} ", span.first, span.last, span.callee)?;
        text.push_str(one.as_str())?;
    }
    Ok(text)
}

#[test]
fn calls_are_expanded_in_place(rt: HostRuntime) -> Result<(), Fail> {
    let p = "PROC p;INOUT x : 0 .. 5;PRE TRUE;POST TRUE;CALL inc (x);ENDPROC;";
    let q =
        "PROC q;INOUT x : 0 .. 9;LOCAL n : 0 .. 9;PRE TRUE;POST TRUE;n := 0;LOOP;EXIT WHEN n >= 2;CALL outer (x);n := n + 1;ENDLOOP;ENDPROC;";
    // the procedures, the number of the last one's lines, its places, the origins of its lines, and the lines of its calls
    let cases: [(&[&str], usize, &str, &str, &str); 4] = [
        (&[INC], 3, "v v ", "0:0 0:1 0:2 ", ""),
        // the argument, the OLD copy, the callee's PRE, its body and its POST, and the variable handed back
        (
            &[INC, p],
            8,
            "x c1_v o1_v x ",
            "1:0 1:1 1:1 0:0 0:1 0:2 1:1 1:2 ",
            "1-6:0 ",
        ),
        // a call of a call
        (
            &[INC, OUTER],
            8,
            "y c1_v o1_v y ",
            "1:0 1:1 1:1 0:0 0:1 0:2 1:1 1:2 ",
            "1-6:0 ",
        ),
        // a call of a call in a loop
        (
            &[INC, OUTER, q],
            18,
            "x n c1_y c1_c1_v c1_o1_v o1_y x ",
            "2:0 2:1 2:2 2:3 2:4 2:4 1:0 1:1 1:1 0:0 0:1 0:2 1:1 1:2 2:4 2:5 2:6 2:7 ",
            "4-14:1 ",
        ),
    ];
    for (procs, lines, names, origins, spans) in cases {
        let mut text = String::new(rt.alloc());
        for proc in procs {
            text.push_str(proc)?;
        }
        let expanded = expansion(rt.alloc(), text.as_str())?;
        let last = procs.len().saturating_sub(1);
        let proc = expanded.text.procs().get(last).ok_or("no procedure")?;
        assert_eq!(rt; proc.lines().len(), lines);
        assert_eq!(rt; names_of(rt.alloc(), proc)?.as_str(), names);
        let from = expanded.origins.get(last).ok_or("no origins")?;
        assert_eq!(rt; origins_of(rt.alloc(), from.as_slice())?.as_str(), origins);
        let calls = expanded.spans.get(last).ok_or("no spans")?;
        assert_eq!(rt; spans_of(rt.alloc(), calls.as_slice())?.as_str(), spans);
    }
    Ok(())
}
