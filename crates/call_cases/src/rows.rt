//! Rows of texts with calls and their answers.
use acceptance::accept;
use il_core::{Code, Name, Refusal, TextEnd};
use std::alloc::Global;
use std::test::Fail;

/// A procedure that adds 1 to its variable.
pub const INC: &str = "PROC inc;INOUT v : 0 .. 9;PRE v <= 8;POST v = OLD v + 1;v := v + 1;ENDPROC;";

/// A procedure that calls it.
pub const OUTER: &str = "PROC outer;INOUT y : 0 .. 9;PRE TRUE;POST TRUE;CALL inc (y);ENDPROC;";

/// The number of procedures of a text, or its refusal.
fn outcome(alloc: Global, text: &[u8]) -> Result<Result<usize, Refusal>, Fail> {
    if text.len() > 1_048_576 {
        return Err(Fail::from("too long"));
    }
    match accept(alloc, text) {
        Ok(expanded) => Ok(Ok(expanded.text.procs().len())),
        Err(TextEnd::Refused(refusal)) => Ok(Err(refusal)),
        Err(TextEnd::NoMemory) => Err(Fail::from("out of memory")),
    }
}

/// The bytes of a text without its mark.
fn unmarked(alloc: Global, marked: &[u8]) -> Result<Vec<u8>, Fail> {
    let mut bytes = Vec::new(alloc);
    for byte in marked {
        if *byte != b'^' {
            bytes.push(*byte)?;
        }
    }
    Ok(bytes)
}

/// The place of the mark, or the end where there is none.
fn mark_of(marked: &[u8]) -> usize {
    for (at, byte) in marked.iter().enumerate() {
        if *byte == b'^' {
            return at;
        }
    }
    marked.len()
}

/// Whether a text is accepted, or is refused with this code, which tells a name unless that is empty, at the byte that `^` marks; the
/// mark is no part of the text.
pub fn is_answered(
    alloc: Global,
    marked: &str,
    wanted: Option<(Code, &str)>,
) -> Result<bool, Fail> {
    let text = unmarked(alloc, marked.as_bytes())?;
    let found = outcome(alloc, text.as_slice())?;
    match wanted {
        None => Ok(found.is_ok()),
        Some((code, name)) => Ok(
            found
                == Err(Refusal {
                    code,
                    place: mark_of(marked.as_bytes()),
                    name: Name::new(name.as_bytes()),
                }),
        ),
    }
}
