//! The answers to texts: some sections of their reports, or the lines of their refusals.
use acceptance::accept;
use il_core::{NoMemory, TextEnd};
use il_edge::SureSink;
use malpas_suite::analyse;
use report_text::{Selection, put, put_refusal};
use std::alloc::Global;
use std::test::Fail;

/// No section.
pub const NOTHING: Selection = Selection {
    control: false,
    usage: false,
    flow: false,
    slice: false,
    paths: false,
    semantic: false,
    inputs: false,
    compliance: false,
    certificates: false,
};

/// The section on control.
pub const CONTROL: Selection = Selection {
    control: true,
    ..NOTHING
};

/// The sections on variables.
pub const VARIABLES: Selection = Selection {
    usage: true,
    flow: true,
    slice: true,
    ..NOTHING
};

/// The section on paths.
pub const PATHS: Selection = Selection {
    paths: true,
    ..NOTHING
};

/// The sections on tables, test inputs and threats.
pub const TABLES: Selection = Selection {
    semantic: true,
    inputs: true,
    compliance: true,
    ..NOTHING
};

/// All sections but that on flow.
pub const BUT_FLOW: Selection = Selection {
    control: true,
    usage: true,
    slice: true,
    paths: true,
    certificates: true,
    ..TABLES
};

/// The bytes that answer a text: these sections of its report, or the line of its refusal.
pub fn reported(alloc: Global, asked: Selection, text: &str) -> Result<SureSink, Fail> {
    let bytes = text.as_bytes();
    if bytes.len() > 1_048_576 {
        return Err(Fail::from("too long"));
    }
    let mut sink = SureSink::new(alloc, 5_000)?;
    match accept(alloc, bytes) {
        Ok(expanded) => {
            let report = analyse(alloc, &expanded, &[])?;
            put(&report, asked, &mut sink)?;
        }
        Err(TextEnd::Refused(refusal)) => put_refusal(&refusal, &mut sink)?,
        Err(TextEnd::NoMemory) => return Err(Fail::from(NoMemory)),
    }
    Ok(sink)
}
