//! The threats of procedures that are read from texts.
use acceptance::accept;
use compliance::{Threat, Verdict, threats};
use control_flow::{Shape, control_of};
use flow_graph::build;
use il_core::{CheckedProc, List, NoMemory};
use interval_reduce::derive;
use std::alloc::{AllocError, Global};
use std::test::Fail;
use test_graph::lower;

/// The verdict of a threat in words.
fn verdict_text(alloc: Global, verdict: &Verdict) -> Result<String, AllocError> {
    match verdict {
        Verdict::Refuted => format!(in alloc; "FALSE"),
        Verdict::Open(literal) => format!(in alloc; "OPEN {literal}"),
        Verdict::Shown(input) => {
            let mut text = format!(in alloc; "SHOWN")?;
            for value in input.as_slice() {
                let value = format!(in alloc; " {value}")?;
                text.push_str(value.as_str())?;
            }
            Ok(text)
        }
    }
}

/// The decisions of a path, T or F each.
fn path_text(alloc: Global, path: &[bool]) -> Result<String, AllocError> {
    let mut text = String::new(alloc);
    for decision in path {
        text.push_str(if *decision { "T" } else { "F" })?;
    }
    Ok(text)
}

/// A threat in words: its region, its decisions, its halt and its verdict.
fn threat_text(alloc: Global, threat: &Threat) -> Result<String, AllocError> {
    let region = threat.region;
    let path = path_text(alloc, threat.path.as_slice())?;
    let halt = threat.stop;
    let verdict = verdict_text(alloc, &threat.verdict)?;
    format!(in alloc; "L{region} {path} {halt:?} {verdict}")
}

/// The threats of a reducible procedure.
fn threats_of(alloc: Global, proc: &CheckedProc) -> Result<Option<List<Threat>>, NoMemory> {
    let graph = build(alloc, proc)?;
    let control = control_of(alloc, &graph)?;
    let derivation = derive(alloc, &graph, &control)?;
    let lowered = lower(alloc, proc)?;
    match control.shape {
        Shape::Reducible => Ok(Some(threats(alloc, proc, &lowered, &control, &derivation)?)),
        Shape::TwoEntries(_) => Ok(None),
    }
}

/// Whether the threats of a procedure of a text are those of a table, in order.
pub fn are_threats(
    alloc: Global,
    text: &[u8],
    number: usize,
    wanted: &[&str],
) -> Result<bool, Fail> {
    if text.len() > 1_048_576 {
        return Err(Fail::from("too long"));
    }
    let checked = accept(alloc, text).or(Err("refused"))?.text;
    let proc = checked.procs().get(number).ok_or("no procedure")?;
    let found = threats_of(alloc, proc)?.ok_or("not reducible")?;
    let rows = found.as_slice();
    if rows.len() != wanted.len() {
        return Ok(false);
    }
    for (threat, row) in rows.iter().zip(wanted) {
        if threat_text(alloc, threat)?.as_str() != *row {
            return Ok(false);
        }
    }
    Ok(true)
}
