//! Texts of one procedure, and the size of a region of it.
ghost use Rattle.std.specs.Prelude.{IfSome};
ghost use Rattle.il_core.specs.LineGraph.{IsIn};
ghost use Rattle.region_paths.specs.Region.{first_lines};

use acceptance::accept;
use control_flow::{Control, Shape, control_of};
use flow_graph::build;
use region_paths::{Limit, size};
use std::alloc::{AllocError, Global};
use std::test::Fail;
use test_graph::lower;

/// The places of all these procedures.
const PLACES: &str = "IN a : 0 .. 99;IN b : 0 .. 9;INOUT x : 0 .. 9;OUT y : 0 .. 9;";

/// A part of a text that stands so many times.
pub fn times(alloc: Global, part: &str, count: usize) -> Result<String, AllocError> {
    let mut text = String::new(alloc);
    for _time in 0..count {
        text.push_str(part)?;
    }
    Ok(text)
}

/// So many tests in a row, which double the paths as often.
pub fn tests(alloc: Global, count: usize) -> Result<String, AllocError> {
    let mut text = String::new(alloc);
    for at in 0..count {
        let test = format!(in alloc; "IF a >= {at};SKIP;ENDIF;")?;
        text.push_str(test.as_str())?;
    }
    Ok(text)
}

/// The conditions between an AND; the second alone where there is no first.
fn both_of(alloc: Global, first: &str, second: &str) -> Result<String, AllocError> {
    if first.is_empty() {
        format!(in alloc; "{second}")
    } else {
        format!(in alloc; "({first} AND {second})")
    }
}

/// So many comparisons between ANDs, at least one, in halves, so that no parentheses are deep.
pub fn all_of(alloc: Global, count: usize) -> Result<String, AllocError> {
    let mut condition = String::new(alloc);
    let mut part = format!(in alloc; "a >= 0")?;
    let mut left = count;
    while left > 1 {
        if left % 2 == 1 {
            condition = both_of(alloc, condition.as_str(), part.as_str())?;
        }
        part = both_of(alloc, part.as_str(), part.as_str())?;
        left /= 2;
    }
    both_of(alloc, condition.as_str(), part.as_str())
}

/// The first line of a region: line 0, or the head of the loop of this number, from 1.
fn first_line(control: &Control, region: usize) -> Option<usize>
    ensures { IfSome result (IsIn (first_lines control.now.loops)) }
{
    if region == 0 {
        return Some(0);
    }
    match control.loops.get(region - 1) {
        Some(info) => Some(info.head),
        None => None,
    }
}

/// The first limit that a region of a procedure with this body passes.
pub fn size_of(alloc: Global, body: &str, region: usize) -> Result<Option<Limit>, Fail> {
    let text = format!(in alloc;
        "TITLE t;PROC p;{PLACES}PRE TRUE;POST TRUE;{body}ENDPROC;FINISH;"
    )?;
    let bytes = text.as_bytes();
    if bytes.len() > 1_048_576 {
        return Err(Fail::from("too long"));
    }
    let checked = accept(alloc, bytes).or(Err("refused"))?.text;
    let proc = checked.procs().get(0).ok_or("no procedure")?;
    let graph = lower(alloc, proc)?;
    let lines = build(alloc, proc)?;
    let control = control_of(alloc, &lines)?;
    let pc = first_line(&control, region).ok_or("no region")?;
    match control.shape {
        Shape::Reducible => Ok(size(alloc, proc, &graph, &control, pc)?),
        Shape::TwoEntries(_) => Err(Fail::from("not reducible")),
    }
}
