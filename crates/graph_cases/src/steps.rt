//! Steps and runs of the line machine.
ghost use Rattle.std.specs.Prelude.{IsTrue};
ghost use Rattle.il_core.specs.Procedure.{instruction_of};
ghost use Rattle.il_core.specs.LineGraph.{heads_of};
ghost use Rattle.line_machine.specs.Cut.{IsMarked};
ghost use Rattle.line_machine.specs.Arcs.{LeadOn, LinesLeadOn};

use crate::texts::accepted;
use case_values::is_in_range;
use il_core::{CheckedProc, Halt, Line, Next, Stop};
use line_machine::{run_to_cut, step};
use std::process::Abort;
use std::test::Fail;

fn is_marked(cuts: &[bool], line: usize) -> bool
    ensures { IsTrue result → IsMarked cuts.now line }
{
    match cuts.get(line) {
        Some(marked) => *marked,
        None => false,
    }
}

/// Whether each arc of a line leads forward or to a marked line.
fn leads_on(cuts: &[bool], pc: usize, line: &Line) -> bool
    ensures { IsTrue result → LeadOn cuts.now pc (heads_of pc (instruction_of line.now)) }
{
    match line {
        Line::If(_, target)
        | Line::Else(target)
        | Line::EndLoop(target)
        | Line::Exit(target)
        | Line::ExitWhen(_, target)
        | Line::Goto(target)
        | Line::Return(target) => pc < *target || is_marked(cuts, *target),
        _ => true,
    }
}

fn lines_lead_on(cuts: &[bool], lines: &[Line]) -> bool
    ensures { IsTrue result → LinesLeadOn cuts.now lines.now }
{
    for (pc, line) in lines.iter().enumerate() {
        if !leads_on(cuts, pc, line) {
            return false;
        }
    }
    true
}

/// A procedure with a line of each kind but EXIT and RETURN, whose conditions all ask whether a DIV b is c. Behind the
/// five variables stand the OLD copies of the last three.
pub const SAMPLE: &[u8] =
    b"TITLE t;PROC p;IN a : -9 .. 9;IN b : -9 .. 9;INOUT c : -4 .. 4;INOUT f : BOOL;INOUT w : WRAP -128 .. 127;\
PRE a DIV b = c;POST a DIV b = c;c := a DIV b;c := a MOD b;w := w * 2;\
f := f AND a DIV b = c;f := f OR a DIV b = c;f := a DIV b = c AND f;f := a DIV b = c OR f;\
LOOP;EXIT WHEN a DIV b = c;IF a DIV b = c;ELSE;GOTO out;ENDIF;ENDLOOP;LABEL out;ASSERT a DIV b = c;ENDPROC;FINISH;";

/// The values of the variables, with 0 for each OLD copy.
fn with_copies(vals: [i64; 5]) -> [i64; 8] {
    [vals[0], vals[1], vals[2], vals[3], vals[4], 0, 0, 0]
}

/// The step from these values, and the values after it.
fn stepped(rt: &impl Abort, proc: &CheckedProc, line: usize, vals: [i64; 5]) -> (Next, [i64; 8]) {
    let mut vals = with_copies(vals);
    assert!(rt; line < proc.lines().len());
    assert!(rt; is_in_range(proc.places().as_slice(), &vals));
    let next = step(proc, line, &mut vals);
    (next, vals)
}

/// Where `run_to_cut` leads from these values, and the values after it.
fn run(
    rt: &impl Abort,
    proc: &CheckedProc,
    cuts: &[bool],
    line: usize,
    vals: [i64; 5],
) -> (Stop, [i64; 8]) {
    let mut vals = with_copies(vals);
    assert!(rt; line < proc.lines().len());
    assert!(rt; cuts.len() == proc.lines().len());
    assert!(rt; lines_lead_on(cuts, proc.lines().as_slice()));
    assert!(rt; is_in_range(proc.places().as_slice(), &vals));
    let stop = run_to_cut(proc, cuts, line, &mut vals);
    (stop, vals)
}

#[test]
fn steps(rt: HostRuntime) -> Result<(), Fail> {
    let checked = accepted(rt.alloc(), SAMPLE)?;
    let proc = checked.procs().get(0).ok_or("no procedure")?;
    // A line and values, the next line, and the values there.
    let cases = [
        (0, [4, 2, 2, 0, 0], 1, [4, 2, 2, 0, 0]),
        (1, [-7, 2, 0, 0, 0], 2, [-7, 2, -4, 0, 0]),
        (2, [-7, 2, 0, 0, 0], 3, [-7, 2, 1, 0, 0]),
        (1, [7, -2, 0, 0, 0], 2, [7, -2, -3, 0, 0]),
        (2, [7, -2, 0, 0, 0], 3, [7, -2, 1, 0, 0]),
        (1, [-7, -2, 0, 0, 0], 2, [-7, -2, 4, 0, 0]),
        (2, [-7, -2, 0, 0, 0], 3, [-7, -2, 1, 0, 0]),
        (1, [7, 2, 0, 0, 0], 2, [7, 2, 3, 0, 0]),
        (2, [7, 2, 0, 0, 0], 3, [7, 2, 1, 0, 0]),
        (1, [0, 5, 1, 0, 0], 2, [0, 5, 0, 0, 0]),
        (2, [0, 5, 1, 0, 0], 3, [0, 5, 0, 0, 0]),
        (1, [9, 2, 0, 0, 0], 2, [9, 2, 4, 0, 0]),
        (3, [0, 0, 0, 0, 63], 4, [0, 0, 0, 0, 126]),
        (3, [0, 0, 0, 0, 64], 4, [0, 0, 0, 0, -128]),
        (3, [0, 0, 0, 0, 100], 4, [0, 0, 0, 0, -56]),
        (3, [0, 0, 0, 0, -65], 4, [0, 0, 0, 0, 126]),
        (4, [1, 0, 1, 0, 0], 5, [1, 0, 1, 0, 0]),
        (4, [4, 2, 1, 1, 0], 5, [4, 2, 1, 0, 0]),
        (4, [4, 2, 2, 1, 0], 5, [4, 2, 2, 1, 0]),
        (5, [1, 0, 1, 1, 0], 6, [1, 0, 1, 1, 0]),
        (5, [4, 2, 2, 0, 0], 6, [4, 2, 2, 1, 0]),
        (5, [4, 2, 1, 0, 0], 6, [4, 2, 1, 0, 0]),
        (6, [4, 2, 2, 0, 0], 7, [4, 2, 2, 0, 0]),
        (7, [4, 2, 1, 1, 0], 8, [4, 2, 1, 1, 0]),
        (8, [0, 0, 0, 0, 0], 9, [0, 0, 0, 0, 0]),
        (9, [4, 2, 2, 0, 0], 15, [4, 2, 2, 0, 0]),
        (9, [4, 2, 1, 0, 0], 10, [4, 2, 1, 0, 0]),
        (10, [4, 2, 2, 0, 0], 11, [4, 2, 2, 0, 0]),
        (10, [4, 2, 1, 0, 0], 12, [4, 2, 1, 0, 0]),
        (11, [0, 0, 0, 0, 0], 13, [0, 0, 0, 0, 0]),
        (12, [0, 0, 0, 0, 0], 15, [0, 0, 0, 0, 0]),
        (13, [0, 0, 0, 0, 0], 14, [0, 0, 0, 0, 0]),
        (14, [0, 0, 0, 0, 0], 8, [0, 0, 0, 0, 0]),
        (15, [0, 0, 0, 0, 0], 16, [0, 0, 0, 0, 0]),
        (16, [4, 2, 2, 0, 0], 17, [4, 2, 2, 0, 0]),
    ];
    for (line, vals, next, wanted) in cases {
        let stepped = stepped(&rt, proc, line, vals);
        assert!(rt;
            stepped == (Next::At(next), with_copies(wanted)),
            "line {line} at {vals:?}"
        );
    }
    Ok(())
}

#[test]
fn halts(rt: HostRuntime) -> Result<(), Fail> {
    let checked = accepted(rt.alloc(), SAMPLE)?;
    let proc = checked.procs().get(0).ok_or("no procedure")?;
    // A line, values that stay as they are, and the halt.
    let cases = [
        (0, [1, 0, 1, 0, 0], Halt::DivZero(0)),
        (1, [1, 0, 1, 0, 0], Halt::DivZero(1)),
        (2, [1, 0, 1, 0, 0], Halt::DivZero(2)),
        (4, [1, 0, 1, 1, 0], Halt::DivZero(4)),
        (5, [1, 0, 1, 0, 0], Halt::DivZero(5)),
        (6, [1, 0, 1, 0, 0], Halt::DivZero(6)),
        (7, [1, 0, 1, 1, 0], Halt::DivZero(7)),
        (9, [1, 0, 1, 0, 0], Halt::DivZero(9)),
        (10, [1, 0, 1, 0, 0], Halt::DivZero(10)),
        (16, [1, 0, 1, 0, 0], Halt::DivZero(16)),
        (17, [1, 0, 1, 0, 0], Halt::DivZero(17)),
        (0, [4, 2, 1, 0, 0], Halt::Outside),
        (1, [5, 1, 0, 0, 0], Halt::Range(1)),
        (1, [-9, 2, 0, 0, 0], Halt::Range(1)),
        (16, [4, 2, 1, 0, 0], Halt::FailedAssert(16)),
        (17, [4, 2, 2, 0, 0], Halt::End),
        (17, [4, 2, 1, 0, 0], Halt::FailedPost),
    ];
    for (line, vals, halt) in cases {
        let stepped = stepped(&rt, proc, line, vals);
        assert!(rt;
            stepped == (Next::Halted(halt), with_copies(vals)),
            "line {line} at {vals:?}"
        );
    }
    Ok(())
}

#[test]
fn runs(rt: HostRuntime) -> Result<(), Fail> {
    let checked = accepted(rt.alloc(), SAMPLE)?;
    let proc = checked.procs().get(0).ok_or("no procedure")?;
    let mut cuts = [false; 18];
    cuts[8] = true;
    let cases = [
        (0, [4, 2, 2, 0, 100], Stop::Head(8), [4, 2, 0, 0, -56]),
        (
            0,
            [4, 2, 1, 0, 1],
            Stop::Halted(Halt::Outside),
            [4, 2, 1, 0, 1],
        ),
        (8, [4, 2, 2, 0, 1], Stop::Halted(Halt::End), [4, 2, 2, 0, 1]),
        (
            8,
            [4, 2, 1, 0, 1],
            Stop::Halted(Halt::FailedAssert(16)),
            [4, 2, 1, 0, 1],
        ),
        (10, [4, 2, 2, 0, 1], Stop::Head(8), [4, 2, 2, 0, 1]),
        (
            16,
            [4, 2, 2, 0, 1],
            Stop::Halted(Halt::End),
            [4, 2, 2, 0, 1],
        ),
        (
            17,
            [4, 2, 1, 0, 1],
            Stop::Halted(Halt::FailedPost),
            [4, 2, 1, 0, 1],
        ),
    ];
    for (line, vals, stop, wanted) in cases {
        let end = run(&rt, proc, &cuts, line, vals);
        assert!(rt;
            end == (stop, with_copies(wanted)),
            "line {line} at {vals:?}"
        );
    }
    Ok(())
}
