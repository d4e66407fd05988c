//! Slices of procedures that are read from texts.
ghost use Rattle.std.specs.Prelude.{◌≡◌, IfOk};
ghost use Rattle.il_core.specs.Checked.{procedure_of};
ghost use Rattle.flow_graph.specs.Graph.{graph_of, IsWellFormed, HasPlaces};
ghost use Rattle.flow_graph.specs.Reached.{IsInnerOrder};
ghost use Rattle.info_flow.specs.Variable.{IsVariable};

use acceptance::accept;
use control_flow::{Shape, control_of};
use flow_graph::{FlowGraph, build};
use flow_slice::{SlicedProc, slice, slices_are_checked, slices_end_alike};
use il_core::{CheckedProc, Expr, Line, List, NoMemory, TextEnd};
use info_flow::relevant;
use interval_reduce::derive;
use std::alloc::Global;
use std::test::Fail;

/// A slice as a table shows it: the lines that are kept, those that are fixed with their truth value, and a letter for each
/// line of the slice: A for an assignment, S for SKIP, T and F for a fixed test, C for a test with its own condition, P for
/// a PRE and E for a POST that are TRUE, and a dot for every other line.
type Case<'a> = (usize, &'a [usize], &'a [(usize, bool)], &'a [u8]);

/// The slice for one variable.
fn slice_for(
    alloc: Global,
    proc: &CheckedProc,
    graph: &FlowGraph,
    order: &[usize],
    place: usize,
) -> Result<SlicedProc, NoMemory>
    requires graph { graph.now ≡ graph_of (procedure_of proc.now) }
    requires formed { IsWellFormed graph.now }
    requires placed { HasPlaces graph.now proc.now.places }
    requires order { IsInnerOrder graph.now order.now }
    requires variable { IsVariable proc.now.places place }
{
    let sets = relevant(alloc, graph, proc.places().as_slice(), order, place)?;
    slice(alloc, proc, graph, &sets)
}

/// The letter of a condition.
fn condition_letter(condition: &Expr) -> u8 {
    match condition {
        Expr::Truth(true) => b'T',
        Expr::Truth(false) => b'F',
        _ => b'C',
    }
}

/// The letter of a line.
fn letter(line: &Line) -> u8 {
    match line {
        Line::Pre(Expr::Truth(true)) => b'P',
        Line::EndProc(Expr::Truth(true)) => b'E',
        Line::Pre(_) | Line::EndProc(_) | Line::Assert(_) => b'?',
        Line::Assign(_, _) => b'A',
        Line::Skip => b'S',
        Line::If(condition, _) | Line::ExitWhen(condition, _) => condition_letter(condition),
        _ => b'.',
    }
}

/// The order in which the lines of a reducible graph are taken.
fn order_of(alloc: Global, graph: &FlowGraph) -> Result<List<usize>, Fail>
    requires { IsWellFormed graph.now }
    ensures { IfOk result (IsInnerOrder graph.now) }
{
    let control = control_of(alloc, graph)?;
    let derivation = derive(alloc, graph, &control)?;
    match control.shape {
        Shape::Reducible => Ok(derivation.order),
        Shape::TwoEntries(_) => Err(Fail::from("not reducible")),
    }
}

/// Whether a slice is as a table shows it.
fn is_as(sliced: &SlicedProc, case: &Case) -> bool {
    let (_, keep, fixed, letters) = case;
    let lines = sliced.proc.lines().as_slice();
    sliced.keep.as_slice() == *keep
        && sliced.fixed.len() == fixed.len()
        && sliced.fixed.as_slice().iter().zip(*fixed).all(|(found, wanted)| found.line == wanted.0
            && found.taken == wanted.1)
        && lines.len() == letters.len()
        && lines
            .iter()
            .zip(*letters)
            .all(|(line, wanted)| letter(line) == *wanted)
}

/// Whether the slices of a procedure are as the table shows them; a case begins with the number of its variable.
fn are_as(alloc: Global, proc: &CheckedProc, cases: &[Case]) -> Result<bool, Fail> {
    let graph = build(alloc, proc)?;
    let order = order_of(alloc, &graph)?;
    for case in cases {
        let Some(place) = proc.places().get(case.0) else {
            return Err(Fail::from("no such place"));
        };
        if place.old {
            return Err(Fail::from("not a variable"));
        }
        let sliced = slice_for(alloc, proc, &graph, order.as_slice(), case.0)?;
        if !is_as(&sliced, case) {
            return Ok(false);
        }
    }
    Ok(true)
}

/// Whether the slices of the first procedure of a text are as the table shows them.
fn text_is_as(alloc: Global, text: &[u8], cases: &[Case]) -> Result<bool, Fail> {
    if text.len() > 1_048_576 {
        return Err(Fail::from("too long"));
    }
    match accept(alloc, text) {
        Ok(expanded) => {
            let proc = expanded.text.procs().get(0).ok_or("no procedure")?;
            are_as(alloc, proc, cases)
        }
        Err(TextEnd::Refused(_)) => Err(Fail::from("refused")),
        Err(TextEnd::NoMemory) => Err(Fail::from("out of memory")),
    }
}

/// Counts to c by twos.
const COUNTING: &[u8] =
    b"TITLE t; PROC p; IN c : 0 .. 9; OUT v : 0 .. 99; LOCAL i : 0 .. 9; PRE TRUE; POST TRUE; \
v := 0; i := 0; LOOP; EXIT WHEN i >= c; v := v + 2; i := i + 1; ENDLOOP; ENDPROC; FINISH;";

/// A loop that never ends.
const ENDLESS: &[u8] =
    b"TITLE t; PROC p; OUT y : 0 .. 1; PRE TRUE; POST TRUE; LOOP; SKIP; ENDLOOP; ENDPROC; FINISH;";

/// A test in a loop that never ends, and one whose true side leads into that loop.
const STUCK: &[u8] =
    b"TITLE t; PROC p; IN c : 0 .. 9; OUT y : 0 .. 1; PRE c > 0; POST y = 1; y := 1; \
IF c = 1; LOOP; IF c = 2; ENDIF; ENDLOOP; ENDIF; ENDPROC; FINISH;";

/// A test that no path reaches, and an assertion.
const SKIPPED: &[u8] =
    b"TITLE t; PROC p; IN c : 0 .. 9; OUT v : 0 .. 9; OUT w : 0 .. 9; PRE c < 5; POST v <= w; \
v := 0; w := c; GOTO a; IF c = 1; w := 1; ENDIF; LABEL a; ASSERT w < 5; ENDPROC; FINISH;";

/// A test whose sides lead to the end on paths of one length.
const EVEN: &[u8] = b"TITLE t; PROC p; IN c : 0 .. 9; OUT v : 0 .. 9; PRE TRUE; POST TRUE; \
v := 0; IF c = 1; ELSE; SKIP; ENDIF; ENDPROC; FINISH;";

/// A test whose false side is shorter, and one whose true side is.
const UNEVEN: &[u8] = b"TITLE t; PROC p; IN c : 0 .. 9; OUT v : 0 .. 9; PRE TRUE; POST TRUE; \
v := 0; IF c = 1; SKIP; ELSE; SKIP; ENDIF; LOOP; SKIP; EXIT WHEN c = 2; SKIP; ENDLOOP; ENDPROC; FINISH;";

/// A trip at high pressure, and a display that shows a mode, as it is chosen, or the pressure.
const TRIP: &[u8] =
    b"TITLE t; PROC p; IN pressure : 0 .. 100; IN mode : 0 .. 1; OUT trip : 0 .. 1; OUT display : 0 .. 100; \
PRE TRUE; POST TRUE; trip := 0; IF mode = 1; display := pressure; ELSE; display := mode; ENDIF; \
IF pressure > 90; trip := 1; ENDIF; ENDPROC; FINISH;";

#[test]
fn slices_of_texts(rt: HostRuntime) -> Result<(), Fail> {
    slices_are_checked();
    slices_end_alike();
    let counting: [Case; 3] = [
        (0, &[8], &[(4, true)], b"PSS.TSS.E"),
        (1, &[1, 2, 4, 5, 6, 8], &[], b"PAA.CAA.E"),
        (2, &[2, 4, 6, 8], &[], b"PSA.CSA.E"),
    ];
    assert!(rt; text_is_as(rt.alloc(), COUNTING, &counting)?);
    assert!(rt; text_is_as(rt.alloc(), ENDLESS, &[(0, &[], &[], b"P.S.E")])?);
    let stuck: [Case; 1] = [(1, &[1, 8], &[(2, false), (4, true)], b"PAF.T...E")];
    assert!(rt; text_is_as(rt.alloc(), STUCK, &stuck)?);
    let skipped: [Case; 2] = [
        (1, &[1, 9], &[], b"PAS.FS..SE"),
        (2, &[2, 9], &[], b"PSA.CA..SE"),
    ];
    assert!(rt; text_is_as(rt.alloc(), SKIPPED, &skipped)?);
    assert!(rt; text_is_as(rt.alloc(), EVEN, &[(1, &[1, 6], &[(2, true)], b"PAT.S.E")])?);
    let uneven: [Case; 1] = [(1, &[1, 12], &[(2, false), (9, true)], b"PAFS.S..STS.E")];
    assert!(rt; text_is_as(rt.alloc(), UNEVEN, &uneven)?);
    Ok(())
}

#[test]
fn a_display_cannot_touch_a_trip(rt: HostRuntime) -> Result<(), Fail> {
    let trip: [Case; 2] = [
        (2, &[1, 7, 8, 10], &[(2, false)], b"PAFS.S.CA.E"),
        (3, &[2, 3, 5, 10], &[(7, false)], b"PSCA.A.FS.E"),
    ];
    assert!(rt; text_is_as(rt.alloc(), TRIP, &trip)?);
    Ok(())
}
