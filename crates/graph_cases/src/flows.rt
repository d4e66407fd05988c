//! The sources and the tests of variables.
use crate::texts::{order_of, written};
use flow_graph::build;
use il_core::{CheckedProc, List};
use info_flow::{FlowRow, equal_values, flows};
use std::alloc::Global;
use std::test::Fail;

/// Declarations, a body, and of each variable its number, its sources and its tests.
type Case<'a> = (&'a str, &'a str, &'a [(usize, &'a [usize], &'a [usize])]);

/// The rows of a procedure.
fn rows_of(alloc: Global, proc: &CheckedProc) -> Result<List<FlowRow>, Fail> {
    let graph = build(alloc, proc)?;
    let order = order_of(alloc, &graph)?;
    Ok(flows(alloc, &graph, proc.places().as_slice(), order.as_slice())?)
}

/// Whether the rows have these places, sources and tests.
fn are(rows: &[FlowRow], wanted: &[(usize, &[usize], &[usize])]) -> bool {
    rows.len() == wanted.len()
        && rows.iter().zip(wanted).all(|(row, (place, sources, tests))| {
            row.place == *place
                && row.sources.as_slice() == *sources
                && row.tests.as_slice() == *tests
        })
}

/// Whether the procedure of a case has the rows of the case.
fn is_as(alloc: Global, case: &Case) -> Result<bool, Fail> {
    let (declared, body, wanted) = case;
    let checked = written(alloc, declared, body)?;
    let proc = checked.procs().get(0).ok_or("no procedure")?;
    let rows = rows_of(alloc, proc)?;
    Ok(are(rows.as_slice(), wanted))
}

#[test]
fn worked_rows(rt: HostRuntime) -> Result<(), Fail> {
    equal_values();
    let cases: [Case; 6] = [
        ("OUT y : 0 .. 1;", "", &[(0, &[0], &[])]),
        (
            "IN b : 0 .. 9;IN c : 0 .. 9;OUT v : 0 .. 9;LOCAL t : 0 .. 9;",
            "IF c = 1;t := 1;ELSE;t := 2;ENDIF;v := b;",
            &[
                (0, &[0], &[]),
                (1, &[1], &[]),
                (2, &[0], &[]),
                (3, &[1], &[1]),
            ],
        ),
        (
            "IN c : 0 .. 9;OUT v : 0 .. 9;LOCAL i : 0 .. 9;",
            "v := 0;i := 0;LOOP;EXIT WHEN i >= c;v := v + 2;i := i + 1;ENDLOOP;",
            &[(0, &[0], &[]), (1, &[0], &[4]), (2, &[0], &[4])],
        ),
        ("OUT y : 0 .. 1;", "LOOP;SKIP;ENDLOOP;", &[(0, &[], &[])]),
        // a test of a value that was assigned, and an assertion, which decides nothing
        (
            "IN a : 0 .. 9;IN b : 0 .. 9;INOUT v : 0 .. 9;LOCAL t : 0 .. 9;",
            "t := a;IF t = 1;v := b;ENDIF;ASSERT b = 1;",
            &[
                (0, &[0], &[]),
                (1, &[1], &[]),
                (2, &[0, 1, 2], &[2]),
                (3, &[0], &[]),
            ],
        ),
        // a test in a loop, and the test that leaves it
        (
            "IN c : 0 .. 9;IN d : 0 .. 9;INOUT v : 0 .. 9;",
            "LOOP;EXIT WHEN c = 1;IF d = 1;v := v + 1;ENDIF;ENDLOOP;",
            &[(0, &[0], &[]), (1, &[1], &[]), (2, &[0, 1, 2], &[2, 3])],
        ),
    ];
    for case in cases.iter() {
        let (_, body, _) = case;
        assert!(rt; is_as(rt.alloc(), case)?, "{body}");
    }
    Ok(())
}
