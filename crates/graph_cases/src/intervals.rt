//! The levels of graphs, and the order in which they take the lines.
use crate::texts::{NESTED, STRAIGHT, TWICE_ENTERED, graph_of};
use control_flow::control_of;
use il_core::List;
use interval_reduce::{Interval, derive, levels_tell_shape, one_derivation, reduction_theorem};
use std::alloc::Global;
use std::test::Fail;

/// A body, the members of the intervals of each level, and the order in which the lines are taken.
type Case<'a> = (&'a str, &'a [&'a [&'a [usize]]], &'a [usize]);

/// A loop that is entered at its last line, and whose first line begins another loop.
const DESCENDING: &str =
    "GOTO a;LOOP;LOOP;EXIT WHEN x = 1;ENDLOOP;EXIT WHEN x = 2;LABEL a;ENDLOOP;";

fn has_intervals(level: &List<Interval>, wanted: &[&[usize]]) -> bool {
    level.len() == wanted.len()
        && level.as_slice().iter().zip(wanted).all(|(interval, members)| interval.members.as_slice()
            == *members)
}

fn has_levels(levels: &List<List<Interval>>, wanted: &[&[&[usize]]]) -> bool {
    levels.len() == wanted.len()
        && levels
            .as_slice()
            .iter()
            .zip(wanted)
            .all(|(level, intervals)| has_intervals(level, intervals))
}

/// Whether the graph of a case has the levels and the order of the case.
fn is_as(alloc: Global, case: &Case) -> Result<bool, Fail> {
    let (body, levels, order) = case;
    let graph = graph_of(alloc, body)?;
    let control = control_of(alloc, &graph)?;
    let derivation = derive(alloc, &graph, &control)?;
    Ok(has_levels(&derivation.levels, levels) && derivation.order.as_slice() == *order)
}

#[test]
fn worked_levels(rt: HostRuntime) -> Result<(), Fail> {
    reduction_theorem();
    levels_tell_shape();
    one_derivation();
    let cases: [Case; 4] = [
        // straight code is one interval
        (STRAIGHT, &[&[&[0, 1, 2, 3, 4]]], &[1, 2, 3]),
        // the heads of a loop in a loop are taken last, the inner one first
        (
            NESTED,
            &[
                &[&[0], &[1], &[2, 3, 4, 5, 6, 7]],
                &[&[0], &[1, 2]],
                &[&[0, 1]],
            ],
            &[3, 4, 5, 6, 2, 1],
        ),
        // a jump into a loop leaves single intervals
        (
            TWICE_ENTERED,
            &[
                &[&[0, 1, 2, 3], &[4, 5], &[6, 7, 8, 9]],
                &[&[0], &[4], &[6]],
            ],
            &[],
        ),
        // intervals stand in the order in which they are made
        (
            DESCENDING,
            &[
                &[&[0, 1], &[7, 8, 2], &[3, 4, 5, 6, 9]],
                &[&[0], &[7, 3]],
                &[&[0, 7]],
            ],
            &[1, 8, 2, 4, 5, 6, 3, 7],
        ),
    ];
    for case in cases.iter() {
        let (body, _, _) = case;
        assert!(rt; is_as(rt.alloc(), case)?, "{body}");
    }
    Ok(())
}
