//! The control structure of graphs.
use crate::texts::{ENDLESS, NESTED, STRAIGHT, TWICE_ENTERED, graph_of};
use control_flow::{Control, LoopInfo, Shape, control_of, reducible_cycles_hold_a_head};
use std::alloc::Global;
use std::test::Fail;

/// A body, unreachable lines, stuck lines, and of each loop its head, members and leading lines.
type Case<'a> = (
    &'a str,
    &'a [usize],
    &'a [usize],
    &'a [(usize, &'a [usize], &'a [usize])],
);

fn are_loops(loops: &[LoopInfo], wanted: &[(usize, &[usize], &[usize])]) -> bool {
    loops.len() == wanted.len()
        && loops.iter().zip(wanted).all(|(info, (head, members, leading))| {
            info.head == *head
                && info.members.as_slice() == *members
                && info.leading.as_slice() == *leading
        })
}

/// Whether the graph of a case is reducible and as the case shows it.
fn is_as(alloc: Global, case: &Case) -> Result<bool, Fail> {
    let (body, unreachable, stuck, loops) = case;
    let graph = graph_of(alloc, body)?;
    let control = control_of(alloc, &graph)?;
    Ok(
        matches!(control.shape, Shape::Reducible)
            && control.unreachable.as_slice() == *unreachable
            && control.stuck.as_slice() == *stuck
            && are_loops(control.loops.as_slice(), loops),
    )
}

#[test]
fn reducible_graphs(rt: HostRuntime) -> Result<(), Fail> {
    reducible_cycles_hold_a_head();
    let cases: [Case; 5] = [
        (STRAIGHT, &[], &[], &[]),
        (ENDLESS, &[4], &[0, 1, 2, 3], &[(1, &[1, 2, 3], &[])]),
        // a loop in a loop
        (
            NESTED,
            &[],
            &[],
            &[(1, &[1, 2, 3, 4, 5, 6], &[]), (2, &[2, 3, 4], &[])],
        ),
        // leading assertions, and one more behind the test
        (
            "LOOP;ASSERT x < 9;ASSERT x < 8;EXIT WHEN x = 1;ASSERT x < 7;ENDLOOP;",
            &[],
            &[],
            &[(1, &[1, 2, 3, 4, 5, 6], &[2, 3])],
        ),
        // a head that is an assertion: both EXITs lead to it, and line 4 comes back to it
        (
            "LOOP;EXIT;LABEL b;EXIT;ENDLOOP;ASSERT x < 9;ASSERT x < 8;IF x = 1;GOTO b;ENDIF;",
            &[5],
            &[],
            &[(6, &[3, 4, 6, 7, 8, 9], &[6, 7])],
        ),
    ];
    for case in cases.iter() {
        let (body, _, _, _) = case;
        assert!(rt; is_as(rt.alloc(), case)?, "{body}");
    }
    Ok(())
}

#[test]
fn a_jump_into_a_loop_is_shown(rt: HostRuntime) -> Result<(), Fail> {
    let graph = graph_of(rt.alloc(), TWICE_ENTERED)?;
    let Control {
        unreachable,
        stuck,
        loops,
        shape,
    } = control_of(rt.alloc(), &graph)?;
    assert!(rt; unreachable.is_empty() && stuck.is_empty() && loops.is_empty());
    let Shape::TwoEntries(entries) = shape else {
        panic!(rt; "reducible")
    };
    assert_eq!(rt; entries.cycle.as_slice(), [4, 5, 6, 7, 8].as_slice());
    assert_eq!(rt; entries.first_path.as_slice(), [0, 1, 3, 4].as_slice());
    assert_eq!(rt; entries.second_path.as_slice(), [0, 1, 2, 6].as_slice());
    Ok(())
}
