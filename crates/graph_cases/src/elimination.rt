//! Plans of elimination, and what they join.
use regular_algebra::{BitRelation, Ends, Entry, Step, eliminate, plan};
use std::test::Fail;

const ARCS: [Ends; 3] = [
    Ends { tail: 0, head: 1 },
    Ends { tail: 1, head: 1 },
    Ends { tail: 1, head: 2 },
];

#[test]
fn a_loop_is_starred(rt: HostRuntime) -> Result<(), Fail> {
    let whole = plan(rt.alloc(), 3, &ARCS, &[1], 0, &[2])?;
    assert_eq!(rt;
        whole.steps.as_slice(),
        [Step::Star(1), Step::Times(0, 3), Step::Times(4, 2)].as_slice()
    );
    assert_eq!(rt; whole.answers.as_slice(), [Some(5)].as_slice());
    Ok(())
}

#[test]
fn without_a_path_there_is_no_answer(rt: HostRuntime) -> Result<(), Fail> {
    let front = plan(rt.alloc(), 3, &[ARCS[0], ARCS[1]], &[1], 0, &[2])?;
    assert_eq!(rt; front.steps.as_slice(), [Step::Star(1)].as_slice());
    assert_eq!(rt; front.answers.as_slice(), [None].as_slice());
    Ok(())
}

/// The relation that joins one pair of points.
fn pair(a: usize, b: usize) -> BitRelation {
    let mut relation = BitRelation::empty();
    if a < 66 && b < 66 {
        relation.set(a, b);
    }
    relation
}

#[test]
fn paths_join_what_their_arcs_join(rt: HostRuntime) -> Result<(), Fail> {
    let arcs = [
        Entry {
            tail: 0,
            head: 1,
            value: pair(7, 7),
        },
        Entry {
            tail: 1,
            head: 1,
            value: pair(7, 8),
        },
        Entry {
            tail: 1,
            head: 2,
            value: pair(8, 65),
        },
    ];
    let values = eliminate(rt.alloc(), 3, &arcs, &[1], 0, &[2])?;
    for (a, b, joined) in [
        (7, 65, true),
        (7, 7, false),
        (8, 65, false),
        (65, 65, false),
    ] {
        match values.get(0) {
            Some(value) => assert_eq!(rt; value.has(a, b), joined, "{a} {b}"),
            None => assert!(rt; false),
        }
    }
    Ok(())
}

#[test]
fn one_point_is_joined_to_itself(rt: HostRuntime) -> Result<(), Fail> {
    let arcs = [
        Entry {
            tail: 0,
            head: 1,
            value: pair(0, 0),
        },
        Entry {
            tail: 1,
            head: 1,
            value: pair(0, 0),
        },
        Entry {
            tail: 1,
            head: 2,
            value: pair(0, 0),
        },
    ];
    let values = eliminate(rt.alloc(), 3, &arcs, &[1], 0, &[2])?;
    match values.get(0) {
        Some(value) => assert!(rt; value.has(0, 0)),
        None => assert!(rt; false),
    }
    Ok(())
}
