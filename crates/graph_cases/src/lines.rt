//! The graphs of procedures.
use crate::steps::SAMPLE;
use crate::texts::{accepted, graph_in, graph_of};
use flow_graph::{Arc, Node, NodeKind};
use std::test::Fail;

/// A line that reads the places of a mask and writes none.
fn reading(kind: NodeKind, reads: u64) -> Node {
    Node {
        kind,
        reads,
        writes: None,
        last_reads: 0,
    }
}

/// An assignment of a place that reads the places of a mask.
fn writing(place: usize, reads: u64) -> Node {
    Node {
        kind: NodeKind::Assign,
        reads,
        writes: Some(place),
        last_reads: 0,
    }
}

#[test]
fn a_test_has_two_arcs_and_the_end_has_none(rt: HostRuntime) -> Result<(), Fail> {
    let graph = graph_in(rt.alloc(), &accepted(rt.alloc(), SAMPLE)?)?;
    let wanted = [
        Arc { tail: 0, head: 1 },
        Arc { tail: 1, head: 2 },
        Arc { tail: 2, head: 3 },
        Arc { tail: 3, head: 4 },
        Arc { tail: 4, head: 5 },
        Arc { tail: 5, head: 6 },
        Arc { tail: 6, head: 7 },
        Arc { tail: 7, head: 8 },
        Arc { tail: 8, head: 9 },
        Arc { tail: 9, head: 15 },
        Arc { tail: 9, head: 10 },
        Arc { tail: 10, head: 11 },
        Arc { tail: 10, head: 12 },
        Arc { tail: 11, head: 13 },
        Arc { tail: 12, head: 15 },
        Arc { tail: 13, head: 14 },
        Arc { tail: 14, head: 8 },
        Arc { tail: 15, head: 16 },
        Arc { tail: 16, head: 17 },
    ];
    assert_eq!(rt; graph.arcs.as_slice(), wanted.as_slice());
    Ok(())
}

#[test]
fn an_empty_arm_has_two_equal_arcs(rt: HostRuntime) -> Result<(), Fail> {
    let graph = graph_of(rt.alloc(), "IF TRUE;ENDIF;")?;
    let wanted = [
        Arc { tail: 0, head: 1 },
        Arc { tail: 1, head: 2 },
        Arc { tail: 1, head: 2 },
        Arc { tail: 2, head: 3 },
    ];
    assert_eq!(rt; graph.arcs.as_slice(), wanted.as_slice());
    Ok(())
}

#[test]
fn a_line_reads_and_writes_its_places(rt: HostRuntime) -> Result<(), Fail> {
    let graph = graph_in(rt.alloc(), &accepted(rt.alloc(), SAMPLE)?)?;
    let wanted = [
        reading(NodeKind::Other, 0),
        writing(2, 3),
        writing(2, 3),
        writing(4, 16),
        writing(3, 15),
        writing(3, 15),
        writing(3, 15),
        writing(3, 15),
        reading(NodeKind::Plain, 0),
        reading(NodeKind::Test, 7),
        reading(NodeKind::Test, 7),
        reading(NodeKind::Other, 0),
        reading(NodeKind::Other, 0),
        reading(NodeKind::Plain, 0),
        reading(NodeKind::Other, 0),
        reading(NodeKind::Plain, 0),
        reading(NodeKind::Assertion, 0),
        Node {
            last_reads: 28,
            ..reading(NodeKind::Last, 0)
        },
    ];
    assert_eq!(rt; graph.nodes.as_slice(), wanted.as_slice());
    Ok(())
}
