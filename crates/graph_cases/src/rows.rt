//! The rows of the graph of two lines, what it reaches, and its paths.
ghost use Rattle.flow_graph.specs.Graph.{IsWellFormed};

use crate::texts::graph_of;
use flow_graph::{
    FlowGraph, paths_from, predecessors, reachable, steps_go_along_arcs, successors,
    walks_are_paths,
};
use il_core::{List, NoMemory};
use std::alloc::Global;
use std::test::Fail;

/// For each line of a graph a path to it from line 0; none where no path leads there.
fn paths_in(alloc: Global, graph: &FlowGraph) -> Result<List<List<usize>>, NoMemory>
    requires { IsWellFormed graph.now }
{
    let rows = successors(alloc, graph)?;
    let blocked = vec![in alloc; false; rows.len()]?;
    paths_from(alloc, rows.as_slice(), blocked.as_slice(), 0)
}

/// Whether the rows of lines are these.
fn are(rows: &List<List<usize>>, wanted: [&[usize]; 2]) -> bool {
    rows.len() == 2
        && rows
            .as_slice()
            .iter()
            .zip(wanted)
            .all(|(row, heads)| row.as_slice() == heads)
}

#[test]
fn both_lines_are_reached(rt: HostRuntime) -> Result<(), Fail> {
    steps_go_along_arcs();
    let graph = graph_of(rt.alloc(), "")?;
    let reached = reachable(rt.alloc(), &graph)?;
    assert_eq!(rt; reached.as_slice(), [true, true].as_slice());
    Ok(())
}

#[test]
fn rows_hold_heads_and_tails(rt: HostRuntime) -> Result<(), Fail> {
    let graph = graph_of(rt.alloc(), "")?;
    assert!(rt; are(&successors(rt.alloc(), &graph)?, [&[1], &[]]));
    assert!(rt; are(&predecessors(rt.alloc(), &graph)?, [&[], &[0]]));
    Ok(())
}

#[test]
fn paths_begin_at_the_first_line(rt: HostRuntime) -> Result<(), Fail> {
    walks_are_paths();
    let graph = graph_of(rt.alloc(), "")?;
    assert!(rt; are(&paths_in(rt.alloc(), &graph)?, [&[0], &[0, 1]]));
    Ok(())
}
