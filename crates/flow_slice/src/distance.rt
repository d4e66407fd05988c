//! Distances of lines from marked lines, by breadth-first search.
ghost use Rattle.std.specs.Prelude.{◌≡◌, ℕ, ◌<◌, [], None, is_none, length, replicate, IfOk};
ghost use Rattle.il_core.specs.LineGraph.{IsIn};
ghost use Rattle.flow_graph.specs.Graph.{Joins, IsWellFormed};
ghost use Rattle.flow_graph.specs.Reached.{Lists};
ghost use Rattle.flow_graph.specs.Search.{IsMarked, AreBelow, StayBelow, row_of};
ghost use Rattle.flow_slice.specs.Searched.{AreTails};
ghost use Rattle.flow_slice.specs.Distance.{AreDistances, distance_at};
ghost use Rattle.flow_slice.specs.Layer.{Spread, IsBehind};

use flow_graph::FlowGraph;
use il_core::{List, NoMemory};
use std::alloc::Global;

/// The entries of `count` lines, none of which has a distance.
fn no_distances(alloc: Global, count: usize) -> Result<Vec<Option<usize>>, NoMemory>
    ensures { IfOk result (λ v. v.items ≡ replicate count None) }
{
    Ok(vec![in alloc; None; count]?)
}

/// The marked lines, ascending.
fn marked_lines(alloc: Global, marks: &[bool]) -> Result<List<usize>, NoMemory>
    ensures { IfOk result (λ lines. Lists (IsMarked marks.now) lines) }
{
    let mut lines = List::new(alloc);
    for line in 0..marks.len() {
        if marks[line] {
            lines.push(line)?;
        }
    }
    Ok(lines)
}

/// The lines of a row.
fn row_at(rows: &[List<usize>], at: usize) -> &[usize]
    requires { at < length rows.now }
    ensures { result.now ≡ row_of rows.now at }
{
    rows[at].as_slice()
}

/// Whether a line has no distance.
fn lacks_distance(distances: &Vec<Option<usize>>, line: usize) -> bool
    requires { line < length distances.now.items }
    ensures { result ≡ is_none (distance_at distances.now.items line) }
{
    distances[line].is_none()
}

/// Gives each line of the row that has no distance this one, and adds it to the layer.
fn spread(
    row: &[usize],
    distance: usize,
    distances: &mut Vec<Option<usize>>,
    layer: &mut Vec<usize>,
) -> Result<(), NoMemory>
    requires { AreBelow (length distances.old.items) row.now }
    ensures { IfOk result (λ _. Spread (IsIn row.now) distance distances.old.items distances.new.items layer.old.items layer.new.items) }
{
    for line in row {
        if lacks_distance(distances, *line) {
            distances[*line] = Some(distance);
            layer.push(*line)?;
        }
    }
    Ok(())
}

/// The layer behind a layer: gives each line in the row of one of its lines this distance, where it has none.
fn next_layer(
    alloc: Global,
    rows: &[List<usize>],
    layer: &[usize],
    distance: usize,
    distances: &mut Vec<Option<usize>>,
) -> Result<Vec<usize>, NoMemory>
    requires rows { StayBelow (length rows.now) rows.now }
    requires layer { AreBelow (length rows.now) layer.now }
    requires size { length distances.old.items ≡ length rows.now }
    ensures { IfOk result (λ next. Spread (IsBehind rows.now layer.now) distance distances.old.items distances.new.items [] next.items) }
{
    let mut next = Vec::new(alloc);
    for line in layer {
        spread(row_at(rows, *line), distance, distances, &mut next)?;
    }
    Ok(next)
}

/// For each line the least number of arcs of a path from it to a marked line, and `None` where there is no such path.
/// There is one mark per line, and `before` has for each line the lines from which arcs lead to it. Linear in lines and
/// arcs.
pub fn distances(
    alloc: Global,
    graph: &FlowGraph,
    before: &[List<usize>],
    marks: &[bool],
) -> Result<Vec<Option<usize>>, NoMemory>
    requires formed { IsWellFormed graph.now }
    requires before { AreTails graph.now before.now }
    requires size { length marks.now ≡ length graph.now.nodes }
    ensures { IfOk result (λ ds. AreDistances (Joins graph.now.arcs) (IsMarked marks.now) (length graph.now.nodes) ds.items) }
{
    let mut distances = no_distances(alloc, graph.nodes.len())?;
    let mut layer = Vec::new(alloc);
    spread(
        marked_lines(alloc, marks)?.as_slice(),
        0,
        &mut distances,
        &mut layer,
    )?;
    let mut distance = 0;
    while !layer.is_empty() {
        distance += 1;
        layer = next_layer(alloc, before, layer.as_slice(), distance, &mut distances)?;
    }
    Ok(distances)
}
