//! Evidence of two entries: a cycle of forward arcs, and paths that come to it first at two of its lines.
ghost use Rattle.std.specs.Prelude.{◌≡◌, ◌≢◌, ℕ, ◌+◌, ◌<◌, ◌≤◌, ◌↔◌, ◌∷◌, ◌++◌, [], length, IfOk, IsTrue, MatchOption};
ghost use Rattle.il_core.specs.LineGraph.{IsIn};
ghost use Rattle.flow_graph.specs.Graph.{IsWellFormed, Joins};
ghost use Rattle.flow_graph.specs.Search.{IsMarked, AreBelow, StayBelow, row_of};
ghost use Rattle.control_flow.specs.Cycle.{IsCycle, ShowsTwoEntries};
ghost use Rattle.control_flow.specs.Forward.{AreHeads, AreTails, AreRows, ComesBack, InRow, IsEntered, IsForward};

use crate::control::Entries;
use crate::marks::marks_between;
use crate::rows::row_at;
use flow_graph::{FlowGraph, paths_from};
use il_core::{List, NoMemory};
use std::alloc::Global;

/// A line of a cycle, and a line outside it from which it is entered.
#[derive(Clone, Copy)]
struct Entry {
    line: usize,
    tail: usize,
}

/// Whether a line is in a row.
fn holds(row: &[usize], line: usize) -> bool
    ensures { IsTrue result ↔ IsIn row.now line }
{
    for at in row {
        if *at == line {
            return true;
        }
    }
    false
}

/// Whether there is a path to the line `at`.
fn has_path(paths: &[List<usize>], at: usize) -> bool
    requires { at < length paths.now }
    ensures { IsTrue result ↔ (row_of paths.now at ≢ []) }
{
    !row_at(paths, at).is_empty()
}

/// The least line to which there is a path and in whose row `line` is.
fn closing_line(rows: &[List<usize>], paths: &[List<usize>], line: usize) -> Option<usize>
    requires { length paths.now ≡ length rows.now }
    ensures { MatchOption result ((k : ℕ) → row_of paths.now k ≢ [] → IsIn (row_of rows.now k) line → ⊥) (λ k. (k < length rows.now) × (row_of paths.now k ≢ []) × IsIn (row_of rows.now k) line) }
{
    for at in 0..rows.len() {
        if has_path(paths, at) && holds(row_at(rows, at), line) {
            return Some(at);
        }
    }
    None
}

/// The lines of a cycle along the rows, of which `line` is the least.
fn cycle_at(alloc: Global, rows: &[List<usize>], line: usize) -> Result<List<usize>, NoMemory>
    requires rows { StayBelow (length rows.now) rows.now }
    requires line { line < length rows.now }
    requires back { ComesBack rows.now line }
    ensures { IfOk result (IsCycle (InRow rows.now)) }
{
    let blocked = marks_between(alloc, rows.len(), 0, line)?;
    let paths = paths_from(alloc, rows, blocked.as_slice(), line)?;
    let found = paths.as_slice();
    let Some(end) = closing_line(rows, found, line) else {
        unreachable!()
    };
    let cycle = Vec::from_slice(alloc, row_at(found, end))?;
    Ok(List::from_vec(cycle))
}

/// Marks of `count` lines, of which those listed are set.
fn marks_of(alloc: Global, count: usize, lines: &[usize]) -> Result<Vec<bool>, NoMemory>
    requires { AreBelow count lines.now }
    ensures size { IfOk result (λ m. length m.items ≡ count) }
    ensures exact { IfOk result (λ m. (k : ℕ) → IsMarked m.items k ↔ IsIn lines.now k) }
{
    let mut marks = marks_between(alloc, count, 0, 0)?;
    for line in lines {
        marks[*line] = true;
    }
    Ok(marks)
}

/// The first line of a row to which there is a path.
fn tail_with_path(row: &[usize], paths: &[List<usize>]) -> Option<usize>
    requires { AreBelow (length paths.now) row.now }
    ensures { MatchOption result ((u : ℕ) → IsIn row.now u → row_of paths.now u ≢ [] → ⊥) (λ u. IsIn row.now u × (row_of paths.now u ≢ [])) }
{
    for tail in row {
        if has_path(paths, *tail) {
            return Some(*tail);
        }
    }
    None
}

/// The least line from `from` on that is marked and entered from a line to which there is a path.
fn entry_from(
    tails: &[List<usize>],
    marks: &[bool],
    paths: &[List<usize>],
    from: usize,
) -> Option<Entry>
    requires rows { StayBelow (length paths.now) tails.now }
    requires size { length marks.now ≡ length tails.now }
    requires from { from ≤ length marks.now }
    ensures { MatchOption result ((k : ℕ) → from ≤ k → IsEntered tails.now marks.now paths.now k → ⊥) (λ e. (from ≤ e.line) × (e.line < length marks.now) × IsMarked marks.now e.line × IsIn (row_of tails.now e.line) e.tail × (row_of paths.now e.tail ≢ []) × ((k : ℕ) → from ≤ k → k < e.line → IsEntered tails.now marks.now paths.now k → ⊥)) }
{
    for line in from..marks.len() {
        if marks[line] {
            if let Some(tail) = tail_with_path(row_at(tails, line), paths) {
                return Some(Entry { line, tail });
            }
        }
    }
    None
}

/// The path to the tail of an entry and then its line.
fn path_to(alloc: Global, paths: &[List<usize>], entry: Entry) -> Result<List<usize>, NoMemory>
    requires { entry.tail < length paths.now }
    ensures { IfOk result (λ path. path ≡ row_of paths.now entry.tail ++ entry.line ∷ []) }
{
    let mut path = List::from_vec(Vec::from_slice(alloc, row_at(paths, entry.tail))?);
    path.push(entry.line)?;
    Ok(path)
}

/// A cycle of forward arcs, and paths to two of its lines.
fn entries_of(
    alloc: Global,
    graph: &FlowGraph,
    heads: &[List<usize>],
    tails: &[List<usize>],
    cycle: List<usize>,
) -> Result<Entries, NoMemory>
    requires formed { IsWellFormed graph.now }
    requires heads { AreHeads graph.now heads.now }
    requires tails { AreTails graph.now tails.now }
    requires cycle { IsCycle (IsForward graph.now.arcs) cycle }
    ensures { IfOk result (λ e. ShowsTwoEntries (Joins graph.now.arcs) 0 e.cycle e.first_path e.second_path) }
{
    let marks = marks_of(alloc, heads.len(), cycle.as_slice())?;
    let marked = marks.as_slice();
    let paths = paths_from(alloc, heads, marked, 0)?;
    let found = paths.as_slice();
    let Some(first) = entry_from(tails, marked, found, 0) else {
        unreachable!()
    };
    let Some(second) = entry_from(tails, marked, found, first.line + 1) else {
        unreachable!()
    };
    Ok(Entries {
        cycle,
        first_path: path_to(alloc, found, first)?,
        second_path: path_to(alloc, found, second)?,
    })
}

/// The cycle of forward arcs that comes back to `line`, which is its least, and paths to two of its lines.
pub fn entries_at(
    alloc: Global,
    graph: &FlowGraph,
    heads: &[List<usize>],
    tails: &[List<usize>],
    forward: &[List<usize>],
    line: usize,
) -> Result<Entries, NoMemory>
    requires formed { IsWellFormed graph.now }
    requires heads { AreHeads graph.now heads.now }
    requires tails { AreTails graph.now tails.now }
    requires forward { AreRows (length graph.now.nodes) (IsForward graph.now.arcs) forward.now }
    requires line { (line < length forward.now) × ComesBack forward.now line }
    ensures { IfOk result (λ e. ShowsTwoEntries (Joins graph.now.arcs) 0 e.cycle e.first_path e.second_path) }
{
    let cycle = cycle_at(alloc, forward, line)?;
    entries_of(alloc, graph, heads, tails, cycle)
}
