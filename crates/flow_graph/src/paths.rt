//! Paths to what can be reached from a line over rows of following lines.
ghost use Rattle.std.specs.Prelude.{◌≡◌, ◌≢◌, ℕ, ◌<◌, ◌↔◌, ◌∷◌, ◌++◌, [], length, replicate, IfOk, IsTrue, slice_set};
ghost use Rattle.il_core.specs.LineGraph.{IsIn};
ghost use Rattle.flow_graph.specs.Search.{IsMarked, IsUnmarked, AreBelow, StayBelow, row_of};
ghost use Rattle.flow_graph.specs.Paths.{ArePaths, Lengthened};

use crate::searching::{expand, no_marks, row_at};
use il_core::{List, NoMemory};
use std::alloc::Global;

/// `count` empty paths.
fn no_paths(alloc: Global, count: usize) -> Result<Vec<List<usize>>, NoMemory>
    ensures { IfOk result (λ v. v.items ≡ replicate count []) }
{
    let mut paths = Vec::with_capacity(alloc, count)?;
    for _path in 0..count {
        paths.push(List::new(alloc))?;
    }
    Ok(paths)
}

/// A path with one line more.
fn extended(alloc: Global, path: &[usize], line: usize) -> Result<List<usize>, NoMemory>
    ensures { IfOk result (λ longer. longer ≡ path.now ++ line ∷ []) }
{
    let mut longer = List::from_vec(Vec::from_slice(alloc, path)?);
    longer.push(line)?;
    Ok(longer)
}

/// Whether a line is marked and has no path.
fn lacks_path(marked: &[bool], paths: &Vec<List<usize>>, at: usize) -> bool
    requires { (at < length marked.now) × (at < length paths.now.items) }
    ensures { IsTrue result ↔ (IsMarked marked.now at × (row_of paths.now.items at ≡ [])) }
{
    marked[at] && paths[at].is_empty()
}

/// Puts a path in place of another.
fn set_path(paths: &mut Vec<List<usize>>, at: usize, path: List<usize>)
    requires { at < length paths.old.items }
    ensures { paths.new.items ≡ slice_set paths.old.items at path }
{
    paths[at] = path;
}

/// Gives each marked line of `row` that has no path that of `at`, lengthened by the line.
fn lengthen(
    alloc: Global,
    row: &[usize],
    marked: &[bool],
    at: usize,
    paths: &mut Vec<List<usize>>,
) -> Result<(), NoMemory>
    requires size { length marked.now ≡ length paths.old.items }
    requires below { AreBelow (length marked.now) row.now }
    requires at { (at < length paths.old.items) × (row_of paths.old.items at ≢ []) }
    ensures { IfOk result (λ _. Lengthened row.now marked.now at paths.old.items paths.new.items) }
{
    for line in row {
        if lacks_path(marked, paths, *line) {
            let path = extended(alloc, row_at(paths.as_slice(), at), *line)?;
            set_path(paths, *line, path);
        }
    }
    Ok(())
}

/// For each line a path to it from `start` that passes no line twice and no blocked line, each step of which goes from a
/// line to one in its row; the empty list exactly where there is none. There is one row and one entry of `blocked` per
/// line, the rows name lines, and `start` is not blocked. The only error is `NoMemory`. The time is linear in the rows
/// and in the lengths of the paths.
pub fn paths_from(
    alloc: Global,
    rows: &[List<usize>],
    blocked: &[bool],
    start: usize,
) -> Result<List<List<usize>>, NoMemory>
    requires size { length blocked.now ≡ length rows.now }
    requires rows { StayBelow (length rows.now) rows.now }
    requires start { (start < length rows.now) × IsUnmarked blocked.now start }
    ensures { IfOk result (ArePaths rows.now blocked.now start) }
{
    let mut marked = no_marks(alloc, rows.len())?;
    let mut paths = no_paths(alloc, rows.len())?;
    let mut work = Vec::new(alloc);
    expand(&[start], blocked, &mut marked, &mut work)?;
    let first = extended(alloc, &[], start)?;
    set_path(&mut paths, start, first);
    while let Some(at) = work.pop() {
        let row = row_at(rows, at);
        expand(row, blocked, &mut marked, &mut work)?;
        lengthen(alloc, row, marked.as_slice(), at, &mut paths)?;
    }
    Ok(List::from_vec(paths))
}
