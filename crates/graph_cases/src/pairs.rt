//! Pairs of paths that share one line.
ghost use Rattle.std.specs.Prelude.{◌≡◌, ◌<◌, ◌∷◌, ◌++◌, [], ℕ, length, slice_set, slice_index_or, None, IfOk};
ghost use Rattle.il_core.specs.LineGraph.{IsIn};
ghost use Rattle.flow_graph.specs.Search.{StayBelow, row_of};

use crate::texts::graph_of;
use disjoint_paths::{Pair, pair_from, two_paths};
use il_core::{List, NoMemory};
use std::alloc::Global;
use std::test::Fail;

/// Adds `head` to the row of `tail`.
fn join(rows: &mut Vec<List<usize>>, tail: usize, head: usize) -> Result<(), NoMemory>
    requires { tail < length rows.old.items }
    ensures { IfOk result (λ _. rows.new.items ≡ slice_set rows.old.items tail (slice_index_or rows.old.items tail [] ++ head ∷ [])) }
{
    rows[tail].push(head)?;
    Ok(())
}

/// The rows of `count` lines with these arcs; what is no arc between two of these lines is left out.
fn rows_of(
    alloc: Global,
    count: usize,
    arcs: &[(usize, usize)],
) -> Result<Vec<List<usize>>, NoMemory>
    ensures size { IfOk result (λ rows. length rows.items ≡ count) }
    ensures below { IfOk result (λ rows. StayBelow count rows.items) }
    ensures simple { IfOk result (λ rows. (k : ℕ) → IsIn (row_of rows.items k) k → ⊥) }
{
    let mut rows = Vec::with_capacity(alloc, count)?;
    for _line in 0..count {
        rows.push(List::new(alloc))?;
    }
    for (tail, head) in arcs {
        if *tail < count && *head < count && *tail != *head {
            join(&mut rows, *tail, *head)?;
        }
    }
    Ok(rows)
}

/// Whether `line` is one of `lines`.
fn has(lines: &[usize], line: usize) -> bool {
    lines.contains(&line)
}

/// For each of `count` lines whether it is one of `lines`.
fn marks_of(alloc: Global, count: usize, lines: &[usize]) -> Result<Vec<bool>, NoMemory>
    ensures { IfOk result (λ marks. length marks.items ≡ count) }
{
    let mut marks = Vec::with_capacity(alloc, count)?;
    for line in 0..count {
        marks.push(has(lines, line))?;
    }
    Ok(marks)
}

/// The pair of a line among eight.
fn asked(
    alloc: Global,
    arcs: &[(usize, usize)],
    tail: usize,
    targets: &[usize],
) -> Result<Option<Pair>, NoMemory>
    requires { tail < 8 }
{
    let rows = rows_of(alloc, 8, arcs)?;
    let targets = marks_of(alloc, 8, targets)?;
    pair_from(alloc, rows.as_slice(), tail, targets.as_slice())
}

/// Whether these are the two paths, in either order.
fn is_pair(found: &Option<Pair>, one: &[usize], other: &[usize]) -> bool {
    match found {
        Some(pair) => {
            let (left, right) = (pair.left.as_slice(), pair.right.as_slice());
            (left == one && right == other) || (left == other && right == one)
        }
        None => false,
    }
}

#[test]
fn finds_the_arms_of_a_test_and_no_pair_behind_them(rt: HostRuntime) -> Result<(), Fail> {
    let arcs = [
        (0, 1),
        (1, 2),
        (1, 4),
        (2, 3),
        (3, 5),
        (4, 5),
        (5, 6),
        (6, 7),
    ];
    let arms = asked(rt.alloc(), &arcs, 1, &[2, 4])?;
    assert!(rt; is_pair(&arms, &[1, 2], &[1, 4]));
    let behind = asked(rt.alloc(), &arcs, 1, &[6, 7])?;
    assert!(rt; behind.is_none());
    Ok(())
}

#[test]
fn takes_over_a_part_of_the_first_path(rt: HostRuntime) -> Result<(), Fail> {
    let arcs = [(0, 1), (0, 4), (1, 2), (1, 5), (2, 3), (4, 2), (5, 6)];
    let found = asked(rt.alloc(), &arcs, 0, &[3, 6])?;
    assert!(rt; is_pair(&found, &[0, 1, 5, 6], &[0, 4, 2, 3]));
    Ok(())
}

#[test]
fn a_path_may_come_back_to_the_tail(rt: HostRuntime) -> Result<(), Fail> {
    let arcs = [(1, 2), (1, 3), (2, 1)];
    let found = asked(rt.alloc(), &arcs, 1, &[1, 3])?;
    assert!(rt; is_pair(&found, &[1, 2, 1], &[1, 3]));
    Ok(())
}

#[test]
fn asks_a_graph(rt: HostRuntime) -> Result<(), Fail> {
    let graph = graph_of(rt.alloc(), "IF x = 1;SKIP;ENDIF;")?;
    assert!(rt; graph.nodes.len() == 5);
    let both = two_paths(rt.alloc(), &graph, 1, &[false, false, true, true, false])?;
    assert!(rt; is_pair(&both, &[1, 2], &[1, 3]));
    let end = two_paths(rt.alloc(), &graph, 1, &[false, false, false, true, true])?;
    assert!(rt; end.is_none());
    Ok(())
}
