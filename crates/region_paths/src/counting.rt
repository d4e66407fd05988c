//! How many paths go on from each node of the lowered graph, counted from the ends, in rounds over the nodes.
ghost use Rattle.std.specs.Prelude.{◌≡◌, ℕ, suc, ◌<◌, ◌≤◌, List, Option, ◌+◌, All, IfOk, IfSome, Some, length, slice_get, slice_set};
ghost use Rattle.std.specs.Bool.{OnFalse};
ghost use Rattle.il_core.specs.LineGraph.{IsIn};
ghost use Rattle.il_core.specs.Checked.{procedure_of, IsChecked};
ghost use Rattle.flow_graph.specs.Graph.{graph_of};
ghost use Rattle.control_flow.specs.Control.{IsControlOf};
ghost use Rattle.control_flow.specs.declared.control.Shape.TheVariants.{Reducible};
ghost use Rattle.control_flow.specs.declared.control.LoopInfo.{LoopInfo};
ghost use Rattle.test_graph.specs.Decision.{Decision, decision_at};
ghost use Rattle.test_graph.specs.Lowered.{Unfolds, IsLowered};
ghost use Rattle.region_paths.specs.Region.{first_lines};
ghost use Rattle.region_paths.specs.PathTree.{leading_tree, long_tree};
ghost use Rattle.region_paths.specs.Walk.{AreLines, LeadInside, IsLoopOf, AreLoopsOf};
ghost use Rattle.region_paths.specs.Count as count;
ghost use Rattle.region_paths.specs.Count.{leaves, capped, counted, IsFew, IsOne, IsFewHead, IsFewWays, AreWaysOf, AreNodeWays, IsHeadCount, AreHeadCounts, CountAtLeast, CountAtMost, IsRaised, ArePathCounts};

use crate::heads::loop_at;
use crate::walk::{first_node, leading_at};
use control_flow::{Control, LoopInfo};
use il_core::{CheckedProc, NoMemory};
use std::alloc::Global;
use test_graph::{TestGraph, TestNode, ways_go_along_arcs};

/// One more than the most long paths that a region within its size has. No count goes further.
const FULL: u64 = 16_385;

/// How many ways from a node through the rest of its line halt, and how many go on to a line.
#[derive(Clone, Copy, Debug, PartialEq, Eq)]
pub struct LineWays {
    /// The ways that halt.
    pub halting: u64,
    /// The ways that go on to a line.
    pub passing: u64,
}

/// The ways on both sides of a test.
fn both_ways(met: LineWays, unmet: LineWays) -> LineWays
    requires met { IsFewWays met }
    requires unmet { IsFewWays unmet }
    ensures few { IsFewWays result }
    ensures exact { (x y : Decision) → AreWaysOf x met → AreWaysOf y unmet → (result.halting ≡ capped (count.halting x + count.halting y)) × (result.passing ≡ capped (count.passing x + count.passing y)) }
{
    LineWays {
        halting: (met.halting + unmet.halting).min(FULL),
        passing: (met.passing + unmet.passing).min(FULL),
    }
}

/// The ways from a node that is known.
fn ways_of(ways: &[LineWays], id: usize) -> LineWays
    requires id { id < length ways.now }
    requires few { All IsFewWays ways.now }
    ensures few { IsFewWays result }
    ensures there { slice_get ways.now id ≡ Some result }
{
    ways[id]
}

/// The ways from node `id`, where those from the nodes before it are known.
fn ways_at(proc: &CheckedProc, graph: &TestGraph, ways: &[LineWays], id: usize) -> LineWays
    requires lowered { IsLowered (procedure_of proc.now) graph.now }
    requires there { id < length graph.now.nodes }
    requires before { length ways.now ≡ id }
    requires ways { AreNodeWays graph.now ways.now }
    requires few { All IsFewWays ways.now }
    ensures few { IsFewWays result }
    ensures exact { (d : Decision) → Unfolds graph.now.nodes graph.now.entries id d → AreWaysOf d result }
{
    match graph.nodes.get(id) {
        Some(TestNode::Test(_, met, unmet)) => both_ways(
            ways_of(ways, *met),
            ways_of(ways, *unmet),
        ),
        Some(TestNode::Assign(_, _, then)) => ways_of(ways, *then),
        Some(TestNode::Stop(_)) => LineWays {
            halting: 1,
            passing: 0,
        },
        Some(TestNode::AtLine(_, _)) => LineWays {
            halting: 0,
            passing: 1,
        },
        None => unreachable!(),
    }
}

/// The ways from each node through the rest of its line.
fn node_ways(
    alloc: Global,
    proc: &CheckedProc,
    graph: &TestGraph,
) -> Result<Vec<LineWays>, NoMemory>
    requires lowered { IsLowered (procedure_of proc.now) graph.now }
    ensures size { IfOk result (λ ways. length ways.items ≡ length graph.now.nodes) }
    ensures ways { IfOk result (λ ways. AreNodeWays graph.now ways.items) }
    ensures few { IfOk result (λ ways. All IsFewWays ways.items) }
{
    let count = graph.nodes.len();
    let mut ways = Vec::with_capacity(alloc, count)?;
    for id in 0..count {
        let way = ways_at(proc, graph, &ways, id);
        ways.push(way)?;
    }
    Ok(ways)
}

/// The ways from the first node of a line.
fn line_ways(proc: &CheckedProc, graph: &TestGraph, ways: &[LineWays], line: usize) -> LineWays
    requires lowered { IsLowered (procedure_of proc.now) graph.now }
    requires line { line < length proc.now.lines }
    requires size { length ways.now ≡ length graph.now.nodes }
    requires ways { AreNodeWays graph.now ways.now }
    requires few { All IsFewWays ways.now }
    ensures few { IsFewWays result }
    ensures exact { AreWaysOf (decision_at (procedure_of proc.now) line) result }
{
    ways_of(ways, first_node(proc, graph, line))
}

/// How many paths go through leading assertions, one after the other.
fn leading_count(proc: &CheckedProc, graph: &TestGraph, ways: &[LineWays], leading: &[usize]) -> u64
    requires checked { IsChecked (procedure_of proc.now) }
    requires lowered { IsLowered (procedure_of proc.now) graph.now }
    requires leading { AreLines (procedure_of proc.now) leading.now }
    requires size { length ways.now ≡ length graph.now.nodes }
    requires ways { AreNodeWays graph.now ways.now }
    requires few { All IsFewWays ways.now }
    ensures few { IsFew result }
    ensures exact { (head : ℕ) → result ≡ capped (leaves (leading_tree (procedure_of proc.now) head leading.now)) }
{
    let mut count = 1;
    for k in (0..leading.len()).rev() {
        let way = line_ways(proc, graph, ways, leading[k]);
        count = (way.halting + way.passing * count).min(FULL);
    }
    count
}

/// How many paths go through the leading assertions of a loop, where there is one.
fn head_count(
    proc: &CheckedProc,
    graph: &TestGraph,
    loops: &[LoopInfo],
    ways: &[LineWays],
    at: Option<usize>,
) -> Option<u64>
    requires checked { IsChecked (procedure_of proc.now) }
    requires lowered { IsLowered (procedure_of proc.now) graph.now }
    requires leading { LeadInside (procedure_of proc.now) loops.now }
    requires size { length ways.now ≡ length graph.now.nodes }
    requires ways { AreNodeWays graph.now ways.now }
    requires few { All IsFewWays ways.now }
    requires at { IfSome at (λ k. k < length loops.now) }
    ensures few { IsFewHead result }
    ensures exact { (line : ℕ) → IsLoopOf loops.now line at → IsHeadCount (procedure_of proc.now) loops.now line result }
{
    match at {
        Some(at) => Some(leading_count(proc, graph, ways, leading_at(loops, at))),
        None => None,
    }
}

/// For each line that is a head, how many paths go through its leading assertions.
fn head_counts(
    alloc: Global,
    proc: &CheckedProc,
    graph: &TestGraph,
    loops: &[LoopInfo],
    heads: &[Option<usize>],
) -> Result<Vec<Option<u64>>, NoMemory>
    requires checked { IsChecked (procedure_of proc.now) }
    requires lowered { IsLowered (procedure_of proc.now) graph.now }
    requires leading { LeadInside (procedure_of proc.now) loops.now }
    requires heads { AreLoopsOf (procedure_of proc.now) loops.now heads.now }
    ensures exact { IfOk result (λ counts. AreHeadCounts (procedure_of proc.now) loops.now counts.items) }
    ensures few { IfOk result (λ counts. All IsFewHead counts.items) }
{
    let ways = node_ways(alloc, proc, graph)?;
    let lines = proc.lines().len();
    let mut counts = Vec::with_capacity(alloc, lines)?;
    for line in 0..lines {
        let count = head_count(proc, graph, loops, &ways, loop_at(heads, line));
        counts.push(count)?;
    }
    Ok(counts)
}

/// The count of a node; 1 where it has none.
fn count_of(counts: &[u64], id: usize) -> u64
    requires few { All IsFew counts.now }
    ensures few { IsFew result }
    ensures exact { (c : ℕ) → slice_get counts.now id ≡ Some c → result ≡ c }
{
    match counts.get(id) {
        Some(count) => *count,
        None => 1,
    }
}

/// The count of a line that is a head.
fn head_count_of(heads: &[Option<u64>], line: usize) -> Option<u64>
    requires few { All IsFewHead heads.now }
    ensures few { IsFewHead result }
    ensures exact { (o : Option ℕ) → slice_get heads.now line ≡ Some o → result ≡ o }
{
    match heads.get(line) {
        Some(count) => *count,
        None => None,
    }
}

/// The count of node `id` from the counts that stand.
fn count_at(
    proc: &CheckedProc,
    graph: &TestGraph,
    heads: &[Option<u64>],
    counts: &[u64],
    id: usize,
) -> u64
    requires lowered { IsLowered (procedure_of proc.now) graph.now }
    requires there { id < length graph.now.nodes }
    requires size { length counts.now ≡ length graph.now.nodes }
    requires few { All IsFew counts.now }
    requires few_heads { All IsFewHead heads.now }
    ensures few { IsFew result }
    ensures least { (loops : List LoopInfo) (n : ℕ) (d : Decision) → AreHeadCounts (procedure_of proc.now) loops heads.now → CountAtLeast (procedure_of proc.now) loops graph.now n id counts.now → Unfolds graph.now.nodes graph.now.entries id d → counted (procedure_of proc.now) loops (suc n) d ≤ result }
    ensures most { (loops : List LoopInfo) (n : ℕ) (d : Decision) → AreHeadCounts (procedure_of proc.now) loops heads.now → CountAtMost (procedure_of proc.now) loops graph.now n counts.now → Unfolds graph.now.nodes graph.now.entries id d → result ≤ counted (procedure_of proc.now) loops (suc n) d }
{
    match graph.nodes.get(id) {
        Some(TestNode::Test(_, met, unmet)) => {
            (count_of(counts, *met) + count_of(counts, *unmet)).min(FULL)
        }
        Some(TestNode::Assign(_, _, then)) => count_of(counts, *then),
        Some(TestNode::AtLine(line, first)) => match head_count_of(heads, *line) {
            Some(count) => count,
            None => count_of(counts, *first),
        },
        Some(TestNode::Stop(_)) => 1,
        None => unreachable!(),
    }
}

/// Puts a count in place of the one before, and answers whether that is another.
fn put_count(counts: &mut [u64], id: usize, count: u64) -> bool
    requires id { id < length counts.old }
    ensures after { counts.new ≡ slice_set counts.old id count }
    ensures same { OnFalse result (counts.new ≡ counts.old) }
{
    let was = counts[id];
    counts[id] = count;
    was != count
}

/// Counts each node once more, in ascending order, and answers whether that changed anything.
fn recount(proc: &CheckedProc, graph: &TestGraph, heads: &[Option<u64>], counts: &mut [u64]) -> bool
    requires lowered { IsLowered (procedure_of proc.now) graph.now }
    requires size { length counts.old ≡ length graph.now.nodes }
    requires few { All IsFew counts.old }
    requires few_heads { All IsFewHead heads.now }
    ensures size { length counts.new ≡ length graph.now.nodes }
    ensures few { All IsFew counts.new }
    ensures same { OnFalse result (counts.new ≡ counts.old) }
    ensures least { (loops : List LoopInfo) (n : ℕ) → AreHeadCounts (procedure_of proc.now) loops heads.now → CountAtLeast (procedure_of proc.now) loops graph.now n 0 counts.old → CountAtLeast (procedure_of proc.now) loops graph.now (suc n) 0 counts.new }
    ensures most { (loops : List LoopInfo) (n : ℕ) → AreHeadCounts (procedure_of proc.now) loops heads.now → CountAtMost (procedure_of proc.now) loops graph.now n counts.old → (m : ℕ) × CountAtMost (procedure_of proc.now) loops graph.now m counts.new }
{
    let mut changed = false;
    for id in 0..counts.len() {
        let count = count_at(proc, graph, heads, counts, id);
        changed |= put_count(counts, id, count);
    }
    changed
}

/// The number behind the first node of a line, of which this is the entry.
fn behind_first(graph: &TestGraph, entry: usize) -> usize {
    match graph.nodes.get(entry) {
        Some(TestNode::AtLine(_, first)) => first.saturating_add(1),
        _ => 0,
    }
}

/// For each line a number behind which its own nodes stand, where the lines were lowered one after the other. It only
/// tells the order in which counts are raised.
fn line_starts(alloc: Global, graph: &TestGraph) -> Result<Vec<usize>, NoMemory> {
    let entries = graph.entries.as_slice();
    let mut starts = Vec::with_capacity(alloc, entries.len())?;
    let mut next = entries.len();
    for entry in entries {
        starts.push(next)?;
        next = next.max(behind_first(graph, *entry));
    }
    Ok(starts)
}

/// Raises the count of node `id` to what the counts that stand give.
fn raise_node(
    proc: &CheckedProc,
    graph: &TestGraph,
    heads: &[Option<u64>],
    id: usize,
    counts: &mut [u64],
)
    requires lowered { IsLowered (procedure_of proc.now) graph.now }
    requires there { id < length graph.now.nodes }
    requires size { length counts.old ≡ length graph.now.nodes }
    requires few { All IsFew counts.old }
    requires few_heads { All IsFewHead heads.now }
    ensures few { All IsFew counts.new }
    ensures raised { IsRaised (procedure_of proc.now) graph.now heads.now counts.old counts.new }
{
    let count = count_at(proc, graph, heads, counts, id).max(counts[id]);
    counts[id] = count;
}

/// Raises the counts of the nodes from one on up to another, in ascending order.
fn raise_nodes(
    proc: &CheckedProc,
    graph: &TestGraph,
    heads: &[Option<u64>],
    start: usize,
    end: usize,
    counts: &mut [u64],
)
    requires lowered { IsLowered (procedure_of proc.now) graph.now }
    requires size { length counts.old ≡ length graph.now.nodes }
    requires few { All IsFew counts.old }
    requires few_heads { All IsFewHead heads.now }
    ensures few { All IsFew counts.new }
    ensures raised { IsRaised (procedure_of proc.now) graph.now heads.now counts.old counts.new }
{
    for id in start..end.min(counts.len()) {
        raise_node(proc, graph, heads, id, counts);
    }
}

/// Raises the counts of the nodes of each line, from the last line to the first, since most ways go forward.
fn raise_lines(
    proc: &CheckedProc,
    graph: &TestGraph,
    heads: &[Option<u64>],
    starts: &[usize],
    counts: &mut [u64],
)
    requires lowered { IsLowered (procedure_of proc.now) graph.now }
    requires size { length counts.old ≡ length graph.now.nodes }
    requires few { All IsFew counts.old }
    requires few_heads { All IsFewHead heads.now }
    ensures few { All IsFew counts.new }
    ensures raised { IsRaised (procedure_of proc.now) graph.now heads.now counts.old counts.new }
{
    let mut end = counts.len();
    for line in (0..starts.len()).rev() {
        raise_nodes(proc, graph, heads, starts[line], end, counts);
        raise_nodes(proc, graph, heads, line, line.saturating_add(1), counts);
        end = starts[line];
    }
}

/// Counts the nodes round by round until a round changes nothing. No path comes to a line twice, so there is at most one
/// round more than there are lines.
fn settle(
    proc: &CheckedProc,
    graph: &TestGraph,
    heads: &[Option<u64>],
    starts: &[usize],
    counts: &mut [u64],
)
    requires lowered { IsLowered (procedure_of proc.now) graph.now }
    requires size { length counts.old ≡ length graph.now.nodes }
    requires ones { All IsOne counts.old }
    requires few_heads { All IsFewHead heads.now }
    ensures size { length counts.new ≡ length counts.old }
    ensures few { All IsFew counts.new }
    ensures least { (loops : List LoopInfo) → AreHeadCounts (procedure_of proc.now) loops heads.now → CountAtLeast (procedure_of proc.now) loops graph.now (suc (length proc.now.lines)) 0 counts.new }
    ensures most { (loops : List LoopInfo) → AreHeadCounts (procedure_of proc.now) loops heads.now → (m : ℕ) × CountAtMost (procedure_of proc.now) loops graph.now m counts.new }
{
    for _round in 0..proc.lines().len() + 1 {
        raise_lines(proc, graph, heads, starts, counts);
        if !recount(proc, graph, heads, counts) {
            return;
        }
    }
}

/// How many paths go on from each node.
fn node_counts(
    alloc: Global,
    proc: &CheckedProc,
    graph: &TestGraph,
    heads: &[Option<u64>],
) -> Result<Vec<u64>, NoMemory>
    requires lowered { IsLowered (procedure_of proc.now) graph.now }
    requires few_heads { All IsFewHead heads.now }
    ensures size { IfOk result (λ counts. length counts.items ≡ length graph.now.nodes) }
    ensures few { IfOk result (λ counts. All IsFew counts.items) }
    ensures least { IfOk result (λ counts. (loops : List LoopInfo) → AreHeadCounts (procedure_of proc.now) loops heads.now → CountAtLeast (procedure_of proc.now) loops graph.now (suc (length proc.now.lines)) 0 counts.items) }
    ensures most { IfOk result (λ counts. (loops : List LoopInfo) → AreHeadCounts (procedure_of proc.now) loops heads.now → (m : ℕ) × CountAtMost (procedure_of proc.now) loops graph.now m counts.items) }
{
    let mut counts = vec![in alloc; 1; graph.nodes.len()]?;
    let starts = line_starts(alloc, graph)?;
    settle(proc, graph, heads, &starts, &mut counts);
    Ok(counts)
}

/// How many long paths go on from each node, counted up to 16,385: from the first node of a region's first line, those of
/// the region.
///
/// It counts the paths from each node on, from the ends, in rounds over the nodes: a test has the paths of both its sides,
/// a line those of its first node, a head those through its leading assertions. Each round first takes the lines from
/// the last to the first, and then all nodes in ascending order; it ends where that changes nothing. So a procedure whose
/// ways go forward takes one round, and none takes more than there are lines and one. It does not recurse, and takes
/// memory for the nodes and the lines.
pub fn path_counts(
    alloc: Global,
    proc: &CheckedProc,
    graph: &TestGraph,
    control: &Control,
    loops: &[Option<usize>],
) -> Result<Vec<u64>, NoMemory>
    requires checked { IsChecked (procedure_of proc.now) }
    requires lowered { IsLowered (procedure_of proc.now) graph.now }
    requires control { IsControlOf (graph_of (procedure_of proc.now)) control.now }
    requires shape { control.now.shape ≡ Reducible }
    requires loops { AreLoopsOf (procedure_of proc.now) control.now.loops loops.now }
    ensures { IfOk result (λ counts. ArePathCounts (procedure_of proc.now) control.now.loops graph.now counts.items) }
{
    ways_go_along_arcs();
    let heads = head_counts(alloc, proc, graph, control.loops.as_slice(), loops)?;
    let counts = node_counts(alloc, proc, graph, &heads)?;
    Ok(counts)
}

/// How many long paths the region of line `pc` has, counted up to 16,385, where those from each node are counted. It takes
/// three look-ups.
pub fn path_count(
    proc: &CheckedProc,
    graph: &TestGraph,
    control: &Control,
    counts: &[u64],
    pc: usize,
) -> u64
    requires checked { IsChecked (procedure_of proc.now) }
    requires lowered { IsLowered (procedure_of proc.now) graph.now }
    requires control { IsControlOf (graph_of (procedure_of proc.now)) control.now }
    requires shape { control.now.shape ≡ Reducible }
    requires counts { ArePathCounts (procedure_of proc.now) control.now.loops graph.now counts.now }
    requires first { IsIn (first_lines control.now.loops) pc }
    ensures { result ≡ capped (leaves (long_tree (procedure_of proc.now) control.now.loops pc)) }
{
    count_of(counts, first_node(proc, graph, pc))
}
