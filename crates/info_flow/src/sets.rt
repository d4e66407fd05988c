//! The marks of relevant lines and the masks of needed places, and what one line asks of them.
ghost use Rattle.std.specs.Prelude.{◌≡◌, ◌<◌, ◌≤◌, ◌^◌, ◌↔◌, ◌⊎◌, ℕ, Some, IsTrue, IfSome, IfNone, IfOk, true, false, length, replicate, slice_get, slice_index_or};
ghost use Rattle.std.specs.Bool.{OnTrue, OnFalse};
ghost use Rattle.flow_graph.specs.Graph.{IsWellFormed, heads_from};
ghost use Rattle.flow_graph.specs.Search.{IsMarked, IsUnmarked, row_of};
ghost use Rattle.info_flow.specs.Relevance.{IsTest};
ghost use Rattle.info_flow.specs.Growth.{HasPlace, IsWanted, IsSettled, AreSettled, AreRows, IsDeciding, IsDecided, AreDecided, AreOfLast, AreLeast, IsGrown, room_of};

use crate::labels::{all_marks, are_consistent, labelled, own_labelled};
use crate::masks::{is_assigned, needed_in, only_place, read_where, unassigned, united};
use crate::pairs::has_pair;
use flow_graph::{FlowGraph, Node, NodeKind};
use il_core::{List, NoMemory};
use std::alloc::Global;

/// Which lines are relevant to a variable, and for each line the mask of the places that it needs.
#[derive(Drop)]
pub struct Sets {
    pub lines: Vec<bool>,
    pub needs: Vec<u64>,
}

/// What the rules ask of a line.
#[derive(Clone, Copy)]
pub struct Wanted {
    pub relevant: bool,
    pub places: u64,
}

/// A line's node.
fn node_at(graph: &FlowGraph, line: usize) -> Node
    requires { line < length graph.now.nodes }
    ensures { slice_get graph.now.nodes line ≡ Some result }
{
    graph.nodes.as_slice()[line]
}

/// Whether a line is a test.
pub fn is_test(graph: &FlowGraph, line: usize) -> bool
    requires { line < length graph.now.nodes }
    ensures { IsTrue result ↔ IsTest graph.now.nodes line }
{
    node_at(graph, line).kind == NodeKind::Test
}

/// The lines behind a line.
fn row_at(rows: &[List<usize>], line: usize) -> &[usize]
    requires { line < length rows.now }
    ensures { result.now ≡ row_of rows.now line }
{
    rows[line].as_slice()
}

/// `count` marks, none of which is set.
fn no_marks(alloc: Global, count: usize) -> Result<Vec<bool>, NoMemory>
    ensures { IfOk result (λ v. v.items ≡ replicate count false) }
{
    Ok(vec![in alloc; false; count]?)
}

/// `count` masks without a place.
fn no_places(alloc: Global, count: usize) -> Result<Vec<u64>, NoMemory>
    ensures { IfOk result (λ v. v.items ≡ replicate count 0) }
{
    Ok(vec![in alloc; 0; count]?)
}

impl Sets {
    /// The sets of the last line alone, which needs the variable.
    fn last_line(alloc: Global, count: usize, place: usize) -> Result<Sets, NoMemory>
        requires some { 2 ≤ count }
        requires low { place < 64 }
        ensures { IfOk result (λ sets. AreOfLast count place sets.lines.items sets.needs.items) }
    {
        let mut lines = no_marks(alloc, count)?;
        let mut needs = no_places(alloc, count)?;
        lines[count - 1] = true;
        needs[count - 1] = only_place(place);
        Ok(Sets { lines, needs })
    }

    /// Whether a line is relevant, or assigns one of these places.
    fn is_relevant(&self, line: usize, places: u64, assigned: Option<usize>) -> bool
        requires line { line < length self.now.lines.items }
        requires low { IfSome assigned (λ p. p < 64) }
        ensures { IsTrue result ↔ (IsMarked self.now.lines.items line ⊎ ((p : ℕ) × (assigned ≡ Some p) × HasPlace places p)) }
    {
        self.lines[line] || is_assigned(places, assigned)
    }

    /// What the rules ask of a line, whose row has the lines behind it.
    fn wanted(&self, graph: &FlowGraph, row: &[usize], line: usize) -> Wanted
        requires formed { IsWellFormed graph.now }
        requires line { line < length graph.now.nodes }
        requires row { row.now ≡ heads_from graph.now.arcs line }
        requires lines_size { length self.now.lines.items ≡ length graph.now.nodes }
        requires needs_size { length self.now.needs.items ≡ length graph.now.nodes }
        ensures wanted { IsWanted graph.now self.now.lines.items self.now.needs.items line result.relevant result.places }
        ensures fits { result.places < 2 ^ 64 }
    {
        let node = node_at(graph, line);
        let behind = needed_in(row, self.needs.as_slice());
        let relevant = self.is_relevant(line, behind, node.writes);
        let read = read_where(relevant, node.reads);
        let kept = unassigned(behind, node.writes);
        let places = united(self.needs[line], kept, read);
        Wanted { relevant, places }
    }

    /// Whether a line has just what is wanted.
    fn has(&self, line: usize, wanted: Wanted) -> bool
        requires line { line < length self.now.lines.items }
        requires mask { line < length self.now.needs.items }
        ensures { IsTrue result ↔ ((wanted.relevant ≡ slice_index_or self.now.lines.items line false) × (wanted.places ≡ slice_index_or self.now.needs.items line 0)) }
    {
        wanted.relevant == self.lines[line] && wanted.places == self.needs[line]
    }

    /// Gives a line what the rules ask of it, and answers whether that changed anything.
    fn settle(&mut self, graph: &FlowGraph, row: &[usize], line: usize) -> bool
        ghost place: { ℕ }
        requires formed { IsWellFormed graph.now }
        requires line { line < length graph.now.nodes }
        requires row { row.now ≡ heads_from graph.now.arcs line }
        requires grown { IsGrown graph.now place self.old.lines.items self.old.needs.items }
        ensures grown { IsGrown graph.now place self.new.lines.items self.new.needs.items }
        ensures same { OnFalse result (self.new ≡ self.old) }
        ensures settled { OnFalse result (IsSettled graph.now self.new.lines.items self.new.needs.items line) }
        ensures less { OnTrue result (room_of self.new.lines.items self.new.needs.items < room_of self.old.lines.items self.old.needs.items) }
    {
        let wanted = self.wanted(graph, row, line);
        if self.has(line, wanted) {
            return false;
        }
        self.lines[line] = wanted.relevant;
        self.needs[line] = wanted.places;
        true
    }

    /// Settles each line once, from the last to the first, and answers whether that changed anything.
    fn pass(&mut self, graph: &FlowGraph, rows: &[List<usize>]) -> bool
        ghost place: { ℕ }
        requires formed { IsWellFormed graph.now }
        requires rows { AreRows graph.now rows.now }
        requires grown { IsGrown graph.now place self.old.lines.items self.old.needs.items }
        ensures grown { IsGrown graph.now place self.new.lines.items self.new.needs.items }
        ensures settled { OnFalse result (AreSettled graph.now self.new.lines.items self.new.needs.items) }
        ensures less { OnTrue result (room_of self.new.lines.items self.new.needs.items < room_of self.old.lines.items self.old.needs.items) }
        ensures no_more { room_of self.new.lines.items self.new.needs.items ≤ room_of self.old.lines.items self.old.needs.items }
    {
        let mut changed = false;
        for line in (0..rows.len()).rev() {
            if self.settle(graph, row_at(rows, line), line) {
                changed = true;
            }
        }
        changed
    }

    /// Settles lines until each is settled.
    fn spread(&mut self, graph: &FlowGraph, rows: &[List<usize>])
        ghost place: { ℕ }
        requires formed { IsWellFormed graph.now }
        requires rows { AreRows graph.now rows.now }
        requires grown { IsGrown graph.now place self.old.lines.items self.old.needs.items }
        ensures grown { IsGrown graph.now place self.new.lines.items self.new.needs.items }
        ensures settled { AreSettled graph.now self.new.lines.items self.new.needs.items }
        ensures no_more { room_of self.new.lines.items self.new.needs.items ≤ room_of self.old.lines.items self.old.needs.items }
    {
        while self.pass(graph, rows) {}
    }

    /// Whether a line is asked, and is a test that is not yet relevant, and two paths from it to relevant lines share it
    /// alone.
    fn decides(
        &self,
        alloc: Global,
        graph: &FlowGraph,
        rows: &[List<usize>],
        asked: &[bool],
        line: usize,
    ) -> Result<bool, NoMemory>
        requires formed { IsWellFormed graph.now }
        requires rows { AreRows graph.now rows.now }
        requires line { line < length graph.now.nodes }
        requires size { length self.now.lines.items ≡ length graph.now.nodes }
        requires asked { line < length asked.now }
        ensures deciding { IfOk result (λ found. found ≡ true → IsDeciding graph.now self.now.lines.items line) }
        ensures unmarked { IfOk result (λ found. found ≡ true → IsUnmarked self.now.lines.items line) }
        ensures decided { IfOk result (λ found. found ≡ false → IsMarked asked.now line → IsDecided graph.now self.now.lines.items line) }
    {
        if !asked[line] {
            return Ok(false);
        }
        if self.lines[line] || !is_test(graph, line) {
            return Ok(false);
        }
        has_pair(alloc, rows, line, self.lines.as_slice())
    }

    /// Makes each of the asked tests relevant from which two paths to relevant lines share it alone, and answers whether
    /// there was one.
    fn ask(
        &mut self,
        alloc: Global,
        graph: &FlowGraph,
        rows: &[List<usize>],
        asked: &[bool],
    ) -> Result<bool, NoMemory>
        ghost place: { ℕ }
        requires formed { IsWellFormed graph.now }
        requires rows { AreRows graph.now rows.now }
        requires grown { IsGrown graph.now place self.old.lines.items self.old.needs.items }
        requires asked { length asked.now ≡ length graph.now.nodes }
        ensures grown { IfOk result (λ _. IsGrown graph.now place self.new.lines.items self.new.needs.items) }
        ensures same { IfOk result (λ changed. changed ≡ false → self.new ≡ self.old) }
        ensures decided { IfOk result (λ changed. changed ≡ false → (k : ℕ) → k < length graph.now.nodes → IsMarked asked.now k → IsDecided graph.now self.new.lines.items k) }
        ensures less { IfOk result (λ changed. changed ≡ true → room_of self.new.lines.items self.new.needs.items < room_of self.old.lines.items self.old.needs.items) }
    {
        let mut changed = false;
        for line in (0..graph.nodes.len()).rev() {
            if self.decides(alloc, graph, rows, asked, line)? {
                self.lines[line] = true;
                changed = true;
            }
        }
        Ok(changed)
    }

    /// Whether labels of the lines show that no test is left from which two paths to relevant lines share it alone; where
    /// they do not, marks of the lines that they leave in doubt.
    fn doubts(
        &self,
        alloc: Global,
        graph: &FlowGraph,
        rows: &[List<usize>],
    ) -> Result<Option<Vec<bool>>, NoMemory>
        requires formed { IsWellFormed graph.now }
        requires rows { AreRows graph.now rows.now }
        requires size { length self.now.lines.items ≡ length graph.now.nodes }
        ensures none { IfOk result (λ doubts. IfNone doubts (AreDecided graph.now self.now.lines.items)) }
        ensures some { IfOk result (λ doubts. IfSome doubts (λ marks. length marks.items ≡ length graph.now.nodes)) }
    {
        let lines = self.lines.as_slice();
        let found = labelled(alloc, rows, lines)?;
        let labels = found.as_slice();
        if are_consistent(rows, lines, labels) {
            return Ok(None);
        }
        Ok(Some(own_labelled(alloc, labels)?))
    }

    /// Makes tests relevant from which two paths to relevant lines share each alone, and answers whether there was one:
    /// first asks those that labels leave in doubt, and all where none of these is one.
    fn decide(
        &mut self,
        alloc: Global,
        graph: &FlowGraph,
        rows: &[List<usize>],
    ) -> Result<bool, NoMemory>
        ghost place: { ℕ }
        requires formed { IsWellFormed graph.now }
        requires rows { AreRows graph.now rows.now }
        requires grown { IsGrown graph.now place self.old.lines.items self.old.needs.items }
        ensures grown { IfOk result (λ _. IsGrown graph.now place self.new.lines.items self.new.needs.items) }
        ensures same { IfOk result (λ changed. changed ≡ false → self.new ≡ self.old) }
        ensures decided { IfOk result (λ changed. changed ≡ false → AreDecided graph.now self.new.lines.items) }
        ensures less { IfOk result (λ changed. changed ≡ true → room_of self.new.lines.items self.new.needs.items < room_of self.old.lines.items self.old.needs.items) }
    {
        let Some(doubts) = self.doubts(alloc, graph, rows)? else {
            return Ok(false);
        };
        if self.ask(alloc, graph, rows, doubts.as_slice())? {
            return Ok(true);
        }
        let every = all_marks(alloc, graph.nodes.len())?;
        self.ask(alloc, graph, rows, every.as_slice())
    }

    /// The least closed sets of a variable.
    pub fn least(
        alloc: Global,
        graph: &FlowGraph,
        rows: &[List<usize>],
        place: usize,
    ) -> Result<Sets, NoMemory>
        ghost variable: { ℕ }
        requires formed { IsWellFormed graph.now }
        requires rows { AreRows graph.now rows.now }
        requires low { place < 64 }
        requires same { place ≡ variable }
        ensures { IfOk result (λ sets. AreLeast graph.now place sets.lines.items sets.needs.items) }
    {
        let mut sets = Sets::last_line(alloc, graph.nodes.len(), place)?;
        sets.spread(graph, rows);
        while sets.decide(alloc, graph, rows)? {
            sets.spread(graph, rows);
        }
        Ok(sets)
    }
}
