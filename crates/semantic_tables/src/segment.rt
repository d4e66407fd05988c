//! The segments of a path, from one cut point to the next, and where a walk goes on behind a line.
ghost use Rattle.std.specs.Prelude.{◌≡◌, ◌<◌, ℕ, Some, length, slice_get};
ghost use Rattle.control_flow.specs.declared.control.LoopInfo.{LoopInfo};
ghost use Rattle.il_core.specs.declared.line.Next.TheVariants.{At};
ghost use Rattle.test_graph.specs.Decision.{decision_at};
ghost use Rattle.test_graph.specs.Lowered.{Unfolds};
ghost use Rattle.semantic_tables.specs.declared.segment.Segment.TheVariants.{Leading};
ghost use Rattle.semantic_tables.specs.Walk.{IsExploration, is_long, explored_procedure, IsSegment, behind, lines_left, GoesOn};

use crate::exploration::Exploration;
use control_flow::LoopInfo;
use il_core::Stop;
use region_paths::{first_node, leading_at, loop_of};

/// A segment of a path: which lines are walked through.
#[derive(Clone, Copy)]
pub enum Segment {
    /// Those of the region, as many as this at most, to the first loop head.
    Region(usize),
    /// The leading assertions of the loop at an index, from one of them on.
    Leading(usize, usize),
}

/// How a walk goes on behind a line.
#[derive(Clone, Copy)]
pub enum Onward {
    /// It stops there.
    Stops(Stop),
    /// At a node, in a segment.
    On(usize, Segment),
}

/// The head of the loop at an index.
fn head_at(loops: &[LoopInfo], at: usize) -> usize
    requires { at < length loops.now }
    ensures { (l : LoopInfo) → slice_get loops.now at ≡ Some l → result ≡ l.head }
{
    loops[at].head
}

/// On through the leading assertions of a loop, from one of them on, or to a stop at its head.
fn lead(exploration: Exploration<'_>, at: usize, from: usize) -> Onward
    requires exploration { IsExploration exploration }
    requires segment { at < length exploration.loops.now }
    ensures { (q : ℕ) → GoesOn exploration.entry (lines_left exploration.entry.loops.now (Leading at from)) (behind (explored_procedure exploration.entry) exploration.entry.loops.now (is_long exploration.entry.query) (Leading at from) (At q)) result }
{
    match leading_at(exploration.loops, at).get(from) {
        Some(line) => Onward::On(
            first_node(exploration.proc, exploration.graph, *line),
            Segment::Leading(at, from + 1),
        ),
        None => Onward::Stops(Stop::Head(head_at(exploration.loops, at))),
    }
}

/// How a walk goes on behind a way to a line, the first node of which is given.
pub fn go_on(exploration: Exploration<'_>, line: usize, first: usize, segment: Segment) -> Onward
    requires exploration { IsExploration exploration }
    requires segment { IsSegment exploration.loops.now segment }
    requires first { Unfolds exploration.graph.now.nodes exploration.graph.now.entries first (decision_at (explored_procedure exploration) line) }
    ensures { GoesOn exploration.entry (lines_left exploration.entry.loops.now segment) (behind (explored_procedure exploration.entry) exploration.entry.loops.now (is_long exploration.entry.query) segment (At line)) result }
{
    match segment {
        Segment::Region(room) => match loop_of(exploration.loops, line) {
            Some(at) => {
                if exploration.query.is_long() {
                    lead(exploration, at, 0)
                } else {
                    Onward::Stops(Stop::Head(line))
                }
            }
            None => {
                if room == 0 {
                    Onward::Stops(Stop::Head(line))
                } else {
                    Onward::On(first, Segment::Region(room - 1))
                }
            }
        },
        Segment::Leading(at, from) => lead(exploration, at, from),
    }
}
