//! Which paths come to their end in the opening of their region, told from their decisions.
ghost use Rattle.std.specs.Prelude.{◌≡◌, ℕ, Some, None, List, MatchOption, if◌then◌else◌};
ghost use Rattle.il_core.specs.Checked.{procedure_of};
ghost use Rattle.il_core.specs.Procedure.{Procedure};
ghost use Rattle.test_graph.specs.Decision.{Decision};
ghost use Rattle.test_graph.specs.Lowered.{Unfolds, IsLowered};
ghost use Rattle.region_paths.specs.Walk.{AreLines};
ghost use Rattle.compliance.specs.Behind as behind;

use il_core::CheckedProc;
use region_paths::first_node;
use test_graph::{TestGraph, TestNode};

/// The node that follows a decision.
fn side(truth: bool, met: usize, unmet: usize) -> usize
    ensures { result ≡ if truth then met else unmet }
{
    if truth { met } else { unmet }
}

/// What is left of a path behind the way that it takes from node `id` through a line; `None` where that way halts, or
/// the path ends on it. It goes as deep as the way has decisions.
fn left_behind<'a>(graph: &TestGraph, id: usize, path: &'a [bool]) -> Option<&'a [bool]>
    requires lowered { (p : Procedure) × IsLowered p graph.now }
    ensures { (d : Decision) → Unfolds graph.now.nodes graph.now.entries id d → MatchOption result (behind.left_behind d path.now ≡ None) (λ left. behind.left_behind d path.now ≡ Some left.now) }
{
    match graph.nodes.get(id) {
        Some(TestNode::Test(_, met, unmet)) => match path.first() {
            Some(first) => left_behind(graph, side(*first, *met, *unmet), &path[1..]),
            None => None,
        },
        Some(TestNode::Assign(_, _, then)) => left_behind(graph, *then, path),
        Some(TestNode::AtLine(_, _)) => Some(path),
        Some(TestNode::Stop(_)) => None,
        None => None,
    }
}

/// Whether a path comes to its end in these lines, passed one after the other.
pub fn ends_within(proc: &CheckedProc, graph: &TestGraph, lines: &[usize], path: &[bool]) -> bool
    requires lowered { IsLowered (procedure_of proc.now) graph.now }
    requires lines { AreLines (procedure_of proc.now) lines.now }
    ensures { result ≡ behind.ends_within (procedure_of proc.now) lines.now path.now }
{
    let mut left = path;
    for line in lines {
        match left_behind(graph, first_node(proc, graph, *line), left) {
            Some(more) => left = more,
            None => return true,
        }
    }
    false
}
