//! The least node of a border, and the least that an interval may take.
ghost use Rattle.std.specs.Prelude.{◌≡◌, ℕ, ◌<◌, ◌↔◌, length, IsTrue};
ghost use Rattle.il_core.specs.LineGraph.{IsIn};
ghost use Rattle.flow_graph.specs.Search.{IsMarked, AreBelow, StayBelow, row_of};
ghost use Rattle.interval_reduce.specs.Choice.{IsFitting, IsLeastOf, IsBelow};

use il_core::List;

/// The row at `at`.
pub fn row_at(rows: &[List<usize>], at: usize) -> &[usize]
    requires { at < length rows.now }
    ensures { result.now ≡ row_of rows.now at }
{
    rows[at].as_slice()
}

/// Whether each node of a row is marked.
fn are_marked(row: &[usize], marks: &[bool]) -> bool
    requires { AreBelow (length marks.now) row.now }
    ensures { IsTrue result ↔ ((u : ℕ) → IsIn row.now u → IsMarked marks.now u) }
{
    for node in row {
        if !marks[*node] {
            return false;
        }
    }
    true
}

/// Whether a node is less than the least so far, if there is one.
fn is_less(node: usize, least: Option<usize>) -> bool
    ensures { IsTrue result ↔ IsBelow node least }
{
    match least {
        Some(other) => node < other,
        None => true,
    }
}

/// The least node of a border whose predecessors are all inside; `None` where there is none.
pub fn least_fitting(border: &[usize], preds: &[List<usize>], inside: &[bool]) -> Option<usize>
    requires inside { length inside.now ≡ length preds.now }
    requires border { AreBelow (length preds.now) border.now }
    requires rows { StayBelow (length preds.now) preds.now }
    ensures { IsLeastOf (IsFitting border.now preds.now inside.now) result }
{
    let mut least = None;
    for node in border {
        if is_less(*node, least) && are_marked(row_at(preds, *node), inside) {
            least = Some(*node);
        }
    }
    least
}

/// The least node of a border; `None` where it is empty.
pub fn least_of(border: &[usize]) -> Option<usize>
    ensures { IsLeastOf (IsIn border.now) result }
{
    let mut least = None;
    for node in border {
        if is_less(*node, least) {
            least = Some(*node);
        }
    }
    least
}
