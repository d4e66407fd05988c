//! The sides to which tests are fixed.
ghost use Rattle.std.specs.Prelude.{◌≡◌, ℕ, ◌<◌, [], ◌∷◌, length};
ghost use Rattle.il_core.specs.LineGraph.{IsIn, heads_of};
ghost use Rattle.il_core.specs.Procedure.{instruction_of};
ghost use Rattle.flow_slice.specs.Distance.{distance_at, is_shorter, side_of};

use il_core::Line;

/// The entry of a line.
fn distance_at(distances: &[Option<usize>], line: usize) -> Option<usize>
    requires { line < length distances.now }
    ensures { result ≡ distance_at distances.now line }
{
    distances[line]
}

/// Whether the first distance is there, and the second is greater or not there.
fn is_shorter(near: Option<usize>, far: Option<usize>) -> bool
    ensures { result ≡ is_shorter near far }
{
    match (near, far) {
        (Some(near), Some(far)) => near < far,
        (Some(_), None) => true,
        (None, _) => false,
    }
}

/// The side of a test whose true and false arc enter these lines.
fn side_between(distances: &[Option<usize>], met: usize, unmet: usize) -> bool
    requires met { met < length distances.now }
    requires unmet { unmet < length distances.now }
    ensures { result ≡ side_of distances.now (met ∷ unmet ∷ []) }
{
    !is_shorter(distance_at(distances, unmet), distance_at(distances, met))
}

/// The truth value to which the test at line `at` is fixed: FALSE where the line of its false arc is nearer, by these
/// distances, else TRUE.
pub fn side_of(distances: &[Option<usize>], at: usize, line: &Line) -> bool
    requires line { at < 1000 }
    requires heads { (h : ℕ) → IsIn (heads_of at (instruction_of line.now)) h → h < length distances.now }
    ensures { result ≡ side_of distances.now (heads_of at (instruction_of line.now)) }
{
    match line {
        Line::If(_, target) => side_between(distances, at + 1, *target),
        Line::ExitWhen(_, target) => side_between(distances, *target, at + 1),
        _ => true,
    }
}
