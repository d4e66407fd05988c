//! Masks of places: bit p for place p.
ghost use Rattle.std.specs.Prelude.{◌≡◌, ℕ, ◌+◌, ◌≤◌, length, zero};
ghost use Rattle.il_core.specs.Expression.{expression_of};
ghost use Rattle.flow_graph.specs.Reading.{place_mask, mask_of};
ghost use Rattle.flow_graph.specs.Graph.{is_returned, returned_from};

use il_core::{Expr, Mode, Place};

/// The mask of one place; 0 from place 64 on.
fn place_mask(place: usize) -> u64
    ensures { result ≡ place_mask place }
{
    if place < 64 { 1 << place } else { 0 }
}

/// The mask of the places that an expression names. It takes no memory.
pub fn read_mask(expr: &Expr) -> u64
    ensures { result ≡ mask_of (expression_of expr.now) }
{
    match expr {
        Expr::Num(_) | Expr::Truth(_) => 0,
        Expr::Var(place) | Expr::Flag(place) => place_mask(*place),
        Expr::Neg(inner) | Expr::Not(inner) => read_mask(inner),
        Expr::Binary(_, left, right) => read_mask(left) | read_mask(right),
    }
}

/// Whether a place is an OUT or INOUT variable and no OLD copy.
fn is_returned(place: &Place) -> bool
    ensures { result ≡ is_returned place.now }
{
    !place.old && matches!(place.mode, Mode::InOut | Mode::Output)
}

/// The mask of the OUT and INOUT variables among places that are numbered from `first` on.
fn returned_from(first: usize, places: &[Place]) -> u64
    requires { first + length places.now ≤ 64 }
    ensures { result ≡ returned_from first places.now }
{
    match places {
        [] => 0,
        [place, rest @ ..] => {
            let mask = if is_returned(place) {
                place_mask(first)
            } else {
                0
            };
            mask | returned_from(first + 1, rest)
        }
    }
}

/// The mask of the OUT and INOUT variables among the places. It takes no memory.
pub fn returned_mask(places: &[Place]) -> u64
    requires { length places.now ≤ 64 }
    ensures { result ≡ returned_from 0 places.now }
{
    returned_from(0, places)
}
