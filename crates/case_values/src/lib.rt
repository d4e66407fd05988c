//! Whether values are in the ranges of places, for cases that ask calls which take such values alone. One pass over the
//! places tells it.
#![tactic(auto)]

ghost use Rattle.std.specs.Prelude.{◌≤ℤ◌, ◌↔◌, IsTrue};
ghost use Rattle.il_core.specs.Run.{IsInRange};

use il_core::Place;

fn is_value_of(place: &Place, value: i64) -> bool
    ensures { IsTrue result ↔ (place.now.least ≤ℤ value) × (value ≤ℤ place.now.greatest) }
{
    place.least <= value && value <= place.greatest
}

/// Whether there is one value for each place, in the range of the place. The time is linear in the places.
pub fn is_in_range(places: &[Place], vals: &[i64]) -> bool
    ensures { IsTrue result ↔ IsInRange places.now vals.now }
{
    if vals.len() != places.len() {
        return false;
    }
    for (index, place) in places.iter().enumerate() {
        if !is_value_of(place, vals[index]) {
            return false;
        }
    }
    true
}
