//! Masks of places: bit p for place p.
ghost use Rattle.std.specs.Prelude.{◌≡◌, true, ◌≢◌, ◌↔◌, ◌<◌, ◌^◌, ℕ, Some, length, slice_index_or, bit_or, IsTrue, IfSome};
ghost use Rattle.il_core.specs.LineGraph.{IsIn};
ghost use Rattle.flow_graph.specs.Search.{AreBelow};
ghost use Rattle.info_flow.specs.Growth.{HasPlace, Needs};

/// Whether a mask has a place.
pub fn has_place(mask: u64, place: usize) -> bool
    requires { place < 64 }
    ensures { IsTrue result ↔ HasPlace mask place }
{
    mask >> place & 1 == 1
}

/// The mask of one place.
pub fn only_place(place: usize) -> u64
    requires { place < 64 }
    ensures { (p : ℕ) → HasPlace result p ↔ (p ≡ place) }
{
    1 << place
}

/// A mask without a place.
fn without(mask: u64, place: usize) -> u64
    requires { place < 64 }
    ensures { (p : ℕ) → HasPlace result p ↔ (HasPlace mask p × p ≢ place) }
{
    mask & !(1 << place)
}

/// The mask of a line.
pub fn mask_at(masks: &[u64], line: usize) -> u64
    requires { line < length masks.now }
    ensures { result ≡ slice_index_or masks.now line 0 }
{
    masks[line]
}

/// The places that a line of the row needs.
pub fn needed_in(row: &[usize], masks: &[u64]) -> u64
    requires { AreBelow (length masks.now) row.now }
    ensures { (p : ℕ) → HasPlace result p ↔ ((h : ℕ) × IsIn row.now h × Needs masks.now h p) }
{
    let mut places = 0;
    for line in row {
        places |= mask_at(masks, *line);
    }
    places
}

/// The places but the one that is assigned.
pub fn unassigned(places: u64, assigned: Option<usize>) -> u64
    requires { IfSome assigned (λ p. p < 64) }
    ensures { (p : ℕ) → HasPlace result p ↔ (HasPlace places p × (assigned ≡ Some p → ⊥)) }
{
    match assigned {
        Some(place) => without(places, place),
        None => places,
    }
}

/// Whether the place that is assigned is one of the places.
pub fn is_assigned(places: u64, assigned: Option<usize>) -> bool
    requires { IfSome assigned (λ p. p < 64) }
    ensures { IsTrue result ↔ ((p : ℕ) × (assigned ≡ Some p) × HasPlace places p) }
{
    match assigned {
        Some(place) => has_place(places, place),
        None => false,
    }
}

/// The places that a line reads, where it is relevant, and none otherwise.
pub fn read_where(relevant: bool, reads: u64) -> u64
    ensures { (p : ℕ) → HasPlace result p ↔ ((relevant ≡ true) × HasPlace reads p) }
{
    if relevant { reads } else { 0 }
}

/// The places of three masks.
pub fn united(first: u64, second: u64, third: u64) -> u64
    ensures places { result ≡ bit_or (bit_or first second) third }
    ensures fits { result < 2 ^ 64 }
{
    first | second | third
}
