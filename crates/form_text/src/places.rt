ghost use Rattle.std.specs.Prelude.{◌≡◌, ◌++◌};
ghost use Rattle.form_text.specs.Lists.{old_mark, place_at};
ghost use Rattle.form_text.specs.Pieces.{Puts};

use crate::pieces::put;
use il_core::Place;
use il_edge::{Failed, Sink};

fn mark_of(place: &Place) -> &[u8]
    ensures { result.now ≡ old_mark place.now.old }
{
    if place.old { b"OLD " } else { b"" }
}

/// The mark and the name of the place `at`, both empty where there is none.
pub fn place_name(places: &[Place], at: usize) -> (&[u8], &[u8])
    ensures { place_at places.now at ≡ result.0.now ++ result.1.now }
{
    match places.get(at) {
        None => (b"", b""),
        Some(place) => (mark_of(place), place.name.as_bytes()),
    }
}

/// Writes the place `at` by its name, behind the bytes `before`; the bytes alone where there is none. `Failed` comes only
/// where the sink's count of faults rose in this call, and then a prefix of the text was written.
pub fn put_place<K: Sink>(
    before: &[u8],
    places: &[Place],
    at: usize,
    sink: &mut K,
) -> Result<(), Failed>
    ensures { Puts K.held K.settled K.faults sink.old sink.new result (before.now ++ place_at places.now at) }
{
    let (mark, name) = place_name(places, at);
    put(sink, &[before, mark, name])
}
