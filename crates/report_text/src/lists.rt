ghost use Rattle.std.specs.Prelude.{◌≡◌, ◌++◌, codes};
ghost use Rattle.std.specs.List.{flat_map};
ghost use Rattle.il_edge.specs.Faults.{HasCause};
ghost use Rattle.il_edge.specs.Known.{SameTold};
ghost use Rattle.form_text.specs.Lists.{line_text, lines_text, names_text, place_at};
ghost use Rattle.form_text.specs.Pieces.{Writes};

use form_text::{put, put_place};
use il_core::{List, Place};
use il_edge::{Failed, Sink};
use itoa::Buffer;

/// Writes the name of a line behind the bytes `before`.
pub(crate) fn put_line<K: Sink>(before: &[u8], line: usize, sink: &mut K) -> Result<(), Failed>
    ensures text { Writes (K.held sink.old) (K.held sink.new) result (before.now ++ line_text line) }
    ensures told { SameTold (K.held sink.old) (K.held sink.new) }
    ensures settled { K.settled sink.new ≡ K.settled sink.old }
    ensures cause { HasCause (K.faults sink.old) (K.faults sink.new) result }
{
    let mut number = Buffer::new();
    put(sink, &[before, b"L", number.format(line).as_bytes()])
}

fn put_other_lines<K: Sink>(lines: &[usize], sink: &mut K) -> Result<(), Failed>
    ensures text { Writes (K.held sink.old) (K.held sink.new) result (flat_map (λ n. codes " " ++ line_text n) lines.now) }
    ensures told { SameTold (K.held sink.old) (K.held sink.new) }
    ensures settled { K.settled sink.new ≡ K.settled sink.old }
    ensures cause { HasCause (K.faults sink.old) (K.faults sink.new) result }
{
    for line in lines {
        match put_line(b" ", *line, sink) {
            Ok(()) => {}
            Err(failed) => return Err(failed),
        }
    }
    Ok(())
}

/// Writes lines with spaces between them, or a dash where there is none.
#[tactic(auto, unfolding(form_text::specs::Lists::lines_text))]
pub(crate) fn put_lines<K: Sink>(lines: &[usize], sink: &mut K) -> Result<(), Failed>
    ensures text { Writes (K.held sink.old) (K.held sink.new) result (lines_text lines.now) }
    ensures told { SameTold (K.held sink.old) (K.held sink.new) }
    ensures settled { K.settled sink.new ≡ K.settled sink.old }
    ensures cause { HasCause (K.faults sink.old) (K.faults sink.new) result }
{
    match lines.split_first() {
        None => put(sink, &[b"-"]),
        Some((first, others)) => {
            put_line(b"", *first, sink)?;
            put_other_lines(others, sink)
        }
    }
}

/// Writes lines with spaces between them, or a dash where there is none, behind the bytes `label`.
pub(crate) fn put_labelled<K: Sink>(
    label: &[u8],
    lines: &List<usize>,
    sink: &mut K,
) -> Result<(), Failed>
    ensures text { Writes (K.held sink.old) (K.held sink.new) result (label.now ++ lines_text lines.now) }
    ensures told { SameTold (K.held sink.old) (K.held sink.new) }
    ensures settled { K.settled sink.new ≡ K.settled sink.old }
    ensures cause { HasCause (K.faults sink.old) (K.faults sink.new) result }
{
    put(sink, &[label])?;
    put_lines(lines.as_slice(), sink)
}

fn put_other_names<K: Sink>(places: &[Place], numbers: &[usize], sink: &mut K) -> Result<(), Failed>
    ensures text { Writes (K.held sink.old) (K.held sink.new) result (flat_map (λ n. codes " " ++ place_at places.now n) numbers.now) }
    ensures told { SameTold (K.held sink.old) (K.held sink.new) }
    ensures settled { K.settled sink.new ≡ K.settled sink.old }
    ensures cause { HasCause (K.faults sink.old) (K.faults sink.new) result }
{
    for at in numbers {
        match put_place(b" ", places, *at, sink) {
            Ok(()) => {}
            Err(failed) => return Err(failed),
        }
    }
    Ok(())
}

/// Writes the places of some numbers by their names, with spaces between them, or a dash where there is none.
#[tactic(auto, unfolding(form_text::specs::Lists::names_text))]
pub(crate) fn put_names<K: Sink>(
    places: &[Place],
    numbers: &[usize],
    sink: &mut K,
) -> Result<(), Failed>
    ensures text { Writes (K.held sink.old) (K.held sink.new) result (names_text places.now numbers.now) }
    ensures told { SameTold (K.held sink.old) (K.held sink.new) }
    ensures settled { K.settled sink.new ≡ K.settled sink.old }
    ensures cause { HasCause (K.faults sink.old) (K.faults sink.new) result }
{
    match numbers.split_first() {
        None => put(sink, &[b"-"]),
        Some((first, others)) => {
            put_place(b"", places, *first, sink)?;
            put_other_names(places, others, sink)
        }
    }
}
