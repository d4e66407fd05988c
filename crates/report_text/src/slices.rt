//! The section on slices.
ghost use Rattle.std.specs.Prelude.{◌++◌, codes};
ghost use Rattle.std.specs.List.{flat_map};
ghost use Rattle.form_text.specs.Lists.{lines_text, place_at};
ghost use Rattle.form_text.specs.Pieces.{Puts};
ghost use Rattle.report_text.specs.Slices.{fixed_text, fixes_text, slice_text, slices_text};

use crate::lists::put_lines;
use flow_slice::Fixed;
use form_text::{place_name, put};
use il_core::Place;
use il_edge::{Failed, Sink};
use itoa::Buffer;
use report::SliceRow;

/// Writes a test and the truth value to which it is fixed, behind the bytes `before`.
fn put_fixed<K: Sink>(before: &[u8], fixed: &Fixed, sink: &mut K) -> Result<(), Failed>
    ensures { Puts K.held K.settled K.faults sink.old sink.new result (before.now ++ fixed_text fixed.now) }
{
    let mut line = Buffer::new();
    let number = line.format(fixed.line).as_bytes();
    if fixed.taken {
        put(sink, &[before, b"L", number, b"=T"])
    } else {
        put(sink, &[before, b"L", number, b"=F"])
    }
}

fn put_other_fixes<K: Sink>(fixes: &[Fixed], sink: &mut K) -> Result<(), Failed>
    ensures { Puts K.held K.settled K.faults sink.old sink.new result (flat_map (λ f. codes " " ++ fixed_text f) fixes.now) }
{
    for fixed in fixes {
        match put_fixed(b" ", fixed, sink) {
            Ok(()) => {}
            Err(failed) => return Err(failed),
        }
    }
    Ok(())
}

/// Writes fixed tests with spaces between them, or a dash where there is none.
#[tactic(auto, unfolding(crate::specs::Slices::fixes_text))]
fn put_fixes<K: Sink>(fixes: &[Fixed], sink: &mut K) -> Result<(), Failed>
    ensures { Puts K.held K.settled K.faults sink.old sink.new result (fixes_text fixes.now) }
{
    match fixes.split_first() {
        None => put(sink, &[b"-"]),
        Some((first, others)) => {
            put_fixed(b"", first, sink)?;
            put_other_fixes(others, sink)
        }
    }
}

fn put_variable<K: Sink>(places: &[Place], at: usize, sink: &mut K) -> Result<(), Failed>
    ensures { Puts K.held K.settled K.faults sink.old sink.new result (codes "VAR " ++ place_at places.now at ++ codes " KEEP ") }
{
    let (mark, name) = place_name(places, at);
    put(sink, &[b"VAR ", mark, name, b" KEEP "])
}

fn put_kept<K: Sink>(lines: &[usize], sink: &mut K) -> Result<(), Failed>
    ensures { Puts K.held K.settled K.faults sink.old sink.new result (lines_text lines.now) }
{
    put_lines(lines, sink)
}

/// Writes what the slice for a variable keeps and fixes.
fn put_slice<K: Sink>(places: &[Place], row: &SliceRow, sink: &mut K) -> Result<(), Failed>
    ensures { Puts K.held K.settled K.faults sink.old sink.new result (slice_text places.now row.now) }
{
    put_variable(places, row.place, sink)?;
    put_kept(row.keep.as_slice(), sink)?;
    put(sink, &[b" FIXED "])?;
    put_fixes(row.fixed.as_slice(), sink)?;
    put(sink, &[b"\n"])
}

fn put_slice_rows<K: Sink>(places: &[Place], rows: &[SliceRow], sink: &mut K) -> Result<(), Failed>
    ensures { Puts K.held K.settled K.faults sink.old sink.new result (flat_map (slice_text places.now) rows.now) }
{
    for row in rows {
        match put_slice(places, row, sink) {
            Ok(()) => {}
            Err(failed) => return Err(failed),
        }
    }
    Ok(())
}

/// Writes the section on slices: one line for each row. `Failed` comes only where the sink's count of faults rose in this
/// call, and then a prefix of the section was written. It costs time linear in the text.
pub(crate) fn put_slices<K: Sink>(
    places: &[Place],
    rows: &[SliceRow],
    sink: &mut K,
) -> Result<(), Failed>
    ensures { Puts K.held K.settled K.faults sink.old sink.new result (slices_text places.now rows.now) }
{
    put(sink, &[b"SLICE\n"])?;
    put_slice_rows(places, rows, sink)
}
