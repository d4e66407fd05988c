//! The section on the test inputs of the rows.
ghost use Rattle.std.specs.Prelude.{◌≡◌, ◌++◌, codes, decimal};
ghost use Rattle.form_text.specs.Lists.{numbered};
ghost use Rattle.form_text.specs.Pieces.{Puts};
ghost use Rattle.report_text.specs.Inputs.{behind_next, inputs_text, region_inputs_text, row_input_text, rows_next, tried_regions_text, tried_text};

use crate::tables::put_region_line;
use crate::threats::put_input;
use form_text::put;
use il_core::{List, Place};
use il_edge::{Failed, Sink};
use itoa::Buffer;
use report::{RegionInputs, RegionTable};

/// Writes the number of a row behind the word that it has.
fn put_row_number<K: Sink>(number: usize, sink: &mut K) -> Result<(), Failed>
    ensures { Puts K.held K.settled K.faults sink.old sink.new result (codes "ROW " ++ decimal number ++ codes " INPUT ") }
{
    let mut digits = Buffer::new();
    put(
        sink,
        &[b"ROW ", digits.format(number).as_bytes(), b" INPUT "],
    )
}

/// Writes the value of each place, or a dash where there is no input.
fn put_tried<K: Sink>(
    places: &[Place],
    input: &Option<List<i64>>,
    sink: &mut K,
) -> Result<(), Failed>
    ensures { Puts K.held K.settled K.faults sink.old sink.new result (tried_text places.now input.now) }
{
    match input {
        None => put(sink, &[b"-"]),
        Some(values) => put_input(places, values.as_slice(), sink),
    }
}

/// Writes the line of a row with its test input.
fn put_row_input<K: Sink>(
    places: &[Place],
    number: usize,
    input: &Option<List<i64>>,
    sink: &mut K,
) -> Result<(), Failed>
    ensures { Puts K.held K.settled K.faults sink.old sink.new result (row_input_text places.now number input.now) }
{
    put_row_number(number, sink)?;
    put_tried(places, input, sink)?;
    put(sink, &[b"\n"])
}

fn put_row_inputs<K: Sink>(
    places: &[Place],
    rows: &[Option<List<i64>>],
    sink: &mut K,
) -> Result<(), Failed>
    ensures { Puts K.held K.settled K.faults sink.old sink.new result (numbered (row_input_text places.now) 1 rows.now) }
{
    for (at, input) in rows.iter().enumerate() {
        match put_row_input(places, at + 1, input, sink) {
            Ok(()) => {}
            Err(failed) => return Err(failed),
        }
    }
    Ok(())
}

/// The inputs that stand next, where they are of the region of line `pc`.
fn rows_next(pc: usize, inputs: &[RegionInputs]) -> &[Option<List<i64>>]
    ensures { result.now ≡ rows_next pc inputs.now }
{
    match inputs.first() {
        Some(next) if next.pc == pc => next.rows.as_slice(),
        _ => &[],
    }
}

/// What stands behind them.
fn behind_next(pc: usize, inputs: &[RegionInputs]) -> &[RegionInputs]
    ensures { result.now ≡ behind_next pc inputs.now }
{
    match inputs.split_first() {
        Some((next, others)) if next.pc == pc => others,
        _ => inputs,
    }
}

/// Writes the line of a region, and the inputs of its rows.
fn put_region_inputs<K: Sink>(
    places: &[Place],
    table: &RegionTable,
    rows: &[Option<List<i64>>],
    sink: &mut K,
) -> Result<(), Failed>
    ensures { Puts K.held K.settled K.faults sink.old sink.new result (region_inputs_text places.now table.now rows.now) }
{
    put_region_line(table, sink)?;
    put_row_inputs(places, rows, sink)
}

/// Writes the regions with their inputs. Each region is looked at once.
fn put_tried_regions<K: Sink>(
    places: &[Place],
    tables: &[RegionTable],
    inputs: &[RegionInputs],
    sink: &mut K,
) -> Result<(), Failed>
    ensures { Puts K.held K.settled K.faults sink.old sink.new result (tried_regions_text places.now tables.now inputs.now) }
{
    let mut left = inputs;
    for table in tables {
        let rows = rows_next(table.pc, left);
        match put_region_inputs(places, table, rows, sink) {
            Ok(()) => {}
            Err(failed) => return Err(failed),
        }
        left = behind_next(table.pc, left);
    }
    Ok(())
}

/// Writes the section on test inputs: for each region its line, and a line for each row of its table. `Failed` comes only
/// where the sink's count of faults rose in this call, and then a prefix of the section was written. It costs time
/// linear in the text.
pub(crate) fn put_inputs<K: Sink>(
    places: &[Place],
    tables: &[RegionTable],
    inputs: &[RegionInputs],
    sink: &mut K,
) -> Result<(), Failed>
    ensures { Puts K.held K.settled K.faults sink.old sink.new result (inputs_text places.now tables.now inputs.now) }
{
    put(sink, &[b"INPUTS\n"])?;
    put_tried_regions(places, tables, inputs, sink)
}
