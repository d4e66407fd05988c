//! The section on the tables of the regions.
ghost use Rattle.std.specs.Prelude.{◌≡◌, ◌++◌, codes};
ghost use Rattle.std.specs.List.{flat_map};
ghost use Rattle.sym_simplify.specs.FormText.{form_text, literal_form_text};
ghost use Rattle.sym_simplify.specs.Held.{form_of};
ghost use Rattle.sym_simplify.specs.Literal.{literal_form_of};
ghost use Rattle.form_text.specs.Lists.{numbered, place_at};
ghost use Rattle.form_text.specs.Pieces.{Puts};
ghost use Rattle.report_text.specs.Tables.{holds_always, literal_line, past_text, region_text, row_text, rows_text, table_text, tables_text, value_line};

use crate::stops::{put_numbered, put_stop};
use form_text::{is_place, put, put_literal, put_normal, put_place};
use il_core::Place;
use il_edge::{Failed, Sink};
use itoa::Buffer;
use region_paths::Limit;
use report::RegionTable;
use semantic_tables::{Row, TableOr};
use sym_simplify::{LitForm, Normal};

/// What stands behind the line of a region: the first limit that it passes, or nothing.
fn limit_of(body: &TableOr) -> &[u8]
    ensures { result.now ≡ past_text body.now }
{
    match body {
        TableOr::Table(_) => b"",
        TableOr::Past(Limit::Rows) => b" PAST ROWS",
        TableOr::Past(Limit::Nodes) => b" PAST NODES",
        TableOr::Past(Limit::Weight) => b" PAST WEIGHT",
        TableOr::Past(Limit::Depth) => b" PAST DEPTH",
    }
}

/// Writes the line of a region.
#[tactic(auto, unfolding(crate::specs::Tables::region_text))]
pub(crate) fn put_region_line<K: Sink>(table: &RegionTable, sink: &mut K) -> Result<(), Failed>
    ensures { Puts K.held K.settled K.faults sink.old sink.new result (region_text table.now) }
{
    let mut digits = Buffer::new();
    put(
        sink,
        &[
            b"REGION L",
            digits.format(table.pc).as_bytes(),
            limit_of(&table.body),
            b"\n",
        ],
    )
}

fn holds_always(literal: &LitForm) -> bool
    ensures { result ≡ holds_always literal.now }
{
    matches!(literal, LitForm::Always)
}

fn put_condition<K: Sink>(places: &[Place], literal: &LitForm, sink: &mut K) -> Result<(), Failed>
    ensures { Puts K.held K.settled K.faults sink.old sink.new result (codes "IF " ++ literal_form_text (place_at places.now) (literal_form_of literal.now) ++ codes "\n") }
{
    put(sink, &[b"IF "])?;
    put_literal(places, literal, sink)?;
    put(sink, &[b"\n"])
}

/// Writes the line of a literal; nothing where it always holds.
#[tactic(auto, unfolding(crate::specs::Tables::literal_line))]
fn put_literal_line<K: Sink>(
    places: &[Place],
    literal: &LitForm,
    sink: &mut K,
) -> Result<(), Failed>
    ensures { Puts K.held K.settled K.faults sink.old sink.new result (literal_line places.now literal.now) }
{
    if holds_always(literal) {
        return Ok(());
    }
    put_condition(places, literal, sink)
}

fn put_literal_lines<K: Sink>(
    places: &[Place],
    literals: &[LitForm],
    sink: &mut K,
) -> Result<(), Failed>
    ensures { Puts K.held K.settled K.faults sink.old sink.new result (flat_map (literal_line places.now) literals.now) }
{
    for literal in literals {
        match put_literal_line(places, literal, sink) {
            Ok(()) => {}
            Err(failed) => return Err(failed),
        }
    }
    Ok(())
}

fn put_assigned<K: Sink>(
    places: &[Place],
    at: usize,
    value: &Normal,
    sink: &mut K,
) -> Result<(), Failed>
    ensures { Puts K.held K.settled K.faults sink.old sink.new result (place_at places.now at ++ codes " := " ++ form_text (place_at places.now) (form_of value.now) ++ codes "\n") }
{
    put_place(b"", places, at, sink)?;
    put(sink, &[b" := "])?;
    put_normal(places, value, sink)?;
    put(sink, &[b"\n"])
}

/// Writes the line of the value of a place; nothing where that is the place itself.
#[tactic(auto, unfolding(crate::specs::Tables::value_line))]
fn put_value_line<K: Sink>(
    places: &[Place],
    at: usize,
    value: &Normal,
    sink: &mut K,
) -> Result<(), Failed>
    ensures { Puts K.held K.settled K.faults sink.old sink.new result (value_line places.now at value.now) }
{
    if is_place(value, at) {
        return Ok(());
    }
    put_assigned(places, at, value, sink)
}

fn put_value_lines<K: Sink>(places: &[Place], values: &[Normal], sink: &mut K) -> Result<(), Failed>
    ensures { Puts K.held K.settled K.faults sink.old sink.new result (numbered (value_line places.now) 0 values.now) }
{
    for (at, value) in values.iter().enumerate() {
        match put_value_line(places, at, value, sink) {
            Ok(()) => {}
            Err(failed) => return Err(failed),
        }
    }
    Ok(())
}

fn put_row<K: Sink>(places: &[Place], number: usize, row: &Row, sink: &mut K) -> Result<(), Failed>
    ensures { Puts K.held K.settled K.faults sink.old sink.new result (row_text places.now number row.now) }
{
    put_numbered(b"ROW ", number, row.path.as_slice(), sink)?;
    put(sink, &[b"\n"])?;
    put_literal_lines(places, row.literals.as_slice(), sink)?;
    put_stop(&row.stop, sink)?;
    put_value_lines(places, row.values.as_slice(), sink)
}

fn put_rows<K: Sink>(places: &[Place], rows: &[Row], sink: &mut K) -> Result<(), Failed>
    ensures { Puts K.held K.settled K.faults sink.old sink.new result (numbered (row_text places.now) 1 rows.now) }
{
    for (at, row) in rows.iter().enumerate() {
        match put_row(places, at + 1, row, sink) {
            Ok(()) => {}
            Err(failed) => return Err(failed),
        }
    }
    Ok(())
}

fn put_body<K: Sink>(places: &[Place], body: &TableOr, sink: &mut K) -> Result<(), Failed>
    ensures { Puts K.held K.settled K.faults sink.old sink.new result (rows_text places.now body.now) }
{
    match body {
        TableOr::Table(rows) => put_rows(places, rows.as_slice(), sink),
        TableOr::Past(_) => Ok(()),
    }
}

fn put_table<K: Sink>(places: &[Place], table: &RegionTable, sink: &mut K) -> Result<(), Failed>
    ensures { Puts K.held K.settled K.faults sink.old sink.new result (table_text places.now table.now) }
{
    put_region_line(table, sink)?;
    put_body(places, &table.body, sink)
}

fn put_each_table<K: Sink>(
    places: &[Place],
    tables: &[RegionTable],
    sink: &mut K,
) -> Result<(), Failed>
    ensures { Puts K.held K.settled K.faults sink.old sink.new result (flat_map (table_text places.now) tables.now) }
{
    for table in tables {
        match put_table(places, table, sink) {
            Ok(()) => {}
            Err(failed) => return Err(failed),
        }
    }
    Ok(())
}

/// Writes the section on tables: for each region its line, and its rows where it is within its size. `Failed` comes only
/// where the sink's count of faults rose in this call, and then a prefix of the section was written. It costs time linear
/// in the tables and the text.
pub(crate) fn put_tables<K: Sink>(
    places: &[Place],
    tables: &[RegionTable],
    sink: &mut K,
) -> Result<(), Failed>
    ensures { Puts K.held K.settled K.faults sink.old sink.new result (tables_text places.now tables.now) }
{
    put(sink, &[b"SEMANTIC\n"])?;
    put_each_table(places, tables, sink)
}
