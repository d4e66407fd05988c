//! The section on the threats and their verdicts.
ghost use Rattle.std.specs.Prelude.{◌≡◌, ◌≤◌, ◌<◌, ◌+◌, ◌^◌, ◌++◌, length, count_by};
ghost use Rattle.form_text.specs.Lists.{numbered, place_at};
ghost use Rattle.form_text.specs.Pieces.{Puts};
ghost use Rattle.report.specs.Status.{is_refuted};
ghost use Rattle.report_text.specs.Threats.{count_here, counts_text, equal_text, input_text, is_open, is_past, is_shown, literal_at, other_text, regions_text, threat_text, threats_text, verdict_text};
ghost use Rattle.report_text.specs.Tables.{region_text};

use crate::stops::{put_halt, put_numbered};
use crate::tables::put_region_line;
use compliance::{Threat, Verdict};
use form_text::{place_name, put, put_literal};
use il_core::Place;
use il_edge::{Failed, Sink};
use itoa::Buffer;
use report::RegionTable;
use semantic_tables::TableOr;
use sym_simplify::LitForm;

/// Writes the value of a place behind the bytes `before`.
fn put_equal<K: Sink>(
    before: &[u8],
    places: &[Place],
    at: usize,
    value: &i64,
    sink: &mut K,
) -> Result<(), Failed>
    ensures { Puts K.held K.settled K.faults sink.old sink.new result (before.now ++ equal_text places.now at value.now) }
{
    let (mark, name) = place_name(places, at);
    let mut digits = Buffer::new();
    put(
        sink,
        &[before, mark, name, b" = ", digits.format(*value).as_bytes()],
    )
}

fn put_other_values<K: Sink>(places: &[Place], values: &[i64], sink: &mut K) -> Result<(), Failed>
    ensures { Puts K.held K.settled K.faults sink.old sink.new result (numbered (other_text places.now) 1 values.now) }
{
    for (at, value) in values.iter().enumerate() {
        match put_equal(b", ", places, at + 1, value, sink) {
            Ok(()) => {}
            Err(failed) => return Err(failed),
        }
    }
    Ok(())
}

/// Writes an input, the value of each place in order.
pub(crate) fn put_input<K: Sink>(
    places: &[Place],
    values: &[i64],
    sink: &mut K,
) -> Result<(), Failed>
    ensures { Puts K.held K.settled K.faults sink.old sink.new result (input_text places.now values.now) }
{
    match values.split_first() {
        None => put(sink, &[b"EMPTY"]),
        Some((first, others)) => {
            put_equal(b"", places, 0, first, sink)?;
            put_other_values(places, others, sink)
        }
    }
}

/// Writes the literal of a number; nothing where there is none.
fn put_literal_at<K: Sink>(
    places: &[Place],
    literals: &[LitForm],
    at: usize,
    sink: &mut K,
) -> Result<(), Failed>
    ensures { Puts K.held K.settled K.faults sink.old sink.new result (literal_at places.now literals.now at) }
{
    match literals.get(at) {
        None => Ok(()),
        Some(literal) => put_literal(places, literal, sink),
    }
}

fn put_verdict<K: Sink>(
    places: &[Place],
    literals: &[LitForm],
    verdict: &Verdict,
    sink: &mut K,
) -> Result<(), Failed>
    ensures { Puts K.held K.settled K.faults sink.old sink.new result (verdict_text places.now literals.now verdict.now) }
{
    match verdict {
        Verdict::Refuted => put(sink, &[b"FALSE"]),
        Verdict::Shown(values) => {
            put(sink, &[b"SHOWN "])?;
            put_input(places, values.as_slice(), sink)
        }
        Verdict::Open(at) => {
            put(sink, &[b"OPEN "])?;
            put_literal_at(places, literals, *at, sink)
        }
    }
}

fn put_threat<K: Sink>(
    places: &[Place],
    number: usize,
    threat: &Threat,
    sink: &mut K,
) -> Result<(), Failed>
    ensures { Puts K.held K.settled K.faults sink.old sink.new result (threat_text places.now number threat.now) }
{
    put_numbered(b"THREAT ", number, threat.path.as_slice(), sink)?;
    put_halt(b" STOP ", &threat.stop, b" ", sink)?;
    put_verdict(places, threat.literals.as_slice(), &threat.verdict, sink)?;
    put(sink, &[b"\n"])
}

/// Writes the threats that stand behind so many other ones.
fn put_each_threat<K: Sink>(
    places: &[Place],
    before: usize,
    threats: &[Threat],
    sink: &mut K,
) -> Result<(), Failed>
    requires { before + length threats.now < 2 ^ 64 }
    ensures { Puts K.held K.settled K.faults sink.old sink.new result (numbered (threat_text places.now) (before + 1) threats.now) }
{
    for (at, threat) in threats.iter().enumerate() {
        match put_threat(places, before + at + 1, threat, sink) {
            Ok(()) => {}
            Err(failed) => return Err(failed),
        }
    }
    Ok(())
}

/// How many threats stand next that are of the region of line `pc`.
fn count_here(pc: usize, threats: &[Threat]) -> usize
    ensures { result ≡ count_here pc threats.now }
{
    threats
        .iter()
        .take_while(|threat| threat.region == pc)
        .count()
}

/// Writes the line of a region, and its threats, which stand behind so many other ones.
fn put_region<K: Sink>(
    places: &[Place],
    table: &RegionTable,
    before: usize,
    threats: &[Threat],
    sink: &mut K,
) -> Result<(), Failed>
    requires { before + length threats.now < 2 ^ 64 }
    ensures { Puts K.held K.settled K.faults sink.old sink.new result (region_text table.now ++ numbered (threat_text places.now) (before + 1) threats.now) }
{
    put_region_line(table, sink)?;
    put_each_threat(places, before, threats, sink)
}

/// Writes the regions with their threats, and what is left behind the last one. Each threat is looked at once.
fn put_regions<K: Sink>(
    places: &[Place],
    tables: &[RegionTable],
    threats: &[Threat],
    sink: &mut K,
) -> Result<(), Failed>
    ensures { Puts K.held K.settled K.faults sink.old sink.new result (regions_text places.now 0 tables.now threats.now) }
{
    let mut before = 0;
    for table in tables {
        let end = before + count_here(table.pc, &threats[before..]);
        match put_region(places, table, before, &threats[before..end], sink) {
            Ok(()) => {}
            Err(failed) => return Err(failed),
        }
        before = end;
    }
    put_each_threat(places, before, &threats[before..], sink)
}

fn is_refuted(verdict: &Verdict) -> bool
    ensures { result ≡ is_refuted verdict.now }
{
    matches!(verdict, Verdict::Refuted)
}

fn is_shown(verdict: &Verdict) -> bool
    ensures { result ≡ is_shown verdict.now }
{
    matches!(verdict, Verdict::Shown(_))
}

fn is_open(verdict: &Verdict) -> bool
    ensures { result ≡ is_open verdict.now }
{
    matches!(verdict, Verdict::Open(_))
}

fn is_past(table: &RegionTable) -> bool
    ensures { result ≡ is_past table.now }
{
    matches!(table.body, TableOr::Past(_))
}

fn refuted_count(threats: &[Threat]) -> usize
    ensures { result ≡ count_by (λ t. is_refuted t.verdict) threats.now }
{
    threats
        .iter()
        .filter(|threat| is_refuted(&threat.verdict))
        .count()
}

fn shown_count(threats: &[Threat]) -> usize
    ensures { result ≡ count_by (λ t. is_shown t.verdict) threats.now }
{
    threats
        .iter()
        .filter(|threat| is_shown(&threat.verdict))
        .count()
}

fn open_count(threats: &[Threat]) -> usize
    ensures { result ≡ count_by (λ t. is_open t.verdict) threats.now }
{
    threats
        .iter()
        .filter(|threat| is_open(&threat.verdict))
        .count()
}

fn past_count(tables: &[RegionTable]) -> usize
    ensures { result ≡ count_by is_past tables.now }
{
    tables.iter().filter(|table| is_past(table)).count()
}

/// Writes the last line of the section: how many threats there are, how many of each verdict, and how many regions are
/// past their size.
#[tactic(auto, unfolding(crate::specs::Threats::counts_text))]
fn put_counts<K: Sink>(
    tables: &[RegionTable],
    threats: &[Threat],
    sink: &mut K,
) -> Result<(), Failed>
    ensures { Puts K.held K.settled K.faults sink.old sink.new result (counts_text tables.now threats.now) }
{
    let mut all = Buffer::new();
    let mut refuted = Buffer::new();
    let mut shown = Buffer::new();
    let mut open = Buffer::new();
    let mut past = Buffer::new();
    put(
        sink,
        &[
            b"THREATS ",
            all.format(threats.len()).as_bytes(),
            b" FALSE ",
            refuted.format(refuted_count(threats)).as_bytes(),
            b" SHOWN ",
            shown.format(shown_count(threats)).as_bytes(),
            b" OPEN ",
            open.format(open_count(threats)).as_bytes(),
            b" PAST ",
            past.format(past_count(tables)).as_bytes(),
            b"\n",
        ],
    )
}

/// Writes the section on threats: for each region its line and its threats, and the last line. `Failed` comes only where
/// the sink's count of faults rose in this call, and then a prefix of the section was written. It costs time linear in
/// the threats and the text.
pub(crate) fn put_threats<K: Sink>(
    places: &[Place],
    tables: &[RegionTable],
    threats: &[Threat],
    sink: &mut K,
) -> Result<(), Failed>
    ensures { Puts K.held K.settled K.faults sink.old sink.new result (threats_text places.now tables.now threats.now) }
{
    put(sink, &[b"COMPLIANCE\n"])?;
    put_regions(places, tables, threats, sink)?;
    put_counts(tables, threats, sink)
}
