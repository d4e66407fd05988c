//! The lines of the listing.
ghost use Rattle.std.specs.Prelude.{◌≡◌, ◌<◌, ◌^◌, ◌++◌, codes, decimal, length};
ghost use Rattle.std.specs.Fmt.{signed_decimal};
ghost use Rattle.std.specs.List.{flat_map};
ghost use Rattle.form_text.specs.Lists.{numbered};
ghost use Rattle.form_text.specs.Pieces.{Puts};
ghost use Rattle.sym_simplify.specs.Literal.{literal_form_of};
ghost use Rattle.report_text.specs.Threats.{is_open};
ghost use Rattle.malpas_literals.specs.Listing.{listing_text, literal_line, literal_start, open_lines, place_line, procedure_lines, said_by, threat_line, threat_lines, threats_lines};

use crate::threats::Threatened;
use compliance::{Threat, Verdict};
use form_text::{put, put_literal, put_place};
use il_core::{List, Name, Place};
use il_edge::{Failed, Sink};
use itoa::Buffer;
use sym_simplify::LitForm;

/// Writes the number of a place.
fn put_place_number<K: Sink>(number: usize, sink: &mut K) -> Result<(), Failed>
    ensures { Puts K.held K.settled K.faults sink.old sink.new result (codes "PLACE " ++ decimal number) }
{
    let mut digits = Buffer::new();
    put(sink, &[b"PLACE ", digits.format(number).as_bytes()])
}

/// Writes an end of a place's range.
fn put_end<K: Sink>(value: &i64, sink: &mut K) -> Result<(), Failed>
    ensures { Puts K.held K.settled K.faults sink.old sink.new result (codes " " ++ signed_decimal value.now) }
{
    let mut digits = Buffer::new();
    put(sink, &[b" ", digits.format(*value).as_bytes()])
}

/// Writes the line of the place `at`.
fn put_place_line<K: Sink>(
    places: &[Place],
    at: usize,
    place: &Place,
    sink: &mut K,
) -> Result<(), Failed>
    ensures { Puts K.held K.settled K.faults sink.old sink.new result (place_line places.now at place.now) }
{
    put_place_number(at, sink)?;
    put_end(&place.least, sink)?;
    put_end(&place.greatest, sink)?;
    put_place(b" ", places, at, sink)?;
    put(sink, &[b"\n"])
}

fn put_places<K: Sink>(places: &[Place], sink: &mut K) -> Result<(), Failed>
    ensures { Puts K.held K.settled K.faults sink.old sink.new result (numbered (place_line places.now) 0 places.now) }
{
    for (at, place) in places.iter().enumerate() {
        match put_place_line(places, at, place, sink) {
            Ok(()) => {}
            Err(failed) => return Err(failed),
        }
    }
    Ok(())
}

/// Writes what a literal says.
fn put_said<K: Sink>(places: &[Place], literal: &LitForm, sink: &mut K) -> Result<(), Failed>
    ensures { Puts K.held K.settled K.faults sink.old sink.new result (said_by places.now (literal_form_of literal.now)) }
{
    match literal {
        LitForm::Always => put(sink, &[b"ALWAYS"]),
        LitForm::Never => put(sink, &[b"NEVER"]),
        LitForm::Keep(_) => put_literal(places, literal, sink),
    }
}

/// Writes what stands before a literal in its line.
fn put_literal_start<K: Sink>(number: usize, sink: &mut K) -> Result<(), Failed>
    ensures { Puts K.held K.settled K.faults sink.old sink.new result (literal_start number) }
{
    let mut digits = Buffer::new();
    put(sink, &[b"LITERAL ", digits.format(number).as_bytes(), b" "])
}

fn put_literal_line<K: Sink>(
    places: &[Place],
    number: usize,
    literal: &LitForm,
    sink: &mut K,
) -> Result<(), Failed>
    ensures { Puts K.held K.settled K.faults sink.old sink.new result (literal_line places.now number literal.now) }
{
    put_literal_start(number, sink)?;
    put_said(places, literal, sink)?;
    put(sink, &[b"\n"])
}

fn put_literals<K: Sink>(places: &[Place], literals: &[LitForm], sink: &mut K) -> Result<(), Failed>
    ensures { Puts K.held K.settled K.faults sink.old sink.new result (numbered (literal_line places.now) 0 literals.now) }
{
    for (at, literal) in literals.iter().enumerate() {
        match put_literal_line(places, at, literal, sink) {
            Ok(()) => {}
            Err(failed) => return Err(failed),
        }
    }
    Ok(())
}

fn put_threat_line<K: Sink>(number: usize, region: usize, sink: &mut K) -> Result<(), Failed>
    ensures { Puts K.held K.settled K.faults sink.old sink.new result (threat_line number region) }
{
    let mut digits = Buffer::new();
    let mut line = Buffer::new();
    put(
        sink,
        &[
            b"THREAT ",
            digits.format(number).as_bytes(),
            b" REGION L",
            line.format(region).as_bytes(),
            b"\n",
        ],
    )
}

fn is_open(verdict: &Verdict) -> bool
    ensures { result ≡ is_open verdict.now }
{
    matches!(verdict, Verdict::Open(_))
}

/// Writes a threat with its literals.
fn put_open<K: Sink>(
    places: &[Place],
    number: usize,
    threat: &Threat,
    sink: &mut K,
) -> Result<(), Failed>
    ensures { Puts K.held K.settled K.faults sink.old sink.new result (open_lines places.now number threat.now) }
{
    put_threat_line(number, threat.region, sink)?;
    put_literals(places, threat.literals.as_slice(), sink)
}

/// Writes a threat with its literals, where it is open.
fn put_threat<K: Sink>(
    places: &[Place],
    number: usize,
    threat: &Threat,
    sink: &mut K,
) -> Result<(), Failed>
    ensures { Puts K.held K.settled K.faults sink.old sink.new result (threat_lines places.now number threat.now) }
{
    if is_open(&threat.verdict) {
        put_open(places, number, threat, sink)
    } else {
        Ok(())
    }
}

fn put_told<K: Sink>(places: &[Place], threats: &[Threat], sink: &mut K) -> Result<(), Failed>
    requires { length threats.now < 2 ^ 63 }
    ensures { Puts K.held K.settled K.faults sink.old sink.new result (numbered (threat_lines places.now) 1 threats.now) }
{
    for (at, threat) in threats.iter().enumerate() {
        match put_threat(places, at + 1, threat, sink) {
            Ok(()) => {}
            Err(failed) => return Err(failed),
        }
    }
    Ok(())
}

/// Writes the open threats, or that none are told.
fn put_threats<K: Sink>(
    places: &[Place],
    threats: &Option<List<Threat>>,
    sink: &mut K,
) -> Result<(), Failed>
    ensures { Puts K.held K.settled K.faults sink.old sink.new result (threats_lines places.now threats.now) }
{
    match threats {
        None => put(sink, &[b"IRREDUCIBLE\n"]),
        Some(told) => put_told(places, told.as_slice(), sink),
    }
}

fn put_name<K: Sink>(name: &Name, sink: &mut K) -> Result<(), Failed>
    ensures { Puts K.held K.settled K.faults sink.old sink.new result (codes "PROCEDURE " ++ name.now ++ codes "\n") }
{
    put(sink, &[b"PROCEDURE ", name.as_bytes(), b"\n"])
}

fn put_procedure<K: Sink>(procedure: &Threatened, sink: &mut K) -> Result<(), Failed>
    ensures { Puts K.held K.settled K.faults sink.old sink.new result (procedure_lines procedure.now) }
{
    let places = procedure.places.as_slice();
    put_name(&procedure.name, sink)?;
    put_places(places, sink)?;
    put_threats(places, &procedure.threats, sink)
}

fn put_procedures<K: Sink>(procedures: &[Threatened], sink: &mut K) -> Result<(), Failed>
    ensures { Puts K.held K.settled K.faults sink.old sink.new result (flat_map procedure_lines procedures.now) }
{
    for procedure in procedures {
        match put_procedure(procedure, sink) {
            Ok(()) => {}
            Err(failed) => return Err(failed),
        }
    }
    Ok(())
}

/// Writes the listing of procedures with their threats: for each its places, and its open threats with their literals.
/// `Failed` comes only where the sink's count of faults rose in this call, and then a prefix of the listing was written.
/// It takes no memory and costs time linear in the threats and the text.
pub(crate) fn put_listing<K: Sink>(procedures: &[Threatened], sink: &mut K) -> Result<(), Failed>
    ensures { Puts K.held K.settled K.faults sink.old sink.new result (listing_text procedures.now) }
{
    put(sink, &[b"MALPAS LITERALS 1\n"])?;
    put_procedures(procedures, sink)?;
    put(sink, &[b"END\n"])
}
