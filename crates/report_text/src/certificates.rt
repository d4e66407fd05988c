//! The section on certificates.
ghost use Rattle.std.specs.Prelude.{◌≡◌};
ghost use Rattle.std.specs.List.{flat_map};
ghost use Rattle.form_text.specs.Pieces.{Puts};
ghost use Rattle.report_text.specs.Certificates.{certificates_text, held_text, read_text};

use crate::cert_lines::put_certs;
use form_text::put;
use il_core::NamedCert;
use il_edge::{Failed, Sink};
use itoa::Buffer;
use report::CertRow;

fn words_of(holds: &bool) -> &[u8]
    ensures { result.now ≡ held_text holds.now }
{
    if *holds { b" HOLDS\n" } else { b" FAILS\n" }
}

/// Writes the line of a certificate that was read.
#[tactic(auto, unfolding(crate::specs::Certificates::read_text))]
fn put_row<K: Sink>(row: &CertRow, sink: &mut K) -> Result<(), Failed>
    ensures { Puts K.held K.settled K.faults sink.old sink.new result (read_text row.now) }
{
    let mut threat = Buffer::new();
    put(
        sink,
        &[
            b"READ ",
            threat.format(row.threat).as_bytes(),
            words_of(&row.holds),
        ],
    )
}

fn put_rows<K: Sink>(rows: &[CertRow], sink: &mut K) -> Result<(), Failed>
    ensures { Puts K.held K.settled K.faults sink.old sink.new result (flat_map read_text rows.now) }
{
    for row in rows {
        match put_row(row, sink) {
            Ok(()) => {}
            Err(failed) => return Err(failed),
        }
    }
    Ok(())
}

/// Writes the section on certificates: a line for each that was read, which says whether it holds, and behind them the
/// certificates that were made, in the lines in which certificates are read. `Failed` comes only where the sink's count
/// of faults rose in this call, and then a prefix of the section was written. It costs time linear in the text, and calls
/// itself as deep as the splits of a certificate stand inside one another.
pub(crate) fn put_certificates<K: Sink>(
    rows: &[CertRow],
    made: &[NamedCert],
    sink: &mut K,
) -> Result<(), Failed>
    ensures { Puts K.held K.settled K.faults sink.old sink.new result (certificates_text rows.now made.now) }
{
    put(sink, &[b"CERTIFICATES\n"])?;
    put_rows(rows, sink)?;
    put_certs(made, sink)
}
