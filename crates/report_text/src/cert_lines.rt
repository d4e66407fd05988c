//! Certificates in the lines in which they are read.
ghost use Rattle.std.specs.Prelude.{◌≡◌, ◌++◌, codes, map};
ghost use Rattle.std.specs.List.{flat_map};
ghost use Rattle.il_core.specs.Certificate.{certificate_of, sum};
ghost use Rattle.cert_text.specs.declared.line.Line.TheVariants as lines;
ghost use Rattle.cert_text.specs.Line.{item_index, item_word, spelling, text_of};
ghost use Rattle.cert_text.specs.Text.{body_lines, cert_lines, certs_text, named_of};
ghost use Rattle.form_text.specs.Pieces.{Puts};

use form_text::put;
use il_core::{Cert, Item, Name, NamedCert, Share};
use il_edge::{Failed, Sink};
use itoa::Buffer;

/// The word of an item.
fn word_of(item: &Item) -> &[u8]
    ensures { result.now ≡ item_word item.now }
{
    match item {
        Item::Up(_) => b"UP",
        Item::Down(_) => b"DOWN",
        Item::Never(_) => b"NEVER",
        Item::Low(_) => b"LOW",
        Item::High(_) => b"HIGH",
        Item::OldUp(_) => b"OLDUP",
        Item::OldDown(_) => b"OLDDOWN",
    }
}

/// The number of the literal or place that an item counts.
fn index_of(item: &Item) -> usize
    ensures { result ≡ item_index item.now }
{
    match item {
        Item::Up(at) | Item::Down(at) | Item::Never(at) => *at,
        Item::Low(at) | Item::High(at) | Item::OldUp(at) | Item::OldDown(at) => *at,
    }
}

/// Writes the line of a share.
fn put_share<K: Sink>(share: &Share, sink: &mut K) -> Result<(), Failed>
    ensures { Puts K.held K.settled K.faults sink.old sink.new result (spelling (lines.Share share.now) ++ codes "\n") }
{
    let mut index = Buffer::new();
    let mut times = Buffer::new();
    put(
        sink,
        &[
            word_of(&share.item),
            b" ",
            index.format(index_of(&share.item)).as_bytes(),
            b" ",
            times.format(share.times).as_bytes(),
            b"\n",
        ],
    )
}

fn put_shares<K: Sink>(shares: &[Share], sink: &mut K) -> Result<(), Failed>
    ensures { Puts K.held K.settled K.faults sink.old sink.new result (flat_map (λ share. spelling (lines.Share share) ++ codes "\n") shares.now) }
{
    for share in shares {
        match put_share(share, sink) {
            Ok(()) => {}
            Err(failed) => return Err(failed),
        }
    }
    Ok(())
}

/// Writes the lines of a sum.
fn put_sum<K: Sink>(shares: &[Share], sink: &mut K) -> Result<(), Failed>
    ensures { Puts K.held K.settled K.faults sink.old sink.new result (text_of (body_lines (sum shares.now))) }
{
    put(sink, &[b"SUM\n"])?;
    put_shares(shares, sink)?;
    put(sink, &[b"END\n"])
}

/// Writes the line of a split.
fn put_split<K: Sink>(literal: usize, sink: &mut K) -> Result<(), Failed>
    ensures { Puts K.held K.settled K.faults sink.old sink.new result (spelling (lines.Split literal) ++ codes "\n") }
{
    let mut digits = Buffer::new();
    put(sink, &[b"SPLIT ", digits.format(literal).as_bytes(), b"\n"])
}

/// Writes the lines of a certificate's body. It calls itself as deep as splits stand inside one another.
fn put_body<K: Sink>(cert: &Cert, sink: &mut K) -> Result<(), Failed>
    ensures { Puts K.held K.settled K.faults sink.old sink.new result (text_of (body_lines (certificate_of cert.now))) }
{
    match cert {
        Cert::Sum(shares) => put_sum(shares.as_slice(), sink),
        Cert::Split(literal, low, high) => {
            put_split(*literal, sink)?;
            put_body(low, sink)?;
            put_body(high, sink)
        }
    }
}

/// Writes the line that names the procedure and the threat of a certificate.
fn put_head<K: Sink>(procedure: &Name, threat: usize, sink: &mut K) -> Result<(), Failed>
    ensures { Puts K.held K.settled K.faults sink.old sink.new result (spelling (lines.Head procedure.now threat) ++ codes "\n") }
{
    let mut digits = Buffer::new();
    put(
        sink,
        &[
            b"CERT ",
            procedure.as_bytes(),
            b" ",
            digits.format(threat).as_bytes(),
            b"\n",
        ],
    )
}

/// Writes the lines of a certificate.
fn put_cert<K: Sink>(cert: &NamedCert, sink: &mut K) -> Result<(), Failed>
    ensures { Puts K.held K.settled K.faults sink.old sink.new result (text_of (cert_lines (named_of cert.now))) }
{
    put_head(&cert.procedure, cert.threat, sink)?;
    put_body(&cert.body, sink)
}

fn put_each_cert<K: Sink>(certs: &[NamedCert], sink: &mut K) -> Result<(), Failed>
    ensures { Puts K.held K.settled K.faults sink.old sink.new result (flat_map (λ cert. text_of (cert_lines (named_of cert))) certs.now) }
{
    for cert in certs {
        match put_cert(cert, sink) {
            Ok(()) => {}
            Err(failed) => return Err(failed),
        }
    }
    Ok(())
}

/// Writes certificates, one behind the other, in the lines in which they are read. It calls itself as deep as the splits
/// of a certificate stand inside one another.
pub(crate) fn put_certs<K: Sink>(certs: &[NamedCert], sink: &mut K) -> Result<(), Failed>
    ensures { Puts K.held K.settled K.faults sink.old sink.new result (certs_text (map named_of certs.now)) }
{
    put_each_cert(certs, sink)
}
