//! Certificates that are read, with what their lines give.

use cert_text::read_certs;
use il_core::{Cert, Item, List, Name, NamedCert, Share};
use std::alloc::Global;
use std::test::Fail;

/// Texts, and how many certificates stand in them.
const NUMBERS: &[(&str, usize)] = &[
    ("", 0),
    ("CERT p 0\nSUM\nUP 0 1\nEND\n", 1),
    ("CERT p 16384000\nSUM\nUP 16384000 65536\nEND\n", 1),
    (
        "CERT p 1\nSUM\nUP 0 1\nUP 0 1\nEND\nCERT q_1 1\nSUM\nNEVER 7 2\nEND\n",
        2,
    ),
    (
        "CERT p 1\nSUM\nUP 0 1\nEND\nCERT p 1\nSUM\nUP 0 1\nEND\nCERT p 1\nSUM\nUP 0 1\nEND\n",
        3,
    ),
    (
        "CERT p 3\nSPLIT 3\nSUM\nUP 3 1\nDOWN 1 1\nDOWN 2 1\nEND\nSUM\nDOWN 3 1\nUP 1 1\nUP 2 1\nEND\n",
        1,
    ),
];

/// The certificates of a text for the procedures `p` and `q_1`.
fn read(alloc: Global, text: &[u8]) -> Result<List<NamedCert>, Fail> {
    let names = [
        Name::new(b"p").ok_or("no name")?,
        Name::new(b"q_1").ok_or("no name")?,
    ];
    if text.len() > 1_048_576 {
        return Err("too long".into());
    }
    match read_certs(alloc, text, 0, &names) {
        Ok(certs) => Ok(certs),
        Err(_) => Err("not read".into()),
    }
}

#[test]
fn reads_certificates(rt: HostRuntime) -> Result<(), Fail> {
    for (text, number) in NUMBERS {
        assert!(rt;
            read(rt.alloc(), text.as_bytes())?.len() == *number,
            "{text}"
        );
    }
    Ok(())
}

/// Whether a certificate is a sum of these shares.
fn is_sum(cert: &Cert, shares: &[Share]) -> bool {
    match cert {
        Cert::Sum(found) => found.as_slice() == shares,
        Cert::Split(_, _, _) => false,
    }
}

fn share(item: Item, times: u32) -> Share {
    Share { item, times }
}

#[test]
fn reads_what_the_lines_give(rt: HostRuntime) -> Result<(), Fail> {
    let text =
        b"CERT q_1 12\nSPLIT 5\nSUM\nUP 0 1\nDOWN 1 2\nNEVER 2 3\nLOW 3 4\nEND\nSUM\nHIGH 4 5\nOLDUP 5 6\nOLDDOWN 6 7\nEND\n";
    let certs = read(rt.alloc(), text)?;
    let cert = certs.get(0).ok_or("no certificate")?;
    assert!(rt; cert.procedure.as_bytes() == b"q_1".as_slice() && cert.threat == 12);
    let lows = [
        share(Item::Up(0), 1),
        share(Item::Down(1), 2),
        share(Item::Never(2), 3),
        share(Item::Low(3), 4),
    ];
    let highs = [
        share(Item::High(4), 5),
        share(Item::OldUp(5), 6),
        share(Item::OldDown(6), 7),
    ];
    match &cert.body {
        Cert::Split(literal, low, high) => {
            assert!(rt; *literal == 5 && is_sum(low, &lows) && is_sum(high, &highs));
        }
        Cert::Sum(_) => assert!(rt; false),
    }
    Ok(())
}

/// The lines of a sum of one share.
const SUM: &[u8] = b"SUM\nUP 0 1\nEND\n";

/// So many splits inside one another, each first side going on, with a sum at each end.
fn nested(alloc: Global, depth: usize) -> Result<Vec<u8>, Fail> {
    let mut text = Vec::from_slice(alloc, b"CERT p 1\n")?;
    for _ in 0..depth {
        text.extend_from_slice(b"SPLIT 0\n")?;
    }
    text.extend_from_slice(SUM)?;
    for _ in 0..depth {
        text.extend_from_slice(SUM)?;
    }
    Ok(text)
}

#[test]
fn reads_what_is_just_allowed(rt: HostRuntime) -> Result<(), Fail> {
    assert!(rt; read(rt.alloc(), nested(rt.alloc(), 16)?.as_slice())?.len() == 1);
    let mut shares = Vec::from_slice(rt.alloc(), b"CERT p 1\nSUM\n")?;
    for _ in 0..128 {
        shares.extend_from_slice(b"UP 0 1\n")?;
    }
    shares.extend_from_slice(b"END\n")?;
    assert!(rt; read(rt.alloc(), shares.as_slice())?.len() == 1);
    Ok(())
}
