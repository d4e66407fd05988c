//! Certificates with a line that cannot stand where it does, and its place.

use cert_text::read_certs;
use il_core::{Code, Name, Refusal, TextEnd};
use std::alloc::Global;
use std::test::Fail;

/// How far behind the front of the input the certificates begin.
const OFFSET: usize = 100;

/// What begins some certificates, and what follows, whose first line cannot stand there, or is missing.
type Bad<'a> = (&'a str, &'a str);

/// Where a certificate is to begin.
const HEADS: &[Bad<'_>] = &[
    ("", "\n"),
    ("", "CERT p 1"),
    ("", "CERT p 1\r\n"),
    ("", "CERT p 1 \n"),
    ("", "CERT p 1 1\n"),
    ("", "CERT p\n"),
    ("", "CERT\n"),
    ("", "CERT  p 1\n"),
    ("", " CERT p 1\n"),
    ("", "CERT\tp 1\n"),
    ("", "cert p 1\n"),
    ("", "CERTS p 1\n"),
    ("", "CERT r 1\n"),
    ("", "CERT P 1\n"),
    ("", "CERT 9 1\n"),
    ("", "CERT  1\n"),
    ("", "CERT p 01\n"),
    ("", "CERT p 00\n"),
    ("", "CERT p +1\n"),
    ("", "CERT p -1\n"),
    ("", "CERT p x\n"),
    ("", "CERT p 16384001\n"),
    ("", "CERT p 99999999999999999999\n"),
    ("", "SUM\n"),
    ("", "SPLIT 0\n"),
    ("", "UP 0 1\n"),
    ("", "END\n"),
    ("", "%%\n"),
    ("CERT p 1\nSUM\nUP 0 1\nEND\n", "END\n"),
    ("CERT p 1\nSUM\nUP 0 1\nEND\n", "SUM\n"),
    ("CERT p 1\nSUM\nUP 0 1\nEND\n", "\n"),
    (
        "CERT p 1\nSUM\nUP 0 1\nEND\n",
        "CERT r 1\nSUM\nUP 0 1\nEND\n",
    ),
    ("CERT p 1\nSUM\nUP 0 1\nEND\n", "CERT q_1 1"),
];

/// Where a sum or a split is to begin.
const BODIES: &[Bad<'_>] = &[
    ("CERT p 1\n", ""),
    ("CERT p 1\n", "CERT p 1\n"),
    ("CERT p 1\n", "UP 0 1\n"),
    ("CERT p 1\n", "END\n"),
    ("CERT p 1\n", "SUM"),
    ("CERT p 1\n", "SUM \n"),
    ("CERT p 1\n", "SUM 1\n"),
    ("CERT p 1\n", "sum\n"),
    ("CERT p 1\n", "SPLIT\n"),
    ("CERT p 1\n", "SPLIT 0"),
    ("CERT p 1\n", "SPLIT  0\n"),
    ("CERT p 1\n", "SPLIT 00\n"),
    ("CERT p 1\n", "SPLIT 0 0\n"),
    ("CERT p 1\n", "SPLIT 16384001\n"),
    ("CERT p 1\nSPLIT 0\n", ""),
    ("CERT p 1\nSPLIT 0\n", "END\n"),
    ("CERT p 1\nSPLIT 0\nSUM\nUP 0 1\nEND\n", ""),
    ("CERT p 1\nSPLIT 0\nSUM\nUP 0 1\nEND\n", "END\n"),
    ("CERT p 1\nSPLIT 0\nSUM\nUP 0 1\nEND\n", "CERT p 2\n"),
];

/// Where a share or the end of a sum is to stand.
const SHARES: &[Bad<'_>] = &[
    ("CERT p 1\nSUM\n", ""),
    ("CERT p 1\nSUM\n", "END\n"),
    ("CERT p 1\nSUM\n", "SUM\n"),
    ("CERT p 1\nSUM\n", "SPLIT 0\n"),
    ("CERT p 1\nSUM\n", "CERT p 1\n"),
    ("CERT p 1\nSUM\n", "UP\n"),
    ("CERT p 1\nSUM\n", "UP 0\n"),
    ("CERT p 1\nSUM\n", "UP 0 \n"),
    ("CERT p 1\nSUM\n", "UP 0 0\n"),
    ("CERT p 1\nSUM\n", "UP 0 65537\n"),
    ("CERT p 1\nSUM\n", "UP 0 01\n"),
    ("CERT p 1\nSUM\n", "UP 00 1\n"),
    ("CERT p 1\nSUM\n", "UP 0  1\n"),
    ("CERT p 1\nSUM\n", "UP 0 1 \n"),
    ("CERT p 1\nSUM\n", "UP 0 1 1\n"),
    ("CERT p 1\nSUM\n", "UP 0 1\r\n"),
    ("CERT p 1\nSUM\n", "UP 0 1"),
    ("CERT p 1\nSUM\n", "UP 16384001 1\n"),
    ("CERT p 1\nSUM\n", "up 0 1\n"),
    ("CERT p 1\nSUM\n", "UPS 0 1\n"),
    ("CERT p 1\nSUM\n", "OLD 0 1\n"),
    ("CERT p 1\nSUM\nUP 0 1\n", ""),
    ("CERT p 1\nSUM\nUP 0 1\n", "END"),
    ("CERT p 1\nSUM\nUP 0 1\n", "END \n"),
    ("CERT p 1\nSUM\nUP 0 1\n", "CERT p 2\n"),
    ("CERT p 1\nSUM\nUP 0 1\n", "DOWN 0 65537\n"),
];

fn is_bad_at(alloc: Global, text: &[u8], place: usize) -> Result<bool, Fail> {
    let names = [
        Name::new(b"p").ok_or("no name")?,
        Name::new(b"q_1").ok_or("no name")?,
    ];
    if text.len() > 1_000_000 {
        return Err("too long".into());
    }
    match read_certs(alloc, text, OFFSET, &names) {
        Err(
            TextEnd::Refused(
                Refusal {
                    code: Code::BadCertificate,
                    place: told,
                    name: None,
                },
            ),
        ) => Ok(told.checked_sub(OFFSET) == Some(place)),
        _ => Ok(false),
    }
}

fn are_bad(alloc: Global, cases: &[Bad<'_>]) -> Result<bool, Fail> {
    let mut all = true;
    for (front, rest) in cases {
        let mut text = Vec::new(alloc);
        text.extend_from_slice(front.as_bytes())?;
        text.extend_from_slice(rest.as_bytes())?;
        all = is_bad_at(alloc, text.as_slice(), front.len())? && all;
    }
    Ok(all)
}

#[test]
fn refuses_other_heads(rt: HostRuntime) -> Result<(), Fail> {
    assert!(rt; are_bad(rt.alloc(), HEADS)?);
    Ok(())
}

#[test]
fn refuses_other_bodies(rt: HostRuntime) -> Result<(), Fail> {
    assert!(rt; are_bad(rt.alloc(), BODIES)?);
    Ok(())
}

#[test]
fn refuses_other_shares(rt: HostRuntime) -> Result<(), Fail> {
    assert!(rt; are_bad(rt.alloc(), SHARES)?);
    Ok(())
}

/// A line so many times behind a front.
fn repeated(alloc: Global, front: &[u8], line: &[u8], count: usize) -> Result<Vec<u8>, Fail> {
    let mut text = Vec::from_slice(alloc, front)?;
    for _ in 0..count {
        text.extend_from_slice(line)?;
    }
    Ok(text)
}

#[test]
fn refuses_the_split_and_the_share_that_are_too_many(rt: HostRuntime) -> Result<(), Fail> {
    let splits = repeated(rt.alloc(), b"CERT p 1\n", b"SPLIT 0\n", 17)?;
    assert!(rt; is_bad_at(rt.alloc(), splits.as_slice(), 9 + 16 * 8)?);
    let open = repeated(rt.alloc(), b"CERT p 1\n", b"SPLIT 0\n", 16)?;
    assert!(rt; is_bad_at(rt.alloc(), open.as_slice(), 9 + 16 * 8)?);
    let shares = repeated(rt.alloc(), b"CERT p 1\nSUM\n", b"UP 0 1\n", 129)?;
    assert!(rt; is_bad_at(rt.alloc(), shares.as_slice(), 13 + 128 * 7)?);
    let unended = repeated(rt.alloc(), b"CERT p 1\nSUM\n", b"UP 0 1\n", 128)?;
    assert!(rt; is_bad_at(rt.alloc(), unended.as_slice(), 13 + 128 * 7)?);
    Ok(())
}
