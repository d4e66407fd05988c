ghost use Rattle.std.specs.Prelude.{◌≡◌, ◌+◌, ◌≤◌, length, IfOk, MatchOption};
ghost use Rattle.std.specs.List.{Contains};
ghost use Rattle.il_core.specs.Certificate.{split, certificate_of};
ghost use Rattle.cert_text.specs.Reading.{CertsGive};
ghost use Rattle.cert_text.specs.Progress.{SharesGive, BodyGives, HeadIs, AllGive};

use crate::line::{Line, next_line};
use il_core::{Cert, Code, List, Name, NamedCert, NoMemory, Refusal, Share, TextEnd};
use std::alloc::Global;

/// How many splits may stand inside one another.
const NESTING_LIMIT: usize = 16;

/// How many shares a sum may have.
const SHARE_LIMIT: usize = 128;

/// Why lines gave no certificate.
#[derive(Clone, Copy)]
pub(crate) enum LinesEnd {
    /// So many bytes are left at the first line that cannot stand where it does.
    Bad(usize),
    /// Memory ran out.
    NoMemory,
}

impl From<NoMemory> for LinesEnd {
    ghost use Rattle.std.specs.Prelude.{◌≡◌};
    ghost use Rattle.cert_text.specs.declared.reading.LinesEnd.TheVariants as end;

    ghost from_gives = { λ _ e. e ≡ end.NoMemory };

    fn from(_error: NoMemory) -> LinesEnd {
        LinesEnd::NoMemory
    }
}

/// The shares of a sum up to its end, and what stands behind it.
fn read_shares(alloc: Global, text: &[u8]) -> Result<(List<Share>, &[u8]), LinesEnd>
    ensures { SharesGive text.now result }
{
    let mut shares = List::new(alloc);
    let mut rest = text;
    'lines: loop {
        let Some((line, behind)) = next_line(rest) else {
            return Err(LinesEnd::Bad(rest.len()));
        };
        match line {
            Line::Share(share) => {
                if shares.len() >= SHARE_LIMIT {
                    return Err(LinesEnd::Bad(rest.len()));
                }
                shares.push(share)?;
                rest = behind;
            }
            Line::End => {
                if shares.is_empty() {
                    return Err(LinesEnd::Bad(rest.len()));
                }
                return Ok((shares, behind));
            }
            _ => return Err(LinesEnd::Bad(rest.len())),
        }
    }
}

/// A split of two certificates.
fn split(alloc: Global, literal: usize, low: Cert, high: Cert) -> Result<Cert, NoMemory>
    ensures { IfOk result (λ cert. certificate_of cert ≡ split literal (certificate_of low) (certificate_of high)) }
{
    let low = Box::new(alloc, low)?;
    let high = Box::new(alloc, high)?;
    Ok(Cert::Split(literal, low, high))
}

/// A certificate with at most `room` splits inside one another, and what stands behind it.
fn read_body(alloc: Global, room: usize, text: &[u8]) -> Result<(Cert, &[u8]), LinesEnd>
    ensures { BodyGives room text.now result }
{
    let Some((line, behind)) = next_line(text) else {
        return Err(LinesEnd::Bad(text.len()));
    };
    match line {
        Line::Sum => match read_shares(alloc, behind) {
            Ok((shares, rest)) => Ok((Cert::Sum(shares), rest)),
            Err(end) => Err(end),
        },
        Line::Split(literal) => {
            if room == 0 {
                return Err(LinesEnd::Bad(text.len()));
            }
            match read_body(alloc, room - 1, behind) {
                Ok((low, between)) => match read_body(alloc, room - 1, between) {
                    Ok((high, rest)) => Ok((split(alloc, literal, low, high)?, rest)),
                    Err(end) => Err(end),
                },
                Err(end) => Err(end),
            }
        }
        _ => Err(LinesEnd::Bad(text.len())),
    }
}

/// The procedure, where it is one of these.
fn known(procedure: Name, names: &[Name]) -> Option<Name>
    ensures { MatchOption result (¬ (Contains names.now procedure)) (λ name. (name ≡ procedure) × Contains names.now procedure) }
{
    if names.contains(&procedure) {
        Some(procedure)
    } else {
        None
    }
}

/// The first line of a certificate, and what stands behind it.
#[derive(Drop)]
struct Head<'a> {
    procedure: Name,
    threat: usize,
    behind: &'a [u8],
}

/// The first line of a certificate for one of these procedures.
fn next_head<'a>(text: &'a [u8], names: &[Name]) -> Option<Head<'a>>
    ensures { HeadIs names.now text.now result }
{
    match next_line(text) {
        Some((line, behind)) => match line {
            Line::Head(procedure, threat) => match known(procedure, names) {
                Some(procedure) => Some(Head {
                    procedure,
                    threat,
                    behind,
                }),
                None => None,
            },
            _ => None,
        },
        None => None,
    }
}

/// All certificates of a text.
fn read_all(alloc: Global, text: &[u8], names: &[Name]) -> Result<List<NamedCert>, LinesEnd>
    ensures { AllGive names.now text.now result }
{
    let mut certs = List::new(alloc);
    let mut rest = text;
    while !rest.is_empty() {
        let Some(head) = next_head(rest, names) else {
            return Err(LinesEnd::Bad(rest.len()));
        };
        match read_body(alloc, NESTING_LIMIT, head.behind) {
            Ok((body, after)) => {
                certs.push(NamedCert {
                    procedure: head.procedure,
                    threat: head.threat,
                    body,
                })?;
                rest = after;
            }
            Err(end) => return Err(end),
        }
    }
    Ok(certs)
}

/// The certificates that stand in `bytes`, in order, each for a procedure of `names`; `bytes` begin `offset` bytes
/// behind the front of their input.
///
/// The input has 1,048,576 bytes at most. `Refused` comes exactly where the bytes are no certificates, with
/// `Code::BadCertificate` and no name, at the first byte of the first line that cannot stand where it does, or names
/// none of `names`, or at the end of the bytes where lines are missing. `NoMemory` is the only free answer.
pub fn read_certs(
    alloc: Global,
    bytes: &[u8],
    offset: usize,
    names: &[Name],
) -> Result<List<NamedCert>, TextEnd>
    requires { offset + length bytes.now ≤ 1048576 }
    ensures { CertsGive names.now bytes.now offset result }
{
    match read_all(alloc, bytes, names) {
        Ok(certs) => Ok(certs),
        Err(LinesEnd::Bad(left)) => Err(TextEnd::Refused(Refusal {
            code: Code::BadCertificate,
            place: offset + (bytes.len() - left),
            name: None,
        })),
        Err(LinesEnd::NoMemory) => Err(TextEnd::NoMemory),
    }
}
