ghost use Rattle.std.specs.Prelude.{◌≡◌};
ghost use Rattle.std.specs.List.{list_all};
ghost use Rattle.report.specs.Status.{all_hold, are_clean, are_settled_from, are_within, is_certified, is_clean, is_reducible, is_refuted, is_settled, is_within, status_of};

use crate::report::{Analyses, CertRow, ProcReport, RegionTable, Report};
use compliance::{Threat, Verdict};
use control_flow::Shape;
use semantic_tables::TableOr;

fn is_reducible(shape: &Shape) -> bool
    ensures { result ≡ is_reducible shape.now }
{
    matches!(shape, Shape::Reducible)
}

fn is_within(body: &TableOr) -> bool
    ensures { result ≡ is_within body.now }
{
    matches!(body, TableOr::Table(_))
}

fn is_refuted(verdict: &Verdict) -> bool
    ensures { result ≡ is_refuted verdict.now }
{
    matches!(verdict, Verdict::Refuted)
}

fn are_within(tables: &[RegionTable]) -> bool
    ensures { result ≡ are_within tables.now }
{
    tables.iter().all(|table| is_within(&table.body))
}

/// Whether a certificate holds for the threat with this number.
fn is_certified(rows: &[CertRow], number: usize) -> bool
    ensures { result ≡ is_certified rows.now number }
{
    rows.iter().any(|row| row.holds && row.threat == number)
}

fn is_settled(rows: &[CertRow], number: usize, threat: &Threat) -> bool
    ensures { result ≡ is_settled rows.now number threat.now }
{
    is_refuted(&threat.verdict) || is_certified(rows, number)
}

/// Whether each threat is refuted or certified.
fn are_settled(rows: &[CertRow], threats: &[Threat]) -> bool
    ensures { result ≡ are_settled_from rows.now 1 threats.now }
{
    for (at, threat) in threats.iter().enumerate() {
        if !is_settled(rows, at + 1, threat) {
            return false;
        }
    }
    true
}

/// Whether no table is past its size and every threat is refuted or certified.
fn are_clean(rows: &[CertRow], analyses: &Option<Analyses>) -> bool
    ensures { result ≡ are_clean rows.now analyses.now }
{
    match analyses {
        None => true,
        Some(all) => {
            are_within(all.tables.as_slice()) && are_settled(rows, all.threats.as_slice())
        }
    }
}

fn all_hold(rows: &[CertRow]) -> bool
    ensures { result ≡ all_hold rows.now }
{
    rows.iter().all(|row| row.holds)
}

fn is_clean(part: &ProcReport) -> bool
    ensures { result ≡ is_clean part.now }
{
    let rows = part.certs.as_slice();
    is_reducible(&part.control.shape) && all_hold(rows) && are_clean(rows, &part.analyses)
}

fn all_clean(procs: &[ProcReport]) -> bool
    ensures { result ≡ list_all is_clean procs.now }
{
    procs.iter().all(|part| is_clean(part))
}

/// The status of a report: 0 exactly where every procedure is reducible, no table is past its size, every threat is
/// refuted or a certificate that was read holds for it, and every certificate that was read holds; else 1. It takes no
/// memory. The cost is linear in the number of procedures, tables, threats and rows of certificates, but that for each
/// threat that is not refuted the rows of its procedure are searched, up to the first threat that has none.
pub fn status_of(report: &Report) -> u8
    ensures { result ≡ status_of report.now }
{
    if all_clean(report.procs.as_slice()) {
        0
    } else {
        1
    }
}
