ghost use Rattle.std.specs.Prelude.{◌≡◌, count_by, sum_by};
ghost use Rattle.report.specs.Status.{is_refuted};
ghost use Rattle.summary_text.specs.Summary.{capped, counts_of, is_open, is_shown, more, past_in, rows_in, tables_of, threats_of};

use compliance::{Threat, Verdict};
use report::{ProcReport, RegionTable};
use semantic_tables::TableOr;

/// The numbers of a summary, each at most a `u64`'s last, at which it stops.
#[derive(Clone, Copy)]
pub(crate) struct Counts {
    pub(crate) lines: u64,
    pub(crate) regions: u64,
    pub(crate) rows: u64,
    pub(crate) threats: u64,
    pub(crate) refuted: u64,
    pub(crate) shown: u64,
    pub(crate) left_open: u64,
    pub(crate) past: u64,
}

const NONE: Counts = Counts {
    lines: 0,
    regions: 0,
    rows: 0,
    threats: 0,
    refuted: 0,
    shown: 0,
    left_open: 0,
    past: 0,
};

/// The tables of a procedure; one that is not reducible has none.
fn tables_of(part: &ProcReport) -> &[RegionTable]
    ensures { result.now ≡ tables_of part.now }
{
    match &part.analyses {
        None => &[],
        Some(all) => all.tables.as_slice(),
    }
}

/// The threats of a procedure; one that is not reducible has none.
fn threats_of(part: &ProcReport) -> &[Threat]
    ensures { result.now ≡ threats_of part.now }
{
    match &part.analyses {
        None => &[],
        Some(all) => all.threats.as_slice(),
    }
}

fn rows_in(body: &TableOr) -> u64
    ensures { result ≡ rows_in body.now }
{
    match body {
        TableOr::Table(rows) => rows.len() as u64,
        TableOr::Past(_) => 0,
    }
}

fn rows_of(tables: &[RegionTable]) -> u64
    ensures { result ≡ capped (sum_by (λ t. rows_in t.body) tables.now) }
{
    let mut rows: u64 = 0;
    for table in tables {
        rows = rows.saturating_add(rows_in(&table.body));
    }
    rows
}

fn past_in(body: &TableOr) -> u64
    ensures { result ≡ past_in body.now }
{
    match body {
        TableOr::Table(_) => 0,
        TableOr::Past(_) => 1,
    }
}

fn past_of(tables: &[RegionTable]) -> u64
    ensures { result ≡ capped (sum_by (λ t. past_in t.body) tables.now) }
{
    let mut past: u64 = 0;
    for table in tables {
        past = past.saturating_add(past_in(&table.body));
    }
    past
}

fn is_refuted(verdict: &Verdict) -> bool
    ensures { result ≡ is_refuted verdict.now }
{
    matches!(verdict, Verdict::Refuted)
}

fn refuted_of(threats: &[Threat]) -> u64
    ensures { result ≡ count_by (λ t. is_refuted t.verdict) threats.now }
{
    threats
        .iter()
        .filter(|threat| is_refuted(&threat.verdict))
        .count() as u64
}

fn is_shown(verdict: &Verdict) -> bool
    ensures { result ≡ is_shown verdict.now }
{
    matches!(verdict, Verdict::Shown(_))
}

fn shown_of(threats: &[Threat]) -> u64
    ensures { result ≡ count_by (λ t. is_shown t.verdict) threats.now }
{
    threats
        .iter()
        .filter(|threat| is_shown(&threat.verdict))
        .count() as u64
}

fn is_open(verdict: &Verdict) -> bool
    ensures { result ≡ is_open verdict.now }
{
    matches!(verdict, Verdict::Open(_))
}

fn open_of(threats: &[Threat]) -> u64
    ensures { result ≡ count_by (λ t. is_open t.verdict) threats.now }
{
    threats
        .iter()
        .filter(|threat| is_open(&threat.verdict))
        .count() as u64
}

/// The numbers with those of one more procedure.
fn more(counts: Counts, part: &ProcReport) -> Counts
    ensures { result ≡ more counts part.now }
{
    let tables = tables_of(part);
    let threats = threats_of(part);
    Counts {
        lines: counts.lines.saturating_add(part.lines as u64),
        regions: counts.regions.saturating_add(tables.len() as u64),
        rows: counts.rows.saturating_add(rows_of(tables)),
        threats: counts.threats.saturating_add(threats.len() as u64),
        refuted: counts.refuted.saturating_add(refuted_of(threats)),
        shown: counts.shown.saturating_add(shown_of(threats)),
        left_open: counts.left_open.saturating_add(open_of(threats)),
        past: counts.past.saturating_add(past_of(tables)),
    }
}

/// The numbers of some procedures.
pub(crate) fn counts_of(procs: &[ProcReport]) -> Counts
    ensures { result ≡ counts_of procs.now }
{
    let mut counts = NONE;
    for part in procs {
        counts = more(counts, part);
    }
    counts
}
