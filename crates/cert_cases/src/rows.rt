//! Which of the certificates that are read hold.
ghost use Rattle.std.specs.Prelude.{◌≤◌, length, IfOk};
ghost use Rattle.il_inline.specs.Expanded.{IsExpandedText};

use acceptance::accept;
use cert_text::read_certs;
use il_core::{Cert, CheckedText, Item, List, Name, NamedCert, Share};
use il_inline::Expanded;
use malpas_suite::analyse;
use report::{Report, status_of};
use std::alloc::Global;
use std::test::Fail;

/// One threat, whose literals are x*y < 3 and x*y >= 3.
const PRODUCT: &str =
    "PROC p;IN x : 0 .. 9;IN y : 0 .. 9;PRE TRUE;POST TRUE;IF x * y < 3;ASSERT x * y < 3;ENDIF;ENDPROC;";

/// One threat, whose literals are x*y <= 3 and x*y >= 3; an input meets both.
const MET: &str =
    "PROC p;IN x : 0 .. 9;IN y : 0 .. 9;PRE TRUE;POST TRUE;IF x * y <= 3;ASSERT x * y < 3;ENDIF;ENDPROC;";

/// One threat, whose literals are x*y /= 3, x*y <= 3 and x*y >= 3.
const OTHER: &str =
    "PROC p;IN x : 0 .. 9;IN y : 0 .. 9;PRE TRUE;POST TRUE;IF x * y /= 3;IF x * y <= 3;ASSERT x * y < 3;ENDIF;ENDIF;ENDPROC;";

/// One threat that is refuted; x is at most 3 and at least 5.
const REFUTED: &str =
    "PROC p;IN x : 0 .. 9;PRE TRUE;POST TRUE;IF x <= 3;ASSERT x < 5;ENDIF;ENDPROC;";

/// A loop that is entered at two lines.
const ENTRIES: &str =
    "PROC p;IN x : 0 .. 9;PRE TRUE;POST TRUE;IF x < 5;GOTO b;ENDIF;LABEL a;SKIP;LABEL b;IF x < 7;GOTO a;ENDIF;ENDPROC;";

/// A sum whose six threats are three refuted ones and three open ones.
const SUM: &str =
    "PROC p;IN n : 0 .. 9;IN k : 0 .. 9;OUT s : 0 .. 18;LOCAL i : 0 .. 9;PRE TRUE;POST s = k + n;s := k;i := 0;LOOP;ASSERT i <= n;ASSERT s = k + i;EXIT WHEN i = n;i := i + 1;s := s + 1;ENDLOOP;ENDPROC;";

/// Procedures, certificates for them, the rows (each the number of its threat, with + where it holds), and the status.
type Case<'a> = (&'a str, &'a str, &'a str, u8);

const CASES: &[Case<'_>] = &[
    // no certificate, and one
    (PRODUCT, "", "", 1),
    (PRODUCT, "CERT p 1\nSUM\nUP 0 1\nDOWN 1 1\nEND\n", "1+", 0),
    // the wrong side of a literal, in either place
    (PRODUCT, "CERT p 1\nSUM\nUP 0 1\nUP 1 1\nEND\n", "1-", 1),
    (PRODUCT, "CERT p 1\nSUM\nDOWN 0 1\nDOWN 1 1\nEND\n", "1-", 1),
    // parts are left
    (PRODUCT, "CERT p 1\nSUM\nUP 0 1\nEND\n", "1-", 1),
    (
        PRODUCT,
        "CERT p 1\nSUM\nUP 0 1\nDOWN 1 1\nLOW 0 1\nEND\n",
        "1-",
        1,
    ),
    // each share as often as its factor says
    (PRODUCT, "CERT p 1\nSUM\nUP 0 2\nDOWN 1 2\nEND\n", "1+", 0),
    (PRODUCT, "CERT p 1\nSUM\nUP 0 2\nDOWN 1 1\nEND\n", "1-", 1),
    (
        PRODUCT,
        "CERT p 1\nSUM\nUP 0 1\nUP 0 1\nDOWN 1 2\nEND\n",
        "1+",
        0,
    ),
    (
        PRODUCT,
        "CERT p 1\nSUM\nUP 0 65536\nDOWN 1 65536\nEND\n",
        "1+",
        0,
    ),
    // a positive number is left
    (PRODUCT, "CERT p 1\nSUM\nLOW 0 1\nHIGH 0 1\nEND\n", "1-", 1),
    // no such literal, no such place, no OLD copy, and a literal that may hold
    (PRODUCT, "CERT p 1\nSUM\nUP 2 1\nEND\n", "1-", 1),
    (PRODUCT, "CERT p 1\nSUM\nLOW 2 1\nEND\n", "1-", 1),
    (
        PRODUCT,
        "CERT p 1\nSUM\nOLDUP 0 1\nOLDDOWN 0 1\nEND\n",
        "1-",
        1,
    ),
    (PRODUCT, "CERT p 1\nSUM\nNEVER 0 1\nEND\n", "1-", 1),
    // no such threat
    (PRODUCT, "CERT p 0\nSUM\nUP 0 1\nDOWN 1 1\nEND\n", "0-", 1),
    (PRODUCT, "CERT p 2\nSUM\nUP 0 1\nDOWN 1 1\nEND\n", "2-", 1),
    // each certificate that is read has a row, and each must hold
    (
        PRODUCT,
        "CERT p 1\nSUM\nUP 0 1\nDOWN 1 1\nEND\nCERT p 1\nSUM\nUP 0 1\nUP 1 1\nEND\nCERT p 1\nSUM\nUP 0 2\nDOWN 1 2\nEND\n",
        "1+1-1+",
        1,
    ),
    // a split of a literal that is no /=
    (
        PRODUCT,
        "CERT p 1\nSPLIT 0\nSUM\nUP 0 1\nDOWN 1 1\nEND\nSUM\nUP 0 1\nDOWN 1 1\nEND\n",
        "1-",
        1,
    ),
    // a sum of 0
    (MET, "CERT p 1\nSUM\nUP 0 1\nDOWN 1 1\nEND\n", "1-", 1),
    // a /= that is split, and one that is not
    (
        OTHER,
        "CERT p 1\nSPLIT 0\nSUM\nUP 0 1\nDOWN 2 1\nEND\nSUM\nDOWN 0 1\nUP 1 1\nEND\n",
        "1+",
        0,
    ),
    (OTHER, "CERT p 1\nSUM\nUP 0 1\nDOWN 2 1\nEND\n", "1-", 1),
    // the sides changed over, and one side alone
    (
        OTHER,
        "CERT p 1\nSPLIT 0\nSUM\nDOWN 0 1\nUP 1 1\nEND\nSUM\nUP 0 1\nDOWN 2 1\nEND\n",
        "1-",
        1,
    ),
    (
        OTHER,
        "CERT p 1\nSPLIT 0\nSUM\nUP 0 1\nDOWN 2 1\nEND\nSUM\nUP 1 1\nDOWN 2 1\nEND\n",
        "1-",
        1,
    ),
    // a split of a literal that is split further out
    (
        OTHER,
        "CERT p 1\nSPLIT 0\nSPLIT 0\nSUM\nUP 0 1\nDOWN 2 1\nEND\nSUM\nDOWN 0 1\nUP 1 1\nEND\nSUM\nDOWN 0 1\nUP 1 1\nEND\n",
        "1-",
        1,
    ),
    // a refuted threat needs none, but one that fails is told
    (REFUTED, "", "", 0),
    (REFUTED, "CERT p 1\nSUM\nUP 0 1\nDOWN 1 1\nEND\n", "1+", 0),
    (REFUTED, "CERT p 1\nSUM\nUP 0 1\nUP 1 1\nEND\n", "1-", 1),
    // an irreducible procedure has no threat
    (ENTRIES, "CERT p 1\nSUM\nUP 0 1\nDOWN 1 1\nEND\n", "1-", 1),
    // three certificates settle the sum
    (
        SUM,
        "CERT p 3\nSPLIT 3\nSUM\nUP 3 1\nDOWN 1 1\nDOWN 2 1\nEND\nSUM\nDOWN 3 1\nUP 1 1\nUP 2 1\nEND\nCERT p 4\nSPLIT 6\nSUM\nUP 6 1\nDOWN 1 1\nEND\nSUM\nDOWN 6 1\nUP 1 1\nEND\nCERT p 6\nSPLIT 2\nSUM\nUP 2 1\nDOWN 0 1\nEND\nSUM\nDOWN 2 1\nDOWN 4 1\nDOWN 1 1\nHIGH 1 1\nHIGH 0 1\nEND\n",
        "3+4+6+",
        0,
    ),
    // one of the three is missing, and one is taken for another
    (
        SUM,
        "CERT p 3\nSPLIT 3\nSUM\nUP 3 1\nDOWN 1 1\nDOWN 2 1\nEND\nSUM\nDOWN 3 1\nUP 1 1\nUP 2 1\nEND\nCERT p 4\nSPLIT 6\nSUM\nUP 6 1\nDOWN 1 1\nEND\nSUM\nDOWN 6 1\nUP 1 1\nEND\n",
        "3+4+",
        1,
    ),
    (
        SUM,
        "CERT p 3\nSPLIT 6\nSUM\nUP 6 1\nDOWN 1 1\nEND\nSUM\nDOWN 6 1\nUP 1 1\nEND\n",
        "3-",
        1,
    ),
];

/// The names of the procedures of a text.
fn names_of(alloc: Global, text: &CheckedText) -> Result<Vec<Name>, Fail> {
    let mut names = Vec::new(alloc);
    for proc in text.procs().as_slice() {
        names.push(proc.name())?;
    }
    Ok(names)
}

/// The expansion of a text that is accepted.
pub fn accepted(alloc: Global, text: &[u8]) -> Result<Expanded, Fail>
    requires { length text.now ≤ 1048576 }
    ensures { IfOk result IsExpandedText }
{
    match accept(alloc, text) {
        Ok(expanded) => Ok(expanded),
        Err(_) => Err(Fail::from("not accepted")),
    }
}

/// The report of the text of some procedures, with certificates.
fn report_of(alloc: Global, procs: &str, certs: &str) -> Result<Report, Fail> {
    let text = format!(in alloc; "TITLE t;{procs}FINISH;")?;
    let text = text.as_bytes();
    let certs = certs.as_bytes();
    if text.len() > 1_048_576 || certs.len() > 1_048_576 {
        return Err(Fail::from("too long"));
    }
    let expanded = accepted(alloc, text)?;
    let names = names_of(alloc, &expanded.text)?;
    let certs = read_certs(alloc, certs, 0, &names).or(Err("not read"))?;
    Ok(analyse(alloc, &expanded, certs.as_slice())?)
}

/// The rows of a report's procedures, one behind the other.
fn rows_text(alloc: Global, report: &Report) -> Result<String, Fail> {
    let mut text = String::new(alloc);
    for part in report.procs.as_slice() {
        for row in part.certs.as_slice() {
            let threat = row.threat;
            let sign = if row.holds { "+" } else { "-" };
            let row = format!(in alloc; "{threat}{sign}")?;
            text.push_str(row.as_str())?;
        }
    }
    Ok(text)
}

/// Whether a report has these rows and this status.
fn tells(alloc: Global, report: &Report, rows: &str, status: u8) -> Result<bool, Fail> {
    let found = rows_text(alloc, report)?;
    Ok(found.as_str() == rows && status_of(report) == status)
}

#[test]
fn tells_which_certificates_hold(rt: HostRuntime) -> Result<(), Fail> {
    let alloc = rt.alloc();
    for (procs, certs, rows, status) in CASES {
        let report = report_of(alloc, procs, certs)?;
        assert!(rt; tells(alloc, &report, rows, *status)?, "{procs}{certs}");
    }
    Ok(())
}

/// A certificate for the threat of the product, with shares that stand so often and one that stands twice.
fn often(alloc: Global, pairs: usize, twice: bool) -> Result<NamedCert, Fail> {
    let up = Share {
        item: Item::Up(0),
        times: 1,
    };
    let mut shares = List::new(alloc);
    for _ in 0..pairs {
        shares.push(up)?;
        shares.push(Share {
            item: Item::Down(1),
            times: 1,
        })?;
    }
    if twice {
        shares.push(up)?;
        shares.push(up)?;
        shares.push(Share {
            item: Item::Down(1),
            times: 2,
        })?;
    }
    Ok(NamedCert {
        procedure: Name::new(b"p").ok_or("no name")?,
        threat: 1,
        body: Cert::Sum(shares),
    })
}

/// Sums of no share, of 128 and of 129, and with a factor of 0, which no text can have.
#[test]
fn limits_the_shares_of_a_sum(rt: HostRuntime) -> Result<(), Fail> {
    let alloc = rt.alloc();
    let text = format!(in alloc; "TITLE t;{PRODUCT}FINISH;")?;
    let text = text.as_bytes();
    if text.len() > 1_048_576 {
        return Err(Fail::from("too long"));
    }
    let expanded = accepted(alloc, text)?;
    let certs = [
        often(alloc, 0, false)?,
        often(alloc, 64, false)?,
        often(alloc, 63, true)?,
    ];
    let report = analyse(alloc, &expanded, &certs)?;
    assert!(rt; tells(alloc, &report, "1-1+1-", 1)?);
    Ok(())
}
