use crate::top::malpas;
use il_edge::{SureSink, SureSource};
use std::alloc::Global;
use std::process::Abort;
use std::test::Fail;

/// A product that is tested twice; its one threat is open.
const PRODUCT: &str =
    "TITLE t;\nPROC p;\nIN x : 0 .. 9;\nIN y : 0 .. 9;\nPRE TRUE;\nPOST TRUE;\nIF x * y < 3;\nASSERT x * y < 3;\nENDIF;\nENDPROC;\nFINISH;\n";

/// What stands before the rows of its certificates.
const PRODUCT_HEAD: &str = "MALPAS PROFILE 1\nTITLE t\nPROCEDURE p LINES 5\nCERTIFICATES\n";

/// What stands behind its text, and the rows and the status that are written. The product is below 3 and not below 3.
const READ: &[(&str, &str)] = &[
    ("", "STATUS 1\n"),
    ("%%\n", "STATUS 1\n"),
    (
        "%%\nCERT p 1\nSUM\nUP 0 1\nDOWN 1 1\nEND\n",
        "READ 1 HOLDS\nSTATUS 0\n",
    ),
    (
        "%%\nCERT p 1\nSUM\nUP 0 1\nUP 1 1\nEND\n",
        "READ 1 FAILS\nSTATUS 1\n",
    ),
    (
        "%%\nCERT p 1\nSUM\nUP 0 1\nDOWN 1 1\nEND\nCERT p 2\nSUM\nUP 0 1\nDOWN 1 1\nEND\n",
        "READ 1 HOLDS\nREAD 2 FAILS\nSTATUS 1\n",
    ),
];

/// What stands behind its text, of 124 bytes, and where the refusal of a certificate is placed in the input.
const BAD: &[(&str, usize)] = &[
    ("%%\nCERT p 1\nSUM\nUP 0 1\nDOWN 1 1\n", 156),
    ("%%\nCERT q 1\nSUM\nUP 0 1\nEND\n", 127),
    ("%%\nCERT p 1\nSUM\nUP 00 1\nEND\n", 140),
    ("%%\nCERT p 1\nSUM\nUP 0 1\nEND", 147),
    ("%%\n%%\n", 127),
    (
        "%%\nCERT p 1\nSPLIT 0\nSPLIT 0\nSPLIT 0\nSPLIT 0\nSPLIT 0\nSPLIT 0\nSPLIT 0\nSPLIT 0\nSPLIT 0\nSPLIT 0\nSPLIT 0\nSPLIT 0\nSPLIT 0\nSPLIT 0\nSPLIT 0\nSPLIT 0\nSPLIT 0\n",
        264,
    ),
];

/// A loop that adds n to k by counting; three of its threats are open.
const ADDING: &str =
    "TITLE t;\nPROC p;\nIN n : 0 .. 9;\nIN k : 0 .. 9;\nOUT s : 0 .. 18;\nLOCAL i : 0 .. 9;\nPRE TRUE;\nPOST s = k + n;\ns := k;\ni := 0;\nLOOP;\nASSERT i <= n;\nASSERT s = k + i;\nEXIT WHEN i = n;\ni := i + 1;\ns := s + 1;\nENDLOOP;\nENDPROC;\nFINISH;\n";

/// Certificates of these three, which split the `/=` of each.
const ADDING_CERTS: &str =
    "%%\nCERT p 3\nSPLIT 3\nSUM\nUP 3 1\nDOWN 1 1\nDOWN 2 1\nEND\nSUM\nDOWN 3 1\nUP 1 1\nUP 2 1\nEND\nCERT p 4\nSPLIT 6\nSUM\nUP 6 1\nDOWN 1 1\nEND\nSUM\nDOWN 6 1\nUP 1 1\nEND\nCERT p 6\nSPLIT 2\nSUM\nUP 2 1\nDOWN 0 1\nEND\nSUM\nDOWN 2 1\nDOWN 4 1\nDOWN 1 1\nHIGH 1 1\nHIGH 0 1\nEND\n";

/// A counting loop; its six threats are refuted.
const COUNTING: &str =
    "TITLE t;\nPROC p;\nIN n : 0 .. 9;\nOUT i : 0 .. 9;\nPRE TRUE;\nPOST i = n;\ni := 0;\nLOOP;\nASSERT 0 <= i;\nASSERT i <= n;\nEXIT WHEN i >= n;\ni := i + 1;\nENDLOOP;\nENDPROC;\nFINISH;\n";

/// The status and what is written, with such words, on an input of two parts.
fn answer(alloc: Global, words: &[&str], text: &str, behind: &str) -> Result<(u8, String), Fail> {
    let mut all = Vec::new(alloc);
    for word in words {
        all.push(String::from_str(alloc, word)?)?;
    }
    let input = format!(in alloc; "{text}{behind}")?;
    let mut source = SureSource::new(alloc, input.as_bytes())?;
    let mut sink = SureSink::new(alloc, 5000)?;
    let outcome = malpas(alloc, all.as_slice(), &mut source, &mut sink);
    let written = str::from_utf8(sink.held()).map_err(|_| "not text")?;
    Ok((outcome.status, String::from_str(alloc, written)?))
}

#[test]
fn certificates_are_read_where_they_are_asked_for(rt: HostRuntime) -> Result<(), Fail> {
    let alloc = rt.alloc();
    for (behind, rows) in READ {
        let (status, written) = answer(alloc, &["--certificates"], PRODUCT, behind)?;
        let wanted = format!(in alloc; "{PRODUCT_HEAD}{rows}")?;
        assert_eq!(rt; written, wanted);
        assert_eq!(rt; status, u8::from(rows.ends_with("1\n")));
    }
    for (words, text, behind, wanted) in [
        (
            &["--use"].as_slice(),
            PRODUCT,
            "%%\n",
            "malpas: E03 at byte 124: no such token\n",
        ),
        (
            &["--certificates"].as_slice(),
            PRODUCT,
            "%% \n",
            "malpas: E03 at byte 124: no such token\n",
        ),
        (
            &["--certificates"].as_slice(),
            PRODUCT,
            "%%",
            "malpas: E03 at byte 124: no such token\n",
        ),
        (
            &["--certificates"].as_slice(),
            "[\n%%\n]\n",
            PRODUCT,
            "malpas: E03 at byte 0: no such token\n",
        ),
    ] {
        let (status, written) = answer(alloc, words, text, behind)?;
        assert_eq!(rt; written.as_str(), wanted);
        assert_eq!(rt; status, 2);
    }
    let (status, _written) = answer(alloc, &["--use"], "[\n%%\n]\n", PRODUCT)?;
    assert_eq!(rt; status, 1);
    Ok(())
}

#[test]
fn bad_certificates_are_refused(rt: HostRuntime) -> Result<(), Fail> {
    let alloc = rt.alloc();
    for (behind, place) in BAD {
        let (status, written) = answer(alloc, &["--certificates"], PRODUCT, behind)?;
        let wanted = format!(in alloc; "malpas: E17 at byte {place}: certificate has no form\n")?;
        assert_eq!(rt; written, wanted);
        assert_eq!(rt; status, 2);
    }
    Ok(())
}

#[test]
fn open_threats_are_settled_by_splits(rt: HostRuntime) -> Result<(), Fail> {
    let (status, written) = answer(rt.alloc(), &["--certificates"], ADDING, ADDING_CERTS)?;
    let begins =
        "MALPAS PROFILE 1\nTITLE t\nPROCEDURE p LINES 11\nCERTIFICATES\nREAD 3 HOLDS\nREAD 4 HOLDS\nREAD 6 HOLDS\nCERT p 1\n";
    assert!(rt; written.starts_with(begins), "{written}");
    assert!(rt; written.ends_with("END\nSTATUS 0\n"), "{written}");
    assert_eq!(rt; status, 0);
    Ok(())
}

/// The certificates that are made for a counting loop are read back behind its text, and hold.
#[test]
fn made_certificates_are_read_back(rt: HostRuntime) -> Result<(), Fail> {
    let alloc = rt.alloc();
    let (_status, written) = answer(alloc, &["--certificates"], COUNTING, "")?;
    let (head, rest) = written.split_once("CERTIFICATES\n").ok_or("no section")?;
    let (made, _end) = rest.split_once("STATUS").ok_or("no status")?;
    let behind = format!(in alloc; "%%\n{made}")?;
    let (status, read) = answer(alloc, &["--certificates"], COUNTING, behind.as_str())?;
    let rows =
        "READ 1 HOLDS\nREAD 2 HOLDS\nREAD 3 HOLDS\nREAD 4 HOLDS\nREAD 5 HOLDS\nREAD 6 HOLDS\n";
    let wanted = format!(in alloc; "{head}CERTIFICATES\n{rows}{made}STATUS 0\n")?;
    assert_eq!(rt; read, wanted);
    assert_eq!(rt; status, 0);
    Ok(())
}
