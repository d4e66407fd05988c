//! How many rows and test inputs regions of some size have, and where there are too many.
use crate::regions::{Asked, Found, found_of};
use semantic_tables::{HazardsOr, TableOr};
use std::alloc::{AllocError, Global};
use std::test::Fail;

/// So many tests in a row of the variable `a`, each against a greater number.
fn tests_of(alloc: Global, count: u64) -> Result<String, AllocError> {
    let mut text = String::new(alloc);
    text.push_str("TITLE t; PROC p; IN a : 0 .. 99; PRE TRUE; POST TRUE;\n")?;
    for before in 0..count {
        let number = before + 1;
        let test = format!(in alloc; "IF a >= {number}; SKIP; ENDIF;\n")?;
        text.push_str(test.as_str())?;
    }
    text.push_str("ENDPROC; FINISH;")?;
    Ok(text)
}

/// Sixty-four places, and a test of each of the first so many of them.
fn own_tests_of(alloc: Global, count: u64) -> Result<String, AllocError> {
    let mut text = String::new(alloc);
    text.push_str("TITLE t; PROC p;\n")?;
    for place in 0..64u64 {
        let declaration = format!(in alloc; "IN v{place} : 0 .. 99;\n")?;
        text.push_str(declaration.as_str())?;
    }
    text.push_str("PRE TRUE; POST TRUE;\n")?;
    for place in 0..count {
        let test = format!(in alloc; "IF v{place} >= 50; SKIP; ENDIF;\n")?;
        text.push_str(test.as_str())?;
    }
    text.push_str("ENDPROC; FINISH;")?;
    Ok(text)
}

/// A line that is repeated, and a last line, over one place.
fn lines_of(alloc: Global, count: u64, line: &str, last: &str) -> Result<String, AllocError> {
    let mut text = String::new(alloc);
    text.push_str("TITLE t; PROC p; INOUT x : 0 .. 9; PRE TRUE; POST TRUE;\n")?;
    for _line in 0..count {
        text.push_str(line)?;
    }
    text.push_str(last)?;
    text.push_str("ENDPROC; FINISH;")?;
    Ok(text)
}

/// How many rows, test inputs or hazards there are, or the limit that the region passes.
fn count_text(alloc: Global, found: &Found) -> Result<String, AllocError> {
    match found {
        Found::Rows(TableOr::Table(rows)) => format!(in alloc; "{}", rows.len()),
        Found::Inputs(Some(inputs)) => format!(in alloc; "{}", inputs.len()),
        Found::Inputs(None) => format!(in alloc; "none"),
        Found::Hazards(HazardsOr::Hazards(list)) => format!(in alloc; "{}", list.len()),
        Found::Rows(TableOr::Past(limit)) | Found::Hazards(HazardsOr::Past(limit)) => {
            format!(in alloc; "{limit:?}")
        }
    }
}

/// How many rows or hazards the first region of a text has.
fn count_of(alloc: Global, text: &str, asked: Asked) -> Result<String, Fail> {
    let found = found_of(alloc, text.as_bytes(), 0, asked)?;
    Ok(count_text(alloc, &found)?)
}

#[test]
fn tests_in_a_row_have_one_row_more(rt: HostRuntime) -> Result<(), Fail> {
    let cases: [(u64, Asked, &str); 9] = [
        (12, Asked::Table, "13"),
        (12, Asked::Inputs, "13"),
        (12, Asked::Long, "4096"),
        (13, Asked::Table, "14"),
        (14, Asked::Table, "15"),
        (14, Asked::Long, "16384"),
        (15, Asked::Table, "Rows"),
        (15, Asked::Inputs, "none"),
        (15, Asked::Hazards, "Rows"),
    ];
    for (count, asked, wanted) in cases.iter() {
        let text = tests_of(rt.alloc(), *count)?;
        let found = count_of(rt.alloc(), text.as_str(), *asked)?;
        assert_eq!(rt; found.as_str(), *wanted);
    }
    Ok(())
}

#[test]
fn tests_of_their_own_places_have_all_rows(rt: HostRuntime) -> Result<(), Fail> {
    let text = own_tests_of(rt.alloc(), 14)?;
    let long = count_of(rt.alloc(), text.as_str(), Asked::Long)?;
    assert_eq!(rt; long.as_str(), "16384");
    let table = count_of(rt.alloc(), text.as_str(), Asked::Table)?;
    assert_eq!(rt; table.as_str(), "16384");
    Ok(())
}

#[test]
fn paths_may_be_long(rt: HostRuntime) -> Result<(), Fail> {
    let cases: [(u64, &str); 3] = [
        (990, "x := 1;\n"),
        (990, "ASSERT x < 100;\n"),
        (700, "ASSERT x < 100 AND x < 100;\n"),
    ];
    for (count, line) in cases.iter() {
        let text = lines_of(rt.alloc(), *count, line, "")?;
        let found = count_of(rt.alloc(), text.as_str(), Asked::Table)?;
        assert_eq!(rt; found.as_str(), "1");
    }
    Ok(())
}

#[test]
fn terms_may_pass_a_limit(rt: HostRuntime) -> Result<(), Fail> {
    let cases: [(u64, &str, &str, &str); 4] = [
        (499, "x := x MOD 5 MOD 5;\n", "x := x MOD 5;\n", "1"),
        (500, "x := x MOD 5 MOD 5;\n", "", "Depth"),
        (
            4,
            "x := x * 1048576 MOD 7;\n",
            "x := x * 1048569 MOD 7;\n",
            "1",
        ),
        (
            4,
            "x := x * 1048576 MOD 7;\n",
            "x := x * 1048570 MOD 7;\n",
            "Weight",
        ),
    ];
    for (count, line, last, wanted) in cases.iter() {
        let text = lines_of(rt.alloc(), *count, line, last)?;
        let found = count_of(rt.alloc(), text.as_str(), Asked::Table)?;
        assert_eq!(rt; found.as_str(), *wanted);
    }
    Ok(())
}
