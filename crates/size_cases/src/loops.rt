//! Regions that begin or end at loop heads. An assertion of n comparisons has n ways that halt and one that goes on, so
//! each region is tried with 16,384 paths, which have too many nodes, and with one path more.
use crate::reading::{all_of, size_of, tests};
use region_paths::Limit;
use std::alloc::Global;
use std::test::Fail;

/// Tests in a row and an assertion of so many comparisons, which stands behind no head.
fn filled(alloc: Global, doubled: usize, compared: usize) -> Result<String, Fail> {
    let tests = tests(alloc, doubled)?;
    let tests = tests.as_str();
    let condition = all_of(alloc, compared)?;
    let condition = condition.as_str();
    Ok(format!(in alloc; "SKIP;ASSERT {condition};{tests}")?)
}

#[test]
fn paths_go_on_through_their_own_head(rt: HostRuntime) -> Result<(), Fail> {
    // the assertion fails, the filling halts, or for each of 4,096 ways through the tests the loop ends, or its head is
    // met again, where the assertion fails or holds
    let cases: [(usize, Limit); 2] = [(4_095, Limit::Nodes), (4_096, Limit::Rows)];
    for (compared, wanted) in cases.iter() {
        let filling = filled(rt.alloc(), 12, *compared)?;
        let filling = filling.as_str();
        let body = format!(in rt.alloc(); "LOOP;ASSERT b >= 0;{filling}EXIT WHEN b = 1;ENDLOOP;")?;
        assert_eq!(rt; size_of(rt.alloc(), body.as_str(), 1)?, Some(*wanted));
        // line 0 leads to the head, where the assertion fails or holds
        assert_eq!(rt; size_of(rt.alloc(), body.as_str(), 0)?, None);
    }
    Ok(())
}

#[test]
fn a_head_may_be_an_assertion(rt: HostRuntime) -> Result<(), Fail> {
    // the assertion behind ENDLOOP is entered by the first EXIT, and again by the second: it fails, the filling halts,
    // or for each of 2,048 ways through the tests the procedure ends, the assertion is met again and fails or holds, or
    // the loop's own head is met
    let cases: [(usize, Limit); 2] = [(8_191, Limit::Nodes), (8_192, Limit::Rows)];
    for (compared, wanted) in cases.iter() {
        let filling = filled(rt.alloc(), 11, *compared)?;
        let filling = filling.as_str();
        let body = format!(in rt.alloc();
            "LOOP;EXIT;LABEL mid;EXIT WHEN b = 1;ENDLOOP;ASSERT b >= 0;{filling}IF x = 1;GOTO mid;ENDIF;"
        )?;
        assert_eq!(rt; size_of(rt.alloc(), body.as_str(), 2)?, Some(*wanted));
    }
    Ok(())
}

#[test]
fn a_region_may_have_no_halt(rt: HostRuntime) -> Result<(), Fail> {
    let cases: [(usize, Option<Limit>); 2] = [(14, None), (15, Some(Limit::Rows))];
    for (count, wanted) in cases.iter() {
        let tests = tests(rt.alloc(), *count)?;
        let tests = tests.as_str();
        let body = format!(in rt.alloc(); "LOOP;{tests}ENDLOOP;")?;
        assert_eq!(rt; size_of(rt.alloc(), body.as_str(), 1)?, *wanted);
    }
    Ok(())
}
