//! Each limit from below and from above, on regions of straight lines and tests.
use crate::reading::{all_of, size_of, tests, times};
use region_paths::Limit;
use std::alloc::Global;
use std::test::Fail;

/// A body of the same line so many times, and a last line.
fn lines(alloc: Global, line: &str, count: usize, last: &str) -> Result<String, Fail> {
    let front = times(alloc, line, count)?;
    let front = front.as_str();
    Ok(format!(in alloc; "{front}{last}")?)
}

#[test]
fn terms_may_be_a_thousand_deep(rt: HostRuntime) -> Result<(), Fail> {
    let cases: [(usize, &str, Option<Limit>); 2] = [
        (499, "x := x MOD 5;", None),
        (500, "", Some(Limit::Depth)),
    ];
    for (count, last, wanted) in cases.iter() {
        let body = lines(rt.alloc(), "x := x MOD 5 MOD 5;", *count, last)?;
        assert_eq!(rt; size_of(rt.alloc(), body.as_str(), 0)?, *wanted);
    }
    Ok(())
}

#[test]
fn terms_weigh_less_than_a_limit(rt: HostRuntime) -> Result<(), Fail> {
    let cases: [(&str, Option<Limit>); 3] = [
        ("x := x * 1048569 MOD 7;", None),
        ("x := x * 1048570 MOD 7;", Some(Limit::Weight)),
        // the comparison is the first that weighs too much
        ("IF x * 1048570 > 7;ENDIF;x := 0;", Some(Limit::Weight)),
    ];
    for (last, wanted) in cases.iter() {
        let body = lines(rt.alloc(), "x := x * 1048576 MOD 7;", 4, last)?;
        assert_eq!(rt; size_of(rt.alloc(), body.as_str(), 0)?, *wanted);
    }
    Ok(())
}

/// Twelve tests and two sums, of 121 variables and of one more than so many.
fn sums(alloc: Global, count: usize) -> Result<String, Fail> {
    let tests = tests(alloc, 12)?;
    let tests = tests.as_str();
    let first = times(alloc, "a + ", 120)?;
    let first = first.as_str();
    let second = times(alloc, "a + ", count)?;
    let second = second.as_str();
    Ok(format!(in alloc; "{tests}y := ({first}a) MOD 5;y := ({second}a) MOD 5;")?)
}

#[test]
fn nodes_are_counted_for_each_path(rt: HostRuntime) -> Result<(), Fail> {
    // 4,096 paths with 24 + 243 + 245 nodes each are 2,097,152; two nodes more on each are too many
    let cases: [(usize, Option<Limit>); 2] = [(121, None), (122, Some(Limit::Nodes))];
    for (count, wanted) in cases.iter() {
        let body = sums(rt.alloc(), *count)?;
        assert_eq!(rt; size_of(rt.alloc(), body.as_str(), 0)?, *wanted);
    }
    Ok(())
}

#[test]
fn paths_double_with_each_test(rt: HostRuntime) -> Result<(), Fail> {
    let cases: [(usize, Option<Limit>); 4] = [
        (12, None),
        (14, None),
        (15, Some(Limit::Rows)),
        (300, Some(Limit::Rows)),
    ];
    for (count, wanted) in cases.iter() {
        let body = tests(rt.alloc(), *count)?;
        assert_eq!(rt; size_of(rt.alloc(), body.as_str(), 0)?, *wanted);
    }
    Ok(())
}

#[test]
fn the_first_limit_in_order_is_told(rt: HostRuntime) -> Result<(), Fail> {
    // each of these regions passes all limits from the one wanted on
    let heavy = times(rt.alloc(), "x := x * 1048576 MOD 7;", 5)?;
    let deep = times(rt.alloc(), "x := x MOD 5 MOD 5;", 500)?;
    let cases: [(usize, Limit); 3] = [(0, Limit::Weight), (11, Limit::Nodes), (15, Limit::Rows)];
    for (count, wanted) in cases.iter() {
        let tests = tests(rt.alloc(), *count)?;
        let tests = tests.as_str();
        let heavy = heavy.as_str();
        let deep = deep.as_str();
        let body = format!(in rt.alloc(); "{tests}{heavy}{deep}")?;
        assert_eq!(rt; size_of(rt.alloc(), body.as_str(), 0)?, Some(*wanted));
    }
    Ok(())
}

#[test]
fn a_path_may_have_very_many_decisions(rt: HostRuntime) -> Result<(), Fail> {
    // n comparisons between ANDs have n ways on which one is false, and one on which all are true; the nodes on so many
    // paths with so many comparisons are far more than two million
    let cases: [(usize, Limit); 3] = [
        (16_383, Limit::Nodes),
        (16_384, Limit::Rows),
        (40_000, Limit::Rows),
    ];
    for (count, wanted) in cases.iter() {
        let condition = all_of(rt.alloc(), *count)?;
        let condition = condition.as_str();
        let body = format!(in rt.alloc(); "IF {condition};ENDIF;")?;
        assert_eq!(rt; size_of(rt.alloc(), body.as_str(), 0)?, Some(*wanted));
    }
    Ok(())
}
