use crate::tests::{COPY, COPY_REPORT, VALVE, VALVE_REPORT};
use crate::top::malpas;
use il_core::{Code, Refusal};
use il_edge::{MemSink, MemSource};
use std::alloc::Global;
use std::process::Abort;
use std::test::Fail;

/// The refusals of the beginnings of the straight procedure's text: from the first length to the last one, the code and
/// the byte at fault.
const BEGINNINGS: &[(usize, usize, Code, usize)] = &[
    (0, 0, Code::Order, 0),
    (1, 10, Code::Syntax, 0),
    (11, 11, Code::Order, 11),
    (12, 12, Code::Order, 12),
    (13, 18, Code::Syntax, 12),
    (19, 19, Code::Order, 19),
    (20, 20, Code::Order, 20),
    (21, 29, Code::Syntax, 20),
    (30, 30, Code::Lexical, 29),
    (31, 33, Code::Syntax, 20),
    (34, 34, Code::Order, 34),
    (35, 35, Code::Order, 35),
    (36, 47, Code::Syntax, 35),
    (48, 48, Code::Lexical, 47),
    (49, 51, Code::Syntax, 35),
    (52, 52, Code::Order, 52),
    (53, 53, Code::Order, 53),
    (54, 63, Code::Syntax, 53),
    (64, 64, Code::Lexical, 63),
    (65, 67, Code::Syntax, 53),
    (68, 68, Code::Order, 68),
    (69, 69, Code::Order, 69),
    (70, 81, Code::Syntax, 69),
    (82, 82, Code::Lexical, 81),
    (83, 85, Code::Syntax, 69),
    (86, 86, Code::Order, 86),
    (87, 87, Code::Order, 87),
    (88, 95, Code::Syntax, 87),
    (96, 96, Code::Order, 96),
    (97, 97, Code::Order, 97),
    (98, 106, Code::Syntax, 97),
    (107, 107, Code::Order, 107),
    (108, 108, Code::Order, 108),
    (109, 114, Code::Syntax, 108),
    (115, 115, Code::Order, 115),
    (116, 116, Code::Order, 116),
    (117, 122, Code::Syntax, 116),
    (123, 123, Code::Order, 123),
    (124, 124, Code::Order, 124),
    (125, 130, Code::Syntax, 124),
    (131, 131, Code::Order, 131),
    (132, 132, Code::Order, 132),
    (133, 139, Code::Syntax, 132),
    (140, 140, Code::Order, 140),
    (141, 141, Code::Order, 141),
    (142, 147, Code::Syntax, 141),
];

/// The flows of the valve controller.
const VALVE_FLOW: &str =
    "MALPAS PROFILE 1\nTITLE valve\nPROCEDURE fill LINES 14\nFLOW\nVAR goal FROM goal TESTS -\nVAR height FROM goal height TESTS L5 L6\nVAR mode FROM - TESTS -\nPROCEDURE drain LINES 16\nFLOW\nVAR low FROM low TESTS -\nVAR height FROM low height TESTS L7\nVAR mode FROM - TESTS L10\nVAR alarm FROM - TESTS L10\nSTATUS 0\n";

/// What the program is asked about a text, and what it writes where nothing fails. Up to `first` bytes of it, the head
/// with the part of the first procedure, a report that is cut short has one procedure; from there on it has two.
#[derive(Clone, Copy)]
struct Asked {
    words: &'static [&'static str],
    text: &'static str,
    written: &'static str,
    first: usize,
}

/// The whole report of the straight procedure, which is one part.
const COPIES: Asked = Asked {
    words: &[],
    text: COPY,
    written: COPY_REPORT,
    first: COPY_REPORT.len(),
};

/// The flows of the valve controller's two procedures.
const FLOWS: Asked = Asked {
    words: &["--flow"],
    text: VALVE,
    written: VALVE_FLOW,
    first: 149,
};

/// The whole report of the valve controller.
const VALVES: Asked = Asked {
    words: &[],
    text: VALVE,
    written: VALVE_REPORT,
    first: 2089,
};

/// The words as the program is given them.
fn words_of(alloc: Global, asked: Asked) -> Result<Vec<String>, Fail> {
    let mut words = Vec::new(alloc);
    for word in asked.words {
        words.push(String::from_str(alloc, word)?)?;
    }
    Ok(words)
}

/// Whether a source and a sink that do not fail give all that is asked.
fn is_whole(alloc: Global, asked: Asked) -> Result<bool, Fail> {
    let words = words_of(alloc, asked)?;
    let mut source = MemSource::new(alloc, asked.text.as_bytes(), 16, &[])?;
    let mut sink = MemSink::new(alloc, 16, 10_000, &[])?;
    let outcome = malpas(alloc, words.as_slice(), &mut source, &mut sink);
    let reported = outcome.refusal.is_none() && outcome.report.is_some();
    Ok(outcome.status == 0 && reported && sink.held() == asked.written.as_bytes())
}

/// Whether a run whose read of this number fails says so and writes nothing; no answer where it makes fewer reads and
/// writes all that is asked.
fn is_unread(alloc: Global, asked: Asked, failing: usize) -> Result<Option<bool>, Fail> {
    let words = words_of(alloc, asked)?;
    let mut source = MemSource::new(alloc, asked.text.as_bytes(), 16, &[failing])?;
    let mut sink = MemSink::new(alloc, 16, 10_000, &[])?;
    let outcome = malpas(alloc, words.as_slice(), &mut source, &mut sink);
    if outcome.status == 0 && sink.held() == asked.written.as_bytes() {
        return Ok(None);
    }
    let silent = sink.held().is_empty() && outcome.refusal.is_none() && outcome.report.is_none();
    Ok(Some(outcome.status == 3 && silent))
}

/// How many reads a run makes; each of them fails once, as it should, and a run that does not fail comes after it.
fn reads_that_fail(alloc: Global, asked: Asked) -> Result<usize, Fail> {
    for count in 0..100usize {
        match is_unread(alloc, asked, count + 1)? {
            None => return Ok(count),
            Some(unread) => {
                if !unread || !is_whole(alloc, asked)? {
                    return Err(Fail::from("not unread"));
                }
            }
        }
    }
    Err(Fail::from("too many reads"))
}

/// How many procedures are reported and how many bytes are held where the write or flush of this number fails; no
/// answer where a run makes fewer and writes all that is asked.
fn cut_at(alloc: Global, asked: Asked, failing: usize) -> Result<Option<(usize, usize)>, Fail> {
    let words = words_of(alloc, asked)?;
    let mut source = MemSource::new(alloc, asked.text.as_bytes(), 16, &[])?;
    let mut sink = MemSink::new(alloc, 16, 10_000, &[failing])?;
    let outcome = malpas(alloc, words.as_slice(), &mut source, &mut sink);
    let held = sink.held();
    let written = asked.written.as_bytes();
    if outcome.status == 0 && held == written {
        return Ok(None);
    }
    if outcome.status != 4 || outcome.refusal.is_some() || !written.starts_with(held) {
        return Err(Fail::from("not cut short"));
    }
    let report = outcome.report.ok_or("no report")?;
    Ok(Some((report.procs.len(), held.len())))
}

/// How many bytes are held where the call before the one of this number fails, and none where it is the first.
fn held_before(alloc: Global, asked: Asked, number: usize) -> Result<usize, Fail> {
    if number <= 1 {
        return Ok(0);
    }
    match cut_at(alloc, asked, number - 1)? {
        None => Err(Fail::from("no such call")),
        Some((_, held)) => Ok(held),
    }
}

/// The number of the first call that a run does not make, writes and flushes being numbered together from 1, or `last`
/// where that comes before it. Each call from `first` on fails once, and a run that does not fail comes after it. What is
/// held grows by at most a piece with the number, is less than so many pieces, and is all that is asked where the last
/// call fails, a flush.
fn calls_that_fail(alloc: Global, asked: Asked, first: usize, last: usize) -> Result<usize, Fail> {
    let mut before = held_before(alloc, asked, first)?;
    for number in first..last {
        let Some((procedures, held)) = cut_at(alloc, asked, number)? else {
            return if before == asked.written.len() {
                Ok(number)
            } else {
                Err(Fail::from("the last flush is left out"))
            };
        };
        let reported = (procedures == 1 && held <= asked.first)
            || (procedures == 2 && asked.first <= held);
        let grown = before <= held && held - before <= 16 && held.div_ceil(16) < number;
        if !reported || !grown || !is_whole(alloc, asked)? {
            return Err(Fail::from("not cut where it should be"));
        }
        before = held;
    }
    Ok(last)
}

#[test]
fn tells_each_read_that_fails(rt: HostRuntime) -> Result<(), Fail> {
    let alloc = rt.alloc();
    assert_eq!(rt; reads_that_fail(alloc, COPIES)?, 11);
    let pieces = VALVE.len().div_ceil(16);
    assert!(rt; reads_that_fail(alloc, VALVES)? > pieces);
    Ok(())
}

#[test]
fn tells_each_write_and_flush_of_one_part_that_fails(rt: HostRuntime) -> Result<(), Fail> {
    assert_eq!(rt; calls_that_fail(rt.alloc(), COPIES, 1, 1000)?, 234);
    Ok(())
}

#[test]
fn tells_each_write_and_flush_of_the_flows_that_fails(rt: HostRuntime) -> Result<(), Fail> {
    assert_eq!(rt; calls_that_fail(rt.alloc(), FLOWS, 1, 1000)?, 84);
    Ok(())
}

/// The valve controller's whole report takes 1808 calls, which the next six tests try in turn.
fn try_valves(rt: &impl Abort, alloc: Global, first: usize, last: usize) -> Result<(), Fail> {
    assert_eq!(rt;
        calls_that_fail(alloc, VALVES, first, last)?,
        last.min(1809)
    );
    Ok(())
}

#[test]
fn tells_each_write_and_flush_of_the_first_sixth_that_fails(rt: HostRuntime) -> Result<(), Fail> {
    try_valves(&rt, rt.alloc(), 1, 303)
}

#[test]
fn tells_each_write_and_flush_of_the_second_sixth_that_fails(rt: HostRuntime) -> Result<(), Fail> {
    try_valves(&rt, rt.alloc(), 303, 605)
}

#[test]
fn tells_each_write_and_flush_of_the_third_sixth_that_fails(rt: HostRuntime) -> Result<(), Fail> {
    try_valves(&rt, rt.alloc(), 605, 907)
}

#[test]
fn tells_each_write_and_flush_of_the_fourth_sixth_that_fails(rt: HostRuntime) -> Result<(), Fail> {
    try_valves(&rt, rt.alloc(), 907, 1209)
}

#[test]
fn tells_each_write_and_flush_of_the_fifth_sixth_that_fails(rt: HostRuntime) -> Result<(), Fail> {
    try_valves(&rt, rt.alloc(), 1209, 1511)
}

#[test]
fn tells_each_write_and_flush_of_the_last_sixth_that_fails(rt: HostRuntime) -> Result<(), Fail> {
    try_valves(&rt, rt.alloc(), 1511, 2000)
}

/// Whether a run on no bytes, whose write or flush of this number fails, keeps the refusal and cuts its line short; no
/// answer where it makes fewer and writes the whole line.
fn refuses_in_vain(alloc: Global, failing: usize) -> Result<Option<bool>, Fail> {
    let line = b"malpas: E06 at byte 0: statement out of order\n".as_slice();
    let mut source = MemSource::new(alloc, &[], 16, &[])?;
    let mut sink = MemSink::new(alloc, 16, 100, &[failing])?;
    let outcome = malpas(alloc, &[], &mut source, &mut sink);
    let refusal = Refusal {
        code: Code::Order,
        place: 0,
        name: None,
    };
    let kept = outcome.refusal == Some(refusal) && outcome.report.is_none();
    let held = sink.held();
    if outcome.status == 2 && kept && held == line {
        return Ok(None);
    }
    let cut = line.starts_with(held) && (failing > 1 || held.is_empty());
    Ok(Some(outcome.status == 4 && kept && cut))
}

#[test]
fn keeps_a_refusal_that_is_not_written(rt: HostRuntime) -> Result<(), Fail> {
    for failing in 1..100usize {
        match refuses_in_vain(rt.alloc(), failing)? {
            None => {
                assert!(rt; failing > 4, "{failing}");
                return Ok(());
            }
            Some(kept) => assert!(rt; kept, "{failing}"),
        }
    }
    Err(Fail::from("too many calls"))
}

/// The refusal of a beginning of the straight procedure's text; nothing where it is accepted.
fn refusal_of(length: usize) -> Option<Refusal> {
    for (first, last, code, place) in BEGINNINGS {
        if *first <= length && length <= *last {
            return Some(Refusal {
                code: *code,
                place: *place,
                name: None,
            });
        }
    }
    None
}

/// Whether the beginning of this length has its refusal, or is accepted.
fn is_judged(alloc: Global, length: usize) -> Result<bool, Fail> {
    let text = COPY.as_bytes().get(..length).ok_or("longer than the text")?;
    let mut source = MemSource::new(alloc, text, 16, &[])?;
    let mut sink = MemSink::new(alloc, 16, 10_000, &[])?;
    let outcome = malpas(alloc, &[], &mut source, &mut sink);
    let refusal = refusal_of(length);
    let status = if refusal.is_some() { 2 } else { 0 };
    Ok(outcome.status == status && outcome.refusal == refusal)
}

#[test]
fn refuses_each_beginning_of_a_text(rt: HostRuntime) -> Result<(), Fail> {
    for length in 0..150usize {
        assert!(rt; is_judged(rt.alloc(), length)?, "{length}");
    }
    Ok(())
}
