//! Lists of words, and the requests that they spell.

use request::{Request, Selection, read_words};
use std::alloc::Global;
use std::test::Fail;

/// Words, and what they ask for: the letters of the sections that are selected (control C, use U, flow F, slice L, paths P,
/// semantic S, inputs I, compliance M, certificates K), and the number of the text that is to be made, 0 where a text is read.
type Asked<'a> = (&'a [&'a str], &'a str, u8);

/// Report words: any order, repeats allowed; no report word means all.
const REPORTS: &[Asked<'_>] = &[
    (&[], "CUFPSM", 0),
    (&["--control"], "C", 0),
    (&["--use"], "U", 0),
    (&["--flow"], "F", 0),
    (&["--slice"], "L", 0),
    (&["--slice", "--flow"], "FL", 0),
    (&["--paths"], "P", 0),
    (&["--semantic"], "S", 0),
    (&["--inputs"], "I", 0),
    (&["--inputs", "--semantic"], "SI", 0),
    (&["--compliance"], "M", 0),
    (&["--certificates"], "K", 0),
    (&["--certificates", "--compliance"], "MK", 0),
    (&["--inputs", "--slice", "--inputs"], "LI", 0),
    (&["--certificates", "--slice", "--certificates"], "LK", 0),
    (&["--flow", "--flow"], "F", 0),
    (&["--flow", "--use"], "UF", 0),
    (&["--use", "--flow"], "UF", 0),
    (&["--compliance", "--control", "--compliance"], "CM", 0),
    (
        &[
            "--control",
            "--use",
            "--flow",
            "--paths",
            "--semantic",
            "--compliance",
        ],
        "CUFPSM",
        0,
    ),
    (
        &["--compliance", "--semantic", "--paths", "--flow", "--use"],
        "UFPSM",
        0,
    ),
];

/// A number in two words or in one, alone and beside report words, from 1 to 200.
const NUMBERS: &[Asked<'_>] = &[
    (&["--generate", "1"], "CUFPSM", 1),
    (&["--generate", "3"], "CUFPSM", 3),
    (&["--generate", "9"], "CUFPSM", 9),
    (&["--generate", "10"], "CUFPSM", 10),
    (&["--generate", "99"], "CUFPSM", 99),
    (&["--generate", "100"], "CUFPSM", 100),
    (&["--generate", "199"], "CUFPSM", 199),
    (&["--generate", "200"], "CUFPSM", 200),
    (&["--generate=1"], "CUFPSM", 1),
    (&["--generate=3"], "CUFPSM", 3),
    (&["--generate=200"], "CUFPSM", 200),
    (&["--flow", "--generate", "3", "--use"], "UF", 3),
    (&["--generate", "3", "--flow"], "F", 3),
    (&["--flow", "--generate=3"], "F", 3),
    (&["--inputs", "--generate=3", "--slice"], "LI", 3),
    (&["--certificates", "--generate", "3"], "K", 3),
    (&["--flow", "--flow", "--generate=20", "--flow"], "F", 20),
];

/// Words that are none.
const UNKNOWN: &[&[&str]] = &[
    &["--nosuch"],
    &["--"],
    &["-"],
    &[""],
    &["--help"],
    &["--version"],
    &["flow"],
    &["-flow"],
    &["--Flow"],
    &["--flow "],
    &[" --flow"],
    &["--flow=x"],
    &["--flow="],
    &["--flows"],
    &["--flo"],
    &["--input"],
    &["--inputs=1"],
    &["--certificate"],
    &["--certificates=1"],
    &["--certificates", "1"],
    &["--flow", "--nosuch"],
    &["--nosuch", "--flow"],
    &["3"],
    &["--flow", "3"],
];

/// Numbers that are none, and more than one.
const NO_NUMBERS: &[&[&str]] = &[
    &["--generate"],
    &["--flow", "--generate"],
    &["--generate", "0"],
    &["--generate", "201"],
    &["--generate", "007"],
    &["--generate", "03"],
    &["--generate", "00"],
    &["--generate", "+3"],
    &["--generate", "-3"],
    &["--generate", " 3"],
    &["--generate", "3 "],
    &["--generate", ""],
    &["--generate", "3x"],
    &["--generate", "256"],
    &["--generate", "99999999999999999999"],
    &["--generate", "--flow"],
    &["--generate", "--generate", "3"],
    &["--generate="],
    &["--generate=0"],
    &["--generate=201"],
    &["--generate=007"],
    &["--generate=+3"],
    &["--generate=3", "3"],
    &["--generate3"],
    &["--generate", "=3"],
    &["--generate", "3", "3"],
    &["--generate", "3", "--generate", "3"],
    &["--generate=3", "--generate=3"],
    &["--generate=3", "--generate", "3"],
    &["--generate", "3", "--generate=3"],
];

fn words_of(alloc: Global, words: &[&str]) -> Result<Vec<String>, Fail> {
    let mut all = Vec::new(alloc);
    for word in words {
        all.push(String::from_str(alloc, word)?)?;
    }
    Ok(all)
}

fn selection_of(letters: &str) -> Selection {
    Selection {
        control: letters.contains('C'),
        usage: letters.contains('U'),
        flow: letters.contains('F'),
        slice: letters.contains('L'),
        paths: letters.contains('P'),
        semantic: letters.contains('S'),
        inputs: letters.contains('I'),
        compliance: letters.contains('M'),
        certificates: letters.contains('K'),
    }
}

fn is_asked(request: Option<Request>, letters: &str, number: u8) -> bool {
    match request {
        Some(request) => {
            request.selection == selection_of(letters) && request.generate.unwrap_or(0) == number
        }
        None => false,
    }
}

fn are_asked(alloc: Global, cases: &[Asked<'_>]) -> Result<bool, Fail> {
    let mut all = true;
    for (words, letters, number) in cases {
        let words = words_of(alloc, words)?;
        all = all && is_asked(read_words(words.as_slice()), letters, *number);
    }
    Ok(all)
}

fn are_refused(alloc: Global, cases: &[&[&str]]) -> Result<bool, Fail> {
    let mut all = true;
    for words in cases {
        let words = words_of(alloc, words)?;
        all = all && read_words(words.as_slice()).is_none();
    }
    Ok(all)
}

#[test]
fn selects_what_is_named(rt: HostRuntime) -> Result<(), Fail> {
    assert!(rt; are_asked(rt.alloc(), REPORTS)?);
    Ok(())
}

#[test]
fn takes_one_number(rt: HostRuntime) -> Result<(), Fail> {
    assert!(rt; are_asked(rt.alloc(), NUMBERS)?);
    Ok(())
}

#[test]
fn refuses_other_words(rt: HostRuntime) -> Result<(), Fail> {
    assert!(rt; are_refused(rt.alloc(), UNKNOWN)?);
    Ok(())
}

#[test]
fn refuses_other_numbers(rt: HostRuntime) -> Result<(), Fail> {
    assert!(rt; are_refused(rt.alloc(), NO_NUMBERS)?);
    Ok(())
}
