//! The program: it reads a text from standard input and writes its report or its refusal to standard output. The top
//! call does all of it over any source and sink, so that its contract can name the bytes; `main` hands it the standard
//! ones, the output through a buffer that is emptied at each flush, and ends with its status. Reading and writing are linear in their bytes; the rest of the cost is that of
//! accepting the text and of analysing its procedures, one after the other.
#![tactic(auto)]

mod answer;
#[cfg(test)]
mod cert_tests;
#[cfg(test)]
mod fault_tests;
mod input;
mod made;
mod reporting;
mod source_text;
#[cfg(test)]
mod tests;
mod top;
#[cfg(test)]
mod word_tests;

use il_edge::{StdSink, StdSource};
use std::env;
use std::io::{BufWriter, ErrorKind};
use std::process::ExitCode;
use top::malpas;

fn main(rt: HostRuntime) -> ExitCode {
    let all = match env::args(&rt) {
        Ok(all) => all,
        Err(error) if error.kind() == ErrorKind::OutOfMemory => return ExitCode::from(5),
        Err(_) => return ExitCode::from(7),
    };
    let words: Vec<String> = match all.skip(1).collect(rt.alloc()) {
        Ok(words) => words,
        Err(_) => return ExitCode::from(5),
    };
    let Ok(output) = BufWriter::new(rt.alloc(), rt.stdout()) else {
        return ExitCode::from(5);
    };
    let mut source = StdSource::new(rt.stdin());
    let mut sink = StdSink::new(output);
    let outcome = malpas(rt.alloc(), words.as_slice(), &mut source, &mut sink);
    ExitCode::from(outcome.status)
}
