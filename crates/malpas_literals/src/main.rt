//! The second program: it reads a text from standard input and writes the literals of its open threats to standard
//! output, in lines that a script reads easily, for makers of certificates. A maker so needs to know nothing of the
//! language, and the numbers by which certificates name literals and places are those of the program that checks them.
//!
//! The top call does all of it over any source and sink, so that its contract can name the bytes; `main` hands it the
//! standard ones, and ends with its status. It reads no words. What stands before the first line `%%` is the text. All
//! threats are found before the first byte is written. The cost is that of accepting the text and of finding its threats.
#![tactic(auto)]

mod listing;
mod sending;
#[cfg(test)]
mod tests;
mod text;
mod threats;
mod top;

use il_edge::{StdSink, StdSource};
use std::io::BufWriter;
use std::process::ExitCode;
use top::list_literals;

fn main(rt: HostRuntime) -> ExitCode {
    let Ok(output) = BufWriter::new(rt.alloc(), rt.stdout()) else {
        return ExitCode::from(5);
    };
    let mut source = StdSource::new(rt.stdin());
    let mut sink = StdSink::new(output);
    let outcome = list_literals(rt.alloc(), &mut source, &mut sink);
    ExitCode::from(outcome.status)
}
