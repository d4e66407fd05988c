//! What rows and threats have in common: a number, a path, and where it stops.
ghost use Rattle.std.specs.Prelude.{◌≡◌, ◌++◌};
ghost use Rattle.std.specs.List.{flat_map};
ghost use Rattle.form_text.specs.Pieces.{Puts};
ghost use Rattle.report_text.specs.Path.{halt_text, letter, numbered_path, path_text, stop_line};

use form_text::put;
use il_core::{Halt, Stop};
use il_edge::{Failed, Sink};
use itoa::Buffer;

fn letter_of(decision: &bool) -> &[u8]
    ensures { result.now ≡ letter decision.now }
{
    if *decision { b"T" } else { b"F" }
}

fn put_letters<K: Sink>(path: &[bool], sink: &mut K) -> Result<(), Failed>
    ensures { Puts K.held K.settled K.faults sink.old sink.new result (flat_map letter path.now) }
{
    for decision in path {
        match put(sink, &[letter_of(decision)]) {
            Ok(()) => {}
            Err(failed) => return Err(failed),
        }
    }
    Ok(())
}

/// Writes the decisions of a path, or a dash where there is none.
fn put_path<K: Sink>(path: &[bool], sink: &mut K) -> Result<(), Failed>
    ensures { Puts K.held K.settled K.faults sink.old sink.new result (path_text path.now) }
{
    if path.is_empty() {
        put(sink, &[b"-"])
    } else {
        put_letters(path, sink)
    }
}

/// Writes a number behind the bytes `label`, and a path.
pub(crate) fn put_numbered<K: Sink>(
    label: &[u8],
    number: usize,
    path: &[bool],
    sink: &mut K,
) -> Result<(), Failed>
    ensures { Puts K.held K.settled K.faults sink.old sink.new result (numbered_path label.now number path.now) }
{
    let mut digits = Buffer::new();
    put(sink, &[label, digits.format(number).as_bytes(), b" PATH "])?;
    put_path(path, sink)
}

/// The words of a halt, and the digits of its line behind them.
fn parts_of<'a>(halt: &Halt, digits: &'a mut Buffer) -> (&'a [u8], &'a [u8])
    ensures { result.0.now ++ result.1.now ≡ halt_text halt.now }
{
    match halt {
        Halt::End => (b"END", b""),
        Halt::Outside => (b"OUTSIDE", b""),
        Halt::FailedAssert(line) => (b"ASSERT L", digits.format(*line).as_bytes()),
        Halt::FailedPost => (b"POST", b""),
        Halt::DivZero(line) => (b"DIVZERO L", digits.format(*line).as_bytes()),
        Halt::Range(line) => (b"RANGE L", digits.format(*line).as_bytes()),
    }
}

/// Writes a halt between other bytes.
pub(crate) fn put_halt<K: Sink>(
    before: &[u8],
    halt: &Halt,
    behind: &[u8],
    sink: &mut K,
) -> Result<(), Failed>
    ensures { Puts K.held K.settled K.faults sink.old sink.new result (before.now ++ halt_text halt.now ++ behind.now) }
{
    let mut digits = Buffer::new();
    let (words, line) = parts_of(halt, &mut digits);
    put(sink, &[before, words, line, behind])
}

/// Writes the line of a stop.
pub(crate) fn put_stop<K: Sink>(stop: &Stop, sink: &mut K) -> Result<(), Failed>
    ensures { Puts K.held K.settled K.faults sink.old sink.new result (stop_line stop.now) }
{
    match stop {
        Stop::Head(line) => {
            let mut digits = Buffer::new();
            put(
                sink,
                &[b"STOP HEAD L", digits.format(*line).as_bytes(), b"\n"],
            )
        }
        Stop::Halted(halt) => put_halt(b"STOP ", halt, b"\n", sink),
    }
}
