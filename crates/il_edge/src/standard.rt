ghost use Rattle.std.specs.Prelude.{◌≡◌, ◌<◌, length, IfOk, is_err, if◌then◌else◌, refl};
ghost use Rattle.std.specs.Io.{ReadsAtMost, WritesAtMost};
ghost use Rattle.std.specs.Io.KnownBytes.{ReadConsumes, WriteAppends, Keeps};
ghost use Rattle.il_edge.specs.Faults.{HasCause};
ghost use Rattle.il_edge.specs.Known.{untold, untold_length};
ghost use Rattle.il_edge.specs.Memory.{counted};

use crate::{Failed, Sink, Source};
use std::io::{Read, Write};

/// A source over std's reader, with a count of its failures that stops at a u64's last value. Its bytes are not told:
/// nothing can say what the world gives.
#[derive(Drop)]
pub struct StdSource<R> {
    inner: R,
    faults: u64,
}

impl<R: Read> StdSource<R> {
    /// The source that reads from `inner`. Its count of faults is 0.
    pub fn new(inner: R) -> StdSource<R>
        ensures inner { result.inner ≡ inner }
        ensures faults { result.faults ≡ 0 }
    {
        StdSource { inner, faults: 0 }
    }
}

impl<R: Read> Source for StdSource<R> {
    ghost left = { λ _. untold };

    ghost faults = { λ it. it.faults };

    ghost reads = { λ _. 0 };

    /// Reads once from the reader. Each error of the reader is a failure, an interrupted read too.
    fn read(&mut self, buf: &mut [u8]) -> Result<usize, Failed>
        ensures bound { ReadsAtMost result buf.new }
        ensures cause { HasCause self.old.faults self.new.faults result }
        ensures inner { ReadConsumes (R.remaining self.old.inner) (R.remaining self.new.inner) result buf.new }
        ensures counts { self.new.faults ≡ (if is_err result then counted self.old.faults else self.old.faults) }
    {
        match self.inner.read(buf) {
            Ok(count) => Ok(count),
            Err(_) => {
                self.faults = self.faults.saturating_add(1);
                Err(Failed)
            }
        }
    }
}

/// A sink over std's writer, with a count of its failures that stops at a u64's last value. Its bytes are not told:
/// nothing can say what the world takes.
#[derive(Drop)]
pub struct StdSink<W> {
    inner: W,
    faults: u64,
}

impl<W: Write> StdSink<W> {
    /// The sink that writes to `inner`. Its count of faults is 0.
    pub fn new(inner: W) -> StdSink<W>
        ensures inner { result.inner ≡ inner }
        ensures faults { result.faults ≡ 0 }
    {
        StdSink { inner, faults: 0 }
    }
}

impl<W: Write> Sink for StdSink<W> {
    ghost held = { λ _. untold };

    ghost settled = { λ _. untold_length };

    ghost faults = { λ it. it.faults };

    /// Writes once to the writer. Each error of the writer is a failure, and so is a write that takes nothing of a
    /// piece that is not empty.
    fn write(&mut self, piece: &[u8]) -> Result<usize, Failed>
        ensures bound { WritesAtMost result piece.now }
        ensures some { IfOk result (λ n. 0 < length piece.now → 0 < n) }
        ensures cause { HasCause self.old.faults self.new.faults result }
        ensures inner { WriteAppends (W.contents self.old.inner) (W.contents self.new.inner) result piece.now }
        ensures counts { self.new.faults ≡ (if is_err result then counted self.old.faults else self.old.faults) }
    {
        match self.inner.write(piece) {
            Ok(count) if count > 0 || piece.is_empty() => Ok(count),
            _ => {
                self.faults = self.faults.saturating_add(1);
                Err(Failed)
            }
        }
    }

    /// Flushes the writer. Each error of the writer is a failure.
    fn flush(&mut self) -> Result<(), Failed>
        ensures cause { HasCause self.old.faults self.new.faults result }
        ensures inner { Keeps (W.contents self.old.inner) (W.contents self.new.inner) }
        ensures counts { self.new.faults ≡ (if is_err result then counted self.old.faults else self.old.faults) }
    {
        match self.inner.flush() {
            Ok(()) => Ok(()),
            Err(_) => {
                self.faults = self.faults.saturating_add(1);
                Err(Failed)
            }
        }
    }

    ghost together = { λ _. refl };
}
