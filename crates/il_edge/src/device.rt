ghost use Rattle.std.specs.Prelude.{◌≡◌, ℕ, ◌+◌, ◌<◌, ◌≤◌, List, Option, length, IfOk, OnOk, OnErr};
ghost use Rattle.std.specs.Option.{is_some};
ghost use Rattle.std.specs.Io.{ReadsAtMost, WritesAtMost};
ghost use Rattle.std.specs.Io.KnownBytes.{ReadConsumes, WriteAppends};
ghost use Rattle.il_edge.specs.Faults.{HasCause};
ghost use Rattle.il_edge.specs.Known.{SameTold, IsSettled};

use std::error::Error;
use std::fmt;

/// A device failed. Its count of faults says so too.
#[derive(Clone, Copy, Debug, PartialEq, Eq)]
pub struct Failed;

impl fmt::Display for Failed {
    fn fmt<W: fmt::Write>(&self, f: &mut fmt::Formatter<W>) -> fmt::Result {
        write!(f, "the device failed")
    }
}

impl Error for Failed {}

/// Where bytes come from. `left` is the list of the bytes still to come, where it is told; `faults` is a number that
/// never falls and rises with each failure; `reads` counts the reads, where they are counted.
pub trait Source {
    ghost left: { Self → Option (List ℕ) };

    ghost faults: { Self → ℕ };

    ghost reads: { Self → ℕ };

    /// Puts the next bytes at the front of `buf` and answers how many, from 1 to the length of `buf`. `Ok(0)` for a
    /// `buf` that is not empty is the end of input. `Failed` comes only where the count of faults rose in this call,
    /// and then no byte has gone.
    fn read(&mut self, buf: &mut [u8]) -> Result<usize, Failed>
        ensures bound { ReadsAtMost result buf.new }
        ensures bytes { ReadConsumes (left self.old) (left self.new) result buf.new }
        ensures told { SameTold (left self.old) (left self.new) }
        ensures cause { HasCause (faults self.old) (faults self.new) result }
        ensures one { reads self.new ≤ reads self.old + 1 };
}

/// Where bytes go to. `held` is the list of the bytes written, where it is told; `settled` is told with it and is the
/// length that `held` had at the last flush that succeeded; `faults` is a number that never falls and rises with each
/// failure.
pub trait Sink {
    ghost held: { Self → Option (List ℕ) };

    ghost settled: { Self → Option ℕ };

    ghost faults: { Self → ℕ };

    /// Takes bytes from the front of `piece` and answers how many: from 1 to its length, or 0 where it is empty.
    /// `Failed` comes only where the count of faults rose in this call, and then no byte was taken. What is settled
    /// stays as it was.
    fn write(&mut self, piece: &[u8]) -> Result<usize, Failed>
        ensures bound { WritesAtMost result piece.now }
        ensures some { IfOk result (λ n. 0 < length piece.now → 0 < n) }
        ensures bytes { WriteAppends (held self.old) (held self.new) result piece.now }
        ensures told { SameTold (held self.old) (held self.new) }
        ensures settled { settled self.new ≡ settled self.old }
        ensures cause { HasCause (faults self.old) (faults self.new) result };

    /// Settles all that is held, and leaves it as it was. `Failed` comes only where the count of faults rose in this
    /// call, and then what is settled stays as it was too.
    fn flush(&mut self) -> Result<(), Failed>
        ensures same { held self.new ≡ held self.old }
        ensures settles { OnOk result (IsSettled (held self.new) (settled self.new)) }
        ensures unsettled { OnErr result (settled self.new ≡ settled self.old) }
        ensures cause { HasCause (faults self.old) (faults self.new) result };

    ghost together: { (sink : Self) → is_some (settled sink) ≡ is_some (held sink) };
}
