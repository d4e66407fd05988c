ghost use Rattle.std.specs.Prelude.{◌≡◌, ◌+◌, Some, length, min, IfOk};
ghost use Rattle.std.specs.Io.{ReadsAtMost};
ghost use Rattle.std.specs.Io.KnownBytes.{ReadConsumes};

use crate::numbered::copy_front;
use crate::{Failed, Source};
use il_core::NoMemory;
use std::alloc::Global;
use std::marker::Model;

/// A source in memory that never fails. Contracts see it as the list of the bytes left.
#[derive(Drop)]
pub struct SureSource {
    bytes: Vec<u8>,
    given: usize,
}

impl Model for SureSource {
    ghost use Rattle.std.specs.Prelude.{ℕ, ◌≤◌, List, length, drop};

    ghost Value = { List ℕ };

    ghost view = { λ it. drop it.given it.bytes.items };

    ghost invariant = { λ it. it.given ≤ length it.bytes.items };
}

impl SureSource {
    /// A source that gives `bytes`.
    pub fn new(alloc: Global, bytes: &[u8]) -> Result<SureSource, NoMemory>
        ensures { IfOk result (λ source. source ≡ bytes.now) }
    {
        let bytes = Vec::from_slice(alloc, bytes)?;
        Ok(SureSource { bytes, given: 0 })
    }
}

impl Source for SureSource {
    ghost left = { λ it. Some it };

    ghost faults = { λ _. 0 };

    ghost reads = { λ _. 0 };

    /// Gives as many bytes as `buf` and what is left allow. It never fails.
    fn read(&mut self, buf: &mut [u8]) -> Result<usize, Failed>
        ensures gives { result ≡ Ok (min (length buf.old) (length self.old)) }
        ensures bytes { ReadConsumes (Some self.old) (Some self.new) result buf.new }
        ensures bound { ReadsAtMost result buf.new }
    {
        let count = copy_front(&self.bytes[self.given..], buf.len(), buf);
        self.given += count;
        Ok(count)
    }
}
