ghost use Rattle.std.specs.Prelude.{◌≡◌, ◌<◌, ◌+◌, ◌↔◌, Some, length, min, IsErr, IfOk, MatchResult, drop};
ghost use Rattle.std.specs.Io.{ReadsAtMost};
ghost use Rattle.std.specs.Io.KnownBytes.{ReadConsumes};
ghost use Rattle.il_edge.specs.Faults.{HasCause};
ghost use Rattle.il_edge.specs.Memory.{FailsNext, counted};

use crate::numbered::{copy_front, fails_next};
use crate::{Failed, Source};
use il_core::NoMemory;
use std::alloc::Global;
use std::marker::Model;

/// A source in memory that gives its bytes in pieces and fails at the reads whose numbers it was given.
#[derive(Drop)]
pub struct MemSource {
    bytes: Vec<u8>,
    given: usize,
    piece: usize,
    fails: Vec<usize>,
    calls: usize,
    faults: u64,
}

impl Model for MemSource {
    ghost use Rattle.std.specs.Prelude.{ℕ, ◌<◌, ◌≤◌, length, drop};
    ghost use Rattle.il_edge.specs.Memory.{MemoryInput};

    ghost Value = { MemoryInput };

    ghost view = { λ it. record { left = drop it.given it.bytes.items; piece = it.piece; fails = it.fails.items; calls = it.calls; faults = it.faults } };

    ghost invariant = { λ it. (it.given ≤ length it.bytes.items) × (0 < it.piece) × (it.faults ≤ it.calls) };
}

impl MemSource {
    /// A source that gives `bytes`, at most `piece` of them in a read, of which there is at least one. The reads are
    /// numbered from 1, and those whose numbers are in `fails` fail; past a u64's last number none fails.
    pub fn new(
        alloc: Global,
        bytes: &[u8],
        piece: usize,
        fails: &[usize],
    ) -> Result<MemSource, NoMemory>
        requires { 0 < piece }
        ensures { IfOk result (λ source.
            source ≡ record { left = bytes.now; piece = piece; fails = fails.now; calls = 0; faults = 0 }) }
    {
        Ok(MemSource {
            bytes: Vec::from_slice(alloc, bytes)?,
            given: 0,
            piece,
            fails: Vec::from_slice(alloc, fails)?,
            calls: 0,
            faults: 0,
        })
    }
}

impl Source for MemSource {
    ghost left = { λ it. Some it.left };

    ghost faults = { λ it. it.faults };

    ghost reads = { λ it. it.calls };

    /// Fails exactly where the number of this read is in the list. Any other read gives as many bytes as the greatest
    /// piece, `buf` and what is left allow.
    fn read(&mut self, buf: &mut [u8]) -> Result<usize, Failed>
        ensures fails { IsErr result ↔ FailsNext self.old.fails self.old.calls }
        ensures gives { IfOk result (λ n. n ≡ min self.old.piece (min (length buf.old) (length self.old.left))) }
        ensures bytes { ReadConsumes (Some self.old.left) (Some self.new.left) result buf.new }
        ensures after { MatchResult result
            (λ n. self.new ≡ record self.old { left = drop n self.old.left; calls = counted self.old.calls })
            (λ _. self.new ≡ record self.old { calls = counted self.old.calls; faults = self.old.faults + 1 }) }
        ensures bound { ReadsAtMost result buf.new }
        ensures cause { HasCause self.old.faults self.new.faults result }
    {
        let fails = fails_next(&self.fails, self.calls);
        self.calls = self.calls.saturating_add(1);
        if fails {
            self.faults += 1;
            return Err(Failed);
        }
        let count = copy_front(&self.bytes[self.given..], self.piece, buf);
        self.given += count;
        Ok(count)
    }
}
