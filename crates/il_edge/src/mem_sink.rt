ghost use Rattle.std.specs.Prelude.{◌≡◌, ◌<◌, ◌+◌, ◌-◌, ◌↔◌, ◌⊎◌, [], Some, length, min, IsErr, IfOk, MatchResult, ◌++◌, take, refl};
ghost use Rattle.il_edge.specs.Faults.{HasCause};
ghost use Rattle.il_edge.specs.Memory.{FailsNext, counted};

use crate::numbered::fails_next;
use crate::{Failed, Sink};
use il_core::NoMemory;
use std::alloc::Global;
use std::marker::Model;

/// A sink in memory that takes its bytes in pieces, and fails at the calls whose numbers it was given and where it is
/// full. It takes no memory after it is made.
#[derive(Drop)]
pub struct MemSink {
    bytes: Vec<u8>,
    settled: usize,
    piece: usize,
    room: usize,
    fails: Vec<usize>,
    calls: usize,
    faults: u64,
}

impl Model for MemSink {
    ghost use Rattle.std.specs.Prelude.{ℕ, ◌<◌, ◌≤◌, length, vec_capacity};
    ghost use Rattle.il_edge.specs.Memory.{MemoryOutput};

    ghost Value = { MemoryOutput };

    ghost view = { λ it. record { held = it.bytes.items; settled = it.settled; piece = it.piece; room = it.room; fails = it.fails.items; calls = it.calls; faults = it.faults } };

    ghost invariant = { λ it. (length it.bytes.items ≤ it.room) × (it.room ≤ vec_capacity it.bytes) × (0 < it.piece) };
}

impl MemSink {
    /// An empty sink with room for `room` bytes in all, which are taken from memory at once. A write takes at most
    /// `piece` bytes, which is at least 1. The writes and flushes are numbered together from 1, and those whose numbers
    /// are in `fails` fail; past a u64's last number none fails by its number.
    pub fn new(
        alloc: Global,
        piece: usize,
        room: usize,
        fails: &[usize],
    ) -> Result<MemSink, NoMemory>
        requires { 0 < piece }
        ensures { IfOk result (λ sink.
            sink ≡ record { held = []; settled = 0; piece = piece; room = room; fails = fails.now; calls = 0; faults = 0 }) }
    {
        Ok(MemSink {
            bytes: Vec::with_capacity(alloc, room)?,
            settled: 0,
            piece,
            room,
            fails: Vec::from_slice(alloc, fails)?,
            calls: 0,
            faults: 0,
        })
    }

    /// The bytes written so far.
    pub fn held(&self) -> &[u8]
        ensures { result.now ≡ self.now.held }
    {
        self.bytes.as_slice()
    }
}

impl Sink for MemSink {
    ghost held = { λ it. Some it.held };

    ghost settled = { λ it. Some it.settled };

    ghost faults = { λ it. it.faults };

    /// Fails exactly where the number of this call is in the list, or where `piece` is not empty and the sink is full.
    /// Any other write takes as many bytes as the greatest piece, `piece` and the room left allow.
    fn write(&mut self, piece: &[u8]) -> Result<usize, Failed>
        ensures fails { IsErr result ↔ (FailsNext self.old.fails self.old.calls
            ⊎ ((0 < length piece.now) × (length self.old.held ≡ self.old.room))) }
        ensures gives { IfOk result (λ n.
            n ≡ min self.old.piece (min (length piece.now) (self.old.room - length self.old.held))) }
        ensures some { IfOk result (λ n. 0 < length piece.now → 0 < n) }
        ensures after { MatchResult result
            (λ n. self.new ≡ record self.old { held = self.old.held ++ take n piece.now; calls = counted self.old.calls })
            (λ _. self.new ≡ record self.old { calls = counted self.old.calls; faults = counted self.old.faults }) }
        ensures cause { HasCause self.old.faults self.new.faults result }
    {
        let left = self.room - self.bytes.len();
        let fails = fails_next(&self.fails, self.calls) || (!piece.is_empty() && left == 0);
        self.calls = self.calls.saturating_add(1);
        if fails {
            self.faults = self.faults.saturating_add(1);
            return Err(Failed);
        }
        let count = self.piece.min(piece.len().min(left));
        match self.bytes.extend_from_slice(&piece[..count]) {
            Ok(()) => Ok(count),
            Err(_) => unreachable!(),
        }
    }

    /// Fails exactly where the number of this call is in the list, and settles all that is held otherwise.
    fn flush(&mut self) -> Result<(), Failed>
        ensures fails { IsErr result ↔ FailsNext self.old.fails self.old.calls }
        ensures after { MatchResult result
            (λ _. self.new ≡ record self.old { settled = length self.old.held; calls = counted self.old.calls })
            (λ _. self.new ≡ record self.old { calls = counted self.old.calls; faults = counted self.old.faults }) }
        ensures cause { HasCause self.old.faults self.new.faults result }
    {
        let fails = fails_next(&self.fails, self.calls);
        self.calls = self.calls.saturating_add(1);
        if fails {
            self.faults = self.faults.saturating_add(1);
            return Err(Failed);
        }
        self.settled = self.bytes.len();
        Ok(())
    }

    ghost together = { λ _. refl };
}
