ghost use Rattle.std.specs.Prelude.{◌≡◌, ◌<◌, ◌≤◌, ◌+◌, ◌-◌, ◌↔◌, [], Some, length, min, IsOk, IsErr, IfOk, MatchResult, ◌++◌, take, refl};
ghost use Rattle.il_edge.specs.Faults.{HasCause};
ghost use Rattle.il_edge.specs.Memory.{counted};

use crate::{Failed, Sink};
use il_core::NoMemory;
use std::alloc::Global;
use std::marker::Model;

/// A sink in memory that fails only where it is full. It takes no memory after it is made.
#[derive(Drop)]
pub struct SureSink {
    bytes: Vec<u8>,
    settled: usize,
    limit: usize,
    faults: u64,
}

impl Model for SureSink {
    ghost use Rattle.std.specs.Prelude.{◌≡◌, ℕ, ◌<◌, ◌≤◌, ◌-◌, length, vec_capacity};
    ghost use Rattle.il_edge.specs.Memory.{SureOutput};

    ghost Value = { SureOutput };

    ghost view = { λ it. record { held = it.bytes.items; settled = it.settled; room = it.limit - length it.bytes.items; faults = it.faults } };

    ghost invariant = { λ it. (length it.bytes.items ≤ it.limit) × (it.limit ≤ vec_capacity it.bytes)
        × (length it.bytes.items < it.limit → it.faults ≡ 0) };
}

impl SureSink {
    /// An empty sink with room for `room` bytes, which are taken from memory at once.
    pub fn new(alloc: Global, room: usize) -> Result<SureSink, NoMemory>
        ensures { IfOk result (λ sink. sink ≡ record { held = []; settled = 0; room = room; faults = 0 }) }
    {
        let bytes = Vec::with_capacity(alloc, room)?;
        Ok(SureSink {
            bytes,
            settled: 0,
            limit: room,
            faults: 0,
        })
    }

    /// The bytes written so far.
    pub fn held(&self) -> &[u8]
        ensures { result.now ≡ self.now.held }
    {
        self.bytes.as_slice()
    }

    /// How many more bytes fit. While there is room the count of faults is 0.
    pub fn room(&self) -> usize
        ensures room { result ≡ self.now.room }
        ensures unfailed { 0 < self.now.room → self.now.faults ≡ 0 }
    {
        self.limit - self.bytes.len()
    }
}

impl Sink for SureSink {
    ghost held = { λ it. Some it.held };

    ghost settled = { λ it. Some it.settled };

    ghost faults = { λ it. it.faults };

    /// Takes as many bytes as there is room for. It fails exactly where `piece` is not empty and no room is left.
    fn write(&mut self, piece: &[u8]) -> Result<usize, Failed>
        ensures fails { IsErr result ↔ ((0 < length piece.now) × (self.old.room ≡ 0)) }
        ensures gives { IfOk result (λ n. n ≡ min (length piece.now) self.old.room) }
        ensures enough { length piece.now ≤ self.old.room → result ≡ Ok (length piece.now) }
        ensures after { MatchResult result
            (λ n. self.new ≡ record self.old { held = self.old.held ++ take n piece.now; room = self.old.room - n })
            (λ _. self.new ≡ record self.old { faults = counted self.old.faults }) }
        ensures cause { HasCause self.old.faults self.new.faults result }
        ensures unfailed { 0 < self.new.room → self.new.faults ≡ 0 }
    {
        let count = piece.len().min(self.limit - self.bytes.len());
        if count == 0 && !piece.is_empty() {
            self.faults = self.faults.saturating_add(1);
            return Err(Failed);
        }
        match self.bytes.extend_from_slice(&piece[..count]) {
            Ok(()) => Ok(count),
            Err(_) => unreachable!(),
        }
    }

    /// Settles all that is held. It never fails.
    fn flush(&mut self) -> Result<(), Failed>
        ensures never { IsOk result }
        ensures after { self.new ≡ record self.old { settled = length self.old.held } }
    {
        self.settled = self.bytes.len();
        Ok(())
    }

    ghost together = { λ _. refl };
}
