//! A sink in memory that takes pieces of a bounded size, and of which chosen puts fail.
ghost use Rattle.std.specs.Prelude.{◌≡◌, ◌≤◌, ◌<◌, ◌↔◌, ◌⊎◌, [], length, Some, Ok, IfOk, OnErr, IsErr, IsTrue, vec_capacity};
ghost use Rattle.std.specs.Io.{WritesAtMost};
ghost use Rattle.std.specs.Io.KnownBytes.{WriteAppends};
ghost use Rattle.lx_ports.specs.Counts.{Rose};

use lx_ports::{Sink, SinkFailed};
use lx_types::NoMemory;
use std::alloc::Global;

/// A sink in memory. The puts that are to fail are given by their numbers, counted from 1 over the puts of pieces that
/// are not empty.
#[derive(Drop)]
pub struct MemSink {
    bytes: Vec<u8>,
    room: usize,
    most: usize,
    failing: Vec<u64>,
    puts: u64,
    faults: u64,
    ghost room_is_there: { room ≤ vec_capacity bytes },
    ghost takes_some: { 1 ≤ most },
}

impl MemSink {
    ghost use Rattle.memory_ports.specs.MemorySink.{text_of, IsNew};

    /// A sink with room for so many bytes, which takes at most `most` of a piece. It takes its room at once.
    pub fn of(
        alloc: Global,
        room: usize,
        most: usize,
        failing: Vec<u64>,
    ) -> Result<MemSink, NoMemory>
        requires { 1 ≤ most }
        ensures { IfOk result (λ sink. IsNew sink room most failing.items) }
    {
        Ok(MemSink {
            bytes: Vec::with_capacity(alloc, room)?,
            room,
            most,
            failing,
            puts: 0,
            faults: 0,
        })
    }

    /// All the bytes that it took.
    pub fn written(&self) -> &[u8]
        ensures { result.now ≡ text_of self.now }
    {
        &self.bytes
    }
}

impl MemSink {
    ghost use Rattle.memory_ports.specs.MemorySink.{PutIsToFail, IsFull};

    // Whether the next put of a piece that is not empty is to fail, or finds no room.
    fn refuses_next(&self) -> bool
        ensures { IsTrue result ↔ (PutIsToFail self.now ⊎ IsFull self.now) }
    {
        self.failing.contains(&self.puts.saturating_add(1)) || self.bytes.len() >= self.room
    }
}

impl Sink for MemSink {
    ghost use Rattle.memory_ports.specs.MemorySink.{text_of, share, PutIsToFail, IsFull, IsOnePutLater};

    ghost state = { λ sink. record { contents = Some (text_of sink); faults = sink.faults } };

    fn put(&mut self, bytes: &[u8]) -> Result<usize, SinkFailed>
        ensures share { IfOk result (λ count. count ≡ share self.old (length bytes.now)) }
        ensures planned { IsErr result
            ↔ ((0 < length bytes.now) × (PutIsToFail self.old ⊎ IsFull self.old)) }
        ensures numbered { IsOnePutLater (length bytes.now) self.old self.new }

        ensures at_most { WritesAtMost result bytes.now }
        ensures at_least { IfOk result (λ count. 0 < length bytes.now → 0 < count) }
        ensures appended { WriteAppends (⟦<MemSink as Sink>⟧.state self.old).contents
            (⟦<MemSink as Sink>⟧.state self.new).contents result bytes.now }
        ensures failed { OnErr result (Rose (⟦<MemSink as Sink>⟧.state self.old).faults
            (⟦<MemSink as Sink>⟧.state self.new).faults) }
        ensures faults_stand { (⟦<MemSink as Sink>⟧.state self.old).faults
            ≤ (⟦<MemSink as Sink>⟧.state self.new).faults }
        ensures empty { bytes.now ≡ [] → result ≡ Ok 0 }
        ensures empty_state { bytes.now ≡ []
            → ⟦<MemSink as Sink>⟧.state self.new ≡ ⟦<MemSink as Sink>⟧.state self.old }
    {
        if bytes.is_empty() {
            return Ok(0);
        }
        let refused = self.refuses_next();
        self.puts = self.puts.saturating_add(1);
        if refused {
            self.faults = self.faults.saturating_add(1);
            return Err(SinkFailed);
        }
        let count = bytes.len().min(self.most).min(self.room - self.bytes.len());
        match self.bytes.extend_from_slice(&bytes[..count]) {
            Ok(()) => Ok(count),
            Err(_) => unreachable!(),
        }
    }
}
