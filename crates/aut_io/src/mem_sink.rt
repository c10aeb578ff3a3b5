//! A sink in memory whose writes fail where that was asked for, and where it is full.

ghost use Rattle.std.specs.Prelude.{◌≡◌, ◌+◌, ◌≤◌, ◌||◌, ◌++◌, [], not, nat_lt, is_err, length, take, if◌then◌else◌, IfOk, OnErr};
ghost use Rattle.aut_io.specs.InMemory.{half, is_failing, room};
ghost use Rattle.aut_io.specs.Outside.{incremented};

use crate::failing_calls::FailingCalls;
use crate::sink::Sink;
use aut_base::{Failed, Memory, Numbers};
use std::alloc::Global;
use std::marker::Model;

/// Keeps what is written, up to its capacity. A write fails where its number, counted from 0, is listed: then
/// the first half of the piece is written, rounded down, as far as it fits. It also fails where the piece
/// doesn't fit, and then what fits is written.
#[derive(Debug)]
pub struct MemSink {
    /// `capacity` bytes are allocated when the sink is made.
    written: Vec<u8>,
    capacity: u32,
    calls: FailingCalls,
    faults: u64,
}

// Written down, so that it is proved here alone.
impl Drop for MemSink {
    fn drop(self) {
        let MemSink {
            written: _,
            capacity: _,
            calls: _,
            faults: _,
        } = self;
    }
}

impl Model for MemSink {
    ghost use Rattle.std.specs.Prelude.{◌≤◌, length};
    ghost use Rattle.std.specs.Vec.{vec_capacity};
    ghost use Rattle.aut_io.specs.InMemory.{SinkState};

    ghost Value = { SinkState };

    ghost view = { λ s. record { written = s.written.items; capacity = s.capacity; failing = s.calls.listed; calls = s.calls.made; faults = s.faults } };

    ghost invariant = { λ s. (length s.written.items ≤ s.capacity) × (s.capacity ≤ vec_capacity s.written) };
}

impl MemSink {
    /// An empty sink of this capacity.
    pub fn new(alloc: Global, capacity: u32, failing: Numbers) -> Result<Self, Memory>
        ensures { IfOk result (λ sink. sink ≡ record { written = []; capacity = capacity; failing = failing; calls = 0; faults = 0 }) }
    {
        match Vec::with_capacity(alloc, capacity as usize) {
            Ok(written) => Ok(MemSink {
                written,
                capacity,
                calls: FailingCalls::new(failing),
                faults: 0,
            }),
            Err(_) => Err(Memory),
        }
    }

    /// What was written.
    pub fn bytes(&self) -> &[u8]
        ensures written { result.now ≡ self.now.written }
        ensures fits { length self.now.written ≤ self.now.capacity }
    {
        &self.written
    }

    /// Writes as much of the piece as fits, and answers whether that is all of it.
    fn keep(&mut self, piece: &[u8]) -> bool
        ensures whole { result ≡ not (nat_lt self.old.capacity (length self.old.written + length piece.now)) }
        ensures kept { self.new ≡ record self.old { written = self.old.written ++ take (room self.old) piece.now } }
    {
        let room = self.capacity as usize - self.written.len();
        let kept = piece.len().min(room);
        let _reserved = self.written.extend_from_slice(&piece[..kept]);
        kept == piece.len()
    }

    /// Counts a failed write, and returns the error.
    fn fault(&mut self) -> Failed
        ensures counted { self.new ≡ record self.old { faults = incremented self.old.faults } }
        ensures later { self.old.faults ≤ self.new.faults }
    {
        self.faults = self.faults.saturating_add(1);
        Failed
    }
}

impl Sink for MemSink {
    ghost use Rattle.aut_io.specs.Seen.{WritesPiece, sink_seen_of};

    ghost seen = { sink_seen_of };

    fn write(&mut self, piece: &[u8]) -> Result<(), Failed>
        // It fails exactly where the call is listed or the piece doesn't fit.
        ensures fails { is_err result ≡ (is_failing self.old.failing self.old.calls || nat_lt self.old.capacity (length self.old.written + length piece.now)) }
        ensures writes { WritesPiece (sink_seen_of self.old) piece.now result (sink_seen_of self.new) }

        // All that fits is written, of the piece or, where the call is listed, of its first half.
        ensures kept { self.new.written ≡ self.old.written ++ take (room self.old) (if is_failing self.old.failing self.old.calls then half piece.now else piece.now) }

        // It counts the call.
        ensures counted { self.new.calls ≡ incremented self.old.calls }
        ensures capacity { self.new.capacity ≡ self.old.capacity }
        ensures failing { self.new.failing ≡ self.old.failing }
    {
        if self.calls.count() {
            let _whole = self.keep(&piece[..piece.len() / 2]);
            return Err(self.fault());
        }
        if !self.keep(piece) {
            return Err(self.fault());
        }
        Ok(())
    }
}
