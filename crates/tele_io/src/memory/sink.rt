//! A sink in memory.

ghost use Rattle.std.specs.Prelude.{◌≡◌, length, IsErr, IfOk, IsTrue, OnOk, OnErr, is_err};
ghost use Rattle.tele_io.specs.Views.{Sends};
ghost use Rattle.tele_io.specs.Calls.{Receives};
ghost use Rattle.tele_io.specs.Memory.{empty_stream, called, fails_next, planned, sink_view};

use crate::memory::schedule::Schedule;
use crate::sink::{Sink, SinkFault};
use std::alloc::{AllocError, Global};
use std::marker::Model;

/// A sink that tells what it holds, and fails where it was told to or wants memory.
#[derive(Drop)]
pub struct MemSink {
    bytes: Vec<u8>,
    writes: Schedule,
    faults: u64,
}

impl Model for MemSink {
    ghost use Rattle.tele_io.specs.Memory.{Stream};

    ghost Value = { Stream };

    ghost view = { λ s. record { bytes = s.bytes.items; writes = s.writes; faults = s.faults } };
}

impl MemSink {
    /// A sink without bytes.
    pub fn new(alloc: Global) -> MemSink
        ensures { result ≡ empty_stream }
    {
        MemSink {
            bytes: Vec::new(alloc),
            writes: Schedule::new(alloc),
            faults: 0,
        }
    }

    pub fn bytes(&self) -> &[u8]
        ensures { result.now ≡ self.now.bytes }
    {
        self.bytes.as_slice()
    }

    /// Lets the nth write fail, counted from 1.
    pub fn fail(&mut self, nth: u64) -> Result<(), AllocError>
        ensures ok { OnOk result
            (self.new ≡ record self.old { writes = planned nth self.old.writes }) }
        ensures err { OnErr result (self.new ≡ self.old) }
    {
        self.writes.fail(nth)
    }
}

impl Sink for MemSink {
    ghost use Rattle.tele_io.specs.Memory.{sink_view};

    ghost seen = { sink_view };

    /// Takes the whole piece.
    fn write(&mut self, piece: &[u8]) -> Result<usize, SinkFault>
        ensures whole { IfOk result (λ n. n ≡ length piece.now) }
        ensures write { Sends (is_err result) (Receives piece.now result)
            (sink_view self.old) (sink_view self.new) }
        // When it fails, want of memory aside, and what counts the call.
        ensures planned { IsTrue (fails_next self.old.writes) → IsErr result }
        ensures counted { self.new.writes ≡ called self.old.writes }
    {
        if !self.writes.call() && self.bytes.extend_from_slice(piece).is_ok() {
            return Ok(piece.len());
        }
        self.faults = self.faults.saturating_add(1);
        Err(SinkFault)
    }
}
