//! A sink in memory, for tests.

ghost use Rattle.std.specs.Prelude.{◌≡◌, ◌+◌, ◌-◌, ◌^◌, ◌<◌, ◌≤◌, [], ◌∷◌, ◌++◌, length, vec_len, Some, Ok, IfOk};
ghost use Rattle.std.specs.Prelude.{OnOk, OnErr};
ghost use Rattle.std.specs.Io.{WritesAtMost};
ghost use Rattle.std.specs.Io.KnownBytes.{Keeps, WriteAppends};
ghost use Rattle.vc_outside.specs.Faults.{faults_of, HasCause};
ghost use Rattle.vc_outside.specs.MemorySinks.{write_answer, with_written};

use crate::fault::{Failed, Failures};
use crate::sink::Sink;
use std::alloc::{AllocError, Global};
use std::marker::Model;

/// Bytes in memory, with room for so many and with calls that are to fail.
#[derive(Debug, Drop)]
pub struct MemSink {
    written: Vec<u8>,
    room: usize,
    refused: u64,
    failures: Failures,
}

impl Model for MemSink {
    ghost use Rattle.std.specs.Prelude.{vec_capacity, vec_len, ◌≤◌};
    ghost use Rattle.vc_outside.specs.MemorySinks.{SinkState};

    ghost Value = { SinkState };

    ghost view = { λ s. record { written = s.written.items; room = s.room; refused = s.refused; calls = s.failures } };

    ghost invariant = { λ s. (s.room ≤ vec_capacity s.written) × (vec_len s.written ≤ s.room) };
}

impl MemSink {
    /// An empty sink with room for so many bytes, of which no call is to fail.
    pub fn with_room(alloc: Global, room: usize) -> Result<MemSink, AllocError>
        ensures { IfOk result (λ sink. sink ≡ record {
          written = [];
          room = room;
          refused = 0;
          calls = record { made = 0; failing = [] };
        }) }
    {
        let written = Vec::with_capacity(alloc, room)?;
        Ok(MemSink {
            written,
            room,
            refused: 0,
            failures: Failures::new(alloc),
        })
    }

    /// Lets the call of this number, counted from 1, fail. After an error nothing changed.
    pub fn fail_at(&mut self, call: u64) -> Result<(), AllocError>
        ensures ok { OnOk result (self.new
            ≡ record self.old { calls = record self.old.calls { failing = self.old.calls.failing ++ call ∷ [] } }) }
        ensures err { OnErr result (self.new ≡ self.old) }
    {
        self.failures.fail_at(call)
    }

    /// The bytes that were written.
    pub fn written(&self) -> &[u8]
        ensures { result.now ≡ self.now.written }
    {
        self.written.as_slice()
    }
}

impl Sink for MemSink {
    ghost use Rattle.std.specs.Prelude.{Some};

    ghost written = { λ s. Some s.written };

    ghost faults = { λ s. faults_of s.calls + s.refused };

    // It fails where the call is one that is to fail or no byte finds room, and nowhere else.
    fn write(&mut self, bytes: &[u8]) -> Result<usize, Failed>
        ensures within { WritesAtMost result bytes.now }
        ensures moves { 0 < length bytes.now → IfOk result (λ taken. 0 < taken) }
        ensures bytes { WriteAppends (Some self.old.written) (Some self.new.written) result bytes.now }
        ensures cause { HasCause (faults_of self.old.calls + self.old.refused) (faults_of self.new.calls +
            self.new.refused) result }
        ensures answer { result ≡ write_answer self.old bytes.now }
        ensures state { self.new ≡ with_written self.old bytes.now }
    {
        if self.failures.next_fails() {
            return Err(Failed);
        }
        let taken = bytes.len().min(self.room - self.written.len());
        if taken == 0 && !bytes.is_empty() {
            self.refused = self.refused.saturating_add(1);
            return Err(Failed);
        }
        match self.written.extend_from_slice(&bytes[..taken]) {
            Ok(()) => Ok(taken),
            Err(_) => unreachable!(),
        }
    }

    // Nothing is kept back.
    fn flush(&mut self) -> Result<(), Failed>
        ensures bytes { Keeps (Some self.old.written) (Some self.new.written) }
        ensures cause { HasCause (faults_of self.old.calls + self.old.refused) (faults_of self.new.calls +
            self.new.refused) result }
        ensures answer { result ≡ Ok tt }
        ensures state { self.new ≡ self.old }
    {
        Ok(())
    }
}
