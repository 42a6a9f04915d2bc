//! A link in memory, for tests.

ghost use Rattle.std.specs.Prelude.{◌≡◌, ◌+◌, ◌<◌, ◌≤◌, [], ◌∷◌, ◌++◌, take, drop, length, min, Some};
ghost use Rattle.std.specs.Prelude.{IfOk, OnOk, OnErr};
ghost use Rattle.std.specs.Io.{ReadsAtMost, WritesAtMost};
ghost use Rattle.std.specs.Io.KnownBytes.{ReadConsumes, WriteAppends};
ghost use Rattle.vc_outside.specs.Faults.{faults_of, HasCause};
ghost use Rattle.vc_outside.specs.MemorySinks.{write_answer};
ghost use Rattle.vc_outside_links.specs.MemoryLinks.{read_answer, with_read, with_written};

use crate::counting::count_call;
use crate::link::Link;
use std::alloc::{AllocError, Global};
use std::marker::Model;
use vc_outside::{Failed, MemSink, Sink};

/// Bytes in memory that are read, at most so many at once, and a sink for those that are written, with calls that are
/// to fail. The sink counts the calls of both kinds.
#[derive(Debug, Drop)]
pub struct MemLink {
    content: Vec<u8>,
    read: usize,
    piece: usize,
    sink: MemSink,
}

impl Model for MemLink {
    ghost use Rattle.std.specs.Prelude.{vec_len, drop, ◌≤◌, ◌<◌};
    ghost use Rattle.vc_outside_links.specs.MemoryLinks.{LinkState};

    ghost Value = { LinkState };

    ghost view = { λ s. record { left = drop s.read s.content.items; piece = s.piece; sink = s.sink } };

    ghost invariant = { λ s. (s.read ≤ vec_len s.content) × (0 < s.piece) };
}

impl MemLink {
    /// A link that gives these bytes, of which one read gives at most so many, with room for so many that are written.
    /// No call is to fail.
    pub fn new(
        alloc: Global,
        bytes: &[u8],
        piece: usize,
        room: usize,
    ) -> Result<MemLink, AllocError>
        requires { 0 < piece }
        ensures { IfOk result (λ link. link ≡ record {
          left = bytes.now;
          piece = piece;
          sink = record { written = []; room = room; refused = 0; calls = record { made = 0; failing = [] } };
        }) }
    {
        let content = Vec::from_slice(alloc, bytes)?;
        let sink = MemSink::with_room(alloc, room)?;
        Ok(MemLink {
            content,
            read: 0,
            piece,
            sink,
        })
    }

    /// Lets the call of this number, counted from 1, fail. After an error nothing changed.
    pub fn fail_at(&mut self, call: u64) -> Result<(), AllocError>
        ensures ok { OnOk result (self.new ≡ record self.old {
          sink = record self.old.sink {
            calls = record self.old.sink.calls { failing = self.old.sink.calls.failing ++ call ∷ [] };
          };
        }) }
        ensures err { OnErr result (self.new ≡ self.old) }
    {
        self.sink.fail_at(call)
    }

    /// The bytes that were written.
    pub fn written(&self) -> &[u8]
        ensures { result.now ≡ self.now.sink.written }
    {
        self.sink.written()
    }
}

impl Link for MemLink {
    ghost use Rattle.std.specs.Prelude.{Some};

    ghost left = { λ s. Some s.left };

    ghost written = { λ s. Some s.sink.written };

    ghost faults = { λ s. faults_of s.sink.calls + s.sink.refused };

    // It fails where the call is one that is to fail, and nowhere else.
    fn read(&mut self, buffer: &mut [u8]) -> Result<usize, Failed>
        ensures within { ReadsAtMost result buffer.new }
        ensures bytes { ReadConsumes (Some self.old.left) (Some self.new.left) result buffer.new }
        ensures written { Some self.new.sink.written ≡ Some self.old.sink.written }
        ensures cause { HasCause (faults_of self.old.sink.calls + self.old.sink.refused)
            (faults_of self.new.sink.calls + self.new.sink.refused) result }
        ensures answer { result ≡ read_answer self.old (length buffer.old) }
        ensures state { self.new ≡ with_read self.old (length buffer.old) }
    {
        count_call(&mut self.sink)?;
        let count = copy_front(rest_of(&self.content, self.read), self.piece, buffer);
        self.read += count;
        Ok(count)
    }

    // It fails where the call is one that is to fail or no byte finds room, and nowhere else.
    fn write(&mut self, bytes: &[u8]) -> Result<usize, Failed>
        ensures within { WritesAtMost result bytes.now }
        ensures moves { 0 < length bytes.now → IfOk result (λ taken. 0 < taken) }
        ensures bytes { WriteAppends (Some self.old.sink.written) (Some self.new.sink.written) result bytes.now }
        ensures left { Some self.new.left ≡ Some self.old.left }
        ensures cause { HasCause (faults_of self.old.sink.calls + self.old.sink.refused)
            (faults_of self.new.sink.calls + self.new.sink.refused) result }
        ensures answer { result ≡ write_answer self.old.sink bytes.now }
        ensures state { self.new ≡ with_written self.old bytes.now }
    {
        self.sink.write(bytes)
    }
}

fn rest_of(bytes: &[u8], count: usize) -> &[u8]
    requires { count ≤ length bytes.now }
    ensures { result.now ≡ drop count bytes.now }
{
    &bytes[count..]
}

// Copies as many bytes as there is room for, at most so many, and answers how many.
fn copy_front(bytes: &[u8], most: usize, buffer: &mut [u8]) -> usize
    ensures count { result ≡ min (length bytes.now) (min most (length buffer.old)) }
    ensures copied { take result buffer.new ≡ take result bytes.now }
{
    let count = bytes.len().min(most.min(buffer.len()));
    buffer[..count].copy_from_slice(&bytes[..count]);
    count
}
