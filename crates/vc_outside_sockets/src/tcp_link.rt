//! A link over TCP.

ghost use Rattle.std.specs.Prelude.{◌≡◌, ◌≤◌, None};
ghost use Rattle.vc_outside.specs.Faults.{Raised};

use std::io::{Read, Write};
use std::net::{OpenStream, Shutdown};
use std::time::Duration;
use vc_outside::Failed;
use vc_outside_links::Link;

/// A call fails where the client sends nothing, or takes nothing, for so many seconds.
const PATIENCE: u64 = 30;

/// When a link is done, so many seconds are waited for each piece that the client still sends, and for so many pieces.
const LAST_PATIENCE: u64 = 1;

const LAST_PIECES: u32 = 32;

/// A stream that is read and written to. It tells nothing of what it holds, and counts the calls that failed.
#[derive(Drop)]
pub struct TcpLink<S> {
    stream: S,
    faults: u64,
}

impl<S: Read + Write> TcpLink<S> {
    /// A link over this stream, with no fault.
    pub fn new(stream: S) -> TcpLink<S>
        ensures { result ≡ record { stream = stream; faults = 0 } }
    {
        TcpLink { stream, faults: 0 }
    }

    fn raise(&mut self) -> Failed
        ensures later { self.old.faults ≤ self.new.faults }
        ensures raised { Raised self.old.faults self.new.faults }
        ensures stream { self.new.stream ≡ self.old.stream }
    {
        self.faults = self.faults.saturating_add(1);
        Failed
    }
}

impl<S: Read + OpenStream> TcpLink<S> {
    /// Lets no call wait for long; whether that could be set.
    pub fn limit_waits(&self) -> bool {
        let patience = Duration::from_secs(PATIENCE);
        self.stream.set_read_timeout(Some(patience)).is_ok()
            && self.stream.set_write_timeout(Some(patience)).is_ok()
    }

    /// Says that no more is written, and takes what the client still sends. The system would else throw away what was
    /// written and isn't taken yet.
    pub fn finish(&mut self) {
        let patience = Duration::from_secs(LAST_PATIENCE);
        if self.stream.shutdown(Shutdown::Write).is_err()
            || self.stream.set_read_timeout(Some(patience)).is_err()
        {
            return;
        }
        let mut piece = [0u8; 4096];
        for _ in 0..LAST_PIECES {
            match self.stream.read(&mut piece) {
                Ok(count) if count > 0 => {}
                _ => return,
            }
        }
    }
}

impl<S: Read + Write> Link for TcpLink<S> {
    ghost left = { λ _. None };

    ghost written = { λ _. None };

    ghost faults = { λ s. s.faults };

    fn read(&mut self, buffer: &mut [u8]) -> Result<usize, Failed> {
        match self.stream.read(buffer) {
            Ok(count) => Ok(count),
            Err(_) => Err(self.raise()),
        }
    }

    fn write(&mut self, bytes: &[u8]) -> Result<usize, Failed> {
        match self.stream.write(bytes) {
            Ok(taken) if taken > 0 || bytes.is_empty() => Ok(taken),
            _ => Err(self.raise()),
        }
    }
}
