//! A link to a client.

ghost use Rattle.std.specs.Prelude.{◌≡◌, ℕ, List, Option, ◌<◌, length, IfOk, OnOk, OnErr};
ghost use Rattle.std.specs.Io.{ReadsAtMost, WritesAtMost};
ghost use Rattle.std.specs.Io.KnownBytes.{Appends, ReadConsumes, WriteAppends};
ghost use Rattle.vc_outside.specs.Faults.{HasCause};
ghost use Rattle.vc_outside.specs.Sinks.{AppendsFront};

use vc_outside::Failed;

/// A link to a client, that is read and written to.
pub trait Link {
    // The bytes that are left to read, where the link tells them.
    ghost left: { Self → Option (List ℕ) };

    // The bytes that were written, where the link tells them.
    ghost written: { Self → Option (List ℕ) };

    // How many calls failed, or the last value of a `u64`.
    ghost faults: { Self → ℕ };

    /// Reads bytes to the front of the buffer, and says how many: for a buffer that isn't empty, 0 at
    /// the end alone. After an error none was read.
    fn read(&mut self, buffer: &mut [u8]) -> Result<usize, Failed>
        ensures within { ReadsAtMost result buffer.new }
        ensures bytes { ReadConsumes (left self.old) (left self.new) result buffer.new }
        ensures written { written self.new ≡ written self.old }
        ensures cause { HasCause (faults self.old) (faults self.new) result };

    /// Writes bytes of the front of the piece, and says how many: for a piece that isn't empty, one
    /// at least. After an error none was written.
    fn write(&mut self, bytes: &[u8]) -> Result<usize, Failed>
        ensures within { WritesAtMost result bytes.now }
        ensures moves { 0 < length bytes.now → IfOk result (λ taken. 0 < taken) }
        ensures bytes { WriteAppends (written self.old) (written self.new) result bytes.now }
        ensures left { left self.new ≡ left self.old }
        ensures cause { HasCause (faults self.old) (faults self.new) result };
}

/// Writes the whole piece. After an error a front of it was written.
pub fn send_all<L: Link>(link: &mut L, bytes: &[u8]) -> Result<(), Failed>
    ensures ok { OnOk result (Appends (L.written link.old) (L.written link.new) bytes.now) }
    ensures err { OnErr result (AppendsFront (L.written link.old) (L.written link.new) bytes.now) }
    ensures left { L.left link.new ≡ L.left link.old }
    ensures cause { HasCause (L.faults link.old) (L.faults link.new) result }
{
    let mut rest = bytes;
    while !rest.is_empty() {
        let taken = link.write(rest)?;
        rest = &rest[taken..];
    }
    Ok(())
}
