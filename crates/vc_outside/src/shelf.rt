//! Files that are read by name.

ghost use Rattle.std.specs.Prelude.{◌≡◌, ℕ, List, Option, Bool, ◌↔◌, IsTrue, IfOk};
ghost use Rattle.std.specs.Io.{ReadsAtMost};
ghost use Rattle.std.specs.Io.KnownBytes.{ReadConsumes};
ghost use Rattle.vc_outside.specs.Faults.{HasCause};
ghost use Rattle.vc_outside.specs.Shelves.{Files, Begins};

use crate::fault::Failed;

/// Whether there is a file of the name.
#[derive(Clone, Copy, Debug, PartialEq, Eq)]
pub enum Found {
    There,
    Missing,
}

/// Files that are read by name, one at a time.
pub trait Shelf {
    // What the files hold, where the shelf tells it.
    ghost files: { Self → Option Files };

    // The bytes that are left of the file begun, where the shelf tells them.
    ghost left: { Self → Option (List ℕ) };

    // Whether a file is begun.
    ghost is_begun: { Self → Bool };

    // How many calls failed, or the last value of a `u64`.
    ghost faults: { Self → ℕ };

    /// Begins the file of this name at its first byte.
    fn begin(&mut self, name: &str) -> Result<Found, Failed>
        ensures found { IfOk result (λ found. Begins (files self.old) name.now found (left self.new)) }
        ensures begun { IsTrue (is_begun self.new) ↔ (result ≡ Ok Found.There) }
        ensures files { files self.new ≡ files self.old }
        ensures cause { HasCause (faults self.old) (faults self.new) result };

    /// Reads bytes of the file begun to the front of the buffer, and says how many: for a buffer
    /// that isn't empty, 0 at the end alone. After an error none was read.
    fn read(&mut self, buffer: &mut [u8]) -> Result<usize, Failed>
        requires { IsTrue (is_begun self.old) }
        ensures within { ReadsAtMost result buffer.new }
        ensures bytes { ReadConsumes (left self.old) (left self.new) result buffer.new }
        ensures begun { IsTrue (is_begun self.new) }
        ensures files { files self.new ≡ files self.old }
        ensures cause { HasCause (faults self.old) (faults self.new) result };
}
