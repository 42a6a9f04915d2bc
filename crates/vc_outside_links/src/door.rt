//! A door at which links come.

ghost use Rattle.std.specs.Prelude.{◌≡◌, ℕ, List, Option, Bool, false, IsSome, IsTrue, is_ok};
ghost use Rattle.vc_outside.specs.Faults.{HasCause};
ghost use Rattle.vc_outside_links.specs.Doors.{Finishes, Listens, Takes};

use crate::link::Link;
use vc_outside::Failed;

/// A door at which links come, one after another. At most one of them is out at a time.
pub trait Door {
    type Conn: Link;

    // The links to come, and those that are done, in their order, where the door tells them.
    ghost coming: { Self → Option (List Self.Conn) };

    ghost finished: { Self → Option (List Self.Conn) };

    // Where it listens, if it does: at the address of the last `listen` that succeeded.
    ghost address: { Self → Option (List ℕ) };

    // Whether a link is out.
    ghost is_out: { Self → Bool };

    // How many calls failed, or the last value of a `u64`.
    ghost faults: { Self → ℕ };

    /// Listens at this address. After an error it listens where it did before.
    fn listen(&mut self, place: &str) -> Result<(), Failed>
        ensures address { Listens (address self.old) (address self.new) place.now result }
        ensures coming { coming self.new ≡ coming self.old }
        ensures finished { finished self.new ≡ finished self.old }
        ensures out { is_out self.new ≡ is_out self.old }
        ensures cause { HasCause (faults self.old) (faults self.new) result };

    /// The next link, which is out then. Behind the last one it fails.
    fn next(&mut self) -> Result<Self::Conn, Failed>
        requires listens { IsSome (address self.old) }
        requires home { is_out self.old ≡ false }
        ensures coming { Takes (coming self.old) (coming self.new) result }
        ensures finished { finished self.new ≡ finished self.old }
        ensures address { address self.new ≡ address self.old }
        ensures out { is_out self.new ≡ is_ok result }
        ensures cause { HasCause (faults self.old) (faults self.new) result };

    /// Ends the link that is out.
    fn done(&mut self, link: Self::Conn)
        requires out { IsTrue (is_out self.old) }
        ensures finished { Finishes (finished self.old) (finished self.new) link }
        ensures coming { coming self.new ≡ coming self.old }
        ensures address { address self.new ≡ address self.old }
        ensures home { is_out self.new ≡ false }
        ensures faults { faults self.new ≡ faults self.old };
}
