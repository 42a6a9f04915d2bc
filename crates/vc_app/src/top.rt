//! The top call.

ghost use Rattle.std.specs.Prelude.{◌≡◌, ℕ, List, false};
ghost use Rattle.vc_desk.specs.Keeping.{keeping};
ghost use Rattle.vc_app_check.specs.Checking.{EndsCheck, outside};
ghost use Rattle.vc_app_verify.specs.Verifying.{EndsVerify};
ghost use Rattle.vc_app_gen.specs.Generating.{EndsGen};
ghost use Rattle.vc_app_serve.specs.Serving.{EndsServe, Service, at_door};
ghost use Rattle.vc_app_serve.specs.Visits.{links, telling};
ghost use Rattle.vc_app_run.specs.Endings.{keep_file};
ghost use Rattle.vc_app_run.specs.Exactness.{IsExact};
ghost use Rattle.vc_app_run.specs.Statuses.{IsStatus};
ghost use Rattle.vc_app.specs.Asked as asked;

use crate::words::{Command, command_of};
use std::alloc::Global;
use vc_app_check::check;
use vc_app_gen::generate;
use vc_app_run::end;
use vc_app_serve::serve;
use vc_app_verify::verify;
use vc_outside::{Keeper, Shelf, Sink};
use vc_outside_links::{Door, Link};

/// Does what the words ask, which stand behind the program's name, and answers the exit status.
pub fn desk<F: Shelf, K: Keeper, D: Door, S: Sink>(
    alloc: Global,
    words: &[String],
    shelf: &mut F,
    keeper: &mut K,
    door: &mut D,
    out: &mut S,
) -> u8
    // No link is out, neither before nor after.
    requires home { D.is_out door.old ≡ false }
    ensures home { D.is_out door.new ≡ false }
    // `check`: what the model comes to is said, and nothing else.
    ensures check { (name : List ℕ) → asked.IsCheck words.now name → EndsCheck name
        (outside (F.files shelf.old) (F.faults shelf.old) (F.faults shelf.new) (S.written out.old)
        (S.written out.new) (S.faults out.old) (S.faults out.new))
        result × (keeper.new ≡ keeper.old) }
    // `verify`: what the separate checker says of the chain file is said, and nothing else.
    ensures verify { (model chain : List ℕ) → asked.IsVerify words.now model chain → EndsVerify model chain
        (outside (F.files shelf.old) (F.faults shelf.old) (F.faults shelf.new) (S.written out.old)
        (S.written out.new) (S.faults out.old) (S.faults out.new))
        result × (keeper.new ≡ keeper.old) }
    // `gen`: the lines of the first families are written, and nothing else.
    ensures families { (count : ℕ) → asked.IsGen words.now count → EndsGen count (S.written out.old)
        (S.written out.new) (S.faults out.old) (S.faults out.new) result × (keeper.new ≡ keeper.old) }
    // `serve`: links are served in turn, each from the state that the one before it left; if not all were, why is said.
    ensures serve { (s : Service) → asked.IsServe words.now s → EndsServe
        (telling D.Conn.left D.Conn.written D.Conn.faults) s
        (outside (F.files shelf.old) (F.faults shelf.old) (F.faults shelf.new) (S.written out.old)
        (S.written out.new) (S.faults out.old) (S.faults out.new))
        (keeping (K.texts keeper.old) (K.opens keeper.old s.keep_file) (K.texts keeper.new)
        (K.faults keeper.old) (K.faults keeper.new) (K.begun keeper.new))
        ((keeper.new ≡ keeper.old) × (door.new ≡ door.old))
        (at_door (links (D.coming door.old) (D.coming door.new) (D.finished door.old) (D.finished door.new))
        (D.address door.old) (D.address door.new) (D.faults door.old) (D.faults door.new)) result }
    // Any other leaves the door as it was.
    ensures door { asked.IsNoServe words.now → door.new ≡ door.old }
    // Of any other words, what each status promises, one field a status: its cause, and what was written and saved.
    // Where there is nothing to run the keeper is as it was.
    ensures status { asked.IsOther words.now → IsStatus words.now
        (outside (F.files shelf.old) (F.faults shelf.old) (F.faults shelf.new) (S.written out.old)
        (S.written out.new) (S.faults out.old) (S.faults out.new))
        (keeping (K.texts keeper.old) (K.opens keeper.old (keep_file words.now)) (K.texts keeper.new)
        (K.faults keeper.old) (K.faults keeper.new) (K.begun keeper.new)) (keeper.new ≡ keeper.old) result }
    // Each cause that words and files decide has its own status, unless a count of faults rose or memory was wanting.
    ensures exact { asked.IsOther words.now → IsExact words.now
        (outside (F.files shelf.old) (F.faults shelf.old) (F.faults shelf.new) (S.written out.old)
        (S.written out.new) (S.faults out.old) (S.faults out.new))
        (keeping (K.texts keeper.old) (K.opens keeper.old (keep_file words.now)) (K.texts keeper.new)
        (K.faults keeper.old) (K.faults keeper.new) (K.begun keeper.new)) result }
{
    match command_of(words) {
        Command::Check(model) => check(alloc, shelf, model, out),
        Command::Verify { model, chain } => verify(alloc, shelf, model, chain, out),
        Command::Gen(count) => generate(alloc, count, out),
        Command::Serve(asked) => serve(
            alloc,
            shelf,
            asked.model,
            asked.address,
            asked.count,
            asked.keep_file,
            keeper,
            door,
            out,
        ),
        Command::Other => end(alloc, words, shelf, keeper, out).status(),
    }
}
