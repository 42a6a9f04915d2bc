//! A file read whole, as a word.

ghost use Rattle.std.specs.Prelude.{◌≡◌, ◌≤◌, length, IfOk, IfErr};
ghost use Rattle.vc_outside.specs.Shelves.{Holds};
ghost use Rattle.vc_outside.specs.declared.file.TheConstants.{FILE_LIMIT};
ghost use Rattle.vc_app_models.specs.Loading as loading;

use std::alloc::Global;
use vc_outside::{FileFault, Shelf, read_whole};
use vc_value::Word;

/// What the file of this name holds.
pub fn read_file<F: Shelf>(alloc: Global, shelf: &mut F, name: &str) -> Result<Word, FileFault>
    ensures holds { IfOk result (λ bytes. Holds (F.files shelf.old) name.now bytes) }
    ensures small { IfOk result (λ bytes. length bytes ≤ FILE_LIMIT) }
    ensures unread { IfErr result (loading.IsUnread (F.files shelf.old) (F.faults shelf.old)
        (F.faults shelf.new) name.now) }
    ensures files { F.files shelf.new ≡ F.files shelf.old }
    ensures later { F.faults shelf.old ≤ F.faults shelf.new }
{
    let bytes = read_whole(alloc, shelf, name)?;
    Ok(Word::from_vec(bytes))
}
