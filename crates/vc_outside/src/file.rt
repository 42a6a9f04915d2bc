//! A file read whole, up to a limit.

ghost use Rattle.std.specs.Prelude.{◌≡◌, ◌≤◌, vec_len, IfOk, OnOk};
ghost use Rattle.std.specs.Result.{IsErrOf};
ghost use Rattle.vc_outside.specs.Faults.{Raised};
ghost use Rattle.vc_outside.specs.Shelves.{Holds, Lacks, Exceeds};
ghost use Rattle.vc_outside.specs.declared.file.FileFault.TheVariants as causes;

use crate::fault::Failed;
use crate::shelf::{Found, Shelf};
use std::alloc::{AllocError, Global};

/// The most bytes that a file may have.
pub const FILE_LIMIT: usize = 16_777_216;

const PIECE: usize = 4096;

/// Why a file was not read.
#[derive(Clone, Copy, Debug, PartialEq, Eq)]
pub enum FileFault {
    Missing,
    Failed,
    TooLarge,
    OutOfMemory,
}

impl From<Failed> for FileFault {
    ghost from_gives = { λ _ fault. fault ≡ causes.Failed };

    fn from(_failed: Failed) -> FileFault {
        FileFault::Failed
    }
}

impl From<AllocError> for FileFault {
    ghost from_gives = { λ _ fault. fault ≡ causes.OutOfMemory };

    fn from(_error: AllocError) -> FileFault {
        FileFault::OutOfMemory
    }
}

/// The whole file of this name. Whatever the answer, no more than the limit and one piece is kept,
/// and the shelf may have a file begun.
pub fn read_whole<F: Shelf>(alloc: Global, shelf: &mut F, name: &str) -> Result<Vec<u8>, FileFault>
    ensures holds { IfOk result (λ bytes. Holds (F.files shelf.old) name.now bytes.items) }
    ensures within { IfOk result (λ bytes. vec_len bytes ≤ FILE_LIMIT) }
    ensures missing { IsErrOf result FileFault.Missing → Lacks (F.files shelf.old) name.now }
    ensures too_large { IsErrOf result FileFault.TooLarge → Exceeds FILE_LIMIT (F.files shelf.old) name.now }
    ensures failed { IsErrOf result FileFault.Failed → Raised (F.faults shelf.old) (F.faults shelf.new) }
    ensures files { F.files shelf.new ≡ F.files shelf.old }
    ensures later { F.faults shelf.old ≤ F.faults shelf.new }
    ensures calm { OnOk result (F.faults shelf.new ≡ F.faults shelf.old) }
{
    match shelf.begin(name)? {
        Found::There => {}
        Found::Missing => return Err(FileFault::Missing),
    }
    let mut buffer = [0u8; PIECE];
    let mut bytes = Vec::new(alloc);
    while bytes.len() <= FILE_LIMIT {
        let count = shelf.read(&mut buffer)?;
        if count == 0 {
            return Ok(bytes);
        }
        bytes.extend_from_slice(&buffer[..count])?;
    }
    Err(FileFault::TooLarge)
}
