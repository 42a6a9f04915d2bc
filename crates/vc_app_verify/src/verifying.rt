//! The command `verify`.

ghost use Rattle.vc_app_check.specs.Checking.{IsSaid, outside};
ghost use Rattle.vc_app_verify.specs.Telling.{told_or_memory};
ghost use Rattle.vc_app_verify.specs.Verifying as verifying;

use crate::claims::load_claim;
use crate::telling::{Told, claim_told, stop_told};
use std::alloc::{AllocError, Global};
use vc_app_check::checking::say;
use vc_outside::{Shelf, Sink};

// Writes what is told, or that there was no memory for it, and answers the status.
fn say_told<S: Sink>(out: &mut S, told: Result<Told, AllocError>) -> u8
    ensures { IsSaid (S.written out.old) (S.written out.new) (S.faults out.old) (S.faults out.new)
        (told_or_memory told).line (told_or_memory told).status result }
{
    match told {
        Ok(told) => say(out, told.line.bytes(), told.status),
        Err(_) => say(out, b"no memory\n", 8),
    }
}

/// Reads the model of this name with its tables, then the chain file of the other name, and writes what the
/// separate checker says of it, or the first thing that is wrong. Answers the exit status: 0 where the chain is
/// accepted, 9 where it isn't, 10 where the file is no chain file of the model, and otherwise as `check`.
pub fn verify<F: Shelf, S: Sink>(
    alloc: Global,
    shelf: &mut F,
    model: &str,
    chain: &str,
    out: &mut S,
) -> u8
    ensures ends { verifying.EndsVerify model.now chain.now
        (outside (F.files shelf.old) (F.faults shelf.old) (F.faults shelf.new) (S.written out.old)
        (S.written out.new) (S.faults out.old) (S.faults out.new))
        result }
{
    match load_claim(alloc, shelf, model, chain) {
        Ok(claim) => {
            let told = claim_told(alloc, &claim);
            drop(claim);
            say_told(out, told)
        }
        Err(stop) => {
            let told = stop_told(alloc, model, chain, &stop);
            drop(stop);
            say_told(out, told)
        }
    }
}
