//! Writing the lines of the first families.

ghost use Rattle.std.specs.Prelude.{◌≡◌, ◌≤◌, ◌<◌, OnOk};
ghost use Rattle.std.specs.Result.{IsErrOf};
ghost use Rattle.vc_outside.specs.Faults.{Raised};
ghost use Rattle.vc_app_gen.specs.Generating as generating;
ghost use Rattle.vc_app_gen.specs.declared.generating.GenFault.TheVariants as faults;

use crate::asking::Unmade;
use crate::families::family_line;
use std::alloc::Global;
use vc_outside::{Failed, Sink, write_all};

const NO_MEMORY: &[u8] = b"no memory\n";

/// Why not all lines were written.
#[derive(Clone, Copy, Debug, PartialEq, Eq)]
pub enum GenFault {
    OutOfMemory,
    Sink,
}

impl From<Unmade> for GenFault {
    ghost from_gives = { λ _ fault. fault ≡ faults.OutOfMemory };

    fn from(_unmade: Unmade) -> GenFault {
        GenFault::OutOfMemory
    }
}

impl From<Failed> for GenFault {
    ghost from_gives = { λ _ fault. fault ≡ faults.Sink };

    fn from(_failed: Failed) -> GenFault {
        GenFault::Sink
    }
}

/// Makes a family and writes its line. For want of memory nothing is written.
fn write_family<S: Sink>(alloc: Global, family: u32, out: &mut S) -> Result<(), GenFault>
    ensures done { OnOk result (generating.WritesLine family (S.written out.old) (S.written out.new)) }
    ensures memory { IsErrOf result GenFault.OutOfMemory → S.written out.new ≡ S.written out.old }
    ensures cut { IsErrOf result GenFault.Sink → generating.CutsLine family (S.written out.old)
        (S.written out.new) }
    ensures cause { IsErrOf result GenFault.Sink → Raised (S.faults out.old) (S.faults out.new) }
    ensures later { S.faults out.old ≤ S.faults out.new }
{
    let line = family_line(alloc, family)?;
    write_all(out, line.bytes())?;
    Ok(())
}

/// Makes the first so many families, and writes the line of each before the next is made. For want of memory whole
/// lines were written; where the sink failed, also a front of one more.
pub fn write_families<S: Sink>(alloc: Global, count: u32, out: &mut S) -> Result<(), GenFault>
    ensures done { OnOk result (generating.WritesLines count (S.written out.old) (S.written out.new)) }
    ensures memory { IsErrOf result GenFault.OutOfMemory → generating.WritesSome count (S.written out.old)
        (S.written out.new) }
    ensures cut { IsErrOf result GenFault.Sink → generating.BreaksOff count (S.written out.old)
        (S.written out.new) }
    ensures cause { IsErrOf result GenFault.Sink → Raised (S.faults out.old) (S.faults out.new) }
    ensures later { S.faults out.old ≤ S.faults out.new }
{
    for place in 0..count {
        write_family(alloc, place + 1, out)?;
    }
    Ok(())
}

/// How `gen` ended.
#[derive(Clone, Copy, Debug, PartialEq, Eq)]
pub enum Ended {
    /// All lines were written.
    Whole,
    /// Memory was wanting behind a line, and it was said.
    Exhausted,
    /// The sink failed in a line.
    LineCut,
    /// The sink failed while it was said that memory was wanting.
    ExhaustedCut,
}

impl Ended {
    /// The exit status.
    pub fn status(self) -> u8
        ensures { result ≡ generating.status_of self }
    {
        match self {
            Ended::Whole => 0,
            Ended::Exhausted => 8,
            Ended::LineCut | Ended::ExhaustedCut => 5,
        }
    }
}

fn say_exhausted<S: Sink>(out: &mut S) -> Ended
    ensures ends { generating.IsExhausted (S.written out.old) (S.written out.new) (S.faults out.old)
        (S.faults out.new) result }
    ensures later { S.faults out.old ≤ S.faults out.new }
{
    match write_all(out, NO_MEMORY) {
        Ok(()) => Ended::Exhausted,
        Err(Failed) => Ended::ExhaustedCut,
    }
}

/// Makes the first so many families, and says how it ended.
#[tactic(auto, using(crate::proofs::GenLaws::exhausted))]
fn end<S: Sink>(alloc: Global, count: u32, out: &mut S) -> Ended
    ensures ends { generating.EndsAs count (S.written out.old) (S.written out.new) (S.faults out.old)
        (S.faults out.new) result }
    ensures later { S.faults out.old ≤ S.faults out.new }
{
    match write_families(alloc, count, out) {
        Ok(()) => Ended::Whole,
        Err(GenFault::OutOfMemory) => say_exhausted(out),
        Err(GenFault::Sink) => Ended::LineCut,
    }
}

/// The command `gen`: makes the first so many families, writes what each tells, and answers the exit status.
pub fn generate<S: Sink>(alloc: Global, count: u32, out: &mut S) -> u8
    ensures ends { generating.EndsGen count (S.written out.old) (S.written out.new) (S.faults out.old)
        (S.faults out.new) result }
    ensures later { S.faults out.old ≤ S.faults out.new }
{
    end(alloc, count, out).status()
}
