//! A run: the lines of a script, answered by the desk of a model's plan.

ghost use Rattle.std.specs.Prelude.{◌≡◌, ◌≤◌, ◌<◌, IsSome, OnOk};
ghost use Rattle.std.specs.Result.{IsErrOf};
ghost use Rattle.vc_outside.specs.Faults.{Raised};
ghost use Rattle.vc_plan.specs.Valid.{IsValid};
ghost use Rattle.vc_app_script.specs.Transcript as transcript;
ghost use Rattle.vc_app_run.specs.Endings as endings;
ghost use Rattle.vc_app_run.specs.Endings.{keeping, outside};

use crate::ending::{Ending, Stop, say_stop, write_text};
use crate::loading::{Job, keep_file, load_job};
use std::alloc::Global;
use std::marker::Brand;
use std::sync::ledger::{Blank, Ledger};
use vc_app_script::{ScriptFault, answer_script};
use vc_desk::Desk;
use vc_outside::{Failed, Keeper, Shelf, Sink};
use vc_plan::Plan;
use vc_value_steps::Steps;

/// Says that memory was wanting at a line.
fn say_exhausted<S: Sink>(out: &mut S) -> Ending
    ensures ends { endings.EndsExhausted (S.written out.old) (S.written out.new) result }
    ensures cause { endings.HasSinkCause (S.faults out.old) (S.faults out.new) result }
    ensures later { S.faults out.old ≤ S.faults out.new }
{
    match write_text(out, "no memory\n") {
        Ok(()) => Ending::Exhausted,
        Err(Failed) => Ending::ExhaustedCut,
    }
}

/// Answers a script with no session open at first. Steps are counted in the blank's ledger.
fn answer_from_start<K: Keeper, L: Ledger, S: Sink>(
    alloc: Global,
    plan: Plan,
    script: &[u8],
    keeper: &mut K,
    out: &mut S,
    blank: Blank,
) -> Result<(), ScriptFault>
    requires valid { IsValid plan }
    requires begun { IsSome (K.begun keeper.old) }
    requires name { blank.name ≡ L.name }
    requires parts { blank.parts ≡ L.parts }
    requires some { 0 < blank.parts }
    ensures done { OnOk result (transcript.AnswersAll plan script.now
        (keeping (K.texts keeper.old) (K.texts keeper.old) (K.texts keeper.new) (K.faults keeper.old)
        (K.faults keeper.new) (K.begun keeper.new)) (S.written out.old) (S.written out.new)) }
    ensures memory { IsErrOf result ScriptFault.OutOfMemory → transcript.AnswersSome plan script.now
        (keeping (K.texts keeper.old) (K.texts keeper.old) (K.texts keeper.new) (K.faults keeper.old)
        (K.faults keeper.new) (K.begun keeper.new)) (S.written out.old) (S.written out.new) }
    ensures cut { IsErrOf result ScriptFault.Sink → transcript.BreaksOff plan script.now
        (keeping (K.texts keeper.old) (K.texts keeper.old) (K.texts keeper.new) (K.faults keeper.old)
        (K.faults keeper.new) (K.begun keeper.new)) (S.written out.old) (S.written out.new) }
    ensures cause { IsErrOf result ScriptFault.Sink → Raised (S.faults out.old) (S.faults out.new) }
    ensures later { S.faults out.old ≤ S.faults out.new }
    ensures begun { K.begun keeper.new ≡ K.begun keeper.old }
{
    let mut desk = Desk::new(alloc, plan);
    let mut steps: Steps<L> = Steps::new(blank);
    let answered = answer_script(alloc, &mut desk, keeper, script, out, &mut steps);
    drop(steps);
    drop(desk);
    answered
}

fn run_job<K: Keeper, S: Sink>(alloc: Global, job: Job, keeper: &mut K, out: &mut S) -> Ending
    requires valid { IsValid job.plan }
    requires begun { IsSome (K.begun keeper.old) }
    ensures ends { endings.EndsJob job
        (keeping (K.texts keeper.old) (K.texts keeper.old) (K.texts keeper.new) (K.faults keeper.old)
        (K.faults keeper.new) (K.begun keeper.new)) (S.written out.old) (S.written out.new) result }
    ensures cause { endings.HasSinkCause (S.faults out.old) (S.faults out.new) result }
    ensures later { S.faults out.old ≤ S.faults out.new }
    ensures begun { K.begun keeper.new ≡ K.begun keeper.old }
{
    let Job { plan, script } = job;
    match answer_from_start::<K, Brand, S>(
        alloc,
        plan,
        script.bytes(),
        keeper,
        out,
        Blank::new(1),
    ) {
        Ok(()) => Ending::Answered,
        Err(ScriptFault::Sink) => Ending::AnswerCut,
        Err(ScriptFault::OutOfMemory) => say_exhausted(out),
    }
}

/// Runs the script that the words ask for, and says how it ended.
pub fn end<F: Shelf, K: Keeper, S: Sink>(
    alloc: Global,
    words: &[String],
    shelf: &mut F,
    keeper: &mut K,
    out: &mut S,
) -> Ending
    ensures ends { endings.Ends words.now
        (outside (F.files shelf.old) (F.faults shelf.old) (F.faults shelf.new) (S.written out.old)
        (S.written out.new) (S.faults out.old) (S.faults out.new))
        (keeping (K.texts keeper.old) (K.opens keeper.old (endings.keep_file words.now)) (K.texts keeper.new)
        (K.faults keeper.old) (K.faults keeper.new) (K.begun keeper.new)) (keeper.new ≡ keeper.old) result }
    ensures cause { endings.HasSinkCause (S.faults out.old) (S.faults out.new) result }
{
    match load_job(alloc, shelf, words) {
        Ok(job) => match keeper.begin(keep_file(words)) {
            Ok(()) => run_job(alloc, job, keeper, out),
            Err(fault) => say_stop(alloc, out, words, Stop::Keeper(fault)),
        },
        Err(stop) => say_stop(alloc, out, words, stop),
    }
}
