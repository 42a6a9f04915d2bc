//! Answering the lines of a script, one after another.

ghost use Rattle.std.specs.Prelude.{◌≡◌, ◌≤◌, IfOk, IsSome, OnOk};
ghost use Rattle.std.specs.Result.{IsErrOf};
ghost use Rattle.vc_outside.specs.Faults.{Raised};
ghost use Rattle.vc_desk.specs.Desks.{IsDesk, state_of};
ghost use Rattle.vc_app_script.specs.Transcript as transcript;
ghost use Rattle.vc_app_script.specs.declared.transcript.ScriptFault.TheVariants as faults;

use crate::script::{is_skipped, next_line};
use std::alloc::{AllocError, Global};
use std::sync::ledger::Ledger;
use vc_desk::Desk;
use vc_outside::{Failed, Keeper, Sink, write_all};
use vc_value::Word;
use vc_value_steps::Steps;
use vc_wire_replies::{Reply, reply_text};
use vc_wire_requests::{Request, read_line};

/// The most bytes of a line that may be a request.
const LINE_LIMIT: usize = 4096;

fn read_request(alloc: Global, line: &[u8]) -> Result<Option<Request>, AllocError>
    ensures { IfOk result (λ request. request ≡ transcript.asked_by line.now) }
{
    if line.len() > LINE_LIMIT {
        return Ok(None);
    }
    read_line(alloc, line)
}

fn reply_to<K: Keeper, L: Ledger>(
    alloc: Global,
    desk: &mut Desk,
    keeper: &mut K,
    request: &Option<Request>,
    steps: &mut Steps<L>,
) -> Reply
    requires is { IsDesk desk.old }
    requires begun { IsSome (K.begun keeper.old) }
    ensures replies { transcript.RepliesAsked desk.old.plan
        (state_of desk.old.sessions (K.texts keeper.old) (K.faults keeper.old)) request.now result
        (state_of desk.new.sessions (K.texts keeper.new) (K.faults keeper.new)) }
    ensures is { IsDesk desk.new }
    ensures plan { desk.new.plan ≡ desk.old.plan }
    ensures begun { K.begun keeper.new ≡ K.begun keeper.old }
{
    match request {
        Some(request) => desk.answer(alloc, keeper, request, steps),
        None => Reply::NotARequest,
    }
}

fn answer_asked<K: Keeper, L: Ledger>(
    alloc: Global,
    desk: &mut Desk,
    keeper: &mut K,
    request: Option<Request>,
    steps: &mut Steps<L>,
) -> Result<Word, AllocError>
    requires is { IsDesk desk.old }
    requires begun { IsSome (K.begun keeper.old) }
    ensures answers { IfOk result (λ text. transcript.AnswersAsked desk.old.plan
        (state_of desk.old.sessions (K.texts keeper.old) (K.faults keeper.old)) request text
        (state_of desk.new.sessions (K.texts keeper.new) (K.faults keeper.new))) }
    ensures leaves { transcript.LeavesAsked desk.old.plan
        (state_of desk.old.sessions (K.texts keeper.old) (K.faults keeper.old)) request
        (state_of desk.new.sessions (K.texts keeper.new) (K.faults keeper.new)) }
    ensures is { IsDesk desk.new }
    ensures plan { desk.new.plan ≡ desk.old.plan }
    ensures begun { K.begun keeper.new ≡ K.begun keeper.old }
{
    let reply = reply_to(alloc, desk, keeper, &request, steps);
    let text = reply_text(alloc, desk.plan(), &reply);
    drop(reply);
    drop(request);
    text
}

/// Why not all lines of a script were answered.
#[derive(Clone, Copy, Debug, PartialEq, Eq)]
pub enum ScriptFault {
    OutOfMemory,
    Sink,
}

impl From<AllocError> for ScriptFault {
    ghost from_gives = { λ _ fault. fault ≡ faults.OutOfMemory };

    fn from(_error: AllocError) -> ScriptFault {
        ScriptFault::OutOfMemory
    }
}

impl From<Failed> for ScriptFault {
    ghost from_gives = { λ _ fault. fault ≡ faults.Sink };

    fn from(_failed: Failed) -> ScriptFault {
        ScriptFault::Sink
    }
}

/// Answers a line and writes the answer, before the next line is looked at.
fn answer_line<K: Keeper, L: Ledger, S: Sink>(
    alloc: Global,
    desk: &mut Desk,
    keeper: &mut K,
    line: &[u8],
    out: &mut S,
    steps: &mut Steps<L>,
) -> Result<(), ScriptFault>
    requires is { IsDesk desk.old }
    requires begun { IsSome (K.begun keeper.old) }
    ensures done { OnOk result (transcript.LineDone desk.old.plan
        (state_of desk.old.sessions (K.texts keeper.old) (K.faults keeper.old)) line.now
        (state_of desk.new.sessions (K.texts keeper.new) (K.faults keeper.new))
        (S.written out.old) (S.written out.new)) }
    ensures memory { IsErrOf result ScriptFault.OutOfMemory → transcript.LineUnsaid desk.old.plan
        (state_of desk.old.sessions (K.texts keeper.old) (K.faults keeper.old)) line.now
        (state_of desk.new.sessions (K.texts keeper.new) (K.faults keeper.new))
        (S.written out.old) (S.written out.new) }
    ensures cut { IsErrOf result ScriptFault.Sink → transcript.LineCut desk.old.plan
        (state_of desk.old.sessions (K.texts keeper.old) (K.faults keeper.old)) line.now
        (state_of desk.new.sessions (K.texts keeper.new) (K.faults keeper.new))
        (S.written out.old) (S.written out.new) }
    ensures cause { IsErrOf result ScriptFault.Sink → Raised (S.faults out.old) (S.faults out.new) }
    ensures later { S.faults out.old ≤ S.faults out.new }
    ensures is { IsDesk desk.new }
    ensures plan { desk.new.plan ≡ desk.old.plan }
    ensures begun { K.begun keeper.new ≡ K.begun keeper.old }
{
    if is_skipped(line) {
        return Ok(());
    }
    let request = read_request(alloc, line)?;
    let text = answer_asked(alloc, desk, keeper, request, steps)?;
    write_all(out, text.bytes())?;
    Ok(())
}

/// Answers all lines of a script, each before the next is looked at. After want of memory the state
/// is that after the lines answered, or after one line more.
pub fn answer_script<K: Keeper, L: Ledger, S: Sink>(
    alloc: Global,
    desk: &mut Desk,
    keeper: &mut K,
    script: &[u8],
    out: &mut S,
    steps: &mut Steps<L>,
) -> Result<(), ScriptFault>
    requires is { IsDesk desk.old }
    requires begun { IsSome (K.begun keeper.old) }
    ensures done { OnOk result (transcript.IsAnswered desk.old.plan script.now
        (state_of desk.old.sessions (K.texts keeper.old) (K.faults keeper.old))
        (state_of desk.new.sessions (K.texts keeper.new) (K.faults keeper.new))
        (S.written out.old) (S.written out.new)) }
    ensures memory { IsErrOf result ScriptFault.OutOfMemory → transcript.IsAnsweredSoFar desk.old.plan
        script.now (state_of desk.old.sessions (K.texts keeper.old) (K.faults keeper.old))
        (state_of desk.new.sessions (K.texts keeper.new) (K.faults keeper.new))
        (S.written out.old) (S.written out.new) }
    ensures cut { IsErrOf result ScriptFault.Sink → transcript.IsCutShort desk.old.plan script.now
        (state_of desk.old.sessions (K.texts keeper.old) (K.faults keeper.old))
        (state_of desk.new.sessions (K.texts keeper.new) (K.faults keeper.new))
        (S.written out.old) (S.written out.new) }
    ensures cause { IsErrOf result ScriptFault.Sink → Raised (S.faults out.old) (S.faults out.new) }
    ensures later { S.faults out.old ≤ S.faults out.new }
    ensures begun { K.begun keeper.new ≡ K.begun keeper.old }
{
    let mut rest = script;
    while let Some((line, later)) = next_line(rest) {
        answer_line(alloc, desk, keeper, line, out, steps)?;
        rest = later;
    }
    Ok(())
}
