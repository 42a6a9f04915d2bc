//! Writing the lines of a reply.

ghost use Rattle.std.specs.Prelude.{◌≡◌, ◌++◌, codes, IfOk, OnOk};
ghost use Rattle.vc_wire_replies.specs.Replies as texts;

use crate::chains::{chain, clashed, culprit_line, whole};
use crate::culprits::put_status;
use crate::reply::{Refusal, Reply};
use std::alloc::{AllocError, Global};
use vc_plan::{Plan, Status};
use vc_value::Word;

fn done(alloc: Global, plan: &Plan, status: Status) -> Result<Word, AllocError>
    ensures { IfOk result (λ text. text ≡ texts.done_text plan.now status) }
{
    let mut out = Word::new(alloc);
    out.append_text("ok ")?;
    put_status(alloc, &mut out, plan, status)?;
    out.append_text("\n")?;
    Ok(out)
}

fn put_headed(alloc: Global, out: &mut Word, plan: &Plan, status: Status) -> Result<(), AllocError>
    ensures { OnOk result (out.new ≡ out.old ++ texts.status_line plan.now status) }
{
    out.append_text("status ")?;
    put_status(alloc, out, plan, status)?;
    out.append_text("\n")
}

fn listed(alloc: Global, plan: &Plan, status: Status, lines: &Word) -> Result<Word, AllocError>
    ensures { IfOk result (λ text. text ≡ texts.listed_text plan.now status lines.now) }
{
    let mut out = Word::new(alloc);
    put_headed(alloc, &mut out, plan, status)?;
    out.append(lines.bytes())?;
    out.append_text("end\n")?;
    Ok(out)
}

fn refused(alloc: Global, refusal: Refusal) -> Result<Word, AllocError>
    ensures { IfOk result (λ text. text ≡ texts.refused_text refusal) }
{
    let mut out = Word::new(alloc);
    out.append_text("refused ")?;
    out.append_text(refusal.text())?;
    out.append_text("\n")?;
    Ok(out)
}

fn line(alloc: Global, text: &str) -> Result<Word, AllocError>
    ensures { IfOk result (λ word. word ≡ text.now) }
{
    Word::from_bytes(alloc, text.as_bytes())
}

/// The lines of a reply, each with its end.
pub fn reply_text(alloc: Global, plan: &Plan, reply: &Reply) -> Result<Word, AllocError>
    ensures { IfOk result (λ text. text ≡ texts.reply_text plan.now reply.now) }
{
    match reply {
        Reply::Done { status } => done(alloc, plan, *status),
        Reply::Closed => line(alloc, "ok closed\n"),
        Reply::Saved => line(alloc, "ok saved\n"),
        Reply::Forgotten => line(alloc, "ok forgotten\n"),
        Reply::Shown { status, rows } => listed(alloc, plan, *status, rows),
        Reply::Chain { steps } => chain(alloc, plan, steps.as_slice()),
        Reply::Whole { steps } => whole(alloc, plan, steps.as_slice()),
        Reply::Clashed { clash } => clashed(alloc, plan, clash),
        Reply::Hidden { culprit } => culprit_line(alloc, plan, *culprit),
        Reply::BillShown { status, lines } => listed(alloc, plan, *status, lines),
        Reply::RoutingShown { status, lines } => listed(alloc, plan, *status, lines),
        Reply::Refused { refusal } => refused(alloc, *refusal),
        Reply::NotARequest => line(alloc, "refused 0 NotARequest\n"),
    }
}
