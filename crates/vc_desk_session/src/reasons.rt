//! Reasons: why a value follows, why another doesn't remain, what contradicts, and all that follows.

ghost use Rattle.std.specs.Prelude.{◌≡◌, ◌<◌, ◌^◌};
ghost use Rattle.vc_plan.specs.Domains.{atom_count};
ghost use Rattle.vc_plan.specs.Evaluate.{evaluation_of};
ghost use Rattle.vc_plan.specs.Valid.{IsValid};
ghost use Rattle.vc_plan_users.specs.Choosing.{users_of};
ghost use Rattle.vc_session.specs.Sessions.{IsSessionOf};
ghost use Rattle.vc_desk_shown.specs.Standing.{standing_of};
ghost use Rattle.vc_desk_session.specs.Reasons as reasons;

use crate::words::{named_for, value_for};
use std::alloc::Global;
use vc_desk_shown::status;
use vc_net_readers::triggers::grain_with;
use vc_plan::{Atom, Named, Plan, Status, View};
use vc_session::Session;
use vc_value::{Value, Word};
use vc_wire_replies::{Refusal, Reply};

fn refused(refusal: Refusal) -> Reply
    ensures { result ≡ Reply.Refused refusal }
{
    Reply::Refused { refusal }
}

// The value that the variable has, where no stage is broken.
fn value_reached(plan: &Plan, session: &Session, var: u32) -> Option<Value>
    requires valid { IsValid plan.now }
    requires of { IsSessionOf plan.now session.now }
    ensures { result ≡ reasons.value_after plan.now (evaluation_of plan.now (users_of session.now.users)) var }
{
    match session.broken() {
        Some(_) => None,
        None => session.value(var),
    }
}

// A value that follows.
fn value_asked(plan: &Plan, session: &Session, named: Named) -> Option<Atom>
    requires valid { IsValid plan.now }
    requires of { IsSessionOf plan.now session.now }
    ensures { result ≡ reasons.value_asked plan.now (users_of session.now.users) named }
{
    match named {
        Named::Var(var) => match session.users().value(var) {
            Some(_) => None,
            None => value_reached(plan, session, var).map(|value| Atom::Is(var, value)),
        },
        Named::Set(_) => None,
    }
}

// The grain in which the value lies, as excluded.
fn grain_asked(plan: &Plan, named: Named, value: Value) -> Option<Atom>
    requires { atom_count plan.now < 2 ^ 32 }
    ensures { result ≡ reasons.grain_asked plan.now named value }
{
    match named {
        Named::Var(var) => grain_with(plan, var, value).map(|grain| Atom::Out(var, grain)),
        Named::Set(_) => None,
    }
}

fn why_asked(plan: &Plan, session: &Session, instance: u32, name: &Word) -> Result<Atom, Refusal>
    requires valid { IsValid plan.now }
    requires of { IsSessionOf plan.now session.now }
    ensures { result ≡ reasons.why_asked plan.now instance name.now session.now.users }
{
    let named = named_for(plan, instance, name)?;
    value_asked(plan, session, named).ok_or(Refusal::NotInferred)
}

fn whynot_asked(plan: &Plan, instance: u32, name: &Word, word: &Word) -> Result<Atom, Refusal>
    requires { IsValid plan.now }
    ensures { result ≡ reasons.whynot_asked plan.now instance name.now word.now }
{
    let named = named_for(plan, instance, name)?;
    let value = value_for(plan, named, word)?;
    grain_asked(plan, named, value).ok_or(Refusal::NotInferred)
}

fn chain(alloc: Global, plan: &Plan, session: &Session, atom: Atom) -> Reply
    requires valid { IsValid plan.now }
    requires of { IsSessionOf plan.now session.now }
    ensures { reasons.ExplainsAtom plan.now (users_of session.now.users) atom result }
{
    match session.why(alloc, plan, atom) {
        Ok(Some(steps)) => Reply::Chain { steps },
        Ok(None) => refused(Refusal::NotInferred),
        Err(_) => refused(Refusal::OutOfMemory),
    }
}

fn explain(alloc: Global, plan: &Plan, session: &Session, asked: Result<Atom, Refusal>) -> Reply
    requires valid { IsValid plan.now }
    requires of { IsSessionOf plan.now session.now }
    ensures { reasons.Explains plan.now (users_of session.now.users) asked result }
{
    match asked {
        Ok(atom) => chain(alloc, plan, session, atom),
        Err(refusal) => refused(refusal),
    }
}

// What contradicts, as the session blames it, or the precondition that is violated.
fn conflict(alloc: Global, plan: &Plan, session: &Session) -> Reply
    requires valid { IsValid plan.now }
    requires of { IsSessionOf plan.now session.now }
    ensures { reasons.Conflicts plan.now (standing_of session.now) result }
{
    match session.clash(alloc, plan) {
        Ok(Some(clash)) => Reply::Clashed { clash },
        Ok(None) => no_clash(status(plan, session)),
        Err(_) => refused(Refusal::OutOfMemory),
    }
}

fn no_clash(status: Status) -> Reply
    ensures { result ≡ reasons.reply_without_clash status }
{
    match status {
        Status::Contradiction(culprit) => Reply::Hidden { culprit },
        Status::Unfinished | Status::Complete => refused(Refusal::NoConflict),
    }
}

fn log(alloc: Global, plan: &Plan, session: &Session) -> Reply
    requires valid { IsValid plan.now }
    requires of { IsSessionOf plan.now session.now }
    ensures { reasons.Logs plan.now (standing_of session.now) result }
{
    match session.log(alloc, plan) {
        Ok(Some(steps)) => Reply::Whole { steps },
        Ok(None) => Reply::Shown {
            status: status(plan, session),
            rows: Word::new(alloc),
        },
        Err(_) => refused(Refusal::OutOfMemory),
    }
}

/// What may be asked of a session beside what it shows; an instance comes first, then the characteristic and the value
/// by their words.
#[derive(Clone, Copy)]
pub enum Question<'a> {
    /// Why the characteristic has its value.
    Why(u32, &'a Word),
    /// Why the value doesn't remain.
    WhyNot(u32, &'a Word, &'a Word),
    /// What contradicts.
    Conflict,
    /// All that follows.
    Log,
}

/// Answers it.
pub fn answer(alloc: Global, plan: &Plan, session: &Session, question: Question<'_>) -> Reply
    requires valid { IsValid plan.now }
    requires of { IsSessionOf plan.now session.now }
    ensures { reasons.IsAnswerTo plan.now (reasons.asked_by question.entry) (standing_of session.now) result }
{
    match question {
        Question::Why(instance, name) => {
            let asked = why_asked(plan, session, instance, name);
            explain(alloc, plan, session, asked)
        }
        Question::WhyNot(instance, name, word) => {
            let asked = whynot_asked(plan, instance, name, word);
            explain(alloc, plan, session, asked)
        }
        Question::Conflict => conflict(alloc, plan, session),
        Question::Log => log(alloc, plan, session),
    }
}
