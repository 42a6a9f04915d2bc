//! Edits of a session, by the words of a request.

ghost use Rattle.std.specs.Prelude.{◌≡◌};
ghost use Rattle.vc_plan.specs.Valid.{IsValid};
ghost use Rattle.vc_session.specs.Costing.{EditCosts};
ghost use Rattle.vc_session.specs.Sessions.{IsSessionOf};
ghost use Rattle.vc_desk_session.specs.Edits as edits;
ghost use Rattle.vc_desk_session.specs.Edits.{Edited};

use crate::words::{named_for, value_for};
use std::sync::ledger::Ledger;
use vc_plan::Plan;
use vc_plan_users::UserValues;
use vc_session::{NotSet, Session, SetFault};
use vc_value::Word;
use vc_value_steps::Steps;
use vc_wire_replies::Refusal;

/// What is to become of what the user chose in a session; an instance comes first, then the characteristic and the
/// value by their words.
#[derive(Drop)]
pub enum Edit<'a> {
    /// The characteristic's value is this, a set's this alone.
    Set(u32, &'a Word, &'a Word),
    /// The characteristic's value is this, a set's this beside those that it holds.
    Add(u32, &'a Word, &'a Word),
    /// All of the user's values there are taken back.
    Retract(u32, &'a Word),
    /// This value is taken back, and no other.
    Drop(u32, &'a Word, &'a Word),
    /// All that was chosen is replaced by this.
    Restore(UserValues),
}

fn refusal_of(fault: SetFault) -> Refusal
    ensures { result ≡ edits.refusal_for fault }
{
    match fault {
        SetFault::NotInList => Refusal::NotInList,
        SetFault::NotHere => Refusal::NotHere,
    }
}

// Gives the characteristic the value, a set this alone.
fn set<L: Ledger>(
    plan: &Plan,
    session: &mut Session,
    instance: u32,
    name: &Word,
    word: &Word,
    steps: &mut Steps<L>,
) -> Result<(), Refusal>
    requires valid { IsValid plan.now }
    requires of { IsSessionOf plan.now session.old }
    ensures edited { Edited session.old.users
        (edits.after_set plan.now instance name.now word.now session.old.users) session.new.users result }
    ensures of { IsSessionOf plan.now session.new }
    ensures cost { EditCosts plan.now session.old session.new result steps.old steps.new }
{
    let named = named_for(plan, instance, name)?;
    let value = value_for(plan, named, word)?;
    match session.set(plan, named, value, steps) {
        Ok(()) => Ok(()),
        Err(fault) => Err(refusal_of(fault)),
    }
}

// Gives it the value, a set beside those that it holds.
fn add<L: Ledger>(
    plan: &Plan,
    session: &mut Session,
    instance: u32,
    name: &Word,
    word: &Word,
    steps: &mut Steps<L>,
) -> Result<(), Refusal>
    requires valid { IsValid plan.now }
    requires of { IsSessionOf plan.now session.old }
    ensures edited { Edited session.old.users
        (edits.after_add plan.now instance name.now word.now session.old.users) session.new.users result }
    ensures of { IsSessionOf plan.now session.new }
    ensures cost { EditCosts plan.now session.old session.new result steps.old steps.new }
{
    let named = named_for(plan, instance, name)?;
    let value = value_for(plan, named, word)?;
    match session.add(plan, named, value, steps) {
        Ok(()) => Ok(()),
        Err(fault) => Err(refusal_of(fault)),
    }
}

// Takes all of the user's values there back.
fn retract<L: Ledger>(
    plan: &Plan,
    session: &mut Session,
    instance: u32,
    name: &Word,
    steps: &mut Steps<L>,
) -> Result<(), Refusal>
    requires valid { IsValid plan.now }
    requires of { IsSessionOf plan.now session.old }
    ensures edited { Edited session.old.users
        (edits.after_retract plan.now instance name.now session.old.users) session.new.users result }
    ensures of { IsSessionOf plan.now session.new }
    ensures cost { EditCosts plan.now session.old session.new result steps.old steps.new }
{
    let named = named_for(plan, instance, name)?;
    match session.retract(plan, named, steps) {
        Ok(()) => Ok(()),
        Err(NotSet) => Err(Refusal::NotSet),
    }
}

// Takes this value back, and no other.
fn drop_value<L: Ledger>(
    plan: &Plan,
    session: &mut Session,
    instance: u32,
    name: &Word,
    word: &Word,
    steps: &mut Steps<L>,
) -> Result<(), Refusal>
    requires valid { IsValid plan.now }
    requires of { IsSessionOf plan.now session.old }
    ensures edited { Edited session.old.users
        (edits.after_drop plan.now instance name.now word.now session.old.users) session.new.users result }
    ensures of { IsSessionOf plan.now session.new }
    ensures cost { EditCosts plan.now session.old session.new result steps.old steps.new }
{
    let named = named_for(plan, instance, name)?;
    let value = value_for(plan, named, word)?;
    match session.drop_value(plan, named, value, steps) {
        Ok(()) => Ok(()),
        Err(NotSet) => Err(Refusal::NotSet),
    }
}

/// Edits the session so.
pub fn apply<L: Ledger>(
    plan: &Plan,
    session: &mut Session,
    which: Edit<'_>,
    steps: &mut Steps<L>,
) -> Result<(), Refusal>
    requires valid { IsValid plan.now }
    requires of { IsSessionOf plan.now session.old }
    requires may { edits.MayEdit plan.now which }
    ensures edited { Edited session.old.users (edits.after_edit which.entry plan.now session.old.users)
        session.new.users result }
    ensures of { IsSessionOf plan.now session.new }
    ensures cost { EditCosts plan.now session.old session.new result steps.old steps.new }
{
    match which {
        Edit::Set(instance, name, word) => set(plan, session, instance, name, word, steps),
        Edit::Add(instance, name, word) => add(plan, session, instance, name, word, steps),
        Edit::Retract(instance, name) => retract(plan, session, instance, name, steps),
        Edit::Drop(instance, name, word) => drop_value(plan, session, instance, name, word, steps),
        Edit::Restore(users) => {
            session.restore(plan, users, steps);
            Ok(())
        }
    }
}
