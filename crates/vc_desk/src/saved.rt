//! Saved sessions: what is answered to save, load and forget.

ghost use Rattle.std.specs.Prelude.{◌≡◌, IfErr, IfOk, IsSome};
ghost use Rattle.vc_plan.specs.Valid.{IsValid};
ghost use Rattle.vc_session.specs.Sessions.{AreUsersOf};
ghost use Rattle.vc_desk.specs.Costing.{SpendsOnEdit};
ghost use Rattle.vc_desk.specs.Desks.{AreSessionsOf, open_of, state_of};
ghost use Rattle.vc_desk.specs.Saved as saved;
ghost use Rattle.vc_desk.specs.States.{OpenSessions, standing_in, kept};
ghost use Rattle.vc_store.specs.Saving.{saved_text};

use crate::sessions::{Sessions, refused};
use std::alloc::Global;
use std::sync::ledger::Ledger;
use vc_desk_session::Edit;
use vc_outside::{KeepFault, Keeper};
use vc_plan::Plan;
use vc_plan_users::UserValues;
use vc_store::laws::read_may_be_chosen;
use vc_store::{SavedFault, read_saved, save_text};
use vc_value::Word;
use vc_value_steps::Steps;
use vc_wire_replies::{Refusal, Reply, SavedRefusal};

// What a keeper's fault is told as.
fn keeper_refusal(fault: KeepFault) -> Refusal
    ensures { result ≡ saved.keeper_refusal fault }
{
    match fault {
        KeepFault::Failed => Refusal::KeeperFault,
        KeepFault::OutOfMemory => Refusal::OutOfMemory,
    }
}

// What a saved text's fault is told as.
fn saved_refusal(fault: SavedFault) -> Refusal
    ensures { result ≡ saved.saved_refusal fault }
{
    match fault {
        SavedFault::NotJson => Refusal::SavedRefused(SavedRefusal::NotJson),
        SavedFault::Shape => Refusal::SavedRefused(SavedRefusal::Shape),
        SavedFault::OtherModel => Refusal::SavedRefused(SavedRefusal::OtherModel),
        SavedFault::UnknownName => Refusal::SavedRefused(SavedRefusal::UnknownName),
        SavedFault::OutOfMemory => Refusal::OutOfMemory,
    }
}

// The text of what the user chose.
fn text_of(alloc: Global, plan: &Plan, users: &UserValues) -> Result<Word, Refusal>
    requires { IsValid plan.now }
    ensures text { IfOk result (λ text. text ≡ saved_text plan.now users.now) }
    ensures memory { IfErr result (λ refusal. refusal ≡ Refusal.OutOfMemory) }
{
    match save_text(alloc, plan, users) {
        Ok(text) => Ok(text),
        Err(_) => Err(Refusal::OutOfMemory),
    }
}

// Saves under the name what the user chose.
fn save_users<K: Keeper>(
    alloc: Global,
    plan: &Plan,
    users: &UserValues,
    keeper: &mut K,
    name: &Word,
) -> Result<(), Refusal>
    requires valid { IsValid plan.now }
    requires begun { IsSome (K.begun keeper.old) }
    ensures saves { saved.IsSaved (K.texts keeper.old) (K.texts keeper.new) (K.faults keeper.old)
        (K.faults keeper.new) name.now (saved_text plan.now users.now) result }
    ensures begun { K.begun keeper.new ≡ K.begun keeper.old }
{
    let text = text_of(alloc, plan, users)?;
    match keeper.put(name.bytes(), text.bytes()) {
        Ok(()) => Ok(()),
        Err(fault) => Err(keeper_refusal(fault)),
    }
}

/// Saves under the name what the user chose in the session, and nothing that follows from it.
pub fn save<K: Keeper>(
    alloc: Global,
    plan: &Plan,
    sessions: &Sessions,
    keeper: &mut K,
    session: &Word,
    name: &Word,
) -> Reply
    requires valid { IsValid plan.now }
    requires begun { IsSome (K.begun keeper.old) }
    ensures saves { saved.SavesSession plan.now
        (state_of sessions.now (K.texts keeper.old) (K.faults keeper.old)) name.now
        (standing_in (open_of sessions.now) session.now) result
        (state_of sessions.now (K.texts keeper.new) (K.faults keeper.new)) }
    ensures begun { K.begun keeper.new ≡ K.begun keeper.old }
{
    match sessions.find(session) {
        Some(found) => match save_users(alloc, plan, found.users(), keeper, name) {
            Ok(()) => Reply::Saved,
            Err(refusal) => refused(refusal),
        },
        None => refused(Refusal::NoSession),
    }
}

// What is chosen by a saved text, or why the text gives nothing.
fn users_in(alloc: Global, plan: &Plan, text: &Word) -> Result<UserValues, Refusal>
    requires { IsValid plan.now }
    ensures given { saved.IsGiven plan.now text.now result }
    ensures of { IfOk result (AreUsersOf plan.now) }
{
    read_may_be_chosen();
    match read_saved(alloc, plan, text.bytes()) {
        Ok(users) => Ok(users),
        Err(fault) => Err(saved_refusal(fault)),
    }
}

// What is chosen by the text that is saved under the name.
fn load_users<K: Keeper>(
    alloc: Global,
    plan: &Plan,
    keeper: &mut K,
    name: &Word,
) -> Result<UserValues, Refusal>
    requires valid { IsValid plan.now }
    requires begun { IsSome (K.begun keeper.old) }
    ensures loads { saved.IsLoaded plan.now name.now (K.texts keeper.old) (K.texts keeper.new)
        (K.faults keeper.old) (K.faults keeper.new) result }
    ensures of { IfOk result (AreUsersOf plan.now) }
    ensures begun { K.begun keeper.new ≡ K.begun keeper.old }
{
    match keeper.get(name.bytes()) {
        Ok(Some(text)) => users_in(alloc, plan, &text),
        Ok(None) => Err(Refusal::NothingSaved),
        Err(fault) => Err(keeper_refusal(fault)),
    }
}

/// Replaces what the user chose in the session by what is saved under the name, at the cost of its nets' works.
pub fn load<K: Keeper, L: Ledger>(
    alloc: Global,
    plan: &Plan,
    sessions: &mut Sessions,
    keeper: &mut K,
    session: &Word,
    name: &Word,
    steps: &mut Steps<L>,
) -> Reply
    requires valid { IsValid plan.now }
    requires of { AreSessionsOf plan.now sessions.old }
    requires begun { IsSome (K.begun keeper.old) }
    ensures loads { saved.LoadsSession plan.now
        (state_of sessions.old (K.texts keeper.old) (K.faults keeper.old)) session.now name.now
        (standing_in (open_of sessions.old) session.now) result
        (state_of sessions.new (K.texts keeper.new) (K.faults keeper.new)) }
    ensures of { AreSessionsOf plan.now sessions.new }
    ensures spends { SpendsOnEdit plan.now session.now sessions.old sessions.new result steps.old steps.new }
    ensures begun { K.begun keeper.new ≡ K.begun keeper.old }
{
    if sessions.find(session).is_none() {
        return refused(Refusal::NoSession);
    }
    match load_users(alloc, plan, keeper, name) {
        Ok(users) => sessions.edit(plan, session, Edit::Restore(users), steps),
        Err(refusal) => refused(refusal),
    }
}

/// Forgets what is saved under the name.
pub fn forget<K: Keeper>(keeper: &mut K, name: &Word) -> Reply
    requires begun { IsSome (K.begun keeper.old) }
    ensures forgets { (sessions : OpenSessions) → saved.ForgetsSaved
        (kept sessions (K.texts keeper.old) (K.faults keeper.old)) name.now result
        (kept sessions (K.texts keeper.new) (K.faults keeper.new)) }
    ensures begun { K.begun keeper.new ≡ K.begun keeper.old }
{
    match keeper.remove(name.bytes()) {
        Ok(true) => Reply::Forgotten,
        Ok(false) => refused(Refusal::NothingSaved),
        Err(fault) => refused(keeper_refusal(fault)),
    }
}
