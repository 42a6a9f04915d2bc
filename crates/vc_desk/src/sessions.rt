//! The open sessions by their names, and what is answered to a request about one of them.

ghost use Rattle.std.specs.Prelude.{◌≡◌, ◌<◌, ◌≤◌, nat_lt, not, IfOk, OnErr, IfSome};
ghost use Rattle.std.specs.FinMap.{empty, get, len};
ghost use Rattle.std.specs.Option.{option_copied};
ghost use Rattle.vc_plan.specs.Valid.{IsValid};
ghost use Rattle.vc_session.specs.Sessions.{IsSessionOf};
ghost use Rattle.vc_desk_session.specs.Edits.{MayEdit, after_edit};
ghost use Rattle.vc_desk_session.specs.Telling.{text_told, told_as};
ghost use Rattle.vc_desk_shown.specs.Standing.{standing_of};
ghost use Rattle.vc_desk.specs.Answers.{Closes, EditsSession, Starts, TellsSession};
ghost use Rattle.vc_desk.specs.Desks.{AreSessionsOf, Opens, RepliesTo, open_of};
ghost use Rattle.vc_desk.specs.States.{standing_in};

use crate::sharing::shared;
use std::alloc::{AllocError, Global};
use std::collections::BTreeMap;
use std::marker::Model;
use std::sync::ledger::Ledger;
use vc_desk_session::{Edit, Question, Told, answer, apply, tell};
use vc_desk_shown::status;
use vc_plan::{Plan, Status};
use vc_session::Session;
use vc_session_evaluation::SharedLookUps;
use vc_value::Word;
use vc_value_steps::Steps;
use vc_wire_replies::{Refusal, Reply};

/// As many sessions may be open at once.
pub const SESSION_LIMIT: usize = 32;

/// The open sessions, which a contract sees as a finite map from their names.
pub struct Sessions {
    by_name: BTreeMap<Vec<u8>, Session>,
}

// By hand, as a derived one is proved again, with all of its parts, in each crate that drops sessions.
impl Drop for Sessions {
    fn drop(self) {
        let Sessions { by_name } = self;
        drop(by_name);
    }
}

impl Model for Sessions {
    ghost use Rattle.std.specs.Coded.{codes};
    ghost use Rattle.std.specs.Prelude.{map};
    ghost use Rattle.std.specs.FinMap.{code, from_entries};
    ghost use Rattle.vc_session.specs.Sessions.{Opened};
    ghost use Rattle.vc_desk.specs.Desks.{named_entry};
    ghost use Rattle.vc_desk.specs.States.{ByName};

    ghost Value = { ByName Opened };

    ghost coded = { Prim.hlevel (codes, code) };

    ghost view = { λ s. from_entries (map named_entry s.by_name.entries) };
}

pub(crate) fn refused(refusal: Refusal) -> Reply
    ensures { result ≡ Reply.Refused refusal }
{
    Reply::Refused { refusal }
}

// What is replied to an edit of no session.
fn refuse(_which: Edit<'_>) -> Reply
    ensures { result ≡ Reply.Refused Refusal.NoSession }
{
    refused(Refusal::NoSession)
}

// What is replied to an edit: how the session stands then, or why it is refused.
fn reply_to_edit(plan: &Plan, session: &Session, edited: Result<(), Refusal>) -> Reply
    requires valid { IsValid plan.now }
    requires of { IsSessionOf plan.now session.now }
    ensures { RepliesTo plan.now (standing_of session.now) edited result }
{
    match edited {
        Ok(()) => Reply::Done {
            status: status(plan, session),
        },
        Err(refusal) => refused(refusal),
    }
}

impl Sessions {
    ghost use Rattle.std.specs.Prelude.{◌≡◌, ◌≤◌, ◌<◌, nat_lt, not, IfOk, IsSome, OnErr, IfSome};
    ghost use Rattle.std.specs.FinMap.{empty, get, len, remove};
    ghost use Rattle.std.specs.Option.{option_copied};
    ghost use Rattle.vc_plan.specs.Valid.{IsValid};
    ghost use Rattle.vc_session_evaluation.specs.Sharing.{AreAllLookUpsOf};
    ghost use Rattle.vc_desk.specs.Costing.{OpensOne, SpendsOnEdit};
    ghost use Rattle.vc_desk.specs.Answers.{Closes, EditsSession, Starts, TellsSession};
    ghost use Rattle.vc_desk.specs.Desks.{AreSessionsOf, KeepsLookUps, Opens, open_of};
    ghost use Rattle.vc_desk_session.specs.Edits.{MayEdit, after_edit};
    ghost use Rattle.vc_desk_session.specs.Reasons.{AsksSession, asked_by};
    ghost use Rattle.vc_desk.specs.States.{standing_in};
    ghost use Rattle.vc_desk_session.specs.Telling.{text_told, told_as};

    /// None is open.
    pub fn new(alloc: Global) -> Sessions
        ensures { result ≡ empty }
    {
        Sessions {
            by_name: BTreeMap::new(alloc),
        }
    }

    fn count(&self) -> usize
        ensures { result ≡ len self.now }
    {
        self.by_name.len()
    }

    pub(crate) fn find(&self, name: &Word) -> Option<&Session>
        ensures { option_copied result ≡ get self.now name.now }
    {
        self.by_name.get(name.bytes())
    }

    // A session of this name with nothing chosen, and how it stands. Without memory there is none. It shares the orders
    // that are there, or new ones, which are there for the next.
    fn begin(
        &mut self,
        alloc: Global,
        plan: &Plan,
        look_ups: &mut Option<SharedLookUps>,
        name: &Word,
    ) -> Result<Status, AllocError>
        requires valid { IsValid plan.now }
        requires orders { IfSome look_ups.old (AreAllLookUpsOf plan.now) }
        ensures opened { IfOk result (Opens plan.now self.old name.now self.new) }
        ensures as_before { OnErr result (self.new ≡ self.old) }
        ensures orders { IfSome look_ups.new (AreAllLookUpsOf plan.now) }
        ensures shared { IfOk result (λ status. IsSome look_ups.new) }
        ensures keeps { KeepsLookUps look_ups.old look_ups.new }
    {
        let key = Vec::from_slice(alloc, name.bytes())?;
        let orders = shared(alloc, plan, look_ups)?;
        let session = Session::start_with(alloc, plan, orders)?;
        let status = status(plan, &session);
        self.by_name.insert(key, session)?;
        Ok(status)
    }

    /// Opens a session of this name, which shares the orders that are there, or new ones.
    pub fn open(
        &mut self,
        alloc: Global,
        plan: &Plan,
        look_ups: &mut Option<SharedLookUps>,
        name: &Word,
    ) -> Reply
        requires valid { IsValid plan.now }
        requires of { AreSessionsOf plan.now self.old }
        requires orders { IfSome look_ups.old (AreAllLookUpsOf plan.now) }
        ensures starts { Starts plan.now (open_of self.old) name.now result (open_of self.new) }
        ensures opens { OpensOne plan.now name.now self.old self.new }
        ensures of { AreSessionsOf plan.now self.new }
        ensures orders { IfSome look_ups.new (AreAllLookUpsOf plan.now) }
        ensures keeps { KeepsLookUps look_ups.old look_ups.new }
    {
        if self.find(name).is_some() {
            return refused(Refusal::NameTaken);
        }
        if self.count() >= SESSION_LIMIT {
            return refused(Refusal::TooManySessions);
        }
        match self.begin(alloc, plan, look_ups, name) {
            Ok(status) => Reply::Done { status },
            Err(_) => refused(Refusal::OutOfMemory),
        }
    }

    /// Closes the session of this name.
    pub fn close(&mut self, plan: &Plan, name: &Word) -> Reply
        requires of { AreSessionsOf plan.now self.old }
        ensures closes { Closes (open_of self.old) name.now (standing_in (open_of self.old) name.now) result
            (open_of self.new) }
        ensures of { AreSessionsOf plan.now self.new }
        ensures gone { self.new ≡ remove self.old name.now }
    {
        // So many, as their names ascend: one session alone has the name.
        let _count = self.by_name.len();
        let removed = self.by_name.remove(name.bytes());
        let found = removed.is_some();
        drop(removed);
        if found {
            Reply::Closed
        } else {
            refused(Refusal::NoSession)
        }
    }

    /// Edits the session of this name, and no other, at the cost of its nets' works. It takes no memory.
    pub fn edit<L: Ledger>(
        &mut self,
        plan: &Plan,
        name: &Word,
        which: Edit<'_>,
        steps: &mut Steps<L>,
    ) -> Reply
        requires valid { IsValid plan.now }
        requires of { AreSessionsOf plan.now self.old }
        requires may { MayEdit plan.now which }
        ensures edits { EditsSession plan.now (open_of self.old) name.now (after_edit which.entry plan.now)
            (standing_in (open_of self.old) name.now) result (open_of self.new) }
        ensures of { AreSessionsOf plan.now self.new }
        ensures spends { SpendsOnEdit plan.now name.now self.old self.new result steps.old steps.new }
    {
        match self.by_name.get_mut(name.bytes()) {
            Some(session) => {
                let edited = apply(plan, session, which, steps);
                reply_to_edit(plan, session, edited)
            }
            None => refuse(which),
        }
    }

    /// Tells of the session of this name.
    pub fn tell(&self, alloc: Global, plan: &Plan, name: &Word, what: Told) -> Reply
        requires valid { IsValid plan.now }
        requires of { AreSessionsOf plan.now self.now }
        ensures { TellsSession plan.now (told_as what) (text_told what)
            (standing_in (open_of self.now) name.now) result }
    {
        match self.find(name) {
            Some(session) => tell(alloc, plan, session, what),
            None => refused(Refusal::NoSession),
        }
    }

    /// Answers a question about the session of this name.
    pub fn explain(&self, alloc: Global, plan: &Plan, name: &Word, question: Question<'_>) -> Reply
        requires valid { IsValid plan.now }
        requires of { AreSessionsOf plan.now self.now }
        ensures { AsksSession plan.now (asked_by question.entry) (standing_in (open_of self.now) name.now) result }
    {
        match self.find(name) {
            Some(session) => answer(alloc, plan, session, question),
            None => refused(Refusal::NoSession),
        }
    }
}
