//! What may be replied to a request.

ghost use Rattle.std.specs.Prelude.{◌≡◌};
ghost use Rattle.vc_wire_replies.specs.Replies as texts;

use vc_plan::{Clash, Culprit, Status, Step};
use vc_value::{Listed, Word};

/// Why what is saved was refused.
#[derive(Clone, Copy, Debug, PartialEq, Eq)]
pub enum SavedRefusal {
    /// It is no JSON.
    NotJson,
    /// It isn't of the form in which sessions are saved.
    Shape,
    /// It was saved of another model, or of another version.
    OtherModel,
    /// The plan hasn't something that it names.
    UnknownName,
}

impl SavedRefusal {
    /// The number and the name of a refusal for it, and its own number.
    pub fn text(self) -> &'static str
        ensures { result.now ≡ texts.saved_refusal_text self }
    {
        match self {
            SavedRefusal::NotJson => "9 SavedRefused 1",
            SavedRefusal::Shape => "9 SavedRefused 2",
            SavedRefusal::OtherModel => "9 SavedRefused 3",
            SavedRefusal::UnknownName => "9 SavedRefused 4",
        }
    }
}

/// Why a request was refused. What the desk keeps is then as before.
#[derive(Clone, Copy, Debug, PartialEq, Eq)]
pub enum Refusal {
    /// No session of that name is open.
    NoSession,
    /// As many sessions are open as may be.
    TooManySessions,
    /// The plan has no instance of that number.
    UnknownInstance,
    /// The instance's class has no such characteristic.
    UnknownCharacteristic,
    /// The text is no value of the characteristic's list.
    NotInList,
    /// The instance isn't here.
    NotHere,
    /// The user has no such value there.
    NotSet,
    /// Nothing is saved under that name.
    NothingSaved,
    /// What is saved under that name can't be given to the session.
    SavedRefused(SavedRefusal),
    /// What keeps the saved texts failed.
    KeeperFault,
    /// Memory is wanting.
    OutOfMemory,
    /// Nothing contradicts.
    NoConflict,
    /// There are no reasons to tell: it doesn't follow, or what would follow isn't settled.
    NotInferred,
    /// A session of that name is open already.
    NameTaken,
}

impl Refusal {
    /// Its number and its name, and of what is saved the number of its own.
    pub fn text(self) -> &'static str
        ensures { result.now ≡ texts.refusal_text self }
    {
        match self {
            Refusal::NoSession => "1 NoSession",
            Refusal::TooManySessions => "2 TooManySessions",
            Refusal::UnknownInstance => "3 UnknownInstance",
            Refusal::UnknownCharacteristic => "4 UnknownCharacteristic",
            Refusal::NotInList => "5 NotInList",
            Refusal::NotHere => "6 NotHere",
            Refusal::NotSet => "7 NotSet",
            Refusal::NothingSaved => "8 NothingSaved",
            Refusal::SavedRefused(saved) => saved.text(),
            Refusal::KeeperFault => "10 KeeperFault",
            Refusal::OutOfMemory => "11 OutOfMemory",
            Refusal::NoConflict => "12 NoConflict",
            Refusal::NotInferred => "13 NotInferred",
            Refusal::NameTaken => "14 NameTaken",
        }
    }
}

/// The reply to a line of a script. Rows and lines of a bill or a routing are their text, each with its line's end.
#[derive(Debug, Drop)]
pub enum Reply {
    /// The session is open, its edit is done or what was saved is loaded; it stands so.
    Done { status: Status },
    /// The session is closed.
    Closed,
    /// The user's values of the session are saved.
    Saved,
    /// What was saved under the name is forgotten.
    Forgotten,
    /// What the session shows.
    Shown { status: Status, rows: Word },
    /// The steps that lead to the last of them.
    Chain { steps: Listed<Step> },
    /// The steps to all that follows.
    Whole { steps: Listed<Step> },
    /// The steps that lead to a contradiction, and whom it blames.
    Clashed { clash: Clash },
    /// The precondition that is violated. No steps lead to it.
    Hidden { culprit: Culprit },
    /// The bill of materials.
    BillShown { status: Status, lines: Word },
    /// The operations.
    RoutingShown { status: Status, lines: Word },
    /// Nothing is done.
    Refused { refusal: Refusal },
    /// The line spells no request.
    NotARequest,
}
