//! What each request asks for, by what serves it.

ghost use Rattle.std.specs.Prelude.{◌≡◌, Some};
ghost use Rattle.vc_desk.specs.Tasks.{request_of};

use vc_desk_session::{Edit, Question, Told};
use vc_value::Word;
use vc_wire_requests::Request;

/// What is to be done about the session of a name, or about what is saved.
#[derive(Drop)]
pub enum Task<'a> {
    /// It is opened.
    Start(&'a Word),
    /// It is closed.
    Close(&'a Word),
    /// It is edited so.
    Edit(&'a Word, Edit<'a>),
    /// This is told of it.
    Tell(&'a Word, Told),
    /// This is answered about it.
    Explain(&'a Word, Question<'a>),
    /// What the user chose in it is saved under a name.
    Save(&'a Word, &'a Word),
    /// What is saved under a name is loaded into it.
    Load(&'a Word, &'a Word),
    /// What is saved under this name is forgotten.
    Forget(&'a Word),
}

/// What the request asks for.
pub fn task_of(request: &Request) -> Task<'_>
    ensures { request_of result ≡ Some request.now }
{
    match request {
        Request::Start { session } => Task::Start(session),
        Request::Close { session } => Task::Close(session),
        Request::Set {
            session,
            instance,
            characteristic,
            value,
        } => Task::Edit(session, Edit::Set(*instance, characteristic, value)),
        Request::Add {
            session,
            instance,
            characteristic,
            value,
        } => Task::Edit(session, Edit::Add(*instance, characteristic, value)),
        Request::Retract {
            session,
            instance,
            characteristic,
        } => Task::Edit(session, Edit::Retract(*instance, characteristic)),
        Request::Drop {
            session,
            instance,
            characteristic,
            value,
        } => Task::Edit(session, Edit::Drop(*instance, characteristic, value)),
        Request::Show { session } => Task::Tell(session, Told::Rows),
        Request::Bill { session } => Task::Tell(session, Told::Bill),
        Request::Routing { session } => Task::Tell(session, Told::Routing),
        Request::Why {
            session,
            instance,
            characteristic,
        } => Task::Explain(session, Question::Why(*instance, characteristic)),
        Request::WhyNot {
            session,
            instance,
            characteristic,
            value,
        } => Task::Explain(session, Question::WhyNot(*instance, characteristic, value)),
        Request::Conflict { session } => Task::Explain(session, Question::Conflict),
        Request::Log { session } => Task::Explain(session, Question::Log),
        Request::Save { session, name } => Task::Save(session, name),
        Request::Load { session, name } => Task::Load(session, name),
        Request::Forget { name } => Task::Forget(name),
    }
}
