//! The request that is made of what is wanted and the words that it needs.

ghost use Rattle.std.specs.Prelude.{◌≡◌};
ghost use Rattle.vc_wire_requests.specs.Requests as requests;

use crate::request::Request;
use crate::verbs::{OfCharacteristic, OfSaved, OfSession, OfValue};
use vc_value::Word;

/// The request about a session.
pub fn of_session(which: OfSession, session: Word) -> Request
    ensures { result ≡ requests.of_session which session }
{
    match which {
        OfSession::Start => Request::Start { session },
        OfSession::Close => Request::Close { session },
        OfSession::Show => Request::Show { session },
        OfSession::Conflict => Request::Conflict { session },
        OfSession::Log => Request::Log { session },
        OfSession::Bill => Request::Bill { session },
        OfSession::Routing => Request::Routing { session },
    }
}

/// The request about a characteristic of an instance.
pub fn of_characteristic(
    which: OfCharacteristic,
    session: Word,
    instance: u32,
    characteristic: Word,
) -> Request
    ensures { result ≡ requests.of_characteristic which session instance characteristic }
{
    match which {
        OfCharacteristic::Retract => Request::Retract {
            session,
            instance,
            characteristic,
        },
        OfCharacteristic::Why => Request::Why {
            session,
            instance,
            characteristic,
        },
    }
}

/// The request about a value of a characteristic.
pub fn of_value(
    which: OfValue,
    session: Word,
    instance: u32,
    characteristic: Word,
    value: Word,
) -> Request
    ensures { result ≡ requests.of_value which session instance characteristic value }
{
    match which {
        OfValue::Set => Request::Set {
            session,
            instance,
            characteristic,
            value,
        },
        OfValue::Add => Request::Add {
            session,
            instance,
            characteristic,
            value,
        },
        OfValue::Drop => Request::Drop {
            session,
            instance,
            characteristic,
            value,
        },
        OfValue::WhyNot => Request::WhyNot {
            session,
            instance,
            characteristic,
            value,
        },
    }
}

/// The request about a session and what is saved under a name.
pub fn of_saved(which: OfSaved, session: Word, name: Word) -> Request
    ensures { result ≡ requests.of_saved which session name }
{
    match which {
        OfSaved::Save => Request::Save { session, name },
        OfSaved::Load => Request::Load { session, name },
    }
}
