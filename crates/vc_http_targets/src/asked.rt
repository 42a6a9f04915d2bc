//! The request that a method, a path and a body make.

ghost use Rattle.std.specs.Prelude.{◌≡◌, [], IfOk, Some};
ghost use Rattle.std.specs.Str.{str_to_ascii_uppercase};
ghost use Rattle.vc_wire_requests.specs.Requests as requests;
ghost use Rattle.vc_http_targets.specs.Asked as asked;
ghost use Rattle.vc_http_targets.specs.Targets as aims;
ghost use Rattle.vc_wire_requests.specs.declared.verbs.Verb.TheVariants as verbs;

use crate::targets::Target;
use std::alloc::{AllocError, Global};
use vc_http_bodies::read_text;
use vc_http_routes::{Method, Route};
use vc_value::{Word, is_session_name};
use vc_wire_requests::Request;
use vc_wire_requests::making::{of_characteristic, of_saved, of_session, of_value};
use vc_wire_requests::verbs::{OfCharacteristic, OfSaved, OfSession, OfValue, Verb};

/// What is wanted of a route by a method, if the route has it.
pub fn verb_for(route: Route, method: Method) -> Option<Verb>
    ensures { result ≡ asked.verb_for route method }
{
    match (route, method) {
        (Route::Sessions, Method::Post) => Some(Verb::Session(OfSession::Start)),
        (Route::Session, Method::Get) => Some(Verb::Session(OfSession::Show)),
        (Route::Session, Method::Delete) => Some(Verb::Session(OfSession::Close)),
        (Route::Values, Method::Put) => Some(Verb::Value(OfValue::Set)),
        (Route::Values, Method::Post) => Some(Verb::Value(OfValue::Add)),
        (Route::Values, Method::Delete) => Some(Verb::Characteristic(OfCharacteristic::Retract)),
        (Route::Drops, Method::Post) => Some(Verb::Value(OfValue::Drop)),
        (Route::Why, Method::Get) => Some(Verb::Characteristic(OfCharacteristic::Why)),
        (Route::WhyNot, Method::Post) => Some(Verb::Value(OfValue::WhyNot)),
        (Route::Conflict, Method::Get) => Some(Verb::Session(OfSession::Conflict)),
        (Route::Log, Method::Get) => Some(Verb::Session(OfSession::Log)),
        (Route::Bill, Method::Get) => Some(Verb::Session(OfSession::Bill)),
        (Route::Routing, Method::Get) => Some(Verb::Session(OfSession::Routing)),
        (Route::Save, Method::Post) => Some(Verb::Saved(OfSaved::Save)),
        (Route::Load, Method::Post) => Some(Verb::Saved(OfSaved::Load)),
        (Route::Saved, Method::Delete) => Some(Verb::Forget),
        _ => None,
    }
}

fn name_in(alloc: Global, body: &[u8]) -> Result<Option<Word>, AllocError>
    ensures { IfOk result (λ name. name ≡ asked.name_in body.now) }
{
    match read_text(alloc, body, "name")? {
        Some(name) if is_session_name(name.bytes()) => Ok(Some(name)),
        _ => Ok(None),
    }
}

fn read_start(alloc: Global, which: OfSession, body: &[u8]) -> Result<Option<Request>, AllocError>
    ensures { IfOk result (λ found. found ≡ asked.request_for (verbs.Session which) aims.all body.now) }
{
    match name_in(alloc, body)? {
        Some(name) => Ok(Some(of_session(which, name))),
        None => Ok(None),
    }
}

fn read_shown(
    alloc: Global,
    which: OfSession,
    session: &[u8],
) -> Result<Option<Request>, AllocError>
    ensures { IfOk result (λ found. found ≡ Some (requests.of_session which session.now)) }
{
    let session = Word::from_bytes(alloc, session)?;
    Ok(Some(of_session(which, session)))
}

fn read_saved(
    alloc: Global,
    which: OfSaved,
    session: &[u8],
    body: &[u8],
) -> Result<Option<Request>, AllocError>
    ensures { IfOk result (λ found. found ≡ asked.request_for (verbs.Saved which) (aims.session session.now) body.now) }
{
    let Some(name) = name_in(alloc, body)? else {
        return Ok(None);
    };
    let session = Word::from_bytes(alloc, session)?;
    Ok(Some(of_saved(which, session, name)))
}

fn read_characteristic(
    alloc: Global,
    which: OfCharacteristic,
    session: &[u8],
    instance: u32,
    characteristic: &[u8],
) -> Result<Option<Request>, AllocError>
    ensures { IfOk result (λ found. found
        ≡ Some (requests.of_characteristic which session.now instance (str_to_ascii_uppercase characteristic.now))) }
{
    let session = Word::from_bytes(alloc, session)?;
    let characteristic = Word::upper_from(alloc, characteristic)?;
    Ok(Some(of_characteristic(which, session, instance, characteristic)))
}

fn read_value(
    alloc: Global,
    which: OfValue,
    session: &[u8],
    instance: u32,
    characteristic: &[u8],
    body: &[u8],
) -> Result<Option<Request>, AllocError>
    ensures { IfOk result (λ found. found ≡ asked.request_for (verbs.Value which)
        (aims.characteristic session.now instance (str_to_ascii_uppercase characteristic.now)) body.now) }
{
    let Some(value) = read_text(alloc, body, "value")? else {
        return Ok(None);
    };
    let session = Word::from_bytes(alloc, session)?;
    let characteristic = Word::upper_from(alloc, characteristic)?;
    Ok(Some(of_value(which, session, instance, characteristic, value)))
}

fn read_forget(alloc: Global, name: &[u8]) -> Result<Option<Request>, AllocError>
    ensures { IfOk result (λ found. found ≡ asked.request_for verbs.Forget (aims.saved name.now) []) }
{
    let name = Word::from_bytes(alloc, name)?;
    Ok(Some(Request::Forget { name }))
}

/// The request; None where the body isn't the object that is wanted.
pub fn read_request(
    alloc: Global,
    verb: Verb,
    target: Target<'_>,
    body: &[u8],
) -> Result<Option<Request>, AllocError>
    ensures { IfOk result (λ found. found ≡ asked.request_for verb (aims.aim_said target.entry) body.now) }
{
    match (verb, target) {
        (Verb::Session(which), Target::All) => read_start(alloc, which, body),
        (Verb::Session(which), Target::Session(name)) => read_shown(alloc, which, name),
        (Verb::Characteristic(which), Target::Characteristic(name, number, last)) => {
            read_characteristic(alloc, which, name, number, last)
        }
        (Verb::Value(which), Target::Characteristic(name, number, last)) => {
            read_value(alloc, which, name, number, last, body)
        }
        (Verb::Saved(which), Target::Session(name)) => read_saved(alloc, which, name, body),
        (Verb::Forget, Target::Saved(name)) => read_forget(alloc, name),
        _ => Ok(None),
    }
}
