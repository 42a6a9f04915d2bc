//! Reading a line of a script.

ghost use Rattle.std.specs.Prelude.{◌≡◌, IfOk};
ghost use Rattle.vc_wire_requests.specs.Requests as asked;

use crate::cutting::{cut_at_space, instance_in};
use crate::making::{of_characteristic, of_saved, of_session, of_value};
use crate::request::Request;
use crate::verbs::{OfCharacteristic, OfSaved, OfSession, OfValue, Verb, verb_of};
use std::alloc::{AllocError, Global};
use vc_value::{Word, is_name, is_session_name};

// `s`
fn session_request(
    alloc: Global,
    which: OfSession,
    more: &[u8],
) -> Result<Option<Request>, AllocError>
    ensures { IfOk result (λ found. found ≡ asked.session_request which more.now) }
{
    if !is_session_name(more) {
        return Ok(None);
    }
    let session = Word::from_bytes(alloc, more)?;
    Ok(Some(of_session(which, session)))
}

// `s i C`
fn characteristic_request(
    alloc: Global,
    which: OfCharacteristic,
    more: &[u8],
) -> Result<Option<Request>, AllocError>
    ensures { IfOk result (λ found. found ≡ asked.characteristic_request which more.now) }
{
    let Some(instance) = instance_in(more) else {
        return Ok(None);
    };
    if !is_name(instance.rest) {
        return Ok(None);
    }
    let session = Word::from_bytes(alloc, instance.session)?;
    let characteristic = Word::upper_from(alloc, instance.rest)?;
    Ok(Some(of_characteristic(which, session, instance.number, characteristic)))
}

// `s i C value`
fn value_request(alloc: Global, which: OfValue, more: &[u8]) -> Result<Option<Request>, AllocError>
    ensures { IfOk result (λ found. found ≡ asked.value_request which more.now) }
{
    let Some(instance) = instance_in(more) else {
        return Ok(None);
    };
    let Some((name, value)) = cut_at_space(instance.rest) else {
        return Ok(None);
    };
    if !is_name(name) {
        return Ok(None);
    }
    let session = Word::from_bytes(alloc, instance.session)?;
    let characteristic = Word::upper_from(alloc, name)?;
    let value = Word::from_bytes(alloc, value)?;
    Ok(Some(of_value(which, session, instance.number, characteristic, value)))
}

// `s name`
fn saved_request(alloc: Global, which: OfSaved, more: &[u8]) -> Result<Option<Request>, AllocError>
    ensures { IfOk result (λ found. found ≡ asked.saved_request which more.now) }
{
    let Some((session, name)) = cut_at_space(more) else {
        return Ok(None);
    };
    if !is_session_name(session) || !is_session_name(name) {
        return Ok(None);
    }
    let session = Word::from_bytes(alloc, session)?;
    let name = Word::from_bytes(alloc, name)?;
    Ok(Some(of_saved(which, session, name)))
}

// `name`
fn forget_request(alloc: Global, more: &[u8]) -> Result<Option<Request>, AllocError>
    ensures { IfOk result (λ found. found ≡ asked.forget_request more.now) }
{
    if !is_session_name(more) {
        return Ok(None);
    }
    let name = Word::from_bytes(alloc, more)?;
    Ok(Some(Request::Forget { name }))
}

fn request_by(alloc: Global, verb: Verb, more: &[u8]) -> Result<Option<Request>, AllocError>
    ensures { IfOk result (λ found. found ≡ asked.request_by verb more.now) }
{
    match verb {
        Verb::Session(which) => session_request(alloc, which, more),
        Verb::Characteristic(which) => characteristic_request(alloc, which, more),
        Verb::Value(which) => value_request(alloc, which, more),
        Verb::Saved(which) => saved_request(alloc, which, more),
        Verb::Forget => forget_request(alloc, more),
    }
}

/// The request that a line spells, without its end; None where it spells none. Words are copied once all are there.
pub fn read_line(alloc: Global, line: &[u8]) -> Result<Option<Request>, AllocError>
    ensures { IfOk result (λ found. found ≡ asked.request_of line.now) }
{
    let Some((word, more)) = cut_at_space(line) else {
        return Ok(None);
    };
    match verb_of(word) {
        Some(verb) => request_by(alloc, verb, more),
        None => Ok(None),
    }
}
