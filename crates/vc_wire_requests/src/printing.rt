//! Writing the line that spells a request.

ghost use Rattle.std.specs.Prelude.{◌≡◌, ◌++◌, [], codes, IfOk, OnOk};
ghost use Rattle.vc_wire_requests.specs.Requests as asked;
ghost use Rattle.vc_wire_requests.specs.Verbs.{text_of};

use crate::request::Request;
use crate::verbs::{OfCharacteristic, OfSaved, OfSession, OfValue, Verb};
use std::alloc::{AllocError, Global};
use vc_value::Word;

/// The line that spells the request, without its end.
pub fn line_text(alloc: Global, request: &Request) -> Result<Word, AllocError>
    ensures { IfOk result (λ text. text ≡ asked.line_text request.now) }
{
    let mut text = begun(alloc, verb_in(request))?;
    put_fields(alloc, &mut text, request)?;
    Ok(text)
}

// What the request wants.
fn verb_in(request: &Request) -> Verb
    ensures { result ≡ asked.verb_in request.now }
{
    match request {
        Request::Start { .. } => Verb::Session(OfSession::Start),
        Request::Close { .. } => Verb::Session(OfSession::Close),
        Request::Set { .. } => Verb::Value(OfValue::Set),
        Request::Retract { .. } => Verb::Characteristic(OfCharacteristic::Retract),
        Request::Add { .. } => Verb::Value(OfValue::Add),
        Request::Drop { .. } => Verb::Value(OfValue::Drop),
        Request::Show { .. } => Verb::Session(OfSession::Show),
        Request::Why { .. } => Verb::Characteristic(OfCharacteristic::Why),
        Request::WhyNot { .. } => Verb::Value(OfValue::WhyNot),
        Request::Conflict { .. } => Verb::Session(OfSession::Conflict),
        Request::Log { .. } => Verb::Session(OfSession::Log),
        Request::Bill { .. } => Verb::Session(OfSession::Bill),
        Request::Routing { .. } => Verb::Session(OfSession::Routing),
        Request::Save { .. } => Verb::Saved(OfSaved::Save),
        Request::Load { .. } => Verb::Saved(OfSaved::Load),
        Request::Forget { .. } => Verb::Forget,
    }
}

// The word of a verb, and a space.
fn begun(alloc: Global, verb: Verb) -> Result<Word, AllocError>
    ensures { IfOk result (λ text. text ≡ text_of verb ++ codes " ") }
{
    let mut text = Word::new(alloc);
    text.append_text(verb.text())?;
    text.append_text(" ")?;
    Ok(text)
}

// What follows the verb.
fn put_fields(alloc: Global, text: &mut Word, request: &Request) -> Result<(), AllocError>
    ensures { OnOk result (text.new ≡ text.old ++ asked.fields_text request.now) }
{
    match request {
        Request::Start { session }
        | Request::Close { session }
        | Request::Show { session }
        | Request::Conflict { session }
        | Request::Log { session }
        | Request::Bill { session }
        | Request::Routing { session } => text.append(session.bytes()),
        Request::Retract {
            session,
            instance,
            characteristic,
        }
        | Request::Why {
            session,
            instance,
            characteristic,
        } => put_characteristic(alloc, text, session, *instance, characteristic),
        Request::Set {
            session,
            instance,
            characteristic,
            value,
        }
        | Request::Add {
            session,
            instance,
            characteristic,
            value,
        }
        | Request::Drop {
            session,
            instance,
            characteristic,
            value,
        }
        | Request::WhyNot {
            session,
            instance,
            characteristic,
            value,
        } => put_value(alloc, text, session, *instance, characteristic, value),
        Request::Save { session, name } | Request::Load { session, name } => put_saved(
            text, session, name,
        ),
        Request::Forget { name } => text.append(name.bytes()),
    }
}

// The session and the number of the instance, each with a space behind it.
fn put_instance(
    alloc: Global,
    text: &mut Word,
    session: &Word,
    instance: u32,
) -> Result<(), AllocError>
    ensures { OnOk result (text.new ≡ text.old ++ asked.instance_text session.now instance []) }
{
    let digits = format!(in alloc; "{instance}")?;
    text.append(session.bytes())?;
    text.append_text(" ")?;
    text.append_text(digits.as_str())?;
    text.append_text(" ")
}

fn put_characteristic(
    alloc: Global,
    text: &mut Word,
    session: &Word,
    instance: u32,
    characteristic: &Word,
) -> Result<(), AllocError>
    ensures { OnOk result (text.new ≡ text.old ++ asked.instance_text session.now instance characteristic.now) }
{
    put_instance(alloc, text, session, instance)?;
    text.append(characteristic.bytes())
}

fn put_value(
    alloc: Global,
    text: &mut Word,
    session: &Word,
    instance: u32,
    characteristic: &Word,
    value: &Word,
) -> Result<(), AllocError>
    ensures { OnOk result (text.new
        ≡ text.old ++ asked.value_text session.now instance characteristic.now value.now) }
{
    put_characteristic(alloc, text, session, instance, characteristic)?;
    text.append_text(" ")?;
    text.append(value.bytes())
}

fn put_saved(text: &mut Word, session: &Word, name: &Word) -> Result<(), AllocError>
    ensures { OnOk result (text.new ≡ text.old ++ asked.spaced session.now name.now) }
{
    text.append(session.bytes())?;
    text.append_text(" ")?;
    text.append(name.bytes())
}
