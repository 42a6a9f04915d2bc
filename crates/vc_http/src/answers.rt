//! The responses to requests.

ghost use Rattle.std.specs.Prelude.{◌≡◌, ◌≤◌};
ghost use Rattle.vc_http_responses.specs.Sending.{Sends};
ghost use Rattle.vc_http.specs.Answers as answers;

use http::StatusCode;
use std::alloc::Global;
use vc_http_responses::{SendFault, write_response};
use vc_outside_links::Link;
use vc_plan::Plan;
use vc_wire_replies::{Refusal, Reply, reply_text};

fn refusal_status(refusal: Refusal) -> StatusCode
    ensures { result ≡ answers.refusal_status refusal }
{
    match refusal {
        Refusal::NoSession
        | Refusal::UnknownInstance
        | Refusal::UnknownCharacteristic
        | Refusal::NothingSaved => StatusCode::NOT_FOUND,
        Refusal::KeeperFault | Refusal::OutOfMemory => StatusCode::SERVICE_UNAVAILABLE,
        _ => StatusCode::CONFLICT,
    }
}

/// The status of the response with this reply.
pub fn status_of(reply: &Reply) -> StatusCode
    ensures { result ≡ answers.reply_status reply.now }
{
    match reply {
        Reply::Refused { refusal } => refusal_status(*refusal),
        Reply::NotARequest => StatusCode::BAD_REQUEST,
        _ => StatusCode::OK,
    }
}

/// Writes the response with this reply. After a fault of the link a front of it was written; where memory was wanting,
/// nothing was.
pub fn write_reply<L: Link>(
    alloc: Global,
    plan: &Plan,
    link: &mut L,
    reply: &Reply,
    keep: bool,
) -> Result<(), SendFault>
    ensures sends { Sends (L.written link.old) (L.written link.new) (L.faults link.old) (L.faults link.new)
        (answers.answer plan.now reply.now keep) result }
    ensures left { L.left link.new ≡ L.left link.old }
    ensures later { L.faults link.old ≤ L.faults link.new }
{
    let Ok(body) = reply_text(alloc, plan, reply) else {
        return Err(SendFault::OutOfMemory);
    };
    write_response(alloc, link, status_of(reply).as_u16(), keep, body.bytes())
}
