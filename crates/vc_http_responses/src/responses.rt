//! Responses to messages.

ghost use Rattle.std.specs.Prelude.{◌≡◌, ◌≤◌, ◌++◌, [], codes, string_bytes, IfOk, OnOk, OnErr};
ghost use Rattle.std.specs.Fmt.{decimal};
ghost use Rattle.std.specs.Io.KnownBytes.{Appends};
ghost use Rattle.vc_outside.specs.Faults.{HasCause};
ghost use Rattle.vc_outside.specs.Sinks.{AppendsFront};
ghost use Rattle.vc_http_responses.specs.Responses as responses;
ghost use Rattle.vc_http_responses.specs.Sending.{Sends};

use crate::fields::{allow_field, bad_body, bad_length, connection_field, status_text};
use crate::sending::send_each;
use std::alloc::{AllocError, Global};
use vc_http_routes::Allow;
use vc_outside::Failed;
use vc_outside_links::{Link, send_all};
use vc_value::Word;

/// Why a response was not sent.
#[derive(Clone, Copy, Debug, PartialEq, Eq)]
pub enum SendFault {
    /// The link failed. Its count of faults was raised.
    Failed,
    /// Memory was wanting.
    OutOfMemory,
}

fn response_head(alloc: Global, status: u16, keep: bool, size: usize) -> Result<String, AllocError>
    ensures { IfOk result (λ head. string_bytes head
        ≡ responses.head_with (responses.status_text status) (decimal size) [] (responses.connection_field keep)) }
{
    let phrase = status_text(status);
    let connection = connection_field(keep);
    format!(in alloc;
        "HTTP/1.1 {phrase}\r\ncontent-type: text/plain; charset=utf-8\r\ncontent-length: {size}\r\n{connection}\r\n"
    )
}

/// The response with this status and body, and whether the connection goes on behind it.
pub fn response_to(alloc: Global, status: u16, keep: bool, body: &[u8]) -> Result<Word, AllocError>
    ensures { IfOk result (λ text. text ≡ responses.response status [] keep body.now) }
{
    let head = response_head(alloc, status, keep, body.len())?;
    let mut text = Word::from_bytes(alloc, head.as_bytes())?;
    text.append(body)?;
    Ok(text)
}

/// Writes the response with this status and body. After a fault of the link a front of it was written; where memory was
/// wanting, nothing was.
pub fn write_response<L: Link>(
    alloc: Global,
    link: &mut L,
    status: u16,
    keep: bool,
    body: &[u8],
) -> Result<(), SendFault>
    ensures sends { Sends (L.written link.old) (L.written link.new) (L.faults link.old) (L.faults link.new)
        (responses.response status [] keep body.now) result }
    ensures left { L.left link.new ≡ L.left link.old }
    ensures later { L.faults link.old ≤ L.faults link.new }
{
    let Ok(text) = response_to(alloc, status, keep, body) else {
        return Err(SendFault::OutOfMemory);
    };
    match send_all(link, text.bytes()) {
        Ok(()) => Ok(()),
        Err(_) => Err(SendFault::Failed),
    }
}

// Sends a response with these words, behind which the connection ends.
fn send_bad<L: Link>(
    link: &mut L,
    status: &str,
    size: &str,
    allow: &str,
    body: &str,
) -> Result<(), Failed>
    ensures ok { OnOk result (Appends (L.written link.old) (L.written link.new)
        (responses.head_with status.now size.now allow.now (codes "connection: close\r\n") ++ body.now)) }
    ensures err { OnErr result (AppendsFront (L.written link.old) (L.written link.new)
        (responses.head_with status.now size.now allow.now (codes "connection: close\r\n") ++ body.now)) }
    ensures left { L.left link.new ≡ L.left link.old }
    ensures cause { HasCause (L.faults link.old) (L.faults link.new) result }
{
    send_each(
        link,
        &[
            "HTTP/1.1 ",
            status,
            "\r\ncontent-type: text/plain; charset=utf-8\r\ncontent-length: ",
            size,
            "\r\n",
            allow,
            "connection: close\r\n",
            "\r\n",
            body,
        ],
    )
}

/// Writes the response to a message that is refused with this status, or, with 503, for which memory was wanting. It
/// takes no memory. After an error a front of it was written.
pub fn write_bad<L: Link>(link: &mut L, status: u16, allow: Allow) -> Result<(), Failed>
    ensures ok { OnOk result (Appends (L.written link.old) (L.written link.new) (responses.bad_response status allow)) }
    ensures err { OnErr result (AppendsFront (L.written link.old) (L.written link.new)
        (responses.bad_response status allow)) }
    ensures left { L.left link.new ≡ L.left link.old }
    ensures cause { HasCause (L.faults link.old) (L.faults link.new) result }
{
    send_bad(
        link,
        status_text(status),
        bad_length(status),
        allow_field(allow),
        bad_body(status),
    )
}
