//! Messages that are cut behind each of their bytes, and that come in pieces.

use crate::coming::{Came, first_of};
use std::alloc::{AllocError, Global};
use std::test::Fail;
use vc_http::Buf;

const KEPT: Came = Came::Asked { keep: true };

const LAST: Came = Came::Asked { keep: false };

fn bad(status: u16) -> Came {
    Came::Bad { status }
}

// Whether each front of the text ends before its message does, or is refused as the whole text is, from some byte on.
fn fronts_agree(
    alloc: Global,
    buffer: &mut Buf,
    text: &str,
    wanted: Came,
) -> Result<bool, AllocError> {
    let bytes = text.as_bytes();
    let mut came = Came::End;
    let mut agree = true;
    for length in 0..bytes.len() {
        let next = first_of(alloc, buffer, &bytes[..length], 4096)?;
        let goes_on = next == came
            || came == Came::End && next == wanted && wanted != KEPT && wanted != LAST;
        agree = agree && goes_on;
        came = next;
    }
    Ok(agree)
}

// Whether the text comes to the same in pieces of each of some sizes.
fn pieces_agree(
    alloc: Global,
    buffer: &mut Buf,
    text: &str,
    wanted: Came,
) -> Result<bool, AllocError> {
    let mut agree = true;
    for piece in 1..9 {
        let came = first_of(alloc, buffer, text.as_bytes(), piece)?;
        agree = agree && came == wanted;
    }
    Ok(agree)
}

fn agrees(alloc: Global, buffer: &mut Buf, text: &str, wanted: Came) -> Result<bool, AllocError> {
    Ok(fronts_agree(alloc, buffer, text, wanted)? && pieces_agree(alloc, buffer, text, wanted)?)
}

// The first text that doesn't come to what is wanted, if one doesn't.
fn first_wrong<'a>(
    alloc: Global,
    buffer: &mut Buf,
    messages: &[(&'a str, Came)],
) -> Result<Option<&'a str>, AllocError> {
    for (text, wanted) in messages {
        if !agrees(alloc, buffer, text, *wanted)? {
            return Ok(Some(text));
        }
    }
    Ok(None)
}

#[test]
fn requests_are_cut(rt: HostRuntime) -> Result<(), Fail> {
    let messages = [
        ("GET /sessions/a HTTP/1.1\r\nHost: d\r\n\r\n", KEPT),
        ("\r\n\nGET /sessions/a/log?now HTTP/1.1\nhost: d\n\n", KEPT),
        (
            "POST /sessions HTTP/1.1\r\nHost: d\r\nContent-Length: 12\r\n\r\n{\"name\":\"a\"}",
            KEPT,
        ),
        (
            "PUT /sessions/a/values/0/SIZE HTTP/1.1\r\nHost: d\r\nConnection: Close\r\n\
             Content-Length: 13\r\n\r\n{\"value\":\"L\"}",
            LAST,
        ),
        (
            "GET /sessions/a/bill HTTP/1.1\r\nHost: d\r\nContent-Length: 3\r\n\r\nabc",
            KEPT,
        ),
        ("DELETE /saved/x HTTP/1.0\r\n\r\n", LAST),
    ];
    let mut buffer = Buf::new(rt.alloc())?;
    let wrong = first_wrong(rt.alloc(), &mut buffer, messages.as_slice())?;
    drop(buffer);
    assert_eq!(rt; wrong, None);
    Ok(())
}

#[test]
fn refusals_are_cut(rt: HostRuntime) -> Result<(), Fail> {
    let messages = [
        ("hello\n\n", bad(400)),
        ("GET /sessions/a HTTP/1.1\r\n\r\n", bad(400)),
        (
            "GET /sessions/a HTTP/1.1\r\nHost: d\r\nHost: d\r\n\r\n",
            bad(400),
        ),
        (
            "POST /sessions HTTP/1.1\r\nHost: d\r\nContent-Length: 2\r\nContent-Length: 2\r\n\r\n{}",
            bad(400),
        ),
        (
            "POST /sessions HTTP/1.1\r\nHost: d\r\nContent-Length: +2\r\n\r\n{}",
            bad(400),
        ),
        (
            "POST /sessions HTTP/1.1\r\nHost: d\r\nContent-Length: 2\r\n\r\n{}",
            bad(400),
        ),
        (
            "PATCH /nowhere HTTP/1.1\r\nHost: d\r\nTransfer-Encoding: chunked\r\n\r\n",
            bad(501),
        ),
        ("PATCH /nowhere HTTP/1.1\r\nHost: d\r\n\r\n", bad(404)),
        ("PATCH /sessions HTTP/1.1\r\nHost: d\r\n\r\n", bad(405)),
        ("POST /sessions HTTP/1.1\r\nHost: d\r\n\r\n", bad(411)),
        (
            "POST /sessions HTTP/1.1\r\nHost: d\r\nContent-Length: 65537\r\n\r\n",
            bad(413),
        ),
    ];
    let mut buffer = Buf::new(rt.alloc())?;
    let wrong = first_wrong(rt.alloc(), &mut buffer, messages.as_slice())?;
    drop(buffer);
    assert_eq!(rt; wrong, None);
    Ok(())
}
