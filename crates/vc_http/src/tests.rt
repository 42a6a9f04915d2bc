//! Requests that come in pieces, one behind another, links that fail, and the statuses of replies.

use crate::{Buf, Turn, next_request, status_of, write_reply};
use std::alloc::Global;
use std::test::Fail;
use vc_outside_links::MemLink;
use vc_plan::Plan;
use vc_plan_lamp::lamp;
use vc_wire_replies::{Refusal, Reply};

// Two requests and the front of a third.
const ASKED: &str = "GET /sessions/a HTTP/1.1\r\nHost: d\r\n\r\n\
    POST /sessions HTTP/1.0\r\nContent-Length: 12\r\n\r\n{\"name\":\"a\"}GET /ses";

fn is_asked(turn: &Turn, wanted: bool) -> bool {
    matches!(turn, Turn::Asked { keep, .. } if *keep == wanted)
}

// What comes of the next message: whether the connection goes on behind it, if it is a request.
fn comes(link: &mut MemLink, buffer: &mut Buf, wanted: bool) -> bool {
    let turn = next_request(link, buffer);
    let asked = is_asked(&turn, wanted);
    drop(turn);
    asked
}

fn ends(link: &mut MemLink, buffer: &mut Buf) -> bool {
    let turn = next_request(link, buffer);
    let ended = matches!(&turn, Turn::End);
    drop(turn);
    ended
}

fn fails(link: &mut MemLink, buffer: &mut Buf) -> bool {
    let turn = next_request(link, buffer);
    let failed = matches!(&turn, Turn::Failed);
    drop(turn);
    failed
}

#[test]
fn comes_in_pieces(rt: HostRuntime) -> Result<(), Fail> {
    let mut buffer = Buf::new(rt.alloc())?;
    let mut link = MemLink::new(rt.alloc(), ASKED.as_bytes(), 7, 0)?;
    link.fail_at(3)?;
    let failed = fails(&mut link, &mut buffer);
    let first = comes(&mut link, &mut buffer, true);
    let second = comes(&mut link, &mut buffer, false);
    let ended = ends(&mut link, &mut buffer);
    let kept = buffer.len();
    buffer.clear();
    let left = buffer.len();
    drop(buffer);
    drop(link);
    assert!(rt; failed && first);
    assert!(rt; second && ended);
    assert_eq!(rt; kept, 8);
    assert_eq!(rt; left, 0);
    Ok(())
}

fn has_status(refusal: Refusal, wanted: u16) -> bool {
    let reply = Reply::Refused { refusal };
    let status = status_of(&reply).as_u16();
    drop(reply);
    status == wanted
}

#[test]
fn refusals_have_statuses(rt: HostRuntime) -> Result<(), Fail> {
    assert!(rt; has_status(Refusal::NoSession, 404));
    assert!(rt; has_status(Refusal::KeeperFault, 503));
    assert!(rt; has_status(Refusal::NotInList, 409));
    assert_eq!(rt; status_of(&Reply::Closed).as_u16(), 200);
    Ok(())
}

fn is_written(alloc: Global, plan: &Plan, link: &mut MemLink) -> bool {
    write_reply(alloc, plan, link, &Reply::NotARequest, true).is_ok()
}

#[test]
fn a_reply_is_written(rt: HostRuntime) -> Result<(), Fail> {
    let mut link = MemLink::new(rt.alloc(), b"".as_slice(), 1, 200)?;
    let plan = lamp(rt.alloc())?;
    let written = is_written(rt.alloc(), &plan, &mut link);
    drop(plan);
    let wanted =
        "HTTP/1.1 400 Bad Request\r\ncontent-type: text/plain; charset=utf-8\r\ncontent-length: 22\r\n\r\n\
        refused 0 NotARequest\n";
    assert!(rt; written && link.written() == wanted.as_bytes());
    Ok(())
}
