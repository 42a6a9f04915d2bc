//! Links of which each call fails in turn: nothing that came before is lost.

use crate::coming::{Came, comes};
use std::alloc::{AllocError, Global};
use std::test::Fail;
use vc_http::Buf;
use vc_outside_links::MemLink;

// Two requests and the front of a third, 96 bytes: fourteen reads of seven bytes, and one at the end.
const ASKED: &str = "GET /sessions/a HTTP/1.1\r\nHost: d\r\n\r\n\
    DELETE /sessions/a HTTP/1.0\r\nHost: desk\r\n\r\nGET /sessions/a ";

// How often each came, of so many messages that were asked for.
#[derive(Clone, Copy, Debug, PartialEq, Eq)]
struct Tally {
    kept: u32,
    last: u32,
    failed: u32,
    ended: u32,
}

fn count_turns(link: &mut MemLink, buffer: &mut Buf, times: u32) -> Tally {
    let mut tally = Tally {
        kept: 0,
        last: 0,
        failed: 0,
        ended: 0,
    };
    for time in 0..times {
        match comes(link, buffer) {
            Came::Asked { keep: true } => tally.kept = tally.kept.saturating_add(1),
            Came::Asked { keep: false } => tally.last = tally.last.saturating_add(1),
            Came::Failed => tally.failed = tally.failed.saturating_add(1),
            Came::End => tally.ended = tally.ended.saturating_add(1),
            _ => {}
        }
    }
    tally
}

// What comes where the read of this number fails.
fn tally_with_fault(alloc: Global, buffer: &mut Buf, call: u64) -> Result<Tally, AllocError> {
    let mut link = MemLink::new(alloc, ASKED.as_bytes(), 7, 0)?;
    link.fail_at(call)?;
    buffer.clear();
    let tally = count_turns(&mut link, buffer, 4);
    drop(link);
    Ok(tally)
}

fn faults_lose_nothing(alloc: Global, buffer: &mut Buf, calls: u64) -> Result<bool, AllocError> {
    let wanted = Tally {
        kept: 1,
        last: 1,
        failed: 1,
        ended: 1,
    };
    let mut lost = false;
    for call in 0..calls {
        let tally = tally_with_fault(alloc, buffer, call + 1)?;
        lost = lost || tally != wanted;
    }
    Ok(!lost)
}

#[test]
fn each_read_fails_in_turn(rt: HostRuntime) -> Result<(), Fail> {
    let mut buffer = Buf::new(rt.alloc())?;
    let kept = faults_lose_nothing(rt.alloc(), &mut buffer, 15)?;
    drop(buffer);
    assert!(rt; kept);
    Ok(())
}
