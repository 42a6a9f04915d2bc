//! Heads that are whole, refused and cut.

use crate::{HeadJudged, judge_head};
use std::test::Fail;

fn is_refused(bytes: &[u8], wanted: u16) -> bool {
    matches!(judge_head(bytes), HeadJudged::Refused(status) if status == wanted)
}

fn is_whole(bytes: &[u8], path: &str) -> bool {
    matches!(judge_head(bytes), HeadJudged::Whole(head) if head.path == path && head.keep)
}

#[test]
fn judges_heads(rt: HostRuntime) -> Result<(), Fail> {
    let asked = "GET /sessions/a?x HTTP/1.1\r\nHost: d\r\n\r\nGET";
    assert!(rt; is_whole(asked.as_bytes(), "/sessions/a"));
    let hostless = "GET /sessions/a HTTP/1.1\r\n\r\n";
    assert!(rt; is_refused(hostless.as_bytes(), 400));
    let chunked = "POST /sessions HTTP/1.1\nHost: d\nTransfer-Encoding: chunked\n\n";
    assert!(rt; is_refused(chunked.as_bytes(), 501));
    assert!(rt;
        matches!(
            judge_head(b"GET / HTTP/1.1\r\n".as_slice()),
            HeadJudged::Cut
        )
    );
    Ok(())
}
