//! Messages that are whole, refused and cut.

ghost use Rattle.std.specs.Prelude.{◌≡◌};
ghost use Rattle.vc_http_routes.specs.Rows.{route_rows};

use crate::{Judged, judge};
use matchit::Router;
use std::alloc::Global;
use std::test::Fail;
use vc_http_routes::{Route, new_routes};

fn is_whole(routes: &Router<Route>, alloc: Global, bytes: &str, wanted: usize) -> bool
    requires { routes.now ≡ route_rows }
{
    match judge(routes, alloc, bytes.as_bytes()) {
        Judged::Whole { size, keep, .. } => size == wanted && keep,
        _ => false,
    }
}

fn is_refused(routes: &Router<Route>, alloc: Global, bytes: &str, wanted: u16) -> bool
    requires { routes.now ≡ route_rows }
{
    match judge(routes, alloc, bytes.as_bytes()) {
        Judged::Refused { status, .. } => status == wanted,
        _ => false,
    }
}

// A request with what follows it, a method that its route hasn't, and a value whose length isn't said.
fn are_judged(routes: &Router<Route>, alloc: Global) -> bool
    requires { routes.now ≡ route_rows }
{
    let opens =
        "POST /sessions HTTP/1.1\r\nHost: d\r\nContent-Length: 12\r\n\r\n{\"name\":\"a\"}GET";
    let patches = "PATCH /sessions HTTP/1.1\r\nHost: d\r\n\r\n";
    let lacks = "PUT /sessions/a/values/0/SIZE HTTP/1.1\r\nHost: d\r\n\r\n";
    is_whole(routes, alloc, opens, 68)
        && is_refused(routes, alloc, patches, 405)
        && is_refused(routes, alloc, lacks, 411)
}

#[test]
fn judges_messages(rt: HostRuntime) -> Result<(), Fail> {
    let routes = new_routes(rt.alloc())?;
    let judged = are_judged(&routes, rt.alloc());
    drop(routes);
    assert!(rt; judged);
    Ok(())
}
