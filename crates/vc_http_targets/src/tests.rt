//! Requests over HTTP, from their parts.

ghost use Rattle.std.specs.Prelude.{◌≡◌};
ghost use Rattle.vc_http_routes.specs.Rows.{route_rows};

use crate::{find_target, read_request, verb_for};
use matchit::Router;
use std::alloc::{AllocError, Global};
use std::test::Fail;
use vc_http_routes::{Method, Route, new_routes};
use vc_wire_requests::Request;

// Whether a PUT of a value asks for the characteristic that the path names.
fn sets_size(alloc: Global, routes: &Router<Route>) -> Result<bool, AllocError>
    requires { routes.now ≡ route_rows }
{
    let Some((route, target)) = find_target(routes, "/sessions/a/values/0/size") else {
        return Ok(false);
    };
    let Some(verb) = verb_for(route, Method::Put) else {
        return Ok(false);
    };
    match read_request(alloc, verb, target, "{\"value\":\"L\"}".as_bytes())? {
        Some(Request::Set { characteristic, .. }) => Ok(characteristic.is(b"SIZE".as_slice())),
        _ => Ok(false),
    }
}

#[test]
fn reads_requests(rt: HostRuntime) -> Result<(), Fail> {
    let routes = new_routes(rt.alloc())?;
    let nothing = find_target(&routes, "/sessions/a/values/00/size").is_none();
    let sets = sets_size(rt.alloc(), &routes);
    drop(routes);
    assert!(rt; nothing);
    assert!(rt; sets?);
    Ok(())
}
