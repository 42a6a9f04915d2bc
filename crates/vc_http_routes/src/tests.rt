//! A router of all routes is made, and finds them.

use crate::{Method, Route, allow_of, allows, find_route, method_of, new_routes};
use std::test::Fail;

#[test]
fn finds_routes(rt: HostRuntime) -> Result<(), Fail> {
    let routes = new_routes(rt.alloc())?;
    assert!(rt;
        matches!(
            find_route(&routes, "/sessions/save/save"),
            Some(Route::Save)
        )
    );
    assert!(rt; matches!(find_route(&routes, "/sessions/save"), Some(Route::Session)));
    assert!(rt; find_route(&routes, "/sessions/a/").is_none());
    drop(routes);
    Ok(())
}

#[test]
fn knows_methods(rt: HostRuntime) -> Result<(), Fail> {
    assert!(rt; matches!(method_of(b"PUT".as_slice()), Some(Method::Put)));
    assert!(rt; method_of(b"put".as_slice()).is_none());
    assert!(rt; allows(allow_of(Route::Values), Method::Put));
    assert!(rt; !allows(allow_of(Route::Session), Method::Put));
    Ok(())
}
