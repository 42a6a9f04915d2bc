//! Bodies that are of the form, and others.

use crate::read_text;
use std::test::Fail;

#[test]
fn reads_bodies(rt: HostRuntime) -> Result<(), Fail> {
    let named = read_text(rt.alloc(), "{\"name\": \"a\"}".as_bytes(), "name")?;
    assert!(rt; named.is_some_and(|name| name.is(b"a".as_slice())));
    let valued = read_text(rt.alloc(), "{\"value\": \"a\"}".as_bytes(), "name")?;
    assert!(rt; valued.is_none());
    Ok(())
}
