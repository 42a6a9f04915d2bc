//! Responses that are made and written.

use crate::{SendFault, write_bad, write_response};
use std::test::Fail;
use vc_http_routes::Allow;
use vc_outside::Failed;
use vc_outside_links::MemLink;

#[test]
fn opens(rt: HostRuntime) -> Result<(), Fail> {
    let mut link = MemLink::new(rt.alloc(), b"".as_slice(), 1, 100)?;
    let body = b"ok open\n".as_slice();
    assert_eq!(rt;
        write_response(rt.alloc(), &mut link, 200, true, body),
        Ok(())
    );
    let wanted =
        "HTTP/1.1 200 OK\r\ncontent-type: text/plain; charset=utf-8\r\ncontent-length: 8\r\n\r\nok open\n";
    assert!(rt; link.written() == wanted.as_bytes());
    let again = write_response(rt.alloc(), &mut link, 200, true, body);
    assert_eq!(rt; again, Err(SendFault::Failed));
    Ok(())
}

#[test]
fn refuses(rt: HostRuntime) -> Result<(), Fail> {
    let mut link = MemLink::new(rt.alloc(), b"".as_slice(), 1, 200)?;
    assert_eq!(rt; write_bad(&mut link, 405, Allow::GetDelete), Ok(()));
    let wanted =
        "HTTP/1.1 405 Method Not Allowed\r\ncontent-type: text/plain; charset=utf-8\r\ncontent-length: 22\r\n\
        allow: GET, DELETE\r\nconnection: close\r\n\r\nrefused 0 NotARequest\n";
    assert!(rt; link.written() == wanted.as_bytes());
    assert_eq!(rt; write_bad(&mut link, 400, Allow::Nothing), Err(Failed));
    assert_eq!(rt; link.written().len(), 200);
    Ok(())
}
