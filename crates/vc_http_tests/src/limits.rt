//! Heads and bodies at their limits, and a byte or a line over them.

use crate::coming::{Came, first_of};
use std::alloc::{AllocError, Global};
use std::test::Fail;
use vc_http::Buf;

// The front, so many bytes more, and the end.
fn filled(
    alloc: Global,
    front: &str,
    filler: &[u8],
    times: usize,
    end: &str,
) -> Result<Vec<u8>, AllocError> {
    let mut bytes = Vec::new(alloc);
    bytes.extend_from_slice(front.as_bytes())?;
    for time in 0..times {
        bytes.extend_from_slice(filler)?;
    }
    bytes.extend_from_slice(end.as_bytes())?;
    Ok(bytes)
}

fn comes_to(
    alloc: Global,
    front: &str,
    filler: &[u8],
    times: usize,
    end: &str,
) -> Result<Came, AllocError> {
    let bytes = filled(alloc, front, filler, times, end)?;
    let mut buffer = Buf::new(alloc)?;
    let came = first_of(alloc, &mut buffer, bytes.as_slice(), 4096);
    drop(buffer);
    drop(bytes);
    came
}

// Of a head the first 44 bytes and the last four are these.
const FRONT: &str = "GET /sessions/a HTTP/1.1\r\nHost: desk\r\nFill: ";

const END: &str = "\r\n\r\n";

#[test]
fn heads_have_8192_bytes(rt: HostRuntime) -> Result<(), Fail> {
    let within = comes_to(rt.alloc(), FRONT, b"x", 8144, END)?;
    let over = comes_to(rt.alloc(), FRONT, b"x", 8145, END)?;
    let endless = comes_to(rt.alloc(), FRONT, b"x", 9000, "")?;
    assert_eq!(rt; within, Came::Asked { keep: true });
    assert_eq!(rt; over, Came::Bad { status: 431 });
    assert_eq!(rt; endless, Came::Bad { status: 431 });
    Ok(())
}

#[test]
fn heads_have_66_lines(rt: HostRuntime) -> Result<(), Fail> {
    let within = comes_to(
        rt.alloc(),
        "GET /sessions/a HTTP/1.1\nHost: d\n",
        b"A: b\n",
        63,
        "\n",
    )?;
    let over = comes_to(
        rt.alloc(),
        "GET /sessions/a HTTP/1.1\nHost: d\n",
        b"A: b\n",
        64,
        "\n",
    )?;
    assert_eq!(rt; within, Came::Asked { keep: true });
    assert_eq!(rt; over, Came::Bad { status: 431 });
    Ok(())
}

#[test]
fn bodies_have_65536_bytes(rt: HostRuntime) -> Result<(), Fail> {
    let front = "GET /sessions/a HTTP/1.1\nHost: d\nContent-Length: 65536\n\n";
    let whole = comes_to(rt.alloc(), front, b"x", 65_536, "")?;
    let cut = comes_to(rt.alloc(), front, b"x", 65_535, "")?;
    assert_eq!(rt; whole, Came::Asked { keep: true });
    assert_eq!(rt; cut, Came::End);
    Ok(())
}
