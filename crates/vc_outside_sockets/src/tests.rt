//! A door that listens on loopback, and both ends of one link, in one thread.

ghost use Rattle.std.specs.Prelude.{◌≡◌, false, IsSome};

use crate::TcpDoor;
use std::io::{Read, Write};
use std::net::{Ipv4Addr, Net, TcpStream};
use std::test::Fail;
use vc_outside_links::{Door, Link, send_all};

// Reads what the client sent and answers; whether both went well.
fn answers<R: Net>(door: &mut TcpDoor<R>) -> bool
    requires listens { IsSome door.old.address }
    requires home { door.old.is_out ≡ false }
{
    let Ok(mut link) = door.next() else {
        return false;
    };
    let mut buffer = [0u8; 8];
    let count = link.read(&mut buffer).unwrap_or(0);
    let sent = send_all(&mut link, b"pong".as_slice()).is_ok();
    door.done(link);
    sent && &buffer[..count] == b"ping".as_slice()
}

#[test]
fn listens(rt: HostRuntime) -> Result<(), Fail> {
    let mut door = TcpDoor::new(rt.clone()?, rt.alloc());
    if door.listen("127.0.0.1:0").is_err() {
        return Ok(());
    }
    let mut client = TcpStream::connect(&rt, (Ipv4Addr::LOCALHOST, door.port()))?;
    client.write_all(b"ping".as_slice())?;
    let answered = answers(&mut door);
    assert!(rt; answered);
    let mut buffer = [0u8; 8];
    let count = client.read(&mut buffer)?;
    assert!(rt; &buffer[..count] == b"pong".as_slice());
    Ok(())
}
