//! A link and a door in memory, with calls that fail.

ghost use Rattle.std.specs.Prelude.{◌≡◌, false, IsSome};

use crate::{Door, Link, MemDoor, MemLink, send_all};
use std::test::Fail;
use vc_outside::Failed;

#[test]
fn reads_and_writes(rt: HostRuntime) -> Result<(), Fail> {
    let mut link = MemLink::new(rt.alloc(), b"abc".as_slice(), 2, 4)?;
    link.fail_at(2)?;
    let mut buffer = [0u8; 8];
    assert_eq!(rt; link.read(&mut buffer), Ok(2));
    assert_eq!(rt; link.read(&mut buffer), Err(Failed));
    assert_eq!(rt; link.read(&mut buffer), Ok(1));
    assert_eq!(rt; link.read(&mut buffer), Ok(0));
    assert_eq!(rt; send_all(&mut link, b"de".as_slice()), Ok(()));
    assert_eq!(rt; send_all(&mut link, b"fgh".as_slice()), Err(Failed));
    assert!(rt; link.written() == b"defg".as_slice());
    Ok(())
}

// Takes a link, if one comes, and ends it.
fn passes_one(door: &mut MemDoor) -> bool
    requires listens { IsSome door.old.address }
    requires home { door.old.is_out ≡ false }
    ensures listens { IsSome door.new.address }
    ensures home { door.new.is_out ≡ false }
{
    match door.next() {
        Ok(link) => {
            door.done(link);
            true
        }
        Err(_) => false,
    }
}

#[test]
fn links_come_and_go(rt: HostRuntime) -> Result<(), Fail> {
    let mut links = Vec::new(rt.alloc());
    links.push(MemLink::new(rt.alloc(), b"abc".as_slice(), 2, 4)?)?;
    let mut door = MemDoor::new(rt.alloc(), links)?;
    door.fail_at(2)?;
    if door.listen("loopback").is_err() {
        return Ok(());
    }
    assert!(rt; !passes_one(&mut door));
    assert!(rt; passes_one(&mut door));
    assert!(rt; !passes_one(&mut door));
    assert_eq!(rt; door.finished().len(), 1);
    Ok(())
}
