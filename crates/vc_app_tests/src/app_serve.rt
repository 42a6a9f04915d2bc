//! Links in memory that the program serves.

ghost use Rattle.std.specs.Prelude.{◌≡◌, ◌<◌, false};

use crate::app::{PUMP, ROWS_OF_SM};
use std::alloc::Global;
use std::process::Abort;
use std::test::Fail;
use vc_app::desk;
use vc_outside::{MemKeeper, MemShelf, MemSink};
use vc_outside_links::{MemDoor, MemLink};

fn shelf<R: Abort>(rt: &R, alloc: Global) -> MemShelf {
    let mut shelf = MemShelf::new(alloc);
    shelf
        .add(alloc, "pump", PUMP.as_bytes())
        .expect(rt, "memory");
    shelf
        .add(alloc, "sm.csv", ROWS_OF_SM.as_bytes())
        .expect(rt, "memory");
    shelf
}

fn words<R: Abort>(rt: &R, alloc: Global, names: &[&str]) -> Vec<String> {
    let mut words = Vec::new(alloc);
    for name in names {
        let word = String::from_str(alloc, name).expect(rt, "memory");
        words.push(word).expect(rt, "memory");
    }
    words
}

// A door at which a link comes for each of these texts, of which it gives at most so many bytes at once.
fn door<R: Abort>(rt: &R, alloc: Global, sent: &[&str], piece: usize) -> MemDoor
    requires { 0 < piece }
    ensures { result.is_out ≡ false }
{
    let mut links = Vec::new(alloc);
    for text in sent {
        let link = MemLink::new(alloc, text.as_bytes(), piece, 400).expect(rt, "memory");
        links.push(link).expect(rt, "memory");
    }
    MemDoor::new(alloc, links).expect(rt, "memory")
}

// The status of `serve` with so many links at this door.
fn serve<R: Abort>(rt: &R, alloc: Global, door: &mut MemDoor, number: &str) -> u8
    requires { door.old.is_out ≡ false }
    ensures { door.new.is_out ≡ false }
{
    let mut shelf = shelf(rt, alloc);
    let mut keeper = MemKeeper::new(alloc);
    let mut sink = MemSink::with_room(alloc, 200).expect(rt, "memory");
    let words = words(rt, alloc, &["serve", "pump", "loopback", number]);
    let status = desk(
        alloc,
        words.as_slice(),
        &mut shelf,
        &mut keeper,
        door,
        &mut sink,
    );
    drop(words);
    drop(sink);
    drop(keeper);
    drop(shelf);
    status
}

// Whether this was written to the link of this number that is done.
fn wrote(door: &MemDoor, number: usize, wanted: &str) -> bool {
    match door.finished().get(number) {
        Some(link) => link.written() == wanted.as_bytes(),
        None => false,
    }
}

const OPENS: &str =
    "POST /sessions HTTP/1.1\r\nHost: d\r\nContent-Length: 12\r\n\r\n{\"name\":\"a\"}";

const SHOWS: &str = "GET /sessions/a HTTP/1.1\r\nHost: d\r\n\r\n";

const NO_SESSION: &str =
    "HTTP/1.1 404 Not Found\r\ncontent-type: text/plain; charset=utf-8\r\ncontent-length: 20\r\n\r\n\
        refused 1 NoSession\n";

const OPEN: &str =
    "HTTP/1.1 200 OK\r\ncontent-type: text/plain; charset=utf-8\r\ncontent-length: 8\r\n\r\nok open\n";

const SHOWN: &str =
    "HTTP/1.1 200 OK\r\ncontent-type: text/plain; charset=utf-8\r\ncontent-length: 99\r\n\r\n\
        status open\ninstance 0 PUMP\nSIZE ? 'S' 'M' 'L' required\nMOTOR ? 'E1' 'E2' 'E3'\nFLOW ? 0 .. 100\nend\n";

#[test]
fn a_link_is_served(rt: HostRuntime) -> Result<(), Fail> {
    let mut door = door(&rt, rt.alloc(), &[SHOWS], 64);
    let status = serve(&rt, rt.alloc(), &mut door, "1");
    let answered = wrote(&door, 0, NO_SESSION);
    drop(door);
    assert!(rt; answered);
    assert_eq!(rt; status, 0);
    Ok(())
}

#[test]
fn a_session_stays_open_for_the_next_link(rt: HostRuntime) -> Result<(), Fail> {
    let mut door = door(&rt, rt.alloc(), &[OPENS, SHOWS], 1);
    let status = serve(&rt, rt.alloc(), &mut door, "2");
    let opened = wrote(&door, 0, OPEN);
    let shown = wrote(&door, 1, SHOWN);
    drop(door);
    assert!(rt; opened);
    assert!(rt; shown);
    assert_eq!(rt; status, 0);
    Ok(())
}

#[test]
fn a_door_without_links_fails(rt: HostRuntime) -> Result<(), Fail> {
    let mut door = door(&rt, rt.alloc(), &[], 1);
    let none = serve(&rt, rt.alloc(), &mut door, "0");
    let padded = serve(&rt, rt.alloc(), &mut door, "01");
    let signed = serve(&rt, rt.alloc(), &mut door, "+1");
    let many = serve(&rt, rt.alloc(), &mut door, "1000001");
    let one = serve(&rt, rt.alloc(), &mut door, "1");
    drop(door);
    assert_eq!(rt; [none, padded, signed, many], [1, 1, 1, 1]);
    assert_eq!(rt; one, 6);
    Ok(())
}
