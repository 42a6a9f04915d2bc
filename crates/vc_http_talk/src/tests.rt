//! Connections in pieces over a desk of a lamp, as their links fail at each call.

ghost use Rattle.std.specs.Prelude.{◌≡◌, ◌<◌, IsSome};
ghost use Rattle.vc_plan_lamp.specs.Lamp.{lamp};
ghost use Rattle.vc_desk.specs.Desks.{IsDesk};

use crate::talk;
use std::alloc::{AllocError, Global};
use std::marker::Brand;
use std::sync::ledger::{Blank, Ledger};
use std::test::Fail;
use vc_desk::Desk;
use vc_http::Buf;
use vc_outside::{Keeper, MemKeeper};
use vc_outside_links::MemLink;
use vc_plan::Plan;
use vc_plan_lamp::lamp;
use vc_value_steps::Steps;

// Two requests and the front of a third.
const TWO: &str = "GET /sessions/a HTTP/1.1\r\nHost: d\r\n\r\n\
    GET /sessions/a/bill HTTP/1.1\r\nHost: d\r\n\r\nGET /ses";

const ANSWERED: &str = "HTTP/1.1 404 Not Found\r\ncontent-type: text/plain; charset=utf-8\r\n\
    content-length: 20\r\n\r\nrefused 1 NoSession\n\
    HTTP/1.1 404 Not Found\r\ncontent-type: text/plain; charset=utf-8\r\n\
    content-length: 20\r\n\r\nrefused 1 NoSession\n";

// A request that closes the connection, and one behind it.
const OLD: &str = "GET /sessions/a HTTP/1.0\r\n\r\nGET /sessions/a HTTP/1.1\r\nHost: d\r\n\r\n";

const CLOSED: &str = "HTTP/1.1 404 Not Found\r\ncontent-type: text/plain; charset=utf-8\r\n\
    content-length: 20\r\nconnection: close\r\n\r\nrefused 1 NoSession\n";

// Whether these are the bytes, or a front of them where the link fails at this call.
fn writes<L: Ledger>(
    alloc: Global,
    desk: &mut Desk,
    keeper: &mut MemKeeper,
    buffer: &mut Buf,
    text: &str,
    failing: u64,
    wanted: &str,
    steps: &mut Steps<L>,
) -> Result<bool, AllocError>
    requires is { IsDesk desk.old }
    requires begun { IsSome keeper.old.begun }
    ensures is { IsDesk desk.new }
    ensures begun { keeper.new.begun ≡ keeper.old.begun }
{
    let mut link = MemLink::new(alloc, text.as_bytes(), 7, 1_000)?;
    link.fail_at(failing)?;
    talk(alloc, desk, keeper, &mut link, buffer, steps);
    let front = wanted.as_bytes().starts_with(link.written());
    let whole = link.written().len() == wanted.len();
    drop(link);
    Ok(front && (whole || failing != 0))
}

fn writes_each<L: Ledger>(
    alloc: Global,
    desk: &mut Desk,
    keeper: &mut MemKeeper,
    buffer: &mut Buf,
    steps: &mut Steps<L>,
) -> Result<bool, AllocError>
    requires is { IsDesk desk.old }
    requires begun { IsSome keeper.old.begun }
    ensures is { IsDesk desk.new }
    ensures begun { keeper.new.begun ≡ keeper.old.begun }
{
    for failing in 0..20u64 {
        if !writes(alloc, desk, keeper, buffer, TWO, failing, ANSWERED, steps)? {
            return Ok(false);
        }
    }
    writes(alloc, desk, keeper, buffer, OLD, 0, CLOSED, steps)
}

fn desk_of<L: Ledger>(alloc: Global, plan: Plan, blank: Blank) -> Result<bool, AllocError>
    requires name { blank.name ≡ L.name }
    requires parts { blank.parts ≡ L.parts }
    requires some { 0 < blank.parts }
    requires plan { plan ≡ lamp }
{
    let mut keeper = MemKeeper::new(alloc);
    let Ok(()) = keeper.begin(None) else {
        return Ok(false);
    };
    let mut buffer = Buf::new(alloc)?;
    let mut desk = Desk::new(alloc, plan);
    let mut steps: Steps<L> = Steps::new(blank);
    let written = writes_each(alloc, &mut desk, &mut keeper, &mut buffer, &mut steps);
    drop(desk);
    drop(buffer);
    drop(keeper);
    written
}

#[test]
fn connections_are_answered(rt: HostRuntime) -> Result<(), Fail> {
    let plan = lamp(rt.alloc())?;
    assert!(rt; desk_of::<Brand>(rt.alloc(), plan, Blank::new(1))?);
    Ok(())
}
