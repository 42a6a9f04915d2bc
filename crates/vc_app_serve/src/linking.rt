//! The links that come to a door, one after another.

ghost use Rattle.std.specs.Prelude.{◌≡◌, false, IsSome, OnOk, OnErr};
ghost use Rattle.vc_outside.specs.Faults.{HasCause};
ghost use Rattle.vc_desk.specs.Desks.{IsDesk, state_of};
ghost use Rattle.vc_app_serve.specs.Visits.{ServesOne, ServesUnless, links, telling};

use std::alloc::Global;
use std::sync::ledger::Ledger;
use vc_desk::Desk;
use vc_http::Buf;
use vc_http_talk::talk;
use vc_outside::{Failed, Keeper};
use vc_outside_links::{Door, Link};
use vc_value_steps::Steps;

/// Takes the next link, talks to it, and ends it. Where none comes, all is as before but the door's count of faults.
fn serve_link<K: Keeper, C: Ledger, D: Door>(
    alloc: Global,
    desk: &mut Desk,
    keeper: &mut K,
    door: &mut D,
    buffer: &mut Buf,
    steps: &mut Steps<C>,
) -> Result<(), Failed>
    requires is { IsDesk desk.old }
    requires begun { IsSome (K.begun keeper.old) }
    requires listens { IsSome (D.address door.old) }
    requires home { D.is_out door.old ≡ false }
    ensures done { OnOk result (ServesOne (telling D.Conn.left D.Conn.written D.Conn.faults) desk.old.plan
        (state_of desk.old.sessions (K.texts keeper.old) (K.faults keeper.old))
        (state_of desk.new.sessions (K.texts keeper.new) (K.faults keeper.new))
        (links (D.coming door.old) (D.coming door.new) (D.finished door.old) (D.finished door.new))) }
    ensures none { OnErr result ((desk.new ≡ desk.old) × (keeper.new ≡ keeper.old)
        × (D.coming door.new ≡ D.coming door.old) × (D.finished door.new ≡ D.finished door.old)) }
    ensures is { IsDesk desk.new }
    ensures plan { desk.new.plan ≡ desk.old.plan }
    ensures begun { K.begun keeper.new ≡ K.begun keeper.old }
    ensures address { D.address door.new ≡ D.address door.old }
    ensures home { D.is_out door.new ≡ false }
    ensures cause { HasCause (D.faults door.old) (D.faults door.new) result }
{
    let mut link = door.next()?;
    talk(alloc, desk, keeper, &mut link, buffer, steps);
    door.done(link);
    Ok(())
}

/// Serves so many links, one after another, unless the door fails: then fewer were served.
pub fn serve_links<K: Keeper, C: Ledger, D: Door>(
    alloc: Global,
    desk: &mut Desk,
    keeper: &mut K,
    door: &mut D,
    buffer: &mut Buf,
    steps: &mut Steps<C>,
    count: u32,
) -> Result<(), Failed>
    requires is { IsDesk desk.old }
    requires begun { IsSome (K.begun keeper.old) }
    requires listens { IsSome (D.address door.old) }
    requires home { D.is_out door.old ≡ false }
    ensures serves { ServesUnless (telling D.Conn.left D.Conn.written D.Conn.faults) desk.old.plan
        (state_of desk.old.sessions (K.texts keeper.old) (K.faults keeper.old))
        (state_of desk.new.sessions (K.texts keeper.new) (K.faults keeper.new))
        (links (D.coming door.old) (D.coming door.new) (D.finished door.old) (D.finished door.new)) count result }
    ensures begun { K.begun keeper.new ≡ K.begun keeper.old }
    ensures address { D.address door.new ≡ D.address door.old }
    ensures home { D.is_out door.new ≡ false }
    ensures cause { HasCause (D.faults door.old) (D.faults door.new) result }
{
    let mut served: u32 = 0;
    while served < count {
        match serve_link(alloc, desk, keeper, door, buffer, steps) {
            Ok(()) => {}
            Err(failed) => return Err(failed),
        }
        served += 1;
    }
    Ok(())
}
