//! The command `serve`.

ghost use Rattle.std.specs.Prelude.{◌≡◌, ◌<◌, ◌≤◌, false, IsSome};
ghost use Rattle.std.specs.Option.{option_map};
ghost use Rattle.vc_outside.specs.Faults.{HasCause};
ghost use Rattle.vc_plan.specs.Valid.{IsValid};
ghost use Rattle.vc_desk.specs.Desks.{IsDesk, state_of};
ghost use Rattle.vc_desk.specs.Keeping.{keeping};
ghost use Rattle.vc_app_check.specs.Checking.{outside};
ghost use Rattle.vc_app_serve.specs.Readying as readying;
ghost use Rattle.vc_app_serve.specs.Serving as serving;
ghost use Rattle.vc_app_serve.specs.Serving.{at_door, read_from, service};
ghost use Rattle.vc_app_serve.specs.Visits.{ServesUnless, links, telling};

use crate::linking::serve_links;
use crate::stop::Stop;
use crate::telling::say_stop;
use std::alloc::Global;
use std::marker::Brand;
use std::sync::ledger::{Blank, Ledger};
use vc_app_models::load_plan;
use vc_desk::Desk;
use vc_http::Buf;
use vc_outside::{Failed, Keeper, Shelf, Sink};
use vc_outside_links::{Door, Link};
use vc_plan::Plan;
use vc_value_steps::Steps;

// Takes the room for the bytes of a connection, and then listens.
fn listen<D: Door>(alloc: Global, door: &mut D, address: &str) -> Result<Buf, Stop>
    ensures readies { readying.Readies address.now
        (at_door (links (D.coming door.old) (D.coming door.new) (D.finished door.old) (D.finished door.new))
        (D.address door.old) (D.address door.new) (D.faults door.old) (D.faults door.new)) result }
    ensures out { D.is_out door.new ≡ D.is_out door.old }
{
    match Buf::new(alloc) {
        Ok(buffer) => match door.listen(address) {
            Ok(()) => Ok(buffer),
            Err(_) => Err(Stop::Door),
        },
        Err(_) => Err(Stop::OutOfMemory),
    }
}

// Serves so many links by the desk. Steps are counted in the blank's ledger.
fn serve_counted<K: Keeper, L: Ledger, D: Door>(
    alloc: Global,
    desk: &mut Desk,
    keeper: &mut K,
    door: &mut D,
    buffer: Buf,
    count: u32,
    blank: Blank,
) -> Result<(), Failed>
    requires is { IsDesk desk.old }
    requires begun { IsSome (K.begun keeper.old) }
    requires listens { IsSome (D.address door.old) }
    requires home { D.is_out door.old ≡ false }
    requires name { blank.name ≡ L.name }
    requires parts { blank.parts ≡ L.parts }
    requires some { 0 < blank.parts }
    ensures serves { ServesUnless (telling D.Conn.left D.Conn.written D.Conn.faults) desk.old.plan
        (state_of desk.old.sessions (K.texts keeper.old) (K.faults keeper.old))
        (state_of desk.new.sessions (K.texts keeper.new) (K.faults keeper.new))
        (links (D.coming door.old) (D.coming door.new) (D.finished door.old) (D.finished door.new)) count result }
    ensures begun { K.begun keeper.new ≡ K.begun keeper.old }
    ensures address { D.address door.new ≡ D.address door.old }
    ensures home { D.is_out door.new ≡ false }
    ensures cause { HasCause (D.faults door.old) (D.faults door.new) result }
{
    let mut buffer = buffer;
    let mut steps: Steps<L> = Steps::new(blank);
    let served = serve_links(alloc, desk, keeper, door, &mut buffer, &mut steps, count);
    drop(steps);
    drop(buffer);
    served
}

fn stopped_by_door(served: Result<(), Failed>) -> Result<(), Stop>
    ensures { result ≡ readying.stopped_by_door served }
{
    match served {
        Ok(()) => Ok(()),
        Err(Failed) => Err(Stop::Door),
    }
}

// Serves so many links at the address by the desk.
fn serve_desk<K: Keeper, D: Door>(
    alloc: Global,
    desk: &mut Desk,
    address: &str,
    count: u32,
    keeper: &mut K,
    door: &mut D,
) -> Result<(), Stop>
    requires is { IsDesk desk.old }
    requires begun { IsSome (K.begun keeper.old) }
    requires home { D.is_out door.old ≡ false }
    ensures ends { serving.DeskEnds (telling D.Conn.left D.Conn.written D.Conn.faults) desk.old.plan address.now
        count
        (state_of desk.old.sessions (K.texts keeper.old) (K.faults keeper.old))
        (state_of desk.new.sessions (K.texts keeper.new) (K.faults keeper.new))
        (at_door (links (D.coming door.old) (D.coming door.new) (D.finished door.old) (D.finished door.new))
        (D.address door.old) (D.address door.new) (D.faults door.old) (D.faults door.new)) result }
    ensures begun { K.begun keeper.new ≡ K.begun keeper.old }
    ensures home { D.is_out door.new ≡ false }
{
    match listen(alloc, door, address) {
        Ok(buffer) => {
            let blank = Blank::new(1);
            let served = serve_counted::<K, Brand, D>(
                alloc, desk, keeper, door, buffer, count, blank,
            );
            stopped_by_door(served)
        }
        Err(stop) => Err(stop),
    }
}

// Serves so many links at the address by a desk of the plan, with no session open at first.
fn serve_plan<K: Keeper, D: Door>(
    alloc: Global,
    plan: Plan,
    address: &str,
    count: u32,
    keeper: &mut K,
    door: &mut D,
) -> Result<(), Stop>
    requires valid { IsValid plan }
    requires begun { IsSome (K.begun keeper.old) }
    requires home { D.is_out door.old ≡ false }
    ensures ends { serving.EndsFromStart (telling D.Conn.left D.Conn.written D.Conn.faults) plan address.now count
        (keeping (K.texts keeper.old) (K.texts keeper.old) (K.texts keeper.new) (K.faults keeper.old)
        (K.faults keeper.new) (K.begun keeper.new))
        (at_door (links (D.coming door.old) (D.coming door.new) (D.finished door.old) (D.finished door.new))
        (D.address door.old) (D.address door.new) (D.faults door.old) (D.faults door.new)) result }
    ensures begun { K.begun keeper.new ≡ K.begun keeper.old }
    ensures home { D.is_out door.new ≡ false }
{
    let mut desk = Desk::new(alloc, plan);
    let served = serve_desk(alloc, &mut desk, address, count, keeper, door);
    drop(desk);
    served
}

// Reads the model of this name with its tables, begins the keeper, and serves so many links.
fn serve_model<F: Shelf, K: Keeper, D: Door>(
    alloc: Global,
    shelf: &mut F,
    model: &str,
    address: &str,
    count: u32,
    keep_file: Option<&str>,
    keeper: &mut K,
    door: &mut D,
) -> Result<(), Stop>
    requires home { D.is_out door.old ≡ false }
    ensures ends { serving.Ends (telling D.Conn.left D.Conn.written D.Conn.faults)
        (service model.now address.now count (option_map (λ name. name.now) keep_file.entry))
        (read_from (F.files shelf.old) (F.faults shelf.old) (F.faults shelf.new))
        (keeping (K.texts keeper.old) (K.opens keeper.old (option_map (λ name. name.now) keep_file.entry))
        (K.texts keeper.new) (K.faults keeper.old) (K.faults keeper.new) (K.begun keeper.new))
        ((keeper.new ≡ keeper.old) × (door.new ≡ door.old))
        (at_door (links (D.coming door.old) (D.coming door.new) (D.finished door.old) (D.finished door.new))
        (D.address door.old) (D.address door.new) (D.faults door.old) (D.faults door.new)) result }
    ensures home { D.is_out door.new ≡ false }
{
    let plan = match load_plan(alloc, shelf, model) {
        Ok(plan) => plan,
        Err(stop) => return Err(Stop::Model(stop)),
    };
    match keeper.begin(keep_file) {
        Ok(()) => serve_plan(alloc, plan, address, count, keeper, door),
        Err(fault) => Err(Stop::Keeper(fault)),
    }
}

/// Reads the model of this name with its tables, begins the keeper with the file that keeps what is saved, if one is
/// named, and listens at the address. Then so many links are served, one after another, by one desk. Answers the exit
/// status: 0 where all were, and otherwise 6 where the door failed, 7 where the keeper couldn't be begun, and as
/// `check` does; that is said in a line.
pub fn serve<F: Shelf, K: Keeper, D: Door, S: Sink>(
    alloc: Global,
    shelf: &mut F,
    model: &str,
    address: &str,
    count: u32,
    keep_file: Option<&str>,
    keeper: &mut K,
    door: &mut D,
    out: &mut S,
) -> u8
    requires home { D.is_out door.old ≡ false }
    ensures ends { serving.EndsServe (telling D.Conn.left D.Conn.written D.Conn.faults)
        (service model.now address.now count (option_map (λ name. name.now) keep_file.entry))
        (outside (F.files shelf.old) (F.faults shelf.old) (F.faults shelf.new) (S.written out.old)
        (S.written out.new) (S.faults out.old) (S.faults out.new))
        (keeping (K.texts keeper.old) (K.opens keeper.old (option_map (λ name. name.now) keep_file.entry))
        (K.texts keeper.new) (K.faults keeper.old) (K.faults keeper.new) (K.begun keeper.new))
        ((keeper.new ≡ keeper.old) × (door.new ≡ door.old))
        (at_door (links (D.coming door.old) (D.coming door.new) (D.finished door.old) (D.finished door.new))
        (D.address door.old) (D.address door.new) (D.faults door.old) (D.faults door.new)) result }
    ensures home { D.is_out door.new ≡ false }
{
    match serve_model(alloc, shelf, model, address, count, keep_file, keeper, door) {
        Ok(()) => 0,
        Err(stop) => say_stop(alloc, out, model, &stop),
    }
}
