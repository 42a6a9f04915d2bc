//! A desk of a lamp of two colours, of which a constraint allows the first alone.

ghost use Rattle.std.specs.Prelude.{◌≡◌, ◌<◌, IsSome};
ghost use Rattle.vc_plan_lamp.specs.Lamp.{lamp};
ghost use Rattle.vc_desk.specs.Desks.{IsDesk};

use std::alloc::{AllocError, Global};
use std::marker::Brand;
use std::sync::ledger::{Blank, Ledger};
use std::test::Fail;
use vc_desk::Desk;
use vc_outside::{Keeper, MemKeeper};
use vc_plan::Plan;
use vc_plan_lamp::lamp;
use vc_value_steps::Steps;
use vc_wire_replies::reply_text;
use vc_wire_requests::read_line;

// Requests, one after another, and what is answered to each.
const ROWS: [(&str, &str); 28] = [
    ("open a", "ok complete\n"),
    ("open a", "refused 14 NameTaken\n"),
    ("set b 0 COL B", "refused 1 NoSession\n"),
    ("set a 1 COL B", "refused 3 UnknownInstance\n"),
    ("set a 0 SIZE B", "refused 4 UnknownCharacteristic\n"),
    ("set a 0 COL C", "refused 5 NotInList\n"),
    ("retract a 0 COL", "refused 7 NotSet\n"),
    ("add a 0 COL B", "ok contradiction constraint ONE 1 at 0\n"),
    (
        "show a",
        "status contradiction constraint ONE 1 at 0\nuser 0 COL = 'B'\nend\n",
    ),
    ("drop a 0 COL A", "refused 7 NotSet\n"),
    ("drop a 0 COL B", "ok complete\n"),
    ("set a 0 COL A", "ok complete\n"),
    (
        "show a",
        "status complete\ninstance 0 LAMP\nCOL = 'A' user\nend\n",
    ),
    ("bill a", "status complete\nend\n"),
    ("routing a", "status complete\nend\n"),
    ("save a x", "ok saved\n"),
    ("save b x", "refused 1 NoSession\n"),
    ("set a 0 COL B", "ok contradiction constraint ONE 1 at 0\n"),
    ("load a y", "refused 8 NothingSaved\n"),
    ("load b y", "refused 1 NoSession\n"),
    ("load a x", "ok complete\n"),
    ("forget x", "ok forgotten\n"),
    ("forget x", "refused 8 NothingSaved\n"),
    ("close a", "ok closed\n"),
    ("close a", "refused 1 NoSession\n"),
    ("open a", "ok complete\n"),
    ("open b", "ok complete\n"),
    ("set b 0 COL A", "ok complete\n"),
];

// Whether this is answered to the line.
fn answers<L: Ledger>(
    alloc: Global,
    desk: &mut Desk,
    keeper: &mut MemKeeper,
    line: &str,
    wanted: &str,
    steps: &mut Steps<L>,
) -> Result<bool, AllocError>
    requires is { IsDesk desk.old }
    requires begun { IsSome keeper.old.begun }
    ensures is { IsDesk desk.new }
    ensures begun { keeper.new.begun ≡ keeper.old.begun }
{
    let Some(request) = read_line(alloc, line.as_bytes())? else {
        return Ok(false);
    };
    let reply = desk.answer(alloc, keeper, &request, steps);
    drop(request);
    let text = reply_text(alloc, desk.plan(), &reply);
    drop(reply);
    Ok(text?.is(wanted.as_bytes()))
}

fn answers_all<L: Ledger>(
    alloc: Global,
    desk: &mut Desk,
    keeper: &mut MemKeeper,
    steps: &mut Steps<L>,
) -> Result<bool, AllocError>
    requires is { IsDesk desk.old }
    requires begun { IsSome keeper.old.begun }
{
    for (line, wanted) in ROWS.iter() {
        if !answers(alloc, desk, keeper, line, wanted, steps)? {
            return Ok(false);
        }
    }
    Ok(true)
}

fn desk_of<L: Ledger>(alloc: Global, plan: Plan, blank: Blank) -> Result<bool, AllocError>
    requires name { blank.name ≡ L.name }
    requires parts { blank.parts ≡ L.parts }
    requires some { 0 < blank.parts }
    requires plan { plan ≡ lamp }
{
    let mut keeper = MemKeeper::new(alloc);
    let Ok(()) = keeper.begin(None) else {
        return Ok(false);
    };
    let mut desk = Desk::new(alloc, plan);
    let mut steps: Steps<L> = Steps::new(blank);
    let answered = answers_all(alloc, &mut desk, &mut keeper, &mut steps);
    drop(desk);
    drop(keeper);
    answered
}

#[test]
fn answers_requests(rt: HostRuntime) -> Result<(), Fail> {
    let plan = lamp(rt.alloc())?;
    assert!(rt; desk_of::<Brand>(rt.alloc(), plan, Blank::new(1))?);
    Ok(())
}
