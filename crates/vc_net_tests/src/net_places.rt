//! The places of a slot with two variables of two texts.

ghost use Rattle.std.specs.Prelude.{◌≡◌, ◌^◌, ◌<◌, false, [], ◌∷◌, length, IfOk};
ghost use Rattle.vc_value.specs.declared.table_header.Domain.TheVariants.{Texts};
ghost use Rattle.vc_plan.specs.Domains.{atom_count};

use std::alloc::Global;
use std::process::Abort;
use std::test::Fail;
use vc_net_places::laws::{cells_suffice, index_tells_places, places_are_counted};
use vc_net_places::{Cells, Places, Spot, Thing};
use vc_plan::{Atom, Plan, Slot, Var};
use vc_value::{Domain, Listed, Value, Word};

fn domains<R: Abort>(rt: &R, alloc: Global) -> Listed<Domain>
    ensures { result ≡ Texts (0 ∷ 1 ∷ []) ∷ [] }
{
    let mut texts = Listed::new(alloc);
    texts.push(0).expect(rt, "memory");
    texts.push(1).expect(rt, "memory");
    let mut domains = Listed::new(alloc);
    domains.push(Domain::Texts(texts)).expect(rt, "memory");
    domains
}

fn variables<R: Abort>(rt: &R, alloc: Global) -> Listed<Var>
    ensures { result ≡ record { slot = 0; characteristic = 0; domain = 0; restrictable = false }
        ∷ record { slot = 0; characteristic = 0; domain = 0; restrictable = false } ∷ [] }
{
    let var = Var {
        slot: 0,
        characteristic: 0,
        domain: 0,
        restrictable: false,
    };
    let mut vars = Listed::new(alloc);
    vars.push(var).expect(rt, "memory");
    vars.push(var).expect(rt, "memory");
    vars
}

fn plan_of_two<R: Abort>(rt: &R, alloc: Global) -> Plan
    ensures counted { atom_count result < 2 ^ 32 }
    ensures two { length result.vars ≡ 2 }
{
    let mut slots = Listed::new(alloc);
    slots
        .push(Slot {
            parent: None,
            depth: 0,
            object: 0,
            line: 0,
        })
        .expect(rt, "memory");
    Plan {
        name: Word::from_bytes(alloc, b"LAMP").expect(rt, "memory"),
        version: 1,
        texts: Listed::new(alloc),
        dependencies: Listed::new(alloc),
        characteristics: Listed::new(alloc),
        objects: Listed::new(alloc),
        domains: domains(rt, alloc),
        tables: Listed::new(alloc),
        slots,
        vars: variables(rt, alloc),
        sets: Listed::new(alloc),
        conditions: Listed::new(alloc),
        terms: Listed::new(alloc),
        rules: Listed::new(alloc),
        procedures: Listed::new(alloc),
        lines: Listed::new(alloc),
        operations: Listed::new(alloc),
        guards: Listed::new(alloc),
        requirements: Listed::new(alloc),
    }
}

#[tactic(auto, using(vc_net_places::proofs::PlaceLaws::Things::firsts_are_counted))]
fn places_of_two<R: Abort>(rt: &R, alloc: Global) -> Places
    ensures { length result.firsts ≡ 2 }
{
    let plan = plan_of_two(rt, alloc);
    let places = Places::new(alloc, &plan).expect(rt, "memory");
    places
}

fn thing(places: &Places, place: usize) -> Option<Thing> {
    if place < places.count() {
        Some(places.thing(place))
    } else {
        None
    }
}

fn spot(places: &Places, place: usize) -> Option<Spot> {
    if place < places.count() && places.count() < 100 {
        Some(places.spot(place))
    } else {
        None
    }
}

#[test]
fn numbers_two_variables(rt: HostRuntime) -> Result<(), Fail> {
    let places = places_of_two(&rt, rt.alloc());
    assert_eq!(rt; places.count(), 7);
    assert_eq!(rt; places.first(1), 4);
    assert_eq!(rt; places.place_of(Atom::Here(0)), 0);
    assert_eq!(rt; places.place_of(Atom::Is(0, Value::Text(1))), 1);
    assert_eq!(rt; places.place_of(Atom::Out(0, 1)), 3);
    assert_eq!(rt; places.place_of(Atom::Out(1, 0)), 5);
    assert_eq!(rt; thing(&places, 0), Some(Thing::Slot(0)));
    assert_eq!(rt; thing(&places, 3), Some(Thing::Var(0)));
    assert_eq!(rt; thing(&places, 6), Some(Thing::Var(1)));
    assert_eq!(rt; thing(&places, 7), None);
    assert_eq!(rt; spot(&places, 0), Some(Spot::Here(0)));
    assert_eq!(rt; spot(&places, 4), Some(Spot::Is(1)));
    assert_eq!(rt; spot(&places, 3), Some(Spot::Out(0, 1)));
    Ok(())
}

#[test]
fn cells_follow_one_another(rt: HostRuntime) -> Result<(), Fail> {
    let cells = Cells::new(rt.alloc(), &[2, 0, 3])?;
    assert_eq!(rt; cells.begin(0), 0);
    assert_eq!(rt; cells.begin(1), 2);
    assert_eq!(rt; cells.begin(2), 2);
    assert_eq!(rt; cells.begin(3), 5);
    Ok(())
}

#[test]
fn laws_ask_for_nothing(_rt: HostRuntime) -> Result<(), Fail> {
    places_are_counted();
    index_tells_places();
    cells_suffice();
    Ok(())
}
