//! What stands of a slot with one variable of two texts.

ghost use Rattle.std.specs.Prelude.{◌≡◌, ◌^◌, ◌<◌, false, [], ◌∷◌, IfOk};
ghost use Rattle.vc_value.specs.declared.table_header.Domain.TheVariants.{Texts};
ghost use Rattle.vc_plan.specs.Domains.{atom_count};
ghost use Rattle.vc_net_places.specs.Places.{index_of};
ghost use Rattle.vc_net_places.specs.declared.places.Thing.TheVariants.{Slot, Var};
ghost use Rattle.vc_net_standing.specs.Standing.{nothing_at};

use std::alloc::Global;
use std::process::Abort;
use std::test::Fail;
use vc_net_standing::laws::{new_atoms_are_free, outs_are_counted, who_may_come_stays_clear};
use vc_net_standing::{Fact, Standing};
use vc_plan::{Atom, Origin, Plan, View, plans};
use vc_value::{Domain, Listed, Value, Word};

fn domains<R: Abort>(rt: &R, alloc: Global) -> Listed<Domain>
    ensures { result ≡ Texts (0 ∷ 1 ∷ []) ∷ [] }
{
    let mut texts = Listed::new(alloc);
    texts.push(0).expect(rt, "memory");
    texts.push(1).expect(rt, "memory");
    let mut domains = Listed::new(alloc);
    domains.push(Domain::Texts(texts)).expect(rt, "memory");
    domains
}

fn variables<R: Abort>(rt: &R, alloc: Global) -> Listed<plans::Var>
    ensures { result ≡ record { slot = 0; characteristic = 0; domain = 0; restrictable = false }
        ∷ [] }
{
    let mut vars = Listed::new(alloc);
    vars.push(plans::Var {
        slot: 0,
        characteristic: 0,
        domain: 0,
        restrictable: false,
    })
    .expect(rt, "memory");
    vars
}

fn plan_of_one<R: Abort>(rt: &R, alloc: Global) -> Plan
    ensures counted { atom_count result < 2 ^ 32 }
    ensures indexed { index_of result ≡ record {
      firsts = 1 ∷ [];
      things = Slot 0 ∷ Var 0 ∷ Var 0 ∷ Var 0 ∷ [];
    } }
{
    let mut slots = Listed::new(alloc);
    slots
        .push(plans::Slot {
            parent: None,
            depth: 0,
            object: 0,
            line: 0,
        })
        .expect(rt, "memory");
    Plan {
        name: Word::from_bytes(alloc, b"LAMP").expect(rt, "memory"),
        version: 1,
        texts: Listed::new(alloc),
        dependencies: Listed::new(alloc),
        characteristics: Listed::new(alloc),
        objects: Listed::new(alloc),
        domains: domains(rt, alloc),
        tables: Listed::new(alloc),
        slots,
        vars: variables(rt, alloc),
        sets: Listed::new(alloc),
        conditions: Listed::new(alloc),
        terms: Listed::new(alloc),
        rules: Listed::new(alloc),
        procedures: Listed::new(alloc),
        lines: Listed::new(alloc),
        operations: Listed::new(alloc),
        guards: Listed::new(alloc),
        requirements: Listed::new(alloc),
    }
}

fn nothing_stands<R: Abort>(rt: &R, alloc: Global) -> Standing
    ensures { result ≡ nothing_at (record {
      firsts = 1 ∷ [];
      things = Slot 0 ∷ Var 0 ∷ Var 0 ∷ Var 0 ∷ [];
    }) }
{
    let plan = plan_of_one(rt, alloc);
    let standing = Standing::new(alloc, &plan).expect(rt, "memory");
    standing
}

#[test]
fn finds_what_came(rt: HostRuntime) -> Result<(), Fail> {
    let mut standing = nothing_stands(&rt, rt.alloc());
    let out = Fact {
        atom: Atom::Out(0, 0),
        origin: Origin::Rule(3),
    };
    let value = Fact {
        atom: Atom::Is(0, Value::Text(1)),
        origin: Origin::User,
    };
    standing.put(out);
    standing.put(value);
    new_atoms_are_free();
    who_may_come_stays_clear();
    outs_are_counted();
    assert!(rt; standing.here(0));
    assert!(rt; !standing.here(1));
    assert!(rt; standing.out(0, 0));
    assert!(rt; !standing.out(0, 1));
    assert_eq!(rt; standing.value(0), Some(Value::Text(1)));
    assert_eq!(rt; standing.value(1), None);
    assert!(rt; !standing.has(Atom::Here(0)));
    assert!(rt; standing.stands(Atom::Here(0)));
    assert_eq!(rt; standing.number_of(Atom::Is(0, Value::Text(1))), Some(1));
    assert_eq!(rt; standing.number_of(Atom::Is(0, Value::Text(0))), None);
    assert_eq!(rt; standing.number_by_place(1), Some(1));
    assert_eq!(rt; standing.number_by_place(3), None);
    assert_eq!(rt; standing.places().count(), 4);
    assert_eq!(rt; standing.facts().len(), 2);
    standing.truncate(1);
    assert!(rt; standing.out(0, 0));
    assert_eq!(rt; standing.value(0), None);
    standing.clear();
    assert_eq!(rt; standing.facts().len(), 0);
    assert!(rt; !standing.out(0, 0));
    assert_eq!(rt; standing.value(0), None);
    standing.put(value);
    assert_eq!(rt; standing.value(0), Some(Value::Text(1)));
    assert!(rt; !standing.out(0, 0));
    Ok(())
}
