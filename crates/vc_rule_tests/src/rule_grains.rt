//! What rules say of slots, at a view in which the root alone is here.

use std::alloc::Global;
use std::process::Abort;
use std::test::Fail;
use vc_plan::{Atom, Plan, Slot, View};
use vc_rule_grains::{say_line, say_never};
use vc_rule_yield::Yield;
use vc_value::{Listed, Value, Word};

#[derive(Drop)]
struct RootAlone;

impl View for RootAlone {
    ghost use Rattle.std.specs.Prelude.{false, ◌==◌, None};

    ghost seen = { λ s. record { here = λ i. i == 0; out = λ v g. false; value = λ v. None } };

    fn here(&self, slot: u32) -> bool {
        slot == 0
    }

    fn out(&self, _var: u32, _grain: u32) -> bool {
        false
    }

    fn value(&self, _var: u32) -> Option<Value> {
        None
    }
}

// The root, and a line of it.
fn plan_of_two<R: Abort>(rt: &R, alloc: Global) -> Plan {
    let mut slots = Listed::new(alloc);
    slots
        .push(Slot {
            parent: None,
            depth: 0,
            object: 0,
            line: 0,
        })
        .expect(rt, "memory");
    slots
        .push(Slot {
            parent: Some(0),
            depth: 1,
            object: 0,
            line: 1,
        })
        .expect(rt, "memory");
    Plan {
        name: Word::from_bytes(alloc, b"LAMP").expect(rt, "memory"),
        version: 1,
        texts: Listed::new(alloc),
        dependencies: Listed::new(alloc),
        characteristics: Listed::new(alloc),
        objects: Listed::new(alloc),
        domains: Listed::new(alloc),
        tables: Listed::new(alloc),
        slots,
        vars: Listed::new(alloc),
        sets: Listed::new(alloc),
        conditions: Listed::new(alloc),
        terms: Listed::new(alloc),
        rules: Listed::new(alloc),
        procedures: Listed::new(alloc),
        lines: Listed::new(alloc),
        operations: Listed::new(alloc),
        guards: Listed::new(alloc),
        requirements: Listed::new(alloc),
    }
}

// The call by itself, so that a test doesn't compute what it ensures.
fn line(plan: &Plan, slot: u32, out: &mut Yield) {
    say_line(plan, &RootAlone, slot, out);
}

#[test]
fn gives_a_line(rt: HostRuntime) -> Result<(), Fail> {
    let plan = plan_of_two(&rt, rt.alloc());
    let mut out = Yield::new(rt.alloc(), 9, 9, 9)?;
    line(&plan, 0, &mut out);
    assert_eq!(rt; out.count(), 0);
    line(&plan, 1, &mut out);
    assert_eq!(rt; out.count(), 1);
    assert_eq!(rt; out.atom(0), Atom::Here(1));
    Ok(())
}

#[test]
fn clashes_where_it_must_not_be(rt: HostRuntime) -> Result<(), Fail> {
    let mut out = Yield::new(rt.alloc(), 9, 9, 9)?;
    say_never(&mut out);
    assert!(rt; out.clash().is_some());
    Ok(())
}
