//! A variable that is asked for, of whose two texts one is hidden, and a set with a text.

ghost use Rattle.std.specs.Prelude.{◌≡◌, ◌∷◌, [], length, None, Some};
ghost use Rattle.vc_plan.specs.declared.conditions.Condition.TheVariants.{Specified};
ghost use Rattle.vc_plan.specs.declared.conditions.Piece.TheVariants.{OneText};
ghost use Rattle.vc_plan.specs.declared.plans.Named.TheVariants.{Var as NamedVar};
ghost use Rattle.vc_show_rows.specs.Fitting.{RowsFit};

use crate::fixtures::{Chosen, domains, sets, texts, variables};
use std::alloc::Global;
use std::process::Abort;
use std::test::Fail;
use vc_plan::{Characteristic, Condition, Guard, Named, Object, Piece, Plan, Slot};
use vc_show_rows::{put_instance, put_row, rows_of};
use vc_value::{Domain, Listed, Word};

fn conditions<R: Abort>(rt: &R, alloc: Global) -> Listed<Condition>
    ensures { result ≡ Specified 0 ∷ [] }
{
    let mut conditions = Listed::new(alloc);
    conditions
        .push(Condition::Specified(0))
        .expect(rt, "memory");
    conditions
}

// The second text stands only where the variable has a value.
fn guards<R: Abort>(rt: &R, alloc: Global) -> Listed<Guard>
    ensures { result ≡
        record { at = NamedVar 0; value = Some (OneText 1); dependency = 0; condition = 0 } ∷ [] }
{
    let mut guards = Listed::new(alloc);
    guards
        .push(Guard {
            at: Named::Var(0),
            value: Some(Piece::OneText(1)),
            dependency: 0,
            condition: 0,
        })
        .expect(rt, "memory");
    guards
}

fn characteristic<R: Abort>(rt: &R, alloc: Global, name: &str, required: bool) -> Characteristic {
    let mut texts = Listed::new(alloc);
    texts.push(0).expect(rt, "memory");
    texts.push(1).expect(rt, "memory");
    Characteristic {
        name: Word::from_bytes(alloc, name.as_bytes()).expect(rt, "memory"),
        unit: None,
        required,
        list: Domain::Texts(texts),
    }
}

fn characteristics<R: Abort>(rt: &R, alloc: Global) -> Listed<Characteristic> {
    let mut characteristics = Listed::new(alloc);
    characteristics
        .push(characteristic(rt, alloc, "MODE", true))
        .expect(rt, "memory");
    characteristics
        .push(characteristic(rt, alloc, "OPT", false))
        .expect(rt, "memory");
    characteristics
}

fn objects<R: Abort>(rt: &R, alloc: Global) -> Listed<Object> {
    let mut class = Listed::new(alloc);
    class.push(0).expect(rt, "memory");
    class.push(1).expect(rt, "memory");
    let mut objects = Listed::new(alloc);
    objects
        .push(Object {
            material: Word::from_bytes(alloc, b"PAINT").expect(rt, "memory"),
            characteristics: class,
        })
        .expect(rt, "memory");
    objects
}

fn slots<R: Abort>(rt: &R, alloc: Global) -> Listed<Slot>
    ensures { length result ≡ 1 }
{
    let mut slots = Listed::new(alloc);
    slots
        .push(Slot {
            parent: None,
            depth: 0,
            object: 0,
            line: 0,
        })
        .expect(rt, "memory");
    slots
}

fn plan<R: Abort>(rt: &R, alloc: Global) -> Plan
    ensures { RowsFit result }
{
    Plan {
        name: Word::from_bytes(alloc, b"PAINT").expect(rt, "memory"),
        version: 1,
        texts: texts(rt, alloc),
        dependencies: Listed::new(alloc),
        characteristics: characteristics(rt, alloc),
        objects: objects(rt, alloc),
        domains: domains(rt, alloc),
        tables: Listed::new(alloc),
        slots: slots(rt, alloc),
        vars: variables(rt, alloc),
        sets: sets(rt, alloc),
        conditions: conditions(rt, alloc),
        terms: Listed::new(alloc),
        rules: Listed::new(alloc),
        procedures: Listed::new(alloc),
        lines: Listed::new(alloc),
        operations: Listed::new(alloc),
        guards: guards(rt, alloc),
        requirements: Listed::new(alloc),
    }
}

// The text by itself, so that a test doesn't compute what the calls ensure.
fn shows<R: Abort>(rt: &R, alloc: Global, plan: &Plan, text: u32, wanted: &str) -> bool
    requires { RowsFit plan.now }
{
    let mut out = Word::new(alloc);
    put_instance(alloc, &mut out, plan, 0, false).expect(rt, "memory");
    let rows = rows_of(alloc, plan, &Chosen { text }, 0).expect(rt, "memory");
    for row in rows.as_slice() {
        put_row(alloc, &mut out, plan, b"user".as_slice(), row).expect(rt, "memory");
    }
    out.is(wanted.as_bytes())
}

#[test]
fn shows_an_instance(rt: HostRuntime) -> Result<(), Fail> {
    let plan = plan(&rt, rt.alloc());
    let with_text = "instance 0 PAINT\nMODE ? 'N' required\nOPT { 'N' }\n";
    assert!(rt; shows(&rt, rt.alloc(), &plan, 0, with_text));
    let without = "instance 0 PAINT\nMODE ? 'N' required\nOPT { }\n";
    assert!(rt; shows(&rt, rt.alloc(), &plan, 2, without));
    drop(plan);
    Ok(())
}
