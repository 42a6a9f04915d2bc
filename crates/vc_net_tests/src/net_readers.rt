//! The readers of a slot with two variables and two rules, one of which waits for a value.

ghost use Rattle.std.specs.Prelude.{◌≡◌, false, [], ◌∷◌, length, IfOk};
ghost use Rattle.vc_value.specs.declared.table_header.Domain.TheVariants.{Texts};
ghost use Rattle.vc_rule_grains.specs.Finding.{GrainsFit};

use std::alloc::Global;
use std::process::Abort;
use std::test::Fail;
use vc_net_laws::Trigger;
use vc_net_places::Places;
use vc_net_readers::Readers;
use vc_net_readers::laws::{triggers_are_kept, woken_are_asked};
use vc_net_readers::touching::{touches, touches_by};
use vc_net_readers::triggers::trigger_by;
use vc_plan::{Condition, Kind, Plan, Relation, Rule, Slot, Term, Var};
use vc_value::{Domain, Listed, Value, Word};

fn domains<R: Abort>(rt: &R, alloc: Global) -> Listed<Domain>
    ensures { result ≡ Texts (0 ∷ 1 ∷ []) ∷ [] }
{
    let mut texts = Listed::new(alloc);
    texts.push(0).expect(rt, "memory");
    texts.push(1).expect(rt, "memory");
    let mut domains = Listed::new(alloc);
    domains.push(Domain::Texts(texts)).expect(rt, "memory");
    domains
}

fn variables<R: Abort>(rt: &R, alloc: Global) -> Listed<Var>
    ensures { result ≡ record { slot = 0; characteristic = 0; domain = 0; restrictable = false }
        ∷ record { slot = 0; characteristic = 0; domain = 0; restrictable = false } ∷ [] }
{
    let var = Var {
        slot: 0,
        characteristic: 0,
        domain: 0,
        restrictable: false,
    };
    let mut vars = Listed::new(alloc);
    vars.push(var).expect(rt, "memory");
    vars.push(var).expect(rt, "memory");
    vars
}

fn conditions<R: Abort>(rt: &R, alloc: Global) -> Listed<Condition> {
    let mut conditions = Listed::new(alloc);
    conditions.push(Condition::Always).expect(rt, "memory");
    conditions
        .push(Condition::Compared(
            Relation::Equal,
            Term::Read(0),
            Term::Literal(Value::Text(1)),
        ))
        .expect(rt, "memory");
    conditions
}

fn last(alloc: Global, condition: u32, var: u32) -> Rule {
    Rule {
        dependency: None,
        number: 0,
        slots: Listed::new(alloc),
        condition,
        inferred: Listed::new(alloc),
        kind: Kind::Last(var),
    }
}

fn rules<R: Abort>(rt: &R, alloc: Global) -> Listed<Rule>
    ensures { length result ≡ 2 }
{
    let mut rules = Listed::new(alloc);
    rules.push(last(alloc, 1, 1)).expect(rt, "memory");
    rules.push(last(alloc, 0, 0)).expect(rt, "memory");
    rules
}

fn plan_of_two<R: Abort>(rt: &R, alloc: Global) -> Plan
    ensures grains { GrainsFit result }
    ensures rules { length result.rules ≡ 2 }
    ensures vars { length result.vars ≡ 2 }
{
    let mut slots = Listed::new(alloc);
    slots
        .push(Slot {
            parent: None,
            depth: 0,
            object: 0,
            line: 0,
        })
        .expect(rt, "memory");
    Plan {
        name: Word::from_bytes(alloc, b"LAMP").expect(rt, "memory"),
        version: 1,
        texts: Listed::new(alloc),
        dependencies: Listed::new(alloc),
        characteristics: Listed::new(alloc),
        objects: Listed::new(alloc),
        domains: domains(rt, alloc),
        tables: Listed::new(alloc),
        slots,
        vars: variables(rt, alloc),
        sets: Listed::new(alloc),
        conditions: conditions(rt, alloc),
        terms: Listed::new(alloc),
        rules: rules(rt, alloc),
        procedures: Listed::new(alloc),
        lines: Listed::new(alloc),
        operations: Listed::new(alloc),
        guards: Listed::new(alloc),
        requirements: Listed::new(alloc),
    }
}

fn readers_of_two<R: Abort>(rt: &R, alloc: Global) -> Readers {
    let plan = plan_of_two(rt, alloc);
    let places = Places::new(alloc, &plan).expect(rt, "memory");
    let readers = Readers::new(alloc, &plan, &places);
    drop(places);
    drop(plan);
    readers.expect(rt, "memory")
}

fn is_touched<R: Abort>(rt: &R, alloc: Global, rule: u32, var: u32) -> bool {
    let plan = plan_of_two(rt, alloc);
    let is_touched = touches(&plan, rule, var);
    drop(plan);
    is_touched
}

fn is_touched_by<R: Abort>(rt: &R, alloc: Global, rule: u32, var: u32) -> bool {
    let plan = plan_of_two(rt, alloc);
    let is_touched = touches_by(&plan, rule, trigger_by(&plan, rule), var);
    drop(plan);
    is_touched
}

fn awaited_text(trigger: Option<Trigger>) -> Option<(u32, u32)> {
    match trigger {
        Some(
            Trigger {
                var,
                value: Value::Text(text),
            },
        ) => Some((var, text)),
        _ => None,
    }
}

fn at(list: &[u32], place: usize) -> Option<u32> {
    list.get(place).copied()
}

#[test]
fn a_rule_waits_for_its_value(rt: HostRuntime) -> Result<(), Fail> {
    let readers = readers_of_two(&rt, rt.alloc());
    assert_eq!(rt; at(readers.of_slot(0), 0), Some(0));
    assert_eq!(rt; at(readers.of_slot(0), 1), Some(1));
    assert_eq!(rt; at(readers.of_slot(0), 2), None);
    assert_eq!(rt; at(readers.of_slot(1), 0), None);
    assert_eq!(rt; at(readers.of_var(0), 1), Some(1));
    assert_eq!(rt; at(readers.of_var(1), 0), Some(0));
    assert_eq!(rt; at(readers.of_var(1), 1), None);
    assert_eq!(rt; at(readers.of_var(2), 0), None);
    assert_eq!(rt; at(readers.free(0), 0), Some(1));
    assert_eq!(rt; at(readers.free(0), 1), None);
    assert_eq!(rt; at(readers.free(1), 0), None);
    assert_eq!(rt; at(readers.awaited(0), 0), Some(0));
    assert_eq!(rt; at(readers.awaited(1), 0), Some(0));
    assert_eq!(rt; at(readers.awaited(1), 1), None);
    assert_eq!(rt; at(readers.awaited(2), 0), None);
    assert_eq!(rt; at(readers.waiting(2), 0), None);
    assert_eq!(rt; at(readers.waiting(3), 0), Some(0));
    assert_eq!(rt; at(readers.waiting(7), 0), None);
    assert_eq!(rt; awaited_text(readers.trigger(0)), Some((0, 1)));
    assert_eq!(rt; awaited_text(readers.trigger(1)), None);
    assert_eq!(rt; awaited_text(readers.trigger(2)), None);
    woken_are_asked();
    triggers_are_kept();
    Ok(())
}

#[test]
fn a_rule_touches_what_it_reads_and_writes(rt: HostRuntime) -> Result<(), Fail> {
    assert!(rt; is_touched(&rt, rt.alloc(), 0, 0));
    assert!(rt; is_touched(&rt, rt.alloc(), 0, 1));
    assert!(rt; !is_touched(&rt, rt.alloc(), 1, 1));
    assert!(rt; is_touched_by(&rt, rt.alloc(), 0, 0));
    assert!(rt; is_touched_by(&rt, rt.alloc(), 0, 1));
    assert!(rt; !is_touched_by(&rt, rt.alloc(), 1, 1));
    Ok(())
}
