//! What is cited for conditions and rules, at a view of two values and one of none.

ghost use Rattle.std.specs.Prelude.{◌≡◌, IfOk};
ghost use Rattle.vc_plan_values.specs.Computing.{TermsFit};

use std::alloc::Global;
use std::process::Abort;
use std::test::Fail;
use vc_plan::{Atom, Condition, Kind, Operator, Plan, Rule, Term, View};
use vc_rule_premises::{cite_deciding, cite_if_it_acts, cite_term, cite_value};
use vc_rule_yield::Yield;
use vc_value::{Listed, Value, Word};

// Variable 0 has text 0, variable 1 has text 1; no other has a value, and all slots are here.
#[derive(Drop)]
struct TwoTexts;

impl View for TwoTexts {
    ghost use Rattle.std.specs.Prelude.{true, false, nat_lt, if◌then◌else◌, None, Some};
    ghost use Rattle.vc_value.specs.declared.value.Value.TheVariants.{Text};

    ghost seen = { λ s. record {
      here = λ i. true;
      out = λ v g. false;
      value = λ v. if nat_lt v 2 then Some (Text v)
          else None;
    } };

    fn here(&self, _slot: u32) -> bool {
        true
    }

    fn out(&self, _var: u32, _grain: u32) -> bool {
        false
    }

    fn value(&self, var: u32) -> Option<Value> {
        if var < 2 {
            Some(Value::Text(var))
        } else {
            None
        }
    }
}

// No variable has a value, and slots below 3 are here.
#[derive(Drop)]
struct Slots;

impl View for Slots {
    ghost use Rattle.std.specs.Prelude.{false, nat_lt, None};

    ghost seen = { λ s. record { here = λ i. nat_lt i 3; out = λ v g. false; value = λ v. None } };

    fn here(&self, slot: u32) -> bool {
        slot < 3
    }

    fn out(&self, _var: u32, _grain: u32) -> bool {
        false
    }

    fn value(&self, _var: u32) -> Option<Value> {
        None
    }
}

#[test]
fn cites_what_decides(rt: HostRuntime) -> Result<(), Fail> {
    let mut out = Yield::new(rt.alloc(), 9, 9, 9)?;
    let first = Box::new(rt.alloc(), Condition::Specified(0))?;
    let second = Box::new(rt.alloc(), Condition::Specified(1))?;
    let either = Condition::Or(first, second);
    cite_deciding(&TwoTexts, true, &either, &mut out);
    out.conclude(Atom::Here(7));
    assert_eq!(rt; out.count(), 1);
    assert_eq!(rt; out.premises(0), [Atom::Is(0, Value::Text(0))].as_slice());
    Ok(())
}

#[test]
fn cites_values(rt: HostRuntime) -> Result<(), Fail> {
    let mut out = Yield::new(rt.alloc(), 9, 9, 9)?;
    cite_value(&TwoTexts, 2, &mut out);
    let left = Box::new(rt.alloc(), Term::Read(1))?;
    let right = Box::new(rt.alloc(), Term::Read(0))?;
    cite_term(
        &TwoTexts,
        &Term::Joined(Operator::Plus, left, right),
        &mut out,
    );
    out.conclude(Atom::Here(7));
    assert_eq!(rt; out.count(), 1);
    let values = [Atom::Is(1, Value::Text(1)), Atom::Is(0, Value::Text(0))];
    assert_eq!(rt; out.premises(0), values.as_slice());
    Ok(())
}

fn plan_of_one<R: Abort>(rt: &R, alloc: Global) -> Plan
    ensures { TermsFit result }
{
    let mut conditions = Listed::new(alloc);
    conditions.push(Condition::Always).expect(rt, "memory");
    Plan {
        name: Word::from_bytes(alloc, b"LAMP").expect(rt, "memory"),
        version: 1,
        texts: Listed::new(alloc),
        dependencies: Listed::new(alloc),
        characteristics: Listed::new(alloc),
        objects: Listed::new(alloc),
        domains: Listed::new(alloc),
        tables: Listed::new(alloc),
        slots: Listed::new(alloc),
        vars: Listed::new(alloc),
        sets: Listed::new(alloc),
        conditions,
        terms: Listed::new(alloc),
        rules: Listed::new(alloc),
        procedures: Listed::new(alloc),
        lines: Listed::new(alloc),
        operations: Listed::new(alloc),
        guards: Listed::new(alloc),
        requirements: Listed::new(alloc),
    }
}

fn rule_at<R: Abort>(rt: &R, alloc: Global, last: u32) -> Rule {
    let mut slots = Listed::new(alloc);
    slots.push(0).expect(rt, "memory");
    slots.push(2).expect(rt, "memory");
    slots.push(last).expect(rt, "memory");
    Rule {
        dependency: Some(0),
        number: 1,
        slots,
        condition: 0,
        inferred: Listed::new(alloc),
        kind: Kind::Never,
    }
}

#[test]
fn cites_why_a_rule_acts(rt: HostRuntime) -> Result<(), Fail> {
    let plan = plan_of_one(&rt, rt.alloc());
    let rule = rule_at(&rt, rt.alloc(), 2);
    let mut out = Yield::new(rt.alloc(), 9, 9, 9)?;
    let elsewhere = rule_at(&rt, rt.alloc(), 3);
    assert!(rt; !cite_if_it_acts(&plan, &Slots, &elsewhere, &mut out));
    assert!(rt; cite_if_it_acts(&plan, &Slots, &rule, &mut out));
    out.clash_now();
    assert_eq!(rt; out.clash().ok_or("no clash")?, [Atom::Here(2)].as_slice());
    Ok(())
}
