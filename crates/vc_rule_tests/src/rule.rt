//! A line's slot, at a view where the root alone is here.

ghost use Rattle.std.specs.Prelude.{◌≡◌, ◌<◌, [], ◌∷◌, None, Some, IfOk};
ghost use Rattle.vc_plan.specs.declared.conditions.Condition.TheVariants.{Always};
ghost use Rattle.vc_plan.specs.declared.rules.Kind.TheVariants.{Line};
ghost use Rattle.vc_rule.specs.Rooms.{rooms_of};

use std::alloc::{AllocError, Global};
use std::marker::Brand;
use std::sync::ledger::{Blank, Ledger};
use std::test::Fail;
use vc_plan::{Atom, Condition, Kind, Plan, Rule, Slot, View};
use vc_rule::{evaluate, new_yield};
use vc_rule_yield::Yield;
use vc_value::{Listed, Value, Word};
use vc_value_steps::Steps;

// Slot 0 is here, and no variable has a value.
#[derive(Drop)]
struct Root;

impl View for Root {
    ghost use Rattle.std.specs.Prelude.{false, ◌==◌, None};

    ghost seen = { λ s. record { here = λ i. i == 0; out = λ v g. false; value = λ v. None } };

    fn here(&self, slot: u32) -> bool {
        slot == 0
    }

    fn out(&self, _var: u32, _grain: u32) -> bool {
        false
    }

    fn value(&self, _var: u32) -> Option<Value> {
        None
    }
}

fn slots(alloc: Global) -> Result<Listed<Slot>, AllocError>
    ensures { IfOk result (λ slots. slots ≡ record { parent = None; depth = 0; object = 0; line = 0 }
        ∷ (record { parent = Some 0; depth = 1; object = 1; line = 1 } ∷ [])) }
{
    let mut slots = Listed::new(alloc);
    slots.push(Slot {
        parent: None,
        depth: 0,
        object: 0,
        line: 0,
    })?;
    slots.push(Slot {
        parent: Some(0),
        depth: 1,
        object: 1,
        line: 1,
    })?;
    Ok(slots)
}

fn rules(alloc: Global) -> Result<Listed<Rule>, AllocError>
    ensures { IfOk result (λ rules. rules
        ≡ record { dependency = None; number = 0; slots = []; condition = 0; inferred = []; kind = Line 1 } ∷ []) }
{
    let mut rules = Listed::new(alloc);
    rules.push(Rule {
        dependency: None,
        number: 0,
        slots: Listed::new(alloc),
        condition: 0,
        inferred: Listed::new(alloc),
        kind: Kind::Line(1),
    })?;
    Ok(rules)
}

fn conditions(alloc: Global) -> Result<Listed<Condition>, AllocError>
    ensures { IfOk result (λ conditions. conditions ≡ Always ∷ []) }
{
    let mut conditions = Listed::new(alloc);
    conditions.push(Condition::Always)?;
    Ok(conditions)
}

// The plan of these, without variables.
fn plan_of(
    alloc: Global,
    name: Word,
    slots: Listed<Slot>,
    rules: Listed<Rule>,
    conditions: Listed<Condition>,
) -> Plan
    ensures slots { result.slots ≡ slots }
    ensures rules { result.rules ≡ rules }
    ensures conditions { result.conditions ≡ conditions }
    ensures terms { result.terms ≡ [] }
    ensures vars { result.vars ≡ [] }
    ensures domains { result.domains ≡ [] }
{
    Plan {
        name,
        version: 1,
        texts: Listed::new(alloc),
        dependencies: Listed::new(alloc),
        characteristics: Listed::new(alloc),
        objects: Listed::new(alloc),
        domains: Listed::new(alloc),
        tables: Listed::new(alloc),
        slots,
        vars: Listed::new(alloc),
        sets: Listed::new(alloc),
        conditions,
        terms: Listed::new(alloc),
        rules,
        procedures: Listed::new(alloc),
        lines: Listed::new(alloc),
        operations: Listed::new(alloc),
        guards: Listed::new(alloc),
        requirements: Listed::new(alloc),
    }
}

fn evaluate_first<L: Ledger>(plan: &Plan, out: &mut Yield, blank: Blank)
    requires name { blank.name ≡ L.name }
    requires parts { blank.parts ≡ L.parts }
    requires some { 0 < blank.parts }
    requires slots { plan.now.slots ≡ record { parent = None; depth = 0; object = 0; line = 0 }
        ∷ (record { parent = Some 0; depth = 1; object = 1; line = 1 } ∷ []) }
    requires rules { plan.now.rules
        ≡ record { dependency = None; number = 0; slots = []; condition = 0; inferred = []; kind = Line 1 } ∷ [] }
    requires conditions { plan.now.conditions ≡ Always ∷ [] }
    requires terms { plan.now.terms ≡ [] }
    requires vars { plan.now.vars ≡ [] }
    requires domains { plan.now.domains ≡ [] }
    requires rooms { out.old.rooms ≡ rooms_of plan.now }
{
    let mut steps: Steps<L> = Steps::new(blank);
    evaluate(plan, &Root, 0, out, &mut steps);
}

#[test]
fn says_that_a_line_is_here(rt: HostRuntime) -> Result<(), Fail> {
    let name = Word::from_bytes(rt.alloc(), b"LAMP")?;
    let slots = slots(rt.alloc())?;
    let rules = rules(rt.alloc())?;
    let plan = plan_of(rt.alloc(), name, slots, rules, conditions(rt.alloc())?);
    let mut out = new_yield(rt.alloc(), &plan)?;
    evaluate_first::<Brand>(&plan, &mut out, Blank::new(1));
    assert_eq!(rt; out.count(), 1);
    assert_eq!(rt; out.atom(0), Atom::Here(1));
    Ok(())
}
