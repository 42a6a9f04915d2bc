//! Coming and going, each once.

ghost use Rattle.std.specs.Prelude.{◌≡◌, length, IfOk};

use std::alloc::{AllocError, Global};
use std::test::Fail;
use vc_net_agenda::laws::who_comes_waits;
use vc_net_agenda::{Agenda, Giver, Pending};
use vc_plan::{Kind, Plan, Rule, Var};
use vc_value::{Listed, Word};

#[test]
fn has_each_number_once(rt: HostRuntime) -> Result<(), Fail> {
    let mut pending = Pending::new(rt.alloc(), 3)?;
    assert!(rt; pending.is_empty());
    pending.push(2);
    pending.push(0);
    pending.push(2);
    pending.push(3);
    assert!(rt; pending.has(2));
    assert!(rt; !pending.has(1));
    assert_eq!(rt; pending.pop(), Some(0));
    assert_eq!(rt; pending.pop(), Some(2));
    assert_eq!(rt; pending.pop(), None);
    pending.push(1);
    pending.clear();
    assert!(rt; !pending.has(1));
    Ok(())
}

fn variables(alloc: Global) -> Result<Listed<Var>, AllocError>
    ensures { IfOk result (λ vars. length vars ≡ 2) }
{
    let var = Var {
        slot: 0,
        characteristic: 0,
        domain: 0,
        restrictable: false,
    };
    let mut vars = Listed::new(alloc);
    vars.push(var)?;
    vars.push(var)?;
    Ok(vars)
}

fn one_rule(alloc: Global) -> Result<Listed<Rule>, AllocError>
    ensures { IfOk result (λ rules. length rules ≡ 1) }
{
    let mut rules = Listed::new(alloc);
    rules.push(Rule {
        dependency: None,
        number: 0,
        slots: Listed::new(alloc),
        condition: 0,
        inferred: Listed::new(alloc),
        kind: Kind::Never,
    })?;
    Ok(rules)
}

fn small_plan(alloc: Global) -> Result<Plan, AllocError>
    ensures { IfOk result (λ plan. (length plan.rules ≡ 1) × (length plan.vars ≡ 2)) }
{
    Ok(Plan {
        name: Word::from_bytes(alloc, b"LAMP")?,
        version: 1,
        texts: Listed::new(alloc),
        dependencies: Listed::new(alloc),
        characteristics: Listed::new(alloc),
        objects: Listed::new(alloc),
        domains: Listed::new(alloc),
        tables: Listed::new(alloc),
        slots: Listed::new(alloc),
        vars: variables(alloc)?,
        sets: Listed::new(alloc),
        conditions: Listed::new(alloc),
        terms: Listed::new(alloc),
        rules: one_rule(alloc)?,
        procedures: Listed::new(alloc),
        lines: Listed::new(alloc),
        operations: Listed::new(alloc),
        guards: Listed::new(alloc),
        requirements: Listed::new(alloc),
    })
}

#[test]
fn asks_the_last_first(rt: HostRuntime) -> Result<(), Fail> {
    let plan = small_plan(rt.alloc())?;
    let mut agenda = Agenda::new(rt.alloc(), &plan)?;
    assert!(rt; agenda.is_empty());
    agenda.push(Giver::Rule(0));
    agenda.push(Giver::Entry(1));
    agenda.push(Giver::User(1));
    agenda.push(Giver::Rule(0));
    agenda.push(Giver::Rule(1));
    agenda.push(Giver::User(2));
    assert!(rt; agenda.has(Giver::Entry(1)));
    assert!(rt; !agenda.has(Giver::Entry(0)));
    assert_eq!(rt; agenda.pop(), Some(Giver::User(1)));
    assert_eq!(rt; agenda.pop(), Some(Giver::Entry(1)));
    assert_eq!(rt; agenda.pop(), Some(Giver::Rule(0)));
    assert_eq!(rt; agenda.pop(), None);
    agenda.push(Giver::User(0));
    who_comes_waits();
    agenda.clear();
    assert!(rt; agenda.is_empty());
    Ok(())
}
