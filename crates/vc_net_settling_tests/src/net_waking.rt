//! Two variables and two rules, one of which waits for a value of the other's variable; both rest where two grains are
//! left, or their variable has a value.

ghost use Rattle.std.specs.Prelude.{◌≡◌, ◌^◌, ◌<◌, false, [], ◌∷◌, length, IfOk};
ghost use Rattle.vc_value.specs.declared.table_header.Domain.TheVariants.{Texts};
ghost use Rattle.vc_rule_grains.specs.Finding.{GrainsFit};

use std::alloc::{AllocError, Global};
use std::test::Fail;
use vc_net_agenda::{Agenda, Giver};
use vc_net_places::Places;
use vc_net_readers::Readers;
use vc_net_waking::laws::{beginners_suffice, others_wait_on, woken_wait};
use vc_net_waking::{begin, untriggered, wake};
use vc_plan::{Atom, Condition, Kind, Plan, Relation, Rule, Slot, Term, Var, View};
use vc_plan_sources::Sources;
use vc_value::{Domain, Listed, Value, Word};

// The first variable has its second text; of each variable the first one may be out.
#[derive(Clone, Copy)]
struct SecondText {
    first_out: bool,
}

impl View for SecondText {
    ghost use Rattle.std.specs.Prelude.{◌&&◌, ◌==◌, if◌then◌else◌, None, Some};
    ghost use Rattle.vc_value.specs.declared.value.Value.TheVariants.{Text};

    ghost seen = { λ s. record {
      here = λ i. i == 0;
      out = λ v g. s.first_out && (g == 0);
      value = λ v. if v == 0 then Some (Text 1) else None;
    } };

    fn here(&self, slot: u32) -> bool {
        slot == 0
    }

    fn out(&self, _var: u32, grain: u32) -> bool {
        self.first_out && grain == 0
    }

    fn value(&self, var: u32) -> Option<Value> {
        if var == 0 { Some(Value::Text(1)) } else { None }
    }
}

fn domains(alloc: Global) -> Result<Listed<Domain>, AllocError>
    ensures { IfOk result (λ domains. domains ≡ Texts (0 ∷ 1 ∷ []) ∷ []) }
{
    let mut texts = Listed::new(alloc);
    texts.push(0)?;
    texts.push(1)?;
    let mut domains = Listed::new(alloc);
    domains.push(Domain::Texts(texts))?;
    Ok(domains)
}

fn variables(alloc: Global) -> Result<Listed<Var>, AllocError>
    ensures { IfOk result (λ vars. vars ≡ record { slot = 0; characteristic = 0; domain = 0; restrictable = false }
        ∷ record { slot = 0; characteristic = 0; domain = 0; restrictable = false } ∷ []) }
{
    let var = Var {
        slot: 0,
        characteristic: 0,
        domain: 0,
        restrictable: false,
    };
    let mut vars = Listed::new(alloc);
    vars.push(var)?;
    vars.push(var)?;
    Ok(vars)
}

fn conditions(alloc: Global) -> Result<Listed<Condition>, AllocError> {
    let mut conditions = Listed::new(alloc);
    conditions.push(Condition::Always)?;
    conditions.push(Condition::Compared(
        Relation::Equal,
        Term::Read(0),
        Term::Literal(Value::Text(1)),
    ))?;
    Ok(conditions)
}

fn last(alloc: Global, condition: u32, var: u32) -> Rule {
    Rule {
        dependency: None,
        number: 0,
        slots: Listed::new(alloc),
        condition,
        inferred: Listed::new(alloc),
        kind: Kind::Last(var),
    }
}

fn rules(alloc: Global) -> Result<Listed<Rule>, AllocError>
    ensures { IfOk result (λ rules. length rules ≡ 2) }
{
    let mut rules = Listed::new(alloc);
    rules.push(last(alloc, 1, 1))?;
    rules.push(last(alloc, 0, 0))?;
    Ok(rules)
}

fn plan_of_two(alloc: Global) -> Result<Plan, AllocError>
    ensures grains { IfOk result (λ plan. GrainsFit plan) }
    ensures rules { IfOk result (λ plan. length plan.rules ≡ 2) }
    ensures vars { IfOk result (λ plan. length plan.vars ≡ 2) }
{
    let mut slots = Listed::new(alloc);
    slots.push(Slot {
        parent: None,
        depth: 0,
        object: 0,
        line: 0,
    })?;
    Ok(Plan {
        name: Word::from_bytes(alloc, b"LAMP")?,
        version: 1,
        texts: Listed::new(alloc),
        dependencies: Listed::new(alloc),
        characteristics: Listed::new(alloc),
        objects: Listed::new(alloc),
        domains: domains(alloc)?,
        tables: Listed::new(alloc),
        slots,
        vars: variables(alloc)?,
        sets: Listed::new(alloc),
        conditions: conditions(alloc)?,
        terms: Listed::new(alloc),
        rules: rules(alloc)?,
        procedures: Listed::new(alloc),
        lines: Listed::new(alloc),
        operations: Listed::new(alloc),
        guards: Listed::new(alloc),
        requirements: Listed::new(alloc),
    })
}

fn who_begins(alloc: Global, plan: &Plan) -> Result<Agenda, AllocError>
    requires rules { length plan.now.rules < 2 ^ 32 }
    requires vars { length plan.now.vars < 2 ^ 32 }
{
    let mut agenda = Agenda::new(alloc, plan)?;
    let rules = untriggered(alloc, plan)?;
    begin(plan, rules.as_slice(), &mut agenda);
    drop(rules);
    Ok(agenda)
}

fn who_is_woken(
    alloc: Global,
    plan: &Plan,
    view: SecondText,
    atom: Atom,
) -> Result<Agenda, AllocError>
    requires grains { GrainsFit plan.now }
    requires rules { length plan.now.rules < 2 ^ 32 }
    requires vars { length plan.now.vars ≡ 2 }
{
    let places = Places::new(alloc, plan)?;
    let readers = Readers::new(alloc, plan, &places)?;
    let mut sources = Sources::new(alloc, plan)?;
    sources.set_user(0, Some(Value::Text(1)));
    let mut agenda = Agenda::new(alloc, plan)?;
    wake(plan, &readers, &places, &view, &sources, atom, &mut agenda);
    drop(sources);
    drop(readers);
    drop(places);
    Ok(agenda)
}

fn begin_with_two(alloc: Global) -> Result<Agenda, AllocError> {
    let plan = plan_of_two(alloc)?;
    let agenda = who_begins(alloc, &plan);
    drop(plan);
    agenda
}

fn wake_in_two(alloc: Global, first_out: bool, atom: Atom) -> Result<Agenda, AllocError> {
    let plan = plan_of_two(alloc)?;
    let agenda = who_is_woken(alloc, &plan, SecondText { first_out }, atom);
    drop(plan);
    agenda
}

#[test]
fn a_rule_that_waits_does_not_begin(rt: HostRuntime) -> Result<(), Fail> {
    let mut agenda = begin_with_two(rt.alloc())?;
    assert_eq!(rt; agenda.pop(), Some(Giver::Entry(1)));
    assert_eq!(rt; agenda.pop(), Some(Giver::User(1)));
    assert_eq!(rt; agenda.pop(), Some(Giver::Entry(0)));
    assert_eq!(rt; agenda.pop(), Some(Giver::User(0)));
    assert_eq!(rt; agenda.pop(), Some(Giver::Rule(1)));
    assert_eq!(rt; agenda.pop(), None);
    others_wait_on();
    woken_wait();
    beginners_suffice();
    Ok(())
}

#[test]
fn a_value_wakes_who_waits_for_it(rt: HostRuntime) -> Result<(), Fail> {
    let mut agenda = wake_in_two(rt.alloc(), true, Atom::Is(0, Value::Text(1)))?;
    assert_eq!(rt; agenda.pop(), Some(Giver::User(0)));
    assert_eq!(rt; agenda.pop(), Some(Giver::Rule(0)));
    assert_eq!(rt; agenda.pop(), None);
    Ok(())
}

#[test]
fn a_rule_is_woken_by_what_it_touches_besides(rt: HostRuntime) -> Result<(), Fail> {
    let mut agenda = wake_in_two(rt.alloc(), true, Atom::Is(1, Value::Text(0)))?;
    assert_eq!(rt; agenda.pop(), Some(Giver::Rule(0)));
    assert_eq!(rt; agenda.pop(), None);
    Ok(())
}

#[test]
fn who_rests_is_not_woken(rt: HostRuntime) -> Result<(), Fail> {
    let mut agenda = wake_in_two(rt.alloc(), false, Atom::Is(0, Value::Text(1)))?;
    assert_eq!(rt; agenda.pop(), Some(Giver::User(0)));
    assert_eq!(rt; agenda.pop(), None);
    Ok(())
}
