//! The log of a slot with one variable of two texts.

ghost use Rattle.std.specs.Prelude.{◌≡◌, false, true, [], ◌∷◌, length, IfOk, None};
ghost use Rattle.vc_value.specs.declared.table_header.Domain.TheVariants.{Texts};
ghost use Rattle.vc_plan.specs.declared.atoms.Atom.TheVariants.{Out};
ghost use Rattle.vc_plan.specs.Clear.{is_clear};
ghost use Rattle.vc_plan.specs.Domains.{atom_count};
ghost use Rattle.vc_plan_reasons.specs.Checking.{set_with};
ghost use Rattle.vc_rule_grains.specs.Finding.{GrainsFit};
ghost use Rattle.vc_net_places.specs.Places.{index_of};
ghost use Rattle.vc_net_places.specs.declared.places.Thing.TheVariants.{Slot, Var};
ghost use Rattle.vc_net_log.specs.Coming.{are_by_slot};
ghost use Rattle.vc_net_log.specs.Logs.{nothing_logged};

use std::alloc::{AllocError, Global};
use std::process::Abort;
use std::test::Fail;
use vc_net_chains::chain_of;
use vc_net_log::Log;
use vc_net_log::laws::{new_steps_are_free, premises_are_cited, rooms_are_bounds, steps_conclude};
use vc_net_standing::Fact;
use vc_plan::{Atom, Origin, Plan, Step, View, plans};
use vc_plan_sources::Sources;
use vc_rule_yield::Bounded;
use vc_value::{Domain, Listed, Value, Word};

fn domains<R: Abort>(rt: &R, alloc: Global) -> Listed<Domain>
    ensures { result ≡ Texts (0 ∷ 1 ∷ []) ∷ [] }
{
    let mut texts = Listed::new(alloc);
    texts.push(0).expect(rt, "memory");
    texts.push(1).expect(rt, "memory");
    let mut domains = Listed::new(alloc);
    domains.push(Domain::Texts(texts)).expect(rt, "memory");
    domains
}

fn variables<R: Abort>(rt: &R, alloc: Global) -> Listed<plans::Var>
    ensures { result ≡ record { slot = 0; characteristic = 0; domain = 0; restrictable = false }
        ∷ [] }
{
    let mut vars = Listed::new(alloc);
    vars.push(plans::Var {
        slot: 0,
        characteristic: 0,
        domain: 0,
        restrictable: false,
    })
    .expect(rt, "memory");
    vars
}

fn plan_of_one<R: Abort>(rt: &R, alloc: Global) -> Plan
    ensures vars { length result.vars ≡ 1 }
    ensures few { atom_count result ≡ 4 }
    ensures grains { GrainsFit result }
    ensures ordered { are_by_slot result.vars ≡ true }
    ensures clear { is_clear result (set_with []) ≡ true }
    ensures still { is_clear result (set_with (Out 0 0 ∷ [])) ≡ true }
    ensures indexed { index_of result ≡ record {
      firsts = 1 ∷ [];
      things = Slot 0 ∷ Var 0 ∷ Var 0 ∷ Var 0 ∷ [];
    } }
{
    let mut slots = Listed::new(alloc);
    slots
        .push(plans::Slot {
            parent: None,
            depth: 0,
            object: 0,
            line: 0,
        })
        .expect(rt, "memory");
    Plan {
        name: Word::from_bytes(alloc, b"LAMP").expect(rt, "memory"),
        version: 1,
        texts: Listed::new(alloc),
        dependencies: Listed::new(alloc),
        characteristics: Listed::new(alloc),
        objects: Listed::new(alloc),
        domains: domains(rt, alloc),
        tables: Listed::new(alloc),
        slots,
        vars: variables(rt, alloc),
        sets: Listed::new(alloc),
        conditions: Listed::new(alloc),
        terms: Listed::new(alloc),
        rules: Listed::new(alloc),
        procedures: Listed::new(alloc),
        lines: Listed::new(alloc),
        operations: Listed::new(alloc),
        guards: Listed::new(alloc),
        requirements: Listed::new(alloc),
    }
}

fn log_of_one<R: Abort>(rt: &R, alloc: Global) -> Log
    ensures { result ≡ nothing_logged (record {
      firsts = 1 ∷ [];
      things = Slot 0 ∷ Var 0 ∷ Var 0 ∷ Var 0 ∷ [];
    }) (0 ∷ 0 ∷ 2 ∷ 3 ∷ 4 ∷ []) }
{
    let plan = plan_of_one(rt, alloc);
    let log = Log::new(alloc, &plan, &[0, 2, 1, 1]).expect(rt, "memory");
    drop(plan);
    log
}

fn premise(steps: &[Step], step: usize, number: usize) -> Option<u32> {
    match steps.get(step) {
        Some(step) => step.premises.as_slice().get(number).copied(),
        None => None,
    }
}

// The value, and that the other grain is out, by a rule.
fn log_of_two<R: Abort>(rt: &R, alloc: Global) -> Log {
    let mut log = log_of_one(rt, alloc);
    log.push(
        Fact {
            atom: Atom::Is(0, Value::Text(1)),
            origin: Origin::User,
        },
        &[],
    );
    log.push(
        Fact {
            atom: Atom::Out(0, 0),
            origin: Origin::Rule(3),
        },
        &[Atom::Is(0, Value::Text(1))],
    );
    log
}

fn told_by(log: &Log) -> [bool; 6] {
    [
        log.here(0),
        log.out(0, 0),
        log.out(0, 1),
        log.stands(Atom::Here(0)),
        log.has(Atom::Here(0)),
        log.standing().out(0, 0),
    ]
}

fn cited_by(steps: &[Step]) -> [Option<u32>; 3] {
    [
        premise(steps, 0, 0),
        premise(steps, 1, 0),
        premise(steps, 1, 1),
    ]
}

fn found_in(log: &Log) -> (Option<Value>, Option<usize>, usize) {
    (
        log.value(0),
        log.number_of(Atom::Out(0, 0)),
        log.facts().len(),
    )
}

// The number of the step that the second follows from.
fn cited_by_second(log: &Log) -> Option<u32> {
    if log.count() != 2 {
        return None;
    }
    match log.premises(1) {
        [place] => Some(log.number_by_place(*place as usize)),
        _ => None,
    }
}

// How many steps lead to that the grain is out.
fn chain_length(alloc: Global, log: &Log) -> Result<Option<usize>, AllocError> {
    if log.count() != 2 {
        return Ok(None);
    }
    match chain_of(alloc, log, Atom::Out(0, 0))? {
        Some(chain) => {
            let count = chain.len();
            drop(chain);
            Ok(Some(count))
        }
        None => Ok(None),
    }
}

#[test]
fn keeps_what_follows(rt: HostRuntime) -> Result<(), Fail> {
    let log = log_of_two(&rt, rt.alloc());
    let told = told_by(&log);
    let found = found_in(&log);
    let second = cited_by_second(&log);
    let chain = chain_length(rt.alloc(), &log);
    let steps = log.steps(rt.alloc());
    drop(log);
    let steps = steps?;
    let cited = cited_by(steps.as_slice());
    drop(steps);
    assert_eq!(rt; told, [true, true, false, true, false, true]);
    assert_eq!(rt; found, (Some(Value::Text(1)), Some(1), 2));
    assert_eq!(rt; cited, [None, Some(1), None]);
    assert_eq!(rt; second, Some(1));
    assert_eq!(rt; chain?, Some(2));
    Ok(())
}

#[test]
fn begins_anew(rt: HostRuntime) -> Result<(), Fail> {
    let mut log = log_of_two(&rt, rt.alloc());
    log.clear();
    let told = told_by(&log);
    let found = found_in(&log);
    drop(log);
    assert_eq!(rt; told, [true, false, false, true, false, false]);
    assert_eq!(rt; found, (None, None, 0));
    Ok(())
}

fn sources_of<R: Abort>(rt: &R, alloc: Global, value: Option<Value>) -> Sources
    ensures users { length result.user ≡ 1 }
    ensures written { result.written ≡ None ∷ [] }
{
    let plan = plan_of_one(rt, alloc);
    let mut sources = Sources::new(alloc, &plan).expect(rt, "memory");
    drop(plan);
    sources.set_user(0, value);
    sources
}

// How many facts are left, and how many were taken, when the user takes the value back.
fn left_without<R: Abort>(rt: &R, alloc: Global) -> (usize, usize) {
    let old = sources_of(rt, alloc, Some(Value::Text(1)));
    let new = sources_of(rt, alloc, None);
    let mut taken = Bounded::new(alloc, 4).expect(rt, "memory");
    let mut log = log_of_one(rt, alloc);
    log.push(
        Fact {
            atom: Atom::Is(0, Value::Text(1)),
            origin: Origin::User,
        },
        &[],
    );
    log.keep_at(&old, &new, &[0], &[], &mut taken);
    let counts = (log.count(), taken.len());
    drop(log);
    drop(taken);
    drop(new);
    drop(old);
    counts
}

#[test]
fn lets_go_what_the_user_takes_back(rt: HostRuntime) -> Result<(), Fail> {
    assert_eq!(rt; left_without(&rt, rt.alloc()), (0, 1));
    Ok(())
}

fn asked<R: Abort>(rt: &R, alloc: Global) -> [bool; 6] {
    let plan = plan_of_one(rt, alloc);
    let mut log = Log::new(alloc, &plan, &[0, 2, 1, 1]).expect(rt, "memory");
    let first = log.may_come(&plan, Atom::Out(0, 0));
    let here = log.may_come(&plan, Atom::Here(1));
    log.push(
        Fact {
            atom: Atom::Out(0, 0),
            origin: Origin::Rule(3),
        },
        &[],
    );
    let last = log.may_come(&plan, Atom::Out(0, 1));
    let left = log.may_come(&plan, Atom::Is(0, Value::Text(1)));
    let gone = log.may_come(&plan, Atom::Is(0, Value::Text(0)));
    let none = log.may_come(&plan, Atom::Is(0, Value::Text(2)));
    drop(plan);
    drop(log);
    [first, here, last, left, gone, none]
}

#[test]
fn tells_who_may_come(rt: HostRuntime) -> Result<(), Fail> {
    new_steps_are_free();
    premises_are_cited();
    rooms_are_bounds();
    steps_conclude();
    assert_eq!(rt;
        asked(&rt, rt.alloc()),
        [true, false, false, true, false, false]
    );
    Ok(())
}
