//! A source of a variable of slot 1, at a view where that is here.

ghost use Rattle.std.specs.Prelude.{◌≡◌, ◌<◌, false, [], ◌∷◌, None, Some, IfOk};
ghost use Rattle.vc_value.specs.declared.value.Value.TheVariants.{Text};
ghost use Rattle.vc_plan_sources.specs.Changes.{no_sources, with_user};
ghost use Rattle.vc_rule.specs.Evaluating.{RulesFit};

use std::alloc::{AllocError, Global};
use std::marker::Brand;
use std::sync::ledger::{Blank, Ledger};
use std::test::Fail;
use vc_net_agenda::Giver;
use vc_net_sources::laws::{
    found_fits_cells, found_is_given, found_is_next, found_refutes, grains_fit_places,
    resting_are_quiet, rooms_suffice,
};
use vc_net_sources::{ask, culprit_of, origin_of};
use vc_plan::{Atom, Culprit, Mark, Origin, Plan, Var, View};
use vc_plan_sources::Sources;
use vc_rule_yield::Yield;
use vc_value::{Listed, Value, Word};
use vc_value_steps::Steps;

// Slots 0 and 1 are here, and no variable has a value.
#[derive(Drop)]
struct Both;

impl View for Both {
    ghost use Rattle.std.specs.Prelude.{false, nat_lt, None};

    ghost seen = { λ s. record { here = λ i. nat_lt i 2; out = λ v g. false; value = λ v. None } };

    fn here(&self, slot: u32) -> bool {
        slot < 2
    }

    fn out(&self, _var: u32, _grain: u32) -> bool {
        false
    }

    fn value(&self, _var: u32) -> Option<Value> {
        None
    }
}

fn variables(alloc: Global) -> Result<Listed<Var>, AllocError>
    ensures { IfOk result (λ vars. vars ≡ record { slot = 1; characteristic = 0; domain = 0; restrictable = false }
        ∷ []) }
{
    let mut vars = Listed::new(alloc);
    vars.push(Var {
        slot: 1,
        characteristic: 0,
        domain: 0,
        restrictable: false,
    })?;
    Ok(vars)
}

// The plan of these, without slots or rules.
fn plan_of(alloc: Global, vars: Listed<Var>) -> Plan
    requires { vars ≡ record { slot = 1; characteristic = 0; domain = 0; restrictable = false } ∷ [] }
    ensures vars { result.vars ≡ record { slot = 1; characteristic = 0; domain = 0; restrictable = false } ∷ [] }
    ensures fit { RulesFit result }
{
    Plan {
        name: Word::new(alloc),
        version: 1,
        texts: Listed::new(alloc),
        dependencies: Listed::new(alloc),
        characteristics: Listed::new(alloc),
        objects: Listed::new(alloc),
        domains: Listed::new(alloc),
        tables: Listed::new(alloc),
        slots: Listed::new(alloc),
        vars,
        sets: Listed::new(alloc),
        conditions: Listed::new(alloc),
        terms: Listed::new(alloc),
        rules: Listed::new(alloc),
        procedures: Listed::new(alloc),
        lines: Listed::new(alloc),
        operations: Listed::new(alloc),
        guards: Listed::new(alloc),
        requirements: Listed::new(alloc),
    }
}

fn ask_user<L: Ledger>(plan: &Plan, sources: &Sources, out: &mut Yield, blank: Blank)
    requires name { blank.name ≡ L.name }
    requires parts { blank.parts ≡ L.parts }
    requires some { 0 < blank.parts }
    requires vars { plan.now.vars ≡ record { slot = 1; characteristic = 0; domain = 0; restrictable = false } ∷ [] }
    requires fit { RulesFit plan.now }
    requires sources { sources.now ≡ with_user (no_sources 1) 0 (Some (Text 4)) }
    requires rooms { out.old.rooms ≡ record { cites = 1; atoms = 1; premises = 1 } }
{
    let mut steps: Steps<L> = Steps::new(blank);
    ask(plan, &Both, sources, Giver::User(0), out, &mut steps);
}

fn is_told(out: &Yield) -> bool {
    out.count() == 1
        && out.atom(0) == Atom::Is(0, Value::Text(4))
        && out.premises(0) == [Atom::Here(1)].as_slice()
}

// Whether the user's value is told of the plan's variable.
fn tells_user(alloc: Global, plan: &Plan, sources: &Sources) -> Result<bool, AllocError>
    requires vars { plan.now.vars ≡ record { slot = 1; characteristic = 0; domain = 0; restrictable = false } ∷ [] }
    requires fit { RulesFit plan.now }
    requires sources { sources.now ≡ with_user (no_sources 1) 0 (Some (Text 4)) }
{
    let mut out = Yield::new(alloc, 1, 1, 1)?;
    ask_user::<Brand>(plan, sources, &mut out, Blank::new(1));
    let told = is_told(&out);
    drop(out);
    Ok(told)
}

// Whether a statement is named that wrote the variable's entry.
fn names_statement(sources: &Sources) -> bool {
    let written = Origin::Written {
        proc: 2,
        statement: 3,
    };
    let guilty = Culprit::Written {
        proc: 2,
        statement: 3,
    };
    origin_of(sources, Giver::Entry(0)) == written
        && culprit_of(sources, Giver::Entry(0)) == Some(guilty)
}

fn tells_all(alloc: Global, plan: &Plan) -> Result<bool, AllocError>
    requires vars { plan.now.vars ≡ record { slot = 1; characteristic = 0; domain = 0; restrictable = false } ∷ [] }
    requires fit { RulesFit plan.now }
{
    let mut sources = Sources::new(alloc, plan)?;
    sources.set_user(0, Some(Value::Text(4)));
    let told = tells_user(alloc, plan, &sources);
    sources.set_written(0, Some((Mark::Outside, 2, 3)));
    let named = names_statement(&sources);
    drop(sources);
    match told {
        Ok(told) => Ok(told && named),
        Err(error) => Err(error),
    }
}

#[test]
fn tells_the_users_value(rt: HostRuntime) -> Result<(), Fail> {
    let plan = plan_of(rt.alloc(), variables(rt.alloc())?);
    let told = tells_all(rt.alloc(), &plan);
    drop(plan);
    assert!(rt; told?);
    Ok(())
}

#[test]
fn laws_ask_for_nothing(_rt: HostRuntime) -> Result<(), Fail> {
    found_is_given();
    found_is_next();
    found_refutes();
    found_fits_cells();
    rooms_suffice();
    grains_fit_places();
    resting_are_quiet();
    Ok(())
}
