//! A slot with one variable of one text, which is excluded.

ghost use Rattle.std.specs.Prelude.{◌≡◌, ◌^◌, ◌<◌, true, [], ◌∷◌, length, IfOk};
ghost use Rattle.vc_value.specs.declared.table_header.Domain.TheVariants.{Texts};
ghost use Rattle.vc_plan.specs.Domains.{atom_count};

use std::alloc::{AllocError, Global};
use std::test::Fail;
use vc_net_blame::laws::{collisions_fit, unclear_is_blamed};
use vc_net_blame::{blame, collision_bound};
use vc_net_standing::{Fact, Standing};
use vc_plan::{Atom, Culprit, Origin, Plan, plans};
use vc_rule_yield::Bounded;
use vc_value::{Domain, Listed, Word};

fn domains(alloc: Global) -> Result<Listed<Domain>, AllocError>
    ensures { IfOk result (λ domains. domains ≡ Texts (0 ∷ []) ∷ []) }
{
    let mut texts = Listed::new(alloc);
    texts.push(0)?;
    let mut domains = Listed::new(alloc);
    domains.push(Domain::Texts(texts))?;
    Ok(domains)
}

fn variables(alloc: Global) -> Result<Listed<plans::Var>, AllocError>
    ensures { IfOk result (λ vars. vars ≡ record { slot = 0; characteristic = 0; domain = 0; restrictable = true }
        ∷ []) }
{
    let mut vars = Listed::new(alloc);
    vars.push(plans::Var {
        slot: 0,
        characteristic: 0,
        domain: 0,
        restrictable: true,
    })?;
    Ok(vars)
}

// The plan of these, without slots: the root is here anyway.
fn plan_of(alloc: Global, domains: Listed<Domain>, vars: Listed<plans::Var>) -> Plan
    requires domains { domains ≡ Texts (0 ∷ []) ∷ [] }
    requires vars { vars ≡ record { slot = 0; characteristic = 0; domain = 0; restrictable = true } ∷ [] }
    ensures atoms { atom_count result < 2 ^ 32 }
    ensures vars { length result.vars < 2 ^ 32 }
{
    Plan {
        name: Word::new(alloc),
        version: 1,
        texts: Listed::new(alloc),
        dependencies: Listed::new(alloc),
        characteristics: Listed::new(alloc),
        objects: Listed::new(alloc),
        domains,
        tables: Listed::new(alloc),
        slots: Listed::new(alloc),
        vars,
        sets: Listed::new(alloc),
        conditions: Listed::new(alloc),
        terms: Listed::new(alloc),
        rules: Listed::new(alloc),
        procedures: Listed::new(alloc),
        lines: Listed::new(alloc),
        operations: Listed::new(alloc),
        guards: Listed::new(alloc),
        requirements: Listed::new(alloc),
    }
}

// Whether a statement is blamed that excludes the one text.
fn blames_statement(plan: &Plan, standing: &Standing, premises: &mut Bounded<Atom>) -> bool
    requires atoms { atom_count plan.now < 2 ^ 32 }
    requires vars { length plan.now.vars < 2 ^ 32 }
{
    let fact = Fact {
        atom: Atom::Out(0, 0),
        origin: Origin::Written {
            proc: 2,
            statement: 3,
        },
    };
    let guilty = Culprit::Written {
        proc: 2,
        statement: 3,
    };
    if premises.room() < collision_bound(plan) {
        return false;
    }
    blame(plan, standing, fact, premises) == Some(guilty)
        && premises.as_slice() == [Atom::Out(0, 0)].as_slice()
}

fn blames_at(alloc: Global, plan: &Plan, standing: &Standing) -> Result<bool, AllocError>
    requires atoms { atom_count plan.now < 2 ^ 32 }
    requires vars { length plan.now.vars < 2 ^ 32 }
{
    let mut premises = Bounded::new(alloc, 2)?;
    let blames = blames_statement(plan, standing, &mut premises);
    drop(premises);
    Ok(blames)
}

fn blames_in(alloc: Global, plan: &Plan) -> Result<bool, AllocError>
    requires atoms { atom_count plan.now < 2 ^ 32 }
    requires vars { length plan.now.vars < 2 ^ 32 }
{
    let standing = Standing::new(alloc, plan)?;
    let blames = blames_at(alloc, plan, &standing);
    drop(standing);
    blames
}

fn plan_of_one(alloc: Global) -> Result<Plan, AllocError>
    ensures atoms { IfOk result (λ plan. atom_count plan < 2 ^ 32) }
    ensures vars { IfOk result (λ plan. length plan.vars < 2 ^ 32) }
{
    let domains = domains(alloc)?;
    let vars = variables(alloc)?;
    Ok(plan_of(alloc, domains, vars))
}

#[test]
fn blames_whoever_excludes_the_last_grain(rt: HostRuntime) -> Result<(), Fail> {
    let plan = plan_of_one(rt.alloc())?;
    let blames = blames_in(rt.alloc(), &plan);
    drop(plan);
    assert!(rt; blames?);
    Ok(())
}

#[test]
fn laws_ask_for_nothing(_rt: HostRuntime) -> Result<(), Fail> {
    unclear_is_blamed();
    collisions_fit();
    Ok(())
}
