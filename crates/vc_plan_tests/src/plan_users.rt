//! What the user chooses of a plan with one variable, and one set of three texts.

ghost use Rattle.std.specs.Prelude.{◌≡◌, ◌<◌, length, IfOk};

use std::alloc::{AllocError, Global};
use std::test::Fail;
use vc_plan::{Plan, TextSet, Var};
use vc_plan_users::UserValues;
use vc_value::{Domain, Listed, Value, Word};

fn variables(alloc: Global) -> Result<Listed<Var>, AllocError>
    ensures { IfOk result (λ vars. length vars ≡ 1) }
{
    let mut vars = Listed::new(alloc);
    vars.push(Var {
        slot: 0,
        characteristic: 0,
        domain: 0,
        restrictable: false,
    })?;
    Ok(vars)
}

fn sets(alloc: Global) -> Result<Listed<TextSet>, AllocError> {
    let mut sets = Listed::new(alloc);
    sets.push(TextSet {
        slot: 0,
        characteristic: 1,
        domain: 0,
    })?;
    Ok(sets)
}

fn domains(alloc: Global) -> Result<Listed<Domain>, AllocError> {
    let mut texts = Listed::new(alloc);
    for text in 4..7u32 {
        texts.push(text)?;
    }
    let mut domains = Listed::new(alloc);
    domains.push(Domain::Texts(texts))?;
    Ok(domains)
}

fn plan(alloc: Global) -> Result<Plan, AllocError>
    ensures { IfOk result (λ plan. length plan.vars ≡ 1) }
{
    Ok(Plan {
        name: Word::from_bytes(alloc, b"LAMP")?,
        version: 1,
        texts: Listed::new(alloc),
        dependencies: Listed::new(alloc),
        characteristics: Listed::new(alloc),
        objects: Listed::new(alloc),
        domains: domains(alloc)?,
        tables: Listed::new(alloc),
        slots: Listed::new(alloc),
        vars: variables(alloc)?,
        sets: sets(alloc)?,
        conditions: Listed::new(alloc),
        terms: Listed::new(alloc),
        rules: Listed::new(alloc),
        procedures: Listed::new(alloc),
        lines: Listed::new(alloc),
        operations: Listed::new(alloc),
        guards: Listed::new(alloc),
        requirements: Listed::new(alloc),
    })
}

// Whether what is chosen is what was put last, text by text.
fn keeps_what_is_put(users: &mut UserValues) -> bool
    requires { length users.old.values ≡ 1 }
{
    users.put(0, Some(Value::Text(9)));
    users.put_text(0, 5, true);
    users.put_text(0, 6, true);
    users.put_text(0, 6, false);
    users.put_text(0, 8, true);
    users.put_text(1, 4, true);
    let chosen = users.value(0) == Some(Value::Text(9)) && users.value(1) == None;
    let held = users.holds(0, 5) && !users.holds(0, 4) && !users.holds(0, 6);
    let listed = users.texts(0).len() == 3 && users.texts(1).len() == 0;
    let outside = users.holds(0, 8) || users.holds(1, 4);
    users.put(0, None);
    users.clear(0);
    chosen && held && listed && !outside && users.value(0) == None && !users.holds(0, 5)
}

#[test]
fn keeps_what_the_user_chose(rt: HostRuntime) -> Result<(), Fail> {
    let plan = plan(rt.alloc())?;
    let begun = UserValues::new(rt.alloc(), &plan);
    drop(plan);
    let mut users = begun?;
    assert!(rt; keeps_what_is_put(&mut users));
    Ok(())
}
