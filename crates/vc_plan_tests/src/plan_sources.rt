//! Sources of a plan of two variables.

ghost use Rattle.std.specs.Prelude.{◌≡◌, length, IfOk};

use std::alloc::{AllocError, Global};
use std::test::Fail;
use vc_plan::{Mark, Plan, Var};
use vc_plan_sources::Sources;
use vc_value::{Dec, Listed, Value, Word};

fn variables(alloc: Global) -> Result<Listed<Var>, AllocError>
    ensures { IfOk result (λ vars. length vars ≡ 2) }
{
    let var = Var {
        slot: 0,
        characteristic: 0,
        domain: 0,
        restrictable: false,
    };
    let mut vars = Listed::new(alloc);
    vars.push(var)?;
    vars.push(var)?;
    Ok(vars)
}

fn plan_of_two(alloc: Global) -> Result<Plan, AllocError>
    ensures { IfOk result (λ plan. length plan.vars ≡ 2) }
{
    Ok(Plan {
        name: Word::from_bytes(alloc, b"LAMP")?,
        version: 1,
        texts: Listed::new(alloc),
        dependencies: Listed::new(alloc),
        characteristics: Listed::new(alloc),
        objects: Listed::new(alloc),
        domains: Listed::new(alloc),
        tables: Listed::new(alloc),
        slots: Listed::new(alloc),
        vars: variables(alloc)?,
        sets: Listed::new(alloc),
        conditions: Listed::new(alloc),
        terms: Listed::new(alloc),
        rules: Listed::new(alloc),
        procedures: Listed::new(alloc),
        lines: Listed::new(alloc),
        operations: Listed::new(alloc),
        guards: Listed::new(alloc),
        requirements: Listed::new(alloc),
    })
}

#[test]
fn keeps_what_is_set(rt: HostRuntime) -> Result<(), Fail> {
    let plan = plan_of_two(rt.alloc())?;
    let mut sources = Sources::new(rt.alloc(), &plan)?;
    assert_eq!(rt; sources.user(1), None);
    assert_eq!(rt; sources.written(1), None);
    sources.set_user(0, Some(Value::Text(4)));
    sources.set_written(1, Some((Mark::Outside, 2, 3)));
    assert_eq!(rt; sources.user(0), Some(Value::Text(4)));
    assert_eq!(rt; sources.user(1), None);
    assert_eq!(rt; sources.written(0), None);
    assert_eq!(rt; sources.written(1), Some((Mark::Outside, 2, 3)));
    let held = Mark::Held(Value::Num(Dec { millionths: 7 }));
    sources.set_written(0, Some((held, 0, 1)));
    sources.set_user(0, None);
    assert_eq!(rt; sources.user(0), None);
    assert_eq!(rt; sources.written(0), Some((held, 0, 1)));
    assert_eq!(rt; sources.user(2), None);
    Ok(())
}

// Whether sources of two variables that had a value are the others after a copy.
fn are_copied(alloc: Global, plan: &Plan, sources: &Sources) -> Result<bool, AllocError>
    requires vars { length plan.now.vars ≡ 2 }
    requires users { length sources.now.user ≡ 2 }
    requires entries { length sources.now.written ≡ 2 }
{
    let mut copy = Sources::new(alloc, plan)?;
    copy.set_user(0, Some(Value::Text(1)));
    copy.copy_from(sources);
    let same = copy.user(0) == sources.user(0) && copy.written(1) == sources.written(1);
    drop(copy);
    Ok(same)
}

fn copies_in(alloc: Global, plan: &Plan) -> Result<bool, AllocError>
    requires { length plan.now.vars ≡ 2 }
{
    let mut sources = Sources::new(alloc, plan)?;
    sources.set_written(1, Some((Mark::Outside, 2, 3)));
    let same = are_copied(alloc, plan, &sources);
    drop(sources);
    same
}

#[test]
fn copies_all(rt: HostRuntime) -> Result<(), Fail> {
    let plan = plan_of_two(rt.alloc())?;
    let same = copies_in(rt.alloc(), &plan);
    drop(plan);
    assert!(rt; same?);
    Ok(())
}
