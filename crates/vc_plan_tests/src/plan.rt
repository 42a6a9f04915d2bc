//! Counts of a lamp: one slot, and a variable of three texts.

ghost use Rattle.std.specs.Prelude.{◌≡◌, ◌^◌, ◌<◌, false, [], ◌∷◌, IfOk};
ghost use Rattle.vc_value.specs.declared.table_header.Domain.TheVariants.{Texts};
ghost use Rattle.vc_plan.specs.Domains.{atom_count};

use std::alloc::{AllocError, Global};
use std::test::Fail;
use vc_plan::counts::{atom_count, count_of, stages};
use vc_plan::plans::{Plan, Slot, Var};
use vc_value::{Domain, Listed, Word};

fn domains(alloc: Global) -> Result<Listed<Domain>, AllocError>
    ensures { IfOk result (λ domains. domains ≡ Texts (0 ∷ 1 ∷ 2 ∷ []) ∷ []) }
{
    let mut texts = Listed::new(alloc);
    texts.push(0)?;
    texts.push(1)?;
    texts.push(2)?;
    let mut domains = Listed::new(alloc);
    domains.push(Domain::Texts(texts))?;
    Ok(domains)
}

fn variables(alloc: Global) -> Result<Listed<Var>, AllocError>
    ensures { IfOk result (λ vars. vars ≡ record { slot = 0; characteristic = 0; domain = 0; restrictable = false }
        ∷ []) }
{
    let mut vars = Listed::new(alloc);
    vars.push(Var {
        slot: 0,
        characteristic: 0,
        domain: 0,
        restrictable: false,
    })?;
    Ok(vars)
}

fn lamp(alloc: Global) -> Result<Plan, AllocError>
    ensures { IfOk result (λ plan. atom_count plan < 2 ^ 32) }
{
    let mut slots = Listed::new(alloc);
    slots.push(Slot {
        parent: None,
        depth: 0,
        object: 0,
        line: 0,
    })?;
    Ok(Plan {
        name: Word::from_bytes(alloc, b"LAMP")?,
        version: 1,
        texts: Listed::new(alloc),
        dependencies: Listed::new(alloc),
        characteristics: Listed::new(alloc),
        objects: Listed::new(alloc),
        domains: domains(alloc)?,
        tables: Listed::new(alloc),
        slots,
        vars: variables(alloc)?,
        sets: Listed::new(alloc),
        conditions: Listed::new(alloc),
        terms: Listed::new(alloc),
        rules: Listed::new(alloc),
        procedures: Listed::new(alloc),
        lines: Listed::new(alloc),
        operations: Listed::new(alloc),
        guards: Listed::new(alloc),
        requirements: Listed::new(alloc),
    })
}

#[test]
fn counts_a_lamp(rt: HostRuntime) -> Result<(), Fail> {
    let plan = lamp(rt.alloc())?;
    assert_eq!(rt; count_of(&plan, 0), 3);
    assert_eq!(rt; count_of(&plan, 1), 0);
    assert_eq!(rt; atom_count(&plan), 5);
    assert_eq!(rt; stages(&plan), 3);
    Ok(())
}
