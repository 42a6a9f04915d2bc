//! A plan for tests: a lamp of two colours, of which a constraint allows the first alone. It is valid, by a law.
#![tactic(auto)]

ghost use Rattle.std.specs.Prelude.{◌≡◌, ◌∷◌, [], codes, IfOk};
ghost use Rattle.vc_value.specs.declared.table_header.Domain.TheVariants.{Texts};
ghost use Rattle.vc_plan.specs.declared.conditions.Condition.TheVariants.{Always};
ghost use Rattle.vc_plan_lamp.specs.Lamp.{LampIsValid, chosen, colour, coloured, first_alone, lamp, last_left, root};

use std::alloc::{AllocError, Global};
use vc_plan::{
    Characteristic, Condition, Kind, Object, Plan, Relation, Restriction, Rule, Slot, Var,
};
use vc_value::{Domain, Listed, Value, Word};

/// The plan is valid.
pub fn lamp_is_valid()
    ensures { LampIsValid }
{}

fn both_texts(alloc: Global) -> Result<Domain, AllocError>
    ensures { IfOk result (λ domain. domain ≡ Texts (0 ∷ 1 ∷ [])) }
{
    let mut texts = Listed::new(alloc);
    texts.push(0)?;
    texts.push(1)?;
    Ok(Domain::Texts(texts))
}

fn words(alloc: Global) -> Result<Listed<Word>, AllocError>
    ensures { IfOk result (λ words. words ≡ codes "A" ∷ codes "B" ∷ []) }
{
    let mut words = Listed::new(alloc);
    words.push(Word::from_bytes(alloc, b"A")?)?;
    words.push(Word::from_bytes(alloc, b"B")?)?;
    Ok(words)
}

fn dependencies(alloc: Global) -> Result<Listed<Word>, AllocError>
    ensures { IfOk result (λ words. words ≡ codes "ONE" ∷ []) }
{
    let mut words = Listed::new(alloc);
    words.push(Word::from_bytes(alloc, b"ONE")?)?;
    Ok(words)
}

fn characteristics(alloc: Global) -> Result<Listed<Characteristic>, AllocError>
    ensures { IfOk result (λ all. all ≡ colour ∷ []) }
{
    let mut all = Listed::new(alloc);
    all.push(Characteristic {
        name: Word::from_bytes(alloc, b"COL")?,
        unit: None,
        required: false,
        list: both_texts(alloc)?,
    })?;
    Ok(all)
}

fn zero(alloc: Global) -> Result<Listed<u32>, AllocError>
    ensures { IfOk result (λ numbers. numbers ≡ 0 ∷ []) }
{
    let mut numbers = Listed::new(alloc);
    numbers.push(0)?;
    Ok(numbers)
}

fn objects(alloc: Global) -> Result<Listed<Object>, AllocError>
    ensures { IfOk result (λ all. all ≡ coloured ∷ []) }
{
    let mut all = Listed::new(alloc);
    all.push(Object {
        material: Word::from_bytes(alloc, b"LAMP")?,
        characteristics: zero(alloc)?,
    })?;
    Ok(all)
}

fn domains(alloc: Global) -> Result<Listed<Domain>, AllocError>
    ensures { IfOk result (λ all. all ≡ Texts (0 ∷ 1 ∷ []) ∷ []) }
{
    let mut all = Listed::new(alloc);
    all.push(both_texts(alloc)?)?;
    Ok(all)
}

fn slots(alloc: Global) -> Result<Listed<Slot>, AllocError>
    ensures { IfOk result (λ all. all ≡ root ∷ []) }
{
    let mut all = Listed::new(alloc);
    all.push(Slot {
        parent: None,
        depth: 0,
        object: 0,
        line: 0,
    })?;
    Ok(all)
}

fn vars(alloc: Global) -> Result<Listed<Var>, AllocError>
    ensures { IfOk result (λ all. all ≡ chosen ∷ []) }
{
    let mut all = Listed::new(alloc);
    all.push(Var {
        slot: 0,
        characteristic: 0,
        domain: 0,
        restrictable: true,
    })?;
    Ok(all)
}

fn conditions(alloc: Global) -> Result<Listed<Condition>, AllocError>
    ensures { IfOk result (λ all. all ≡ Always ∷ []) }
{
    let mut all = Listed::new(alloc);
    all.push(Condition::Always)?;
    Ok(all)
}

fn first_alone(alloc: Global) -> Result<Rule, AllocError>
    ensures { IfOk result (λ rule. rule ≡ first_alone) }
{
    Ok(Rule {
        dependency: Some(0),
        number: 1,
        slots: zero(alloc)?,
        condition: 0,
        inferred: zero(alloc)?,
        kind: Kind::Among(0, Restriction::Against(Relation::Equal, Value::Text(0))),
    })
}

fn rules(alloc: Global) -> Result<Listed<Rule>, AllocError>
    ensures { IfOk result (λ all. all ≡ first_alone ∷ last_left ∷ []) }
{
    let mut all = Listed::new(alloc);
    all.push(first_alone(alloc)?)?;
    all.push(Rule {
        dependency: None,
        number: 0,
        slots: Listed::new(alloc),
        condition: 0,
        inferred: Listed::new(alloc),
        kind: Kind::Last(0),
    })?;
    Ok(all)
}

/// The lamp's plan.
pub fn lamp(alloc: Global) -> Result<Plan, AllocError>
    ensures { IfOk result (λ plan. plan ≡ lamp) }
{
    Ok(Plan {
        name: Word::from_bytes(alloc, b"LAMP")?,
        version: 1,
        texts: words(alloc)?,
        dependencies: dependencies(alloc)?,
        characteristics: characteristics(alloc)?,
        objects: objects(alloc)?,
        domains: domains(alloc)?,
        tables: Listed::new(alloc),
        slots: slots(alloc)?,
        vars: vars(alloc)?,
        sets: Listed::new(alloc),
        conditions: conditions(alloc)?,
        terms: Listed::new(alloc),
        rules: rules(alloc)?,
        procedures: Listed::new(alloc),
        lines: Listed::new(alloc),
        operations: Listed::new(alloc),
        guards: Listed::new(alloc),
        requirements: Listed::new(alloc),
    })
}
