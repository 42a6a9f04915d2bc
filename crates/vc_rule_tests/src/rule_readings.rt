//! What is read at a stage in which slots 0 and 1 are here, no variable has a value, and sets have text 1 alone.

ghost use Rattle.std.specs.Prelude.{◌≡◌, pos, [], ◌∷◌, length, IfOk};
ghost use Rattle.vc_value.specs.declared.value.Value.TheVariants.{Num};
ghost use Rattle.vc_plan.specs.declared.terms.Term.TheVariants.{Literal};
ghost use Rattle.vc_rule_readings.specs.Summing.{SumsFit};

use std::alloc::{AllocError, Global};
use std::test::Fail;
use vc_plan::{Condition, Kleene, Line, Mark, Plan, Reading, Slot, Term, TextSet, View};
use vc_plan_values::TermValue;
use vc_rule_readings::parts::{part_count, part_sum};
use vc_rule_readings::sets::{set_filled, set_holds};
use vc_rule_readings::{
    Marks, amount, full_truth, procedure_number, procedure_truth, procedure_value,
};
use vc_value::{Dec, Domain, Listed, Value, Word};
use vc_value_wide::Wide;

#[derive(Drop)]
struct Stage;

impl View for Stage {
    ghost use Rattle.std.specs.Prelude.{false, nat_lt, None};

    ghost seen = { λ s. record { here = λ i. nat_lt i 2; out = λ v g. false; value = λ v. None } };

    fn here(&self, slot: u32) -> bool {
        slot < 2
    }

    fn out(&self, _var: u32, _grain: u32) -> bool {
        false
    }

    fn value(&self, _var: u32) -> Option<Value> {
        None
    }
}

impl Reading for Stage {
    ghost use Rattle.std.specs.Prelude.{◌==◌};

    ghost holdings = { λ s set text. text == 1 };

    fn holds(&self, _set: u32, text: u32) -> bool {
        text == 1
    }
}

// Nothing was written.
#[derive(Drop)]
struct Nothing;

impl Marks for Nothing {
    ghost use Rattle.std.specs.Prelude.{[]};

    ghost entries = { λ s. [] };

    fn mark(&self, _var: u32) -> Option<Mark> {
        None
    }
}

fn decimal(millionths: i64) -> Dec {
    Dec { millionths }
}

// A plan whose set 0 may have texts 0 and 1.
fn plan_of_a_set(alloc: Global) -> Result<Plan, AllocError> {
    let mut texts = Listed::new(alloc);
    texts.push(0)?;
    texts.push(1)?;
    let mut domains = Listed::new(alloc);
    domains.push(Domain::Texts(texts))?;
    let mut sets = Listed::new(alloc);
    sets.push(TextSet {
        slot: 0,
        characteristic: 0,
        domain: 0,
    })?;
    Ok(Plan {
        name: Word::from_bytes(alloc, b"LAMP")?,
        version: 1,
        texts: Listed::new(alloc),
        dependencies: Listed::new(alloc),
        characteristics: Listed::new(alloc),
        objects: Listed::new(alloc),
        domains,
        tables: Listed::new(alloc),
        slots: Listed::new(alloc),
        vars: Listed::new(alloc),
        sets,
        conditions: Listed::new(alloc),
        terms: Listed::new(alloc),
        rules: Listed::new(alloc),
        procedures: Listed::new(alloc),
        lines: Listed::new(alloc),
        operations: Listed::new(alloc),
        guards: Listed::new(alloc),
        requirements: Listed::new(alloc),
    })
}

#[test]
fn reads_sets(rt: HostRuntime) -> Result<(), Fail> {
    let plan = plan_of_a_set(rt.alloc())?;
    assert_eq!(rt; set_holds(&plan, &Stage, 0, 1), Kleene::True);
    assert_eq!(rt; set_holds(&plan, &Stage, 0, 0), Kleene::False);
    assert_eq!(rt; set_holds(&plan, &Stage, 1, 1), Kleene::Unknown);
    assert_eq!(rt; set_filled(&plan, &Stage, 0), Kleene::True);
    assert_eq!(rt; set_filled(&plan, &Stage, 1), Kleene::False);
    Ok(())
}

fn slots(alloc: Global) -> Result<Listed<Slot>, AllocError>
    ensures { IfOk result (λ slots. length slots ≡ 2) }
{
    let mut slots = Listed::new(alloc);
    slots.push(Slot {
        parent: None,
        depth: 0,
        object: 0,
        line: 0,
    })?;
    slots.push(Slot {
        parent: Some(0),
        depth: 1,
        object: 0,
        line: 0,
    })?;
    Ok(slots)
}

fn lines(alloc: Global) -> Result<Listed<Line>, AllocError> {
    let mut lines = Listed::new(alloc);
    lines.push(Line {
        slot: 0,
        item: 10,
        material: Word::from_bytes(alloc, b"BULB")?,
        unit: Word::from_bytes(alloc, b"PC")?,
        quantity: 0,
        selections: Listed::new(alloc),
    })?;
    Ok(lines)
}

fn terms(alloc: Global) -> Result<Listed<Term>, AllocError>
    ensures { IfOk result (λ terms. terms ≡ Literal (Num (record { millionths = pos 2_500_000 })) ∷ []) }
{
    let mut terms = Listed::new(alloc);
    terms.push(Term::Literal(Value::Num(Dec {
        millionths: 2_500_000,
    })))?;
    Ok(terms)
}

// A plan of a root with one part, of which it takes two and a half.
fn plan_of_a_part(alloc: Global) -> Result<Plan, AllocError>
    ensures { IfOk result (λ plan. SumsFit plan) }
{
    let slots = slots(alloc)?;
    let lines = lines(alloc)?;
    let mut conditions = Listed::new(alloc);
    conditions.push(Condition::Always)?;
    let terms = terms(alloc)?;
    Ok(Plan {
        name: Word::from_bytes(alloc, b"LAMP")?,
        version: 1,
        texts: Listed::new(alloc),
        dependencies: Listed::new(alloc),
        characteristics: Listed::new(alloc),
        objects: Listed::new(alloc),
        domains: Listed::new(alloc),
        tables: Listed::new(alloc),
        slots,
        vars: Listed::new(alloc),
        sets: Listed::new(alloc),
        conditions,
        terms,
        rules: Listed::new(alloc),
        procedures: Listed::new(alloc),
        lines,
        operations: Listed::new(alloc),
        guards: Listed::new(alloc),
        requirements: Listed::new(alloc),
    })
}

#[test]
fn reads_parts(rt: HostRuntime) -> Result<(), Fail> {
    let plan = plan_of_a_part(rt.alloc())?;
    let two = Wide {
        millionths: 2_500_000,
    };
    let none = Wide { millionths: 0 };
    assert_eq!(rt; full_truth(&plan, &Stage, 0), Kleene::True);
    assert_eq!(rt; full_truth(&plan, &Stage, 1), Kleene::Unknown);
    assert_eq!(rt; amount(&plan, &Stage, 0), Some(decimal(2_500_000)));
    assert_eq!(rt; part_count(&plan, &Stage, 0), Some(two));
    assert_eq!(rt; part_count(&plan, &Stage, 1), Some(none));
    assert_eq!(rt; part_sum(&plan, &Stage, 0, 0), Some(none));
    assert_eq!(rt; procedure_truth(&plan, &Stage, &Nothing, 0), Kleene::True);
    assert_eq!(rt; procedure_number(&plan, &Stage, &Nothing, 0), Some(two));
    assert_eq!(rt;
        procedure_value(&plan, &Stage, &Nothing, 0),
        Some(TermValue::Number(two))
    );
    Ok(())
}
