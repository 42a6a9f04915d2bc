//! Terms and conditions at a view that says one value. Counts are millionths.

ghost use Rattle.std.specs.Prelude.{◌≡◌, IfOk};
ghost use Rattle.vc_plan_values.specs.Computing.{TermsFit};

use std::alloc::{AllocError, Global};
use std::test::Fail;
use vc_plan::{Condition, Kleene, Piece, Plan, Relation, Term, View};
use vc_plan_values::{TermValue, is_inside, lies_in_some, opposite, relates, turned};
use vc_rule_terms::{conditions, number, numbers, term_value, truth};
use vc_value::{Dec, Grain, Listed, Value, Word};
use vc_value_wide::Wide;

// Says the value of variable 0 alone.
#[derive(Drop)]
struct OneValue {
    value: Option<Value>,
}

impl View for OneValue {
    ghost use Rattle.std.specs.Prelude.{true, false, ◌==◌, if◌then◌else◌, None};

    ghost seen = { λ s. record {
      here = λ i. true;
      out = λ v g. false;
      value = λ v. if v == 0 then s.value else
          None;
    } };

    fn here(&self, _slot: u32) -> bool {
        true
    }

    fn out(&self, _var: u32, _grain: u32) -> bool {
        false
    }

    fn value(&self, var: u32) -> Option<Value> {
        if var == 0 { self.value } else { None }
    }
}

fn decimal(millionths: i64) -> Value {
    Value::Num(Dec { millionths })
}

fn wide(millionths: i128) -> TermValue {
    TermValue::Number(Wide { millionths })
}

#[test]
fn relates_values(rt: HostRuntime) {
    for (relation, below, same, above) in [
        (Relation::Equal, false, true, false),
        (Relation::Unequal, true, false, true),
        (Relation::Less, true, false, false),
        (Relation::AtMost, true, true, false),
        (Relation::Greater, false, false, true),
        (Relation::AtLeast, false, true, true),
    ] {
        assert_eq!(rt; relates(relation, wide(-2), wide(-1)), below);
        assert_eq!(rt; relates(relation, wide(-1), wide(-1)), same);
        assert_eq!(rt; relates(relation, wide(0), wide(-1)), above);
        assert_eq!(rt; relates(turned(relation), wide(-1), wide(-2)), below);
        assert_eq!(rt; relates(opposite(relation), wide(-1), wide(-1)), !same);
    }
    assert!(rt; relates(Relation::Unequal, TermValue::Text(0), wide(0)));
    assert!(rt; !relates(Relation::AtMost, TermValue::Text(0), TermValue::Text(0)));
}

#[test]
fn relates_pieces(rt: HostRuntime) {
    let low = Dec { millionths: 5 };
    let high = Dec { millionths: 9 };
    let piece = Piece::Stretch(Grain { low, high });
    assert!(rt; is_inside(Relation::Less, wide(10), piece));
    assert!(rt; !is_inside(Relation::Less, wide(9), piece));
    assert!(rt; is_inside(Relation::AtLeast, wide(5), piece));
    assert!(rt; !is_inside(Relation::AtLeast, wide(6), piece));
    assert!(rt; !is_inside(Relation::Equal, wide(5), piece));
    assert!(rt; is_inside(Relation::Equal, TermValue::Text(2), Piece::OneText(2)));
    assert!(rt; lies_in_some(&[Piece::OneText(3), piece], decimal(9)));
    assert!(rt; !lies_in_some(&[Piece::OneText(9), piece], decimal(10)));
}

#[test]
fn asks_conditions(rt: HostRuntime) {
    let view = OneValue {
        value: Some(decimal(7)),
    };
    let less = Condition::Compared(Relation::Less, Term::Read(0), Term::Literal(decimal(8)));
    assert_eq!(rt; conditions::truth(&view, &less), Kleene::True);
    let more = Condition::Compared(Relation::Greater, Term::Read(0), Term::Literal(decimal(8)));
    assert_eq!(rt; conditions::truth(&view, &more), Kleene::False);
    let other = Condition::Compared(Relation::Less, Term::Read(1), Term::Literal(decimal(8)));
    assert_eq!(rt; conditions::truth(&view, &other), Kleene::Unknown);
    assert_eq!(rt;
        conditions::truth(&view, &Condition::Specified(0)),
        Kleene::True
    );
    assert_eq!(rt;
        conditions::truth(&view, &Condition::Specified(1)),
        Kleene::Unknown
    );
    assert_eq!(rt;
        numbers::number(&view, &Term::Read(0)).map(|found| found.millionths),
        Some(7)
    );
    assert_eq!(rt; numbers::number(&view, &Term::Read(1)), None);
}

fn plan_of_one(alloc: Global) -> Result<Plan, AllocError>
    ensures { IfOk result (λ plan. TermsFit plan) }
{
    let mut conditions = Listed::new(alloc);
    conditions.push(Condition::Always)?;
    Ok(Plan {
        name: Word::from_bytes(alloc, b"LAMP")?,
        version: 1,
        texts: Listed::new(alloc),
        dependencies: Listed::new(alloc),
        characteristics: Listed::new(alloc),
        objects: Listed::new(alloc),
        domains: Listed::new(alloc),
        tables: Listed::new(alloc),
        slots: Listed::new(alloc),
        vars: Listed::new(alloc),
        sets: Listed::new(alloc),
        conditions,
        terms: Listed::new(alloc),
        rules: Listed::new(alloc),
        procedures: Listed::new(alloc),
        lines: Listed::new(alloc),
        operations: Listed::new(alloc),
        guards: Listed::new(alloc),
        requirements: Listed::new(alloc),
    })
}

// Says nothing.
#[derive(Drop)]
struct Nothing;

impl View for Nothing {
    ghost use Rattle.std.specs.Prelude.{false, None};

    ghost seen = { λ s. record { here = λ i. false; out = λ v g. false; value = λ v. None } };

    fn here(&self, _slot: u32) -> bool {
        false
    }

    fn out(&self, _var: u32, _grain: u32) -> bool {
        false
    }

    fn value(&self, _var: u32) -> Option<Value> {
        None
    }
}

#[test]
fn asks_a_plan(rt: HostRuntime) -> Result<(), Fail> {
    let plan = plan_of_one(rt.alloc())?;
    assert_eq!(rt; truth(&plan, &Nothing, 0), Kleene::True);
    assert_eq!(rt; truth(&plan, &Nothing, 1), Kleene::Unknown);
    assert_eq!(rt; term_value(&plan, &Nothing, 0), None);
    assert_eq!(rt; number(&plan, &Nothing, 0), None);
    Ok(())
}
