//! A variable of three texts, restricted against a literal.

ghost use Rattle.std.specs.Prelude.{◌≡◌, true, [], ◌∷◌, IfOk};
ghost use Rattle.vc_value.specs.declared.table_header.Domain.TheVariants.{Texts};
ghost use Rattle.vc_rule_grains.specs.Finding.{GrainsFit};

use std::alloc::Global;
use std::process::Abort;
use std::test::Fail;
use vc_plan::{Atom, Plan, Relation, Term, Var, View};
use vc_plan_values::TermValue;
use vc_rule_sides::comparing::MayRelate;
use vc_rule_sides::sides::confine_by;
use vc_rule_yield::Yield;
use vc_value::{Domain, Listed, Value, Word};

// Variable 1 has text 1, no other variable has a value, and no grain is out.
#[derive(Drop)]
struct SecondText;

impl View for SecondText {
    ghost use Rattle.std.specs.Prelude.{true, false, ◌==◌, if◌then◌else◌, None, Some};
    ghost use Rattle.vc_value.specs.declared.value.Value.TheVariants.{Text};

    ghost seen = { λ s. record {
      here = λ i. true;
      out = λ v g. false;
      value = λ v. if v == 1 then Some (Text 1)
          else None;
    } };

    fn here(&self, _slot: u32) -> bool {
        true
    }

    fn out(&self, _var: u32, _grain: u32) -> bool {
        false
    }

    fn value(&self, var: u32) -> Option<Value> {
        if var == 1 { Some(Value::Text(1)) } else { None }
    }
}

fn domains<R: Abort>(rt: &R, alloc: Global) -> Listed<Domain>
    ensures { result ≡ Texts (0 ∷ 1 ∷ 2 ∷ []) ∷ [] }
{
    let mut texts = Listed::new(alloc);
    texts.push(0).expect(rt, "memory");
    texts.push(1).expect(rt, "memory");
    texts.push(2).expect(rt, "memory");
    let mut domains = Listed::new(alloc);
    domains.push(Domain::Texts(texts)).expect(rt, "memory");
    domains
}

fn variables<R: Abort>(rt: &R, alloc: Global) -> Listed<Var>
    ensures { result ≡ record { slot = 0; characteristic = 0; domain = 0; restrictable = true }
        ∷ (record { slot = 0; characteristic = 1; domain = 0; restrictable = true } ∷ []) }
{
    let mut vars = Listed::new(alloc);
    vars.push(Var {
        slot: 0,
        characteristic: 0,
        domain: 0,
        restrictable: true,
    })
    .expect(rt, "memory");
    vars.push(Var {
        slot: 0,
        characteristic: 1,
        domain: 0,
        restrictable: true,
    })
    .expect(rt, "memory");
    vars
}

fn plan_of_two<R: Abort>(rt: &R, alloc: Global) -> Plan
    ensures { GrainsFit result }
{
    let mut terms = Listed::new(alloc);
    terms.push(Term::Read(0)).expect(rt, "memory");
    terms.push(Term::Read(1)).expect(rt, "memory");
    Plan {
        name: Word::from_bytes(alloc, b"LAMP").expect(rt, "memory"),
        version: 1,
        texts: Listed::new(alloc),
        dependencies: Listed::new(alloc),
        characteristics: Listed::new(alloc),
        objects: Listed::new(alloc),
        domains: domains(rt, alloc),
        tables: Listed::new(alloc),
        slots: Listed::new(alloc),
        vars: variables(rt, alloc),
        sets: Listed::new(alloc),
        conditions: Listed::new(alloc),
        terms,
        rules: Listed::new(alloc),
        procedures: Listed::new(alloc),
        lines: Listed::new(alloc),
        operations: Listed::new(alloc),
        guards: Listed::new(alloc),
        requirements: Listed::new(alloc),
    }
}

#[test]
fn confines_by_the_other_side(rt: HostRuntime) -> Result<(), Fail> {
    let plan = plan_of_two(&rt, rt.alloc());
    let unequal = MayRelate {
        relation: Relation::Unequal,
        value: TermValue::Text(1),
    };
    let mut out = Yield::new(rt.alloc(), 9, 9, 9)?;
    confine_by(&plan, &SecondText, 0, &unequal, 1, &mut out);
    assert_eq!(rt; out.count(), 1);
    assert_eq!(rt; out.atom(0), Atom::Out(0, 1));
    assert_eq!(rt; out.premises(0), [Atom::Is(1, Value::Text(1))].as_slice());
    Ok(())
}
