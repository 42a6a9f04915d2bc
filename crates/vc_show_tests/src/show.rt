//! A variable without a value and a set of two texts, at readings that differ in the user's texts alone. The set's
//! first precondition is unknown; the second guards text 1 and is false. The variable is asked for where the set has
//! a text.

ghost use Rattle.std.specs.Prelude.{◌≡◌, ◌∷◌, [], None, Some};
ghost use Rattle.vc_value.specs.declared.value.Value.TheVariants.{Text};
ghost use Rattle.vc_plan.specs.declared.conditions.Condition.TheVariants.{Compared, Filled, Specified};
ghost use Rattle.vc_plan.specs.declared.conditions.Piece.TheVariants.{OneText};
ghost use Rattle.vc_plan.specs.declared.conditions.Relation.TheVariants.{Equal};
ghost use Rattle.vc_plan.specs.declared.plans.Named.TheVariants.{Set};
ghost use Rattle.vc_plan.specs.declared.terms.Term.TheVariants.{Literal, Read};
ghost use Rattle.vc_show.specs.Fitting.{ShownFits};

use crate::fixtures::{Chosen, domains, sets, texts, variables};
use std::alloc::Global;
use std::process::Abort;
use std::test::Fail;
use vc_plan::{
    Condition, Culprit, Guard, Named, Piece, Plan, Relation, Requirement, Selection, Status, Term,
};
use vc_show::asking::marked_vars;
use vc_show::{hidden, hidden_value, required, status_of};
use vc_value::{Listed, Value, Word};

// Whether the variable is text 0, whether it has a value, and whether the set has a text.
fn conditions<R: Abort>(rt: &R, alloc: Global) -> Listed<Condition>
    ensures { result ≡
        Compared Equal (Read 0) (Literal (Text 0)) ∷ Specified 0 ∷ Filled 0 ∷ [] }
{
    let mut conditions = Listed::new(alloc);
    conditions
        .push(Condition::Compared(
            Relation::Equal,
            Term::Read(0),
            Term::Literal(Value::Text(0)),
        ))
        .expect(rt, "memory");
    conditions
        .push(Condition::Specified(0))
        .expect(rt, "memory");
    conditions.push(Condition::Filled(0)).expect(rt, "memory");
    conditions
}

fn guards<R: Abort>(rt: &R, alloc: Global) -> Listed<Guard>
    ensures { result ≡
        record { at = Set 0; value = None; dependency = 0; condition = 0 }
        ∷ record { at = Set 0; value = Some (OneText 1); dependency = 1; condition = 1 } ∷ [] }
{
    let mut guards = Listed::new(alloc);
    guards
        .push(Guard {
            at: Named::Set(0),
            value: None,
            dependency: 0,
            condition: 0,
        })
        .expect(rt, "memory");
    guards
        .push(Guard {
            at: Named::Set(0),
            value: Some(Piece::OneText(1)),
            dependency: 1,
            condition: 1,
        })
        .expect(rt, "memory");
    guards
}

fn requirements<R: Abort>(rt: &R, alloc: Global) -> Listed<Requirement> {
    let mut requirements = Listed::new(alloc);
    requirements
        .push(Requirement {
            at: Named::Var(0),
            selection: Selection {
                dependency: 2,
                condition: 2,
            },
        })
        .expect(rt, "memory");
    requirements
}

fn plan<R: Abort>(rt: &R, alloc: Global) -> Plan
    ensures { ShownFits result }
{
    Plan {
        name: Word::from_bytes(alloc, b"PAINT").expect(rt, "memory"),
        version: 1,
        texts: texts(rt, alloc),
        dependencies: Listed::new(alloc),
        characteristics: Listed::new(alloc),
        objects: Listed::new(alloc),
        domains: domains(rt, alloc),
        tables: Listed::new(alloc),
        slots: Listed::new(alloc),
        vars: variables(rt, alloc),
        sets: sets(rt, alloc),
        conditions: conditions(rt, alloc),
        terms: Listed::new(alloc),
        rules: Listed::new(alloc),
        procedures: Listed::new(alloc),
        lines: Listed::new(alloc),
        operations: Listed::new(alloc),
        guards: guards(rt, alloc),
        requirements: requirements(rt, alloc),
    }
}

// The calls by themselves, so that a test doesn't compute what they ensure.
fn status<R: Abort>(rt: &R, alloc: Global, plan: &Plan, text: u32) -> Status
    requires { ShownFits plan.now }
{
    let marked = marked_vars(alloc, plan).expect(rt, "memory");
    let status = status_of(plan, &Chosen { text }, marked.as_slice());
    drop(marked);
    status
}

fn is_hidden(plan: &Plan, text: u32) -> bool
    requires { ShownFits plan.now }
{
    hidden(plan, &Chosen { text }, Named::Set(0))
}

fn is_text_hidden(plan: &Plan, number: u32) -> bool
    requires { ShownFits plan.now }
{
    hidden_value(plan, &Chosen { text: 0 }, Named::Set(0), number)
}

fn is_required(plan: &Plan, text: u32) -> bool
    requires { ShownFits plan.now }
{
    required(plan, &Chosen { text }, Named::Var(0))
}

#[test]
fn tells_what_is_hidden(rt: HostRuntime) -> Result<(), Fail> {
    let plan = plan(&rt, rt.alloc());
    assert!(rt; !is_hidden(&plan, 0));
    assert!(rt; !is_text_hidden(&plan, 0));
    assert!(rt; is_text_hidden(&plan, 1));
    assert!(rt; !is_text_hidden(&plan, 2));
    drop(plan);
    Ok(())
}

#[test]
fn tells_the_status(rt: HostRuntime) -> Result<(), Fail> {
    let plan = plan(&rt, rt.alloc());
    assert!(rt; !is_required(&plan, 2));
    assert!(rt; is_required(&plan, 0));
    assert_eq!(rt; status(&rt, rt.alloc(), &plan, 2), Status::Complete);
    assert_eq!(rt; status(&rt, rt.alloc(), &plan, 0), Status::Unfinished);
    assert_eq!(rt;
        status(&rt, rt.alloc(), &plan, 1),
        Status::Contradiction(Culprit::HiddenSet {
            dependency: 1,
            set: 0
        })
    );
    drop(plan);
    Ok(())
}
