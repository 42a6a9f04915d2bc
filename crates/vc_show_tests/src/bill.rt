//! A root with three lines, of which one is a component with a line of its own and one has a selection condition that
//! is unknown. No variable has a value, so one quantity and the time are missing.

ghost use Rattle.std.specs.Prelude.{◌≡◌, ◌∷◌, [], true, false, pos, length, IfOk};
ghost use Rattle.vc_value.specs.declared.table_header.Domain.TheVariants.{Texts};
ghost use Rattle.vc_value.specs.declared.value.Value.TheVariants.{Num, Text};
ghost use Rattle.vc_plan.specs.declared.conditions.Condition.TheVariants.{Compared};
ghost use Rattle.vc_plan.specs.declared.conditions.Relation.TheVariants.{Equal};
ghost use Rattle.vc_plan.specs.declared.terms.Term.TheVariants.{Literal, Read};
ghost use Rattle.vc_bill.specs.Fitting.{BillFits, lines_by_slot};

use std::alloc::Global;
use std::process::Abort;
use std::test::Fail;
use vc_bill::{bill_lines, operations, print_bill, print_routing};
use vc_plan::{
    Condition, Line, Operation, Plan, Reading, Relation, Selection, Slot, Term, Var, View,
};
use vc_value::{Dec, Domain, Listed, Value, Word};

// Says that the root is here, and whether its component is.
#[derive(Drop)]
struct Placed {
    component: bool,
}

impl View for Placed {
    ghost use Rattle.std.specs.Prelude.{false, ◌==◌, ◌||◌, None};

    ghost seen = { λ s. record { here = λ i. (i == 0) || s.component; out = λ v g. false; value = λ v. None } };

    fn here(&self, slot: u32) -> bool {
        slot == 0 || self.component
    }

    fn out(&self, _var: u32, _grain: u32) -> bool {
        false
    }

    fn value(&self, _var: u32) -> Option<Value> {
        None
    }
}

impl Reading for Placed {
    ghost use Rattle.std.specs.Prelude.{false};

    ghost holdings = { λ s set text. false };

    fn holds(&self, _set: u32, _text: u32) -> bool {
        false
    }
}

fn domains<R: Abort>(rt: &R, alloc: Global) -> Listed<Domain>
    ensures { result ≡ Texts (0 ∷ []) ∷ [] }
{
    let mut texts = Listed::new(alloc);
    texts.push(0).expect(rt, "memory");
    let mut domains = Listed::new(alloc);
    domains.push(Domain::Texts(texts)).expect(rt, "memory");
    domains
}

fn texts<R: Abort>(rt: &R, alloc: Global) -> Listed<Word>
    ensures { length result ≡ 1 }
{
    let mut texts = Listed::new(alloc);
    texts
        .push(Word::from_bytes(alloc, b"L").expect(rt, "memory"))
        .expect(rt, "memory");
    texts
}

fn variables<R: Abort>(rt: &R, alloc: Global) -> Listed<Var>
    ensures { result ≡ record { slot = 0; characteristic = 0; domain = 0; restrictable = false }
        ∷ [] }
{
    let mut vars = Listed::new(alloc);
    vars.push(Var {
        slot: 0,
        characteristic: 0,
        domain: 0,
        restrictable: false,
    })
    .expect(rt, "memory");
    vars
}

fn slots<R: Abort>(rt: &R, alloc: Global) -> Listed<Slot>
    ensures { length result ≡ 2 }
{
    let mut slots = Listed::new(alloc);
    slots
        .push(Slot {
            parent: None,
            depth: 0,
            object: 0,
            line: 0,
        })
        .expect(rt, "memory");
    slots
        .push(Slot {
            parent: Some(0),
            depth: 1,
            object: 1,
            line: 1,
        })
        .expect(rt, "memory");
    slots
}

fn conditions<R: Abort>(rt: &R, alloc: Global) -> Listed<Condition>
    ensures { result ≡ Compared Equal (Read 0) (Literal (Text 0)) ∷ [] }
{
    let mut conditions = Listed::new(alloc);
    conditions
        .push(Condition::Compared(
            Relation::Equal,
            Term::Read(0),
            Term::Literal(Value::Text(0)),
        ))
        .expect(rt, "memory");
    conditions
}

fn terms<R: Abort>(rt: &R, alloc: Global) -> Listed<Term>
    ensures { result ≡ Literal (Num (record { millionths = pos 1_000_000 }))
        ∷ Literal (Num (record { millionths = pos 2_500_000 })) ∷ Read 0 ∷ [] }
{
    let mut terms = Listed::new(alloc);
    terms
        .push(Term::Literal(Value::Num(Dec {
            millionths: 1_000_000,
        })))
        .expect(rt, "memory");
    terms
        .push(Term::Literal(Value::Num(Dec {
            millionths: 2_500_000,
        })))
        .expect(rt, "memory");
    terms.push(Term::Read(0)).expect(rt, "memory");
    terms
}

fn line<R: Abort>(
    rt: &R,
    alloc: Global,
    slot: u32,
    item: u32,
    material: &str,
    quantity: u32,
    selections: Listed<Selection>,
) -> Line
    ensures { result.slot ≡ slot }
{
    Line {
        slot,
        item,
        material: Word::from_bytes(alloc, material.as_bytes()).expect(rt, "memory"),
        unit: Word::from_bytes(alloc, b"PC").expect(rt, "memory"),
        quantity,
        selections,
    }
}

fn large<R: Abort>(rt: &R, alloc: Global) -> Listed<Selection> {
    let mut selections = Listed::new(alloc);
    selections
        .push(Selection {
            dependency: 0,
            condition: 0,
        })
        .expect(rt, "memory");
    selections
}

fn lines<R: Abort>(rt: &R, alloc: Global) -> Listed<Line>
    ensures ordered { lines_by_slot result ≡ true }
    ensures few { length result ≡ 4 }
{
    let mut lines = Listed::new(alloc);
    lines
        .push(line(rt, alloc, 0, 10, "HOUSING", 0, Listed::new(alloc)))
        .expect(rt, "memory");
    lines
        .push(line(rt, alloc, 0, 20, "DRIVE", 1, Listed::new(alloc)))
        .expect(rt, "memory");
    lines
        .push(line(rt, alloc, 0, 30, "SEAL", 0, large(rt, alloc)))
        .expect(rt, "memory");
    lines
        .push(line(rt, alloc, 1, 10, "BOLT", 2, Listed::new(alloc)))
        .expect(rt, "memory");
    lines
}

fn assembly<R: Abort>(rt: &R, alloc: Global) -> Listed<Operation>
    ensures { length result ≡ 1 }
{
    let mut operations = Listed::new(alloc);
    operations
        .push(Operation {
            slot: 0,
            number: 10,
            name: Word::from_bytes(alloc, b"ASSY").expect(rt, "memory"),
            unit: Word::from_bytes(alloc, b"MIN").expect(rt, "memory"),
            time: 2,
            selections: Listed::new(alloc),
        })
        .expect(rt, "memory");
    operations
}

fn plan<R: Abort>(rt: &R, alloc: Global) -> Plan
    ensures { BillFits result }
{
    Plan {
        name: Word::from_bytes(alloc, b"MACH").expect(rt, "memory"),
        version: 1,
        texts: texts(rt, alloc),
        dependencies: Listed::new(alloc),
        characteristics: Listed::new(alloc),
        objects: Listed::new(alloc),
        domains: domains(rt, alloc),
        tables: Listed::new(alloc),
        slots: slots(rt, alloc),
        vars: variables(rt, alloc),
        sets: Listed::new(alloc),
        conditions: conditions(rt, alloc),
        terms: terms(rt, alloc),
        rules: Listed::new(alloc),
        procedures: Listed::new(alloc),
        lines: lines(rt, alloc),
        operations: assembly(rt, alloc),
        guards: Listed::new(alloc),
        requirements: Listed::new(alloc),
    }
}

// The texts by themselves, so that a test doesn't compute what the calls ensure.
fn bill_is<R: Abort>(rt: &R, alloc: Global, plan: &Plan, component: bool, wanted: &str) -> bool
    requires { BillFits plan.now }
{
    let rows = bill_lines(alloc, plan, &Placed { component }).expect(rt, "memory");
    let text = print_bill(alloc, plan, rows.as_slice()).expect(rt, "memory");
    text.is(wanted.as_bytes())
}

fn routing_is<R: Abort>(rt: &R, alloc: Global, plan: &Plan, wanted: &str) -> bool
    requires { BillFits plan.now }
{
    let rows = operations(alloc, plan, &Placed { component: false }).expect(rt, "memory");
    let text = print_routing(alloc, plan, rows.as_slice()).expect(rt, "memory");
    text.is(wanted.as_bytes())
}

#[test]
fn prints_bills(rt: HostRuntime) -> Result<(), Fail> {
    let plan = plan(&rt, rt.alloc());
    let with = "1 0010 HOUSING 1 PC\n1 0020 DRIVE 2.5 PC\n2 0010 BOLT ? PC\n";
    assert!(rt; bill_is(&rt, rt.alloc(), &plan, true, with));
    assert!(rt; bill_is(&rt, rt.alloc(), &plan, false, "1 0010 HOUSING 1 PC\n"));
    drop(plan);
    Ok(())
}

#[test]
fn prints_routings(rt: HostRuntime) -> Result<(), Fail> {
    let plan = plan(&rt, rt.alloc());
    assert!(rt; routing_is(&rt, rt.alloc(), &plan, "0 0010 ASSY ? MIN\n"));
    drop(plan);
    Ok(())
}
