//! A model of one object with a procedure, compiled; and one whose object is a component of itself.

use std::alloc::Global;
use std::process::Abort;
use std::test::Fail;
use vc_compile::compile;
use vc_compile::sizes::has_too_many_atoms;
use vc_compile_plan::CompileFault;
use vc_model_parts::parts::{
    BillItem, Characteristic, Class, Component, Model, NamedDependency, Net, Object, Operation,
    Table,
};
use vc_plan::Plan;
use vc_syntax_tree::{Dependency, NumberLeaf, Statement, Term};
use vc_table::VariantTable;
use vc_value::{Dec, Listed, Word};

fn word<R: Abort>(rt: &R, alloc: Global, text: &str) -> Word {
    Word::from_bytes(alloc, text.as_bytes()).expect(rt, "memory")
}

fn classes<R: Abort>(rt: &R, alloc: Global) -> Listed<Class> {
    let mut classes = Listed::new(alloc);
    classes
        .push(Class {
            name: word(rt, alloc, "K"),
            members: Listed::new(alloc),
        })
        .expect(rt, "memory");
    classes
}

fn dependencies<R: Abort>(rt: &R, alloc: Global) -> Listed<NamedDependency> {
    let statements: Listed<Statement> = Listed::new(alloc);
    let mut dependencies = Listed::new(alloc);
    dependencies
        .push(NamedDependency {
            name: word(rt, alloc, "P_IDLE"),
            tree: Dependency::Procedure(statements),
            line: 1,
        })
        .expect(rt, "memory");
    dependencies
}

fn one<R: Abort>(rt: &R, alloc: Global) -> Box<Term> {
    let leaf = NumberLeaf {
        number: Dec {
            millionths: 1_000_000,
        },
        start: 0,
        end: 1,
    };
    Box::new(alloc, Term::Number(leaf)).expect(rt, "memory")
}

// A line whose component is the object itself.
fn own_line<R: Abort>(rt: &R, alloc: Global) -> BillItem {
    BillItem {
        item: 10,
        component: Component::Object(0),
        unit: word(rt, alloc, "PC"),
        quantity: one(rt, alloc),
        uses: Listed::new(alloc),
        line: 2,
    }
}

fn bill<R: Abort>(rt: &R, alloc: Global, is_own: bool) -> Listed<BillItem> {
    let mut bill = Listed::new(alloc);
    if is_own {
        bill.push(own_line(rt, alloc)).expect(rt, "memory");
    }
    bill
}

fn objects<R: Abort>(rt: &R, alloc: Global, is_own: bool) -> Listed<Object> {
    let operations: Listed<Operation> = Listed::new(alloc);
    let mut procedures = Listed::new(alloc);
    procedures.push(0).expect(rt, "memory");
    let mut objects = Listed::new(alloc);
    objects
        .push(Object {
            material: word(rt, alloc, "M"),
            class: 0,
            nets: Listed::new(alloc),
            procedures,
            bill: bill(rt, alloc, is_own),
            operations,
        })
        .expect(rt, "memory");
    objects
}

fn model<R: Abort>(rt: &R, alloc: Global, is_own: bool) -> Model {
    let characteristics: Listed<Characteristic> = Listed::new(alloc);
    let tables: Listed<Table> = Listed::new(alloc);
    let nets: Listed<Net> = Listed::new(alloc);
    Model {
        name: word(rt, alloc, "M"),
        version: 1,
        characteristics,
        texts: Listed::new(alloc),
        classes: classes(rt, alloc),
        tables,
        dependencies: dependencies(rt, alloc),
        nets,
        objects: objects(rt, alloc, is_own),
        root: 0,
    }
}

fn compiled<R: Abort>(rt: &R, alloc: Global, is_own: bool) -> Result<Plan, CompileFault> {
    let model = model(rt, alloc, is_own);
    let tables: Listed<VariantTable> = Listed::new(alloc);
    let plan = compile(alloc, &model, tables.as_slice());
    drop(tables);
    drop(model);
    plan
}

fn is_as_wanted(plan: &Plan) -> bool {
    plan.slots.len() == 1
        && plan.procedures.len() == 1
        && plan.rules.is_empty()
        && !has_too_many_atoms(plan)
}

#[test]
fn a_model_has_a_plan_or_a_fault(rt: HostRuntime) -> Result<(), Fail> {
    let plan = compiled(&rt, rt.alloc(), false);
    assert!(rt; plan.is_ok_and(|plan| is_as_wanted(&plan)));
    let refused = compiled(&rt, rt.alloc(), true);
    assert!(rt; matches!(refused, Err(CompileFault::TooDeep)));
    Ok(())
}
