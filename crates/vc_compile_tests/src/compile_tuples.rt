//! A constraint on two objects of one class, one of which is a part of the other, over three slots.

use std::alloc::Global;
use std::process::Abort;
use std::test::Fail;
use vc_compile_tuples::tuples_of;
use vc_model_parts::parts::{
    BillItem, Characteristic, Class, Model, NamedDependency, Net, Object, Operation, Table,
};
use vc_plan::Slot;
use vc_syntax_tree::{
    Alias, Apart, Condition, Constraint, NameLeaf, Object as Declared, ObjectKind, Operand,
    Restriction, ShortWord,
};
use vc_types_names::Names;
use vc_value::{Listed, Word};

fn word<R: Abort>(rt: &R, alloc: Global, text: &str) -> Word {
    Word::from_bytes(alloc, text.as_bytes()).expect(rt, "memory")
}

fn leaf<R: Abort>(rt: &R, alloc: Global, text: &str) -> NameLeaf {
    NameLeaf {
        name: ShortWord::from_bytes(alloc, text.as_bytes()).expect(rt, "memory"),
        start: 0,
        end: 1,
    }
}

fn declared<R: Abort>(rt: &R, alloc: Global, variable: &str) -> Declared {
    let aliases: Listed<Alias> = Listed::new(alloc);
    Declared {
        variable: leaf(rt, alloc, variable),
        kind: ObjectKind::Class(leaf(rt, alloc, "K")),
        aliases,
    }
}

// PART_OF ( ?Y , ?X ) AND SPECIFIED ?X.A
fn condition<R: Abort>(rt: &R, alloc: Global) -> Box<Condition> {
    let inner = Apart::new(alloc, leaf(rt, alloc, "Y")).expect(rt, "memory");
    let part = Condition::PartOf(inner, leaf(rt, alloc, "X"));
    let variable = Apart::new(alloc, leaf(rt, alloc, "X")).expect(rt, "memory");
    let operand = Operand::Member(variable, leaf(rt, alloc, "A"));
    let both = Condition::And(
        Box::new(alloc, part).expect(rt, "memory"),
        Box::new(alloc, Condition::Specified(operand)).expect(rt, "memory"),
    );
    Box::new(alloc, both).expect(rt, "memory")
}

fn constraint<R: Abort>(rt: &R, alloc: Global) -> Constraint {
    let restrictions: Listed<Restriction> = Listed::new(alloc);
    let inferences: Listed<Operand> = Listed::new(alloc);
    let mut objects = Listed::new(alloc);
    objects.push(declared(rt, alloc, "X")).expect(rt, "memory");
    objects.push(declared(rt, alloc, "Y")).expect(rt, "memory");
    Constraint {
        objects,
        condition: Some(condition(rt, alloc)),
        restrictions,
        inferences,
    }
}

fn objects<R: Abort>(rt: &R, alloc: Global) -> Listed<Object> {
    let bill: Listed<BillItem> = Listed::new(alloc);
    let operations: Listed<Operation> = Listed::new(alloc);
    let mut objects = Listed::new(alloc);
    objects
        .push(Object {
            material: word(rt, alloc, "M"),
            class: 0,
            nets: Listed::new(alloc),
            procedures: Listed::new(alloc),
            bill,
            operations,
        })
        .expect(rt, "memory");
    objects
}

fn model<R: Abort>(rt: &R, alloc: Global) -> Model {
    let characteristics: Listed<Characteristic> = Listed::new(alloc);
    let tables: Listed<Table> = Listed::new(alloc);
    let dependencies: Listed<NamedDependency> = Listed::new(alloc);
    let nets: Listed<Net> = Listed::new(alloc);
    let mut classes = Listed::new(alloc);
    classes
        .push(Class {
            name: word(rt, alloc, "K"),
            members: Listed::new(alloc),
        })
        .expect(rt, "memory");
    Model {
        name: word(rt, alloc, "M"),
        version: 1,
        characteristics,
        texts: Listed::new(alloc),
        classes,
        tables,
        dependencies,
        nets,
        objects: objects(rt, alloc),
        root: 0,
    }
}

fn slot(parent: Option<u32>, depth: u8) -> Slot {
    Slot {
        parent,
        depth,
        object: 0,
        line: 0,
    }
}

// The tuples over a root with two parts; none where there are more than so many.
fn tuples<R: Abort>(rt: &R, alloc: Global, most: usize) -> Option<Listed<Listed<u32>>> {
    let model = model(rt, alloc);
    let names = Names::new(alloc, &model).expect(rt, "memory");
    let constraint = constraint(rt, alloc);
    let slots = [slot(None, 0), slot(Some(0), 1), slot(Some(0), 1)];
    tuples_of(alloc, &names, slots.as_slice(), &constraint, most).expect(rt, "memory")
}

#[test]
fn parts_stand_below_their_wholes(rt: HostRuntime) -> Result<(), Fail> {
    let found = tuples(&rt, rt.alloc(), 2);
    let mut same = false;
    if let Some(all) = found {
        if let [first, second] = all.as_slice() {
            same = first.as_slice() == [0, 1].as_slice() && second.as_slice() == [0, 2].as_slice();
        }
    }
    assert!(rt; same);
    Ok(())
}

#[test]
fn more_than_so_many_are_none(rt: HostRuntime) -> Result<(), Fail> {
    assert!(rt; tuples(&rt, rt.alloc(), 1).is_none());
    Ok(())
}
