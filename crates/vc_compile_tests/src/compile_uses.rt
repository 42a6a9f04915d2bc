//! A model with a constraint in a net, a precondition at a value and a condition that nothing uses.

use std::alloc::Global;
use std::process::Abort;
use std::test::Fail;
use vc_compile_uses::{active_constraints, texts_of, used_dependencies};
use vc_model_parts::parts::{
    BillItem, Characteristic, Class, Model, NamedDependency, Net, Object, Operation, Table,
    TextValue, Values,
};
use vc_plan::Slot;
use vc_syntax_tree::{
    Apart, Condition, Constraint, Dependency, Item, NameLeaf, Object as Declared, Operand,
    Relation, Restriction, ShortWord, TextLeaf,
};
use vc_value::{Listed, Word};

fn word<R: Abort>(rt: &R, alloc: Global, text: &str) -> Word {
    Word::from_bytes(alloc, text.as_bytes()).expect(rt, "memory")
}

fn one<R: Abort>(rt: &R, alloc: Global, number: u32) -> Listed<u32> {
    let mut numbers = Listed::new(alloc);
    numbers.push(number).expect(rt, "memory");
    numbers
}

// OPT IN ( 'first' , 'second' )
fn condition<R: Abort>(rt: &R, alloc: Global, first: &str, second: &str) -> Box<Condition> {
    let mut items = Listed::new(alloc);
    for text in [first, second].as_slice() {
        items
            .push(Item::Text(TextLeaf {
                text: ShortWord::from_bytes(alloc, text.as_bytes()).expect(rt, "memory"),
                start: 0,
                end: 1,
            }))
            .expect(rt, "memory");
    }
    let operand = Operand::Plain(NameLeaf {
        name: ShortWord::from_bytes(alloc, b"OPT").expect(rt, "memory"),
        start: 0,
        end: 3,
    });
    let operand = Apart::new(alloc, operand).expect(rt, "memory");
    let relation = Relation::Within(operand, items);
    Box::new(alloc, Condition::Relation(relation)).expect(rt, "memory")
}

fn constraint<R: Abort>(rt: &R, alloc: Global) -> Dependency {
    let objects: Listed<Declared> = Listed::new(alloc);
    let restrictions: Listed<Restriction> = Listed::new(alloc);
    let inferences: Listed<Operand> = Listed::new(alloc);
    Dependency::Constraint(Constraint {
        objects,
        condition: Some(condition(rt, alloc, "A", "B")),
        restrictions,
        inferences,
    })
}

fn named<R: Abort>(rt: &R, alloc: Global, tree: Dependency) -> NamedDependency {
    NamedDependency {
        name: word(rt, alloc, "D"),
        tree,
        line: 1,
    }
}

fn dependencies<R: Abort>(rt: &R, alloc: Global) -> Listed<NamedDependency> {
    let mut dependencies = Listed::new(alloc);
    let unused = Dependency::Selection(condition(rt, alloc, "C", "B"));
    dependencies
        .push(named(rt, alloc, unused))
        .expect(rt, "memory");
    dependencies
        .push(named(rt, alloc, constraint(rt, alloc)))
        .expect(rt, "memory");
    let precondition = Dependency::Precondition(condition(rt, alloc, "D", "A"));
    dependencies
        .push(named(rt, alloc, precondition))
        .expect(rt, "memory");
    dependencies
}

fn characteristics<R: Abort>(rt: &R, alloc: Global) -> Listed<Characteristic> {
    let mut values = Listed::new(alloc);
    values
        .push(TextValue {
            text: 0,
            uses: one(rt, alloc, 2),
        })
        .expect(rt, "memory");
    let mut characteristics = Listed::new(alloc);
    characteristics
        .push(Characteristic {
            name: word(rt, alloc, "OPT"),
            restrictable: true,
            required: false,
            uses: Listed::new(alloc),
            values: Values::Texts {
                length: 1,
                multiple: false,
                values,
            },
        })
        .expect(rt, "memory");
    characteristics
}

fn objects<R: Abort>(rt: &R, alloc: Global) -> Listed<Object> {
    let bill: Listed<BillItem> = Listed::new(alloc);
    let operations: Listed<Operation> = Listed::new(alloc);
    let mut objects = Listed::new(alloc);
    objects
        .push(Object {
            material: word(rt, alloc, "M"),
            class: 0,
            nets: one(rt, alloc, 0),
            procedures: Listed::new(alloc),
            bill,
            operations,
        })
        .expect(rt, "memory");
    objects
}

fn model<R: Abort>(rt: &R, alloc: Global) -> Model {
    let tables: Listed<Table> = Listed::new(alloc);
    let mut texts = Listed::new(alloc);
    texts.push(word(rt, alloc, "A")).expect(rt, "memory");
    let mut classes = Listed::new(alloc);
    classes
        .push(Class {
            name: word(rt, alloc, "K"),
            members: one(rt, alloc, 0),
        })
        .expect(rt, "memory");
    let mut nets = Listed::new(alloc);
    nets.push(Net {
        name: word(rt, alloc, "N"),
        constraints: one(rt, alloc, 1),
    })
    .expect(rt, "memory");
    Model {
        name: word(rt, alloc, "M"),
        version: 1,
        characteristics: characteristics(rt, alloc),
        texts,
        classes,
        tables,
        dependencies: dependencies(rt, alloc),
        nets,
        objects: objects(rt, alloc),
        root: 0,
    }
}

const ROOT: Slot = Slot {
    parent: None,
    depth: 0,
    object: 0,
    line: 0,
};

#[test]
fn texts_of_dependencies_stand_behind_those_of_values(rt: HostRuntime) -> Result<(), Fail> {
    let alloc = rt.alloc();
    let model = model(&rt, alloc);
    let texts = texts_of(alloc, &model)?;
    assert_eq!(rt; texts.all().len(), 4);
    assert_eq!(rt; texts.number(b"A"), Some(0));
    assert_eq!(rt; texts.number(b"C"), Some(1));
    assert_eq!(rt; texts.number(b"B"), Some(2));
    assert_eq!(rt; texts.number(b"E"), None);
    assert_eq!(rt; texts.into_all().len(), 4);
    Ok(())
}

#[test]
fn constraints_of_nets_are_active_and_preconditions_used(rt: HostRuntime) -> Result<(), Fail> {
    let alloc = rt.alloc();
    let model = model(&rt, alloc);
    let slots = [ROOT];
    let active = active_constraints(alloc, &model, slots.as_slice())?;
    assert!(rt; active.as_slice() == [1].as_slice());
    let used = used_dependencies(alloc, &model, slots.as_slice())?;
    assert!(rt; used.as_slice() == [1, 2].as_slice());
    Ok(())
}
