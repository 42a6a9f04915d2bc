//! A model of one object with a line, an operation, a precondition and a selection condition, as its plan shows it.

use std::alloc::{AllocError, Global};
use std::process::Abort;
use std::test::Fail;
use vc_compile_layout::Layout;
use vc_compile_numbering::{Numbering, Trees};
use vc_compile_plan::Standing;
use vc_compile_shown::{push_guards, push_lines, push_operations, push_requirements};
use vc_compile_uses::texts_of;
use vc_model_parts::parts::{
    BillItem, Characteristic, Class, Component, Model, NamedDependency, Net, NumberValue, Object,
    Operation, Table, Values,
};
use vc_plan::{Slot, TextSet, Var};
use vc_syntax_tree::{Condition, Dependency, NameLeaf, NumberLeaf, Operand, ShortWord, Term};
use vc_types_names::Names;
use vc_value::{Dec, Listed, Word};

fn word<R: Abort>(rt: &R, alloc: Global, text: &str) -> Word {
    Word::from_bytes(alloc, text.as_bytes()).expect(rt, "memory")
}

fn name<R: Abort>(rt: &R, alloc: Global, text: &str) -> NameLeaf {
    NameLeaf {
        name: ShortWord::from_bytes(alloc, text.as_bytes()).expect(rt, "memory"),
        start: 0,
        end: 1,
    }
}

// SPECIFIED A
fn specified<R: Abort>(rt: &R, alloc: Global) -> Box<Condition> {
    let operand = Operand::Plain(name(rt, alloc, "A"));
    Box::new(alloc, Condition::Specified(operand)).expect(rt, "memory")
}

fn dependency<R: Abort>(rt: &R, alloc: Global, tree: Dependency) -> NamedDependency {
    NamedDependency {
        name: word(rt, alloc, "D"),
        tree,
        line: 1,
    }
}

fn dependencies<R: Abort>(rt: &R, alloc: Global) -> Listed<NamedDependency> {
    let mut all = Listed::new(alloc);
    all.push(dependency(rt, alloc, Dependency::Precondition(specified(rt, alloc))))
        .expect(rt, "memory");
    all.push(dependency(rt, alloc, Dependency::Selection(specified(rt, alloc))))
        .expect(rt, "memory");
    all
}

fn numbers<R: Abort>(rt: &R, alloc: Global, numbers: &[u32]) -> Listed<u32> {
    Listed::from_vec(Vec::from_slice(alloc, numbers).expect(rt, "memory"))
}

// A has numbers, with a precondition and a selection condition.
fn characteristics<R: Abort>(rt: &R, alloc: Global) -> Listed<Characteristic> {
    let values: Listed<NumberValue> = Listed::new(alloc);
    let mut all = Listed::new(alloc);
    all.push(Characteristic {
        name: word(rt, alloc, "A"),
        restrictable: false,
        required: false,
        uses: numbers(rt, alloc, [0, 1].as_slice()),
        values: Values::Numbers {
            decimals: 0,
            unit: None,
            values,
        },
    })
    .expect(rt, "memory");
    all
}

fn classes<R: Abort>(rt: &R, alloc: Global) -> Listed<Class> {
    let mut classes = Listed::new(alloc);
    classes
        .push(Class {
            name: word(rt, alloc, "K"),
            members: numbers(rt, alloc, [0].as_slice()),
        })
        .expect(rt, "memory");
    classes
}

fn two<R: Abort>(rt: &R, alloc: Global) -> Box<Term> {
    let leaf = NumberLeaf {
        number: Dec {
            millionths: 2_000_000,
        },
        start: 0,
        end: 1,
    };
    Box::new(alloc, Term::Number(leaf)).expect(rt, "memory")
}

fn bill<R: Abort>(rt: &R, alloc: Global) -> Listed<BillItem> {
    let mut bill = Listed::new(alloc);
    bill.push(BillItem {
        item: 10,
        component: Component::Plain(word(rt, alloc, "SCREW")),
        unit: word(rt, alloc, "PC"),
        quantity: two(rt, alloc),
        uses: numbers(rt, alloc, [1].as_slice()),
        line: 1,
    })
    .expect(rt, "memory");
    bill
}

fn operations<R: Abort>(rt: &R, alloc: Global) -> Listed<Operation> {
    let mut operations = Listed::new(alloc);
    operations
        .push(Operation {
            number: 20,
            centre: word(rt, alloc, "SAW"),
            unit: word(rt, alloc, "MIN"),
            time: two(rt, alloc),
            uses: Listed::new(alloc),
            line: 2,
        })
        .expect(rt, "memory");
    operations
}

fn objects<R: Abort>(rt: &R, alloc: Global) -> Listed<Object> {
    let mut objects = Listed::new(alloc);
    objects
        .push(Object {
            material: word(rt, alloc, "M"),
            class: 0,
            nets: Listed::new(alloc),
            procedures: Listed::new(alloc),
            bill: bill(rt, alloc),
            operations: operations(rt, alloc),
        })
        .expect(rt, "memory");
    objects
}

fn model<R: Abort>(rt: &R, alloc: Global) -> Model {
    let tables: Listed<Table> = Listed::new(alloc);
    let nets: Listed<Net> = Listed::new(alloc);
    Model {
        name: word(rt, alloc, "M"),
        version: 1,
        characteristics: characteristics(rt, alloc),
        texts: Listed::new(alloc),
        classes: classes(rt, alloc),
        tables,
        dependencies: dependencies(rt, alloc),
        nets,
        objects: objects(rt, alloc),
        root: 0,
    }
}

fn layout<'n, 'm>(alloc: Global, names: &'n Names<'m>) -> Result<Layout<'n, 'm>, AllocError> {
    let standings: Listed<Standing> = Listed::new(alloc);
    let sets: Listed<TextSet> = Listed::new(alloc);
    let mut slots = Listed::new(alloc);
    slots.push(Slot {
        parent: None,
        depth: 0,
        object: 0,
        line: 0,
    })?;
    let mut vars = Listed::new(alloc);
    vars.push(Var {
        slot: 0,
        characteristic: 0,
        domain: 0,
        restrictable: false,
    })?;
    let texts = texts_of(alloc, names.model())?;
    Layout::new(alloc, names, standings, slots, vars, sets, texts)
}

fn shows_conditions<R: Abort>(rt: &R, alloc: Global, layout: &Layout<'_, '_>) -> bool {
    let mut guards = Numbering::over(alloc, Trees::with_capacity(alloc, 0).expect(rt, "memory"));
    let pushed = push_guards(alloc, layout, &mut guards);
    let (trees, guards) = guards.into_parts();
    let mut requirements = Numbering::over(alloc, trees);
    let more = push_requirements(alloc, layout, &mut requirements);
    let shown = match (guards.as_slice(), requirements.items.as_slice()) {
        ([guard], [requirement]) => guard.condition == 1 && requirement.selection.condition == 2,
        _ => false,
    };
    drop(requirements);
    pushed.is_ok() && more.is_ok() && shown
}

fn shows_items<R: Abort>(rt: &R, alloc: Global, layout: &Layout<'_, '_>) -> bool {
    let mut lines = Numbering::over(alloc, Trees::with_capacity(alloc, 0).expect(rt, "memory"));
    let pushed = push_lines(alloc, layout, &mut lines);
    let (trees, lines) = lines.into_parts();
    let mut operations = Numbering::over(alloc, trees);
    let more = push_operations(alloc, layout, &mut operations);
    let shown = match (lines.as_slice(), operations.items.as_slice()) {
        ([line], [operation]) => {
            line.item == 10 && line.selections.len() == 1 && operation.time == 1
        }
        _ => false,
    };
    drop(operations);
    drop(lines);
    pushed.is_ok() && more.is_ok() && shown
}

fn of_the_layout<R: Abort>(rt: &R, alloc: Global, layout: &Layout<'_, '_>) -> bool {
    shows_conditions(rt, alloc, layout) && shows_items(rt, alloc, layout)
}

// What is built is dropped on one path alone: each path more is proved anew.
fn in_a_layout<R: Abort>(rt: &R, alloc: Global, names: &Names<'_>) -> bool {
    let layout = layout(alloc, names).expect(rt, "memory");
    let made = of_the_layout(rt, alloc, &layout);
    drop(layout);
    made
}

fn in_a_model<R: Abort>(rt: &R, alloc: Global, model: &Model) -> bool {
    let names = Names::new(alloc, model).expect(rt, "memory");
    let made = in_a_layout(rt, alloc, &names);
    drop(names);
    made
}

fn of_the_model<R: Abort>(rt: &R, alloc: Global) -> bool {
    let model = model(rt, alloc);
    let made = in_a_model(rt, alloc, &model);
    drop(model);
    made
}

#[test]
fn all_is_shown(rt: HostRuntime) -> Result<(), Fail> {
    assert!(rt; of_the_model(&rt, rt.alloc()));
    Ok(())
}
