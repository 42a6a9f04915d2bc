//! A machine with two drives: its slots, variables and sets.

use std::alloc::Global;
use std::process::Abort;
use std::test::Fail;
use vc_compile_slots::{is_too_deep, sets_of, slots_of, standings_of, vars_of};
use vc_model_parts::parts::{
    BillItem, Characteristic, Class, Component, Model, NamedDependency, Net, Object, Operation,
    Table, TextValue, Values,
};
use vc_plan::{Slot, TextSet, Var};
use vc_syntax_tree::Term;
use vc_value::{Listed, Word};

fn characteristic<R: Abort>(rt: &R, alloc: Global, name: &str, multiple: bool) -> Characteristic {
    let values: Listed<TextValue> = Listed::new(alloc);
    Characteristic {
        name: Word::from_bytes(alloc, name.as_bytes()).expect(rt, "memory"),
        restrictable: true,
        required: false,
        uses: Listed::new(alloc),
        values: Values::Texts {
            length: 1,
            multiple,
            values,
        },
    }
}

fn class<R: Abort>(rt: &R, alloc: Global, members: &[u32]) -> Class {
    let mut numbers = Listed::new(alloc);
    for member in members {
        numbers.push(*member).expect(rt, "memory");
    }
    Class {
        name: Word::from_bytes(alloc, b"K").expect(rt, "memory"),
        members: numbers,
    }
}

fn drive_line<R: Abort>(rt: &R, alloc: Global, item: u16) -> BillItem {
    BillItem {
        item,
        component: Component::Object(0),
        unit: Word::from_bytes(alloc, b"PC").expect(rt, "memory"),
        quantity: Box::new(alloc, Term::CountOfParts).expect(rt, "memory"),
        uses: Listed::new(alloc),
        line: 1,
    }
}

fn object<R: Abort>(rt: &R, alloc: Global, class: u32, bill: Listed<BillItem>) -> Object {
    let operations: Listed<Operation> = Listed::new(alloc);
    Object {
        material: Word::from_bytes(alloc, b"M").expect(rt, "memory"),
        class,
        nets: Listed::new(alloc),
        procedures: Listed::new(alloc),
        bill,
        operations,
    }
}

fn objects<R: Abort>(rt: &R, alloc: Global) -> Listed<Object> {
    let mut bill = Listed::new(alloc);
    bill.push(drive_line(rt, alloc, 10)).expect(rt, "memory");
    bill.push(drive_line(rt, alloc, 20)).expect(rt, "memory");
    let mut objects = Listed::new(alloc);
    objects
        .push(object(rt, alloc, 0, Listed::new(alloc)))
        .expect(rt, "memory");
    objects
        .push(object(rt, alloc, 1, bill))
        .expect(rt, "memory");
    objects
}

fn machine<R: Abort>(rt: &R, alloc: Global) -> Model {
    let tables: Listed<Table> = Listed::new(alloc);
    let dependencies: Listed<NamedDependency> = Listed::new(alloc);
    let nets: Listed<Net> = Listed::new(alloc);
    let mut characteristics = Listed::new(alloc);
    characteristics
        .push(characteristic(rt, alloc, "OPT", true))
        .expect(rt, "memory");
    characteristics
        .push(characteristic(rt, alloc, "POWER", false))
        .expect(rt, "memory");
    let mut classes = Listed::new(alloc);
    classes
        .push(class(rt, alloc, [1, 0].as_slice()))
        .expect(rt, "memory");
    classes
        .push(class(rt, alloc, [0].as_slice()))
        .expect(rt, "memory");
    Model {
        name: Word::from_bytes(alloc, b"M").expect(rt, "memory"),
        version: 1,
        characteristics,
        texts: Listed::new(alloc),
        classes,
        tables,
        dependencies,
        nets,
        objects: objects(rt, alloc),
        root: 1,
    }
}

fn drive_slot(line: u32) -> Slot {
    Slot {
        parent: Some(0),
        depth: 1,
        object: 0,
        line,
    }
}

fn power(slot: u32) -> Var {
    Var {
        slot,
        characteristic: 1,
        domain: 1,
        restrictable: true,
    }
}

fn opt(slot: u32) -> TextSet {
    TextSet {
        slot,
        characteristic: 0,
        domain: 0,
    }
}

#[test]
fn two_drives_have_a_slot_each(rt: HostRuntime) -> Result<(), Fail> {
    let alloc = rt.alloc();
    let model = machine(&rt, alloc);
    assert!(rt; !is_too_deep(alloc, &model)?);
    let standings = standings_of(alloc, &model)?.unwrap_or(Listed::new(alloc));
    let slots = slots_of(alloc, &model, standings.as_slice())?;
    let root = Slot {
        parent: None,
        depth: 0,
        object: 1,
        line: 0,
    };
    assert!(rt; slots.as_slice() == [root, drive_slot(0), drive_slot(1)].as_slice());
    if slots.len() <= 40 {
        let vars = vars_of(alloc, &model, slots.as_slice())?;
        assert!(rt; vars.as_slice() == [power(1), power(2)].as_slice());
        let sets = sets_of(alloc, &model, slots.as_slice())?;
        assert!(rt; sets.as_slice() == [opt(0), opt(1), opt(2)].as_slice());
    }
    Ok(())
}
