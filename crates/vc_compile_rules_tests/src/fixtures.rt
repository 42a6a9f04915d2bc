//! A model of one object whose class has a number and a set of texts, with the layout that it has.

use std::alloc::{AllocError, Global};
use std::process::Abort;
use vc_compile_layout::Layout;
use vc_compile_plan::Standing;
use vc_compile_uses::texts_of;
use vc_model_parts::parts::{
    BillItem, Characteristic, Class, Model, NamedDependency, Net, NumberValue, Object, Operation,
    Table, TextValue, Values,
};
use vc_plan::{Slot, TextSet, Var};
use vc_syntax_tree::{NameLeaf, ShortWord};
use vc_types_names::Names;
use vc_value::{Listed, Word};

/// The word of a text.
pub fn word<R: Abort>(rt: &R, alloc: Global, text: &str) -> Word {
    Word::from_bytes(alloc, text.as_bytes()).expect(rt, "memory")
}

/// The leaf of a name.
pub fn name<R: Abort>(rt: &R, alloc: Global, text: &str) -> NameLeaf {
    NameLeaf {
        name: ShortWord::from_bytes(alloc, text.as_bytes()).expect(rt, "memory"),
        start: 0,
        end: 1,
    }
}

fn characteristic<R: Abort>(rt: &R, alloc: Global, name: &str, values: Values) -> Characteristic {
    Characteristic {
        name: word(rt, alloc, name),
        restrictable: false,
        required: false,
        uses: Listed::new(alloc),
        values,
    }
}

// FLOW has numbers, EXTRAS has sets of texts.
fn characteristics<R: Abort>(rt: &R, alloc: Global) -> Listed<Characteristic> {
    let values: Listed<NumberValue> = Listed::new(alloc);
    let numbers = Values::Numbers {
        decimals: 0,
        unit: None,
        values,
    };
    let values: Listed<TextValue> = Listed::new(alloc);
    let texts = Values::Texts {
        length: 1,
        multiple: true,
        values,
    };
    let mut all = Listed::new(alloc);
    all.push(characteristic(rt, alloc, "FLOW", numbers))
        .expect(rt, "memory");
    all.push(characteristic(rt, alloc, "EXTRAS", texts))
        .expect(rt, "memory");
    all
}

fn classes<R: Abort>(rt: &R, alloc: Global) -> Listed<Class> {
    let mut members = Listed::new(alloc);
    members.push(0).expect(rt, "memory");
    members.push(1).expect(rt, "memory");
    let mut classes = Listed::new(alloc);
    classes
        .push(Class {
            name: word(rt, alloc, "K"),
            members,
        })
        .expect(rt, "memory");
    classes
}

// The one object, with these nets.
fn objects<R: Abort>(rt: &R, alloc: Global, nets: Listed<u32>) -> Listed<Object> {
    let bill: Listed<BillItem> = Listed::new(alloc);
    let operations: Listed<Operation> = Listed::new(alloc);
    let mut objects = Listed::new(alloc);
    objects
        .push(Object {
            material: word(rt, alloc, "M"),
            class: 0,
            nets,
            procedures: Listed::new(alloc),
            bill,
            operations,
        })
        .expect(rt, "memory");
    objects
}

/// The model with these dependencies and nets, of which its object uses those of these numbers.
pub fn model<R: Abort>(
    rt: &R,
    alloc: Global,
    dependencies: Listed<NamedDependency>,
    nets: Listed<Net>,
    used: Listed<u32>,
) -> Model {
    let tables: Listed<Table> = Listed::new(alloc);
    let mut texts = Listed::new(alloc);
    texts.push(word(rt, alloc, "A")).expect(rt, "memory");
    texts.push(word(rt, alloc, "B")).expect(rt, "memory");
    Model {
        name: word(rt, alloc, "M"),
        version: 1,
        characteristics: characteristics(rt, alloc),
        texts,
        classes: classes(rt, alloc),
        tables,
        dependencies,
        nets,
        objects: objects(rt, alloc, used),
        root: 0,
    }
}

/// The layout of one slot, with FLOW as its variable and EXTRAS as its set.
pub fn layout<'n, 'm>(alloc: Global, names: &'n Names<'m>) -> Result<Layout<'n, 'm>, AllocError> {
    let standings: Listed<Standing> = Listed::new(alloc);
    let mut slots = Listed::new(alloc);
    slots.push(Slot {
        parent: None,
        depth: 0,
        object: 0,
        line: 0,
    })?;
    let mut vars = Listed::new(alloc);
    vars.push(Var {
        slot: 0,
        characteristic: 0,
        domain: 0,
        restrictable: false,
    })?;
    let mut sets = Listed::new(alloc);
    sets.push(TextSet {
        slot: 0,
        characteristic: 1,
        domain: 1,
    })?;
    let texts = texts_of(alloc, names.model())?;
    Layout::new(alloc, names, standings, slots, vars, sets, texts)
}
