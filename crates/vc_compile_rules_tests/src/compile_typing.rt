//! The typing of a model of one object, at whose characteristic stands a precondition that names what is none.

use std::alloc::{AllocError, Global};
use std::test::Fail;
use vc_compile_layout::Layout;
use vc_compile_plan::Standing;
use vc_compile_typing::{Found, type_fault};
use vc_compile_uses::texts_of;
use vc_model_parts::{
    BillItem, Characteristic, Class, Model, NamedDependency, Net, Object, Operation, Table,
    TextValue, Values,
};
use vc_plan::{Slot, TextSet, Var};
use vc_syntax_tree::{Condition, Dependency, NameLeaf, Operand, ShortWord};
use vc_types::TypeFaultKind;
use vc_types_names::Names;
use vc_value::{Listed, Word};

fn word(alloc: Global, text: &str) -> Result<Word, AllocError> {
    Word::from_bytes(alloc, text.as_bytes())
}

fn zero(alloc: Global) -> Result<Listed<u32>, AllocError> {
    let mut numbers = Listed::new(alloc);
    numbers.push(0)?;
    Ok(numbers)
}

fn characteristics(alloc: Global) -> Result<Listed<Characteristic>, AllocError> {
    let values: Listed<TextValue> = Listed::new(alloc);
    let mut all = Listed::new(alloc);
    all.push(Characteristic {
        name: word(alloc, "A")?,
        restrictable: false,
        required: false,
        uses: zero(alloc)?,
        values: Values::Texts {
            length: 1,
            multiple: false,
            values,
        },
    })?;
    Ok(all)
}

fn classes(alloc: Global) -> Result<Listed<Class>, AllocError> {
    let mut classes = Listed::new(alloc);
    classes.push(Class {
        name: word(alloc, "K")?,
        members: zero(alloc)?,
    })?;
    Ok(classes)
}

fn objects(alloc: Global) -> Result<Listed<Object>, AllocError> {
    let bill: Listed<BillItem> = Listed::new(alloc);
    let operations: Listed<Operation> = Listed::new(alloc);
    let mut objects = Listed::new(alloc);
    objects.push(Object {
        material: word(alloc, "M")?,
        class: 0,
        nets: Listed::new(alloc),
        procedures: Listed::new(alloc),
        bill,
        operations,
    })?;
    Ok(objects)
}

// `SPECIFIED B`, where there is no B.
fn dependencies(alloc: Global) -> Result<Listed<NamedDependency>, AllocError> {
    let condition = Condition::Specified(Operand::Plain(NameLeaf {
        name: ShortWord::from_bytes(alloc, b"B")?,
        start: 10,
        end: 11,
    }));
    let mut dependencies = Listed::new(alloc);
    dependencies.push(NamedDependency {
        name: word(alloc, "P")?,
        tree: Dependency::Precondition(Box::new(alloc, condition)?),
        line: 7,
    })?;
    Ok(dependencies)
}

fn model(alloc: Global) -> Result<Model, AllocError> {
    let tables: Listed<Table> = Listed::new(alloc);
    let nets: Listed<Net> = Listed::new(alloc);
    Ok(Model {
        name: word(alloc, "M")?,
        version: 1,
        characteristics: characteristics(alloc)?,
        texts: Listed::new(alloc),
        classes: classes(alloc)?,
        tables,
        dependencies: dependencies(alloc)?,
        nets,
        objects: objects(alloc)?,
        root: 0,
    })
}

fn layout<'n, 'm>(alloc: Global, names: &'n Names<'m>) -> Result<Layout<'n, 'm>, AllocError> {
    let standings: Listed<Standing> = Listed::new(alloc);
    let vars: Listed<Var> = Listed::new(alloc);
    let sets: Listed<TextSet> = Listed::new(alloc);
    let mut slots = Listed::new(alloc);
    slots.push(Slot {
        parent: None,
        depth: 0,
        object: 0,
        line: 0,
    })?;
    let texts = texts_of(alloc, names.model())?;
    Layout::new(alloc, names, standings, slots, vars, sets, texts)
}

fn is_told(alloc: Global, layout: &Layout<'_, '_>) -> Result<bool, AllocError> {
    let found = type_fault(alloc, layout)?;
    Ok(
        found
            == Some(Found {
                line: 7,
                kind: TypeFaultKind::UnknownName,
            }),
    )
}

// What is built is dropped on one path alone: each path more is proved anew.
fn in_a_layout(alloc: Global, names: &Names<'_>) -> Result<bool, AllocError> {
    let layout = layout(alloc, names)?;
    let told = is_told(alloc, &layout);
    drop(layout);
    told
}

fn in_a_model(alloc: Global, model: &Model) -> Result<bool, AllocError> {
    let names = Names::new(alloc, model)?;
    let told = in_a_layout(alloc, &names);
    drop(names);
    told
}

fn of_the_model(alloc: Global) -> Result<bool, AllocError> {
    let model = model(alloc)?;
    let told = in_a_model(alloc, &model);
    drop(model);
    told
}

#[test]
fn unknown_name_is_told(rt: HostRuntime) -> Result<(), Fail> {
    assert!(rt; of_the_model(rt.alloc())?);
    Ok(())
}
