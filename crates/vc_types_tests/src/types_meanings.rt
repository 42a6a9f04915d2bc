//! What operands mean at the root of a model, and in a constraint.

use std::alloc::Global;
use std::process::Abort;
use std::test::Fail;
use vc_model_parts::{
    Characteristic, Class, Model, NamedDependency, Net, Object as Material, Table, Values,
};
use vc_syntax_tree::{
    Alias, Apart, Constraint, Dependency, NameLeaf, Object, ObjectKind, Operand, Owner, ShortWord,
};
use vc_types::{At, Meaning, Place};
use vc_types_meanings::{Setting, borrowed};
use vc_types_names::Names;
use vc_value::{Listed, Word};

fn word<R: Abort>(rt: &R, alloc: Global, text: &str) -> Word {
    Word::from_bytes(alloc, text.as_bytes()).expect(rt, "memory")
}

fn leaf<R: Abort>(rt: &R, alloc: Global, text: &str) -> NameLeaf {
    NameLeaf {
        name: ShortWord::from_bytes(alloc, text.as_bytes()).expect(rt, "memory"),
        start: 0,
        end: 0,
    }
}

fn characteristics<R: Abort>(rt: &R, alloc: Global) -> Listed<Characteristic> {
    let mut all = Listed::new(alloc);
    all.push(Characteristic {
        name: word(rt, alloc, "A"),
        restrictable: false,
        required: false,
        uses: Listed::new(alloc),
        values: Values::Texts {
            length: 1,
            multiple: false,
            values: Listed::new(alloc),
        },
    })
    .expect(rt, "memory");
    all
}

fn classes<R: Abort>(rt: &R, alloc: Global) -> Listed<Class> {
    let mut members = Listed::new(alloc);
    members.push(0).expect(rt, "memory");
    let mut classes = Listed::new(alloc);
    classes
        .push(Class {
            name: word(rt, alloc, "K"),
            members,
        })
        .expect(rt, "memory");
    classes
}

fn materials<R: Abort>(rt: &R, alloc: Global) -> Listed<Material> {
    let mut materials = Listed::new(alloc);
    materials
        .push(Material {
            material: word(rt, alloc, "M"),
            class: 0,
            nets: Listed::new(alloc),
            procedures: Listed::new(alloc),
            bill: Listed::new(alloc),
            operations: Listed::new(alloc),
        })
        .expect(rt, "memory");
    materials
}

fn model<R: Abort>(rt: &R, alloc: Global) -> Model {
    let tables: Listed<Table> = Listed::new(alloc);
    let dependencies: Listed<NamedDependency> = Listed::new(alloc);
    let nets: Listed<Net> = Listed::new(alloc);
    Model {
        name: word(rt, alloc, "M"),
        version: 1,
        characteristics: characteristics(rt, alloc),
        texts: Listed::new(alloc),
        classes: classes(rt, alloc),
        tables,
        dependencies,
        nets,
        objects: materials(rt, alloc),
        root: 0,
    }
}

// A constraint on ?X, an object of class K, and ?V, its A.
fn constraint<R: Abort>(rt: &R, alloc: Global) -> Dependency {
    let mut aliases = Listed::new(alloc);
    aliases
        .push(Alias {
            variable: leaf(rt, alloc, "V"),
            characteristic: leaf(rt, alloc, "A"),
        })
        .expect(rt, "memory");
    let mut objects = Listed::new(alloc);
    objects
        .push(Object {
            variable: leaf(rt, alloc, "X"),
            kind: ObjectKind::Class(leaf(rt, alloc, "K")),
            aliases,
        })
        .expect(rt, "memory");
    Dependency::Constraint(Constraint {
        objects,
        condition: None,
        restrictions: Listed::new(alloc),
        inferences: Listed::new(alloc),
    })
}

// What the operand means in the dependency at the root.
fn meaning_at<R: Abort>(
    rt: &R,
    alloc: Global,
    at: At,
    dependency: &Dependency,
    operand: &Operand,
) -> Meaning {
    let model = model(rt, alloc);
    let names = Names::new(alloc, &model).expect(rt, "memory");
    let place = Place {
        object: 0,
        parent: None,
        at,
    };
    let setting = Setting::new(alloc, &names, place, borrowed(dependency)).expect(rt, "memory");
    setting.meaning(operand)
}

fn is_own<R: Abort>(rt: &R, alloc: Global) -> bool {
    let nothing = Dependency::Procedure(Listed::new(alloc));
    let a = Operand::Plain(leaf(rt, alloc, "A"));
    let meaning = meaning_at(rt, alloc, At::Procedure, &nothing, &a);
    meaning == Meaning::Characteristic(0)
}

fn lacks_a_parent<R: Abort>(rt: &R, alloc: Global) -> bool {
    let nothing = Dependency::Procedure(Listed::new(alloc));
    let parent = Operand::Owned(Owner::Parent, leaf(rt, alloc, "A"));
    let meaning = meaning_at(rt, alloc, At::Procedure, &nothing, &parent);
    meaning == Meaning::NoParent
}

fn is_of_the_object<R: Abort>(rt: &R, alloc: Global) -> bool {
    let constraint = constraint(rt, alloc);
    let variable = Apart::new(alloc, leaf(rt, alloc, "X")).expect(rt, "memory");
    let member = Operand::Member(variable, leaf(rt, alloc, "A"));
    let meaning = meaning_at(rt, alloc, At::Constraint, &constraint, &member);
    meaning == Meaning::Characteristic(0)
}

#[test]
fn operands_mean_what_is_declared(rt: HostRuntime) -> Result<(), Fail> {
    assert!(rt; is_own(&rt, rt.alloc()));
    assert!(rt; lacks_a_parent(&rt, rt.alloc()));
    assert!(rt; is_of_the_object(&rt, rt.alloc()));
    Ok(())
}
