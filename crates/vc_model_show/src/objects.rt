//! Dependencies, nets, and objects with their bills and operations.

use crate::pieces::{Bare, Canonical, CanonicalTerm, Numbers};
use std::alloc::Global;
use std::fmt;
use vc_model_parts::{BillItem, Component, NamedDependency, Net, Object, Operation};
use vc_syntax_tree::Dependency;

fn keyword_of(dependency: &Dependency) -> &'static str {
    match dependency {
        Dependency::Precondition(_) => "PRECONDITION",
        Dependency::Selection(_) => "SELECTION",
        Dependency::Procedure(_) => "PROCEDURE",
        Dependency::Constraint(_) => "CONSTRAINT",
        Dependency::Term(_) => "TERM",
    }
}

pub fn put_dependency<W: fmt::Write>(
    f: &mut fmt::Formatter<W>,
    alloc: Global,
    named: &NamedDependency,
) -> fmt::Result {
    let keyword = keyword_of(&named.tree);
    let name = Bare { word: &named.name };
    let line = named.line;
    let text = Canonical {
        alloc,
        dependency: &named.tree,
    };
    write!(f, "\n{keyword} {name} LINE {line}: {text}")
}

pub fn put_net<W: fmt::Write>(f: &mut fmt::Formatter<W>, net: &Net) -> fmt::Result {
    let name = Bare { word: &net.name };
    let constraints = Numbers {
        title: " USES",
        numbers: net.constraints.as_slice(),
    };
    write!(f, "\nNET {name}{constraints}")
}

pub fn put_object<W: fmt::Write>(
    f: &mut fmt::Formatter<W>,
    alloc: Global,
    object: &Object,
) -> fmt::Result {
    put_profile(f, object)?;
    for item in object.bill.as_slice() {
        put_item(f, alloc, item)?;
    }
    for operation in object.operations.as_slice() {
        put_operation(f, alloc, operation)?;
    }
    Ok(())
}

fn put_profile<W: fmt::Write>(f: &mut fmt::Formatter<W>, object: &Object) -> fmt::Result {
    let material = Bare {
        word: &object.material,
    };
    let class = object.class;
    let nets = Numbers {
        title: " NETS",
        numbers: object.nets.as_slice(),
    };
    let procedures = Numbers {
        title: " PROCEDURES",
        numbers: object.procedures.as_slice(),
    };
    write!(f, "\nOBJECT {material} CLASS {class}{nets}{procedures}")
}

fn put_component<W: fmt::Write>(f: &mut fmt::Formatter<W>, component: &Component) -> fmt::Result {
    match component {
        Component::Object(object) => {
            let object = *object;
            write!(f, " OBJECT {object}")
        }
        Component::Plain(word) => {
            let material = Bare { word };
            write!(f, " {material}")
        }
    }
}

fn put_item<W: fmt::Write>(
    f: &mut fmt::Formatter<W>,
    alloc: Global,
    item: &BillItem,
) -> fmt::Result {
    let number = item.item;
    write!(f, "\n  ITEM {number}")?;
    put_component(f, &item.component)?;
    let unit = Bare { word: &item.unit };
    let uses = Numbers {
        title: " USES",
        numbers: item.uses.as_slice(),
    };
    let line = item.line;
    let quantity = CanonicalTerm {
        alloc,
        term: &item.quantity,
    };
    write!(f, " {unit}{uses} LINE {line}: {quantity}")
}

fn put_operation<W: fmt::Write>(
    f: &mut fmt::Formatter<W>,
    alloc: Global,
    operation: &Operation,
) -> fmt::Result {
    let number = operation.number;
    let centre = Bare {
        word: &operation.centre,
    };
    let unit = Bare {
        word: &operation.unit,
    };
    let uses = Numbers {
        title: " USES",
        numbers: operation.uses.as_slice(),
    };
    let line = operation.line;
    let time = CanonicalTerm {
        alloc,
        term: &operation.time,
    };
    write!(
        f,
        "\n  OPERATION {number} {centre} {unit}{uses} LINE {line}: {time}"
    )
}
