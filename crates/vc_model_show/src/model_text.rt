//! A model that shows itself.

use crate::objects::{put_dependency, put_net, put_object};
use crate::pieces::{Bare, Quoted};
use crate::values::{put_characteristic, put_class, put_table};
use std::alloc::Global;
use std::fmt;
use vc_model_parts::Model;

/// A model as text: its parts in order, each on a line of its own. Numbers stand where the model has
/// numbers, texts in quotes, dependencies and terms as their canonical texts. Writing it takes memory,
/// and fails where there is none.
#[derive(Drop)]
pub struct Shown<'a> {
    alloc: Global,
    model: &'a Model,
}

/// The model, ready to be written.
pub fn show(alloc: Global, model: &Model) -> Shown<'_> {
    Shown { alloc, model }
}

impl fmt::Display for Shown<'_> {
    fn fmt<W: fmt::Write>(&self, f: &mut fmt::Formatter<W>) -> fmt::Result {
        put_head(f, self.model)?;
        put_names(f, self.alloc, self.model)?;
        put_uses(f, self.alloc, self.model)
    }
}

fn put_head<W: fmt::Write>(f: &mut fmt::Formatter<W>, model: &Model) -> fmt::Result {
    let name = Bare { word: &model.name };
    let version = model.version;
    write!(f, "MODEL {name} VERSION {version} TEXTS")?;
    for text in model.texts.as_slice() {
        let text = Quoted { text };
        write!(f, " {text}")?;
    }
    Ok(())
}

fn put_names<W: fmt::Write>(
    f: &mut fmt::Formatter<W>,
    alloc: Global,
    model: &Model,
) -> fmt::Result {
    for characteristic in model.characteristics.as_slice() {
        put_characteristic(f, alloc, characteristic)?;
    }
    for class in model.classes.as_slice() {
        put_class(f, class)?;
    }
    for table in model.tables.as_slice() {
        put_table(f, table)?;
    }
    Ok(())
}

fn put_uses<W: fmt::Write>(f: &mut fmt::Formatter<W>, alloc: Global, model: &Model) -> fmt::Result {
    for named in model.dependencies.as_slice() {
        put_dependency(f, alloc, named)?;
    }
    for net in model.nets.as_slice() {
        put_net(f, net)?;
    }
    for object in model.objects.as_slice() {
        put_object(f, alloc, object)?;
    }
    let root = model.root;
    write!(f, "\nROOT {root}")
}
