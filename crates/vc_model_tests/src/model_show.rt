//! A small model, shown.

use std::alloc::Global;
use std::process::Abort;
use std::test::Fail;
use vc_model_parts::{
    Characteristic, Class, Model, NamedDependency, Net, Object, Table, TextValue, Values,
};
use vc_model_show::show;
use vc_value::{Listed, Word};

fn characteristics<R: Abort>(rt: &R, alloc: Global) -> Listed<Characteristic> {
    let mut values = Listed::new(alloc);
    values
        .push(TextValue {
            text: 0,
            uses: Listed::new(alloc),
        })
        .expect(rt, "memory");
    let mut all = Listed::new(alloc);
    all.push(Characteristic {
        name: Word::from_bytes(alloc, b"SIZE").expect(rt, "memory"),
        restrictable: true,
        required: false,
        uses: Listed::new(alloc),
        values: Values::Texts {
            length: 4,
            multiple: false,
            values,
        },
    })
    .expect(rt, "memory");
    all
}

fn model<R: Abort>(rt: &R, alloc: Global) -> Model {
    let classes: Listed<Class> = Listed::new(alloc);
    let tables: Listed<Table> = Listed::new(alloc);
    let dependencies: Listed<NamedDependency> = Listed::new(alloc);
    let nets: Listed<Net> = Listed::new(alloc);
    let objects: Listed<Object> = Listed::new(alloc);
    let mut texts = Listed::new(alloc);
    texts
        .push(Word::from_bytes(alloc, b"it's").expect(rt, "memory"))
        .expect(rt, "memory");
    Model {
        name: Word::from_bytes(alloc, b"M").expect(rt, "memory"),
        version: 7,
        characteristics: characteristics(rt, alloc),
        texts,
        classes,
        tables,
        dependencies,
        nets,
        objects,
        root: 0,
    }
}

#[test]
fn a_model_shows_itself(rt: HostRuntime) -> Result<(), Fail> {
    let model = model(&rt, rt.alloc());
    let shown = show(rt.alloc(), &model);
    let text = format!(in rt.alloc(); "{shown}")?;
    let want =
        "MODEL M VERSION 7 TEXTS 'it''s'\nCHARACTERISTIC SIZE RESTRICTABLE LENGTH 4\n  TEXT 0\nROOT 0";
    assert!(rt; text.as_str() == want);
    Ok(())
}
