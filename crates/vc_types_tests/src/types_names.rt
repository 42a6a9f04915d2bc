//! A model of two characteristics, a class, an object and a table, looked up by name.

use std::alloc::Global;
use std::process::Abort;
use std::test::Fail;
use vc_model_parts::{
    Characteristic, Class, Model, NamedDependency, Net, NumberValue, Object, Table, TableColumn,
    Values,
};
use vc_types::Sort;
use vc_types_names::Names;
use vc_value::{Dec, Listed, Word};

fn word<R: Abort>(rt: &R, alloc: Global, text: &str) -> Word {
    Word::from_bytes(alloc, text.as_bytes()).expect(rt, "memory")
}

fn characteristic<R: Abort>(rt: &R, alloc: Global, name: &str, values: Values) -> Characteristic {
    Characteristic {
        name: word(rt, alloc, name),
        restrictable: false,
        required: false,
        uses: Listed::new(alloc),
        values,
    }
}

fn characteristics<R: Abort>(rt: &R, alloc: Global) -> Listed<Characteristic> {
    let mut numbers = Listed::new(alloc);
    numbers
        .push(NumberValue {
            low: Dec { millionths: -7 },
            high: Dec { millionths: 5 },
            uses: Listed::new(alloc),
        })
        .expect(rt, "memory");
    let texts = Values::Texts {
        length: 1,
        multiple: true,
        values: Listed::new(alloc),
    };
    let numbers = Values::Numbers {
        decimals: 6,
        unit: None,
        values: numbers,
    };
    let mut all = Listed::new(alloc);
    all.push(characteristic(rt, alloc, "S", texts))
        .expect(rt, "memory");
    all.push(characteristic(rt, alloc, "N", numbers))
        .expect(rt, "memory");
    all
}

fn classes<R: Abort>(rt: &R, alloc: Global) -> Listed<Class> {
    let mut members = Listed::new(alloc);
    members.push(1).expect(rt, "memory");
    let mut classes = Listed::new(alloc);
    classes
        .push(Class {
            name: word(rt, alloc, "K"),
            members,
        })
        .expect(rt, "memory");
    classes
}

fn tables<R: Abort>(rt: &R, alloc: Global) -> Listed<Table> {
    let mut columns = Listed::new(alloc);
    columns
        .push(TableColumn {
            characteristic: 1,
            key: true,
        })
        .expect(rt, "memory");
    let mut tables = Listed::new(alloc);
    tables
        .push(Table {
            name: word(rt, alloc, "T"),
            file: word(rt, alloc, "t.csv"),
            columns,
        })
        .expect(rt, "memory");
    tables
}

fn objects<R: Abort>(rt: &R, alloc: Global) -> Listed<Object> {
    let mut objects = Listed::new(alloc);
    objects
        .push(Object {
            material: word(rt, alloc, "M"),
            class: 0,
            nets: Listed::new(alloc),
            procedures: Listed::new(alloc),
            bill: Listed::new(alloc),
            operations: Listed::new(alloc),
        })
        .expect(rt, "memory");
    objects
}

fn model<R: Abort>(rt: &R, alloc: Global) -> Model {
    let dependencies: Listed<NamedDependency> = Listed::new(alloc);
    let nets: Listed<Net> = Listed::new(alloc);
    Model {
        name: word(rt, alloc, "M"),
        version: 1,
        characteristics: characteristics(rt, alloc),
        texts: Listed::new(alloc),
        classes: classes(rt, alloc),
        tables: tables(rt, alloc),
        dependencies,
        nets,
        objects: objects(rt, alloc),
        root: 0,
    }
}

#[test]
fn names_are_found(rt: HostRuntime) -> Result<(), Fail> {
    let model = model(&rt, rt.alloc());
    let names = Names::new(rt.alloc(), &model)?;
    assert!(rt; names.model().name.is(b"M"));
    assert_eq!(rt; names.characteristic("N".as_bytes()), Some(1));
    assert_eq!(rt; names.characteristic("K".as_bytes()), None);
    assert_eq!(rt; names.class("K".as_bytes()), Some(0));
    assert_eq!(rt; names.object("M".as_bytes()), Some(0));
    assert_eq!(rt; names.class_of(Some(0)), Some(0));
    assert_eq!(rt; names.member_of("N".as_bytes(), Some(0)), Some(1));
    assert_eq!(rt; names.member_of("S".as_bytes(), Some(0)), None);
    let table = names.table("T".as_bytes());
    assert!(rt; table.is_some());
    assert!(rt; names.column_in("N".as_bytes(), table).is_some());
    assert!(rt; names.column_in("S".as_bytes(), table).is_none());
    Ok(())
}

#[test]
fn values_are_known(rt: HostRuntime) -> Result<(), Fail> {
    let model = model(&rt, rt.alloc());
    let names = Names::new(rt.alloc(), &model)?;
    assert_eq!(rt; names.sort_of(0), Some(Sort::Texts));
    assert_eq!(rt; names.sort_of(1), Some(Sort::Numbers));
    assert!(rt; names.is_multiple(0));
    assert!(rt; !names.is_multiple(1));
    assert_eq!(rt; names.size_of(1), 7);
    assert_eq!(rt; names.size_of(0), 0);
    Ok(())
}
