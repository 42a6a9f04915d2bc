//! A model of one object and one table, as its plan keeps it, and a characteristic.

use std::alloc::{AllocError, Global};
use std::test::Fail;
use vc_compile_tables::{characteristics_of, dependency_names, objects_of, tables_of};
use vc_model_parts::parts::{
    BillItem, Characteristic, Class, Model, NamedDependency, Net, NumberValue, Object, Operation,
    Table, TableColumn, Values,
};
use vc_syntax_tree::{Dependency, Statement};
use vc_table::{Row, VariantTable};
use vc_value::{Listed, Value, Word};

fn word(alloc: Global, text: &str) -> Result<Word, AllocError> {
    Word::from_bytes(alloc, text.as_bytes())
}

fn two(alloc: Global, first: u32, second: u32) -> Result<Listed<u32>, AllocError> {
    let mut numbers = Listed::new(alloc);
    numbers.push(first)?;
    numbers.push(second)?;
    Ok(numbers)
}

fn classes(alloc: Global) -> Result<Listed<Class>, AllocError> {
    let mut classes = Listed::new(alloc);
    classes.push(Class {
        name: word(alloc, "K")?,
        members: two(alloc, 1, 0)?,
    })?;
    Ok(classes)
}

fn objects(alloc: Global) -> Result<Listed<Object>, AllocError> {
    let bill: Listed<BillItem> = Listed::new(alloc);
    let operations: Listed<Operation> = Listed::new(alloc);
    let mut objects = Listed::new(alloc);
    objects.push(Object {
        material: word(alloc, "PUMP")?,
        class: 0,
        nets: Listed::new(alloc),
        procedures: Listed::new(alloc),
        bill,
        operations,
    })?;
    Ok(objects)
}

fn tables(alloc: Global) -> Result<Listed<Table>, AllocError> {
    let mut columns = Listed::new(alloc);
    columns.push(TableColumn {
        characteristic: 1,
        key: true,
    })?;
    let mut tables = Listed::new(alloc);
    tables.push(Table {
        name: word(alloc, "T")?,
        file: word(alloc, "t.csv")?,
        columns,
    })?;
    Ok(tables)
}

fn model(alloc: Global) -> Result<Model, AllocError> {
    let characteristics: Listed<Characteristic> = Listed::new(alloc);
    let dependencies: Listed<NamedDependency> = Listed::new(alloc);
    let nets: Listed<Net> = Listed::new(alloc);
    Ok(Model {
        name: word(alloc, "M")?,
        version: 1,
        characteristics,
        texts: Listed::new(alloc),
        classes: classes(alloc)?,
        tables: tables(alloc)?,
        dependencies,
        nets,
        objects: objects(alloc)?,
        root: 0,
    })
}

fn rows(alloc: Global) -> Result<Listed<VariantTable>, AllocError> {
    let mut cells = Listed::new(alloc);
    cells.push(Value::Text(3))?;
    let mut rows = Listed::new(alloc);
    rows.push(Row { cells })?;
    let mut read = Listed::new(alloc);
    read.push(VariantTable { rows })?;
    Ok(read)
}

fn objects_are_kept(alloc: Global, model: &Model) -> Result<bool, AllocError> {
    let objects = objects_of(alloc, model)?;
    match objects.as_slice() {
        [object] => Ok(
            object.material.is(b"PUMP".as_slice())
                && object.characteristics.as_slice() == [1, 0].as_slice(),
        ),
        _ => Ok(false),
    }
}

fn tables_are_kept(alloc: Global, model: &Model) -> Result<bool, AllocError> {
    let read = rows(alloc)?;
    let tables = tables_of(alloc, model, read.as_slice())?;
    match tables.as_slice() {
        [table] => Ok(table.name.is(b"T".as_slice()) && table.rows.len() == 1),
        _ => Ok(false),
    }
}

fn all_is_kept(alloc: Global) -> Result<bool, AllocError> {
    let model = model(alloc)?;
    Ok(objects_are_kept(alloc, &model)? && tables_are_kept(alloc, &model)?)
}

fn first_name(alloc: Global) -> Result<bool, AllocError> {
    let statements: Listed<Statement> = Listed::new(alloc);
    let mut dependencies = Listed::new(alloc);
    dependencies.push(NamedDependency {
        name: word(alloc, "P_IDLE")?,
        tree: Dependency::Procedure(statements),
        line: 1,
    })?;
    let names = dependency_names(alloc, dependencies.as_slice())?;
    match names.as_slice() {
        [name] => Ok(name.is(b"P_IDLE".as_slice())),
        _ => Ok(false),
    }
}

// A characteristic of numbers in bar, without a listed value.
fn pressures(alloc: Global) -> Result<Listed<Characteristic>, AllocError> {
    let values: Listed<NumberValue> = Listed::new(alloc);
    let mut characteristics = Listed::new(alloc);
    characteristics.push(Characteristic {
        name: word(alloc, "PRESSURE")?,
        restrictable: false,
        required: true,
        uses: Listed::new(alloc),
        values: Values::Numbers {
            decimals: 1,
            unit: Some(word(alloc, "bar")?),
            values,
        },
    })?;
    Ok(characteristics)
}

fn pressure_is_kept(alloc: Global) -> Result<bool, AllocError> {
    let declared = pressures(alloc)?;
    let kept = characteristics_of(alloc, declared.as_slice())?;
    match kept.as_slice() {
        [pressure] => {
            let unit = pressure.unit.as_ref();
            Ok(pressure.required && unit.is_some_and(|unit| unit.is(b"bar".as_slice())))
        }
        _ => Ok(false),
    }
}

#[test]
fn objects_and_tables_are_kept(rt: HostRuntime) -> Result<(), Fail> {
    assert!(rt; all_is_kept(rt.alloc())?);
    assert!(rt; first_name(rt.alloc())?);
    assert!(rt; pressure_is_kept(rt.alloc())?);
    Ok(())
}
