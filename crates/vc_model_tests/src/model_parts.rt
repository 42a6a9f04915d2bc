//! The header of a table with a column of texts, which is its key, and one of numbers.

use std::alloc::Global;
use std::process::Abort;
use std::test::Fail;
use vc_model_parts::headers::{domain_of, header, table_count, table_file};
use vc_model_parts::parts::{
    Characteristic, Class, Model, NamedDependency, Net, NumberValue, Object, Table, TableColumn,
    TextValue, Values,
};
use vc_value::{Column, Dec, Domain, Entry, Listed, Word};

fn text_value(alloc: Global, text: u32) -> TextValue {
    TextValue {
        text,
        uses: Listed::new(alloc),
    }
}

fn number_value(alloc: Global, low: i64, high: i64) -> NumberValue {
    NumberValue {
        low: Dec { millionths: low },
        high: Dec { millionths: high },
        uses: Listed::new(alloc),
    }
}

fn characteristic<R: Abort>(rt: &R, alloc: Global, name: &str, values: Values) -> Characteristic {
    Characteristic {
        name: Word::from_bytes(alloc, name.as_bytes()).expect(rt, "memory"),
        restrictable: false,
        required: false,
        uses: Listed::new(alloc),
        values,
    }
}

fn characteristics<R: Abort>(rt: &R, alloc: Global) -> Listed<Characteristic> {
    let mut texts = Listed::new(alloc);
    texts.push(text_value(alloc, 1)).expect(rt, "memory");
    texts.push(text_value(alloc, 7)).expect(rt, "memory");
    let mut numbers = Listed::new(alloc);
    numbers.push(number_value(alloc, 1, 2)).expect(rt, "memory");
    numbers.push(number_value(alloc, 2, 3)).expect(rt, "memory");
    numbers.push(number_value(alloc, 4, 4)).expect(rt, "memory");
    let mut all = Listed::new(alloc);
    all.push(characteristic(
        rt,
        alloc,
        "FLOW",
        Values::Numbers {
            decimals: 1,
            unit: None,
            values: numbers,
        },
    ))
    .expect(rt, "memory");
    all.push(characteristic(
        rt,
        alloc,
        "SIZE",
        Values::Texts {
            length: 1,
            multiple: false,
            values: texts,
        },
    ))
    .expect(rt, "memory");
    all
}

fn tables<R: Abort>(rt: &R, alloc: Global) -> Listed<Table> {
    let mut columns = Listed::new(alloc);
    columns
        .push(TableColumn {
            characteristic: 1,
            key: true,
        })
        .expect(rt, "memory");
    columns
        .push(TableColumn {
            characteristic: 0,
            key: false,
        })
        .expect(rt, "memory");
    let mut tables = Listed::new(alloc);
    tables
        .push(Table {
            name: Word::from_bytes(alloc, b"SF").expect(rt, "memory"),
            file: Word::from_bytes(alloc, b"sf.csv").expect(rt, "memory"),
            columns,
        })
        .expect(rt, "memory");
    tables
}

fn model<R: Abort>(rt: &R, alloc: Global) -> Model {
    let classes: Listed<Class> = Listed::new(alloc);
    let dependencies: Listed<NamedDependency> = Listed::new(alloc);
    let nets: Listed<Net> = Listed::new(alloc);
    let objects: Listed<Object> = Listed::new(alloc);
    let mut texts = Listed::new(alloc);
    texts
        .push(Word::from_bytes(alloc, b"S").expect(rt, "memory"))
        .expect(rt, "memory");
    texts
        .push(Word::from_bytes(alloc, b"L").expect(rt, "memory"))
        .expect(rt, "memory");
    Model {
        name: Word::from_bytes(alloc, b"M").expect(rt, "memory"),
        version: 1,
        characteristics: characteristics(rt, alloc),
        texts,
        classes,
        tables: tables(rt, alloc),
        dependencies,
        nets,
        objects,
        root: 0,
    }
}

#[test]
fn a_header_has_the_values_of_its_columns(rt: HostRuntime) -> Result<(), Fail> {
    let model = model(&rt, rt.alloc());
    assert_eq!(rt; table_count(&model), 1);
    if model.tables.len() == 1 {
        assert!(rt; table_file(&model, 0).is(b"sf.csv"));
        let header = header(rt.alloc(), &model, 0)?;
        assert!(rt; header.name.is(b"SF"));
        assert!(rt; are_as_wanted(header.columns.as_slice()));
    }
    Ok(())
}

// The text of no number in the model isn't in the column, nor is the interval that overlaps.
fn are_as_wanted(columns: &[Column]) -> bool {
    match columns {
        [size, flow] => {
            size.name.is(b"SIZE")
                && size.key
                && is_large(size.texts.as_slice())
                && matches!(&size.domain, Domain::Texts(texts) if texts.as_slice() == [1, 7].as_slice())
                && flow.name.is(b"FLOW")
                && !flow.key
                && flow.texts.is_empty()
                && matches!(&flow.domain, Domain::Nums { decimals: 1, grains } if grains.count() == 2)
        }
        _ => false,
    }
}

fn is_large(entries: &[Entry]) -> bool {
    match entries {
        [entry] => entry.text.is(b"L") && entry.number == 1,
        _ => false,
    }
}

fn listed<R: Abort>(rt: &R, alloc: Global) -> Domain {
    let mut values = Listed::new(alloc);
    values
        .push(TextValue {
            text: 5,
            uses: Listed::new(alloc),
        })
        .expect(rt, "memory");
    domain_of(
        alloc,
        &Values::Texts {
            length: 1,
            multiple: true,
            values,
        },
    )
    .expect(rt, "memory")
}

#[test]
fn a_domain_has_the_numbers_of_texts(rt: HostRuntime) -> Result<(), Fail> {
    let domain = listed(&rt, rt.alloc());
    assert!(rt; matches!(&domain, Domain::Texts(texts) if texts.as_slice() == [5].as_slice()));
    Ok(())
}
