//! Characteristics with their values, classes and tables.

use crate::pieces::{Bare, Flag, Numbers, Printed};
use std::alloc::Global;
use std::fmt;
use vc_model_parts::{Characteristic, Class, NumberValue, Table, TableColumn, TextValue, Values};
use vc_value::Word;

pub fn put_characteristic<W: fmt::Write>(
    f: &mut fmt::Formatter<W>,
    alloc: Global,
    characteristic: &Characteristic,
) -> fmt::Result {
    let name = Bare {
        word: &characteristic.name,
    };
    let restrictable = Flag {
        stands: characteristic.restrictable,
        word: " RESTRICTABLE",
    };
    let required = Flag {
        stands: characteristic.required,
        word: " REQUIRED",
    };
    let uses = used(characteristic.uses.as_slice());
    write!(f, "\nCHARACTERISTIC {name}{restrictable}{required}{uses}")?;
    put_values(f, alloc, &characteristic.values)
}

fn used(uses: &[u32]) -> Numbers<'_> {
    Numbers {
        title: " USES",
        numbers: uses,
    }
}

fn put_values<W: fmt::Write>(
    f: &mut fmt::Formatter<W>,
    alloc: Global,
    values: &Values,
) -> fmt::Result {
    match values {
        Values::Texts {
            length,
            multiple,
            values,
        } => put_texts(f, *length, *multiple, values.as_slice()),
        Values::Numbers {
            decimals,
            unit,
            values,
        } => put_intervals(f, alloc, *decimals, unit, values.as_slice()),
    }
}

fn put_texts<W: fmt::Write>(
    f: &mut fmt::Formatter<W>,
    length: u8,
    multiple: bool,
    values: &[TextValue],
) -> fmt::Result {
    let multiple = Flag {
        stands: multiple,
        word: " MULTIPLE",
    };
    write!(f, " LENGTH {length}{multiple}")?;
    for value in values {
        put_text_value(f, value)?;
    }
    Ok(())
}

fn put_text_value<W: fmt::Write>(f: &mut fmt::Formatter<W>, value: &TextValue) -> fmt::Result {
    let text = value.text;
    let uses = used(value.uses.as_slice());
    write!(f, "\n  TEXT {text}{uses}")
}

fn put_intervals<W: fmt::Write>(
    f: &mut fmt::Formatter<W>,
    alloc: Global,
    decimals: u8,
    unit: &Option<Word>,
    values: &[NumberValue],
) -> fmt::Result {
    write!(f, " DECIMALS {decimals}")?;
    put_unit(f, unit)?;
    for value in values {
        put_interval(f, alloc, value)?;
    }
    Ok(())
}

fn put_unit<W: fmt::Write>(f: &mut fmt::Formatter<W>, unit: &Option<Word>) -> fmt::Result {
    match unit {
        Some(word) => {
            let unit = Bare { word };
            write!(f, " UNIT {unit}")
        }
        None => Ok(()),
    }
}

fn put_interval<W: fmt::Write>(
    f: &mut fmt::Formatter<W>,
    alloc: Global,
    value: &NumberValue,
) -> fmt::Result {
    let low = Printed {
        alloc,
        number: value.low,
    };
    let high = Printed {
        alloc,
        number: value.high,
    };
    let uses = used(value.uses.as_slice());
    write!(f, "\n  FROM {low} TO {high}{uses}")
}

pub fn put_class<W: fmt::Write>(f: &mut fmt::Formatter<W>, class: &Class) -> fmt::Result {
    let name = Bare { word: &class.name };
    let members = Numbers {
        title: " HAS",
        numbers: class.members.as_slice(),
    };
    write!(f, "\nCLASS {name}{members}")
}

pub fn put_table<W: fmt::Write>(f: &mut fmt::Formatter<W>, table: &Table) -> fmt::Result {
    let name = Bare { word: &table.name };
    let file = Bare { word: &table.file };
    write!(f, "\nTABLE {name} FILE {file}")?;
    for column in table.columns.as_slice() {
        put_column(f, *column)?;
    }
    Ok(())
}

fn put_column<W: fmt::Write>(f: &mut fmt::Formatter<W>, column: TableColumn) -> fmt::Result {
    let characteristic = column.characteristic;
    let key = Flag {
        stands: column.key,
        word: " KEY",
    };
    write!(f, " COLUMN {characteristic}{key}")
}
