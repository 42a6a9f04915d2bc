//! Tables as spreadsheets write them, and their faults.

use crate::{TableFault, read_table};
use std::alloc::{AllocError, Global};
use std::test::Fail;
use vc_value::{Column, Dec, Domain, Entry, Grain, GrainList, Listed, TableHeader, Value, Word};

// A key column of texts, which are numbered from 0.
fn text_column(alloc: Global, name: &str, texts: &[&str]) -> Result<Column, AllocError> {
    let mut entries = Listed::new(alloc);
    for (number, text) in texts.iter().enumerate() {
        entries.push(Entry {
            text: Word::from_bytes(alloc, text.as_bytes())?,
            number: number.min(1_000) as u32,
        })?;
    }
    Ok(Column {
        name: Word::from_bytes(alloc, name.as_bytes())?,
        key: true,
        texts: entries,
        domain: Domain::Texts(Listed::new(alloc)),
    })
}

// A column of numbers of one decimal from 0 to 10.
fn number_column(alloc: Global, name: &str) -> Result<Column, AllocError> {
    let mut grains = GrainList::new(alloc);
    grains.add(Grain {
        low: Dec { millionths: 0 },
        high: Dec {
            millionths: 10_000_000,
        },
    })?;
    Ok(Column {
        name: Word::from_bytes(alloc, name.as_bytes())?,
        key: false,
        texts: Listed::new(alloc),
        domain: Domain::Nums {
            decimals: 1,
            grains,
        },
    })
}

fn pump_header(alloc: Global) -> Result<TableHeader, AllocError> {
    let mut columns = Listed::new(alloc);
    columns.push(text_column(alloc, "SIZE", &["S", "M", "L, XL"])?)?;
    columns.push(number_column(alloc, "POWER")?)?;
    Ok(TableHeader {
        name: Word::from_bytes(alloc, b"PUMP_SIZES".as_slice())?,
        columns,
    })
}

#[test]
fn reads_tables(rt: HostRuntime) -> Result<(), Fail> {
    let header = pump_header(rt.alloc())?;
    for text in [
        "SIZE,POWER\nS,1.5\n\"L, XL\",10\n",
        "\u{feff}size,Power\r\n\r\nS,1.50\r\n\"L, XL\",\"10.0\"",
        "\"SIZE\",\"POWER\"\n\"S\",\"1.5\"\n\n\"L, XL\",010\n",
    ] {
        match read_table(rt.alloc(), &header, text.as_bytes()) {
            Ok(table) => {
                let mut values = Vec::new(rt.alloc());
                for row in table.rows.as_slice() {
                    for value in row.cells.as_slice() {
                        values.push(*value)?;
                    }
                }
                let want = [
                    Value::Text(0),
                    Value::Num(Dec {
                        millionths: 1_500_000,
                    }),
                    Value::Text(2),
                    Value::Num(Dec {
                        millionths: 10_000_000,
                    }),
                ];
                assert!(rt; values.as_slice() == want.as_slice(), "{text}");
            }
            Err(_) => assert!(rt; false, "{text}"),
        }
    }
    Ok(())
}

#[test]
fn tells_the_first_fault(rt: HostRuntime) -> Result<(), Fail> {
    let header = pump_header(rt.alloc())?;
    for (text, want) in [
        ("", TableFault::Columns { row: 1 }),
        ("POWER,SIZE\n", TableFault::Columns { row: 1 }),
        ("SIZE,POWER,X\n", TableFault::Columns { row: 1 }),
        ("SIZE,POWER\nS,1\nM\n", TableFault::Columns { row: 3 }),
        ("SIZE,POWER\nS,1,2\nX,1\n", TableFault::Columns { row: 2 }),
        ("SIZE,POWER\nS,1\ns,1\n", TableFault::Cell { row: 3 }),
        ("SIZE,POWER\nS,1.25\n", TableFault::Cell { row: 2 }),
        ("SIZE,POWER\nS,10.1\n", TableFault::Cell { row: 2 }),
        (
            "SIZE,POWER\nS,1\nM,1\nS,2\nX,X\n",
            TableFault::DoubleKey { row: 4 },
        ),
    ] {
        let read = read_table(rt.alloc(), &header, text.as_bytes());
        assert!(rt; read.is_err_and(|fault| fault == want), "{text}");
    }
    Ok(())
}

#[test]
fn tells_too_many_rows(rt: HostRuntime) -> Result<(), Fail> {
    let header = pump_header(rt.alloc())?;
    let mut text = String::from_str(rt.alloc(), "SIZE\n")?;
    for _ in 0..10_000 {
        text.push_str("S\n")?;
    }
    let read = read_table(rt.alloc(), &header, text.as_bytes());
    assert!(rt; read.is_err_and(|fault| fault == TableFault::Columns { row: 1 }));
    text.push_str("S\n")?;
    let read = read_table(rt.alloc(), &header, text.as_bytes());
    assert!(rt; read.is_err_and(|fault| fault == TableFault::TooManyRows));
    Ok(())
}

#[test]
fn numbers_its_faults(rt: HostRuntime) -> Result<(), Fail> {
    for (fault, number, row) in [
        (TableFault::Columns { row: 1 }, Some(1), 1),
        (TableFault::Cell { row: 2 }, Some(2), 2),
        (TableFault::DoubleKey { row: 7 }, Some(3), 7),
        (TableFault::TooManyRows, Some(4), 0),
        (TableFault::OutOfMemory, None, 0),
    ] {
        assert_eq!(rt; fault.number(), number);
        assert_eq!(rt; fault.row(), row);
    }
    Ok(())
}
