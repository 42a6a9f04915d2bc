//! A model of one table, read from a shelf in memory.

use std::alloc::Global;
use std::test::Fail;
use vc_app_models::loading::load_plan;
use vc_app_models::stop::ModelStop;
use vc_outside::{FileFault, MemShelf};
use vc_table::TableFault;

const MACHINE: &str =
    "MODEL M VERSION 1\nCHAR A 1 RESTRICTABLE\nVALUE 'X'\nVALUE 'Y'\nTABLE T FILE t.csv\nCOLUMN A KEY\n\
        CLASS K\nHAS A\nOBJECT O CLASS K\nROOT O\n";

// What comes of the model.
#[derive(Clone, Copy, Debug, PartialEq, Eq)]
enum Answer {
    Rows(usize),
    Missing,
    Refused(TableFault),
    Other,
}

// How many rows are read of the table's file, or why the model isn't there.
fn read(alloc: Global, shelf: &mut MemShelf) -> Answer {
    match load_plan(alloc, shelf, "m") {
        Ok(plan) => match plan.tables.as_slice() {
            [table] => Answer::Rows(table.rows.len()),
            _ => Answer::Other,
        },
        Err(
            ModelStop::TableUnread {
                file: _,
                fault: FileFault::Missing,
            },
        ) => Answer::Missing,
        Err(ModelStop::TableRefused { table: _, fault }) => Answer::Refused(fault),
        Err(_) => Answer::Other,
    }
}

#[test]
fn a_model_is_read_with_its_table(rt: HostRuntime) -> Result<(), Fail> {
    let mut shelf = MemShelf::new(rt.alloc());
    shelf.add(rt.alloc(), "m", MACHINE.as_bytes())?;
    assert!(rt; read(rt.alloc(), &mut shelf) == Answer::Missing);
    shelf.add(rt.alloc(), "t.csv", b"A\nX\nY\n".as_slice())?;
    assert!(rt; read(rt.alloc(), &mut shelf) == Answer::Rows(2));
    Ok(())
}

#[test]
fn a_bad_row_is_told_with_its_table(rt: HostRuntime) -> Result<(), Fail> {
    let mut shelf = MemShelf::new(rt.alloc());
    shelf.add(rt.alloc(), "m", MACHINE.as_bytes())?;
    shelf.add(rt.alloc(), "t.csv", b"A\nX\nZ\n".as_slice())?;
    let refused = Answer::Refused(TableFault::Cell { row: 3 });
    assert!(rt; read(rt.alloc(), &mut shelf) == refused);
    Ok(())
}
