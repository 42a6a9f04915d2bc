//! Rows in the order of their cells.

ghost use Rattle.std.specs.Prelude.{◌≡◌, length, IfOk};

use std::alloc::{AllocError, Global};
use std::test::Fail;
use vc_proc_look_ups::orders::order_of;
use vc_value::{Dec, Listed, Value};

fn row(alloc: Global, cell: Value) -> Result<Listed<Value>, AllocError> {
    let mut row = Listed::new(alloc);
    row.push(cell)?;
    Ok(row)
}

// Two numbers, three texts of which two are the same, and a row without a cell.
fn rows(alloc: Global) -> Result<Listed<Listed<Value>>, AllocError>
    ensures { IfOk result (λ rows. length rows ≡ 6) }
{
    let mut rows = Listed::new(alloc);
    rows.push(row(alloc, Value::Num(Dec { millionths: 2 }))?)?;
    rows.push(row(alloc, Value::Text(1))?)?;
    rows.push(row(alloc, Value::Num(Dec { millionths: -1 }))?)?;
    rows.push(row(alloc, Value::Text(0))?)?;
    rows.push(row(alloc, Value::Text(1))?)?;
    rows.push(Listed::new(alloc))?;
    Ok(rows)
}

#[test]
fn rows_stand_by_their_cells(rt: HostRuntime) -> Result<(), Fail> {
    let rows = rows(rt.alloc())?;
    let order = order_of(rt.alloc(), rows.as_slice(), [0].as_slice())?;
    assert!(rt; order.as_slice() == [5, 3, 1, 4, 2, 0].as_slice());
    Ok(())
}
