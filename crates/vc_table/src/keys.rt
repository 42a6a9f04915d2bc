//! The key cells of the rows of a table, each looked up without going over all rows.

ghost use Rattle.std.specs.Prelude.{◌≡◌, [], ◌∷◌, ◌++◌, not, IfOk};
ghost use Rattle.std.specs.Bool.{OnTrue};
ghost use Rattle.std.specs.List.{list_any};
ghost use Rattle.vc_table.specs.Tables.{key_of, is_among, has_keys};

use indexmap::IndexSet;
use std::alloc::{AllocError, Global};
use std::marker::Model;
use vc_value::{Column, Value};

/// Key cells, which a contract sees as a list, in the order of the rows.
#[derive(Drop)]
pub(crate) struct Keys {
    met: IndexSet<Vec<Value>>,
}

impl Model for Keys {
    ghost use Rattle.std.specs.Prelude.{List, map};
    ghost use Rattle.vc_value.specs.declared.value.Value.{Value as Cell};

    ghost Value = { List (List Cell) };

    ghost view = { λ k. map (λ key. key.items) k.met.keys };
}

impl Keys {
    pub(crate) fn new(alloc: Global) -> Keys
        ensures { result ≡ [] }
    {
        Keys {
            met: IndexSet::new(alloc),
        }
    }

    // Adds a key, and answers whether it is new.
    pub(crate) fn meet(&mut self, key: Vec<Value>) -> Result<bool, AllocError>
        ensures fresh { IfOk result (λ fresh. fresh ≡ not (is_among key.items self.old)) }
        ensures keys { IfOk result (λ fresh. OnTrue fresh (self.new ≡ self.old ++ key.items ∷ [])) }
    {
        let (_, fresh) = self.met.insert_full(key)?;
        Ok(fresh)
    }
}

// Whether the table has key columns.
pub(crate) fn has_keys(columns: &[Column]) -> bool
    ensures { result ≡ has_keys columns.now }
{
    columns.iter().any(|column| column.key)
}

// The cells of the key columns.
pub(crate) fn key_of(
    alloc: Global,
    columns: &[Column],
    cells: &[Value],
) -> Result<Vec<Value>, AllocError>
    ensures { IfOk result (λ key. key.items ≡ key_of columns.now cells.now) }
{
    let mut key = Vec::new(alloc);
    for (index, column) in columns.iter().enumerate() {
        let Some(cell) = cells.get(index) else {
            return Ok(key);
        };
        if column.key {
            key.push(*cell)?;
        }
    }
    Ok(key)
}
