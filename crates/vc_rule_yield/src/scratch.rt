//! Memory that a rule writes to while it is evaluated. What stands in it from before says nothing.

ghost use Rattle.std.specs.Prelude.{◌≡◌, IfOk};
ghost use Rattle.vc_rule_yield.specs.Scratches.{has_rooms};

use std::alloc::{AllocError, Global};
use vc_value::Listed;

/// Where a row of a table doesn't fit, by places among columns: the first that it doesn't fit in, and the first of
/// those that are given something else. A place past the columns stands for none.
#[derive(Clone, Copy, Debug)]
pub struct Note {
    pub first: usize,
    pub second: usize,
}

/// Notes by rows, and by texts a grain that is left and has the text.
#[derive(Drop)]
pub struct Notes {
    pub rows: Listed<Note>,
    pub left: Listed<u32>,
}

/// By keys, which are texts or grains: whether a possible row has the key, and the first row that has it; and by rows
/// the next row with the same key.
#[derive(Drop)]
pub struct Marks {
    pub had: Listed<bool>,
    pub heads: Listed<usize>,
    pub next: Listed<usize>,
}

/// What a yield lends to a rule; nothing while it is lent.
#[derive(Drop)]
pub struct Scratch {
    pub notes: Option<Notes>,
    pub marks: Option<Marks>,
}

impl Scratch {
    /// Room for so many rows of a table, and so many keys.
    pub fn new(alloc: Global, rows: usize, keys: usize) -> Result<Scratch, AllocError>
        ensures { IfOk result (λ scratch. has_rooms rows keys scratch) }
    {
        Ok(Scratch {
            notes: Some(Notes::new(alloc, rows, keys)?),
            marks: Some(Marks::new(alloc, rows, keys)?),
        })
    }
}

impl Notes {
    ghost use Rattle.vc_rule_yield.specs.Scratches.{has_notes};

    fn new(alloc: Global, rows: usize, keys: usize) -> Result<Notes, AllocError>
        ensures { IfOk result (λ notes. has_notes rows keys notes) }
    {
        let none = Note {
            first: 0,
            second: 0,
        };
        Ok(Notes {
            rows: Listed::from_vec(vec![in alloc; none; rows]?),
            left: Listed::from_vec(vec![in alloc; 0; keys]?),
        })
    }
}

impl Marks {
    ghost use Rattle.vc_rule_yield.specs.Scratches.{has_marks};

    fn new(alloc: Global, rows: usize, keys: usize) -> Result<Marks, AllocError>
        ensures { IfOk result (λ marks. has_marks rows keys marks) }
    {
        Ok(Marks {
            had: Listed::from_vec(vec![in alloc; false; keys]?),
            heads: Listed::from_vec(vec![in alloc; 0; keys]?),
            next: Listed::from_vec(vec![in alloc; 0; rows]?),
        })
    }
}
