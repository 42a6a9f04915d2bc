//! The numbers of a column's texts, each found without going over all of them.

ghost use Rattle.std.specs.Prelude.{◌≡◌, ℕ, List, [], ◌∷◌, ◌++◌, IfOk, OnOk};
ghost use Rattle.vc_table.specs.Tables.{text_number};

use indexmap::IndexMap;
use std::alloc::{AllocError, Global};
use std::marker::Model;
use vc_value::Entry;

/// Texts with their numbers, which a contract sees as a list of entries, no text twice.
#[derive(Drop)]
pub(crate) struct TextIndex {
    numbers: IndexMap<Vec<u8>, u32>,
}

impl Model for TextIndex {
    ghost use Rattle.std.specs.Prelude.{List};
    ghost use Rattle.vc_value.specs.declared.table_header.Entry.{Entry as Numbered};
    ghost use Rattle.vc_table.specs.Tables.{entries_of};

    ghost Value = { List Numbered };

    ghost view = { λ t. entries_of (λ text. text.items) t.numbers.entries };
}

impl TextIndex {
    /// The index of the entries. Of equal texts it keeps the first.
    pub(crate) fn new(alloc: Global, entries: &[Entry]) -> Result<TextIndex, AllocError>
        ensures { IfOk result (λ index. (text : List ℕ) → text_number index text ≡ text_number entries.now text) }
    {
        let mut index = TextIndex {
            numbers: IndexMap::new(alloc),
        };
        for entry in entries {
            index.add(alloc, entry)?;
        }
        Ok(index)
    }

    // Adds an entry, unless its text is there.
    fn add(&mut self, alloc: Global, entry: &Entry) -> Result<(), AllocError>
        ensures { OnOk result ((text : List ℕ) → text_number self.new text
            ≡ text_number (self.old ++ entry.now ∷ []) text) }
    {
        let text = entry.text.bytes();
        if self.find(text).is_none() {
            let key = Vec::from_slice(alloc, text)?;
            self.numbers.insert(key, entry.number)?;
        }
        Ok(())
    }

    /// The number of the first entry with this text.
    pub(crate) fn find(&self, text: &[u8]) -> Option<u32>
        ensures { result ≡ text_number self.now text.now }
    {
        self.numbers.get(text).copied()
    }
}
