//! The entries of a number's values, each found without going over all of them.

ghost use Rattle.std.specs.Prelude.{◌≡◌, [], length, OnOk};
ghost use Rattle.vc_model_scope.specs.Entries.{last_entry, lists_entry, with_entry};

use indexmap::IndexSet;
use std::alloc::{AllocError, Global};
use std::marker::Model;
use vc_value::Dec;

/// The numbers from one to another, both included.
#[derive(Clone, Copy, Debug, PartialEq, Eq, Hash)]
pub struct Interval {
    pub low: Dec,
    pub high: Dec,
}

/// Entries, which a contract sees as their list; none stands twice.
#[derive(Drop)]
pub struct Entries {
    met: IndexSet<Interval>,
}

impl Model for Entries {
    ghost use Rattle.std.specs.Prelude.{List};
    ghost use Rattle.vc_model_scope.specs.declared.entries.Interval.{Interval as Entry};

    ghost Value = { List Entry };

    ghost view = { λ e. e.met.keys };
}

impl Entries {
    /// No entries.
    pub fn new(alloc: Global) -> Entries
        ensures { result ≡ [] }
    {
        Entries {
            met: IndexSet::new(alloc),
        }
    }

    /// How many there are.
    pub fn len(&self) -> usize
        ensures { result ≡ length self.now }
    {
        self.met.len()
    }

    /// Whether the entry is one of them.
    pub fn has(&self, entry: Interval) -> bool
        ensures { result ≡ lists_entry self.now entry }
    {
        self.met.contains(&entry)
    }

    /// The entry met last.
    pub fn last(&self) -> Option<Interval>
        ensures { result ≡ last_entry self.now }
    {
        self.met.last().copied()
    }

    /// Puts an entry last, unless it is there.
    pub fn add(&mut self, entry: Interval) -> Result<(), AllocError>
        ensures { OnOk result (self.new ≡ with_entry self.old entry) }
    {
        self.met.insert_full(entry)?;
        Ok(())
    }
}
