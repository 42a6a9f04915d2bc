//! Names in the order in which they were met, each found without going over all of them.

ghost use Rattle.std.specs.Prelude.{◌≡◌, ◌==◌, [], length, Some, IfOk, IsTrue, OnOk};
ghost use Rattle.vc_model_scope.specs.Names.{is_among, place_of, with_name};

use indexmap::IndexSet;
use std::alloc::{AllocError, Global};
use std::marker::Model;
use vc_value::{Listed, Word};

/// Names, which a contract sees as their list; none stands twice.
#[derive(Drop)]
pub struct Names {
    met: IndexSet<Vec<u8>>,
}

impl Model for Names {
    ghost use Rattle.std.specs.Prelude.{List, ℕ, map};

    ghost Value = { List (List ℕ) };

    ghost view = { λ n. map (λ name. name.items) n.met.keys };
}

impl Names {
    /// No names.
    pub fn new(alloc: Global) -> Names
        ensures { result ≡ [] }
    {
        Names {
            met: IndexSet::new(alloc),
        }
    }

    /// How many there are.
    pub fn len(&self) -> usize
        ensures { result ≡ length self.now }
    {
        self.met.len()
    }

    /// Whether there is none.
    pub fn is_empty(&self) -> bool
        ensures { result ≡ (length self.now == 0) }
    {
        self.len() == 0
    }

    /// Whether the name is one of them.
    pub fn has(&self, name: &[u8]) -> bool
        ensures { result ≡ is_among self.now name.now }
    {
        self.met.contains(name)
    }

    /// The name's number, counted from 0, if it is one of them.
    pub fn place(&self, name: &[u8]) -> Option<usize>
        ensures { result ≡ place_of self.now name.now }
    {
        self.met.get_index_of(name)
    }

    // Whether the name is the one at that place; none stands twice.
    fn stands_at(&self, name: &[u8], place: usize) -> bool
        ensures { IsTrue result → place_of self.now name.now ≡ Some place }
    {
        match self.met.as_slice().get(place) {
            Some(there) => there.as_slice() == name,
            None => false,
        }
    }

    /// The name's number as `place` tells it, found at once where it is the one guessed.
    pub fn place_near(&self, name: &[u8], guess: usize) -> Option<usize>
        ensures { result ≡ place_of self.now name.now }
    {
        if self.stands_at(name, guess) {
            return Some(guess);
        }
        self.place(name)
    }

    /// Lets all names go, and keeps the memory for as many.
    pub fn clear(&mut self)
        ensures { self.new ≡ [] }
    {
        self.met.clear();
    }

    /// Puts a name last, unless it is there.
    pub fn add(&mut self, alloc: Global, name: &[u8]) -> Result<(), AllocError>
        ensures { OnOk result (self.new ≡ with_name self.old name.now) }
    {
        let key = Vec::from_slice(alloc, name)?;
        self.met.insert_full(key)?;
        Ok(())
    }

    /// The names as words, none of them copied.
    pub fn into_words(self, alloc: Global) -> Result<Listed<Word>, AllocError>
        ensures { IfOk result (λ words. words ≡ self) }
    {
        let Names { met } = self;
        let mut words = Listed::new(alloc);
        for name in met {
            words.push(Word::from_vec(name))?;
        }
        Ok(words)
    }
}
