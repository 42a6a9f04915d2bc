//! What one evaluation of a rule yields.

ghost use Rattle.vc_rule_yield.specs.Yielding.{nothing_in, cited, with_cites, concluded, clashed};

use crate::Bounded;
use crate::atoms::{has_atom, same_atom};
use crate::scratch::Scratch;
use std::alloc::{AllocError, Global};
use std::marker::Model;
use vc_plan::Atom;

/// An atom with the cells of its premises.
#[derive(Clone, Copy, Debug)]
pub struct Found {
    pub atom: Atom,
    pub from: usize,
    pub to: usize,
}

/// The atoms that an evaluation gives, each with its premises, or a clash with its premises. It
/// takes all memory at `new`; where its room is too small nothing is added. What it lends to rules
/// as scratch is no part of what it yields.
#[derive(Drop)]
pub struct Yield {
    found: Bounded<Found>,
    cells: Bounded<Atom>,
    cites: Bounded<Atom>,
    clashes: bool,
    scratch: Scratch,
}

impl Model for Yield {
    ghost use Rattle.std.specs.Prelude.{◌≡◌, true, length};
    ghost use Rattle.std.specs.List.{list_all};
    ghost use Rattle.vc_rule_yield.specs.Yielding.{Yielded, yielded_in, is_within};

    ghost Value = { Yielded };

    ghost view = { λ s. yielded_in s.found s.cells s.cites s.clashes };

    ghost invariant = { λ s. list_all (is_within (length s.cells.items)) s.found.items ≡ true };
}

impl Yield {
    ghost use Rattle.std.specs.Prelude.{◌≡◌, ◌<◌, [], length, take, IfOk, IfNone, IfSome, Some, None, map, slice_get};
    ghost use Rattle.std.specs.Prelude.{option_map};

    /// Nothing, with room for so many cited premises, conclusions and premises of these.
    pub fn new(
        alloc: Global,
        cites: usize,
        atoms: usize,
        premises: usize,
    ) -> Result<Yield, AllocError>
        ensures { IfOk result (λ out. out ≡ nothing_in (record { cites = cites; atoms = atoms; premises = premises })) }
    {
        Ok(Yield {
            found: Bounded::new(alloc, atoms)?,
            cells: Bounded::new(alloc, premises)?,
            cites: Bounded::new(alloc, cites)?,
            clashes: false,
            scratch: Scratch {
                notes: None,
                marks: None,
            },
        })
    }

    /// Lends what there is of scratch.
    pub fn take_scratch(&mut self) -> Scratch
        ensures { self.new ≡ self.old }
    {
        Scratch {
            notes: self.scratch.notes.take(),
            marks: self.scratch.marks.take(),
        }
    }

    /// Takes scratch to be lent from now on.
    pub fn put_scratch(&mut self, scratch: Scratch)
        ensures { self.new ≡ self.old }
    {
        self.scratch = scratch;
    }

    /// How many atoms are concluded.
    pub fn count(&self) -> usize
        ensures { result ≡ length self.now.found }
    {
        self.found.len()
    }

    /// Lets all go.
    pub fn clear(&mut self)
        ensures { self.new ≡ nothing_in self.old.rooms }
    {
        self.found.clear();
        self.cells.clear();
        self.cites.clear();
        self.clashes = false;
    }

    /// The atom that is concluded at the place.
    pub fn atom(&self, place: usize) -> Atom
        requires { place < length self.now.found }
        ensures { option_map (λ conclusion. conclusion.atom) (slice_get self.now.found place) ≡ Some result }
    {
        self.found.as_slice()[place].atom
    }

    /// What the atom at the place follows from.
    pub fn premises(&self, place: usize) -> &[Atom]
        requires { place < length self.now.found }
        ensures { option_map (λ conclusion. conclusion.premises) (slice_get self.now.found place) ≡ Some result.now }
    {
        let found = self.found.as_slice()[place];
        &self.cells.as_slice()[found.from..found.to]
    }

    /// What a clash follows from, if there is one.
    pub fn clash(&self) -> Option<&[Atom]>
        ensures some { IfSome result (λ premises. self.now.clash ≡ Some premises.now) }
        ensures none { IfNone result (self.now.clash ≡ None) }
    {
        if self.clashes {
            Some(self.cells.as_slice())
        } else {
            None
        }
    }

    /// Cites the atom for what is concluded next, if it isn't cited yet. That the root is here
    /// isn't cited: it stands from the start.
    pub fn cite(&mut self, atom: Atom)
        ensures { self.new ≡ cited self.old atom }
    {
        if !(same_atom(Atom::Here(0), atom) || has_atom(self.cites.as_slice(), atom)) {
            self.cites.push(atom);
        }
    }

    /// How many premises are cited.
    pub fn cited_count(&self) -> usize
        ensures { result ≡ length self.now.cites }
    {
        self.cites.len()
    }

    /// Keeps the first cited premises, so many.
    pub fn keep_cited(&mut self, count: usize)
        ensures { self.new ≡ with_cites self.old (take count self.old.cites) }
    {
        self.cites.truncate(count);
    }

    /// Concludes the atom from the cited premises.
    pub fn conclude(&mut self, atom: Atom)
        ensures { self.new ≡ concluded self.old atom }
    {
        let from = self.cells.len();
        if !self.clashes && self.cells.has_room(self.cites.len()) && self.found.has_room(1) {
            self.cells.extend(self.cites.as_slice());
            let to = self.cells.len();
            self.found.push(Found { atom, from, to });
        }
    }

    /// Tells a clash from the cited premises, in place of all atoms.
    pub fn clash_now(&mut self)
        ensures { self.new ≡ clashed self.old }
    {
        if !self.clashes && self.cites.len() <= self.cells.room() {
            self.found.clear();
            self.cells.clear();
            self.cells.extend(self.cites.as_slice());
            self.clashes = true;
        }
    }
}
