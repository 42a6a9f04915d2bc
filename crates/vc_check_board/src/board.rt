//! The board: what a set of atoms says, each found by the slot, the grain or the variable that it is of.

use indexmap::{IndexMap, IndexSet};
use std::alloc::{AllocError, Global};
use std::marker::Model;
use vc_plan::{Atom, View};
use vc_value::Value;

/// A grain of a variable that is out.
#[derive(Clone, Copy, Debug, PartialEq, Eq, Hash)]
pub struct Excluded {
    pub var: u32,
    pub grain: u32,
}

/// What a set of atoms says.
#[derive(Drop)]
pub struct Board {
    here: IndexSet<u32>,
    out: IndexSet<Excluded>,
    values: IndexMap<u32, Value>,
}

impl Model for Board {
    ghost use Rattle.vc_check_board.specs.Boards.{Said};

    ghost Value = { Said };

    ghost view = { λ b. record { here = b.here.keys; out = b.out.keys; values = b.values.entries } };
}

impl Board {
    ghost use Rattle.std.specs.Prelude.{◌≡◌, [], OnOk};
    ghost use Rattle.vc_plan.specs.Seen.{seen_of};
    ghost use Rattle.vc_plan.specs.declared.atoms.Atom.TheVariants.{Here, Is, Out};
    ghost use Rattle.vc_check_board.specs.Boards.{seen_beside, seen_by};

    /// A board on which nothing is.
    pub fn new(alloc: Global) -> Board
        ensures { seen_by result ≡ seen_of [] }
    {
        Board {
            here: IndexSet::new(alloc),
            out: IndexSet::new(alloc),
            values: IndexMap::new(alloc),
        }
    }

    /// Takes all off. What memory was taken stays.
    pub fn clear(&mut self)
        ensures { seen_by self.new ≡ seen_of [] }
    {
        self.here.clear();
        self.out.clear();
        self.values.clear();
    }

    fn put_slot(&mut self, slot: u32) -> Result<(), AllocError>
        ensures { OnOk result (seen_by self.new ≡ seen_beside (Here slot) (seen_by self.old)) }
    {
        self.here.insert(slot)?;
        Ok(())
    }

    fn put_grain(&mut self, var: u32, grain: u32) -> Result<(), AllocError>
        ensures { OnOk result (seen_by self.new ≡ seen_beside (Out var grain) (seen_by self.old)) }
    {
        self.out.insert(Excluded { var, grain })?;
        Ok(())
    }

    fn put_value(&mut self, var: u32, value: Value) -> Result<(), AllocError>
        ensures { OnOk result (seen_by self.new ≡ seen_beside (Is var value) (seen_by self.old)) }
    {
        self.values.insert(var, value)?;
        Ok(())
    }

    /// Puts an atom on, before those that are there.
    pub fn put(&mut self, atom: Atom) -> Result<(), AllocError>
        ensures { OnOk result (seen_by self.new ≡ seen_beside atom (seen_by self.old)) }
    {
        match atom {
            Atom::Here(slot) => self.put_slot(slot),
            Atom::Out(var, grain) => self.put_grain(var, grain),
            Atom::Is(var, value) => self.put_value(var, value),
        }
    }

    /// Takes all off, and puts the atoms of the set on.
    pub fn show(&mut self, set: &[Atom]) -> Result<(), AllocError>
        ensures { OnOk result (seen_by self.new ≡ seen_of set.now) }
    {
        self.clear();
        let mut left = set.len();
        while left > 0 {
            left -= 1;
            self.put(set[left])?;
        }
        Ok(())
    }
}

impl View for Board {
    ghost use Rattle.vc_check_board.specs.Boards.{seen_by};

    ghost seen = { λ b. seen_by b };

    fn here(&self, slot: u32) -> bool {
        self.here.contains(&slot)
    }

    fn out(&self, var: u32, grain: u32) -> bool {
        self.out.contains(&Excluded { var, grain })
    }

    fn value(&self, var: u32) -> Option<Value> {
        self.values.get(&var).copied()
    }
}
