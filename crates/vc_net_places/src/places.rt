//! The places of a plan's atoms, made once.

ghost use Rattle.std.specs.Prelude.{◌≡◌, ◌^◌, ◌<◌, ◌++◌, IfOk, OnOk};
ghost use Rattle.vc_plan.specs.Domains.{atom_count, count_of};
ghost use Rattle.vc_net_places.specs.Places.{place_after, things_before, things_of_var, told_place};

use std::alloc::{AllocError, Global};
use std::marker::Model;
use vc_plan::{Atom, Plan, count_of};
use vc_value::Listed;

/// What an atom is of.
#[derive(Clone, Copy, Debug, PartialEq, Eq)]
pub enum Thing {
    Slot(u32),
    Var(u32),
}

/// What may stand at a place.
#[derive(Clone, Copy, Debug, PartialEq, Eq)]
pub enum Spot {
    /// That the slot is here.
    Here(u32),
    /// That the grain of the variable is excluded.
    Out(u32, u32),
    /// The variable's value, whichever it has.
    Is(u32),
}

/// The places of a plan's atoms: the slots first, then variable by variable one for its value and one for each of its
/// grains. All memory is taken at `new`.
#[derive(Debug, Drop)]
pub struct Places {
    firsts: Listed<u32>,
    things: Listed<Thing>,
}

impl Model for Places {
    ghost use Rattle.vc_net_places.specs.Places.{Index};

    ghost Value = { Index };

    ghost view = { λ p. record { firsts = p.firsts; things = p.things } };
}

impl Places {
    ghost use Rattle.std.specs.Prelude.{◌≡◌, ◌^◌, ◌<◌, length, slice_get, IfOk, Some};
    ghost use Rattle.vc_plan.specs.Domains.{atom_count};
    ghost use Rattle.vc_net_places.specs.Places.{first_in, index_of, place_in, place_numbered, told_place};

    /// The places of the plan's atoms.
    pub fn new(alloc: Global, plan: &Plan) -> Result<Places, AllocError>
        requires { atom_count plan.now < 2 ^ 32 }
        ensures { IfOk result (λ places. places ≡ index_of plan.now) }
    {
        let mut firsts = Listed::new(alloc);
        let mut things = slots_of(alloc, plan)?;
        for var in 0..plan.vars.len() {
            firsts.push(things.len() as u32)?;
            append_var(plan, var as u32, &mut things)?;
        }
        Ok(Places { firsts, things })
    }

    /// How many places there are.
    pub fn count(&self) -> usize
        ensures { result ≡ length self.now.things }
    {
        self.things.len()
    }

    /// The place of a variable's value; those of its grains follow it. 0 where there is no such variable.
    pub fn first(&self, var: u32) -> usize
        ensures place { result ≡ first_in self.now var }
        ensures small { result < 2 ^ 32 }
    {
        match self.firsts.as_slice().get(var as usize) {
            Some(first) => *first as usize,
            None => 0,
        }
    }

    /// The place of the atom; where the plan has no such place, another or none.
    pub fn place_of(&self, atom: Atom) -> usize
        ensures { result ≡ place_in self.now atom }
    {
        match atom {
            Atom::Here(slot) => slot as usize,
            Atom::Out(var, grain) => self.first(var) + (1 + grain as usize),
            Atom::Is(var, _) => self.first(var),
        }
    }

    /// What the place is of.
    pub fn thing(&self, place: usize) -> Thing
        requires { place < length self.now.things }
        ensures { slice_get self.now.things place ≡ Some result }
    {
        self.things.as_slice()[place]
    }

    /// What may stand at the place.
    pub fn spot(&self, place: usize) -> Spot
        requires inside { place < length self.now.things }
        requires few { length self.now.things < 2 ^ 32 }
        ensures { told_place result ≡ place_numbered self.now place }
    {
        match self.thing(place) {
            Thing::Slot(slot) => Spot::Here(slot),
            Thing::Var(var) => spot_after(var, place.saturating_sub(self.first(var)) as u32),
        }
    }
}

// What may stand at one of a variable's places: its value, then its grains.
fn spot_after(var: u32, rest: u32) -> Spot
    ensures { told_place result ≡ place_after var rest }
{
    if rest == 0 {
        Spot::Is(var)
    } else {
        Spot::Out(var, rest - 1)
    }
}

// The places of the slots.
#[tactic(auto, using(crate::proofs::PlaceLaws::Things::mapped_next, crate::proofs::PlaceLaws::Things::slots_first))]
fn slots_of(alloc: Global, plan: &Plan) -> Result<Listed<Thing>, AllocError>
    requires { atom_count plan.now < 2 ^ 32 }
    ensures { IfOk result (λ things. things ≡ things_before plan.now 0) }
{
    let mut things = Listed::new(alloc);
    for slot in 0..plan.slots.len() {
        things.push(Thing::Slot(slot as u32))?;
    }
    Ok(things)
}

// The places of the variable's value and grains, after the others.
#[tactic(auto, using(crate::proofs::PlaceLaws::Things::replicate_next))]
fn append_var(plan: &Plan, var: u32, things: &mut Listed<Thing>) -> Result<(), AllocError>
    requires { count_of plan.now var < 2 ^ 32 }
    ensures { OnOk result (things.new ≡ things.old ++ things_of_var plan.now var) }
{
    for grain in 0..count_of(plan, var) + 1 {
        things.push(Thing::Var(var))?;
    }
    Ok(())
}
