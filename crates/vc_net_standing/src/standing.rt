//! What stands, found by place in constant time.

ghost use Rattle.std.specs.Prelude.{◌≡◌, false, replicate, position, slice_get, slice_index_or, IfOk};
ghost use Rattle.vc_base.specs.Sets.{has};
ghost use Rattle.vc_plan.specs.Domains.{atom_count};
ghost use Rattle.vc_plan.specs.Seen.{is_value, same_atom, says};
ghost use Rattle.vc_net_places.specs.Places.{index_of, first_in, place_in};
ghost use Rattle.vc_net_standing.specs.Standing.{atoms_of, is_free, nothing_at, number_if_at, number_if_of, seen_by};
ghost use Rattle.vc_net_standing.specs.Standing.{value_by, value_if_of, with_fact};

use std::alloc::{AllocError, Global};
use std::marker::Model;
use vc_net_places::Places;
use vc_plan::{Atom, Origin, Plan, View};
use vc_rule_yield::atoms::same_value;
use vc_rule_yield::{Bounded, same_atom};
use vc_value::{Listed, Value};

/// An atom that stands, with who gave it.
#[derive(Clone, Copy, Debug, PartialEq, Eq)]
pub struct Fact {
    pub atom: Atom,
    pub origin: Origin,
}

/// What stands, in the order in which it came. That the root is here stands from the start, and is not among the
/// facts. All memory is taken at `new`.
#[derive(Drop)]
pub struct Standing {
    places: Places,
    // By place the number of the fact there. Where there is none it is any number: the fact of this number, if there
    // is one, is of another place. So nothing is to be undone here when facts go.
    numbers: Listed<u32>,
    facts: Bounded<Fact>,
}

impl Model for Standing {
    ghost use Rattle.vc_net_standing.specs.Standing.{Stood};
    ghost use Rattle.vc_net_standing.specs.Keeping.{IsNumbered};

    ghost Value = { Stood };

    ghost view = { λ s. record { index = s.places; facts = s.facts.items } };

    ghost invariant = { λ s. IsNumbered s.places s.numbers s.facts };
}

impl Standing {
    ghost use Rattle.std.specs.Prelude.{◌≡◌, ◌+◌, ◌^◌, ◌<◌, true, nat_eq, position, IfOk, IfSome};
    ghost use Rattle.vc_base.specs.Sets.{has};
    ghost use Rattle.vc_plan.specs.Domains.{atom_count};
    ghost use Rattle.vc_plan.specs.Seen.{is_value, same_atom, says};
    ghost use Rattle.vc_net_places.specs.Places.{index_of};
    ghost use Rattle.vc_net_standing.specs.Standing.{atoms_of, first_facts, is_free, nothing_at, places_of, seen_by};
    ghost use Rattle.vc_net_standing.specs.Standing.{with_fact};

    /// Nothing stands but that the root is here.
    pub fn new(alloc: Global, plan: &Plan) -> Result<Standing, AllocError>
        requires { atom_count plan.now < 2 ^ 32 }
        ensures { IfOk result (λ standing. standing ≡ nothing_at (index_of plan.now)) }
    {
        let places = Places::new(alloc, plan)?;
        let count = places.count();
        let numbers = zeros(alloc, count)?;
        let facts = Bounded::new(alloc, count)?;
        Ok(Standing {
            places,
            numbers,
            facts,
        })
    }

    /// The places of the plan's atoms.
    pub fn places(&self) -> &Places
        ensures { result.now ≡ self.now.index }
    {
        &self.places
    }

    /// The facts, in the order in which they came.
    pub fn facts(&self) -> &[Fact]
        ensures { result.now ≡ self.now.facts }
    {
        self.facts.as_slice()
    }

    /// The number of the atom among the facts, counted from 0, if it is one of them.
    pub fn number_of(&self, atom: Atom) -> Option<usize>
        ensures { result ≡ position (same_atom atom) (atoms_of self.now.facts) }
    {
        let number = number_at(self.numbers.as_slice(), self.places.place_of(atom));
        number_if_of(self.facts.as_slice(), number, atom)
    }

    /// The number of the fact at the place, counted from 0, if there is one.
    pub fn number_by_place(&self, place: usize) -> Option<usize>
        ensures number { result ≡ position (nat_eq place) (places_of self.now.index self.now.facts) }
        ensures few { IfSome result (λ number. number + 1 < 2 ^ 32) }
    {
        let number = number_at(self.numbers.as_slice(), place);
        number_if_at(&self.places, self.facts.as_slice(), number, place)
    }

    /// Whether the atom is one of the facts.
    pub fn has(&self, atom: Atom) -> bool
        ensures { result ≡ has same_atom (atoms_of self.now.facts) atom }
    {
        self.number_of(atom).is_some()
    }

    /// Whether the atom stands, as a fact or as that the root is here.
    pub fn stands(&self, atom: Atom) -> bool
        ensures { result ≡ says (seen_by self.now) atom }
    {
        match atom {
            Atom::Here(slot) => self.here(slot),
            Atom::Out(var, grain) => self.out(var, grain),
            Atom::Is(var, value) => is_value(value, self.value(var)),
        }
    }

    /// Puts a fact at the end. It asks for a place at which nothing stands.
    pub fn put(&mut self, fact: Fact)
        requires { is_free self.old fact.atom ≡ true }
        ensures { self.new ≡ with_fact self.old fact }
    {
        let place = self.places.place_of(fact.atom);
        self.numbers.set(place, self.facts.len() as u32);
        self.facts.push(fact);
    }

    /// Keeps the first facts, so many.
    pub fn truncate(&mut self, count: usize)
        ensures { self.new ≡ first_facts self.old count }
    {
        self.facts.truncate(count);
    }

    /// Lets nothing stand but that the root is here.
    pub fn clear(&mut self)
        ensures { self.new ≡ nothing_at self.old.index }
    {
        self.facts.clear();
    }
}

impl View for Standing {
    ghost use Rattle.vc_net_standing.specs.Standing.{seen_by};

    ghost seen = { λ s. seen_by s };

    fn here(&self, slot: u32) -> bool {
        slot == 0 || self.has(Atom::Here(slot))
    }

    fn out(&self, var: u32, grain: u32) -> bool {
        self.has(Atom::Out(var, grain))
    }

    fn value(&self, var: u32) -> Option<Value> {
        let number = number_at(self.numbers.as_slice(), self.places.first(var));
        value_if_of(self.facts.as_slice(), number, var)
    }
}

/// As many zeros.
pub fn zeros(alloc: Global, count: usize) -> Result<Listed<u32>, AllocError>
    ensures { IfOk result (λ numbers. numbers ≡ replicate count 0) }
{
    let mut numbers = Listed::new(alloc);
    for place in 0..count {
        numbers.push(0)?;
    }
    Ok(numbers)
}

// The number that is kept at the place; 0 past the last.
fn number_at(numbers: &[u32], place: usize) -> usize
    ensures { result ≡ slice_index_or numbers.now place 0 }
{
    match numbers.get(place) {
        Some(number) => *number as usize,
        None => 0,
    }
}

// The number, where the fact of this number is of the atom.
fn number_if_of(facts: &[Fact], number: usize, atom: Atom) -> Option<usize>
    ensures { result ≡ number_if_of atom number (slice_get facts.now number) }
{
    match facts.get(number) {
        Some(fact) if same_atom(atom, fact.atom) => Some(number),
        _ => None,
    }
}

// The number, where the fact of this number is at the place.
fn number_if_at(places: &Places, facts: &[Fact], number: usize, place: usize) -> Option<usize>
    ensures { result ≡ number_if_at places.now place number (slice_get facts.now number) }
{
    match facts.get(number) {
        Some(fact) if place == places.place_of(fact.atom) => Some(number),
        _ => None,
    }
}

// The value that the fact of this number says of the variable.
fn value_if_of(facts: &[Fact], number: usize, var: u32) -> Option<Value>
    ensures { result ≡ value_if_of var (slice_get facts.now number) }
{
    match facts.get(number) {
        Some(fact) => value_by(fact.atom, var),
        None => None,
    }
}

// The value that the atom says of the variable.
fn value_by(atom: Atom, var: u32) -> Option<Value>
    ensures { result ≡ value_by var atom }
{
    match atom {
        Atom::Is(other, value) if other == var => Some(value),
        _ => None,
    }
}

/// Whether it is this value.
pub fn is_value(value: Value, other: Option<Value>) -> bool
    ensures { result ≡ is_value value other }
{
    match other {
        Some(other) => same_value(value, other),
        None => false,
    }
}
