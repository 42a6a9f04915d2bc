//! The log of a net.

use crate::cells::{premises_at, write_places};
use crate::coming::{may_come_here, may_come_is, may_come_out};
use crate::counting::{count_less, count_one_more};
use crate::keeping::{facts_from, first_gone, first_gone_at, put_back};
use crate::steps::{number_at, steps_of};
use std::alloc::{AllocError, Global};
use std::marker::Model;
use vc_net_places::Cells;
use vc_net_standing::{Fact, Standing, zeros};
use vc_plan::{Atom, Plan, Step, View};
use vc_plan_sources::Sources;
use vc_rule_yield::Bounded;
use vc_value::{Listed, Value};

/// The steps that a net has concluded, in the order in which they came: what stands, and from which premises. No step
/// has a conclusion that another has. All memory is taken at `new`.
#[derive(Drop)]
pub struct Log {
    standing: Standing,
    cells: Cells,
    // By place how many premises the fact there has. Their places are in the cells from where those of its own place
    // begin. Where nothing stands this is any number: so nothing is to be undone here when steps go.
    counts: Listed<u32>,
    premises: Listed<u32>,
    // By variable how many of its grains are out.
    outs: Listed<u32>,
}

impl Model for Log {
    ghost use Rattle.vc_net_log.specs.Keeping.{IsKept, log_kept};
    ghost use Rattle.vc_net_log.specs.Logs.{Logged};

    ghost Value = { Logged };

    ghost view = { λ l. log_kept l.standing l.cells l.counts l.premises };

    ghost invariant = { λ l. IsKept l.standing l.cells l.counts l.premises l.outs };
}

impl Log {
    ghost use Rattle.std.specs.Prelude.{◌≡◌, ◌++◌, ◌^◌, ◌<◌, ◌≤◌, ◌∷◌, [], true, length, map, position, IfOk};
    ghost use Rattle.std.specs.List.{position_or_len};
    ghost use Rattle.vc_base.specs.Sets.{has, Within};
    ghost use Rattle.vc_plan.specs.Clear.{is_clear};
    ghost use Rattle.vc_plan.specs.Domains.{atom_count};
    ghost use Rattle.vc_rule_grains.specs.Finding.{GrainsFit};
    ghost use Rattle.vc_plan.specs.Seen.{same_atom, says};
    ghost use Rattle.vc_plan_reasons.specs.Checking.{concluded, set_with};
    ghost use Rattle.vc_net_places.specs.Cells.{begins_from, total};
    ghost use Rattle.vc_net_places.specs.Places.{index_of, place_in};
    ghost use Rattle.vc_net_standing.specs.Standing.{is_free};
    ghost use Rattle.vc_net_log.specs.Coming.{are_by_slot};
    ghost use Rattle.vc_net_log.specs.Differing.{SameBeside, are_givable};
    ghost use Rattle.vc_net_log.specs.Staying.{differs};
    ghost use Rattle.vc_net_log.specs.Logs.{cells_of, facts_of, nothing_logged, premise_count, room_at, seen_by};
    ghost use Rattle.vc_net_log.specs.Logs.{set_of, stood_of, with_step};
    ghost use Rattle.vc_net_log.specs.Numbers.{number_by_place, premises_of};
    ghost use Rattle.vc_net_log.specs.Going.{WereTaken, with_steps};
    ghost use Rattle.vc_base.specs.Chains.{cites_earlier};
    ghost use Rattle.vc_plan_reasons.specs.Checking.{step_form};
    ghost use Rattle.vc_plan_reasons.specs.Keeping.{kept_of};

    /// The log without steps, with so many cells for the premises of each place.
    pub fn new(alloc: Global, plan: &Plan, bounds: &[u32]) -> Result<Log, AllocError>
        requires few { atom_count plan.now < 2 ^ 32 }
        requires places { length bounds.now ≡ atom_count plan.now }
        requires cells { total bounds.now < 2 ^ 32 }
        ensures { IfOk result (λ log. log ≡ nothing_logged (index_of plan.now) (begins_from 0 bounds.now)) }
    {
        let standing = Standing::new(alloc, plan)?;
        let cells = Cells::new(alloc, bounds)?;
        let counts = zeros(alloc, bounds.len())?;
        let premises = zeros(alloc, cells.begin(bounds.len()))?;
        let outs = zeros(alloc, plan.vars.len())?;
        Ok(Log {
            standing,
            cells,
            counts,
            premises,
            outs,
        })
    }

    /// What stands by it.
    pub fn standing(&self) -> &Standing
        ensures { result.now ≡ stood_of self.now }
    {
        &self.standing
    }

    /// What the steps conclude, with who gave it.
    pub fn facts(&self) -> &[Fact]
        ensures { result.now ≡ facts_of self.now.steps }
    {
        self.standing.facts()
    }

    /// The number of the step that concludes the atom, counted from 0, if there is one.
    pub fn number_of(&self, atom: Atom) -> Option<usize>
        ensures { result ≡ position (same_atom atom) (concluded self.now.steps) }
    {
        self.standing.number_of(atom)
    }

    /// How many steps there are.
    pub fn count(&self) -> usize
        ensures { result ≡ length self.now.steps }
    {
        self.standing.facts().len()
    }

    /// The places of the atoms that a step follows from; steps are counted from 0.
    pub fn premises(&self, step: usize) -> &[u32]
        requires { step < length self.now.steps }
        ensures { map (number_by_place self.now) result.now ≡ premises_of self.now.steps step }
    {
        let fact = self.standing.facts()[step];
        let place = self.standing.places().place_of(fact.atom);
        premises_at(
            &self.cells,
            self.counts.as_slice(),
            self.premises.as_slice(),
            place,
        )
    }

    /// The premises of all steps are together no more than there is room for: a law of logs, by a call that does
    /// nothing.
    pub fn premises_fit(&self)
        ensures { premise_count self.now.steps ≤ cells_of self.now }
    {
        let _ = &self.premises;
    }

    /// The number of the step that concludes what is at a place, counted from 1; 0 where none does.
    pub fn number_by_place(&self, place: usize) -> u32
        ensures { result ≡ number_by_place self.now place }
    {
        number_at(&self.standing, place)
    }

    /// Whether a step concludes the atom.
    pub fn has(&self, atom: Atom) -> bool
        ensures { result ≡ has same_atom (concluded self.now.steps) atom }
    {
        self.standing.has(atom)
    }

    /// Whether the atom stands, as a conclusion or as that the root is here.
    pub fn stands(&self, atom: Atom) -> bool
        ensures { result ≡ says (seen_by self.now) atom }
    {
        self.standing.stands(atom)
    }

    /// Whether what stands, which is clear, stays so with the atom.
    pub fn may_come(&self, plan: &Plan, atom: Atom) -> bool
        requires grains { GrainsFit plan.now }
        requires index { self.now.index ≡ index_of plan.now }
        requires ordered { are_by_slot plan.now.vars ≡ true }
        requires clear { is_clear plan.now (set_of self.now) ≡ true }
        ensures { result ≡ is_clear plan.now (set_with (concluded self.now.steps ++ atom ∷ [])) }
    {
        let outs = self.outs.as_slice();
        match atom {
            Atom::Here(slot) => may_come_here(plan, outs, slot),
            Atom::Out(var, grain) => may_come_out(plan, &self.standing, outs, var, grain),
            Atom::Is(var, value) => may_come_is(plan, &self.standing, var, value),
        }
    }

    /// Puts a step at the end: a fact, and the premises that it follows from. It asks for a place at which nothing
    /// stands, and for premises that are concluded, no more than there is room for at that place.
    pub fn push(&mut self, fact: Fact, premises: &[Atom])
        requires free { is_free (stood_of self.old) fact.atom ≡ true }
        requires concluded { Within same_atom premises.now (concluded self.old.steps) }
        requires few { length premises.now ≤ room_at self.old.begins (place_in self.old.index fact.atom) }
        ensures { self.new ≡ with_step self.old fact premises.now }
    {
        let place = self.standing.places().place_of(fact.atom);
        let begin = self.cells.begin(place);
        write_places(self.standing.places(), premises, begin, &mut self.premises);
        self.counts.set(place, premises.len() as u32);
        count_one_more(fact.atom, &mut self.outs);
        self.standing.put(fact);
    }

    /// Lets those steps go whose source differs, and those that need one of them. The others stay, in their order. The
    /// facts from the first that goes on are left in the buffer.
    pub fn keep(&mut self, old: &Sources, new: &Sources, taken: &mut Bounded<Fact>)
        requires room { length self.old.steps ≤ taken.old.room }
        requires earlier { cites_earlier step_form 1 self.old.steps ≡ true }
        ensures kept { self.new ≡ with_steps self.old (kept_of old.now new.now self.old.steps) }
        ensures taken { WereTaken self.old.steps self.new.steps taken.new.items }
        ensures room { taken.new.room ≡ taken.old.room }
    {
        let first = first_gone(self.facts(), old, new);
        self.keep_from(first, old, new, taken);
    }

    /// The same with other sources of which the user's values differ for the first variables at most, and what is
    /// written for the second. No step in front of the first that goes is gone through.
    pub fn keep_at(
        &mut self,
        old: &Sources,
        new: &Sources,
        touched: &[u32],
        written: &[u32],
        taken: &mut Bounded<Fact>,
    )
        requires room { length self.old.steps ≤ taken.old.room }
        requires earlier { cites_earlier step_form 1 self.old.steps ≡ true }
        requires givable { are_givable (facts_of self.old.steps) ≡ true }
        requires touched { SameBeside touched.now old.now.user new.now.user }
        requires written { SameBeside written.now old.now.written new.now.written }
        ensures kept { self.new ≡ with_steps self.old (kept_of old.now new.now self.old.steps) }
        ensures taken { WereTaken self.old.steps self.new.steps taken.new.items }
        ensures room { taken.new.room ≡ taken.old.room }
    {
        let first = first_gone_at(&self.standing, old, new, touched, written);
        self.keep_from(first, old, new, taken);
    }

    // Keeps what stays; the first whose source differs is of this number.
    fn keep_from(&mut self, first: usize, old: &Sources, new: &Sources, taken: &mut Bounded<Fact>)
        requires first { first ≡ position_or_len (differs old.now new.now) (facts_of self.old.steps) }
        requires room { length self.old.steps ≤ taken.old.room }
        requires earlier { cites_earlier step_form 1 self.old.steps ≡ true }
        ensures kept { self.new ≡ with_steps self.old (kept_of old.now new.now self.old.steps) }
        ensures taken { WereTaken self.old.steps self.new.steps taken.new.items }
        ensures room { taken.new.room ≡ taken.old.room }
    {
        taken.clear();
        taken.extend(facts_from(self.standing.facts(), first));
        count_less(taken.as_slice(), &mut self.outs);
        self.standing.truncate(first);
        put_back(
            &mut self.standing,
            &mut self.outs,
            &self.cells,
            self.counts.as_slice(),
            self.premises.as_slice(),
            old,
            new,
            taken.as_slice(),
        );
    }

    /// Lets all steps go.
    pub fn clear(&mut self)
        ensures { self.new ≡ nothing_logged self.old.index self.old.begins }
    {
        count_less(self.standing.facts(), &mut self.outs);
        self.standing.clear();
    }

    /// The steps, each with the numbers of its premises.
    pub fn steps(&self, alloc: Global) -> Result<Listed<Step>, AllocError>
        ensures { IfOk result (λ steps. steps ≡ self.now.steps) }
    {
        steps_of(
            alloc,
            &self.standing,
            &self.cells,
            self.counts.as_slice(),
            self.premises.as_slice(),
        )
    }
}

impl View for Log {
    ghost use Rattle.vc_net_log.specs.Logs.{seen_by};

    ghost seen = { λ l. seen_by l };

    fn here(&self, slot: u32) -> bool {
        self.standing.here(slot)
    }

    fn out(&self, var: u32, grain: u32) -> bool {
        self.standing.out(var, grain)
    }

    fn value(&self, var: u32) -> Option<Value> {
        self.standing.value(var)
    }
}
