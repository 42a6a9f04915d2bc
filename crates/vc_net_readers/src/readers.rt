//! Which rules touch a slot or a variable.

ghost use Rattle.std.specs.Prelude.{◌≡◌, ◌^◌, ◌<◌, length, map, slice_get, IfOk, OnOk};
ghost use Rattle.vc_net_readers.specs.Filing.{filed_at_all, filed_at_each, list_at};
ghost use Rattle.vc_net_readers.specs.Glances.{glance_at, glances_of};
ghost use Rattle.vc_net_readers.specs.Readers.{awaited_lists, free_lists, place_lists, slot_lists, var_lists};
ghost use Rattle.vc_net_readers.specs.Readers.{trigger_at, waiter_lists};
ghost use Rattle.vc_net_readers.specs.Touched.{slots_by, vars_by};
ghost use Rattle.vc_net_readers.specs.Waiting.{awaited_by, free_by, waits_by};
ghost use Rattle.vc_rule_grains.specs.Finding.{GrainsFit};
ghost use Rattle.vc_net_places.specs.Places.{index_of};

use crate::filing::{empty_lists, file_at, file_at_all};
use crate::glances::{Glance, Hint, glance_by};
use crate::lists::Lists;
use crate::touched::{touched_slots, touched_vars};
use crate::triggers::{place_of_trigger, trigger_by};
use std::alloc::{AllocError, Global};
use std::marker::Model;
use vc_net_laws::Trigger;
use vc_net_places::Places;
use vc_plan::{Plan, element};
use vc_value::Listed;

/// The rules of a plan by what they touch and what they wait for. All memory is taken at `new`.
#[derive(Drop)]
pub struct Readers {
    by_slot: Vec<Listed<u32>>,
    by_var: Vec<Listed<u32>>,
    free: Vec<Listed<u32>>,
    awaited: Vec<Listed<u32>>,
    by_place: Lists,
    glances: Listed<Glance>,
}

impl Model for Readers {
    ghost use Rattle.std.specs.Prelude.{map};
    ghost use Rattle.vc_net_readers.specs.Glances.{trigger_told};
    ghost use Rattle.vc_net_readers.specs.Readers.{Index};

    ghost Value = { Index };

    ghost view = { λ r. record {
      by_slot = r.by_slot.items;
      by_var = r.by_var.items;
      free = r.free.items;
      awaited = r.awaited.items;
      by_place = r.by_place;
      triggers = map trigger_told r.glances;
      glances = r.glances;
    } };
}

impl Readers {
    ghost use Rattle.std.specs.Prelude.{◌≡◌, ◌^◌, ◌<◌, length, IfOk};
    ghost use Rattle.vc_rule_grains.specs.Finding.{GrainsFit};
    ghost use Rattle.vc_net_places.specs.Places.{index_of};
    ghost use Rattle.vc_net_readers.specs.Filing.{list_at};
    ghost use Rattle.vc_net_readers.specs.Glances.{glance_at};
    ghost use Rattle.vc_net_readers.specs.Readers.{readers_of, trigger_at};

    /// The rules of the plan.
    pub fn new(alloc: Global, plan: &Plan, index: &Places) -> Result<Readers, AllocError>
        requires rules { length plan.now.rules < 2 ^ 32 }
        requires vars { length plan.now.vars < 2 ^ 32 }
        requires grains { GrainsFit plan.now }
        requires index { index.now ≡ index_of plan.now }
        ensures { IfOk result (λ readers. readers ≡ readers_of plan.now) }
    {
        let by_slot = slot_lists(alloc, plan)?;
        let by_var = var_lists(alloc, plan)?;
        let free = free_lists(alloc, plan)?;
        let awaited = awaited_lists(alloc, plan)?;
        let by_place = packed_places(alloc, plan, index)?;
        let glances = glances_of(alloc, plan)?;
        Ok(Readers {
            by_slot,
            by_var,
            free,
            awaited,
            by_place,
            glances,
        })
    }

    /// The rules that touch the slot, in their order; none where there is no such slot.
    pub fn of_slot(&self, slot: u32) -> &[u32]
        ensures { result.now ≡ list_at self.now.by_slot slot }
    {
        list_at(self.by_slot.as_slice(), slot)
    }

    /// The rules that touch the variable, in their order; none where there is no such variable.
    pub fn of_var(&self, var: u32) -> &[u32]
        ensures { result.now ≡ list_at self.now.by_var var }
    {
        list_at(self.by_var.as_slice(), var)
    }

    /// The rules that touch the variable and wait for no value, in their order; none where there is no such variable.
    pub fn free(&self, var: u32) -> &[u32]
        ensures { result.now ≡ list_at self.now.free var }
    {
        list_at(self.free.as_slice(), var)
    }

    /// The variables of which a rule that touches this one waits for a value, in their order; this one may be among
    /// them. None where there is no such variable.
    pub fn awaited(&self, var: u32) -> &[u32]
        ensures { result.now ≡ list_at self.now.awaited var }
    {
        list_at(self.awaited.as_slice(), var)
    }

    /// The rules that wait for a value in the grain of this place, in their order; none at another place.
    pub fn waiting(&self, place: usize) -> &[u32]
        ensures { result.now ≡ list_at self.now.by_place place }
    {
        self.by_place.at(place)
    }

    /// The value without which the rule says nothing, if there is one; none where there is no such rule.
    #[tactic(auto, using(crate::proofs::TriggerLemmas::trigger_beside))]
    pub fn trigger(&self, rule: u32) -> Option<Trigger>
        ensures { result ≡ trigger_at self.now.triggers rule }
    {
        match element(self.glances.as_slice(), rule) {
            Some(glance) => glance.trigger,
            None => None,
        }
    }

    /// What is told of the rule at a glance; nothing where there is no such rule.
    pub fn glance(&self, rule: u32) -> Glance
        ensures { result ≡ glance_at self.now.glances rule }
    {
        match element(self.glances.as_slice(), rule) {
            Some(glance) => *glance,
            None => Glance {
                trigger: None,
                hint: Hint::Untold,
            },
        }
    }
}

// The list of the number; none where there is no such list.
fn list_at(lists: &[Listed<u32>], number: u32) -> &[u32]
    ensures { result.now ≡ list_at lists.now number }
{
    match element(lists, number) {
        Some(list) => list.as_slice(),
        None => &[],
    }
}

// Puts the rule at each slot that it touches.
fn file_at_slots(
    alloc: Global,
    plan: &Plan,
    rule: u32,
    lists: &mut Vec<Listed<u32>>,
) -> Result<(), AllocError>
    ensures { OnOk result (lists.new.items ≡ filed_at_all lists.old.items (slots_by plan.now rule) rule) }
{
    match element(plan.rules.as_slice(), rule) {
        Some(told) => {
            let slots = touched_slots(alloc, plan, told)?;
            file_at_all(lists, slots.as_slice(), rule)
        }
        None => Ok(()),
    }
}

// Puts the number at each variable that the rule touches.
fn file_at_vars(
    alloc: Global,
    plan: &Plan,
    rule: u32,
    number: u32,
    lists: &mut Vec<Listed<u32>>,
) -> Result<(), AllocError>
    ensures { OnOk result (lists.new.items ≡ filed_at_all lists.old.items (vars_by plan.now rule) number) }
{
    match element(plan.rules.as_slice(), rule) {
        Some(told) => {
            let vars = touched_vars(alloc, plan, told)?;
            file_at_all(lists, vars.as_slice(), number)
        }
        None => Ok(()),
    }
}

// Puts the rule at each variable that it touches, if it waits for no value.
fn file_if_free(
    alloc: Global,
    plan: &Plan,
    rule: u32,
    lists: &mut Vec<Listed<u32>>,
) -> Result<(), AllocError>
    ensures { OnOk result (lists.new.items ≡ filed_at_all lists.old.items (free_by plan.now rule) rule) }
{
    match trigger_by(plan, rule) {
        Some(_) => Ok(()),
        None => file_at_vars(alloc, plan, rule, rule, lists),
    }
}

// Puts the rule at the variable for whose value it waits.
fn file_at_awaited(plan: &Plan, rule: u32, lists: &mut Vec<Listed<u32>>) -> Result<(), AllocError>
    ensures { OnOk result (lists.new.items ≡ filed_at_all lists.old.items (awaited_by plan.now rule) rule) }
{
    match trigger_by(plan, rule) {
        Some(trigger) => file_at(lists, trigger.var as usize, rule),
        None => Ok(()),
    }
}

// Puts the variable at each that one of the rules touches.
fn file_at_touched(
    alloc: Global,
    plan: &Plan,
    rules: &[u32],
    var: u32,
    lists: &mut Vec<Listed<u32>>,
) -> Result<(), AllocError>
    ensures { OnOk result (lists.new.items ≡ filed_at_each (vars_by plan.now) lists.old.items rules.now var) }
{
    let mut rest = rules;
    while let [rule, more @ ..] = rest {
        file_at_vars(alloc, plan, *rule, var, lists)?;
        rest = more;
    }
    Ok(())
}

// Puts the rule at the grain in which its trigger's value lies.
fn file_at_grain(
    plan: &Plan,
    index: &Places,
    rule: u32,
    lists: &mut Vec<Listed<u32>>,
) -> Result<(), AllocError>
    requires grains { GrainsFit plan.now }
    requires index { index.now ≡ index_of plan.now }
    ensures { OnOk result (lists.new.items ≡ filed_at_all lists.old.items (waits_by plan.now rule) rule) }
{
    match place_of_trigger(plan, index, trigger_by(plan, rule)) {
        Some(place) => file_at(lists, place, rule),
        None => Ok(()),
    }
}

// The rules that touch each slot.
#[tactic(auto, using(crate::proofs::FilingLemmas::filed_next))]
fn slot_lists(alloc: Global, plan: &Plan) -> Result<Vec<Listed<u32>>, AllocError>
    requires { length plan.now.rules < 2 ^ 32 }
    ensures { IfOk result (λ lists. lists.items ≡ slot_lists plan.now) }
{
    let mut lists = empty_lists(alloc, plan.slots.len())?;
    for rule in 0..plan.rules.len() {
        file_at_slots(alloc, plan, rule as u32, &mut lists)?;
    }
    Ok(lists)
}

// The rules that touch each variable.
#[tactic(auto, using(crate::proofs::FilingLemmas::filed_next))]
fn var_lists(alloc: Global, plan: &Plan) -> Result<Vec<Listed<u32>>, AllocError>
    requires { length plan.now.rules < 2 ^ 32 }
    ensures { IfOk result (λ lists. lists.items ≡ var_lists plan.now) }
{
    let mut lists = empty_lists(alloc, plan.vars.len())?;
    for rule in 0..plan.rules.len() {
        file_at_vars(alloc, plan, rule as u32, rule as u32, &mut lists)?;
    }
    Ok(lists)
}

// The rules that touch each variable and wait for no value.
#[tactic(auto, using(crate::proofs::FilingLemmas::filed_next))]
fn free_lists(alloc: Global, plan: &Plan) -> Result<Vec<Listed<u32>>, AllocError>
    requires { length plan.now.rules < 2 ^ 32 }
    ensures { IfOk result (λ lists. lists.items ≡ free_lists plan.now) }
{
    let mut lists = empty_lists(alloc, plan.vars.len())?;
    for rule in 0..plan.rules.len() {
        file_if_free(alloc, plan, rule as u32, &mut lists)?;
    }
    Ok(lists)
}

// The rules that wait for a value of each variable.
#[tactic(auto, using(crate::proofs::FilingLemmas::filed_next))]
fn waiter_lists(alloc: Global, plan: &Plan) -> Result<Vec<Listed<u32>>, AllocError>
    requires { length plan.now.rules < 2 ^ 32 }
    ensures { IfOk result (λ lists. lists.items ≡ waiter_lists plan.now) }
{
    let mut lists = empty_lists(alloc, plan.vars.len())?;
    for rule in 0..plan.rules.len() {
        file_at_awaited(plan, rule as u32, &mut lists)?;
    }
    Ok(lists)
}

// The variables of which a value is waited for by rules that touch each variable.
fn awaited_lists(alloc: Global, plan: &Plan) -> Result<Vec<Listed<u32>>, AllocError>
    requires rules { length plan.now.rules < 2 ^ 32 }
    requires vars { length plan.now.vars < 2 ^ 32 }
    ensures { IfOk result (λ lists. lists.items ≡ awaited_lists plan.now) }
{
    let waiters = waiter_lists(alloc, plan)?;
    let lists = awaited_from(alloc, plan, waiters.as_slice());
    drop(waiters);
    lists
}

// The same, where the rules that wait for a value of each are known.
#[tactic(auto, using(crate::proofs::WaiterLemmas::awaited_next))]
fn awaited_from(
    alloc: Global,
    plan: &Plan,
    waiters: &[Listed<u32>],
) -> Result<Vec<Listed<u32>>, AllocError>
    requires vars { length plan.now.vars < 2 ^ 32 }
    requires waiters { waiters.now ≡ waiter_lists plan.now }
    ensures { IfOk result (λ lists. lists.items ≡ awaited_lists plan.now) }
{
    let mut lists = empty_lists(alloc, plan.vars.len())?;
    for var in 0..plan.vars.len() {
        let rules = list_at(waiters, var as u32);
        file_at_touched(alloc, plan, rules, var as u32, &mut lists)?;
    }
    Ok(lists)
}

// The rules that wait for a value in each grain.
#[tactic(auto, using(crate::proofs::FilingLemmas::filed_next))]
fn place_lists(alloc: Global, plan: &Plan, index: &Places) -> Result<Vec<Listed<u32>>, AllocError>
    requires rules { length plan.now.rules < 2 ^ 32 }
    requires grains { GrainsFit plan.now }
    requires index { index.now ≡ index_of plan.now }
    ensures { IfOk result (λ lists. lists.items ≡ place_lists plan.now) }
{
    let mut lists = empty_lists(alloc, index.count())?;
    for rule in 0..plan.rules.len() {
        file_at_grain(plan, index, rule as u32, &mut lists)?;
    }
    Ok(lists)
}

// The same, one after another.
fn packed_places(alloc: Global, plan: &Plan, index: &Places) -> Result<Lists, AllocError>
    requires rules { length plan.now.rules < 2 ^ 32 }
    requires grains { GrainsFit plan.now }
    requires index { index.now ≡ index_of plan.now }
    ensures { IfOk result (λ lists. lists ≡ place_lists plan.now) }
{
    let lists = place_lists(alloc, plan, index)?;
    let packed = Lists::new(alloc, lists.as_slice());
    drop(lists);
    packed
}

// What is told of each rule at a glance.
#[tactic(auto, using(vc_net_places::proofs::PlaceLaws::Things::mapped_next))]
fn glances_of(alloc: Global, plan: &Plan) -> Result<Listed<Glance>, AllocError>
    requires { length plan.now.rules < 2 ^ 32 }
    ensures { IfOk result (λ glances. glances ≡ glances_of plan.now) }
{
    let mut glances = Listed::from_vec(Vec::with_capacity(alloc, plan.rules.len())?);
    for rule in 0..plan.rules.len() {
        glances.push(glance_by(plan, rule as u32))?;
    }
    Ok(glances)
}
