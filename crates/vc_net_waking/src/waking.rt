//! Whom an atom wakes when it has come.

ghost use Rattle.std.specs.Prelude.{◌≡◌, ◌^◌, ◌<◌, ◌&&◌, not, length, nat_eq};
ghost use Rattle.std.specs.List.{filter, flat_map};
ghost use Rattle.vc_base.specs.Sets.{has};
ghost use Rattle.vc_value.specs.declared.value.Value.TheVariants.{Text};
ghost use Rattle.vc_rule_grains.specs.Finding.{GrainsFit};
ghost use Rattle.vc_rule.specs.Resting.{is_text};
ghost use Rattle.vc_plan.specs.Gives.{by_rule};
ghost use Rattle.vc_plan.specs.Seen.{is_value};
ghost use Rattle.vc_plan_reasons.specs.Things.{slot_at, thing_of, var_at};
ghost use Rattle.vc_net_places.specs.Places.{index_of};
ghost use Rattle.vc_net_laws.specs.Triggers.{trigger_by};
ghost use Rattle.vc_net_readers.specs.Filing.{list_at};
ghost use Rattle.vc_net_readers.specs.Glances.{glance_by, hint_by};
ghost use Rattle.vc_net_readers.specs.Laws.{waiting_in, waiting_on};
ghost use Rattle.vc_net_readers.specs.Readers.{is_reader, readers_of};
ghost use Rattle.vc_net_readers.specs.Rising.{IsRising};
ghost use Rattle.vc_net_readers.specs.Waiting.{grain_held, place_in_grain};
ghost use Rattle.vc_net_sources.specs.Asking.{rests_at};
ghost use Rattle.vc_net_waking.specs.Waking.{is_met, is_var_of, may_say, rests_told, rules_in, sources_of};
ghost use Rattle.vc_net_waking.specs.Waking.{stirred_rules, telling, telling_in_slot, waking, with_givers};

use vc_net_agenda::{Agenda, Giver};
use vc_net_laws::Trigger;
use vc_net_places::Places;
use vc_net_readers::halves::is_among;
use vc_net_readers::touching::touches_as_told;
use vc_net_readers::triggers::grain_held;
use vc_net_readers::{Glance, Hint, Readers};
use vc_net_sources::{rests_at, tells_nothing};
use vc_net_standing::standing::is_value;
use vc_plan::{Atom, Plan, View, element};
use vc_plan_sources::Sources;
use vc_value::Value;

/// A variable with the value that it has, if it has one, so that it is looked up once.
#[derive(Clone, Copy)]
struct Held {
    var: u32,
    value: Option<Value>,
}

/// Lets all wait whom the atom wakes, which stands in the view: the rules and sources that touch its thing, but of the
/// rules only those that wait for no value, or for one that stands. Who is told at a glance to say nothing new isn't
/// woken: a rule that rests, a source that tells nothing.
pub fn wake<V: View>(
    plan: &Plan,
    readers: &Readers,
    index: &Places,
    view: &V,
    sources: &Sources,
    atom: Atom,
    agenda: &mut Agenda,
)
    requires grains { GrainsFit plan.now }
    requires vars { length plan.now.vars < 2 ^ 32 }
    requires index { index.now ≡ index_of plan.now }
    requires readers { readers.now ≡ readers_of plan.now }
    ensures { agenda.new ≡ with_givers agenda.old (waking plan.now sources.now (V.seen view.now) (thing_of atom)) }
{
    match atom {
        Atom::Here(slot) => wake_at_slot(plan, readers, view, sources, slot, agenda),
        Atom::Out(var, _) | Atom::Is(var, _) => {
            wake_at_var(plan, readers, index, view, sources, var, agenda)
        }
    }
}

#[tactic(auto, using(crate::proofs::GiverLaws::both_parts))]
fn wake_at_slot<V: View>(
    plan: &Plan,
    readers: &Readers,
    view: &V,
    sources: &Sources,
    slot: u32,
    agenda: &mut Agenda,
)
    requires vars { length plan.now.vars < 2 ^ 32 }
    requires readers { readers.now ≡ readers_of plan.now }
    ensures { agenda.new ≡ with_givers agenda.old (waking plan.now sources.now (V.seen view.now) (slot_at slot)) }
{
    push_met(plan, readers, view, readers.of_slot(slot), agenda);
    push_telling_in(plan, sources, slot, agenda);
}

#[inline(always)]
#[tactic(auto, using(crate::proofs::GiverLaws::parts, vc_net_readers::proofs::AskedLaws::none_awaited))]
fn wake_at_var<V: View>(
    plan: &Plan,
    readers: &Readers,
    index: &Places,
    view: &V,
    sources: &Sources,
    var: u32,
    agenda: &mut Agenda,
)
    requires grains { GrainsFit plan.now }
    requires index { index.now ≡ index_of plan.now }
    requires readers { readers.now ≡ readers_of plan.now }
    ensures { agenda.new ≡ with_givers agenda.old (waking plan.now sources.now (V.seen view.now) (var_at var)) }
{
    push_free(plan, readers, view, var, agenda);
    if (var as usize) < plan.vars.len() {
        let awaited = readers.awaited(var);
        push_awaiting(plan, readers, index, view, awaited, var, agenda);
    }
    push_telling(sources, var, agenda);
}

// Lets the rules wait that touch the variable and wait for no value, but for those that rest: none of them is to be
// asked what it waits for.
fn push_free<V: View>(plan: &Plan, readers: &Readers, view: &V, var: u32, agenda: &mut Agenda)
    requires readers { readers.now ≡ readers_of plan.now }
    ensures { agenda.new ≡ with_givers agenda.old
        (stirred_rules plan.now (V.seen view.now) (list_at (readers_of plan.now).free var)) }
{
    push_unless_at_rest(plan, readers, view, readers.free(var), agenda);
}

// Lets those of the rules wait that don't rest.
fn push_unless_at_rest<V: View>(
    plan: &Plan,
    readers: &Readers,
    view: &V,
    rules: &[u32],
    agenda: &mut Agenda,
)
    requires readers { readers.now ≡ readers_of plan.now }
    ensures { agenda.new ≡ with_givers agenda.old (rules_in (filter (may_say plan.now (V.seen view.now)) rules.now)) }
{
    let mut rest = rules;
    while let [rule, more @ ..] = rest {
        let glance = glance_of(plan, readers, *rule);
        if !rests_as_told(plan, view, *rule, glance.hint) {
            agenda.push(Giver::Rule(*rule));
        }
        rest = more;
    }
}

/// Lets the rules of these numbers wait.
pub fn push_rules(rules: &[u32], agenda: &mut Agenda)
    ensures { agenda.new ≡ with_givers agenda.old (rules_in rules.now) }
{
    let mut rest = rules;
    while let [rule, more @ ..] = rest {
        agenda.push(Giver::Rule(*rule));
        rest = more;
    }
}

// Lets those of the rules wait that touch the variable, wait for a value of one of these that stands, and don't rest.
#[tactic(auto, using(crate::proofs::GiverLaws::parts))]
fn push_awaiting<V: View>(
    plan: &Plan,
    readers: &Readers,
    index: &Places,
    view: &V,
    awaited: &[u32],
    var: u32,
    agenda: &mut Agenda,
)
    requires grains { GrainsFit plan.now }
    requires there { var < length plan.now.vars }
    requires index { index.now ≡ index_of plan.now }
    requires readers { readers.now ≡ readers_of plan.now }
    ensures { agenda.new ≡ with_givers agenda.old (stirred_rules plan.now (V.seen view.now)
        (filter (is_reader plan.now (var_at var)) (flat_map (waiting_on plan.now (V.seen view.now)) awaited.now))) }
{
    let mut rest = awaited;
    while let [other, more @ ..] = rest {
        push_waiting(plan, readers, index, view, *other, var, agenda);
        rest = more;
    }
}

// Lets those of the rules wait that touch the variable, wait for the value that the other one has, and don't rest.
fn push_waiting<V: View>(
    plan: &Plan,
    readers: &Readers,
    index: &Places,
    view: &V,
    other: u32,
    var: u32,
    agenda: &mut Agenda,
)
    requires grains { GrainsFit plan.now }
    requires there { var < length plan.now.vars }
    requires index { index.now ≡ index_of plan.now }
    requires readers { readers.now ≡ readers_of plan.now }
    ensures { agenda.new ≡ with_givers agenda.old (stirred_rules plan.now (V.seen view.now)
        (filter (is_reader plan.now (var_at var)) (waiting_on plan.now (V.seen view.now) other))) }
{
    let held = view.value(other);
    match held {
        Some(_) => {
            let held = Held {
                var: other,
                value: held,
            };
            push_held(plan, readers, index, view, held, var, agenda);
        }
        None => {}
    }
}

// The same, where the other one's value is known.
fn push_held<V: View>(
    plan: &Plan,
    readers: &Readers,
    index: &Places,
    view: &V,
    held: Held,
    var: u32,
    agenda: &mut Agenda,
)
    requires grains { GrainsFit plan.now }
    requires there { var < length plan.now.vars }
    requires index { index.now ≡ index_of plan.now }
    requires readers { readers.now ≡ readers_of plan.now }
    requires held { (V.seen view.now).value held.var ≡ held.value }
    ensures { agenda.new ≡ with_givers agenda.old (stirred_rules plan.now (V.seen view.now)
        (filter (is_reader plan.now (var_at var)) (waiting_on plan.now (V.seen view.now) held.var))) }
{
    let rules = waiting(plan, readers, index, held.var, held.value);
    push_common(plan, readers, view, held, rules, var, agenda);
}

// Lets those of the rules wait that touch the variable, are met and don't rest: the shorter of the rules' list and its
// readers' is gone through.
fn push_common<V: View>(
    plan: &Plan,
    readers: &Readers,
    view: &V,
    held: Held,
    rules: &[u32],
    var: u32,
    agenda: &mut Agenda,
)
    requires readers { readers.now ≡ readers_of plan.now }
    requires held { (V.seen view.now).value held.var ≡ held.value }
    requires rising { IsRising rules.now }
    requires common { filter (has nat_eq rules.now) (list_at readers.now.by_var var)
        ≡ filter (is_reader plan.now (var_at var)) rules.now }
    ensures { agenda.new ≡ with_givers agenda.old
        (stirred_rules plan.now (V.seen view.now) (filter (is_reader plan.now (var_at var)) rules.now)) }
{
    let of_var = readers.of_var(var);
    if rules.len() <= of_var.len() {
        push_touching(plan, readers, view, held, rules, var, agenda);
    } else {
        push_among(plan, readers, view, held, of_var, rules, agenda);
    }
}

// Lets those of the variable's readers wait that are among the rules, are met and don't rest.
fn push_among<V: View>(
    plan: &Plan,
    readers: &Readers,
    view: &V,
    held: Held,
    of_var: &[u32],
    rules: &[u32],
    agenda: &mut Agenda,
)
    requires readers { readers.now ≡ readers_of plan.now }
    requires held { (V.seen view.now).value held.var ≡ held.value }
    requires rising { IsRising rules.now }
    ensures { agenda.new ≡ with_givers agenda.old
        (stirred_rules plan.now (V.seen view.now) (filter (has nat_eq rules.now) of_var.now)) }
{
    let mut rest = of_var;
    while let [rule, more @ ..] = rest {
        let glance = glance_of(plan, readers, *rule);
        if is_met_beside(view, held, glance.trigger)
            && is_among(rules, *rule)
            && !rests_as_told(plan, view, *rule, glance.hint)
        {
            agenda.push(Giver::Rule(*rule));
        }
        rest = more;
    }
}

// The rules that wait in the grain of this value of the variable, if there is one.
fn waiting<'a>(
    plan: &Plan,
    readers: &'a Readers,
    index: &Places,
    var: u32,
    held: Option<Value>,
) -> &'a [u32]
    requires grains { GrainsFit plan.now }
    requires index { index.now ≡ index_of plan.now }
    requires readers { readers.now ≡ readers_of plan.now }
    ensures { result.now ≡ waiting_in (readers_of plan.now)
        (place_in_grain (index_of plan.now) var (grain_held plan.now var held)) }
{
    match grain_held(plan, var, held) {
        Some(grain) => readers.waiting(index.place_of(Atom::Out(var, grain))),
        None => &[],
    }
}

// Lets those of the rules wait that touch the variable, wait for no value or for one that stands, and don't rest.
fn push_touching<V: View>(
    plan: &Plan,
    readers: &Readers,
    view: &V,
    held: Held,
    rules: &[u32],
    var: u32,
    agenda: &mut Agenda,
)
    requires readers { readers.now ≡ readers_of plan.now }
    requires held { (V.seen view.now).value held.var ≡ held.value }
    ensures { agenda.new ≡ with_givers agenda.old
        (stirred_rules plan.now (V.seen view.now) (filter (is_reader plan.now (var_at var)) rules.now)) }
{
    let mut rest = rules;
    while let [rule, more @ ..] = rest {
        let glance = glance_of(plan, readers, *rule);
        if is_met_beside(view, held, glance.trigger)
            && touches_as_told(plan, *rule, glance, var)
            && !rests_as_told(plan, view, *rule, glance.hint)
        {
            agenda.push(Giver::Rule(*rule));
        }
        rest = more;
    }
}

// Lets those of the rules wait that wait for no value or for one that stands, and don't rest.
fn push_met<V: View>(plan: &Plan, readers: &Readers, view: &V, rules: &[u32], agenda: &mut Agenda)
    requires readers { readers.now ≡ readers_of plan.now }
    ensures { agenda.new ≡ with_givers agenda.old (stirred_rules plan.now (V.seen view.now) rules.now) }
{
    let mut rest = rules;
    while let [rule, more @ ..] = rest {
        if is_met(view, trigger_of(plan, readers, *rule)) && !rests_at(plan, view, *rule) {
            agenda.push(Giver::Rule(*rule));
        }
        rest = more;
    }
}

// The trigger of the rule of this number, as it is kept.
#[tactic(auto, using(vc_net_readers::proofs::TriggerLemmas::trigger_kept))]
fn trigger_of(plan: &Plan, readers: &Readers, rule: u32) -> Option<Trigger>
    requires readers { readers.now ≡ readers_of plan.now }
    ensures { result ≡ trigger_by plan.now (by_rule rule) }
{
    readers.trigger(rule)
}

// What is told of the rule of this number at a glance, as it is kept.
#[tactic(auto, using(vc_net_readers::proofs::TriggerLemmas::glance_kept))]
fn glance_of(plan: &Plan, readers: &Readers, rule: u32) -> Glance
    requires readers { readers.now ≡ readers_of plan.now }
    ensures { result ≡ glance_by plan.now rule }
{
    readers.glance(rule)
}

// Whether the rule of this number rests, of which this is told.
#[inline(always)]
#[tactic(auto, using(crate::proofs::GiverLaws::rests_as_told))]
fn rests_as_told<V: View>(plan: &Plan, view: &V, rule: u32, hint: Hint) -> bool
    requires { hint ≡ hint_by plan.now rule }
    ensures { result ≡ rests_at plan.now (V.seen view.now) rule }
{
    rests_told(view, hint)
}

// The same by what is told of it.
#[inline(always)]
fn rests_told<V: View>(view: &V, hint: Hint) -> bool
    ensures { result ≡ rests_told (V.seen view.now) hint }
{
    match hint {
        Hint::GivesText { var, text } => is_text(text, view.value(var)),
        Hint::IsLast { var, has_two } => {
            view.value(var).is_some() || is_two_left(view, var, has_two)
        }
        Hint::Untold => false,
    }
}

// Whether it is this text.
fn is_text(text: u32, value: Option<Value>) -> bool
    ensures { result ≡ is_text (Text text) value }
{
    match value {
        Some(Value::Text(other)) => text == other,
        _ => false,
    }
}

// Whether the variable has two grains, the first of which aren't out.
fn is_two_left<V: View>(view: &V, var: u32, has_two: bool) -> bool
    ensures { result ≡ (has_two && (not ((V.seen view.now).out var 0) && not ((V.seen view.now).out var 1))) }
{
    has_two && !view.out(var, 0) && !view.out(var, 1)
}

// Whether nothing is waited for, or the value for which it is stands.
fn is_met<V: View>(view: &V, trigger: Option<Trigger>) -> bool
    ensures { result ≡ is_met (V.seen view.now) trigger }
{
    match trigger {
        Some(trigger) => is_value(trigger.value, view.value(trigger.var)),
        None => true,
    }
}

// The same, where one variable's value is known.
fn is_met_beside<V: View>(view: &V, held: Held, trigger: Option<Trigger>) -> bool
    requires held { (V.seen view.now).value held.var ≡ held.value }
    ensures { result ≡ is_met (V.seen view.now) trigger }
{
    match trigger {
        Some(trigger) => is_value(trigger.value, value_beside(view, held, trigger.var)),
        None => true,
    }
}

// The value of a variable, where one variable's is known.
fn value_beside<V: View>(view: &V, held: Held, var: u32) -> Option<Value>
    requires held { (V.seen view.now).value held.var ≡ held.value }
    ensures { result ≡ (V.seen view.now).value var }
{
    if var == held.var {
        held.value
    } else {
        view.value(var)
    }
}

/// Lets the sources of the variable wait.
pub fn push_sources(var: u32, agenda: &mut Agenda)
    ensures { agenda.new ≡ with_givers agenda.old (sources_of var) }
{
    agenda.push(Giver::User(var));
    agenda.push(Giver::Entry(var));
}

// Lets those of the variable's sources wait that tell something.
#[inline(always)]
fn push_telling(sources: &Sources, var: u32, agenda: &mut Agenda)
    ensures { agenda.new ≡ with_givers agenda.old (telling sources.now var) }
{
    if !tells_nothing(sources, Giver::User(var)) {
        agenda.push(Giver::User(var));
    }
    if !tells_nothing(sources, Giver::Entry(var)) {
        agenda.push(Giver::Entry(var));
    }
}

// Whether the variable is of the slot.
fn is_var_of(plan: &Plan, slot: u32, var: u32) -> bool
    ensures { result ≡ is_var_of plan.now slot var }
{
    match element(plan.vars.as_slice(), var) {
        Some(var) => slot == var.slot,
        None => false,
    }
}

// Lets those of the sources of the slot's variables wait that tell something.
#[tactic(auto, using(crate::proofs::GiverLaws::slot_next))]
fn push_telling_in(plan: &Plan, sources: &Sources, slot: u32, agenda: &mut Agenda)
    requires { length plan.now.vars < 2 ^ 32 }
    ensures { agenda.new ≡ with_givers agenda.old (telling_in_slot plan.now sources.now slot (length plan.now.vars)) }
{
    for var in 0..plan.vars.len() {
        if is_var_of(plan, slot, var as u32) {
            push_telling(sources, var as u32, agenda);
        }
    }
}
