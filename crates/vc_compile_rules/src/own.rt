//! The rules that variables and slots have of their own: that a variable has its last grain, and that a slot is here
//! where a selection condition of its line holds, or whenever its parent is.

ghost use Rattle.std.specs.Prelude.{◌≡◌, [], map, slice_get, None, IfOk, OnOk};
ghost use Rattle.vc_compile_plan.specs.Numbering.{rule_brings, rule_from};
ghost use Rattle.vc_compile_plan.specs.Layouts.{object_at};
ghost use Rattle.vc_compile_plan.specs.Rules as rules;
ghost use Rattle.vc_compile_plan.specs.Slots.{bill_if};
ghost use Rattle.vc_compile_numbering.specs.Growing as growing;
ghost use Rattle.vc_compile_layout.specs.Standing.{layout_seen};
ghost use Rattle.vc_compile_sites.specs.Standing.{asked_seen, site_seen};
ghost use Rattle.vc_compile_rules.specs.Adding.{Adds};

use crate::adding::{MOST_RULES, Room};
use std::alloc::{AllocError, Global};
use vc_compile_layout::Layout;
use vc_compile_numbering::Numbering;
use vc_compile_plan::Standing;
use vc_compile_sites::{Asked, Site, condition_at, selections_among, setting_at, site_of};
use vc_plan::{Kind, Rule};
use vc_types::At;
use vc_value::Listed;

// A rule that a variable or a slot has of its own, and that asks nothing.
fn own_rule(alloc: Global, kind: Kind) -> Rule
    ensures { result ≡ record {
      dependency = None;
      number = 0;
      slots = [];
      condition = 0;
      inferred = [];
      kind = kind;
    } }
{
    Rule {
        dependency: None,
        number: 0,
        slots: Listed::new(alloc),
        condition: 0,
        inferred: Listed::new(alloc),
        kind,
    }
}

fn push_last(alloc: Global, var: u32, out: &mut Numbering<Rule>) -> Result<(), AllocError>
    ensures { OnOk result (growing.seen out.new ≡ growing.with_draft rule_brings rule_from (growing.seen out.old)
        (rules.own_draft (rules.last var))) }
{
    out.push(own_rule(alloc, Kind::Last(var)))
}

/// Puts last, for each variable, the rule that it has its last grain, if there is room for them.
pub fn push_last_rules(
    alloc: Global,
    layout: &Layout<'_, '_>,
    out: &mut Numbering<Rule>,
) -> Result<Room, AllocError>
    ensures { IfOk result (λ room. Adds room (growing.seen out.old) (rules.last_drafts (layout_seen layout.now))
        (growing.seen out.new)) }
{
    for var in 0..layout.var_count() {
        if out.items.len() >= MOST_RULES {
            return Ok(Room::TooMany);
        }
        push_last(alloc, var, out)?;
    }
    Ok(Room::Enough)
}

fn push_line(alloc: Global, slot: u32, out: &mut Numbering<Rule>) -> Result<(), AllocError>
    ensures { OnOk result (growing.seen out.new ≡ growing.with_draft rule_brings rule_from (growing.seen out.old)
        (rules.own_draft (rules.line slot))) }
{
    out.push(own_rule(alloc, Kind::Line(slot)))
}

// The rule that a slot is here where a selection condition of its line holds.
fn push_selection(
    alloc: Global,
    layout: &Layout<'_, '_>,
    site: &Site<'_, '_, '_, '_>,
    slot: u32,
    number: u32,
    asked: Asked<'_>,
    out: &mut Numbering<Rule>,
) -> Result<(), AllocError>
    ensures { OnOk result (growing.seen out.new ≡ growing.with_draft rule_brings rule_from (growing.seen out.old)
        (rules.line_draft (layout_seen layout.now) (site_seen site.now) slot number (asked_seen asked.entry))) }
{
    let condition = condition_at(alloc, layout, site, asked.condition)?;
    let condition = out.trees.add_condition(condition)?;
    out.push(Rule {
        dependency: Some(asked.dependency),
        number,
        slots: Listed::new(alloc),
        condition,
        inferred: Listed::new(alloc),
        kind: Kind::Line(slot),
    })
}

// The rules of a line's selection conditions, one behind another.
fn push_selections(
    alloc: Global,
    layout: &Layout<'_, '_>,
    site: &Site<'_, '_, '_, '_>,
    slot: u32,
    selections: &[Asked<'_>],
    out: &mut Numbering<Rule>,
) -> Result<Room, AllocError>
    ensures { IfOk result (λ room. Adds room (growing.seen out.old) (rules.line_drafts_from (layout_seen layout.now)
        (site_seen site.now) slot 1 (map asked_seen selections.now)) (growing.seen out.new)) }
{
    if selections.len() >= u32::MAX as usize {
        return Err(AllocError);
    }
    for (place, asked) in selections.iter().enumerate() {
        if out.items.len() >= MOST_RULES {
            return Ok(Room::TooMany);
        }
        let number = place as u32 + 1;
        push_selection(alloc, layout, site, slot, number, *asked, out)?;
    }
    Ok(Room::Enough)
}

// The rules of a slot, by the selection conditions of its line.
fn push_rules_of_line(
    alloc: Global,
    layout: &Layout<'_, '_>,
    site: &Site<'_, '_, '_, '_>,
    slot: u32,
    selections: &[Asked<'_>],
    out: &mut Numbering<Rule>,
) -> Result<Room, AllocError>
    ensures { IfOk result (λ room. Adds room (growing.seen out.old) (rules.line_drafts (layout_seen layout.now)
        (site_seen site.now) slot (map asked_seen selections.now)) (growing.seen out.new)) }
{
    if !selections.is_empty() {
        return push_selections(alloc, layout, site, slot, selections, out);
    }
    if out.items.len() >= MOST_RULES {
        return Ok(Room::TooMany);
    }
    push_line(alloc, slot, out)?;
    Ok(Room::Enough)
}

// The rules of a slot that stands for a line of the slot above it.
fn push_rules_below(
    alloc: Global,
    layout: &Layout<'_, '_>,
    parent: u32,
    slot: u32,
    place: u32,
    out: &mut Numbering<Rule>,
) -> Result<Room, AllocError>
    ensures { IfOk result (λ room. Adds room (growing.seen out.old) (rules.drafts_of_line (layout_seen layout.now)
        parent slot (slice_get (layout_seen layout.now).slots parent)
        (slice_get (bill_if (layout_seen layout.now).model (object_at (layout_seen layout.now) parent)) place))
        (growing.seen out.new)) }
{
    let owner = match layout.slots().get(parent as usize) {
        Some(owner) => owner,
        None => return Ok(Room::Enough),
    };
    let item = match layout.bill_of(owner.object).get(place as usize) {
        Some(item) => item,
        None => return Ok(Room::Enough),
    };
    let setting = setting_at(alloc, layout, owner, At::Line { configurable: true })?;
    let site = site_of(&setting, parent, owner);
    let selections = selections_among(alloc, layout, item.uses.as_slice())?;
    push_rules_of_line(alloc, layout, &site, slot, selections.as_slice(), out)
}

fn push_rules_of_slot(
    alloc: Global,
    layout: &Layout<'_, '_>,
    slot: u32,
    standing: Standing,
    out: &mut Numbering<Rule>,
) -> Result<Room, AllocError>
    ensures { IfOk result (λ room. Adds room (growing.seen out.old) (rules.drafts_of_slot (layout_seen layout.now)
        slot standing standing.parent) (growing.seen out.new)) }
{
    match standing.parent {
        Some(parent) => push_rules_below(alloc, layout, parent, slot, standing.item, out),
        None => Ok(Room::Enough),
    }
}

/// Puts last, for each slot but the root, the rules that it is here, if there is room for them: one for each selection
/// condition of its line, or the one that it is here whenever its parent is.
pub fn push_line_rules(
    alloc: Global,
    layout: &Layout<'_, '_>,
    out: &mut Numbering<Rule>,
) -> Result<Room, AllocError>
    ensures { IfOk result (λ room. Adds room (growing.seen out.old) (rules.slot_drafts_from (layout_seen layout.now) 0
        (layout_seen layout.now).standings) (growing.seen out.new)) }
{
    let standings = layout.standings();
    if standings.len() > u32::MAX as usize {
        return Err(AllocError);
    }
    for (slot, standing) in standings.iter().enumerate() {
        match push_rules_of_slot(alloc, layout, slot as u32, *standing, out)? {
            Room::Enough => {}
            Room::TooMany => return Ok(Room::TooMany),
        }
    }
    Ok(Room::Enough)
}
