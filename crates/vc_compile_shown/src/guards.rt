//! The preconditions of characteristics and of their values, at each slot.

ghost use Rattle.std.specs.Prelude.{◌≡◌, ◌<◌, ◌^◌, length, map, flat_map, slice_get, Some, OnOk};
ghost use Rattle.vc_compile_plan.specs.Numbering.{guard_brings, guard_from};
ghost use Rattle.vc_compile_plan.specs.Shown as shown;
ghost use Rattle.vc_compile_plan.specs.Sites.{named_at};
ghost use Rattle.vc_compile_plan.specs.Variables.{by_slot};
ghost use Rattle.vc_compile_numbering.specs.Growing.{seen, with_draft, with_drafts};
ghost use Rattle.vc_compile_layout.specs.Standing.{layout_seen};
ghost use Rattle.vc_compile_sites.specs.Standing.{asked_seen, entry_seen, site_seen};

use std::alloc::{AllocError, Global};
use vc_compile_layout::Layout;
use vc_compile_numbering::Numbering;
use vc_compile_sites::{
    Asked, Entry, Site, condition_at, entries_of, preconditions_among, setting_at, site_of,
};
use vc_model_parts::Characteristic;
use vc_plan::{Guard, Named, Piece, Slot};
use vc_types::At;

/// What is guarded: a characteristic, or one of its values.
#[derive(Clone, Copy)]
pub struct Guarded {
    pub at: Named,
    pub value: Option<Piece>,
}

fn push_guard(
    alloc: Global,
    layout: &Layout<'_, '_>,
    site: &Site<'_, '_, '_, '_>,
    guarded: Guarded,
    asked: Asked<'_>,
    out: &mut Numbering<Guard>,
) -> Result<(), AllocError>
    ensures { OnOk result (seen out.new ≡ with_draft guard_brings guard_from (seen out.old) (record {
      at = guarded.at;
      value = guarded.value;
      choice = shown.choice_at (layout_seen layout.now) (site_seen site.now) (asked_seen asked.entry);
    })) }
{
    let condition = condition_at(alloc, layout, site, asked.condition)?;
    let condition = out.trees.add_condition(condition)?;
    out.push(Guard {
        at: guarded.at,
        value: guarded.value,
        dependency: asked.dependency,
        condition,
    })
}

// These preconditions of a characteristic or a value.
fn push_each(
    alloc: Global,
    layout: &Layout<'_, '_>,
    site: &Site<'_, '_, '_, '_>,
    guarded: Guarded,
    preconditions: &[Asked<'_>],
    out: &mut Numbering<Guard>,
) -> Result<(), AllocError>
    ensures { OnOk result (seen out.new ≡ with_drafts guard_brings guard_from (seen out.old) (map
        (λ asked. record {
          at = guarded.at;
          value = guarded.value;
          choice = shown.choice_at (layout_seen layout.now) (site_seen site.now) asked;
        }) (map asked_seen preconditions.now))) }
{
    for asked in preconditions {
        push_guard(alloc, layout, site, guarded, *asked, out)?;
    }
    Ok(())
}

// The preconditions among what is used at a characteristic or a value.
fn push_guards_among(
    alloc: Global,
    layout: &Layout<'_, '_>,
    site: &Site<'_, '_, '_, '_>,
    guarded: Guarded,
    uses: &[u32],
    out: &mut Numbering<Guard>,
) -> Result<(), AllocError>
    ensures { OnOk result (seen out.new ≡ with_drafts guard_brings guard_from (seen out.old)
        (shown.guards_among (layout_seen layout.now) (site_seen site.now) guarded.at guarded.value uses.now)) }
{
    let preconditions = preconditions_among(alloc, layout, uses)?;
    push_each(alloc, layout, site, guarded, preconditions.as_slice(), out)?;
    Ok(())
}

// The preconditions of a listed value.
fn push_guards_of_value(
    alloc: Global,
    layout: &Layout<'_, '_>,
    site: &Site<'_, '_, '_, '_>,
    at: Named,
    entry: Entry<'_>,
    out: &mut Numbering<Guard>,
) -> Result<(), AllocError>
    ensures { OnOk result (seen out.new ≡ with_drafts guard_brings guard_from (seen out.old)
        (shown.guards_among (layout_seen layout.now) (site_seen site.now) at (Some (entry_seen entry.entry).piece)
        (entry_seen entry.entry).uses)) }
{
    let guarded = Guarded {
        at,
        value: Some(entry.piece),
    };
    push_guards_among(alloc, layout, site, guarded, entry.uses, out)
}

// The preconditions of listed values.
fn push_guards_of_values(
    alloc: Global,
    layout: &Layout<'_, '_>,
    site: &Site<'_, '_, '_, '_>,
    at: Named,
    entries: &[Entry<'_>],
    out: &mut Numbering<Guard>,
) -> Result<(), AllocError>
    ensures { OnOk result (seen out.new ≡ with_drafts guard_brings guard_from (seen out.old) (flat_map
        (λ entry. shown.guards_among (layout_seen layout.now) (site_seen site.now) at (Some entry.piece) entry.uses)
        (map entry_seen entries.now))) }
{
    for entry in entries {
        push_guards_of_value(alloc, layout, site, at, *entry, out)?;
    }
    Ok(())
}

// A characteristic's own preconditions, then those of its values.
#[tactic(auto, using(vc_compile_numbering::proofs::NumberingLaws::drafts_append))]
fn push_guards_of(
    alloc: Global,
    layout: &Layout<'_, '_>,
    site: &Site<'_, '_, '_, '_>,
    at: Named,
    characteristic: &Characteristic,
    out: &mut Numbering<Guard>,
) -> Result<(), AllocError>
    ensures { OnOk result (seen out.new ≡ with_drafts guard_brings guard_from (seen out.old)
        (shown.guards_of (layout_seen layout.now) (site_seen site.now) at (Some characteristic.now))) }
{
    let entries = entries_of(alloc, &characteristic.values)?;
    let guarded = Guarded { at, value: None };
    push_guards_among(
        alloc,
        layout,
        site,
        guarded,
        characteristic.uses.as_slice(),
        out,
    )?;
    push_guards_of_values(alloc, layout, site, at, entries.as_slice(), out)?;
    Ok(())
}

// The preconditions of a characteristic at the slot whose site this is.
fn push_guards_of_member(
    alloc: Global,
    layout: &Layout<'_, '_>,
    site: &Site<'_, '_, '_, '_>,
    number: u32,
    member: u32,
    out: &mut Numbering<Guard>,
) -> Result<(), AllocError>
    ensures { OnOk result (seen out.new ≡ with_drafts guard_brings guard_from (seen out.old)
        (shown.guards_of (layout_seen layout.now) (site_seen site.now) (named_at (layout_seen layout.now) number member)
        (slice_get ((layout_seen layout.now).model).characteristics member))) }
{
    match layout.characteristic(member) {
        Some(characteristic) => {
            let at = layout.named_at(number, member);
            push_guards_of(alloc, layout, site, at, characteristic, out)
        }
        None => Ok(()),
    }
}

fn push_guards_of_members(
    alloc: Global,
    layout: &Layout<'_, '_>,
    site: &Site<'_, '_, '_, '_>,
    number: u32,
    members: &[u32],
    out: &mut Numbering<Guard>,
) -> Result<(), AllocError>
    ensures { OnOk result (seen out.new ≡ with_drafts guard_brings guard_from (seen out.old) (flat_map
        (λ c. shown.guards_of (layout_seen layout.now) (site_seen site.now) (named_at (layout_seen layout.now) number c)
        (slice_get ((layout_seen layout.now).model).characteristics c)) members.now)) }
{
    for member in members {
        push_guards_of_member(alloc, layout, site, number, *member, out)?;
    }
    Ok(())
}

fn push_guards_at(
    alloc: Global,
    layout: &Layout<'_, '_>,
    number: u32,
    slot: &Slot,
    out: &mut Numbering<Guard>,
) -> Result<(), AllocError>
    ensures { OnOk result (seen out.new ≡ with_drafts guard_brings guard_from (seen out.old)
        (shown.guards_at (layout_seen layout.now) number slot.now)) }
{
    let setting = setting_at(alloc, layout, slot, At::Characteristic)?;
    let site = site_of(&setting, number, slot);
    let members = layout.members_of(slot.object);
    push_guards_of_members(alloc, layout, &site, number, members, out)?;
    Ok(())
}

fn push_guards_of_slots(
    alloc: Global,
    layout: &Layout<'_, '_>,
    slots: &[Slot],
    out: &mut Numbering<Guard>,
) -> Result<(), AllocError>
    requires { length slots.now < 2 ^ 32 }
    ensures { OnOk result (seen out.new ≡ with_drafts guard_brings guard_from (seen out.old)
        (by_slot (shown.guards_at (layout_seen layout.now)) 0 slots.now)) }
{
    for (number, slot) in slots.iter().enumerate() {
        push_guards_at(alloc, layout, number as u32, slot, out)?;
    }
    Ok(())
}

/// Puts the preconditions of all slots last.
pub fn push_guards(
    alloc: Global,
    layout: &Layout<'_, '_>,
    out: &mut Numbering<Guard>,
) -> Result<(), AllocError>
    ensures { OnOk result (seen out.new ≡ with_drafts guard_brings guard_from (seen out.old)
        (shown.guard_drafts (layout_seen layout.now))) }
{
    push_guards_of_slots(alloc, layout, layout.slots(), out)
}
