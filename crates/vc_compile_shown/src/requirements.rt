//! The selection conditions of characteristics, at each slot: where one holds, a value is required.

ghost use Rattle.std.specs.Prelude.{◌≡◌, ◌<◌, ◌^◌, length, map, flat_map, slice_get, OnOk};
ghost use Rattle.vc_compile_plan.specs.Numbering.{requirement_brings, requirement_from};
ghost use Rattle.vc_compile_plan.specs.Shown as shown;
ghost use Rattle.vc_compile_plan.specs.Sites.{named_at};
ghost use Rattle.vc_compile_plan.specs.Variables.{by_slot};
ghost use Rattle.vc_compile_numbering.specs.Growing.{seen, with_draft, with_drafts};
ghost use Rattle.vc_compile_layout.specs.Standing.{layout_seen};
ghost use Rattle.vc_compile_sites.specs.Standing.{asked_seen, site_seen};

use std::alloc::{AllocError, Global};
use vc_compile_layout::Layout;
use vc_compile_numbering::Numbering;
use vc_compile_sites::{Asked, Site, condition_at, selections_among, setting_at, site_of};
use vc_plan::{Named, Requirement, Selection, Slot};
use vc_types::At;

fn push_requirement(
    alloc: Global,
    layout: &Layout<'_, '_>,
    site: &Site<'_, '_, '_, '_>,
    at: Named,
    asked: Asked<'_>,
    out: &mut Numbering<Requirement>,
) -> Result<(), AllocError>
    ensures { OnOk result (seen out.new ≡ with_draft requirement_brings requirement_from (seen out.old) (record {
      at = at;
      choice = shown.choice_at (layout_seen layout.now) (site_seen site.now) (asked_seen asked.entry);
    })) }
{
    let condition = condition_at(alloc, layout, site, asked.condition)?;
    let condition = out.trees.add_condition(condition)?;
    let selection = Selection {
        dependency: asked.dependency,
        condition,
    };
    out.push(Requirement { at, selection })
}

fn push_all(
    alloc: Global,
    layout: &Layout<'_, '_>,
    site: &Site<'_, '_, '_, '_>,
    at: Named,
    selections: &[Asked<'_>],
    out: &mut Numbering<Requirement>,
) -> Result<(), AllocError>
    ensures { OnOk result (seen out.new ≡ with_drafts requirement_brings requirement_from (seen out.old) (map
        (λ asked. record { at = at; choice = shown.choice_at (layout_seen layout.now) (site_seen site.now) asked })
        (map asked_seen selections.now))) }
{
    for asked in selections {
        push_requirement(alloc, layout, site, at, *asked, out)?;
    }
    Ok(())
}

// The selection conditions of a characteristic at the slot whose site this is.
fn push_requirements_of_member(
    alloc: Global,
    layout: &Layout<'_, '_>,
    site: &Site<'_, '_, '_, '_>,
    number: u32,
    member: u32,
    out: &mut Numbering<Requirement>,
) -> Result<(), AllocError>
    ensures { OnOk result (seen out.new ≡ with_drafts requirement_brings requirement_from (seen out.old)
        (shown.requirements_of (layout_seen layout.now) (site_seen site.now)
        (named_at (layout_seen layout.now) number member)
        (slice_get ((layout_seen layout.now).model).characteristics member))) }
{
    match layout.characteristic(member) {
        Some(characteristic) => {
            let at = layout.named_at(number, member);
            let selections = selections_among(alloc, layout, characteristic.uses.as_slice())?;
            push_all(alloc, layout, site, at, selections.as_slice(), out)?;
            Ok(())
        }
        None => Ok(()),
    }
}

fn push_requirements_of_members(
    alloc: Global,
    layout: &Layout<'_, '_>,
    site: &Site<'_, '_, '_, '_>,
    number: u32,
    members: &[u32],
    out: &mut Numbering<Requirement>,
) -> Result<(), AllocError>
    ensures { OnOk result (seen out.new ≡ with_drafts requirement_brings requirement_from (seen out.old) (flat_map
        (λ c. shown.requirements_of (layout_seen layout.now) (site_seen site.now)
        (named_at (layout_seen layout.now) number c)
        (slice_get ((layout_seen layout.now).model).characteristics c)) members.now)) }
{
    for member in members {
        push_requirements_of_member(alloc, layout, site, number, *member, out)?;
    }
    Ok(())
}

fn push_requirements_at(
    alloc: Global,
    layout: &Layout<'_, '_>,
    number: u32,
    slot: &Slot,
    out: &mut Numbering<Requirement>,
) -> Result<(), AllocError>
    ensures { OnOk result (seen out.new ≡ with_drafts requirement_brings requirement_from (seen out.old)
        (shown.requirements_at (layout_seen layout.now) number slot.now)) }
{
    let setting = setting_at(alloc, layout, slot, At::Characteristic)?;
    let site = site_of(&setting, number, slot);
    let members = layout.members_of(slot.object);
    push_requirements_of_members(alloc, layout, &site, number, members, out)?;
    Ok(())
}

fn push_requirements_of_slots(
    alloc: Global,
    layout: &Layout<'_, '_>,
    slots: &[Slot],
    out: &mut Numbering<Requirement>,
) -> Result<(), AllocError>
    requires { length slots.now < 2 ^ 32 }
    ensures { OnOk result (seen out.new ≡ with_drafts requirement_brings requirement_from (seen out.old)
        (by_slot (shown.requirements_at (layout_seen layout.now)) 0 slots.now)) }
{
    for (number, slot) in slots.iter().enumerate() {
        push_requirements_at(alloc, layout, number as u32, slot, out)?;
    }
    Ok(())
}

/// Puts the requirements of all slots last.
pub fn push_requirements(
    alloc: Global,
    layout: &Layout<'_, '_>,
    out: &mut Numbering<Requirement>,
) -> Result<(), AllocError>
    ensures { OnOk result (seen out.new ≡ with_drafts requirement_brings requirement_from (seen out.old)
        (shown.requirement_drafts (layout_seen layout.now))) }
{
    push_requirements_of_slots(alloc, layout, layout.slots(), out)
}
