//! The procedures of slots: of the profile, then of characteristics in class order, then of values.

ghost use Rattle.std.specs.Prelude.{◌≡◌, ◌∷◌, [], ◌<◌, ◌^◌, length, map, flat_map, slice_get, IfOk, OnOk};
ghost use Rattle.std.specs.Option.{option_copied};
ghost use Rattle.vc_syntax_tree.specs.Trees as syntax;
ghost use Rattle.vc_plan.specs.declared.procedures.Trigger.TheVariants.{Anyway};
ghost use Rattle.vc_compile_plan.specs.Numbering.{procedure_brings, procedure_from};
ghost use Rattle.vc_compile_plan.specs.Places.{procedure_site};
ghost use Rattle.vc_compile_plan.specs.Variables.{by_slot};
ghost use Rattle.vc_compile_plan.specs.Procedures as procedures;
ghost use Rattle.vc_compile_numbering.specs.Growing.{seen, with_draft, with_drafts};
ghost use Rattle.vc_compile_layout.specs.Standing.{layout_seen};
ghost use Rattle.vc_compile_sites.specs.Standing.{entry_seen, site_seen};

use crate::statements::statements_at;
use std::alloc::{AllocError, Global};
use vc_compile_layout::Layout;
use vc_compile_numbering::Numbering;
use vc_compile_sites::{Entry, Site, dependency, entries_of, setting_at, site_of, statements_in};
use vc_model_parts::Characteristic;
use vc_plan::{Named, Piece, Procedure, Slot, Trigger};
use vc_syntax_tree::Statement as Stated;
use vc_types::At;
use vc_value::Listed;

fn push_procedure(
    alloc: Global,
    layout: &Layout<'_, '_>,
    site: &Site<'_, '_, '_, '_>,
    trigger: Trigger,
    dependency: u32,
    statements: &[Stated],
    out: &mut Numbering<Procedure>,
) -> Result<(), AllocError>
    ensures { OnOk result (seen out.new ≡ with_draft procedure_brings procedure_from (seen out.old) (record {
      slot = (site.now).own;
      dependency = dependency;
      trigger = trigger;
      statements = map (procedures.statement_at (layout_seen layout.now) (site_seen site.now))
          (map syntax.statement_of statements.now);
    })) }
{
    let statements = statements_at(alloc, layout, site, statements, &mut out.trees)?;
    out.push(Procedure {
        slot: site.own,
        dependency,
        trigger,
        statements,
    })
}

// A dependency that is used at a place, if it is a procedure.
fn push_if_procedure(
    alloc: Global,
    layout: &Layout<'_, '_>,
    site: &Site<'_, '_, '_, '_>,
    slot: &Slot,
    trigger: Trigger,
    number: u32,
    out: &mut Numbering<Procedure>,
) -> Result<(), AllocError>
    requires { site_seen site.now ≡ procedure_site (layout_seen layout.now) (site.now).own slot.now }
    ensures { OnOk result (seen out.new ≡ with_drafts procedure_brings procedure_from (seen out.old)
        (procedures.procedures_among (layout_seen layout.now) (site.now).own slot.now trigger (number ∷ []))) }
{
    match statements_in(dependency(layout, number)) {
        Some(statements) => push_procedure(alloc, layout, site, trigger, number, statements, out),
        None => Ok(()),
    }
}

// The procedures among what is used at a place, whose site is that of procedures at this slot.
fn push_procedures_among(
    alloc: Global,
    layout: &Layout<'_, '_>,
    site: &Site<'_, '_, '_, '_>,
    slot: &Slot,
    trigger: Trigger,
    uses: &[u32],
    out: &mut Numbering<Procedure>,
) -> Result<(), AllocError>
    requires { site_seen site.now ≡ procedure_site (layout_seen layout.now) (site.now).own slot.now }
    ensures { OnOk result (seen out.new ≡ with_drafts procedure_brings procedure_from (seen out.old)
        (procedures.procedures_among (layout_seen layout.now) (site.now).own slot.now trigger uses.now)) }
{
    for number in uses {
        push_if_procedure(alloc, layout, site, slot, trigger, *number, out)?;
    }
    Ok(())
}

fn trigger_of(named: Named, piece: Piece) -> Trigger
    ensures { result ≡ procedures.trigger_of named piece }
{
    match (named, piece) {
        (Named::Var(var), piece) => Trigger::ValueIn(var, piece),
        (Named::Set(set), Piece::OneText(text)) => Trigger::TextIn { set, text },
        (Named::Set(set), Piece::Stretch(_)) => Trigger::TextIn { set, text: 0 },
    }
}

fn profile_of<'n>(layout: &Layout<'n, '_>, object: u32) -> &'n [u32]
    ensures { result.now ≡ procedures.profile_in (slice_get ((layout_seen layout.now).model).objects object) }
{
    match layout.object(object) {
        Some(object) => object.procedures.as_slice(),
        None => &[],
    }
}

fn uses_in(characteristic: Option<&Characteristic>) -> &[u32]
    ensures { result.now ≡ procedures.uses_in (option_copied characteristic.entry) }
{
    match characteristic {
        Some(characteristic) => characteristic.uses.as_slice(),
        None => &[],
    }
}

fn entries_in<'m>(
    alloc: Global,
    characteristic: Option<&'m Characteristic>,
) -> Result<Listed<Entry<'m>>, AllocError>
    ensures { IfOk result (λ entries. map entry_seen entries
        ≡ procedures.entries_in (option_copied characteristic.entry)) }
{
    match characteristic {
        Some(characteristic) => entries_of(alloc, &characteristic.values),
        None => Ok(Listed::new(alloc)),
    }
}

// The procedures of a characteristic.
fn push_of_characteristic(
    alloc: Global,
    layout: &Layout<'_, '_>,
    site: &Site<'_, '_, '_, '_>,
    slot: &Slot,
    member: u32,
    out: &mut Numbering<Procedure>,
) -> Result<(), AllocError>
    requires { site_seen site.now ≡ procedure_site (layout_seen layout.now) (site.now).own slot.now }
    ensures { OnOk result (seen out.new ≡ with_drafts procedure_brings procedure_from (seen out.old)
        (procedures.procedures_among (layout_seen layout.now) (site.now).own slot.now Anyway
        (procedures.uses_in (slice_get ((layout_seen layout.now).model).characteristics member)))) }
{
    let uses = uses_in(layout.characteristic(member));
    push_procedures_among(alloc, layout, site, slot, Trigger::Anyway, uses, out)
}

fn push_of_characteristics(
    alloc: Global,
    layout: &Layout<'_, '_>,
    site: &Site<'_, '_, '_, '_>,
    slot: &Slot,
    members: &[u32],
    out: &mut Numbering<Procedure>,
) -> Result<(), AllocError>
    requires { site_seen site.now ≡ procedure_site (layout_seen layout.now) (site.now).own slot.now }
    ensures { OnOk result (seen out.new ≡ with_drafts procedure_brings procedure_from (seen out.old) (flat_map
        (λ c. procedures.procedures_among (layout_seen layout.now) (site.now).own slot.now Anyway
        (procedures.uses_in (slice_get ((layout_seen layout.now).model).characteristics c))) members.now)) }
{
    for member in members {
        push_of_characteristic(alloc, layout, site, slot, *member, out)?;
    }
    Ok(())
}

// The procedures of a listed value.
fn push_of_entry(
    alloc: Global,
    layout: &Layout<'_, '_>,
    site: &Site<'_, '_, '_, '_>,
    slot: &Slot,
    named: Named,
    entry: Entry<'_>,
    out: &mut Numbering<Procedure>,
) -> Result<(), AllocError>
    requires { site_seen site.now ≡ procedure_site (layout_seen layout.now) (site.now).own slot.now }
    ensures { OnOk result (seen out.new ≡ with_drafts procedure_brings procedure_from (seen out.old)
        (procedures.procedures_among (layout_seen layout.now) (site.now).own slot.now
        (procedures.trigger_of named (entry_seen entry.entry).piece) (entry_seen entry.entry).uses)) }
{
    let trigger = trigger_of(named, entry.piece);
    push_procedures_among(alloc, layout, site, slot, trigger, entry.uses, out)
}

fn push_of_entries(
    alloc: Global,
    layout: &Layout<'_, '_>,
    site: &Site<'_, '_, '_, '_>,
    slot: &Slot,
    named: Named,
    entries: &[Entry<'_>],
    out: &mut Numbering<Procedure>,
) -> Result<(), AllocError>
    requires { site_seen site.now ≡ procedure_site (layout_seen layout.now) (site.now).own slot.now }
    ensures { OnOk result (seen out.new ≡ with_drafts procedure_brings procedure_from (seen out.old) (flat_map
        (λ entry. procedures.procedures_among (layout_seen layout.now) (site.now).own slot.now
        (procedures.trigger_of named entry.piece) entry.uses) (map entry_seen entries.now))) }
{
    for entry in entries {
        push_of_entry(alloc, layout, site, slot, named, *entry, out)?;
    }
    Ok(())
}

// The procedures of a characteristic's values.
fn push_of_value(
    alloc: Global,
    layout: &Layout<'_, '_>,
    site: &Site<'_, '_, '_, '_>,
    slot: &Slot,
    member: u32,
    out: &mut Numbering<Procedure>,
) -> Result<(), AllocError>
    requires { site_seen site.now ≡ procedure_site (layout_seen layout.now) (site.now).own slot.now }
    ensures { OnOk result (seen out.new ≡ with_drafts procedure_brings procedure_from (seen out.old)
        (procedures.value_procedures (layout_seen layout.now) (site.now).own slot.now member)) }
{
    let entries = entries_in(alloc, layout.characteristic(member))?;
    let named = layout.named_at(site.own, member);
    push_of_entries(alloc, layout, site, slot, named, entries.as_slice(), out)?;
    Ok(())
}

fn push_of_values(
    alloc: Global,
    layout: &Layout<'_, '_>,
    site: &Site<'_, '_, '_, '_>,
    slot: &Slot,
    members: &[u32],
    out: &mut Numbering<Procedure>,
) -> Result<(), AllocError>
    requires { site_seen site.now ≡ procedure_site (layout_seen layout.now) (site.now).own slot.now }
    ensures { OnOk result (seen out.new ≡ with_drafts procedure_brings procedure_from (seen out.old) (flat_map
        (procedures.value_procedures (layout_seen layout.now) (site.now).own slot.now) members.now)) }
{
    for member in members {
        push_of_value(alloc, layout, site, slot, *member, out)?;
    }
    Ok(())
}

// The procedures of the profile, of characteristics and of values at the slot whose site this is.
#[tactic(auto, using(vc_compile_numbering::proofs::NumberingLaws::drafts_append))]
fn push_all_at(
    alloc: Global,
    layout: &Layout<'_, '_>,
    site: &Site<'_, '_, '_, '_>,
    slot: &Slot,
    out: &mut Numbering<Procedure>,
) -> Result<(), AllocError>
    requires { site_seen site.now ≡ procedure_site (layout_seen layout.now) (site.now).own slot.now }
    ensures { OnOk result (seen out.new ≡ with_drafts procedure_brings procedure_from (seen out.old)
        (procedures.procedures_at (layout_seen layout.now) (site.now).own slot.now)) }
{
    let members = layout.members_of(slot.object);
    let profile = profile_of(layout, slot.object);
    push_procedures_among(alloc, layout, site, slot, Trigger::Anyway, profile, out)?;
    push_of_characteristics(alloc, layout, site, slot, members, out)?;
    push_of_values(alloc, layout, site, slot, members, out)?;
    Ok(())
}

fn push_procedures_at(
    alloc: Global,
    layout: &Layout<'_, '_>,
    number: u32,
    slot: &Slot,
    out: &mut Numbering<Procedure>,
) -> Result<(), AllocError>
    ensures { OnOk result (seen out.new ≡ with_drafts procedure_brings procedure_from (seen out.old)
        (procedures.procedures_at (layout_seen layout.now) number slot.now)) }
{
    let setting = setting_at(alloc, layout, slot, At::Procedure)?;
    let site = site_of(&setting, number, slot);
    push_all_at(alloc, layout, &site, slot, out)?;
    Ok(())
}

fn push_procedures_of_slots(
    alloc: Global,
    layout: &Layout<'_, '_>,
    slots: &[Slot],
    out: &mut Numbering<Procedure>,
) -> Result<(), AllocError>
    requires { length slots.now < 2 ^ 32 }
    ensures { OnOk result (seen out.new ≡ with_drafts procedure_brings procedure_from (seen out.old)
        (by_slot (procedures.procedures_at (layout_seen layout.now)) 0 slots.now)) }
{
    for (number, slot) in slots.iter().enumerate() {
        push_procedures_at(alloc, layout, number as u32, slot, out)?;
    }
    Ok(())
}

/// Puts the procedures of all slots last.
pub fn push_procedures(
    alloc: Global,
    layout: &Layout<'_, '_>,
    out: &mut Numbering<Procedure>,
) -> Result<(), AllocError>
    ensures { OnOk result (seen out.new ≡ with_drafts procedure_brings procedure_from (seen out.old)
        (procedures.procedure_drafts (layout_seen layout.now))) }
{
    push_procedures_of_slots(alloc, layout, layout.slots(), out)
}
