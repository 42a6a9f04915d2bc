//! What is saved of a session, as text.

ghost use Rattle.std.specs.Prelude.{◌≡◌, ◌++◌, [], ◌∷◌, length, map, IfOk, OnOk};
ghost use Rattle.std.specs.List.{flat_map};
ghost use Rattle.serde_json.specs.View.{view};
ghost use Rattle.vc_plan.specs.Domains.{numbers_below};
ghost use Rattle.vc_plan.specs.Valid.{IsValid};
ghost use Rattle.vc_plan.specs.declared.plans.Named.TheVariants.{Set};
ghost use Rattle.vc_plan.specs.declared.plans.Plan.{Plan as ThePlan};
ghost use Rattle.vc_plan_users.specs.Choosing.{held_texts};
ghost use Rattle.vc_value.specs.declared.value.Value.TheVariants.{Num, Text};
ghost use Rattle.vc_show_rows.specs.Rows.{class_of, named_of};
ghost use Rattle.vc_store_forms.specs.Forms.{choice_data};
ghost use Rattle.vc_store.specs.Saving as saving;

use crate::words::{listed_text, model_name, name_of, printed_text};
use serde_json::Value as Json;
use std::alloc::{AllocError, Global};
use vc_plan::{Named, Plan};
use vc_plan_users::{SetText, UserValues};
use vc_show_rows::finding::{class_of, named_of};
use vc_store_forms::writing::{choice_value, form_text};
use vc_value::{Dec, Value, Word};

fn put_text(
    alloc: Global,
    out: &mut Vec<Json>,
    plan: &Plan,
    slot: u32,
    named: Named,
    listed: u32,
) -> Result<(), AllocError>
    requires { IsValid plan.now }
    ensures { OnOk result (map view out.new.items
        ≡ map view out.old.items ++ (choice_data (saving.choice_of plan.now slot named (Text listed)) ∷ [])) }
{
    let value = listed_text(plan, listed);
    out.push(choice_value(alloc, slot, name_of(plan, named), value)?)?;
    Ok(())
}

fn put_number(
    alloc: Global,
    out: &mut Vec<Json>,
    plan: &Plan,
    slot: u32,
    named: Named,
    number: Dec,
) -> Result<(), AllocError>
    requires { IsValid plan.now }
    ensures { OnOk result (map view out.new.items
        ≡ map view out.old.items ++ (choice_data (saving.choice_of plan.now slot named (Num number)) ∷ [])) }
{
    let printed = number.print(alloc)?;
    let value = printed_text(&printed, number);
    out.push(choice_value(alloc, slot, name_of(plan, named), value)?)?;
    Ok(())
}

fn put_value(
    alloc: Global,
    out: &mut Vec<Json>,
    plan: &Plan,
    slot: u32,
    named: Named,
    value: Value,
) -> Result<(), AllocError>
    requires { IsValid plan.now }
    ensures { OnOk result (map view out.new.items
        ≡ map view out.old.items ++ (choice_data (saving.choice_of plan.now slot named value) ∷ [])) }
{
    match value {
        Value::Text(listed) => put_text(alloc, out, plan, slot, named, listed),
        Value::Num(number) => put_number(alloc, out, plan, slot, named, number),
    }
}

// Puts the texts of a set that are held.
fn put_held(
    alloc: Global,
    out: &mut Vec<Json>,
    plan: &Plan,
    slot: u32,
    set: u32,
    texts: &[SetText],
) -> Result<(), AllocError>
    requires { IsValid plan.now }
    ensures { OnOk result (map view out.new.items ≡ map view out.old.items
        ++ map choice_data (map (saving.choice_of plan.now slot (Set set)) (map Text (held_texts texts.now)))) }
{
    for listed in texts {
        if listed.held {
            put_text(alloc, out, plan, slot, Named::Set(set), listed.text)?;
        }
    }
    Ok(())
}

// Puts the user's values of a variable or of a set.
fn put_values(
    alloc: Global,
    out: &mut Vec<Json>,
    plan: &Plan,
    users: &UserValues,
    slot: u32,
    named: Named,
) -> Result<(), AllocError>
    requires { IsValid plan.now }
    ensures { OnOk result (map view out.new.items ≡ map view out.old.items
        ++ map choice_data (map (saving.choice_of plan.now slot named) (saving.values_of users.now named))) }
{
    match named {
        Named::Var(var) => match users.value(var) {
            Some(value) => put_value(alloc, out, plan, slot, named, value),
            None => Ok(()),
        },
        Named::Set(set) => put_held(alloc, out, plan, slot, set, users.texts(set)),
    }
}

// Puts them where there is a variable or a set.
fn put_values_of(
    alloc: Global,
    out: &mut Vec<Json>,
    plan: &Plan,
    users: &UserValues,
    slot: u32,
    named: Option<Named>,
) -> Result<(), AllocError>
    requires { IsValid plan.now }
    ensures { OnOk result (map view out.new.items ≡ map view out.old.items
        ++ saving.json_of plan.now users.now slot named) }
{
    match named {
        Some(named) => put_values(alloc, out, plan, users, slot, named),
        None => Ok(()),
    }
}

// Puts those of an instance, in class order.
fn put_slot(
    alloc: Global,
    out: &mut Vec<Json>,
    plan: &Plan,
    users: &UserValues,
    slot: u32,
) -> Result<(), AllocError>
    requires { IsValid plan.now }
    ensures { OnOk result (map view out.new.items ≡ map view out.old.items
        ++ saving.json_at plan.now users.now slot) }
{
    for characteristic in class_of(plan, slot) {
        let named = named_of(plan, slot, *characteristic);
        put_values_of(alloc, out, plan, users, slot, named)?;
    }
    Ok(())
}

// Puts all of them, slot by slot.
fn put_slots(
    alloc: Global,
    out: &mut Vec<Json>,
    plan: &Plan,
    users: &UserValues,
) -> Result<(), AllocError>
    requires { IsValid plan.now }
    ensures { OnOk result (map view out.new.items ≡ map view out.old.items
        ++ saving.all_json plan.now users.now) }
{
    for slot in 0..plan.slots.len() as u32 {
        put_slot(alloc, out, plan, users, slot)?;
    }
    Ok(())
}

/// The text that what the user chose is saved as: the model, its version, and each value with its instance and
/// characteristic, in the order of instances, classes and lists.
pub fn save_text(alloc: Global, plan: &Plan, users: &UserValues) -> Result<Word, AllocError>
    requires { IsValid plan.now }
    ensures { IfOk result (λ word. word ≡ saving.saved_text plan.now users.now) }
{
    let mut values = Vec::new(alloc);
    put_slots(alloc, &mut values, plan, users)?;
    let written = form_text(alloc, model_name(plan), plan.version, values)?;
    Ok(Word::from_vec(written))
}
