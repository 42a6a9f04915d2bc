//! What a user set: all that is shown of a session of which a stage is broken.

ghost use Rattle.std.specs.Prelude.{◌≡◌, ◌≤◌, [], ◌∷◌, ◌++◌, codes, length, OnOk, IfOk};
ghost use Rattle.std.specs.List.{flat_map, list_any};
ghost use Rattle.std.specs.Fmt.{decimal};
ghost use Rattle.vc_plan_users.specs.Choosing.{held_texts, users_of};
ghost use Rattle.vc_show.specs.Fitting.{ShownFits};
ghost use Rattle.vc_show_rows.specs.Texts as told;
ghost use Rattle.vc_desk_shown.specs.Shown as shown;

use std::alloc::{AllocError, Global};
use vc_plan::{Named, Plan};
use vc_plan_users::{SetText, UserValues};
use vc_show_rows::finding::{class_of, named_of};
use vc_show_rows::{put_name, put_value};
use vc_value::{Value, Word};

// `user i C`.
fn put_head(
    alloc: Global,
    out: &mut Word,
    plan: &Plan,
    slot: u32,
    named: Named,
) -> Result<(), AllocError>
    ensures { OnOk result (out.new ≡ out.old
        ++ (codes "user " ++ (decimal slot ++ (codes " " ++ told.name_of plan.now named)))) }
{
    let digits = format!(in alloc; "{slot}")?;
    out.append_text("user ")?;
    out.append(digits.as_bytes())?;
    out.append_text(" ")?;
    put_name(out, plan, named)
}

fn put_chosen_value(
    alloc: Global,
    out: &mut Word,
    plan: &Plan,
    slot: u32,
    var: u32,
    value: Option<Value>,
) -> Result<(), AllocError>
    ensures { OnOk result (out.new ≡ out.old ++ shown.chosen_value plan.now slot var value) }
{
    match value {
        Some(value) => {
            put_head(alloc, out, plan, slot, Named::Var(var))?;
            out.append_text(" = ")?;
            put_value(alloc, out, plan, value)?;
            out.append_text("\n")
        }
        None => Ok(()),
    }
}

// A text of the set, where it is held.
fn put_held(alloc: Global, out: &mut Word, plan: &Plan, text: SetText) -> Result<(), AllocError>
    ensures { OnOk result (out.new ≡ out.old
        ++ flat_map (λ t. codes " " ++ told.text_of plan.now t) (held_texts (text ∷ []))) }
{
    if text.held {
        out.append_text(" ")?;
        put_value(alloc, out, plan, Value::Text(text.text))
    } else {
        Ok(())
    }
}

#[tactic(auto, using(crate::proofs::ChosenLemmas::held_next))]
fn put_all_held(
    alloc: Global,
    out: &mut Word,
    plan: &Plan,
    texts: &[SetText],
) -> Result<(), AllocError>
    ensures { OnOk result (out.new ≡ out.old
        ++ flat_map (λ t. codes " " ++ told.text_of plan.now t) (held_texts texts.now)) }
{
    for text in texts {
        put_held(alloc, out, plan, *text)?;
    }
    Ok(())
}

fn holds_some(texts: &[SetText]) -> bool
    ensures { result ≡ list_any (λ t. t.held) texts.now }
{
    texts.iter().any(|text| text.held)
}

// The line of a set that holds some.
fn put_chosen_set(
    alloc: Global,
    out: &mut Word,
    plan: &Plan,
    slot: u32,
    set: u32,
    texts: &[SetText],
) -> Result<(), AllocError>
    ensures { OnOk result (out.new ≡ out.old ++ shown.chosen_set plan.now slot set (held_texts texts.now)) }
{
    put_head(alloc, out, plan, slot, Named::Set(set))?;
    out.append_text(" {")?;
    put_all_held(alloc, out, plan, texts)?;
    out.append_text(" }\n")
}

#[tactic(auto, using(crate::proofs::ChosenLemmas::none_held, crate::proofs::ChosenLemmas::some_held))]
fn put_chosen_texts(
    alloc: Global,
    out: &mut Word,
    plan: &Plan,
    slot: u32,
    set: u32,
    texts: &[SetText],
) -> Result<(), AllocError>
    ensures { OnOk result (out.new ≡ out.old ++ shown.chosen_texts plan.now slot set (held_texts texts.now)) }
{
    if holds_some(texts) {
        put_chosen_set(alloc, out, plan, slot, set, texts)
    } else {
        Ok(())
    }
}

#[tactic(auto, using(crate::proofs::ChosenLemmas::texts_at))]
fn put_chosen(
    alloc: Global,
    out: &mut Word,
    plan: &Plan,
    users: &UserValues,
    slot: u32,
    named: Option<Named>,
) -> Result<(), AllocError>
    ensures { OnOk result (out.new ≡ out.old ++ shown.chosen_row plan.now (users_of users.now) slot named) }
{
    match named {
        Some(Named::Var(var)) => put_chosen_value(alloc, out, plan, slot, var, users.value(var)),
        Some(Named::Set(set)) => put_chosen_texts(alloc, out, plan, slot, set, users.texts(set)),
        None => Ok(()),
    }
}

fn put_chosen_at(
    alloc: Global,
    out: &mut Word,
    plan: &Plan,
    users: &UserValues,
    slot: u32,
) -> Result<(), AllocError>
    requires { ShownFits plan.now }
    ensures { OnOk result (out.new ≡ out.old ++ shown.chosen_at plan.now (users_of users.now) slot) }
{
    for characteristic in class_of(plan, slot) {
        put_chosen(
            alloc,
            out,
            plan,
            users,
            slot,
            named_of(plan, slot, *characteristic),
        )?;
    }
    Ok(())
}

/// All that the user set, by slot and class order.
pub fn chosen(alloc: Global, plan: &Plan, users: &UserValues) -> Result<Word, AllocError>
    requires fit { ShownFits plan.now }
    requires slots { length plan.now.slots ≤ 40 }
    ensures { IfOk result (λ text. text ≡ shown.chosen_text plan.now (users_of users.now)) }
{
    let mut out = Word::new(alloc);
    for slot in 0..plan.slots.len() as u32 {
        put_chosen_at(alloc, &mut out, plan, users, slot)?;
    }
    Ok(out)
}
