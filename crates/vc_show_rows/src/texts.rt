//! How values, rows and instances are printed.

ghost use Rattle.std.specs.Prelude.{◌≡◌, ◌++◌, codes, slice_get, OnOk};
ghost use Rattle.std.specs.List.{flat_map};
ghost use Rattle.std.specs.Fmt.{decimal};
ghost use Rattle.vc_value.specs.Numerals.{number_text};
ghost use Rattle.vc_plan.specs.declared.plans.Named.TheVariants.{Set, Var};
ghost use Rattle.vc_show_rows.specs.declared.rows.Row.TheVariants.{Valued};
ghost use Rattle.vc_show_rows.specs.Texts as told;

use crate::rows::Row;
use std::alloc::{AllocError, Global};
use vc_plan::{Named, Piece, Plan, element};
use vc_value::{Dec, Grain, Value, Word};

fn put_doubled(out: &mut Word, text: &[u8]) -> Result<(), AllocError>
    ensures { OnOk result (out.new ≡ out.old ++ flat_map told.quoted_byte text.now) }
{
    for byte in text {
        match byte {
            b'\'' => out.append_text("''")?,
            other => out.append(&[*other])?,
        }
    }
    Ok(())
}

fn put_quoted(out: &mut Word, text: &[u8]) -> Result<(), AllocError>
    ensures { OnOk result (out.new ≡ out.old ++ told.quoted text.now) }
{
    out.append_text("'")?;
    put_doubled(out, text)?;
    out.append_text("'")
}

fn put_text(out: &mut Word, plan: &Plan, text: u32) -> Result<(), AllocError>
    ensures { OnOk result (out.new ≡ out.old ++ told.text_of plan.now text) }
{
    match element(plan.texts.as_slice(), text) {
        Some(text) => put_quoted(out, text.bytes()),
        None => Ok(()),
    }
}

fn put_number(alloc: Global, out: &mut Word, number: Dec) -> Result<(), AllocError>
    ensures { OnOk result (out.new ≡ out.old ++ number_text number) }
{
    let text = number.print(alloc)?;
    out.append(text.bytes())
}

/// Puts a value last: a text in quotes, each quote in it doubled, or a number.
pub fn put_value(alloc: Global, out: &mut Word, plan: &Plan, value: Value) -> Result<(), AllocError>
    ensures { OnOk result (out.new ≡ out.old ++ told.value_text plan.now value) }
{
    match value {
        Value::Text(text) => put_text(out, plan, text),
        Value::Num(number) => put_number(alloc, out, number),
    }
}

fn put_ends(alloc: Global, out: &mut Word, grain: Grain) -> Result<(), AllocError>
    ensures { OnOk result (out.new ≡ out.old ++ (number_text grain.low ++ (codes " .. " ++ number_text grain.high))) }
{
    put_number(alloc, out, grain.low)?;
    out.append_text(" .. ")?;
    put_number(alloc, out, grain.high)
}

/// Puts a piece last: the value, if it has one alone, or its ends.
pub fn put_piece(alloc: Global, out: &mut Word, plan: &Plan, piece: Piece) -> Result<(), AllocError>
    ensures { OnOk result (out.new ≡ out.old ++ told.piece_text plan.now piece) }
{
    match piece {
        Piece::OneText(text) => put_text(out, plan, text),
        Piece::Stretch(grain) if grain.low.millionths == grain.high.millionths => put_number(
            alloc, out, grain.low,
        ),
        Piece::Stretch(grain) => put_ends(alloc, out, grain),
    }
}

fn put_characteristic(out: &mut Word, plan: &Plan, characteristic: u32) -> Result<(), AllocError>
    ensures { OnOk result (out.new ≡ out.old ++ told.name_in (slice_get plan.now.characteristics characteristic)) }
{
    match element(plan.characteristics.as_slice(), characteristic) {
        Some(characteristic) => out.append(characteristic.name.bytes()),
        None => Ok(()),
    }
}

fn put_var_name(out: &mut Word, plan: &Plan, var: u32) -> Result<(), AllocError>
    ensures { OnOk result (out.new ≡ out.old ++ told.name_of plan.now (Var var)) }
{
    match element(plan.vars.as_slice(), var) {
        Some(x) => put_characteristic(out, plan, x.characteristic),
        None => Ok(()),
    }
}

fn put_set_name(out: &mut Word, plan: &Plan, set: u32) -> Result<(), AllocError>
    ensures { OnOk result (out.new ≡ out.old ++ told.name_of plan.now (Set set)) }
{
    match element(plan.sets.as_slice(), set) {
        Some(x) => put_characteristic(out, plan, x.characteristic),
        None => Ok(()),
    }
}

/// Puts the name of a characteristic last, by the variable or the set that it is at a slot.
pub fn put_name(out: &mut Word, plan: &Plan, named: Named) -> Result<(), AllocError>
    ensures { OnOk result (out.new ≡ out.old ++ told.name_of plan.now named) }
{
    match named {
        Named::Var(var) => put_var_name(out, plan, var),
        Named::Set(set) => put_set_name(out, plan, set),
    }
}

fn put_end_of_row(out: &mut Word, required: bool) -> Result<(), AllocError>
    ensures { OnOk result (out.new ≡ out.old ++ told.end_of_row required) }
{
    out.append_text(if required { " required\n" } else { "\n" })
}

fn put_giver(out: &mut Word, giver: &[u8]) -> Result<(), AllocError>
    ensures { OnOk result (out.new ≡ out.old ++ (codes " " ++ (giver.now ++ codes "\n"))) }
{
    out.append_text(" ")?;
    out.append(giver)?;
    out.append_text("\n")
}

fn put_valued(
    alloc: Global,
    out: &mut Word,
    plan: &Plan,
    giver: &[u8],
    var: u32,
    value: Value,
) -> Result<(), AllocError>
    ensures { OnOk result (out.new ≡ out.old ++ told.row_text plan.now giver.now (Valued var value)) }
{
    put_var_name(out, plan, var)?;
    out.append_text(" = ")?;
    put_value(alloc, out, plan, value)?;
    put_giver(out, giver)
}

fn put_pieces(
    alloc: Global,
    out: &mut Word,
    plan: &Plan,
    pieces: &[Piece],
) -> Result<(), AllocError>
    ensures { OnOk result (out.new ≡ out.old
        ++ flat_map (λ piece. codes " " ++ told.piece_text plan.now piece) pieces.now) }
{
    for piece in pieces {
        out.append_text(" ")?;
        put_piece(alloc, out, plan, *piece)?;
    }
    Ok(())
}

fn put_asked(
    alloc: Global,
    out: &mut Word,
    plan: &Plan,
    var: u32,
    pieces: &[Piece],
    required: bool,
) -> Result<(), AllocError>
    ensures { OnOk result (out.new ≡ out.old ++ (told.name_of plan.now (Var var) ++ (codes " ?"
        ++ (flat_map (λ piece. codes " " ++ told.piece_text plan.now piece) pieces.now ++ told.end_of_row required)))) }
{
    put_var_name(out, plan, var)?;
    out.append_text(" ?")?;
    put_pieces(alloc, out, plan, pieces)?;
    put_end_of_row(out, required)
}

fn put_texts(out: &mut Word, plan: &Plan, texts: &[u32]) -> Result<(), AllocError>
    ensures { OnOk result (out.new ≡ out.old ++ flat_map (λ t. codes " " ++ told.text_of plan.now t) texts.now) }
{
    for text in texts {
        out.append_text(" ")?;
        put_text(out, plan, *text)?;
    }
    Ok(())
}

fn put_closed(out: &mut Word, plan: &Plan, texts: &[u32], required: bool) -> Result<(), AllocError>
    ensures { OnOk result (out.new ≡ out.old ++ (flat_map (λ t. codes " " ++ told.text_of plan.now t) texts.now
        ++ (codes " }" ++ told.end_of_row required))) }
{
    put_texts(out, plan, texts)?;
    out.append_text(" }")?;
    put_end_of_row(out, required)
}

fn put_chosen(
    out: &mut Word,
    plan: &Plan,
    set: u32,
    texts: &[u32],
    required: bool,
) -> Result<(), AllocError>
    ensures { OnOk result (out.new ≡ out.old ++ (told.name_of plan.now (Set set) ++ (codes " {"
        ++ (flat_map (λ t. codes " " ++ told.text_of plan.now t) texts.now
        ++ (codes " }" ++ told.end_of_row required))))) }
{
    put_set_name(out, plan, set)?;
    out.append_text(" {")?;
    put_closed(out, plan, texts, required)
}

/// Puts a row last. Who gave a variable its value is told by that text.
pub fn put_row(
    alloc: Global,
    out: &mut Word,
    plan: &Plan,
    giver: &[u8],
    row: &Row,
) -> Result<(), AllocError>
    ensures { OnOk result (out.new ≡ out.old ++ told.row_text plan.now giver.now row.now) }
{
    match row {
        Row::Valued { var, value } => put_valued(alloc, out, plan, giver, *var, *value),
        Row::Asked {
            var,
            pieces,
            required,
        } => put_asked(alloc, out, plan, *var, pieces.as_slice(), *required),
        Row::Chosen {
            set,
            texts,
            required,
        } => put_chosen(out, plan, *set, texts.as_slice(), *required),
    }
}

fn put_material_in(out: &mut Word, plan: &Plan, object: u32) -> Result<(), AllocError>
    ensures { OnOk result (out.new ≡ out.old ++ told.material_in (slice_get plan.now.objects object)) }
{
    match element(plan.objects.as_slice(), object) {
        Some(object) => out.append(object.material.bytes()),
        None => Ok(()),
    }
}

fn put_material(out: &mut Word, plan: &Plan, slot: u32) -> Result<(), AllocError>
    ensures { OnOk result (out.new ≡ out.old ++ told.material_of plan.now (slice_get plan.now.slots slot)) }
{
    match element(plan.slots.as_slice(), slot) {
        Some(slot) => put_material_in(out, plan, slot.object),
        None => Ok(()),
    }
}

fn put_slot(alloc: Global, out: &mut Word, slot: u32) -> Result<(), AllocError>
    ensures { OnOk result (out.new ≡ out.old ++ (decimal slot ++ codes " ")) }
{
    let digits = format!(in alloc; "{slot}")?;
    out.append(digits.as_bytes())?;
    out.append_text(" ")
}

/// Puts the line of an instance last: its slot and material, and whether it is late.
pub fn put_instance(
    alloc: Global,
    out: &mut Word,
    plan: &Plan,
    slot: u32,
    late: bool,
) -> Result<(), AllocError>
    ensures { OnOk result (out.new ≡ out.old ++ told.instance_text plan.now slot late) }
{
    out.append_text("instance ")?;
    put_slot(alloc, out, slot)?;
    put_material(out, plan, slot)?;
    out.append_text(if late { " late\n" } else { "\n" })
}
