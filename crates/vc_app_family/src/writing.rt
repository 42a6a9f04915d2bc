//! Writing the text of a family.

ghost use Rattle.std.specs.Prelude.{◌≡◌, ◌<◌, ◌-◌, ◌^◌, ◌++◌, IfOk, OnOk};
ghost use Rattle.vc_app_family.specs.Families as families;

use crate::numbers::{characteristic_count, next_value, value_count};
use std::alloc::{AllocError, Global};
use vc_value::Word;

// Puts a number last, between two texts.
fn put_numbered(
    alloc: Global,
    out: &mut Word,
    before: &str,
    number: u32,
    after: &str,
) -> Result<(), AllocError>
    ensures { OnOk result (out.new ≡ out.old ++ families.numbered before.now number after.now) }
{
    let digits = format!(in alloc; "{number}")?;
    out.append_text(before)?;
    out.append_text(digits.as_str())?;
    out.append_text(after)
}

// Puts what parts one from the one before it.
fn put_parting(out: &mut Word, text: &str, first: bool) -> Result<(), AllocError>
    ensures { OnOk result (out.new ≡ out.old ++ families.parting text.now first) }
{
    if first {
        return Ok(());
    }
    out.append_text(text)
}

#[tactic(auto, using(vc_base::proofs::RangeLaws::walking))]
fn put_values(alloc: Global, out: &mut Word, count: u32) -> Result<(), AllocError>
    ensures { OnOk result (out.new ≡ out.old ++ families.value_lines count) }
{
    for value in 0..count {
        put_numbered(alloc, out, "VALUE 'V", value, "'\n")?;
    }
    Ok(())
}

fn put_characteristic(
    alloc: Global,
    out: &mut Word,
    values: u32,
    characteristic: u32,
) -> Result<(), AllocError>
    ensures { OnOk result (out.new ≡ out.old ++ families.characteristic_lines values characteristic) }
{
    put_numbered(alloc, out, "CHAR A", characteristic, " 2\n")?;
    put_values(alloc, out, values)
}

#[tactic(auto, using(vc_base::proofs::RangeLaws::walking))]
fn put_characteristics(
    alloc: Global,
    out: &mut Word,
    values: u32,
    count: u32,
) -> Result<(), AllocError>
    ensures { OnOk result (out.new ≡ out.old ++ families.all_characteristics values count) }
{
    for place in 0..count {
        put_characteristic(alloc, out, values, place + 1)?;
    }
    Ok(())
}

#[tactic(auto, using(vc_base::proofs::RangeLaws::walking))]
fn put_members(alloc: Global, out: &mut Word, count: u32) -> Result<(), AllocError>
    ensures { OnOk result (out.new ≡ out.old ++ families.members count) }
{
    for place in 0..count {
        put_numbered(alloc, out, "HAS A", place + 1, "\n")?;
    }
    Ok(())
}

// Puts that a characteristic has a value.
fn put_relation(
    alloc: Global,
    out: &mut Word,
    characteristic: u32,
    value: u64,
) -> Result<(), AllocError>
    ensures { OnOk result (out.new ≡ out.old ++ families.relation characteristic value) }
{
    let text = format!(in alloc; "?X.A{characteristic} = 'V{value}'")?;
    out.append_text(text.as_str())
}

// Whether no restriction stands before this one.
fn is_first(characteristic: u32, value: u32) -> bool
    ensures { result ≡ families.is_first characteristic value }
{
    characteristic == 1 && value == 0
}

// Puts the restriction of the characteristic after this one where this one has this value. The last has none after it.
fn put_restriction(
    alloc: Global,
    out: &mut Word,
    family: u32,
    characteristic: u32,
    value: u32,
) -> Result<(), AllocError>
    requires { characteristic < 2 ^ 32 - 1 }
    ensures { OnOk result (out.new ≡ out.old ++ families.restriction family characteristic value) }
{
    let next = next_value(family, characteristic, value);
    let first = is_first(characteristic, value);
    put_parting(out, ",\n", first)?;
    put_relation(alloc, out, characteristic + 1, next)?;
    out.append_text(" IF ")?;
    put_relation(alloc, out, characteristic, u64::from(value))
}

#[tactic(auto, using(vc_base::proofs::RangeLaws::walking))]
fn put_restrictions_by(
    alloc: Global,
    out: &mut Word,
    family: u32,
    characteristic: u32,
) -> Result<(), AllocError>
    requires { characteristic < 2 ^ 32 - 1 }
    ensures { OnOk result (out.new ≡ out.old ++ families.restrictions_by family characteristic) }
{
    let count = value_count(family);
    for value in 0..count {
        put_restriction(alloc, out, family, characteristic, value)?;
    }
    Ok(())
}

#[tactic(auto, using(vc_base::proofs::RangeLaws::walking))]
fn put_restrictions(alloc: Global, out: &mut Word, family: u32) -> Result<(), AllocError>
    ensures { OnOk result (out.new ≡ out.old ++ families.restrictions family) }
{
    let count = characteristic_count(family) - 1;
    for place in 0..count {
        put_restrictions_by(alloc, out, family, place + 1)?;
    }
    Ok(())
}

fn put_inference(alloc: Global, out: &mut Word, characteristic: u32) -> Result<(), AllocError>
    ensures { OnOk result (out.new ≡ out.old ++ families.inference characteristic) }
{
    put_parting(out, ", ", characteristic == 1)?;
    let text = format!(in alloc; "?X.A{characteristic}")?;
    out.append_text(text.as_str())
}

#[tactic(auto, using(vc_base::proofs::RangeLaws::walking))]
fn put_inferences(alloc: Global, out: &mut Word, count: u32) -> Result<(), AllocError>
    ensures { OnOk result (out.new ≡ out.old ++ families.inferences count) }
{
    for place in 0..count {
        put_inference(alloc, out, place + 1)?;
    }
    Ok(())
}

// Puts the characteristics, and the class that has them all.
fn put_class(alloc: Global, out: &mut Word, family: u32) -> Result<(), AllocError>
    ensures { OnOk result (out.new ≡ out.old ++ families.class_text family) }
{
    let count = characteristic_count(family);
    put_characteristics(alloc, out, value_count(family), count)?;
    out.append_text("CLASS FAMILY\n")?;
    put_members(alloc, out, count)
}

// Puts the constraint.
fn put_constraint(alloc: Global, out: &mut Word, family: u32) -> Result<(), AllocError>
    ensures { OnOk result (out.new ≡ out.old ++ families.constraint_text family) }
{
    out.append_text("CONSTRAINT NEXT\nOBJECTS: ?X IS_A (300)FAMILY.\nRESTRICTIONS: ")?;
    put_restrictions(alloc, out, family)?;
    out.append_text(".\nINFERENCES: ")?;
    put_inferences(alloc, out, characteristic_count(family))?;
    out.append_text(".\nEND\n")
}

// Puts the net and the object that uses it.
fn put_object(alloc: Global, out: &mut Word, family: u32) -> Result<(), AllocError>
    ensures { OnOk result (out.new ≡ out.old ++ families.object_text family) }
{
    out.append_text("NET MAIN\nUSES NEXT\n")?;
    put_numbered(
        alloc,
        out,
        "OBJECT FAM",
        family,
        " CLASS FAMILY\nUSES MAIN\n",
    )?;
    put_numbered(alloc, out, "ROOT FAM", family, "\n")
}

fn put_family(alloc: Global, out: &mut Word, family: u32) -> Result<(), AllocError>
    ensures { OnOk result (out.new ≡ out.old ++ families.family_text family) }
{
    put_numbered(alloc, out, "MODEL FAM", family, " VERSION 1\n")?;
    put_class(alloc, out, family)?;
    put_constraint(alloc, out, family)?;
    put_object(alloc, out, family)
}

/// The text of the model of the family of this number.
pub fn family_text(alloc: Global, family: u32) -> Result<Word, AllocError>
    ensures { IfOk result (λ text. text ≡ families.family_text family) }
{
    let mut text = Word::new(alloc);
    put_family(alloc, &mut text, family)?;
    Ok(text)
}
