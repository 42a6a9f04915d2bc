//! The values of a variable that are left and not hidden, as pieces of its list.

ghost use Rattle.std.specs.Prelude.{◌≡◌, ◌++◌, ◌&&◌, not, map, option_to_list, slice_get, IfOk, OnOk, Some};
ghost use Rattle.std.specs.List.{flat_map};
ghost use Rattle.vc_value.specs.Grains.{unit_of};
ghost use Rattle.vc_plan.specs.Classes.{list_at};
ghost use Rattle.vc_plan.specs.Domains.{decimals_of, grains_in};
ghost use Rattle.vc_plan.specs.Lists.{list_in};
ghost use Rattle.vc_plan.specs.Readings.{full_reading};
ghost use Rattle.vc_plan.specs.Seen.{is_left};
ghost use Rattle.vc_plan.specs.declared.conditions.Piece.TheVariants.{OneText, Stretch};
ghost use Rattle.vc_plan.specs.declared.plans.Named.TheVariants.{Var};
ghost use Rattle.vc_plan_values.specs.Computing.{LiesInGrains};
ghost use Rattle.vc_show.specs.Places.{is_place_hidden};
ghost use Rattle.vc_show_rows.specs.Fitting.{RowsFit};
ghost use Rattle.vc_show_rows.specs.Rows.{entries_of, is_shown, shown_grain, shown_grains, shown_pieces};

use crate::joining::joined;
use std::alloc::{AllocError, Global};
use vc_plan::{Named, Piece, Plan, Reading, element};
use vc_plan_values::{decimals_of, grain_count, piece};
use vc_rule_grains::grains::is_left_by;
use vc_show::hidden_value;
use vc_value::{Domain, GrainList, Listed};

fn is_left<R: Reading>(plan: &Plan, reading: &R, var: u32, grain: u32) -> bool
    ensures { result ≡ is_left plan.now (R.seen reading.now) var grain }
{
    is_left_by(plan, reading, var, grain, reading.value(var))
}

fn is_shown<R: Reading>(plan: &Plan, reading: &R, var: u32, grain: u32) -> bool
    requires fit { RowsFit plan.now }
    requires values { LiesInGrains plan.now (R.seen reading.now) }
    ensures { result ≡ is_shown plan.now (R.seen reading.now)
        (full_reading plan.now (R.seen reading.now) (R.holdings reading.now)) var grain }
{
    is_left(plan, reading, var, grain) && !hidden_value(plan, reading, Named::Var(var), grain)
}

fn put_piece(out: &mut Listed<Piece>, piece: Option<Piece>) -> Result<(), AllocError>
    ensures { OnOk result (out.new ≡ out.old ++ option_to_list piece) }
{
    match piece {
        Some(piece) => out.push(piece),
        None => Ok(()),
    }
}

fn put_grain<R: Reading>(
    plan: &Plan,
    reading: &R,
    out: &mut Listed<Piece>,
    var: u32,
    grain: u32,
) -> Result<(), AllocError>
    requires fit { RowsFit plan.now }
    requires values { LiesInGrains plan.now (R.seen reading.now) }
    ensures { OnOk result (out.new ≡ out.old ++ shown_grain plan.now (R.seen reading.now)
        (full_reading plan.now (R.seen reading.now) (R.holdings reading.now)) var grain) }
{
    if !is_shown(plan, reading, var, grain) {
        return Ok(());
    }
    put_piece(out, piece(plan, var, grain))
}

#[tactic(auto, using(vc_base::proofs::RangeLaws::walking))]
fn shown_grains<R: Reading>(
    alloc: Global,
    plan: &Plan,
    reading: &R,
    var: u32,
) -> Result<Listed<Piece>, AllocError>
    requires fit { RowsFit plan.now }
    requires values { LiesInGrains plan.now (R.seen reading.now) }
    ensures { IfOk result (λ pieces. pieces ≡ shown_grains plan.now (R.seen reading.now)
        (full_reading plan.now (R.seen reading.now) (R.holdings reading.now)) var) }
{
    let count = grain_count(plan, var);
    let mut out = Listed::new(alloc);
    let mut grain = 0;
    while grain < count {
        put_grain(plan, reading, &mut out, var, grain)?;
        grain += 1;
    }
    Ok(out)
}

#[tactic(auto, using(crate::proofs::JoinLemmas::stretching))]
fn stretches(alloc: Global, grains: &GrainList) -> Result<Listed<Piece>, AllocError>
    ensures { IfOk result (λ pieces. pieces ≡ map Stretch grains.now) }
{
    let count = grains.count();
    let mut out = Listed::new(alloc);
    let mut grain = 0;
    while grain < count {
        out.push(Piece::Stretch(grains.grain(grain)))?;
        grain += 1;
    }
    Ok(out)
}

fn texts(alloc: Global, texts: &[u32]) -> Result<Listed<Piece>, AllocError>
    ensures { IfOk result (λ pieces. pieces ≡ map OneText texts.now) }
{
    let mut out = Listed::new(alloc);
    for text in texts {
        out.push(Piece::OneText(*text))?;
    }
    Ok(out)
}

fn pieces_in(alloc: Global, list: &Domain) -> Result<Listed<Piece>, AllocError>
    ensures { IfOk result (λ pieces. pieces ≡ grains_in (Some list.now)) }
{
    match list {
        Domain::Texts(listed) => texts(alloc, listed.as_slice()),
        Domain::Nums { grains, .. } => stretches(alloc, grains),
    }
}

fn entries_at(alloc: Global, plan: &Plan, characteristic: u32) -> Result<Listed<Piece>, AllocError>
    ensures { IfOk result (λ pieces. pieces ≡
        grains_in (list_in (slice_get plan.now.characteristics characteristic))) }
{
    match element(plan.characteristics.as_slice(), characteristic) {
        Some(characteristic) => pieces_in(alloc, &characteristic.list),
        None => Ok(Listed::new(alloc)),
    }
}

// The entries of the variable's list.
fn entries_of(alloc: Global, plan: &Plan, var: u32) -> Result<Listed<Piece>, AllocError>
    ensures { IfOk result (λ pieces. pieces ≡ entries_of plan.now var) }
{
    match element(plan.vars.as_slice(), var) {
        Some(x) => entries_at(alloc, plan, x.characteristic),
        None => Ok(Listed::new(alloc)),
    }
}

// One at the last of the variable's decimals, in millionths.
fn unit_of(plan: &Plan, var: u32) -> u32
    requires { RowsFit plan.now }
    ensures { result ≡ unit_of (decimals_of plan.now var) }
{
    10u32.pow(6 - u32::from(decimals_of(plan, var)))
}

/// The values that are left of the variable and not hidden: grains that follow each other without a gap in one entry of
/// its list are one piece.
pub fn shown_pieces<R: Reading>(
    alloc: Global,
    plan: &Plan,
    reading: &R,
    var: u32,
) -> Result<Listed<Piece>, AllocError>
    requires fit { RowsFit plan.now }
    requires values { LiesInGrains plan.now (R.seen reading.now) }
    ensures { IfOk result (λ pieces. pieces ≡ shown_pieces plan.now (R.seen reading.now)
        (full_reading plan.now (R.seen reading.now) (R.holdings reading.now)) var) }
{
    let entries = entries_of(alloc, plan, var)?;
    let grains = shown_grains(alloc, plan, reading, var)?;
    joined(
        alloc,
        unit_of(plan, var),
        entries.as_slice(),
        grains.as_slice(),
    )
}
