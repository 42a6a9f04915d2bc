//! What stands at the slots: the root and, below each slot, an object for each line of its bill that
//! has one, in preorder.

ghost use Rattle.std.specs.Prelude.{◌≡◌, ◌+◌, ◌<◌, ◌≤◌, length, map, sum_by, take, IfOk, IfSome, IfNone};
ghost use Rattle.vc_compile_plan.specs.Slots as slots;
ghost use Rattle.vc_compile_slots.specs.Adding.{Adds};

use crate::bills::{bill_of, object_in};
use std::alloc::{AllocError, Global};
use vc_compile_plan::Standing;
use vc_model_parts::parts::Model;
use vc_plan::Slot;
use vc_value::Listed;

/// The most levels of slots, and the most slots, that a plan may have.
const MOST_LEVELS: u8 = 4;

const MOST_SLOTS: usize = 40;

// A place in a bill as a number of the plan, which has 32 bits; no text has so many lines.
fn place_of(item: usize) -> Result<u32, AllocError>
    ensures { IfOk result (λ place. place ≡ item) }
{
    match u32::try_from(item) {
        Ok(place) => Ok(place),
        Err(_) => Err(AllocError),
    }
}

// The first of these, so many or all.
fn first(standings: &[Standing], count: u32) -> &[Standing]
    ensures { result.now ≡ take count standings.now }
{
    let count = count as usize;
    if count <= standings.len() {
        &standings[..count]
    } else {
        standings
    }
}

// How many lines the bills of these have together.
fn line_count(model: &Model, standings: &[Standing]) -> Result<usize, AllocError>
    ensures { IfOk result (λ count. count ≡ sum_by
        (λ standing. length (slots.bill_of model.now standing.object)) standings.now) }
{
    let mut count: usize = 0;
    for standing in standings {
        match count.checked_add(bill_of(model, standing.object).len()) {
            Some(sum) => count = sum,
            None => return Err(AllocError),
        }
    }
    Ok(count)
}

// The number of the line that an object stands for, among the plan's lines.
fn line_number(model: &Model, standings: &[Standing], standing: Standing) -> Result<u32, AllocError>
    ensures { IfOk result (λ line. line ≡ slots.line_number model.now standings.now standing.parent standing.item) }
{
    let Some(parent) = standing.parent else {
        return Ok(0);
    };
    let before = line_count(model, first(standings, parent))?;
    match before.checked_add(standing.item as usize) {
        Some(line) => place_of(line),
        None => Err(AllocError),
    }
}

/// The slots of what stands there.
pub fn slots_of(
    alloc: Global,
    model: &Model,
    standings: &[Standing],
) -> Result<Listed<Slot>, AllocError>
    ensures { IfOk result (λ found. found ≡ map (slots.slot_of model.now standings.now) standings.now) }
{
    let mut found = Listed::new(alloc);
    for standing in standings {
        found.push(Slot {
            parent: standing.parent,
            depth: standing.depth,
            object: standing.object,
            line: line_number(model, standings, *standing)?,
        })?;
    }
    Ok(found)
}

// Puts an object last, and all that stands below it, in so many levels: `false` as soon as there are too many slots.
fn add(
    model: &Model,
    levels: u8,
    standing: Standing,
    standings: &mut Listed<Standing>,
) -> Result<bool, AllocError>
    requires few { length standings.old ≤ 40 }
    requires shallow { standing.depth + levels < 256 }
    ensures { IfOk result (λ fits. Adds fits standings.old standings.new
        (slots.standings_from model.now levels standing.parent standing.depth standing.item
        (length standings.old) standing.object)) }
{
    if levels == 0 {
        return Ok(true);
    }
    if standings.len() >= MOST_SLOTS {
        return Ok(false);
    }
    let number = standings.len() as u32;
    standings.push(standing)?;
    let bill = bill_of(model, standing.object);
    for (item, line) in bill.iter().enumerate() {
        if let Some(object) = object_in(&line.component) {
            let below = Standing {
                parent: Some(number),
                depth: standing.depth + 1,
                object,
                item: place_of(item)?,
            };
            if !add(model, levels - 1, below, standings)? {
                return Ok(false);
            }
        }
    }
    Ok(true)
}

/// What stands at the slots, for a model of at most 4 levels; none where there are more than 40.
pub fn standings_of(alloc: Global, model: &Model) -> Result<Option<Listed<Standing>>, AllocError>
    ensures some { IfOk result (λ found. IfSome found (λ standings. standings ≡ slots.standings_of model.now)) }
    ensures few { IfOk result (λ found. IfSome found (λ standings. length standings ≤ 40)) }
    ensures none { IfOk result (λ found. IfNone found (40 < length (slots.standings_of model.now))) }
{
    let root = Standing {
        parent: None,
        depth: 0,
        object: model.root,
        item: 0,
    };
    let mut standings = Listed::new(alloc);
    if add(model, MOST_LEVELS, root, &mut standings)? {
        Ok(Some(standings))
    } else {
        Ok(None)
    }
}
