//! Where a dependency stands: its name, a number, and its slots.

ghost use Rattle.std.specs.Prelude.{◌≡◌, IfOk};
ghost use Rattle.std.specs.Option.{option_map};
ghost use Rattle.vc_wire_chains_meanings.specs.Meant.{HasNumbers};
ghost use Rattle.vc_wire_chains_lines.specs.Steps as steps;

use crate::cutting::{after, cut};
use crate::numbers::{number_in, numbers_at};
use std::alloc::{AllocError, Global};
use vc_plan::Plan;
use vc_value::equals_ignoring_case;
use vc_wire_chains_meanings::meaning::{constraint_named, statement_numbered};
use vc_wire_requests::cutting::cut_at_space;

/// `NAME k at W`: a dependency's name, a number and a word, and what follows the space behind it.
#[derive(Clone, Copy)]
pub struct Place<'a> {
    pub name: &'a [u8],
    pub number: u32,
    pub slots: &'a [u8],
    pub rest: Option<&'a [u8]>,
}

/// Whether the word is this one, in letters of either case.
pub fn is_word(word: &[u8], text: &str) -> bool
    ensures { result ≡ steps.is_word text.now word.now }
{
    equals_ignoring_case(word, text.as_bytes())
}

fn place_at<'a>(name: &'a [u8], number: u32, text: &'a [u8]) -> Place<'a>
    ensures { steps.stood_by result ≡ steps.place_at name.now number text.now }
{
    let (slots, rest) = cut(b' ', text);
    Place {
        name,
        number,
        slots,
        rest,
    }
}

/// The place with which the line begins.
pub fn place_of(line: &[u8]) -> Option<Place<'_>>
    ensures { option_map steps.stood_by result ≡ steps.place_of line.now }
{
    let (name, more) = cut_at_space(line)?;
    let (word, more) = cut_at_space(more)?;
    let number = number_in(word)?;
    let slots = after(more, "at ")?;
    Some(place_at(name, number, slots))
}

/// The rule of the constraint's restriction that stands there.
pub fn constraint_at(
    alloc: Global,
    plan: &Plan,
    place: Place<'_>,
) -> Result<Option<u32>, AllocError>
    requires { HasNumbers plan.now }
    ensures { IfOk result (λ rule. rule ≡ steps.constraint_at plan.now (steps.stood_by place.entry)) }
{
    match numbers_at(alloc, b',', place.slots)? {
        Some(slots) => {
            let rule = constraint_named(plan, place.name, place.number, slots.as_slice());
            drop(slots);
            Ok(rule)
        }
        None => Ok(None),
    }
}

/// The procedure that stands there, and its statement.
pub fn statement_at(plan: &Plan, place: Place<'_>) -> Option<(u32, u32)>
    requires { HasNumbers plan.now }
    ensures { result ≡ steps.statement_at plan.now (steps.stood_by place.entry) }
{
    let slot = number_in(place.slots)?;
    statement_numbered(plan, place.name, place.number, slot)
}
