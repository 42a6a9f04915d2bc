//! The pass over all lines of a model text, up to the first that is faulty.

ghost use Rattle.std.specs.Prelude.{◌≡◌, ℕ, ◌-◌, ◌^◌, ◌<◌, [], length, drop, false, IfOk, Err};
ghost use Rattle.std.specs.Str.Lines.{lines};
ghost use Rattle.vc_model_lines.specs.Classified.{lines_of};
ghost use Rattle.vc_model_scope.specs.Scope.{scope_of};
ghost use Rattle.vc_model_faults.specs.First.{backwards, readings_of, IsFirstFault, HasNoFault};
ghost use Rattle.vc_model_faults.specs.Places.{Kept, first_of, seen_places};
ghost use Rattle.vc_model_faults.specs.Readings.{seen_readings};
ghost use Rattle.vc_model_faults.specs.declared.fault.ModelFaultKind.{ModelFaultKind as Kinds};
ghost use Rattle.vc_model_faults.specs.Found.{Finds, Steps};

use crate::fault::{ModelFault, ModelFaultKind};
use crate::one_line::check_line;
use crate::places::Place;
use crate::readings::Reading;
use std::alloc::{AllocError, Global};
use vc_model_lines::classified::{is_in_block, line_of};
use vc_model_lines::cut;
use vc_model_scope::look_ahead::passes_over;
use vc_model_scope::scope::ScopeBuilder;
use vc_value::Listed;

/// What a text without a fault says: its scope, what each block and term is read as, and where its
/// lines stand that count, all in the order of the text.
#[derive(Drop)]
pub struct Sound {
    pub scope: ScopeBuilder,
    pub readings: Listed<Reading>,
    pub places: Listed<Place>,
}

// A faulty line, counted from 1, with its least kind.
#[derive(Clone, Copy)]
struct FaultyLine {
    kind: ModelFaultKind,
    line: u32,
}

// What comes of a line.
#[derive(Clone, Copy)]
enum Step {
    /// It is faulty.
    Fault(ModelFaultKind),
    /// The pass goes on, in a block or outside.
    Goes(bool),
}

// Checks a line outside blocks.
fn check_outside(
    alloc: Global,
    scope: &mut ScopeBuilder,
    readings: &mut Listed<Reading>,
    places: &mut Listed<Place>,
    text: &[u8],
    place: Place,
    raw: &[u8],
    after: &[u8],
) -> Result<Step, AllocError>
    requires { raw.now ≡ first_of (lines (drop place.start text.now)) }
    ensures { IfOk result (λ step. Steps false place.number raw.now after.now scope.old (seen_readings readings.old)
        (seen_places text.now places.old) scope.new (seen_readings readings.new) (seen_places text.now places.new)
        step) }
{
    let line = line_of(alloc, false, raw)?;
    match check_line(alloc, scope, readings, &line, after)? {
        Some(kind) => Ok(Step::Fault(kind)),
        None => {
            places.push(place)?;
            Ok(Step::Goes(is_in_block(&line)))
        }
    }
}

// Checks a line, which is passed over at once where it doesn't count.
fn check_next(
    alloc: Global,
    scope: &mut ScopeBuilder,
    readings: &mut Listed<Reading>,
    places: &mut Listed<Place>,
    text: &[u8],
    inside: bool,
    place: Place,
    raw: &[u8],
    after: &[u8],
) -> Result<Step, AllocError>
    requires { raw.now ≡ first_of (lines (drop place.start text.now)) }
    ensures { IfOk result (λ step. Steps inside place.number raw.now after.now scope.old (seen_readings readings.old)
        (seen_places text.now places.old) scope.new (seen_readings readings.new) (seen_places text.now places.new)
        step) }
{
    match passes_over(inside, raw) {
        Some(next) => Ok(Step::Goes(next)),
        None => check_outside(alloc, scope, readings, places, text, place, raw, after),
    }
}

// Goes over the lines up to the first that is faulty. The text's end is a place of its own.
fn find_fault(
    alloc: Global,
    scope: &mut ScopeBuilder,
    readings: &mut Listed<Reading>,
    places: &mut Listed<Place>,
    text: &[u8],
) -> Result<Option<FaultyLine>, AllocError>
    requires few { length text.now < 2 ^ 32 - 1 }
    requires scope { scope.old ≡ scope_of [] }
    requires readings { readings.old ≡ [] }
    requires places { places.old ≡ [] }
    ensures { IfOk result (λ found. Finds (lines_of text.now) found scope.new (seen_readings readings.new)
        (seen_places text.now places.new)) }
{
    let mut inside = false;
    let mut rest = text;
    let mut line: u32 = 1;
    let mut start: u32 = 0;
    'lines: while let Some((raw, more)) = cut(rest) {
        let place = Place {
            number: line,
            start,
        };
        match check_next(
            alloc, scope, readings, places, text, inside, place, raw, more,
        )? {
            Step::Fault(kind) => return Ok(Some(FaultyLine { kind, line })),
            Step::Goes(next) => inside = next,
        }
        start += (rest.len() - more.len()) as u32;
        rest = more;
        line += 1;
    }
    if scope.scope().root {
        Ok(None)
    } else {
        Ok(Some(FaultyLine {
            kind: ModelFaultKind::NoRoot,
            line,
        }))
    }
}

/// What the text's lines say, or the first fault with the least kind that stands there.
pub fn check_lines(alloc: Global, text: &[u8]) -> Result<Sound, ModelFault>
    requires { length text.now < 2 ^ 32 - 1 }
    ensures sound { IfOk result (λ sound. HasNoFault (lines_of text.now)) }
    ensures scope { IfOk result (λ sound. sound.scope ≡ scope_of (backwards [] (lines_of text.now))) }
    ensures readings { IfOk result (λ sound. seen_readings sound.readings
        ≡ readings_of (backwards [] (lines_of text.now)) []) }
    ensures places { IfOk result (λ sound. Kept (backwards [] (lines_of text.now))
        (seen_places text.now sound.places)) }
    ensures bad { (kind : Kinds) (line : ℕ) → result ≡ Err (ModelFault.Bad kind line)
        → IsFirstFault (lines_of text.now) kind line }
{
    let mut scope = ScopeBuilder::new(alloc);
    let mut readings = Listed::new(alloc);
    let mut places = Listed::new(alloc);
    match find_fault(alloc, &mut scope, &mut readings, &mut places, text)? {
        Some(FaultyLine { kind, line }) => Err(ModelFault::Bad { kind, line }),
        None => Ok(Sound {
            scope,
            readings,
            places,
        }),
    }
}
