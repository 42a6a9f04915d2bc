//! Whether a value, length, decimals, version, item or interval breaks its rule.

ghost use Rattle.std.specs.Prelude.{◌≡◌};
ghost use Rattle.vc_model_faults.specs.Values as values;

use crate::twice::has;
use vc_model_lines::Line;
use vc_model_lines::spelling::is_value_text;
use vc_model_scope::contents::entry_of;
use vc_model_scope::entries::Interval;
use vc_model_scope::scope::{Scope, Standing};
use vc_model_scope::stands::Under;
use vc_value::{Dec, Word};

fn text_fits(under: Under, text: &Word) -> bool
    ensures { result ≡ values.text_fits under text.now }
{
    match under {
        Under::Char(Some(length)) => is_value_text(length, text.bytes()),
        _ => true,
    }
}

fn ends_have_decimals(decimals: u8, entry: Interval) -> bool
    ensures { result ≡ values.ends_have_decimals decimals entry }
{
    entry.low.has_decimals(decimals) && entry.high.has_decimals(decimals)
}

fn is_ordered(entry: Interval) -> bool
    ensures { result ≡ values.is_ordered entry }
{
    entry.low.millionths <= entry.high.millionths
}

fn lies_above(last: Option<Interval>, low: Dec) -> bool
    ensures { result ≡ values.lies_above last low }
{
    match last {
        Some(last) => last.high.millionths < low.millionths,
        None => true,
    }
}

fn entry_ascends(last: Option<Interval>, entry: Interval) -> bool
    ensures { result ≡ values.entry_ascends last entry }
{
    is_ordered(entry) && lies_above(last, entry.low)
}

fn entry_fits(under: Under, last: Option<Interval>, entry: Interval) -> bool
    ensures { result ≡ values.entry_fits under last entry }
{
    match under {
        Under::Num(Some(decimals)) => {
            ends_have_decimals(decimals, entry) && entry_ascends(last, entry)
        }
        _ => true,
    }
}

fn interval_fits(standing: &Standing, entry: Option<Interval>) -> bool
    ensures { result ≡ values.interval_fits standing.now entry }
{
    match entry {
        Some(entry) => entry_fits(standing.under, standing.entries.last(), entry),
        None => false,
    }
}

fn last_of(numbers: &[u16]) -> Option<u16>
    ensures { result ≡ values.last_of numbers.now }
{
    numbers.last().copied()
}

fn exceeds(last: Option<u16>, number: u16) -> bool
    ensures { result ≡ values.exceeds last number }
{
    match last {
        Some(last) => last < number,
        None => true,
    }
}

fn follows(numbers: &[u16], number: Option<u16>) -> bool
    ensures { result ≡ values.follows numbers.now number }
{
    match number {
        Some(number) => exceeds(last_of(numbers), number),
        None => false,
    }
}

/// Whether something on the line does so.
#[tactic(auto, unfolding(crate::specs::Values::is_bad))]
pub fn is_bad(scope: &Scope, line: &Line) -> bool
    ensures { result ≡ values.is_bad scope.now line.now }
{
    match line {
        Line::Head(line) => line.version.is_none(),
        Line::Char(line) => line.length.is_none(),
        Line::Num(line) => line.decimals.is_none(),
        Line::Text(text) => !text_fits(scope.standing.under, text),
        Line::Interval(_) => !interval_fits(&scope.standing, entry_of(line)),
        Line::Column(line) => has(&scope.declared.multiples, &line.characteristic),
        Line::Bill(line) => !follows(scope.standing.items.as_slice(), line.item),
        Line::Operation(line) => !follows(scope.standing.operations.as_slice(), line.number),
        _ => false,
    }
}
