//! Values and grains of a plan's variables, as they are spelled.

ghost use Rattle.std.specs.Prelude.{◌≡◌, slice_get, IfOk};
ghost use Rattle.std.specs.Option.{option_copied};
ghost use Rattle.vc_plan.specs.Domains.{decimals_of, is_grain_with};
ghost use Rattle.vc_plan.specs.Fitting.{may_have};
ghost use Rattle.vc_value.specs.Decimals.{read_number};
ghost use Rattle.vc_value.specs.declared.value.Value.TheVariants.{Num};
ghost use Rattle.vc_wire_chains_lines.specs.Cutting as cutting;
ghost use Rattle.vc_wire_chains_meanings.specs.Meant.{HasNumbers};
ghost use Rattle.vc_wire_chains_lines.specs.Values as told;

use crate::cutting::{after, behind_quoted, is_quoted, quoted_text};
use crate::spelling::Spelling;
use std::alloc::{AllocError, Global};
use vc_plan::{Piece, Plan, element};
use vc_plan_values::{grain_count, piece, some_holds};
use vc_value::{Dec, Domain, Grain, Value};
use vc_wire_requests::cutting::cut_at_space;

fn same_number(first: Dec, second: Dec) -> bool
    ensures { result ≡ told.same_number first second }
{
    first.millionths == second.millionths
}

fn is_text(plan: &Plan, text: u32, word: &[u8]) -> bool
    ensures { result ≡ told.is_text word.now (slice_get plan.now.texts text) }
{
    match element(plan.texts.as_slice(), text) {
        Some(text) => text.is(word),
        None => false,
    }
}

fn has_ends(grain: Grain, low: Dec, high: Dec) -> bool
    ensures { result ≡ told.has_ends grain low high }
{
    same_number(grain.low, low) && same_number(grain.high, high)
}

fn is_piece(plan: &Plan, spelling: &Spelling, piece: Piece) -> bool
    ensures { result ≡ told.is_piece plan.now spelling.now piece }
{
    match (spelling, piece) {
        (Spelling::Text(word), Piece::OneText(text)) => is_text(plan, text, word.bytes()),
        (Spelling::Number(number), Piece::Stretch(grain)) => has_ends(grain, *number, *number),
        (Spelling::Ends(low, high), Piece::Stretch(grain)) => {
            has_ends(grain, *low, *high) && !same_number(*low, *high)
        }
        _ => false,
    }
}

fn is_grain(plan: &Plan, var: u32, spelling: &Spelling, grain: u32) -> bool
    ensures { result ≡ is_grain_with plan.now var (told.is_piece plan.now spelling.now) grain }
{
    match piece(plan, var, grain) {
        Some(piece) => is_piece(plan, spelling, piece),
        None => false,
    }
}

/// The variable's grain that is spelled so.
#[tactic(auto, using(vc_base::proofs::RangeLaws::finding))]
pub fn grain_spelled(plan: &Plan, var: u32, spelling: &Spelling) -> Option<u32>
    requires { HasNumbers plan.now }
    ensures { result ≡ told.grain_spelled plan.now var spelling.now }
{
    for grain in 0..grain_count(plan, var) {
        if is_grain(plan, var, spelling, grain) {
            return Some(grain);
        }
    }
    None
}

fn text_of(piece: Option<Piece>) -> Option<Value>
    ensures { result ≡ told.text_of piece }
{
    match piece {
        Some(Piece::OneText(text)) => Some(Value::Text(text)),
        _ => None,
    }
}

fn text_value(plan: &Plan, var: u32, spelling: &Spelling) -> Option<Value>
    requires { HasNumbers plan.now }
    ensures { result ≡ told.text_value plan.now var spelling.now }
{
    let grain = grain_spelled(plan, var, spelling)?;
    text_of(piece(plan, var, grain))
}

fn decimals_of(plan: &Plan, var: u32) -> u8
    ensures { result ≡ decimals_of plan.now var }
{
    match element(plan.vars.as_slice(), var) {
        Some(x) => match element(plan.domains.as_slice(), x.domain) {
            Some(
                Domain::Nums {
                    decimals,
                    grains: _,
                },
            ) => *decimals,
            _ => 6,
        },
        None => 6,
    }
}

fn may_have(plan: &Plan, var: u32, number: Dec) -> bool
    ensures { result ≡ may_have plan.now var (Num number) }
{
    some_holds(plan, var, Value::Num(number)) && number.has_decimals(decimals_of(plan, var))
}

fn number_value(plan: &Plan, var: u32, word: &[u8]) -> Option<Value>
    ensures { result ≡ told.number_value plan.now var word.now }
{
    match Dec::read(word) {
        Ok(number) if may_have(plan, var, number) => Some(Value::Num(number)),
        _ => None,
    }
}

// The number, if the word is just as it is printed.
fn printed(alloc: Global, number: Dec, word: &[u8]) -> Result<Option<Dec>, AllocError>
    ensures { IfOk result (λ found. found ≡ told.printed_as word.now number) }
{
    let text = number.print(alloc)?;
    let same = text.is(word);
    drop(text);
    Ok(if same { Some(number) } else { None })
}

fn printed_number(alloc: Global, word: &[u8]) -> Result<Option<Dec>, AllocError>
    ensures { IfOk result (λ number. number ≡ told.printed_number word.now) }
{
    match Dec::read(word) {
        Ok(number) => printed(alloc, number, word),
        Err(_) => Ok(None),
    }
}

fn ends_from(alloc: Global, low: Dec, more: &[u8]) -> Result<Option<Spelling>, AllocError>
    ensures { IfOk result (λ spelling. spelling ≡ told.ends_from low more.now) }
{
    let Some((word, _)) = cut_at_space(more) else {
        return Ok(None);
    };
    match printed_number(alloc, word)? {
        Some(high) => Ok(Some(Spelling::Ends(low, high))),
        None => Ok(None),
    }
}

fn spelled_from(
    alloc: Global,
    low: Dec,
    more: Option<&[u8]>,
) -> Result<Option<Spelling>, AllocError>
    ensures { IfOk result (λ spelling. spelling ≡ told.spelled_from low (option_copied more.entry)) }
{
    match more {
        Some(more) => ends_from(alloc, low, more),
        None => Ok(Some(Spelling::Number(low))),
    }
}

fn numbers_spelled(alloc: Global, line: &[u8]) -> Result<Option<Spelling>, AllocError>
    ensures { IfOk result (λ spelling. spelling ≡ told.numbers_spelled line.now) }
{
    let Some((word, rest)) = cut_at_space(line) else {
        return Ok(None);
    };
    let Some(low) = printed_number(alloc, word)? else {
        return Ok(None);
    };
    let spelling = spelled_from(alloc, low, after(rest, ".. "))?;
    Ok(spelling)
}

fn text_spelled(alloc: Global, line: &[u8]) -> Result<Option<Spelling>, AllocError>
    ensures { IfOk result (λ spelling. spelling ≡ told.text_spelled line.now) }
{
    match quoted_text(alloc, line)? {
        Some(text) => Ok(Some(Spelling::Text(text))),
        None => Ok(None),
    }
}

/// What stands in front of the line for a grain, as it is printed.
pub fn spelled(alloc: Global, line: &[u8]) -> Result<Option<Spelling>, AllocError>
    ensures { IfOk result (λ spelling. spelling ≡ told.spelled line.now) }
{
    if is_quoted(line) {
        text_spelled(alloc, line)
    } else {
        numbers_spelled(alloc, line)
    }
}

fn behind_word(line: &[u8]) -> Option<&[u8]>
    ensures { option_copied result ≡ told.behind_word line.now }
{
    let (_, rest) = cut_at_space(line)?;
    Some(rest)
}

fn behind_numbers(line: &[u8]) -> Option<&[u8]>
    ensures { option_copied result ≡ told.behind_numbers line.now }
{
    let rest = behind_word(line)?;
    match after(rest, ".. ") {
        Some(more) => behind_word(more),
        None => Some(rest),
    }
}

/// What follows the space behind the grain with which the line begins.
pub fn behind_grain(line: &[u8]) -> Option<&[u8]>
    ensures { option_copied result ≡ told.behind_grain line.now }
{
    if is_quoted(line) {
        behind_quoted(line)
    } else {
        behind_numbers(line)
    }
}

/// What follows the space behind the value with which the line begins.
pub fn behind_value(line: &[u8]) -> Option<&[u8]>
    ensures { option_copied result ≡ told.behind_value line.now }
{
    if is_quoted(line) {
        behind_quoted(line)
    } else {
        behind_word(line)
    }
}

/// The variable's grain with which the line begins.
pub fn grain_ahead(
    alloc: Global,
    plan: &Plan,
    var: u32,
    line: &[u8],
) -> Result<Option<u32>, AllocError>
    requires { HasNumbers plan.now }
    ensures { IfOk result (λ grain. grain ≡ told.grain_ahead plan.now var line.now) }
{
    match spelled(alloc, line)? {
        Some(spelling) => {
            let grain = grain_spelled(plan, var, &spelling);
            drop(spelling);
            Ok(grain)
        }
        None => Ok(None),
    }
}

fn text_ahead(
    alloc: Global,
    plan: &Plan,
    var: u32,
    line: &[u8],
) -> Result<Option<Value>, AllocError>
    requires { HasNumbers plan.now }
    ensures { IfOk result (λ value. value ≡ told.text_ahead plan.now var line.now) }
{
    match text_spelled(alloc, line)? {
        Some(spelling) => {
            let value = text_value(plan, var, &spelling);
            drop(spelling);
            Ok(value)
        }
        None => Ok(None),
    }
}

fn number_ahead(plan: &Plan, var: u32, line: &[u8]) -> Option<Value>
    ensures { result ≡ told.number_ahead plan.now var line.now }
{
    let (word, _) = cut_at_space(line)?;
    number_value(plan, var, word)
}

/// The variable's value with which the line begins: a text in quotes, or a number in any spelling.
pub fn value_ahead(
    alloc: Global,
    plan: &Plan,
    var: u32,
    line: &[u8],
) -> Result<Option<Value>, AllocError>
    requires { HasNumbers plan.now }
    ensures { IfOk result (λ value. value ≡ told.value_ahead plan.now var line.now) }
{
    if is_quoted(line) {
        text_ahead(alloc, plan, var, line)
    } else {
        Ok(number_ahead(plan, var, line))
    }
}
