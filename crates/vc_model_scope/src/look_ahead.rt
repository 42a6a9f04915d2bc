//! Look-aheads: what the lines below a line tell, of which the bytes are given.

ghost use Rattle.std.specs.Prelude.{◌≡◌, ◌∷◌, ◌++◌, false, IfOk, IfSome, IfNone, OnOk, true};
ghost use Rattle.std.specs.List.{list_any};
ghost use Rattle.std.specs.Str.Lines.{lines};
ghost use Rattle.vc_model_lines.specs.Classified as classified;
ghost use Rattle.vc_model_lines.specs.Classified.{lines_from};
ghost use Rattle.vc_model_scope.specs.Stands.{counts};
ghost use Rattle.vc_model_scope.specs.LookAhead as ahead;

use crate::stands::counts;
use std::alloc::{AllocError, Global};
use vc_model_lines::classified::{closes, inner_text, is_in_block, is_long, is_skipped, line_of};
use vc_model_lines::words::without_spaces_before;
use vc_model_lines::{Keyword, Line, cut};
use vc_value::Word;

/// Whether a long line stands in the block that begins here.
pub fn has_long_line(block: &[u8]) -> bool
    ensures { result ≡ ahead.has_long_line (lines_from true (lines block.now)) }
{
    let mut rest = block;
    while let Some((raw, more)) = cut(rest) {
        if is_long(raw) {
            return true;
        }
        if closes(raw) {
            return false;
        }
        rest = more;
    }
    false
}

/// Whether the block that begins here is closed.
pub fn is_closed(block: &[u8]) -> bool
    ensures { result ≡ ahead.is_closed (lines_from true (lines block.now)) }
{
    let mut rest = block;
    while let Some((raw, more)) = cut(rest) {
        if !is_long(raw) && closes(raw) {
            return true;
        }
        rest = more;
    }
    false
}

fn values_behind(keyword: Option<Keyword>) -> Option<bool>
    ensures { result ≡ ahead.values_behind keyword }
{
    match keyword {
        Some(Keyword::Value) => Some(true),
        Some(Keyword::Uses | Keyword::Has | Keyword::Column | Keyword::Line | Keyword::Operation) =>
            None,
        _ => Some(false),
    }
}

fn values_at(line: &Line) -> Option<bool>
    ensures { result ≡ ahead.values_at line.now }
{
    match line {
        Line::Text(_) | Line::Interval(_) => Some(true),
        Line::Skipped
        | Line::Uses(_)
        | Line::Has(_)
        | Line::Column(_)
        | Line::Bill(_)
        | Line::Operation(_) => None,
        Line::TooLong(keyword) => values_behind(*keyword),
        Line::NoForm(keyword) => values_behind(*keyword),
        _ => Some(false),
    }
}

/// Whether a characteristic has a VALUE below which these lines stand.
pub fn has_value(alloc: Global, below: &[u8]) -> Result<bool, AllocError>
    ensures { IfOk result (λ has. has ≡ ahead.has_value (lines_from false (lines below.now))) }
{
    let mut inside = false;
    let mut rest = below;
    while let Some((raw, more)) = cut(rest) {
        let line = line_of(alloc, inside, raw)?;
        match values_at(&line) {
            Some(answer) => return Ok(answer),
            None => {}
        }
        inside = is_in_block(&line);
        rest = more;
    }
    Ok(false)
}

/// Whether one of the lines counts.
pub fn one_counts(alloc: Global, below: &[u8]) -> Result<bool, AllocError>
    ensures { IfOk result (λ one. one ≡ list_any counts (lines_from false (lines below.now))) }
{
    let mut inside = false;
    let mut rest = below;
    while let Some((raw, more)) = cut(rest) {
        let line = line_of(alloc, inside, raw)?;
        if counts(&line) {
            return Ok(true);
        }
        inside = is_in_block(&line);
        rest = more;
    }
    Ok(false)
}

// The text with the lines of the block that follow, each after an LF.
#[tactic(auto, using(std::proofs::lemmas::List::append_assoc))]
fn with_more(alloc: Global, first: &[u8], block: &[u8]) -> Result<Word, AllocError>
    ensures { IfOk result (λ text. text ≡ first.now ++ ahead.more_text (lines_from true (lines block.now))) }
{
    let mut text = Word::from_bytes(alloc, first)?;
    let mut rest = block;
    while let Some((raw, more)) = cut(rest) {
        match inner_text(raw) {
            Some(inner) => {
                append_line(&mut text, inner)?;
                rest = more;
            }
            None => return Ok(text),
        }
    }
    Ok(text)
}

fn append_line(text: &mut Word, line: &[u8]) -> Result<(), AllocError>
    ensures { OnOk result (text.new ≡ text.old ++ (10 ∷ line.now)) }
{
    text.append(b"\n")?;
    text.append(line)?;
    Ok(())
}

/// The text of the block that begins here: its lines joined by LF, with none at the end.
pub fn block_text(alloc: Global, block: &[u8]) -> Result<Word, AllocError>
    ensures { IfOk result (λ text. text ≡ ahead.block_text (lines_from true (lines block.now))) }
{
    match cut(block) {
        Some((raw, more)) => first_text(alloc, raw, more),
        None => Ok(Word::new(alloc)),
    }
}

fn first_text(alloc: Global, raw: &[u8], more: &[u8]) -> Result<Word, AllocError>
    ensures { IfOk result (λ text. text ≡ ahead.block_text (lines_from true (raw.now ∷ lines more.now))) }
{
    match inner_text(raw) {
        Some(first) => with_more(alloc, first, more),
        None => Ok(Word::new(alloc)),
    }
}

// Whether the line behind a raw line in a block stands in the block too.
fn goes_on(raw: &[u8]) -> bool
    ensures { result ≡ classified.is_in_block (classified.inside_block raw.now) }
{
    is_long(raw) || !closes(raw)
}

/// Of a line that doesn't count, whether the next one stands in a block; None of any other line.
pub fn passes_over(inside: bool, raw: &[u8]) -> Option<bool>
    ensures quiet { IfSome result (λ next. counts (classified.line_of inside raw.now) ≡ false) }
    ensures next { IfSome result (λ next. next ≡ classified.is_in_block (classified.line_of inside raw.now)) }
    ensures outside { IfNone result (inside ≡ false) }
{
    if inside {
        Some(goes_on(raw))
    } else if is_skipped(without_spaces_before(raw)) {
        Some(false)
    } else {
        None
    }
}
