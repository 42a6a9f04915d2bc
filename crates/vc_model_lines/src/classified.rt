//! The lines of a model text: each raw line as a line of its form.

ghost use Rattle.std.specs.Prelude.{◌≡◌, ℕ, false, nat_le, List, length, Some, codes, option_map, unwrap_or};
ghost use Rattle.std.specs.Prelude.{IfOk, IfSome, IfNone};
ghost use Rattle.vc_value.specs.Words.{same_ignoring_case};
ghost use Rattle.vc_model_lines.specs.LineWords as spelled;
ghost use Rattle.vc_model_lines.specs.declared.line.Keyword.TheVariants as keywords;
ghost use Rattle.vc_model_lines.specs.Classified as classified;
ghost use Rattle.vc_model_lines.specs.Quoted as texts;

use crate::forms::form_of;
use crate::keywords::keyword_of;
use crate::line::{Keyword, Line};
use crate::quoted::{begins_with_quote, quoted_text};
use crate::words::{after_words, first_word, is_word, trimmed, without_spaces_before, words};
use std::alloc::{AllocError, Global};
use vc_value::Word;

/// The most bytes that a line may have, spaces at its ends included.
const LONGEST: usize = 1_000;

/// Whether the raw line is too long.
pub fn is_long(raw: &[u8]) -> bool
    ensures { result ≡ classified.is_long raw.now }
{
    raw.len() > LONGEST
}

/// Whether a line outside blocks, without the spaces before it, doesn't count.
pub fn is_skipped(line: &[u8]) -> bool
    ensures { result ≡ classified.is_skipped line.now }
{
    match line {
        [first, ..] => *first == b'*',
        [] => true,
    }
}

fn keyed_line(alloc: Global, line: &[u8], keyword: Option<Keyword>) -> Result<Line, AllocError>
    ensures { IfOk result (λ form. form ≡ classified.keyed_line line.now keyword) }
{
    match keyword {
        Some(keyword) => formed_line(alloc, line, keyword),
        None => Ok(Line::NoForm(None)),
    }
}

fn formed_line(alloc: Global, line: &[u8], keyword: Keyword) -> Result<Line, AllocError>
    ensures { IfOk result (λ form. form ≡ classified.formed_line line.now keyword) }
{
    match keyword {
        Keyword::Value => value_line(alloc, line),
        _ => line_of_words(alloc, line, keyword),
    }
}

// A text in quotes isn't cut into words.
fn value_line(alloc: Global, line: &[u8]) -> Result<Line, AllocError>
    ensures { IfOk result (λ form. form ≡ classified.formed_line line.now keywords.Value) }
{
    let rest = after_words(1, line);
    if begins_with_quote(rest) {
        line_of_text(alloc, rest)
    } else {
        line_of_words(alloc, line, Keyword::Value)
    }
}

fn line_of_text(alloc: Global, quoted: &[u8]) -> Result<Line, AllocError>
    ensures { IfOk result (λ form. form ≡ unwrap_or (option_map Line.Text (texts.quoted_text quoted.now))
        (Line.NoForm (Some keywords.Value))) }
{
    match quoted_text(alloc, quoted)? {
        Some(text) => Ok(Line::Text(text)),
        None => Ok(Line::NoForm(Some(Keyword::Value))),
    }
}

fn line_of_words(alloc: Global, line: &[u8], keyword: Keyword) -> Result<Line, AllocError>
    ensures { IfOk result (λ form. form ≡ classified.formed_line line.now keyword) }
{
    let words = words(alloc, line)?;
    let form = match words.as_slice() {
        [_, more @ ..] => form_of(alloc, keyword, line, more)?,
        [] => form_of(alloc, keyword, line, &[])?,
    };
    match form {
        Some(form) => Ok(form),
        None => Ok(Line::NoForm(Some(keyword))),
    }
}

fn outside_block(alloc: Global, raw: &[u8]) -> Result<Line, AllocError>
    ensures { IfOk result (λ form. form ≡ classified.outside_block raw.now) }
{
    let line = without_spaces_before(raw);
    if is_skipped(line) {
        return Ok(Line::Skipped);
    }
    let keyword = keyword_of(first_word(line));
    if is_long(raw) {
        return Ok(Line::TooLong(keyword));
    }
    keyed_line(alloc, trimmed(raw), keyword)
}

fn inside_block(alloc: Global, raw: &[u8]) -> Result<Line, AllocError>
    ensures { IfOk result (λ form. form ≡ classified.inside_block raw.now) }
{
    if is_long(raw) {
        return Ok(Line::LongInner);
    }
    let line = trimmed(raw);
    if is_word("END", line) {
        return Ok(Line::End);
    }
    Ok(Line::Inner(Word::from_bytes(alloc, line)?))
}

/// Whether a raw line closes the block that it stands in.
pub fn closes(raw: &[u8]) -> bool
    ensures { result ≡ same_ignoring_case (codes "END") (spelled.trimmed raw.now) }
{
    has_room(raw) && is_word("END", trimmed(raw))
}

// Whether the line is as long as the word that closes a block.
fn has_room(raw: &[u8]) -> bool
    ensures long { result ≡ nat_le 3 (length raw.now) }
    ensures short { result ≡ false → same_ignoring_case (codes "END") (spelled.trimmed raw.now) ≡ false }
{
    raw.len() >= 3
}

/// What a raw line in a block adds to its text, if it is neither too long nor the END.
pub fn inner_text(raw: &[u8]) -> Option<&[u8]>
    ensures inner { IfSome result (λ text. classified.inside_block raw.now ≡ Line.Inner text.now) }
    ensures ends { IfNone result ((text : List ℕ) → classified.inside_block raw.now ≡ Line.Inner text → ⊥) }
{
    let line = trimmed(raw);
    if is_long(raw) || is_word("END", line) {
        None
    } else {
        Some(line)
    }
}

/// The raw line as a line of its form, in a block or outside.
pub fn line_of(alloc: Global, inside: bool, raw: &[u8]) -> Result<Line, AllocError>
    ensures { IfOk result (λ form. form ≡ classified.line_of inside raw.now) }
{
    if inside {
        inside_block(alloc, raw)
    } else {
        outside_block(alloc, raw)
    }
}

/// Whether what follows the line stands in a block.
pub fn is_in_block(line: &Line) -> bool
    ensures { result ≡ classified.is_in_block line.now }
{
    matches!(line, Line::Block(_) | Line::Inner(_) | Line::LongInner)
}
