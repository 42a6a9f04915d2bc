//! The words of a line.

ghost use Rattle.std.specs.Prelude.{◌≡◌, ◌<◌, ◌==◌, ◌∷◌, [], length, position, option_map, IfOk, IfSome, IfNone};
ghost use Rattle.std.specs.Option.{option_copied};
ghost use Rattle.vc_wire_chains_lines.specs.Cutting as cutting;

use std::alloc::{AllocError, Global};
use vc_value::{Word, equals_ignoring_case};

/// What follows the text with which the line begins, in letters of either case.
pub fn after<'a>(line: &'a [u8], text: &str) -> Option<&'a [u8]>
    ensures { option_copied result ≡ cutting.after text.now line.now }
{
    if text.len() <= line.len() && equals_ignoring_case(&line[..text.len()], text.as_bytes()) {
        Some(&line[text.len()..])
    } else {
        None
    }
}

fn separator_at(separator: u8, text: &[u8]) -> Option<usize>
    ensures place { result ≡ position (λ byte. byte == separator) text.now }
    ensures within { IfSome result (λ at. at < length text.now) }
{
    text.iter().position(|byte| *byte == separator)
}

/// What stands before the first separator, or all; and what stands behind it, if there is one.
pub fn cut(separator: u8, text: &[u8]) -> (&[u8], Option<&[u8]>)
    ensures before { result.0.now ≡ cutting.part_before separator text.now }
    ensures behind { option_copied result.1 ≡ cutting.part_behind separator text.now }
    ensures parts { cutting.parts_at separator text.now
        ≡ result.0.now ∷ cutting.parts_if separator (option_copied result.1) }
    ensures shorter { IfSome result.1 (λ rest. length rest.now < length text.now) }
    ensures whole { IfNone result.1 (result.0.now ≡ text.now) }
{
    match separator_at(separator, text) {
        Some(at) => (&text[..at], Some(&text[at + 1..])),
        None => (text, None),
    }
}

/// Whether a quote stands in front.
pub fn is_quoted(line: &[u8]) -> bool
    ensures { result ≡ cutting.is_quoted line.now }
{
    match line {
        [first, ..] => *first == b'\'',
        [] => false,
    }
}

// The first byte of a text with each quote doubled, and what follows it; None at a quote that isn't doubled, and at the
// end.
fn text_byte(bytes: &[u8]) -> Option<(u8, &[u8])>
    ensures text { IfSome result (λ p. cutting.text_from bytes.now
        ≡ option_map (λ text. p.0 ∷ text) (cutting.text_from p.1.now)) }
    ensures behind { IfSome result (λ p. cutting.behind_text bytes.now ≡ cutting.behind_text p.1.now) }
    ensures shorter { IfSome result (λ p. length p.1.now < length bytes.now) }
    ensures no_text { IfNone result (cutting.text_from bytes.now ≡ cutting.closed bytes.now) }
    ensures none_behind { IfNone result (cutting.behind_text bytes.now ≡ cutting.behind_quote bytes.now) }
{
    match bytes {
        [b'\'', b'\'', more @ ..] => Some((b'\'', more)),
        [b'\'', ..] | [] => None,
        [byte, more @ ..] => Some((*byte, more)),
    }
}

fn text_from(alloc: Global, bytes: &[u8]) -> Result<Option<Word>, AllocError>
    ensures { IfOk result (λ text. text ≡ cutting.text_from bytes.now) }
{
    let mut text = Vec::with_capacity(alloc, bytes.len())?;
    let mut rest = bytes;
    while let Some((byte, more)) = text_byte(rest) {
        text.push(byte)?;
        rest = more;
    }
    if is_quoted(rest) {
        Ok(Some(Word::from_vec(text)))
    } else {
        Ok(None)
    }
}

/// The text that stands in quotes in front of the line, doubled quotes made single.
pub fn quoted_text(alloc: Global, line: &[u8]) -> Result<Option<Word>, AllocError>
    ensures { IfOk result (λ text. text ≡ cutting.quoted_text line.now) }
{
    match line {
        [_, bytes @ ..] => text_from(alloc, bytes),
        [] => Ok(None),
    }
}

fn behind_quote(bytes: &[u8]) -> Option<&[u8]>
    ensures { option_copied result ≡ cutting.behind_quote bytes.now }
{
    match bytes {
        [b'\'', more @ ..] => Some(more),
        _ => None,
    }
}

fn behind_text(bytes: &[u8]) -> Option<&[u8]>
    ensures { option_copied result ≡ cutting.behind_text bytes.now }
{
    let mut rest = bytes;
    while let Some((_, more)) = text_byte(rest) {
        rest = more;
    }
    behind_quote(rest)
}

/// What follows the space behind that text.
pub fn behind_quoted(line: &[u8]) -> Option<&[u8]>
    ensures { option_copied result ≡ cutting.behind_quoted line.now }
{
    match line {
        [_, bytes @ ..] => {
            let rest = behind_text(bytes)?;
            after(rest, " ")
        }
        [] => None,
    }
}
