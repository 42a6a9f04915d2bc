//! Texts in quotes.

ghost use Rattle.std.specs.Prelude.{◌≡◌, ◌∷◌, ◌<◌, length, option_map, IfOk, IfSome, IfNone};
ghost use Rattle.vc_model_lines.specs.Quoted as quoted;

use std::alloc::{AllocError, Global};
use vc_value::Word;

/// Whether a quote stands in front.
pub fn begins_with_quote(bytes: &[u8]) -> bool
    ensures { result ≡ quoted.begins_with_quote bytes.now }
{
    match bytes {
        [first, ..] => *first == b'\'',
        [] => false,
    }
}

// The first byte of a text with each quote doubled, and what follows it; None at a quote that isn't
// doubled, and at the end.
fn text_byte(bytes: &[u8]) -> Option<(u8, &[u8])>
    ensures some { IfSome result (λ p. quoted.unquoted bytes.now
        ≡ option_map (λ text. p.0 ∷ text) (quoted.unquoted p.1.now)) }
    ensures shorter { IfSome result (λ p. length p.1.now < length bytes.now) }
    ensures none { IfNone result (quoted.unquoted bytes.now ≡ quoted.closed bytes.now) }
{
    match bytes {
        [b'\'', b'\'', more @ ..] => Some((b'\'', more)),
        [b'\'', ..] | [] => None,
        [byte, more @ ..] => Some((*byte, more)),
    }
}

fn is_closing(bytes: &[u8]) -> bool
    ensures { result ≡ quoted.is_closing bytes.now }
{
    match bytes {
        [byte] => *byte == b'\'',
        _ => false,
    }
}

// What follows an opening quote: a text with each quote doubled, and the closing quote last.
fn unquoted(alloc: Global, bytes: &[u8]) -> Result<Option<Word>, AllocError>
    ensures { IfOk result (λ text. text ≡ quoted.unquoted bytes.now) }
{
    let mut text = Vec::with_capacity(alloc, bytes.len())?;
    let mut rest = bytes;
    while let Some((byte, more)) = text_byte(rest) {
        text.push(byte)?;
        rest = more;
    }
    if is_closing(rest) {
        Ok(Some(Word::from_vec(text)))
    } else {
        Ok(None)
    }
}

/// The text that is written whole in quotes, if it is one.
pub fn quoted_text(alloc: Global, bytes: &[u8]) -> Result<Option<Word>, AllocError>
    ensures { IfOk result (λ text. text ≡ quoted.quoted_text bytes.now) }
{
    match bytes {
        [first, rest @ ..] if *first == b'\'' => unquoted(alloc, rest),
        _ => Ok(None),
    }
}
