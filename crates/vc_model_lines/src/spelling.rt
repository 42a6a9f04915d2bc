//! How the words of a model text are spelled: names, materials and texts.

ghost use Rattle.std.specs.Prelude.{◌≡◌, option_copied, length, count_by};
ghost use Rattle.std.specs.List.{list_all};
ghost use Rattle.vc_model_lines.specs.WordSpellings as spelled;

use vc_syntax_tokens::spelling::reserved_of;
use vc_value::{Word, is_name};

#[tactic(auto, unfolding(crate::specs::WordSpellings::is_reserved))]
fn is_reserved(name: &[u8]) -> bool
    ensures { result ≡ spelled.is_reserved name.now }
{
    reserved_of(name).is_some()
}

/// Whether the bytes, in upper case, are a name that a characteristic may have.
pub fn is_free_name(name: &[u8]) -> bool
    ensures { result ≡ spelled.is_free_name name.now }
{
    is_name(name) && !is_reserved(name)
}

fn is_sign(byte: u8) -> bool
    ensures { result ≡ spelled.is_sign byte }
{
    matches!(byte, b'-' | b'_' | b'.' | b'/')
}

fn is_material_byte(byte: u8) -> bool
    ensures { result ≡ spelled.is_material_byte byte }
{
    byte.is_ascii_alphanumeric() || is_sign(byte)
}

fn are_material_bytes(bytes: &[u8]) -> bool
    ensures { result ≡ list_all spelled.is_material_byte bytes.now }
{
    bytes.iter().all(|byte| is_material_byte(*byte))
}

fn is_material_length(count: usize) -> bool
    ensures { result ≡ spelled.is_material_length count }
{
    count > 0 && count <= 18
}

/// Whether the bytes are a material or a unit: 1 to 18 letters, digits, `-`, `_`, `.` and `/`.
pub fn is_material(bytes: &[u8]) -> bool
    ensures { result ≡ spelled.is_material bytes.now }
{
    is_material_length(bytes.len()) && are_material_bytes(bytes)
}

/// Whether there is no unit, or one that is spelled as a unit.
pub fn is_unit(unit: &Option<Word>) -> bool
    ensures { result ≡ spelled.is_unit unit.now }
{
    match unit {
        Some(unit) => is_material(unit.bytes()),
        None => true,
    }
}

fn begins_character(byte: u8) -> bool
    ensures { result ≡ spelled.begins_character byte }
{
    !(byte >= 128 && byte < 192)
}

fn character_count(text: &[u8]) -> usize
    ensures { result ≡ spelled.character_count text.now }
{
    text.iter().filter(|byte| begins_character(**byte)).count()
}

fn fits_length(length: u8, count: usize) -> bool
    ensures { result ≡ spelled.fits_length length count }
{
    count > 0 && count <= length as usize
}

fn ends_control(bytes: &[u8]) -> bool
    ensures { result ≡ spelled.ends_control bytes.now }
{
    match bytes {
        [byte, ..] => *byte < 160,
        [] => false,
    }
}

fn begins_control(byte: u8, after: &[u8]) -> bool
    ensures { result ≡ spelled.begins_control byte after.now }
{
    byte.is_ascii_control() || (byte == 194 && ends_control(after))
}

fn has_control(text: &[u8]) -> bool
    ensures { result ≡ spelled.has_control text.now }
{
    let mut rest = text;
    while let [byte, after @ ..] = rest {
        if begins_control(*byte, after) {
            return true;
        }
        rest = after;
    }
    false
}

/// Whether the text may be a value of a characteristic of this length, in characters.
pub fn is_value_text(length: u8, text: &[u8]) -> bool
    ensures { result ≡ spelled.is_value_text length text.now }
{
    fits_length(length, character_count(text)) && !has_control(text)
}
