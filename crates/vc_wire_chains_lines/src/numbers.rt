//! Numbers of 32 bits, and lists of them.

ghost use Rattle.std.specs.Prelude.{◌≡◌, IfOk};
ghost use Rattle.vc_wire_chains_lines.specs.Cutting as cutting;

use crate::cutting::cut;
use std::alloc::{AllocError, Global};
use vc_value::Listed;
use vc_wire_requests::cutting::{all_digits, number_of};

fn is_plain(word: &[u8]) -> bool
    ensures { result ≡ cutting.is_plain word.now }
{
    match word {
        [first, more @ ..] => {
            (all_digits(word) && more.len() <= 9) && (*first != b'0' || more.is_empty())
        }
        [] => false,
    }
}

fn narrow(number: u64) -> Option<u32>
    ensures { result ≡ cutting.narrowed number }
{
    if number <= 4_294_967_295 {
        Some(number as u32)
    } else {
        None
    }
}

/// The number that the word is as it is printed, if it is one of 32 bits.
pub fn number_in(word: &[u8]) -> Option<u32>
    ensures { result ≡ cutting.number_in word.now }
{
    if is_plain(word) {
        narrow(number_of(word))
    } else {
        None
    }
}

/// The numbers that the parts of the text are, which separators divide.
pub fn numbers_at(
    alloc: Global,
    separator: u8,
    text: &[u8],
) -> Result<Option<Listed<u32>>, AllocError>
    ensures { IfOk result (λ numbers. numbers ≡ cutting.numbers_at separator text.now) }
{
    let mut numbers = Listed::new(alloc);
    let mut rest = Some(text);
    while let Some(parts) = rest {
        let (part, more) = cut(separator, parts);
        match number_in(part) {
            Some(number) => numbers.push(number)?,
            None => return Ok(None),
        }
        rest = more;
    }
    Ok(Some(numbers))
}
