//! The counts that stand in a line: versions, lengths, decimals, items.

ghost use Rattle.std.specs.Prelude.{◌≡◌, ◌+◌, ◌-◌, ◌*◌, ◌<◌, ◌≤◌, min, fold, length, IfSome};
ghost use Rattle.std.specs.List.{list_all};
ghost use Rattle.std.specs.Char.{is_ascii_digit};
ghost use Rattle.vc_value.specs.Decimals.{are_digits};
ghost use Rattle.vc_model_lines.specs.Counts as counts;

/// Above every count that is asked for, so that digits without end pass no type's limit.
const CEILING: u32 = 1_000_000;

fn all_digits(word: &[u8]) -> bool
    ensures { result ≡ list_all is_ascii_digit word.now }
{
    word.iter().all(|byte| byte.is_ascii_digit())
}

fn are_digits(word: &[u8]) -> bool
    ensures { result ≡ are_digits word.now }
{
    !word.is_empty() && all_digits(word)
}

fn is_between(least: u32, most: u32, count: u32) -> bool
    ensures { result ≡ counts.is_between least most count }
{
    least <= count && count <= most
}

// The number with one more digit, or the ceiling where that is larger.
fn with_digit(number: u32, digit: u8) -> u32
    ensures { result ≡ min CEILING (number * 10 + (digit - 48)) }
{
    number
        .saturating_mul(10)
        .saturating_add(u32::from(digit.saturating_sub(b'0')))
        .min(CEILING)
}

// The number that the digits spell, or the ceiling where that is larger.
fn bounded_number(digits: &[u8]) -> u32
    ensures { result ≡ fold (λ number digit. min CEILING (number * 10 + (digit - 48))) 0 digits.now }
{
    digits
        .iter()
        .fold(0, |number, digit| with_digit(number, *digit))
}

/// The number that the word spells in digits, with leading zeros or without, if it is from the least
/// to the most.
pub fn count_in(least: u32, most: u32, word: &[u8]) -> Option<u32>
    requires { most < CEILING }
    ensures count { result ≡ counts.count_in least most word.now }
    ensures most { IfSome result (λ count. count ≤ most) }
{
    if !are_digits(word) {
        return None;
    }
    let number = bounded_number(word);
    if is_between(least, most, number) {
        Some(number)
    } else {
        None
    }
}

/// The length of a text characteristic: 1 to 30.
pub fn text_length(word: &[u8]) -> Option<u8>
    ensures { result ≡ counts.count_in 1 30 word.now }
{
    match count_in(1, 30, word) {
        Some(count) => Some(count as u8),
        None => None,
    }
}

/// The decimals of a number characteristic: 0 to 6.
pub fn decimals(word: &[u8]) -> Option<u8>
    ensures { result ≡ counts.count_in 0 6 word.now }
{
    match count_in(0, 6, word) {
        Some(count) => Some(count as u8),
        None => None,
    }
}

/// The number of a bill line or an operation: four digits.
pub fn item_number(word: &[u8]) -> Option<u16>
    ensures { result ≡ counts.item_number word.now }
{
    if word.len() != 4 {
        return None;
    }
    match count_in(0, 9_999, word) {
        Some(count) => Some(count as u16),
        None => None,
    }
}
