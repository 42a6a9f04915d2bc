//! The fields of a head by their names.

ghost use Rattle.std.specs.Prelude.{◌≡◌, ◌<◌, ◌≤◌, ◌^◌, [], ◌∷◌, codes, length, map, All, IsTrue};
ghost use Rattle.std.specs.Char.{is_ascii_digit};
ghost use Rattle.std.specs.List.{list_all, list_any};
ghost use Rattle.std.specs.Option.{option_map};
ghost use Rattle.httparse.specs.Spans.{IsHeaderWithin, header_bytes};
ghost use Rattle.vc_value.specs.Decimals.{number_of};
ghost use Rattle.vc_http_heads.specs.Fields as fields;

use httparse::spans::HeaderSpan;
use vc_value::equals_ignoring_case;

/// The length of a body, as a head says it.
#[derive(Clone, Copy, Debug)]
pub enum Length {
    Absent,
    Given(u32),
    /// It isn't 1 to 9 digits, or it stands twice.
    Bad,
}

fn is_named(head: &[u8], field: HeaderSpan, name: &str) -> bool
    requires { IsHeaderWithin (length head.now) field }
    ensures { result ≡ fields.is_named name.now (header_bytes head.now field) }
{
    equals_ignoring_case(field.name.of(head), name.as_bytes())
}

/// How many fields have the name.
pub fn count_named(head: &[u8], spans: &[HeaderSpan], name: &str) -> usize
    requires { All (IsHeaderWithin (length head.now)) spans.now }
    ensures { result ≡ length (fields.values_named name.now (map (header_bytes head.now) spans.now)) }
{
    let mut count = 0;
    for field in spans {
        if is_named(head, *field, name) {
            count += 1;
        }
    }
    count
}

/// The value of the first field of the name.
pub fn first_named<'h>(head: &'h [u8], spans: &[HeaderSpan], name: &str) -> Option<&'h [u8]>
    requires { All (IsHeaderWithin (length head.now)) spans.now }
    ensures { option_map (λ value. value.now) result
        ≡ fields.first_of (fields.values_named name.now (map (header_bytes head.now) spans.now)) }
{
    for field in spans {
        if is_named(head, *field, name) {
            return Some(field.value.of(head));
        }
    }
    None
}

fn all_digits(value: &[u8]) -> bool
    ensures { result ≡ list_all is_ascii_digit value.now }
{
    value.iter().all(|byte| byte.is_ascii_digit())
}

fn is_length(value: &[u8]) -> bool
    ensures { result ≡ fields.is_length value.now }
{
    (!value.is_empty() && all_digits(value)) && value.len() <= 9
}

fn number_of(digits: &[u8]) -> u64
    requires digits { IsTrue (list_all is_ascii_digit digits.now) }
    requires fits { length digits.now ≤ 9 }
    ensures value { result ≡ number_of digits.now }
    ensures small { result < 10 ^ length digits.now }
{
    let mut number = 0;
    for digit in digits {
        number = number * 10 + u64::from(*digit - b'0');
    }
    number
}

// The length that a value spells.
fn length_from(value: &[u8]) -> Length
    ensures { result ≡ fields.length_among (value.now ∷ []) }
{
    if is_length(value) {
        Length::Given(number_of(value) as u32)
    } else {
        Length::Bad
    }
}

/// The length of the body.
#[tactic(auto, using(crate::proofs::FieldLaws::length_rules))]
pub fn length_in(head: &[u8], spans: &[HeaderSpan]) -> Length
    requires { All (IsHeaderWithin (length head.now)) spans.now }
    ensures { result ≡ fields.length_in (map (header_bytes head.now) spans.now) }
{
    match first_named(head, spans, "content-length") {
        Some(value) if count_named(head, spans, "content-length") == 1 => length_from(value),
        Some(_) => Length::Bad,
        None => Length::Absent,
    }
}

/// Whether there is exactly one Host, or none is wanted.
pub fn has_host(head: &[u8], spans: &[HeaderSpan], minor: u8) -> bool
    requires { All (IsHeaderWithin (length head.now)) spans.now }
    ensures { result ≡ fields.has_host minor (map (header_bytes head.now) spans.now) }
{
    minor == 0 || count_named(head, spans, "host") == 1
}

fn is_close(value: &[u8]) -> bool
    ensures { result ≡ fields.is_close value.now }
{
    equals_ignoring_case(value, "close".as_bytes())
}

fn closes(head: &[u8], spans: &[HeaderSpan]) -> bool
    requires { All (IsHeaderWithin (length head.now)) spans.now }
    ensures { result ≡ list_any fields.is_close
        (fields.values_named (codes "connection") (map (header_bytes head.now) spans.now)) }
{
    for field in spans {
        if is_named(head, *field, "connection") && is_close(field.value.of(head)) {
            return true;
        }
    }
    false
}

/// Whether the connection goes on behind the message.
pub fn keeps(head: &[u8], spans: &[HeaderSpan], minor: u8) -> bool
    requires { All (IsHeaderWithin (length head.now)) spans.now }
    ensures { result ≡ fields.keeps minor (map (header_bytes head.now) spans.now) }
{
    minor != 0 && !closes(head, spans)
}
