//! The words of a line.

ghost use Rattle.std.specs.Prelude.{◌≡◌, ◌<◌, ◌≤◌, ◌^◌, ◌==◌, length, position, IfSome, IsTrue};
ghost use Rattle.std.specs.Char.{is_ascii_digit};
ghost use Rattle.std.specs.List.{list_all};
ghost use Rattle.std.specs.Option.{option_map};
ghost use Rattle.vc_value.specs.Decimals.{are_digits, number_of};
ghost use Rattle.vc_wire_requests.specs.Requests as asked;

use vc_value::is_session_name;

/// A session's name and the number of an instance, and what follows them in the line.
#[derive(Clone, Copy)]
pub struct Instance<'a> {
    pub session: &'a [u8],
    pub number: u32,
    pub rest: &'a [u8],
}

fn first_space(line: &[u8]) -> Option<usize>
    ensures place { result ≡ position (λ byte. byte == 32) line.now }
    ensures within { IfSome result (λ at. at < length line.now) }
{
    line.iter().position(|byte| *byte == b' ')
}

/// The word before the first space, and what follows that space.
pub fn cut_at_space(line: &[u8]) -> Option<(&[u8], &[u8])>
    ensures { option_map (λ parts. (parts.0.now, parts.1.now)) result ≡ asked.cut_at_space line.now }
{
    match first_space(line) {
        Some(at) => Some((&line[..at], &line[at + 1..])),
        None => None,
    }
}

/// Whether all bytes of the word are digits.
pub fn all_digits(word: &[u8]) -> bool
    ensures { result ≡ list_all is_ascii_digit word.now }
{
    word.iter().all(|byte| byte.is_ascii_digit())
}

fn is_index(word: &[u8]) -> bool
    ensures { result ≡ asked.is_index word.now }
{
    match word {
        [first, more @ ..] => {
            (all_digits(word) && more.len() <= 8) && (*first != b'0' || more.is_empty())
        }
        [] => false,
    }
}

/// The number that at most ten digits spell.
pub fn number_of(digits: &[u8]) -> u64
    requires digits { IsTrue (list_all is_ascii_digit digits.now) }
    requires fits { length digits.now ≤ 10 }
    ensures value { result ≡ number_of digits.now }
    ensures small { result < 10 ^ length digits.now }
{
    let mut number = 0;
    for digit in digits {
        number = number * 10 + u64::from(*digit - b'0');
    }
    number
}

/// The number of an instance: `0`, or at most nine digits of which the first isn't `0`.
pub fn index_of(word: &[u8]) -> Option<u32>
    ensures { result ≡ asked.index_of word.now }
{
    if is_index(word) {
        Some(number_of(word) as u32)
    } else {
        None
    }
}

/// The session and the instance with which the words begin.
pub fn instance_in(more: &[u8]) -> Option<Instance<'_>>
    ensures { option_map asked.named_by result ≡ asked.instance_in more.now }
{
    let (session, after) = cut_at_space(more)?;
    if !is_session_name(session) {
        return None;
    }
    let (word, rest) = cut_at_space(after)?;
    let number = index_of(word)?;
    Some(Instance {
        session,
        number,
        rest,
    })
}
