//! The words of a line, and the spaces that don't count.

ghost use Rattle.std.specs.Prelude.{◌≡◌, map, IfOk};
ghost use Rattle.std.specs.List.{position};
ghost use Rattle.vc_model_lines.specs.LineWords as spelled;
ghost use Rattle.vc_value.specs.Words.{same_ignoring_case};

use std::alloc::{AllocError, Global};
use vc_value::equals_ignoring_case;

/// The bytes from the first that is no space on.
pub fn without_spaces_before(bytes: &[u8]) -> &[u8]
    ensures { result.now ≡ spelled.without_spaces_before bytes.now }
{
    let mut rest = bytes;
    while let [b' ', more @ ..] = rest {
        rest = more;
    }
    rest
}

/// The bytes up to the last that is no space.
fn without_spaces_behind(bytes: &[u8]) -> &[u8]
    ensures { result.now ≡ spelled.without_spaces_behind bytes.now }
{
    let mut length = bytes.len();
    while length > 0 {
        if bytes[length - 1] != b' ' {
            return &bytes[..length];
        }
        length -= 1;
    }
    &[]
}

/// A line without the spaces at its ends.
pub fn trimmed(line: &[u8]) -> &[u8]
    ensures { result.now ≡ spelled.trimmed line.now }
{
    without_spaces_behind(without_spaces_before(line))
}

/// The words of a line: what stands between spaces and isn't empty.
pub fn words(alloc: Global, line: &[u8]) -> Result<Vec<&[u8]>, AllocError>
    ensures { IfOk result (λ words. map (λ word. word.now) words.items ≡ spelled.words line.now) }
{
    let mut words = Vec::new(alloc);
    let mut rest = without_spaces_before(line);
    while rest.len() > 0 {
        let word = first_word(rest);
        words.push(word)?;
        rest = after_word(word, rest);
    }
    Ok(words)
}

fn space_at(line: &[u8]) -> Option<usize>
    ensures { result ≡ position spelled.is_space line.now }
{
    line.iter().position(|byte| *byte == b' ')
}

/// The first word of a line that doesn't begin with a space.
pub fn first_word(line: &[u8]) -> &[u8]
    ensures { result.now ≡ spelled.first_word line.now }
{
    match space_at(line) {
        Some(at) => &line[..at],
        None => line,
    }
}

fn after_word<'a>(word: &[u8], line: &'a [u8]) -> &'a [u8]
    requires { word.now ≡ spelled.first_word line.now }
    ensures { result.now ≡ spelled.after_word line.now }
{
    without_spaces_before(&line[word.len()..])
}

fn after_first(line: &[u8]) -> &[u8]
    ensures { result.now ≡ spelled.after_word line.now }
{
    after_word(first_word(line), line)
}

/// What follows so many words of a line that doesn't begin with a space.
pub fn after_words(count: u8, line: &[u8]) -> &[u8]
    ensures { result.now ≡ spelled.after_words count line.now }
{
    let mut rest = line;
    let mut left = count;
    while left > 0 {
        rest = after_first(rest);
        left -= 1;
    }
    rest
}

/// Whether the word is this one, in either case.
pub fn is_word(wanted: &str, word: &[u8]) -> bool
    ensures { result ≡ same_ignoring_case wanted.now word.now }
{
    equals_ignoring_case(wanted.as_bytes(), word)
}

/// Whether one of the words is this one, in either case.
pub fn has_word(wanted: &str, words: &[&[u8]]) -> bool
    ensures { result ≡ spelled.has_word wanted.now (map (λ word. word.now) words.now) }
{
    let mut rest = words;
    while let [word, more @ ..] = rest {
        if is_word(wanted, word) {
            return true;
        }
        rest = more;
    }
    false
}
