//! The lines of a script.

ghost use Rattle.std.specs.Prelude.{◌≡◌, ◌==◌, ◌<◌, [], ◌∷◌, length, position, IfSome, IfNone};
ghost use Rattle.vc_app_script.specs.Script as script;

fn line_feed(text: &[u8]) -> Option<usize>
    ensures place { result ≡ position (λ byte. byte == 10) text.now }
    ensures within { IfSome result (λ at. at < length text.now) }
{
    text.iter().position(|byte| *byte == b'\n')
}

fn without_carriage_return(line: &[u8]) -> &[u8]
    ensures { result.now ≡ script.without_carriage_return line.now }
{
    match line {
        [front @ .., b'\r'] => front,
        _ => line,
    }
}

/// The first line of the text, without its end, and what follows it; None where the text has no line.
pub fn next_line(text: &[u8]) -> Option<(&[u8], &[u8])>
    ensures line { IfSome result (λ parts. script.lines_of text.now ≡ parts.0.now ∷ script.lines_of
        parts.1.now) }
    ensures shorter { IfSome result (λ parts. length parts.1.now < length text.now) }
    ensures end { IfNone result (script.lines_of text.now ≡ []) }
{
    match line_feed(text) {
        Some(at) => Some((without_carriage_return(&text[..at]), &text[at + 1..])),
        None if text.is_empty() => None,
        None => Some((text, &[])),
    }
}

/// Whether a line asks nothing: it is empty or begins with `*`.
pub fn is_skipped(line: &[u8]) -> bool
    ensures { result ≡ script.is_skipped line.now }
{
    match line {
        [first, ..] => *first == b'*',
        [] => true,
    }
}
