//! A text cut into raw lines, one by one.

ghost use Rattle.std.specs.Prelude.{◌≡◌, [], ◌∷◌, ◌==◌, ◌<◌, ◌-◌, length, drop, MatchOption, IfSome};
ghost use Rattle.std.specs.List.{position};
ghost use Rattle.std.specs.Str.Lines.{lines, strip_carriage_return};

// Where the first LF stands.
fn line_end(bytes: &[u8]) -> Option<usize>
    ensures at { result ≡ position (λ byte. byte == 10) bytes.now }
    ensures within { IfSome result (λ at. at < length bytes.now) }
{
    bytes.iter().position(|byte| *byte == b'\n')
}

fn without_return(line: &[u8]) -> &[u8]
    ensures { result.now ≡ strip_carriage_return line.now }
{
    if line.is_empty() {
        return line;
    }
    if line[line.len() - 1] == b'\r' {
        &line[..line.len() - 1]
    } else {
        line
    }
}

/// The first line without its LF or CR LF, and the bytes after it; None where no line is left.
pub fn cut(bytes: &[u8]) -> Option<(&[u8], &[u8])>
    ensures lines { MatchOption result (lines bytes.now ≡ [])
        (λ parts. lines bytes.now ≡ parts.0.now ∷ lines parts.1.now) }
    ensures shorter { IfSome result (λ parts. length parts.1.now < length bytes.now) }
    ensures rest { IfSome result (λ parts. parts.1.now ≡ drop (length bytes.now - length parts.1.now) bytes.now) }
{
    match line_end(bytes) {
        Some(at) => Some((without_return(&bytes[..at]), &bytes[at + 1..])),
        None => cut_last(bytes),
    }
}

// The same of bytes without an LF.
fn cut_last(bytes: &[u8]) -> Option<(&[u8], &[u8])>
    requires { position (λ byte. byte == 10) bytes.now ≡ None }
    ensures lines { MatchOption result (lines bytes.now ≡ [])
        (λ parts. lines bytes.now ≡ parts.0.now ∷ lines parts.1.now) }
    ensures shorter { IfSome result (λ parts. length parts.1.now < length bytes.now) }
    ensures rest { IfSome result (λ parts. parts.1.now ≡ drop (length bytes.now - length parts.1.now) bytes.now) }
{
    if bytes.is_empty() {
        None
    } else {
        Some((bytes, &[]))
    }
}
