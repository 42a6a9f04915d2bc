//! The lines of a chain file.

ghost use Rattle.std.specs.Prelude.{◌≡◌, ◌<◌, ◌∷◌, length};
ghost use Rattle.std.specs.Option.{option_copied};
ghost use Rattle.vc_wire_chains.specs.Files as files;

use vc_wire_chains_lines::cutting::cut;

/// The first line of the text, without its LF, and what follows it.
pub fn first_line(text: &[u8]) -> (&[u8], &[u8])
    requires { 0 < length text.now }
    ensures lines { files.lines_of text.now ≡ result.0.now ∷ files.lines_of result.1.now }
    ensures shorter { length result.1.now < length text.now }
{
    let (line, rest) = cut(b'\n', text);
    match rest {
        Some(more) => (line, more),
        None => (line, &[]),
    }
}
