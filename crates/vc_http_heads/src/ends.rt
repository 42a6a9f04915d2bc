//! Where a head ends.

ghost use Rattle.std.specs.Prelude.{◌≡◌, ◌≤◌, length, IfSome};
ghost use Rattle.vc_http_heads.specs.Ends as ends;

/// Where in a head a byte stands.
#[derive(Clone, Copy, Debug)]
pub enum Place {
    /// Behind CR and LF alone, if behind anything.
    Before,
    Inside,
    /// Directly behind an LF.
    AfterLine,
    /// Behind a CR directly behind an LF.
    AfterReturn,
}

fn is_line_byte(byte: u8) -> bool
    ensures { result ≡ ends.is_line_byte byte }
{
    byte == b'\r' || byte == b'\n'
}

fn next_place(place: Place, byte: u8) -> Option<Place>
    ensures { result ≡ ends.next_place place byte }
{
    match place {
        Place::Before if is_line_byte(byte) => Some(Place::Before),
        Place::Inside if byte == b'\n' => Some(Place::AfterLine),
        Place::AfterLine | Place::AfterReturn if byte == b'\n' => None,
        Place::AfterLine if byte == b'\r' => Some(Place::AfterReturn),
        _ => Some(Place::Inside),
    }
}

/// How many bytes the head has with which these begin, if it ends among them.
pub fn head_len(bytes: &[u8]) -> Option<usize>
    ensures is { result ≡ ends.head_len bytes.now }
    ensures within { IfSome result (λ len. len ≤ length bytes.now) }
{
    let mut place = Place::Before;
    let mut count = 0;
    for byte in bytes {
        count += 1;
        match next_place(place, *byte) {
            Some(next) => place = next,
            None => return Some(count),
        }
    }
    None
}

/// How many LF there are.
pub fn count_lines(bytes: &[u8]) -> usize
    ensures { result ≡ ends.count_lines bytes.now }
{
    let mut count = 0;
    for byte in bytes {
        if *byte == b'\n' {
            count += 1;
        }
    }
    count
}

/// The head without the CR and LF in front.
pub fn skip_blank(head: &[u8]) -> &[u8]
    ensures { result.now ≡ ends.skip_blank head.now }
{
    let mut rest = head;
    while let Some((first, more)) = rest.split_first() {
        if !is_line_byte(*first) {
            return rest;
        }
        rest = more;
    }
    rest
}
