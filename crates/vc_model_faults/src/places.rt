//! Where the lines of a text stand that count.

ghost use Rattle.std.specs.Prelude.{◌≡◌, IfOk, drop};
ghost use Rattle.vc_model_faults.specs.Places.{line_at};

use std::alloc::{AllocError, Global};
use vc_model_lines::classified::line_of;
use vc_model_lines::{Line, cut};

/// A line that counts: its number among all lines, from 1, and with which byte of the text it begins.
#[derive(Clone, Copy)]
pub struct Place {
    pub number: u32,
    pub start: u32,
}

impl Place {
    /// The line of the text that begins there.
    pub fn read(self, alloc: Global, text: &[u8]) -> Result<Line, AllocError>
        ensures { IfOk result (λ line. line ≡ line_at text.now self.start) }
    {
        match cut(bytes_from(text, self.start)) {
            Some((raw, _)) => line_of(alloc, false, raw),
            None => line_of(alloc, false, &[]),
        }
    }
}

fn bytes_from(text: &[u8], start: u32) -> &[u8]
    ensures { result.now ≡ drop start text.now }
{
    text.get(start as usize..).unwrap_or(&[])
}
