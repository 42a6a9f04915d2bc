//! What comes of the next message of bytes in memory.

ghost use Rattle.std.specs.Prelude.{◌<◌};

use std::alloc::{AllocError, Global};
use vc_http::{Buf, Turn, next_request};
use vc_outside_links::{Link, MemLink};

/// What came of a message, without the request.
#[derive(Clone, Copy, Debug, PartialEq, Eq)]
pub enum Came {
    /// A request, behind which the connection goes on or doesn't.
    Asked { keep: bool },
    /// A refusal with this status.
    Bad { status: u16 },
    End,
    Failed,
    OutOfMemory,
}

/// What comes of the next message of a link.
pub fn comes<L: Link>(link: &mut L, buffer: &mut Buf) -> Came {
    let turn = next_request(link, buffer);
    let came = match &turn {
        Turn::Asked { keep, .. } => Came::Asked { keep: *keep },
        Turn::Bad { status, .. } => Came::Bad { status: *status },
        Turn::End => Came::End,
        Turn::Failed => Came::Failed,
        Turn::OutOfMemory => Came::OutOfMemory,
    };
    drop(turn);
    came
}

/// What comes of the first message of these bytes, of which one read gives at most so many.
pub fn first_of(
    alloc: Global,
    buffer: &mut Buf,
    bytes: &[u8],
    piece: usize,
) -> Result<Came, AllocError>
    requires { 0 < piece }
{
    let mut link = MemLink::new(alloc, bytes, piece, 0)?;
    buffer.clear();
    let came = comes(&mut link, buffer);
    drop(link);
    Ok(came)
}
