//! The next request of a connection.

ghost use Rattle.std.specs.Prelude.{◌≡◌, ◌≤◌, length};
ghost use Rattle.vc_http_messages.specs.Laws.{IsSpelled};
ghost use Rattle.vc_http_messages.specs.Messages.{Message, MessageOf};
ghost use Rattle.vc_http.specs.Turns.{Comes, RaisesFor};

use crate::buffer::{Buf, KEEP_LIMIT};
use crate::turns::Turn;
use vc_outside_links::Link;

/// What comes of the message at the front of the bytes that are kept and those that the link has left, however it
/// gives them. Where the bytes that are kept spell a message, the link stays as it is.
pub fn next_request<L: Link>(link: &mut L, buffer: &mut Buf) -> Turn
    ensures comes { Comes buffer.old (L.left link.old) buffer.new (L.left link.new) result }
    ensures kept { (message : Message) → MessageOf buffer.old message → IsSpelled message → link.new ≡ link.old }
    ensures few { length buffer.old ≤ KEEP_LIMIT → length buffer.new ≤ KEEP_LIMIT }
    ensures written { L.written link.new ≡ L.written link.old }
    ensures later { L.faults link.old ≤ L.faults link.new }
    ensures cause { RaisesFor (L.faults link.old) (L.faults link.new) result }
{
    loop {
        if let Some(turn) = buffer.take_turn() {
            return turn;
        }
        match buffer.read_from(link) {
            Ok(0) => return Turn::End,
            Ok(_) => {}
            Err(_) => return Turn::Failed,
        }
    }
}
