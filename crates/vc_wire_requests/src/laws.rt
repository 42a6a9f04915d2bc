//! Laws of requests, each the contract of a function that does nothing.

ghost use Rattle.vc_wire_requests.specs.Laws.{WrittenIsRead};

/// A request that some line spells is read again from the line that is written of it.
pub fn written_is_read()
    ensures { WrittenIsRead }
{}
