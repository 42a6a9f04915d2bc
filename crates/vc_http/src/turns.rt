//! What comes of the next message.

use vc_http_routes::Allow;
use vc_wire_requests::Request;

/// What comes of the next message.
#[derive(Debug, Drop)]
pub enum Turn {
    Asked {
        request: Request,
        /// Whether the connection goes on behind it.
        keep: bool,
    },
    /// It is refused with this status.
    Bad {
        status: u16,
        /// The methods that are allowed, where the method is refused.
        allow: Allow,
    },
    /// The bytes end before a whole message does.
    End,
    /// The link failed.
    Failed,
    /// There was no memory for the request.
    OutOfMemory,
}
