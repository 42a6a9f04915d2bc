//! What comes of one message of a connection.

/// What comes of one message of a connection.
#[derive(Clone, Copy, Debug, PartialEq, Eq)]
pub enum Course {
    /// It is answered, and the connection goes on behind it.
    GoesOn,
    /// It is answered, and closes the connection.
    Closes,
    /// There is none: the bytes end before a message does.
    Ends,
    /// Memory was wanting. That is answered, and closes the connection.
    OutOfMemory,
    /// The link failed.
    Failed,
}
