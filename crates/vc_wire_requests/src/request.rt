//! What may be asked of the desk.

use vc_value::Word;

/// A request to the desk. An instance is the number of its slot, below 10^9; characteristics are in upper case; names
/// of sessions and of what is saved keep their case; a value is any bytes, as they were written.
#[derive(Debug, Drop)]
pub enum Request {
    /// Opens a session of this name.
    Start {
        session: Word,
    },
    /// Closes it.
    Close {
        session: Word,
    },
    /// Makes this the user's value, of a set its only one.
    Set {
        session: Word,
        instance: u32,
        characteristic: Word,
        value: Word,
    },
    /// Takes the user's values back.
    Retract {
        session: Word,
        instance: u32,
        characteristic: Word,
    },
    /// Puts a value into the user's set.
    Add {
        session: Word,
        instance: u32,
        characteristic: Word,
        value: Word,
    },
    /// Takes this value back, and no other.
    Drop {
        session: Word,
        instance: u32,
        characteristic: Word,
        value: Word,
    },
    /// Shows all instances.
    Show {
        session: Word,
    },
    /// Tells why the characteristic has its value.
    Why {
        session: Word,
        instance: u32,
        characteristic: Word,
    },
    /// Tells why the characteristic can't have this value.
    WhyNot {
        session: Word,
        instance: u32,
        characteristic: Word,
        value: Word,
    },
    /// Tells what contradicts.
    Conflict {
        session: Word,
    },
    /// Tells all that follows.
    Log {
        session: Word,
    },
    /// Shows the bill of materials.
    Bill {
        session: Word,
    },
    /// Shows the operations.
    Routing {
        session: Word,
    },
    /// Saves the user's values of the session under this name.
    Save {
        session: Word,
        name: Word,
    },
    /// Gives the session the user's values that are saved under this name.
    Load {
        session: Word,
        name: Word,
    },
    /// Forgets what is saved under this name.
    Forget {
        name: Word,
    },
}
