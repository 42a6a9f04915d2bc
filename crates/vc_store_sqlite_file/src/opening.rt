//! Stores of SQLite's that a path opens.

use sqlite::{Alter, Connection, Error, File, FileStore};

/// A store that a path opens. Proofs over any such store look into none, and cost a tenth of those over a file's.
pub trait Open: Alter + Drop {
    /// A connection with the database of this path, which is made where there is none.
    fn open(rt: &HostRuntime, path: &str) -> Result<Connection<Self>, Error>;
}

impl Open for FileStore<File> {
    fn open(rt: &HostRuntime, path: &str) -> Result<Connection<FileStore<File>>, Error> {
        Connection::open(rt, path)
    }
}
