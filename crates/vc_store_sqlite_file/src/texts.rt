//! Texts that are kept in a database file.

use crate::opening::Open;
use crate::rows::{get_row, make_table, put_row, remove_row};
use sqlite::{Connection, Error, ErrorCode};
use std::marker::Model;
use vc_outside::KeepFault;
use vc_value::Word;

/// Texts in the table `saved` of a database that SQLite reads. Each call is a transaction of its own. It tells nothing
/// of what the table holds.
pub struct SavedTexts<S: Open> {
    connection: Connection<S>,
}

// Nothing is told, so a caller's proof needn't look into a connection.
impl<S: Open> Model for SavedTexts<S> {
    ghost Value = { Unit {0} };

    ghost view = { λ _. tt };
}

// By hand, as a derived one is proved again, with all of its parts, in each crate that drops such texts.
impl<S: Open> Drop for SavedTexts<S> {
    fn drop(self) {
        let SavedTexts { connection: _ } = self;
    }
}

// Why SQLite refuses.
fn fault_of(error: Error) -> KeepFault {
    match error {
        Error::SqliteFailure(ErrorCode::OutOfMemory) => KeepFault::OutOfMemory,
        _ => KeepFault::Failed,
    }
}

fn opened<S: Open>(rt: &HostRuntime, path: &str) -> Result<SavedTexts<S>, Error> {
    let mut connection = S::open(rt, path)?;
    make_table(&mut connection)?;
    Ok(SavedTexts { connection })
}

impl<S: Open> SavedTexts<S> {
    /// The texts in the database of this path, which is made where there is none.
    pub fn open(rt: &HostRuntime, path: &str) -> Result<SavedTexts<S>, KeepFault> {
        match opened(rt, path) {
            Ok(texts) => Ok(texts),
            Err(error) => Err(fault_of(error)),
        }
    }

    /// Keeps the text under the name, in the place of the one before.
    pub fn put(&mut self, name: &[u8], text: &[u8]) -> Result<(), KeepFault> {
        match put_row(&mut self.connection, name, text) {
            Ok(()) => Ok(()),
            Err(error) => Err(fault_of(error)),
        }
    }

    /// The text under the name, if one is kept there.
    pub fn get(&mut self, name: &[u8]) -> Result<Option<Word>, KeepFault> {
        match get_row(&mut self.connection, name) {
            Ok(found) => Ok(found),
            Err(error) => Err(fault_of(error)),
        }
    }

    /// Forgets the text under the name, and says whether one was kept there.
    pub fn remove(&mut self, name: &[u8]) -> Result<bool, KeepFault> {
        match remove_row(&mut self.connection, name) {
            Ok(there) => Ok(there),
            Err(error) => Err(fault_of(error)),
        }
    }
}
