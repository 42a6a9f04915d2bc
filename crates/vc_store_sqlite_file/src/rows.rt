//! The rows of the table in which texts are kept.
//!
//! What a call of SQLite does is left to its crate; a keeper tells nothing of its table.

use sqlite::{Alter, Connection, Error, params};
use std::str;
use vc_value::Word;

const TABLE: &str =
    "CREATE TABLE IF NOT EXISTS saved (name TEXT PRIMARY KEY NOT NULL, body BLOB NOT NULL) STRICT";

const UPSERT: &str =
    "INSERT INTO saved (name, body) VALUES (?1, ?2) ON CONFLICT (name) DO UPDATE SET body = excluded.body";

const SELECT: &str = "SELECT body FROM saved WHERE name = ?1";

const DELETE: &str = "DELETE FROM saved WHERE name = ?1";

// The name as text. No request has one that isn't.
fn name_of(name: &[u8]) -> Result<&str, Error> {
    match str::from_utf8(name) {
        Ok(name) => Ok(name),
        Err(_) => Err(Error::QueryReturnedNoRows),
    }
}

/// Makes the table, where there is none.
pub(crate) fn make_table<S: Alter>(connection: &mut Connection<S>) -> Result<(), Error> {
    connection.execute_batch(TABLE)
}

/// Puts the body in the row of the name, and makes the row where there is none.
pub(crate) fn put_row<S: Alter>(
    connection: &mut Connection<S>,
    name: &[u8],
    body: &[u8],
) -> Result<(), Error> {
    let _count = connection.execute(UPSERT, params![name_of(name)?, body])?;
    Ok(())
}

/// The body in the row of the name, if there is one.
pub(crate) fn get_row<S: Alter>(
    connection: &mut Connection<S>,
    name: &[u8],
) -> Result<Option<Word>, Error> {
    match connection.query_row(SELECT, params![name_of(name)?]) {
        Ok(row) => {
            let body: Vec<u8> = row.get(0)?;
            Ok(Some(Word::from_vec(body)))
        }
        Err(Error::QueryReturnedNoRows) => Ok(None),
        Err(error) => Err(error),
    }
}

/// Deletes the row of the name, and says whether there was one.
pub(crate) fn remove_row<S: Alter>(
    connection: &mut Connection<S>,
    name: &[u8],
) -> Result<bool, Error> {
    let count = connection.execute(DELETE, params![name_of(name)?])?;
    Ok(count > 0)
}
