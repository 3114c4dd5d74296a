//! Earlier versions of the schema.
use sqlite::{Alter, Connection, Error};

/// The version of now.
pub const CURRENT: i64 = 3;

/// The versions before it.
pub const EARLIER: [i64; 2] = [2, 1];

/// What takes tables of a version to the one before it, from that of now on.
const STEPS_BACK: [(i64, &str); 2] = [
    (3, "DROP TABLE identity; UPDATE meta SET version = 2"),
    (2, "DROP TABLE group_reader; UPDATE meta SET version = 1"),
];

/// Takes tables of now back to an earlier version: what its program would have made of the same requests.
pub fn take_back<S: Alter>(conn: &mut Connection<S>, version: i64) -> Result<(), Error> {
    for (from, statements) in STEPS_BACK {
        if from > version {
            conn.execute_batch(statements)?;
        }
    }
    Ok(())
}
