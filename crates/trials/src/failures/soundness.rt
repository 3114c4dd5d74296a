//! What has to hold of the tables.
use sqlite::{Alter, Connection, Error};

/// How many deposits have no token, and of how many accounts and days the tally isn't the count of the stamps.
const QUERIES: [&str; 3] = [
    "SELECT count(*) FROM deposit WHERE serial NOT IN (SELECT serial FROM stamp WHERE token IS NOT NULL)",
    "SELECT count(*) FROM (SELECT account, day, count(*) FROM stamp GROUP BY account, day EXCEPT \
    SELECT account, day, count FROM tally)",
    "SELECT count(*) FROM (SELECT account, day, count FROM tally EXCEPT \
    SELECT account, day, count(*) FROM stamp GROUP BY account, day)",
];

fn number<S: Alter>(conn: &mut Connection<S>, query: &str) -> Result<i64, Error> {
    conn.query_row(query, &[])?.get(0)
}

/// Whether no deposit stands without a token, and each tally is the count of its stamps.
pub fn are_sound<S: Alter>(conn: &mut Connection<S>) -> bool {
    for query in QUERIES {
        if number(conn, query) != Ok(0) {
            return false;
        }
    }
    true
}
