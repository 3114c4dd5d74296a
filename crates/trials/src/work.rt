//! Work for other programs to time or to read: readings, replies and tokens of one request, long heads, a database, and
//! a desk for what its caller does.
mod grants;
mod heads;
mod replies;
mod requests;
mod sample;
mod setting;

use crate::desks::{AtDesk, at_desk};
use crate::setting::CERTIFICATE;
use crate::work::setting::setting_of;
use service::MOST_OCTETS;
use std::alloc::Global;
use std::fs;

/// Does work so many times, as the words say, and tells how many times it was done.
fn times_done(rt: &HostRuntime, what: &str, count: u64, words: &[String]) -> anyhow::Result<u64> {
    let alloc = rt.alloc();
    match (what, words) {
        ("read", []) => Ok(requests::readings(count)),
        ("reply", []) => replies::replies(alloc, CERTIFICATE, count),
        ("reply", [path]) => replies::replies(alloc, &fs::read(rt, path.as_str())?, count),
        ("grant", [path]) => grants::grants(rt, path.as_str(), count),
        ("head", [fields]) => heads::heads(alloc, count, number_of(fields) as usize, MOST_OCTETS),
        ("head", [fields, octets]) => {
            let (fields, octets) = (number_of(fields) as usize, number_of(octets) as usize);
            heads::heads(alloc, count, fields, octets)
        }
        _ => Ok(0),
    }
}

/// The number of a word; 0 where it is none.
fn number_of(word: &String) -> u64 {
    word.parse().unwrap_or(0)
}

/// Does work at a desk over an empty database in memory, whose account's quota isn't used up. Its clock is calibrated
/// at a reading, in microseconds since 1970.
pub fn at_desk_of_work<W: AtDesk>(alloc: Global, reading: i64, work: &mut W) -> anyhow::Result<()> {
    let setting = setting_of(alloc, CERTIFICATE)?;
    at_desk(alloc, &setting, reading, work)
}

/// Writes a database for `sqlite3` to read (`sample PATH`), or prints how many times a request was read (`read COUNT`),
/// and how many times there was a reply with a token: of so many without store and signer (`reply COUNT`), by a
/// certificate in a file (`reply COUNT FILE`), or over the database at a path (`grant COUNT PATH`). Or how many times a
/// head of so many fields was read that is as long as heads may be (`head COUNT FIELDS`), or has so many octets (`head
/// COUNT FIELDS OCTETS`).
pub fn perform(rt: &HostRuntime, words: &[String]) -> anyhow::Result<()> {
    match words {
        [what, path] if what.as_str() == "sample" => sample::write(rt, path.as_str())?,
        [what, count, words @ ..] => {
            println!(rt;
                "{}",
                times_done(rt, what.as_str(), number_of(count), words)?
            )?;
        }
        _ => println!(rt; "0")?,
    }
    Ok(())
}
