//! Octets of which each front and each change of one octet is tried.
mod answers;
mod certificates;
mod changes;
mod heads;
mod policies;
mod requests;

use crate::desks::{AtDesk, at_desk};
use crate::setting::example_setting;
use crate::tally::Tally;
use cms::KeyedHash;
use desk::Desk;
use std::fs;
use store::Book;

/// A line's request at a desk without stamps, and how much was tried.
#[derive(Drop)]
struct Line<'l> {
    rt: &'l HostRuntime,
    kind: &'l str,
    line: &'l str,
    tally: Tally,
}

impl AtDesk for Line<'_> {
    fn at<B: Book + Drop>(
        &mut self,
        desk: &mut Desk<'_, B>,
        signer: &mut KeyedHash,
    ) -> anyhow::Result<()> {
        self.tally = match self.kind {
            "request" => requests::try_line(self.rt, desk, signer, self.line)?,
            _ => heads::try_line(self.rt, desk, signer, self.line)?,
        };
        Ok(())
    }
}

/// Tries a line's request.
fn try_request(rt: &HostRuntime, kind: &str, line: &str) -> anyhow::Result<Tally> {
    let setting = example_setting(rt.alloc())?;
    let mut line = Line {
        rt,
        kind,
        line,
        tally: Tally::NONE,
    };
    at_desk(rt.alloc(), &setting, 0, &mut line)?;
    Ok(line.tally)
}

/// Tries a line of a kind.
fn try_line(rt: &HostRuntime, kind: &str, line: &str) -> anyhow::Result<Tally> {
    match kind {
        "request" | "head" => try_request(rt, kind, line),
        "policy" => policies::try_line(rt, line),
        _ => certificates::try_line(rt, kind, line),
    }
}

/// Tries the lines of a text.
fn try_text(rt: &HostRuntime, text: &str) -> anyhow::Result<Tally> {
    let mut tally = Tally::NONE;
    for line in text.lines() {
        if let Some((kind, rest)) = line.split_once(' ') {
            tally = tally.plus(try_line(rt, kind, rest)?);
        }
    }
    Ok(tally)
}

/// Tries the lines of the files, and tells of each file how many octets were tried and how many were wrong.
pub fn try_files(rt: &HostRuntime, paths: &[String]) -> anyhow::Result<()> {
    for path in paths {
        let text = fs::read_to_string(rt, path.as_str())?;
        let tally = try_text(rt, &text)?;
        println!(rt; "{path}: {} tried; {} wrong", tally.tried, tally.wrong)?;
    }
    Ok(())
}
