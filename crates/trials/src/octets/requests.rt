//! Time-stamp requests, through the desk.
use crate::fields::{octets, stand_in, word};
use crate::octets::changes::{Subject, try_all};
use crate::tally::Tally;
use cms::Signer;
use desk::{Desk, Reply};
use policy::Account;
use std::io;
use store::{Book, Stamp};
use tsp::{TstInfo, read_request, read_tst};

/// The rejections by the rules 1 to 11, in their order (docs/formats.md). Rule 12 has no place here, since store,
/// signer and memory answer.
const REJECTIONS: [&[u8]; 11] = [
    b"\x30\x14\x30\x12\x02\x01\x02\x30\x09\x0c\x07rule 01\x03\x02\x02\x04",
    b"\x30\x14\x30\x12\x02\x01\x02\x30\x09\x0c\x07rule 02\x03\x02\x05\x20",
    b"\x30\x14\x30\x12\x02\x01\x02\x30\x09\x0c\x07rule 03\x03\x02\x05\x20",
    b"\x30\x14\x30\x12\x02\x01\x02\x30\x09\x0c\x07rule 04\x03\x02\x07\x80",
    b"\x30\x14\x30\x12\x02\x01\x02\x30\x09\x0c\x07rule 05\x03\x02\x02\x04",
    b"\x30\x15\x30\x13\x02\x01\x02\x30\x09\x0c\x07rule 06\x03\x03\x00\x00\x01",
    b"\x30\x14\x30\x12\x02\x01\x02\x30\x09\x0c\x07rule 07\x03\x02\x07\x80",
    b"\x30\x16\x30\x14\x02\x01\x02\x30\x09\x0c\x07rule 08\x03\x04\x07\x00\x00\x80",
    b"\x30\x16\x30\x14\x02\x01\x02\x30\x09\x0c\x07rule 09\x03\x04\x06\x00\x00\x40",
    b"\x30\x15\x30\x13\x02\x01\x02\x30\x09\x0c\x07rule 10\x03\x03\x01\x00\x02",
    b"\x30\x14\x30\x12\x02\x01\x02\x30\x09\x0c\x07rule 11\x03\x02\x05\x20",
];

/// How many rules these are.
const RULES: usize = REJECTIONS.len();

/// A desk that is asked, and what it answered.
#[derive(Drop)]
struct Asked<'d, 's, 'p, B: Book + Drop, G: Signer> {
    desk: &'d mut Desk<'p, B>,
    signer: &'s mut G,
    account: Option<&'p Account>,
    /// How many requests were granted.
    granted: u64,
    /// How many were rejected by each rule.
    rejected: [u64; RULES],
}

/// Whether the imprint of a TSTInfo is the request's, octet for octet (RFC 3161 2.4.2).
fn has_imprint(tst: &TstInfo<'_>, query: &[u8]) -> bool {
    let Ok(request) = read_request(query) else {
        return false;
    };
    tst.imprint.hash == request.hash()
        && tst.imprint.algorithm.content() == request.algorithm()
        && tst.imprint.parameters.is_some() == request.parameters().is_some()
}

/// Whether a stamp is what a reply says: under that serial number, for that request, with a TSTInfo that is read, and a
/// token that the reply has inside and that has the TSTInfo inside.
fn is_stamp(stamp: &Stamp, serial: u64, query: &[u8], reply: &[u8]) -> bool {
    let Ok(tst) = read_tst(&stamp.tst) else {
        return false;
    };
    let Some(token) = &stamp.token else {
        return false;
    };
    tst.serial == serial
        && has_imprint(&tst, query)
        && stamp.request.as_slice() == query
        && stand_in(token, reply)
        && stand_in(&stamp.tst, token)
}

/// Whether the stamp of a serial number, which is the last, is what a reply says.
fn is_stored<B: Book>(book: &mut B, serial: u64, query: &[u8], reply: &[u8]) -> bool {
    match book.next_stamp(serial, u64::MAX) {
        Ok(Some(stamp)) => stamp.serial == serial && is_stamp(&stamp, serial, query, reply),
        _ => false,
    }
}

/// Whether a text is one of the rejections, which is counted.
fn is_counted(counts: &mut [u64], text: &[u8]) -> bool {
    let mut is_counted = false;
    for (count, known) in counts.iter_mut().zip(REJECTIONS.iter()) {
        if *known == text {
            *count = count.saturating_add(1);
            is_counted = true;
        }
    }
    is_counted
}

impl<B: Book + Drop, G: Signer> Subject for Asked<'_, '_, '_, B, G> {
    fn takes(&mut self, octets: &[u8]) -> bool {
        match self.desk.answer(self.account, 0, octets, self.signer) {
            Reply::Granted { serial, bytes } => {
                self.granted = self.granted.saturating_add(1);
                serial == self.granted && is_stored(self.desk.store(), serial, octets, &bytes)
            }
            Reply::Rejected(rejection) => is_counted(&mut self.rejected, rejection.as_slice()),
        }
    }
}

/// Tells how many requests were tried, granted, rejected by each rule, and wrong.
fn tell(
    rt: &HostRuntime,
    account: &str,
    name: &str,
    tally: Tally,
    granted: u64,
    rejected: &[u64],
) -> io::Result<()> {
    print!(rt;
        "{account}'s request {name}: {} tried, {granted} granted",
        tally.tried
    )?;
    for (at, count) in rejected.iter().enumerate() {
        if *count > 0 {
            print!(rt; ", {count} by rule {}", at + 1)?;
        }
    }
    println!(rt; "; {} wrong", tally.wrong)
}

/// Tries the request of a line, an account's name, the request's and its hexadecimal digits, at a desk without stamps.
/// Tells how many were tried, granted, rejected by each rule, and wrong.
pub fn try_line<B: Book + Drop, G: Signer>(
    rt: &HostRuntime,
    desk: &mut Desk<'_, B>,
    signer: &mut G,
    line: &str,
) -> anyhow::Result<Tally> {
    let (account, rest) = word(line);
    let (name, digits) = word(rest);
    let mut query = octets(rt.alloc(), digits)?;
    let mut asked = Asked {
        account: desk.policy().account_named(account),
        desk,
        signer,
        granted: 0,
        rejected: [0; RULES],
    };
    let tally = try_all(rt, &mut asked, &mut query)?;
    tell(rt, account, name, tally, asked.granted, &asked.rejected)?;
    Ok(tally)
}
