//! What has to hold of a counter's history, by what those who asked it were told.
use crate::failures::journey::{EARLY_HOLDS, OCTETS, READERS};
use crate::failures::ledger::{Ledger, Sight};
use crate::fields::stand_in;
use crate::setting::Setting;
use audit::{check_row, extract};
use book::IdentityRow;
use cms::attribute_text;
use desk::{Desk, Fault};
use std::alloc::{AllocError, Global};
use store::{Book, Listed, Stamp};

/// More stamps than a journey leaves.
const MOST_STAMPS: u64 = 1000;

/// The digest of the deposit's octets (FIPS 180-4).
const DIGEST: &[u8] = b"\xba\x78\x16\xbf\x8f\x01\xcf\xea\x41\x41\x40\xde\x5d\xae\x22\x23\
    \xb0\x03\x61\xa3\x96\x17\x7a\x9c\xb4\x10\xff\x61\xf2\x00\x15\xad";

/// The extract of a request's stamp under the serial number 1, to which no token came.
const VOID_EXTRACT: &[u8] = b"serial,genTime,account,policy,algorithm,digest,state,token\n\
    1,19700101000000Z,guest,2.999.1,2.16.840.1.101.3.4.2.1,\
    ba7816bf8f01cfea414140de5dae2223b00361a396177a9cb410ff61f20015ad,void,\n";

/// The stamps, by their serial numbers; none where one isn't answered.
fn stamps_of<B: Book>(alloc: Global, book: &mut B) -> Result<Option<Vec<Stamp>>, AllocError> {
    let mut stamps = Vec::new(alloc);
    let mut from: u64 = 1;
    for _ in 0..MOST_STAMPS {
        match book.next_stamp(from, u64::MAX) {
            Ok(Some(stamp)) => {
                from = stamp.serial.saturating_add(1);
                stamps.push(stamp)?;
            }
            Ok(None) => return Ok(Some(stamps)),
            Err(_) => return Ok(None),
        }
    }
    Ok(None)
}

/// Whether serial numbers rise, genTimes don't fall, and rows agree with their octets.
fn are_in_order(stamps: &[Stamp], rows: &[IdentityRow]) -> bool {
    let rise = stamps.windows(2).all(|two| two[0].serial < two[1].serial
        && two[0].gen_time <= two[1].gen_time);
    rise && stamps
        .iter()
        .all(|stamp| check_row(stamp, rows) == Ok(true))
}

/// Whether the identity under which a serial number was reserved is the second; before the first of them it is not.
fn is_successors(setting: &Setting, rows: &[IdentityRow], serial: u64) -> bool {
    let mut is_successors = false;
    for row in rows {
        if row.after_serial < serial {
            is_successors = row.certificate.as_slice() == setting.successor.certificate();
        }
    }
    is_successors
}

/// The serial number of the stamp that a text is of, under the identity of that number.
fn serial_of(
    alloc: Global,
    setting: &Setting,
    rows: &[IdentityRow],
    stamps: &[Stamp],
    text: &[u8],
) -> Option<u64> {
    for stamp in stamps {
        let identity = setting.identity_after(is_successors(setting, rows, stamp.serial));
        if attribute_text(alloc, identity, &stamp.tst).is_ok_and(|of| of.as_slice() == text) {
            return Some(stamp.serial);
        }
    }
    None
}

/// Whether each text that was given out is of a stamp, under a serial number above those of the texts before it.
fn are_reserved(
    alloc: Global,
    setting: &Setting,
    rows: &[IdentityRow],
    stamps: &[Stamp],
    texts: &[Vec<u8>],
) -> bool {
    let mut last = 0;
    for text in texts {
        match serial_of(alloc, setting, rows, stamps, text) {
            Some(serial) if serial > last => last = serial,
            _ => return false,
        }
    }
    true
}

/// Whether a stamp has a token, which a reply has inside.
fn has_token(stamps: &[Stamp], serial: u64, reply: &[u8]) -> bool {
    stamps.iter().any(|stamp| {
        stamp.serial == serial
            && stamp
                .token
                .as_ref()
                .is_some_and(|token| stand_in(token, reply))
    })
}

/// Whether a number is listed, once.
fn is_listed(rows: &[Listed], number: u64) -> bool {
    rows.iter().filter(|row| row.number == number).count() == 1
}

/// Looks at the deposit that was acknowledged, for its owner.
fn check_deposit<B: Book + Drop>(
    desk: &mut Desk<'_, B>,
    ledger: &mut Ledger,
    stamps: &[Stamp],
    number: u64,
) {
    let Some(alice) = desk.policy().account_named("alice") else {
        return;
    };
    let shown = desk.show(alice, number);
    ledger.expect(
        shown.is_ok_and(|octets| octets.as_slice() == OCTETS),
        "a deposit is lost",
    );
    let reply = desk.token_of(alice, number);
    ledger.expect(
        reply.is_ok_and(|reply| has_token(stamps, number, &reply)),
        "a deposit has no token",
    );
    let rows = desk.list(alice);
    ledger.expect(
        rows.is_ok_and(|rows| is_listed(&rows, number)),
        "a deposit isn't listed",
    );
    let is_of_hash = stamps.iter().any(|stamp| stamp.serial == number
        && stamp.digest.as_slice() == DIGEST);
    ledger.expect(is_of_hash, "a deposit's stamp is of another hash");
}

/// Whether bob is listed the deposit, and shown it exactly then; none where it isn't answered.
fn sees<B: Book + Drop>(desk: &mut Desk<'_, B>, number: u64) -> Option<bool> {
    let Some(bob) = desk.policy().account_named("bob") else {
        return None;
    };
    let Ok(rows) = desk.list(bob) else {
        return None;
    };
    let is_listed = is_listed(&rows, number);
    match desk.show(bob, number) {
        Ok(octets) if is_listed && octets.as_slice() == OCTETS => Some(true),
        Err(Fault::NotHere) if !is_listed && rows.is_empty() => Some(false),
        _ => None,
    }
}

/// Looks whether bob sees the deposit, which he has to do from then on if a command that was cut leaves it open.
fn check_sight<B: Book + Drop>(desk: &mut Desk<'_, B>, ledger: &mut Ledger, number: u64) {
    let found = match sees(desk, number) {
        Some(true) => Sight::Sees,
        Some(false) => Sight::SeesNot,
        None => Sight::Either,
    };
    ledger.expect(found != Sight::Either, "a list and a deposit don't agree");
    let told = ledger.sight;
    ledger.expect(
        told == Sight::Either || told == found,
        "a right isn't as it was told",
    );
    ledger.sight = found;
}

/// Whether the entries of the one commit are there; none where a part of them is, or where it isn't answered.
fn are_added<B: Book>(book: &mut B, number: u64) -> Option<bool> {
    let [first, second] = EARLY_HOLDS;
    let first = book.held_at(first.from).ok()?;
    let second = book.held_at(second.from).ok()?;
    let reads = book.visible(number, "", &[READERS]).ok()?;
    (first == second && second == reads).then_some(first)
}

/// Looks whether a commit left all of its entries or none, and all if it was acknowledged.
fn check_entries<B: Book>(book: &mut B, ledger: &mut Ledger, number: u64) {
    let found = are_added(book, number);
    ledger.expect(found.is_some(), "a part of a commit is there");
    ledger.expect(
        !ledger.is_appended || found == Some(true),
        "entries of a commit are lost",
    );
}

/// Whether the stamps of an account are counted on the first two days.
fn are_counted<B: Book>(book: &mut B, stamps: &[Stamp], account: &str) -> bool {
    for day in 0..2u64 {
        let count = stamps
            .iter()
            .filter(|stamp| stamp.account.as_str() == account && stamp.day == day)
            .count();
        match book.count_of_day(account, day) {
            Ok(told) if told == count as u64 => {}
            _ => return false,
        }
    }
    true
}

/// Looks whether a succession that was acknowledged stands, before an opening installs an identity.
pub fn check_succession<B: Book>(setting: &Setting, book: &mut B, ledger: &mut Ledger) {
    if !ledger.is_succeeded {
        return;
    }
    let is_last = match book.identities() {
        Ok(rows) => rows.last().is_some_and(|row| row.certificate.as_slice()
            == setting.successor.certificate()),
        Err(_) => false,
    };
    ledger.expect(is_last, "a succession is lost");
}

/// Looks at the stamps, by the identities and by what was given out and given.
fn check_stamps(
    alloc: Global,
    setting: &Setting,
    stamps: &[Stamp],
    rows: &[IdentityRow],
    ledger: &mut Ledger,
) {
    ledger.expect(are_in_order(stamps, rows), "stamps aren't in order");
    let is_reserved = match ledger.signer.texts() {
        Some(texts) => are_reserved(alloc, setting, rows, stamps, texts),
        None => true,
    };
    ledger.expect(
        is_reserved,
        "a text that was given out isn't reserved in its order",
    );
    let is_kept = ledger.grants.iter().all(|granted| has_token(
        stamps,
        granted.serial,
        &granted.reply,
    ));
    ledger.expect(is_kept, "a token is lost");
}

/// Looks at what else a desk has of the stamps: their counts, and the deposit.
fn check_desk<B: Book + Drop>(desk: &mut Desk<'_, B>, ledger: &mut Ledger, stamps: &[Stamp]) {
    for account in ["guest", "alice"] {
        let are_counted = are_counted(desk.store(), stamps, account);
        ledger.expect(are_counted, "stamps aren't counted");
    }
    if let Some(number) = ledger.deposit {
        check_deposit(desk, ledger, stamps, number);
        check_sight(desk, ledger, number);
        check_entries(desk.store(), ledger, number);
    }
}

/// Looks at the history of a desk's book.
pub fn check<B: Book + Drop>(
    alloc: Global,
    setting: &Setting,
    desk: &mut Desk<'_, B>,
    ledger: &mut Ledger,
) -> Result<(), AllocError> {
    let Some(stamps) = stamps_of(alloc, desk.store())? else {
        ledger.expect(false, "stamps aren't answered");
        return Ok(());
    };
    match desk.store().identities() {
        Ok(rows) => {
            check_stamps(alloc, setting, &stamps, &rows, ledger);
            check_desk(desk, ledger, &stamps);
        }
        Err(_) => ledger.expect(false, "identities aren't answered"),
    }
    Ok(())
}

/// Looks whether the extract is of one void stamp.
pub fn check_void<B: Book + Drop>(alloc: Global, desk: &mut Desk<'_, B>, ledger: &mut Ledger) {
    let policy = desk.policy();
    let Some(audra) = policy.account_named("audra") else {
        return;
    };
    let mut text = Vec::new(alloc);
    let done = extract(alloc, desk.store(), policy, audra, 1, 1, &mut text);
    ledger.expect(
        done.is_ok() && text.as_slice() == VOID_EXTRACT,
        "the extract isn't of a void stamp",
    );
}
