//! Calls of the store.
use crate::scenarios::entries::{calibration, entries_of, hold, reservation};
use crate::scenarios::kept::Kept;
use crate::scenarios::lists::{LimitedOutput, tell_list};
use crate::scenarios::stamps::{AskedOfStamps, tell_stamp, tell_stamps};
use crate::transcript::{Names, Printer, Words};
use store::{Book, Deposit, StampedDeposit, StoreFault};

/// Reserves under each serial number from one to another, up to the first that is refused.
fn reserve_each<B: Book>(
    store: &mut B,
    names: &Names,
    words: &mut Words<'_>,
) -> Result<(), StoreFault> {
    let (from, to) = (words.number(), words.number());
    for serial in from..=to {
        let mut rest = *words;
        store.reserve(&reservation(serial, names, &mut rest))?;
    }
    Ok(())
}

fn seal_deposit<B: Book>(
    store: &mut B,
    names: &Names,
    words: &mut Words<'_>,
) -> Result<(), StoreFault> {
    let serial = words.number();
    let (owner, reference) = (words.next(), words.next());
    let token = names.octets(words.next());
    store.seal_deposit(serial, token, owner, reference, names.octets(words.next()))
}

/// Adds all entries that the words name in one commit, if there are any.
fn append<B: Book>(
    printer: Printer<'_>,
    store: &mut B,
    words: &mut Words<'_>,
) -> Result<(), StoreFault> {
    let mut rest = *words;
    let entries = entries_of(printer.alloc(), printer.names, &mut rest)?;
    if entries.is_empty() {
        return Ok(());
    }
    store.append(&entries)
}

/// The first of two names of groups up to an empty one.
fn named<'n, 'w>(names: &'n [&'w str; 2]) -> &'n [&'w str] {
    if names[0].is_empty() {
        return &[];
    }
    if names[1].is_empty() {
        return &names[..1];
    }
    names
}

/// Lists deposits for an output that can be flushed so many times.
fn list_within<B: Book>(printer: Printer<'_>, store: &mut B, flushes: u64, words: &mut Words<'_>) {
    let account = words.next();
    let names = [words.next(), words.next()];
    let mut output = LimitedOutput { flushes };
    tell_list(printer, store.list(account, named(&names), &mut output));
}

fn tell_visible<B: Book>(printer: Printer<'_>, store: &mut B, words: &mut Words<'_>) {
    let number = words.number();
    let account = words.next();
    let names = [words.next(), words.next()];
    printer.tell(&store.visible(number, account, named(&names)));
}

fn tell_deposit(printer: Printer<'_>, deposit: &Deposit) {
    let (owner, reference) = (deposit.owner.as_str(), deposit.reference.as_str());
    printer.tell(&(deposit.serial, owner, reference));
    printer.octets("bytes", &deposit.bytes);
}

fn tell_stamped(printer: Printer<'_>, found: Result<Option<StampedDeposit>, StoreFault>) {
    match found {
        Ok(Some(found)) => {
            tell_deposit(printer, &found.deposit);
            tell_stamp(printer, &found.stamp);
        }
        Ok(None) => printer.line("  None"),
        Err(fault) => printer.tell(&fault),
    }
}

fn tell_under(printer: Printer<'_>, found: Result<Option<Deposit>, StoreFault>) {
    match found {
        Ok(Some(deposit)) => tell_deposit(printer, &deposit),
        Ok(None) => printer.line("  None"),
        Err(fault) => printer.tell(&fault),
    }
}

/// Tells what a look-up shows.
fn show<B: Book>(printer: Printer<'_>, store: &mut B, word: &str, words: &mut Words<'_>) {
    match word {
        "calibration" => printer.tell(&store.calibration()),
        "held" => printer.tell(&store.held_at(words.signed())),
        "last" => printer.tell(&store.last()),
        "count" => printer.tell(&store.count_of_day(words.next(), words.number())),
        "list" => list_within(printer, store, u64::MAX, words),
        "list-within" => list_within(printer, store, words.number(), words),
        "visible" => tell_visible(printer, store, words),
        "owner" => printer.tell(&store.is_owner(words.number(), words.next())),
        "deposit" => tell_stamped(printer, store.deposit(words.number())),
        "under" => tell_under(printer, store.by_reference(words.next(), words.next())),
        "faults" => printer.number("faults", store.faults()),
        _ => printer.line("  no such call"),
    }
}

/// Makes a change and tells of it, or asks.
fn call_book<B: Book>(printer: Printer<'_>, store: &mut B, word: &str, words: &mut Words<'_>) {
    let names = printer.names;
    let ending = match word {
        "calibrate" => store.calibrate(&calibration(words)).map(|_number| ()),
        "hold" => store.hold(&hold(words)).map(|_number| ()),
        "reserve" => reserve_each(store, names, words),
        "seal" => store.seal(words.number(), names.octets(words.next())),
        "seal-deposit" => seal_deposit(store, names, words),
        "grant" => store.grant(words.number(), words.next()),
        "revoke" => store.revoke(words.number(), words.next()),
        "grant-group" => store.grant_group(words.number(), words.next()),
        "revoke-group" => store.revoke_group(words.number(), words.next()),
        "append" => append(printer, store, words),
        _ => return show(printer, store, word, words),
    };
    printer.tell(&ending);
}

/// Makes the call that the words name.
pub fn call<B: Kept>(printer: Printer<'_>, store: &mut B, words: &mut Words<'_>) {
    let word = words.next();
    let asked = match word {
        "walk" => AskedOfStamps::Walk(words.number()),
        "flip" => AskedOfStamps::Flip(words.next()),
        "check" => match store.identities() {
            Ok(rows) => AskedOfStamps::Check(words.number(), rows),
            Err(fault) => return printer.tell(&fault),
        },
        "fail" => return store.fail(words.number()),
        _ => return call_book(printer, store, word, words),
    };
    let from = words.number();
    tell_stamps(printer, &mut store.stamps(from, words.number()), asked);
}
