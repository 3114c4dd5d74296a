//! Calls of the desk.
use crate::scenarios::lists::{tell_list, tell_rows};
use crate::transcript::Printer;
use book::Reader;
use cms::Signer;
use desk::{Answer, Begun, Command, Desk, Pending, Reply};
use policy::Account;
use std::alloc::{AllocError, Global};
use store::Book;

/// Tells of a reply.
fn tell_reply(printer: Printer<'_>, reply: &Reply) {
    match reply {
        Reply::Granted { serial, bytes } => {
            printer.number("granted", *serial);
            printer.octets("reply", bytes);
        }
        Reply::Rejected(rejection) => printer.octets("reply", rejection.as_slice()),
    }
}

/// Makes the call of a command that changes rights, or of a succession, and tells of it.
fn call_about_rights<'p, B: Book + Drop>(
    printer: Printer<'_>,
    desk: &mut Desk<'p, B>,
    command: Command<'_, 'p>,
) {
    let outcome = match command {
        Command::Grant {
            account,
            number,
            reader,
        } => match reader {
            Reader::Account(name) => desk.grant(account, number, name),
            Reader::Group(name) => desk.grant_group(account, number, name),
        },
        Command::Revoke {
            account,
            number,
            reader,
        } => match reader {
            Reader::Account(name) => desk.revoke(account, number, name),
            Reader::Group(name) => desk.revoke_group(account, number, name),
        },
        Command::Succeed {
            identity,
            algorithm,
        } => desk.succeed(identity, algorithm),
        _ => return printer.line("  no such call"),
    };
    printer.tell(&outcome);
}

/// Makes the call of a command, and tells of it. Calibrations and holds are calls of the store.
pub fn call<'p, B: Book + Drop, G: Signer>(
    printer: Printer<'_>,
    desk: &mut Desk<'p, B>,
    command: Command<'_, 'p>,
    signer: &mut G,
) {
    match command {
        Command::Stamp {
            account,
            reading,
            query,
        } => tell_reply(printer, &desk.answer(account, reading, query, signer)),
        Command::Deposit {
            account,
            reading,
            reference,
            bytes,
        } => printer.tell(&desk.deposit(account, reading, reference, bytes, signer)),
        Command::Show { account, number } => {
            printer.octets_or_fault("shown", &desk.show(account, number));
        }
        Command::Token { account, number } => {
            printer.octets_or_fault("shown", &desk.token_of(account, number));
        }
        Command::List { account } => tell_list(printer, desk.list(account)),
        other => call_about_rights(printer, desk, other),
    }
}

fn tell_answer(printer: Printer<'_>, answer: &Answer) {
    match answer {
        Answer::Stamped(reply) => tell_reply(printer, reply),
        Answer::Shown(octets) => printer.octets("shown", octets),
        Answer::Listed(rows) => tell_rows(printer, rows),
        other => printer.tell(other),
    }
}

/// Runs a list of commands, and tells of each answer.
pub fn run_all<'p, B: Book + Drop, G: Signer>(
    printer: Printer<'_>,
    desk: &mut Desk<'p, B>,
    commands: &[Command<'_, 'p>],
    signer: &mut G,
) {
    match desk.run(commands, signer) {
        Ok(answers) => {
            for answer in &answers {
                tell_answer(printer, answer);
            }
        }
        Err(fault) => printer.tell(&fault),
    }
}

/// Commands by which an account asks for the deposits from number 0 on, so many.
fn shows<'a, 'p>(
    alloc: Global,
    account: &'a Account,
    count: u64,
) -> Result<Vec<Command<'a, 'p>>, AllocError> {
    let mut commands = Vec::new(alloc);
    for number in 0..count {
        commands.push(Command::Show { account, number })?;
    }
    Ok(commands)
}

/// Runs a list of so many such commands, and tells how many answers there are, and which of them show a deposit.
pub fn tell_shows<B: Book + Drop, G: Signer>(
    printer: Printer<'_>,
    desk: &mut Desk<'_, B>,
    account: &Account,
    count: u64,
    signer: &mut G,
) {
    if let Ok(commands) = shows(printer.alloc(), account, count)
        && let Ok(answers) = desk.run(&commands, signer)
    {
        printer.number("answers", answers.len() as u64);
        for (number, answer) in answers.iter().enumerate() {
            if matches!(answer, Answer::Shown(_)) {
                printer.number("shown", number as u64);
            }
        }
    }
}

/// Tells how many of a request's fronts, from one octet on and without the whole, are answered by that reply.
pub fn tell_fronts<B: Book + Drop, G: Signer>(
    printer: Printer<'_>,
    desk: &mut Desk<'_, B>,
    account: Option<&Account>,
    query: &[u8],
    reply: &[u8],
    signer: &mut G,
) {
    let mut count: u64 = 0;
    for len in 1..query.len() {
        let front = query.get(..len).unwrap_or(&[]);
        if is_reply(&desk.answer(account, 0, front, signer), reply) {
            count = count.saturating_add(1);
        }
    }
    printer.number("fronts", count);
}

fn is_reply(reply: &Reply, octets: &[u8]) -> bool {
    match reply {
        Reply::Granted { serial: _, bytes } => bytes.as_slice() == octets,
        Reply::Rejected(rejection) => rejection.as_slice() == octets,
    }
}

/// What waits for its signature after a request at the first moment.
fn begun<'p, B: Book + Drop>(
    desk: &mut Desk<'p, B>,
    account: Option<&Account>,
    query: &[u8],
) -> Option<Pending<'p>> {
    match desk.begin(account, 0, query) {
        Ok(Begun::Pending(pending)) => Some(pending),
        Ok(Begun::Rejected(_)) => None,
        Err(_) => None,
    }
}

fn signed<'p, B: Book + Drop, G: Signer>(
    desk: &mut Desk<'p, B>,
    pending: Pending<'p>,
    signer: &mut G,
) -> Option<Reply> {
    match signer.sign(pending.text()) {
        Ok(signature) => desk.finish(pending, &signature).ok(),
        Err(_) => {
            desk.abandon(pending);
            None
        }
    }
}

/// Signs what waits, if anything does, and tells of it.
fn finish<'p, B: Book + Drop, G: Signer>(
    printer: Printer<'_>,
    desk: &mut Desk<'p, B>,
    pending: Option<Pending<'p>>,
    signer: &mut G,
) {
    let reply = match pending {
        Some(pending) => signed(desk, pending, signer),
        None => None,
    };
    match reply {
        Some(reply) => tell_reply(printer, &reply),
        None => printer.line("  nothing"),
    }
}

/// Begins two stamps one after the other, and finishes them the other way round.
pub fn finish_backwards<B: Book + Drop, G: Signer>(
    printer: Printer<'_>,
    desk: &mut Desk<'_, B>,
    account: Option<&Account>,
    query: &[u8],
    signer: &mut G,
) {
    let first = begun(desk, account, query);
    let second = begun(desk, account, query);
    finish(printer, desk, second, signer);
    finish(printer, desk, first, signer);
}

/// Begins a stamp, and leaves it void.
pub fn leave<B: Book + Drop>(
    printer: Printer<'_>,
    desk: &mut Desk<'_, B>,
    account: Option<&Account>,
    query: &[u8],
) {
    match begun(desk, account, query) {
        Some(pending) => {
            desk.abandon(pending);
            printer.line("  left");
        }
        None => printer.line("  nothing"),
    }
}
