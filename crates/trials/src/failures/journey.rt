//! A journey: what is asked of a desk, one step after the other.
use crate::books::calibration_at;
use crate::failures::ledger::{Ledger, Sight, Step};
use crate::failures::openings::Look;
use crate::setting::{REQUEST, RULE_12, Setting};
use book::{Entry, Hold, Reader};
use desk::{Begun, Desk, Fault, Reply};
use policy::Account;
use store::{Book, StoreFault};

/// The reading of the last request, which is as old as a calibration may be.
const LATER: i64 = 86_400_000_000;

/// The deposit's reference and octets.
pub const REFERENCE: &str = "plan-7";

pub const OCTETS: &[u8] = b"abc";

/// Holds of moments before all readings, and the group that is given a right beside them.
pub const EARLY_HOLDS: [Hold; 2] = [Hold { from: -2, to: -1 }, Hold { from: -4, to: -3 }];

pub const READERS: &str = "council";

/// The desk's accounts.
fn account<'p, B: Book + Drop>(desk: &Desk<'p, B>, name: &str) -> Option<&'p Account> {
    desk.policy().account_named(name)
}

/// Whether a step is done; where it is refused, that has to be as the store does.
fn is_done<F: PartialEq + Drop>(ledger: &mut Ledger, done: Result<(), F>, stores: F) -> bool {
    match done {
        Ok(()) => true,
        Err(fault) => {
            ledger.expect(fault == stores, "another refusal");
            false
        }
    }
}

fn calibrate<B: Book + Drop>(desk: &mut Desk<'_, B>, ledger: &mut Ledger) -> bool {
    let done = desk.store().calibrate(&calibration_at(0)).map(|_number| ());
    is_done(ledger, done, StoreFault::Database)
}

/// The serial number that is next.
fn next_serial<B: Book + Drop>(desk: &mut Desk<'_, B>) -> Option<u64> {
    match desk.store().last() {
        Ok(last) => Some(last.serial.saturating_add(1)),
        Err(_) => None,
    }
}

fn stamp<B: Book + Drop>(
    desk: &mut Desk<'_, B>,
    ledger: &mut Ledger,
    reading: i64,
    look: Look,
) -> bool {
    let next = if look != Look::None {
        next_serial(desk)
    } else {
        None
    };
    let guest = desk.policy().anonymous();
    match desk.answer(guest, reading, REQUEST, &mut ledger.signer) {
        Reply::Granted { serial, bytes } => {
            ledger.expect(
                next.is_none_or(|next| next == serial),
                "another serial number",
            );
            let kept = ledger.keep(serial, &bytes);
            ledger.expect(kept.is_ok(), "no memory");
            true
        }
        Reply::Rejected(rejection) => {
            ledger.expect(rejection.as_slice() == RULE_12, "another rejection");
            false
        }
    }
}

fn leave<B: Book + Drop>(desk: &mut Desk<'_, B>, ledger: &mut Ledger) -> bool {
    match desk.begin(desk.policy().anonymous(), 0, REQUEST) {
        Ok(Begun::Pending(pending)) => {
            ledger.signer.note(pending.text());
            desk.abandon(pending);
            true
        }
        Ok(Begun::Rejected(_rejection)) => {
            ledger.expect(false, "a request is rejected");
            false
        }
        Err(fault) => is_done(ledger, Err(fault), Fault::Store),
    }
}

fn deposit<B: Book + Drop>(desk: &mut Desk<'_, B>, ledger: &mut Ledger) -> bool {
    let Some(alice) = account(desk, "alice") else {
        return false;
    };
    match desk.deposit(alice, 0, REFERENCE, OCTETS, &mut ledger.signer) {
        Ok(deposited) => {
            ledger.deposit = Some(deposited.number);
            true
        }
        Err(fault) => is_done(ledger, Err(fault), Fault::Store),
    }
}

/// Gives bob the right to see the deposit, or takes it.
fn set_right<B: Book + Drop>(desk: &mut Desk<'_, B>, ledger: &mut Ledger, is_given: bool) -> bool {
    let (Some(alice), Some(number)) = (account(desk, "alice"), ledger.deposit) else {
        return false;
    };
    let (done, sight) = if is_given {
        (desk.grant(alice, number, "bob"), Sight::Sees)
    } else {
        (desk.revoke(alice, number, "bob"), Sight::SeesNot)
    };
    let is_done = is_done(ledger, done, Fault::Store);
    ledger.sight = if is_done { sight } else { Sight::Either };
    is_done
}

/// Has the other identity succeed.
fn succeed<'p, B: Book + Drop>(
    desk: &mut Desk<'p, B>,
    setting: &'p Setting,
    ledger: &mut Ledger,
) -> bool {
    let done = desk.succeed(&setting.successor, &setting.algorithm);
    ledger.is_succeeded = is_done(ledger, done, Fault::Store);
    ledger.is_succeeded
}

/// Adds two holds, and a right of a group between them, in one commit.
fn append<B: Book + Drop>(desk: &mut Desk<'_, B>, ledger: &mut Ledger) -> bool {
    let Some(number) = ledger.deposit else {
        return false;
    };
    let [first, second] = EARLY_HOLDS;
    let right = Entry::Granted {
        number,
        reader: Reader::Group(READERS),
    };
    let entries = [Entry::Held(first), right, Entry::Held(second)];
    let done = desk.store().append(&entries);
    ledger.is_appended = is_done(ledger, done, StoreFault::Database);
    ledger.is_appended
}

/// Takes the step that isn't acknowledged yet, and tells whether it is then. Where it is looked at, no call of the disk
/// may count.
fn take_step<'p, B: Book + Drop>(
    desk: &mut Desk<'p, B>,
    setting: &'p Setting,
    ledger: &mut Ledger,
    look: Look,
) -> bool {
    match ledger.step {
        Step::Calibrate => calibrate(desk, ledger),
        Step::Stamp => stamp(desk, ledger, 0, look),
        Step::Leave => leave(desk, ledger),
        Step::Deposit => deposit(desk, ledger),
        Step::Give => set_right(desk, ledger, true),
        Step::Take => set_right(desk, ledger, false),
        Step::Succeed => succeed(desk, setting, ledger),
        Step::StampLater | Step::StampUnder => stamp(desk, ledger, LATER, look),
        Step::Append => append(desk, ledger),
        Step::Nothing => true,
    }
}

/// Tries a step so many times: after which of them it was acknowledged, from 0 on.
fn tries_of<'p, B: Book + Drop>(
    desk: &mut Desk<'p, B>,
    setting: &'p Setting,
    ledger: &mut Ledger,
    tries: u64,
    look: Look,
) -> Option<u64> {
    for again in 0..tries {
        if take_step(desk, setting, ledger, look) {
            return Some(again);
        }
    }
    None
}

/// Takes so many of the steps that aren't acknowledged yet, each as many times as `tries` says until it is: how many
/// refusals there were, or none where a step is refused each time.
pub fn go_on<'p, B: Book + Drop>(
    desk: &mut Desk<'p, B>,
    setting: &'p Setting,
    ledger: &mut Ledger,
    steps: u64,
    tries: u64,
    look: Look,
) -> Option<u64> {
    let mut refusals: u64 = 0;
    for _ in 0..steps {
        if ledger.step == Step::Nothing {
            break;
        }
        let again = tries_of(desk, setting, ledger, tries, look)?;
        refusals = refusals.saturating_add(again);
        ledger.step = ledger.step.next();
    }
    Some(refusals)
}
