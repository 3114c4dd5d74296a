//! A stamp that waits: no rule refuses it, and its texts are written.
ghost use Rattle.std.specs.Prelude.{◌≡◌, ◌&&◌, map, count_by};
ghost use Rattle.book.specs.{History.is_of_day, Values.reservation_view};
ghost use Rattle.desk.specs.WaitingStamps.{waiting_view};

use crate::unsigned_token::UnsignedToken;
use book::Reservation;
use der::Oid;

/// A day, in microseconds.
const DAY: u64 = 86_400_000_000;

/// A stamp that no rule refuses: for whom, its request, what its plan says, and its texts under its serial number.
#[derive(Drop)]
pub(crate) struct WaitingStamp<'p, 'a> {
    pub(crate) account: &'a str,
    pub(crate) query: &'a [u8],
    pub(crate) gen_time: u64,
    pub(crate) policy: &'p Oid,
    pub(crate) algorithm: &'a [u8],
    pub(crate) digest: &'a [u8],
    pub(crate) unsigned: UnsignedToken,
}

/// What is reserved for it.
pub(crate) fn reservation_of<'w>(waiting: &'w WaitingStamp<'_, '_>) -> Reservation<'w>
    ensures { reservation_view result ≡ waiting_view waiting.now }
{
    Reservation {
        serial: waiting.unsigned.serial,
        account: waiting.account,
        gen_time: waiting.gen_time,
        policy: waiting.policy.content(),
        algorithm: waiting.algorithm,
        digest: waiting.digest,
        request: waiting.query,
        tst: &waiting.unsigned.tst,
    }
}

/// Whether it is the account's, on the day.
fn is_of_day(waiting: &WaitingStamp<'_, '_>, account: &str, day: u64) -> bool
    ensures { result ≡ is_of_day account.now day (waiting_view waiting.now) }
{
    waiting.account == account && waiting.gen_time / DAY == day
}

/// How many of those that wait are an account's, on a day.
pub(crate) fn count_waiting(waits: &[WaitingStamp<'_, '_>], account: &str, day: u64) -> usize
    ensures { result ≡ count_by (is_of_day account.now day) (map waiting_view waits.now) }
{
    waits
        .iter()
        .filter(|waiting| is_of_day(waiting, account, day))
        .count()
}
