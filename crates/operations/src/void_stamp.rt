//! A void stamp in place of a history's last one.
ghost use Rattle.std.specs.Prelude.{◌≡◌, ◌⊎◌, ◌↔◌, ◌<◌, ◌≤◌, option_map, Err, IfOk, IfErr, IfSome, IsNone};
ghost use Rattle.gentime.specs.GenTime.{last_moment};
ghost use Rattle.book.specs.{Sound.greatest_number, Values.reservation_view, Values.stamp_view};
ghost use Rattle.desk.specs.Continuation.{IsRestated};
ghost use Rattle.operations.specs.VoidStamp.{ComesAfter, IsNoneAfter, IsNoneAfterIfAny, IsVoidFault, void_view};
ghost use Rattle.operations.specs.VoidStamp.{IsUnreadable, IsUnreadAfter, IsVoidFor, IsVoidIfAny, reserved_as};
ghost use Rattle.operations.specs.VoidStamp.{reserved_in_place, void_of};

use crate::fault::ContinuationFault;
use book::{GREATEST_NUMBER, Reservation, Stamp, StoreFault};
use gentime::GenTime;
use std::alloc::Global;
use tsp::{TstInfo, read_request, read_tst, requests_have_one_reading, write_tst};

/// What comes in place of the last stamp of a history that goes on, where later ones may have been given than the
/// database has.
#[derive(Clone, Copy)]
pub struct Floor {
    /// Later serial numbers are above this one.
    pub serial: u64,
    /// No later genTime is before this moment, in microseconds since 1970-01-01T00:00:00Z.
    pub gen_time: u64,
}

/// What is reserved in place of the last stamp, with no token: its serial number, its genTime and its TSTInfo.
#[derive(Drop)]
pub(crate) struct VoidStamp {
    pub serial: u64,
    pub gen_time: u64,
    pub tst: Vec<u8>,
}

impl VoidStamp {
    /// The void stamp for the request of the last one. Refused with `NotAfter` where it doesn't come after that, or
    /// there is none, and else with `Unclosed`: with `NotOurs` where the last one's request or TSTInfo can't be read,
    /// with `Memory` where memory runs out.
    pub fn of(
        alloc: Global,
        floor: Floor,
        last: Option<&Stamp>,
    ) -> Result<VoidStamp, ContinuationFault>
        ensures void { IfOk result (λ void. IsVoidFor floor (option_map (λ s. stamp_view s.now) last.entry)
            (void_view void)) }
        ensures none { (result ≡ Err ContinuationFault.NotAfter)
            ↔ IsNoneAfter floor (option_map (λ s. stamp_view s.now) last.entry) }
        ensures unread { (result ≡ Err (ContinuationFault.Unclosed StoreFault.NotOurs))
            ↔ IsUnreadAfter floor (option_map (λ s. stamp_view s.now) last.entry) }
        ensures refusals { IfErr result IsVoidFault }
    {
        let Some(last) = last else {
            return Err(ContinuationFault::NotAfter);
        };
        let Some(gen_time) = gen_time_after(floor, last) else {
            return Err(ContinuationFault::NotAfter);
        };
        let tst = restated(alloc, floor.serial, gen_time, last)?;
        Ok(VoidStamp {
            serial: floor.serial,
            gen_time: floor.gen_time,
            tst,
        })
    }

    /// What is reserved, where that is the last stamp.
    pub fn reservation<'a>(&'a self, last: &'a Stamp) -> Reservation<'a>
        ensures { reservation_view result ≡ reserved_in_place (void_view self.now) (stamp_view last.now) }
    {
        Reservation {
            serial: self.serial,
            account: last.account.as_str(),
            gen_time: self.gen_time,
            policy: last.policy.as_slice(),
            algorithm: last.algorithm.as_slice(),
            digest: last.digest.as_slice(),
            request: last.request.as_slice(),
            tst: self.tst.as_slice(),
        }
    }
}

/// The void stamp that is asked for, if any is, in place of the last one. Refused as `VoidStamp::of` is.
pub(crate) fn void_for(
    alloc: Global,
    floor: Option<Floor>,
    last: Option<&Stamp>,
) -> Result<Option<VoidStamp>, ContinuationFault>
    ensures void { IfOk result (λ void. IsVoidIfAny floor (option_map (λ s. stamp_view s.now) last.entry)
        (option_map void_view void)) }
    ensures none { (result ≡ Err ContinuationFault.NotAfter)
        ↔ IsNoneAfterIfAny floor (option_map (λ s. stamp_view s.now) last.entry) }
    ensures refusals { IfErr result IsVoidFault }
{
    match floor {
        Some(floor) => Ok(Some(VoidStamp::of(alloc, floor, last)?)),
        None => Ok(None),
    }
}

/// The genTime that is asked for, where that and the serial number come after a stamp.
fn gen_time_after(floor: Floor, last: &Stamp) -> Option<GenTime>
    ensures after { IfSome result (λ gen_time. (gen_time ≡ floor.gen_time)
        × ComesAfter floor (stamp_view last.now)) }
    ensures none { IsNone result → ComesAfter floor (stamp_view last.now) → ⊥ }
{
    if floor.serial <= last.serial || floor.serial > GREATEST_NUMBER {
        return None;
    }
    if floor.gen_time < last.gen_time {
        return None;
    }
    gen_time_of(floor.gen_time)
}

/// The moment as a genTime; none after the year 9999.
fn gen_time_of(micros: u64) -> Option<GenTime>
    ensures found { IfSome result (λ gen_time. (gen_time ≡ micros) × (micros ≤ last_moment)) }
    ensures none { IsNone result → last_moment < micros }
{
    match i64::try_from(micros) {
        Ok(micros) => GenTime::from_micros(micros).ok(),
        Err(_) => None,
    }
}

/// The TSTInfo of a stamp under another serial number and genTime (RFC 3161 2.4.2), which names nobody. `NotOurs` where
/// the stamp's own, or its request, can't be read.
fn restated(
    alloc: Global,
    serial: u64,
    gen_time: GenTime,
    last: &Stamp,
) -> Result<Vec<u8>, StoreFault>
    requires some { 1 ≤ serial }
    requires within { serial ≤ greatest_number }
    ensures restated { IfOk result (λ tst.
        IsRestated (void_of serial gen_time tst.items) (reserved_as (stamp_view last.now))) }
    ensures unread { (result ≡ Err StoreFault.NotOurs) ↔ IsUnreadable (stamp_view last.now) }
    ensures refusals { IfErr result (λ fault. (fault ≡ StoreFault.Memory) ⊎ (fault ≡ StoreFault.NotOurs)) }
{
    requests_have_one_reading();
    let Ok(request) = read_request(&last.request) else {
        return Err(StoreFault::NotOurs);
    };
    let Ok(before) = read_tst(&last.tst) else {
        return Err(StoreFault::NotOurs);
    };
    let _bound = gen_time.micros();
    let TstInfo {
        policy,
        accuracy,
        ordering,
        ..
    } = before;
    let tst_info = request.into_tst_info(policy, serial, gen_time, accuracy, ordering, None);
    match write_tst(alloc, &tst_info) {
        Ok(tst) => Ok(tst),
        Err(_) => Err(StoreFault::Memory),
    }
}
