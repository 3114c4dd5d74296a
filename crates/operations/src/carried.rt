//! What a history is carried on with, and with which entries a new book begins.
ghost use Rattle.std.specs.Prelude.{◌≡◌, [], ◌∷◌, ◌++◌, map, option_map, OnOk, IfOk, IsTrue};
ghost use Rattle.book.specs.Values.{calibration_option, hold_view, identity_view, reservation_view, stamp_view};
ghost use Rattle.book.specs.{Continuation.entry_if, Continuation.holds_all, Entries.entries_view, History.Calibrated};
ghost use Rattle.operations.specs.Continuation.{entries_of, entries_of_hold, entries_of_holds, entries_of_identity};
ghost use Rattle.operations.specs.Continuation.{entries_of_last, entries_of_sealed, entries_of_stamp};
ghost use Rattle.operations.specs.Continuation.{identity_since_among, latest_of};
ghost use Rattle.operations.specs.VoidStamp.{reserved_as, void_view};

use crate::void_stamp::VoidStamp;
use audit::identity_at;
use book::{Calibration, Entry, Hold, IdentityRow, Reservation, Stamp};
use std::alloc::{AllocError, Global};

/// What is carried on from a book.
#[derive(Drop)]
pub(crate) struct Carried {
    /// The latest calibration.
    pub calibration: Option<Calibration>,
    /// All holds, in the order in which they were added.
    pub holds: Vec<Hold>,
    /// The last stamp.
    pub stamp: Option<Stamp>,
    /// The identities that were installed, by number.
    pub identities: Vec<IdentityRow>,
    /// What comes in place of the last stamp, if anything does.
    pub void: Option<VoidStamp>,
}

impl Carried {
    /// The entries with which a new book begins, the first of them first. An error where memory runs out.
    pub fn entries(&self, alloc: Global) -> Result<Vec<Entry<'_>>, AllocError>
        ensures { IfOk result (λ entries. entries_view entries.items ≡ entries_of self.now) }
    {
        let stamp = self.stamp.as_ref();
        let identities = self.identities.as_slice();
        let mut entries = Vec::new(alloc);
        add_calibration(&mut entries, self.calibration)?;
        add_holds(&mut entries, self.holds.as_slice())?;
        add_last(&mut entries, stamp, self.void.as_ref(), identities)?;
        add_identity(&mut entries, identity_since(stamp, identities))?;
        Ok(entries)
    }
}

fn add_calibration(
    entries: &mut Vec<Entry<'_>>,
    calibration: Option<Calibration>,
) -> Result<(), AllocError>
    ensures { OnOk result (entries_view entries.new.items
        ≡ entries_view entries.old.items ++ entry_if Calibrated (calibration_option calibration)) }
{
    match calibration {
        Some(calibration) => add(entries, Entry::Calibrated(calibration)),
        None => Ok(()),
    }
}

/// Adds the holds but those of all moments.
fn add_holds(entries: &mut Vec<Entry<'_>>, holds: &[Hold]) -> Result<(), AllocError>
    ensures { OnOk result (entries_view entries.new.items
        ≡ entries_view entries.old.items ++ entries_of_holds (map hold_view holds.now)) }
{
    for hold in holds {
        add_hold(entries, hold)?;
    }
    Ok(())
}

fn add_hold(entries: &mut Vec<Entry<'_>>, hold: &Hold) -> Result<(), AllocError>
    ensures { OnOk result (entries_view entries.new.items
        ≡ entries_view entries.old.items ++ entries_of_hold (hold_view hold.now)) }
{
    if holds_all(hold) {
        return Ok(());
    }
    add(entries, Entry::Held(*hold))
}

/// Whether a hold has all moments.
pub(crate) fn holds_all(hold: &Hold) -> bool
    ensures { result ≡ holds_all (hold_view hold.now) }
{
    hold.from <= 0 && hold.to == i64::MAX
}

/// Adds the last stamp or the void one in its place, behind the identity that was in force when it was reserved.
fn add_last<'a>(
    entries: &mut Vec<Entry<'a>>,
    stamp: Option<&'a Stamp>,
    void: Option<&'a VoidStamp>,
    identities: &'a [IdentityRow],
) -> Result<(), AllocError>
    ensures { OnOk result (entries_view entries.new.items ≡ entries_view entries.old.items
        ++ entries_of_last (option_map (λ v. void_view v.now) void.entry)
        (option_map (λ s. stamp_view s.now) stamp.entry) (map identity_view identities.now)) }
{
    let Some(stamp) = stamp else {
        return Ok(());
    };
    add_identity(entries, identity_at(identities, stamp.serial))?;
    add_stamp(entries, stamp, void)
}

/// Adds a stamp as it stands, or the void one in its place.
fn add_stamp<'a>(
    entries: &mut Vec<Entry<'a>>,
    stamp: &'a Stamp,
    void: Option<&'a VoidStamp>,
) -> Result<(), AllocError>
    ensures { OnOk result (entries_view entries.new.items ≡ entries_view entries.old.items
        ++ entries_of_stamp (option_map (λ v. void_view v.now) void.entry) (stamp_view stamp.now)) }
{
    match void {
        Some(void) => add(entries, Entry::Reserved(void.reservation(stamp))),
        None => add_sealed(entries, stamp),
    }
}

fn add_identity<'a>(
    entries: &mut Vec<Entry<'a>>,
    identity: Option<&'a IdentityRow>,
) -> Result<(), AllocError>
    ensures { OnOk result (entries_view entries.new.items ≡ entries_view entries.old.items
        ++ entries_of_identity (option_map (λ i. identity_view i.now) identity.entry)) }
{
    match identity {
        Some(identity) => add(
            entries,
            Entry::Installed {
                certificate: identity.certificate.as_slice(),
                chain: identity.chain.as_slice(),
            },
        ),
        None => Ok(()),
    }
}

/// The latest identity, where it was installed since the stamp was reserved.
fn identity_since<'a>(
    stamp: Option<&Stamp>,
    identities: &'a [IdentityRow],
) -> Option<&'a IdentityRow>
    ensures { option_map (λ i. identity_view i.now) result
        ≡ identity_since_among (option_map (λ s. stamp_view s.now) stamp.entry)
        (latest_of (map identity_view identities.now)) }
{
    let Some(latest) = identities.last() else {
        return None;
    };
    match stamp {
        Some(stamp) if latest.after_serial < stamp.serial => None,
        _ => Some(latest),
    }
}

/// Adds a stamp as it stands, with its token where it has one.
fn add_sealed<'a>(entries: &mut Vec<Entry<'a>>, stamp: &'a Stamp) -> Result<(), AllocError>
    ensures { OnOk result (entries_view entries.new.items
        ≡ entries_view entries.old.items ++ entries_of_sealed (stamp_view stamp.now)) }
{
    add(entries, Entry::Reserved(reservation_of(stamp)))?;
    match &stamp.token {
        Some(token) => add(
            entries,
            Entry::Sealed {
                serial: stamp.serial,
                token: token.as_slice(),
            },
        ),
        None => Ok(()),
    }
}

fn reservation_of(stamp: &Stamp) -> Reservation<'_>
    ensures { reservation_view result ≡ reserved_as (stamp_view stamp.now) }
{
    Reservation {
        serial: stamp.serial,
        account: stamp.account.as_str(),
        gen_time: stamp.gen_time,
        policy: stamp.policy.as_slice(),
        algorithm: stamp.algorithm.as_slice(),
        digest: stamp.digest.as_slice(),
        request: stamp.request.as_slice(),
        tst: stamp.tst.as_slice(),
    }
}

fn add<'a>(entries: &mut Vec<Entry<'a>>, entry: Entry<'a>) -> Result<(), AllocError>
    ensures { OnOk result (entries_view entries.new.items
        ≡ entries_view entries.old.items ++ entries_view (entry.entry ∷ [])) }
{
    entries.push(entry)?;
    Ok(())
}
