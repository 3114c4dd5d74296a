//! The book: a list of entries is added in one commit, each look-up answers a view of the history.
ghost use Rattle.std.specs.Prelude.{◌≡◌, ◌↔◌, [], ◌∷◌, ◌+◌, ◌<◌, ◌≤◌, ◌^◌, false, map, length, reverse, None};
ghost use Rattle.std.specs.Prelude.{option_map, Ok, Err, IfOk, IfErr, IfSome, IsErr, OnOk, IsTrue};
ghost use Rattle.std.specs.Io.KnownBytes.{Keeps};
ghost use Rattle.book.specs.{Entries.entries_view, Entries.Appends, Shows.ShowsSame, Values.identity_view};
ghost use Rattle.book.specs.History.{History, Reserved, Sealed, Deposited, Calibrated, Held, Granted, Revoked};
ghost use Rattle.book.specs.History.{Installed, count_of_day, calibrations, holds, latest_calibration, is_held};
ghost use Rattle.book.specs.{History.deposit_under, Identities.identities, Stands.Stands, Stands.OnlyLooks};
ghost use Rattle.book.specs.{Stands.LeavesAsBefore, Fault.CountsFaults, Fault.IsOfStorage, Fault.IsOfStorageOr};
ghost use Rattle.book.specs.{Readers.Account, Readers.Group, Ranges.IsNextStamp, Ranges.IsWithin};
ghost use Rattle.book.specs.Rights.{is_own, is_visible, listed, deposit_with_stamp};
ghost use Rattle.book.specs.Sound.{IsSound, IsExhausted, IsBackwards, greatest_number};
ghost use Rattle.book.specs.Values.{reservation_view, calibration_view, hold_view, last_of, calibration_option};
ghost use Rattle.book.specs.Values.{deposit_of, stamped_view, listed_view, deposit_view, viewer_of, installed_of};

use crate::entries::{Entry, Reader};
use crate::fault::StoreFault;
use crate::limits::GREATEST_NUMBER;
use crate::rows::{Deposit, IdentityRow, Stamp};
use crate::standing::Standing;
use crate::values::{Calibration, Hold, Last, Listed, Reservation, StampedDeposit};
use std::io::Write;

/// The history of what the counter accepted, to which `append` alone adds.
///
/// A call refused with `Memory` or `Database` changes nothing that the book shows, and `faults` counts exactly the
/// refusals with `Database`. After a fault it may be shut; each later call is then refused, and where the fault came in
/// the commit itself, a later opening may find the change.
pub trait Book: Standing {
    /// The greatest serial number and the last genTime that were reserved.
    fn last(&mut self) -> Result<Last, StoreFault>
        ensures looks { OnlyLooks Self.Standing self.old self.new }
        ensures opened { Self.honest self.new → OnOk result (Self.is_open self.old) }
        ensures value { Self.honest self.new → (b : History) → Stands Self.Standing b self.old
            → IfOk result (λ last. last ≡ last_of b) }
        ensures refusals { IfErr result IsOfStorage }
        ensures faults { CountsFaults result (Self.fault_count self.old) (Self.fault_count self.new) };

    /// How many stamps the account has reserved on a day, counted from 1970-01-01 in UTC: those that never got their
    /// token too.
    fn count_of_day(&mut self, account: &str, day: u64) -> Result<u64, StoreFault>
        ensures looks { OnlyLooks Self.Standing self.old self.new }
        ensures opened { Self.honest self.new → OnOk result (Self.is_open self.old) }
        ensures value { Self.honest self.new → (b : History) → Stands Self.Standing b self.old
            → IfOk result (λ count. count ≡ count_of_day account.now day b) }
        ensures refusals { IfErr result IsOfStorage }
        ensures faults { CountsFaults result (Self.fault_count self.old) (Self.fault_count self.new) };

    /// The latest calibration, if any.
    fn calibration(&mut self) -> Result<Option<Calibration>, StoreFault>
        ensures looks { OnlyLooks Self.Standing self.old self.new }
        ensures opened { Self.honest self.new → OnOk result (Self.is_open self.old) }
        ensures value { Self.honest self.new → (b : History) → Stands Self.Standing b self.old
            → IfOk result (λ found. calibration_option found ≡ latest_calibration b) }
        ensures refusals { IfErr result IsOfStorage }
        ensures faults { CountsFaults result (Self.fault_count self.old) (Self.fault_count self.new) };

    /// Whether a moment is held, in microseconds since 1970-01-01T00:00:00Z.
    fn held_at(&mut self, now: i64) -> Result<bool, StoreFault>
        ensures looks { OnlyLooks Self.Standing self.old self.new }
        ensures opened { Self.honest self.new → OnOk result (Self.is_open self.old) }
        ensures value { Self.honest self.new → (b : History) → Stands Self.Standing b self.old
            → IfOk result (λ held. held ≡ is_held now b) }
        ensures refusals { IfErr result IsOfStorage }
        ensures faults { CountsFaults result (Self.fault_count self.old) (Self.fault_count self.new) };

    /// The deposit with a number, and its stamp, if there is one. A number above 2^63 - 1 is no deposit's, and what
    /// keeps the book isn't asked for it.
    fn deposit(&mut self, number: u64) -> Result<Option<StampedDeposit>, StoreFault>
        ensures looks { OnlyLooks Self.Standing self.old self.new }
        ensures beyond { greatest_number < number → (result ≡ Ok None) × (self.new ≡ self.old) }
        ensures opened { Self.honest self.new → number ≤ greatest_number → OnOk result (Self.is_open self.old) }
        ensures value { Self.honest self.new → (b : History) → Stands Self.Standing b self.old
            → IfOk result (λ found. option_map stamped_view found ≡ deposit_with_stamp number b) }
        ensures refusals { IfErr result IsOfStorage }
        ensures faults { CountsFaults result (Self.fault_count self.old) (Self.fault_count self.new) };

    /// Whether there is a deposit with a number that the account sees, as its owner, or as a reader, by its own name or
    /// in one of the groups that are named. No deposit's bytes are read. A number above 2^63 - 1 is no deposit's, and
    /// what keeps the book isn't asked for it.
    fn visible(&mut self, number: u64, account: &str, groups: &[&str]) -> Result<bool, StoreFault>
        ensures looks { OnlyLooks Self.Standing self.old self.new }
        ensures beyond { greatest_number < number → (result ≡ Ok false) × (self.new ≡ self.old) }
        ensures opened { Self.honest self.new → number ≤ greatest_number → OnOk result (Self.is_open self.old) }
        ensures value { Self.honest self.new → (b : History) → Stands Self.Standing b self.old
            → IfOk result (λ visible.
            visible ≡ is_visible (viewer_of account.now (map (λ name. name.now) groups.now)) number b) }
        ensures refusals { IfErr result IsOfStorage }
        ensures faults { CountsFaults result (Self.fault_count self.old) (Self.fault_count self.new) };

    /// Whether there is a deposit with a number that the account owns. No deposit's bytes are read. A number above
    /// 2^63 - 1 is no deposit's, and what keeps the book isn't asked for it.
    fn is_owner(&mut self, number: u64, account: &str) -> Result<bool, StoreFault>
        ensures looks { OnlyLooks Self.Standing self.old self.new }
        ensures beyond { greatest_number < number → (result ≡ Ok false) × (self.new ≡ self.old) }
        ensures opened { Self.honest self.new → number ≤ greatest_number → OnOk result (Self.is_open self.old) }
        ensures value { Self.honest self.new → (b : History) → Stands Self.Standing b self.old
            → IfOk result (λ owns. owns ≡ is_own account.now number b) }
        ensures refusals { IfErr result IsOfStorage }
        ensures faults { CountsFaults result (Self.fault_count self.old) (Self.fault_count self.new) };

    /// The deposit of an owner under a reference, if there is one.
    fn by_reference(&mut self, owner: &str, reference: &str) -> Result<Option<Deposit>, StoreFault>
        ensures looks { OnlyLooks Self.Standing self.old self.new }
        ensures opened { Self.honest self.new → OnOk result (Self.is_open self.old) }
        ensures value { Self.honest self.new → (b : History) → Stands Self.Standing b self.old
            → IfOk result (λ found. option_map deposit_view found ≡ deposit_under owner.now reference.now b) }
        ensures refusals { IfErr result IsOfStorage }
        ensures faults { CountsFaults result (Self.fault_count self.old) (Self.fault_count self.new) };

    /// The deposits that an account sees, as their owner, or as a reader, by its own name or in one of the groups that
    /// are named; by number, each once. No deposit's bytes are read.
    ///
    /// Before a row is looked up, the output may be flushed, and nothing is written to it. Where that fails, as where
    /// the output's time is up, the list is given up, and refused with `Memory`.
    fn list<W: Write>(
        &mut self,
        account: &str,
        groups: &[&str],
        output: &mut W,
    ) -> Result<Vec<Listed>, StoreFault>
        ensures looks { OnlyLooks Self.Standing self.old self.new }
        ensures opened { Self.honest self.new → OnOk result (Self.is_open self.old) }
        ensures value { Self.honest self.new → (b : History) → Stands Self.Standing b self.old
            → IfOk result (λ rows. map listed_view rows.items
            ≡ listed (viewer_of account.now (map (λ name. name.now) groups.now)) b) }
        ensures unwritten { Keeps (W.contents output.old) (W.contents output.new) }
        ensures refusals { IfErr result IsOfStorage }
        ensures faults { CountsFaults result (Self.fault_count self.old) (Self.fault_count self.new) };

    /// The identities that were installed, by number.
    fn identities(&mut self) -> Result<Vec<IdentityRow>, StoreFault>
        ensures looks { OnlyLooks Self.Standing self.old self.new }
        ensures opened { Self.honest self.new → OnOk result (Self.is_open self.old) }
        ensures value { Self.honest self.new → (b : History) → Stands Self.Standing b self.old
            → IfOk result (λ rows. map identity_view rows.items ≡ identities b) }
        ensures refusals { IfErr result IsOfStorage }
        ensures faults { CountsFaults result (Self.fault_count self.old) (Self.fault_count self.new) };

    /// The stamp with the least serial number from `from` on and up to `to`.
    fn next_stamp(&mut self, from: u64, to: u64) -> Result<Option<Stamp>, StoreFault>
        ensures looks { OnlyLooks Self.Standing self.old self.new }
        ensures opened { Self.honest self.new → IfOk result (λ found. IfSome found (λ _. Self.is_open self.old)) }
        ensures value { Self.honest self.new → (b : History) → Stands Self.Standing b self.old
            → IfOk result (IsNextStamp from to b) }
        ensures within { IfOk result (λ found. IfSome found (λ stamp. IsWithin from to stamp.serial)) }
        ensures small { IfOk result (λ found. IfSome found (λ stamp. stamp.serial < 2 ^ 63)) }
        ensures refusals { IfErr result IsOfStorage }
        ensures faults { CountsFaults result (Self.fault_count self.old) (Self.fault_count self.new) };

    /// All calibrations, in the order in which they were added.
    fn calibrations(&mut self) -> Result<Vec<Calibration>, StoreFault>
        ensures looks { OnlyLooks Self.Standing self.old self.new }
        ensures opened { Self.honest self.new → OnOk result (Self.is_open self.old) }
        ensures value { Self.honest self.new → (b : History) → Stands Self.Standing b self.old
            → IfOk result (λ found. map calibration_view found.items ≡ reverse (calibrations b)) }
        ensures refusals { IfErr result IsOfStorage }
        ensures faults { CountsFaults result (Self.fault_count self.old) (Self.fault_count self.new) };

    /// All holds, in the order in which they were added.
    fn holds(&mut self) -> Result<Vec<Hold>, StoreFault>
        ensures looks { OnlyLooks Self.Standing self.old self.new }
        ensures opened { Self.honest self.new → OnOk result (Self.is_open self.old) }
        ensures value { Self.honest self.new → (b : History) → Stands Self.Standing b self.old
            → IfOk result (λ found. map hold_view found.items ≡ reverse (holds b)) }
        ensures refusals { IfErr result IsOfStorage }
        ensures faults { CountsFaults result (Self.fault_count self.old) (Self.fault_count self.new) };

    /// How many calibrations there are.
    fn calibration_count(&mut self) -> Result<u64, StoreFault>
        ensures looks { OnlyLooks Self.Standing self.old self.new }
        ensures opened { Self.honest self.new → OnOk result (Self.is_open self.old) }
        ensures value { Self.honest self.new → (b : History) → Stands Self.Standing b self.old
            → IfOk result (λ count. count ≡ length (calibrations b)) }
        ensures small { IfOk result (λ count. count < 2 ^ 63) }
        ensures refusals { IfErr result IsOfStorage }
        ensures faults { CountsFaults result (Self.fault_count self.old) (Self.fault_count self.new) };

    /// How many holds there are.
    fn hold_count(&mut self) -> Result<u64, StoreFault>
        ensures looks { OnlyLooks Self.Standing self.old self.new }
        ensures opened { Self.honest self.new → OnOk result (Self.is_open self.old) }
        ensures value { Self.honest self.new → (b : History) → Stands Self.Standing b self.old
            → IfOk result (λ count. count ≡ length (holds b)) }
        ensures small { IfOk result (λ count. count < 2 ^ 63) }
        ensures refusals { IfErr result IsOfStorage }
        ensures faults { CountsFaults result (Self.fault_count self.old) (Self.fault_count self.new) };

    /// Adds entries, the first of them first, all in one commit. The caller's condition is that each fits the history
    /// before it.
    fn append(&mut self, entries: &[Entry<'_>]) -> Result<(), StoreFault>
        requires { 0 < length entries.now }
        ensures appends { Appends Self.Standing (entries_view entries.now) self.old self.new result }
        ensures refusals { IfErr result IsOfStorage };

    /// For proofs alone: a book that stands for a history stands for each sound one that shows the same. So a right
    /// that is given to whom it was given before, or taken from whom it wasn't given, changes nothing.
    fn tell_the_same(&self)
        ensures { (b d : History) → Stands Self.Standing b self.now → IsSound d → ShowsSame b d
            → Stands Self.Standing d self.now };

    /// Reserves a stamp, which counts on its UTC day from now on, whether it is sealed or not. The caller's condition
    /// is that its serial number is above the greatest, where that is less than 2^63 - 1. Refused with `Full`, and
    /// nothing is added, where the greatest is 2^63 - 1.
    final fn reserve(&mut self, reservation: &Reservation<'_>) -> Result<(), StoreFault>
        ensures appends { Appends Self.Standing (Reserved (reservation_view reservation.now) ∷ []) self.old self.new
            result }
        ensures full { Self.honest self.new → (b : History) → Stands Self.Standing b self.old
            → result ≡ Err StoreFault.Full → IsExhausted b }
        ensures exhausted { Self.honest self.new → (b : History) → Stands Self.Standing b self.old → IsExhausted b
            → IsErr result × LeavesAsBefore Self.Standing self.old self.new }
        ensures refusals { IfErr result (IsOfStorageOr StoreFault.Full) }
    {
        let last = self.last()?;
        if last.serial == GREATEST_NUMBER {
            return Err(StoreFault::Full);
        }
        self.append(&[Entry::Reserved(*reservation)])
    }

    /// Stores the token of a serial number. The caller's condition is that the number is reserved and not sealed.
    final fn seal(&mut self, serial: u64, token: &[u8]) -> Result<(), StoreFault>
        ensures appends { Appends Self.Standing (Sealed serial token.now ∷ []) self.old self.new result }
        ensures refusals { IfErr result IsOfStorage }
    {
        self.append(&[Entry::Sealed { serial, token }])
    }

    /// Stores a deposit and its token in one commit, which seals its serial number: that is the deposit's number from
    /// now on. The caller's condition is that it is reserved for the owner and not sealed, and that the owner hasn't
    /// used the reference.
    final fn seal_deposit(
        &mut self,
        serial: u64,
        token: &[u8],
        owner: &str,
        reference: &str,
        bytes: &[u8],
    ) -> Result<(), StoreFault>
        ensures appends { Appends Self.Standing
            (Deposited (deposit_of serial owner.now reference.now bytes.now) token.now ∷ []) self.old self.new result }
        ensures refusals { IfErr result IsOfStorage }
    {
        self.append(&[Entry::Deposited {
            serial,
            token,
            owner,
            reference,
            bytes,
        }])
    }

    /// Lets an account read a deposit, from now on. The caller's condition is that the number is a deposit's.
    final fn grant(&mut self, number: u64, account: &str) -> Result<(), StoreFault>
        ensures appends { Appends Self.Standing (Granted number (Account account.now) ∷ []) self.old self.new result }
        ensures refusals { IfErr result IsOfStorage }
    {
        let reader = Reader::Account(account);
        self.append(&[Entry::Granted { number, reader }])
    }

    /// Takes the right to read a deposit from an account, from now on. The caller's condition is that the number is a
    /// deposit's.
    final fn revoke(&mut self, number: u64, account: &str) -> Result<(), StoreFault>
        ensures appends { Appends Self.Standing (Revoked number (Account account.now) ∷ []) self.old self.new result }
        ensures refusals { IfErr result IsOfStorage }
    {
        let reader = Reader::Account(account);
        self.append(&[Entry::Revoked { number, reader }])
    }

    /// Lets each member of a group read a deposit, from now on. The caller's condition is that the number is a
    /// deposit's.
    final fn grant_group(&mut self, number: u64, name: &str) -> Result<(), StoreFault>
        ensures appends { Appends Self.Standing (Granted number (Group name.now) ∷ []) self.old self.new result }
        ensures refusals { IfErr result IsOfStorage }
    {
        let reader = Reader::Group(name);
        self.append(&[Entry::Granted { number, reader }])
    }

    /// Takes the right to read a deposit from a group, from now on. The caller's condition is that the number is a
    /// deposit's.
    final fn revoke_group(&mut self, number: u64, name: &str) -> Result<(), StoreFault>
        ensures appends { Appends Self.Standing (Revoked number (Group name.now) ∷ []) self.old self.new result }
        ensures refusals { IfErr result IsOfStorage }
    {
        let reader = Reader::Group(name);
        self.append(&[Entry::Revoked { number, reader }])
    }

    /// Adds a calibration, which is the latest from now on. The caller's condition is an uncertainty of at most 10^12.
    /// Refused with `Backwards` where its reading is before that of the latest. The answer is its number: calibrations
    /// count 1, 2, 3 and so on.
    final fn calibrate(&mut self, calibration: &Calibration) -> Result<u64, StoreFault>
        ensures appends { Appends Self.Standing (Calibrated (calibration_view calibration.now) ∷ []) self.old self.new
            result }
        ensures number { Self.honest self.new → (b : History) → Stands Self.Standing b self.old
            → IfOk result (λ number. number ≡ length (calibrations b) + 1) }
        ensures backwards { Self.honest self.new → (b : History) → Stands Self.Standing b self.old
            → result ≡ Err StoreFault.Backwards
            → IsBackwards (calibration_view calibration.now) (latest_calibration b) }
        ensures refused { Self.honest self.new → (b : History) → Stands Self.Standing b self.old
            → IsBackwards (calibration_view calibration.now) (latest_calibration b)
            → IsErr result × LeavesAsBefore Self.Standing self.old self.new }
        ensures refusals { IfErr result (IsOfStorageOr StoreFault.Backwards) }
    {
        let latest = self.calibration()?;
        if is_before(calibration, latest) {
            return Err(StoreFault::Backwards);
        }
        let count = self.calibration_count()?;
        self.append(&[Entry::Calibrated(*calibration)])?;
        Ok(count + 1)
    }

    /// Adds a hold. The caller's condition is that its first moment is before its end. The answer is its number: holds
    /// count 1, 2, 3 and so on.
    final fn hold(&mut self, hold: &Hold) -> Result<u64, StoreFault>
        ensures appends { Appends Self.Standing (Held (hold_view hold.now) ∷ []) self.old self.new result }
        ensures number { Self.honest self.new → (b : History) → Stands Self.Standing b self.old
            → IfOk result (λ number. number ≡ length (holds b) + 1) }
        ensures refusals { IfErr result IsOfStorage }
    {
        let count = self.hold_count()?;
        self.append(&[Entry::Held(*hold)])?;
        Ok(count + 1)
    }

    /// Installs an identity, which is in force from now on: the signer's certificate, and the further certificates of
    /// its chain, one after the other. They are kept as they are handed in.
    final fn install(&mut self, certificate: &[u8], chain: &[u8]) -> Result<(), StoreFault>
        ensures appends { Appends Self.Standing (Installed (installed_of certificate.now chain.now) ∷ []) self.old
            self.new result }
        ensures refusals { IfErr result IsOfStorage }
    {
        self.append(&[Entry::Installed { certificate, chain }])
    }

    /// How many calls were refused for another cause than memory, modulo 2^64. Takes no memory.
    fn faults(&self) -> u64
        ensures { result ≡ Self.fault_count self.now };
}

/// Whether the reading is before that of the latest calibration.
fn is_before(calibration: &Calibration, latest: Option<Calibration>) -> bool
    ensures { IsTrue result ↔ IsBackwards (calibration_view calibration.now) (calibration_option latest) }
{
    match latest {
        Some(latest) => calibration.reading < latest.reading,
        None => false,
    }
}
