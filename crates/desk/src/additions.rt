//! Calibrations and holds: what an operator adds.

ghost use Rattle.std.specs.Prelude.{◌≡◌, Err, IfErr, IsErr};
ghost use Rattle.book.specs.Fault.{CountsFaults, IsOfStorage, IsOfStorageOr};
ghost use Rattle.book.specs.History.{History, latest_calibration};
ghost use Rattle.book.specs.{Sound.IsBackwards, Stands.Stands, Values.calibration_view, Values.hold_view};
ghost use Rattle.desk.specs.auxiliary.Obstacles.{adding, outcome_with, told_with};
ghost use Rattle.desk.specs.{Answers.entered, CallContract.StepsBy, CallContract.IsStep, CallContract.no_signer};
ghost use Rattle.desk.specs.{Command.Setting, Command.Calibrate, Command.Hold as AddHold, Shown.numbered_as};

use crate::desk::Desk;
use crate::laws::steps_keep_their_promises;
use crate::obstacle::Obstacle;
use book::{Book, Calibration, Hold, StoreFault};

/// Adds a calibration of the clock, and tells why the store refuses it.
fn add_calibration<B: Book + Drop>(
    store: &mut B,
    calibration: &Calibration,
) -> Result<u64, StoreFault>
    ensures honest { B.honest store.new → B.honest store.old }
    ensures step { (s : Setting) → StepsBy B.Standing no_signer s (Calibrate (calibration_view calibration.now))
        (outcome_with (adding result)) store.old store.new (told_with numbered_as (adding result)) }
    ensures backwards { B.honest store.new → (b : History) → Stands B.Standing b store.old
        → result ≡ Err StoreFault.Backwards
        → IsBackwards (calibration_view calibration.now) (latest_calibration b) }
    ensures refused { B.honest store.new → (b : History) → Stands B.Standing b store.old
        → IsBackwards (calibration_view calibration.now) (latest_calibration b) → IsErr result }
    ensures refusals { IfErr result (IsOfStorageOr StoreFault.Backwards) }
    ensures faults { CountsFaults result (B.fault_count store.old) (B.fault_count store.new) }
{
    store.calibrate(calibration)
}

/// Adds a hold, and tells why the store refuses it.
fn add_hold<B: Book + Drop>(store: &mut B, hold: &Hold) -> Result<u64, StoreFault>
    ensures honest { B.honest store.new → B.honest store.old }
    ensures step { (s : Setting) → StepsBy B.Standing no_signer s (AddHold (hold_view hold.now))
        (outcome_with (adding result)) store.old store.new (told_with numbered_as (adding result)) }
    ensures refusals { IfErr result IsOfStorage }
    ensures faults { CountsFaults result (B.fault_count store.old) (B.fault_count store.new) }
{
    store.hold(hold)
}

/// Adds a calibration of the clock.
pub(crate) fn calibrate_by<B: Book + Drop>(
    store: &mut B,
    calibration: &Calibration,
) -> Result<u64, Obstacle>
    ensures honest { B.honest store.new → B.honest store.old }
    ensures step { (s : Setting) → StepsBy B.Standing no_signer s (Calibrate (calibration_view calibration.now))
        (outcome_with result) store.old store.new (told_with numbered_as result) }
{
    add_calibration(store, calibration).map_err(Obstacle::Adding)
}

/// Adds a hold.
pub(crate) fn hold_by<B: Book + Drop>(store: &mut B, hold: &Hold) -> Result<u64, Obstacle>
    ensures honest { B.honest store.new → B.honest store.old }
    ensures step { (s : Setting) → StepsBy B.Standing no_signer s (AddHold (hold_view hold.now)) (outcome_with result)
        store.old store.new (told_with numbered_as result) }
{
    add_hold(store, hold).map_err(Obstacle::Adding)
}

impl<'p, B: Book + Drop> Desk<'p, B> {
    /// Adds a calibration of the clock, which is the latest from now on, and answers its number: they count 1, 2, 3 and
    /// so on. The caller's condition is an uncertainty of at
    /// most 10^12 microseconds. Refused with `Backwards` where its reading is before that of the latest, which the
    /// machine calls a refusal of the store; else with `Memory` or `Database`, where it is met.
    pub fn calibrate(&mut self, calibration: &Calibration) -> Result<u64, StoreFault>
        ensures honest { B.honest self.new.store → B.honest self.old.store }
        ensures step { IsStep B.Standing no_signer (Calibrate (calibration_view calibration.now))
            self.old self.new (entered result) }
        ensures backwards { B.honest self.new.store → (b : History) → Stands B.Standing b self.old.store
            → result ≡ Err StoreFault.Backwards
            → IsBackwards (calibration_view calibration.now) (latest_calibration b) }
        ensures refused { B.honest self.new.store → (b : History) → Stands B.Standing b self.old.store
            → IsBackwards (calibration_view calibration.now) (latest_calibration b) → IsErr result }
        ensures refusals { IfErr result (IsOfStorageOr StoreFault.Backwards) }
        ensures faults { CountsFaults result (B.fault_count self.old.store) (B.fault_count self.new.store) }
    {
        steps_keep_their_promises();
        add_calibration(&mut self.store, calibration)
    }

    /// Adds a hold: moments at which no token is given, from now on; and answers its number: they count 1, 2, 3 and so
    /// on. The caller's condition is that its first moment is
    /// before its end. Refused with `Memory` or `Database`, where it is met.
    pub fn hold(&mut self, hold: &Hold) -> Result<u64, StoreFault>
        ensures honest { B.honest self.new.store → B.honest self.old.store }
        ensures step { IsStep B.Standing no_signer (AddHold (hold_view hold.now)) self.old self.new (entered result) }
        ensures refusals { IfErr result IsOfStorage }
        ensures faults { CountsFaults result (B.fault_count self.old.store) (B.fault_count self.new.store) }
    {
        steps_keep_their_promises();
        add_hold(&mut self.store, hold)
    }
}
