//! The words `calibrate` and `hold`.
ghost use Rattle.std.specs.Prelude.{◌≡◌, ◌<◌, ◌≤◌, Err, IfOk, IfErr};
ghost use Rattle.book.specs.Values.{calibration_view, hold_view};
ghost use Rattle.console.specs.Fault.{IsStoreFault};
ghost use Rattle.operations.specs.Machine.{machine_of};
ghost use Rattle.counter.specs.{Calibration.Calibrates, Calibration.calibration_of, Hold.Holds, Hold.hold_of};

use book::{Calibration, Hold};
use cms::Signer;
use command_line::{CalibrateWords, HoldWords};
use connections::{Clock, SystemClock};
use console::{Fault, InputFault};
use operations::{Addition, Database, Disk, FileFrom, HostFiles, HostSigner, Start};
use std::alloc::Global;

/// Adds the calibration that the words state.
pub fn calibrate<F: Start + Drop>(
    alloc: Global,
    database: Database<'_, HostFiles<'_, F, HostRuntime>>,
    words: &CalibrateWords<'_>,
) -> Result<(), Fault>
    ensures added { IfOk result (λ _. Calibrates (machine_of ⟦<FileFrom<F> as Disk>⟧ F.Start
        ⟦<HostSigner<'static> as Signer>⟧ ⟦<SystemClock<'static, HostRuntime> as Clock>⟧.reads) words.now) }
    ensures faults { IfErr result IsStoreFault }
{
    let addition = Addition::Calibration(calibration_of(words));
    operations::add(alloc, database, &addition)?;
    Ok(())
}

/// Adds the hold that the words state. One that doesn't begin before it ends is `input` 3, before the database is
/// looked at.
pub fn hold<F: Start + Drop>(
    alloc: Global,
    database: Database<'_, HostFiles<'_, F, HostRuntime>>,
    words: &HoldWords<'_>,
) -> Result<(), Fault>
    ensures added { IfOk result (λ _. Holds (machine_of ⟦<FileFrom<F> as Disk>⟧ F.Start
        ⟦<HostSigner<'static> as Signer>⟧ ⟦<SystemClock<'static, HostRuntime> as Clock>⟧.reads) words.now) }
    ensures some { IfOk result (λ _. words.now.from < words.now.to) }
    ensures none { words.now.to ≤ words.now.from → result ≡ Err (Fault.Input InputFault.Hold) }
    ensures faults { words.now.from < words.now.to → IfErr result IsStoreFault }
{
    let addition = Addition::Hold(hold_of(words)?);
    operations::add(alloc, database, &addition)?;
    Ok(())
}

/// The calibration that the words state: the offset is minus their number where the flag is there.
pub fn calibration_of(words: &CalibrateWords<'_>) -> Calibration
    ensures { calibration_view result ≡ calibration_of words.now }
{
    let offset = words.offset as i64;
    Calibration {
        reading: words.reading as i64,
        offset: if words.behind { -offset } else { offset },
        uncertainty: words.uncertainty,
    }
}

/// The hold that the words state, and `Hold` where its first moment isn't before its end.
pub fn hold_of(words: &HoldWords<'_>) -> Result<Hold, InputFault>
    ensures stated { IfOk result (λ hold. hold_view hold ≡ hold_of words.now) }
    ensures some { IfOk result (λ _. words.now.from < words.now.to) }
    ensures none { IfErr result (λ fault. (fault ≡ InputFault.Hold) × (words.now.to ≤ words.now.from)) }
{
    if words.from < words.to {
        Ok(Hold {
            from: words.from as i64,
            to: words.to as i64,
        })
    } else {
        Err(InputFault::Hold)
    }
}
