//! The word `continue`.
ghost use Rattle.std.specs.Prelude.{◌≡◌, IfErr, OnOk};
ghost use Rattle.operations.specs.OverFiles.{IsContinuedOver, IsFreeAt, IsRefusedBy};
ghost use Rattle.operations.specs.{Continuation.HasBegun, DatabaseFaults.IsOpeningFault, Machine.image_at};
ghost use Rattle.counter.specs.{Continuation.floor_of, Fault.fault_of_continuation};

use crate::fault::fault_of_continuation;
use command_line::ContinueWords;
use console::Fault;
use operations::{
    ContinuationFault, Database, Disk, FileFrom, Floor, HostFiles, Paths, Start, Unknown,
};
use std::alloc::Global;

/// Closes a database for tokens, and has its history go on in a new one, above what the words state. It is `input` 9
/// where that doesn't come after the last stamp, or there is none.
pub fn continue_in<F: Start + Drop, N: Start + Drop, P: Paths>(
    alloc: Global,
    old: Database<'_, HostFiles<'_, F, HostRuntime>>,
    new: Database<'_, HostFiles<'_, N, P>>,
    words: &ContinueWords<'_>,
) -> Result<(), Fault>
    ensures continued { OnOk result (IsContinuedOver ⟦<FileFrom<F> as Disk>⟧ (image_at F.Start)
        ⟦<FileFrom<N> as Disk>⟧ (floor_of words.now)) }

    // The new path was found free.
    ensures free { OnOk result (IsFreeAt ⟦<FileFrom<Unknown> as Disk>⟧ (image_at ⟦<Unknown as Start>⟧) P.Paths
        new.entry.files.paths.now new.entry.path.now) }

    // By the refusal, what was done to the old database, which was closed only where the new path was found free.
    ensures refused { IfErr result (λ fault. (refusal : ContinuationFault) × (fault ≡ fault_of_continuation refusal)
        × IsRefusedBy ⟦<FileFrom<F> as Disk>⟧ (image_at F.Start) IsOpeningFault (floor_of words.now) refusal
        × (HasBegun refusal → IsFreeAt ⟦<FileFrom<Unknown> as Disk>⟧ (image_at ⟦<Unknown as Start>⟧) P.Paths
        new.entry.files.paths.now new.entry.path.now)) }
{
    match operations::continue_in(alloc, old, new, floor_of(words)) {
        Ok(()) => Ok(()),
        Err(refusal) => Err(fault_of_continuation(refusal)),
    }
}

/// Above what the history goes on, where the words state it.
fn floor_of(words: &ContinueWords<'_>) -> Option<Floor>
    ensures { result ≡ floor_of words.now }
{
    let floor = words.floor?;
    Some(Floor {
        serial: floor.above,
        gen_time: floor.moment,
    })
}
