//! What holds of what the program does.
ghost use Rattle.command_line.specs.declared.words.ContinueWords.{ContinueWords};
ghost use Rattle.console.specs.Files.{source_of};
ghost use Rattle.counter.specs.{Continuation.IsContinuedBy, Does.Does, Streams.Extent, Streams.Streams};
ghost use Rattle.operations.specs.Machine.{image_at, machine_of};
ghost use Rattle.operations.specs.OverFiles.{IsContinuedOver, IsFreeAt, TakesJourneys};

use cms::Signer;
use command_line::Word;
use connections::{Clock, SystemClock};
use console::FileSource;
use operations::{
    Disk, FileFrom, HostSigner, Paths, Start, Unknown, journeys_go_over_continuations,
};
use std::io::Write;
use std::rt::HostRuntime;

/// A journey goes over what the program does by `continue` (`exits` of `run_words`): each one to a history whose tables
/// the old files held goes on in the new database, and the old one is closed for good.
pub fn journeys_go_over_continue<F: Start + Drop, S: FileSource + Paths, O: Write>()
    ensures { (files : S) (s : Streams O) (words : ContinueWords) (extent : Extent)
        → Does (machine_of ⟦<FileFrom<F> as Disk>⟧ F.Start
        ⟦<HostSigner<'static> as Signer>⟧ ⟦<SystemClock<'static, HostRuntime> as Clock>⟧.reads)
        (IsContinuedBy (IsContinuedOver ⟦<FileFrom<F> as Disk>⟧ (image_at F.Start) ⟦<FileFrom<Unknown> as Disk>⟧)
        (IsFreeAt ⟦<FileFrom<Unknown> as Disk>⟧ (image_at ⟦<Unknown as Start>⟧) S.Paths files))
        (source_of S.opens S.refuses S.File.remaining files) s (Word.Continue words) extent
        → TakesJourneys ⟦<FileFrom<F> as Disk>⟧ (image_at F.Start) ⟦<FileFrom<Unknown> as Disk>⟧ }
{
    journeys_go_over_continuations::<FileFrom<F>, FileFrom<Unknown>>();
}
