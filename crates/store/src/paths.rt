//! What stands at paths.
ghost use Rattle.std.specs.Prelude.{ℕ, List, IfOk, IfErr, OnOk};
ghost use Rattle.store.specs.declared.paths.FileState.{FileState as SpecState};
ghost use Rattle.book.specs.Fault.{IsOfStorage};

use book::StoreFault;
use std::rt::HostRuntime;

/// What stands at a path.
#[derive(Clone, Copy)]
pub enum FileState {
    /// No file.
    Nothing,
    /// A file of no octets.
    Empty,
    /// A file that begins as a database does, or one whose log holds octets.
    Database,
    /// Another file.
    Other,
}

/// A machine with files at paths. It may tell what is seen there; what is proved over all is proved of those that tell,
/// and no code can know one from another.
pub trait Paths {
    // this was seen at the path
    ghost sees: { Self → List ℕ → SpecState → Type 0 } = { λ _ _ _. Unit {0} };

    // it was tried at the path whether a file can be made
    ghost makes: { Self → List ℕ → Type 0 } = { λ _ _. Unit {0} };

    /// Its system.
    fn system(&self) -> &HostRuntime;

    /// What stands at the path. Refused with `Database` where it can't be read or isn't a file, and with `Memory` where
    /// memory runs out.
    fn look(&self, path: &str) -> Result<FileState, StoreFault>
        ensures seen { IfOk result (sees self.now path.now) }
        ensures refusals { IfErr result IsOfStorage };

    /// Whether a file can be made at a path where none stands: one is made, and taken away again. Refused as `look` is.
    fn try_making(&self, path: &str) -> Result<(), StoreFault>
        ensures made { OnOk result (makes self.now path.now) }
        ensures refusals { IfErr result IsOfStorage };
}
