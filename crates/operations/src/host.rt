//! What this machine gives: the files of its databases, and the signers that it reaches.
ghost use Rattle.std.specs.Prelude.{◌≡◌, IfErr, IfOk};
ghost use Rattle.store.specs.Files.{IsFreeAt, image_at};
ghost use Rattle.operations.specs.{DatabaseFaults.IsOpeningFault, DatabaseFaults.IsUnreached, OverFiles.IsAny};
ghost use Rattle.operations.specs.{OverFiles.IsClosedAs, OverFiles.IsReached, SignerSource.IsOfKind};
ghost use Rattle.operations.specs.{SignerSource.algorithm_of};

use crate::database::{DatabaseFiles, OpenDatabase};
use crate::fault::OperationFault;
use crate::signers::{AnySigner, HostSigner, Signers};
use book::Entry;
use cms::{Algorithm, KeyedHash, Signer};
use sessions::{SIGNER_SECONDS, connect_reconnecting, connect_signer};
use sqlite::{FileFrom, FileStore, Start, Unknown};
use sqlite_disk::{Disk, Files};
use std::time::Duration;
use store::{Paths, Store, StoreFault, may_make_at};

/// The files of one database of this machine, before they are opened.
#[derive(Drop)]
pub struct HostFiles<'a, F, P> {
    /// What sees what stands at paths.
    pub paths: &'a P,
    /// What is supposed of the files.
    pub start: F,
}

/// Of a refusal it tells the kind.
impl<F: Start + Drop, P: Paths> DatabaseFiles for HostFiles<'_, F, P> {
    type Disk = FileFrom<F>;

    ghost held = { image_at F.Start };

    ghost refuses = { λ _ _ fault. IsOpeningFault fault };

    ghost refuses_making = { λ _ _ fault. IsOpeningFault fault };

    ghost is_free = { λ files path. IsFreeAt ⟦<FileFrom<Unknown> as Disk>⟧ (image_at ⟦<Unknown as Start>⟧) P.Paths
        files.paths.now path };

    ghost refuses_migrating = { λ _ _ fault. IsOpeningFault fault };

    fn open(self, path: &str) -> Result<Store<FileStore<FileFrom<F>>>, StoreFault> {
        Store::open(self.paths, path, self.start)
    }

    fn make(
        self,
        path: &str,
        entries: &[Entry<'_>],
    ) -> Result<Store<FileStore<FileFrom<F>>>, StoreFault> {
        Store::make_with(self.paths, path, self.start, entries)
    }

    fn may_make(&self, path: &str) -> Result<(), StoreFault> {
        may_make_at(self.paths, path)
    }

    fn migrate(self, path: &str) -> Result<(), StoreFault> {
        Store::migrate_at(self.paths, path, self.start)
    }
}

/// A store over files tells what closing it leaves in these.
impl<D: Disk + Drop> OpenDatabase for Store<FileStore<D>> {
    type Left = Files<D>;

    ghost closes = { λ closed done. IsClosedAs D.Disk closed done };

    fn close_database(self) -> Result<Files<D>, StoreFault> {
        self.close()
    }
}

/// Who signs.
#[derive(Drop)]
pub enum SignerSource<'a> {
    /// The stand-in, a keyed hash.
    Keyed(KeyedHash),
    /// A key holder, by signatures of an algorithm. Once the database is open a connection is made to it. `serve` makes
    /// another where that was lost.
    Session {
        /// Where the key holder listens.
        address: &'a str,
        /// The algorithm of its signatures.
        algorithm: Algorithm,
    },
}

/// Whether another session with a key holder is opened where one was lost.
#[derive(Clone, Copy)]
pub enum Renewal {
    /// One session is kept to the end.
    Never,
    /// Another is opened when the next signature is asked for.
    AfterLoss {
        /// Whether standard error tells of it.
        told: bool,
    },
}

impl SignerSource<'_> {
    /// The algorithm of the signatures. Takes no memory.
    pub fn algorithm(&self) -> &Algorithm
        ensures { result.now ≡ algorithm_of self.now }
    {
        match self {
            SignerSource::Keyed(signer) => signer.algorithm(),
            SignerSource::Session {
                address: _,
                algorithm,
            } => algorithm,
        }
    }
}

/// What reaches who signs, from this machine.
#[derive(Drop)]
pub struct HostSigners<'a> {
    /// Its system.
    pub rt: &'a HostRuntime,
    /// Who signs.
    pub signing: SignerSource<'a>,
    /// Whether another session with the key holder is opened where one was lost.
    pub renewal: Renewal,
}

/// Of what is reached it tells its algorithm, and that it is unused; of what is left, nothing.
impl<'a> Signers for HostSigners<'a> {
    type Reached = HostSigner<'a>;

    ghost reaches = { λ work signer. IsReached ⟦<HostSigner<'static> as Signer>⟧ (algorithm_of work.signing) signer };

    ghost refuses = { λ _ fault. IsUnreached fault };

    ghost leaves = { λ signer. IsAny signer };

    fn reach(self) -> Result<HostSigner<'a>, OperationFault>
        ensures reached { IfOk result
            (IsReached ⟦<HostSigner<'static> as Signer>⟧ (algorithm_of self.entry.signing)) }
        ensures kind { IfOk result (IsOfKind self.entry.signing self.entry.renewal) }
        ensures refusals { IfErr result IsUnreached }
    {
        let HostSigners {
            rt,
            signing,
            renewal,
        } = self;
        let limit = Duration::from_secs(SIGNER_SECONDS);
        match signing {
            SignerSource::Keyed(signer) => Ok(AnySigner::Keyed(signer)),
            SignerSource::Session { address, algorithm } => match renewal {
                Renewal::Never => {
                    let session = connect_signer(rt, address, limit, algorithm);
                    Ok(AnySigner::Session(session.or(Err(OperationFault::Unreached))?))
                }
                Renewal::AfterLoss { told } => {
                    let notices = told.then(|| rt.stderr());
                    let sessions = connect_reconnecting(rt, address, limit, algorithm, notices);
                    Ok(AnySigner::Reconnecting(sessions.or(Err(OperationFault::Unreached))?))
                }
            },
        }
    }

    fn leave(_reached: HostSigner<'a>)
        ensures { Unit {0} }
    {}
}
