//! The word `serve`.
ghost use Rattle.std.specs.Prelude.{◌≡◌, ◌⊎◌, Err, IfErr, OnOk, Ok};
ghost use Rattle.console.specs.Files.{source_of};
ghost use Rattle.counter.specs.Fault.{IsServeFault};
ghost use Rattle.counter.specs.Connections.{ServesAt, ServesConnections, state_after, state_before};
ghost use Rattle.operations.specs.{DatabaseFaults.IsServingFault, DatabaseFaults.IsUnheard, Machine.machine_of};
ghost use Rattle.operations.specs.declared.fault.OperationFault.TheVariants as operation;

use crate::events::{octets_at, tell_listening, tell_opening};
use crate::fault::{answer_of, fault_of};
use crate::files::{Files, read_files};
use crate::host::Host;
use book::Book;
use cms::Signer;
use command_line::ServeWords;
use connections::{Clock, Reactor, SystemClock, serve_connections};
use console::{Fault, FileSource, InputFault};
use desk::Settings;
use operations::{
    DatabaseDesk, DeskOperation, Disk, FileFrom, HostSigner, HostSigners, OperationFault, Renewal,
    SignedDesk, Start, perform_at_desk,
};
use sockets::Listener;
use std::time::Instant;

/// Connections at an address are served.
#[derive(Drop)]
struct Serving<'a> {
    rt: &'a HostRuntime,
    address: &'a str,
    connections: u32,
    /// Whether it is told that connections are taken.
    tell: bool,
    /// The octets of the database when it was opened, if they are known.
    octets: Option<u64>,
    /// When that began, if the clock tells.
    begun: Option<Instant>,
}

impl DeskOperation<(), ()> for Serving<'_> {
    type Answer = Result<(), OperationFault>;

    type Means = Listener;

    ghost lacks = { IsUnheard };

    ghost answers = { λ _ _ _ _ _ _ done. IfErr done IsServingFault };

    ghost moves = { λ _ _ g signs serving visit done. (clock clock' : _)
        × ServesAt ⟦<SystemClock<'static, HostRuntime> as Clock>⟧.reads g signs.signs signs.fault_count
        serving.connections (state_before clock visit) (state_after clock' visit) done };

    /// Listens on the address.
    fn prepare(&self) -> Result<Listener, OperationFault> {
        Listener::bind(self.rt, self.address).or(Err(OperationFault::Unheard))
    }

    fn perform<B: Book + Drop, G: Signer>(
        self,
        listener: Listener,
        signed: &mut SignedDesk<'_, B, G>,
        _input: &mut (),
        _output: &mut (),
    ) -> Result<(), OperationFault> {
        let rt = self.rt;
        let mut clock = SystemClock::new(rt);
        match Reactor::new(rt, rt, listener, self.octets) {
            Ok(mut reactor) => {
                if self.tell {
                    tell_listening(rt, &reactor.acceptor, self.address, self.begun);
                }
                let SignedDesk { desk, signer } = signed;
                match serve_connections(&mut reactor, self.connections, &mut clock, desk, signer) {
                    Ok(()) => Ok(()),
                    Err(_) => Err(OperationFault::Clock),
                }
            }
            Err(_) => Err(OperationFault::Unheard),
        }
    }
}

/// Serves HTTP connections at an address; readings are the machine's clock's. Connections are read side by side, and
/// requests answered one at a time; one that fails counts too. The files are read first, then the database is opened,
/// the key holder reached, and the address listened on. Of the process's streams it writes standard error alone, and
/// that only where the words ask it to tell of its start and of lost sessions with the key holder.
///
/// Refused as `read_files` and `perform_at_desk`, with `input` 6 where the address can't be listened on or the system
/// can't wait for several connections at once, and with `input` 5 where the clock fails; those that were served before
/// stand.
pub fn serve<F: Start + Drop, S: FileSource + AllocGlobal>(
    host: Host<'_, F, S>,
    words: &ServeWords<'_>,
) -> Result<(), Fault>
    // Whatever the files hold: the connections are served at a desk over the store that was opened over them.
    ensures served { OnOk result (ServesConnections (machine_of ⟦<FileFrom<F> as Disk>⟧ F.Start
        ⟦<HostSigner<'static> as Signer>⟧ ⟦<SystemClock<'static, HostRuntime> as Clock>⟧.reads)
        (source_of S.opens S.refuses S.File.remaining host.entry.files.now) words.now (Ok tt)) }

    // So are those before the clock failed.
    ensures stopped { result ≡ Err (Fault.Input InputFault.Failed) → ServesConnections (machine_of
        ⟦<FileFrom<F> as Disk>⟧ F.Start ⟦<HostSigner<'static> as Signer>⟧
        ⟦<SystemClock<'static, HostRuntime> as Clock>⟧.reads)
        (source_of S.opens S.refuses S.File.remaining host.entry.files.now) words.now (Err operation.Clock) }
    ensures faults { IfErr result IsServeFault }
{
    let rt = host.rt;
    let Files {
        policy,
        identity,
        signing,
        algorithm,
    } = read_files(host.files, &words.desk)?;
    let desk = DatabaseDesk {
        database: host.database(words.desk.db),
        settings: Settings {
            policy: &policy,
            identity: &identity,
            algorithm: &algorithm,
        },
        signers: HostSigners {
            rt,
            signing,
            renewal: Renewal::AfterLoss { told: words.tell },
        },
    };
    let octets = octets_at(rt, words.desk.db);
    let serving = Serving {
        rt,
        address: words.listen,
        connections: words.connections,
        tell: words.tell,
        octets,
        begun: Instant::now(rt).ok(),
    };
    if words.tell {
        tell_opening(rt, octets);
    }
    match perform_at_desk(rt.alloc(), desk, serving, &mut (), &mut ()) {
        Ok(done) => answer_of(done),
        Err(fault) => Err(fault_of(fault)),
    }
}
