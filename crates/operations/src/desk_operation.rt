//! What is done at a desk over the database at a path.
ghost use Rattle.std.specs.Prelude.{◌≡◌, ◌⊎◌, IfOk, IfErr, OnErr};
ghost use Rattle.book.specs.declared.standing.Standing.{Ghosts};
ghost use Rattle.cms.specs.declared.signer.Signer.{Ghosts as Signs};
ghost use Rattle.desk.specs.Calls.{settings_view};
ghost use Rattle.policy.specs.{Record.PolicyValue, View.policy_view};
ghost use Rattle.operations.specs.Visits.{IsUnopened, IsUnvisited, IsVisited, Visit, visit_of};
ghost use Rattle.operations.specs.declared.fault.OperationFault.{OperationFault as SpecFault};
ghost use Rattle.operations.specs.{DatabaseFaults.IsStartingFault, DatabaseFaults.IsUnready, OverFiles.IsDoneOver};
ghost use Rattle.operations.specs.{OverFiles.IsUnopenedAs, declared.fault.OperationFault.TheVariants.Store};

use crate::database::{Database, DatabaseFiles};
use crate::fault::OperationFault;
use crate::operation::{Operation, perform_at};
use crate::signers::Signers;
use book::Book;
use cms::Signer;
use desk::{Desk, Settings};
use std::alloc::Global;

/// The desk over a database, before that is opened.
#[derive(Drop)]
pub struct DatabaseDesk<'a, F, S> {
    /// The database.
    pub database: Database<'a, F>,
    /// By what requests are judged and answered.
    pub settings: Settings<'a>,
    /// What reaches who signs.
    pub signers: S,
}

/// A desk over a book, and who signs its tokens.
#[derive(Drop)]
pub struct SignedDesk<'p, B: Book + Drop, G> {
    /// The desk.
    pub desk: Desk<'p, B>,
    /// The signer.
    pub signer: G,
}

/// What is done at a desk with a signer, over any book. Input and output are what it reads from and writes to; `()`
/// where it does neither.
pub trait DeskOperation<I, O>: Drop {
    /// What it answers.
    type Answer;

    /// What it needs besides, and gets before there is a desk.
    type Means: Drop;

    // how it can be refused what it needs
    ghost lacks: { SpecFault → Type 0 };

    // by a policy, what input and output are before it and after it, and what it answers
    ghost answers: { Self → PolicyValue → I → I → O → O → Self.Answer → Type 0 };

    // by what is known of a book and of a signer: how it moves desk and signer, and input and output, and what it
    // answers
    ghost moves: { (B X : Type 0) → Ghosts B → Signs X → Self → Visit I O B X → Self.Answer → Type 0 };

    /// What it needs besides desk and signer.
    fn prepare(&self) -> Result<Self::Means, OperationFault>
        ensures { IfErr result lacks };

    /// Does it.
    fn perform<B: Book + Drop, G: Signer>(
        self,
        means: Self::Means,
        signed: &mut SignedDesk<'_, B, G>,
        input: &mut I,
        output: &mut O,
    ) -> Self::Answer
        ensures answered { answers self signed.old.desk.setting.file input.old input.new output.old output.new result }
        ensures moved { moves B G B.Standing G.Signer self (visit_of input.old input.new output.old output.new
            signed.old.desk signed.new.desk signed.old.signer signed.new.signer) result };
}

/// What is done at a desk, and by what and with whose signatures that is opened.
#[derive(Drop)]
struct AtDesk<'a, S, T> {
    settings: Settings<'a>,
    signers: S,
    operation: T,
}

impl<I, O, S: Signers, T: DeskOperation<I, O>> Operation<I, O> for AtDesk<'_, S, T> {
    type Answer = Result<T::Answer, OperationFault>;

    ghost answers = { λ work input input' output output' done. IfOk done (T.answers work.operation
        (policy_view work.settings.policy.now) input input' output output')
        × OnErr done ((input' ≡ input) × (output' ≡ output))
        × IfErr done (λ fault. IsUnready fault ⊎ T.lacks fault) };

    ghost moves = { λ B g work old new input input' output output' done.
        IfOk done (λ answer. IsVisited g (settings_view work.settings) (S.reaches work.signers) S.leaves old new
        (λ desk desk' signer signer'. T.moves B _ g S.Reached.Signer work.operation
        (visit_of input input' output output' desk desk' signer signer') answer))
        × IfErr done (IsUnvisited g (settings_view work.settings) (S.reaches work.signers) S.leaves
        (S.refuses work.signers) old new) };

    fn perform<B: Book + Drop>(
        self,
        alloc: Global,
        book: B,
        input: &mut I,
        output: &mut O,
    ) -> (B, Result<T::Answer, OperationFault>) {
        let AtDesk {
            settings,
            signers,
            operation,
        } = self;
        match signers.reach() {
            Ok(signer) => {
                let signed = Signed {
                    settings,
                    operation,
                    signer,
                };
                let (book, signer, done) = perform_signed(signed, alloc, book, input, output);
                S::leave(signer);
                (book, done)
            }
            Err(fault) => (book, Err(fault)),
        }
    }
}

/// What is done at a desk, by what that is opened, and its signer.
#[derive(Drop)]
struct Signed<'a, T, G> {
    settings: Settings<'a>,
    operation: T,
    signer: G,
}

/// Gets what the operation needs besides, opens a desk over a book, and does it there. The book and the signer come
/// back.
fn perform_signed<B: Book + Drop, G: Signer + Drop, I, O, T: DeskOperation<I, O>>(
    signed: Signed<'_, T, G>,
    alloc: Global,
    book: B,
    input: &mut I,
    output: &mut O,
) -> (B, G, Result<T::Answer, OperationFault>)
    ensures answered { IfOk result.2 (T.answers signed.entry.operation (policy_view signed.entry.settings.policy.now)
        input.old input.new output.old output.new) }

    // The desk meets this signer as it is, and it comes back as that left it.
    ensures moved { IfOk result.2 (λ answer. IsVisited B.Standing (settings_view signed.entry.settings)
        (λ signer. signer ≡ signed.entry.signer) (λ signer. signer ≡ result.1) book result.0
        (λ desk desk' signer signer'. T.moves B G B.Standing G.Signer signed.entry.operation
        (visit_of input.old input.new output.old output.new desk desk' signer signer') answer)) }
    ensures unmoved { IfErr result.2 (IsUnopened B.Standing (settings_view signed.entry.settings) book result.0) }
    ensures unasked { OnErr result.2 (result.1 ≡ signed.entry.signer) }
    ensures unread { OnErr result.2 ((input.new ≡ input.old) × (output.new ≡ output.old)) }
    ensures refusals { IfErr result.2 (λ fault. IsUnready fault ⊎ T.lacks fault) }
{
    let Signed {
        settings,
        operation,
        signer,
    } = signed;
    match operation.prepare() {
        Ok(means) => match Desk::open(alloc, settings, book) {
            Ok(desk) => {
                let mut signed = SignedDesk { desk, signer };
                let answer = operation.perform(means, &mut signed, input, output);
                (signed.desk.into_store(), signed.signer, Ok(answer))
            }
            Err((fault, book)) => (book, signer, Err(OperationFault::Desk(fault))),
        },
        Err(fault) => (book, signer, Err(fault)),
    }
}

/// Does it at a desk over the history that the database keeps, with the signer's answers. Refused with
/// `Memory`, with `Database` where no file stands there, and with `NotOurs` where it isn't a database of the counter's;
/// then with `Unreached` where the key holder can't be reached, and as what it needs besides. Last the identity is
/// installed, unless it is the one that was installed last: refused with `Desk` where memory runs out, or the database
/// refuses it. Nothing is done then.
pub fn perform_at_desk<F: DatabaseFiles, S: Signers, I, O, T: DeskOperation<I, O>>(
    alloc: Global,
    desk: DatabaseDesk<'_, F, S>,
    operation: T,
    input: &mut I,
    output: &mut O,
) -> Result<T::Answer, OperationFault>
    ensures answered { IfOk result (T.answers operation (policy_view desk.entry.settings.policy.now) input.old input.new
        output.old output.new) }

    // Whatever the files hold: it was done at a desk over the store that was opened over them, with the signer that was
    // reached, and both were closed and left as it left them.
    ensures moved { IfOk result (λ answer. IsDoneOver F.Disk.Disk F.held (λ g opened left.
        IsVisited g (settings_view desk.entry.settings) (S.reaches desk.entry.signers) S.leaves opened left
        (λ desk desk' signer signer'. T.moves _ _ g S.Reached.Signer operation
        (visit_of input.old input.new output.old output.new desk desk' signer signer') answer))) }

    // Where it is refused, no store was opened, no signer reached, or none was asked.
    ensures unmoved { IfErr result (λ fault.
        IsUnopenedAs Store (F.refuses desk.entry.database.files desk.entry.database.path.now) fault
        ⊎ IsDoneOver F.Disk.Disk F.held (λ g opened left. IsUnvisited g (settings_view desk.entry.settings)
        (S.reaches desk.entry.signers) S.leaves (S.refuses desk.entry.signers) opened left fault)) }
    ensures unread { OnErr result (input.new ≡ input.old) }
    ensures unwritten { OnErr result (output.new ≡ output.old) }
    ensures refusals { IfErr result (λ fault. IsStartingFault fault ⊎ T.lacks fault) }
{
    let DatabaseDesk {
        database,
        settings,
        signers,
    } = desk;
    let at_desk = AtDesk {
        settings,
        signers,
        operation,
    };
    perform_at(alloc, database, at_desk, input, output)?
}
