//! How a request is answered over the database at a path.
ghost use Rattle.std.specs.Prelude.{◌⊎◌, IfOk, IfErr};
ghost use Rattle.policy.specs.View.{policy_view};
ghost use Rattle.decide.specs.View.{account_asked};
ghost use Rattle.desk.specs.CallContract.{IsStep, with_signer};
ghost use Rattle.desk.specs.{Answers.reply_as, Calls.settings_view, Command.Stamp};
ghost use Rattle.operations.specs.declared.fault.OperationFault.TheVariants.{Store};
ghost use Rattle.operations.specs.{Judged.IsJudgedReply, DatabaseFaults.IsStartingFault, OverFiles.IsDoneOver};
ghost use Rattle.operations.specs.{OverFiles.IsUnopenedAs, Visits.IsUnvisited, Visits.IsVisited};

use crate::database::DatabaseFiles;
use crate::desk_operation::{DatabaseDesk, DeskOperation, SignedDesk, perform_at_desk};
use crate::fault::OperationFault;
use crate::signers::Signers;
use book::Book;
use cms::Signer;
use desk::Reply;
use policy::Account;
use std::alloc::Global;

/// A request, and who asks when.
#[derive(Clone, Copy)]
pub struct Question<'a> {
    /// The account that asks, if it is known.
    pub account: Option<&'a Account>,
    /// The clock's reading, in microseconds.
    pub reading: i64,
    /// The request's octets.
    pub query: &'a [u8],
}

impl DeskOperation<(), ()> for Question<'_> {
    type Answer = Reply;

    type Means = ();

    ghost lacks = { λ _. ⊥ };

    ghost answers = { λ question file _ _ _ _ reply. IsJudgedReply file (account_asked question.account)
        question.query.now (reply_as reply) };

    ghost moves = { λ _ _ g signs question visit reply. IsStep g (with_signer signs.signs signs.fault_count visit.signer
        visit.signer_after) (Stamp (account_asked question.account) question.reading question.query.now) visit.desk
        visit.desk_after (reply_as reply) };

    fn prepare(&self) -> Result<(), OperationFault> {
        Ok(())
    }

    fn perform<B: Book + Drop, G: Signer>(
        self,
        _means: (),
        signed: &mut SignedDesk<'_, B, G>,
        _input: &mut (),
        _output: &mut (),
    ) -> Reply {
        let SignedDesk { desk, signer } = signed;
        desk.answer(self.account, self.reading, self.query, signer)
    }
}

/// Answers the request as `Desk::answer` does, over the history that the database keeps. Refused with
/// `Memory`, with `Database` where no file stands there, and with `NotOurs` where it isn't a database of the counter's;
/// then with `Unreached` where the key holder can't be reached. After that there is a reply.
pub fn answer<F: DatabaseFiles, S: Signers>(
    alloc: Global,
    desk: DatabaseDesk<'_, F, S>,
    question: &Question<'_>,
) -> Result<Reply, OperationFault>
    // A request that fails a rule of 1 to 9 is rejected by the first of them, whatever the database holds.
    ensures judged { IfOk result (λ reply. IsJudgedReply (policy_view desk.entry.settings.policy.now)
        (account_asked question.now.account) question.now.query.now (reply_as reply)) }

    // Whatever the files hold: it is the answer of the machine's step, at a desk over the store that was opened over
    // them, with the signer that was reached.
    ensures stepped { IfOk result (λ reply. IsDoneOver F.Disk.Disk F.held (λ g opened left.
        IsVisited g (settings_view desk.entry.settings) (S.reaches desk.entry.signers) S.leaves opened left
        (λ desk desk' signer signer'. IsStep g
        (with_signer S.Reached.Signer.signs S.Reached.Signer.fault_count signer signer')
        (Stamp (account_asked question.now.account) question.now.reading question.now.query.now) desk desk'
        (reply_as reply)))) }
    ensures unanswered { IfErr result (λ fault.
        IsUnopenedAs Store (F.refuses desk.entry.database.files desk.entry.database.path.now) fault
        ⊎ IsDoneOver F.Disk.Disk F.held (λ g opened left. IsUnvisited g (settings_view desk.entry.settings)
        (S.reaches desk.entry.signers) S.leaves (S.refuses desk.entry.signers) opened left fault)) }
    ensures refusals { IfErr result IsStartingFault }
{
    perform_at_desk(alloc, desk, *question, &mut (), &mut ())
}
