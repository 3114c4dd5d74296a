//! A deposit: its stamp, and both in one commit.
ghost use Rattle.std.specs.Prelude.{◌≡◌, ◌<◌, ◌≤◌, ℕ, List, Err, length, IfOk, IfErr, IfSome};
ghost use Rattle.policy.specs.View.{account_view, policy_view};
ghost use Rattle.book.specs.History.{History, deposit_under};
ghost use Rattle.book.specs.{Fault.CountsFaults, Fault.IsOfStorage, Stands.Stands, Stands.OnlyLooks};
ghost use Rattle.desk.specs.CallContract.{IsBareStep, StepsWhere, with_signer};
ghost use Rattle.desk.specs.auxiliary.NewDeposit.{known_in, FailsLate, IsUnused};
ghost use Rattle.desk.specs.{Answers.answered, Answers.ended_as, Calls.settings_view, Calls.why_of, Command.Deposit};
ghost use Rattle.desk.specs.{Effects.for_deposit, Effects.in_deposit, Fault.IsOfDeposit, auxiliary.Kept.kept_as};
ghost use Rattle.desk.specs.{Outcome.Outcome, Shown.deposited_as, Texts.gives_certificate, auxiliary.Wholes.answer_by};

use crate::fault::Fault;
use crate::findings::Requested;
use crate::keeping::Keeping;
use crate::obstacle::Obstacle;
use crate::refusal::StampRefusal;
use crate::reply::Deposited;
use crate::reservation::reserve;
use crate::settings::Settings;
use crate::stamp_end::complete;
use crate::stamp_start::judge_read;
use crate::unsigned_token::Written;
use book::{Book, StoreFault};
use cms::Signer;
use policy::{Account, Policy};
use sha2::{Digest, Sha256};
use std::alloc::Global;
use tsp::{Request, TspFault, requests_have_one_reading, write_request};

/// The most octets of a deposit.
const MOST: usize = 1_048_576;

/// Octets that an account submits to be deposited: under which reference, and when by the clock, in microseconds.
#[derive(Clone, Copy)]
pub(crate) struct Submission<'a> {
    pub(crate) account: &'a Account,
    pub(crate) reading: i64,
    pub(crate) reference: &'a str,
    pub(crate) bytes: &'a [u8],
}

/// What stands under a reference.
#[derive(Clone, Copy)]
pub(crate) enum Known {
    /// No deposit.
    Nothing,
    /// One of the same octets, with this number.
    Same(u64),
    /// One of other octets.
    Other,
}

/// What an owner has deposited under a reference, as the octets are told from others.
fn find_known<B: Book + Drop>(
    store: &mut B,
    owner: &str,
    reference: &str,
    bytes: &[u8],
) -> Result<Known, StoreFault>
    ensures looks { OnlyLooks B.Standing store.old store.new }
    ensures value { B.honest store.new → (b : History) → Stands B.Standing b store.old
        → IfOk result (λ known. known ≡ known_in bytes.now (deposit_under owner.now reference.now b)) }
    ensures refusals { IfErr result IsOfStorage }
    ensures faults { CountsFaults result (B.fault_count store.old) (B.fault_count store.new) }
{
    let Some(deposit) = store.by_reference(owner, reference)? else {
        return Ok(Known::Nothing);
    };
    if deposit.bytes.as_slice() == bytes {
        Ok(Known::Same(deposit.serial))
    } else {
        Ok(Known::Other)
    }
}

/// Whether the account's default policy gives the certificate out.
fn gives_certificate(policy: &Policy, account: &Account) -> bool
    ensures { result ≡ gives_certificate (policy_view policy.now) (account_view account.now) }
{
    match policy.default_policy(account) {
        None => false,
        Some(default) => default.certificate,
    }
}

/// The octets that were written, where there was memory for them.
fn octets_in(written: &Result<Vec<u8>, TspFault>) -> Option<&[u8]>
    ensures { (octets : List ℕ) → IfOk written.now (λ owned. owned.items ≡ octets)
        → IfSome result (λ lent. lent.now ≡ octets) }
{
    match written {
        Ok(octets) => Some(octets.as_slice()),
        Err(_) => None,
    }
}

/// What is answered of a deposit's stamp that was completed, or refused.
fn deposited_by(completed: Result<Written, StampRefusal>) -> Result<Deposited, Fault>
    ensures refusals { IfErr completed (λ r. FailsLate (why_of r)) → IfErr result IsOfDeposit }
    ensures answer { (owner reference bytes : List ℕ) → answered deposited_as result
        ≡ answer_by (for_deposit owner reference bytes)
        (ended_as (kept_as (in_deposit owner reference bytes)) completed) }
{
    let kept = completed?;
    Ok(Deposited {
        number: kept.serial,
        is_new: true,
    })
}

/// Stamps and stores a deposit whose owner hasn't used the reference. The octets of the deposit are hashed here, and
/// nowhere else.
fn deposit_new<B: Book + Drop, X: Signer>(
    store: &mut B,
    alloc: Global,
    settings: Settings<'_>,
    submission: Submission<'_>,
    signer: &mut X,
) -> Result<Deposited, Fault>
    requires few { length submission.bytes.now ≤ 1048576 }
    ensures honest { B.honest store.new → B.honest store.old }
    ensures refusals { IfErr result IsOfDeposit }
    ensures step { (o : Outcome) × StepsWhere B.Standing (with_signer X.signs X.fault_count signer.old signer.new)
        (settings_view settings.entry) (Deposit (account_view submission.entry.account.now) submission.entry.reading
        submission.entry.reference.now submission.entry.bytes.now)
        (IsUnused (account_view submission.entry.account.now) submission.entry.reference.now) o store.old store.new
        (answered deposited_as result) }
{
    requests_have_one_reading();
    let policy = settings.policy;
    let account = submission.account;
    let digest = Sha256::digest(submission.bytes);
    let request = Request::of_sha256(&digest, gives_certificate(policy, account));
    let written = write_request(alloc, &request);
    let requested = Requested {
        account: Some(account),
        reading: submission.reading,
        request,
    };
    let judged = judge_read(store, alloc, settings, &[], requested, octets_in(&written));
    let begun = reserve(store, settings, judged);
    deposited_by(complete(store, alloc, begun, Keeping::Deposit(submission), signer))
}

/// Stamps and stores a deposit, or tells the number under which the owner has deposited the same octets.
pub(crate) fn deposit_with<B: Book + Drop, X: Signer>(
    store: &mut B,
    alloc: Global,
    settings: Settings<'_>,
    submission: Submission<'_>,
    signer: &mut X,
) -> Result<Deposited, Fault>
    ensures honest { B.honest store.new → B.honest store.old }
    ensures large { 1048576 < length submission.entry.bytes.now
        → (result ≡ Err Fault.TooLarge) × (store.new ≡ store.old) × (signer.new ≡ signer.old) }
    ensures refusals { IfErr result IsOfDeposit }
    ensures step { IsBareStep B.Standing (with_signer X.signs X.fault_count signer.old signer.new)
        (settings_view settings.entry)
        (Deposit (account_view submission.entry.account.now) submission.entry.reading submission.entry.reference.now
        submission.entry.bytes.now) store.old store.new (answered deposited_as result) }
{
    let Submission {
        account,
        reading: _,
        reference,
        bytes,
    } = submission;
    if bytes.len() > MOST {
        return Err(Fault::TooLarge);
    }
    let known = find_known(store, account.name.as_str(), reference, bytes);
    match known.map_err(Obstacle::Searching)? {
        Known::Same(number) => Ok(Deposited {
            number,
            is_new: false,
        }),
        Known::Other => Err(Fault::Conflict),
        Known::Nothing => deposit_new(store, alloc, settings, submission, signer),
    }
}
