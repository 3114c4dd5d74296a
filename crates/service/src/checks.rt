//! The checks of a whole request.
ghost use Rattle.std.specs.Prelude.{◌≡◌, codes, false, true};
ghost use Rattle.policy.specs.View.{policy_view};
ghost use Rattle.decide.specs.View.{account_asked};
ghost use Rattle.desk.specs.{Batches.stamp_for, Together.question_view};
ghost use Rattle.service.specs.Checks.{account_shown, active, active_account, number_stated, range_stated};
ghost use Rattle.service.specs.Checks.{reference_stated, operator_shown, watcher_shown};
ghost use Rattle.service.specs.Views.{head_view, IsInPlace, octets_given, result_by, account_given, account_found};
ghost use Rattle.service.specs.declared.routes.Action.TheVariants.{Stamp, Keep, List, Deposit, Extract, Calibrate};
ghost use Rattle.service.specs.declared.routes.Action.TheVariants.{Hold as Holding, Status, Account as OfAccount};
ghost use Rattle.service.specs.{Fields.Twice, Fields.stated, Requests.Step, Requests.asked_by, Views.IsAskedBy};

use crate::answer::Occasion;
use crate::context::Context;
use crate::fields::{Occurrence, stated};
use crate::form::{calibration_stated, hold_stated};
use crate::head::Head;
use crate::numbers::{is_reference, number_in};
use crate::refusal::Refusal;
use crate::routes::{Action, DepositAction, segment};
use crate::wanted::once;
use book::{Calibration, Hold};
use desk::Asked;
use policy::{Account, Policy};
use std::str;

/// The number in a target.
fn number_stated(head: Head<'_>) -> Result<u64, Refusal>
    ensures { result ≡ number_stated (head_view head.entry) }
{
    number_in(segment(head.target, 2).as_bytes()).ok_or(Refusal::NotHere)
}

/// The two serial numbers in a target.
fn range_stated(head: Head<'_>) -> Result<(u64, u64), Refusal>
    ensures { result ≡ range_stated (head_view head.entry) }
{
    let from = number_in(segment(head.target, 2).as_bytes());
    let from = from.ok_or(Refusal::BadRange)?;
    let to = number_in(segment(head.target, 3).as_bytes());
    let to = to.ok_or(Refusal::BadRange)?;
    Ok((from, to))
}

/// The account whose key is shown, or the anonymous one, or none.
fn account_shown<'a>(policy: &'a Policy, head: Head<'_>) -> Result<Option<&'a Account>, Refusal>
    requires { IsInPlace head }
    ensures { account_found result ≡ account_shown (policy_view policy.now) (head_view head.entry) }
{
    match stated(head.octets, head.headers, b"counter-key") {
        Occurrence::Never => Ok(policy.anonymous()),
        Occurrence::Once(key) => Ok(policy.account_of_key(key)),
        Occurrence::Twice => Err(Refusal::BadRequest),
    }
}

/// Whether two keys are shown, or more.
pub(crate) fn shows_keys(head: Head<'_>) -> bool
    requires { IsInPlace head }
    ensures twice { result ≡ true → stated (codes "counter-key") (head_view head.entry).fields ≡ Twice }
    ensures once { result ≡ false → stated (codes "counter-key") (head_view head.entry).fields ≡ Twice → ⊥ }
{
    matches!(
        stated(head.octets, head.headers, b"counter-key"),
        Occurrence::Twice
    )
}

/// The stamp that a head and its body ask for, at that moment.
pub(crate) fn stamp_asked<'a>(
    policy: &'a Policy,
    at: Occasion,
    head: Head<'_>,
    body: &'a [u8],
) -> Result<Asked<'a>, Refusal>
    requires { IsInPlace head }
    ensures { result_by (λ asked. Step (stamp_for (question_view asked))) result
        ≡ asked_by (policy_view policy.now) at.reading (head_view head.entry) body.now Stamp }
{
    let account = account_shown(policy, head)?;
    Ok(Asked {
        account,
        reading: at.reading,
        query: body,
    })
}

/// There is an account, and it is active.
fn active(account: Option<&Account>) -> Result<&Account, Refusal>
    ensures { account_given result ≡ active (account_asked account.entry) }
{
    match account {
        Some(account) if account.active => Ok(account),
        _ => Err(Refusal::NoAccount),
    }
}

/// The active account whose key is shown, or the anonymous one.
fn active_account<'a>(policy: &'a Policy, head: Head<'_>) -> Result<&'a Account, Refusal>
    requires { IsInPlace head }
    ensures { account_given result ≡ active_account (policy_view policy.now) (head_view head.entry) }
{
    active(account_shown(policy, head)?)
}

/// The active account whose key is shown, or the anonymous one, where it is an operator's.
fn operator_shown<'a>(policy: &'a Policy, head: Head<'_>) -> Result<&'a Account, Refusal>
    requires { IsInPlace head }
    ensures { account_given result ≡ operator_shown (policy_view policy.now) (head_view head.entry) }
{
    let account = active_account(policy, head)?;
    if account.operator {
        Ok(account)
    } else {
        Err(Refusal::NotOperator)
    }
}

/// The active account whose key is shown, or the anonymous one, where it is an operator's or an auditor's.
fn watcher_shown<'a>(policy: &'a Policy, head: Head<'_>) -> Result<&'a Account, Refusal>
    requires { IsInPlace head }
    ensures { account_given result ≡ watcher_shown (policy_view policy.now) (head_view head.entry) }
{
    let account = active_account(policy, head)?;
    if account.operator || account.auditor {
        Ok(account)
    } else {
        Err(Refusal::NotOperator)
    }
}

/// The reference, as one field tells it.
fn reference_stated<'b>(head: Head<'b>) -> Result<&'b str, Refusal>
    requires { IsInPlace head }
    ensures { octets_given result ≡ reference_stated (head_view head.entry) }
{
    let found = stated(head.octets, head.headers, b"deposit-reference");
    let reference = once(Refusal::BadReference, Refusal::BadReference, found)?;
    if !is_reference(reference) {
        return Err(Refusal::BadReference);
    }
    str::from_utf8(reference).map_err(|_| Refusal::BadReference)
}

/// What the checks of a whole request find.
#[derive(Clone, Copy)]
pub(crate) enum Found<'a> {
    /// Who asks for a stamp, when and by which octets.
    Stamp(Asked<'a>),
    /// An account, and under which reference it deposits the body.
    Keep(&'a Account, &'a str),
    /// An account that asks for its list.
    List(&'a Account),
    /// An account that asks for that, of the deposit with a number.
    Deposit(DepositAction, &'a Account, u64),
    /// An account that asks for the stamps from one serial number on and up to another.
    Extract(&'a Account, u64, u64),
    /// A calibration of an operator's.
    Calibrate(Calibration),
    /// A hold of an operator's.
    Hold(Hold),
    /// An operator or an auditor asks for the counter's state.
    Status,
    /// An account that asks for what it may ask for and has used.
    Account(&'a Account),
}

fn stamp<'a>(policy: &'a Policy, context: &Context<'a>) -> Result<Found<'a>, Refusal>
    requires { IsInPlace context.now.head }
    ensures { IsAskedBy policy.now context.now Stamp result }
{
    let asked = stamp_asked(policy, context.at, context.head, context.body)?;
    Ok(Found::Stamp(asked))
}

fn keep<'a>(policy: &'a Policy, context: &Context<'a>) -> Result<Found<'a>, Refusal>
    requires { IsInPlace context.now.head }
    ensures { IsAskedBy policy.now context.now Keep result }
{
    let account = active_account(policy, context.head)?;
    let reference = reference_stated(context.head)?;
    Ok(Found::Keep(account, reference))
}

fn list<'a>(policy: &'a Policy, context: &Context<'_>) -> Result<Found<'a>, Refusal>
    requires { IsInPlace context.now.head }
    ensures { IsAskedBy policy.now context.now List result }
{
    let account = active_account(policy, context.head)?;
    Ok(Found::List(account))
}

fn deposit<'a>(
    what: DepositAction,
    policy: &'a Policy,
    context: &Context<'_>,
) -> Result<Found<'a>, Refusal>
    requires { IsInPlace context.now.head }
    ensures { IsAskedBy policy.now context.now (Deposit what) result }
{
    let account = active_account(policy, context.head)?;
    let number = number_stated(context.head)?;
    Ok(Found::Deposit(what, account, number))
}

fn extract<'a>(policy: &'a Policy, context: &Context<'_>) -> Result<Found<'a>, Refusal>
    requires { IsInPlace context.now.head }
    ensures { IsAskedBy policy.now context.now Extract result }
{
    let account = active_account(policy, context.head)?;
    let (from, to) = range_stated(context.head)?;
    Ok(Found::Extract(account, from, to))
}

fn calibrate<'a>(policy: &Policy, context: &Context<'_>) -> Result<Found<'a>, Refusal>
    requires { IsInPlace context.now.head }
    ensures { IsAskedBy policy.now context.now Calibrate result }
{
    operator_shown(policy, context.head)?;
    let calibration = calibration_stated(context.body)?;
    Ok(Found::Calibrate(calibration))
}

fn hold<'a>(policy: &Policy, context: &Context<'_>) -> Result<Found<'a>, Refusal>
    requires { IsInPlace context.now.head }
    ensures { IsAskedBy policy.now context.now Holding result }
{
    operator_shown(policy, context.head)?;
    let hold = hold_stated(context.body)?;
    Ok(Found::Hold(hold))
}

fn status<'a>(policy: &Policy, context: &Context<'_>) -> Result<Found<'a>, Refusal>
    requires { IsInPlace context.now.head }
    ensures { IsAskedBy policy.now context.now Status result }
{
    watcher_shown(policy, context.head)?;
    Ok(Found::Status)
}

fn account<'a>(policy: &'a Policy, context: &Context<'_>) -> Result<Found<'a>, Refusal>
    requires { IsInPlace context.now.head }
    ensures { IsAskedBy policy.now context.now OfAccount result }
{
    let account = active_account(policy, context.head)?;
    Ok(Found::Account(account))
}

/// Makes the checks of a whole request, up to the first that fails.
pub(crate) fn found_by<'a>(
    action: Action,
    policy: &'a Policy,
    context: &Context<'a>,
) -> Result<Found<'a>, Refusal>
    requires { IsInPlace context.now.head }
    ensures { IsAskedBy policy.now context.now action result }
{
    match action {
        Action::Stamp => stamp(policy, context),
        Action::Keep => keep(policy, context),
        Action::List => list(policy, context),
        Action::Deposit(what) => deposit(what, policy, context),
        Action::Extract => extract(policy, context),
        Action::Calibrate => calibrate(policy, context),
        Action::Hold => hold(policy, context),
        Action::Status => status(policy, context),
        Action::Account => account(policy, context),
    }
}
