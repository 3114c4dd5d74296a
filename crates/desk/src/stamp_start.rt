//! A stamp up to its reservation.
ghost use Rattle.std.specs.Prelude.{◌≡◌, ◌⊎◌, ℕ, ◌≤◌, List, length, IfSome, IfErr};
ghost use Rattle.tsp.specs.{Request.Spells, Rules.HasVersionOne, View.request_view};
ghost use Rattle.decide.specs.View.{account_asked};
ghost use Rattle.desk.specs.{Answers.begun_as, Answers.answered, Answers.ended_as, auxiliary.Beginnings.IsOfBeginning};
ghost use Rattle.desk.specs.{Calls.settings_view, Calls.why_of, Command.Begun as SpecBegun, Effects.for_parts};
ghost use Rattle.desk.specs.{Effects.name_of, auxiliary.NewDeposit.FailsLate, Together.question_view};
ghost use Rattle.desk.specs.{Together.question_with, auxiliary.Verdicts.JudgesAs, auxiliary.Wholes.answer_by};

use crate::batch::Asked;
use crate::fault::Fault;
use crate::findings::{Requested, judge};
use crate::pending::Pending;
use crate::refusal::StampRefusal;
use crate::reply::Begun;
use crate::reservation::prepare;
use crate::settings::Settings;
use crate::waiting_stamp::WaitingStamp;
use book::Book;
use policy::Account;
use std::alloc::Global;
use tsp::{Rejection, Rule, read_request};

/// The account's name, for which a stamp is reserved.
fn name_of<'a>(account: Option<&'a Account>) -> &'a str
    ensures { result.now ≡ name_of (account_asked account.entry) }
{
    match account {
        None => "",
        Some(account) => account.name.as_str(),
    }
}

/// Judges a request that was read by the history with the reservations of those that wait, and writes its texts where
/// no rule refuses it. It has its octets, unless there was no memory for them.
pub(crate) fn judge_read<'p, 'a, B: Book + Drop>(
    store: &mut B,
    alloc: Global,
    settings: Settings<'p>,
    waits: &[WaitingStamp<'_, '_>],
    requested: Requested<'a, 'a>,
    query: Option<&'a [u8]>,
) -> Result<WaitingStamp<'p, 'a>, StampRefusal>
    requires spelled { IfSome query (λ q. Spells q.now (request_view requested.request)) }
    requires short { IfSome query (λ q. length q.now ≤ 65536) }
    ensures judges { (octets : List ℕ) → Spells octets (request_view requested.entry.request) → length octets ≤ 65536
        → IfSome query.entry (λ q. q.now ≡ octets) → JudgesAs B.Standing (settings_view settings.entry)
        (question_with requested.entry octets) waits.now result store.old store.new }
    ensures late { HasVersionOne (request_view requested.entry.request) → IfErr result (λ r. FailsLate (why_of r)) }
{
    let account = name_of(requested.account);
    let planned = judge(store, waits, settings.policy, requested)?;
    prepare(alloc, settings, account, query, planned)
}

/// Judges a stamp by the history with the reservations of those that wait, and writes its texts where no rule refuses
/// it.
pub(crate) fn judge_one<'p, 'a, B: Book + Drop>(
    store: &mut B,
    alloc: Global,
    settings: Settings<'p>,
    waits: &[WaitingStamp<'_, '_>],
    asked: Asked<'a>,
) -> Result<WaitingStamp<'p, 'a>, StampRefusal>
    ensures { JudgesAs B.Standing (settings_view settings.entry) (question_view asked.entry) waits.now result store.old
        store.new }
{
    let Asked {
        account,
        reading,
        query,
    } = asked;
    let Ok(request) = read_request(query) else {
        return Err(StampRefusal::Fails(Rule::Spelling));
    };
    let requested = Requested {
        account,
        reading,
        request,
    };
    judge_read(store, alloc, settings, waits, requested, Some(query))
}

/// What `begin` answers of a stamp that was begun, or refused.
pub(crate) fn begun_by<'p>(begun: Result<Pending<'p>, StampRefusal>) -> Result<Begun<'p>, Fault>
    requires beginning { IfErr begun IsOfBeginning }
    ensures answer { answered begun_as result ≡ answer_by for_parts (ended_as SpecBegun begun.entry) }
    ensures refusals { IfErr result (λ fault. (fault ≡ Fault.Memory) ⊎ (fault ≡ Fault.Store)) }
{
    match begun {
        Ok(pending) => Ok(Begun::Pending(pending)),
        Err(StampRefusal::Fails(rule)) => Ok(Begun::Rejected(Rejection::of(rule))),
        Err(refusal) => Err(Fault::from(refusal)),
    }
}
