//! A stamp from its request to its reply.
ghost use Rattle.std.specs.Prelude.{◌≡◌, IfOk};
ghost use Rattle.policy.specs.View.{policy_view};
ghost use Rattle.tsp.specs.{Granted.granted_octets, Rules.IsFirstFailing, declared.rule.Rule.Rule};
ghost use Rattle.decide.specs.View.{account_asked};
ghost use Rattle.desk.specs.{Answers.reply_as, Answers.ended_as, CallContract.IsBareStep, CallContract.with_signer};
ghost use Rattle.desk.specs.{Calls.settings_view, Command.Stamp, Command.Rejected, Effects.for_reply, Effects.in_seal};
ghost use Rattle.desk.specs.{Findings.HoldsUnasked, auxiliary.Kept.kept_as, auxiliary.Wholes.answer_by};

use crate::batch::Asked;
use crate::keeping::Keeping;
use crate::refusal::{StampRefusal, rule_by};
use crate::reply::Reply;
use crate::reservation::reserve;
use crate::settings::Settings;
use crate::stamp_end::complete;
use crate::stamp_start::judge_one;
use crate::unsigned_token::{Written, reply_with};
use book::Book;
use cms::Signer;
use std::alloc::Global;
use tsp::Rejection;

/// The reply of a stamp that was completed, or refused.
fn reply_by(completed: Result<Written, StampRefusal>) -> Reply
    requires granted { IfOk completed (λ kept. kept.bytes.items ≡ granted_octets kept.token.items) }
    ensures { reply_as result ≡ answer_by for_reply (ended_as (kept_as in_seal) completed) }
{
    match completed {
        Ok(written) => reply_with(written),
        Err(refusal) => Reply::Rejected(Rejection::of(rule_by(refusal))),
    }
}

/// Answers a request: the granted reply, the rejection by the first rule that fails, or the rejection by rule 12.
pub(crate) fn answer_with<B: Book + Drop, G: Signer>(
    store: &mut B,
    alloc: Global,
    settings: Settings<'_>,
    asked: Asked<'_>,
    signer: &mut G,
) -> Reply
    ensures honest { B.honest store.new → B.honest store.old }
    ensures unasked { (rule : Rule) → IsFirstFailing (HoldsUnasked (policy_view settings.entry.policy.now)
        (account_asked asked.entry.account) asked.entry.query.now) rule
        → (reply_as result ≡ Rejected rule) × (store.new ≡ store.old) × (signer.new ≡ signer.old) }
    ensures step { IsBareStep B.Standing (with_signer G.signs G.fault_count signer.old signer.new)
        (settings_view settings.entry)
        (Stamp (account_asked asked.entry.account) asked.entry.reading asked.entry.query.now) store.old store.new
        (reply_as result) }
{
    let judged = judge_one(store, alloc, settings, &[], asked);
    let begun = reserve(store, settings, judged);
    reply_by(complete(store, alloc, begun, Keeping::Seal, signer))
}
