//! Stamps that are answered together.
ghost use Rattle.std.specs.Prelude.{◌≡◌, map, IfOk, IfErr, OnErr, OnOk};
ghost use Rattle.desk.specs.Together.{questions_view, IsAnsweredTogether};
ghost use Rattle.desk.specs.{Answers.reply_as, Calls.settings_view, Sent.SendsReserved};

use crate::batch_start::begin_each;
use crate::completion::finish_each;
use crate::desk::Desk;
use crate::fault::Fault;
use crate::pending_batch::{room_for, texts_of};
use crate::reply::Reply;
use crate::settings::Settings;
use book::{Book, histories_show_the_same};
use cms::Signer;
use policy::Account;
use std::alloc::Global;
use tsp::requests_have_one_reading;

/// A stamp that is asked for.
#[derive(Clone, Copy)]
pub struct Asked<'a> {
    /// Who asks, if anybody is known to.
    pub account: Option<&'a Account>,
    /// The clock's, in microseconds.
    pub reading: i64,
    /// The octets of the TimeStampReq.
    pub query: &'a [u8],
}

/// Answers stamps together. Room for all lists is taken first.
fn answer_together<B: Book + Drop, G: Signer>(
    store: &mut B,
    alloc: Global,
    settings: Settings<'_>,
    asked: &[Asked<'_>],
    signer: &mut G,
) -> Result<Vec<Reply>, Fault>
    ensures honest { B.honest store.new → B.honest store.old }
    ensures memory { IfErr result (λ fault. fault ≡ Fault.Memory) }
    ensures unmoved { OnErr result ((store.new ≡ store.old) × (signer.new ≡ signer.old)) }
    ensures together { IfOk result (λ replies. IsAnsweredTogether B.Standing G.signs G.fault_count
        (settings_view settings.entry) (questions_view asked.now) (map reply_as replies.items) store.old signer.old
        store.new signer.new) }
    ensures sent { OnOk result (SendsReserved B.Standing G.sent (settings_view settings.entry)
        (questions_view asked.now) store.old signer.old store.new signer.new) }
{
    requests_have_one_reading();
    histories_show_the_same();
    let mut answers = room_for(alloc, asked.len())?;
    let room = room_for(alloc, asked.len())?;
    let pending = begin_each(store, alloc, settings, asked)?;
    {
        let texts = texts_of(&pending.waits, room);
        signer.sign_each(&texts, &mut answers);
    }
    let replies = finish_each(store, alloc, pending, &answers);
    store.tell_the_same();
    Ok(replies)
}

impl<'p, B: Book + Drop> Desk<'p, B> {
    /// Answers stamps together (RFC 3161 2.4.2): a reply for each, in their order, as if each was answered by `answer`,
    /// one after the other. All that no rule refuses are reserved in one commit, their texts are signed in their order,
    /// and all that were signed are sealed in a second one, after which they are answered. Each is judged by the
    /// history with the reservations of those before it. One for which a call of the store, the signer or memory is
    /// refused is rejected by rule 12, stays void where it was reserved, and leaves the others. Where one of the two
    /// commits is refused, all that waited for it are rejected by rule 12.
    ///
    /// Nothing goes out to the signer but texts of what was reserved, in order, each at most once, whatever fails.
    ///
    /// Room for verdicts, signatures, tokens and replies is taken first: where it is refused, the answer is `Memory`,
    /// and nothing is done.
    pub fn answer_each<G: Signer>(
        &mut self,
        asked: &[Asked<'_>],
        signer: &mut G,
    ) -> Result<Vec<Reply>, Fault>
        ensures honest { B.honest self.new.store → B.honest self.old.store }
        ensures memory { IfErr result (λ fault. fault ≡ Fault.Memory) }
        ensures unmoved { OnErr result ((self.new ≡ self.old) × (signer.new ≡ signer.old)) }
        ensures setting { self.new.setting ≡ self.old.setting }
        ensures together { IfOk result (λ replies. IsAnsweredTogether B.Standing G.signs G.fault_count
            self.old.setting (questions_view asked.now) (map reply_as replies.items) self.old.store signer.old
            self.new.store signer.new) }
        ensures sent { OnOk result (SendsReserved B.Standing G.sent self.old.setting (questions_view asked.now)
            self.old.store signer.old self.new.store signer.new) }
    {
        let settings = self.settings;
        answer_together(&mut self.store, self.alloc, settings, asked, signer)
    }
}
