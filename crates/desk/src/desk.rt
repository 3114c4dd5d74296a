//! The calls of the counter.
ghost use mir.Syntax.{named};
ghost use Rattle.std.specs.Borrow.{Lends, sem};
ghost use Rattle.std.specs.Prelude.{◌≡◌, ◌⊎◌, ◌≤◌, ℕ, List, [], length, IfOk, IfErr, MatchResult};
ghost use Rattle.policy.specs.View.{policy_view};
ghost use Rattle.tsp.specs.{Rules.IsFirstFailing, declared.rule.Rule.Rule};
ghost use Rattle.decide.specs.View.{account_asked};
ghost use Rattle.book.specs.{History.History, Stands.Stands};
ghost use Rattle.desk.specs.Answers.{begun_as, reply_as, answered};
ghost use Rattle.desk.specs.CallContract.{HasOpened, StandsInForce, IsStep, no_signer, with_signer, with_store};
ghost use Rattle.desk.specs.Command.{Begin, Finish, Abandon, Stamp, Stamped, Rejected, Done};
ghost use Rattle.desk.specs.{Calls.settings_view, Findings.HoldsUnasked, MachineRuns.IsProper, Replies.IsGranted};
ghost use Rattle.desk.specs.{Replies.IsRejected, contracts.desk.Desk.the_row as desk_row};

use crate::batch::Asked;
use crate::fault::Fault;
use crate::keeping::Keeping;
use crate::laws::steps_keep_their_promises;
use crate::pending::Pending;
use crate::reply::{Begun, Reply};
use crate::reservation::reserve;
use crate::settings::{Settings, is_proper};
use crate::stamp::answer_with;
use crate::stamp_end::finish_with;
use crate::stamp_start::{begun_by, judge_one};
use crate::succession::install;
use crate::unsigned_token::reply_with;
use book::Book;
use cms::Signer;
use policy::{Account, Policy};
use std::alloc::Global;
use std::marker::Model;

/// The counter of a Time-Stamping Authority: gives tokens by a written policy, over a store, which is any
/// `Book`.
///
/// A call that is refused changes nothing, but for a reservation that was committed before the refusal: it stays void.
#[derive(Drop)]
pub struct Desk<'p, B: Book + Drop> {
    pub(crate) settings: Settings<'p>,
    pub(crate) store: B,
    pub(crate) alloc: Global,
}

impl<'p, B: Book + Drop> Model for Desk<'p, B> {
    ghost use Rattle.desk.specs.{CallContract.DeskValue, auxiliary.Codes.desk_code};

    ghost Value = { DeskValue B };

    ghost coded = { desk_code B.code };

    ghost use Rattle.desk.specs.{Calls.settings_view, MachineRuns.IsProper};

    ghost view = { λ desk. record { setting = settings_view desk.settings; store = desk.store } };

    ghost invariant = { λ desk. IsProper (settings_view desk.settings) };
}

impl<'p, B: Book + Drop> Desk<'p, B> {
    /// Opens a desk over a store; its tokens name the identity's certificate and the signer's algorithm, and carry the
    /// identity's certificates where they are asked for. The identity is installed in the store, unless it is the one
    /// that was installed last (certificate and chain are equal). The desk keeps the allocator for its answers.
    ///
    /// Refused with `Memory` or `Store`, where it is met: nothing is installed then, and the store is handed back. The
    /// setting is proper, as what is promised of sound histories needs it.
    pub fn open(
        alloc: Global,
        settings: Settings<'p>,
        mut store: B,
    ) -> Result<Desk<'p, B>, (Fault, B)>
        ensures honest { MatchResult result (λ desk. B.honest desk.store → B.honest store)
            (λ refusal. B.honest refusal.1 → B.honest store) }
        ensures step { HasOpened B.Standing (settings_view settings.entry) store result }
        ensures in_force { IfOk result (λ desk. B.honest desk.store → (b : History) → Stands B.Standing b store
            → StandsInForce B.Standing desk.setting.in_force b desk.store) }
        ensures opened { IfOk result (λ desk. B.honest desk.store → B.is_open store) }
        ensures proper { IsProper (settings_view settings.entry) }
        ensures refusals { IfErr result (λ refusal. (refusal.0 ≡ Fault.Memory) ⊎ (refusal.0 ≡ Fault.Store)) }
    {
        steps_keep_their_promises();
        is_proper(settings);
        match install(&mut store, settings.identity) {
            Ok(()) => Ok(Desk {
                settings,
                store,
                alloc,
            }),
            Err(obstacle) => Err((Fault::from(obstacle), store)),
        }
    }

    /// The policy file. Takes no memory.
    pub fn policy(&self) -> &'p Policy
        ensures { policy_view result.now ≡ self.now.setting.file }
    {
        self.settings.policy
    }

    /// The store, lent: what it becomes is what the desk's store is from then on. Who installs an identity by it takes
    /// away what is said of the identity in force. Takes no memory.
    pub fn store(&mut self) -> &mut B
        ensures* lends { sem 𝓛 (Lends (desk_row (record { mir = named 1; lft = [] }) B.row B.Standing)
            B.row self.entry result (with_store self.old)) }
        ensures same { result.now ≡ self.old.store }
    {
        let store = &mut self.store;
        store
    }

    /// The store, taken back. Takes no memory.
    pub fn into_store(self) -> B
        ensures { result ≡ self.entry.store }
    {
        let Desk {
            settings: _,
            store,
            alloc: _,
        } = self;
        store
    }

    /// Judges a request by the rules 1 to 11, and reserves the next serial number where none fails (RFC 3161 2.4.2):
    /// the rejection by the first rule that fails, or what waits for its signature. The reading is the clock's, in
    /// microseconds.
    ///
    /// A request that fails one of the rules 1 to 9 is rejected without a call of the store and without memory. Refused
    /// with `Memory` or `Store` where a call that the judging or the reservation needed was refused, and with `Store`
    /// where no serial number is left; nothing is reserved then. All memory is taken before the reservation: once it is
    /// committed, this call succeeds.
    pub fn begin(
        &mut self,
        account: Option<&Account>,
        reading: i64,
        query: &[u8],
    ) -> Result<Begun<'p>, Fault>
        ensures honest { B.honest self.new.store → B.honest self.old.store }
        ensures step { IsStep B.Standing no_signer (Begin (account_asked account.entry) reading query.now)
            self.old self.new (answered begun_as result) }
        ensures unasked { (rule : Rule)
            → IsFirstFailing (HoldsUnasked self.old.setting.file (account_asked account.entry)
            query.now) rule → (answered begun_as result ≡ Rejected rule) × (self.new ≡ self.old) }
        ensures refusals { IfErr result (λ fault. (fault ≡ Fault.Memory) ⊎ (fault ≡ Fault.Store)) }
    {
        steps_keep_their_promises();
        let settings = self.settings;
        let asked = Asked {
            account,
            reading,
            query,
        };
        let judged = judge_one(&mut self.store, self.alloc, settings, &[], asked);
        begun_by(reserve(&mut self.store, settings, judged))
    }

    /// Stores the token of a pending stamp over its signature of 1 to 4,096 octets, and answers the granted reply (RFC
    /// 3161 2.4.2, RFC 5652 5.4). The caller's condition: this desk's store holds the reservation, and no token of it.
    ///
    /// Refused with `Memory` or `Store`; the reservation stays void then.
    pub fn finish(&mut self, pending: Pending<'p>, signature: &[u8]) -> Result<Reply, Fault>
        requires some { 1 ≤ length signature.now }
        requires few { length signature.now ≤ 4096 }
        ensures honest { B.honest self.new.store → B.honest self.old.store }
        ensures refusals { IfErr result (λ fault. (fault ≡ Fault.Memory) ⊎ (fault ≡ Fault.Store)) }
        ensures step { IsStep B.Standing no_signer (Finish pending.entry signature.now) self.old self.new
            (answered reply_as result) }
    {
        steps_keep_their_promises();
        let kept = finish_with(
            &mut self.store,
            self.alloc,
            pending,
            signature,
            Keeping::Seal,
        )?;
        Ok(reply_with(kept))
    }

    /// Leaves the reservation of a pending stamp void. The caller's condition is that of `finish`. Takes no memory.
    pub fn abandon(&mut self, pending: Pending<'p>)
        ensures same { self.new ≡ self.old }
        ensures step { IsStep B.Standing no_signer (Abandon pending.entry) self.old
            self.new Done }
    {
        steps_keep_their_promises();
        pending.abandon();
    }

    /// Answers a request (RFC 3161 2.4.2): the granted reply, whose token is stored, or the rejection by the first rule
    /// that fails. Want of memory, a store that fails or has no serial number left, and a signer that fails are rule
    /// 12, which comes from nothing else. The signer is asked once at most, and only after the reservation is
    /// committed; where it or what comes after it is refused, the reservation stays void. The reading is the clock's,
    /// in microseconds.
    pub fn answer<G: Signer>(
        &mut self,
        account: Option<&Account>,
        reading: i64,
        query: &[u8],
        signer: &mut G,
    ) -> Reply
        ensures honest { B.honest self.new.store → B.honest self.old.store }
        ensures unasked { (rule : Rule)
            → IsFirstFailing (HoldsUnasked self.old.setting.file (account_asked account.entry)
            query.now) rule
            → (reply_as result ≡ Rejected rule) × (self.new ≡ self.old) × (signer.new ≡ signer.old) }
        ensures granted { B.honest self.new.store → (b : History) → Stands B.Standing b self.old.store
            → (serial : ℕ) (reply : List ℕ) → reply_as result ≡ Stamped serial reply
            → IsGranted self.old.setting (λ text answer. G.signs signer.old text answer signer.new)
            (account_asked account.entry) reading query.now b serial reply }
        ensures rejected { B.honest self.new.store → (b : History) → Stands B.Standing b self.old.store
            → (rule : Rule) → reply_as result ≡ Rejected rule
            → IsRejected self.old.setting (account_asked account.entry) reading query.now b rule }
        ensures step { IsStep B.Standing (with_signer G.signs G.fault_count signer.old signer.new)
            (Stamp (account_asked account.entry) reading query.now) self.old self.new (reply_as result) }
    {
        steps_keep_their_promises();
        let settings = self.settings;
        let asked = Asked {
            account,
            reading,
            query,
        };
        answer_with(&mut self.store, self.alloc, settings, asked, signer)
    }
}
