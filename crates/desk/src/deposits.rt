//! The calls of the counter on deposits and the rights to them.
ghost use Rattle.std.specs.Prelude.{◌≡◌, ◌⊎◌, ◌<◌, length, Err, IfErr};
ghost use Rattle.std.specs.Io.KnownBytes.{Keeps};
ghost use Rattle.policy.specs.View.{account_view};
ghost use Rattle.book.specs.{Entries.reader_view, Readers.Account as Named, Readers.Group};
ghost use Rattle.desk.specs.CallContract.{IsStep, no_signer, with_signer};
ghost use Rattle.desk.specs.Command.{Deposit, Show, Token, ListAll, Grant, Revoke};
ghost use Rattle.desk.specs.{Answers.answered, Asked.right_command, Fault.IsOfDeposit, Fault.IsOfSight};
ghost use Rattle.desk.specs.{Fault.IsOfRight, Shown.deposited_as, Shown.shown_as, Shown.listed_as, Shown.done_as};

use crate::desk::Desk;
use crate::fault::Fault;
use crate::laws::steps_keep_their_promises;
use crate::new_deposit::{Submission, deposit_with};
use crate::reply::Deposited;
use crate::rights::{Change, change_by};
use crate::sight::{list_to, show_to, token_to};
use book::{Book, Listed, Reader};
use cms::Signer;
use policy::Account;
use std::io;
use std::io::Write;

impl<'p, B: Book + Drop> Desk<'p, B> {
    /// Stamps octets for the account (RFC 3161 2.4.1, with SHA-256), and keeps them with their token under the owner's
    /// reference, in one commit: the deposit's number, which is its stamp's serial number. Under a reference that the
    /// owner has used, the same octets are answered by the old number, and nothing is reserved. A reference has 1 to 64
    /// ASCII letters, digits, `.`, `_` or `-`, which the caller sees to. The reading is the clock's, in microseconds.
    ///
    /// Refused in this order: `TooLarge` for more than 1,048,576 octets, which asks neither the store nor the signer;
    /// `Conflict` where the owner has used the reference for other octets; `Rejected` with the first rule of 3 to 11
    /// that fails of the stamp's request, which asks for no policy and for the certificate where the account's default
    /// policy gives it out. `Memory`, `Store` and `Signer` come where they are met, `Store` also where no serial number
    /// is left; where that is after the reservation, the reservation stays void, and nothing is deposited.
    pub fn deposit<G: Signer>(
        &mut self,
        account: &Account,
        reading: i64,
        reference: &str,
        bytes: &[u8],
        signer: &mut G,
    ) -> Result<Deposited, Fault>
        ensures honest { B.honest self.new.store → B.honest self.old.store }
        ensures large { 1048576 < length bytes.now
            → (result ≡ Err Fault.TooLarge) × (self.new ≡ self.old) × (signer.new ≡ signer.old) }
        ensures refusals { IfErr result IsOfDeposit }
        ensures step { IsStep B.Standing (with_signer G.signs G.fault_count signer.old signer.new)
            (Deposit (account_view account.now) reading reference.now bytes.now) self.old self.new
            (answered deposited_as result) }
    {
        steps_keep_their_promises();
        let settings = self.settings;
        let submission = Submission {
            account,
            reading,
            reference,
            bytes,
        };
        deposit_with(&mut self.store, self.alloc, settings, submission, signer)
    }

    /// The octets of a deposit that is visible to the account: it is its owner, or a reader, by its own name or in a
    /// group of the policy file, whose last right about it was granted.
    /// Any other is `NotHere`, as is a number that no deposit has. Refused also with `Memory` or `Store`.
    pub fn show(&mut self, account: &Account, number: u64) -> Result<Vec<u8>, Fault>
        ensures honest { B.honest self.new.store → B.honest self.old.store }
        ensures refusals { IfErr result IsOfSight }
        ensures step { IsStep B.Standing no_signer (Show (account_view account.now) number)
            self.old self.new (answered shown_as result) }
    {
        steps_keep_their_promises();
        let settings = self.settings;
        show_to(&mut self.store, settings, account, number).map_err(Fault::from)
    }

    /// The granted reply (RFC 3161 2.4.2) with the token of a deposit that is visible to the account. Refused as `show`
    /// is.
    pub fn token_of(&mut self, account: &Account, number: u64) -> Result<Vec<u8>, Fault>
        ensures honest { B.honest self.new.store → B.honest self.old.store }
        ensures refusals { IfErr result IsOfSight }
        ensures step { IsStep B.Standing no_signer (Token (account_view account.now) number)
            self.old self.new (answered shown_as result) }
    {
        steps_keep_their_promises();
        let settings = self.settings;
        token_to(&mut self.store, self.alloc, settings, account, number).map_err(Fault::from)
    }

    /// The deposits that are visible to the account, by number: number, owner, reference and genTime in microseconds of
    /// each. Refused only with `Memory` or `Store`.
    pub fn list(&mut self, account: &Account) -> Result<Vec<Listed>, Fault>
        ensures honest { B.honest self.new.store → B.honest self.old.store }
        ensures refusals { IfErr result (λ fault. (fault ≡ Fault.Memory) ⊎ (fault ≡ Fault.Store)) }
        ensures step { IsStep B.Standing no_signer (ListAll (account_view account.now)) self.old self.new
            (answered listed_as result) }
    {
        self.list_within(account, &mut io::sink())
    }

    /// What `list` answers, as long as an output has time: it may be flushed before each row is looked up, and nothing
    /// is written to it. Where that fails, the list is given up, and refused with `Memory`. Refused as `list` else.
    pub fn list_within<W: Write>(
        &mut self,
        account: &Account,
        output: &mut W,
    ) -> Result<Vec<Listed>, Fault>
        ensures honest { B.honest self.new.store → B.honest self.old.store }
        ensures unwritten { Keeps (W.contents output.old) (W.contents output.new) }
        ensures refusals { IfErr result (λ fault. (fault ≡ Fault.Memory) ⊎ (fault ≡ Fault.Store)) }
        ensures step { IsStep B.Standing no_signer (ListAll (account_view account.now)) self.old self.new
            (answered listed_as result) }
    {
        steps_keep_their_promises();
        let settings = self.settings;
        list_to(&mut self.store, settings, account, output).map_err(Fault::from)
    }

    /// Gives a reader the right to see a deposit, or takes it: what the four calls do that follow, and refused as these
    /// are.
    pub fn change_right(
        &mut self,
        account: &Account,
        number: u64,
        reader: Reader<'_>,
        change: Change,
    ) -> Result<(), Fault>
        ensures honest { B.honest self.new.store → B.honest self.old.store }
        ensures refusals { IfErr result (IsOfRight (reader_view reader.entry)) }
        ensures step { IsStep B.Standing no_signer
            (right_command change (account_view account.now) number (reader_view reader.entry)) self.old self.new
            (answered done_as result) }
    {
        steps_keep_their_promises();
        let settings = self.settings;
        change_by(&mut self.store, settings, account, number, reader, change).map_err(Fault::from)
    }

    /// Lets the account of a name see a deposit, from now on; again is accepted, and changes nothing. It may be one
    /// that isn't active.
    ///
    /// Refused in this order: `NotHere` where the deposit isn't visible to the account that grants, `NotOwner` where it
    /// is another's, `UnknownReader` where the policy file has no account of that name, `SelfGrant` for the owner
    /// itself. `Memory` and `Store` come where they are met.
    pub fn grant(&mut self, account: &Account, number: u64, name: &str) -> Result<(), Fault>
        ensures honest { B.honest self.new.store → B.honest self.old.store }
        ensures refusals { IfErr result (IsOfRight (Named name.now)) }
        ensures step { IsStep B.Standing no_signer (Grant (account_view account.now) number (Named name.now))
            self.old self.new (answered done_as result) }
    {
        self.change_right(account, number, Reader::Account(name), Change::Give)
    }

    /// Takes that right away, from now on; one that wasn't granted may be taken too, which changes nothing. A member of
    /// a group that has the right still sees the deposit. The right of an account that has left the policy file stays:
    /// it is `UnknownReader`. Refused as `grant` is.
    pub fn revoke(&mut self, account: &Account, number: u64, name: &str) -> Result<(), Fault>
        ensures honest { B.honest self.new.store → B.honest self.old.store }
        ensures refusals { IfErr result (IsOfRight (Named name.now)) }
        ensures step { IsStep B.Standing no_signer (Revoke (account_view account.now) number (Named name.now))
            self.old self.new (answered done_as result) }
    {
        self.change_right(account, number, Reader::Account(name), Change::Take)
    }

    /// Lets the members of a group see a deposit, from now on, those that the policy file names at the time; again is
    /// accepted, and changes nothing. The owner may be among them.
    ///
    /// Refused in this order: `NotHere` where the deposit isn't visible to the account that grants, `NotOwner` where it
    /// is another's, `UnknownGroup` where the policy file has no group of that name. `Memory` and `Store` come where
    /// they are met.
    pub fn grant_group(&mut self, account: &Account, number: u64, name: &str) -> Result<(), Fault>
        ensures honest { B.honest self.new.store → B.honest self.old.store }
        ensures refusals { IfErr result (IsOfRight (Group name.now)) }
        ensures step { IsStep B.Standing no_signer (Grant (account_view account.now) number (Group name.now))
            self.old self.new (answered done_as result) }
    {
        self.change_right(account, number, Reader::Group(name), Change::Give)
    }

    /// Takes that right away, from now on; a member who is a reader by its own name stays one. A right that wasn't
    /// granted may be taken too, which changes nothing. That of a group that has left the policy file stays, and has no
    /// members: it is `UnknownGroup`. Refused as `grant_group` is.
    pub fn revoke_group(&mut self, account: &Account, number: u64, name: &str) -> Result<(), Fault>
        ensures honest { B.honest self.new.store → B.honest self.old.store }
        ensures refusals { IfErr result (IsOfRight (Group name.now)) }
        ensures step { IsStep B.Standing no_signer (Revoke (account_view account.now) number (Group name.now))
            self.old self.new (answered done_as result) }
    {
        self.change_right(account, number, Reader::Group(name), Change::Take)
    }
}
