//! What those who ask the counter were told, and what was given out to be signed.
use crate::failures::dump::Dump;
use crate::failures::notes::NotingSigner;
use cms::{CmsFault, KeyedHash};
use std::alloc::{AllocError, Global};

/// What is asked of the counter, one after the other.
#[derive(Clone, Copy)]
pub enum Step {
    /// A calibration.
    Calibrate,
    /// A request.
    Stamp,
    /// A request that is reserved and never signed.
    Leave,
    /// alice's deposit.
    Deposit,
    /// A right to it for bob.
    Give,
    /// That right is taken again.
    Take,
    /// A request a day later.
    StampLater,
    /// Another identity succeeds.
    Succeed,
    /// A request under it.
    StampUnder,
    /// Several entries in one commit.
    Append,
    /// Nothing more.
    Nothing,
}

impl Step {
    /// How many steps there are.
    pub const COUNT: u64 = 10;

    /// How many there are before the succession, as programs of earlier versions knew them.
    pub const BEFORE_SUCCESSION: u64 = 7;

    /// The step behind it.
    pub fn next(self) -> Step {
        match self {
            Step::Calibrate => Step::Stamp,
            Step::Stamp => Step::Leave,
            Step::Leave => Step::Deposit,
            Step::Deposit => Step::Give,
            Step::Give => Step::Take,
            Step::Take => Step::StampLater,
            Step::StampLater => Step::Succeed,
            Step::Succeed => Step::StampUnder,
            Step::StampUnder => Step::Append,
            Step::Append | Step::Nothing => Step::Nothing,
        }
    }
}

/// Whether bob has to see the deposit.
#[derive(Clone, Copy)]
pub enum Sight {
    /// It was told that he does, or that was seen.
    Sees,
    /// He doesn't.
    SeesNot,
    /// A command that gives or takes the right was cut.
    Either,
}

/// What was told of the tables.
#[derive(Drop)]
pub enum Tables {
    /// Nothing.
    Unmade,
    /// That they are there, in the version of now.
    Made,
    /// That they hold this in an earlier version, and not that they were taken to that of now.
    Earlier(Dump),
}

/// A token that was given.
#[derive(Drop)]
pub struct Granted {
    pub serial: u64,
    /// The octets of the TimeStampResp.
    pub reply: Vec<u8>,
}

/// What was told and given out.
#[derive(Drop)]
pub struct Ledger {
    alloc: Global,
    pub signer: NotingSigner<KeyedHash>,
    /// The step that isn't acknowledged yet.
    pub step: Step,
    pub tables: Tables,
    pub grants: Vec<Granted>,
    /// The number of the deposit, once it was acknowledged.
    pub deposit: Option<u64>,
    pub sight: Sight,
    /// Whether the succession was acknowledged.
    pub is_succeeded: bool,
    /// Whether the entries of one commit were acknowledged.
    pub is_appended: bool,
    /// What was found wrong first.
    wrong: Option<&'static str>,
}

impl Tables {
    /// The same once more.
    fn copied(&self, alloc: Global) -> Result<Tables, AllocError> {
        match self {
            Tables::Unmade => Ok(Tables::Unmade),
            Tables::Made => Ok(Tables::Made),
            Tables::Earlier(dump) => Ok(Tables::Earlier(dump.copied(alloc)?)),
        }
    }
}

fn make_signer(alloc: Global) -> Result<NotingSigner<KeyedHash>, CmsFault> {
    let signer = KeyedHash::new(alloc, b"k")?;
    Ok(NotingSigner::new(alloc, signer))
}

impl Ledger {
    /// Before the first step.
    pub fn new(alloc: Global) -> anyhow::Result<Ledger> {
        Ok(Ledger {
            alloc,
            signer: make_signer(alloc)?,
            step: Step::Calibrate,
            tables: Tables::Unmade,
            grants: Vec::new(alloc),
            deposit: None,
            sight: Sight::SeesNot,
            is_succeeded: false,
            is_appended: false,
            wrong: None,
        })
    }

    /// Takes over what was given out and given from another ledger.
    fn take_over(&mut self, other: &Ledger) -> Result<(), AllocError> {
        for text in other.signer.texts().unwrap_or(&[]) {
            self.signer.note(text);
        }
        for granted in &other.grants {
            self.keep(granted.serial, &granted.reply)?;
        }
        self.tables = other.tables.copied(self.alloc)?;
        Ok(())
    }

    /// The same once more.
    pub fn copied(&self) -> anyhow::Result<Ledger> {
        let mut copy = Ledger::new(self.alloc)?;
        copy.take_over(self)?;
        copy.step = self.step;
        copy.deposit = self.deposit;
        copy.sight = self.sight;
        copy.is_succeeded = self.is_succeeded;
        copy.is_appended = self.is_appended;
        copy.wrong = self.wrong;
        Ok(copy)
    }

    /// Keeps a token that was given.
    pub fn keep(&mut self, serial: u64, reply: &[u8]) -> Result<(), AllocError> {
        let reply = Vec::from_slice(self.alloc, reply)?;
        self.grants.push(Granted { serial, reply })?;
        Ok(())
    }

    /// Notes what is wrong, if it doesn't hold.
    pub fn expect(&mut self, holds: bool, wrong: &'static str) {
        if !holds && self.wrong.is_none() {
            self.wrong = Some(wrong);
        }
    }

    /// What was found wrong first.
    pub fn wrong(&self) -> Option<&'static str> {
        if self.signer.texts().is_none() {
            return Some("a text isn't noted");
        }
        self.wrong
    }
}
