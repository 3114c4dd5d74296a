//! What journeys are made over, where they begin and fail, and what has to hold of them.
use crate::failures::ledger::{Ledger, Step, Tables};
use crate::failures::openings::{Course, Fates, Image, Look, age, run};
use crate::failures::platter::{Fate, Outcome, Platter, Reading};
use crate::setting::Setting;
use crate::tally::Tally;
use std::alloc::Global;

/// One of the two files.
#[derive(Clone, Copy, Debug)]
pub enum Place {
    Log,
    Database,
}

impl Place {
    pub const BOTH: [Place; 2] = [Place::Log, Place::Database];

    /// This file fails so, and the other one doesn't.
    fn fates(self, fate: Fate) -> Fates {
        match self {
            Place::Log => Fates {
                log: fate,
                db: Fate::NONE,
            },
            Place::Database => Fates {
                log: Fate::NONE,
                db: fate,
            },
        }
    }

    /// This file stops after so many calls.
    pub fn stop(self, calls: u64) -> Fates {
        self.fates(Fate {
            calls,
            ..Fate::NONE
        })
    }

    /// In this file there is no room from one call that writes on and before another.
    pub fn full(self, full_from: u64, full_until: u64) -> Fates {
        self.fates(Fate {
            full_from,
            full_until,
            ..Fate::NONE
        })
    }
}

/// Where journeys begin: what the files hold, and what was told.
#[derive(Drop)]
pub struct Beginning {
    pub image: Image,
    pub ledger: Ledger,
    /// How many steps are taken from there.
    pub steps: u64,
}

/// The files over which journeys are made, and what is told of them.
#[derive(Clone, Copy)]
pub struct Trial<'t> {
    pub rt: &'t HostRuntime,
    pub setting: &'t Setting,
    pub reading: Reading,
    pub name: &'t str,
    /// Whether stops are followed by others in the opening after them.
    pub has_pairs: bool,
}

impl<'t> Trial<'t> {
    /// Over files of a reading.
    pub fn new(rt: &'t HostRuntime, setting: &'t Setting, reading: Reading) -> Trial<'t> {
        Trial {
            rt,
            setting,
            reading,
            name: name_of(reading),
            has_pairs: false,
        }
    }

    pub fn alloc(self) -> Global {
        self.rt.alloc()
    }

    /// The whole journey, at which nothing is looked at and each step is tried once.
    pub fn course(self, fates: Fates) -> Course<'t> {
        Course {
            alloc: self.alloc(),
            setting: self.setting,
            reading: self.reading,
            fates,
            look: Look::None,
            steps: Step::COUNT,
            tries: 1,
        }
    }

    /// The whole journey, over files of no octets.
    pub fn nothing(self) -> anyhow::Result<Beginning> {
        Ok(Beginning {
            image: Image::empty(self.alloc()),
            ledger: Ledger::new(self.alloc())?,
            steps: Step::COUNT,
        })
    }

    /// What comes behind so many steps, over tables of an earlier version.
    pub fn earlier<D: Platter>(self, version: i64, before: u64) -> anyhow::Result<Beginning> {
        let course = Course {
            steps: before,
            ..self.course(Fates::NONE)
        };
        let mut ledger = Ledger::new(self.alloc())?;
        let left = run::<D>(course, &mut ledger, &Image::empty(self.alloc()))?;
        ledger.expect(left.refusals == Some(0), "the first steps aren't taken");
        let (image, dump) = age::<D>(course, &left.image, version)?;
        ledger.tables = Tables::Earlier(dump);
        Ok(Beginning {
            image,
            ledger,
            steps: Step::COUNT,
        })
    }

    /// Goes on to the journey's end over what was left, looks at the history before and after, and opens the files once
    /// more.
    fn end<D: Platter>(self, ledger: &mut Ledger, image: &Image) -> anyhow::Result<()> {
        let course = Course {
            look: Look::Whole,
            ..self.course(Fates::NONE)
        };
        let left = run::<D>(course, ledger, image)?;
        ledger.expect(left.is_opened, "the files aren't opened again");
        ledger.expect(left.refusals.is_some(), "the journey doesn't go on");
        let left = run::<D>(course, ledger, &left.image)?;
        ledger.expect(left.is_opened, "the files aren't opened at the end");
        Ok(())
    }

    /// The same, and what was found wrong in the journey, which is one more.
    pub fn end_told<D: Platter>(
        self,
        tally: &mut Tally,
        ledger: &mut Ledger,
        image: &Image,
        fates: Fates,
    ) -> anyhow::Result<()> {
        self.end::<D>(ledger, image)?;
        self.tell(tally, ledger, fates)
    }

    /// One journey more, and what was found wrong in it.
    pub fn tell(self, tally: &mut Tally, ledger: &Ledger, fates: Fates) -> anyhow::Result<()> {
        tally.add(ledger.wrong().is_none());
        if let Some(what) = ledger.wrong() {
            println!(self.rt; "  {}, {fates:?}: {what}", self.name)?;
        }
        Ok(())
    }
}

/// What is told of a reading.
fn name_of(reading: Reading) -> &'static str {
    match (reading.mixes, reading.outcome) {
        (true, Outcome::Written) => "kinder reading, all stays",
        (true, Outcome::Synced) => "kinder reading, what isn't synced is lost",
        (true, Outcome::Torn) => "kinder reading, writes are torn",
        (false, Outcome::Written) => "warier reading, all stays",
        (false, Outcome::Synced) => "warier reading, what isn't synced is lost",
        (false, Outcome::Torn) => "warier reading, writes are torn",
    }
}
