//! Journeys with stops.
use crate::failures::ledger::{Ledger, Step};
use crate::failures::medium::Medium;
use crate::failures::openings::{Course, Fates, Image, Left, Look, run};
use crate::failures::platter::{Outcome, Platter, Reading};
use crate::failures::trial::{Beginning, Place, Trial};
use crate::failures::versions::EARLIER;
use crate::setting::Setting;
use crate::tally::Tally;
use sqlite_disk::Memory;

/// More calls than a journey makes of a file.
const MOST_CALLS: u64 = 10_000;

/// Of how many stops of the first opening one is followed by stops of the second.
const STRIDE: u64 = 5;

/// Journeys that were stopped at calls of each file, and those of them that were stopped again in the opening after it.
#[derive(Clone, Copy)]
struct Stops {
    log: Tally,
    database: Tally,
    pairs: Tally,
}

impl Stops {
    /// None yet.
    const NONE: Stops = Stops {
        log: Tally::NONE,
        database: Tally::NONE,
        pairs: Tally::NONE,
    };

    /// Those at calls of a file.
    fn at(&mut self, place: Place) -> &mut Tally {
        match place {
            Place::Log => &mut self.log,
            Place::Database => &mut self.database,
        }
    }
}

impl Trial<'_> {
    /// Stops a file during the opening after a stop, after a number of calls. Adds to the tally, and tells whether it
    /// stopped.
    fn stop_opening<D: Platter>(
        self,
        ledger: &Ledger,
        image: &Image,
        fates: Fates,
        tally: &mut Tally,
    ) -> anyhow::Result<bool> {
        let course = Course {
            steps: 0,
            ..self.course(fates)
        };
        let mut ledger = ledger.copied()?;
        let left = run::<D>(course, &mut ledger, image)?;
        if !left.is_opened {
            self.end_told::<D>(tally, &mut ledger, &left.image, fates)?;
        }
        Ok(!left.is_opened)
    }

    /// Stops a file during the opening after a stop, after each number of calls.
    fn stop_openings<D: Platter>(
        self,
        ledger: &Ledger,
        image: &Image,
        place: Place,
        pairs: &mut Tally,
    ) -> anyhow::Result<()> {
        for calls in 0..MOST_CALLS {
            if !self.stop_opening::<D>(ledger, image, place.stop(calls), pairs)? {
                break;
            }
        }
        Ok(())
    }

    /// Stops a file after a number of calls, and at each fifth of them files once more in the opening after it, where
    /// that is asked for. Tells whether there was a stop.
    fn stop_at<D: Platter>(
        self,
        beginning: &Beginning,
        place: Place,
        calls: u64,
        stops: &mut Stops,
    ) -> anyhow::Result<bool> {
        let fates = place.stop(calls);
        let course = Course {
            steps: beginning.steps,
            ..self.course(fates)
        };
        let mut ledger = beginning.ledger.copied()?;
        let left = run::<D>(course, &mut ledger, &beginning.image)?;
        if left.refusals.is_some() {
            return Ok(false);
        }
        if self.has_pairs && calls % STRIDE == 0 {
            for place in Place::BOTH {
                self.stop_openings::<D>(&ledger, &left.image, place, &mut stops.pairs)?;
            }
        }
        self.end_told::<D>(stops.at(place), &mut ledger, &left.image, fates)?;
        Ok(true)
    }

    /// Stops a file after each number of calls, until a journey ends without a stop.
    fn stop<D: Platter>(
        self,
        beginning: &Beginning,
        place: Place,
        stops: &mut Stops,
    ) -> anyhow::Result<()> {
        for calls in 0..MOST_CALLS {
            if !self.stop_at::<D>(beginning, place, calls, stops)? {
                break;
            }
        }
        Ok(())
    }

    /// Stops each of the two files.
    fn stop_both<D: Platter>(self, beginning: &Beginning, stops: &mut Stops) -> anyhow::Result<()> {
        for place in Place::BOTH {
            self.stop::<D>(beginning, place, stops)?;
        }
        Ok(())
    }

    /// Takes the first step, and one that is stopped between a reservation and its signature: what is left.
    fn leave<D: Platter>(self, course: Course<'_>, ledger: &mut Ledger) -> anyhow::Result<Left> {
        let left = run::<D>(course, ledger, &Image::empty(self.alloc()))?;
        ledger.step = Step::Leave;
        run::<D>(course, ledger, &left.image)
    }

    /// Stops between a reservation and its signature, and goes on behind it.
    fn leave_void<D: Platter>(self) -> anyhow::Result<Tally> {
        let mut course = Course {
            steps: 1,
            ..self.course(Fates::NONE)
        };
        let mut ledger = Ledger::new(self.alloc())?;
        let left = self.leave::<D>(course, &mut ledger)?;
        ledger.step = Step::StampLater;
        course.look = Look::Void;
        let left = run::<D>(course, &mut ledger, &left.image)?;
        ledger.expect(left.refusals == Some(0), "the journey doesn't go on");
        let has_next = ledger
            .grants
            .last()
            .is_some_and(|granted| granted.serial == 2);
        ledger.expect(has_next, "the next serial number isn't 2");
        let mut tally = Tally::NONE;
        self.tell(&mut tally, &ledger, Fates::NONE)?;
        Ok(tally)
    }

    fn tell_stops(self, stops: Stops, wrong: u64) -> anyhow::Result<()> {
        let Stops {
            log,
            database,
            pairs,
        } = stops;
        print!(self.rt; "{}: {} stops at calls of the log", self.name, log.tried)?;
        print!(self.rt; ", {} of the database file", database.tried)?;
        if self.has_pairs {
            print!(self.rt; ", {} pairs of every {STRIDE}th", pairs.tried)?;
        }
        let wrong = log.plus(database).plus(pairs).wrong.saturating_add(wrong);
        println!(self.rt; "; {wrong} wrong")?;
        Ok(())
    }

    /// Makes the journey with each stop.
    fn stop_each<D: Platter>(self) -> anyhow::Result<()> {
        let mut stops = Stops::NONE;
        self.stop_both::<D>(&self.nothing()?, &mut stops)?;
        let void = self.leave_void::<D>()?;
        self.tell_stops(stops, void.wrong)
    }

    /// Takes tables of an earlier version to that of now between each two steps, with each stop of it and of the step
    /// behind it.
    fn stop_migrations<D: Platter>(self, version: i64) -> anyhow::Result<()> {
        let name = format!(in self.alloc(); "{}, tables of version {version}", self.name)?;
        let trial = Trial {
            name: name.as_str(),
            ..self
        };
        let mut stops = Stops::NONE;
        for before in 0..=Step::BEFORE_SUCCESSION {
            let mut beginning = trial.earlier::<D>(version, before)?;
            beginning.steps = 1;
            trial.stop_both::<D>(&beginning, &mut stops)?;
        }
        trial.tell_stops(stops, 0)
    }
}

/// Makes the journey with each stop, by both readings of a stop.
pub fn stop_each<'t>(rt: &'t HostRuntime, setting: &'t Setting) -> anyhow::Result<()> {
    for mixes in [true, false] {
        for outcome in Outcome::ALL {
            let mut trial = Trial::new(rt, setting, Reading { mixes, outcome });
            trial.has_pairs = outcome != Outcome::Written;
            trial.stop_each::<Medium>()?;
        }
    }
    Ok(())
}

/// Makes it with migrations of tables of that version between its steps, by both readings, where what isn't synced is
/// lost.
pub fn stop_migrations<'t>(
    rt: &'t HostRuntime,
    setting: &'t Setting,
    version: i64,
) -> anyhow::Result<()> {
    for mixes in [true, false] {
        let outcome = Outcome::Synced;
        Trial::new(rt, setting, Reading { mixes, outcome }).stop_migrations::<Medium>(version)?;
    }
    Ok(())
}

/// Makes it, with migrations too, over the toolchain's own file in memory, which knows the warier reading alone.
pub fn stop_memory<'t>(rt: &'t HostRuntime, setting: &'t Setting) -> anyhow::Result<()> {
    let reading = Reading {
        mixes: false,
        outcome: Outcome::Synced,
    };
    let trial = Trial {
        name: "the toolchain's memory",
        ..Trial::new(rt, setting, reading)
    };
    trial.stop_each::<Memory>()?;
    for version in EARLIER {
        trial.stop_migrations::<Memory>(version)?;
    }
    Ok(())
}
