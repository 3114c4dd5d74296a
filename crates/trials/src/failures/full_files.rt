//! Journeys over full files.
use crate::failures::medium::Medium;
use crate::failures::openings::{Course, Fates, run};
use crate::failures::platter::{Outcome, Platter, Reading};
use crate::failures::trial::{Beginning, Place, Trial};
use crate::failures::versions::EARLIER;
use crate::setting::Setting;
use crate::tally::Tally;

/// More calls than a journey makes of a file.
const MOST_CALLS: u64 = 10_000;

/// At how many calls that write there is no room, before there is room again.
const FULL_CALLS: u64 = 3;

/// Behind how many steps tables are taken to the version of now: bob has his right then, and it isn't taken yet.
const STEPS_BEFORE: u64 = 5;

impl Trial<'_> {
    /// Makes a journey with no room in a file from a call that writes on, for so many of them. Each step is tried until
    /// there is room again. Tells how it ended, and after how many refusals.
    fn fill_once<D: Platter>(
        self,
        tally: &mut Tally,
        beginning: &Beginning,
        fates: Fates,
    ) -> anyhow::Result<Option<u64>> {
        let course = Course {
            tries: FULL_CALLS + 2,
            steps: beginning.steps,
            ..self.course(fates)
        };
        let mut ledger = beginning.ledger.copied()?;
        let left = run::<D>(course, &mut ledger, &beginning.image)?;
        self.end_told::<D>(tally, &mut ledger, &left.image, fates)?;
        Ok(left.refusals)
    }

    /// Makes a journey with no room in a file from each call that writes on: for good, until the files are opened
    /// again, and for a few calls. Tells how many journeys these were, and how many of the latter went on without
    /// another opening.
    fn fill<D: Platter>(self, beginning: &Beginning, place: Place) -> anyhow::Result<()> {
        let (mut tally, mut gone_on) = (Tally::NONE, 0u64);
        for from in 0..MOST_CALLS {
            let mut whole = tally;
            let for_good = place.full(from, u64::MAX);
            if self.fill_once::<D>(&mut whole, beginning, for_good)? == Some(0) {
                break;
            }
            tally = whole;
            let for_some = place.full(from, from.saturating_add(FULL_CALLS));
            let refusals = self.fill_once::<D>(&mut tally, beginning, for_some)?;
            gone_on = gone_on.saturating_add(u64::from(refusals.is_some()));
        }
        print!(self.rt;
            "{}, no room in the {place:?}: {} journeys",
            self.name, tally.tried
        )?;
        println!(self.rt;
            ", {gone_on} went on when there was room; {} wrong",
            tally.wrong
        )?;
        Ok(())
    }

    /// Makes the journey with no room in each of the two files.
    fn fill_both<D: Platter>(self, beginning: &Beginning) -> anyhow::Result<()> {
        for place in Place::BOTH {
            self.fill::<D>(beginning, place)?;
        }
        Ok(())
    }

    /// Makes what is left of the journey behind a migration.
    fn fill_version<D: Platter>(self, version: i64) -> anyhow::Result<()> {
        let name = format!(in self.alloc(); "{}, tables of version {version}", self.name)?;
        let trial = Trial {
            name: name.as_str(),
            ..self
        };
        trial.fill_both::<D>(&trial.earlier::<D>(version, STEPS_BEFORE)?)
    }

    /// Makes the journey, and what is left of it behind a migration, over full files.
    fn fill_each<D: Platter>(self) -> anyhow::Result<()> {
        self.fill_both::<D>(&self.nothing()?)?;
        for version in EARLIER {
            self.fill_version::<D>(version)?;
        }
        Ok(())
    }
}

/// Makes the journey over full files, by both readings of a stop.
pub fn fill_each<'t>(rt: &'t HostRuntime, setting: &'t Setting) -> anyhow::Result<()> {
    for (mixes, name) in [(true, "kinder reading"), (false, "warier reading")] {
        let outcome = Outcome::Written;
        let trial = Trial {
            name,
            ..Trial::new(rt, setting, Reading { mixes, outcome })
        };
        trial.fill_each::<Medium>()?;
    }
    Ok(())
}
