//! What the rows before a stamp say of it.
ghost use Rattle.std.specs.Prelude.{◌≡◌, ◌==◌, ◌&&◌, ℕ, min, [], ◌∷◌, ◌++◌, List, Some, MatchResult, if◌then◌else◌};
ghost use Rattle.std.specs.Str.{bytes_eq};
ghost use Rattle.gentime.specs.GenTime.{last_moment};
ghost use Rattle.book.specs.{Rows.StampRow, Values.stamp_view};
ghost use Rattle.judgement.specs.Past.{IsPast, before_of, count_in, count_on};

use crate::evidence::Before;
use book::{DAY, Stamp};
use gentime::{GenTime, LAST_MOMENT};
use std::alloc::{AllocError, Global};
use std::collections::BTreeMap;

/// What is known of rows, which are added in the order of their serial numbers. It keeps a number for each account and
/// each UTC day on which it has a row.
#[derive(Drop)]
pub struct Past {
    last_gen_time: Option<GenTime>,
    /// How many rows of an account are on a day, counted from 1970-01-01.
    counts: BTreeMap<String, BTreeMap<u64, u64>>,
    alloc: Global,
}

impl Past {
    /// What is known of no rows.
    pub fn new(alloc: Global) -> Past
        ensures { IsPast [] result }
    {
        Past {
            last_gen_time: None,
            counts: BTreeMap::new(alloc),
            alloc,
        }
    }

    /// What the rows say of a stamp that follows them: the genTime of the last one, if there is one, and how many of
    /// them are the stamp's account's, on the UTC day of its genTime.
    pub fn before(&self, stamp: &Stamp) -> Before
        ensures { (rows : List StampRow) → IsPast rows self.now → result ≡ before_of rows (stamp_view stamp.now) }
    {
        Before {
            last_gen_time: self.last_gen_time,
            count: self.count(stamp.account.as_str(), stamp.gen_time / DAY),
        }
    }

    /// Adds the row that follows. Refused where memory runs out, or the account has 2^64 - 1 rows on that day; nothing
    /// is added then.
    pub fn add(&mut self, stamp: &Stamp) -> Result<(), AllocError>
        ensures { (rows : List StampRow) → IsPast rows self.old
            → MatchResult result (λ _. IsPast (rows ++ stamp_view stamp.now ∷ []) self.new)
            (λ _. IsPast rows self.new) }
    {
        let account = stamp.account.as_str();
        let day = stamp.gen_time / DAY;
        let count = self.count(account, day).checked_add(1).ok_or(AllocError)?;
        self.set_count(account, day, count)?;
        self.last_gen_time = Some(moment_of(stamp.gen_time));
        Ok(())
    }

    /// So many rows of the account are on that day, from now on.
    fn set_count(&mut self, account: &str, day: u64, count: u64) -> Result<(), AllocError>
        ensures last { self.new.last_gen_time ≡ self.old.last_gen_time }
        ensures count { MatchResult result
            (λ _. (a : List ℕ) (d : ℕ) → count_in self.new.counts a d
            ≡ (if bytes_eq account.now a && (day == d) then count else count_in self.old.counts a d))
            (λ _. (a : List ℕ) (d : ℕ) → count_in self.new.counts a d ≡ count_in self.old.counts a d) }
    {
        if let Some(days) = self.counts.get_mut(account) {
            return set_on(days, day, count);
        }
        let mut days = BTreeMap::new(self.alloc);
        set_on(&mut days, day, count)?;
        let key = String::from_str(self.alloc, account)?;
        self.counts.insert(key, days)?;
        Ok(())
    }

    fn count(&self, account: &str, day: u64) -> u64
        ensures { result ≡ count_in self.now.counts account.now day }
    {
        match self.counts.get(account) {
            Some(days) => days.get(&day).copied().unwrap_or(0),
            None => 0,
        }
    }
}

/// So many are on that day, from now on.
fn set_on(days: &mut BTreeMap<u64, u64>, day: u64, count: u64) -> Result<(), AllocError>
    ensures { MatchResult result
        (λ _. (d : ℕ) → count_on (Some days.new) d ≡ (if day == d then count else count_on (Some days.old) d))
        (λ _. (d : ℕ) → count_on (Some days.new) d ≡ count_on (Some days.old) d) }
{
    days.insert(day, count)?;
    Ok(())
}

/// A moment that a genTime can state, and where it is later the last one.
fn moment_of(micros: u64) -> GenTime
    ensures { result ≡ min micros last_moment }
{
    match GenTime::from_micros(micros.min(LAST_MOMENT as u64) as i64) {
        Ok(moment) => moment,
        Err(_) => unreachable!(),
    }
}
