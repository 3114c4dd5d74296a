//! What a history has one after the other, by number: calibrations, holds and identities, each in turn, and all.
ghost use Rattle.std.specs.Prelude.{◌≡◌, ◌<◌, ◌^◌, List, map, option_map, reverse, slice_get, IfOk, IfErr, OnOk};
ghost use Rattle.tables.specs.{Base.IsHonest, Base.IsOpen, Queries.LooksUp};
ghost use Rattle.book.specs.Fault.{CountsFaults, IsOfStorage};
ghost use Rattle.book.specs.History.{CalibrationValue, History, HoldValue, calibrations, holds};
ghost use Rattle.book.specs.Values.{calibration_view, hold_view, identity_view};
ghost use Rattle.book.specs.{Identities.identities, Rows.InstalledRow, Sound.IsSound, Stands.Stands, Stands.OnlyLooks};
ghost use Rattle.store.specs.{auxiliary.Replay.replayed, Stands.over_tables};

use crate::store::{Store, calibration_from};
use book::{Calibration, Hold, IdentityRow, StoreFault};
use sqlite::Alter;
use tables::{Base, TableFault};

/// What a history has one after the other.
pub(crate) trait Numbered: Drop {
    // what one says
    ghost Value: { Type 0 };

    ghost value: { Self → Value };

    // all that a history has, in the order in which they were added
    ghost all: { History → List Value };

    /// The one that follows so many others, if there is one.
    fn after<S: Alter + Drop>(base: &mut Base<S>, count: u64) -> Result<Option<Self>, TableFault>
        requires { count < 2 ^ 63 }
        ensures { LooksUp S.Store (λ t found. (b : History) → IsSound b → t ≡ replayed b
            → option_map value found ≡ slice_get (all b) count) base.old base.new result };
}

impl Numbered for Calibration {
    ghost Value = { CalibrationValue };

    ghost value = { calibration_view };

    ghost all = { λ b. reverse (calibrations b) };

    fn after<S: Alter + Drop>(
        base: &mut Base<S>,
        count: u64,
    ) -> Result<Option<Calibration>, TableFault> {
        let found = base.calibration(count + 1)?;
        Ok(calibration_from(found))
    }
}

impl Numbered for Hold {
    ghost Value = { HoldValue };

    ghost value = { hold_view };

    ghost all = { λ b. reverse (holds b) };

    fn after<S: Alter + Drop>(base: &mut Base<S>, count: u64) -> Result<Option<Hold>, TableFault> {
        base.hold(count + 1)
    }
}

impl Numbered for IdentityRow {
    ghost Value = { InstalledRow };

    ghost value = { identity_view };

    ghost all = { identities };

    fn after<S: Alter + Drop>(
        base: &mut Base<S>,
        count: u64,
    ) -> Result<Option<IdentityRow>, TableFault> {
        base.identity(count + 1)
    }
}

impl<S: Alter + Drop> Store<S> {
    /// All of them, in the order in which they were added.
    pub(crate) fn all<T: Numbered>(&mut self) -> Result<Vec<T>, StoreFault>
        ensures looks { OnlyLooks (over_tables S.Store) self.old self.new }
        ensures opened { IsHonest S.Store self.new → OnOk result (IsOpen S.Store self.old) }
        ensures value { IsHonest S.Store self.new → (b : History) → Stands (over_tables S.Store) b self.old
            → IfOk result (λ found. map T.value found.items ≡ T.all b) }
        ensures refusals { IfErr result IsOfStorage }
        ensures faults { CountsFaults result self.old.faults self.new.faults }
    {
        let mut found = Vec::new(self.alloc);
        while let Some(one) = self.after(found.len() as u64)? {
            found.push(one)?;
        }
        Ok(found)
    }

    /// The one that follows so many others, if there is one.
    fn after<T: Numbered>(&mut self, count: u64) -> Result<Option<T>, StoreFault>
        requires { count < 2 ^ 63 }
        ensures looks { OnlyLooks (over_tables S.Store) self.old self.new }
        ensures opened { IsHonest S.Store self.new → OnOk result (IsOpen S.Store self.old) }
        ensures value { IsHonest S.Store self.new → (b : History) → Stands (over_tables S.Store) b self.old
            → IfOk result (λ found. option_map T.value found ≡ slice_get (T.all b) count) }
        ensures refusals { IfErr result IsOfStorage }
        ensures faults { CountsFaults result self.old.faults self.new.faults }
    {
        let found = T::after(&mut self.base, count)?;
        Ok(found)
    }
}
