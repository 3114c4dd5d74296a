//! The table of calibrations: the statement that adds one, inside a transaction, and the look-ups.

ghost use Rattle.std.specs.Prelude.{◌≡◌};
ghost use Rattle.sqlite.specs.Held.{state};
ghost use Rattle.book.specs.{History.Calibrated, Values.calibration_view};
ghost use Rattle.tables.specs.{Changes.applied, Found.IsFoundAs, Found.IsGreatestAs, Queries.LooksUp};
ghost use Rattle.tables.specs.{Queries.ShowsCalibration, Tables.is_calibration, Transaction.Carries};

use crate::base::Base;
use crate::fault::TableFault;
use crate::queries::{FromRow, number, number_in, signed};
use crate::rows::{NumberedCalibration, column};
use book::Calibration;
use sqlite::types::ToSql;
use sqlite::{Alter, Error, Row, Transaction};

const INSERT_CALIBRATION: &str =
    "INSERT INTO calibration (n, reading, offset_us, uncertainty) VALUES (?1, ?2, ?3, ?4)";

const LATEST_CALIBRATION: &str =
    "SELECT n, reading, offset_us, uncertainty FROM calibration ORDER BY n DESC LIMIT 1";

const CALIBRATION: &str = "SELECT n, reading, offset_us, uncertainty FROM calibration WHERE n = ?1";

/// Adds a calibration, under the number that comes next.
pub(crate) fn put_calibration<S: Alter>(
    tx: &mut Transaction<'_, S>,
    calibration: &Calibration,
) -> Result<usize, Error>
    ensures same_reference { tx.new.conn.ghost_name ≡ tx.old.conn.ghost_name }
    ensures carries { Carries (applied (Calibrated (calibration_view calibration.now)))
        (state S.Store tx.old.conn.now) (state S.Store tx.new.conn.now) result }
{
    let greatest = number_in(tx, LATEST_CALIBRATION)?;
    let n = column(greatest + 1)?;
    let uncertainty = column(calibration.uncertainty)?;
    let Calibration {
        reading,
        offset,
        ..
    } = calibration;
    tx.execute(
        INSERT_CALIBRATION,
        &[n, reading.to_sql(), offset.to_sql(), uncertainty],
    )
}

impl FromRow for NumberedCalibration {
    ghost use Rattle.std.specs.Prelude.{◌≡◌, pos};
    ghost use Rattle.sqlite_value.specs.{Order.column, declared.value.Value.TheVariants.Int};

    ghost shows = { λ row c. (column row 0 ≡ Int (pos c.n)) × (column row 1 ≡ Int c.reading)
        × (column row 2 ≡ Int c.offset) × (column row 3 ≡ Int (pos c.uncertainty)) };

    fn from_row(row: &Row) -> Result<NumberedCalibration, Error> {
        let n = number(row, 0)?;
        let reading = signed(row, 1)?;
        let offset = signed(row, 2)?;
        let uncertainty = number(row, 3)?;
        Ok(NumberedCalibration {
            n,
            reading,
            offset,
            uncertainty,
        })
    }
}

impl<S: Alter + Drop> Base<S> {
    /// The calibration with the number.
    pub fn calibration(&mut self, number: u64) -> Result<Option<NumberedCalibration>, TableFault>
        ensures { LooksUp S.Store (λ t c. IsFoundAs ShowsCalibration (is_calibration number) t.calibrations c)
            self.old self.new result }
    {
        self.first_at(CALIBRATION, number)
    }

    /// The calibration with the greatest number.
    pub fn latest_calibration(&mut self) -> Result<Option<NumberedCalibration>, TableFault>
        ensures { LooksUp S.Store (λ t c. IsGreatestAs ShowsCalibration (λ row. row.n) t.calibrations c)
            self.old self.new result }
    {
        self.first_as(LATEST_CALIBRATION, &[])
    }
}
