ghost use Rattle.std.specs.Prelude.{◌≡◌, ◌<◌, ◌^◌, min, pos, IfOk, IfErr};
ghost use Rattle.sqlite_value.specs.{Value.owned, declared.value.Value.TheVariants.Int};
ghost use Rattle.book.specs.Sound.{greatest_number};

use book::GREATEST_NUMBER;
use sqlite::Error;
use sqlite::types::ValueRef;

/// A number as a column of INTEGER has it, where it can.
pub(crate) fn column<'a>(number: u64) -> Result<ValueRef<'a>, Error>
    ensures value { IfOk result (λ cell. owned cell ≡ Int (pos number)) }
    ensures refused { IfErr result (λ _. greatest_number < number) }
{
    if number > GREATEST_NUMBER {
        return Err(Error::IntegralValueOutOfRange(0));
    }
    Ok(ValueRef::Int(number as i64))
}

/// A number that a column of INTEGER can have.
#[derive(Clone, Copy)]
pub struct ColumnNumber {
    pub value: u64,
    ghost small: { value < 2 ^ 63 },
}

impl ColumnNumber {
    /// The number, or the greatest that a column can have, whichever is less.
    pub fn at_most(number: u64) -> ColumnNumber
        ensures { result.value ≡ min number greatest_number }
    {
        ColumnNumber {
            value: number.min(GREATEST_NUMBER),
        }
    }

    /// As a column of INTEGER has it.
    pub(crate) fn cell<'a>(self) -> ValueRef<'a>
        ensures { owned result ≡ Int (pos self.value) }
    {
        ValueRef::Int(self.value as i64)
    }
}

/// What a look-up of the stamp with the greatest serial number shows.
#[derive(Clone, Copy, Debug)]
pub struct LastStamp {
    pub serial: u64,
    /// In microseconds since 1970-01-01T00:00:00Z.
    pub gen_time: u64,
}

/// A calibration, and its number.
#[derive(Clone, Copy, Debug)]
pub struct NumberedCalibration {
    pub n: u64,
    pub reading: i64,
    pub offset: i64,
    pub uncertainty: u64,
    ghost small: { n < 2 ^ 63 },
}

/// A deposit's number and reference.
#[derive(Debug, Drop)]
pub struct Label {
    pub serial: u64,
    pub reference: String,
}

/// Whose a stamp is, and of when.
#[derive(Debug, Drop)]
pub struct Origin {
    pub account: String,
    /// In microseconds since 1970-01-01T00:00:00Z.
    pub gen_time: u64,
}
