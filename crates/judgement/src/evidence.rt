use book::{Calibration, Hold, IdentityRow};
use gentime::GenTime;
use policy::Policy;

/// What stamps are judged by.
#[derive(Clone, Copy)]
pub struct Evidence<'a> {
    /// The policy file.
    pub policy: &'a Policy,
    /// All calibrations, in the order in which they were added.
    pub calibrations: &'a [Calibration],
    /// All holds.
    pub holds: &'a [Hold],
    /// All identities, by number.
    pub identities: &'a [IdentityRow],
}

/// What the rows before a stamp say of it.
#[derive(Clone, Copy)]
pub struct Before {
    /// The genTime of the row before it, if there is one.
    pub last_gen_time: Option<GenTime>,
    /// How many of the rows before it are its account's, on the UTC day of its genTime.
    pub count: u64,
}
