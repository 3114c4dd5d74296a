//! How much was tried.

/// How much was tried, and how much of it was wrong.
#[derive(Clone, Copy)]
pub struct Tally {
    pub tried: u64,
    /// How much of it fared otherwise than it has to.
    pub wrong: u64,
}

impl Tally {
    /// Nothing was tried yet.
    pub const NONE: Tally = Tally { tried: 0, wrong: 0 };

    /// Counts one more.
    pub fn add(&mut self, is_right: bool) {
        self.tried = self.tried.saturating_add(1);
        self.wrong = self.wrong.saturating_add(u64::from(!is_right));
    }

    /// Both together.
    pub fn plus(self, other: Tally) -> Tally {
        Tally {
            tried: self.tried.saturating_add(other.tried),
            wrong: self.wrong.saturating_add(other.wrong),
        }
    }
}
