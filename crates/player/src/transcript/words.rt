//! The words of a line.

/// What is left of a line, whose words are parted by single spaces.
#[derive(Clone, Copy)]
pub struct Words<'t> {
    pub rest: &'t str,
}

impl<'t> Words<'t> {
    /// The next word; an empty one where none is left.
    pub fn next(&mut self) -> &'t str {
        let (word, rest) = self.rest.split_once(' ').unwrap_or((self.rest, ""));
        self.rest = rest;
        word
    }

    /// The number of the next word; the greatest where it is none.
    pub fn number(&mut self) -> u64 {
        self.next().parse().unwrap_or(u64::MAX)
    }

    /// The same of a number that may be below 0; the least where it is none.
    pub fn signed(&mut self) -> i64 {
        self.next().parse().unwrap_or(i64::MIN)
    }
}
