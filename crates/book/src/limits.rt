/// The greatest number of 63 bits, 2^63 - 1: of serial numbers, and of microseconds.
pub const GREATEST_NUMBER: u64 = 9_223_372_036_854_775_807;

/// The microseconds of a UTC day.
pub const DAY: u64 = 86_400_000_000;
