ghost use Rattle.std.specs.Prelude.{ℕ};
ghost use Rattle.book.specs.History.{History};

/// What is known of a book besides its calls, for proofs alone.
pub trait Standing {
    /// What it keeps has come back as it was written.
    ghost honest: { Self → Type 0 };

    /// It is open: no fault has shut it.
    ghost is_open: { Self → Type 0 };

    /// It keeps the history.
    ghost keeps: { Self → History → Type 0 };

    /// What an opening after a stop finds.
    ghost Left: { Type 0 };

    /// A stop at this moment may leave it.
    ghost leaves: { Self → Left → Type 0 };

    /// It holds the history.
    ghost holds: { Left → History → Type 0 };

    /// How many calls were refused for another cause than memory, modulo 2^64.
    ghost fault_count: { Self → ℕ };
}
