ghost use Rattle.std.specs.{Prelude.◌≡◌, Prelude.ℕ, Prelude.◌≤◌, Prelude.MatchResult, Hash.DefaultHasher.wrapping_add};
ghost use Rattle.book.specs.{History.History, Stands.Stands};

use book::{
    Book, Calibration, Deposit, Entry, GREATEST_NUMBER, Hold, IdentityRow, Last, Listed, Stamp,
    StampedDeposit, Standing, StoreFault,
};
use std::io::Write;

/// A book of which one call fails, with `Database`, and leaves all as it was. It passes the others to a book behind it.
/// A look-up and an addition of entries are such calls; a look-up of a number above 2^63 - 1 is none.
#[derive(Drop)]
pub struct FailingBook<B> {
    /// The book behind it.
    pub book: B,
    /// Which of the next calls fails: 1 is the next one, 0 none.
    pub failing: u64,
    /// How many calls failed so, modulo 2^64.
    pub faults: u64,
}

impl<B: Book> Standing for FailingBook<B> {
    ghost use Rattle.std.specs.Prelude.{◌+◌, ◌%◌, ◌^◌};

    ghost honest = { λ failing. B.honest failing.book };

    ghost is_open = { λ failing. B.is_open failing.book };

    ghost keeps = { λ failing b. B.keeps failing.book b };

    ghost Left = { B.Left };

    ghost leaves = { λ failing left. B.leaves failing.book left };

    ghost holds = { B.holds };

    ghost fault_count = { λ failing. (failing.faults + B.fault_count failing.book) % 2 ^ 64 };
}

impl<B: Book> FailingBook<B> {
    /// A book none of whose calls fails yet. It stands for what the book behind it stands for. Takes no memory.
    pub fn new(book: B) -> FailingBook<B>
        ensures stands { (b : History) → Stands B.Standing b book → Stands ⟦<FailingBook<B> as Standing>⟧ b result }
        ensures same { result ≡ record { book = book; failing = 0; faults = 0 } }
    {
        FailingBook {
            book,
            failing: 0,
            faults: 0,
        }
    }

    /// Begins a call, which is refused if it is the one that fails. Takes no memory.
    fn begin(&mut self) -> Result<(), StoreFault>
        ensures same { self.new.book ≡ self.old.book }
        ensures begun { MatchResult result (λ _. self.new.faults ≡ self.old.faults)
            (λ e. (e ≡ StoreFault.Database) × (self.new.faults ≡ wrapping_add self.old.faults 1)) }
        ensures chosen { MatchResult result (λ _. self.old.failing ≡ 1 → ⊥) (λ _. self.old.failing ≡ 1) }
    {
        let fails = self.failing == 1;
        self.failing = self.failing.saturating_sub(1);
        if fails {
            self.faults = self.faults.wrapping_add(1);
            return Err(StoreFault::Database);
        }
        Ok(())
    }
}

impl<B: Book> Book for FailingBook<B> {
    fn last(&mut self) -> Result<Last, StoreFault> {
        self.begin()?;
        self.book.last()
    }

    fn count_of_day(&mut self, account: &str, day: u64) -> Result<u64, StoreFault> {
        self.begin()?;
        self.book.count_of_day(account, day)
    }

    fn calibration(&mut self) -> Result<Option<Calibration>, StoreFault> {
        self.begin()?;
        self.book.calibration()
    }

    fn held_at(&mut self, now: i64) -> Result<bool, StoreFault> {
        self.begin()?;
        self.book.held_at(now)
    }

    fn deposit(&mut self, number: u64) -> Result<Option<StampedDeposit>, StoreFault> {
        if number <= GREATEST_NUMBER {
            self.begin()?;
        }
        self.book.deposit(number)
    }

    fn visible(&mut self, number: u64, account: &str, groups: &[&str]) -> Result<bool, StoreFault> {
        if number <= GREATEST_NUMBER {
            self.begin()?;
        }
        self.book.visible(number, account, groups)
    }

    fn is_owner(&mut self, number: u64, account: &str) -> Result<bool, StoreFault> {
        if number <= GREATEST_NUMBER {
            self.begin()?;
        }
        self.book.is_owner(number, account)
    }

    fn by_reference(
        &mut self,
        owner: &str,
        reference: &str,
    ) -> Result<Option<Deposit>, StoreFault> {
        self.begin()?;
        self.book.by_reference(owner, reference)
    }

    fn list<W: Write>(
        &mut self,
        account: &str,
        groups: &[&str],
        output: &mut W,
    ) -> Result<Vec<Listed>, StoreFault> {
        self.begin()?;
        self.book.list(account, groups, output)
    }

    fn identities(&mut self) -> Result<Vec<IdentityRow>, StoreFault> {
        self.begin()?;
        self.book.identities()
    }

    fn calibrations(&mut self) -> Result<Vec<Calibration>, StoreFault> {
        self.begin()?;
        self.book.calibrations()
    }

    fn holds(&mut self) -> Result<Vec<Hold>, StoreFault> {
        self.begin()?;
        self.book.holds()
    }

    fn next_stamp(&mut self, from: u64, to: u64) -> Result<Option<Stamp>, StoreFault> {
        self.begin()?;
        self.book.next_stamp(from, to)
    }

    fn calibration_count(&mut self) -> Result<u64, StoreFault> {
        self.begin()?;
        self.book.calibration_count()
    }

    fn hold_count(&mut self) -> Result<u64, StoreFault> {
        self.begin()?;
        self.book.hold_count()
    }

    fn append(&mut self, entries: &[Entry<'_>]) -> Result<(), StoreFault> {
        self.begin()?;
        self.book.append(entries)
    }

    fn tell_the_same(&self) {
        self.book.tell_the_same();
    }

    fn faults(&self) -> u64 {
        self.faults.wrapping_add(self.book.faults())
    }
}
