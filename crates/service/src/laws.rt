//! What holds of what is told, whatever the histories.
ghost use Rattle.std.specs.Prelude.{ℕ, ℤ, Option};
ghost use Rattle.policy.specs.Record.{AccountValue, PolicyValue};
ghost use Rattle.book.specs.History.{History};
ghost use Rattle.desk.specs.{Agreement.Agree, Facts.clock_of, Viewers.viewer_in};
ghost use Rattle.service.specs.Accounts.{IsUsedAt};

/// Of two histories that agree for an account it is told the same: besides the policy file its own stamps and the clock
/// count.
pub fn accounts_are_told_alike()
    ensures { (file : PolicyValue) (account : AccountValue) (reading : ℤ) (b c : History) (used : Option ℕ)
        → Agree (viewer_in file account.name) b c
        → IsUsedAt file.counter (clock_of reading b) account.name b used
        → IsUsedAt file.counter (clock_of reading c) account.name c used }
{}
