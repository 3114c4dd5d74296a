//! What holds of each sound history.
ghost use Rattle.std.specs.Prelude.{◌≡◌, ◌∷◌, ℕ, List, true, false, Some, option_map};
ghost use Rattle.book.specs.History.{Entry, Granted, Revoked, Reserved, Sealed, History, ReservationValue};
ghost use Rattle.book.specs.{History.reservation_at, Readers.Reader, Sound.IsSound, Rights.is_reader, Shows.ShowsSame};
ghost use Rattle.book.specs.Identities.{identities, identity_before, identity_at_reservation, installed_as};

/// The identity that was in force when a serial number was reserved is found from the rows of identities: it is the
/// last one whose `after_serial` is below the number, and there was none if there is no such row.
pub fn identities_tell_who_signed()
    ensures { (b : History) (serial : ℕ) (r : ReservationValue) → IsSound b → reservation_at serial b ≡ Some r
        → option_map installed_as (identity_before serial (identities b)) ≡ identity_at_reservation serial b }
{}

/// What histories don't show: a right that is given to whom it was given before, or taken from whom it wasn't given;
/// and whether a token was stored before another number's reservation or after it. The same entry after histories that
/// show the same leaves such ones.
pub fn histories_show_the_same()
    ensures granted { (number : ℕ) (reader : Reader) (b : History) → is_reader number reader b ≡ true
        → ShowsSame (Granted number reader ∷ b) b }
    ensures revoked { (number : ℕ) (reader : Reader) (b : History) → is_reader number reader b ≡ false
        → ShowsSame (Revoked number reader ∷ b) b }
    ensures sealed { (serial : ℕ) (token : List ℕ) (r : ReservationValue) (b : History)
        → ShowsSame (Sealed serial token ∷ Reserved r ∷ b) (Reserved r ∷ Sealed serial token ∷ b) }
    ensures more { (entry : Entry) (b d : History) → ShowsSame b d → ShowsSame (entry ∷ b) (entry ∷ d) }
{}
