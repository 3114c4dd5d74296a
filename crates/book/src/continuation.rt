//! What holds of a history that goes on in a new book.
ghost use Rattle.std.specs.Prelude.{◌≡◌, ◌<◌, ℕ, ℤ, pos, true, false, Option, Some, None, []};
ghost use Rattle.book.specs.Continuation.{Floor, IsAbove, IsAboveIfAny, first_entries, continued, other_holds, closed};
ghost use Rattle.book.specs.{Continuation.is_closed, Entries.FitInTurn};
ghost use Rattle.book.specs.History.{History, holds, greatest_serial, last_gen_time, latest_calibration, is_held};
ghost use Rattle.book.specs.{History.stamp_at, History.token_of, Sound.IsSound, Sound.greatest_number};
ghost use Rattle.book.specs.Identities.{latest_identity, identity_at_reservation};

/// A history goes on in a new book by entries that fit in turn (`fit`), so that its history is sound (`sound`). That
/// has the old one's latest calibration, its holds but those of all moments, so that the same moments are held where it
/// wasn't closed, its latest identity, and as that of the last stamp's serial number the identity that it was there.
///
/// The greatest serial number, the last genTime and the last stamp, with its token, are the old one's; with a floor in
/// place of that stamp they are the floor's, with no token.
pub fn continuations_go_on()
    ensures fit { (floor : Option Floor) (b : History) → IsSound b → IsAboveIfAny floor b
        → FitInTurn (first_entries floor b) [] }
    ensures sound { (floor : Option Floor) (b : History) → IsSound b → IsAboveIfAny floor b
        → IsSound (continued floor b) }
    ensures calibration { (floor : Option Floor) (b : History)
        → latest_calibration (continued floor b) ≡ latest_calibration b }
    ensures holds { (floor : Option Floor) (b : History) → holds (continued floor b) ≡ other_holds b }
    ensures held { (floor : Option Floor) (b : History) → is_closed b ≡ false → (now : ℤ)
        → is_held now (continued floor b) ≡ is_held now b }
    ensures identity { (floor : Option Floor) (b : History)
        → latest_identity (continued floor b) ≡ latest_identity b }
    ensures signer { (floor : Option Floor) (b : History) → IsSound b
        → identity_at_reservation (greatest_serial (continued floor b)) (continued floor b)
        ≡ identity_at_reservation (greatest_serial b) b }
    ensures serial { (b : History) → IsSound b → greatest_serial (continued None b) ≡ greatest_serial b }
    ensures moment { (b : History) → last_gen_time (continued None b) ≡ last_gen_time b }
    ensures stamp { (b : History) → IsSound b
        → stamp_at (greatest_serial b) (continued None b) ≡ stamp_at (greatest_serial b) b }
    ensures above { (floor : Floor) (b : History) → IsAbove floor b
        → (greatest_serial (continued (Some floor) b) ≡ floor.serial)
        × (last_gen_time (continued (Some floor) b) ≡ Some floor.gen_time)
        × (token_of floor.serial (continued (Some floor) b) ≡ None) }
{}

/// A book that is closed by a hold of all moments holds each of them from the first of 1970 on and before the last of
/// 63 bits; it is closed once, its history stays sound, and it goes on by the same entries as before.
pub fn closed_books_hold_all_moments()
    ensures closed { (b : History) → is_closed (closed b) ≡ true }
    ensures sound { (b : History) → IsSound b → IsSound (closed b) }
    ensures held { (b : History) (now : ℕ) → is_closed b ≡ true → now < greatest_number
        → is_held (pos now) b ≡ true }
    ensures again { (floor : Option Floor) (b : History) → first_entries floor (closed b) ≡ first_entries floor b }
{}
