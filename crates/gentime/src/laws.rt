//! What holds of the texts of all moments.

ghost use Rattle.std.specs.Prelude.{◌≡◌, ℕ, ◌<◌, ◌≤◌, List, length};
ghost use Rattle.std.specs.List.{AllByRecursion};
ghost use Rattle.gentime.specs.GenTime.{last_moment, round_down, text_of, GeneralizedTime, HasForm};

/// A moment's text has 15 to 22 octets.
pub fn texts_are_short()
    ensures { (digits moment : ℕ) → digits ≤ 6 → moment ≤ last_moment →
        (15 ≤ length (text_of digits moment)) × (length (text_of digits moment) ≤ 22)
        × AllByRecursion (λ octet. octet < 256) (text_of digits moment) }
{}

/// Octets state one time at most, and no two moments have one text with six digits.
pub fn texts_are_distinct()
    ensures times { (octets : List ℕ) (one other : GeneralizedTime) →
        HasForm octets one → HasForm octets other → one ≡ other }
    ensures moments { (one other : ℕ) → one ≤ last_moment → other ≤ last_moment →
        text_of 6 one ≡ text_of 6 other → one ≡ other }
{}

/// A text with fewer digits is the text with six digits of the moment that is rounded down to them.
pub fn texts_are_rounded()
    ensures text { (digits moment : ℕ) → digits ≤ 6 → text_of digits moment ≡ text_of 6 (round_down digits moment) }
    ensures bound { (digits moment : ℕ) → digits ≤ 6 → round_down digits moment ≤ moment }
{}
