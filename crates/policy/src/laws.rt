ghost use Rattle.std.specs.Prelude.{◌≡◌, ℕ, List};
ghost use Rattle.policy.specs.{Meaning.meaning_of, Sound.IsSound, Record.PolicyValue};

/// What holds of each record that a policy file means: within an array the names differ, and so do the object
/// identifiers and the key hashes; each listed name stands once in its list and exists; each number is in its range,
/// object identifiers are such, a key hash has 32 octets; and no array has more entries than it may.
pub fn records_are_sound()
    ensures { (text : List ℕ) (record_meant : PolicyValue) → meaning_of text ≡ Ok record_meant → IsSound record_meant }
{}
