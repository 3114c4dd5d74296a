//! The hash algorithms whose hashes have one length.
ghost use Rattle.std.specs.Prelude.{◌≡◌, ◌≤◌, option_map, IfSome, IsNone};
ghost use Rattle.std.specs.{List.find, Str.bytes_eq};
ghost use Rattle.der.specs.ObjectIdentifier.{oid_content};
ghost use Rattle.policy.specs.HashAlgorithms.{value_of, hash_algorithms};

/// A hash algorithm of the Secure Hash Standard (FIPS 180-4), or SHA-1.
#[derive(Clone, Copy, Debug)]
pub enum HashAlgorithm {
    Sha1,
    Sha224,
    Sha256,
    Sha384,
    Sha512,
}

impl HashAlgorithm {
    /// All of them.
    pub const ALL: [HashAlgorithm; 5] = [
        HashAlgorithm::Sha1,
        HashAlgorithm::Sha224,
        HashAlgorithm::Sha256,
        HashAlgorithm::Sha384,
        HashAlgorithm::Sha512,
    ];

    /// The algorithm whose object identifier has these contents octets (X.690 8.19). None where none of the five has
    /// them.
    pub fn of_identifier(content: &[u8]) -> Option<HashAlgorithm>
        ensures look_up { option_map value_of result
            ≡ find (λ a. bytes_eq (oid_content a.oid) content.now) hash_algorithms }
        ensures found { IfSome result (λ algorithm. content.now ≡ oid_content (value_of algorithm).oid) }
        ensures none { IsNone result → (algorithm : HashAlgorithm)
            → content.now ≡ oid_content (value_of algorithm).oid → ⊥ }
    {
        find_by_identifier(&HashAlgorithm::ALL, content).copied()
    }

    /// The contents octets of its object identifier (X.690 8.19): RFC 3370 2.1 gives that of SHA-1, and RFC 5754 2 the
    /// others.
    #[tactic(auto, unfolding(der::specs::ObjectIdentifier::subidentifier_octets))]
    pub fn identifier(self) -> &'static [u8]
        ensures { result.now ≡ oid_content (value_of self).oid }
    {
        match self {
            HashAlgorithm::Sha1 => b"\x2b\x0e\x03\x02\x1a",
            HashAlgorithm::Sha256 => b"\x60\x86\x48\x01\x65\x03\x04\x02\x01",
            HashAlgorithm::Sha384 => b"\x60\x86\x48\x01\x65\x03\x04\x02\x02",
            HashAlgorithm::Sha512 => b"\x60\x86\x48\x01\x65\x03\x04\x02\x03",
            HashAlgorithm::Sha224 => b"\x60\x86\x48\x01\x65\x03\x04\x02\x04",
        }
    }

    /// How many octets its hashes have (FIPS 180-4).
    pub fn hash_length(self) -> u8
        ensures value { result ≡ (value_of self).length }
        ensures range { (20 ≤ result) × (result ≤ 64) }
    {
        match self {
            HashAlgorithm::Sha1 => 20,
            HashAlgorithm::Sha224 => 28,
            HashAlgorithm::Sha256 => 32,
            HashAlgorithm::Sha384 => 48,
            HashAlgorithm::Sha512 => 64,
        }
    }
}

/// The first of the algorithms whose object identifier has these contents octets.
fn find_by_identifier<'e>(
    algorithms: &'e [HashAlgorithm],
    content: &[u8],
) -> Option<&'e HashAlgorithm>
    ensures { option_map (λ a. a.now) result
        ≡ find (λ a. bytes_eq (oid_content (value_of a).oid) content.now) algorithms.now }
{
    algorithms
        .iter()
        .find(|algorithm| algorithm.identifier() == content)
}
