ghost use Rattle.std.specs.Prelude.{◌≡◌, ◌↔◌, length, Contains, IsTrue};
ghost use Rattle.der.specs.ObjectIdentifier.{oid_content};
ghost use Rattle.tsp.specs.Rules.{AlgorithmValue};
ghost use Rattle.console.specs.Known.{five_algorithms};

use policy::HashAlgorithm;

/// Whether an algorithm is known by the contents octets of its object identifier.
pub fn is_known(identifier: &[u8]) -> bool
    ensures { IsTrue result ↔ ((a : AlgorithmValue) × Contains five_algorithms a
        × (identifier.now ≡ oid_content a.identifier)) }
{
    HashAlgorithm::of_identifier(identifier).is_some()
}

/// Whether the hash has the length of the algorithm with these contents octets of its object identifier. True where no
/// algorithm is known by them.
pub fn has_known_length(identifier: &[u8], hash: &[u8]) -> bool
    ensures { IsTrue result ↔ ((a : AlgorithmValue) → Contains five_algorithms a
        → identifier.now ≡ oid_content a.identifier → length hash.now ≡ a.hash_length) }
{
    match HashAlgorithm::of_identifier(identifier) {
        Some(algorithm) => hash.len() == algorithm.hash_length() as usize,
        None => true,
    }
}
