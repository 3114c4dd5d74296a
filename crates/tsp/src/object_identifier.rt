//! Object identifiers where their contents octets lie.
ghost use Rattle.std.specs.Prelude.{◌≡◌};
ghost use Rattle.der.specs.ObjectIdentifier.{IsOid, oid_content, oid_of};
ghost use Rattle.tsp.specs.Request.{sha256_identifier};

use der::{Oid, is_oid_content, oids_have_one_content_and_text};
use std::marker::Model;

/// The contents octets of SHA-256's object identifier (RFC 5754 2.2).
const SHA256: [u8; 9] = [0x60, 0x86, 0x48, 0x01, 0x65, 0x03, 0x04, 0x02, 0x01];

/// An OBJECT IDENTIFIER, by its contents octets where they lie (X.690 8.19).
#[derive(Drop)]
pub struct ObjectIdentifier<'a> {
    content: &'a [u8],
}

impl<'a> Model for ObjectIdentifier<'a> {
    ghost use Rattle.std.specs.Prelude.{ℕ, List};
    ghost use Rattle.der.specs.ObjectIdentifier.{subidentifiers_of, ReadsAsOid};

    ghost Value = { List ℕ };

    ghost view = { λ oid. subidentifiers_of oid.content.now };

    ghost invariant = { λ oid. ReadsAsOid oid.content.now };
}

impl<'a> ObjectIdentifier<'a> {
    /// The object identifier whose contents octets these are (X.690 8.19); none where they are no object identifier's.
    #[tactic(auto, unfolding(der::specs::ObjectIdentifier::oid_of))]
    pub fn from_content(content: &'a [u8]) -> Option<ObjectIdentifier<'a>>
        ensures { result ≡ oid_of content.now }
    {
        oids_have_one_content_and_text();
        if is_oid_content(content) {
            Some(ObjectIdentifier { content })
        } else {
            None
        }
    }

    /// The same object identifier, where an `Oid` keeps it.
    pub fn of(oid: &'a Oid) -> ObjectIdentifier<'a>
        ensures same { result ≡ oid.now }
        ensures oid { IsOid oid.now }
    {
        oids_have_one_content_and_text();
        ObjectIdentifier {
            content: oid.content(),
        }
    }

    /// The object identifier of SHA-256 (RFC 5754 2.2): 2.16.840.1.101.3.4.2.1.
    pub(crate) fn sha256() -> ObjectIdentifier<'a>
        ensures { result ≡ sha256_identifier }
    {
        oids_have_one_content_and_text();
        ObjectIdentifier { content: &SHA256 }
    }

    /// The contents octets (X.690 8.19), 1 to 608 of them.
    pub fn content(&self) -> &'a [u8]
        ensures encoded { result.now ≡ oid_content self.now }
        ensures oid { IsOid self.now }
    {
        self.content
    }
}
