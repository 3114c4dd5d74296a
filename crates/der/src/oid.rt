ghost use Rattle.std.specs.Prelude.{◌≡◌, ℕ, ◌*◌, ◌<◌, ◌≤◌, ◌↔◌, ◌⊎◌, nat_eq, List, length, None, Err, IfOk, IfErr};
ghost use Rattle.std.specs.{Prelude.MatchResult, Prelude.IsTrue, Prelude.string_bytes, Option.is_some};
ghost use Rattle.std.specs.Cmp.{Lexicographic.pointwise, partial_equiv_from_equiv};
ghost use Rattle.std.proofs.lemmas.Cmp.{nat_list_eq_equiv};
ghost use Rattle.der.specs.{Node.AreOctets, OidText.oid_of_text};
ghost use Rattle.der.specs.ObjectIdentifier.{IsOid, IsOidContent, oid_content, oid_text, subidentifiers_of, oid_of};
ghost use Rattle.der.specs.declared.fault.DerFault.TheVariants.{BadValue, Memory};

use crate::fault::DerFault;
use std::alloc::{AllocError, Global};
use std::marker::Model;
use text::{content_of, dotted_number_at, joined_arcs, number_at, push_dotted, push_first_arcs};

mod text;

/// An OBJECT IDENTIFIER (X.690 8.19): 1 to 32 subidentifiers, each below 2^128, of which the first is 40 * X + Y for
/// the arcs X and Y. The value keeps its contents octets, so that comparing and lending them takes no memory.
#[derive(Drop)]
pub struct Oid {
    content: Vec<u8>,
}

impl Model for Oid {
    ghost use Rattle.std.specs.Prelude.{ℕ, List};
    ghost use Rattle.der.specs.ObjectIdentifier.{subidentifiers_of, ReadsAsOid};

    ghost Value = { List ℕ };

    ghost view = { λ oid. subidentifiers_of oid.content.items };

    ghost invariant = { λ oid. ReadsAsOid oid.content.items };
}

impl Oid {
    /// The object identifier whose contents octets these are (X.690 8.19). Refused with `BadValue` where they are no
    /// object identifier's, and with `Memory` where memory runs out.
    pub fn from_content(alloc: Global, content: &[u8]) -> Result<Oid, DerFault>
        ensures found { IfOk result (λ oid. IsOid oid × (content.now ≡ oid_content oid)) }
        ensures only { (subidentifiers : List ℕ) → IsOid subidentifiers → content.now ≡ oid_content subidentifiers
            → MatchResult result (λ oid. oid ≡ subidentifiers) (λ e. e ≡ Memory) }
        ensures refusals { IfErr result (λ e. (e ≡ BadValue) ⊎ (e ≡ Memory)) }
        ensures bad_value { (result ≡ Err BadValue) ↔ (oid_of content.now ≡ None) }
    {
        if !is_oid_content(content) {
            return Err(DerFault::BadValue);
        }
        Ok(Oid {
            content: Vec::from_slice(alloc, content)?,
        })
    }

    /// The object identifier that a text gives, as `1.2.840`: decimal numbers without leading zeros, joined by dots, at
    /// least two. The first is 0, 1 or 2, the second below 40 where the first is below 2. Refused with `BadValue` where
    /// the text is another, or gives more than 32 subidentifiers or one of 2^128 or above, and with `Memory` where
    /// memory runs out.
    pub fn parse_text(alloc: Global, text: &str) -> Result<Oid, DerFault>
        ensures found { IfOk result (λ oid. IsOid oid × (text.now ≡ oid_text oid)) }
        ensures only { (subidentifiers : List ℕ) → IsOid subidentifiers → text.now ≡ oid_text subidentifiers
            → MatchResult result (λ oid. oid ≡ subidentifiers) (λ e. e ≡ Memory) }
        ensures refusals { IfErr result (λ e. (e ≡ BadValue) ⊎ (e ≡ Memory)) }
        ensures bad_value { (result ≡ Err BadValue) ↔ (oid_of_text text.now ≡ None) }
    {
        let Some((first, rest)) = number_at(text.as_bytes()) else {
            return Err(DerFault::BadValue);
        };
        let Some((second, rest)) = dotted_number_at(rest) else {
            return Err(DerFault::BadValue);
        };
        let Some(subidentifier) = joined_arcs(first, second) else {
            return Err(DerFault::BadValue);
        };
        Ok(Oid {
            content: content_of(alloc, subidentifier, rest)?,
        })
    }

    /// The text, as `1.2.840`: the arcs in decimal, without leading zeros, joined by dots. Refused with `Memory` where
    /// memory runs out.
    pub fn text(&self, alloc: Global) -> Result<String, DerFault>
        ensures written { IfOk result (λ text. string_bytes text ≡ oid_text self.now) }
        ensures memory { IfErr result (λ e. e ≡ Memory) }
    {
        let mut text = String::new(alloc);
        let mut subidentifier: u128 = 0;
        for octet in &self.content {
            if *octet >= 0x80 {
                subidentifier = subidentifier * 128 + u128::from(*octet - 0x80);
                continue;
            }
            subidentifier = subidentifier * 128 + u128::from(*octet);
            if text.is_empty() {
                push_first_arcs(&mut text, subidentifier)?;
            } else {
                push_dotted(&mut text, subidentifier)?;
            }
            subidentifier = 0;
        }
        Ok(text)
    }

    /// The contents octets (X.690 8.19), 1 to 608 of them. Takes no memory.
    pub fn content(&self) -> &[u8]
        ensures encoded { result.now ≡ oid_content self.now }
        ensures oid { IsOid self.now }
    {
        self.content.as_slice()
    }
}

impl PartialEq for Oid {
    ghost eq = { pointwise nat_eq };

    ghost laws = { partial_equiv_from_equiv nat_list_eq_equiv };

    fn eq(&self, other: &Oid) -> bool {
        self.content() == other.content()
    }
}

impl Eq for Oid {
    ghost laws = { nat_list_eq_equiv };
}

impl Clone for Oid {
    ghost is_clone = { λ oid clone. clone ≡ oid };

    fn clone(&self) -> Result<Oid, AllocError> {
        Ok(Oid {
            content: self.content.clone()?,
        })
    }
}

/// Whether octets are the contents of an object identifier: 1 to 32 subidentifiers below 2^128, each in the fewest
/// octets in base 128, with bit 8 set on all octets but its last (X.690 8.19.2). Takes no memory.
pub fn is_oid_content(content: &[u8]) -> bool
    ensures content { IsTrue result ↔ IsOidContent content.now }
    ensures read { result ≡ is_some (oid_of content.now) }
{
    // the subidentifier so far, and how many ended before it
    let mut subidentifier: u128 = 0;
    let mut count: usize = 0;
    for octet in content {
        // seven bits more would not be below 2^128
        if subidentifier >= 1 << 121 {
            return false;
        }
        if *octet < 0x80 {
            subidentifier = 0;
            count += 1;
        } else {
            subidentifier = subidentifier * 128 + u128::from(*octet - 0x80);
            // the first of the octets would be 80
            if subidentifier == 0 {
                return false;
            }
        }
    }
    if count > 32 {
        return false;
    }
    count > 0 && subidentifier == 0
}

/// Object identifiers, their contents octets and their texts: each has one content and one text, and no two have the
/// same.
pub fn oids_have_one_content_and_text()
    ensures read { (oid : List ℕ) → subidentifiers_of (oid_content oid) ≡ oid }
    ensures octets { (oid : List ℕ) → AreOctets (oid_content oid) }
    ensures some { (oid : List ℕ) → IsOid oid → 0 < length (oid_content oid) }
    ensures few { (oid : List ℕ) → IsOid oid → length (oid_content oid) ≤ 19 * 32 }
    ensures one_content { (a b : List ℕ) → oid_content a ≡ oid_content b → a ≡ b }
    ensures one_text { (a b : List ℕ) → IsOid a → IsOid b → oid_text a ≡ oid_text b → a ≡ b }
    ensures computed { (oid : List ℕ) → IsOid oid → oid_of (oid_content oid) ≡ Some oid }
    ensures found { (octets oid : List ℕ) → oid_of octets ≡ Some oid → IsOid oid × (octets ≡ oid_content oid) }
    ensures text_computed { (oid : List ℕ) → IsOid oid → oid_of_text (oid_text oid) ≡ Some oid }
    ensures text_found { (text oid : List ℕ) → oid_of_text text ≡ Some oid → IsOid oid × (text ≡ oid_text oid) }
{}
