//! Reading octets one element after the other, where they lie.
ghost use Rattle.std.specs.Prelude.{◌≡◌, ℕ, ◌%◌, ◌<◌, ◌^◌, ◌↔◌, List, [], ◌++◌, length, Err, IfOk, IfErr, OnErr};
ghost use Rattle.std.specs.Prelude.{MatchResult, IsTrue};
ghost use Rattle.der.specs.{FirstFault.element_at, FirstFault.expected_at, Node.element, Node.AreOctets, Node.IsLowTag};

use crate::fault::DerFault;
use crate::read::{Piece, read_element};
use crate::tag::Tag;
use std::marker::Model;

/// A value where it lies in octets that were read: its identifier octet, its contents octets, and all its octets
/// (X.690 8.1.1). What its contents are is not looked at.
#[derive(Clone, Copy)]
pub struct Element<'a> {
    /// The identifier octet.
    pub tag: Tag,
    /// The contents octets, fewer than 2^24.
    pub content: &'a [u8],
    /// All octets: the identifier octet, the fewest length octets, and the contents octets.
    pub whole: &'a [u8],
    pub ghost encoded: { whole.now ≡ element tag.octet content.now },
    pub ghost short: { length content.now < 2 ^ 24 },
}

/// Octets from which one element after the other is taken. Takes no memory. A refused call leaves it as it was.
#[derive(Drop)]
pub struct Cursor<'a> {
    rest: &'a [u8],
}

impl<'a> Model for Cursor<'a> {
    ghost use Rattle.std.specs.Prelude.{ℕ, List};
    ghost use Rattle.der.specs.Node.{AreOctets};

    ghost Value = { List ℕ };

    ghost view = { λ cursor. cursor.rest.now };

    ghost invariant = { λ cursor. AreOctets cursor.rest.now };
}

impl<'a> Cursor<'a> {
    /// Octets of which nothing is taken yet.
    pub fn new(octets: &'a [u8]) -> Cursor<'a>
        ensures { result ≡ octets.now }
    {
        Cursor { rest: octets }
    }

    /// Takes the element at the front: an identifier octet whose tag number is at most 30, the fewest length octets,
    /// and fewer than 2^24 contents octets (X.690 8.1.2, 8.1.3, 10.1).
    ///
    /// Refused with the first of these: `Truncated` where no identifier octet stands; `HighTag`; `LengthForm` for the
    /// length octet `80` or `FF`; `Truncated` where length octets are missing; `LengthForm` for more than the fewest of
    /// them; `TooLong` for 2^24 contents octets or more; `Truncated` where contents octets are missing.
    pub fn next(&mut self) -> Result<Element<'a>, DerFault>
        ensures found { IfOk result (λ found. self.old ≡ found.whole.now ++ self.new) }
        ensures octets { IfOk result (λ found. AreOctets found.content.now) }
        ensures only { (identifier : ℕ) (contents rest : List ℕ) → IsLowTag identifier → length contents < 2 ^ 24
            → self.old ≡ element identifier contents ++ rest
            → MatchResult result
            (λ found. (found.tag.octet ≡ identifier) × (found.content.now ≡ contents) × (self.new ≡ rest))
            (λ fault. ⊥) }
        ensures refusals { IfErr result (λ fault. element_at self.old ≡ Err fault) }
        ensures kept { OnErr result (self.new ≡ self.old) }
    {
        let found = element_at_front(self.rest)?;
        let (_, rest) = self.rest.split_at(found.whole.len());
        self.rest = rest;
        Ok(found)
    }

    /// Takes the element at the front where it is under that tag.
    ///
    /// Refused as `next` refuses, and with `WrongKind` where the element at the front is under another tag.
    pub fn expect(&mut self, tag: Tag) -> Result<Element<'a>, DerFault>
        ensures found { IfOk result (λ found. self.old ≡ found.whole.now ++ self.new) }
        ensures tag { IfOk result (λ found. found.tag.octet ≡ tag.octet) }
        ensures octets { IfOk result (λ found. AreOctets found.content.now) }
        ensures only { (contents rest : List ℕ) → length contents < 2 ^ 24
            → self.old ≡ element tag.octet contents ++ rest
            → MatchResult result (λ found. (found.content.now ≡ contents) × (self.new ≡ rest)) (λ fault. ⊥) }
        ensures refusals { IfErr result (λ fault. expected_at tag.octet self.old ≡ Err fault) }
        ensures kept { OnErr result (self.new ≡ self.old) }
    {
        let before = self.rest;
        let found = self.next()?;
        if found.tag != tag {
            self.rest = before;
            return Err(DerFault::WrongKind);
        }
        Ok(found)
    }

    /// Whether no octet is left.
    pub fn is_empty(&self) -> bool
        ensures { IsTrue result ↔ (self.now ≡ []) }
    {
        self.rest.is_empty()
    }
}

/// The element at the front of octets.
pub(crate) fn element_at_front(octets: &[u8]) -> Result<Element<'_>, DerFault>
    ensures front { IfOk result (λ found. (rest : List ℕ) × (octets.now ≡ found.whole.now ++ rest)) }
    ensures octets { IfOk result (λ found. AreOctets found.content.now) }
    ensures only { (identifier : ℕ) (contents rest : List ℕ) → identifier % 32 < 31 → length contents < 2 ^ 24
        → octets.now ≡ element identifier contents ++ rest
        → MatchResult result
        (λ found. (found.tag.octet ≡ identifier) × (found.content.now ≡ contents)) (λ fault. ⊥) }
    ensures refusals { IfErr result (λ fault. element_at octets.now ≡ Err fault) }
{
    let Piece {
        tag,
        contents,
        rest,
    } = read_element(octets)?;
    let (whole, _) = octets.split_at(octets.len() - rest.len());
    Ok(Element {
        tag,
        content: contents,
        whole,
    })
}

/// Octets begin with one element at most: its identifier octet, its contents octets, and the octets after it.
pub fn elements_have_one_beginning()
    ensures { (i j : ℕ) (contents others x y : List ℕ) → IsLowTag i → IsLowTag j → length contents < 2 ^ 24
        → length others < 2 ^ 24 → element i contents ++ x ≡ element j others ++ y
        → (i ≡ j) × (contents ≡ others) × (x ≡ y) }
{}
