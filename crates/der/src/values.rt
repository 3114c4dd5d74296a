//! Lawful values where they lie in octets: read without memory, and taken apart without copying.
ghost use Rattle.std.specs.Prelude.{◌≡◌, ℕ, ◌≤◌, ◌↔◌, true, List, Ok, Err, option_map};
ghost use Rattle.std.specs.Prelude.{IfOk, IfErr, IsNone, MatchResult};
ghost use Rattle.der.specs.Node.{Node, Nodes, no_nodes, encoding, encodings, identifier_of, contents_of};
ghost use Rattle.der.specs.Node.{components_of, first_of, take_under, is_end, levels_of, AreFormed, IsLawful};
ghost use Rattle.der.specs.FirstFault.{node_at, values_at, tree_of};
ghost use Rattle.der.specs.DataValue.{AreEncodings, is_value, are_values, value_in, values_in};
ghost use Rattle.der.specs.DataValueView.{value_view, values_view};

use crate::cursor::element_at_front;
use crate::data_value::{DataValue, DataValues};
use crate::fault::DerFault;
use crate::read::{MAX_LEVELS, Piece, read_element};
use crate::tag::Tag;

/// Whether octets are the encodings of values, one after the other, of at most that many levels: `Ok` where they are,
/// else their first fault, as `read_tree` orders them (`TooDeep` for a value on a level too many). Takes no memory.
pub fn check_values(levels: u8, octets: &[u8]) -> Result<(), DerFault>
    ensures found { (result ≡ Ok tt) ↔ AreEncodings levels octets.now }
    ensures refusals { IfErr result (λ fault. values_at levels octets.now ≡ Err fault) }
{
    skip_values(levels, octets)
}

/// Goes over values, one after the other, until the octets end.
#[cycle(skip)]
fn skip_values(levels: u8, octets: &[u8]) -> Result<(), DerFault>
    ensures { MatchResult result (λ _. (ns : Nodes) × (values_at levels octets.now ≡ Ok ns))
        (λ fault. values_at levels octets.now ≡ Err fault) }
{
    let mut rest = octets;
    while !rest.is_empty() {
        rest = skip_value(levels, rest)?;
    }
    Ok(())
}

/// The octets after the value at the front, which has at most that many levels.
#[cycle(skip)]
fn skip_value(levels: u8, octets: &[u8]) -> Result<&[u8], DerFault>
    ensures { MatchResult result (λ rest. (n : Node) × (node_at levels octets.now ≡ Ok (n, rest.now)))
        (λ fault. node_at levels octets.now ≡ Err fault) }
{
    if levels == 0 {
        return Err(DerFault::TooDeep);
    }
    let Piece {
        tag,
        contents,
        rest,
    } = read_element(octets)?;
    if !tag.is_constructed() {
        return Ok(rest);
    }
    skip_values(levels - 1, contents)?;
    Ok(rest)
}

/// Reads the value that octets are, where it lies: a value of at most 32 levels, with nothing after it (X.690 8.1,
/// 10.1). Takes no memory. Refused as `read_tree` refuses, but never with `Memory`.
pub fn read_value(octets: &[u8]) -> Result<DataValue<'_>, DerFault>
    ensures found { IfOk result (λ value. IsLawful (value_view value)
        × (octets.now ≡ encoding (value_view value))) }
    ensures only { (n : Node) → IsLawful n → octets.now ≡ encoding n
        → MatchResult result (λ value. value_view value ≡ n) (λ fault. ⊥) }
    ensures refusals { IfErr result (λ fault. tree_of octets.now ≡ Err fault) }
{
    let rest = skip_value(MAX_LEVELS, octets)?;
    if !rest.is_empty() {
        return Err(DerFault::Trailing);
    }
    let element = element_at_front(octets)?;
    Ok(DataValue { element })
}

impl<'a> DataValue<'a> {
    /// The value's identifier octet.
    pub fn tag(&self) -> Tag
        ensures { result.octet ≡ identifier_of (value_view self.now) }
    {
        self.element.tag
    }

    /// All octets of the value.
    pub fn octets(&self) -> &'a [u8]
        ensures { result.now ≡ encoding (value_view self.now) }
    {
        self.element.whole
    }

    /// The contents octets of a value under that tag; none where the value is under another tag, or is made of further
    /// values.
    pub fn contents_under(&self, tag: Tag) -> Option<&'a [u8]>
        ensures { option_map (λ contents. contents.now) result ≡ contents_of tag.octet (value_view self.now) }
    {
        if self.element.tag != tag {
            return None;
        }
        if tag.is_constructed() {
            return None;
        }
        Some(self.element.content)
    }

    /// The values inside a value under that tag; none where the value is under another tag, or has contents octets
    /// alone.
    pub fn components_under(&self, tag: Tag) -> Option<DataValues<'a>>
        ensures { option_map values_view result ≡ components_of tag.octet (value_view self.now) }
    {
        if self.element.tag != tag {
            return None;
        }
        if !tag.is_constructed() {
            return None;
        }
        Some(DataValues {
            rest: self.element.content,
        })
    }
}

impl<'a> DataValues<'a> {
    /// No values.
    pub fn none() -> DataValues<'a>
        ensures { values_view result ≡ no_nodes }
    {
        DataValues { rest: &[] }
    }

    /// Takes the first value off; none where no value is left.
    pub fn next(&mut self) -> Option<DataValue<'a>>
        ensures first { option_map (λ value. (value_view value, values_view self.new)) result
            ≡ first_of (values_view self.old) }
        ensures none { IsNone result → self.new ≡ self.old }
    {
        let Ok(element) = element_at_front(self.rest) else {
            return None;
        };
        let (_, rest) = self.rest.split_at(element.whole.len());
        *self = DataValues { rest };
        Some(DataValue { element })
    }

    /// Takes the first value off where it is under that tag; else none, and no value is taken.
    pub fn next_under(&mut self, tag: Tag) -> Option<DataValue<'a>>
        ensures taken { option_map value_view result ≡ (take_under tag.octet (values_view self.old)).0 }
        ensures left { values_view self.new ≡ (take_under tag.octet (values_view self.old)).1 }
    {
        let mut later = *self;
        let Some(first) = later.next() else {
            return None;
        };
        if first.tag() != tag {
            return None;
        }
        *self = later;
        Some(first)
    }

    /// Whether no value is left.
    pub fn is_empty(&self) -> bool
        ensures { result ≡ is_end (values_view self.now) }
    {
        self.rest.is_empty()
    }
}

/// Octets and the values that they are read as: an encoding of a lawful value is read as that value, and encodings one
/// after the other as those values.
pub fn encodings_are_read()
    ensures value { (n : Node) → IsLawful n → value_in (encoding n) ≡ n }
    ensures values { (ns : Nodes) → AreFormed ns → levels_of ns ≤ 32 → values_in (encodings ns) ≡ ns }
    ensures lawful { (octets : List ℕ) → is_value octets ≡ true
        → IsLawful (value_in octets) × (octets ≡ encoding (value_in octets)) }
    ensures all_lawful { (octets : List ℕ) → are_values octets ≡ true
        → AreFormed (values_in octets) × (levels_of (values_in octets) ≤ 32)
        × (octets ≡ encodings (values_in octets)) }
{}
