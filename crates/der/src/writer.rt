//! Writing encodings from the inside outwards.
ghost use Rattle.std.specs.Prelude.{◌≡◌, ℕ, ◌≤◌, ◌^◌, ◌↔◌, ◌⊎◌, List, [], ◌++◌, length, OnOk, OnErr, IfOk, IfErr};
ghost use Rattle.std.specs.Prelude.{IsTrue};
ghost use Rattle.der.specs.Node.{element};
ghost use Rattle.der.specs.declared.fault.DerFault.TheVariants.{TooLong, Memory};

use crate::encode::append_element;
use crate::fault::DerFault;
use crate::tag::Tag;
use std::alloc::Global;
use std::marker::Model;

/// Octets in the making. What is appended stands one after the other, until `wrap` makes all of it the contents of one
/// value: a value is written from the inside outwards, so that its length is known when its length octets are due.
///
/// It keeps the allocator that it was made with. A refused call leaves it as it was.
#[derive(Drop)]
pub struct Writer {
    alloc: Global,
    octets: Vec<u8>,
}

impl Model for Writer {
    ghost Value = { List ℕ };

    ghost view = { λ writer. writer.octets.items };
}

impl Writer {
    /// No octets so far. Takes no memory.
    pub fn new(alloc: Global) -> Writer
        ensures { result ≡ [] }
    {
        Writer {
            alloc,
            octets: Vec::new(alloc),
        }
    }

    /// Puts octets after those written so far. Refused only for want of memory.
    pub fn append(&mut self, octets: &[u8]) -> Result<(), DerFault>
        ensures ok { OnOk result (self.new ≡ self.old ++ octets.now) }
        ensures err { OnErr result (self.new ≡ self.old) }
        ensures refusals { IfErr result (λ e. e ≡ Memory) }
    {
        self.octets.extend_from_slice(octets)?;
        Ok(())
    }

    /// Makes all that was written so far the contents of one value: puts the identifier octet in front of it, and the
    /// fewest length octets between (X.690 8.1.1, 8.1.3, 10.1).
    ///
    /// Refused as `TooLong` exactly where 2^24 octets or more were written, and else only for want of memory.
    pub fn wrap(&mut self, tag: Tag) -> Result<(), DerFault>
        ensures ok { OnOk result (self.new ≡ element tag.octet self.old) }
        ensures err { OnErr result (self.new ≡ self.old) }
        ensures too_long { (result ≡ Err TooLong) ↔ (2 ^ 24 ≤ length self.old) }
        ensures refusals { IfErr result (λ e. (e ≡ TooLong) ⊎ (e ≡ Memory)) }
    {
        self.octets = encoded_element(self.alloc, tag, &self.octets)?;
        Ok(())
    }

    /// Puts one value after the octets written so far: the identifier octet, the fewest length octets, and the contents
    /// octets (X.690 8.1.1, 8.1.3, 10.1).
    ///
    /// Refused as `TooLong` exactly where there are 2^24 contents octets or more, and else only for want of memory.
    pub fn append_element(&mut self, tag: Tag, contents: &[u8]) -> Result<(), DerFault>
        ensures ok { OnOk result (self.new ≡ self.old ++ element tag.octet contents.now) }
        ensures err { OnErr result (self.new ≡ self.old) }
        ensures too_long { (result ≡ Err TooLong) ↔ (2 ^ 24 ≤ length contents.now) }
        ensures refusals { IfErr result (λ e. (e ≡ TooLong) ⊎ (e ≡ Memory)) }
    {
        let encoded = encoded_element(self.alloc, tag, contents)?;
        self.append(&encoded)
    }

    /// How many octets were written.
    pub fn len(&self) -> usize
        ensures { result ≡ length self.now }
    {
        self.octets.len()
    }

    /// Whether no octet was written.
    pub fn is_empty(&self) -> bool
        ensures { IsTrue result ↔ (self.now ≡ []) }
    {
        self.octets.is_empty()
    }

    /// The octets written.
    pub fn as_slice(&self) -> &[u8]
        ensures { result.now ≡ self.now }
    {
        self.octets.as_slice()
    }

    /// The octets written, with their memory.
    pub fn into_octets(self) -> Vec<u8>
        ensures { result.items ≡ self }
    {
        let Writer { octets, .. } = self;
        octets
    }
}

/// One value's encoding: its identifier octet, the fewest length octets, and its contents octets.
fn encoded_element(alloc: Global, tag: Tag, contents: &[u8]) -> Result<Vec<u8>, DerFault>
    ensures ok { IfOk result (λ encoded. encoded.items ≡ element tag.octet contents.now) }
    ensures too_long { (result ≡ Err TooLong) ↔ (2 ^ 24 ≤ length contents.now) }
    ensures refusals { IfErr result (λ e. (e ≡ TooLong) ⊎ (e ≡ Memory)) }
{
    if contents.len() >= 1 << 24 {
        return Err(DerFault::TooLong);
    }
    let mut encoded = Vec::with_capacity(alloc, contents.len() + 5)?;
    append_element(&mut encoded, tag, contents)?;
    Ok(encoded)
}
