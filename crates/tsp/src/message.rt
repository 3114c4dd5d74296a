//! A message in the making.
ghost use Rattle.std.specs.Prelude.{◌≡◌, ℕ, ◌<◌, ◌^◌, List, [], ◌++◌, pos, length, OnOk, IfErr};
ghost use Rattle.der.specs.{Node.element, Node.encoding, Number.number_content};
ghost use Rattle.tsp.specs.{Tst.generalized_time, declared.fault.TspFault.TheVariants.Memory};

use crate::fault::TspFault;
use der::{DerFault, Tag, Writer, whole_number_content};
use gentime::{GenTime, GenTimeFault, texts_are_short};
use std::alloc::Global;
use std::marker::Model;

/// A message in the making: the octets written so far, and the allocator for the parts that are written by themselves
/// first.
#[derive(Drop)]
pub(crate) struct Message {
    alloc: Global,
    octets: Writer,
}

impl Model for Message {
    ghost Value = { List ℕ };

    ghost view = { λ message. message.octets };
}

impl Message {
    /// No octets so far. Takes no memory.
    pub(crate) fn new(alloc: Global) -> Message
        ensures { result ≡ [] }
    {
        Message {
            alloc,
            octets: Writer::new(alloc),
        }
    }

    /// No octets so far, with the same allocator: for the contents of an inner value. Takes no memory.
    pub(crate) fn inner(&self) -> Message
        ensures { result ≡ [] }
    {
        Message::new(self.alloc)
    }

    /// Appends octets.
    pub(crate) fn append(&mut self, octets: &[u8]) -> Result<(), TspFault>
        ensures ok { OnOk result (self.new ≡ self.old ++ octets.now) }
        ensures memory { IfErr result (λ fault. fault ≡ Memory) }
    {
        match self.octets.append(octets) {
            Ok(()) => Ok(()),
            Err(DerFault::Memory) => Err(TspFault::Memory),
            Err(_) => unreachable!(),
        }
    }

    /// Appends a value with these contents octets, of which there are fewer than 2^24.
    pub(crate) fn append_value(&mut self, tag: Tag, contents: &[u8]) -> Result<(), TspFault>
        requires { length contents.now < 2 ^ 24 }
        ensures ok { OnOk result (self.new ≡ self.old ++ element tag.octet contents.now) }
        ensures memory { IfErr result (λ fault. fault ≡ Memory) }
    {
        match self.octets.append_element(tag, contents) {
            Ok(()) => Ok(()),
            Err(DerFault::Memory) => Err(TspFault::Memory),
            Err(_) => unreachable!(),
        }
    }

    /// Puts what was written under a tag. The caller's contents are fewer than 2^24 octets, so only memory can be
    /// wanting.
    pub(crate) fn wrap(&mut self, tag: Tag) -> Result<(), TspFault>
        requires { length self.old < 2 ^ 24 }
        ensures ok { OnOk result (self.new ≡ element tag.octet self.old) }
        ensures memory { IfErr result (λ fault. fault ≡ Memory) }
    {
        match self.octets.wrap(tag) {
            Ok(()) => Ok(()),
            Err(DerFault::Memory) => Err(TspFault::Memory),
            Err(_) => unreachable!(),
        }
    }

    /// Appends a number's contents under a tag.
    #[tactic(auto, using(crate::proofs::TstLawful::number_is_short))]
    pub(crate) fn append_number(&mut self, tag: Tag, number: u64) -> Result<(), TspFault>
        requires { number < 2 ^ 63 }
        ensures ok { OnOk result (self.new ≡ self.old ++ element tag.octet (number_content (pos number))) }
        ensures memory { IfErr result (λ fault. fault ≡ Memory) }
    {
        match whole_number_content(self.alloc, i128::from(number)) {
            Ok(contents) => self.append_value(tag, &contents),
            Err(DerFault::Memory) => Err(TspFault::Memory),
            Err(_) => unreachable!(),
        }
    }

    /// Appends a GeneralizedTime (RFC 3161 2.4.2, X.690 11.7).
    pub(crate) fn append_time(&mut self, moment: GenTime) -> Result<(), TspFault>
        ensures ok { OnOk result (self.new ≡ self.old ++ encoding (generalized_time moment)) }
        ensures memory { IfErr result (λ fault. fault ≡ Memory) }
    {
        let _bound = moment.micros();
        texts_are_short();
        match moment.write(self.alloc, 6) {
            Ok(text) => self.append_value(Tag::GENERALIZED_TIME, &text),
            Err(GenTimeFault::Memory) => Err(TspFault::Memory),
            Err(_) => unreachable!(),
        }
    }

    /// The octets written.
    pub(crate) fn as_slice(&self) -> &[u8]
        ensures { result.now ≡ self.now }
    {
        self.octets.as_slice()
    }

    /// The octets written, with their memory.
    pub(crate) fn into_octets(self) -> Vec<u8>
        ensures { result.items ≡ self }
    {
        let Message { octets, .. } = self;
        octets.into_octets()
    }
}
