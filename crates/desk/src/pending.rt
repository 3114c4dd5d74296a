use crate::unsigned_token::UnsignedToken;
use cms::{Algorithm, Identity};
use std::marker::Model;

/// A reservation that waits for its signature. It has to be spent, by `finish` or by `abandon` of the desk that
/// answered it, and keeps the identity and the algorithm of its `begin`.
pub struct Pending<'p> {
    pub(crate) unsigned: UnsignedToken,
    pub(crate) identity: &'p Identity,
    pub(crate) algorithm: &'p Algorithm,
}

impl<'p> Model for Pending<'p> {
    ghost use Rattle.std.specs.Prelude.{◌≡◌};
    ghost use Rattle.cms.specs.SignedData.{attribute_text};
    ghost use Rattle.desk.specs.{Command.PendingValue, WaitingStamps.pending_by};

    ghost Value = { PendingValue };

    ghost view = { λ p. pending_by p.identity.now p.algorithm.now p.unsigned };

    ghost invariant = { λ p. p.unsigned.text.items ≡ attribute_text p.identity.now p.unsigned.tst.items };
}

impl<'p> Pending<'p> {
    ghost use Rattle.std.specs.Prelude.{◌≡◌};
    ghost use Rattle.cms.specs.SignedData.{attribute_text};

    /// The octets to sign: the signed attributes of the reservation's TSTInfo (RFC 5652 5.4). Takes no memory.
    pub fn text(&self) -> &[u8]
        ensures { result.now ≡ attribute_text self.now.identity self.now.tst }
    {
        &self.unsigned.text
    }

    /// Leaves the reservation void.
    pub(crate) fn abandon(self) {
        let Pending {
            unsigned: _,
            identity: _,
            algorithm: _,
        } = self;
    }
}
