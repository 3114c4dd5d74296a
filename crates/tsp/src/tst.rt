use crate::extensions::Extensions;
use crate::imprint::MessageImprint;
use crate::integer::Integer;
use crate::object_identifier::ObjectIdentifier;
use der::DataValue;
use gentime::GenTime;

/// What a token says (RFC 3161 2.4.2, TSTInfo), of version 1. Its parts lie in a request, in a certificate, or in the
/// octets that `read_tst` read.
#[derive(Drop)]
pub struct TstInfo<'a> {
    /// The policy under which the token was given.
    pub policy: ObjectIdentifier<'a>,
    /// What was stamped, as it stands in the request.
    pub imprint: MessageImprint<'a>,
    /// The serial number, 1 to 2^63 - 1.
    pub serial: u64,
    /// The moment, in microseconds since 1970.
    pub gen_time: GenTime,
    /// How far the true moment may be away from `gen_time`, 1 to 1,000,000 microseconds.
    pub accuracy: u32,
    /// Whether tokens are ordered by their `gen_time` alone.
    pub ordering: bool,
    /// The request's nonce.
    pub nonce: Option<Integer<'a>>,
    /// The authority's name, a Name (RFC 5280 4.1.2.4); as the field tsa it is a GeneralName of the kind directoryName.
    pub tsa: Option<DataValue<'a>>,
    /// The request's extensions, in their order.
    pub extensions: Extensions<'a>,
}
