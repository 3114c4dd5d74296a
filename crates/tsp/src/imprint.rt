use crate::object_identifier::ObjectIdentifier;
use der::DataValue;

/// What a time-stamp is for, known by its digest: the hash algorithm with its parameters, and the hash (RFC 3161 2.4.1,
/// MessageImprint).
#[derive(Drop)]
pub struct MessageImprint<'a> {
    /// The hash algorithm's object identifier (RFC 5280 4.1.1.2).
    pub algorithm: ObjectIdentifier<'a>,
    /// The algorithm's parameters, a value of any kind.
    pub parameters: Option<DataValue<'a>>,
    /// The hash, of any length.
    pub hash: &'a [u8],
}
