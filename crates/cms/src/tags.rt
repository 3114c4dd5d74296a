//! Tags of the class context-specific.
use der::Tag;

/// The tag [0] over further values: over the version in a certificate (RFC 5280 4.1), and over contents, attributes and
/// certificates in signed data (RFC 5652 3, 5.1 to 5.3).
pub(crate) const UNDER_ZERO: Tag = Tag { octet: 0xa0 };
