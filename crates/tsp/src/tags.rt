//! The context-specific tags of the messages (RFC 3161 2.4.1, 2.4.2).
use der::Tag;

/// The extensions of a request, under [0].
pub(crate) const REQUEST_EXTENSIONS: Tag = Tag { octet: 0xa0 };
/// The field tsa of a TSTInfo, under [0].
pub(crate) const TSA: Tag = Tag { octet: 0xa0 };
/// A GeneralName that is a directoryName, under [4] (RFC 5280 4.2.1.6).
pub(crate) const DIRECTORY_NAME: Tag = Tag { octet: 0xa4 };
/// The extensions of a TSTInfo, under [1].
pub(crate) const TST_EXTENSIONS: Tag = Tag { octet: 0xa1 };
/// The part of an accuracy in milliseconds, under [0].
pub(crate) const MILLIS: Tag = Tag { octet: 0x80 };
/// The part of an accuracy in microseconds, under [1].
pub(crate) const MICROS: Tag = Tag { octet: 0x81 };
