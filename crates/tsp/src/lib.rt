//! Time-stamp requests, TSTInfo and replies (RFC 3161 2.4).
#![tactic(auto)]

mod encoder;
mod extensions;
mod fault;
mod granted;
mod imprint;
mod integer;
mod judgement;
mod message;
mod object_identifier;
mod parser;
mod rejection;
mod request;
mod rule;
mod tags;
mod tst;
mod tst_parser;

pub use encoder::{write_request, write_tst};
pub use extensions::{Extension, Extensions};
pub use fault::TspFault;
pub use granted::write_granted;
pub use imprint::MessageImprint;
pub use integer::Integer;
pub use judgement::{JudgesRequests, octets_fail_as_their_request};
pub use object_identifier::ObjectIdentifier;
pub use rejection::Rejection;
pub use request::{Request, read_request, requests_have_one_reading};
pub use rule::Rule;
pub use tst::TstInfo;
pub use tst_parser::{read_tst, tst_infos_have_one_reading};
