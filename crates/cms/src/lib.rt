//! Time-stamp tokens in the Cryptographic Message Syntax (RFC 5652, RFC 3161 2.4.2, RFC 5816), and who signs them.
#![tactic(auto)]

mod algorithm;
mod answer_room;
mod chain;
mod fault;
mod framed_signer;
mod frames;
mod identity;
mod keyed_hash;
mod outline;
mod pipeline;
mod place;
mod signed_data;
mod signer;
mod tags;

pub use algorithm::Algorithm;
pub use answer_room::AnswerRoom;
pub use chain::sets_are_ascending;
pub use fault::CmsFault;
pub use framed_signer::FramedSigner;
pub use identity::Identity;
pub use keyed_hash::KeyedHash;
pub use outline::subject_of;
pub use pipeline::Pipeline;
pub use signed_data::{attribute_text, token};
pub use signer::{Signer, SignerFault};
