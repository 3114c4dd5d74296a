//! A key holder in another process, behind a connection.
#![tactic(auto)]

mod key_holder;
mod reconnecting_signer;
mod session;
mod signer;

pub use key_holder::{KeyHolder, KeyHolderSigner, connect_reconnecting};
pub use reconnecting_signer::{ReconnectingSigner, Sessions};
pub use session::SessionStream;
pub use signer::{
    SIGNER_SECONDS, Session, SignerUnreached, StreamSigner, connect_signer, signer_over,
};
