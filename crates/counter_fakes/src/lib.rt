//! For tests alone: a book, a signer, a reader and a writer that fail when they are told to, and connections that come
//! one after the other.
#![tactic(auto)]

mod acceptor;
mod failing_book;
mod reader;
mod signer;
mod writer;

pub use acceptor::{ScriptedAcceptor, ScriptedStream};
pub use failing_book::FailingBook;
pub use reader::FailingReader;
pub use signer::FailingSigner;
pub use writer::FailingWriter;
