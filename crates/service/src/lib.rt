//! The counter over HTTP (RFC 9110, RFC 9112; RFC 3161 3.4): one request and its answer, over any reader and writer.
#![tactic(auto)]

mod account;
mod answer;
mod checks;
mod context;
mod due;
mod exchange;
mod extracts;
mod fields;
mod form;
mod handlers;
mod head;
mod known;
mod laws;
mod lists;
mod numbers;
mod readers;
mod refusal;
mod request;
mod responses;
mod routes;
mod served;
mod status;
mod wanted;
mod writes;

pub use answer::Media;
pub use context::Surroundings;
pub use exchange::{Exchanged, serve_one, serve_over};
pub use known::MOST_OCTETS;
pub use laws::accounts_are_told_alike;
pub use refusal::Refusal;
pub use request::Request;
pub use routes::{Methods, Routes};
pub use served::Served;
