//! The counter of a time-stamping authority (RFC 3161), as a program.
#![tactic(auto)]

mod additions;
mod answer;
mod continuation;
mod events;
mod exchange;
mod explanation;
mod extract;
mod fault;
mod files;
mod host;
mod http_request;
mod laws;
mod run;
mod server;

use std::process::ExitCode;

fn main(rt: HostRuntime) -> ExitCode {
    ExitCode::from(run::run(&rt))
}
