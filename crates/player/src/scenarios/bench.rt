//! On what a scenario is played.
use crate::scenarios::kept::Place;
use crate::scenarios::setting::{Holder, Setting, signer_of};
use crate::transcript::Printer;
use desk::{Command, Desk};
use sqlite::Connection;
use std::alloc::Global;
use store::Book;
use tables::Base;

/// How many octets of requests and answers there is room for from the beginning.
const ROOM: usize = 2_097_152;

/// The signer, and what takes octets.
#[derive(Drop)]
pub struct Tools {
    pub signer: Holder,
    /// The octets of a request.
    pub request: Vec<u8>,
    /// What takes answers.
    pub room: Vec<u8>,
}

/// What a scenario is played with.
pub fn tools_of(alloc: Global, scenario: &str) -> Option<Tools> {
    let signer = signer_of(alloc, scenario)?;
    let request = Vec::with_capacity(alloc, ROOM).ok()?;
    let room = Vec::with_capacity(alloc, ROOM).ok()?;
    Some(Tools {
        signer,
        request,
        room,
    })
}

/// A connection to a database, a desk over its store, or its tables alone; the commands that are collected for a run,
/// and the tools.
#[derive(Drop)]
pub struct Bench<'p, B: Book + Drop> {
    pub alloc: Global,
    pub printer: Printer<'p>,
    pub setting: &'p Setting,
    pub conn: Option<Connection<Place>>,
    pub desk: Option<Desk<'p, B>>,
    pub tables: Option<Base<Place>>,
    pub commands: Option<Vec<Command<'p, 'p>>>,
    pub tools: Tools,
}
