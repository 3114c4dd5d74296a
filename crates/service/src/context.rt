//! What a handler answers a request by.
use crate::answer::Occasion;
use crate::head::Head;
use std::alloc::Global;

/// What a request is read and answered by, beside the desk and the signer.
#[derive(Clone, Copy)]
pub struct Surroundings {
    /// What gives memory for a request and its answer.
    pub alloc: Global,
    /// The clock's reading, in microseconds.
    pub reading: i64,
    /// The octets of the database's files when it was opened, if they are known.
    pub octets: Option<u64>,
}

/// A whole request, and what it is answered by.
#[derive(Clone, Copy)]
pub(crate) struct Context<'r> {
    pub(crate) alloc: Global,
    pub(crate) octets: Option<u64>,
    pub(crate) at: Occasion,
    pub(crate) head: Head<'r>,
    pub(crate) body: &'r [u8],
}
