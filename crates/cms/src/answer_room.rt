//! Room for an answer.
ghost use Rattle.std.specs.Prelude.{◌≡◌, vec_len};

use std::alloc::{AllocError, Global};

/// The most octets that an answer has.
pub(crate) const MAX_ANSWER: usize = 4_096;

/// Room for one answer.
#[derive(Drop)]
pub struct AnswerRoom {
    pub(crate) octets: Vec<u8>,
    ghost whole: { vec_len octets ≡ 4096 },
}

impl AnswerRoom {
    /// Room that is free.
    pub(crate) fn new(alloc: Global) -> Result<AnswerRoom, AllocError> {
        let octets = vec![in alloc; 0u8; MAX_ANSWER]?;
        Ok(AnswerRoom { octets })
    }
}
