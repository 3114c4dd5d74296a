//! What rows of calls are played with: the words of a line, octets that have a name, what is told, and ends that give
//! and take few octets at a time.
mod names;
mod pieces;
mod printer;
mod words;

pub use names::Names;
pub use pieces::{Gathered, Pieces};
use policy::EXAMPLE;
pub use printer::Printer;
use std::alloc::{AllocError, Global};
pub use words::Words;

/// The size in octets of the allocation after which growths may be refused.
pub const MARK: usize = 1_000_003;

/// That of the one after which they may not.
pub const UNMARK: usize = 1_000_033;

/// Makes such an allocation.
pub fn mark(alloc: Global, octets: usize) {
    drop(Vec::<u8>::with_capacity(alloc, octets));
}

/// The octets that a text's lines name, and those of the example of a policy file.
pub fn names_of(alloc: Global, text: &str) -> Result<Names, AllocError> {
    let mut names = Names::new(alloc);
    names.add("EXAMPLE", Vec::from_slice(alloc, EXAMPLE.as_bytes())?)?;
    names.read(text)?;
    Ok(names)
}

/// The numbers of a text, between which such a mark stands.
pub fn chosen_of(alloc: Global, text: &str, mark: char) -> Result<Vec<u64>, AllocError> {
    let mut chosen = Vec::new(alloc);
    for number in text.split(mark) {
        if let Ok(number) = number.parse() {
            chosen.push(number)?;
        }
    }
    Ok(chosen)
}
