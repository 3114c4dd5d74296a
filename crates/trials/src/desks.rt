//! What is done at desks, and desks over databases in memory.
use crate::books::{OverBook, calibrated, over_memory};
use crate::setting::{Setting, open_desk};
use cms::{KeyedHash, Signer};
use desk::Desk;
use service::{Served, serve_one};
use std::alloc::Global;
use store::Book;

/// What is done at a desk with the stand-in signer.
pub trait AtDesk {
    /// Does it.
    fn at<B: Book + Drop>(
        &mut self,
        desk: &mut Desk<'_, B>,
        signer: &mut KeyedHash,
    ) -> anyhow::Result<()>;
}

/// Such work, and by what the desk is opened.
#[derive(Drop)]
struct Opening<'s, 'w, W> {
    alloc: Global,
    setting: &'s Setting,
    reading: i64,
    work: &'w mut W,
}

impl<W: AtDesk> OverBook for Opening<'_, '_, W> {
    fn over<B: Book + Drop>(&mut self, book: B) -> anyhow::Result<B> {
        let mut signer = KeyedHash::new(self.alloc, b"k")?;
        let book = calibrated(book, self.reading)?;
        let mut desk = open_desk(self.alloc, self.setting, book)?;
        self.work.at(&mut desk, &mut signer)?;
        Ok(desk.into_store())
    }
}

/// Does work at a desk over an empty database in memory, with a calibration of a clock that is right, at a reading.
pub fn at_desk<W: AtDesk>(
    alloc: Global,
    setting: &Setting,
    reading: i64,
    work: &mut W,
) -> anyhow::Result<()> {
    let mut opening = Opening {
        alloc,
        setting,
        reading,
        work,
    };
    over_memory(alloc, &mut opening)
}

/// Serves a request of octets at a desk: what came of it, and how many octets weren't read.
pub fn serve_octets<B: Book + Drop, G: Signer>(
    alloc: Global,
    desk: &mut Desk<'_, B>,
    signer: &mut G,
    octets: &[u8],
    answer: &mut Vec<u8>,
) -> (Served, usize) {
    let mut reader = octets;
    let served = serve_one(alloc, &mut reader, answer, desk, 0, signer);
    (served, reader.len())
}
