//! Requests over HTTP with long heads, through the service alone.
use crate::desks::{AtDesk, at_desk, serve_octets};
use crate::setting::CERTIFICATE;
use crate::work::setting::setting_of;
use cms::{KeyedHash, Signer};
use desk::Desk;
use service::Served;
use std::alloc::{AllocError, Global};
use store::Book;

/// A request that only an operator or an auditor may make: others are refused before a book is asked.
const START_LINE: &[u8] = b"GET /status HTTP/1.1\r\n";

/// How it is refused to the anonymous account.
const REFUSED: Served = Served::Answered(403);

/// Adds a field line that ends where the head has so many octets, or is as short as it can be.
fn add_field(head: &mut Vec<u8>, end: usize) -> Result<(), AllocError> {
    head.extend_from_slice(b"a:")?;
    let filled = end.saturating_sub(2).max(head.len());
    head.resize(filled, b'a')?;
    head.extend_from_slice(b"\r\n")
}

/// A head of so many octets in as many fields, which are about as long as each other.
fn head_of(alloc: Global, fields: usize, octets: usize) -> Result<Vec<u8>, AllocError> {
    let mut head = Vec::from_slice(alloc, START_LINE)?;
    let share = octets.checked_div(fields).unwrap_or(octets);
    for number in 1..fields {
        add_field(&mut head, share.saturating_mul(number))?;
    }
    add_field(&mut head, octets.saturating_sub(2))?;
    head.extend_from_slice(b"\r\n")?;
    Ok(head)
}

/// Asks so many times, and tells how many times the whole head was read and the anonymous account refused.
fn heads_read<B: Book + Drop, G: Signer>(
    alloc: Global,
    desk: &mut Desk<'_, B>,
    signer: &mut G,
    head: &[u8],
    count: u64,
) -> u64 {
    let mut answer = Vec::new(alloc);
    let mut read = 0u64;
    for _ in 0..count {
        answer.clear();
        let (served, left) = serve_octets(alloc, desk, signer, head, &mut answer);
        if served == REFUSED && left == 0 {
            read = read.saturating_add(1);
        }
    }
    read
}

/// A head that is read, and how many times it was.
#[derive(Drop)]
struct Reading<'h> {
    alloc: Global,
    head: &'h [u8],
    count: u64,
    read: u64,
}

impl AtDesk for Reading<'_> {
    fn at<B: Book + Drop>(
        &mut self,
        desk: &mut Desk<'_, B>,
        signer: &mut KeyedHash,
    ) -> anyhow::Result<()> {
        self.read = heads_read(self.alloc, desk, signer, self.head, self.count);
        Ok(())
    }
}

/// Has heads of so many octets in so many fields read, and tells how many were read to their ends.
pub fn heads(alloc: Global, count: u64, fields: usize, octets: usize) -> anyhow::Result<u64> {
    let head = head_of(alloc, fields, octets)?;
    let setting = setting_of(alloc, CERTIFICATE)?;
    let mut reading = Reading {
        alloc,
        head: &head,
        count,
        read: 0,
    };
    at_desk(alloc, &setting, 0, &mut reading)?;
    Ok(reading.read)
}
