//! Ends that give and take few octets at a time.
use std::io::{self, Read, Write};

/// Octets that are read so many at a time.
#[derive(Drop)]
pub struct Pieces<'o> {
    /// Those that weren't read yet.
    pub octets: &'o [u8],
    pub size: usize,
}

impl Read for Pieces<'_> {
    fn read(&mut self, buf: &mut [u8]) -> io::Result<usize> {
        let mut piece = self.octets.get(..self.size).unwrap_or(self.octets);
        let count = piece.read(buf)?;
        self.octets = self.octets.get(count..).unwrap_or(&[]);
        Ok(count)
    }
}

/// Octets that are written so many at a time.
#[derive(Drop)]
pub struct Gathered {
    /// Those that were written.
    pub octets: Vec<u8>,
    pub size: usize,
}

impl Write for Gathered {
    fn write(&mut self, buf: &[u8]) -> io::Result<usize> {
        let piece = buf.get(..self.size).unwrap_or(buf);
        self.octets.write(piece)
    }

    fn flush(&mut self) -> io::Result<()> {
        Ok(())
    }
}
