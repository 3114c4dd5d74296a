//! Ends that fail when they are told to, and give and take so many octets at a time.
use crate::transcript::{Gathered, Pieces, Printer, Words, chosen_of};
use counter_fakes::{FailingReader, FailingWriter};
use std::alloc::{AllocError, Global};
use std::io::{Read, Write};

/// A reader of octets that fails.
pub type Reader<'r, 'i> = FailingReader<&'r mut Pieces<'i>>;

/// A writer that fails.
pub type Writer = FailingWriter<Gathered>;

/// A reader that gives as many octets as the next word says, and fails at the calls that the word behind it chooses.
pub fn reader_of<'r, 'i>(
    alloc: Global,
    input: &'r mut Pieces<'i>,
    words: &mut Words<'_>,
) -> Result<Reader<'r, 'i>, AllocError> {
    let octets = words.number();
    Ok(FailingReader::new(input, chosen_of(alloc, words.next(), ',')?, octets))
}

/// A writer that takes as many octets as the next word says, so many at a time, for which it has the room from the
/// beginning, and fails at the calls that the word behind it chooses.
pub fn writer_of(alloc: Global, size: usize, words: &mut Words<'_>) -> Result<Writer, AllocError> {
    let most = words.number() as usize;
    let chosen = chosen_of(alloc, words.next(), ',')?;
    let octets = Vec::with_capacity(alloc, most)?;
    Ok(FailingWriter::new(Gathered { octets, size }, chosen, most))
}

/// How many of at most four octets a read gives; none where it fails.
fn given<R: Read>(reader: &mut R) -> Option<usize> {
    let mut octets = [0; 4];
    reader.read(&mut octets).ok()
}

fn read(printer: Printer<'_>, words: &mut Words<'_>) -> Result<(), AllocError> {
    let mut input = Pieces {
        octets: printer.names.octets(words.next()),
        size: usize::MAX,
    };
    let mut reader = reader_of(printer.alloc(), &mut input, words)?;
    for _ in 0..words.number() {
        printer.tell(&given(&mut reader));
    }
    printer.number("calls", reader.calls);
    Ok(())
}

fn write(printer: Printer<'_>, words: &mut Words<'_>) -> Result<(), AllocError> {
    let mut writer = writer_of(printer.alloc(), usize::MAX, words)?;
    for name in words.rest.split_terminator(' ') {
        printer.tell(&writer.write(printer.names.octets(name)).ok());
    }
    printer.tell(&writer.flush().is_ok());
    printer.number("calls", writer.calls);
    printer.octets("written", &writer.writer.octets);
    Ok(())
}

/// Makes the calls that the words name.
pub fn call(printer: Printer<'_>, words: Words<'_>) -> Result<(), AllocError> {
    let mut words = words;
    match words.next() {
        "read" => read(printer, &mut words),
        _ => write(printer, &mut words),
    }
}
