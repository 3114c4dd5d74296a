//! Signers: the stand-in, one that fails at chosen calls, and a key holder over frames, asked in turn or ahead.
use crate::transcript::{Pieces, Printer, Words, chosen_of};
use crate::vectors::ends::{Reader, Writer, reader_of, writer_of};
use cms::{Algorithm, CmsFault, FramedSigner, KeyedHash, Pipeline, Signer, SignerFault};
use counter_fakes::FailingSigner;
use std::alloc::{AllocError, Global};

/// The algorithm 2.999.9, without parameters.
static ALGORITHM: &[u8] = b"\x30\x05\x06\x03\x88\x37\x09";

fn tell_answer(printer: Printer<'_>, answer: &Result<Vec<u8>, SignerFault>) {
    match answer {
        Ok(signature) => printer.digits("signature", signature),
        Err(fault) => printer.tell(fault),
    }
}

/// Has each of the names' octets signed, and tells of each how many faults there were then.
fn sign_all<S: Signer>(printer: Printer<'_>, signer: &mut S, words: Words<'_>) {
    for name in words.rest.split_terminator(' ') {
        tell_answer(printer, &signer.sign(printer.names.octets(name)));
        printer.number("faults", signer.faults());
    }
    printer.digits("algorithm", signer.algorithm().as_slice());
}

/// The stand-in with the key of the first name signs the others.
fn sign_by_key(printer: Printer<'_>, words: &mut Words<'_>) {
    match KeyedHash::new(printer.alloc(), printer.names.octets(words.next())) {
        Ok(mut signer) => sign_all(printer, &mut signer, *words),
        Err(fault) => printer.tell(&fault),
    }
}

/// The octets of the names.
fn texts_of<'n>(printer: Printer<'n>, words: Words<'_>) -> Result<Vec<&'n [u8]>, AllocError> {
    let mut texts = Vec::new(printer.alloc());
    for name in words.rest.split_terminator(' ') {
        texts.push(printer.names.octets(name))?;
    }
    Ok(texts)
}

/// A signer signs the others together, and tells at the end how many faults there were.
fn sign_each<S: Signer>(
    printer: Printer<'_>,
    signer: &mut S,
    words: Words<'_>,
) -> Result<(), AllocError> {
    let texts = texts_of(printer, words)?;
    let mut answers = Vec::with_capacity(printer.alloc(), texts.len())?;
    signer.sign_each(&texts, &mut answers);
    for answer in &answers {
        tell_answer(printer, answer);
    }
    printer.number("faults", signer.faults());
    Ok(())
}

/// A signer that fails at the calls that the first word chooses, with the key of the name behind it, signs the others,
/// one by one or together.
fn sign_failing(
    printer: Printer<'_>,
    is_together: bool,
    words: &mut Words<'_>,
) -> Result<(), AllocError> {
    let chosen = chosen_of(printer.alloc(), words.next(), ',')?;
    match KeyedHash::new(printer.alloc(), printer.names.octets(words.next())) {
        Ok(behind) => {
            let mut signer = FailingSigner::new(behind, chosen);
            if is_together {
                sign_each(printer, &mut signer, *words)?;
            } else {
                sign_all(printer, &mut signer, *words);
            }
            printer.number("calls", signer.calls);
        }
        Err(fault) => printer.tell(&fault),
    }
    Ok(())
}

/// Sends texts ahead of the answers, and takes these up to the first that fails.
fn ask_ahead<S: Pipeline>(printer: Printer<'_>, signer: &mut S, texts: &[&[u8]]) {
    if texts.is_empty() {
        return;
    }
    match signer.send_ahead(texts) {
        Ok(rooms) => {
            for room in rooms {
                let answer = signer.receive_ahead(room);
                tell_answer(printer, &answer);
                if answer.is_err() {
                    break;
                }
            }
        }
        Err(fault) => printer.tell(&fault),
    }
    printer.number("faults", signer.faults());
}

fn framed<'e, 'r, 'i>(
    alloc: Global,
    reader: &'e mut Reader<'r, 'i>,
    writer: &'e mut Writer,
) -> Result<FramedSigner<&'e mut Reader<'r, 'i>, &'e mut Writer>, CmsFault> {
    let algorithm = Algorithm::from_bytes(alloc, ALGORITHM)?;
    Ok(FramedSigner::new(alloc, reader, writer, algorithm))
}

/// A key holder over frames signs, whose reader gives and whose writer takes so many octets at a time: the words are
/// those of both, and then names, whose octets it is asked for one by one, or sent ahead. Tells what was written, what
/// wasn't read, and how often either end was called.
fn sign_framed(
    printer: Printer<'_>,
    size: usize,
    is_ahead: bool,
    words: &mut Words<'_>,
) -> Result<(), AllocError> {
    let mut input = Pieces {
        octets: printer.names.octets(words.next()),
        size,
    };
    let mut reader = reader_of(printer.alloc(), &mut input, words)?;
    let mut writer = writer_of(printer.alloc(), size, words)?;
    match framed(printer.alloc(), &mut reader, &mut writer) {
        Ok(mut signer) => {
            if is_ahead {
                ask_ahead(printer, &mut signer, &texts_of(printer, *words)?);
            } else {
                sign_all(printer, &mut signer, *words);
            }
        }
        Err(fault) => printer.tell(&fault),
    }
    printer.number("reads", reader.calls);
    printer.number("writes", writer.calls);
    printer.digits("written", &writer.writer.octets);
    drop(reader);
    printer.digits("unread", input.octets);
    Ok(())
}

/// Makes the call that the words name.
pub fn call(printer: Printer<'_>, words: Words<'_>) -> Result<(), AllocError> {
    let mut words = words;
    match words.next() {
        "stand-in" => {
            sign_by_key(printer, &mut words);
            Ok(())
        }
        "failing" => sign_failing(printer, false, &mut words),
        "together" => sign_failing(printer, true, &mut words),
        "pieces" => {
            let size = words.number() as usize;
            sign_framed(printer, size, false, &mut words)
        }
        "ahead" => sign_framed(printer, usize::MAX, true, &mut words),
        _ => sign_framed(printer, usize::MAX, false, &mut words),
    }
}
