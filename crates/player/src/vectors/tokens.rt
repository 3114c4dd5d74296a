//! Certificates, algorithms, what is signed, and tokens.
use crate::transcript::{Printer, Words};
use crate::vectors::requests::tell_written;
use cms::{Algorithm, CmsFault, Identity, attribute_text, subject_of, token};
use std::alloc::{AllocError, Global};

/// Tells of the identity of a certificate and its chain, or its first fault.
fn tell_chained(printer: Printer<'_>, certificate: &[u8], chain: &[u8]) {
    match Identity::from_parts(printer.alloc(), certificate, chain) {
        Ok(identity) => {
            printer.digits("certificate", identity.certificate());
            printer.digits("chain", identity.chain());
            printer.digits("subject", identity.subject());
            printer.digits("name", identity.name().octets());
        }
        Err(fault) => printer.tell(&fault),
    }
}

/// Tells the subject of the certificate that octets are.
fn tell_subject(printer: Printer<'_>, octets: &[u8]) {
    match subject_of(octets) {
        Some(name) => printer.digits("subject", name.octets()),
        None => printer.line("  no certificate"),
    }
}

fn tell_certificate(printer: Printer<'_>, octets: &[u8]) {
    match Identity::from_certificate(printer.alloc(), octets) {
        Ok(identity) => printer.digits("certificate", identity.certificate()),
        Err(fault) => printer.tell(&fault),
    }
}

fn tell_algorithm(printer: Printer<'_>, octets: &[u8]) {
    match Algorithm::from_bytes(printer.alloc(), octets) {
        Ok(algorithm) => printer.digits("algorithm", algorithm.as_slice()),
        Err(fault) => printer.tell(&fault),
    }
}

fn attributes(alloc: Global, certificate: &[u8], tst: &[u8]) -> Result<Vec<u8>, CmsFault> {
    let identity = Identity::from_certificate(alloc, certificate)?;
    attribute_text(alloc, &identity, tst)
}

/// The token of the parts whose names the words are, with that chain.
fn token_of(
    printer: Printer<'_>,
    chain: &[u8],
    words: &mut Words<'_>,
) -> Result<Vec<u8>, CmsFault> {
    let (alloc, names) = (printer.alloc(), printer.names);
    let identity = Identity::from_parts(alloc, names.octets(words.next()), chain)?;
    let algorithm = Algorithm::from_bytes(alloc, names.octets(words.next()))?;
    let tst = names.octets(words.next());
    let signature = names.octets(words.next());
    if signature.is_empty() || signature.len() > 4_096 {
        return Err(CmsFault::TooLarge);
    }
    let with_certificate = words.next() == "with";
    token(
        alloc,
        &identity,
        &algorithm,
        tst,
        signature,
        with_certificate,
    )
}

/// Makes a call of the octets that the words are.
fn call_of_octets(printer: Printer<'_>, word: &str, octets: &[u8]) {
    match word {
        "certificate" => tell_certificate(printer, octets),
        "subject" => tell_subject(printer, octets),
        _ => tell_algorithm(printer, octets),
    }
}

/// Makes the call that the words name.
pub fn call(printer: Printer<'_>, words: Words<'_>) -> Result<(), AllocError> {
    let (names, mut words) = (printer.names, words);
    match words.next() {
        "parts" => {
            let certificate = names.octets(words.next());
            tell_chained(printer, certificate, &names.octets_of(words.rest)?);
        }
        "attributes" => {
            let certificate = names.octets(words.next());
            let tst = names.octets(words.next());
            tell_written(printer, attributes(printer.alloc(), certificate, tst), &[]);
        }
        "chained" => {
            let chain = names.octets(words.next());
            tell_written(printer, token_of(printer, chain, &mut words), &[]);
        }
        "token" => tell_written(printer, token_of(printer, &[], &mut words), &[]),
        word => call_of_octets(printer, word, &names.octets_of(words.rest)?),
    }
    Ok(())
}
