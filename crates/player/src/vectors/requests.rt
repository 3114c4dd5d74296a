//! Requests, and the replies to them.
use crate::transcript::{Printer, Words};
use std::alloc::{AllocError, Global};
use std::fmt::Debug;
use tsp::{
    Extension, Integer, ObjectIdentifier, Rejection, Request, Rule, TspFault, read_request,
    requests_have_one_reading, write_granted, write_request,
};

/// How many extensions are told one by one.
const MOST: u64 = 3;

static RULES: [Rule; 12] = [
    Rule::Spelling,
    Rule::Version,
    Rule::Account,
    Rule::Algorithm,
    Rule::HashLength,
    Rule::Policy,
    Rule::PolicyAlgorithm,
    Rule::Extensions,
    Rule::Certificate,
    Rule::Clock,
    Rule::Quota,
    Rule::System,
];

/// Tells what was written, or why it couldn't be.
pub fn tell_written<F: Debug + Drop>(
    printer: Printer<'_>,
    written: Result<Vec<u8>, F>,
    octets: &[u8],
) {
    match written {
        Ok(written) if written.as_slice() == octets => printer.line("  written the same"),
        Ok(written) => printer.digits("written", &written),
        Err(fault) => printer.tell(&fault),
    }
}

pub fn tell_extension(printer: Printer<'_>, extension: &Extension<'_>) {
    printer.digits("extension", extension.identifier.content());
    printer.tell(&extension.critical);
    printer.digits("value", extension.value);
}

/// Tells of the first extensions, how many there are, and whether there is none.
fn tell_extensions(printer: Printer<'_>, request: &Request<'_>) {
    let mut count = 0u64;
    for extension in request.extensions() {
        if count < MOST {
            tell_extension(printer, &extension);
        }
        count = count.saturating_add(1);
    }
    printer.number("extensions", count);
    printer.tell(&request.extensions().is_empty());
}

fn tell_parts(printer: Printer<'_>, request: &Request<'_>) {
    printer.digits("version", request.version());
    printer.digits("algorithm", request.algorithm());
    printer.digits_or_none("parameters", request.parameters());
    printer.tell(&request.has_plain_parameters());
    printer.digits("hash", request.hash());
    printer.digits_or_none("policy", request.policy());
    printer.digits_or_none("nonce", request.nonce());
    printer.tell(&request.cert_req());
    tell_extensions(printer, request);
}

fn written(alloc: Global, octets: &[u8]) -> Result<Vec<u8>, TspFault> {
    requests_have_one_reading();
    let request = read_request(octets)?;
    write_request(alloc, &request)
}

fn read(printer: Printer<'_>, octets: &[u8]) {
    match read_request(octets) {
        Ok(request) => {
            tell_parts(printer, &request);
            tell_written(printer, written(printer.alloc(), octets), octets);
        }
        Err(fault) => printer.tell(&fault),
    }
}

/// The request for a token of a SHA-256 digest.
fn of_digest(alloc: Global, octets: &[u8], cert_req: bool) -> Result<Vec<u8>, TspFault> {
    let mut digest = [0; 32];
    for (to, from) in digest.iter_mut().zip(octets) {
        *to = *from;
    }
    requests_have_one_reading();
    let request = Request::of_sha256(&digest, cert_req);
    write_request(alloc, &request)
}

/// Tells the rejection by each rule.
fn reject(printer: Printer<'_>) {
    for rule in &RULES {
        printer.number("rule", u64::from(rule.number()));
        printer.digits("reply", Rejection::of(*rule).as_slice());
    }
}

/// Tells whether the octets are lent as the contents of an INTEGER, and of an object identifier.
fn lend(printer: Printer<'_>, octets: &[u8]) {
    match Integer::from_content(octets) {
        Some(number) => printer.digits("integer", number.content()),
        None => printer.line("  no integer"),
    }
    match ObjectIdentifier::from_content(octets) {
        Some(oid) => printer.digits("identifier", oid.content()),
        None => printer.line("  no identifier"),
    }
}

/// Makes the call that the words name.
pub fn call(printer: Printer<'_>, words: Words<'_>) -> Result<(), AllocError> {
    let (alloc, mut words) = (printer.alloc(), words);
    let word = words.next();
    let cert_req = word == "digest" && words.next() == "true";
    let octets = printer.names.octets_of(words.rest)?;
    match word {
        "read" => read(printer, &octets),
        "digest" => tell_written(printer, of_digest(alloc, &octets, cert_req), &[]),
        "granted" => tell_written(printer, write_granted(alloc, &octets), &[]),
        "lent" => lend(printer, &octets),
        _ => reject(printer),
    }
    Ok(())
}
