//! TSTInfo, as they are read, and as they answer requests.
ghost use Rattle.std.specs.Prelude.{◌<◌, ◌≤◌, ◌^◌, IfSome, option_map};
ghost use Rattle.der.specs.DataValueView.{value_view};
ghost use Rattle.tsp.specs.Tst.{IsTsaName};

use crate::transcript::{Printer, Words};
use crate::vectors::requests::{tell_extension, tell_written};
use cms::Identity;
use der::{DataValue, Oid};
use gentime::GenTime;
use std::alloc::{AllocError, Global};
use tsp::{
    ObjectIdentifier, TspFault, TstInfo, read_request, read_tst, requests_have_one_reading,
    write_tst,
};

fn tell_parts(printer: Printer<'_>, tst: &TstInfo<'_>) {
    printer.digits("policy", tst.policy.content());
    printer.digits("hash", tst.imprint.hash);
    printer.number("serial", tst.serial);
    printer.tell(&tst.gen_time.micros());
    printer.number("accuracy", u64::from(tst.accuracy));
    printer.tell(&tst.ordering);
    match &tst.nonce {
        Some(nonce) => printer.digits("nonce", nonce.content()),
        None => printer.line("  nonce None"),
    }
    if let Some(name) = &tst.tsa {
        printer.digits("tsa", name.octets());
    }
    for extension in tst.extensions.again() {
        tell_extension(printer, &extension);
    }
}

fn written(alloc: Global, octets: &[u8]) -> Result<Vec<u8>, TspFault> {
    let tst = read_tst(octets)?;
    write_tst(alloc, &tst)
}

fn read(printer: Printer<'_>, octets: &[u8]) {
    match read_tst(octets) {
        Ok(tst) => {
            tell_parts(printer, &tst);
            tell_written(printer, written(printer.alloc(), octets), octets);
        }
        Err(fault) => printer.tell(&fault),
    }
}

/// The TSTInfo that answers the request of those octets, in the name of an identity where there is one.
fn answer(
    alloc: Global,
    octets: &[u8],
    identity: Option<&Identity>,
    policy: &Oid,
    serial: u64,
    gen_time: GenTime,
    accuracy: u32,
    ordering: bool,
) -> Result<Vec<u8>, TspFault>
    requires first_serial { 1 ≤ serial }
    requires last_serial { serial < 2 ^ 63 }
    requires some_accuracy { 1 ≤ accuracy }
    requires most_accuracy { accuracy ≤ 1000000 }
{
    requests_have_one_reading();
    let request = read_request(octets)?;
    let tst = request.into_tst_info(
        ObjectIdentifier::of(policy),
        serial,
        gen_time,
        accuracy,
        ordering,
        name_of(identity),
    );
    write_tst(alloc, &tst)
}

/// The name of an identity, where there is one.
fn name_of(identity: Option<&Identity>) -> Option<DataValue<'_>>
    ensures { IfSome (option_map value_view result) IsTsaName }
{
    match identity {
        Some(identity) => Some(identity.name()),
        None => None,
    }
}

/// A number of at least 1 and at most that one.
fn some(number: u64, most: u64) -> u64
    requires { 1 ≤ most }
    ensures some { 1 ≤ result }
    ensures few { result ≤ most }
{
    number.min(most).max(1)
}

/// Tells of the TSTInfo that answers a request, in the name of an identity where there is one: the policy, the serial
/// number, the moment, the accuracy, the ordering and the request's octets.
fn tell_answer(
    printer: Printer<'_>,
    identity: Option<&Identity>,
    words: &mut Words<'_>,
) -> Result<(), AllocError> {
    let alloc = printer.alloc();
    let policy = Oid::parse_text(alloc, words.next());
    let serial = some(words.number(), i64::MAX as u64);
    let moment = GenTime::from_micros(words.signed());
    let accuracy = some(words.number(), 1_000_000) as u32;
    let ordering = words.next() == "true";
    let octets = printer.names.octets_of(words.rest)?;
    match (policy, moment) {
        (Ok(policy), Ok(moment)) => {
            let tst = answer(
                alloc, &octets, identity, &policy, serial, moment, accuracy, ordering,
            );
            tell_written(printer, tst, &[]);
        }
        (policy, moment) => printer.tell(&(policy.err(), moment.err())),
    }
    Ok(())
}

/// The same in the name of the subject of a certificate, which stands before the others.
fn tell_named(printer: Printer<'_>, words: &mut Words<'_>) -> Result<(), AllocError> {
    match Identity::from_certificate(printer.alloc(), printer.names.octets(words.next())) {
        Ok(identity) => tell_answer(printer, Some(&identity), words),
        Err(fault) => {
            printer.tell(&fault);
            Ok(())
        }
    }
}

/// Makes the call that the words name.
pub fn call(printer: Printer<'_>, words: Words<'_>) -> Result<(), AllocError> {
    let mut words = words;
    match words.next() {
        "read" => {
            read(printer, &printer.names.octets_of(words.rest)?);
            Ok(())
        }
        "named" => tell_named(printer, &mut words),
        _ => tell_answer(printer, None, &mut words),
    }
}
