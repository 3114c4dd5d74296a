//! Replies without store and signer.
ghost use Rattle.std.specs.Prelude.{◌≤◌, length};
ghost use Rattle.tsp.specs.{Request.Spells, View.request_view};

use crate::setting::Setting;
use crate::work::setting::{REQUEST, setting_of};
use cms::{attribute_text, token};
use decide::{Calibration, ClockFacts, Facts, Plan, Verdict, decide};
use policy::Policy;
use std::alloc::Global;
use tsp::{
    ObjectIdentifier, Request, read_request, requests_have_one_reading, write_granted, write_tst,
};

/// What a signer might answer: 72 octets.
const SIGNATURE: [u8; 72] = [0x30; 72];

/// Facts of a clock that is right.
const FACTS: Facts = Facts {
    clock: ClockFacts {
        reading: 0,
        calibration: Some(Calibration {
            reading: 0,
            offset: 0,
            uncertainty: 0,
        }),
        held: false,
        last_gen_time: None,
    },
    count: 0,
};

/// Where an octet of the digest stands.
const DIGEST_OCTET: usize = 40;

/// Writes as many replies, and tells how many are granted. The digest is another one each time, so that each is
/// written.
pub fn replies(alloc: Global, certificate: &[u8], count: u64) -> anyhow::Result<u64> {
    let setting = setting_of(alloc, certificate)?;
    let mut query = REQUEST;
    let mut written = 0u64;
    for round in 0..count {
        query[DIGEST_OCTET] = (round % 256) as u8;
        if let Some(reply) = reply(alloc, &setting, &query)
            && reply.len() > SIGNATURE.len()
        {
            written = written.saturating_add(1);
        }
    }
    Ok(written)
}

/// The reply to a request, from its octets on: what is signed is written, and the token by a signature that is there.
fn reply(alloc: Global, setting: &Setting, query: &[u8]) -> Option<Vec<u8>> {
    let policy = &setting.policy;
    let Ok(request) = read_request(query) else {
        return None;
    };
    let verdict = decide(policy, policy.anonymous(), &request, &FACTS);
    let Verdict::Allow(plan) = verdict else {
        return None;
    };
    let with_certificate = plan.certificate;
    match tst_of(alloc, policy, request, plan, query) {
        Some(tst) => reply_with(alloc, setting, &tst, with_certificate),
        None => None,
    }
}

/// The reply that has a TSTInfo.
fn reply_with(
    alloc: Global,
    setting: &Setting,
    tst: &[u8],
    with_certificate: bool,
) -> Option<Vec<u8>> {
    if !has_text(alloc, setting, tst) {
        return None;
    }
    let identity = &setting.identity;
    let token = token(
        alloc,
        identity,
        &setting.algorithm,
        tst,
        &SIGNATURE,
        with_certificate,
    );
    match token {
        Ok(token) => write_granted(alloc, &token).ok(),
        Err(_) => None,
    }
}

/// Whether a text that would be signed is written.
fn has_text(alloc: Global, setting: &Setting, tst: &[u8]) -> bool {
    match attribute_text(alloc, &setting.identity, tst) {
        Ok(text) => !text.is_empty(),
        Err(_) => false,
    }
}

/// The TSTInfo by the plan, under serial number 1.
fn tst_of<'r>(
    alloc: Global,
    policy: &Policy,
    request: Request<'r>,
    plan: Plan<'r>,
    query: &[u8],
) -> Option<Vec<u8>>
    requires spelled { Spells query.now (request_view request) }
    requires short { length query.now ≤ 65536 }
{
    requests_have_one_reading();
    let counter = &policy.counter;
    // its contract bounds the genTime, as the TSTInfo needs it
    let _micros = plan.gen_time.micros();
    let tst_info = request.into_tst_info(
        ObjectIdentifier::of(plan.policy),
        1,
        plan.gen_time,
        counter.accuracy_us,
        counter.ordering,
        None,
    );
    write_tst(alloc, &tst_info).ok()
}
