//! The lines of an extract.
ghost use Rattle.std.specs.Prelude.{◌≡◌, ◌<◌, ◌≤◌, IfOk, IfErr, MatchOption, map, option_map, string_bytes};
ghost use Rattle.csv.specs.Writing.{default_writer, row_text};
ghost use Rattle.gentime.specs.GenTime.{last_moment};
ghost use Rattle.book.specs.Values.{stamp_view};
ghost use Rattle.audit.specs.Extract.{fields, header_text, identifier_text, moment_text, stamp_text, state_text};
ghost use Rattle.audit.specs.{Extract.token_text, auxiliary.Texts.AreTexts};

use crate::fault::ExtractFault;
use book::Stamp;
use csv::WriterBuilder;
use der::{DerFault, Oid, oids_have_one_content_and_text};
use gentime::GenTime;
use sha2::{Digest, Sha256};
use std::alloc::Global;

/// The line of the columns' names.
pub(crate) fn header() -> &'static [u8]
    ensures { result.now ≡ header_text }
{
    b"serial,genTime,account,policy,algorithm,digest,state,token\n"
}

/// The line of a stamp. Refused with `Memory` alone.
#[tactic(auto, unfolding(crate::specs::Extract::stamp_text))]
pub(crate) fn line_of(alloc: Global, stamp: &Stamp) -> Result<Vec<u8>, ExtractFault>
    ensures text { IfOk result (λ line. line.items ≡ stamp_text (stamp_view stamp.now)) }
    ensures memory { IfErr result (λ e. e ≡ ExtractFault.Memory) }
{
    let texts = texts_of(alloc, stamp)?;
    line_with(alloc, stamp, &texts)
}

/// What a line says of a stamp, besides what stands in the row so.
#[derive(Drop)]
struct Texts {
    serial: String,
    gen_time: Vec<u8>,
    policy: String,
    algorithm: String,
    digest: String,
    token: String,
}

/// What a line says of a stamp.
fn texts_of(alloc: Global, stamp: &Stamp) -> Result<Texts, ExtractFault>
    ensures texts { IfOk result (λ texts. AreTexts texts (stamp_view stamp.now)) }
    ensures memory { IfErr result (λ e. e ≡ ExtractFault.Memory) }
{
    let serial = format!(in alloc; "{}", stamp.serial)?;
    let gen_time = moment_text(alloc, stamp.gen_time)?;
    let policy = identifier_text(alloc, &stamp.policy)?;
    let algorithm = identifier_text(alloc, &stamp.algorithm)?;
    let digest = hex::encode(alloc, &stamp.digest)?;
    let token = token_text(alloc, &stamp.token)?;
    Ok(Texts {
        serial,
        gen_time,
        policy,
        algorithm,
        digest,
        token,
    })
}

/// The line with these texts.
fn line_with<'a>(alloc: Global, stamp: &'a Stamp, texts: &'a Texts) -> Result<Vec<u8>, ExtractFault>
    ensures text { AreTexts texts.now (stamp_view stamp.now)
        → IfOk result (λ line. line.items ≡ row_text default_writer (fields (stamp_view stamp.now))) }
    ensures memory { IfErr result (λ e. e ≡ ExtractFault.Memory) }
{
    record_text(
        alloc,
        &[
            texts.serial.as_bytes(),
            &texts.gen_time,
            stamp.account.as_bytes(),
            texts.policy.as_bytes(),
            texts.algorithm.as_bytes(),
            texts.digest.as_bytes(),
            state_text(&stamp.token).as_bytes(),
            texts.token.as_bytes(),
        ],
    )
}

/// A record of these fields.
fn record_text(alloc: Global, fields: &[&[u8]]) -> Result<Vec<u8>, ExtractFault>
    ensures text { IfOk result (λ text. text.items ≡ row_text default_writer (map (λ f. f.now) fields.now)) }
    ensures memory { IfErr result (λ e. e ≡ ExtractFault.Memory) }
{
    let mut writer = WriterBuilder::new().from_writer(Vec::new(alloc));
    // A vector takes all octets for which it finds memory.
    if writer.write_fields(fields).is_err() {
        return Err(ExtractFault::Memory);
    }
    match writer.into_inner() {
        Ok(text) => Ok(text),
        Err(_) => Err(ExtractFault::Memory),
    }
}

/// A moment as a genTime, with its fraction digits (RFC 3161 2.4.2), and one after 9999 in microseconds. Refused with
/// `Memory` alone.
pub fn moment_text(alloc: Global, moment: u64) -> Result<Vec<u8>, ExtractFault>
    ensures text { IfOk result (λ text. text.items ≡ moment_text moment) }
    ensures memory { IfErr result (λ e. e ≡ ExtractFault.Memory) }
{
    match gen_time_of(moment) {
        Some(gen_time) => match gen_time.write(alloc, 6) {
            Ok(text) => Ok(text),
            Err(_) => Err(ExtractFault::Memory),
        },
        None => {
            let text = format!(in alloc; "{moment}")?;
            Ok(text.into_bytes())
        }
    }
}

/// A moment up to the end of 9999.
fn gen_time_of(moment: u64) -> Option<GenTime>
    ensures { MatchOption result (last_moment < moment) (λ gen_time. (gen_time ≡ moment) × (moment ≤ last_moment)) }
{
    let micros = i64::try_from(moment).ok()?;
    GenTime::from_micros(micros).ok()
}

/// The text of the object identifier that has these contents octets (X.690 8.19), and of other octets their hexadecimal
/// digits. Refused with `Memory` alone.
pub fn identifier_text(alloc: Global, octets: &[u8]) -> Result<String, ExtractFault>
    ensures text { IfOk result (λ text. string_bytes text ≡ identifier_text octets.now) }
    ensures memory { IfErr result (λ e. e ≡ ExtractFault.Memory) }
{
    oids_have_one_content_and_text();
    match Oid::from_content(alloc, octets) {
        Ok(oid) => match oid.text(alloc) {
            Ok(text) => Ok(text),
            Err(_) => Err(ExtractFault::Memory),
        },
        Err(DerFault::BadValue) => Ok(hex::encode(alloc, octets)?),
        Err(_) => Err(ExtractFault::Memory),
    }
}

/// Whether a stamp has its token: `sealed`, or `void`.
pub fn state_text(token: &Option<Vec<u8>>) -> &str
    ensures { result.now ≡ state_text (option_map (λ t. t.items) token.now) }
{
    match token {
        Some(_) => "sealed",
        None => "void",
    }
}

/// A token by its SHA-256.
fn token_text(alloc: Global, token: &Option<Vec<u8>>) -> Result<String, ExtractFault>
    ensures text { IfOk result (λ text. string_bytes text ≡ token_text (option_map (λ t. t.items) token.now)) }
    ensures memory { IfErr result (λ e. e ≡ ExtractFault.Memory) }
{
    match token {
        Some(token) => Ok(hex::encode(alloc, &Sha256::digest(token))?),
        None => Ok(String::new(alloc)),
    }
}
