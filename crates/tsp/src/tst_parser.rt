//! From octets to a TSTInfo.
ghost use Rattle.std.specs.Prelude.{◌≡◌, ◌≤◌, ℕ, List, length, Option, Some, None, option_map, IfOk, IfErr, IfSome};
ghost use Rattle.std.specs.{Prelude.MatchOption, Prelude.MatchResult, Int.Digits.number_from_digits};
ghost use Rattle.der.specs.{Node.IsFormed, DataValueView.value_view, DataValueView.values_view};
ghost use Rattle.gentime.specs.GenTime.{last_moment, text_of};
ghost use Rattle.tsp.specs.{Parser.only, Parser.optional_at, View.tst_view, declared.fault.TspFault.TheVariants.Form};
ghost use Rattle.tsp.specs.Tst.{TstValue, IsTst, SpellsTst, tst_info};
ghost use Rattle.tsp.specs.auxiliary.TstParser.{parts_in, natural, natural_of, up_to, number_in, part_at, accuracy_of};
ghost use Rattle.tsp.specs.auxiliary.TstParser.{head_of, explicit_of, name_of, tsa_of, parts_of};
ghost use Rattle.tsp.specs.auxiliary.TstView.{head_view, parts_view};

use crate::extensions::Extensions;
use crate::fault::TspFault;
use crate::imprint::MessageImprint;
use crate::integer::Integer;
use crate::object_identifier::ObjectIdentifier;
use crate::parser::{end, extensions, flag, imprint_from, oid_from, optional_integer};
use crate::tags::{DIRECTORY_NAME, MICROS, MILLIS, TSA, TST_EXTENSIONS};
use crate::tst::TstInfo;
use der::{DataValue, DataValues, Tag, is_number_content, read_value};

/// The first parts of a TSTInfo after its version. The time is still its octets.
#[derive(Drop)]
struct Head<'a> {
    policy: ObjectIdentifier<'a>,
    imprint: MessageImprint<'a>,
    serial: u64,
    time: &'a [u8],
    accuracy: u32,
}

/// The parts of a TSTInfo.
#[derive(Drop)]
struct Parts<'a> {
    head: Head<'a>,
    ordering: bool,
    nonce: Option<Integer<'a>>,
    tsa: Option<DataValue<'a>>,
    extensions: Extensions<'a>,
}

/// Reads a TSTInfo (RFC 3161 2.4.2) where it lies: accepts exactly what `write_tst` writes, of any length. It takes no
/// memory. Refused only as `Form`, where no TSTInfo has these octets; a field tsa of another kind than directoryName,
/// or whose name is no SEQUENCE, is such a case.
pub fn read_tst(octets: &[u8]) -> Result<TstInfo<'_>, TspFault>
    ensures found { IfOk result (λ tst. SpellsTst octets.now (tst_view tst)) }
    ensures only { (t : TstValue) → SpellsTst octets.now t → MatchResult result (λ tst. tst_view tst ≡ t) (λ fault. ⊥) }
    ensures refusals { IfErr result (λ fault. fault ≡ Form) }
{
    match read_value(octets) {
        Ok(value) => tst_info_from(value).ok_or(TspFault::Form),
        Err(_) => Err(TspFault::Form),
    }
}

/// The TSTInfo that a value is.
fn tst_info_from(value: DataValue<'_>) -> Option<TstInfo<'_>>
    ensures found { IfSome result (λ tst. IsFormed (value_view value.entry)
        → IsTst (tst_view tst) × (value_view value.entry ≡ tst_info (tst_view tst))) }
    ensures only { (t : TstValue) → IsTst t → value_view value.entry ≡ tst_info t
        → MatchOption result ⊥ (λ tst. tst_view tst ≡ t) }
{
    tst_from(parts_from(value)?)
}

/// TSTInfo and what is said of them: octets are one TSTInfo's.
pub fn tst_infos_have_one_reading()
    ensures one { (octets : List ℕ) (s t : TstValue) → SpellsTst octets s → SpellsTst octets t → s ≡ t }
{}

/// The TSTInfo of its parts, where the time is a moment's text.
fn tst_from(parts: Parts<'_>) -> Option<TstInfo<'_>>
    ensures found { IfSome result (λ tst. (parts_in (tst_view tst) ≡ parts_view parts.entry)
        × (tst.gen_time ≤ last_moment)) }
    ensures only { (moment : ℕ) → moment ≤ last_moment → parts.entry.head.time.now ≡ text_of 6 moment →
        MatchOption result ⊥ (λ tst. tst.gen_time ≡ moment) }
{
    let Parts {
        head,
        ordering,
        nonce,
        tsa,
        extensions,
    } = parts;
    let gen_time = gentime::read(head.time).ok()?;
    let _bound = gen_time.micros();
    Some(TstInfo {
        policy: head.policy,
        imprint: head.imprint,
        serial: head.serial,
        gen_time,
        accuracy: head.accuracy,
        ordering,
        nonce,
        tsa,
        extensions,
    })
}

/// The number that at most eight octets are in base 256.
#[tactic(auto, using(crate::proofs::Natural::prefix_small))]
fn number_from(octets: &[u8]) -> u64
    requires { length octets.now ≤ 8 }
    ensures { result ≡ number_from_digits 256 octets.now }
{
    let mut number = 0;
    for octet in octets {
        number = number * 256 + u64::from(*octet);
    }
    number
}

/// A number from 0 to 2^63 - 1, by its contents octets.
#[tactic(auto, using(crate::proofs::Natural::natural_laws))]
fn natural(octets: &[u8]) -> Option<u64>
    ensures { result ≡ natural_of octets.now }
{
    if !is_number_content(octets) {
        return None;
    }
    match octets {
        [] => None,
        [first, _others @ ..] if *first >= 128 => None,
        _ if octets.len() > 8 => None,
        _ => Some(number_from(octets)),
    }
}

/// The number where it is from 1 to a greatest one.
#[tactic(auto, unfolding(crate::specs::auxiliary::TstParser::up_to))]
fn up_to(most: u64, number: u64) -> Option<u64>
    ensures read { result ≡ up_to most number }
    ensures bound { IfSome result (λ found. found ≤ most) }
{
    if 1 <= number && number <= most {
        Some(number)
    } else {
        None
    }
}

/// A number under a tag, from 1 to a greatest one.
#[tactic(auto, unfolding(crate::specs::auxiliary::TstParser::number_in))]
fn number_in(tag: Tag, most: u64, value: DataValue<'_>) -> Option<u64>
    ensures { result ≡ number_in tag.octet most (value_view value.entry) }
{
    let octets = value.contents_under(tag)?;
    let number = natural(octets)?;
    up_to(most, number)
}

/// A part of an accuracy, 0 where it is left away.
#[tactic(auto, unfolding(crate::specs::Parser::optional_at, crate::specs::auxiliary::TstParser::part_at), using(crate::proofs::TstTakes::number_in_bound))]
fn read_part(tag: Tag, most: u64, members: &mut DataValues<'_>) -> Option<u64>
    ensures read { option_map (λ found. (found, values_view members.new)) result
        ≡ part_at tag.octet most (values_view members.old) }
    ensures bound { IfSome result (λ found. found ≤ most) }
{
    match members.next_under(tag) {
        None => Some(0),
        Some(value) => Some(number_in(tag, most, value)?),
    }
}

/// An Accuracy, in microseconds.
#[tactic(auto, unfolding(crate::specs::auxiliary::TstParser::accuracy_of, crate::specs::Parser::only))]
fn accuracy_from(value: DataValue<'_>) -> Option<u32>
    ensures { result ≡ accuracy_of (value_view value.entry) }
{
    let mut members = value.components_under(Tag::SEQUENCE)?;
    let seconds = read_part(Tag::INTEGER, 1, &mut members)?;
    let millis = read_part(MILLIS, 999, &mut members)?;
    let micros = read_part(MICROS, 999, &mut members)?;
    end(&members)?;
    let accuracy = up_to(1_000_000, seconds * 1_000_000 + (millis * 1_000 + micros))?;
    Some(accuracy as u32)
}

#[tactic(auto, unfolding(crate::specs::auxiliary::TstParser::head_of))]
fn read_head<'a>(rest: &mut DataValues<'a>) -> Option<Head<'a>>
    ensures { option_map (λ found. (head_view found, values_view rest.new)) result
        ≡ head_of (values_view rest.old) }
{
    let Some(part) = rest.next() else { return None };
    let Some(_version) = number_in(Tag::INTEGER, 1, part) else {
        return None;
    };
    let Some(part) = rest.next() else { return None };
    let Some(policy) = oid_from(part) else {
        return None;
    };
    let Some(part) = rest.next() else { return None };
    let Some(imprint) = imprint_from(part) else {
        return None;
    };
    let Some(part) = rest.next() else { return None };
    let Some(serial) = number_in(Tag::INTEGER, i64::MAX as u64, part) else {
        return None;
    };
    let Some(part) = rest.next() else { return None };
    let Some(time) = part.contents_under(Tag::GENERALIZED_TIME) else {
        return None;
    };
    let Some(part) = rest.next() else { return None };
    let Some(accuracy) = accuracy_from(part) else {
        return None;
    };
    Some(Head {
        policy,
        imprint,
        serial,
        time,
        accuracy,
    })
}

/// The one value under an explicit tag.
#[tactic(auto, unfolding(crate::specs::auxiliary::TstParser::explicit_of, crate::specs::Parser::only))]
fn explicit(tag: Tag, value: DataValue<'_>) -> Option<DataValue<'_>>
    ensures { option_map value_view result ≡ explicit_of tag.octet (value_view value.entry) }
{
    let mut members = value.components_under(tag)?;
    let first = members.next()?;
    end(&members)?;
    Some(first)
}

/// A Name, which is a SEQUENCE (RFC 5280 4.1.2.4).
#[tactic(auto, unfolding(crate::specs::auxiliary::TstParser::name_of))]
fn name_from(value: DataValue<'_>) -> Option<DataValue<'_>>
    ensures { option_map value_view result ≡ name_of (value_view value.entry) }
{
    let _components = value.components_under(Tag::SEQUENCE)?;
    Some(value)
}

/// The Name that the field tsa has: a GeneralName of the kind directoryName (RFC 5280 4.2.1.6).
#[tactic(auto, unfolding(crate::specs::auxiliary::TstParser::tsa_of))]
fn tsa_from(value: DataValue<'_>) -> Option<DataValue<'_>>
    ensures { option_map value_view result ≡ tsa_of (value_view value.entry) }
{
    let general_name = explicit(TSA, value)?;
    let name = explicit(DIRECTORY_NAME, general_name)?;
    name_from(name)
}

/// The field tsa, where it stands.
#[tactic(auto, unfolding(crate::specs::Parser::optional_at))]
fn optional_tsa<'a>(members: &mut DataValues<'a>) -> Option<Option<DataValue<'a>>>
    ensures { option_map (λ found. (option_map value_view found, values_view members.new)) result
        ≡ optional_at 0xa0 tsa_of (values_view members.old) }
{
    match members.next_under(TSA) {
        None => Some(None),
        Some(value) => Some(Some(tsa_from(value)?)),
    }
}

#[tactic(auto, unfolding(crate::specs::auxiliary::TstParser::parts_of, crate::specs::Parser::only))]
fn parts_from(value: DataValue<'_>) -> Option<Parts<'_>>
    ensures { option_map parts_view result ≡ parts_of (value_view value.entry) }
{
    let Some(mut rest) = value.components_under(Tag::SEQUENCE) else {
        return None;
    };
    let Some(head) = read_head(&mut rest) else {
        return None;
    };
    let Some(ordering) = flag(false, &mut rest) else {
        return None;
    };
    let Some(nonce) = optional_integer(&mut rest) else {
        return None;
    };
    let Some(tsa) = optional_tsa(&mut rest) else {
        return None;
    };
    let Some(extensions) = extensions(false, TST_EXTENSIONS, &mut rest) else {
        return None;
    };
    let Some(_) = end(&rest) else { return None };
    Some(Parts {
        head,
        ordering,
        nonce,
        tsa,
        extensions,
    })
}
