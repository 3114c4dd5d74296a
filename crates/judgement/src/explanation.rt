//! How a stamp is explained.
ghost use Rattle.std.specs.Prelude.{◌≡◌, ◌++◌, ◌≤◌, ◌<◌, ◌+◌, ◌-◌, ◌-ℤ◌, List, Option, Some, IfOk, OnOk, MatchOption};
ghost use Rattle.std.specs.Prelude.{codes, if◌then◌else◌, option_map};
ghost use Rattle.std.specs.{Fmt.decimal, Fmt.signed_decimal, List.flat_map};
ghost use Rattle.hex.specs.Hex.{encode_lower};
ghost use Rattle.sha2.specs.Sha256.{sha256};
ghost use Rattle.der.specs.{DataValueView.value_view, Node.Node, Node.encoding, Number.number_content};
ghost use Rattle.gentime.specs.GenTime.{last_moment};
ghost use Rattle.policy.specs.View.{account_view, counter_view};
ghost use Rattle.tsp.specs.View.{request_view};
ghost use Rattle.audit.specs.Extract.{identifier_text, moment_text};
ghost use Rattle.decide.specs.Clock.{deviation, step};
ghost use Rattle.book.specs.{Rows.StampRow, Values.identity_view, Values.stamp_view};
ghost use Rattle.judgement.specs.Explanation.{IsExplanation, calibration_lines, clock_lines, clock_value, date_text};
ghost use Rattle.judgement.specs.Explanation.{asked_lines, distance_text, imprint_lines, rule_text, stamp_lines};
ghost use Rattle.judgement.specs.Explanation.{extension_text, extensions_of, extensions_text, found_lines, nonce_of};
ghost use Rattle.judgement.specs.Explanation.{quota_value, row_lines, since_lines};
ghost use Rattle.judgement.specs.Explanation.{is_failing, is_judged, named, or_none, rule_line, rule_value, rules};
ghost use Rattle.judgement.specs.Explanation.{IsRequestOf, IsSubjectOf, signing_lines, verdict_text};
ghost use Rattle.judgement.specs.{Past.IsPast, View.evidence_view};

use crate::evidence::Evidence;
use crate::judgement::Judgement;
use crate::lines::{add_hash, add_named, add_number, add_octets, add_signed};
use crate::past::Past;
use crate::stamps::{furthest, judge_behind};
use audit::{identifier_text, identity_at, moment_text, state_text};
use book::{DAY, IdentityRow, Stamp};
use cms::subject_of;
use decide::{Calibration, ClockFacts, Facts, deviation_of};
use der::DataValue;
use gentime::GenTime;
use policy::{Account, Counter};
use std::alloc::{AllocError, Global};
use tsp::{Extensions, Request, Rule, read_request};

/// The rules, in their order.
static RULES: [Rule; 12] = [
    Rule::Spelling,
    Rule::Version,
    Rule::Account,
    Rule::Algorithm,
    Rule::HashLength,
    Rule::Policy,
    Rule::PolicyAlgorithm,
    Rule::Extensions,
    Rule::Certificate,
    Rule::Clock,
    Rule::Quota,
    Rule::System,
];

fn rules() -> &'static [Rule]
    ensures { result.now ≡ rules }
{
    &RULES
}

/// Explains a stamp behind the rows before it, by lines of a name and a value: what its row and its request say; of
/// each rule whether it holds or fails, with the value that decided, as far as the first that fails; the calibration
/// under which the rules come furthest, holds left out; whose certificate was in force, and which token the stamp has;
/// and last the verdict, as it is judged. Refused where memory runs out.
pub fn explain(
    alloc: Global,
    evidence: &Evidence<'_>,
    past: &Past,
    stamp: &Stamp,
) -> Result<Vec<u8>, AllocError>
    ensures { (before : List StampRow) → IsPast before past.now
        → IfOk result (λ text. IsExplanation (evidence_view evidence.now) before (stamp_view stamp.now) text.items) }
{
    let judged = judge_behind(evidence, past, stamp);
    let known = past.before(stamp);
    let facts = furthest(evidence, &known, stamp.gen_time);
    let request = request_in(&stamp.request);
    let mut lines = Vec::new(alloc);
    add_row(alloc, &mut lines, stamp, &request)?;
    add_rules(alloc, &mut lines, evidence, stamp, &facts, judged)?;
    add_clock(alloc, &mut lines, &evidence.policy.counter, &facts)?;
    add_signing(
        alloc,
        &mut lines,
        identity_at(evidence.identities, stamp.serial),
        stamp,
    )?;
    add_verdict(alloc, &mut lines, judged)?;
    Ok(lines)
}

/// The request that octets are, if they are one.
fn request_in(octets: &[u8]) -> Option<Request<'_>>
    ensures { IsRequestOf octets.now (option_map request_view result) }
{
    match read_request(octets) {
        Ok(request) => Some(request),
        Err(_) => None,
    }
}

/// Adds what the row and the request say.
fn add_row(
    alloc: Global,
    lines: &mut Vec<u8>,
    stamp: &Stamp,
    request: &Option<Request<'_>>,
) -> Result<(), AllocError>
    ensures { OnOk result (lines.new.items ≡ lines.old.items
        ++ row_lines (stamp_view stamp.now) (option_map request_view request.now)) }
{
    add_stamp(alloc, lines, stamp)?;
    add_imprint(alloc, lines, stamp)?;
    add_asked(alloc, lines, stamp, request)
}

fn add_stamp(alloc: Global, lines: &mut Vec<u8>, stamp: &Stamp) -> Result<(), AllocError>
    ensures { OnOk result (lines.new.items ≡ lines.old.items ++ stamp_lines (stamp_view stamp.now)) }
{
    add_number(alloc, lines, "serial", stamp.serial)?;
    add_named(lines, "account", stamp.account.as_bytes())?;
    add_named(lines, "state", state_text(&stamp.token).as_bytes())
}

fn add_imprint(alloc: Global, lines: &mut Vec<u8>, stamp: &Stamp) -> Result<(), AllocError>
    ensures { OnOk result (lines.new.items ≡ lines.old.items ++ imprint_lines (stamp_view stamp.now)) }
{
    add_moment(alloc, lines, stamp.gen_time)?;
    add_identifier(alloc, lines, "algorithm", &stamp.algorithm)?;
    add_octets(alloc, lines, "digest", &stamp.digest)
}

/// Adds what is asked for besides.
fn add_asked(
    alloc: Global,
    lines: &mut Vec<u8>,
    stamp: &Stamp,
    request: &Option<Request<'_>>,
) -> Result<(), AllocError>
    ensures { OnOk result (lines.new.items ≡ lines.old.items
        ++ asked_lines (stamp_view stamp.now) (option_map request_view request.now)) }
{
    add_nonce(alloc, lines, request)?;
    add_identifier(alloc, lines, "policy", &stamp.policy)?;
    add_extensions(alloc, lines, request)
}

fn add_moment(alloc: Global, lines: &mut Vec<u8>, moment: u64) -> Result<(), AllocError>
    ensures { OnOk result (lines.new.items ≡ lines.old.items ++ named (codes "gen-time") (moment_text moment)) }
{
    let Ok(text) = moment_text(alloc, moment) else {
        return Err(AllocError);
    };
    add_named(lines, "gen-time", &text)
}

fn add_identifier(
    alloc: Global,
    lines: &mut Vec<u8>,
    name: &str,
    octets: &[u8],
) -> Result<(), AllocError>
    ensures { OnOk result (lines.new.items ≡ lines.old.items ++ named name.now (identifier_text octets.now)) }
{
    let Ok(text) = identifier_text(alloc, octets) else {
        return Err(AllocError);
    };
    add_named(lines, name, text.as_bytes())
}

fn add_nonce(
    alloc: Global,
    lines: &mut Vec<u8>,
    request: &Option<Request<'_>>,
) -> Result<(), AllocError>
    ensures { OnOk result (lines.new.items ≡ lines.old.items ++ named (codes "nonce")
        (or_none (λ n. encode_lower (number_content n)) (nonce_of (option_map request_view request.now)))) }
{
    let nonce = match request {
        Some(request) => request.nonce(),
        None => None,
    };
    match nonce {
        Some(nonce) => add_octets(alloc, lines, "nonce", nonce),
        None => add_named(lines, "nonce", b"none"),
    }
}

/// Adds the line of the request's extensions.
fn add_extensions(
    alloc: Global,
    lines: &mut Vec<u8>,
    request: &Option<Request<'_>>,
) -> Result<(), AllocError>
    ensures { OnOk result (lines.new.items ≡ lines.old.items ++ (codes "extensions"
        ++ (extensions_text (extensions_of (option_map request_view request.now)) ++ codes "\n"))) }
{
    lines.extend_from_slice(b"extensions")?;
    match request {
        Some(request) => add_each(alloc, lines, request.extensions())?,
        None => lines.extend_from_slice(b" none")?,
    }
    lines.extend_from_slice(b"\n")
}

/// Adds the extensions' identifiers, or that there are none.
fn add_each(
    alloc: Global,
    lines: &mut Vec<u8>,
    extensions: Extensions<'_>,
) -> Result<(), AllocError>
    ensures { OnOk result (lines.new.items ≡ lines.old.items ++ extensions_text extensions.entry) }
{
    if extensions.is_empty() {
        lines.extend_from_slice(b" none")
    } else {
        add_identifiers(alloc, lines, extensions)
    }
}

/// Adds the extensions' identifiers.
fn add_identifiers(
    alloc: Global,
    lines: &mut Vec<u8>,
    extensions: Extensions<'_>,
) -> Result<(), AllocError>
    ensures { OnOk result (lines.new.items ≡ lines.old.items ++ flat_map extension_text extensions.entry) }
{
    for extension in extensions {
        add_extension(alloc, lines, extension.identifier.content())?;
    }
    Ok(())
}

fn add_extension(alloc: Global, lines: &mut Vec<u8>, octets: &[u8]) -> Result<(), AllocError>
    ensures { OnOk result (lines.new.items ≡ lines.old.items ++ (codes " " ++ identifier_text octets.now)) }
{
    let Ok(text) = identifier_text(alloc, octets) else {
        return Err(AllocError);
    };
    lines.extend_from_slice(b" ")?;
    lines.extend_from_slice(text.as_bytes())
}

/// Adds a line for each rule.
fn add_rules(
    alloc: Global,
    lines: &mut Vec<u8>,
    evidence: &Evidence<'_>,
    stamp: &Stamp,
    facts: &Facts,
    judged: Option<Judgement>,
) -> Result<(), AllocError>
    ensures { OnOk result (lines.new.items ≡ lines.old.items ++ flat_map (rule_line (evidence_view evidence.now)
        (stamp_view stamp.now) facts.now judged) rules) }
{
    for rule in rules() {
        add_rule(alloc, lines, evidence, stamp, facts, judged, *rule)?;
    }
    Ok(())
}

/// Adds the line of a rule.
fn add_rule(
    alloc: Global,
    lines: &mut Vec<u8>,
    evidence: &Evidence<'_>,
    stamp: &Stamp,
    facts: &Facts,
    judged: Option<Judgement>,
    rule: Rule,
) -> Result<(), AllocError>
    ensures { OnOk result (lines.new.items ≡ lines.old.items
        ++ rule_line (evidence_view evidence.now) (stamp_view stamp.now) facts.now judged rule) }
{
    let number = rule.number();
    let text = format!(in alloc; "rule {number}")?;
    lines.extend_from_slice(text.as_bytes())?;
    add_rule_text(alloc, lines, evidence, stamp, facts, judged, rule)?;
    lines.extend_from_slice(b"\n")
}

/// Adds whether a rule holds, and the value that decided.
fn add_rule_text(
    alloc: Global,
    lines: &mut Vec<u8>,
    evidence: &Evidence<'_>,
    stamp: &Stamp,
    facts: &Facts,
    judged: Option<Judgement>,
    rule: Rule,
) -> Result<(), AllocError>
    ensures { OnOk result (lines.new.items ≡ lines.old.items
        ++ rule_text (evidence_view evidence.now) (stamp_view stamp.now) facts.now judged rule) }
{
    if !is_judged(judged, rule) {
        return lines.extend_from_slice(b" isn't judged");
    }
    lines.extend_from_slice(word_of(judged, rule).as_bytes())?;
    add_value(alloc, lines, rule, evidence, stamp, facts)
}

/// Whether a rule is judged: those behind the first that fails aren't.
fn is_judged(judged: Option<Judgement>, rule: Rule) -> bool
    ensures { result ≡ is_judged judged rule }
{
    match judged {
        None => false,
        Some(Judgement::Given | Judgement::MayHaveBeenHeld | Judgement::Differs) => true,
        Some(Judgement::Fails(first)) => rule.number() <= first.number(),
    }
}

/// Whether a rule fails.
fn word_of(judged: Option<Judgement>, rule: Rule) -> &'static str
    ensures { result.now ≡ (if is_failing judged rule then codes " fails" else codes " holds") }
{
    match judged {
        Some(Judgement::Fails(first)) if first.number() == rule.number() => " fails",
        _ => " holds",
    }
}

/// Adds the value that decided, if a rule has one.
fn add_value(
    alloc: Global,
    lines: &mut Vec<u8>,
    rule: Rule,
    evidence: &Evidence<'_>,
    stamp: &Stamp,
    facts: &Facts,
) -> Result<(), AllocError>
    ensures { OnOk result (lines.new.items ≡ lines.old.items
        ++ rule_value (evidence_view evidence.now) (stamp_view stamp.now) facts.now rule) }
{
    match rule {
        Rule::Spelling => add_length(alloc, lines, stamp.request.len()),
        Rule::HashLength => add_length(alloc, lines, stamp.digest.len()),
        Rule::Clock => add_deviation(alloc, lines, &evidence.policy.counter, &facts.clock),
        Rule::Quota => {
            let account = evidence.policy.account_named(stamp.account.as_str());
            add_count(alloc, lines, account, facts.count, stamp.gen_time)
        }
        _ => Ok(()),
    }
}

fn add_length(alloc: Global, lines: &mut Vec<u8>, length: usize) -> Result<(), AllocError>
    ensures { OnOk result (lines.new.items ≡ lines.old.items
        ++ (codes ": " ++ (decimal length ++ codes " octets"))) }
{
    let text = format!(in alloc; ": {length} octets")?;
    lines.extend_from_slice(text.as_bytes())
}

/// Adds how far the true moment may be from the genTime, of the accuracy.
fn add_deviation(
    alloc: Global,
    lines: &mut Vec<u8>,
    counter: &Counter,
    clock: &ClockFacts,
) -> Result<(), AllocError>
    ensures { OnOk result (lines.new.items ≡ lines.old.items
        ++ clock_value (counter_view counter.now) clock.now.reading clock.now.calibration) }
{
    match clock.calibration {
        Some(calibration) => add_distance(alloc, lines, counter, clock.reading, &calibration),
        None => Ok(()),
    }
}

fn add_distance(
    alloc: Global,
    lines: &mut Vec<u8>,
    counter: &Counter,
    reading: i64,
    calibration: &Calibration,
) -> Result<(), AllocError>
    ensures { OnOk result (lines.new.items ≡ lines.old.items
        ++ clock_value (counter_view counter.now) reading (Some calibration.now)) }
{
    add_share(
        alloc,
        lines,
        distance(counter, reading, calibration),
        counter.accuracy_us,
    )
}

fn add_share(
    alloc: Global,
    lines: &mut Vec<u8>,
    distance: u128,
    accuracy: u32,
) -> Result<(), AllocError>
    ensures { OnOk result (lines.new.items ≡ lines.old.items ++ distance_text distance accuracy) }
{
    let text = format!(in alloc; ": {distance} of {accuracy} microseconds")?;
    lines.extend_from_slice(text.as_bytes())
}

/// How far the true moment may be from the genTime of the moment that a reading stands for.
fn distance(counter: &Counter, reading: i64, calibration: &Calibration) -> u128
    ensures { result ≡ deviation (counter_view counter.now) reading calibration.now
        + (step (counter_view counter.now) - 1) }
{
    let rounding = GenTime::step(counter.fraction_digits) - 1;
    deviation_of(counter, reading, calibration) + u128::from(rounding)
}

/// Adds how many stamps the account had on the day, of its quota.
fn add_count(
    alloc: Global,
    lines: &mut Vec<u8>,
    account: Option<&Account>,
    count: u64,
    moment: u64,
) -> Result<(), AllocError>
    ensures { OnOk result (lines.new.items ≡ lines.old.items
        ++ quota_value (option_map (λ a. account_view a.now) account.entry) count moment) }
{
    let Some(account) = account else {
        return Ok(());
    };
    let quota = account.daily_quota;
    let text = format!(in alloc; ": {count} of {quota} on ")?;
    lines.extend_from_slice(text.as_bytes())?;
    add_date(alloc, lines, moment)
}

/// Adds the date of a moment.
fn add_date(alloc: Global, lines: &mut Vec<u8>, moment: u64) -> Result<(), AllocError>
    ensures { OnOk result (lines.new.items ≡ lines.old.items ++ date_text moment) }
{
    let Some(moment) = stated(moment) else {
        let day = moment / DAY;
        let text = format!(in alloc; "{day}")?;
        return lines.extend_from_slice(text.as_bytes());
    };
    let Ok(text) = moment.write(alloc, 6) else {
        return Err(AllocError);
    };
    lines.extend_from_slice(&text[..4])?;
    lines.extend_from_slice(b"-")?;
    lines.extend_from_slice(&text[4..6])?;
    lines.extend_from_slice(b"-")?;
    lines.extend_from_slice(&text[6..8])
}

/// A moment that a genTime can state.
fn stated(moment: u64) -> Option<GenTime>
    ensures { MatchOption result (last_moment < moment) (λ stated. (stated ≡ moment) × (moment ≤ last_moment)) }
{
    let micros = i64::try_from(moment).ok()?;
    GenTime::from_micros(micros).ok()
}

/// Adds the lines on the clock.
fn add_clock(
    alloc: Global,
    lines: &mut Vec<u8>,
    counter: &Counter,
    facts: &Facts,
) -> Result<(), AllocError>
    ensures { OnOk result (lines.new.items ≡ lines.old.items ++ clock_lines (counter_view counter.now) facts.now) }
{
    add_calibration(alloc, lines, counter, &facts.clock)?;
    add_number(alloc, lines, "accuracy-us", u64::from(counter.accuracy_us))
}

/// Adds the lines on the calibration, if there is one.
fn add_calibration(
    alloc: Global,
    lines: &mut Vec<u8>,
    counter: &Counter,
    clock: &ClockFacts,
) -> Result<(), AllocError>
    ensures { OnOk result (lines.new.items ≡ lines.old.items
        ++ calibration_lines (counter_view counter.now) clock.now.reading clock.now.calibration) }
{
    match clock.calibration {
        Some(calibration) => {
            add_found(alloc, lines, &calibration)?;
            add_since(alloc, lines, counter, clock, &calibration)
        }
        None => add_named(lines, "calibration", b"none"),
    }
}

/// Adds the lines on what the clock was found to be.
fn add_found(
    alloc: Global,
    lines: &mut Vec<u8>,
    calibration: &Calibration,
) -> Result<(), AllocError>
    ensures { OnOk result (lines.new.items ≡ lines.old.items ++ found_lines calibration.now) }
{
    add_signed(alloc, lines, "calibration-reading", &calibration.reading)?;
    add_signed(alloc, lines, "calibration-offset-us", &calibration.offset)?;
    add_number(
        alloc,
        lines,
        "calibration-uncertainty-us",
        calibration.uncertainty,
    )
}

/// Adds the lines on what became of it by the clock's reading.
fn add_since(
    alloc: Global,
    lines: &mut Vec<u8>,
    counter: &Counter,
    clock: &ClockFacts,
    calibration: &Calibration,
) -> Result<(), AllocError>
    ensures { OnOk result (lines.new.items ≡ lines.old.items
        ++ since_lines (counter_view counter.now) clock.now.reading calibration.now) }
{
    add_age(alloc, lines, clock, calibration)?;
    add_signed(alloc, lines, "reading", &clock.reading)?;
    add_deviation_line(alloc, lines, counter, clock, calibration)
}

fn add_age(
    alloc: Global,
    lines: &mut Vec<u8>,
    clock: &ClockFacts,
    calibration: &Calibration,
) -> Result<(), AllocError>
    ensures { OnOk result (lines.new.items ≡ lines.old.items
        ++ named (codes "calibration-age-us") (signed_decimal (clock.now.reading -ℤ calibration.now.reading))) }
{
    let age = age(clock, calibration);
    let text = format!(in alloc; "{age}")?;
    add_named(lines, "calibration-age-us", text.as_bytes())
}

fn add_deviation_line(
    alloc: Global,
    lines: &mut Vec<u8>,
    counter: &Counter,
    clock: &ClockFacts,
    calibration: &Calibration,
) -> Result<(), AllocError>
    ensures { OnOk result (lines.new.items ≡ lines.old.items ++ named (codes "deviation-us")
        (decimal (deviation (counter_view counter.now) clock.now.reading calibration.now))) }
{
    let deviation = deviation_of(counter, clock.reading, calibration);
    let text = format!(in alloc; "{deviation}")?;
    add_named(lines, "deviation-us", text.as_bytes())
}

/// How long before the clock's reading the calibration was.
fn age(clock: &ClockFacts, calibration: &Calibration) -> i128
    ensures { result ≡ (clock.now.reading -ℤ calibration.now.reading) }
{
    i128::from(clock.reading) - i128::from(calibration.reading)
}

/// Adds the lines on who signs, and on the token.
fn add_signing(
    alloc: Global,
    lines: &mut Vec<u8>,
    identity: Option<&IdentityRow>,
    stamp: &Stamp,
) -> Result<(), AllocError>
    ensures { IfOk result (λ _. (subject : Option Node)
        × IsSubjectOf (option_map (λ i. identity_view i.now) identity.entry) subject
        × (lines.new.items ≡ lines.old.items
        ++ signing_lines (option_map (λ i. identity_view i.now) identity.entry) subject (stamp_view stamp.now).token)) }
{
    let subject = subject_in(identity);
    add_subject(alloc, lines, &subject)?;
    add_certificate(alloc, lines, identity)?;
    add_token(alloc, lines, &stamp.token)
}

/// The subject of the certificate, if it is one.
fn subject_in(identity: Option<&IdentityRow>) -> Option<DataValue<'_>>
    ensures { IsSubjectOf (option_map (λ i. identity_view i.now) identity.entry) (option_map value_view result) }
{
    match identity {
        Some(identity) => subject_of(&identity.certificate),
        None => None,
    }
}

/// Adds the line on the subject of the certificate.
fn add_subject(
    alloc: Global,
    lines: &mut Vec<u8>,
    subject: &Option<DataValue<'_>>,
) -> Result<(), AllocError>
    ensures { OnOk result (lines.new.items ≡ lines.old.items ++ named (codes "subject")
        (or_none (λ name. encode_lower (encoding name)) (option_map value_view subject.now))) }
{
    match subject {
        Some(subject) => add_octets(alloc, lines, "subject", subject.octets()),
        None => add_named(lines, "subject", b"none"),
    }
}

/// Adds the line on the certificate.
fn add_certificate(
    alloc: Global,
    lines: &mut Vec<u8>,
    identity: Option<&IdentityRow>,
) -> Result<(), AllocError>
    ensures { OnOk result (lines.new.items ≡ lines.old.items ++ named (codes "certificate-sha256")
        (or_none (λ i. encode_lower (sha256 i.certificate)) (option_map (λ i. identity_view i.now) identity.entry))) }
{
    match identity {
        Some(identity) => add_hash(alloc, lines, "certificate-sha256", &identity.certificate),
        None => add_named(lines, "certificate-sha256", b"none"),
    }
}

/// Adds the line on the token.
fn add_token(alloc: Global, lines: &mut Vec<u8>, token: &Option<Vec<u8>>) -> Result<(), AllocError>
    ensures { OnOk result (lines.new.items ≡ lines.old.items ++ named (codes "token-sha256")
        (or_none (λ octets. encode_lower (sha256 octets)) (option_map (λ t. t.items) token.now))) }
{
    match token {
        Some(token) => add_hash(alloc, lines, "token-sha256", token),
        None => add_named(lines, "token-sha256", b"none"),
    }
}

/// Adds the line on how the stamp is judged.
fn add_verdict(
    alloc: Global,
    lines: &mut Vec<u8>,
    judged: Option<Judgement>,
) -> Result<(), AllocError>
    ensures { OnOk result (lines.new.items ≡ lines.old.items ++ named (codes "verdict") (verdict_text judged)) }
{
    match judged {
        Some(judgement) => {
            let text = format!(in alloc; "{judgement}")?;
            add_named(lines, "verdict", text.as_bytes())
        }
        None => add_named(lines, "verdict", b"carried on from another database"),
    }
}
