//! The word `tst`: the reply to a request where no account, policy file or clock is asked.
ghost use Rattle.std.specs.Prelude.{◌≡◌, ◌⊎◌, ◌↔◌, List, ℕ, None, Err, unwrap_or, IfSome, IfOk, IfErr, OnOk};
ghost use Rattle.std.specs.Io.KnownBytes.{Appends};
ghost use Rattle.der.specs.declared.fault.DerFault.TheVariants.{BadValue};
ghost use Rattle.der.specs.{Node.encoding, ObjectIdentifier.IsOid, OidText.oid_of_text};
ghost use Rattle.tsp.specs.declared.fault.TspFault.TheVariants.{Memory};
ghost use Rattle.tsp.specs.{Rejection.rejection, Request.IsRequest, Tst.tst_info, View.request_view};
ghost use Rattle.console.specs.Tst.{Answers, HasLawfulAnswers, IsReply, IsReplyFault, IsTstFault, tst_of};
ghost use Rattle.console.specs.{Settings.settings_value, Writes.Begins};

use crate::fault::{Fault, InputFault};
use crate::hexadecimal::{read_hexadecimal, write_hexadecimal};
use crate::rules::first_failing;
use crate::settings::Settings;
use command_line::TstWords;
use der::oids_have_one_content_and_text;
use std::alloc::Global;
use std::io::{Read, Write};
use tsp::{
    ObjectIdentifier, Rejection, Request, Rule, TspFault, read_request, requests_have_one_reading,
    write_tst,
};

/// Does what the word `tst` asks for: reads a request in hexadecimal, and writes the line of the reply to it, TSTInfo
/// (RFC 3161 2.4.2) or rejection, in hexadecimal digits of lower case, by the settings that the words state.
///
/// Refused, in this order, as `der` 8 where the words' policy is no object identifier's text, `input` 5 where the input
/// fails, `input` 1 where it spells no octets, and `input` 5 where the output fails: a beginning of the line may stand
/// there then. Where memory runs out it is `tsp` 3 over a TSTInfo, and else `input` 7; nothing is written then.
pub fn answer_tst<I: Read, O: Write>(
    alloc: Global,
    words: &TstWords<'_>,
    input: &mut I,
    output: &mut O,
) -> Result<(), Fault>
    // The reply to the request that the input spells is written, by the settings that the words state.
    ensures answered { OnOk result (IfSome (I.remaining input.old) (λ text.
        (written : List ℕ) × Answers words.now text written
        × Appends (O.contents output.old) (O.contents output.new) written)) }

    // Before a fault nothing is written, but where there is a reply and writing it fails.
    ensures kept { IfErr result (λ fault. (O.contents output.new ≡ O.contents output.old)
        ⊎ ((fault ≡ Fault.Input InputFault.Failed) × IfSome (I.remaining input.old) (λ text.
        (written : List ℕ) × Answers words.now text written
        × Begins (O.contents output.old) (O.contents output.new) written))) }
    ensures refused { (result ≡ Err (Fault.Der BadValue)) ↔ (oid_of_text words.now.policy.now ≡ None) }
    ensures faults { IfErr result (IsTstFault (I.remaining input.old)) }
{
    let settings = Settings::of_words(alloc, words)?;
    let query = read_hexadecimal(alloc, input)?;
    let reply = tst_reply(alloc, query.as_slice(), &settings)?;
    write_hexadecimal(alloc, reply.as_slice(), output)?;
    Ok(())
}

/// The reply to a request: its TSTInfo (RFC 3161 2.4.2) by these settings, where every rule holds, and else the
/// rejection by the first rule that fails. Judged are the rules on the request's spelling, its version, its hash
/// algorithm, of the five that are known, and its hash's length.
///
/// Refused only for want of memory: in place of a rejection as `input` 7, and in place of a TSTInfo as `tsp` 3.
fn tst_reply(alloc: Global, query: &[u8], settings: &Settings) -> Result<Vec<u8>, Fault>
    ensures reply { IfOk result (λ reply. IsReply (settings_value settings.now) query.now reply.items) }
    ensures memory { IfErr result (IsReplyFault query.now) }
{
    requests_have_one_reading();
    match read_request(query) {
        Ok(request) => match first_failing(&request) {
            None => Ok(write_reply(alloc, request, settings)?),
            Some(rule) => Ok(write_rejection(alloc, rule)?),
        },
        Err(_) => Ok(write_rejection(alloc, Rule::Spelling)?),
    }
}

/// The octets of the TSTInfo that answers the request.
fn write_reply(
    alloc: Global,
    request: Request<'_>,
    settings: &Settings,
) -> Result<Vec<u8>, TspFault>
    requires proper { IsRequest (request_view request) }
    requires lawful { HasLawfulAnswers (request_view request) }
    ensures text { IfOk result (λ reply. reply.items
        ≡ encoding (tst_info (tst_of (settings_value settings.now) (request_view request.entry)))) }
    ensures memory { IfErr result (λ fault. fault ≡ Memory) }
{
    let policy = policy_of(&request, settings);
    let gen_time = settings.gen_time();
    let tst = request.into_tst_info(
        policy,
        settings.serial,
        gen_time,
        settings.accuracy,
        settings.ordering,
        None,
    );
    write_tst(alloc, &tst)
}

/// The policy that the request asks for, and where it asks for none, the one of the settings.
fn policy_of<'a>(request: &Request<'a>, settings: &'a Settings) -> ObjectIdentifier<'a>
    requires { IfSome (request_view request.now).policy IsOid }
    ensures { result ≡ unwrap_or (request_view request.now).policy settings.now.policy }
{
    oids_have_one_content_and_text();
    let Some(content) = request.policy() else {
        return ObjectIdentifier::of(&settings.policy);
    };
    match ObjectIdentifier::from_content(content) {
        Some(policy) => policy,
        None => unreachable!(),
    }
}

/// The octets of the rejection.
fn write_rejection(alloc: Global, rule: Rule) -> Result<Vec<u8>, InputFault>
    ensures text { IfOk result (λ reply. reply.items ≡ encoding (rejection rule)) }
    ensures memory { IfErr result (λ fault. fault ≡ InputFault.Memory) }
{
    Ok(Vec::from_slice(alloc, Rejection::of(rule).as_slice())?)
}
