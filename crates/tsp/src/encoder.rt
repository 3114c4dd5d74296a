//! From messages to octets, from the inside outwards.
ghost use Rattle.std.specs.Prelude.{◌≡◌, ◌≤◌, ◌<◌, ◌^◌, ◌++◌, false, [], length, option_map, OnOk, IfOk, IfErr};
ghost use Rattle.der.specs.Node.{element, encoding, encodings, IsFormed, AreFormed, IsLawful};
ghost use Rattle.der.specs.{DataValueView.value_view, Tree.nodes};
ghost use Rattle.tsp.specs.Grammar.{integer, object_identifier, optional, false_by_default};
ghost use Rattle.tsp.specs.Request.{time_stamp_req, unstated, algorithm_identifier, message_imprint, extension};
ghost use Rattle.tsp.specs.{Request.extension_nodes, Request.extensions_under, Tst.IsTst, Tst.accuracy};
ghost use Rattle.tsp.specs.{Tst.accuracy_part, Tst.tsa, Tst.tst_info, declared.fault.TspFault.TheVariants.Memory};
ghost use Rattle.tsp.specs.View.{request_view, imprint_view, extension_view, tst_view};

use crate::extensions::{Extension, Extensions};
use crate::fault::TspFault;
use crate::imprint::MessageImprint;
use crate::integer::Integer;
use crate::message::Message;
use crate::object_identifier::ObjectIdentifier;
use crate::request::Request;
use crate::tags::{DIRECTORY_NAME, MICROS, MILLIS, REQUEST_EXTENSIONS, TSA, TST_EXTENSIONS};
use crate::tst::TstInfo;
use der::{DataValue, Tag};
use std::alloc::Global;

/// Appends a part of an accuracy where it isn't zero.
fn append_part(writer: &mut Message, tag: Tag, part: u32) -> Result<(), TspFault>
    ensures ok { OnOk result (writer.new ≡ writer.old ++ encodings (nodes (accuracy_part tag.octet part))) }
    ensures memory { IfErr result (λ fault. fault ≡ Memory) }
{
    if part == 0 {
        return Ok(());
    }
    writer.append_number(tag, u64::from(part))
}

/// Appends an Accuracy of so many microseconds, at most 1,000,000 (RFC 3161 2.4.2).
fn append_accuracy(writer: &mut Message, micros: u32) -> Result<(), TspFault>
    requires { micros ≤ 1000000 }
    ensures ok { OnOk result (writer.new ≡ writer.old ++ encoding (accuracy micros)) }
    ensures memory { IfErr result (λ fault. fault ≡ Memory) }
{
    let mut parts = writer.inner();
    append_part(&mut parts, Tag::INTEGER, micros / 1_000_000)?;
    append_part(&mut parts, MILLIS, micros / 1_000 % 1_000)?;
    append_part(&mut parts, MICROS, micros % 1_000)?;
    writer.append_value(Tag::SEQUENCE, parts.as_slice())
}

/// Appends a BOOLEAN DEFAULT FALSE: nothing for FALSE (X.690 11.5).
fn append_flag(writer: &mut Message, flag: bool) -> Result<(), TspFault>
    ensures ok { OnOk result (writer.new ≡ writer.old ++ encodings (nodes (false_by_default false flag))) }
    ensures memory { IfErr result (λ fault. fault ≡ Memory) }
{
    if flag {
        writer.append_value(Tag::BOOLEAN, &[0xff])
    } else {
        Ok(())
    }
}

/// Appends an AlgorithmIdentifier (RFC 5280 4.1.1.2).
fn append_algorithm(writer: &mut Message, imprint: &MessageImprint<'_>) -> Result<(), TspFault>
    requires { IsFormed (algorithm_identifier (imprint_view imprint.now)) }
    ensures ok { OnOk result (writer.new ≡ writer.old ++ encoding (algorithm_identifier (imprint_view imprint.now))) }
    ensures memory { IfErr result (λ fault. fault ≡ Memory) }
{
    let mut members = writer.inner();
    members.append_value(Tag::OBJECT_IDENTIFIER, imprint.algorithm.content())?;
    if let Some(parameters) = &imprint.parameters {
        members.append(parameters.octets())?;
    }
    writer.append_value(Tag::SEQUENCE, members.as_slice())
}

/// Appends a MessageImprint (RFC 3161 2.4.1).
fn append_imprint(writer: &mut Message, imprint: &MessageImprint<'_>) -> Result<(), TspFault>
    requires { IsFormed (message_imprint (imprint_view imprint.now)) }
    ensures ok { OnOk result (writer.new ≡ writer.old ++ encoding (message_imprint (imprint_view imprint.now))) }
    ensures memory { IfErr result (λ fault. fault ≡ Memory) }
{
    let mut members = writer.inner();
    append_algorithm(&mut members, imprint)?;
    members.append_value(Tag::OCTET_STRING, imprint.hash)?;
    writer.append_value(Tag::SEQUENCE, members.as_slice())
}

/// Appends an Extension (RFC 5280 4.1), `critical` only where it is TRUE.
fn append_extension(writer: &mut Message, item: &Extension<'_>) -> Result<(), TspFault>
    requires { IsFormed (extension false (extension_view item.now)) }
    ensures ok { OnOk result (writer.new ≡ writer.old ++ encoding (extension false (extension_view item.now))) }
    ensures memory { IfErr result (λ fault. fault ≡ Memory) }
{
    let mut members = writer.inner();
    members.append_value(Tag::OBJECT_IDENTIFIER, item.identifier.content())?;
    append_flag(&mut members, item.critical)?;
    members.append_value(Tag::OCTET_STRING, item.value)?;
    writer.append_value(Tag::SEQUENCE, members.as_slice())
}

/// Appends Extension after Extension.
fn append_all(writer: &mut Message, extensions: Extensions<'_>) -> Result<(), TspFault>
    requires { AreFormed (nodes (extension_nodes [] extensions)) }
    ensures ok { OnOk result (writer.new ≡ writer.old ++ encodings (nodes (extension_nodes [] extensions.entry))) }
    ensures memory { IfErr result (λ fault. fault ≡ Memory) }
{
    for item in extensions {
        append_extension(writer, &item)?;
    }
    Ok(())
}

/// Appends Extensions under an implicit tag; nothing where there is none.
fn append_extensions(
    writer: &mut Message,
    tag: Tag,
    extensions: Extensions<'_>,
) -> Result<(), TspFault>
    requires { AreFormed (nodes (extensions_under tag.octet [] extensions)) }
    ensures ok { OnOk result (writer.new
        ≡ writer.old ++ encodings (nodes (extensions_under tag.octet [] extensions.entry))) }
    ensures memory { IfErr result (λ fault. fault ≡ Memory) }
{
    if extensions.is_empty() {
        return Ok(());
    }
    let mut list = writer.inner();
    append_all(&mut list, extensions)?;
    writer.append_value(tag, list.as_slice())
}

/// Appends an INTEGER where there is one.
fn append_nonce(writer: &mut Message, nonce: &Option<Integer<'_>>) -> Result<(), TspFault>
    requires { AreFormed (nodes (optional integer nonce.now)) }
    ensures ok { OnOk result (writer.new ≡ writer.old ++ encodings (nodes (optional integer nonce.now))) }
    ensures memory { IfErr result (λ fault. fault ≡ Memory) }
{
    match nonce {
        None => Ok(()),
        Some(number) => writer.append_value(Tag::INTEGER, number.content()),
    }
}

/// Appends the field tsa where there is one: the Name as directoryName of a GeneralName (RFC 3161 2.4.2, RFC 5280
/// 4.2.1.6).
fn append_tsa(writer: &mut Message, name: &Option<DataValue<'_>>) -> Result<(), TspFault>
    requires { AreFormed (nodes (optional tsa (option_map value_view name.now))) }
    ensures ok { OnOk result (writer.new
        ≡ writer.old ++ encodings (nodes (optional tsa (option_map value_view name.now)))) }
    ensures memory { IfErr result (λ fault. fault ≡ Memory) }
{
    let Some(name) = name else {
        return Ok(());
    };
    let mut general_name = writer.inner();
    general_name.append_value(DIRECTORY_NAME, name.octets())?;
    writer.append_value(TSA, general_name.as_slice())
}

/// Appends the components of a TSTInfo to a message without octets: its contents octets (RFC 3161 2.4.2).
fn append_tst(members: &mut Message, tst: &TstInfo<'_>) -> Result<(), TspFault>
    requires empty { members.old ≡ [] }
    requires ranges { IsTst (tst_view tst.now) }
    requires lawful { IsLawful (tst_info (tst_view tst.now)) }
    ensures contents { OnOk result (element 0x30 members.new ≡ encoding (tst_info (tst_view tst.now))) }
    ensures short { OnOk result (length members.new < 2 ^ 24) }
    ensures memory { IfErr result (λ fault. fault ≡ Memory) }
{
    members.append_value(Tag::INTEGER, &[1])?;
    members.append_value(Tag::OBJECT_IDENTIFIER, tst.policy.content())?;
    append_imprint(members, &tst.imprint)?;
    members.append_number(Tag::INTEGER, tst.serial)?;
    members.append_time(tst.gen_time)?;
    append_accuracy(members, tst.accuracy)?;
    append_flag(members, tst.ordering)?;
    append_nonce(members, &tst.nonce)?;
    append_tsa(members, &tst.tsa)?;
    append_extensions(members, TST_EXTENSIONS, tst.extensions.again())?;
    Ok(())
}

/// Writes a TSTInfo in its one encoding (RFC 3161 2.4.2): the accuracy is always stated, and ordering, nonce, tsa and
/// extensions only where there is one, `critical` only where it is TRUE. The caller hands in parts within their ranges,
/// of which the TSTInfo is a lawful value; `requests_have_one_reading` says so of what answers a request. Refused only
/// for want of memory, as `Memory`.
pub fn write_tst(alloc: Global, tst: &TstInfo<'_>) -> Result<Vec<u8>, TspFault>
    requires ranges { IsTst (tst_view tst.now) }
    requires lawful { IsLawful (tst_info (tst_view tst.now)) }
    ensures text { IfOk result (λ octets. octets.items ≡ encoding (tst_info (tst_view tst.now))) }
    ensures memory { IfErr result (λ fault. fault ≡ Memory) }
{
    let mut members = Message::new(alloc);
    append_tst(&mut members, tst)?;
    members.wrap(Tag::SEQUENCE)?;
    Ok(members.into_octets())
}

/// Appends an OBJECT IDENTIFIER where there is one.
fn append_policy(
    writer: &mut Message,
    policy: &Option<ObjectIdentifier<'_>>,
) -> Result<(), TspFault>
    requires { AreFormed (nodes (optional object_identifier policy.now)) }
    ensures ok { OnOk result (writer.new ≡ writer.old ++ encodings (nodes (optional object_identifier policy.now))) }
    ensures memory { IfErr result (λ fault. fault ≡ Memory) }
{
    match policy {
        None => Ok(()),
        Some(policy) => writer.append_value(Tag::OBJECT_IDENTIFIER, policy.content()),
    }
}

/// Appends the components of a request without stated FALSEs to a message without octets: its contents octets (RFC 3161
/// 2.4.1).
fn append_request(members: &mut Message, request: &Request<'_>) -> Result<(), TspFault>
    requires empty { members.old ≡ [] }
    requires lawful { IsLawful (time_stamp_req unstated (request_view request.now)) }
    ensures contents { OnOk result (element 0x30 members.new
        ≡ encoding (time_stamp_req unstated (request_view request.now))) }
    ensures short { OnOk result (length members.new < 2 ^ 24) }
    ensures memory { IfErr result (λ fault. fault ≡ Memory) }
{
    members.append_value(Tag::INTEGER, request.version.content())?;
    append_imprint(members, &request.imprint)?;
    append_policy(members, &request.policy)?;
    append_nonce(members, &request.nonce)?;
    append_flag(members, request.cert_req)?;
    append_extensions(members, REQUEST_EXTENSIONS, request.extensions())?;
    Ok(())
}

/// Writes a request without stated FALSEs (RFC 3161 2.4.1). The caller hands in a request that is a lawful value so;
/// one that `read_request` read is. Refused only for want of memory, as `Memory`.
pub fn write_request(alloc: Global, request: &Request<'_>) -> Result<Vec<u8>, TspFault>
    requires { IsLawful (time_stamp_req unstated (request_view request.now)) }
    ensures text { IfOk result (λ octets. octets.items
        ≡ encoding (time_stamp_req unstated (request_view request.now))) }
    ensures memory { IfErr result (λ fault. fault ≡ Memory) }
{
    let mut members = Message::new(alloc);
    append_request(&mut members, request)?;
    members.wrap(Tag::SEQUENCE)?;
    Ok(members.into_octets())
}
