//! From values to messages: each reader answers what its definition reads, and lends it from where it lies.
ghost use Rattle.std.specs.Prelude.{◌≡◌, Option, Some, None, option_map};
ghost use Rattle.der.specs.DataValueView.{value_view, values_view};
ghost use Rattle.tsp.specs.Parser.{integer_of, truth_of, boolean_of, stated_of, oid_in};
ghost use Rattle.tsp.specs.Parser.{optional_at, flag_at, parameters_of, algorithm_of, imprint_of, only, end_of};
ghost use Rattle.tsp.specs.Parser.{extension_of, extensions_of, some_extensions, extension_list_of, extensions_at};
ghost use Rattle.tsp.specs.View.{imprint_view, extension_view};
ghost use Rattle.std.specs.Option.{is_some};

use crate::extensions::{Extension, Extensions};
use crate::imprint::MessageImprint;
use crate::integer::Integer;
use crate::object_identifier::ObjectIdentifier;
use der::{DataValue, DataValues, Tag};

#[tactic(auto, unfolding(crate::specs::Parser::integer_of))]
pub(crate) fn integer_from(value: DataValue<'_>) -> Option<Integer<'_>>
    ensures { result ≡ integer_of (value_view value.entry) }
{
    Integer::from_content(value.contents_under(Tag::INTEGER)?)
}

#[tactic(auto, unfolding(crate::specs::Parser::truth_of))]
fn truth(octets: &[u8]) -> Option<bool>
    ensures { result ≡ truth_of octets.now }
{
    match octets {
        [0x00] => Some(false),
        [0xff] => Some(true),
        _ => None,
    }
}

#[tactic(auto, unfolding(crate::specs::Parser::boolean_of))]
fn boolean_from(value: DataValue<'_>) -> Option<bool>
    ensures { result ≡ boolean_of (value_view value.entry) }
{
    truth(value.contents_under(Tag::BOOLEAN)?)
}

#[tactic(auto, unfolding(crate::specs::Parser::oid_in))]
pub(crate) fn oid_from(value: DataValue<'_>) -> Option<ObjectIdentifier<'_>>
    ensures { result ≡ oid_in (value_view value.entry) }
{
    ObjectIdentifier::from_content(value.contents_under(Tag::OBJECT_IDENTIFIER)?)
}

#[tactic(auto, unfolding(crate::specs::Parser::optional_at))]
pub(crate) fn optional_oid<'a>(members: &mut DataValues<'a>) -> Option<Option<ObjectIdentifier<'a>>>
    ensures { option_map (λ found. (found, values_view members.new)) result
        ≡ optional_at 0x06 oid_in (values_view members.old) }
{
    match members.next_under(Tag::OBJECT_IDENTIFIER) {
        None => Some(None),
        Some(value) => Some(Some(oid_from(value)?)),
    }
}

#[tactic(auto, unfolding(crate::specs::Parser::optional_at))]
pub(crate) fn optional_integer<'a>(members: &mut DataValues<'a>) -> Option<Option<Integer<'a>>>
    ensures { option_map (λ found. (found, values_view members.new)) result
        ≡ optional_at 0x02 integer_of (values_view members.old) }
{
    match members.next_under(Tag::INTEGER) {
        None => Some(None),
        Some(value) => Some(Some(integer_from(value)?)),
    }
}

/// The BOOLEAN of a component DEFAULT FALSE: FALSE only where it may be stated, since DER leaves it away (X.690 11.5).
#[tactic(auto, unfolding(crate::specs::Parser::stated_of))]
fn stated_from(may_state_false: bool, value: DataValue<'_>) -> Option<bool>
    ensures { result ≡ stated_of may_state_false (value_view value.entry) }
{
    let flag = boolean_from(value)?;
    if flag || may_state_false {
        Some(flag)
    } else {
        None
    }
}

/// A BOOLEAN DEFAULT FALSE, whose FALSE may be stated or not.
#[tactic(auto, unfolding(crate::specs::Parser::optional_at, crate::specs::Parser::flag_at))]
pub(crate) fn flag(may_state_false: bool, members: &mut DataValues<'_>) -> Option<bool>
    ensures { option_map (λ found. (found, values_view members.new)) result
        ≡ flag_at may_state_false (values_view members.old) }
{
    match members.next_under(Tag::BOOLEAN) {
        None => Some(false),
        Some(value) => Some(stated_from(may_state_false, value)?),
    }
}

/// The parameters of an AlgorithmIdentifier: the one value that is left, if any.
#[tactic(auto, unfolding(crate::specs::Parser::parameters_of))]
fn parameters_from(mut members: DataValues<'_>) -> Option<Option<DataValue<'_>>>
    ensures { option_map (λ found. option_map value_view found) result ≡ parameters_of (values_view members.entry) }
{
    let parameters = members.next();
    if members.is_empty() {
        Some(parameters)
    } else {
        None
    }
}

/// Whether no value is left, where none may be.
#[tactic(auto, unfolding(crate::specs::Parser::end_of))]
pub(crate) fn end(members: &DataValues<'_>) -> Option<()>
    ensures { result ≡ end_of (values_view members.now) }
{
    if members.is_empty() { Some(()) } else { None }
}

#[tactic(auto, unfolding(crate::specs::Parser::algorithm_of))]
fn algorithm_from(value: DataValue<'_>) -> Option<(ObjectIdentifier<'_>, Option<DataValue<'_>>)>
    ensures { option_map (λ found. (found.0, option_map value_view found.1)) result
        ≡ algorithm_of (value_view value.entry) }
{
    let Some(mut rest) = value.components_under(Tag::SEQUENCE) else {
        return None;
    };
    let Some(part) = rest.next() else { return None };
    let Some(identifier) = oid_from(part) else {
        return None;
    };
    let Some(parameters) = parameters_from(rest) else {
        return None;
    };
    Some((identifier, parameters))
}

#[tactic(auto, unfolding(crate::specs::Parser::imprint_of, crate::specs::Parser::only))]
pub(crate) fn imprint_from(value: DataValue<'_>) -> Option<MessageImprint<'_>>
    ensures { option_map imprint_view result ≡ imprint_of (value_view value.entry) }
{
    let Some(mut rest) = value.components_under(Tag::SEQUENCE) else {
        return None;
    };
    let Some(part) = rest.next() else { return None };
    let Some((algorithm, parameters)) = algorithm_from(part) else {
        return None;
    };
    let Some(part) = rest.next() else { return None };
    let Some(hash) = part.contents_under(Tag::OCTET_STRING) else {
        return None;
    };
    let Some(_) = end(&rest) else { return None };
    Some(MessageImprint {
        algorithm,
        parameters,
        hash,
    })
}

#[tactic(auto, unfolding(crate::specs::Parser::extension_of, crate::specs::Parser::only))]
pub(crate) fn extension_from(may_state_false: bool, value: DataValue<'_>) -> Option<Extension<'_>>
    ensures { option_map extension_view result ≡ extension_of may_state_false (value_view value.entry) }
{
    let Some(mut rest) = value.components_under(Tag::SEQUENCE) else {
        return None;
    };
    let Some(part) = rest.next() else { return None };
    let Some(identifier) = oid_from(part) else {
        return None;
    };
    let Some(critical) = flag(may_state_false, &mut rest) else {
        return None;
    };
    let Some(part) = rest.next() else { return None };
    let Some(value) = part.contents_under(Tag::OCTET_STRING) else {
        return None;
    };
    let Some(_) = end(&rest) else { return None };
    Some(Extension {
        identifier,
        critical,
        value,
    })
}

/// Whether each value is an Extension.
#[tactic(auto, using(crate::proofs::ExtensionRuns::are_extensions_laws))]
fn are_extensions(may_state_false: bool, mut members: DataValues<'_>) -> bool
    ensures { result ≡ is_some (extensions_of may_state_false (values_view members.entry)) }
{
    while let Some(value) = members.next() {
        if extension_from(may_state_false, value).is_none() {
            return false;
        }
    }
    true
}

/// Extensions, at least one, under an implicit tag.
#[tactic(auto, unfolding(crate::specs::Parser::extension_list_of, crate::specs::Parser::some_extensions), using(crate::proofs::ExtensionRuns::list_laws))]
fn extension_list_from(
    may_state_false: bool,
    tag: Tag,
    value: DataValue<'_>,
) -> Option<Extensions<'_>>
    ensures { result ≡ extension_list_of may_state_false tag.octet (value_view value.entry) }
{
    let members = value.components_under(tag)?;
    if members.is_empty() {
        return None;
    }
    if !are_extensions(may_state_false, members) {
        return None;
    }
    Some(Extensions::of(members))
}

/// Extensions under an implicit tag; none where they are left away.
#[tactic(auto, unfolding(crate::specs::Parser::optional_at, crate::specs::Parser::extensions_at))]
pub(crate) fn extensions<'a>(
    may_state_false: bool,
    tag: Tag,
    members: &mut DataValues<'a>,
) -> Option<Extensions<'a>>
    ensures { option_map (λ found. (found, values_view members.new)) result
        ≡ extensions_at may_state_false tag.octet (values_view members.old) }
{
    match members.next_under(tag) {
        None => Some(Extensions::none()),
        Some(value) => Some(extension_list_from(may_state_false, tag, value)?),
    }
}
