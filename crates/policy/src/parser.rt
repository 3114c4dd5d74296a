//! From TOML values to the values of keys: each reader answers what its definition says. The readers that take no
//! allocator take no memory.
ghost use Rattle.std.specs.Prelude.{◌≡◌, ◌≤◌, None, [], Option, option_map, map, string_bytes, IfOk};
ghost use Rattle.std.specs.List.{list_all};
ghost use Rattle.toml.specs.{Data.get_member, View.view, View.items_view, View.table_view};
ghost use Rattle.policy.specs.{Answers.AnswersMeaning, View.names_view};
ghost use Rattle.policy.specs.Kinds.{is_name, is_name_character, is_among, truth_in, number_in, name_in, some_name_in};
ghost use Rattle.policy.specs.Kinds.{oid_in, hash_in, new_name_in, new_oid_in, names_in, listed, values_in};
ghost use Rattle.policy.specs.Kinds.{entries_after, wanted, optional, only};
ghost use Rattle.der.specs.ObjectIdentifier.{oid_content};

use crate::fault::PolicyFault;
use crate::field::Field;
use crate::find::{Identified, Named, all_exist, are_distinct, has_name, has_oid};
use der::{DerFault, Oid};
use std::alloc::Global;
use toml::{Table, Value};

/// The value of a key.
#[tactic(auto, using(toml::proofs::Views::table_get))]
pub(crate) fn member<'t>(table: &'t Table, key: &str) -> Option<&'t Value>
    ensures { option_map (λ v. view v.now) result ≡ get_member key.now (table_view table.now) }
{
    table.get(key)
}

fn truth(field: Field, value: &Value) -> Result<bool, PolicyFault>
    ensures { result ≡ truth_in field (view value.now) }
{
    match value.as_bool() {
        Some(truth) => Ok(truth),
        None => Err(PolicyFault::BadValue(field)),
    }
}

/// A boolean, which means `absent` where the key is absent.
pub(crate) fn optional_truth(
    table: &Table,
    key: &str,
    field: Field,
    absent: bool,
) -> Result<bool, PolicyFault>
    ensures { result ≡ optional absent (truth_in field) (get_member key.now (table_view table.now)) }
{
    match member(table, key) {
        Some(value) => truth(field, value),
        None => Ok(absent),
    }
}

#[tactic(auto, unfolding(crate::specs::Kinds::number_in))]
fn number_from(field: Field, low: u64, high: u64, value: &Value) -> Result<u64, PolicyFault>
    ensures value { result ≡ number_in field low high (view value.now) }
    ensures range { IfOk result (λ n. (low ≤ n) × (n ≤ high)) }
{
    match value.as_integer() {
        None => Err(PolicyFault::BadValue(field)),
        Some(number) => match u64::try_from(number) {
            Ok(number) if low <= number && number <= high => Ok(number),
            _ => Err(PolicyFault::BadValue(field)),
        },
    }
}

/// An integer from `low` to `high`, which has to stand.
pub(crate) fn number(
    table: &Table,
    key: &str,
    field: Field,
    low: u64,
    high: u64,
) -> Result<u64, PolicyFault>
    ensures value { result ≡ wanted field (number_in field low high) (get_member key.now (table_view table.now)) }
    ensures range { IfOk result (λ n. (low ≤ n) × (n ≤ high)) }
{
    match member(table, key) {
        Some(value) => number_from(field, low, high, value),
        None => Err(PolicyFault::Missing(field)),
    }
}

#[tactic(auto, unfolding(crate::specs::Kinds::is_name))]
fn is_name(text: &str) -> bool
    ensures { result ≡ is_name text.now }
{
    let octets = text.as_bytes();
    1 <= octets.len() && octets.len() <= 32 && are_name_characters(octets)
}

fn are_name_characters(octets: &[u8]) -> bool
    ensures { result ≡ list_all is_name_character octets.now }
{
    octets.iter().all(|c| is_name_character(*c))
}

fn is_name_character(c: u8) -> bool
    ensures { result ≡ is_name_character c }
{
    matches!(c, b'a'..=b'z' | b'0'..=b'9' | b'-')
}

/// A name: 1 to 32 lower-case ASCII letters, digits or hyphens.
#[tactic(auto, unfolding(crate::specs::Kinds::name_in))]
pub(crate) fn name(alloc: Global, field: Field, value: &Value) -> Result<String, PolicyFault>
    ensures { AnswersMeaning string_bytes result (name_in field (view value.now)) }
{
    let Some(text) = value.as_str() else {
        return Err(PolicyFault::BadValue(field));
    };
    if !is_name(text) {
        return Err(PolicyFault::BadValue(field));
    }
    Ok(String::from_str(alloc, text)?)
}

/// The text of an object identifier, as `1.2.840`.
#[tactic(auto, unfolding(crate::specs::Kinds::oid_in))]
fn oid(alloc: Global, field: Field, value: &Value) -> Result<Oid, PolicyFault>
    ensures { AnswersMeaning (λ oid. oid) result (oid_in field (view value.now)) }
{
    let Some(text) = value.as_str() else {
        return Err(PolicyFault::BadValue(field));
    };
    match Oid::parse_text(alloc, text) {
        Ok(oid) => Ok(oid),
        Err(fault) => match fault {
            DerFault::Memory => Err(PolicyFault::Memory),
            _ => Err(PolicyFault::BadValue(field)),
        },
    }
}

/// The 32 octets of a SHA-256, written as 64 hexadecimal digits.
#[tactic(auto, unfolding(crate::specs::Kinds::hash_in))]
pub(crate) fn hash(field: Field, value: &Value) -> Result<[u8; 32], PolicyFault>
    ensures { result ≡ hash_in field (view value.now) }
{
    let Some(text) = value.as_str() else {
        return Err(PolicyFault::BadValue(field));
    };
    let mut octets = [0; 32];
    match hex::decode_to_slice(text, &mut octets) {
        Ok(()) => Ok(octets),
        Err(_) => Err(PolicyFault::BadValue(field)),
    }
}

/// Whether a text is among others.
fn is_among(known: &[&str], text: &str) -> bool
    ensures { result ≡ is_among (map (λ k. k.now) known.now) text.now }
{
    known.iter().any(|other| *other == text)
}

/// Refuses a table with a key that isn't one of these.
pub(crate) fn only(table: &Table, known: &[&str]) -> Result<(), PolicyFault>
    ensures { result ≡ only (map (λ k. k.now) known.now) (table_view table.now) }
{
    for key in table.keys() {
        if !is_among(known, key.as_str()) {
            return Err(PolicyFault::UnknownName(Field::Key));
        }
    }
    Ok(())
}

/// The name of an entry, which no earlier entry has.
#[tactic(auto, unfolding(crate::specs::Kinds::new_name_in))]
pub(crate) fn new_name<T: Named>(
    alloc: Global,
    table: &Table,
    field: Field,
    earlier: &[T],
) -> Result<String, PolicyFault>
    ensures { AnswersMeaning string_bytes result (new_name_in field (map T.name_of earlier.now)
        (table_view table.now)) }
{
    let Some(value) = member(table, "name") else {
        return Err(PolicyFault::Missing(field));
    };
    let name = name(alloc, field, value)?;
    if has_name(earlier, name.as_str()) {
        return Err(PolicyFault::Duplicate(field));
    }
    Ok(name)
}

/// The object identifier of an entry, which no earlier entry has.
#[tactic(auto, unfolding(crate::specs::Kinds::new_oid_in))]
pub(crate) fn new_oid<T: Identified>(
    alloc: Global,
    table: &Table,
    field: Field,
    earlier: &[T],
) -> Result<Oid, PolicyFault>
    ensures { AnswersMeaning (λ oid. oid) result
        (new_oid_in field (map (λ e. oid_content (T.oid_of e)) earlier.now) (table_view table.now)) }
{
    let Some(value) = member(table, "oid") else {
        return Err(PolicyFault::Missing(field));
    };
    let oid = oid(alloc, field, value)?;
    if has_oid(earlier, &oid) {
        return Err(PolicyFault::Duplicate(field));
    }
    Ok(oid)
}

/// A name that may be absent.
#[tactic(auto, unfolding(crate::specs::Kinds::some_name_in))]
pub(crate) fn optional_name(
    alloc: Global,
    table: &Table,
    key: &str,
    field: Field,
) -> Result<Option<String>, PolicyFault>
    ensures { AnswersMeaning (option_map string_bytes) result
        (optional None (some_name_in field) (get_member key.now (table_view table.now))) }
{
    match member(table, key) {
        None => Ok(None),
        Some(value) => Ok(Some(name(alloc, field, value)?)),
    }
}

/// One name after the other.
fn all_names(alloc: Global, field: Field, values: &[Value]) -> Result<Vec<String>, PolicyFault>
    ensures { AnswersMeaning names_view result (entries_after (λ earlier. name_in field) [] (items_view values.now)) }
{
    let mut names = Vec::new(alloc);
    for value in values {
        let name = name(alloc, field, value)?;
        names.push(name)?;
    }
    Ok(names)
}

/// Refuses names that are too few, stand twice or don't exist.
#[tactic(auto, unfolding(crate::specs::Kinds::listed))]
fn listed<T: Named>(
    field: Field,
    least: usize,
    existing: &[T],
    names: &[String],
) -> Result<(), PolicyFault>
    ensures { result ≡ listed field least (map T.name_of existing.now) (map string_bytes names.now) }
{
    if names.len() < least {
        return Err(PolicyFault::BadValue(field));
    }
    if !are_distinct(names) {
        return Err(PolicyFault::Duplicate(field));
    }
    if !all_exist(existing, names) {
        return Err(PolicyFault::UnknownName(field));
    }
    Ok(())
}

/// The values of an array.
#[tactic(auto, unfolding(crate::specs::Kinds::values_in))]
pub(crate) fn values<'v>(field: Field, value: &'v Value) -> Result<&'v [Value], PolicyFault>
    ensures { AnswersMeaning (λ vs. items_view vs.now) result (values_in field (view value.now)) }
{
    match value.as_array() {
        Some(values) => Ok(values.as_slice()),
        None => Err(PolicyFault::BadValue(field)),
    }
}

/// A list of at least so many names, each of which exists.
#[tactic(auto, unfolding(crate::specs::Kinds::names_in))]
fn names<T: Named>(
    alloc: Global,
    field: Field,
    least: usize,
    existing: &[T],
    value: &Value,
) -> Result<Vec<String>, PolicyFault>
    ensures { AnswersMeaning names_view result (names_in field least (map T.name_of existing.now) (view value.now)) }
{
    let values = values(field, value)?;
    let names = all_names(alloc, field, values)?;
    listed(field, least, existing, &names)?;
    Ok(names)
}

/// A list of at least one name, each of which exists, which has to stand.
pub(crate) fn some_names<T: Named>(
    alloc: Global,
    table: &Table,
    key: &str,
    field: Field,
    existing: &[T],
) -> Result<Vec<String>, PolicyFault>
    ensures { AnswersMeaning names_view result
        (wanted field (names_in field 1 (map T.name_of existing.now)) (get_member key.now (table_view table.now))) }
{
    match member(table, key) {
        Some(value) => names(alloc, field, 1, existing, value),
        None => Err(PolicyFault::Missing(field)),
    }
}

/// A list of names, each of which exists; empty where it is absent.
pub(crate) fn optional_names<T: Named>(
    alloc: Global,
    table: &Table,
    key: &str,
    field: Field,
    existing: &[T],
) -> Result<Vec<String>, PolicyFault>
    ensures { AnswersMeaning names_view result
        (optional [] (names_in field 0 (map T.name_of existing.now)) (get_member key.now (table_view table.now))) }
{
    match member(table, key) {
        Some(value) => names(alloc, field, 0, existing, value),
        None => Ok(Vec::new(alloc)),
    }
}
