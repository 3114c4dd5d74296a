//! The tables of a policy file: `counter`, and the entries of the five arrays.
ghost use Rattle.std.specs.Prelude.{◌≡◌, ◌≤◌, List, [], None, Result, map, codes, string_bytes, length};
ghost use Rattle.toml.specs.{Data.Members, Data.get_member, Data.as_table, View.view, View.items_view, View.table_view};
ghost use Rattle.policy.specs.{Answers.AnswersMeaning, Kinds.array_in, View.group_view, Meaning.account_of};
ghost use Rattle.policy.specs.{Meaning.account_in, Meaning.group_in};
ghost use Rattle.policy.specs.declared.fault.PolicyFault.{PolicyFault as SpecFault};
ghost use Rattle.policy.specs.Kinds.{given, optional, new_hash_in, are_tables, tables_in, entry_in, entries_after};
ghost use Rattle.policy.specs.Meaning.{lengths_of, counter_of, counter_in, algorithm_in, extension_in, tsa_policy_in};
ghost use Rattle.policy.specs.Record.{AlgorithmValue, ExtensionValue, TsaPolicyValue, AccountValue, GroupValue};
ghost use Rattle.policy.specs.View.{counter_view, algorithm_view, extension_view, tsa_policy_view, account_view};

use crate::entries::{Account, Algorithm, Counter, Extension, Group, TsaPolicy};
use crate::fault::PolicyFault;
use crate::field::Field;
use crate::find::has_hash;
use crate::hash_algorithm::HashAlgorithm;
use crate::parser::{
    hash, member, new_name, new_oid, number, only, optional_name, optional_names, optional_truth,
    some_names, values,
};
use std::alloc::Global;
use toml::{Table, Value};

/// What stands in one of the arrays. An entry may name entries of the arrays above, which are known.
pub(crate) trait Entry: Drop {
    type Known;

    ghost Meant: { Type 0 };

    ghost seen: { Self → Meant };

    // what a table means beside earlier entries
    ghost meaning: { Self.Known → List Meant → Members → Result Meant SpecFault };

    /// The entry that a table means.
    fn read(
        alloc: Global,
        known: &Self::Known,
        earlier: &[Self],
        table: &Table,
    ) -> Result<Self, PolicyFault>
        ensures { AnswersMeaning seen result (meaning known.now (map seen earlier.now) (table_view table.now)) };
}

/// The table `counter`.
#[tactic(auto, unfolding(crate::specs::Meaning::counter_in))]
pub(crate) fn counter(alloc: Global, value: &Value) -> Result<Counter, PolicyFault>
    ensures { AnswersMeaning counter_view result (counter_in (view value.now)) }
{
    let Some(table) = value.as_table() else {
        return Err(PolicyFault::BadValue(Field::Counter));
    };
    counter_of(alloc, table)
}

#[tactic(auto, unfolding(crate::specs::Meaning::counter_of))]
fn counter_of(alloc: Global, table: &Table) -> Result<Counter, PolicyFault>
    ensures { AnswersMeaning counter_view result (counter_of (table_view table.now)) }
{
    only(
        table,
        &[
            "accuracy_us",
            "fraction_digits",
            "ordering",
            "drift_ppb",
            "max_age_us",
            "anonymous",
            "tsa_name",
        ],
    )?;
    let accuracy_us = number(table, "accuracy_us", Field::CounterAccuracyUs, 1, 1_000_000)?;
    let fraction_digits = number(table, "fraction_digits", Field::CounterFractionDigits, 0, 6)?;
    let ordering = optional_truth(table, "ordering", Field::CounterOrdering, false)?;
    let drift_ppb = number(table, "drift_ppb", Field::CounterDriftPpb, 0, 1_000_000)?;
    let max_age_us = number(
        table,
        "max_age_us",
        Field::CounterMaxAgeUs,
        1,
        31_536_000_000_000,
    )?;
    let anonymous = optional_name(alloc, table, "anonymous", Field::CounterAnonymous)?;
    let tsa_name = optional_truth(table, "tsa_name", Field::CounterTsaName, false)?;
    Ok(Counter {
        accuracy_us: accuracy_us as u32,
        fraction_digits: fraction_digits as u8,
        ordering,
        drift_ppb: drift_ppb as u32,
        max_age_us,
        anonymous,
        tsa_name,
    })
}

/// The least and the greatest length that an algorithm's hashes may have, by its object identifier's contents octets.
fn lengths(content: &[u8]) -> (u64, u64)
    ensures lengths { result ≡ lengths_of content.now }
    ensures small { result.1 ≤ 64 }
{
    match HashAlgorithm::of_identifier(content) {
        Some(algorithm) => {
            let length = u64::from(algorithm.hash_length());
            (length, length)
        }
        None => (16, 64),
    }
}

impl Entry for Algorithm {
    type Known = ();

    ghost Meant = { AlgorithmValue };

    ghost seen = { algorithm_view };

    ghost meaning = { λ _. algorithm_in };

    #[tactic(auto, unfolding(crate::specs::Meaning::algorithm_of), using(crate::proofs::EntriesRead::entry_values))]
    fn read(
        alloc: Global,
        _known: &(),
        earlier: &[Algorithm],
        table: &Table,
    ) -> Result<Algorithm, PolicyFault> {
        only(table, &["name", "oid", "length"])?;
        let name = new_name(alloc, table, Field::AlgorithmName, earlier)?;
        let oid = new_oid(alloc, table, Field::AlgorithmOid, earlier)?;
        let (low, high) = lengths(oid.content());
        let length = number(table, "length", Field::AlgorithmLength, low, high)?;
        Ok(Algorithm {
            name,
            oid,
            length: length as u8,
        })
    }
}

impl Entry for Extension {
    type Known = ();

    ghost Meant = { ExtensionValue };

    ghost seen = { extension_view };

    ghost meaning = { λ _. extension_in };

    #[tactic(auto, unfolding(crate::specs::Meaning::extension_of), using(crate::proofs::EntriesRead::entry_values))]
    fn read(
        alloc: Global,
        _known: &(),
        earlier: &[Extension],
        table: &Table,
    ) -> Result<Extension, PolicyFault> {
        only(table, &["name", "oid", "max_length"])?;
        let name = new_name(alloc, table, Field::ExtensionName, earlier)?;
        let oid = new_oid(alloc, table, Field::ExtensionOid, earlier)?;
        let max_length = number(table, "max_length", Field::ExtensionMaxLength, 0, 4_096)?;
        Ok(Extension {
            name,
            oid,
            max_length: max_length as u16,
        })
    }
}

impl Entry for TsaPolicy {
    type Known = (Vec<Algorithm>, Vec<Extension>);

    ghost Meant = { TsaPolicyValue };

    ghost seen = { tsa_policy_view };

    ghost meaning = { λ known. tsa_policy_in (map (λ e. string_bytes e.name) known.0.items)
        (map (λ e. string_bytes e.name) known.1.items) };

    #[tactic(auto, unfolding(crate::specs::Meaning::tsa_policy_of), using(crate::proofs::EntriesRead::entry_values))]
    fn read(
        alloc: Global,
        known: &(Vec<Algorithm>, Vec<Extension>),
        earlier: &[TsaPolicy],
        table: &Table,
    ) -> Result<TsaPolicy, PolicyFault> {
        only(
            table,
            &["name", "oid", "algorithms", "extensions", "certificate"],
        )?;
        let name = new_name(alloc, table, Field::PolicyName, earlier)?;
        let oid = new_oid(alloc, table, Field::PolicyOid, earlier)?;
        let algorithms = some_names(
            alloc,
            table,
            "algorithms",
            Field::PolicyAlgorithms,
            &known.0,
        )?;
        let extensions = optional_names(
            alloc,
            table,
            "extensions",
            Field::PolicyExtensions,
            &known.1,
        )?;
        let certificate = optional_truth(table, "certificate", Field::PolicyCertificate, true)?;
        Ok(TsaPolicy {
            name,
            oid,
            algorithms,
            extensions,
            certificate,
        })
    }
}

#[tactic(auto, unfolding(crate::specs::Kinds::new_hash_in))]
fn new_hash(
    table: &Table,
    field: Field,
    earlier: &[Account],
) -> Result<Option<[u8; 32]>, PolicyFault>
    ensures { result ≡ optional None (new_hash_in field (map (λ e. e.key_sha256) earlier.now))
        (get_member (codes "key_sha256") (table_view table.now)) }
{
    let Some(value) = member(table, "key_sha256") else {
        return Ok(None);
    };
    let hash = hash(field, value)?;
    if has_hash(earlier, &hash) {
        return Err(PolicyFault::Duplicate(field));
    }
    Ok(Some(hash))
}

#[tactic(auto, unfolding(crate::specs::Meaning::account_of))]
fn account(
    alloc: Global,
    policies: &[TsaPolicy],
    earlier: &[Account],
    table: &Table,
) -> Result<Account, PolicyFault>
    ensures { AnswersMeaning account_view result
        (account_of (map (λ e. string_bytes e.name) policies.now) (map (λ e. string_bytes e.name) earlier.now)
        (map (λ e. e.key_sha256) earlier.now) (table_view table.now)) }
{
    only(
        table,
        &[
            "name",
            "key_sha256",
            "active",
            "auditor",
            "operator",
            "policies",
            "daily_quota",
        ],
    )?;
    let name = new_name(alloc, table, Field::AccountName, earlier)?;
    let key_sha256 = new_hash(table, Field::AccountKeySha256, earlier)?;
    let active = optional_truth(table, "active", Field::AccountActive, true)?;
    let auditor = optional_truth(table, "auditor", Field::AccountAuditor, false)?;
    let operator = optional_truth(table, "operator", Field::AccountOperator, false)?;
    let policies = some_names(alloc, table, "policies", Field::AccountPolicies, policies)?;
    let daily_quota = number(
        table,
        "daily_quota",
        Field::AccountDailyQuota,
        0,
        1_000_000_000,
    )?;
    Ok(Account {
        name,
        key_sha256,
        active,
        auditor,
        operator,
        policies,
        daily_quota: daily_quota as u32,
    })
}

impl Entry for Account {
    type Known = Vec<TsaPolicy>;

    ghost Meant = { AccountValue };

    ghost seen = { account_view };

    ghost meaning = { λ policies. account_in (map (λ e. string_bytes e.name) policies.items) };

    #[tactic(auto, using(crate::proofs::EntriesRead::entry_values))]
    fn read(
        alloc: Global,
        policies: &Vec<TsaPolicy>,
        earlier: &[Account],
        table: &Table,
    ) -> Result<Account, PolicyFault> {
        account(alloc, policies, earlier, table)
    }
}

impl Entry for Group {
    type Known = Vec<Account>;

    ghost Meant = { GroupValue };

    ghost seen = { group_view };

    ghost meaning = { λ accounts. group_in (map (λ e. string_bytes e.name) accounts.items) };

    #[tactic(auto, unfolding(crate::specs::Meaning::group_of), using(crate::proofs::EntriesRead::entry_values))]
    fn read(
        alloc: Global,
        accounts: &Vec<Account>,
        earlier: &[Group],
        table: &Table,
    ) -> Result<Group, PolicyFault> {
        only(table, &["name", "members"])?;
        let name = new_name(alloc, table, Field::GroupName, earlier)?;
        let members = some_names(alloc, table, "members", Field::GroupMembers, accounts)?;
        Ok(Group { name, members })
    }
}

/// Whether each value is a table.
fn are_tables(values: &[Value]) -> bool
    ensures { result ≡ are_tables (items_view values.now) }
{
    for value in values {
        if value.as_table().is_none() {
            return false;
        }
    }
    true
}

/// The tables of an array of at most so many.
#[tactic(auto, unfolding(crate::specs::Kinds::tables_in), using(crate::proofs::EntriesRead::count_of_view))]
fn tables<'v>(field: Field, most: usize, value: &'v Value) -> Result<&'v [Value], PolicyFault>
    ensures { AnswersMeaning (λ vs. items_view vs.now) result (tables_in field most (view value.now)) }
{
    let values = values(field, value)?;
    if !are_tables(values) {
        return Err(PolicyFault::BadValue(field));
    }
    if values.len() > most {
        return Err(PolicyFault::TooMany(field));
    }
    Ok(values)
}

/// An entry's table.
fn table_of<'v>(field: Field, value: &'v Value) -> Result<&'v Table, PolicyFault>
    ensures { AnswersMeaning (λ t. table_view t.now) result (given field (as_table (view value.now))) }
{
    match value.as_table() {
        Some(table) => Ok(table),
        None => Err(PolicyFault::BadValue(field)),
    }
}

/// An entry's meaning.
#[tactic(auto, unfolding(crate::specs::Kinds::entry_in))]
fn read_entry<E: Entry>(
    alloc: Global,
    field: Field,
    known: &E::Known,
    earlier: &[E],
    value: &Value,
) -> Result<E, PolicyFault>
    ensures { AnswersMeaning E.seen result
        (entry_in field (E.meaning known.now) (map E.seen earlier.now) (view value.now)) }
{
    let table = table_of(field, value)?;
    E::read(alloc, known, earlier, table)
}

/// One entry after the other.
fn entries<E: Entry>(
    alloc: Global,
    field: Field,
    known: &E::Known,
    values: &[Value],
) -> Result<Vec<E>, PolicyFault>
    ensures { AnswersMeaning (λ es. map E.seen es.items) result
        (entries_after (entry_in field (E.meaning known.now)) [] (items_view values.now)) }
{
    let mut entries = Vec::new(alloc);
    for value in values {
        let entry = read_entry(alloc, field, known, &entries, value)?;
        entries.push(entry)?;
    }
    Ok(entries)
}

/// The array of that key, of at most so many entries; empty where it is absent.
#[tactic(auto, unfolding(crate::specs::Kinds::array_in))]
pub(crate) fn array<E: Entry>(
    alloc: Global,
    document: &Table,
    key: &str,
    field: Field,
    most: usize,
    known: &E::Known,
) -> Result<Vec<E>, PolicyFault>
    ensures { AnswersMeaning (λ es. map E.seen es.items) result
        (array_in field most (E.meaning known.now) (get_member key.now (table_view document.now))) }
{
    let Some(value) = member(document, key) else {
        return Ok(Vec::new(alloc));
    };
    let values = tables(field, most, value)?;
    entries(alloc, field, known, values)
}
