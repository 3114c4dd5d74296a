//! A policy file's whole document.
ghost use Rattle.std.specs.Prelude.{◌≡◌, option_map, map, string_bytes};
ghost use Rattle.toml.specs.View.{table_view};
ghost use Rattle.policy.specs.{Answers.AnswersMeaning, View.policy_view, Meaning.policy_in, Meaning.is_none_or_among};

use crate::arrays::{array, counter};
use crate::entries::{Account, Algorithm, Counter, Extension, Group, TsaPolicy};
use crate::fault::PolicyFault;
use crate::field::Field;
use crate::find::has_name;
use crate::parser::{member, only};
use crate::policy::Policy;
use std::alloc::Global;
use toml::Table;

/// Whether the anonymous account exists, where one is named.
fn anonymous_exists(counter: &Counter, accounts: &[Account]) -> bool
    ensures { result ≡ is_none_or_among (map (λ e. string_bytes e.name) accounts.now)
        (option_map string_bytes counter.now.anonymous) }
{
    match &counter.anonymous {
        Some(name) => has_name(accounts, name.as_str()),
        None => true,
    }
}

/// What a document says.
#[tactic(auto, unfolding(crate::specs::Meaning::policy_in), using(crate::proofs::EntriesRead::entry_values))]
pub(crate) fn from_table(alloc: Global, document: &Table) -> Result<Policy, PolicyFault>
    ensures { AnswersMeaning policy_view result (policy_in (table_view document.now)) }
{
    only(
        document,
        &[
            "counter",
            "algorithm",
            "extension",
            "policy",
            "account",
            "group",
        ],
    )?;
    let Some(value) = member(document, "counter") else {
        return Err(PolicyFault::Missing(Field::Counter));
    };
    let counter = counter(alloc, value)?;
    let algorithms = array::<Algorithm>(alloc, document, "algorithm", Field::Algorithm, 8, &())?;
    let extensions = array::<Extension>(alloc, document, "extension", Field::Extension, 32, &())?;
    let named = (algorithms, extensions);
    let policies = array::<TsaPolicy>(alloc, document, "policy", Field::Policy, 16, &named)?;
    let accounts = array::<Account>(alloc, document, "account", Field::Account, 64, &policies)?;
    let groups = array::<Group>(alloc, document, "group", Field::Group, 16, &accounts)?;
    if !anonymous_exists(&counter, &accounts) {
        return Err(PolicyFault::UnknownName(Field::CounterAnonymous));
    }
    let (algorithms, extensions) = named;
    Ok(Policy {
        counter,
        algorithms,
        extensions,
        policies,
        accounts,
        groups,
    })
}
