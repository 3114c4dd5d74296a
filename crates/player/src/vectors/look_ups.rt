//! Look-ups in a policy file's record.
use crate::transcript::{Printer, Words};
use crate::vectors::files::Files;
use policy::{Account, Group, HashAlgorithm, Policy, TsaPolicy};

/// Tells the name of what was found, and its number.
fn tell_found(printer: Printer<'_>, found: Option<(&str, u64)>) {
    match found {
        Some((name, number)) => printer.number(name, number),
        None => printer.line("  None"),
    }
}

fn tell_account(printer: Printer<'_>, found: Option<&Account>) {
    let found = found.map(|account| (account.name.as_str(), u64::from(account.daily_quota)));
    tell_found(printer, found);
}

fn tell_policy(printer: Printer<'_>, policy: Option<&TsaPolicy>) {
    match policy {
        Some(policy) => {
            printer.digits(&policy.name, policy.oid.content());
            printer.number("algorithms", policy.algorithms.len() as u64);
            printer.tell(&policy.certificate);
        }
        None => printer.line("  None"),
    }
}

fn tell_group(printer: Printer<'_>, found: Option<&Group>) {
    let found = found.map(|group| (group.name.as_str(), group.members.len() as u64));
    tell_found(printer, found);
}

/// Tells whether the account is a member of the group.
fn tell_member(printer: Printer<'_>, group: Option<&Group>, account: &str) {
    match group {
        Some(group) => printer.tell(&group.has_member(account)),
        None => printer.line("  None"),
    }
}

/// Tells the names of the groups of which the account is a member.
fn tell_groups(printer: Printer<'_>, policy: &Policy, account: &str) {
    for name in policy.groups_of(account).as_slice() {
        printer.octets("name", name.as_bytes());
    }
}

fn default_policy<'p>(policy: &'p Policy, name: &str) -> Option<&'p TsaPolicy> {
    policy.default_policy(policy.account_named(name)?)
}

/// Tells the hash algorithm that has an identifier, the identifier that it has, and the length of its hashes.
fn tell_hash_algorithm(printer: Printer<'_>, content: &[u8]) {
    match HashAlgorithm::of_identifier(content) {
        Some(algorithm) => {
            printer.tell(&algorithm);
            printer.digits("identifier", algorithm.identifier());
            printer.number("length", u64::from(algorithm.hash_length()));
        }
        None => printer.line("  None"),
    }
}

/// Tells what a look-up by octets finds.
fn look_up(printer: Printer<'_>, policy: &Policy, word: &str, octets: &[u8]) {
    match word {
        "policy-of" => tell_policy(printer, policy.policy_of_oid(octets)),
        "algorithm-of" => {
            let found = policy.algorithm_of_oid(octets);
            tell_found(
                printer,
                found.map(|it| (it.name.as_str(), u64::from(it.length))),
            );
        }
        "extension-of" => {
            let found = policy.extension_of_oid(octets);
            tell_found(
                printer,
                found.map(|it| (it.name.as_str(), u64::from(it.max_length))),
            );
        }
        "hash-algorithm" => tell_hash_algorithm(printer, octets),
        _ => tell_account(printer, policy.account_of_key(octets)),
    }
}

/// Makes the look-up that the words name in the record that was read last.
pub fn call(printer: Printer<'_>, files: &Files, words: Words<'_>) {
    let mut words = words;
    let Some(policy) = &files.policy else {
        return;
    };
    match words.next() {
        "anonymous" => tell_account(printer, policy.anonymous()),
        "named" => tell_account(printer, policy.account_named(words.next())),
        "default" => tell_policy(printer, default_policy(policy, words.next())),
        "policy-named" => tell_policy(printer, policy.policy_named(words.next())),
        "group" => tell_group(printer, policy.group_named(words.next())),
        "member" => tell_member(printer, policy.group_named(words.next()), words.next()),
        "groups-of" => tell_groups(printer, policy, words.next()),
        word => {
            if let Ok(octets) = printer.names.octets_of(words.rest) {
                look_up(printer, policy, word, &octets);
            }
        }
    }
}
