//! Searching entries. These searches take no memory.
ghost use Rattle.std.specs.Prelude.{◌≡◌, Option, option_map, List, map, string_bytes};
ghost use Rattle.std.specs.{List.find, List.list_all, List.list_any, Str.bytes_eq};
ghost use Rattle.der.specs.ObjectIdentifier.{oid_content};
ghost use Rattle.policy.specs.Kinds.{is_among, are_distinct, is_hash};

use crate::entries::{Account, Algorithm, Extension, Group, TsaPolicy};
use der::Oid;

/// An entry with a name.
pub(crate) trait Named {
    ghost name_of: { Self → List ℕ };

    ghost use Rattle.std.specs.Prelude.{◌≡◌, ℕ, List};

    /// The name.
    fn name(&self) -> &str
        ensures { result.now ≡ name_of self.now };
}

/// An entry with an object identifier.
pub(crate) trait Identified {
    ghost oid_of: { Self → List ℕ };

    ghost use Rattle.std.specs.Prelude.{◌≡◌, ℕ, List};
    ghost use Rattle.der.specs.ObjectIdentifier.{oid_content};

    /// The contents octets of the object identifier.
    fn oid_content(&self) -> &[u8]
        ensures { result.now ≡ oid_content (oid_of self.now) };
}

/// A name alone.
impl Named for String {
    ghost use Rattle.std.specs.Prelude.{string_bytes};

    ghost name_of = { string_bytes };

    fn name(&self) -> &str {
        self.as_str()
    }
}

impl Named for Algorithm {
    ghost use Rattle.std.specs.Prelude.{string_bytes};

    ghost name_of = { λ e. string_bytes e.name };

    fn name(&self) -> &str {
        self.name.as_str()
    }
}

impl Named for Extension {
    ghost use Rattle.std.specs.Prelude.{string_bytes};

    ghost name_of = { λ e. string_bytes e.name };

    fn name(&self) -> &str {
        self.name.as_str()
    }
}

impl Named for TsaPolicy {
    ghost use Rattle.std.specs.Prelude.{string_bytes};

    ghost name_of = { λ e. string_bytes e.name };

    fn name(&self) -> &str {
        self.name.as_str()
    }
}

impl Named for Account {
    ghost use Rattle.std.specs.Prelude.{string_bytes};

    ghost name_of = { λ e. string_bytes e.name };

    fn name(&self) -> &str {
        self.name.as_str()
    }
}

impl Named for Group {
    ghost use Rattle.std.specs.Prelude.{string_bytes};

    ghost name_of = { λ e. string_bytes e.name };

    fn name(&self) -> &str {
        self.name.as_str()
    }
}

impl Identified for Algorithm {
    ghost oid_of = { λ e. e.oid };

    fn oid_content(&self) -> &[u8] {
        self.oid.content()
    }
}

impl Identified for Extension {
    ghost oid_of = { λ e. e.oid };

    fn oid_content(&self) -> &[u8] {
        self.oid.content()
    }
}

impl Identified for TsaPolicy {
    ghost oid_of = { λ e. e.oid };

    fn oid_content(&self) -> &[u8] {
        self.oid.content()
    }
}

/// The first entry of that name.
pub(crate) fn find_by_name<'e, T: Named>(entries: &'e [T], name: &str) -> Option<&'e T>
    ensures { option_map (λ e. e.now) result ≡ find (λ e. bytes_eq (T.name_of e) name.now) entries.now }
{
    entries.iter().find(|entry| entry.name() == name)
}

/// The first entry whose object identifier has these contents octets.
pub(crate) fn find_by_oid<'e, T: Identified>(entries: &'e [T], content: &[u8]) -> Option<&'e T>
    ensures { option_map (λ e. e.now) result ≡ find (λ e. bytes_eq (oid_content (T.oid_of e)) content.now) entries.now }
{
    entries.iter().find(|entry| entry.oid_content() == content)
}

/// Whether an entry has that name.
pub(crate) fn has_name<T: Named>(entries: &[T], name: &str) -> bool
    ensures { result ≡ is_among (map T.name_of entries.now) name.now }
{
    find_by_name(entries, name).is_some()
}

/// Whether an entry has that object identifier.
pub(crate) fn has_oid<T: Identified>(entries: &[T], oid: &Oid) -> bool
    ensures { result ≡ is_among (map (λ e. oid_content (T.oid_of e)) entries.now) (oid_content oid.now) }
{
    find_by_oid(entries, oid.content()).is_some()
}

/// Whether an account has the key with this SHA-256.
fn is_key_hash(account: &Account, hash: &[u8; 32]) -> bool
    ensures { result ≡ is_hash hash.now account.now.key_sha256 }
{
    match &account.key_sha256 {
        Some(own) => own.as_slice() == hash.as_slice(),
        None => false,
    }
}

/// The first account that has the key with this SHA-256.
pub(crate) fn find_by_hash<'e>(accounts: &'e [Account], hash: &[u8; 32]) -> Option<&'e Account>
    ensures { option_map (λ a. a.now) result ≡ find (λ a. is_hash hash.now a.key_sha256) accounts.now }
{
    accounts.iter().find(|account| is_key_hash(account, hash))
}

/// Whether an account has the key with this SHA-256.
pub(crate) fn has_hash(accounts: &[Account], hash: &[u8; 32]) -> bool
    ensures { result ≡ list_any (is_hash hash.now) (map (λ a. a.key_sha256) accounts.now) }
{
    find_by_hash(accounts, hash).is_some()
}

/// Whether no name stands twice.
pub(crate) fn are_distinct(names: &[String]) -> bool
    ensures { result ≡ are_distinct (map string_bytes names.now) }
{
    let mut rest = names;
    while let Some((first, others)) = rest.split_first() {
        if has_name(others, first.as_str()) {
            return false;
        }
        rest = others;
    }
    true
}

/// Whether each name is an entry's.
pub(crate) fn all_exist<T: Named>(entries: &[T], names: &[String]) -> bool
    ensures { result ≡ list_all (is_among (map T.name_of entries.now)) (map string_bytes names.now) }
{
    names.iter().all(|name| has_name(entries, name.as_str()))
}
