//! Who may read a deposit, for its owner.
ghost use Rattle.std.specs.Prelude.{◌≡◌, ◌++◌, ℕ, true, map, IfSome, OnSome, string_bytes};
ghost use Rattle.std.specs.List.{flat_map};
ghost use Rattle.policy.specs.View.{account_view, policy_view};
ghost use Rattle.book.specs.Readers.{Account as Named, Group as NamedGroup};
ghost use Rattle.book.specs.{Entries.reader_view, History.History, Rights.is_own, Stands.Stands, Stands.OnlyLooks};
ghost use Rattle.service.specs.Readers.{has_right, reader_named, reader_line, readers_text};
ghost use Rattle.service.specs.{Handlers.AnswersReport, Requests.OfReaders, Served.TellsFailure, Views.seen_at};

use crate::answer::Media;
use crate::context::Context;
use crate::refusal::Refusal;
use crate::responses::{out_of_memory, refuse, succeed};
use crate::served::Served;
use crate::status::append_named;
use audit::Output;
use book::{Book, Reader};
use desk::Desk;
use policy::{Account, Group, Policy};
use std::alloc::Global;

/// Whether an account has the right by its own name. Of the owner, who needs none, it isn't told.
fn account_reads<B: Book + Drop>(
    store: &mut B,
    owner: &str,
    number: u64,
    name: &str,
) -> Option<bool>
    ensures looks { OnlyLooks B.Standing store.old store.new }
    ensures value { B.honest store.new → (b : History) → Stands B.Standing b store.old
        → is_own owner.now number b ≡ true
        → IfSome result (λ reads. reads ≡ has_right owner.now number b (Named name.now)) }
{
    if name == owner {
        return Some(false);
    }
    store.visible(number, name, &[]).ok()
}

/// Whether a group has the right: whoever has no name sees the deposit in the group, and not without it.
fn group_reads<B: Book + Drop>(store: &mut B, owner: &str, number: u64, name: &str) -> Option<bool>
    ensures looks { OnlyLooks B.Standing store.old store.new }
    ensures value { B.honest store.new → (b : History) → Stands B.Standing b store.old
        → is_own owner.now number b ≡ true
        → IfSome result (λ reads. reads ≡ has_right owner.now number b (NamedGroup name.now)) }
{
    let reads = store.visible(number, "", &[name]).ok()?;
    if reads && store.visible(number, "", &[]).ok()? {
        return None;
    }
    Some(reads)
}

/// Whether a reader has the right. None where the store can't be looked into.
fn has_right<B: Book + Drop>(
    store: &mut B,
    owner: &str,
    number: u64,
    reader: Reader<'_>,
) -> Option<bool>
    ensures looks { OnlyLooks B.Standing store.old store.new }
    ensures value { B.honest store.new → (b : History) → Stands B.Standing b store.old
        → is_own owner.now number b ≡ true
        → IfSome result (λ reads. reads ≡ has_right owner.now number b (reader_view reader.entry)) }
{
    match reader {
        Reader::Account(name) => account_reads(store, owner, number, name),
        Reader::Group(name) => group_reads(store, owner, number, name),
    }
}

/// Appends the line of a reader. None where memory runs out.
fn append_named_reader(lines: &mut Vec<u8>, reader: Reader<'_>) -> Option<()>
    ensures { OnSome result (lines.new.items ≡ lines.old.items ++ reader_named (reader_view reader.entry)) }
{
    match reader {
        Reader::Account(name) => append_named(lines, "account", name.as_bytes()),
        Reader::Group(name) => append_named(lines, "group", name.as_bytes()),
    }
}

/// Appends the line of a reader that has the right. None where the store can't be looked into, or memory runs out.
fn append_reader<B: Book + Drop>(
    store: &mut B,
    lines: &mut Vec<u8>,
    owner: &str,
    number: u64,
    reader: Reader<'_>,
) -> Option<()>
    ensures looks { OnlyLooks B.Standing store.old store.new }
    ensures value { B.honest store.new → (b : History) → Stands B.Standing b store.old
        → is_own owner.now number b ≡ true
        → OnSome result (lines.new.items
        ≡ lines.old.items ++ reader_line owner.now number b (reader_view reader.entry)) }
{
    let reads = has_right(store, owner, number, reader)?;
    if reads {
        append_named_reader(lines, reader)
    } else {
        Some(())
    }
}

/// The lines of the accounts that have the right. None where the store can't be looked into, or memory runs out.
fn account_lines<B: Book + Drop>(
    alloc: Global,
    store: &mut B,
    accounts: &[Account],
    owner: &str,
    number: u64,
) -> Option<Vec<u8>>
    ensures looks { OnlyLooks B.Standing store.old store.new }
    ensures value { B.honest store.new → (b : History) → Stands B.Standing b store.old
        → is_own owner.now number b ≡ true → IfSome result (λ lines.
        lines.items ≡ flat_map (reader_line owner.now number b) (map (λ a. Named (string_bytes a.name)) accounts.now)) }
{
    let mut lines = Vec::new(alloc);
    for account in accounts {
        let reader = Reader::Account(account.name.as_str());
        append_reader(store, &mut lines, owner, number, reader)?;
    }
    Some(lines)
}

/// The lines of the groups that have it. None where the store can't be looked into, or memory runs out.
fn group_lines<B: Book + Drop>(
    alloc: Global,
    store: &mut B,
    groups: &[Group],
    owner: &str,
    number: u64,
) -> Option<Vec<u8>>
    ensures looks { OnlyLooks B.Standing store.old store.new }
    ensures value { B.honest store.new → (b : History) → Stands B.Standing b store.old
        → is_own owner.now number b ≡ true → IfSome result (λ lines. lines.items
        ≡ flat_map (reader_line owner.now number b) (map (λ g. NamedGroup (string_bytes g.name)) groups.now)) }
{
    let mut lines = Vec::new(alloc);
    for group in groups {
        let reader = Reader::Group(group.name.as_str());
        append_reader(store, &mut lines, owner, number, reader)?;
    }
    Some(lines)
}

/// What the owner is told of the readers. None where the store can't be looked into, or memory runs out.
fn readers_text<B: Book + Drop>(
    alloc: Global,
    store: &mut B,
    file: &Policy,
    owner: &str,
    number: u64,
) -> Option<Vec<u8>>
    ensures looks { OnlyLooks B.Standing store.old store.new }
    ensures value { B.honest store.new → (b : History) → Stands B.Standing b store.old
        → is_own owner.now number b ≡ true
        → IfSome result (λ text. text.items ≡ readers_text (policy_view file.now) owner.now number b) }
{
    let mut lines = account_lines(alloc, store, &file.accounts, owner, number)?;
    let groups = group_lines(alloc, store, &file.groups, owner, number)?;
    lines.extend_from_slice(&groups).ok()?;
    Some(lines)
}

/// Tells the owner of a deposit who may read it.
pub(crate) fn serve_readers<W: Output, B: Book + Drop>(
    context: &Context<'_>,
    writer: &mut W,
    desk: &mut Desk<'_, B>,
    account: &Account,
    number: u64,
) -> Served
    ensures setting { desk.new.setting ≡ desk.old.setting }
    ensures looks { OnlyLooks B.Standing desk.old.store desk.new.store }
    ensures served { (faults : ℕ) → AnswersReport B.Standing W.contents (seen_at context.now faults) writer.old
        writer.new desk.old desk.new (OfReaders (account_view account.now) number) result }
    ensures failed { TellsFailure (W.failures writer.old) (W.failures writer.new) result }
{
    let file = desk.policy();
    let owner = account.name.as_str();
    let Ok(own) = desk.store().is_owner(number, owner) else {
        return out_of_memory(writer, context.at);
    };
    if !own {
        return refuse(writer, context.at, Refusal::NotHere);
    }
    match readers_text(context.alloc, desk.store(), file, owner, number) {
        Some(text) => succeed(writer, context.at, Media::Text, &text),
        None => out_of_memory(writer, context.at),
    }
}
