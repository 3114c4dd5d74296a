//! What an account may ask for, and what it has used of that.
ghost use Rattle.std.specs.Prelude.{◌≡◌, ◌++◌, ℕ, codes, map, IfOk, IfSome, OnSome, string_bytes};
ghost use Rattle.std.specs.List.{flat_map};
ghost use Rattle.policy.specs.Kinds.{is_among};
ghost use Rattle.policy.specs.View.{account_view, algorithm_view, extension_view, tsa_policy_view, policy_view};
ghost use Rattle.book.specs.{History.History, Stands.Stands, Stands.OnlyLooks};
ghost use Rattle.desk.specs.Facts.{clock_of};
ghost use Rattle.service.specs.Accounts.{identified, listed_line, algorithm_line, extension_line, policy_lines};
ghost use Rattle.service.specs.Accounts.{named_policy_lines, quota_lines, right_lines, group_line, account_text};
ghost use Rattle.service.specs.Handlers.{AnswersReport};
ghost use Rattle.service.specs.{Accounts.IsUsedAt, Requests.OfAccount, Served.TellsFailure, Views.seen_at};

use crate::answer::Media;
use crate::context::Context;
use crate::responses::{out_of_memory, succeed};
use crate::served::Served;
use crate::status::{append_named, append_number, yes_or_no};
use audit::Output;
use book::{Book, StoreFault};
use decide::{ClockState, clock_state};
use der::Oid;
use desk::Desk;
use policy::{Account, Algorithm, Extension, Policy, TsaPolicy};
use std::alloc::{AllocError, Global};

/// A name, and an object identifier behind it.
fn name_and_oid(alloc: Global, name: &str, oid: &str) -> Result<String, AllocError>
    ensures { IfOk result (λ text. string_bytes text ≡ name.now ++ codes " " ++ oid.now) }
{
    format!(in alloc; "{name} {oid}")
}

/// Appends the line of what has a name and an object identifier. None where memory runs out.
fn append_identified(
    alloc: Global,
    lines: &mut Vec<u8>,
    word: &str,
    name: &str,
    oid: &Oid,
) -> Option<()>
    ensures { OnSome result (lines.new.items ≡ lines.old.items ++ identified word.now name.now oid.now) }
{
    let oid = oid.text(alloc).ok()?;
    let value = name_and_oid(alloc, name, oid.as_str()).ok()?;
    append_named(lines, word, value.as_bytes())
}

/// Whether a name is in a list.
fn has_name(names: &[String], name: &str) -> bool
    ensures { result ≡ is_among (map string_bytes names.now) name.now }
{
    names.iter().any(|other| other.as_str() == name)
}

/// Appends such a line, where the name is in the list. None where memory runs out.
fn append_listed(
    alloc: Global,
    lines: &mut Vec<u8>,
    word: &str,
    names: &[String],
    name: &str,
    oid: &Oid,
) -> Option<()>
    ensures { OnSome result (lines.new.items
        ≡ lines.old.items ++ listed_line word.now (map string_bytes names.now) name.now oid.now) }
{
    if has_name(names, name) {
        append_identified(alloc, lines, word, name, oid)
    } else {
        Some(())
    }
}

/// A line for each of the algorithms whose name is listed. None where memory runs out.
fn algorithm_lines(alloc: Global, algorithms: &[Algorithm], names: &[String]) -> Option<Vec<u8>>
    ensures { IfSome result (λ lines. lines.items
        ≡ flat_map (algorithm_line (map string_bytes names.now)) (map algorithm_view algorithms.now)) }
{
    let mut lines = Vec::new(alloc);
    for algorithm in algorithms {
        let name = algorithm.name.as_str();
        append_listed(alloc, &mut lines, "algorithm", names, name, &algorithm.oid)?;
    }
    Some(lines)
}

/// A line for each of the extensions whose name is listed. None where memory runs out.
fn extension_lines(alloc: Global, extensions: &[Extension], names: &[String]) -> Option<Vec<u8>>
    ensures { IfSome result (λ lines. lines.items
        ≡ flat_map (extension_line (map string_bytes names.now)) (map extension_view extensions.now)) }
{
    let mut lines = Vec::new(alloc);
    for extension in extensions {
        let name = extension.name.as_str();
        append_listed(alloc, &mut lines, "extension", names, name, &extension.oid)?;
    }
    Some(lines)
}

/// Appends the lines of a policy, with what it lists. None where memory runs out.
fn append_policy(
    alloc: Global,
    lines: &mut Vec<u8>,
    file: &Policy,
    policy: &TsaPolicy,
) -> Option<()>
    ensures { OnSome result (lines.new.items
        ≡ lines.old.items ++ policy_lines (policy_view file.now) (tsa_policy_view policy.now)) }
{
    let algorithms = algorithm_lines(alloc, &file.algorithms, &policy.algorithms)?;
    let extensions = extension_lines(alloc, &file.extensions, &policy.extensions)?;
    append_identified(alloc, lines, "policy", policy.name.as_str(), &policy.oid)?;
    lines.extend_from_slice(&algorithms).ok()?;
    lines.extend_from_slice(&extensions).ok()
}

/// Appends those of the policy of that name, if there is one. None where memory runs out.
fn append_policy_named(alloc: Global, lines: &mut Vec<u8>, file: &Policy, name: &str) -> Option<()>
    ensures { OnSome result (lines.new.items
        ≡ lines.old.items ++ named_policy_lines (policy_view file.now) name.now) }
{
    match file.policy_named(name) {
        Some(policy) => append_policy(alloc, lines, file, policy),
        None => Some(()),
    }
}

/// The lines of the policies of these names, in their order. None where memory runs out.
fn policies_lines(alloc: Global, file: &Policy, names: &[String]) -> Option<Vec<u8>>
    ensures { IfSome result (λ lines.
        lines.items ≡ flat_map (named_policy_lines (policy_view file.now)) (map string_bytes names.now)) }
{
    let mut lines = Vec::new(alloc);
    for name in names {
        append_policy_named(alloc, &mut lines, file, name.as_str())?;
    }
    Some(lines)
}

/// A line for each of these groups. None where memory runs out.
fn group_lines(alloc: Global, names: &[&str]) -> Option<Vec<u8>>
    ensures { IfSome result (λ lines. lines.items ≡ flat_map group_line (map (λ name. name.now) names.now)) }
{
    let mut lines = Vec::new(alloc);
    for name in names {
        append_named(&mut lines, "group", name.as_bytes())?;
    }
    Some(lines)
}

/// Appends the lines on how many stamps the account may have on a day, and how many it has. None where memory runs out.
fn append_quota(alloc: Global, lines: &mut Vec<u8>, quota: u32, used: Option<u64>) -> Option<()>
    ensures { OnSome result (lines.new.items ≡ lines.old.items ++ quota_lines quota used) }
{
    append_number(alloc, lines, "quota", Some(u64::from(quota)))?;
    append_number(alloc, lines, "used", used)
}

/// Appends the lines on whether the account is an auditor's, and an operator's. None where memory runs out.
fn append_rights(lines: &mut Vec<u8>, auditor: bool, operator: bool) -> Option<()>
    ensures { OnSome result (lines.new.items ≡ lines.old.items ++ right_lines auditor operator) }
{
    append_named(lines, "auditor", yes_or_no(auditor).as_bytes())?;
    append_named(lines, "operator", yes_or_no(operator).as_bytes())
}

/// What is told of an account, which has so many stamps on its day, if that is known. None where memory runs out.
fn account_text(
    alloc: Global,
    file: &Policy,
    account: &Account,
    used: Option<u64>,
) -> Option<Vec<u8>>
    ensures { IfSome result (λ text.
        text.items ≡ account_text (policy_view file.now) (account_view account.now) used) }
{
    let policies = policies_lines(alloc, file, &account.policies)?;
    let names = file.groups_of(account.name.as_str());
    let groups = group_lines(alloc, names.as_slice())?;
    let mut lines = Vec::new(alloc);
    append_named(&mut lines, "name", account.name.as_bytes())?;
    lines.extend_from_slice(&policies).ok()?;
    append_quota(alloc, &mut lines, account.daily_quota, used)?;
    append_rights(&mut lines, account.auditor, account.operator)?;
    lines.extend_from_slice(&groups).ok()?;
    Some(lines)
}

/// How many stamps the account has on the UTC day of now. It is known where the clock is good.
fn used_at<B: Book + Drop>(
    desk: &mut Desk<'_, B>,
    account: &Account,
    reading: i64,
) -> Result<Option<u64>, StoreFault>
    ensures setting { desk.new.setting ≡ desk.old.setting }
    ensures looks { OnlyLooks B.Standing desk.old.store desk.new.store }
    ensures value { B.honest desk.new.store → (b : History) → Stands B.Standing b desk.old.store
        → IfOk result (λ used. IsUsedAt desk.old.setting.file.counter (clock_of reading b)
        (account_view account.now).name b used) }
{
    let looked = desk.look(reading)?;
    match clock_state(&desk.policy().counter, &looked.clock) {
        ClockState::Good(moment) => {
            let count = desk
                .store()
                .count_of_day(account.name.as_str(), moment.day())?;
            Ok(Some(count))
        }
        ClockState::Bad => Ok(None),
    }
}

/// Tells an account of itself.
pub(crate) fn serve_account<W: Output, B: Book + Drop>(
    context: &Context<'_>,
    writer: &mut W,
    desk: &mut Desk<'_, B>,
    account: &Account,
) -> Served
    ensures setting { desk.new.setting ≡ desk.old.setting }
    ensures looks { OnlyLooks B.Standing desk.old.store desk.new.store }
    ensures served { (faults : ℕ) → AnswersReport B.Standing W.contents (seen_at context.now faults) writer.old
        writer.new desk.old desk.new (OfAccount (account_view account.now)) result }
    ensures failed { TellsFailure (W.failures writer.old) (W.failures writer.new) result }
{
    let Ok(used) = used_at(desk, account, context.at.reading) else {
        return out_of_memory(writer, context.at);
    };
    match account_text(context.alloc, desk.policy(), account, used) {
        Some(text) => succeed(writer, context.at, Media::Text, &text),
        None => out_of_memory(writer, context.at),
    }
}
