//! Decisions on requests.
use crate::transcript::{Printer, Words};
use crate::vectors::clocks::facts_of;
use crate::vectors::files::Files;
use decide::{Facts, Plan, Verdict, decide, judge_request};
use policy::{Account, Policy};
use tsp::{Request, read_request};

/// The account of a name; with `other/` in front that of the other file, and none for `none`.
fn account_of<'f>(files: &'f Files, name: &str) -> Option<&'f Account> {
    match (name.strip_prefix("other/"), &files.policy, &files.other) {
        (Some("anonymous"), _, Some(other)) => other.anonymous(),
        (Some(name), _, Some(other)) => other.account_named(name),
        (None, Some(policy), _) if name == "anonymous" => policy.anonymous(),
        (None, Some(policy), _) => policy.account_named(name),
        _ => None,
    }
}

fn tell_plan(printer: Printer<'_>, plan: &Plan<'_>) {
    printer.octets_or_fault("genTime", &plan.gen_time.write(printer.alloc(), 6));
    printer.tell(&plan.certificate);
}

/// Decides on the request by the policy file that was read last: the genTime and whether the certificate is wanted, or
/// the rule that fails. The words say how many stamps the account has, and the clock's facts.
fn tell_decision(
    printer: Printer<'_>,
    policy: &Policy,
    account: Option<&Account>,
    request: &Request<'_>,
    words: &mut Words<'_>,
) {
    let count = words.number();
    let clock = facts_of(words);
    match decide(policy, account, request, &Facts { clock, count }) {
        Verdict::Allow(plan) => tell_plan(printer, &plan),
        Verdict::Deny(rule) => printer.tell(&rule),
    }
}

/// Decides on a request of an account, or judges the request alone.
pub fn call(printer: Printer<'_>, files: &Files, words: Words<'_>) {
    let mut words = words;
    let account = account_of(files, words.next());
    let request = read_request(printer.names.octets(words.next()));
    let (Some(policy), Ok(request)) = (&files.policy, request) else {
        return printer.line("  no request");
    };
    if words.rest.is_empty() {
        printer.tell(&judge_request(policy, account, &request));
    } else {
        tell_decision(printer, policy, account, &request, &mut words);
    }
}
