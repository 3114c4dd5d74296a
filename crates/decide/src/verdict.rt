use der::Oid;
use gentime::GenTime;
use tsp::Rule;

/// What a stamp will say besides what its request says.
#[derive(Clone, Copy)]
pub struct Plan<'p> {
    /// The policy under which the token is given: the request's, and else the account's default.
    pub policy: &'p Oid,
    /// The genTime, rounded down to the policy file's fraction digits.
    pub gen_time: GenTime,
    /// Whether the token comes with the signer's certificate.
    pub certificate: bool,
}

/// The decision on a request.
#[derive(Clone, Copy)]
pub enum Verdict<'p> {
    /// No rule fails, and this is the stamp's plan.
    Allow(Plan<'p>),
    /// The first rule that fails.
    Deny(Rule),
}
