use std::fmt;

/// A key of the policy file, an array or a table of it: what a refusal speaks of.
#[derive(Clone, Copy, Debug, PartialEq, Eq)]
pub enum Field {
    /// A key of a table that isn't one of its keys.
    Key,
    /// The table `counter`.
    Counter,
    /// `accuracy_us` of `counter`.
    CounterAccuracyUs,
    /// `fraction_digits` of `counter`.
    CounterFractionDigits,
    /// `ordering` of `counter`.
    CounterOrdering,
    /// `drift_ppb` of `counter`.
    CounterDriftPpb,
    /// `max_age_us` of `counter`.
    CounterMaxAgeUs,
    /// `anonymous` of `counter`.
    CounterAnonymous,
    /// `tsa_name` of `counter`.
    CounterTsaName,
    /// The array `algorithm`.
    Algorithm,
    /// `name` of an algorithm.
    AlgorithmName,
    /// `oid` of an algorithm.
    AlgorithmOid,
    /// `length` of an algorithm.
    AlgorithmLength,
    /// The array `extension`.
    Extension,
    /// `name` of an extension.
    ExtensionName,
    /// `oid` of an extension.
    ExtensionOid,
    /// `max_length` of an extension.
    ExtensionMaxLength,
    /// The array `policy`.
    Policy,
    /// `name` of a policy.
    PolicyName,
    /// `oid` of a policy.
    PolicyOid,
    /// `algorithms` of a policy.
    PolicyAlgorithms,
    /// `extensions` of a policy.
    PolicyExtensions,
    /// `certificate` of a policy.
    PolicyCertificate,
    /// The array `account`.
    Account,
    /// `name` of an account.
    AccountName,
    /// `key_sha256` of an account.
    AccountKeySha256,
    /// `active` of an account.
    AccountActive,
    /// `auditor` of an account.
    AccountAuditor,
    /// `operator` of an account.
    AccountOperator,
    /// `policies` of an account.
    AccountPolicies,
    /// `daily_quota` of an account.
    AccountDailyQuota,
    /// The array `group`.
    Group,
    /// `name` of a group.
    GroupName,
    /// `members` of a group.
    GroupMembers,
}

impl Field {
    /// The array or table and the key, as `algorithm.oid`.
    fn path(self) -> &'static str {
        match self {
            Field::Key => "a key",
            Field::Counter => "counter",
            Field::CounterAccuracyUs => "counter.accuracy_us",
            Field::CounterFractionDigits => "counter.fraction_digits",
            Field::CounterOrdering => "counter.ordering",
            Field::CounterDriftPpb => "counter.drift_ppb",
            Field::CounterMaxAgeUs => "counter.max_age_us",
            Field::CounterAnonymous => "counter.anonymous",
            Field::CounterTsaName => "counter.tsa_name",
            Field::Algorithm => "algorithm",
            Field::AlgorithmName => "algorithm.name",
            Field::AlgorithmOid => "algorithm.oid",
            Field::AlgorithmLength => "algorithm.length",
            Field::Extension => "extension",
            Field::ExtensionName => "extension.name",
            Field::ExtensionOid => "extension.oid",
            Field::ExtensionMaxLength => "extension.max_length",
            Field::Policy => "policy",
            Field::PolicyName => "policy.name",
            Field::PolicyOid => "policy.oid",
            Field::PolicyAlgorithms => "policy.algorithms",
            Field::PolicyExtensions => "policy.extensions",
            Field::PolicyCertificate => "policy.certificate",
            Field::Account => "account",
            Field::AccountName => "account.name",
            Field::AccountKeySha256 => "account.key_sha256",
            Field::AccountActive => "account.active",
            Field::AccountAuditor => "account.auditor",
            Field::AccountOperator => "account.operator",
            Field::AccountPolicies => "account.policies",
            Field::AccountDailyQuota => "account.daily_quota",
            Field::Group => "group",
            Field::GroupName => "group.name",
            Field::GroupMembers => "group.members",
        }
    }
}

impl fmt::Display for Field {
    fn fmt<W: fmt::Write>(&self, f: &mut fmt::Formatter<W>) -> fmt::Result {
        let path = self.path();
        write!(f, "{path}")
    }
}
