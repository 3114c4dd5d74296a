//! The numbers and the texts of the refusals.
use crate::transcript::Printer;
use cms::{CmsFault, SignerFault};
use der::DerFault;
use gentime::GenTimeFault;
use policy::{Field, PolicyFault};
use tsp::TspFault;

static OF_VALUES: [DerFault; 9] = [
    DerFault::Truncated,
    DerFault::LengthForm,
    DerFault::HighTag,
    DerFault::WrongKind,
    DerFault::TooDeep,
    DerFault::TooLong,
    DerFault::Trailing,
    DerFault::BadValue,
    DerFault::Memory,
];

static OF_MOMENTS: [GenTimeFault; 4] = [
    GenTimeFault::Form,
    GenTimeFault::Date,
    GenTimeFault::Range,
    GenTimeFault::Memory,
];

static OF_TOKENS: [CmsFault; 5] = [
    CmsFault::NotCertificate,
    CmsFault::TooLarge,
    CmsFault::Memory,
    CmsFault::TooMany,
    CmsFault::Repeated,
];

static OF_FILES: [PolicyFault; 7] = [
    PolicyFault::Toml,
    PolicyFault::Missing(Field::Counter),
    PolicyFault::BadValue(Field::AlgorithmOid),
    PolicyFault::Duplicate(Field::AccountName),
    PolicyFault::UnknownName(Field::Key),
    PolicyFault::TooMany(Field::Policy),
    PolicyFault::Memory,
];

static FIELDS: [Field; 34] = [
    Field::Key,
    Field::Counter,
    Field::CounterAccuracyUs,
    Field::CounterFractionDigits,
    Field::CounterOrdering,
    Field::CounterDriftPpb,
    Field::CounterMaxAgeUs,
    Field::CounterAnonymous,
    Field::CounterTsaName,
    Field::Algorithm,
    Field::AlgorithmName,
    Field::AlgorithmOid,
    Field::AlgorithmLength,
    Field::Extension,
    Field::ExtensionName,
    Field::ExtensionOid,
    Field::ExtensionMaxLength,
    Field::Policy,
    Field::PolicyName,
    Field::PolicyOid,
    Field::PolicyAlgorithms,
    Field::PolicyExtensions,
    Field::PolicyCertificate,
    Field::Account,
    Field::AccountName,
    Field::AccountKeySha256,
    Field::AccountActive,
    Field::AccountAuditor,
    Field::AccountOperator,
    Field::AccountPolicies,
    Field::AccountDailyQuota,
    Field::Group,
    Field::GroupName,
    Field::GroupMembers,
];

fn tell_of_values(printer: Printer<'_>) {
    for fault in &OF_VALUES {
        printer.show(u64::from(fault.number()), fault);
    }
    for fault in &OF_MOMENTS {
        printer.show(u64::from(fault.number()), fault);
    }
    for fault in &[TspFault::Form, TspFault::TooLong, TspFault::Memory] {
        printer.show(u64::from(fault.number()), fault);
    }
}

/// Tells all of them, and the paths of the policy file's fields.
pub fn tell_all(printer: Printer<'_>) {
    tell_of_values(printer);
    for fault in &OF_TOKENS {
        printer.show(u64::from(fault.number()), fault);
    }
    for fault in &[SignerFault::Failed, SignerFault::Memory] {
        printer.show(u64::from(fault.number()), fault);
    }
    for fault in &OF_FILES {
        printer.show(u64::from(fault.number()), fault);
    }
    for (at, field) in FIELDS.iter().enumerate() {
        printer.show(at as u64, field);
    }
}
