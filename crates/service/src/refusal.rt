//! Why a request is refused.
ghost use Rattle.std.specs.Prelude.{◌≡◌, ◌≤◌, length, option_map};
ghost use Rattle.http.specs.StatusCode.{reason_phrase};
ghost use Rattle.tsp.specs.Rejection.{number_of, reason};
ghost use Rattle.service.specs.Refusals.{status_of_rule, status_of, word_of, refusal_of, refusal_of_extract};
ghost use Rattle.service.specs.{Answers.allowed_by, Answers.phrase_of, Answers.refusal_body, Routes.names_of};

use crate::answer::{ShortText, push_number};
use crate::routes::Methods;
use arrayvec::ArrayString;
use audit::ExtractFault;
use desk::Fault;
use http::StatusCode;
use tsp::Rule;

/// Why a request is refused.
#[derive(Clone, Copy)]
pub enum Refusal {
    /// There is no whole request, or it shows two keys.
    BadRequest,
    /// A transfer coding.
    TransferEncoding,
    /// The target names nothing.
    NoRoute,
    /// The method does nothing there; what others do.
    Method(Methods),
    /// No length of the body.
    Length,
    /// Two lengths, or one that is no number.
    BadLength,
    /// The body is too large.
    TooLarge,
    /// The body isn't said to be a time-stamp request.
    Type,
    /// The key is no active account's.
    NoAccount,
    /// The account sees no such deposit.
    NotHere,
    /// No reference, two, or one of a wrong form.
    BadReference,
    /// The deposit is another account's.
    NotOwner,
    /// The reference is used for other octets.
    Conflict,
    /// No account has the reader's name.
    UnknownReader,
    /// No group has the name.
    UnknownGroup,
    /// An owner needs no right.
    SelfGrant,
    /// Only an auditor may have an extract.
    NotAuditor,
    /// No range of serial numbers.
    BadRange,
    /// Only an operator may add calibrations and holds.
    NotOperator,
    /// The form hasn't just the fields that are asked for, or one of them is out of its range.
    BadField,
    /// The calibration's reading is before that of the latest.
    Backwards,
    /// A rule refuses a deposit's stamp.
    Rule(Rule),
    /// The store, the signer or memory didn't answer.
    Unavailable,
}

/// A rule's word.
fn word_of_rule(rule: Rule) -> &'static str
    ensures value { result.now ≡ reason (number_of rule) }
    ensures short { length result.now ≤ 40 }
{
    match rule {
        Rule::Spelling => "rule 01",
        Rule::Version => "rule 02",
        Rule::Account => "rule 03",
        Rule::Algorithm => "rule 04",
        Rule::HashLength => "rule 05",
        Rule::Policy => "rule 06",
        Rule::PolicyAlgorithm => "rule 07",
        Rule::Extensions => "rule 08",
        Rule::Certificate => "rule 09",
        Rule::Clock => "rule 10",
        Rule::Quota => "rule 11",
        Rule::System => "rule 12",
    }
}

/// The status that tells that a rule fails.
fn status_of_rule(rule: Rule) -> StatusCode
    ensures value { result ≡ status_of_rule rule }
    ensures short { length (phrase_of (reason_phrase result)) ≤ 40 }
{
    match rule {
        Rule::Clock => StatusCode::SERVICE_UNAVAILABLE,
        _ => StatusCode::FORBIDDEN,
    }
}

impl Refusal {
    /// The status that tells it.
    pub(crate) fn status(self) -> StatusCode
        ensures value { result ≡ status_of self }
        ensures short { length (phrase_of (reason_phrase result)) ≤ 40 }
    {
        match self {
            Refusal::BadRequest
            | Refusal::BadLength
            | Refusal::BadReference
            | Refusal::UnknownReader
            | Refusal::UnknownGroup
            | Refusal::SelfGrant
            | Refusal::BadRange
            | Refusal::BadField => StatusCode::BAD_REQUEST,
            Refusal::NoAccount | Refusal::NotOwner | Refusal::NotAuditor | Refusal::NotOperator =>
                StatusCode::FORBIDDEN,
            Refusal::NoRoute | Refusal::NotHere => StatusCode::NOT_FOUND,
            Refusal::Method(_) => StatusCode::METHOD_NOT_ALLOWED,
            Refusal::Conflict | Refusal::Backwards => StatusCode::CONFLICT,
            Refusal::Length => StatusCode::LENGTH_REQUIRED,
            Refusal::TooLarge => StatusCode::PAYLOAD_TOO_LARGE,
            Refusal::Type => StatusCode::UNSUPPORTED_MEDIA_TYPE,
            Refusal::TransferEncoding => StatusCode::NOT_IMPLEMENTED,
            Refusal::Rule(rule) => status_of_rule(rule),
            Refusal::Unavailable => StatusCode::SERVICE_UNAVAILABLE,
        }
    }

    /// Its word.
    fn word(self) -> &'static str
        ensures value { result.now ≡ word_of self }
        ensures short { length result.now ≤ 40 }
    {
        match self {
            Refusal::BadRequest => "BadRequest",
            Refusal::TransferEncoding => "TransferEncoding",
            Refusal::NoRoute => "NoRoute",
            Refusal::Method(_) => "Method",
            Refusal::Length => "Length",
            Refusal::BadLength => "BadLength",
            Refusal::TooLarge => "TooLarge",
            Refusal::Type => "Type",
            Refusal::NoAccount => "NoAccount",
            Refusal::NotHere => "NotHere",
            Refusal::BadReference => "BadReference",
            Refusal::NotOwner => "NotOwner",
            Refusal::Conflict => "Conflict",
            Refusal::UnknownReader => "UnknownReader",
            Refusal::UnknownGroup => "UnknownGroup",
            Refusal::SelfGrant => "SelfGrant",
            Refusal::NotAuditor => "NotAuditor",
            Refusal::BadRange => "BadRange",
            Refusal::NotOperator => "NotOperator",
            Refusal::BadField => "BadField",
            Refusal::Backwards => "Backwards",
            Refusal::Rule(rule) => word_of_rule(rule),
            Refusal::Unavailable => "Unavailable",
        }
    }

    /// The methods that its answer tells.
    pub(crate) fn allowed(self) -> Option<Methods>
        ensures { option_map names_of result ≡ allowed_by self }
    {
        match self {
            Refusal::Method(methods) => Some(methods),
            _ => None,
        }
    }

    /// The body of its answer: status and word, on a line.
    pub(crate) fn body(self) -> ShortText
        ensures { result.bytes ≡ refusal_body self }
    {
        let mut line = ArrayString::new();
        push_number(&mut line, u64::from(self.status().as_u16()));
        line.push_str(" ");
        line.push_str(self.word());
        line.push_str("\n");
        line
    }
}

impl From<Fault> for Refusal {
    ghost from_gives = { λ fault refusal. refusal ≡ refusal_of fault };

    fn from(fault: Fault) -> Refusal {
        match fault {
            Fault::NotHere => Refusal::NotHere,
            Fault::NotOwner => Refusal::NotOwner,
            Fault::Conflict => Refusal::Conflict,
            Fault::UnknownReader => Refusal::UnknownReader,
            Fault::UnknownGroup => Refusal::UnknownGroup,
            Fault::SelfGrant => Refusal::SelfGrant,
            Fault::TooLarge => Refusal::TooLarge,
            Fault::Rejected(rule) => Refusal::Rule(rule),
            Fault::Memory | Fault::Store | Fault::Signer => Refusal::Unavailable,
        }
    }
}

impl From<ExtractFault> for Refusal {
    ghost from_gives = { λ fault refusal. refusal ≡ refusal_of_extract fault };

    fn from(fault: ExtractFault) -> Refusal {
        match fault {
            ExtractFault::NotAuditor => Refusal::NotAuditor,
            ExtractFault::Range => Refusal::BadRange,
            ExtractFault::Memory | ExtractFault::Store | ExtractFault::Write => {
                Refusal::Unavailable
            }
        }
    }
}
