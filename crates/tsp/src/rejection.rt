use crate::rule::Rule;

/// The reply to a request that a rule refuses: status 2 (rejection), the one string `rule NN` and the rule's failure
/// bit (RFC 3161 2.4.2). It takes no memory.
#[derive(Clone, Copy, Debug, PartialEq, Eq)]
pub struct Rejection {
    /// The rule that fails.
    pub rule: Rule,
}

impl Rejection {
    ghost use Rattle.std.specs.Prelude.{◌≡◌, ◌≤◌, length};
    ghost use Rattle.der.specs.Node.{encoding};
    ghost use Rattle.tsp.specs.Rejection.{rejection};

    /// The rejection by this rule.
    pub fn of(rule: Rule) -> Rejection
        ensures { result.rule ≡ rule }
    {
        Rejection { rule }
    }

    /// The reply's octets, at most 25.
    #[tactic(auto, unfolding(der::specs::Node::length_octets, der::specs::Number::number_content))]
    pub fn as_slice(&self) -> &'static [u8]
        ensures text { result.now ≡ encoding (rejection self.now.rule) }
        ensures short { length result.now ≤ 25 }
    {
        match self.rule {
            Rule::Spelling =>
                b"\x30\x14\x30\x12\x02\x01\x02\x30\x09\x0c\x07rule 01\x03\x02\x02\x04",
            Rule::Version => b"\x30\x14\x30\x12\x02\x01\x02\x30\x09\x0c\x07rule 02\x03\x02\x05\x20",
            Rule::Account => b"\x30\x14\x30\x12\x02\x01\x02\x30\x09\x0c\x07rule 03\x03\x02\x05\x20",
            Rule::Algorithm =>
                b"\x30\x14\x30\x12\x02\x01\x02\x30\x09\x0c\x07rule 04\x03\x02\x07\x80",
            Rule::HashLength =>
                b"\x30\x14\x30\x12\x02\x01\x02\x30\x09\x0c\x07rule 05\x03\x02\x02\x04",
            Rule::Policy =>
                b"\x30\x15\x30\x13\x02\x01\x02\x30\x09\x0c\x07rule 06\x03\x03\x00\x00\x01",
            Rule::PolicyAlgorithm => {
                b"\x30\x14\x30\x12\x02\x01\x02\x30\x09\x0c\x07rule 07\x03\x02\x07\x80"
            }
            Rule::Extensions => {
                b"\x30\x16\x30\x14\x02\x01\x02\x30\x09\x0c\x07rule 08\x03\x04\x07\x00\x00\x80"
            }
            Rule::Certificate => {
                b"\x30\x16\x30\x14\x02\x01\x02\x30\x09\x0c\x07rule 09\x03\x04\x06\x00\x00\x40"
            }
            Rule::Clock =>
                b"\x30\x15\x30\x13\x02\x01\x02\x30\x09\x0c\x07rule 10\x03\x03\x01\x00\x02",
            Rule::Quota => b"\x30\x14\x30\x12\x02\x01\x02\x30\x09\x0c\x07rule 11\x03\x02\x05\x20",
            Rule::System => {
                b"\x30\x17\x30\x15\x02\x01\x02\x30\x09\x0c\x07rule 12\x03\x05\x06\x00\x00\x00\x40"
            }
        }
    }
}
