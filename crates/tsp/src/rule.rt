/// The rules by which a request is judged, in their order. The first that fails decides the rejection.
#[derive(Clone, Copy, Debug, PartialEq, Eq)]
pub enum Rule {
    /// The octets are a TimeStampReq, at most 65,536 of them.
    Spelling = 1,
    /// The version is 1.
    Version = 2,
    /// The account is known and active.
    Account = 3,
    /// The hash algorithm is a known one, its parameters absent or NULL.
    Algorithm = 4,
    /// The hash has that algorithm's length.
    HashLength = 5,
    /// The policy is one of the account's.
    Policy = 6,
    /// The policy allows the algorithm.
    PolicyAlgorithm = 7,
    /// The policy knows each extension, none stands twice, and no value is too long.
    Extensions = 8,
    /// Where certReq is true, the policy gives the certificate out.
    Certificate = 9,
    /// The clock is known to be within the accuracy.
    Clock = 10,
    /// The account's quota of the day isn't used up.
    Quota = 11,
    /// Store, signer and memory answered.
    System = 12,
}

impl Rule {
    ghost use Rattle.std.specs.Prelude.{◌≡◌};
    ghost use Rattle.tsp.specs.Rejection.{number_of};

    /// The rule's number, 1 to 12, as rejections give it.
    pub fn number(self) -> u8
        ensures { result ≡ number_of self }
    {
        self as u8
    }
}
