ghost use Rattle.std.specs.Prelude.{◌^◌, ◌<◌, ◌≤◌};

/// What the program is asked to do.
#[derive(Clone, Copy)]
pub enum Word<'a> {
    /// Answers a request by its TSTInfo, or by the rejection of the first rule that fails.
    Tst(TstWords<'a>),
    /// Counts what a policy file has.
    Check(CheckWords<'a>),
    /// Makes the tables of a new database.
    Init(InitWords<'a>),
    /// Takes a database of an older schema over.
    Migrate(MigrateWords<'a>),
    /// Carries the history on in a new database.
    Continue(ContinueWords<'a>),
    /// Adds a calibration to the database.
    Calibrate(CalibrateWords<'a>),
    /// Adds a hold to the database.
    Hold(HoldWords<'a>),
    /// Answers a request by a token, or by a rejection.
    Answer(AnswerWords<'a>),
    /// Answers one HTTP request.
    Exchange(ExchangeWords<'a>),
    /// Answers HTTP requests at an address.
    Serve(ServeWords<'a>),
    /// Writes an extract of the stamps.
    Audit(AuditWords<'a>),
    /// Explains a stamp.
    Explain(ExplainWords<'a>),
}

/// Who signs.
#[derive(Clone, Copy)]
pub enum SignerWords<'a> {
    /// The stand-in signer, with the key in the file at this path.
    Key(&'a str),
    /// A signer in another process.
    Session {
        /// The address at which it is reached.
        address: &'a str,
        /// The path of its algorithm's file.
        algorithm: &'a str,
    },
}

/// What the words of `answer`, `exchange` and `serve` have in common: what the desk that answers stands on.
#[derive(Clone, Copy)]
pub struct DeskWords<'a> {
    /// The database's path.
    pub db: &'a str,
    /// The policy file's path.
    pub rules: &'a str,
    /// The certificate's path.
    pub certificate: &'a str,
    /// The path of its chain, further certificates, where one is stated.
    pub chain: Option<&'a str>,
    /// Who signs.
    pub signer: SignerWords<'a>,
}

/// The words of `answer`.
#[derive(Clone, Copy)]
pub struct AnswerWords<'a> {
    /// What the desk stands on.
    pub desk: DeskWords<'a>,
    /// The clock's reading, in microseconds.
    pub reading: u64,
    /// The key of the account that asks, where one is stated.
    pub key: Option<&'a str>,
    ghost some_reading: { reading < 2 ^ 63 },
}

/// The words of `exchange`.
#[derive(Clone, Copy)]
pub struct ExchangeWords<'a> {
    /// What the desk stands on.
    pub desk: DeskWords<'a>,
    /// The clock's reading, in microseconds.
    pub reading: u64,
    ghost some_reading: { reading < 2 ^ 63 },
}

/// The words of `serve`.
#[derive(Clone, Copy)]
pub struct ServeWords<'a> {
    /// What the desk stands on.
    pub desk: DeskWords<'a>,
    /// The address that is listened on.
    pub listen: &'a str,
    /// How many connections are served.
    pub connections: u32,
    /// Whether the start, and sessions with the signer, are told on standard error.
    pub tell: bool,
    ghost few: { connections < 2 ^ 32 },
}

/// The words of `audit`.
#[derive(Clone, Copy)]
pub struct AuditWords<'a> {
    /// The database's path.
    pub db: &'a str,
    /// The policy file's path.
    pub rules: &'a str,
    /// The name of the account that asks.
    pub account: &'a str,
    /// The first serial number of the extract.
    pub from: u64,
    /// The last serial number of the extract.
    pub to: u64,
    /// Whether each row is checked as well.
    pub check: bool,
    /// Whether each stamp is judged as well.
    pub judge: bool,
    ghost first: { from < 2 ^ 63 },
    ghost last: { to < 2 ^ 63 },
}

/// The words of `explain`.
#[derive(Clone, Copy)]
pub struct ExplainWords<'a> {
    /// The database's path.
    pub db: &'a str,
    /// The policy file's path.
    pub rules: &'a str,
    /// The stamp's serial number.
    pub serial: u64,
    ghost first_serial: { 1 ≤ serial },
    ghost last_serial: { serial < 2 ^ 63 },
}

/// The words of `init`.
#[derive(Clone, Copy)]
pub struct InitWords<'a> {
    /// The database's path.
    pub db: &'a str,
}

/// The words of `migrate`.
#[derive(Clone, Copy)]
pub struct MigrateWords<'a> {
    /// The database's path.
    pub db: &'a str,
}

/// The words of `continue`.
#[derive(Clone, Copy)]
pub struct ContinueWords<'a> {
    /// The path of the database that is carried on.
    pub from: &'a str,
    /// The new database's path.
    pub db: &'a str,
    /// What later stamps come after, where that is stated; else the last one.
    pub floor: Option<FloorWords>,
}

/// What comes in place of the last stamp, where later ones may have been given than the database has.
#[derive(Clone, Copy)]
pub struct FloorWords {
    /// The serial number above which later ones are.
    pub above: u64,
    /// The moment before which no later genTime is, in microseconds since 1970-01-01T00:00:00Z.
    pub moment: u64,
    ghost first_serial: { 1 ≤ above },
    ghost last_serial: { above < 2 ^ 63 },
    ghost moments: { moment ≤ 253402300799999999 },
}

/// The words of `calibrate`.
#[derive(Clone, Copy)]
pub struct CalibrateWords<'a> {
    /// The database's path.
    pub db: &'a str,
    /// The clock's reading, in microseconds.
    pub reading: u64,
    /// How far the moment is from the reading, in microseconds.
    pub offset: u64,
    /// Whether the moment is before the reading: the offset is minus that number then.
    pub behind: bool,
    /// How far the true moment may be from that one, in microseconds.
    pub uncertainty: u64,
    ghost some_reading: { reading < 2 ^ 63 },
    ghost some_offset: { offset < 2 ^ 63 },
    ghost most_uncertainty: { uncertainty ≤ 1000000000000 },
}

/// The words of `hold`.
#[derive(Clone, Copy)]
pub struct HoldWords<'a> {
    /// The database's path.
    pub db: &'a str,
    /// The first moment that is held, in microseconds since 1970-01-01T00:00:00Z.
    pub from: u64,
    /// The first moment after the hold.
    pub to: u64,
    ghost first: { from < 2 ^ 63 },
    ghost end: { to < 2 ^ 63 },
}

/// The words of `check`.
#[derive(Clone, Copy)]
pub struct CheckWords<'a> {
    /// The policy file's path.
    pub rules: &'a str,
}

/// The words of `tst`.
#[derive(Clone, Copy)]
pub struct TstWords<'a> {
    /// The policy of a request that states none, in dotted text.
    pub policy: &'a str,
    /// The moment, in microseconds since 1970-01-01T00:00:00Z.
    pub moment: u64,
    /// How many fraction digits of a second the moment is rounded down to.
    pub digits: u8,
    /// The serial number.
    pub serial: u64,
    /// The accuracy, in microseconds.
    pub accuracy: u32,
    /// Whether the TSTInfo states that tokens are ordered.
    pub ordering: bool,
    ghost moments: { moment ≤ 253402300799999999 },
    ghost fraction: { digits ≤ 6 },
    ghost first_serial: { 1 ≤ serial },
    ghost last_serial: { serial < 2 ^ 63 },
    ghost some_accuracy: { 1 ≤ accuracy },
    ghost most_accuracy: { accuracy ≤ 1000000 },
}
