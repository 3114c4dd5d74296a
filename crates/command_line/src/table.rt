//! The subcommands of the program, with their options.
ghost use Rattle.std.specs.Prelude.{◌≡◌, drop, map, take};
ghost use Rattle.command_line.specs.{Options.subcommands, auxiliary.Table.app_in};

use crate::options::{Numbers, OptionRow, Value};

/// A subcommand.
#[derive(Clone, Copy)]
pub struct SubcommandRow {
    /// Its name.
    pub name: &'static str,
    /// Its name after that of the program.
    pub full_name: &'static str,
    /// What it does, in the text of help.
    pub about: &'static str,
    /// Its options, in the order of the text of help.
    pub options: &'static [OptionRow],
}

/// Microseconds since 1970-01-01T00:00:00Z.
pub const MOMENTS: Numbers = Numbers {
    least: 0,
    most: 253_402_300_799_999_999,
};

/// Fraction digits of a second.
pub const DIGITS: Numbers = Numbers { least: 0, most: 6 };

/// Serial numbers.
pub const SERIALS: Numbers = Numbers {
    least: 1,
    most: i64::MAX as u64,
};

/// Microseconds of accuracy.
pub const ACCURACIES: Numbers = Numbers {
    least: 1,
    most: 1_000_000,
};

/// Numbers of 63 bits: a clock's readings, offsets and the bounds of holds, in microseconds, and the bounds of
/// extracts.
pub const WHOLE_NUMBERS: Numbers = Numbers {
    least: 0,
    most: i64::MAX as u64,
};

/// Microseconds of uncertainty.
pub const UNCERTAINTIES: Numbers = Numbers {
    least: 0,
    most: 1_000_000_000_000,
};

/// How many connections are served.
pub const CONNECTIONS: Numbers = Numbers {
    least: 0,
    most: u32::MAX as u64,
};

const DATABASE: OptionRow = OptionRow {
    name: "db",
    value: Value::Text,
    required: true,
    help: "The database",
};

const RULES: OptionRow = OptionRow {
    name: "rules",
    value: Value::Text,
    required: true,
    help: "The policy file",
};

const READING: OptionRow = OptionRow {
    name: "reading",
    value: Value::Number(WHOLE_NUMBERS),
    required: true,
    help: "The clock's reading in microseconds",
};

const CERTIFICATE: OptionRow = OptionRow {
    name: "certificate",
    value: Value::Text,
    required: true,
    help: "The certificate, a DER file",
};

const CHAIN: OptionRow = OptionRow {
    name: "chain",
    value: Value::Text,
    required: false,
    help: "Up to three further certificates, DER one after the other in a file",
};

const SIGNING_KEY: OptionRow = OptionRow {
    name: "signing-key",
    value: Value::Text,
    required: false,
    help: "The key of the stand-in signer, a file; or --signer and --signer-algorithm",
};

const SIGNER: OptionRow = OptionRow {
    name: "signer",
    value: Value::Text,
    required: false,
    help: "The address of a signer in another process, as 127.0.0.1:4000",
};

const SIGNER_ALGORITHM: OptionRow = OptionRow {
    name: "signer-algorithm",
    value: Value::Text,
    required: false,
    help: "The algorithm of that signer, a DER file",
};

const TST: SubcommandRow = SubcommandRow {
    name: "tst",
    full_name: "counter tst",
    about: "Reads a request in hexadecimal, and writes its TSTInfo or its rejection",
    options: &[
        OptionRow {
            name: "policy",
            value: Value::Text,
            required: true,
            help: "The policy where the request states none",
        },
        OptionRow {
            name: "moment",
            value: Value::Number(MOMENTS),
            required: true,
            help: "Microseconds since 1970",
        },
        OptionRow {
            name: "digits",
            value: Value::Number(DIGITS),
            required: true,
            help: "Fraction digits of a second",
        },
        OptionRow {
            name: "serial",
            value: Value::Number(SERIALS),
            required: true,
            help: "The serial number",
        },
        OptionRow {
            name: "accuracy",
            value: Value::Number(ACCURACIES),
            required: true,
            help: "Microseconds of accuracy",
        },
        OptionRow {
            name: "ordering",
            value: Value::Nothing,
            required: false,
            help: "States that tokens are ordered",
        },
    ],
};

const CHECK: SubcommandRow = SubcommandRow {
    name: "check",
    full_name: "counter check",
    about: "Reads a policy file, and writes how many algorithms, extensions, policies and accounts it has",
    options: &[RULES],
};

const INIT: SubcommandRow = SubcommandRow {
    name: "init",
    full_name: "counter init",
    about: "Makes the tables of a new database",
    options: &[DATABASE],
};

const MIGRATE: SubcommandRow = SubcommandRow {
    name: "migrate",
    full_name: "counter migrate",
    about: "Takes over a database that an older version made, with all that it holds",
    options: &[DATABASE],
};

const CONTINUE: SubcommandRow = SubcommandRow {
    name: "continue",
    full_name: "counter continue",
    about: "Closes a database for tokens, and makes a new one that goes on from it",
    options: &[
        OptionRow {
            name: "from",
            value: Value::Text,
            required: true,
            help: "The database that is carried on",
        },
        OptionRow {
            name: "db",
            value: Value::Text,
            required: true,
            help: "The new database",
        },
        OptionRow {
            name: "above",
            value: Value::Number(SERIALS),
            required: false,
            help: "A serial number above which later ones are, in place of the last one; with --moment",
        },
        OptionRow {
            name: "moment",
            value: Value::Number(MOMENTS),
            required: false,
            help: "Microseconds since 1970 before which no later genTime is; with --above",
        },
    ],
};

const CALIBRATE: SubcommandRow = SubcommandRow {
    name: "calibrate",
    full_name: "counter calibrate",
    about: "Adds a calibration of the clock to the database",
    options: &[
        DATABASE,
        READING,
        OptionRow {
            name: "offset",
            value: Value::Number(WHOLE_NUMBERS),
            required: true,
            help: "Microseconds from the reading to the moment since 1970",
        },
        OptionRow {
            name: "behind",
            value: Value::Nothing,
            required: false,
            help: "The moment is before the reading: the offset is negative",
        },
        OptionRow {
            name: "uncertainty",
            value: Value::Number(UNCERTAINTIES),
            required: true,
            help: "Microseconds by which that moment may be wrong",
        },
    ],
};

const HOLD: SubcommandRow = SubcommandRow {
    name: "hold",
    full_name: "counter hold",
    about: "Adds a hold to the database: moments at which no token is given",
    options: &[
        DATABASE,
        OptionRow {
            name: "from",
            value: Value::Number(WHOLE_NUMBERS),
            required: true,
            help: "The first moment, in microseconds since 1970",
        },
        OptionRow {
            name: "to",
            value: Value::Number(WHOLE_NUMBERS),
            required: true,
            help: "The first moment after the hold",
        },
    ],
};

pub const ANSWER: SubcommandRow = SubcommandRow {
    name: "answer",
    full_name: "counter answer",
    about: "Reads a request in hexadecimal, and writes its token or its rejection",
    options: &[
        DATABASE,
        RULES,
        CERTIFICATE,
        CHAIN,
        SIGNING_KEY,
        SIGNER,
        SIGNER_ALGORITHM,
        READING,
        OptionRow {
            name: "key",
            value: Value::Text,
            required: false,
            help: "The account's key; without it the anonymous account asks",
        },
    ],
};

pub const EXCHANGE: SubcommandRow = SubcommandRow {
    name: "exchange",
    full_name: "counter exchange",
    about: "Reads one HTTP request from standard input, and writes its answer",
    options: &[
        DATABASE,
        RULES,
        CERTIFICATE,
        CHAIN,
        SIGNING_KEY,
        SIGNER,
        SIGNER_ALGORITHM,
        READING,
    ],
};

pub const SERVE: SubcommandRow = SubcommandRow {
    name: "serve",
    full_name: "counter serve",
    about: "Answers HTTP requests at an address",
    options: &[
        DATABASE,
        RULES,
        CERTIFICATE,
        CHAIN,
        SIGNING_KEY,
        SIGNER,
        SIGNER_ALGORITHM,
        OptionRow {
            name: "listen",
            value: Value::Text,
            required: true,
            help: "The address to listen on, as 127.0.0.1:8080",
        },
        OptionRow {
            name: "connections",
            value: Value::Number(CONNECTIONS),
            required: true,
            help: "How many connections are served; their requests are answered one at a time",
        },
        OptionRow {
            name: "tell",
            value: Value::Nothing,
            required: false,
            help: "Tells of the start, and of sessions with the signer, on standard error",
        },
    ],
};

const AUDIT: SubcommandRow = SubcommandRow {
    name: "audit",
    full_name: "counter audit",
    about: "Writes the stamps of a range of serial numbers as comma-separated values",
    options: &[
        DATABASE,
        RULES,
        OptionRow {
            name: "account",
            value: Value::Text,
            required: true,
            help: "The name of the account that asks, an auditor",
        },
        OptionRow {
            name: "from",
            value: Value::Number(WHOLE_NUMBERS),
            required: true,
            help: "The first serial number",
        },
        OptionRow {
            name: "to",
            value: Value::Number(WHOLE_NUMBERS),
            required: true,
            help: "The last serial number",
        },
        OptionRow {
            name: "check",
            value: Value::Nothing,
            required: false,
            help: "Checks each row, and names those that fail",
        },
        OptionRow {
            name: "judge",
            value: Value::Nothing,
            required: false,
            help: "Judges each stamp by the policy file, and names those that it doesn't give",
        },
    ],
};

const EXPLAIN: SubcommandRow = SubcommandRow {
    name: "explain",
    full_name: "counter explain",
    about: "Writes what a stamp was asked by, and how each rule of the policy file judges it",
    options: &[
        DATABASE,
        RULES,
        OptionRow {
            name: "serial",
            value: Value::Number(SERIALS),
            required: true,
            help: "The stamp's serial number",
        },
    ],
};

// The subcommands stand in two tables, since the proof of a table grows by the square of its length.

static FIRST_ROWS: [SubcommandRow; 6] = [TST, CHECK, INIT, MIGRATE, CONTINUE, CALIBRATE];

static LAST_ROWS: [SubcommandRow; 6] = [HOLD, ANSWER, EXCHANGE, SERVE, AUDIT, EXPLAIN];

/// The first six subcommands, in the order of the text of help.
pub fn first_rows() -> &'static [SubcommandRow]
    ensures { map app_in result.now ≡ take 6 subcommands }
{
    &FIRST_ROWS
}

/// Those behind them.
pub fn last_rows() -> &'static [SubcommandRow]
    ensures { map app_in result.now ≡ drop 6 subcommands }
{
    &LAST_ROWS
}
