ghost use Rattle.std.specs.{Prelude.◌≡◌, Prelude.◌≤◌, Prelude.◌++◌, Prelude.◌∷◌, Prelude.[], Fmt.decimal};
ghost use Rattle.console.specs.declared.fault.Fault.TheVariants.{Tsp, Cms, Policy, Store, Input};
ghost use Rattle.console.specs.{declared.fault.InputFault.TheVariants.Memory, Fault.fault_of, Files.IsFaultOf};

use crate::output::write_text;
use audit::{ExtractFault, Output};
use book::StoreFault;
use cms::CmsFault;
use der::DerFault;
use hex::FromHexError;
use policy::PolicyFault;
use std::alloc::{AllocError, AllocFailed};
use std::io::ErrorKind;
use tsp::TspFault;

/// Why the program did not do what its words ask for: the part that refused, and its refusal.
#[derive(Clone, Copy)]
pub enum Fault {
    /// An object identifier is malformed.
    Der(DerFault),
    /// Memory ran out over a TSTInfo.
    Tsp(TspFault),
    /// A certificate or an algorithm isn't one, or memory ran out over it or a signer.
    Cms(CmsFault),
    /// The policy file isn't one.
    Policy(PolicyFault),
    /// The database refused, or isn't the counter's.
    Store(StoreFault),
    /// An identity can't be installed.
    Desk(desk::Fault),
    /// An extract is refused.
    Audit(ExtractFault),
    /// The inputs of the program itself.
    Input(InputFault),
}

impl Fault {
    ghost use Rattle.console.specs.Fault.{fault_line, line_beginning, number_of_fault};
    ghost use Rattle.console.specs.Writes.{Begins, IsWhole};

    /// Writes the fault's line, or a beginning of it where standard error fails. It takes no memory.
    pub fn write_line<W: Output>(self, errors: &mut W)
        ensures begun { Begins (W.contents errors.old) (W.contents errors.new) (fault_line self) }
        ensures whole { IsWhole (W.contents errors.old) (W.contents errors.new) (W.failures errors.old)
            (W.failures errors.new) (fault_line self) }
    {
        // Where standard error fails, the status alone tells.
        match write_text(self.line_beginning(), errors) {
            Ok(()) => {
                let _ = write_text(line_end(self.number()), errors);
            }
            Err(_) => {}
        }
    }

    /// How the line begins: the part that refused. The refusal's number and LF follow.
    fn line_beginning(self) -> &'static str
        ensures { result.now ≡ line_beginning self }
    {
        match self {
            Fault::Der(_) => "counter: der ",
            Fault::Tsp(_) => "counter: tsp ",
            Fault::Cms(_) => "counter: cms ",
            Fault::Policy(_) => "counter: policy ",
            Fault::Store(_) => "counter: store ",
            Fault::Desk(_) => "counter: desk ",
            Fault::Audit(_) => "counter: audit ",
            Fault::Input(_) => "counter: input ",
        }
    }

    /// The refusal's number.
    fn number(self) -> u8
        ensures number { result ≡ number_of_fault self }
        ensures most { result ≤ 11 }
    {
        match self {
            Fault::Der(fault) => fault.number(),
            Fault::Tsp(fault) => fault.number(),
            Fault::Cms(fault) => fault.number(),
            Fault::Policy(fault) => fault.number(),
            Fault::Store(fault) => fault.number(),
            Fault::Desk(fault) => fault.number(),
            Fault::Audit(fault) => fault.number(),
            Fault::Input(fault) => fault.number(),
        }
    }
}

impl From<TspFault> for Fault {
    ghost from_gives = { λ fault e. e ≡ Tsp fault };

    fn from(fault: TspFault) -> Fault {
        Fault::Tsp(fault)
    }
}

impl From<CmsFault> for Fault {
    ghost from_gives = { λ fault e. e ≡ Cms fault };

    fn from(fault: CmsFault) -> Fault {
        Fault::Cms(fault)
    }
}

impl From<PolicyFault> for Fault {
    ghost from_gives = { λ fault e. e ≡ Policy fault };

    fn from(fault: PolicyFault) -> Fault {
        Fault::Policy(fault)
    }
}

impl From<StoreFault> for Fault {
    ghost from_gives = { λ fault e. e ≡ Store fault };

    fn from(fault: StoreFault) -> Fault {
        Fault::Store(fault)
    }
}

impl From<InputFault> for Fault {
    ghost from_gives = { λ fault e. e ≡ Input fault };

    fn from(fault: InputFault) -> Fault {
        Fault::Input(fault)
    }
}

/// The number in decimal, and LF.
fn line_end(number: u8) -> &'static str
    requires { number ≤ 11 }
    ensures { result.now ≡ decimal number ++ 0x0a ∷ [] }
{
    match number {
        0 => "0\n",
        1 => "1\n",
        2 => "2\n",
        3 => "3\n",
        4 => "4\n",
        5 => "5\n",
        6 => "6\n",
        7 => "7\n",
        8 => "8\n",
        9 => "9\n",
        10 => "10\n",
        _ => "11\n",
    }
}

/// Why what the program is given can't be used.
#[derive(Clone, Copy)]
pub enum InputFault {
    /// Standard input isn't hexadecimal text.
    NotHexadecimal = 1,
    /// A file can't be read, has a wrong size, or has to be text and isn't UTF-8.
    File = 2,
    /// A hold doesn't begin before it ends.
    Hold = 3,
    /// No account has that key or name, or no stamp that serial number.
    Unknown = 4,
    /// Standard input or output failed, or the clock, or the database or memory in the middle of an extract by
    /// `exchange`.
    Failed = 5,
    /// The address can't be listened on.
    Address = 6,
    /// Memory ran out.
    Memory = 7,
    /// The key holder can't be reached.
    Signer = 8,
    /// What is asked to come after the last stamp of a history doesn't, or there is none.
    NotAfter = 9,
}

impl From<AllocError> for InputFault {
    ghost from_gives = { λ _ fault. fault ≡ Memory };

    fn from(_e: AllocError) -> InputFault {
        InputFault::Memory
    }
}

impl<T: Drop> From<AllocFailed<T>> for InputFault {
    ghost from_gives = { λ _ fault. fault ≡ Memory };

    fn from(_e: AllocFailed<T>) -> InputFault {
        InputFault::Memory
    }
}

/// Memory, and else the file.
impl From<ErrorKind> for InputFault {
    ghost from_gives = { IsFaultOf };

    fn from(kind: ErrorKind) -> InputFault {
        if kind == ErrorKind::OutOfMemory {
            InputFault::Memory
        } else {
            InputFault::File
        }
    }
}

impl From<FromHexError> for InputFault {
    ghost from_gives = { λ error fault. fault ≡ fault_of error };

    fn from(error: FromHexError) -> InputFault {
        match error {
            FromHexError::OutOfMemory => InputFault::Memory,
            _ => InputFault::NotHexadecimal,
        }
    }
}

impl InputFault {
    ghost use Rattle.console.specs.Fault.{number_of};

    /// The refusal's number, 1 to 9.
    fn number(self) -> u8
        ensures { result ≡ number_of self }
    {
        self as u8
    }
}
