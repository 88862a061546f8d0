//! Why a line says nothing, and why a run ended before the end of its list or recording.

ghost use Rattle.std.specs.Prelude.{◌≡◌};
ghost use Rattle.afdx_input_lines.specs.Faults as spec;

use crate::list_fault::ListFault;
use crate::one_of_two::{OneOfTwo, Which};
use crate::recording_fault::RecordingFault;
use crate::role::Role;
use afdx_frame::Side;
use std::alloc::AllocError;
use thiserror::Error;

/// Why a line says nothing. The first check that is false, in the order below, is the one that is
/// named.
#[derive(Clone, Copy, Debug, PartialEq, Eq)]
pub enum LineFault {
    /// It has another number of fields, an empty field, or a field of another form.
    BadLine,
    /// Its time is over 10^15 ns.
    TimeTooLarge,
    /// Its time is before that of the last line that was read.
    TimeBack,
    /// Its port is not one of 1 to 24, or a cable to another switch is there.
    BadPort,
    /// Its bytes are not pairs of hexadecimal digits.
    BadHex,
}

/// Why a line wasn't read.
#[derive(Clone, Copy, Debug, PartialEq, Eq)]
pub enum LineError {
    /// It says nothing.
    Fault(LineFault),
    /// There was no memory for its bytes.
    Memory,
}

impl From<AllocError> for LineError {
    ghost use Rattle.afdx_input_lines.specs.declared.fault.LineError.TheVariants.{Memory};

    ghost from_gives = { λ _ error. error ≡ Memory };

    fn from(_error: AllocError) -> LineError {
        LineError::Memory
    }
}

/// Why a run ended before the end of its list or recording. Lines are counted from 1, all of them.
///
/// Its text is the line of the fault on standard error, without its line feed.
#[derive(Debug, Drop, PartialEq, Eq, Error)]
pub enum RunFault {
    /// The line of this number has another number of fields, an empty field, or a field of another
    /// form.
    #[error("list BadLine {0}")]
    BadLine(u64),
    /// The bytes of the line of this number are not pairs of hexadecimal digits.
    #[error("list BadHex {0}")]
    BadHex(u64),
    /// The time of the line of this number is before that of the last line that was read.
    #[error("list TimeBack {0}")]
    TimeBack(u64),
    /// The time of the line of this number is over 10^15 ns.
    #[error("list TimeTooLarge {0}")]
    TimeTooLarge(u64),
    /// The port of the line of this number is not one of 1 to 24.
    #[error("list BadPort {0}")]
    BadPort(u64),
    /// The line of this number has more than 4,200 bytes before its line feed.
    #[error("list LineTooLong {0}")]
    LineTooLong(u64),
    /// There is a byte after 1,000,000 lines.
    #[error("list TooManyLines")]
    TooManyLines,
    /// The list or recording could not be read.
    #[error("device Read")]
    Read,
    /// The text could not be written.
    #[error("device Write")]
    Write,
    /// A growth of memory was refused.
    #[error("memory")]
    Memory,
    /// The recording, or a frame of it, has this fault.
    #[error(transparent)]
    Recording(RecordingFault),
    /// One of two inputs that are read at once has this fault.
    #[error(transparent)]
    Of(OneOfTwo),
}

/// Each fault of a run, in the order of `RunFault`: the form of its line (`n` is the number of a
/// line of the list), and what it means, with what may be done. Those of a recording are
/// `RECORDING_FAULTS`; one of two lists has ` came` or ` left` behind the first word, one of two
/// recordings at its end.
pub const RUN_FAULTS: [(&str, &str); 10] = [
    (
        "list BadLine n",
        "\
Not five fields (six of several switches), an empty field, an unknown K, side or switch, a time
or port that isn't all digits.
A line of a frame list is 'K time side port HEX' with K one of F, B and R, and the side A or
B; of several switches it is 'K time side SWITCH port HEX', with the name of one. A line of a
submission list is 'time vl sub udp HEX', with vl and udp at most 65535 and sub at most 255.
Exactly one space stands between two fields.",
    ),
    (
        "list BadHex n",
        "\
An odd number of digits, or another character, in the last field. Two hexadecimal digits
stand for a byte, without spaces between them; - is for no bytes.",
    ),
    (
        "list TimeBack n",
        "\
The time is before that of the last line that was read and not skipped.
Sort the list by time: sort -s -n -k 2,2 for a frame list, -k 1,1 for submissions.",
    ),
    (
        "list TimeTooLarge n",
        "\
The time is over 10^15. It is in ns, so 10^15 are about eleven days and a half.
Count the times of the list from its first line.",
    ),
    (
        "list BadPort n",
        "\
The port isn't 1 to 24, or it is one where a cable joins two switches. It is the field before
HEX, the input port of the switch. What a cable brings is computed, so no list has it.",
    ),
    (
        "list LineTooLong n",
        "\
It has more than 4,200 bytes; a carriage return counts.
A frame has at most 1518 bytes, which are 3036 digits.",
    ),
    (
        "list TooManyLines",
        "\
It is line 1,000,001: a list has at most 1,000,000 lines.
Cut the list in pieces, and replay them one after the other.",
    ),
    (
        "device Read",
        "\
Reading the list failed; also where it is a folder. A read that failed is not tried again.",
    ),
    (
        "device Write",
        "\
Writing to standard output failed: the disk is full, or the command that reads the output
ended before this one. A closed pipe is a failed write, as with '| head'.",
    ),
    (
        "memory",
        "\
There was no memory. The status is 4.
A large buffer in the configuration asks for most of it: for each port of both switches that
has a system, two queues of buffer / 64 places of 16 bytes. Replay one list at a time.",
    ),
];

/// The fault of the list of this role.
fn in_list(role: Role, fault: ListFault) -> RunFault
    ensures { result ≡ spec.in_list role fault }
{
    RunFault::Of(OneOfTwo::List(Which::from(role), fault))
}

impl RunFault {
    ghost use Rattle.afdx_input_lines.specs.Faults.{fault_by_role, fault_of_list, fault_of_network};
    ghost use Rattle.afdx_input_lines.specs.Faults.{fault_of_role, status_of};

    /// The fault of the recording of this network, of two that are read at once.
    pub fn of_network(side: Side, fault: RecordingFault) -> RunFault
        ensures { result ≡ fault_of_network side fault }
    {
        RunFault::Of(OneOfTwo::Recording(Which::from(side), fault))
    }

    /// The fault of the recording of this role, of two that are read at once.
    pub fn of_role(role: Role, fault: RecordingFault) -> RunFault
        ensures { result ≡ fault_of_role role fault }
    {
        RunFault::Of(OneOfTwo::Recording(Which::from(role), fault))
    }

    /// This fault of two recordings, of which the first is that of what came in, and the second
    /// that of what left. One that isn't a recording's stays.
    pub fn by_role(self) -> RunFault
        ensures { result ≡ fault_by_role self }
    {
        match self {
            RunFault::Of(OneOfTwo::Recording(Which::A, fault)) => {
                RunFault::of_role(Role::Came, fault)
            }
            RunFault::Of(OneOfTwo::Recording(Which::B, fault)) => {
                RunFault::of_role(Role::Left, fault)
            }
            other => other,
        }
    }

    /// This fault as that of the list of this role, of two that are read at once. One that isn't a
    /// list's stays.
    pub fn of_list(role: Role, fault: RunFault) -> RunFault
        ensures { result ≡ fault_of_list role fault }
    {
        match fault {
            RunFault::BadLine(n) => in_list(role, ListFault::BadLine(n)),
            RunFault::BadHex(n) => in_list(role, ListFault::BadHex(n)),
            RunFault::TimeBack(n) => in_list(role, ListFault::TimeBack(n)),
            RunFault::TimeTooLarge(n) => in_list(role, ListFault::TimeTooLarge(n)),
            RunFault::BadPort(n) => in_list(role, ListFault::BadPort(n)),
            RunFault::LineTooLong(n) => in_list(role, ListFault::LineTooLong(n)),
            RunFault::TooManyLines => in_list(role, ListFault::TooManyLines),
            other => other,
        }
    }

    /// The exit status of a command that ends with this fault: 3 for a fault of the list or the
    /// recording, 4 for a device or memory.
    pub fn status(&self) -> u8
        ensures { result ≡ status_of self.now }
    {
        match self {
            RunFault::Read | RunFault::Write | RunFault::Memory => 4,
            _ => 3,
        }
    }
}

impl From<(u64, LineError)> for RunFault {
    ghost use Rattle.afdx_input_lines.specs.Faults.{fault_at};

    ghost from_gives = { λ at fault. fault ≡ fault_at at.0 at.1 };

    /// The fault of a run whose line of this number wasn't read for this error.
    fn from((n, error): (u64, LineError)) -> RunFault {
        match error {
            LineError::Fault(LineFault::BadLine) => RunFault::BadLine(n),
            LineError::Fault(LineFault::BadHex) => RunFault::BadHex(n),
            LineError::Fault(LineFault::TimeBack) => RunFault::TimeBack(n),
            LineError::Fault(LineFault::TimeTooLarge) => RunFault::TimeTooLarge(n),
            LineError::Fault(LineFault::BadPort) => RunFault::BadPort(n),
            LineError::Memory => RunFault::Memory,
        }
    }
}

impl From<AllocError> for RunFault {
    ghost use Rattle.afdx_input_lines.specs.declared.fault.RunFault.TheVariants.{Memory};

    ghost from_gives = { λ _ fault. fault ≡ Memory };

    fn from(_error: AllocError) -> RunFault {
        RunFault::Memory
    }
}
