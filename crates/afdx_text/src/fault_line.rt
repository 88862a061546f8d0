//! The line of a fault is put together, without memory.

ghost use Rattle.std.specs.Prelude.{◌≡◌, ◌≤◌, ◌+◌, ◌++◌, length, codes};
ghost use Rattle.arrayvec.specs.ArrayString.{array_string_len};
ghost use Rattle.afdx_input_lines.specs.FaultTexts.{fault_text, list_text, numbered};
ghost use Rattle.afdx_input_lines.specs.FaultTexts.{one_of_two_text, recording_text};

use afdx_input_lines::{ListFault, OneOfTwo, RecordingFault, RunFault};
use arrayvec::ArrayString;
use itoa::Buffer;

/// The most bytes of a fault's line: its longest words, a number of 20 digits, and its line feed.
pub(crate) const LONGEST_LINE: usize = 49;

/// Puts a word, and a number behind it.
fn put_numbered(line: &mut ArrayString<LONGEST_LINE>, word: &str, number: u64)
    requires { array_string_len line.old + length word.now + 21 ≤ 49 }
    ensures text { line.new.bytes ≡ line.old.bytes ++ numbered word.now number }
    ensures short { array_string_len line.new ≤ array_string_len line.old + length word.now + 21 }
{
    let mut digits = Buffer::new();
    line.push_str(word);
    line.push_str(" ");
    line.push_str(digits.format(number));
}

/// Puts what is wrong with one of two lists.
fn put_list(line: &mut ArrayString<LONGEST_LINE>, fault: &ListFault)
    requires { array_string_len line.old ≤ 10 }
    ensures text { line.new.bytes ≡ line.old.bytes ++ list_text fault.now }
    ensures short { array_string_len line.new ≤ array_string_len line.old + 33 }
{
    match fault {
        ListFault::BadLine(n) => put_numbered(line, "BadLine", *n),
        ListFault::BadHex(n) => put_numbered(line, "BadHex", *n),
        ListFault::TimeBack(n) => put_numbered(line, "TimeBack", *n),
        ListFault::TimeTooLarge(n) => put_numbered(line, "TimeTooLarge", *n),
        ListFault::BadPort(n) => put_numbered(line, "BadPort", *n),
        ListFault::LineTooLong(n) => put_numbered(line, "LineTooLong", *n),
        ListFault::TooManyLines => line.push_str("TooManyLines"),
    }
}

/// Puts what is wrong with a recording.
fn put_recording(line: &mut ArrayString<LONGEST_LINE>, fault: &RecordingFault)
    requires { array_string_len line.old ≡ 0 }
    ensures text { line.new.bytes ≡ line.old.bytes ++ recording_text fault.now }
    ensures short { array_string_len line.new ≤ 43 }
{
    match fault {
        RecordingFault::NotRecording(n) => put_numbered(line, "recording NotRecording", *n),
        RecordingFault::BadVersion(n) => put_numbered(line, "recording BadVersion", *n),
        RecordingFault::Damaged(n) => put_numbered(line, "recording Damaged", *n),
        RecordingFault::Ended(n) => put_numbered(line, "recording Ended", *n),
        RecordingFault::NoArrival(n) => put_numbered(line, "recording NoArrival", *n),
        RecordingFault::NotEthernet(n) => put_numbered(line, "recording NotEthernet", *n),
        RecordingFault::NoTime(n) => put_numbered(line, "recording NoTime", *n),
        RecordingFault::BadTime(n) => put_numbered(line, "recording BadTime", *n),
        RecordingFault::Cut(n) => put_numbered(line, "recording Cut", *n),
        RecordingFault::FcsUnclear(n) => put_numbered(line, "recording FcsUnclear", *n),
        RecordingFault::TimeBack(n) => put_numbered(line, "recording TimeBack", *n),
        RecordingFault::TimeTooLarge(n) => put_numbered(line, "recording TimeTooLarge", *n),
        RecordingFault::Packed => line.push_str("recording Packed"),
        RecordingFault::Absent(n) => put_numbered(line, "recording Absent", *n),
        RecordingFault::Lossy(n) => put_numbered(line, "recording Lossy", *n),
    }
}

/// Puts what is wrong with one of two inputs, and which it is.
fn put_one_of_two(line: &mut ArrayString<LONGEST_LINE>, fault: &OneOfTwo)
    requires { array_string_len line.old ≡ 0 }
    ensures text { line.new.bytes ≡ line.old.bytes ++ one_of_two_text fault.now }
    ensures short { array_string_len line.new ≤ 48 }
{
    match fault {
        OneOfTwo::Recording(which, fault) => {
            put_recording(line, fault);
            line.push_str(" ");
            line.push_str(which.word());
        }
        OneOfTwo::List(which, fault) => {
            line.push_str("list ");
            line.push_str(which.word());
            line.push_str(" ");
            put_list(line, fault);
        }
    }
}

/// Puts the text of a fault.
pub(crate) fn put_fault(line: &mut ArrayString<LONGEST_LINE>, fault: &RunFault)
    requires { array_string_len line.old ≡ 0 }
    ensures text { line.new.bytes ≡ line.old.bytes ++ fault_text fault.now }
    ensures short { array_string_len line.new ≤ 48 }
{
    match fault {
        RunFault::BadLine(n) => put_numbered(line, "list BadLine", *n),
        RunFault::BadHex(n) => put_numbered(line, "list BadHex", *n),
        RunFault::TimeBack(n) => put_numbered(line, "list TimeBack", *n),
        RunFault::TimeTooLarge(n) => put_numbered(line, "list TimeTooLarge", *n),
        RunFault::BadPort(n) => put_numbered(line, "list BadPort", *n),
        RunFault::LineTooLong(n) => put_numbered(line, "list LineTooLong", *n),
        RunFault::TooManyLines => line.push_str("list TooManyLines"),
        RunFault::Read => line.push_str("device Read"),
        RunFault::Write => line.push_str("device Write"),
        RunFault::Memory => line.push_str("memory"),
        RunFault::Recording(fault) => put_recording(line, fault),
        RunFault::Of(fault) => put_one_of_two(line, fault),
    }
}
