//! One line of a submission list.

ghost use Rattle.std.specs.Prelude.{◌≡◌, ◌⊎◌, ◌^◌, ◌-◌, ◌<◌, ◌≤◌, min, None, Ok, Err, IfOk, IfSome, IfErr, option_map};
ghost use Rattle.afdx_input_lines.specs.Faults.{IsErrorOf};
ghost use Rattle.afdx_frame.specs.Times.{latest_listed};
ghost use Rattle.afdx_input_lines.specs.Forms.{from_five, if_no_more};
ghost use Rattle.afdx_input_lines.specs.SubmissionLines.{at_most, submission_fields, submission_of};
ghost use Rattle.afdx_input_lines.specs.SubmissionLines.{submission_said, cut_submission, submission_form};
ghost use Rattle.afdx_input_lines.specs.SubmissionLines.{submission_fields_of, submission_fields_with};

use crate::fault::{LineError, LineFault};
use crate::fields::{
    fault_of_time, first_error, read_bytes, says_nothing, split_number, trim_line,
};

/// When a message is handed to a sender, and for what.
#[derive(Clone, Copy, Debug, PartialEq, Eq)]
pub struct Handed {
    /// In ns, at most 10^15.
    pub time: u64,
    /// The identifier of its link.
    pub vl: u16,
    /// The sub-VL.
    pub sub: u8,
    /// The UDP port that it goes to.
    pub udp: u16,
}

/// The fields of a line, read as far as their form goes.
#[derive(Drop)]
struct Fields<'a> {
    time: u64,
    vl: u16,
    sub: u8,
    udp: u16,
    digits: &'a [u8],
}

/// A number that isn't over its limit.
fn small_of(number: Option<u64>, limit: u64) -> Option<u64>
    ensures is { result ≡ at_most limit number }
    ensures small { IfSome result (λ n. n ≤ limit) }
{
    match number {
        Some(n) if n <= limit => Some(n),
        _ => None,
    }
}

fn port_of(number: Option<u64>) -> Option<u16>
    ensures { result ≡ at_most 65535 number }
{
    match small_of(number, 65535) {
        Some(n) => Some(n as u16),
        None => None,
    }
}

fn sub_of(number: Option<u64>) -> Option<u8>
    ensures { result ≡ at_most 255 number }
{
    match small_of(number, 255) {
        Some(n) => Some(n as u8),
        None => None,
    }
}

/// The fields, where each could be read.
fn fields_from<'a>(
    time: Option<u64>,
    vl: Option<u16>,
    sub: Option<u8>,
    udp: Option<u16>,
    digits: &'a [u8],
) -> Option<Fields<'a>>
    ensures { option_map submission_fields_of result
        ≡ from_five submission_fields_with time vl sub udp digits.entry.now }
{
    if digits.is_empty() {
        return None;
    }
    Some(Fields {
        time: time?,
        vl: vl?,
        sub: sub?,
        udp: udp?,
        digits,
    })
}

/// The fields of a text. The last one is all that stands behind the fourth space: it isn't searched
/// for a further one.
fn read_fields(text: &[u8]) -> Option<Fields<'_>>
    ensures { if_no_more submission_form (option_map submission_fields_of result)
        ≡ option_map cut_submission (submission_fields text.now) }
{
    let (time, rest) = split_number(text);
    let Some(text) = rest else {
        return None;
    };
    let (vl, rest) = split_number(text);
    let Some(text) = rest else {
        return None;
    };
    let (sub, rest) = split_number(text);
    let Some(text) = rest else {
        return None;
    };
    let (udp, rest) = split_number(text);
    let Some(digits) = rest else {
        return None;
    };
    fields_from(time, port_of(vl), sub_of(sub), port_of(udp), digits)
}

/// What a line says that comes after one of this time: a message, whose bytes are put in the place
/// of `payload`, or nothing if it is to be skipped.
///
/// The line stands without its line feed. An error is the first check of the line that is false, or
/// want of memory: where `payload` can't grow, and no check is false before that of the digits.
/// After an error, and after a line that is skipped, `payload` holds any bytes.
pub fn read_submission_line(
    line: &[u8],
    latest: u64,
    payload: &mut Vec<u8>,
) -> Result<Option<Handed>, LineError>
    requires { latest ≤ latest_listed }
    ensures time { IfOk result (λ handed. IfSome handed (λ h. h.time ≤ latest_listed)) }
    ensures order { IfOk result (λ handed. IfSome handed (λ h. latest ≤ h.time)) }
    ensures ok { IfOk result (λ handed. submission_said latest line.now
        ≡ Ok (option_map (λ h. submission_of h payload.new.items) handed)) }
    ensures err { IfErr result (IsErrorOf (submission_said latest line.now)) }
{
    let text = trim_line(line);
    if says_nothing(text) {
        return Ok(None);
    }
    let fields = match read_fields(text) {
        Some(fields) => fields,
        None => return Err(LineError::Fault(LineFault::BadLine)),
    };
    if let Some(fault) = fault_of_time(fields.time, latest) {
        return Err(first_error(fields.digits, LineError::Fault(fault)));
    }
    if let Err(error) = read_bytes(fields.digits, payload) {
        return Err(first_error(fields.digits, error));
    }
    Ok(Some(Handed {
        time: fields.time,
        vl: fields.vl,
        sub: fields.sub,
        udp: fields.udp,
    }))
}
