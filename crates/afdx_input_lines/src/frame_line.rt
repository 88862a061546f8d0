//! One line of a frame list.

ghost use Rattle.std.specs.Prelude.{◌≡◌, ◌^◌, ◌≤◌, None, Ok, Err, IfOk, IfSome, IfErr, OnOk, option_map};
ghost use Rattle.afdx_frame.specs.Parts.{bytes_of};
ghost use Rattle.afdx_frame.specs.Seals.{whole, IsSealedAs};
ghost use Rattle.afdx_input_lines.specs.Faults.{IsErrorOf};
ghost use Rattle.afdx_frame.specs.Times.{latest_listed};
ghost use Rattle.afdx_input_lines.specs.Forms.{from_five, if_no_more};
ghost use Rattle.afdx_input_lines.specs.FrameLines.{kind_of, side_of, frame_fields, frame_bytes};
ghost use Rattle.afdx_input_lines.specs.FrameLines.{listed_frame, line_says, cut_frame, frame_fields_of};
ghost use Rattle.afdx_input_lines.specs.FrameLines.{frame_fields_with, frame_form, numbers_fault};
ghost use Rattle.afdx_input_lines.specs.FrameLines.{port_fault};
ghost use Rattle.afdx_frame.specs.Ports.{last_port};

use crate::fault::{LineError, LineFault};
use crate::fields::{
    fault_of_time, first_error, read_bytes, says_nothing, split_long_number, split_number,
    trim_line,
};
use crate::splitting::first_field;
use afdx_frame::{Checked, LAST_PORT, Seal, Side, unseal};

/// When and where a frame comes in at a switch.
#[derive(Clone, Copy, Debug, PartialEq, Eq)]
pub struct Heading {
    /// The time of its last bit, in ns, at most 10^15.
    pub time: u64,
    /// The network by which it comes.
    pub side: Side,
    /// The place of its switch among those of its side, from 0; 0 where there is one.
    pub switch: u8,
    /// The port at which it comes in, 1 to 24.
    pub port: u8,
    /// How it is sealed: what follows its message.
    pub seal: Seal,
}

impl Heading {
    /// The frame of this heading that has this message.
    pub fn frame<'a>(&self, message: &'a [u8]) -> Checked<'a>
        requires known { IsSealedAs self.now.seal message.now }
        ensures { bytes_of result ≡ whole self.now.seal message.entry.now }
    {
        Checked {
            message,
            seal: self.seal,
        }
    }
}

/// What is done with the bytes of a line of a frame list.
#[derive(Clone, Copy, Debug, PartialEq, Eq)]
pub enum FrameKind {
    /// `F`: to be sealed
    Good,
    /// `B`: to be sealed with the complement of the check sequence
    Bad,
    /// `R`: taken as they are
    Raw,
}

/// The fields of a line, read as far as their form goes.
#[derive(Drop)]
pub(crate) struct Fields<'a> {
    pub(crate) kind: FrameKind,
    pub(crate) time: u64,
    pub(crate) side: Side,
    pub(crate) port: u64,
    pub(crate) digits: &'a [u8],
}

pub(crate) fn read_kind(text: &[u8]) -> Option<FrameKind>
    ensures { result ≡ kind_of text.now }
{
    match text {
        b"F" => Some(FrameKind::Good),
        b"B" => Some(FrameKind::Bad),
        b"R" => Some(FrameKind::Raw),
        _ => None,
    }
}

pub(crate) fn read_side(text: &[u8]) -> Option<Side>
    ensures { result ≡ side_of text.now }
{
    match text {
        b"A" => Some(Side::A),
        b"B" => Some(Side::B),
        _ => None,
    }
}

/// The fields, where each could be read.
fn fields_from<'a>(
    kind: Option<FrameKind>,
    time: Option<u64>,
    side: Option<Side>,
    port: Option<u64>,
    digits: &'a [u8],
) -> Option<Fields<'a>>
    ensures { option_map frame_fields_of result
        ≡ from_five frame_fields_with kind time side port digits.entry.now }
{
    if digits.is_empty() {
        return None;
    }
    Some(Fields {
        kind: kind?,
        time: time?,
        side: side?,
        port: port?,
        digits,
    })
}

/// The fields of a text. The last one is all that stands behind the fourth space: it isn't searched
/// for a further one.
#[inline(always)]
fn read_fields(text: &[u8]) -> Option<Fields<'_>>
    ensures { if_no_more frame_form (option_map frame_fields_of result)
        ≡ option_map cut_frame (frame_fields text.now) }
{
    let (kind, rest) = first_field(text, b' ');
    let Some(text) = rest else {
        return None;
    };
    let (time, rest) = split_long_number(text);
    let Some(text) = rest else {
        return None;
    };
    let (side, rest) = first_field(text, b' ');
    let Some(text) = rest else {
        return None;
    };
    let (port, rest) = split_number(text);
    let Some(digits) = rest else {
        return None;
    };
    fields_from(read_kind(kind), time, read_side(side), port, digits)
}

/// The fault of a port that is not one of 1 to 24.
fn fault_of_port(port: u64) -> Option<LineFault>
    ensures fault { result ≡ port_fault port }
    ensures some_port { result ≡ None → 1 ≤ port }
    ensures port { result ≡ None → port ≤ last_port }
{
    if port < 1 || port > u64::from(LAST_PORT) {
        Some(LineFault::BadPort)
    } else {
        None
    }
}

/// The first false check of a line's numbers.
pub(crate) fn fault_of_numbers(time: u64, port: u64, latest: u64) -> Option<LineFault>
    ensures fault { result ≡ numbers_fault time port latest }
    ensures time { result ≡ None → time ≤ latest_listed }
    ensures order { result ≡ None → latest ≤ time }
    ensures some_port { result ≡ None → 1 ≤ port }
    ensures port { result ≡ None → port ≤ last_port }
{
    match fault_of_time(time, latest) {
        Some(fault) => Some(fault),
        None => fault_of_port(port),
    }
}

/// How the frame of a line's bytes is sealed; its message is left in `frame`.
pub(crate) fn seal_of(kind: FrameKind, frame: &mut Vec<u8>) -> Seal
    ensures bytes { whole result frame.new.items ≡ frame_bytes kind frame.old.items }
    ensures known { IsSealedAs result frame.new.items }
{
    match kind {
        FrameKind::Good => Seal::Right,
        FrameKind::Bad => Seal::Wrong,
        FrameKind::Raw => unseal(frame),
    }
}

/// What a line says that comes after one of this time: a frame, whose message is put in the place
/// of `frame`, or nothing if it is to be skipped.
///
/// The line stands without its line feed. An error is the first check of the line that is false, or
/// want of memory: where `frame` can't grow, and no check is false before that of the digits.
/// After an error, and after a line that is skipped, `frame` holds any bytes.
#[inline(always)]
pub fn read_frame_line(
    line: &[u8],
    latest: u64,
    frame: &mut Vec<u8>,
) -> Result<Option<Heading>, LineError>
    requires { latest ≤ latest_listed }
    ensures time { IfOk result (λ heading. IfSome heading (λ h. h.time ≤ latest_listed)) }
    ensures order { IfOk result (λ heading. IfSome heading (λ h. latest ≤ h.time)) }
    ensures switch { IfOk result (λ heading. IfSome heading (λ h. h.switch ≡ 0)) }
    ensures some_port { IfOk result (λ heading. IfSome heading (λ h. 1 ≤ h.port)) }
    ensures port { IfOk result (λ heading. IfSome heading (λ h. h.port ≤ last_port)) }
    ensures sealed { IfOk result (λ heading.
        IfSome heading (λ h. IsSealedAs h.seal frame.new.items)) }
    ensures ok { IfOk result (λ heading. line_says latest line.now
        ≡ Ok (option_map (λ h. listed_frame h frame.new.items) heading)) }
    ensures err { IfErr result (IsErrorOf (line_says latest line.now)) }
{
    let text = trim_line(line);
    if says_nothing(text) {
        return Ok(None);
    }
    let fields = match read_fields(text) {
        Some(fields) => fields,
        None => return Err(LineError::Fault(LineFault::BadLine)),
    };
    if let Some(fault) = fault_of_numbers(fields.time, fields.port, latest) {
        return Err(first_error(fields.digits, LineError::Fault(fault)));
    }
    if let Err(error) = read_bytes(fields.digits, frame) {
        return Err(first_error(fields.digits, error));
    }
    let seal = seal_of(fields.kind, frame);
    Ok(Some(Heading {
        time: fields.time,
        side: fields.side,
        switch: 0,
        port: fields.port as u8,
        seal,
    }))
}
