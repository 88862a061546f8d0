//! One line of a frame list of several switches a side.

ghost use Rattle.std.specs.Prelude.{◌≡◌, ◌<◌, ◌≤◌, length, false, string_bytes, get_or};
ghost use Rattle.std.specs.Str.{bytes_eq};
ghost use Rattle.std.specs.Prelude.{None, Ok, Err, IfOk, IfSome, IfErr, IsTrue, OnOk, option_map};
ghost use Rattle.afdx_frame.specs.Ports.{last_port};
ghost use Rattle.afdx_frame.specs.Seals.{IsSealedAs};
ghost use Rattle.afdx_frame.specs.Times.{latest_listed};
ghost use Rattle.afdx_input_lines.specs.Faults.{IsErrorOf};
ghost use Rattle.afdx_input_lines.specs.Forms.{from_six, if_no_more};
ghost use Rattle.afdx_input_lines.specs.SitedLines as spec;
ghost use Rattle.afdx_input_lines.specs.SitedLines.{cable_fault, sited_fault};
ghost use Rattle.afdx_input_lines.specs.SitedLines.{sited_fields, sited_fields_with, sited_fields_of};
ghost use Rattle.afdx_input_lines.specs.SitedLines.{sited_form, sited_frame, sited_line_says, cut_sited};

use crate::fault::{LineError, LineFault};
use crate::fields::{first_error, read_bytes, says_nothing, split_number, trim_line};
use crate::frame_line::{
    Fields, FrameKind, Heading, fault_of_numbers, read_kind, read_side, seal_of,
};
use crate::splitting::first_field;
use afdx_frame::Side;
use std::marker::Model;

/// A switch as frame lists name it, and at which of its ports no frame of a list comes in.
#[derive(Debug, Drop)]
pub struct ListedSwitch {
    name: String,
    cables: Vec<bool>,
}

impl Model for ListedSwitch {
    ghost use Rattle.std.specs.Prelude.{string_bytes};
    ghost use Rattle.afdx_input_lines.specs.SitedLines.{NamedCables};

    ghost Value = { NamedCables };

    ghost view = { λ s. record { name = string_bytes s.name; cables = s.cables.items } };
}

/// Whether two texts may be the same, by their lengths and last bytes. Names of switches often
/// begin alike.
fn may_be_same(one: &[u8], other: &[u8]) -> bool
    ensures { one.now ≡ other.now → IsTrue result }
{
    if one.len() != other.len() {
        return false;
    }
    match (one.last(), other.last()) {
        (Some(x), Some(y)) => *x == *y,
        _ => true,
    }
}

impl ListedSwitch {
    /// A switch of this name. At the place of a port's number, from 0, stands whether a cable to
    /// another switch is there.
    pub fn new(name: String, cables: Vec<bool>) -> ListedSwitch
        ensures name { result.name ≡ string_bytes name }
        ensures cables { result.cables ≡ cables.items }
    {
        ListedSwitch { name, cables }
    }

    fn has_name(&self, name: &[u8]) -> bool
        ensures { result ≡ bytes_eq name.now self.now.name }
    {
        let own = self.name.as_bytes();
        if !may_be_same(name, own) {
            return false;
        }
        name == own
    }

    fn has_cable(&self, port: usize) -> bool
        ensures { result ≡ get_or self.now.cables port false }
    {
        match self.cables.get(port) {
            Some(cable) => *cable,
            None => false,
        }
    }
}

/// The fields of a line: the place of the switch that it names, and the others.
#[derive(Drop)]
struct Sited<'a> {
    switch: usize,
    fields: Fields<'a>,
}

/// The place of the switch of this name. It tries each of them.
#[tactic(auto, unfolding(crate::specs::SitedLines::place_named))]
fn place_named(switches: &[ListedSwitch], name: &[u8]) -> Option<usize>
    ensures place { result ≡ spec.place_named switches.now name.now }
    ensures known { IfSome result (λ place. place < length switches.now) }
{
    switches.iter().position(|switch| switch.has_name(name))
}

/// Whether a cable is at this port of the switch at this place.
#[tactic(auto, unfolding(crate::specs::SitedLines::is_cable_at))]
fn is_cable_at(switches: &[ListedSwitch], place: usize, port: usize) -> bool
    ensures { result ≡ spec.is_cable_at switches.now place port }
{
    match switches.get(place) {
        Some(switch) => switch.has_cable(port),
        None => false,
    }
}

/// The fields, where each could be read.
fn sited_from<'a>(
    kind: Option<FrameKind>,
    time: Option<u64>,
    side: Option<Side>,
    switch: Option<usize>,
    port: Option<u64>,
    digits: &'a [u8],
) -> Option<Sited<'a>>
    ensures { option_map sited_fields_of result
        ≡ from_six sited_fields_with kind time side switch port digits.entry.now }
{
    if digits.is_empty() {
        return None;
    }
    Some(Sited {
        switch: switch?,
        fields: Fields {
            kind: kind?,
            time: time?,
            side: side?,
            port: port?,
            digits,
        },
    })
}

/// The fields of a text. The last one is all that stands behind the fifth space: it isn't searched
/// for a further one.
fn read_sited<'a>(switches: &[ListedSwitch], text: &'a [u8]) -> Option<Sited<'a>>
    ensures fields { if_no_more (sited_form switches.now) (option_map sited_fields_of result)
        ≡ option_map cut_sited (sited_fields switches.now text.entry.now) }
    ensures known { IfSome result (λ sited. sited.switch < length switches.now) }
{
    let (kind, rest) = first_field(text, b' ');
    let Some(text) = rest else {
        return None;
    };
    let (time, rest) = split_number(text);
    let Some(text) = rest else {
        return None;
    };
    let (side, rest) = first_field(text, b' ');
    let Some(text) = rest else {
        return None;
    };
    let (name, rest) = first_field(text, b' ');
    let Some(text) = rest else {
        return None;
    };
    let (port, rest) = split_number(text);
    let Some(digits) = rest else {
        return None;
    };
    let switch = place_named(switches, name);
    sited_from(read_kind(kind), time, read_side(side), switch, port, digits)
}

/// The fault of a port where a cable is: what comes there is computed.
fn fault_of_cable(switches: &[ListedSwitch], place: usize, port: u64) -> Option<LineFault>
    ensures fault { result ≡ cable_fault switches.now place port }
    ensures none { result ≡ None → spec.is_cable_at switches.now place port ≡ false }
{
    if is_cable_at(switches, place, port as usize) {
        Some(LineFault::BadPort)
    } else {
        None
    }
}

/// The first false check of the numbers of a line that names the switch at this place.
fn fault_of_sited(
    switches: &[ListedSwitch],
    place: usize,
    time: u64,
    port: u64,
    latest: u64,
) -> Option<LineFault>
    ensures fault { result ≡ sited_fault switches.now place time port latest }
    ensures time { result ≡ None → time ≤ latest_listed }
    ensures order { result ≡ None → latest ≤ time }
    ensures some_port { result ≡ None → 1 ≤ port }
    ensures port { result ≡ None → port ≤ last_port }
    ensures none { result ≡ None → spec.is_cable_at switches.now place port ≡ false }
{
    match fault_of_numbers(time, port, latest) {
        Some(fault) => Some(fault),
        None => fault_of_cable(switches, place, port),
    }
}

/// What a line says that comes after one of this time and names one of these switches: a frame,
/// whose message is put in the place of `frame`, or nothing if it is to be skipped.
///
/// The line stands without its line feed. An error is the first check of the line that is false, or
/// want of memory: where `frame` can't grow, and no check is false before that of the digits.
/// After an error, and after a line that is skipped, `frame` holds any bytes.
pub fn read_sited_line(
    line: &[u8],
    latest: u64,
    switches: &[ListedSwitch],
    frame: &mut Vec<u8>,
) -> Result<Option<Heading>, LineError>
    requires latest { latest ≤ latest_listed }
    requires few { length switches.now ≤ 24 }
    ensures time { IfOk result (λ heading. IfSome heading (λ h. h.time ≤ latest_listed)) }
    ensures order { IfOk result (λ heading. IfSome heading (λ h. latest ≤ h.time)) }
    ensures site { IfOk result (λ heading. IfSome heading (λ h.
        (h.switch < length switches.now)
        × (spec.is_cable_at switches.now h.switch h.port ≡ false))) }
    ensures some_port { IfOk result (λ heading. IfSome heading (λ h. 1 ≤ h.port)) }
    ensures port { IfOk result (λ heading. IfSome heading (λ h. h.port ≤ last_port)) }
    ensures sealed { IfOk result (λ heading.
        IfSome heading (λ h. IsSealedAs h.seal frame.new.items)) }
    ensures ok { IfOk result (λ heading. sited_line_says switches.now latest line.now
        ≡ Ok (option_map (λ h. sited_frame h frame.new.items) heading)) }
    ensures err { IfErr result (IsErrorOf (sited_line_says switches.now latest line.now)) }
{
    let text = trim_line(line);
    if says_nothing(text) {
        return Ok(None);
    }
    let sited = match read_sited(switches, text) {
        Some(sited) => sited,
        None => return Err(LineError::Fault(LineFault::BadLine)),
    };
    let fields = sited.fields;
    let place = sited.switch;
    if let Some(fault) = fault_of_sited(switches, place, fields.time, fields.port, latest) {
        return Err(first_error(fields.digits, LineError::Fault(fault)));
    }
    if let Err(error) = read_bytes(fields.digits, frame) {
        return Err(first_error(fields.digits, error));
    }
    let seal = seal_of(fields.kind, frame);
    Ok(Some(Heading {
        time: fields.time,
        side: fields.side,
        switch: place as u8,
        port: fields.port as u8,
        seal,
    }))
}
