//! A switch of the tables, before anything came.

ghost use Rattle.std.specs.Prelude.{◌≡◌, ℕ, ◌≤◌, ◌<◌, ◌+◌, Option, Some, IfOk, OnOk, IfSome, length, slice_get, vec_len};
ghost use Rattle.afdx_config.specs.Lawful.{IsLawfulSwitch};
ghost use Rattle.afdx_config.specs.Reading.{greatest_delay, link_of, most_links};
ghost use Rattle.afdx_config.specs.Rows.{LinkRow, Rows, link_row};
ghost use Rattle.afdx_frame.specs.Layout.{identifier_count};
ghost use Rattle.afdx_frame.specs.Lengths.{least_frame, greatest_buffer};
ghost use Rattle.afdx_frame.specs.Ports.{last_port};
ghost use Rattle.afdx_frame.specs.declared.link.Side.{Side};
ghost use Rattle.afdx_law_bounds.specs.Outputs.{Row};
ghost use Rattle.afdx_port.specs.Held.{IsByteTime};
ghost use Rattle.afdx_port.specs.Times.{greatest_wait};
ghost use Rattle.afdx_port.specs.declared.port_state.PortState.{PortState};
ghost use Rattle.afdx_switch.specs.HeldFrames.{HeldFrame};
ghost use Rattle.afdx_switch.specs.Tables.{row_of, rows_of, goes_to, byte_ns_at, buffer_at, longest_wait_of};
ghost use Rattle.afdx_switch.specs.Sound.{IsSwitchSound};
ghost use Rattle.afdx_switch.specs.Switching.{IsQuiet, StandsFor, no_calls, last_time, frames_held};
ghost use Rattle.afdx_switch.specs.Lines.{ArePlaces, is_among};
ghost use Rattle.afdx_switch.specs.New.{IsNewLine, IsNewPort};
ghost use Rattle.afdx_switch.specs.declared.line.Line.{Line};

use crate::frame::Frame;
use crate::line::Line;
use crate::switch_state::SwitchState;
use afdx_config::{Link, Tables};
use afdx_frame::{LAST_PORT, LEAST_FRAME, PORT_COUNT, VlId, port_at};
use afdx_police::{LinkAccount, LinkRule};
use afdx_port::{Port, Serving};
use arrayvec::ArrayVec;
use std::alloc::{AllocError, Global};

/// The time of a byte at an output port, in ns.
#[tactic(auto, unfolding(crate::specs::Tables::byte_ns_at))]
fn byte_ns(tables: &Tables, port: u8) -> u64
    ensures is { result ≡ byte_ns_at tables.now port }
    ensures byte_time { IsByteTime result }
{
    match tables.system_at(port) {
        Some(system) => tables.byte_ns(system),
        None => 80,
    }
}

/// The buffer of an output port, in bytes. A port that no system has holds nothing.
#[tactic(auto, unfolding(crate::specs::Tables::buffer_at))]
fn buffer(tables: &Tables, port: u8) -> u64
    ensures is { result ≡ buffer_at tables.now port }
    ensures limits { (least_frame ≤ result) × (result ≤ greatest_buffer) }
{
    match tables.system_at(port) {
        Some(_) => tables.buffer(),
        None => LEAST_FRAME as u64,
    }
}

/// Whether the link at this place goes to the system that has the port.
#[tactic(auto, unfolding(crate::specs::Tables::goes_to))]
fn goes(tables: &Tables, link: usize, port: u8) -> bool
    requires { link < length tables.now.links }
    ensures { (l : LinkRow) → slice_get tables.now.links link ≡ Some l →
        result ≡ goes_to tables.now l port }
{
    match tables.system_at(port) {
        Some(system) => tables.goes_to(link, system),
        None => false,
    }
}

/// How long the frames of a link may wait for their turn, in ns, if there is a limit.
#[tactic(auto, unfolding(crate::specs::Tables::longest_wait_of))]
fn longest_wait(tables: &Tables, link: &Link) -> Option<u64>
    requires { link.now.latency_us ≤ greatest_delay }
    ensures is { result ≡ longest_wait_of tables.now (link_row link.now) }
    ensures small { IfSome result (λ wait. wait ≤ greatest_wait) }
{
    if tables.profile() == 2 {
        Some(1000 * link.latency_us)
    } else {
        None
    }
}

/// The places of the output ports to which the link at this place goes.
fn ports_of(tables: &Tables, link: usize) -> ArrayVec<u8, PORT_COUNT>
    requires { link < length tables.now.links }
    ensures places { ArePlaces result.items }
    ensures each { (l : LinkRow) (place : ℕ) → slice_get tables.now.links link ≡ Some l →
        place < last_port → is_among place result.items ≡ goes_to tables.now l (place + 1) }
{
    let mut places = ArrayVec::new();
    for place in 0..LAST_PORT {
        if goes(tables, link, port_at(place)) {
            places.push(place);
        }
    }
    places
}

/// What the switch keeps of the link at this place.
fn line(tables: &Tables, place: usize) -> Line
    requires { place < length tables.now.links }
    ensures { (l : LinkRow) → slice_get tables.now.links place ≡ Some l →
        IsNewLine (row_of tables.now l) result }
{
    let link = tables.link(place);
    let sender = tables.system(link.from);
    let Some(rule) = LinkRule::after_cable(
        link.vl,
        sender.port,
        link.bag_ms,
        link.lmin,
        link.lmax,
        link.jitter_us,
        link.policing,
    ) else {
        // Never: the reading of the tables kept each value in its range.
        unreachable!();
    };
    Line {
        account: LinkAccount::new(&rule),
        priority: link.priority,
        longest_wait: longest_wait(tables, link),
        goes: ports_of(tables, place),
    }
}

fn new_lines(alloc: Global, tables: &Tables) -> Result<Vec<Line>, AllocError>
    ensures lawful { IsLawfulSwitch tables.now }
    ensures count { IfOk result (λ v. vec_len v ≡ length tables.now.links) }
    ensures each { IfOk result (λ v. (i : ℕ) (l : LinkRow) (line : Line) →
        slice_get tables.now.links i ≡ Some l → slice_get v.items i ≡ Some line →
        IsNewLine (row_of tables.now l) line) }
{
    let mut lines = Vec::new(alloc);
    for place in 0..tables.link_count() {
        lines.push(line(tables, place))?;
    }
    Ok(lines)
}

/// The place of the link of this identifier, if there is one.
fn place_of(tables: &Tables, vl: u16) -> Option<u16>
    requires { length tables.now.links ≤ most_links }
    ensures place { result ≡ link_of tables.now.links vl }
    ensures known { IfSome result (λ i. i < length tables.now.links) }
{
    match tables.link_of(VlId(vl)) {
        Some(place) => Some(place as u16),
        None => None,
    }
}

fn new_places(alloc: Global, tables: &Tables) -> Result<Vec<Option<u16>>, AllocError>
    requires { length tables.now.links ≤ most_links }
    ensures count { IfOk result (λ v. vec_len v ≡ identifier_count) }
    ensures each { IfOk result (λ v. (vl : ℕ) (place : Option ℕ) →
        slice_get v.items vl ≡ Some place → place ≡ link_of tables.now.links vl) }
{
    let mut places = Vec::new(alloc);
    for vl in 0..65536_u32 {
        places.push(place_of(tables, vl as u16))?;
    }
    Ok(places)
}

fn new_ports(alloc: Global, tables: &Tables) -> Result<Vec<Port<Frame>>, AllocError>
    ensures count { IfOk result (λ v. vec_len v ≡ last_port) }
    ensures each { IfOk result (λ v. (i : ℕ) (p : PortState HeldFrame) →
        slice_get v.items i ≡ Some p →
        IsNewPort tables.now i p) }
{
    let mut ports = Vec::new(alloc);
    for place in 0..LAST_PORT {
        let port = port_at(place);
        ports.push(Port::new(alloc, byte_ns(tables, port), buffer(tables, port))?)?;
    }
    Ok(ports)
}

/// What a switch of the tables works with at time 0: full accounts and idle ports.
pub(crate) fn build(alloc: Global, tables: &Tables) -> Result<SwitchState, AllocError>
    ensures lawful { OnOk result (IsLawfulSwitch tables.now) }
    ensures sound { IfOk result (λ w. IsSwitchSound w) }
    ensures stands { (side : Side) → IfOk result (λ w. StandsFor tables.now side w no_calls) }
    ensures quiet { (t : ℕ) → IfOk result (λ w. IsQuiet w t) }
    ensures clock { IfOk result (λ w. last_time w ≡ 0) }
    ensures held { IfOk result (λ w. frames_held w ≡ 0) }
{
    let lines = new_lines(alloc, tables)?;
    let places = new_places(alloc, tables)?;
    let ports = new_ports(alloc, tables)?;
    let serving = Serving::of(&ports);
    let first = serving.first::<Frame>();
    Ok(SwitchState {
        clock: 0,
        lines,
        places,
        ports,
        serving,
        first,
    })
}
