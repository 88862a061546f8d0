//! A sender of the tables, before anything came.

ghost use Rattle.std.specs.Prelude.{◌≡◌, ℕ, ◌≤◌, ◌<◌, ◌+◌, Option, Some, None, IfOk, length, slice_get, vec_len, filter, nat_eq};
ghost use Rattle.afdx_frame.specs.Layout.{identifier_count};
ghost use Rattle.afdx_config.specs.Admission.{links_from};
ghost use Rattle.afdx_config.specs.Lawful.{IsLinkUpTo, jitter_from_any};
ghost use Rattle.afdx_config.specs.Reading.{most_links};
ghost use Rattle.afdx_config.specs.Rows.{SystemRow, LinkRow, link_row};
ghost use Rattle.afdx_send.specs.declared.line.SystemLink.{SystemLink};
ghost use Rattle.afdx_send.specs.Sender.{IsSenderSound, IsQuiet, KnowsIdle, StandsFor, no_calls, last_time, frames_held};
ghost use Rattle.afdx_send.specs.New.{IsNewLine, AreNewLines, IsPlaceIn};

use crate::agenda::ReleaseAgenda;
use crate::line::SystemLink;
use crate::regulator::Regulator;
use crate::rooms::Rooms;
use crate::sender_state::SenderState;
use afdx_admit::Admitted;
use afdx_config::{Link, SystemId, Tables};
use afdx_law_bounds::laws::tables_are_served;
use afdx_port::Port;
use std::alloc::{AllocError, Global};

/// The bytes that may wait at the output port.
const BUFFER: u64 = 65_536;

/// What the sender keeps of a link.
fn line(alloc: Global, link: &Link) -> Result<SystemLink, AllocError>
    requires { (n : ℕ) × IsLinkUpTo jitter_from_any n (link_row link.now) }
    ensures { IfOk result (λ line. IsNewLine (link_row link.now) line) }
{
    Ok(SystemLink {
        vl: link.vl,
        least: link.lmin as u16,
        longest: link.lmax,
        number: 0,
        regulator: Regulator::new(alloc, 1_000_000 * link.bag_ms, link.subs as usize)?,
    })
}

/// Of each link that the system sends.
fn new_lines(
    alloc: Global,
    tables: &Tables,
    system: SystemId,
) -> Result<Vec<SystemLink>, AllocError>
    ensures new { IfOk result (λ v. AreNewLines (links_from tables.now.links system.0) v.items) }
    ensures count { IfOk result (λ v. vec_len v ≤ most_links) }
{
    let mut lines = Vec::new(alloc);
    for place in 0..tables.link_count() {
        let link = tables.link(place);
        if link.from == system {
            lines.push(line(alloc, link)?)?;
        }
    }
    Ok(lines)
}

/// By identifier, the place of its line.
fn new_places(alloc: Global, lines: &Vec<SystemLink>) -> Result<Vec<Option<u16>>, AllocError>
    requires { vec_len lines.now ≤ most_links }
    ensures count { IfOk result (λ v. vec_len v ≡ identifier_count) }
    ensures each { IfOk result (λ v. (vl : ℕ) (place : Option ℕ) →
        slice_get v.items vl ≡ Some place → IsPlaceIn lines.now.items vl place) }
{
    let mut places = Vec::with_capacity(alloc, 65536)?;
    for _ in 0..65536_u32 {
        places.push(None)?;
    }
    for place in 0..lines.len() {
        places[usize::from(lines[place].vl.0)] = Some(place as u16);
    }
    Ok(places)
}

/// Empty queues and an idle port.
pub(crate) fn build(
    alloc: Global,
    tables: &Admitted,
    system: SystemId,
) -> Result<SenderState, AllocError>
    requires system { system.0 < tables.now.own }
    ensures sound { IfOk result (λ w. IsSenderSound w) }
    ensures knows { IfOk result (λ w. KnowsIdle w) }
    ensures stands { (s : SystemRow) → slice_get tables.now.systems system.0 ≡ Some s →
        IfOk result (λ w. StandsFor w (no_calls tables.now system.0 s)) }
    ensures quiet { (t : ℕ) → IfOk result (λ w. IsQuiet w t) }
    ensures clock { IfOk result (λ w. last_time w ≡ 0) }
    ensures held { IfOk result (λ w. frames_held w ≡ 0) }
{
    // A law, for the proof: what admitted tables let a sender wait with fits its port.
    tables_are_served();
    let (rooms, frame_rooms) = (Rooms::new(alloc), Rooms::new(alloc));
    let tables = tables.tables();
    let row = tables.system(system);
    let lines = new_lines(alloc, tables, system)?;
    let places = new_places(alloc, &lines)?;
    let agenda = ReleaseAgenda::new(alloc, lines.len())?;
    let byte_ns = tables.byte_ns(system);
    let output = Port::new(alloc, byte_ns, BUFFER)?;
    Ok(SenderState {
        system_id: row.id,
        partition: row.partition,
        clock: 0,
        is_idle: false,
        lines,
        places,
        agenda,
        output,
        ready: None,
        rooms,
        frame_rooms,
    })
}
