//! The tables of a network.

use crate::links::LinkTable;
use crate::rows::{ComRow, Link, System, SystemId, Times};
use crate::systems::SystemTable;
use afdx_frame::VlId;
use std::marker::Model;

/// The tables of a switch: what stands at its ports, its links and the communication ports of its
/// systems, each in the order of the file. Every rule of the format holds in them.
///
/// What stands at a port is a system or a neighbour, which is another switch. The systems come
/// first. A neighbour has a port and a rate, and a link may come from it and go to it, but it hears
/// nothing and has no communication ports.
#[derive(Debug)]
pub struct Tables {
    profile: u64,
    buffer: u64,
    own: usize,
    systems: SystemTable,
    links: LinkTable,
    coms: Vec<ComRow>,
}

impl Drop for Tables {
    // (written out, it is one call wherever a value is let go)
    fn drop(self) {
        let Self {
            profile,
            buffer,
            own,
            systems,
            links,
            coms,
        } = self;
    }
}

impl Model for Tables {
    ghost use Rattle.afdx_config.specs.Rows.{Rows, rows_with, port_rows};
    ghost use Rattle.afdx_config.specs.Lawful.{IsLawfulSwitch};

    ghost Value = { Rows };

    ghost view = { λ t.
        rows_with t.profile t.buffer t.own t.systems t.links (port_rows t.coms.items) };

    ghost invariant = { λ t.
        IsLawfulSwitch
        (rows_with t.profile t.buffer t.own t.systems t.links (port_rows t.coms.items)) };
}

impl Tables {
    ghost use Rattle.std.specs.Prelude.{◌≡◌, ◌<◌, ◌≤◌, length, slice_get};
    ghost use Rattle.std.specs.Prelude.{Some, nat_lt, option_map, IfSome};
    ghost use Rattle.afdx_config.specs.Rows.{SystemRow, LinkRow, system_row, link_row, port_row};
    ghost use Rattle.afdx_config.specs.Rows.{port_rows, rows_with, is_to};
    ghost use Rattle.afdx_frame.specs.Regulation.{slowest_byte};
    ghost use Rattle.afdx_config.specs.Admission.{byte_ns};
    ghost use Rattle.afdx_config.specs.Reading.{system_named, system_at_port, link_of, listener_at};
    ghost use Rattle.afdx_config.specs.Lawful.{IsLawful, IsLawfulSwitch, IsSystem, IsLinkUpTo};
    ghost use Rattle.afdx_config.specs.Lawful.{IsLinkAmong, IsPort, IsWithin, jitter_from_any};
    ghost use Rattle.afdx_config.specs.Changed.{with_buffer, with_times, with_link_at};
    ghost use Rattle.afdx_frame.specs.Lengths.{least_frame, greatest_buffer};

    /// The tables of a switch: of what stands at its ports the first `own` are systems.
    pub(crate) fn new(
        profile: u64,
        buffer: u64,
        own: usize,
        systems: SystemTable,
        links: LinkTable,
        coms: Vec<ComRow>,
    ) -> Tables
        requires { IsLawfulSwitch
            (rows_with profile buffer own systems links (port_rows coms.items)) }
        ensures value { result
            ≡ rows_with profile buffer own systems links (port_rows coms.items) }
        ensures alone { own ≡ length systems → IsLawful result }
    {
        Tables {
            profile,
            buffer,
            own,
            systems,
            links,
            coms,
        }
    }

    /// The profile, 1 or 2.
    pub fn profile(&self) -> u64
        ensures profile { result ≡ self.now.profile }
        ensures lawful { IsLawfulSwitch self.now }
    {
        self.profile
    }

    /// The room of each output port, in bytes of waiting frames.
    pub fn buffer(&self) -> u64
        ensures buffer { result ≡ self.now.buffer }
        ensures lawful { IsLawfulSwitch self.now }
    {
        self.buffer
    }

    /// How many systems and neighbours there are, at most 24.
    pub fn system_count(&self) -> usize
        ensures count { result ≡ length self.now.systems }
        ensures lawful { IsLawfulSwitch self.now }
    {
        self.systems.len()
    }

    /// How many of them are systems; they stand before the neighbours.
    pub fn own_count(&self) -> usize
        ensures count { result ≡ self.now.own }
        ensures lawful { IsLawfulSwitch self.now }
    {
        self.own
    }

    /// Whether a system stands at this place, not a neighbour.
    pub fn is_own(&self, id: SystemId) -> bool
        ensures { result ≡ nat_lt id.0 self.now.own }
    {
        (id.0 as usize) < self.own
    }

    /// The system or neighbour at this place.
    pub fn system(&self, id: SystemId) -> &System
        requires { id.0 < length self.now.systems }
        ensures row { slice_get self.now.systems id.0 ≡ Some (system_row result.now) }
        ensures lawful_row { IsSystem self.now.profile (system_row result.now) }
        ensures lawful { IsLawfulSwitch self.now }
    {
        self.systems.at(id)
    }

    /// The time of a byte on the line of the system or neighbour at this place, in ns: 8, 80 or
    /// 800.
    pub fn byte_ns(&self, id: SystemId) -> u64
        requires { id.0 < length self.now.systems }
        ensures time { (s : SystemRow) → slice_get self.now.systems id.0 ≡ Some s →
            result ≡ byte_ns s }
        ensures some { 1 ≤ result }
        ensures small { result ≤ slowest_byte }
    {
        8000 / self.system(id).rate
    }

    /// The system or neighbour of this name, if there is one. A look-up.
    pub fn system_named(&self, name: &str) -> Option<SystemId>
        ensures place { option_map (λ i. i.0) result ≡ system_named self.now.systems name.now }
        ensures known { IfSome result (λ i. i.0 < length self.now.systems) }
    {
        self.systems.named(name)
    }

    /// The system or neighbour at this port of the switch, if there is one. It tries each of them.
    pub fn system_at(&self, port: u8) -> Option<SystemId>
        ensures place { option_map (λ i. i.0) result ≡ system_at_port self.now.systems port }
        ensures known { IfSome result (λ i. i.0 < length self.now.systems) }
        ensures lawful { IsLawfulSwitch self.now }
    {
        self.systems.at_port(port)
    }

    /// The system that hears what leaves this port of the switch, if there is one: a neighbour
    /// hears nothing.
    #[tactic(auto, unfolding(crate::specs::Reading::listener_at))]
    pub fn listener_at(&self, port: u8) -> Option<SystemId>
        ensures place { option_map (λ i. i.0) result ≡ listener_at self.now port }
        ensures known { IfSome result (λ i. i.0 < self.now.own) }
        ensures lawful { IsLawfulSwitch self.now }
    {
        let id = self.system_at(port)?;
        if self.is_own(id) { Some(id) } else { None }
    }

    /// How many links there are, at most 4,096.
    pub fn link_count(&self) -> usize
        ensures count { result ≡ length self.now.links }
        ensures lawful { IsLawfulSwitch self.now }
    {
        self.links.len()
    }

    /// The link at this place, from 0.
    pub fn link(&self, index: usize) -> &Link
        requires { index < length self.now.links }
        ensures row { slice_get self.now.links index ≡ Some (link_row result.now) }
        ensures lawful_row { IsLinkUpTo jitter_from_any (length self.now.systems)
            (link_row result.now) }
        ensures lawful { IsLawfulSwitch self.now }
    {
        self.links.at(index)
    }

    /// The place of the link of this identifier, if there is one. A look-up.
    pub fn link_of(&self, vl: VlId) -> Option<usize>
        ensures place { result ≡ link_of self.now.links vl.0 }
        ensures known { IfSome result (λ i. i < length self.now.links) }
    {
        self.links.of(vl)
    }

    /// Whether the link at this place goes to the system. It tries each of the link's systems.
    pub fn goes_to(&self, link: usize, system: SystemId) -> bool
        requires { link < length self.now.links }
        ensures { (l : LinkRow) → slice_get self.now.links link ≡ Some l →
            result ≡ is_to system.0 l }
    {
        self.links.at(link).goes_to(system)
    }

    /// Changes the buffer of each output port, to so many bytes.
    pub fn set_buffer(&mut self, buffer: u64)
        requires { IsWithin least_frame greatest_buffer buffer }
        ensures changed { self.new ≡ with_buffer buffer self.old }
    {
        self.buffer = buffer;
    }

    /// Changes the times of the link at this place, to ones that the link may have.
    pub fn set_times(&mut self, index: usize, times: Times)
        requires within { index < length self.old.links }
        requires lawful { (l : LinkRow) → slice_get self.old.links index ≡ Some l →
            IsLinkAmong self.old.own (length self.old.systems) (with_times times l) }
        ensures changed { self.new ≡ with_link_at index times self.old }
    {
        self.links.set_times(index, times);
    }

    /// How many communication ports there are, at most 4,096.
    pub fn com_count(&self) -> usize
        ensures count { result ≡ length self.now.ports }
        ensures lawful { IsLawfulSwitch self.now }
    {
        self.coms.len()
    }

    /// The communication port at this place, from 0.
    pub fn com(&self, index: usize) -> &ComRow
        requires { index < length self.now.ports }
        ensures row { slice_get self.now.ports index ≡ Some (port_row result.now) }
        ensures lawful_row { IsPort (length self.now.systems) self.now.links (port_row result.now) }
        ensures lawful { IsLawfulSwitch self.now }
    {
        &self.coms[index]
    }
}
