//! The end systems of a network, by their ports of the switch.

ghost use Rattle.std.specs.Prelude.{◌≡◌, ℕ, ◌∷◌, [], IfOk, List, Option, option_map};
ghost use Rattle.std.specs.Option.{option_map_or};
ghost use Rattle.afdx_config.specs.Rows.{Rows};
ghost use Rattle.afdx_config.specs.Lawful.{IsLawfulSwitch};
ghost use Rattle.afdx_config.specs.Reading.{listener_at};
ghost use Rattle.afdx_receive.specs.Answers.{answer_of};
ghost use Rattle.afdx_receive.specs.Arrivals.{Arrived};
ghost use Rattle.afdx_end_systems.specs.Handovers.{HandedOver, handed_over, arrival_of};
ghost use Rattle.afdx_end_systems.specs.Receptions.{answered, answered_at, name_at, name_of as name_in};
ghost use Rattle.afdx_end_systems.specs.StandsFor.{IsAt};

use crate::end_system::EndSystem;
use crate::handover::Handover;
use afdx_config::Tables;
use afdx_frame::LAST_PORT;
use afdx_receive::Reception;
use std::alloc::{AllocError, Global};

/// The end systems of a network. A contract speaks of them as what they stand for: a list of all
/// frames that were handed over to them, the newest first.
#[derive(Drop)]
pub struct Systems {
    /// By number of their ports, from 0.
    at_ports: Vec<Option<EndSystem>>,
}

/// The system that hears at a port of the switch, if there is one, at which nothing arrived.
fn system_at(alloc: Global, tables: &Tables, port: u8) -> Result<Option<EndSystem>, AllocError>
    ensures built { IfOk result (IsAt tables.now [] (listener_at tables.now port)) }
    ensures lawful { IsLawfulSwitch tables.now }
{
    match tables.listener_at(port) {
        Some(system) => Ok(Some(EndSystem::new(alloc, tables, system)?)),
        None => Ok(None),
    }
}

/// Takes in a frame at the system of a port, if one is there.
#[inline(always)]
fn receive_at<'a>(at: &mut Option<EndSystem>, handover: Handover<'a>) -> Option<Reception<'a>>
    ensures stands { (rows : Rows) (past : List Arrived) (place : Option ℕ) →
        IsAt rows past place at.old →
        IsAt rows (arrival_of (handed_over handover.entry) ∷ past) place at.new }
    ensures answer { (rows : Rows) (past : List Arrived) (place : Option ℕ) →
        IsAt rows past place at.old →
        option_map answer_of result ≡ answered_at rows past (handed_over handover.entry) place }
{
    match at {
        Some(system) => Some(system.receive(handover)),
        None => None,
    }
}

/// The name of the system of a port; empty where none is there.
fn name_of(at: &Option<EndSystem>) -> &str
    ensures { (rows : Rows) (past : List Arrived) (place : Option ℕ) →
        IsAt rows past place at.now → result.now ≡ option_map_or (name_in rows) place [] }
{
    match at {
        Some(system) => system.name.as_str(),
        None => "",
    }
}

impl Systems {
    ghost use Rattle.afdx_end_systems.specs.StandsFor.{StandsFor};

    /// The systems of the tables, at which nothing arrived. Room is taken for all that receivers
    /// and queues will keep, but for the messages. The error is want of memory alone.
    pub fn new(alloc: Global, tables: &Tables) -> Result<Systems, AllocError>
        ensures stands { IfOk result (λ systems. StandsFor tables.now systems []) }
    {
        let mut at_ports = Vec::with_capacity(alloc, usize::from(LAST_PORT) + 1)?;
        for port in 0..=LAST_PORT {
            at_ports.push(system_at(alloc, tables, port)?)?;
        }
        Ok(Systems { at_ports })
    }

    /// Takes in a frame at the system that has its port, and says what the system made of it: a
    /// message, or why it was dropped. `None`: no system hears at
    /// the port.
    ///
    /// A message's bytes, lent by the frame, are what its communication port would give that it is
    /// put to and read from at once: a law, `messages_are_passed_on`, so it is neither put there
    /// nor read back.
    ///
    /// The answer comes from the frames of the same link that were handed over at the same port
    /// before, and from nothing else. It takes no memory.
    #[inline(always)]
    pub fn receive<'a>(&mut self, handover: Handover<'a>) -> Option<Reception<'a>>
        ensures answer { (rows : Rows) (before : List HandedOver) →
            StandsFor rows self.old before →
            option_map answer_of result ≡ answered rows before (handed_over handover.entry) }
        ensures stands { (rows : Rows) (before : List HandedOver) →
            StandsFor rows self.old before →
            StandsFor rows self.new (handed_over handover.entry ∷ before) }
    {
        let place = usize::from(handover.port);
        if place < self.at_ports.len() {
            receive_at(&mut self.at_ports[place], handover)
        } else {
            None
        }
    }

    /// The name of the system that has this port of the switch; empty where no system has it.
    pub fn name_at(&self, port: u8) -> &str
        ensures { (rows : Rows) (before : List HandedOver) →
            StandsFor rows self.now before → result.now ≡ name_at rows port }
    {
        let place = usize::from(port);
        if place < self.at_ports.len() {
            name_of(&self.at_ports[place])
        } else {
            ""
        }
    }
}
