//! The ports of one end system.

ghost use Rattle.std.specs.Prelude.{◌≡◌, ◌↔◌, ◌<◌, Some, Err, IfOk, IfSome, OnOk, OnErr, IsTrue};
ghost use Rattle.std.specs.Prelude.{length};
ghost use Rattle.std.specs.Prelude.{position, slice_get, slice_set, option_map};
ghost use Rattle.std.specs.Vec.{vec_capacity};
ghost use Rattle.afdx_comport.specs.Held.{is_full, with_message, sample_of, first_of};
ghost use Rattle.afdx_comport.specs.Held.{without_first, with_spare, has_spare};
ghost use Rattle.afdx_comport.specs.declared.fault.PutFault.TheVariants.{Full, Memory};

use crate::fault::PutFault;
use crate::held::{PortMemory, Queue};
use afdx_config::{ComRow, Kind, SystemId, Tables};
use afdx_frame::VlId;
use std::alloc::{AllocError, Global};
use std::collections::HashMap;
use std::marker::Model;

/// A port of the system.
#[derive(Drop)]
pub(crate) struct ComPort {
    pub(crate) link: VlId,
    pub(crate) udp: u16,
    pub(crate) held: PortMemory,
}

impl ComPort {
    ghost use Rattle.afdx_config.specs.Rows.{port_row};
    ghost use Rattle.afdx_comport.specs.Ports.{port_at_first};

    /// A port that holds nothing.
    fn new(alloc: Global, row: &ComRow) -> Result<ComPort, AllocError>
        ensures { IfOk result (λ port. port ≡ port_at_first (port_row row.now)) }
    {
        let held = match row.kind {
            Kind::Sampling => PortMemory::Sampling(None),
            Kind::Queuing => PortMemory::Queuing(Queue::new(alloc, row.depth as usize)?),
        };
        Ok(ComPort {
            link: row.link,
            udp: row.udp,
            held,
        })
    }
}

/// The communication ports of an end system (ARINC 664 Part 7). A contract sees them as a list of
/// ports in the order of the tables, each with its link, its UDP port, the messages that it holds
/// and the room that a message which was given back leaves for the next one.
pub struct ComPorts {
    alloc: Global,
    places: HashMap<(VlId, u16), usize>,
    ports: Vec<ComPort>,
    /// By the row of a link in the tables, the place where its port is looked for first. Nothing
    /// rests on it.
    hints: Vec<u16>,
}

impl Drop for ComPorts {
    // (written out, it is one call wherever a value is let go)
    fn drop(self) {
        let Self {
            alloc,
            places,
            ports,
            hints,
        } = self;
    }
}

impl Model for ComPorts {
    ghost use Rattle.std.specs.Prelude.{List};
    ghost use Rattle.afdx_comport.specs.Ports.{PlacesAreOf, AreFound};
    ghost use Rattle.afdx_comport.specs.declared.com_ports.ComPort.{ComPort};

    ghost Value = { List ComPort };

    ghost view = { λ c. c.ports.items };

    ghost invariant = { λ c. PlacesAreOf c.places c.ports.items × AreFound c.ports.items };
}

/// Notes where to look for the port of the link in this row first.
fn note(hints: &mut [u16], row: Option<usize>, place: usize) {
    let (Some(row), Ok(place)) = (row, u16::try_from(place)) else {
        return;
    };
    if row < hints.len() {
        hints[row] = place;
    }
}

impl ComPorts {
    ghost use Rattle.afdx_comport.specs.Ports.{ports_at_first, is_for};
    ghost use Rattle.afdx_comport.specs.declared.com_ports.ComPort.{ComPort};

    /// The communication ports that the tables give the system, in the order of the tables. They
    /// hold nothing. Room is taken for each queue's depth, and for looking ports up. The error is
    /// want of memory alone.
    pub fn new(alloc: Global, tables: &Tables, system: SystemId) -> Result<ComPorts, AllocError>
        ensures ports { IfOk result (λ ports. ports ≡ ports_at_first system.0 tables.now.ports) }
    {
        let mut places = HashMap::new(alloc);
        let mut ports = Vec::new(alloc);
        let mut hints = Vec::new(alloc);
        hints.resize(tables.link_count(), 0)?;
        let count = tables.com_count();
        for index in 0..count {
            let row = tables.com(index);
            if row.system == system {
                let place = ports.len();
                note(&mut hints, tables.link_of(row.link), place);
                places.insert((row.link, row.udp), place)?;
                ports.push(ComPort::new(alloc, row)?)?;
            }
        }
        Ok(ComPorts {
            alloc,
            places,
            ports,
            hints,
        })
    }

    /// The place of the port of a link and a UDP port, or `None` if the system has no such port. It
    /// is a look-up, and takes no memory.
    #[inline(always)]
    pub fn find(&self, link: VlId, udp: u16) -> Option<usize>
        ensures place { result ≡ position (is_for link.0 udp) self.now }
        ensures known { IfSome result (λ place. place < length self.now) }
    {
        self.places.get(&(link, udp)).copied()
    }

    /// Whether the port of a link and a UDP port is at this place.
    #[inline(always)]
    fn is_at(&self, place: usize, link: VlId, udp: u16) -> bool
        ensures { IsTrue result →
            (position (is_for link.0 udp) self.now ≡ Some place) × (place < length self.now) }
    {
        place < self.ports.len() && self.ports[place].link == link && self.ports[place].udp == udp
    }

    /// The place of the port of a link and a UDP port, as `find` says. If `row` is where the tables
    /// have the link, and the system has one port for it, it is found without the look-up. The
    /// answer is the same whatever it is.
    #[inline(always)]
    pub fn find_near(&self, row: u16, link: VlId, udp: u16) -> Option<usize>
        ensures place { result ≡ position (is_for link.0 udp) self.now }
        ensures known { IfSome result (λ place. place < length self.now) }
    {
        let row = row as usize;
        if row < self.hints.len() {
            let place = self.hints[row] as usize;
            if self.is_at(place, link, udp) {
                return Some(place);
            }
        }
        self.find(link, udp)
    }

    /// Puts a message that comes at `time`, in ns, to the port at this place. A sampling port keeps
    /// it in place of the one before, a queuing port puts it behind the others.
    ///
    /// `Full` comes exactly where a queue holds as many messages as its depth, and before any
    /// memory is asked for; else `Memory` comes where the room for the message's bytes is refused,
    /// and never where a message that was given back has room for them. After an error every port
    /// is as it was, and after `Ok` every other port.
    pub fn put(&mut self, port: usize, time: u64, message: &[u8]) -> Result<(), PutFault>
        requires { port < length self.old }
        ensures full { (p : ComPort) → slice_get self.old port ≡ Some p →
            (result ≡ Err Full) ↔ IsTrue (is_full p.held) }
        ensures ok { (p : ComPort) → slice_get self.old port ≡ Some p →
            OnOk result
            (self.new
            ≡ slice_set self.old port (record p { held = with_message time message.now p.held })) }
        ensures err { OnErr result (self.new ≡ self.old) }
        ensures spared { (p : ComPort) → slice_get self.old port ≡ Some p →
            IsTrue (has_spare (length message.now) p.held) → ¬ (result ≡ Err Memory) }
        ensures count { length self.new ≡ length self.old }
    {
        let alloc = self.alloc;
        self.ports[port].held.put(alloc, time, message)
    }

    /// The newest message of the sampling port at this place, and the time at which it came, in ns.
    /// It stays. `None` if nothing came yet, and at a queuing port. It takes no memory.
    pub fn read_sample(&self, port: usize) -> Option<(u64, &[u8])>
        requires { port < length self.now }
        ensures sample { (p : ComPort) → slice_get self.now port ≡ Some p →
            option_map (λ s. record { time = s.0; bytes = s.1.now }) result ≡ sample_of p.held }
    {
        self.ports[port].held.sample()
    }

    /// Takes the oldest message out of the queuing port at this place. `None` if the queue is
    /// empty, and at a sampling port. Every other port stays as it was. It takes no memory.
    pub fn take_queued(&mut self, port: usize) -> Option<Vec<u8>>
        requires { port < length self.old }
        ensures first { (p : ComPort) → slice_get self.old port ≡ Some p →
            option_map (λ m. m.items) result ≡ first_of p.held }
        ensures rest { (p : ComPort) → slice_get self.old port ≡ Some p →
            self.new ≡ slice_set self.old port (record p { held = without_first p.held }) }
        ensures count { length self.new ≡ length self.old }
    {
        self.ports[port].held.take()
    }

    /// Gives the queuing port at this place a message back that was taken out of it, when its bytes
    /// were read: the next one is put into its room, and takes no memory where that is enough
    /// (clause `spared` of `put`). The messages that the ports hold stay the same.
    pub fn give_back(&mut self, port: usize, message: Vec<u8>)
        requires { port < length self.old }
        ensures spare { (p : ComPort) → slice_get self.old port ≡ Some p →
            self.new
            ≡ slice_set self.old port
            (record p { held = with_spare (vec_capacity message) p.held }) }
        ensures count { length self.new ≡ length self.old }
    {
        self.ports[port].held.give_back(message);
    }
}
