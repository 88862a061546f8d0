//! The receiving side of an end system.

ghost use Rattle.std.specs.Prelude.{◌≡◌, ℕ, List, [], IsTrue, IfOk};
ghost use Rattle.afdx_config.specs.Rows.{Rows};
ghost use Rattle.afdx_frame.specs.Parts.{bytes_of};
ghost use Rattle.afdx_receive.specs.Arrivals.{Arrived, arrived};
ghost use Rattle.afdx_receive.specs.Answers.{answer_of, is_ignored};
ghost use Rattle.afdx_receive.specs.StandsFor.{StandsFor, Receives, PortsStandFor};

use crate::link_receiver::LinkReceiver;
use crate::reception::{DropReason, Reception};
use afdx_config::{SystemId, Tables};
use afdx_frame::{Checked, Side, VlId};
use std::alloc::{AllocError, Global};
use std::collections::HashSet;

/// Where a message goes: a link, and a UDP port on it.
#[derive(Clone, Copy, Debug, PartialEq, Eq, Hash)]
pub(crate) struct Endpoint {
    pub(crate) link: VlId,
    pub(crate) udp: u16,
}

/// The receiving side of an end system (ARINC 664 Part 7). Of each link that goes to the system it
/// keeps the number of the frame that came last on each network, valid or not, and the number and
/// time of the frame that won last. A contract speaks of it as what it stands for: a list of all
/// that arrived, the newest first.
pub struct Receiver {
    links: LinkReceiver,
    ports: HashSet<Endpoint>,
}

impl Drop for Receiver {
    // (written out, it is one call wherever a value is let go)
    fn drop(self) {
        let Self { links, ports } = self;
    }
}

/// The ports of the system.
fn ports_of(
    alloc: Global,
    tables: &Tables,
    system: SystemId,
) -> Result<HashSet<Endpoint>, AllocError>
    ensures { IfOk result (PortsStandFor tables.now system.0) }
{
    let mut ports = HashSet::new(alloc);
    let count = tables.com_count();
    for index in 0..count {
        let port = tables.com(index);
        if port.system == system {
            ports.insert(Endpoint {
                link: port.link,
                udp: port.udp,
            })?;
        }
    }
    Ok(ports)
}

impl Receiver {
    /// A receiver of the system, to which nothing arrived. It takes room for all that it will keep,
    /// and, to find links by their identifiers, a table of those near them. The error is want of
    /// memory alone.
    pub fn new(alloc: Global, tables: &Tables, system: SystemId) -> Result<Receiver, AllocError>
        ensures stands { IfOk result (λ receiver. StandsFor tables.now system.0 receiver []) }
    {
        let links = LinkReceiver::new(alloc, tables, system)?;
        let ports = ports_of(alloc, tables, system)?;
        Ok(Receiver { links, ports })
    }

    /// Takes in what arrives at `time`, in ns, by one of the two networks: the payload of a frame
    /// that wins, lent from the bytes, or the first reason of `DropReason` that is true of it.
    ///
    /// The network is the one by which the frame came, whatever its source address says. The answer
    /// comes from the frames of the same link that arrived before, and from nothing else. Bytes
    /// that are no frame, and frames of links that don't go to the system, leave the receiver as it
    /// was. A frame that wins counts as the last winner also where its datagram or its UDP port is
    /// refused. It reads the check sequence and takes no memory: a frame's link is found by its
    /// identifier without a search, and a message costs one look-up of its UDP port.
    pub fn receive<'a>(&mut self, time: u64, side: Side, bytes: &'a [u8]) -> Reception<'a>
        ensures received { (tables : Rows) (system : ℕ) (past : List Arrived) →
            StandsFor tables system self.old past →
            let x = arrived time side bytes.now in
            Receives tables system past x (answer_of result) self.new }
        ensures unchanged { IsTrue (is_ignored (answer_of result)) → self.new ≡ self.old }
    {
        self.receive_checked(time, side, Checked::new(bytes))
    }

    /// Takes in bytes whose check sequence has been looked at, as `receive` does. It isn't read
    /// again.
    pub fn receive_checked<'a>(
        &mut self,
        time: u64,
        side: Side,
        frame: Checked<'a>,
    ) -> Reception<'a>
        ensures received { (tables : Rows) (system : ℕ) (past : List Arrived) →
            StandsFor tables system self.old past →
            let x = arrived time side (bytes_of frame.entry) in
            Receives tables system past x (answer_of result) self.new }
        ensures unchanged { IsTrue (is_ignored (answer_of result)) → self.new ≡ self.old }
    {
        match self.links.receive(time, side, frame, 0) {
            Reception::Dropped(why) => Reception::Dropped(why),
            Reception::Message { vl, udp, bytes } => {
                let to = Endpoint { link: vl, udp };
                if !self.ports.contains(&to) {
                    return Reception::Dropped(DropReason::NoPort);
                }
                Reception::Message { vl, udp, bytes }
            }
        }
    }
}
