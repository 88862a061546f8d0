//! One end system.

ghost use Rattle.std.specs.Prelude.{◌≡◌, ℕ, ◌<◌, ◌∷◌, [], IfOk, List, length};
ghost use Rattle.afdx_config.specs.Rows.{Rows};
ghost use Rattle.afdx_receive.specs.Answers.{answer_of};
ghost use Rattle.afdx_receive.specs.Arrivals.{Arrived};
ghost use Rattle.afdx_end_systems.specs.Handovers.{handed_over, arrival_of};
ghost use Rattle.afdx_end_systems.specs.Receptions.{answer_at};

use crate::handover::Handover;
use afdx_comport::ComPorts;
use afdx_config::{SystemId, Tables};
use afdx_receive::{DropReason, LinkReceiver, Reception};
use std::alloc::{AllocError, Global};

/// An end system: the receiver of its links, and where its communication ports are. A message is
/// told from the frame: what its port would hold and give back is a law
/// (`messages_are_passed_on`), so that nothing is put there.
pub(crate) struct EndSystem {
    pub(crate) name: String,
    pub(crate) receiver: LinkReceiver,
    pub(crate) ports: ComPorts,
}

impl Drop for EndSystem {
    // (written out, it is one call wherever a value is let go)
    fn drop(self) {
        let Self {
            name,
            receiver,
            ports,
        } = self;
    }
}

impl EndSystem {
    ghost use Rattle.afdx_end_systems.specs.StandsFor.{IsAfter};

    /// The system at this place of the tables, at which nothing arrived.
    pub(crate) fn new(
        alloc: Global,
        tables: &Tables,
        system: SystemId,
    ) -> Result<EndSystem, AllocError>
        requires { system.0 < length tables.now.systems }
        ensures stands { IfOk result (λ e. IsAfter tables.now system.0 e []) }
    {
        let name = tables.system(system).name.clone()?;
        let receiver = LinkReceiver::new(alloc, tables, system)?;
        let ports = ComPorts::new(alloc, tables, system)?;
        Ok(EndSystem {
            name,
            receiver,
            ports,
        })
    }

    /// Takes in a frame, and says what became of it.
    #[inline(always)]
    pub(crate) fn receive<'a>(&mut self, handover: Handover<'a>) -> Reception<'a>
        ensures stands { (rows : Rows) (system : ℕ) (past : List Arrived) →
            IsAfter rows system self.old past →
            IsAfter rows system self.new (arrival_of (handed_over handover.entry) ∷ past) }
        ensures answer { (rows : Rows) (system : ℕ) (past : List Arrived) →
            IsAfter rows system self.old past →
            answer_of result ≡ answer_at rows past (handed_over handover.entry) system }
    {
        let Handover {
            side,
            time,
            frame,
            row,
            ..
        } = handover;
        match self.receiver.receive_known(time, side, frame, row) {
            Reception::Dropped(why) => Reception::Dropped(why),
            Reception::Message { vl, udp, bytes } => {
                match self.ports.find_near(row, vl, udp) {
                    Some(_) => Reception::Message { vl, udp, bytes },
                    None => Reception::Dropped(DropReason::NoPort),
                }
            }
        }
    }
}
