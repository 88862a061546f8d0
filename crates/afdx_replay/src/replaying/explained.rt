//! A replay tells by how much a frame came too early, if there is whom to tell.

ghost use Rattle.std.specs.Prelude.{◌≡◌, ◌∷◌, List, Option};
ghost use Rattle.afdx_config.specs.Rows.{Rows};
ghost use Rattle.afdx_frame.specs.Seals.{IsSealedAs};
ghost use Rattle.afdx_police.specs.Arrival.{Arrival};
ghost use Rattle.afdx_switch.specs.Verdicts.{reason_of};
ghost use Rattle.afdx_network.specs.Events.{Event, arrivals_in};
ghost use Rattle.afdx_network.specs.Network as network_stands;
ghost use Rattle.afdx_input_sources.specs.Items.{arrival_on};
ghost use Rattle.afdx_input_lines.specs.declared.watched.Watched.{Watched as Device};
ghost use Rattle.afdx_replay.specs.replaying.Early.{HearsEarly};

use crate::early::{is_over_rate, tell_early};
use afdx_input_lines::{Heading, Watched};
use afdx_network::Network;
use afdx_police::Reason;
use std::io::Write;

/// Tells of an arrival, if it was dropped for its link's rate and there is whom to tell.
pub(crate) fn explain<D: Write>(
    early: &mut Option<Watched<D>>,
    network: &Network,
    n: u64,
    heading: &Heading,
    message: &[u8],
    reason: Option<Reason>,
)
    requires clock { network_stands.IsUntil network.now heading.now.time }
    requires known { IsSealedAs heading.now.seal message.now }
    ensures { let x = arrival_on n heading.now message.now in
        (t : Rows) (events : List Event) (start : Option (Device D)) (past : List Arrival) →
        network_stands.StandsFor t network.now events → arrivals_in events ≡ x ∷ past →
        reason ≡ reason_of t past x → HearsEarly D.contents t start early.old past →
        HearsEarly D.contents t start early.new (x ∷ past) }
{
    match early {
        Some(drops) => {
            if is_over_rate(reason) {
                let frame = heading.frame(message);
                let wait = network.early(heading.side, heading.time, heading.port, frame);
                tell_early(drops, n, None, wait);
            }
        }
        None => {}
    }
}
