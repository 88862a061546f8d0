//! Whose a frame is that came at a port of a switch.

ghost use Rattle.std.specs.Prelude.{◌≡◌, ◌<◌, ℕ, IfOk, IfSome, IsTrue, OnOk, Some};
ghost use Rattle.std.specs.Prelude.{is_some, length, option_map, slice_get, true};
ghost use Rattle.afdx_config.specs.Reading.{listener_at};
ghost use Rattle.afdx_config.specs.Rows.{LinkRow};
ghost use Rattle.afdx_senders.specs.Sites as spec;
ghost use Rattle.afdx_senders.specs.Sites.{among_of, came_at, recorded_in};

use crate::link_places::LinkPlaces;
use crate::recorded_ports::RecordedPorts;
use crate::site_frame::SiteFrame;
use afdx_config::laws::systems_listen;
use afdx_config::{Switches, Tables};
use afdx_frame::VlId;
use std::alloc::{AllocError, Global};

/// Whose a frame is that came at a port of a switch.
#[derive(Clone, Copy, Debug, PartialEq, Eq)]
pub enum SourceOf {
    /// The source's of the link at this place of the tables, whose system stands there.
    Source(usize),
    /// A link's that the system there doesn't send.
    Elsewhere,
    /// A link's that the configuration doesn't have.
    Unknown,
    /// Nobody's: it names no link, or no recorded system stands there.
    Nobody,
}

/// The ports of a switch at which its systems stand, and which of them were recorded; and all
/// switches of the configuration, where it describes several a side.
#[derive(Debug, Drop)]
pub struct SenderSites<'a> {
    pub(crate) tables: &'a Tables,
    pub(crate) among: Option<&'a Switches>,
    pub(crate) recorded: RecordedPorts,
    places: LinkPlaces,
}

/// Whether the link at this place comes from a system of the switch, at this port.
#[tactic(auto, unfolding(crate::specs::Sites::is_sent_at))]
fn is_sent_at(tables: &Tables, place: usize, port: u8) -> bool
    requires { place < length tables.now.links }
    ensures sent { (l : LinkRow) → slice_get tables.now.links place ≡ Some l →
        result ≡ spec.is_sent_at tables.now l port }
    ensures heard { IsTrue result → is_some (listener_at tables.now port) ≡ true }
{
    systems_listen();
    let from = tables.link(place).from;
    tables.is_own(from) && tables.system(from).port == port
}

/// Whose a frame of this link is where its switch has no row of it.
fn sent_beyond(among: Option<&Switches>, vl: VlId) -> SourceOf
    ensures { result ≡ spec.sent_beyond (option_map (λ switches. switches.now) among.entry) vl.0 }
{
    let Some(switches) = among else {
        return SourceOf::Unknown;
    };
    match switches.first_of(vl) {
        Some(_) => SourceOf::Elsewhere,
        None => SourceOf::Unknown,
    }
}

impl<'a> SenderSites<'a> {
    /// Those of the tables, of which these were recorded; among these switches, if there are
    /// several a side.
    pub fn new(
        alloc: Global,
        tables: &'a Tables,
        among: Option<&'a Switches>,
        recorded: RecordedPorts,
    ) -> Result<SenderSites<'a>, AllocError>
        ensures tables { IfOk result (λ sites. sites.tables.now ≡ tables.now) }
        ensures among { IfOk result (λ sites.
            among_of sites ≡ option_map (λ switches. switches.now) among.entry) }
        ensures recorded { IfOk result (λ sites. sites.recorded ≡ recorded) }
    {
        let places = LinkPlaces::new(alloc, tables)?;
        Ok(SenderSites {
            tables,
            among,
            recorded,
            places,
        })
    }

    /// Whose a frame of this link is that came at a port where a system stands.
    fn sent_by(&self, vl: VlId, port: u8) -> SourceOf
        ensures whose { result ≡ spec.sent_by self.now.tables.now (among_of self.now) port vl }
        ensures heard { (place : ℕ) → result ≡ SourceOf.Source place →
            is_some (listener_at self.now.tables.now port) ≡ true }
    {
        match self.places.of(self.tables, vl) {
            Some(place) => {
                if is_sent_at(self.tables, place, port) {
                    SourceOf::Source(place)
                } else {
                    SourceOf::Elsewhere
                }
            }
            None => sent_beyond(self.among, vl),
        }
    }

    /// Whether a system stands at this port, where a frame is so. The source of a link stands
    /// there.
    fn is_heard(&self, whose: SourceOf, port: u8) -> bool
        ensures { ((place : ℕ) → whose ≡ SourceOf.Source place →
            is_some (listener_at self.now.tables.now port) ≡ true) →
            result ≡ is_some (listener_at self.now.tables.now port) }
    {
        if let SourceOf::Source(_) = whose {
            return true;
        }
        self.tables.listener_at(port).is_some()
    }

    /// Whose a frame is.
    pub fn source_of(&self, x: &SiteFrame<'_>) -> SourceOf
        ensures { result ≡ spec.source_of self.now.tables.now (among_of self.now)
            (recorded_in self.now.recorded) (came_at x.now) }
    {
        let Some(vl) = x.vl else {
            return SourceOf::Nobody;
        };
        if !self.recorded.has(x.side, x.port) {
            return SourceOf::Nobody;
        }
        let whose = self.sent_by(vl, x.port);
        if self.is_heard(whose, x.port) {
            whose
        } else {
            SourceOf::Nobody
        }
    }
}
