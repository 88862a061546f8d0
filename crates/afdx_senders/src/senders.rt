//! The systems of a switch, judged as senders while frames come at its ports.

ghost use Rattle.std.specs.Prelude.{◌≡◌, ◌<◌, ◌∷◌, ◌^◌, ℕ, List, [], None, Option, Some};
ghost use Rattle.std.specs.Prelude.{IfOk, IsSome, OnErr, OnOk, length, option_map, slice_get};
ghost use Rattle.afdx_config.specs.Rows.{LinkRow};
ghost use Rattle.afdx_conform.specs.LeewayOf.{leeway_of};
ghost use Rattle.afdx_lawful.specs.Tallies.{counted};
ghost use Rattle.afdx_lawful.specs.Ways.{IsApart};
ghost use Rattle.afdx_police.specs.Arrival.{Arrival};
ghost use Rattle.afdx_senders.specs.Counting.{lines_left};
ghost use Rattle.afdx_senders.specs.History.{HaveTold, IsNoSooner, TellsNext};
ghost use Rattle.afdx_senders.specs.Lines.{Line};
ghost use Rattle.afdx_senders.specs.Settling.{IsEnd};
ghost use Rattle.afdx_senders.specs.SenderCounts.{alone_in, cut_in, is_one_sided, sent_in};
ghost use Rattle.afdx_senders.specs.Setups.{JudgesToo, Setup, nobody, setup_with, source_at};
ghost use Rattle.afdx_senders.specs.Sites.{came_at, recorded_in};
ghost use Rattle.afdx_senders.specs.Telling.{HaveBegun};
ghost use Rattle.afdx_senders.specs.Terms.{Asked as What, terms_at};

use crate::agenda::SourceAgenda;
use crate::followed::FollowedSources;
use crate::found_lines::FoundLines;
use crate::recorded_ports::RecordedPorts;
use crate::sender_line::SenderLine;
use crate::site_frame::SiteFrame;
use crate::sites::SenderSites;
use afdx_config::{Switches, Tables};
use afdx_conform::{Leeway, Spare};
use afdx_lawful::{Apart, SourceCounts};
use std::alloc::{AllocError, Global};

/// The systems of a switch as senders: the sources that are followed, what was found of their
/// frames and isn't told yet, and when frames of each wait no longer.
#[derive(Drop)]
pub struct Senders<'a> {
    pub(crate) sites: SenderSites<'a>,
    pub(crate) spare: Spare,
    pub(crate) kept: FollowedSources,
    pub(crate) found: FoundLines,
    pub(crate) agenda: SourceAgenda,
}

impl<'a> Senders<'a> {
    /// Those of the tables, where these ports were recorded; `among` are all switches of the
    /// configuration, where it describes several a side. None is judged yet. Fails only out of
    /// memory.
    pub fn new(
        alloc: Global,
        tables: &'a Tables,
        among: Option<&'a Switches>,
        recorded: RecordedPorts,
    ) -> Result<Senders<'a>, AllocError>
        ensures nothing { (k : What) (before : Option ℕ) → IfOk result (λ senders.
            HaveTold (setup_with tables.now (option_map (λ switches. switches.now) among.entry)
            (recorded_in recorded) k nobody) before [] [] senders) }
        ensures tables { IfOk result (λ senders. senders.sites.tables.now ≡ tables.now) }
        ensures room { IfOk result (λ senders.
            length senders.kept.slots.items ≡ length tables.now.links) }
    {
        let sites = SenderSites::new(alloc, tables, among, recorded)?;
        let kept = FollowedSources::new(alloc, tables.link_count())?;
        Ok(Senders {
            sites,
            spare: Spare::new(alloc),
            kept,
            found: FoundLines::new(alloc),
            agenda: SourceAgenda::new(alloc),
        })
    }

    /// The sender of the link at this place is judged, too, before any frame came: where stamps and
    /// clocks may be off so much, and copies are sent so far apart.
    pub fn judge(&mut self, alloc: Global, place: usize, by: &Leeway, apart: Apart)
        requires link { place < length self.old.sites.tables.now.links }
        requires room { place < length self.old.kept.slots.items }
        ensures judges { (z next : Setup) (before : Option ℕ) (l : LinkRow) →
            slice_get z.tables.links place ≡ Some l → leeway_of by.now ≡ z.asked.by →
            IsApart (terms_at z.tables z.recorded z.asked place l) apart →
            JudgesToo place z next → HaveTold z before [] [] self.old →
            HaveTold next before [] [] self.new }
        ensures sites { self.new.sites ≡ self.old.sites }
        ensures room { length self.new.kept.slots.items ≡ length self.old.kept.slots.items }
    {
        let source = self.sites.source(alloc, place, by, apart);
        self.kept.put(place, source);
    }

    /// A frame came at a port of the switch, no earlier than those before it; `next` was asked for
    /// what is of moments before its time. Fails only out of memory. Then what was told is the
    /// first of all lines, whatever comes from that time on, and nothing else is to be asked.
    pub fn came(&mut self, x: &SiteFrame<'_>) -> Result<(), AllocError>
        ensures came { (z : Setup) (xs : List Arrival) (told : List Line) →
            HaveTold z (Some x.now.time) xs told self.old →
            OnOk result (HaveTold z (Some x.now.time) (came_at x.now ∷ xs) told self.new) }
        ensures refused { (z : Setup) (xs : List Arrival) (told : List Line) →
            HaveTold z (Some x.now.time) xs told self.old →
            OnErr result (HaveBegun z (Some x.now.time) xs told) }
    {
        self.hear(x)
    }

    /// The next line of all, if its moment lies before that time, in ns; without a time whenever it
    /// is. None: just the lines of moments before that time are told. Times never go back. `end` is
    /// the time in ns at which the recordings end, once it is known; before, they must not end
    /// sooner than `before`. Fails only out of memory. Then what was told is the first of all
    /// lines, whatever else comes, and nothing else is to be asked.
    pub fn next(
        &mut self,
        before: Option<u64>,
        end: Option<u64>,
    ) -> Result<Option<SenderLine>, AllocError>
        ensures told { (z : Setup) (by : Option ℕ) (xs : List Arrival) (told : List Line) →
            HaveTold z by xs told self.old → IsNoSooner by before →
            IsEnd end before z.asked.until → IfOk result (TellsNext z before xs told self.new) }
        ensures refused { (z : Setup) (by : Option ℕ) (xs : List Arrival) (told : List Line) →
            HaveTold z by xs told self.old → OnErr result (HaveBegun z by xs told) }
        ensures less { (z : Setup) (by : Option ℕ) (xs : List Arrival) (told : List Line) →
            HaveTold z by xs told self.old → IsNoSooner by before →
            IsEnd end before z.asked.until → IfOk result (λ line. IsSome line →
            lines_left self.new < lines_left self.old) }
    {
        self.settle(before, end)?;
        Ok(self.take_line(before))
    }

    /// What is counted of all senders once all lines are told, of fewer than 2^64 frames. Neither
    /// number goes beyond the greatest one.
    pub fn counts(&self) -> SourceCounts
        ensures sent { (z : Setup) (xs : List Arrival) (told : List Line) →
            HaveTold z None xs told self.now → length xs < 2 ^ 64 →
            result.sent ≡ counted (sent_in z xs) }
        ensures cut { (z : Setup) (xs : List Arrival) (told : List Line) →
            HaveTold z None xs told self.now → length xs < 2 ^ 64 →
            result.cut ≡ counted (cut_in z xs) }
    {
        self.kept.counts()
    }

    /// Whether the sender of the link at this place is judged, and not both of its sites were
    /// recorded.
    fn is_alone(&self, place: usize) -> bool
        requires { place < length self.now.sites.tables.now.links }
        ensures { (z : Setup) (before : Option ℕ) (xs : List Arrival) (told : List Line) →
            HaveTold z before xs told self.now → result ≡ is_one_sided (source_at z place) }
    {
        let has = self.kept.has(place);
        let is_paired = self.sites.is_paired(place);
        has && !is_paired
    }

    /// Of how many senders that are judged not both sites were recorded.
    pub fn alone(&self) -> usize
        ensures { (z : Setup) (before : Option ℕ) (xs : List Arrival) (told : List Line) →
            HaveTold z before xs told self.now → result ≡ alone_in z }
    {
        let mut count = 0;
        for place in 0..self.sites.tables.link_count() {
            if self.is_alone(place) {
                count += 1;
            }
        }
        count
    }
}
