//! The source of a link of the tables.

ghost use Rattle.std.specs.Prelude.{◌≡◌, ◌<◌, Some, length, slice_get};
ghost use Rattle.afdx_config.specs.Rows.{LinkRow};
ghost use Rattle.afdx_conform.specs.LeewayOf.{leeway_of};
ghost use Rattle.afdx_law_bounds.specs.Tables.{port_of as port_at, rule_of as rule_in};
ghost use Rattle.afdx_lawful.specs.Courses.{at_first};
ghost use Rattle.afdx_lawful.specs.Senders.{StandsFor};
ghost use Rattle.afdx_lawful.specs.Ways.{IsApart};
ghost use Rattle.afdx_police.specs.RuleOf.{rule_of};
ghost use Rattle.afdx_senders.specs.Sites.{recorded_in};
ghost use Rattle.afdx_senders.specs.Terms as spec;
ghost use Rattle.afdx_senders.specs.Terms.{Asked as What, terms_at};

use crate::sites::SenderSites;
use afdx_config::Tables;
use afdx_conform::Leeway;
use afdx_frame::Side;
use afdx_lawful::{Apart, JudgedSource};
use afdx_police::LinkRule;
use std::alloc::Global;

/// The rule of the link at this place.
fn rule_at(tables: &Tables, place: usize) -> LinkRule
    requires { place < length tables.now.links }
    ensures { (l : LinkRow) → slice_get tables.now.links place ≡ Some l →
        rule_of result ≡ rule_in tables.now l }
{
    let link = tables.link(place);
    let sender = tables.system(link.from);
    let Some(rule) = LinkRule::after_cable(
        link.vl,
        sender.port,
        link.bag_ms,
        link.lmin,
        link.lmax,
        link.jitter_us,
        link.policing,
    ) else {
        // Never: the reading of the tables kept each value in its range.
        unreachable!();
    };
    rule
}

impl SenderSites<'_> {
    /// The port of the system that sends the link at this place; 0 if there is no link.
    pub(crate) fn port_of(&self, place: usize) -> u8
        ensures { (l : LinkRow) → slice_get self.now.tables.now.links place ≡ Some l →
            result ≡ port_at self.now.tables.now l.from }
    {
        if place >= self.tables.link_count() {
            return 0;
        }
        self.tables.system(self.tables.link(place).from).port
    }

    /// Whether both sites of the source of the link at this place were recorded.
    pub(crate) fn is_paired(&self, place: usize) -> bool
        requires { place < length self.now.tables.now.links }
        ensures { (l : LinkRow) → slice_get self.now.tables.now.links place ≡ Some l →
            result ≡ spec.is_paired self.now.tables.now (recorded_in self.now.recorded) l }
    {
        let port = self.tables.system(self.tables.link(place).from).port;
        self.recorded.has(Side::A, port) && self.recorded.has(Side::B, port)
    }

    /// The source of the link at this place, of which nothing came: where stamps and clocks may be
    /// off so much, and copies are sent so far apart.
    pub fn source(&self, alloc: Global, place: usize, by: &Leeway, apart: Apart) -> JudgedSource
        requires { place < length self.now.tables.now.links }
        ensures { let t = self.now.tables.now in let seen = recorded_in self.now.recorded in
            (k : What) (l : LinkRow) → slice_get t.links place ≡ Some l → leeway_of by.now ≡ k.by →
            IsApart (terms_at t seen k place l) apart →
            StandsFor (terms_at t seen k place l) at_first result }
    {
        let rule = rule_at(self.tables, place);
        let system = self.tables.system(self.tables.link(place).from).id;
        let is_paired = self.is_paired(place);
        JudgedSource::new(alloc, &rule, system, by, apart, is_paired)
    }
}
