//! The links of a network, by identifier.

ghost use Rattle.std.specs.Prelude.{◌≡◌, ◌<◌, ◌≤◌, ◌++◌, [], ◌∷◌, length, slice_get, None, Some};
ghost use Rattle.std.specs.Prelude.{OnOk, IfSome};
ghost use Rattle.afdx_config.specs.Rows.{link_row};
ghost use Rattle.afdx_config.specs.Changed.{changed_at};
ghost use Rattle.afdx_config.specs.Reading.{link_of, goes_to, most_links};

use crate::rows::{Link, SystemId, Times};
use afdx_frame::VlId;
use indexmap::IndexMap;
use std::alloc::{AllocError, Global};
use std::marker::Model;

/// The links by identifier, in file order.
#[derive(Debug)]
pub(crate) struct LinkTable {
    by_vl: IndexMap<VlId, Link>,
}

impl Drop for LinkTable {
    // (written out, it is one call wherever a value is let go)
    fn drop(self) {
        let Self { by_vl } = self;
    }
}

impl Model for LinkTable {
    ghost use Rattle.std.specs.Prelude.{◌≤◌, List, map, length};
    ghost use Rattle.std.specs.List.{AllByRecursion};
    ghost use Rattle.afdx_config.specs.Rows.{LinkRow};
    ghost use Rattle.afdx_config.specs.Kept.{link_rows, IsUnderItsIdentifier};
    ghost use Rattle.afdx_config.specs.Reading.{most_links};

    ghost Value = { List LinkRow };

    ghost view = { λ l. link_rows l.by_vl.entries };

    ghost invariant = { λ l. (length l.by_vl.entries ≤ most_links)
        × AllByRecursion IsUnderItsIdentifier l.by_vl.entries };
}

impl LinkTable {
    pub(crate) fn new(alloc: Global) -> LinkTable
        ensures { result ≡ [] }
    {
        LinkTable {
            by_vl: IndexMap::new(alloc),
        }
    }

    pub(crate) fn len(&self) -> usize
        ensures len { result ≡ length self.now }
        ensures small { result ≤ most_links }
    {
        self.by_vl.len()
    }

    pub(crate) fn of(&self, vl: VlId) -> Option<usize>
        ensures place { result ≡ link_of self.now vl.0 }
        ensures within { IfSome result (λ i. i < length self.now) }
    {
        self.by_vl.get_index_of(&vl)
    }

    /// Whether there is a link of this identifier, and it goes to the system.
    pub(crate) fn goes_to(&self, vl: VlId, system: SystemId) -> bool
        ensures { result ≡ goes_to self.now vl.0 system.0 }
    {
        match self.of(vl) {
            Some(index) => self.at(index).goes_to(system),
            None => false,
        }
    }

    pub(crate) fn at(&self, index: usize) -> &Link
        requires { index < length self.now }
        ensures { slice_get self.now index ≡ Some (link_row result.now) }
    {
        &self.by_vl[index]
    }

    /// Changes the times of the link at a place.
    pub(crate) fn set_times(&mut self, index: usize, times: Times)
        requires { index < length self.old }
        ensures { self.new ≡ changed_at index times self.old }
    {
        let link = &mut self.by_vl[index];
        link.jitter_us = times.jitter_us;
        link.latency_us = times.latency_us;
        link.skew_us = times.skew_us;
    }

    pub(crate) fn push(&mut self, link: Link) -> Result<(), AllocError>
        requires room { length self.old < most_links }
        requires fresh { link_of self.old link.vl.0 ≡ None }
        ensures { OnOk result (self.new ≡ self.old ++ link_row link ∷ []) }
    {
        self.by_vl.insert(link.vl, link)?;
        Ok(())
    }
}
