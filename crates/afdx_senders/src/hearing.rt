//! Frames that come to the senders.

ghost use Rattle.std.specs.Prelude.{◌≡◌, List, None, OnOk, length};
ghost use Rattle.afdx_lawful.specs.declared.finding.SenderFinding.{SenderFinding as Finding};
ghost use Rattle.afdx_senders.specs.Followed.{ByPlace, IsFound};
ghost use Rattle.afdx_senders.specs.Lines.{AddsLines, MayComeThere, MayComeTo, after_came, came_there};
ghost use Rattle.afdx_senders.specs.Lines.{found_at, found_by, lines_found, lines_strayed, some_found};
ghost use Rattle.afdx_senders.specs.Lines.{told_line};
ghost use Rattle.afdx_senders.specs.Sites.{among_of, came_at, recorded_in, source_of};
ghost use Rattle.afdx_senders.specs.Standing.{SendersStand};

use crate::found_lines::FoundLines;
use crate::sender_line::{SenderLine, ToldOf};
use crate::senders::Senders;
use crate::site_frame::SiteFrame;
use crate::sites::SourceOf;
use crate::stray::stray_of;
use afdx_lawful::HeardFrame;
use std::alloc::AllocError;

/// What is told of a frame, at its moment.
fn line_of(x: &SiteFrame<'_>, told: ToldOf) -> SenderLine
    ensures { result ≡ told_line x.now told }
{
    SenderLine {
        moment: x.time,
        side: x.side,
        port: x.port,
        line: x.line,
        told,
    }
}

/// What is found of a frame is to be told, if anything is.
fn put_heard(
    found: &mut FoundLines,
    x: &SiteFrame<'_>,
    heard: Option<HeardFrame>,
) -> Result<(), AllocError>
    ensures found { (fs : List Finding) → IsFound x.now.line fs heard → OnOk result
        (AddsLines (lines_found x.now (some_found fs)) found.old found.new) }
    ensures none { heard ≡ None → OnOk result (found.new ≡ found.old) }
{
    let Some(heard) = heard else {
        return Ok(());
    };
    if heard.is_quiet() {
        return Ok(());
    }
    found.push(line_of(x, ToldOf::Heard(heard)))
}

impl Senders<'_> {
    /// A frame came to the source at this place, if one is followed there.
    fn came_to(&mut self, place: usize, x: &SiteFrame<'_>) -> Result<(), AllocError>
        ensures stands { (at : ByPlace) → MayComeThere x.now (at place) →
            SendersStand at self.old →
            OnOk result (SendersStand (came_there at x.now place (at place)) self.new) }
        ensures found { (at : ByPlace) → MayComeThere x.now (at place) →
            SendersStand at self.old → OnOk result (AddsLines
            (lines_found x.now (found_at x.now (at place))) self.old.found self.new.found) }
        ensures sites { self.new.sites ≡ self.old.sites }
        ensures room { length self.new.kept.slots.items ≡ length self.old.kept.slots.items }
    {
        let before = self.kept.due(place);
        let heard = self.kept.came(place, &mut self.spare, x)?;
        put_heard(&mut self.found, x, heard)?;
        let after = self.kept.due(place);
        self.agenda.put_due(place, before, after)
    }

    /// A frame came that is of no source.
    fn strayed(&mut self, whose: SourceOf, x: &SiteFrame<'_>) -> Result<(), AllocError>
        ensures stands { (at : ByPlace) → SendersStand at self.old →
            OnOk result (SendersStand at self.new) }
        ensures found { (at : ByPlace) → OnOk result (AddsLines
            (lines_strayed x.now whose) self.old.found self.new.found) }
        ensures sites { self.new.sites ≡ self.old.sites }
        ensures room { length self.new.kept.slots.items ≡ length self.old.kept.slots.items }
    {
        match stray_of(whose, x.frame) {
            Some(stray) => self.found.push(line_of(x, ToldOf::Strayed(stray))),
            None => Ok(()),
        }
    }

    /// A frame came at a port of the switch.
    pub(crate) fn hear(&mut self, x: &SiteFrame<'_>) -> Result<(), AllocError>
        ensures stands { (at : ByPlace) →
            let whose = source_of self.old.sites.tables.now (among_of self.old.sites)
            (recorded_in self.old.sites.recorded) (came_at x.now) in
            MayComeTo at x.now whose → SendersStand at self.old →
            OnOk result (SendersStand (after_came at x.now whose) self.new) }
        ensures found { (at : ByPlace) →
            let whose = source_of self.old.sites.tables.now (among_of self.old.sites)
            (recorded_in self.old.sites.recorded) (came_at x.now) in
            MayComeTo at x.now whose → SendersStand at self.old →
            OnOk result (AddsLines (lines_found x.now (found_by at x.now whose))
            self.old.found self.new.found) }
        ensures sites { self.new.sites ≡ self.old.sites }
        ensures room { length self.new.kept.slots.items ≡ length self.old.kept.slots.items }
    {
        let whose = self.sites.source_of(x);
        match whose {
            SourceOf::Source(place) => self.came_to(place, x),
            SourceOf::Elsewhere => self.strayed(whose, x),
            SourceOf::Unknown => self.strayed(whose, x),
            SourceOf::Nobody => Ok(()),
        }
    }
}
