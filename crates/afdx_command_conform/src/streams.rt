//! All streams of the tables, and what is to be told of them.

ghost use Rattle.std.specs.Prelude.{◌≡◌, ◌≤◌, ◌<◌, ◌+◌, [], ℕ, List, None, Some, IfNone, IfOk, IfSome, IsSome, OnOk, is_some, length};
ghost use Rattle.afdx_config.specs.Rows.{Rows};
ghost use Rattle.afdx_conform.specs.LeewayOf.{leeway_of};
ghost use Rattle.afdx_conform.specs.LimitRanges.{most_bytes};
ghost use Rattle.afdx_frame.specs.Layout.{link_named_by};
ghost use Rattle.afdx_frame.specs.Parts.{bytes_of};
ghost use Rattle.afdx_frame.specs.Times.{latest_listed};
ghost use Rattle.afdx_police.specs.Arrival.{arrival_with};
ghost use Rattle.afdx_input_lines.specs.declared.role.Role.TheVariants as role;
ghost use Rattle.afdx_input_runs.specs.Joining.{Frame as Seen};
ghost use Rattle.afdx_command_conform.specs.Choices.{Choices, counted};
ghost use Rattle.afdx_command_conform.specs.Frames.{frame_with};
ghost use Rattle.afdx_command_conform.specs.Keeping.{IsNothingDue, IsSomeUpTo};
ghost use Rattle.afdx_command_conform.specs.Lines.{Due};
ghost use Rattle.afdx_command_conform.specs.Slots.{told_at};
ghost use Rattle.afdx_command_conform.specs.Awaited.{IsBefore, awaited};
ghost use Rattle.afdx_command_conform.specs.Counting.{AreEnded, HasCounted, counted_of, none_counted};
ghost use Rattle.afdx_command_conform.specs.Tapped as spec;
ghost use Rattle.afdx_command_conform.specs.Sight.{sight_in};
ghost use Rattle.afdx_command_conform.specs.Waiting.{left_in};

use crate::counting::count_streams;
use crate::hints::Hints;
use crate::joining::{come_to, leave_strange, leave_to};
use crate::kept::{KeptByKey, Lines};
use crate::outlets::{Outlet, StreamRules, receiver, receiver_at, rule_at};
use crate::strangers::{Stranger, is_damaged, why_strange};
use crate::tapped::{heard_outlet, is_heard, is_seen, unseen_of};
use crate::totals::Totals;
use afdx_config::Tables;
use afdx_conform::{Arrived, CheckedBytes, Leeway, LeftFrame, Spare};
use afdx_frame::{Checked, Side, VlId};
use afdx_input_lines::{Heading, Role};
use afdx_input_sources::Taps;
use std::alloc::{AllocError, Global};

/// What is kept of each key of the tables, which ports were recorded, where a link is looked for
/// first, the memory of what is forgotten, and the time in ns at which the recordings end, once it
/// is known.
#[derive(Drop)]
pub(crate) struct Streams<'a> {
    alloc: Global,
    tables: &'a Tables,
    leeway: Leeway,
    taps: &'a Taps,
    hints: Hints,
    spare: Spare,
    kept: KeptByKey,
    ended: Option<u64>,
}

impl<'a> Streams<'a> {
    ghost use Rattle.afdx_command_conform.specs.Standing.{IsBehindAll, IsSameButKept, StreamsStand, seen_by};
    ghost use Rattle.afdx_command_conform.specs.Taking.{StandsForMore};

    /// Those of the tables, of which nothing came.
    pub(crate) fn new(
        alloc: Global,
        tables: &'a Tables,
        leeway: Leeway,
        taps: &'a Taps,
    ) -> Result<Streams<'a>, AllocError>
        ensures stands { (c : Choices) (until : ℕ) → leeway_of leeway ≡ c.by →
            sight_in tables.now taps.entry.now ≡ c.sight →
            IfOk result (λ s. StreamsStand tables.now c until [] [] 0 s) }
        ensures running { IfOk result (λ s. s.ended ≡ None) }
    {
        // (those of `Key::place`)
        let count = 512 + 64 * tables.link_count();
        let kept = KeptByKey::new(alloc, count)?;
        Ok(Streams {
            alloc,
            tables,
            leeway,
            taps,
            hints: Hints::new(alloc, tables)?,
            spare: Spare::new(alloc),
            kept,
            ended: None,
        })
    }

    /// The place of the link that a frame names, if the tables have it.
    pub(crate) fn place_named(&self, vl: Option<VlId>) -> Option<usize>
        ensures known { IfSome result (λ link. link < length self.now.tables.now.links) }
        ensures place { (bytes : List ℕ) → vl ≡ link_named_by bytes →
            result ≡ spec.place_named self.now.tables.now bytes }
    {
        self.hints.place_named(self.tables, vl)
    }

    /// A frame came in that names the link at this place: it comes to each of the link's streams on
    /// its side that is judged.
    pub(crate) fn came(
        &mut self,
        named: Option<usize>,
        n: u64,
        heading: &Heading,
        frame: Checked<'_>,
    ) -> Result<(), AllocError>
        requires known { IfSome named (λ link. link < length self.old.tables.now.links) }
        requires time { heading.now.time ≤ latest_listed }
        requires short { length (bytes_of frame) ≤ most_bytes }
        ensures stands { StandsForMore (λ done. OnOk result done) self.old self.new named
            (frame_with role.Came (arrival_with n heading.now.time heading.now.side
            heading.now.port (bytes_of frame.entry))) }
        ensures ended { self.new.ended ≡ self.old.ended }
        ensures rules { IsSameButKept self.old self.new }
    {
        let (alloc, tables, leeway, taps) = (self.alloc, self.tables, self.leeway, self.taps);
        let (side, port, time) = (heading.side, heading.port, heading.time);
        let Some(link) = named else {
            return Ok(());
        };
        if !is_heard(tables, taps, side, link) {
            return Ok(());
        }
        let bytes = CheckedBytes::of(&mut self.spare, frame)?;
        let rules = StreamRules {
            tables,
            taps,
            leeway,
        };
        let rule = rule_at(tables, link);
        for rank in 0..tables.link(link).to.len() {
            let system = receiver(tables, link, rank);
            if !is_seen(tables, taps, side, system) {
                continue;
            }
            let share = bytes.share()?;
            let arrived = Arrived::new(&rule, n, time, side, port, share);
            let outlet = Outlet { side, link, system };
            come_to(alloc, &rules, &mut self.kept, outlet, arrived)?;
        }
        Ok(())
    }

    /// Whether a frame that names the link at this place left on a side on which its sender's port
    /// isn't recorded, where the link goes, and isn't damaged.
    pub(crate) fn is_unheard(
        &self,
        role: Role,
        side: Side,
        port: u8,
        named: Option<usize>,
        frame: Checked<'_>,
    ) -> bool
        requires { IfSome named (λ link. link < length self.now.tables.now.links) }
        ensures { (x : Seen) → x.role ≡ role → x.arrival.side ≡ side → x.arrival.port ≡ port →
            bytes_of frame.entry ≡ x.arrival.bytes →
            named ≡ spec.place_named self.now.tables.now x.arrival.bytes →
            result ≡ spec.is_unheard self.now.tables.now (seen_by self.now) x }
    {
        match role {
            Role::Came => false,
            Role::Left => {
                let Some(link) = named else {
                    return false;
                };
                if is_heard(self.tables, self.taps, side, link) {
                    return false;
                }
                match receiver_at(self.tables, link, port) {
                    Some(_) => !is_damaged(frame),
                    None => false,
                }
            }
        }
    }

    /// A frame left that names the link at this place, or that is of no stream.
    pub(crate) fn left(
        &mut self,
        named: Option<usize>,
        n: u64,
        heading: &Heading,
        frame: Checked<'_>,
    ) -> Result<(), AllocError>
        requires known { IfSome named (λ link. link < length self.old.tables.now.links) }
        requires time { heading.now.time ≤ latest_listed }
        ensures stands { StandsForMore (λ done. OnOk result done) self.old self.new named
            (frame_with role.Left (arrival_with n heading.now.time heading.now.side
            heading.now.port (bytes_of frame.entry))) }
        ensures ended { self.new.ended ≡ self.old.ended }
        ensures rules { IsSameButKept self.old self.new }
    {
        let (alloc, tables, leeway, taps) = (self.alloc, self.tables, self.leeway, self.taps);
        let (side, port, time) = (heading.side, heading.port, heading.time);
        if let Some((link, system)) = heard_outlet(tables, taps, side, named, port) {
            if !taps.is_tapped(Role::Left, side, port) {
                return Ok(());
            }
            let bytes = CheckedBytes::of(&mut self.spare, frame)?;
            let left = LeftFrame {
                number: n,
                time,
                bytes,
            };
            let rules = StreamRules {
                tables,
                taps,
                leeway,
            };
            let outlet = Outlet { side, link, system };
            return leave_to(alloc, &rules, &mut self.kept, outlet, left);
        }
        let why = why_strange(frame, named.is_some());
        let stranger = Stranger {
            number: n,
            time,
            why,
        };
        leave_strange(alloc, &mut self.kept, side, port, stranger)
    }

    /// The lines of what is to be told next, if its moment lies before that time, in ns; without a
    /// time whenever it is. It is over then.
    pub(crate) fn take_before(&mut self, before: Option<u64>) -> Result<Option<Lines>, AllocError>
        ensures told { (t : Rows) (c : Choices) (until time : ℕ) (frames : List Seen)
            (lines : List Due) → (self.old.ended ≡ None → IsSomeUpTo time before) →
            StreamsStand t c until frames lines time self.old →
            IfOk result (λ taken. IfSome taken (λ l. StreamsStand t c until frames
            (told_at l.key l.moment l.lines.items lines) time self.new)) }
        ensures none { (t : Rows) (c : Choices) (until time : ℕ) (frames : List Seen)
            (lines : List Due) → StreamsStand t c until frames lines time self.old →
            IfOk result (λ taken. IfNone taken (StreamsStand t c until frames lines time self.new
            × IsNothingDue t before self.new.kept)) }
        ensures ended { self.new.ended ≡ self.old.ended }
        ensures rules { IsSameButKept self.old self.new }
        ensures less { IfOk result (λ lines. IsSome lines →
            left_in self.new.kept.slots.items < left_in self.old.kept.slots.items) }
        ensures in_time { IfOk result (λ taken. IfSome taken (λ l.
            IsBefore before (awaited l.moment l.key))) }
    {
        let taken = self
            .kept
            .take_before(self.alloc, &mut self.spare, before, self.ended)?;
        Ok(taken)
    }

    /// The recordings end at this time, in ns.
    pub(crate) fn end(&mut self, until: u64)
        ensures stands { (t : Rows) (c : Choices) (time : ℕ) (frames : List Seen)
            (lines : List Due) → time ≤ until → self.old.ended ≡ None →
            IsBehindAll until (counted t c frames) →
            StreamsStand t c until frames lines time self.old →
            StreamsStand t c until frames lines time self.new }
        ensures ended { self.new.ended ≡ Some until }
        ensures rules { IsSameButKept self.old self.new }
    {
        self.kept.end(until);
        self.ended = Some(until);
    }

    /// Whether the recordings ended.
    pub(crate) fn is_ended(&self) -> bool
        ensures { result ≡ is_some self.now.ended }
    {
        self.ended.is_some()
    }

    /// How many streams aren't judged.
    pub(crate) fn unseen(&self) -> u64
        ensures { result ≡ spec.unseen_of self.now.tables.now (seen_by self.now) }
    {
        unseen_of(self.tables, self.taps)
    }

    /// What is counted of all streams, on both sides.
    pub(crate) fn count(&self, totals: &mut Totals)
        ensures findings { totals.new.findings ≡ totals.old.findings }
        ensures left_out { totals.new.left_out ≡ totals.old.left_out }
        ensures unseen { totals.new.unseen ≡ totals.old.unseen }
        ensures exercised { totals.new.is_exercised ≡ totals.old.is_exercised }
        ensures counted { (c : Choices) (until : ℕ) (frames : List Seen) →
            seen_by self.now ≡ c.sight →
            AreEnded self.now.tables.now c until frames self.now.kept →
            HasCounted none_counted totals.old →
            HasCounted (counted_of self.now.tables.now c until frames) totals.new }
    {
        count_streams(self.tables, self.taps, &self.kept, totals);
    }
}
