//! What a switch does with its accounts and its ports.

ghost use Rattle.std.specs.Prelude.{[], ◌≡◌, ℕ, ◌≤◌, ◌<◌, ◌+◌, List, Some, IfOk, IfErr, OnOk, IfSome};
ghost use Rattle.std.specs.Prelude.{length, slice_get, true, All, vec_len, None};
ghost use Rattle.afdx_frame.specs.Lengths.{least_frame, greatest_frame};
ghost use Rattle.afdx_frame.specs.Ports.{last_port};
ghost use Rattle.afdx_police.specs.LinkAccounts as accounts;
ghost use Rattle.afdx_port.specs.Times.{latest_put};
ghost use Rattle.afdx_frame.specs.declared.link.Priority.{Priority};
ghost use Rattle.afdx_port.specs.Serving.{IsServing};
ghost use Rattle.afdx_port.specs.declared.port_state.PortState.{PortState};
ghost use Rattle.afdx_port.specs.Held as held;
ghost use Rattle.afdx_switch.specs.Ports.{holds};
ghost use Rattle.afdx_switch.specs.HeldFrames.{HeldFrame, facts};
ghost use Rattle.afdx_switch.specs.Lines.{ArePlaces, IsCharged, is_among};
ghost use Rattle.afdx_switch.specs.declared.line.Line.{Line};
ghost use Rattle.afdx_switch.specs.Shares.{AreKept, AreShares, IsOffered, share_of};

use crate::frame::Frame;
use crate::line::Line;
use crate::ports::PortSet;
use crate::store::Store;
use crate::switch::Departure;
use crate::verdict::Verdict;
use afdx_frame::{Checked, MacView, Priority, Side, VlId, port_at};
use afdx_police::Reason;
use afdx_port::{Due, Port, Serving, TurnOrder};
use std::alloc::AllocError;

/// What a switch works with.
pub(crate) struct SwitchState {
    /// The last time used.
    pub(crate) clock: u64,
    /// By place in the tables.
    pub(crate) lines: Vec<Line>,
    /// By identifier, the place of its link.
    pub(crate) places: Vec<Option<u16>>,
    /// The output ports, from port 1 on.
    pub(crate) ports: Vec<Port<Frame>>,
    /// The order in which they are served.
    pub(crate) serving: Serving,
    /// The place of the port whose turn goes first.
    pub(crate) first: usize,
}

impl Drop for SwitchState {
    // (written out, it is one call wherever a value is let go)
    fn drop(self) {
        let Self {
            clock,
            lines,
            places,
            ports,
            serving,
            first,
        } = self;
    }
}

/// Offers a frame of `size` bytes to the account of the line at this place. Answers why it is
/// dropped, if it is.
fn charge(lines: &mut Vec<Line>, place: usize, time: u64, size: u64) -> Option<Reason>
    requires within { place < vec_len lines.old }
    requires in_time { (line : Line) → slice_get lines.old.items place ≡ Some line →
        accounts.last_time line.account ≤ time }
    requires shortest { least_frame ≤ size }
    requires longest { (line : Line) → slice_get lines.old.items place ≡ Some line →
        size ≤ (accounts.account_of line.account).rule.lmax }
    ensures count { vec_len lines.new ≡ vec_len lines.old }
    ensures charged { (line : Line) → slice_get lines.old.items place ≡ Some line →
        IsCharged time size place line result lines.old.items lines.new.items }
{
    let line = &mut lines[place];
    line.account.offer(time, size)
}

/// Makes so many shares of a frame.
fn share_out(frame: &Frame, count: usize, shares: &mut Vec<Frame>) -> Result<(), AllocError>
    requires none { shares.old.items ≡ [] }
    ensures count { OnOk result (length shares.new.items ≡ count) }
    ensures each { OnOk result (AreShares frame.now shares.new.items) }
{
    for _ in 0..count {
        shares.push(frame.share()?)?;
    }
    Ok(())
}

/// Offers a port its share. Answers whether it was lost.
fn offer(port: &mut Port<Frame>, time: u64, priority: Priority, share: Frame) -> bool
    requires limit { time ≤ latest_put }
    requires clock { held.last_time port.old ≤ time }
    requires quiet { held.IsQuiet facts port.old time }
    ensures { IsOffered time priority (Some share) port.old port.new result }
{
    port.put(time, priority, share).is_err()
}

/// Offers each of the ports at these places its share. Answers the ports that lost theirs.
fn forward(
    ports: &mut [Port<Frame>],
    places: &[u8],
    shares: &mut Vec<Frame>,
    time: u64,
    priority: Priority,
) -> PortSet
    requires port_count { length ports.old ≡ last_port }
    requires places { ArePlaces places.now }
    requires share_count { length shares.old.items ≡ length places.now }
    requires limit { time ≤ latest_put }
    requires clocks { All (λ p. held.last_time p ≤ time) ports.old }
    requires quiet { All (λ p. held.IsQuiet facts p time) ports.old }
    ensures count { length ports.new ≡ last_port }
    ensures offered { (c : HeldFrame) (i : ℕ) (o n : PortState HeldFrame) →
        AreShares c shares.old.items →
        slice_get ports.old i ≡ Some o → slice_get ports.new i ≡ Some n →
        IsOffered time priority (share_of c (is_among i places.now)) o n (holds result (i + 1)) }
    ensures others { AreKept places.now ports.old ports.new }
{
    let mut lost = PortSet::new();
    for place in places {
        let Some(share) = shares.pop() else {
            // Never: there is a share for each place.
            unreachable!();
        };
        if offer(&mut ports[*place as usize], time, priority, share) {
            lost.add(port_at(*place));
        }
    }
    lost
}

/// Finds anew where the ports at these places stand in the order in which all are served.
fn renew(serving: &mut Serving, ports: &[Port<Frame>], places: &[u8])
    requires port_count { length ports.now ≡ last_port }
    requires places { ArePlaces places.now }
    ensures { (old : List (PortState HeldFrame)) → IsServing facts old serving.old →
        AreKept places.now old ports.now → IsServing facts ports.now serving.new }
{
    for place in places {
        serving.renew(*place as usize, &ports[*place as usize]);
    }
}

impl SwitchState {
    ghost use Rattle.afdx_config.specs.Rows.{Rows};
    ghost use Rattle.afdx_frame.specs.declared.link.Side.{Side};
    ghost use Rattle.afdx_frame.specs.Parts.{bytes_of, IsLinkFrame};
    ghost use Rattle.afdx_frame.specs.Sealing.{sealed};
    ghost use Rattle.afdx_police.specs.Arrival.{arrival_with};
    ghost use Rattle.afdx_switch.specs.Calls.{Arrives, TellsDue, TellsEarly, TellsOrder, Takes};
    ghost use Rattle.afdx_switch.specs.Early.{IsEarlyBy};
    ghost use Rattle.afdx_switch.specs.Found.{Found, IsFaulted};
    ghost use Rattle.afdx_switch.specs.Lines.{IsPlaceOf};
    ghost use Rattle.afdx_switch.specs.Shares.{AreOffered};
    ghost use Rattle.afdx_switch.specs.Sound.{IsSwitchSound};
    ghost use Rattle.afdx_switch.specs.Switching.{SwitchHistory, StandsFor, IsQuiet};
    ghost use Rattle.afdx_switch.specs.Switching.{frames_held, last_time};
    ghost use Rattle.afdx_switch.specs.Tables.{rows_of};
    ghost use Rattle.afdx_switch.specs.Verdicts.{shape_fault};

    /// The place of the link of this identifier.
    fn place_of(&self, vl: VlId) -> Option<usize>
        requires { IsSwitchSound self.now }
        ensures within { IfSome result (λ i. i < vec_len self.now.lines) }
        ensures place { (t : Rows) (side : Side) (h : SwitchHistory) → StandsFor t side self.now h →
            IsPlaceOf (rows_of t) vl.0 result }
    {
        match self.places[vl.0 as usize] {
            Some(place) => Some(place as usize),
            None => None,
        }
    }

    /// The place of the link that a frame names, if nothing is wrong in the frame's shape; else its
    /// first fault.
    fn judged(&self, port: u8, frame: Checked<'_>) -> Result<usize, Reason>
        requires { IsSwitchSound self.now }
        ensures found { (t : Rows) (side : Side) (h : SwitchHistory) (tag time : ℕ) →
            StandsFor t side self.now h →
            let arrival = arrival_with tag time side port (bytes_of frame.entry) in
            IfOk result (Found t arrival self.now h) }
        ensures faulted { (t : Rows) (side : Side) (h : SwitchHistory) (tag time : ℕ) →
            StandsFor t side self.now h →
            let arrival = arrival_with tag time side port (bytes_of frame.entry) in
            IfErr result (IsFaulted t arrival) }
        ensures within { IfOk result (λ place. place < vec_len self.now.lines) }
        ensures at_most { IfOk result (λ place. (line : Line) →
            slice_get self.now.lines.items place ≡ Some line →
            length (bytes_of frame.entry) ≤ (accounts.account_of line.account).rule.lmax) }
        ensures shortest { OnOk result (least_frame ≤ length (bytes_of frame.entry)) }
        ensures longest { OnOk result (length (bytes_of frame.entry) ≤ greatest_frame) }
        ensures sealed { OnOk result (bytes_of frame.entry ≡ sealed frame.entry.message.now) }
        ensures framed { OnOk result (IsLinkFrame (bytes_of frame.entry)) }
    {
        let view = match MacView::of(frame) {
            Ok(view) => view,
            Err(fault) => return Err(fault.into()),
        };
        let Some(place) = self.place_of(view.vl()) else {
            return Err(Reason::UnknownLink);
        };
        match self.lines[place].account.fault(port, &view, frame) {
            Some(reason) => Err(reason),
            None => Ok(place),
        }
    }

    /// Offers the ports that the line at this place goes to their shares of a frame. Answers those
    /// that lost theirs.
    fn send_on(&mut self, place: usize, shares: &mut Vec<Frame>) -> PortSet
        requires limit { self.old.clock ≤ latest_put }
        requires sound { IsSwitchSound self.old }
        requires quiet { IsQuiet self.old self.old.clock }
        requires alike { (c : HeldFrame) × AreShares c shares.old.items }
        requires within { place < vec_len self.old.lines }
        requires share_count { (line : Line) → slice_get self.old.lines.items place ≡ Some line →
            length shares.old.items ≡ length line.goes.items }
        ensures offered { (line : Line) (c : HeldFrame) →
            slice_get self.old.lines.items place ≡ Some line → AreShares c shares.old.items →
            AreOffered self.old.clock line c self.old.ports.items self.new.ports.items result }
        ensures sound { IsSwitchSound self.new }
        ensures quiet { IsQuiet self.new self.old.clock }
        ensures held { frames_held self.new ≤ frames_held self.old + last_port }
        ensures rest { self.new ≡ record self.old {
          ports = self.new.ports;
          serving = self.new.serving;
          first = self.new.first;
        } }
    {
        let line = &self.lines[place];
        let places = line.goes.as_slice();
        let lost = forward(&mut self.ports, places, shares, self.clock, line.priority);
        renew(&mut self.serving, &self.ports, places);
        self.first = self.serving.first::<Frame>();
        lost
    }

    /// `store` makes the copy of the frame; `shares` is room for its shares, and what is left there
    /// is of no use.
    pub(crate) fn arrive(
        &mut self,
        time: u64,
        port: u8,
        tag: u64,
        frame: Checked<'_>,
        store: &mut Store,
        shares: &mut Vec<Frame>,
    ) -> Result<Verdict, AllocError>
        requires shares { shares.old.items ≡ [] }
        requires limit { time ≤ latest_put }
        requires sound { IsSwitchSound self.old }
        requires clock { last_time self.old ≤ time }
        requires quiet { IsQuiet self.old time }
        ensures arrives { Arrives self.old self.new tag time port (bytes_of frame.entry) result }
        ensures sound { IsSwitchSound self.new }
    {
        let place = match self.judged(port, frame) {
            Ok(place) => place,
            Err(reason) => {
                self.clock = time;
                return Ok(Verdict::Dropped(reason));
            }
        };
        let line = &self.lines[place];
        let count = line.goes.len();
        let row = u16::try_from(place).unwrap_or(u16::MAX);
        let copy = store.copy(tag, row, line.longest_wait, frame.message)?;
        share_out(&copy, count, shares)?;
        self.clock = time;
        if let Some(reason) = charge(&mut self.lines, place, time, frame.length()) {
            shares.clear();
            store.keep(&copy);
            return Ok(Verdict::Dropped(reason));
        }
        let lost = self.send_on(place, shares);
        store.keep(&copy);
        Ok(Verdict::Accepted { lost })
    }

    /// By how many nanoseconds a frame comes too early for its link's account.
    pub(crate) fn early(&self, time: u64, port: u8, frame: Checked<'_>) -> u64
        requires sound { IsSwitchSound self.now }
        requires clock { last_time self.now ≤ time }
        ensures { TellsEarly self.now time port (bytes_of frame.entry) result }
    {
        match self.judged(port, frame) {
            Ok(place) => {
                let line = &self.lines[place];
                line.account.early(time, frame.length())
            }
            Err(_) => 0,
        }
    }

    /// When the next turn is over.
    pub(crate) fn due(&self) -> Option<Due>
        requires { IsSwitchSound self.now }
        ensures { TellsDue self.now result }
    {
        self.ports[self.first].due()
    }

    /// Where the next turn stands in the order of turns.
    pub(crate) fn order(&self) -> TurnOrder
        requires { IsSwitchSound self.now }
        ensures { TellsOrder self.now result.0 }
    {
        self.ports[self.first].order()
    }

    #[inline(always)]
    pub(crate) fn take(&mut self, until: u64) -> Option<Departure>
        requires sound { IsSwitchSound self.old }
        requires clock { last_time self.old ≤ until }
        ensures takes { Takes self.old self.new until result }
        ensures sound { IsSwitchSound self.new }
    {
        if self.ports[self.first].is_quiet(until) {
            self.clock = until;
            return None;
        }
        Some(self.take_due(until))
    }

    /// The next turn of all ports, where it is over by `until`.
    #[inline(always)]
    pub(crate) fn take_due(&mut self, until: u64) -> Departure
        requires sound { IsSwitchSound self.old }
        requires clock { last_time self.old ≤ until }
        requires given { IsQuiet self.old until → ⊥ }
        ensures takes { Takes self.old self.new until (Some result) }
        ensures sound { IsSwitchSound self.new }
    {
        self.clock = until;
        let place = self.first;
        let port = &mut self.ports[place];
        let left = port.take_due(until);
        self.serving.renew(place, port);
        self.first = self.serving.first::<Frame>();
        Departure {
            left,
            side: Side::A,
            port: place as u8 + 1,
        }
    }
}
