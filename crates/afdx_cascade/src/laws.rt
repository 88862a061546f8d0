//! What is true of several switches that are joined by cables: of a link along its way where the
//! tables of all are admitted, and of all events of a cascade.

ghost use Rattle.afdx_cascade.specs.Cables.{FirstFramesLeave, AllFramesLeave};
ghost use Rattle.afdx_cascade.specs.Cables.{CablesBringInOrder, AcceptedIsAcceptedAgain};
ghost use Rattle.afdx_cascade.specs.Ways.{FirstAreAccepted, FirstLeave};
ghost use Rattle.afdx_cascade.specs.Ways.{AllAreAccepted, AllLeave, FramesAreAlone};
ghost use Rattle.afdx_cascade.specs.Examples.{PremisesAreMet};
ghost use Rattle.afdx_cascade.specs.Once.{AcceptsAtMostListed, AcceptsLineOnce, EventsAreFew};
ghost use Rattle.afdx_cascade.specs.Once.{EventsAreCounted};
ghost use Rattle.afdx_cascade.specs.Parts.{SwitchBeginsAlone, SwitchRunsAlone};
ghost use Rattle.afdx_cascade.specs.Parts.{CablesBringAll, CablesBringFirst};
ghost use Rattle.afdx_cascade.specs.Parts.{ListedIsListed, PortsGetTheirLines, EventsAreOfList};
ghost use Rattle.afdx_cascade.specs.Runs.{EventsBegin, EventsAreOne};
ghost use Rattle.afdx_cascade.specs.Again.{BroughtIsAccepted};
ghost use Rattle.afdx_cascade.specs.Due.{TurnComesNext, FrameComesNext};
ghost use Rattle.afdx_cascade.specs.Found.{ScanFindsLeast, NothingIsDue};
ghost use Rattle.afdx_cascade.specs.Standing.{NothingHappened, LineArrives, FrameArrives};
ghost use Rattle.afdx_cascade.specs.Standing.{TurnEnds, FrameIsCarried};
ghost use Rattle.afdx_cascade.specs.TwoHops.{FramePassesBoth, MessagePassesBoth};
ghost use Rattle.afdx_cascade.specs.Plans.{SwitchesAreAPlan};
ghost use Rattle.afdx_cascade.specs.Keeping.{StartKeeps, TurnKeeps};
ghost use Rattle.afdx_cascade.specs.Keeping.{FrontCanArrive, FrontKeeps, LineKeeps};
ghost use Rattle.afdx_cascade.specs.Standing.{SlotJoinsBehind, TurnStaysBehind, ArrivalStaysBehind};
ghost use Rattle.afdx_cascade.specs.Admitted.{EachRowIsFed, RowsBeforeAreOne, WayTakesItsLatency};
ghost use Rattle.afdx_cascade.specs.Admitted.{CascadeIsAdmitted, RowsAreWays, RowsAreWholeWays};
ghost use Rattle.afdx_cascade.specs.Admitted.{CablesAreRead};
ghost use Rattle.afdx_cascade.specs.EndToEnd.{EachPortHasAWay, LinksLeave, FirstOfLinksLeave};
ghost use Rattle.afdx_cascade.specs.EndToEnd.{NoOthersLeave};
ghost use Rattle.afdx_cascade.specs.EndToEnd.{OwnAreOfList, ReasonsAreAlone, LinksAreAlone};
ghost use Rattle.afdx_cascade.specs.EndToEnd.{FirstReasonsAreAlone, FirstOfLinksAreAlone};
ghost use Rattle.afdx_cascade.specs.EndToEnd.{OnlyItsWayIsAccepted};
ghost use Rattle.afdx_cascade.specs.Receivers.{MessagesComeOnce, OneSideIsEnough};
ghost use Rattle.afdx_cascade.specs.Receivers.{MessagesComeSoFar, FirstMessagesCome};
ghost use Rattle.afdx_cascade.specs.Released.{ReleasedComeOnce, ReleasedComeSoFar};
ghost use Rattle.afdx_cascade.specs.Released.{OneSideBringsAll};
ghost use Rattle.afdx_cascade.specs.Kept.{CascadeKeepsEndToEnd, CascadeKeepsSoFar};

use afdx_frame::laws::built_is_computed;

/// From a port of an admitted switch leave the frames of a link that it accepted, as arrivals at
/// the end of their cable: byte for byte, in order, each within the latency.
pub fn accepted_frames_leave()
    ensures in_order { CablesBringInOrder }
    ensures so_far { FirstFramesLeave }
    ensures all { AllFramesLeave }
{}

/// What an admitted switch accepted of a link, and a cable brings to the next switch, is accepted
/// there, where the jitter has room for the latency; whatever else arrives.
pub fn accepted_is_accepted_again()
    ensures { AcceptedIsAcceptedAgain }
{}

/// Along a link's way: accepted once is accepted everywhere, and the end to end latency is at most
/// the sum of the latencies.
pub fn ways_keep_frames()
    ensures accepted_so_far { FirstAreAccepted }
    ensures leave_so_far { FirstLeave }
    ensures accepted { AllAreAccepted }
    ensures leave { AllLeave }
{}

/// Whatever else arrives anywhere, equal own arrivals of a link at its first switch, whatever their
/// tags, give equal frames in equal order at each switch of its way.
pub fn frames_are_alone()
    ensures { FramesAreAlone }
{}

/// All of these premises can be met: by two switches whose jitters differ by just the latency, and
/// a frame that passes both.
pub fn premises_are_met()
    ensures { PremisesAreMet }
{
    built_is_computed()
}

/// On a side each switch accepts, of any frames, at most as many as the list has there. So it
/// accepts a line's frame at most once, and there are few events for each line.
pub fn accepted_at_most_listed()
    ensures any { AcceptsAtMostListed }
    ensures line { AcceptsLineOnce }
    ensures few { EventsAreFew }
{}

/// The events of a cascade can be counted: of each frame of its list there are at most 1,153, and
/// at most 24 of these are arrivals that a switch accepted.
pub fn events_are_counted()
    ensures { EventsAreCounted }
{}

/// A list of frames has one list of events: after some events and with what is left of the list,
/// one event comes next.
pub fn events_are_one()
    ensures begin { EventsBegin }
    ensures one { EventsAreOne }
{}

/// The events at a switch are the first of those of its own tables and of what came to it. Where
/// nothing is due any more they are all of these.
pub fn switches_run_alone()
    ensures so_far { SwitchBeginsAlone }
    ensures all { SwitchRunsAlone }
{}

/// Where nothing is due any more, all that left the port at a cable's other end has arrived, in
/// order, but for what left too late to arrive anywhere. Before that it is the first of it: all but
/// one frame at most, which left last.
pub fn cables_bring_all()
    ensures all { CablesBringAll }
    ensures so_far { CablesBringFirst }
{}

/// The arrivals at ports where no cable is are those of the lines that were taken, and at each such
/// port of a switch those of the lines that name the switch and the port. Of any frames
/// each switch accepts at most as many as the list has; all events of the list are few, and no
/// others are.
pub fn events_are_of_list()
    ensures listed { ListedIsListed }
    ensures ports { PortsGetTheirLines }
    ensures all { EventsAreOfList }
{}

/// Of the events of a cascade too: what an admitted switch accepted of a link, and a cable brings
/// to an admitted switch, is accepted there.
pub fn brought_is_accepted()
    ensures { BroughtIsAccepted }
{}

/// What comes next is found by one number of each side's switch, and by a ring of what cables carry
/// now.
pub fn next_is_found()
    ensures turn { TurnComesNext }
    ensures frame { FrameComesNext }
{}

/// The scan of all switches finds the least of these numbers. If that is the number of no turn, and
/// the ring is empty, these were all events.
pub fn scan_finds_least()
    ensures least { ScanFindsLeast }
    ensures end { NothingIsDue }
{}

/// Networks, one for each switch, and a ring that stand for the events so far stand for one event
/// more, once one network has taken it in: a frame that arrives, of the list or of a cable, or a
/// turn that is over. New ones stand for no events.
pub fn stand_for_more()
    ensures first { NothingHappened }
    ensures line { LineArrives }
    ensures frame { FrameArrives }
    ensures turn { TurnEnds }
    ensures carried { FrameIsCarried }
{}

/// Through each event the ring stays in the order in which its frames arrive.
pub fn ring_stays_in_order()
    ensures joins { SlotJoinsBehind }
    ensures turn { TurnStaysBehind }
    ensures arrival { ArrivalStaysBehind }
{}

/// The switches of a configuration are a plan: the other end of each cable is at a port of a
/// switch, and leads back.
pub fn switches_are_a_plan()
    ensures { SwitchesAreAPlan }
{}

/// New networks and an empty ring keep to no events.
pub fn nothing_has_happened()
    ensures { StartKeeps }
{}

/// A turn is over. If it is the one that the scan finds, it is the next event, and networks and
/// ring keep to one event more.
pub fn turns_go_on()
    ensures { TurnKeeps }
{}

/// A frame arrives, from the front of the ring or of the list: it is the next event, and networks
/// and ring keep to one event more.
pub fn arrivals_go_on()
    ensures can { FrontCanArrive }
    ensures front { FrontKeeps }
    ensures line { LineKeeps }
{}

/// The premises of the laws of events can be met: by a list whose one frame passes two switches, in
/// four events. These are all events of two switches that are admitted together; the frame came on
/// one side, and the system at the second switch is told its message, once.
pub fn events_can_be_met()
    ensures frame { FramePassesBoth }
    ensures message { MessagePassesBoth }
{
    built_is_computed()
}

/// Each row of a link of an admitted cascade ends one way, which begins at the row that a system
/// sends. The sum of its latencies is that of admission.
pub fn rows_are_fed()
    ensures fed { EachRowIsFed }
    ensures one { RowsBeforeAreOne }
    ensures latency { WayTakesItsLatency }
{}

/// These rows are a way of the link's frames, over what came to each switch so far. Where nothing
/// is due any more, and the list's frames came by 10^15 ns, the way is whole: each cable has
/// brought all that its port gives.
pub fn rows_are_ways()
    ensures cascade { CascadeIsAdmitted }
    ensures so_far { RowsAreWays }
    ensures whole { RowsAreWholeWays }
{}

/// What a cable brings to a switch of an admitted cascade is of a link whose frames come in there,
/// and is accepted.
pub fn cables_are_read()
    ensures { CablesAreRead }
{}

/// End to end in an admitted cascade: by all events, from each port of a link's way leave just the
/// frames of the link that its first switch accepted, byte for byte and in order, each later than
/// it came there and at most the sum of the way's latencies after. Before all events are over these
/// are the first of them. From all other ports leaves none.
pub fn links_leave_end_to_end()
    ensures ways { EachPortHasAWay }
    ensures all { LinksLeave }
    ensures so_far { FirstOfLinksLeave }
    ensures others { NoOthersLeave }
{}

/// Alone in an admitted cascade: two lists that have at a link's first switch on a side equal own
/// arrivals of it, but for their tags, give equal verdicts there, and by all events equal frames in
/// equal order at each port of the link's way. Where the one has so far the first of the other's
/// own arrivals, it has given the first of these. Whatever else comes under its name to a later
/// switch is dropped.
pub fn links_are_alone()
    ensures listed { OwnAreOfList }
    ensures reasons { ReasonsAreAlone }
    ensures first_reasons { FirstReasonsAreAlone }
    ensures frames { LinksAreAlone }
    ensures first_frames { FirstOfLinksAreAlone }
    ensures way { OnlyItsWayIsAccepted }
{}

/// Exactly once through an admitted cascade: where a link's lawful stream comes to its first switch
/// at its sender's port, on both sides or on one, each system that the link goes to, at whichever
/// switch, is told the messages to its UDP ports, each once and in order. Where only the first of
/// it comes on each side, they are those as far as one of the sides has come. Before all events are
/// over they are those as far as its frames have left for the system on one of the sides.
pub fn messages_come_end_to_end()
    ensures all { MessagesComeOnce }
    ensures one_side { OneSideIsEnough }
    ensures so_far { MessagesComeSoFar }
    ensures first { FirstMessagesCome }
{
    built_is_computed()
}

/// Where all that comes at the port of a link's sender, on both sides, is what it sent, in its
/// order, each receiver of the link, at whichever switch, is told the released messages to its UDP
/// ports, each once and in order of their releases. Where only the first of it comes on each side,
/// they are told as far as one side has come; so, where on one side all comes, all are.
pub fn released_come_end_to_end()
    ensures once { ReleasedComeOnce }
    ensures so_far { ReleasedComeSoFar }
    ensures one_side { OneSideBringsAll }
{
    built_is_computed()
}

/// All that an admitted cascade keeps from end to end, of all its events and of the first of them:
/// accepted once is accepted everywhere; what leaves, and when; alone; exactly once.
pub fn cascades_keep_end_to_end()
    ensures all { CascadeKeepsEndToEnd }
    ensures so_far { CascadeKeepsSoFar }
{
    built_is_computed()
}
