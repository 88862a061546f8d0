//! What is true of the definitions, and of each switch that stands for calls, for the crates that
//! stand on them.

ghost use Rattle.afdx_switch.specs.Admitted.{AcceptedIsKept, AcceptedEnter, TurnsAreInTime, AllHaveLeft};
ghost use Rattle.afdx_switch.specs.Hops.{CopiesAreAccepted, NoCopyIsDropped};
ghost use Rattle.afdx_switch.specs.Laws.{VerdictsAreOwn, EntriesGrow, TakenAreTurns};
ghost use Rattle.afdx_switch.specs.Laws.{LinksGoInOrder, OtherSideIsApart, LostPortsAreListed};
ghost use Rattle.afdx_switch.specs.LinkFrames.{FramesAreOwn, AllFramesAreOwn, OthersGetNone};
ghost use Rattle.afdx_switch.specs.Streams.{StreamIsRegular, StreamIsAccepted};

use afdx_frame::laws::built_is_computed;

/// A verdict comes from the own arrivals of the link that the frame names.
pub fn verdicts_are_own()
    ensures { VerdictsAreOwn }
{}

/// What one more arrival adds to the entries of an output port: its own entry exactly if it came to
/// the port's side, is accepted, goes there and isn't lost there.
pub fn entries_grow()
    ensures { EntriesGrow }
{}

/// The turns that a switch gave at a port are turns of the port's entries, each next after those
/// before it.
pub fn taken_are_turns()
    ensures { TakenAreTurns }
{}

/// At each port the frames of a link have their turns in the order in which they came.
pub fn links_go_in_order()
    ensures { LinksGoInOrder }
{}

/// What a port gives of a link's frames is a beginning of what entered there of the link's own
/// arrivals on that side: those that are accepted, less those that are lost, byte for byte, with
/// their tags and in order; all of it once each entry has had its turn. At a port that the link
/// doesn't go to there is none. So it is on any tables, admitted or not.
pub fn frames_are_own()
    ensures given { FramesAreOwn }
    ensures all { AllFramesAreOwn }
    ensures others { OthersGetNone }
{}

/// What arrives at the switch of the other side changes nothing.
pub fn other_side_is_apart()
    ensures { OtherSideIsApart }
{}

/// The ports of an answer's set are those at which the arrival is lost.
pub fn lost_ports_are_listed()
    ensures { LostPortsAreListed }
{}

/// Admitted tables, whatever arrives: an accepted frame is lost nowhere. At each port that a link
/// goes to exactly its accepted frames enter, in the order in which they came, and at others none.
/// Their turns are slots that end within its latency, and each whose latency is over has had its
/// turn where no further one is given.
pub fn admitted_switch_keeps_all()
    ensures kept { AcceptedIsKept }
    ensures enter { AcceptedEnter }
    ensures in_time { TurnsAreInTime }
    ensures left { AllHaveLeft }
{}

/// What one switch accepted of a link is accepted by the next, where it comes there byte for byte
/// and in order, and the jitter has room for the delay: whatever else comes between, also under
/// the link's name at other ports.
pub fn copies_are_accepted()
    ensures accepted { CopiesAreAccepted }
    ensures by_tables { NoCopyIsDropped }
{}

/// A link's lawful stream at its sender's port is sound and keeps the link's gap. So on any lawful
/// tables it is accepted, whatever else comes, also under the link's name at other ports.
pub fn stream_is_accepted()
    ensures regular { StreamIsRegular }
    ensures accepted { StreamIsAccepted }
{
    built_is_computed()
}
