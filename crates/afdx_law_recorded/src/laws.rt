//! What recordings say of one link, where nothing is found of its sender, nor of the switch.

ghost use Rattle.afdx_law_recorded.specs.Examples.{CutIsMet, EachIsNeeded, PremisesAreMet};
ghost use Rattle.afdx_law_recorded.specs.Emitted.{EmittedHasNoLine, EmittedIsNeverAccused};
ghost use Rattle.afdx_law_recorded.specs.Exactly.{CutExactlyIsMet, CutFoundExactly, ExactlyIsMet};
ghost use Rattle.afdx_law_recorded.specs.Exactly.{FoundExactly, LawfulShowsNothing};
ghost use Rattle.afdx_law_recorded.specs.Lengths.{LengthsMatter};
ghost use Rattle.afdx_law_recorded.specs.OneSide.{SentIsWhatLeft};
ghost use Rattle.afdx_law_recorded.specs.Pairs.{QuietIsInPairs, QuietIsNumbered, UncutIsInPairs};
ghost use Rattle.afdx_law_recorded.specs.Receivers.{BothCarrySame, DeparturesMerge, EachCarriesOne};
ghost use Rattle.afdx_law_recorded.specs.Receivers.{LeastIsLeft, RecordedIsToldOnce};
ghost use Rattle.afdx_law_recorded.specs.Switches.{AllComeOnce};
ghost use Rattle.afdx_law_recorded.specs.Whole.{WholeIsMet};

use afdx_send::laws::emissions_are_lawful;

/// On one side: where nothing is found of what a system sent of a link there, and nothing of the
/// link's stream at a receiver's port, nor is anything open, what left that port is exactly what
/// the system sent, byte for byte and in order, each frame within the link's latency.
pub fn sent_is_what_left()
    ensures { SentIsWhatLeft }
{}

/// On both networks: where nothing is found of what a system sent of a link, the frames of one
/// place on both sides are copies of each other, as far as both sides have come; and each has the
/// number of its place. Where no copy is cut off by the end, each has one.
pub fn copies_have_one_place()
    ensures pairs { QuietIsInPairs }
    ensures all { UncutIsInPairs }
    ensures numbers { QuietIsNumbered }
{}

/// On both networks, by exact stamps and clocks and from a reset on: nothing is found of what a
/// system sent of a link exactly if there are messages, and a stream of them that is lawful on two
/// networks, of which the frames are what was recorded. So it is where no copy is cut off, and
/// where all copies may be sent as far apart. Of such a stream nothing is found whatever is cut
/// off, and whatever the options. Two examples meet the premises. In a third one copies of two
/// lengths are cut off: nothing is found, and there is no such stream.
pub fn nothing_is_found_exactly()
    ensures exactly { FoundExactly }
    ensures cut { CutFoundExactly }
    ensures lawful { LawfulShowsNothing }
    ensures met { ExactlyIsMet }
    ensures cut_met { CutExactlyIsMet }
    ensures needed { LengthsMatter }
{}

/// What a sender emits of a link, at one time on both networks, has no finding, whatever the
/// options. Where all that came to a switch was emitted so, there is no line of its systems.
pub fn emitted_is_never_accused()
    ensures link { EmittedIsNeverAccused }
    ensures all { EmittedHasNoLine }
{
    emissions_are_lawful()
}

/// Where nothing is found of the sender of a link on both networks, nor of the link's streams at a
/// receiver's port on both sides, and nothing is open, the receiver gets each message once and in
/// order: as far as the side that has more, and by the times at which frames left the port.
///
/// Each frame carries one message. Where no copy is cut off by the end both sides carry the same.
pub fn recorded_is_told_once()
    ensures once { RecordedIsToldOnce }
    ensures each { EachCarriesOne }
    ensures same { BothCarrySame }
{}

/// Of all links of a switch a side: where no line is told of its systems as senders, on both sides,
/// and of no stream at a receiver's port anything is found, nor is anything open, each receiver
/// gets the messages to its UDP ports that a link's system sent, each once and in order; and on
/// each side what left the receiver's port is exactly what the system sent there, in order and in
/// time.
pub fn all_come_once()
    ensures { AllComeOnce }
{}

/// What left a receiver's port on both sides, by time on each, can be merged by time, at one time
/// that of side A first: so there is something that comes to the receiver.
pub fn departures_merge()
    ensures { DeparturesMerge }
{}

/// What the tables leave for how far apart copies may be sent is no more than each way of the link
/// leaves.
pub fn tables_leave_the_least()
    ensures { LeastIsLeft }
{}

/// All of these premises can be met: by a link of which two messages are sent on both networks,
/// which are read once each. So they can where the end cuts off a copy, and of a whole switch of
/// two systems.
///
/// In three examples all but one are met, and a message is read twice: where a frame may take a
/// nanosecond inside beyond its latency, where copies may be sent a nanosecond further apart than
/// the way leaves them, and where the skew is less than the latency.
pub fn premises_are_met()
    ensures met { PremisesAreMet }
    ensures cut { CutIsMet }
    ensures whole { WholeIsMet }
    ensures needed { EachIsNeeded }
{}
