//! From what a sender takes to what a replay tells of it; and a replay's own frames conform.

ghost use Rattle.afdx_law_text.specs.EndToEnd.{TakenIsToldOnce, WrittenIsSent, RunsTellTakenOnce};
ghost use Rattle.afdx_law_text.specs.EndToEnd.{TextsAreLists};
ghost use Rattle.afdx_law_text.specs.Laws.{ListsAreRecorded, PromisedConforms};
ghost use Rattle.afdx_law_text.specs.Laws.{PromisedConformsExactly, PromisedIsAnswered};
ghost use Rattle.afdx_law_text.specs.Laws.{PromisedIsRight, ReplaysAreAnswered};
ghost use Rattle.afdx_law_text.specs.Laws.{ReplaysConform, ReplaysConformExactly};
ghost use Rattle.afdx_law_text.specs.Laws.{SwitchesAreAnswered, SwitchesConform};
ghost use Rattle.afdx_law_text.specs.Laws.{SwitchesConformExactly};
ghost use Rattle.afdx_law_text.specs.Laws.{ToldLeaveAsPromised, ToldLeaveInOrder};
ghost use Rattle.afdx_law_text.specs.Merged.{MergedAreToldOnce};
ghost use Rattle.afdx_law_text.specs.OneSide.{TakenIsToldByOneSide, TakenIsToldSoFar};
ghost use Rattle.afdx_law_text.specs.SentLaws.{SentLinesAreArrivals, EventsAreOne, SendsAreOne};
ghost use Rattle.afdx_law_text.specs.Several.{RunsBringTaken};
ghost use Rattle.afdx_law_text.specs.Several.{TakenComesEndToEnd, TakenComesByOneSide};
ghost use Rattle.afdx_law_text.specs.Several.{TakenComesSoFar, WrittenIsSentFrom};
ghost use Rattle.afdx_law_text.specs.Stops.{EventsSoFarAreOne, EventsSoFarBegin};
ghost use Rattle.afdx_law_text.specs.Stops.{StoppedSendsAreOne};

use afdx_command_conform::laws::{conforms_is_the_headline, right_conforms};
use afdx_frame::laws::built_is_computed;
use afdx_law_promises::laws::{promises_are_kept, sent_is_told_once};
use afdx_send::laws::all_is_sent;

/// Each R line of a sender's text whose time is at most 10^15 ns, read as a frame list of one line,
/// is the arrival of its frame: with its bytes, at its time, on its side and at its port.
///
/// So it is with each emission among the events of the first lines of a list of submissions, as far
/// as they have no fault.
pub fn sent_lines_are_arrivals()
    ensures { SentLinesAreArrivals }
{
    built_is_computed()
}

/// What a run that sends tells is determined by its list: there is one list of events of the
/// submissions, after which all that was taken is emitted, and so one text and one summary.
pub fn events_are_one()
    ensures events { EventsAreOne }
    ensures texts { SendsAreOne }
{}

/// Of a run that sends and stops, what it told up to a submission is so determined, too, and begins
/// what a run over a list tells that goes on.
pub fn stopped_events_are_one()
    ensures events { EventsSoFarAreOne }
    ensures begin { EventsSoFarBegin }
    ensures texts { StoppedSendsAreOne }
{}

/// Exactly once, end to end: where what `run_send` writes for a system is merged into a list that
/// `run` reads, in any way that keeps its order, and no other line of the list is at the system's
/// port, the M lines that `run` writes for each receiver of each link of that system are the
/// messages which the sender took for the link, of those to the receiver's UDP ports: each once,
/// in order of their releases; so, of a sub-VL, in the order in which they were handed over.
///
/// So it is too where on one side only the first of these lines come, as when a network fails;
/// where this is so on both sides, as far as one of them has come.
///
/// All tables that are lawful and admitted. The lists have no fault, and each emission ends by
/// 10^15 ns, the last time of a list. What a system sends is such a list by itself, where it has at
/// most a million lines.
pub fn taken_is_told_once()
    ensures lines { TakenIsToldOnce }
    ensures written { WrittenIsSent }
    ensures runs { RunsTellTakenOnce }
    ensures merged { MergedAreToldOnce }
    ensures one_side { TakenIsToldByOneSide }
    ensures so_far { TakenIsToldSoFar }
    ensures alone { TextsAreLists }
{
    all_is_sent();
    sent_is_told_once();
    built_is_computed()
}

/// Exactly once, end to end, over several switches a side: where what `run_send` writes for a
/// system of any switch is merged into a list that `run_cascade` reads, in any way that keeps its
/// order, and no other line of the list is at the system's port of that switch, the M lines for
/// each receiver of each link of that system, at whichever switch, are the messages which the
/// sender took for the link, of those to the receiver's UDP ports: each once, in order of their
/// releases; so, of a sub-VL, in the order in which they were handed over.
///
/// So it is too where on one side only the first of these lines come, as when a network fails;
/// where this is so on both sides, as far as one of them has come.
///
/// All cascades that are admitted. The lists have no fault, and each emission ends by 10^15 ns.
pub fn taken_comes_end_to_end()
    ensures lines { TakenComesEndToEnd }
    ensures written { WrittenIsSentFrom }
    ensures one_side { TakenComesByOneSide }
    ensures so_far { TakenComesSoFar }
    ensures runs { RunsBringTaken }
{
    all_is_sent();
    sent_is_told_once();
    built_is_computed()
}

/// Lines that keep the promises of a replay tell of frames that leave as promised; and what is
/// recorded of a switch whose frames do is that of a right switch, whatever is asked: any leeway,
/// start and end, any links left out, any ports recorded. No frame is foreign.
pub fn promised_is_right()
    ensures leave { ToldLeaveAsPromised }
    ensures right { PromisedIsRight }
{}

/// So no line of such a recording is a finding; with exact stamps and clocks, from a reset on,
/// there is none at all: no stream is unsure. A run never answers `deviates`, and where, besides,
/// nothing is passed over and a frame left, it answers `conforms`.
pub fn promised_conforms()
    ensures found { PromisedConforms }
    ensures exactly { PromisedConformsExactly }
    ensures answer { PromisedIsAnswered }
{
    right_conforms();
    conforms_is_the_headline()
}

/// A replay conforms: of its list, and of the frames that its D lines say left, no line is a
/// finding, and with exact stamps and clocks, from a reset on, there is none at all. It is answered
/// so, too.
pub fn replays_conform()
    ensures found { ReplaysConform }
    ensures exactly { ReplaysConformExactly }
    ensures answer { ReplaysAreAnswered }
{
    right_conforms();
    conforms_is_the_headline();
    promises_are_kept()
}

/// So does each switch of an admitted cascade, by its own tables: of all that came to it, of the
/// list and by cables, and of all that left it.
pub fn switches_conform()
    ensures found { SwitchesConform }
    ensures exactly { SwitchesConformExactly }
    ensures answer { SwitchesAreAnswered }
{
    right_conforms();
    conforms_is_the_headline();
    promises_are_kept()
}

/// The list of a replay and the frames that left by its text, one after another, are such a
/// recording, read as two lists at once.
pub fn lists_are_recorded()
    ensures lists { ListsAreRecorded }
    ensures order { ToldLeaveInOrder }
{}
