//! What is true of the definitions of a replay.

ghost use Rattle.afdx_replay.specs.cascading.OneSwitch.{CascadeOfOneIsItsSwitch};
ghost use Rattle.afdx_replay.specs.cascading.OneSwitch.{ListsAreAtSwitches};
ghost use Rattle.afdx_replay.specs.replaying.DefinedRun.{RunsAreByDefinition};
ghost use Rattle.afdx_replay.specs.replaying.Promises.{ArrivalsAreListed, NoneIsCounted};
ghost use Rattle.afdx_replay.specs.replaying.Promises.{ReplayIsAsPromised, ReplaySoFarIsAsPromised};

/// Where the tables are admitted, what a replay tells is as promised: each virtual link's verdicts,
/// and its frames that leave each switch port, in order, are the window rule's answer on that
/// link's own arrivals alone; every accepted frame leaves each of its ports within the link's
/// latency; and what a receiver delivers on a link is the integrity and redundancy rules' answer on
/// that link's arrivals there alone. No line tells of a loss, or of a frame that is too old. Of a
/// link's lawful stream on both sides each receiver gets exactly the messages to its UDP ports,
/// each once and in order.
///
/// So is what it tells up to the last arrival: what has left a port of a link's frames are then the
/// first of its accepted ones.
pub fn replay_is_as_promised()
    ensures all { ReplayIsAsPromised }
    ensures so_far { ReplaySoFarIsAsPromised }
    ensures none { NoneIsCounted }
{}

/// What a run answers and writes, on lawful tables that are admitted or not, is by the definition
/// of an output port: the times of its arrivals don't go back; each copy that is lost is one for
/// which the one schedule of the entries before it leaves no room; the turns of each port are the
/// one schedule of its entries.
pub fn runs_are_by_definition()
    ensures { RunsAreByDefinition }
{}

/// Each arrival of a list is the frame of one of its lines, under the line's number.
pub fn arrivals_are_listed()
    ensures { ArrivalsAreListed }
{}

/// A cascade of one switch a side has that switch's text. All events are at the switch, and what
/// came to it are the frames of the lines. The lines that are written are those of a run of its own
/// tables on these frames, each with the switch's name, and the counts are that run's.
///
/// This holds of lines that are at one of the switches. Those of a list are.
pub fn a_cascade_of_one_is_its_switch()
    ensures one { CascadeOfOneIsItsSwitch }
    ensures lists { ListsAreAtSwitches }
{}
