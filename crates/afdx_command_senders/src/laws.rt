//! Laws over what a run over a switch and one over its systems as senders say together.

ghost use Rattle.afdx_command_senders.specs.BothTold.{JoinedIsOne};
ghost use Rattle.afdx_command_senders.specs.Together.{BothShowOnce, LeftIsHeard};
ghost use Rattle.afdx_command_senders.specs.Together.{NoneAloneIsJudged, NoneLeftOutIsJudged};
ghost use Rattle.afdx_command_senders.specs.Together.{NoneLeftOutIsSent, TwoRunsShowOnce};
ghost use Rattle.afdx_command_senders.specs.TogetherExample.{BothAreMet};

/// In lawful tables of one switch on each side, where no link is alone, all systems are judged and
/// were recorded on both sides, and copies are asked to be sent no further apart than the way of
/// each receiver leaves them.
pub fn none_alone_is_judged()
    ensures { NoneAloneIsJudged }
{}

/// Where nothing is left out and nothing went before, a switch is judged by all that came and left
/// until the end, but for frames that are longer than any on a line; and its systems by all that
/// came.
pub fn none_left_out_is_judged()
    ensures switch { NoneLeftOutIsJudged }
    ensures senders { NoneLeftOutIsSent }
{}

/// Where nothing is found of a switch of lawful tables that keep admission, nor of its systems as
/// senders, with exact stamps and clocks, from a reset on, and nothing is open, left out, unseen or
/// alone: on each side exactly what a link's system sent left the port of each system that gets the
/// link, in order and in time; and what the rules of integrity and redundancy make of it are the
/// messages to that system's UDP ports, each once and in order.
///
/// So it is of one run of both judges, and of two runs, where the one over the senders took just
/// what came in the other. What comes to a system is what left its port on both sides, by time, in
/// whatever order at one time. It exists: what left can be merged, at one time that of side A
/// first.
pub fn both_show_once()
    ensures once { BothShowOnce }
    ensures two_runs { TwoRunsShowOnce }
    ensures heard { LeftIsHeard }
{}

/// All of this can be met: by what came to a switch of two systems on both sides and what left it,
/// of which neither judge tells a line, and each message is read once.
pub fn both_are_met()
    ensures { BothAreMet }
{}

/// What is told of systems and what is told of the switch, each in its own order, are all of one
/// list at most that goes by moment, side and port, at one port what is of systems first.
pub fn joined_is_one()
    ensures { JoinedIsOne }
{}
