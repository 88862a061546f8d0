//! What a network whose tables are admitted promises, whatever arrives at its switches.

ghost use Rattle.afdx_law_promises.specs.ByDefinition.{LossesAreByDefinition, EventsAreByDefinition, EventsSoFarAreByDefinition};
ghost use Rattle.afdx_law_promises.specs.Examples.{PremisesAreMet, AdmissionIsNeeded, TimesAreNeeded};
ghost use Rattle.afdx_law_promises.specs.NetworkPromises.{PortsAreAsPromised, LeftSoFarAreFirst, ReceptionsAreOne, ReceptionsExist, EventsBringReceptions, LinksAreApart, MessagesComeSoFar, MessagesComeOnce, EventsAreAsPromised, EventsSoFarAreAsPromised};
ghost use Rattle.afdx_law_promises.specs.NoSooner.{NoneEndsTooSoon, NoneLeavesTooSoon, NoneLeavesTooSoonSoFar};
ghost use Rattle.afdx_law_promises.specs.Sent.{SentIsFed, StreamIsOfSendings, ReleasedAreToldOnce};
ghost use Rattle.afdx_law_promises.specs.Sent.{ReleasedAreToldSoFar, OneSideIsEnough};
ghost use Rattle.afdx_law_promises.specs.Promises.{PromisesAreKept, PromisesAreKeptSoFar, MessagesAreToldOnce, MessagesAreToldOnceSoFar, StreamsAreToldAccepted, StreamsAreToldAcceptedSoFar};

use afdx_frame::laws::built_is_computed;

/// Each virtual link's verdicts, and its frames that leave each switch port, in order, are the
/// window rule's answer on that link's own arrivals alone; every accepted frame leaves each of its
/// ports within the link's latency; and what a receiver delivers on a link is the integrity and
/// redundancy rules' answer on that link's arrivals there alone: of the lines that tell all events.
///
/// Of the lines up to the last arrival, what has left a port of a link's frames is a beginning of
/// those.
pub fn promises_are_kept()
    ensures all { PromisesAreKept }
    ensures so_far { PromisesAreKeptSoFar }
{}

/// Of a link's lawful stream on both sides, each of its receivers' M lines are exactly the messages
/// to its UDP ports, each once and in order.
///
/// Where only the first frames of the stream arrive, not as many on both sides, they are those as
/// far as one of the sides has come: a network may fail in the middle.
pub fn messages_are_told_once()
    ensures all { MessagesAreToldOnce }
    ensures so_far { MessagesAreToldOnceSoFar }
{
    built_is_computed()
}

/// The ports of the switches keep the promises: their turns are the schedule of their entries, of
/// which none is lost.
///
/// Where a port has given only some of its turns, the frames of a link that left it are the first
/// of those.
pub fn ports_are_as_promised()
    ensures all { PortsAreAsPromised }
    ensures so_far { LeftSoFarAreFirst }
{}

/// All events in their one order keep the promises: each verdict, no loss, each departure in time,
/// and what comes to each receiver.
///
/// And so do those up to the last arrival: what has left a port of a link's frames are the first
/// of its accepted ones.
pub fn events_are_as_promised()
    ensures all { EventsAreAsPromised }
    ensures so_far { EventsSoFarAreAsPromised }
{}

/// No frame leaves a port before it came and had its time on the wire, whatever the tables: no slot
/// of a port ends sooner, and no departure among events, all of them or those up to the last
/// arrival.
pub fn none_leaves_too_soon()
    ensures slots { NoneEndsTooSoon }
    ensures all { NoneLeavesTooSoon }
    ensures so_far { NoneLeavesTooSoonSoFar }
{}

/// Also where tables aren't admitted, events are those of the definition: each verdict, each copy
/// that is lost, each entry of a port, and its turns, which are the one schedule of its entries.
///
/// And so are those up to the last arrival: the turns of each port so far begin its schedule.
pub fn events_are_by_definition()
    ensures losses { LossesAreByDefinition }
    ensures all { EventsAreByDefinition }
    ensures so_far { EventsSoFarAreByDefinition }
{}

/// What comes to a receiver is one list: what left its port on both sides, by time, at one time
/// side A first. It is what the one order of all events brings.
pub fn receptions_are_one()
    ensures exist { ReceptionsExist }
    ensures only { ReceptionsAreOne }
    ensures events { EventsBringReceptions }
{}

/// Whatever else arrives, equal own arrivals of a link give equal verdicts and equal frames at each
/// port.
pub fn links_are_apart()
    ensures { LinksAreApart }
{}

/// Of the lines that tell all events, or those up to the last arrival, each verdict on a link's
/// lawful stream at its sender's port is accept.
pub fn streams_are_accepted()
    ensures told { StreamsAreToldAccepted }
    ensures told_so_far { StreamsAreToldAcceptedSoFar }
{
    built_is_computed()
}

/// Each receiver of a link that is sent lawfully on both sides delivers exactly the messages to its
/// UDP ports, each once and in order.
///
/// Where only the first frames of the stream arrive, not as many on both sides, it delivers those
/// as far as one of the sides has come: a network may fail in the middle.
pub fn messages_come_once()
    ensures all { MessagesComeOnce }
    ensures so_far { MessagesComeSoFar }
{
    built_is_computed()
}

/// All of these premises can be met: by tables of two systems and a link, and its stream of two
/// frames on both sides. With a latency of 1 us, in tables that are not admitted, the promises of
/// the ports are false; two entries of one class, the first of which came later, have no schedule.
pub fn premises_are_met()
    ensures met { PremisesAreMet }
    ensures needed { AdmissionIsNeeded }
    ensures times { TimesAreNeeded }
{
    built_is_computed()
}

/// Where all that arrives at the port of a link's sender, on both sides, is what it sent, in its
/// order, both sides are fed with the link's stream, whole; so, where it emitted lawfully, each
/// receiver's M lines are exactly the released messages to its UDP ports, each once and in order of
/// their releases.
///
/// Where only the first of it arrives, as when a network fails in the middle, they are told as far
/// as one of the sides has come; so, where on one side all comes, all are.
pub fn sent_is_told_once()
    ensures fed { SentIsFed }
    ensures stream { StreamIsOfSendings }
    ensures once { ReleasedAreToldOnce }
    ensures so_far { ReleasedAreToldSoFar }
    ensures one_side { OneSideIsEnough }
{
    built_is_computed()
}
