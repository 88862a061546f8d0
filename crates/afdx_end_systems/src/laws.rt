//! Laws over the definitions.

ghost use Rattle.afdx_end_systems.specs.Laws.{MessagesAreDelivered, StreamIsToldOnce, ReceptionIsOwn};
ghost use Rattle.afdx_end_systems.specs.Laws.{ReceptionIsByTheRules, DropsHaveLinkReasons};
ghost use Rattle.afdx_end_systems.specs.ReadPorts.{MessagesArePassedOn};
ghost use Rattle.afdx_end_systems.specs.Worked.{WorkedRows};

use afdx_receive::laws::stream_is_delivered_once;

/// What is told of a frame comes from the frames of the same link that were handed over at the same
/// port before, and from nothing else.
pub fn reception_is_own()
    ensures { ReceptionIsOwn }
{}

/// The answer to a frame of a link that its system receives is that of the integrity and redundancy
/// rules to the link's frames there.
pub fn reception_is_by_the_rules()
    ensures { ReceptionIsByTheRules }
{}

/// The messages of a link that are delivered at a port are those that the rules deliver of the
/// link's frames there. So what `afdx_receive` says of streams holds of them.
pub fn messages_are_delivered()
    ensures { MessagesAreDelivered }
{}

/// Of a link's lawful stream, whose copies come to a port by each network in order and in time,
/// exactly the messages to an open UDP port are delivered there, each once and in order, whatever
/// else is handed over.
pub fn stream_is_told_once()
    ensures { StreamIsToldOnce }
{
    // (the same of the rules alone: a law of `afdx_receive`)
    stream_is_delivered_once();
}

/// A system that puts each message to its communication port and reads it there at once reads just
/// the bytes that are answered; then each sampling port holds the newest message that was delivered
/// to it, and each queue none, in which there is room for the next.
pub fn messages_are_passed_on()
    ensures { MessagesArePassedOn }
{}

/// A frame of a link that its system receives is delivered, or dropped as out of sequence,
/// redundant, for its datagram or for want of a port.
pub fn drops_have_link_reasons()
    ensures { DropsHaveLinkReasons }
{}

/// The definitions tell these examples as they should be told.
pub fn worked_rows()
    ensures { WorkedRows }
{}
