//! What is true of events, and of each network that stands for events.

ghost use Rattle.afdx_network.specs.Laws.{OneOrder, OneOrderSoFar, EventsAreInOrder, EventsSoFarAreInOrder, EventsAreFirst, EventsBegin, EventsAreSoFar};

/// All events of some arrivals stand in one order, which is computed.
pub fn one_order()
    ensures is { EventsAreInOrder }
    ensures only { OneOrder }
{}

/// The events of some arrivals up to the last of them stand in one order too: it is a part of that
/// of all events.
pub fn one_order_so_far()
    ensures is { EventsSoFarAreInOrder }
    ensures only { OneOrderSoFar }
{}

/// What a network has told is a beginning of all events: no other event comes before one of them.
pub fn events_are_first()
    ensures first { EventsAreFirst }
    ensures begin { EventsBegin }
    ensures so_far { EventsAreSoFar }
{}
