//! What is true of admitted ports, over definitions alone. Times are in ns.
//!
//! A port is regulated (specs `IsRegulated`) if it is admitted with the links that send there, and
//! its entries stand in order and are what the window rule accepts of each link (ARINC 664 Part 7,
//! traffic policing).

ghost use Rattle.afdx_law_bounds.specs.Admitted.{WorkIsMissing, HighWorkIsMissing, LowWorkFalls};
ghost use Rattle.afdx_law_bounds.specs.Admitted.{StartIsRegulated, NextIsRegulated, NoneIsLost};
ghost use Rattle.afdx_law_bounds.specs.Admitted.{EachIsInTime, NoneIsTooOld, EachHasLeft};
ghost use Rattle.afdx_law_bounds.specs.CurveLaws.{WaitingIsBounded, HighIsBounded, LowIsBounded};
ghost use Rattle.afdx_law_bounds.specs.Examples.{PairIsAdmitted, PairIsServed, ThreeAreSent};
ghost use Rattle.afdx_law_bounds.specs.Needed.{EachLineIsNeeded};
ghost use Rattle.afdx_law_bounds.specs.Offered.{OffersAreEntries};
ghost use Rattle.afdx_law_bounds.specs.Outputs.{BytesCarry};
ghost use Rattle.afdx_law_bounds.specs.OutputLaws.{SentIsOffered, UnsentIsNot, EntriesAreRegulated};
ghost use Rattle.afdx_law_bounds.specs.OutputLaws.{EntriesAreAccepted, OffersEnter, ArrivalIsKept};
ghost use Rattle.afdx_law_bounds.specs.OutputLaws.{ArrivalsAreInTime, ArrivalsAreNotOld};
ghost use Rattle.afdx_law_bounds.specs.OutputLaws.{ArrivalsHaveLeft};
ghost use Rattle.afdx_law_bounds.specs.PortLaws.{PutIsKept, TakenAreInTime, TakenAreNotOld};
ghost use Rattle.afdx_law_bounds.specs.PortLaws.{AllWereTaken};
ghost use Rattle.afdx_law_bounds.specs.Sender.{SenderIsAdmitted, SenderIsRegulated, SenderIsNeverFull};
ghost use Rattle.afdx_law_bounds.specs.Sender.{SenderIsInTime};
ghost use Rattle.afdx_law_bounds.specs.Tables.{PortsAreOfSystems, EachOutputIsServed};
ghost use Rattle.afdx_law_bounds.specs.Tables.{EachSystemIsSender};
ghost use Rattle.afdx_law_bounds.specs.TableLaws.{NothingIsLost, EachHasItsSlot, EachSlotHasCome};

use afdx_police::laws::{accounts_move, arrivals_are_offers, regular_is_accepted};
use afdx_port::HasLength;
use afdx_port::laws::{due_is_next, taken_are_on_schedule};

/// Where what comes of each class keeps a burst and a rate, and the line carries both rates, no
/// more bytes wait than the two bursts.
pub fn waiting_is_bounded<T>()
    ensures { WaitingIsBounded T }
{}

/// Where what comes of each class keeps a burst and a rate, and the line carries both rates, each
/// turn is over when the bursts before its frame could have been sent.
pub fn turns_end_soon<T>()
    ensures high { HighIsBounded T }
    ensures low { LowIsBounded T }
{}

/// The balances: the work left at a port is at most what is missing in its links' accounts
/// together; so is the high work left in those of the high links, but for one low frame; and along
/// the wait of a low frame the bound falls.
pub fn work_is_missing<T>()
    ensures all { WorkIsMissing T }
    ensures high { HighWorkIsMissing T }
    ensures low { LowWorkFalls T }
{
    accounts_move()
}

/// An admitted port with no entries is regulated, and stays so with a further frame that fits by
/// the window rule.
pub fn stays_regulated<T>()
    ensures start { StartIsRegulated T }
    ensures next { NextIsRegulated T }
{}

/// At a regulated port no frame is lost to a full buffer.
pub fn none_is_lost<T>()
    ensures { NoneIsLost T }
{
    accounts_move()
}

/// At a regulated port each frame's turn is over within its link's latency.
///
/// So none is dropped for its age that may wait as long as that, and when no further turn is given
/// by a time, each of them whose latency is over by then has had its turn.
pub fn each_is_in_time<T>()
    ensures within { EachIsInTime T }
    ensures not_old { NoneIsTooOld T }
    ensures left { EachHasLeft T }
{
    accounts_move()
}

/// A port that stands for calls by which it is regulated keeps each frame that leaves it so, and
/// gives each in time. Where it gives nothing, each frame whose latency is over was taken.
pub fn ports_are_in_time<T: HasLength>()
    ensures kept { PutIsKept T.facts }
    ensures within { TakenAreInTime T.facts }
    ensures not_old { TakenAreNotOld T.facts }
    ensures all { AllWereTaken T.facts }
{
    accounts_move();
    taken_are_on_schedule::<T>();
    due_is_next::<T>()
}

/// A sender's own port of 65,536 bytes is regulated by streams that keep their gaps. So it is never
/// full, and each frame has been sent when one frame of each link could have been since its
/// release.
pub fn sender_is_bounded<T>()
    ensures admitted { SenderIsAdmitted }
    ensures regulated { SenderIsRegulated T }
    ensures never_full { SenderIsNeverFull T }
    ensures in_time { SenderIsInTime T }
{
    accounts_move();
    regular_is_accepted()
}

/// Where the port would be regulated by all that it is offered, each offer becomes an entry.
pub fn offers_are_entries<T>()
    ensures { OffersAreEntries T }
{
    accounts_move()
}

/// What an output port is offered grows by an arrival exactly if a row sends it there.
pub fn offers_grow<T>()
    ensures sent { SentIsOffered T }
    ensures unsent { UnsentIsNot T }
{}

/// A port that holds a frame's bytes knows its link and its charge.
pub fn bytes_carry<T>()
    ensures { BytesCarry T }
{}

/// An admitted output port, over all that arrives at the switches: its entries regulate it, are
/// exactly what is accepted of each link's own arrivals on its side, and none of that is lost.
pub fn arrivals_are_kept<T>()
    ensures regulated { EntriesAreRegulated T }
    ensures accepted { EntriesAreAccepted T }
    ensures enter { OffersEnter T }
    ensures kept { ArrivalIsKept T }
{
    accounts_move();
    arrivals_are_offers()
}

/// At an admitted output port, over all that arrives at the switches, each accepted frame has its
/// turn within its link's latency: a slot, if the link's frames may wait as long as that.
pub fn arrivals_are_in_time<T>()
    ensures within { ArrivalsAreInTime T }
    ensures not_old { ArrivalsAreNotOld T }
    ensures left { ArrivalsHaveLeft T }
{
    accounts_move();
    arrivals_are_offers()
}

/// The output port with a system's number has that system's line, and the links that go there are
/// those that go to the system.
pub fn ports_are_of_systems()
    ensures { PortsAreOfSystems }
{}

/// Where the tables are admitted, each output port is admitted with the flows that they say go
/// there, and each system's own port with the links that it sends.
pub fn tables_are_served()
    ensures outputs { EachOutputIsServed }
    ensures senders { EachSystemIsSender }
{}

/// Admitted tables, whatever arrives: no output port loses anything, and each frame of a link that
/// goes there has a slot that ends within the link's latency. So it has been sent when the port
/// gives nothing more by then.
pub fn admitted_tables_keep_all<T>()
    ensures nothing_lost { NothingIsLost T }
    ensures slot { EachHasItsSlot T }
    ensures has_come { EachSlotHasCome T }
{
    accounts_move();
    arrivals_are_offers()
}

/// Examples: a pair of links is admitted with 252 bytes, 17 us and 21 us, and with no byte and no
/// whole microsecond less, and a sender with three links of the longest frames at 100 Mbit/s and
/// not with four.
pub fn examples_are_admitted()
    ensures pair { PairIsAdmitted }
    ensures served { PairIsServed }
    ensures sender { ThreeAreSent }
{}

/// With an overload, a latency one ns short, a smaller buffer or no policing, the promises are
/// false.
pub fn each_line_is_needed()
    ensures { EachLineIsNeeded }
{}
