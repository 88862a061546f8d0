//! Laws over the definitions.

ghost use Rattle.afdx_receive.specs.Laws.{WithinIsSomeSteps, FramesAreOwn, AnswerIsOwn};
ghost use Rattle.afdx_receive.specs.Laws.{LinksAreReceived};
ghost use Rattle.afdx_receive.specs.Laws.{AnswerIsComputed};
ghost use Rattle.afdx_receive.specs.TwoStreams.{StandsByPlace, FirstCopiesWin};
ghost use Rattle.afdx_receive.specs.TwoStreams.{FirstCopiesAreCounted, SentIsWonOnce};
ghost use Rattle.afdx_receive.specs.Delivery.{SentIsDeliveredOnce};
ghost use Rattle.afdx_receive.specs.Copies.{StreamIsDeliveredOnce};
ghost use Rattle.afdx_receive.specs.CopiesApart.{ApartIsDeliveredOnce, SidesAreDeliveredOnce};
ghost use Rattle.afdx_receive.specs.Words.{TheOwnWords};

use afdx_frame::laws::{
    built_is_computed, datagram_is_computed, frame_is_computed, reading_is_computed,
};

/// One to some number of steps lead to a number exactly if one of them does.
pub fn within_is_some_steps()
    ensures { WithinIsSomeSteps }
{}

/// A link's frames of what arrived grow by its own frames alone.
pub fn frames_are_own()
    ensures { FramesAreOwn }
{}

/// The answer to a frame of a link that the system receives comes from that link's frames alone.
pub fn answer_is_own()
    ensures { AnswerIsOwn }
{}

/// A system receives each link that goes to it.
pub fn links_are_received()
    ensures { LinksAreReceived }
{}

/// There is one right answer to what arrives, and it is the one that is computed.
pub fn answer_is_computed()
    ensures { AnswerIsComputed }
{
    frame_is_computed();
    datagram_is_computed();
    reading_is_computed();
}

/// Of two streams in order the first copies win, and no others.
pub fn first_copies_win()
    ensures { FirstCopiesWin }
{}

/// The first copies are as many as came by the side that came further.
pub fn first_copies_are_counted()
    ensures { FirstCopiesAreCounted }
{}

/// What was sent is won once each, in order.
pub fn sent_is_won_once()
    ensures { SentIsWonOnce }
{}

/// Of two streams in order the next frame wins if it is a first copy, and else it is redundant.
pub fn next_stands_by_place()
    ensures { StandsByPlace }
{}

/// Of two streams in order exactly the messages that were sent to an open UDP port are delivered,
/// each once and in order.
pub fn sent_is_delivered_once()
    ensures { SentIsDeliveredOnce }
{}

/// Of a lawful stream, whose copies come by each network in order and within a latency of at most
/// the skew, exactly the messages to an open UDP port are delivered, each once and in order.
pub fn stream_is_delivered_once()
    ensures { StreamIsDeliveredOnce }
{
    built_is_computed();
}

/// Of two networks that send at times of their own, the copies of each frame so near each other
/// that one comes at most the skew after the other, exactly the messages to an open UDP port are
/// delivered, each once and in order. So it is where on each side the first frames came, as they
/// are recorded there, and all by time.
pub fn copies_apart_are_delivered_once()
    ensures all { ApartIsDeliveredOnce }
    ensures sides { SidesAreDeliveredOnce }
{}

/// The words of a receiver's own reasons are those of the formats.
#[tactic(auto, unfolding(crate::specs::Words::own_words))]
pub fn words_are()
    ensures { TheOwnWords }
{}
