//! What is true of each sender that stands for calls, over definitions alone.

ghost use Rattle.afdx_send.specs.Laws.{EmissionsAreInTime, EmissionsAreLawful, FirstReleasesAgree};
ghost use Rattle.afdx_send.specs.Laws.{EmissionsAreBuildable, ZeroComesFirst};
ghost use Rattle.afdx_send.specs.Complete.{AllIsSent, EmissionsAreOfTaken};
ghost use Rattle.afdx_send.specs.Words.{TheRefusalWords};

use crate::released::Released;
use afdx_frame::laws::built_is_computed;
use afdx_law_bounds::laws::{sender_is_bounded, tables_are_served};
use afdx_port::laws::taken_are_on_schedule;

/// Each emission ends when one frame of each of the system's links could have been sent since its
/// release.
///
/// The builder takes each. What a link has emitted is a lawful stream of the beginning of its sent
/// list.
pub fn emissions_are_lawful()
    ensures in_time { EmissionsAreInTime }
    ensures buildable { EmissionsAreBuildable }
    ensures lawful { EmissionsAreLawful }
{
    sender_is_bounded::<Released>();
    taken_are_on_schedule::<Released>()
}

/// Of a lawful stream only the first frames have the number 0. So where a link that has emitted
/// goes on lawfully, as with what `Sender::emit` gives, the next frames aren't built under 0: 255
/// is not followed by 0.
pub fn zero_comes_first()
    ensures { ZeroComesFirst }
{
    built_is_computed()
}

/// The releases of what a sender took are determined: of two lists of first releases one begins the
/// other.
pub fn first_releases_agree()
    ensures { FirstReleasesAgree }
{}

/// Where admitted tables' system has emitted all that it took, what each of its links has emitted
/// is a lawful stream of the messages that the link took: each once, and those of a sub-VL in the
/// order in which they came.
///
/// Each emission is the frame of one of them. This is so for all emissions that are the slots of
/// all releases, whatever sent them.
pub fn all_is_sent()
    ensures sent { AllIsSent }
    ensures frames { EmissionsAreOfTaken }
{
    sender_is_bounded::<Released>();
    tables_are_served()
}

/// The words of the refusals are those of the formats.
#[tactic(auto, unfolding(crate::specs::Words::refusal_words))]
pub fn words_are()
    ensures { TheRefusalWords }
{}
