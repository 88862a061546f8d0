//! What a run over what came and what left is asked for.

ghost use Rattle.std.specs.Prelude.{◌≡◌, ◌↔◌, IsSome, IfSome};
ghost use Rattle.std.specs.Option.{ForSome};
ghost use Rattle.afdx_command_conform.specs.Choices.{IsUntil};

use afdx_conform::Leeway;
use afdx_frame::{LATEST_LISTED, VlId};

/// What is asked for: by how much a right switch may seem to differ from the rules, the end of the
/// recordings, what is left out, whether it doesn't matter that recorders lost frames, and whether
/// it conforms only if something is shown of each stream that is judged.
///
/// `until` is in ns, at most 10^15; None: the greatest time of all lines. Of `left_out` each is a
/// link whose frames are passed over, None all frames that name no link.
#[derive(Debug, Drop)]
pub struct Choices {
    pub leeway: Leeway,
    pub until: Option<u64>,
    pub left_out: Vec<Option<VlId>>,
    pub is_lossy: bool,
    pub is_exercised: bool,
    pub ghost in_range: { IsUntil until },
}

impl Choices {
    /// These; None exactly if the end is over 10^15 ns.
    pub fn new(
        leeway: Leeway,
        until: Option<u64>,
        left_out: Vec<Option<VlId>>,
        is_lossy: bool,
        is_exercised: bool,
    ) -> Option<Choices>
        ensures in_range { IsSome result ↔ IsUntil until }
        ensures given { IfSome result (λ choices. (choices.leeway ≡ leeway)
            × (choices.until ≡ until) × (choices.left_out ≡ left_out)
            × (choices.is_lossy ≡ is_lossy) × (choices.is_exercised ≡ is_exercised)) }
    {
        let has_end = match until {
            Some(until) => until <= LATEST_LISTED,
            None => true,
        };
        if has_end {
            Some(Choices {
                leeway,
                until,
                left_out,
                is_lossy,
                is_exercised,
            })
        } else {
            None
        }
    }
}
