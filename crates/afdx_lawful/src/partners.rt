//! Which frame that waits is the copy of another one.

ghost use Rattle.std.specs.Prelude.{◌≡◌, option_map, IfNone};
ghost use Rattle.afdx_frame.specs.declared.link.Side.{Side};
ghost use Rattle.afdx_lawful.specs.Alone.{number_in};
ghost use Rattle.afdx_lawful.specs.Courses.{AreOpen};
ghost use Rattle.afdx_lawful.specs.Partners.{may_pair, partner, without_first};
ghost use Rattle.afdx_lawful.specs.Rings.{all_as, waiting_as};
ghost use Rattle.afdx_lawful.specs.Sources.{Came, Source as Terms};

use crate::waiting_frames::WaitingFrames;
use crate::waits::Waits;

/// Takes the partner of a frame of this number out of those of the other side that wait, if there
/// is one: the oldest of the same number. All of them wait still: it comes within their hold.
pub(crate) fn take_partner(waiting: &mut WaitingFrames, number: u8) -> Option<Waits>
    ensures partner { (s : Terms) (side : Side) (x : Came) → number_in x ≡ number →
        AreOpen s x.time (all_as side waiting.old) →
        option_map (waiting_as side) result ≡ partner s x (all_as side waiting.old) }
    ensures none { IfNone result (waiting.new ≡ waiting.old) }
    ensures rest { (s : Terms) (side : Side) (x : Came) → number_in x ≡ number →
        AreOpen s x.time (all_as side waiting.old) → all_as side waiting.new
        ≡ without_first (may_pair s x) (all_as side waiting.old) }
{
    waiting.take_of(number)
}
