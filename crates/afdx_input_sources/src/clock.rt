//! When arrivals come: their moments, counted from that of time 0.

ghost use Rattle.std.specs.Prelude.{◌≡◌, IfSome, IfNone, true, false};
ghost use Rattle.afdx_input_sources.specs.Timing.{is_late, line_by, origin_or, origin_with};

use crate::number::Number;
use crate::number_line::NumberLine;
use afdx_frame::LATEST_LISTED;

/// Tells which moment is time 0.
#[derive(Clone, Copy, Debug)]
pub struct Clock {
    /// That which was said, in ns since 1970.
    pub said: Option<u64>,
    /// That which it is, once it is known.
    pub zero: Option<u64>,
}

/// The moment that is time 0, once there is an arrival of this one.
fn origin_or(origin: Option<u64>, moment: u64) -> u64
    ensures { result ≡ origin_or origin moment }
{
    match origin {
        Some(origin) => origin,
        None => moment,
    }
}

impl Clock {
    /// A clock of this moment, or, where none is said, of that of the first arrival.
    pub fn new(said: Option<u64>) -> Clock
        ensures said { result.said ≡ said }
        ensures zero { result.zero ≡ said }
    {
        Clock { said, zero: said }
    }

    /// The line of a number that comes next. None: its time is too large.
    #[tactic(auto, unfolding(crate::specs::Timing::is_late, crate::specs::Timing::line_by))]
    pub fn line(&mut self, number: &Number) -> Option<NumberLine>
        ensures said { self.new.said ≡ self.old.said }
        ensures zero { IfSome result (λ line.
            self.new.zero ≡ origin_with number.now self.old.zero) }
        ensures early { IfSome result (λ line. is_late self.old.zero number.now ≡ false) }
        ensures line { IfSome result (λ line. line ≡ line_by self.old.zero number.now) }
        ensures late { IfNone result (is_late self.old.zero number.now ≡ true) }
    {
        match number {
            Number::Arrival(found) => {
                let origin = origin_or(self.zero, found.moment);
                let time = found.moment.saturating_sub(origin);
                if time > LATEST_LISTED {
                    return None;
                }
                self.zero = Some(origin);
                Some(NumberLine::Arrival {
                    kind: found.kind,
                    time,
                    role: found.role,
                    side: found.side,
                    switch: found.switch,
                    port: found.port,
                })
            }
            Number::Skipped(reason) => Some(NumberLine::Skipped(*reason)),
        }
    }
}
