//! Frames that are no source's.

ghost use Rattle.std.specs.Prelude.{◌≡◌};
ghost use Rattle.afdx_frame.specs.Parts.{bytes_of, frame_of};
ghost use Rattle.afdx_senders.specs.Strays as spec;

use crate::sites::SourceOf;
use afdx_frame::{Checked, MacFault, MacView};

/// Why a frame is no source's that came where a system stands.
#[derive(Clone, Copy, Debug, PartialEq, Eq)]
pub enum Stray {
    /// It is too short or too long, or its check sequence is wrong.
    Damaged(MacFault),
    /// No row of the configuration has the link that it names.
    UnknownLink,
    /// The system that stands there doesn't send the link that it names.
    NotItsLink,
}

/// This, unless the frame is damaged.
fn shaped(frame: Checked<'_>, why: Stray) -> Stray
    ensures { result ≡ spec.shaped why (frame_of (bytes_of frame.entry)) }
{
    match MacView::of(frame) {
        Ok(_) => why,
        Err(fault) => Stray::Damaged(fault),
    }
}

/// Why a frame that is so is no source's; None: it is, or nothing is found of it.
pub(crate) fn stray_of(whose: SourceOf, frame: Checked<'_>) -> Option<Stray>
    ensures { result ≡ spec.stray_of whose (bytes_of frame.entry) }
{
    match whose {
        SourceOf::Source(_) => None,
        SourceOf::Elsewhere => Some(shaped(frame, Stray::NotItsLink)),
        SourceOf::Unknown => Some(shaped(frame, Stray::UnknownLink)),
        SourceOf::Nobody => None,
    }
}
