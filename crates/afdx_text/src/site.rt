//! Where a line says that something was.

ghost use Rattle.std.specs.Prelude.{◌≡◌};
ghost use Rattle.afdx_text.specs.OutLines.{side_text, site_text};

use afdx_frame::Side;

/// A side, and a switch of it where there are several.
#[derive(Clone, Copy, Debug, PartialEq, Eq)]
pub struct Site<'a> {
    pub side: Side,
    /// The switch's name; empty where each side has one switch.
    pub switch: &'a str,
}

impl Site<'static> {
    /// The one switch of a side.
    #[inline(always)]
    pub fn on(side: Side) -> Site<'static>
        ensures { site_text result ≡ side_text side }
    {
        Site { side, switch: "" }
    }
}
