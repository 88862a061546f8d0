//! By how much a frame came too early is told in a line.

ghost use Rattle.std.specs.Prelude.{◌≡◌, option_map};
ghost use Rattle.afdx_police.specs.Verdicts.{is_over_rate as over_rate};
ghost use Rattle.afdx_replay.specs.Early.{early_line, place_word};
ghost use Rattle.afdx_text.specs.OutLines.{side_text, site_text};
ghost use Rattle.afdx_text.specs.Telling.{Tells};

use afdx_frame::Side;
use afdx_input_lines::Watched;
use afdx_police::Reason;
use afdx_text::{Site, tell, tell_number};
use std::io::Write;

/// Whether a frame was dropped for its link's rate.
pub(crate) fn is_over_rate(reason: Option<Reason>) -> bool
    ensures { result ≡ over_rate reason }
{
    match reason {
        Some(Reason::OverRate) => true,
        _ => false,
    }
}

/// The letter of a side.
fn letter_of(side: Side) -> &'static [u8]
    ensures { result.now ≡ side_text side }
{
    match side {
        Side::A => b"A",
        Side::B => b"B",
    }
}

/// Tells a place: its side, and its switch's name if it has one.
fn tell_place<D: Write>(device: &mut Watched<D>, site: Site<'_>)
    ensures { Tells D.contents device.old device.new (site_text site.entry) }
{
    tell(device, letter_of(site.side));
    if !site.switch.is_empty() {
        tell(device, b" ");
        tell(device, site.switch.as_bytes());
    }
}

/// Tells a place and a space, if it is given.
fn tell_place_word<D: Write>(device: &mut Watched<D>, place: Option<Site<'_>>)
    ensures { Tells D.contents device.old device.new
        (place_word (option_map site_text place.entry)) }
{
    if let Some(site) = place {
        tell_place(device, site);
        tell(device, b" ");
    }
}

/// Tells by how many nanoseconds the frame of line `n` came too early, and at which place if that
/// is given.
pub(crate) fn tell_early<D: Write>(
    drops: &mut Watched<D>,
    n: u64,
    place: Option<Site<'_>>,
    wait: u64,
)
    ensures { Tells D.contents drops.old drops.new
        (early_line n (option_map site_text place.entry) wait) }
{
    tell(drops, b"early ");
    tell_number(drops, n);
    tell(drops, b" ");
    tell_place_word(drops, place);
    tell_number(drops, wait);
    tell(drops, b"\n");
}
