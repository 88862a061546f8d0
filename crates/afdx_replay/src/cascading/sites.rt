//! The lines of a list of several switches on each side: which switches they name.

ghost use Rattle.std.specs.Prelude.{◌≡◌, ◌<◌, ◌≤◌, IfOk, length, refl};
ghost use Rattle.afdx_replay.specs.cascading.Sited as spec;
ghost use Rattle.afdx_replay.specs.cascading.Sited.{cables_of, site_of};

use afdx_config::{SwitchId, Switches};
use afdx_frame::LAST_PORT;
use afdx_input_lines::{Heading, LineError, ListedSwitch, read_sited_line};
use afdx_input_sources::LineForm;
use std::alloc::{AllocError, Global};

/// At the place of each port's number whether a cable is there, at this switch.
fn cables_at(alloc: Global, switches: &Switches, switch: SwitchId) -> Result<Vec<bool>, AllocError>
    requires { switch.0 < length switches.now }
    ensures { IfOk result (λ cables. cables.items ≡ cables_of switches.now switch.0) }
{
    let mut cables = Vec::new(alloc);
    for port in 0..=LAST_PORT {
        cables.push(switches.far_end(switch, port).is_some())?;
    }
    Ok(cables)
}

/// A switch, as lists name it.
fn site_at(alloc: Global, switches: &Switches, switch: SwitchId) -> Result<ListedSwitch, AllocError>
    requires { switch.0 < length switches.now }
    ensures { IfOk result (λ site. site ≡ site_of switches.now switch.0) }
{
    let cables = cables_at(alloc, switches, switch)?;
    let name = String::from_str(alloc, switches.name(switch))?;
    Ok(ListedSwitch::new(name, cables))
}

/// Each switch, as lists name it, in the order of the file.
pub(crate) fn sites_of(alloc: Global, switches: &Switches) -> Result<Vec<ListedSwitch>, AllocError>
    ensures { IfOk result (λ sites. sites.items ≡ spec.sites_of switches.now) }
{
    let mut sites = Vec::new(alloc);
    for place in 0..switches.id_count() {
        sites.push(site_at(alloc, switches, SwitchId(place))?)?;
    }
    Ok(sites)
}

/// The form of lines that name one of these switches.
#[derive(Drop)]
pub(crate) struct SitedLines<'a> {
    pub(crate) switches: &'a [ListedSwitch],
}

impl LineForm<Heading> for SitedLines<'_> {
    ghost use Rattle.afdx_cascade.specs.Runs.{Line};
    ghost use Rattle.afdx_input_lines.specs.SitedLines.{SitedFrame, sited_frame};
    ghost use Rattle.afdx_replay.specs.cascading.Sited.{IsAtSite, sited_frames};

    ghost IsForm = { λ form. length form.switches.now ≤ 24 };

    ghost Said = { SitedFrame };

    ghost Thing = { Line };

    ghost kind = { λ form. sited_frames form.switches.now };

    ghost says_of = { sited_frame };

    ghost Gives = { λ form item. IsAtSite form.switches.now item };

    fn read_line(
        &self,
        line: &[u8],
        latest: u64,
        frame: &mut Vec<u8>,
    ) -> Result<Option<Heading>, LineError> {
        read_sited_line(line, latest, self.switches, frame)
    }

    ghost times = { λ form n heading bytes. refl };
}
