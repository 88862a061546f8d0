//! Which lines count, by what a run is asked.

ghost use Rattle.std.specs.Prelude.{◌≡◌, ℕ, List};
ghost use Rattle.std.specs.List.{list_any};
ghost use Rattle.afdx_command_conform.specs.Choices as asked;
ghost use Rattle.afdx_command_conform.specs.Choices.{Choices as Chosen};
ghost use Rattle.afdx_command_conform.specs.ChoicesOf.{choices_of};
ghost use Rattle.afdx_command_conform.specs.Sight.{Sight};
ghost use Rattle.afdx_conform.specs.LeewayOf.{leeway_of};
ghost use Rattle.afdx_input_sources.specs.Engine.{item_of};
ghost use Rattle.afdx_input_runs.specs.Joining.{frame_of};

use crate::choices::Choices;
use afdx_conform::Leeway;
use afdx_frame::VlId;
use afdx_input_lines::Role;
use afdx_input_runs::Seen;

/// Whether a time lies behind the end, if one is said.
pub(crate) fn is_behind(time: u64, until: Option<u64>) -> bool
    ensures { result ≡ asked.is_behind time until }
{
    match until {
        Some(until) => until < time,
        None => false,
    }
}

/// Whether a line of this time lies before the start: one of what left, by the reach of two stamps.
fn is_before(leeway: &Leeway, role: Role, time: u64) -> bool
    ensures { (c : Chosen) → c.by ≡ leeway_of leeway.now → result ≡ asked.is_before c role time }
{
    let Some(start) = leeway.start else {
        return false;
    };
    match role {
        Role::Came => time < start,
        Role::Left => time < start.saturating_sub(leeway.reach()),
    }
}

/// Whether a line lies from the start to the end.
pub fn is_in_time(choices: &Choices, seen: &Seen) -> bool
    ensures { (sight : Sight) (bytes : List ℕ) (n : ℕ) →
        result ≡ asked.is_in_time (choices_of sight choices.now)
        (frame_of (item_of n seen.now bytes)) }
{
    let time = seen.heading.time;
    !is_before(&choices.leeway, seen.role, time) && !is_behind(time, choices.until)
}

/// Whether frames of this link, or those of none, are left out.
pub fn is_left_out(choices: &Choices, vl: Option<VlId>) -> bool
    ensures { result ≡ list_any (λ link. asked.is_same_link link vl) choices.now.left_out.items }
{
    choices.left_out.contains(&vl)
}
