//! Where a frame of a recording came in, or left: by what options say, else by its bytes.

ghost use Rattle.std.specs.Prelude.{◌≡◌};
ghost use Rattle.afdx_input_sources.specs.Becoming as spec;
ghost use Rattle.afdx_input_sources.specs.Claims as claims;
ghost use Rattle.afdx_input_sources.specs.Claims.{ports_of};
ghost use Rattle.afdx_input_sources.specs.Places as places;

use crate::becoming::NoArrival;
use crate::places::{TapPoint, TapPort};
use crate::senders::{SystemPorts, side_claimed};
use crate::skipped::Skipped;
use afdx_frame::{Side, vl_of};
use afdx_input_lines::Role;

/// Where a frame came in, or left.
#[derive(Clone, Copy, Debug)]
pub(crate) struct Entrance {
    pub(crate) role: Role,
    pub(crate) side: Side,
    pub(crate) entry: TapPort,
    pub(crate) is_claimed: bool,
    pub(crate) is_contradicted: bool,
}

/// What the frames of an interface with this place did.
fn role_of(place: Option<TapPoint>) -> Role
    ensures { result ≡ places.role_of place }
{
    match place {
        Some(TapPoint::Left(_, _)) => Role::Left,
        _ => Role::Came,
    }
}

/// The side that is said: that of the network whose recording it is, or of the place.
fn side_said(network: Option<Side>, place: Option<TapPoint>) -> Option<Side>
    ensures { result ≡ spec.side_said network place }
{
    match (network, place) {
        (Some(side), _) => Some(side),
        (None, Some(TapPoint::OnSide(side))) => Some(side),
        (None, Some(TapPoint::AtPort(side, _))) => Some(side),
        (None, Some(TapPoint::AtNamed(side, _, _))) => Some(side),
        (None, Some(TapPoint::AtSwitch(side, _, _))) => Some(side),
        (None, Some(TapPoint::Left(side, _))) => Some(side),
        (None, _) => None,
    }
}

/// The switch and the port, where a place says both.
fn entry_said(place: Option<TapPoint>) -> Option<TapPort>
    ensures { result ≡ places.entry_said place }
{
    match place {
        Some(TapPoint::AtPort(_, port)) => Some(TapPort { switch: 0, port }),
        Some(TapPoint::Left(_, port)) => Some(TapPort { switch: 0, port }),
        Some(TapPoint::AtSwitch(_, switch, Some(port))) => Some(TapPort { switch, port }),
        _ => None,
    }
}

/// Whether a frame may have come in there by what a place says.
fn allows(place: Option<TapPoint>, entry: TapPort) -> bool
    ensures { result ≡ places.allows place entry }
{
    match place {
        Some(TapPoint::AtNamed(_, _, _)) => false,
        Some(TapPoint::AtSwitch(_, switch, _)) => entry.switch == switch,
        _ => true,
    }
}

/// Where a frame's bytes claim that it came in, if the place allows for it.
fn entry_claimed(place: Option<TapPoint>, ports: &SystemPorts, bytes: &[u8]) -> Option<TapPort>
    ensures { result ≡ spec.entry_claimed place (ports_of ports.now) bytes.now }
{
    let entry = ports.entry(bytes)?;
    if allows(place, entry) {
        Some(entry)
    } else {
        None
    }
}

/// Whether the side, the switch or the port is taken from the frame's bytes.
fn is_claimed(network: Option<Side>, place: Option<TapPoint>, ports: &SystemPorts) -> bool
    ensures { result ≡ spec.is_claimed network place (ports_of ports.now) }
{
    side_said(network, place).is_none() || (ports.are_claimed() && entry_said(place).is_none())
}

/// Whether the source address of a frame names the other network than this.
fn names_other(side: Side, bytes: &[u8]) -> bool
    ensures { result ≡ spec.is_other side (claims.side_claimed bytes.now) }
{
    match (side, side_claimed(bytes)) {
        (Side::A, Some(Side::B)) | (Side::B, Some(Side::A)) => true,
        _ => false,
    }
}

/// Whether the source address of a frame that came in names the other network than that by which
/// it came.
fn is_contradicted(role: Role, side: Side, bytes: &[u8]) -> bool
    ensures { result ≡ spec.is_contradicted role side bytes.now }
{
    match role {
        Role::Came => names_other(side, bytes),
        Role::Left => false,
    }
}

/// Whether a frame is taken by its destination address: of what came in, if that names a link.
fn is_taken(role: Role, bytes: &[u8]) -> bool
    ensures { result ≡ spec.is_taken role bytes.now }
{
    match role {
        Role::Came => vl_of(bytes).is_some(),
        Role::Left => true,
    }
}

/// Where a frame came in, or left: by what is said of its recording and its interface, else by its
/// bytes.
#[tactic(auto, unfolding(crate::specs::Becoming::entrance_of))]
pub(crate) fn entrance_of(
    network: Option<Side>,
    place: Option<TapPoint>,
    ports: &SystemPorts,
    bytes: &[u8],
) -> Result<Entrance, NoArrival>
    ensures { result ≡ spec.entrance_of network place (ports_of ports.now) bytes.now }
{
    let role = role_of(place);
    if !is_taken(role, bytes) {
        return Err(NoArrival::Skipped(Skipped::NotAfdx));
    }
    let Some(entry) = entry_said(place).or_else(|| entry_claimed(place, ports, bytes)) else {
        return Err(NoArrival::Skipped(Skipped::UnknownSender));
    };
    let Some(side) = side_said(network, place).or_else(|| side_claimed(bytes)) else {
        return Err(NoArrival::Skipped(Skipped::NoNetwork));
    };
    let is_claimed = is_claimed(network, place, ports);
    Ok(Entrance {
        role,
        side,
        entry,
        is_claimed,
        is_contradicted: is_contradicted(role, side, bytes),
    })
}
