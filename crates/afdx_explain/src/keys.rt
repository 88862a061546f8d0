//! What the fault of a key of a configuration means.

ghost use Rattle.std.specs.Prelude.{◌≡◌};
ghost use Rattle.std.specs.Option.{option_copied};
ghost use Rattle.afdx_explain.specs.Explained as spec;

use crate::entry::{key_among, text_among};
use afdx_config::{
    CASCADE_KEYS, LINK_KEYS, NEIGHBOUR_KEYS, PORT_KEYS, SWITCH_KEYS, SYSTEM_KEYS, TOP_KEYS,
    UNKNOWN_KEYS, WIDER_KEYS,
};

/// What the fault of a key of the top means.
#[tactic(auto, unfolding(crate::specs::Explained::top_key))]
fn top_key(line: &[u8]) -> Option<&'static str>
    ensures { option_copied result ≡ spec.top_key line.now }
{
    key_among(&TOP_KEYS, line)
}

/// What the fault of a system's key means.
#[tactic(auto, unfolding(crate::specs::Explained::system_key))]
fn system_key(line: &[u8]) -> Option<&'static str>
    ensures { option_copied result ≡ spec.system_key line.now }
{
    key_among(&SYSTEM_KEYS, line)
}

/// What the fault of a link's key means.
#[tactic(auto, unfolding(crate::specs::Explained::link_key))]
fn link_key(line: &[u8]) -> Option<&'static str>
    ensures { option_copied result ≡ spec.link_key line.now }
{
    key_among(&LINK_KEYS, line)
}

/// What the fault of a port entry's key means.
#[tactic(auto, unfolding(crate::specs::Explained::port_key))]
fn port_key(line: &[u8]) -> Option<&'static str>
    ensures { option_copied result ≡ spec.port_key line.now }
{
    key_among(&PORT_KEYS, line)
}

/// What the fault of a key of the top means, where the file describes several switches.
#[tactic(auto, unfolding(crate::specs::Explained::cascade_key))]
fn cascade_key(line: &[u8]) -> Option<&'static str>
    ensures { option_copied result ≡ spec.cascade_key line.now }
{
    key_among(&CASCADE_KEYS, line)
}

/// What the fault of a key of a switch means.
#[tactic(auto, unfolding(crate::specs::Explained::switch_key))]
fn switch_key(line: &[u8]) -> Option<&'static str>
    ensures { option_copied result ≡ spec.switch_key line.now }
{
    key_among(&SWITCH_KEYS, line)
}

/// What the fault of a neighbour's key means.
#[tactic(auto, unfolding(crate::specs::Explained::neighbour_key))]
fn neighbour_key(line: &[u8]) -> Option<&'static str>
    ensures { option_copied result ≡ spec.neighbour_key line.now }
{
    key_among(&NEIGHBOUR_KEYS, line)
}

/// What the fault of a key means that says more in a switch of several.
#[tactic(auto, unfolding(crate::specs::Explained::wider_key))]
fn wider_key(line: &[u8]) -> Option<&'static str>
    ensures { option_copied result ≡ spec.wider_key line.now }
{
    text_among(&WIDER_KEYS, line)
}

/// What the fault of a key means that comes only where the file describes several switches.
#[tactic(auto, unfolding(crate::specs::Explained::key_of_several))]
fn key_of_several(line: &[u8]) -> Option<&'static str>
    ensures { option_copied result ≡ spec.key_of_several line.now }
{
    if let Some(text) = cascade_key(line) {
        return Some(text);
    }
    if let Some(text) = switch_key(line) {
        return Some(text);
    }
    if let Some(text) = neighbour_key(line) {
        return Some(text);
    }
    wider_key(line)
}

/// What is said of keys that aren't known.
#[tactic(auto, unfolding(crate::specs::Explained::unknown_key))]
fn unknown_key(line: &[u8]) -> Option<&'static str>
    ensures { option_copied result ≡ spec.unknown_key line.now }
{
    text_among(&UNKNOWN_KEYS, line)
}

/// What the fault of a key means.
#[tactic(auto, unfolding(crate::specs::Explained::key))]
pub(crate) fn key(line: &[u8]) -> Option<&'static str>
    ensures { option_copied result ≡ spec.key line.now }
{
    if let Some(text) = top_key(line) {
        return Some(text);
    }
    if let Some(text) = system_key(line) {
        return Some(text);
    }
    if let Some(text) = link_key(line) {
        return Some(text);
    }
    if let Some(text) = port_key(line) {
        return Some(text);
    }
    if let Some(text) = key_of_several(line) {
        return Some(text);
    }
    unknown_key(line)
}
