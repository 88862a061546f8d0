//! The reading of a key that may be solved for.

ghost use Rattle.std.specs.Prelude.{◌≡◌, ◌≢◌, ◌≤◌, IfOk, IfErr};
ghost use Rattle.toml.specs.View.{view, table_view};
ghost use Rattle.afdx_config.specs.Lawful.{IsWithin};
ghost use Rattle.afdx_config.specs.Fault.{Gives};
ghost use Rattle.afdx_config.specs.Keys.{spot_of};
ghost use Rattle.afdx_config.specs.Choices as spec;

use crate::fault::ConfigFault;
use crate::keys::{At, member, whole};
use crate::rows::KeptKeys;
use toml::{Table, Value};

/// All four keys stay as they are.
pub(crate) const ALL_KEPT: KeptKeys = KeptKeys {
    jitter: true,
    buffer: true,
    latency: true,
    skew: true,
};

/// A whole number from 0 on, as the nearest in the key's range.
#[tactic(auto, unfolding(crate::specs::Keys::spot_of))]
fn from_zero(value: &Value, at: At) -> Result<u64, ConfigFault>
    requires { (spot_of at).least ≤ (spot_of at).greatest }
    ensures value { Gives (λ n. n) result (spec.whole_from_zero (spot_of at) (view value.now)) }
    ensures within { IfOk result (IsWithin (spot_of at).least (spot_of at).greatest) }
    ensures fault { IfErr result (λ e. e ≢ ConfigFault.Memory) }
{
    let Some(number) = value.as_integer() else {
        return Err(ConfigFault::WrongKind(at.place));
    };
    if number < 0 {
        return Err(ConfigFault::OutOfRange(at.place));
    }
    let number = number as u64;
    Ok(at.greatest.min(at.least.max(number)))
}

/// A key that may be absent, or any whole number from 0 on.
#[tactic(auto, unfolding(crate::specs::Keys::spot_of, crate::specs::Choices::free))]
fn free(table: &Table, at: At) -> Result<u64, ConfigFault>
    requires { (spot_of at).least ≤ (spot_of at).greatest }
    ensures value { Gives (λ n. n) result (spec.free (spot_of at) (table_view table.now)) }
    ensures within { IfOk result (IsWithin (spot_of at).least (spot_of at).greatest) }
    ensures fault { IfErr result (λ e. e ≢ ConfigFault.Memory) }
{
    match member(table, at.name) {
        Some(value) => from_zero(value, at),
        None => Ok(at.least),
    }
}

/// A key that is kept is a whole number in its range. One that isn't may be absent, or any whole
/// number from 0 on; the nearest in its range is taken.
#[tactic(auto, unfolding(crate::specs::Choices::choice))]
pub(crate) fn choice(table: &Table, at: At, kept: bool) -> Result<u64, ConfigFault>
    requires { (spot_of at).least ≤ (spot_of at).greatest }
    ensures value { Gives (λ n. n) result
        (spec.choice kept (spot_of at) (table_view table.now)) }
    ensures within { IfOk result (IsWithin (spot_of at).least (spot_of at).greatest) }
    ensures fault { IfErr result (λ e. e ≢ ConfigFault.Memory) }
{
    if kept {
        whole(table, at)
    } else {
        free(table, at)
    }
}
