//! What a cascade starts with: new networks, and the table of the ends of its cables.

ghost use Rattle.std.specs.Prelude.{◌≡◌, ◌≤◌, ℕ, [], IfOk, Some, length, slice_get};
ghost use Rattle.afdx_config.specs.Switches.{AreSwitches};
ghost use Rattle.afdx_network.specs.declared.network.Network.{Network as At};
ghost use Rattle.afdx_network.specs.Network as network;
ghost use Rattle.afdx_cascade.specs.Plans.{plan_of, tables_of};
ghost use Rattle.afdx_cascade.specs.Keys.{AreKeys};
ghost use Rattle.afdx_cascade.specs.Scan.{switches_most};
ghost use Rattle.afdx_cascade.specs.Turning.{AreEnds};

use crate::cable::ENTRIES;
use crate::scan::key_of;
use afdx_config::{FarEnd, SwitchId, Switches};
use afdx_network::Network;
use std::alloc::{AllocError, Global};

/// The networks of all switches at time 0.
pub(crate) fn new_networks(alloc: Global, switches: &Switches) -> Result<Vec<Network>, AllocError>
    ensures switches { AreSwitches switches.now }
    ensures count { IfOk result (λ v. length v.items ≡ length switches.now) }
    ensures stands { IfOk result (λ v. (k : ℕ) (n : At) → slice_get v.items k ≡ Some n →
        network.StandsFor (tables_of switches.now k) n []) }
    ensures clock { IfOk result (λ v. (k : ℕ) (n : At) → slice_get v.items k ≡ Some n →
        network.IsUntil n 0) }
{
    let mut networks = Vec::new(alloc);
    for place in 0..switches.id_count() {
        let tables = switches.tables(SwitchId(place));
        networks.push(Network::new(alloc, tables)?)?;
    }
    Ok(networks)
}

/// The keys of these networks.
pub(crate) fn new_keys(alloc: Global, networks: &[Network]) -> Result<Vec<u64>, AllocError>
    requires { length networks.now ≤ switches_most }
    ensures { IfOk result (λ v. AreKeys networks.now v.items) }
{
    let mut keys = Vec::new(alloc);
    for place in 0..networks.len() {
        keys.push(key_of(networks, SwitchId::nth(place)))?;
    }
    Ok(keys)
}

/// The table of the ends of all cables: of each switch in turn, by the numbers of its ports.
pub(crate) fn new_ends(
    alloc: Global,
    switches: &Switches,
) -> Result<Vec<Option<FarEnd>>, AllocError>
    ensures { IfOk result (λ v. AreEnds (plan_of switches.now) v.items) }
{
    let mut ends = Vec::new(alloc);
    for place in 0..ENTRIES * switches.count() {
        let switch = SwitchId::nth(place / ENTRIES);
        ends.push(switches.far_end(switch, (place % ENTRIES) as u8))?;
    }
    Ok(ends)
}
