//! The items of `afdx_config` and `afdx_admit` for several switches.

use afdx_admit::{
    AdmitFault, AdmittedSwitches, CascadeFault, SwitchFault, admit_all, all_cascade_faults,
    way_latency,
};
use afdx_config::{
    ConfigFault, Described, FarEnd, FileFault, SwitchId, Switches, SystemId, Tables, read_file,
};
use afdx_frame::VlId;
use afdx_test_samples::{equal, two_switches};
use std::alloc::Global;
use std::test::Fail;

/// The switches of the text `two_switches`, or the number of the switch with a fault.
fn switches_of(alloc: Global) -> Result<Switches, u8> {
    let described: Result<Described, FileFault> = read_file(alloc, two_switches().as_bytes());
    match described {
        Ok(Described::Several(switches)) => Ok(switches),
        Ok(Described::One(_)) => Err(0),
        Err(FileFault { switch, fault }) => match fault {
            ConfigFault::Memory => Err(255),
            _ => Err(switch),
        },
    }
}

/// The place of a fault in the order of the lines, and its numbers: a link, an amount, and what
/// stands at a port.
fn told(fault: SwitchFault) -> (u8, u16, u64, u8) {
    match fault {
        SwitchFault::Own(fault) => match fault {
            AdmitFault::Overload(port) => (1, 0, 0, port),
            _ => (1, 0, 0, 0),
        },
        SwitchFault::Unfed(VlId(vl)) => (2, vl, 0, 0),
        SwitchFault::Contract(VlId(vl)) => (3, vl, 0, 0),
        SwitchFault::HopJitter(VlId(vl), needed) => (4, vl, needed, 0),
        SwitchFault::PathSkew(VlId(vl), needed) => (5, vl, needed, 0),
        SwitchFault::Unread(VlId(vl), SystemId(neighbour)) => (6, vl, 0, neighbour),
    }
}

/// What admission answers: the number of switches that are admitted, or the fault.
fn answer(switches: Switches) -> Result<usize, (SwitchId, (u8, u16, u64, u8))> {
    let answer: Result<AdmittedSwitches, (Switches, CascadeFault)> = admit_all(switches);
    match answer {
        Ok(admitted) => {
            let switches: &Switches = admitted.switches();
            Ok(switches.count())
        }
        Err((_, CascadeFault { switch, fault })) => Err((switch, told(fault))),
    }
}

/// What is found by a name, by a link, and at the other end of a cable.
fn found(
    switches: &Switches,
) -> (
    Option<SwitchId>,
    Option<(SwitchId, SystemId)>,
    Option<SwitchId>,
) {
    let named: Option<SwitchId> = switches.named("aft");
    let system: Option<(SwitchId, SystemId)> = switches.system_named("s2");
    let first: Option<SwitchId> = switches.first_of(VlId(1));
    (named, system, first)
}

/// Whether the second switch has its name, its cable and the sum of its first link's latencies.
fn is_second(switches: &Switches) -> bool {
    if switches.count() < 2 {
        return false;
    }
    let aft = SwitchId(1);
    let name: &str = switches.name(aft);
    let tables: &Tables = switches.tables(aft);
    if tables.link_count() < 1 {
        return false;
    }
    let end: Option<FarEnd> = switches.far_end(aft, 20);
    let way: Option<u64> = way_latency(switches, aft, 0);
    let port = end.map(|FarEnd { switch, port }| (switch, port));
    name == "aft" && port == Some((SwitchId(0), 24)) && way == Some(35)
}

/// How many switches there are, as identities count, and the place of the second one.
fn ids(switches: &Switches) -> (u8, usize) {
    let count: u8 = switches.id_count();
    let second: SwitchId = SwitchId::nth(1);
    let place: usize = second.index();
    (count, place)
}

#[test]
fn cascade(rt: HostRuntime) -> Result<(), Fail> {
    let switches = switches_of(rt.alloc()).map_err(|_| "two switches")?;
    let (fwd, aft) = (Some(SwitchId(0)), Some(SwitchId(1)));
    equal(
        found(&switches),
        (aft, Some((SwitchId(1), SystemId(0))), fwd),
    )?;
    equal(ids(&switches), (2, 1))?;
    equal(is_second(&switches), true)?;
    equal(all_cascade_faults(rt.alloc(), &switches)?.len(), 0)?;
    equal(answer(switches), Ok(2))
}
