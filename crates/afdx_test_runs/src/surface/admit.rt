//! The items of `afdx_admit`.

use afdx_admit::{AdmitFault, Admitted, admit, buffer_need, high_bound, low_bound};
use afdx_config::{SystemId, Tables};
use afdx_frame::VlId;
use afdx_test_samples::{base_tables, equal};
use std::test::Fail;

/// The place of a fault in the order of the lines, and its numbers: a port, a link or a system, and
/// an amount.
fn told(fault: AdmitFault) -> (u8, u8, u16, u64) {
    match fault {
        AdmitFault::Overload(port) => (1, port, 0, 0),
        AdmitFault::Buffer(port, needed) => (2, port, 0, needed),
        AdmitFault::HighLatency(port, VlId(vl), bound) => (3, port, vl, bound),
        AdmitFault::LowLatency(port, VlId(vl), bound) => (4, port, vl, bound),
        AdmitFault::SenderJitter(SystemId(system), ns) => (5, system, 0, ns),
        AdmitFault::LinkJitter(VlId(vl), needed) => (6, 0, vl, needed),
        AdmitFault::Skew(VlId(vl)) => (7, 0, vl, 0),
    }
}

/// The bounds of a port.
fn bounds(tables: &Tables, port: u8) -> (u64, Option<u64>, u64) {
    let high: u64 = high_bound(tables, port);
    let low: Option<u64> = low_bound(tables, port);
    let buffer: u64 = buffer_need(tables, port);
    (high, low, buffer)
}

/// What admission answers: the number of links of what is admitted, or the fault.
fn answer(tables: Tables) -> Result<usize, (u8, u8, u16, u64)> {
    let answer: Result<Admitted, (Tables, AdmitFault)> = admit(tables);
    match answer {
        Ok(admitted) => {
            let tables: &Tables = admitted.tables();
            Ok(tables.link_count())
        }
        Err((_, fault)) => Err(told(fault)),
    }
}

#[test]
fn admission(rt: HostRuntime) -> Result<(), Fail> {
    let tables = base_tables(rt.alloc())?;
    equal(bounds(&tables, 3), (16_800, Some(20_297), 252))?;
    equal(bounds(&tables, 24), (0, Some(0), 0))?;
    equal(answer(tables), Ok(2))
}
