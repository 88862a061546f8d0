//! What comes back of tables, admitted or not, and all their false lines. Each line of admission,
//! and the bounds, are tried at the program (tests/program/check.sh, tests/run/admission.py).

use afdx_admit::{AdmitFault, Admitted, admit, all_faults};
use afdx_config::Tables;
use afdx_frame::VlId;
use afdx_test_samples::{base, changed, equal, read};
use std::alloc::Global;
use std::test::Fail;

/// The first false line, and how many links come back, admitted or not.
fn told(answer: &Result<Admitted, (Tables, AdmitFault)>) -> (Option<AdmitFault>, usize) {
    match answer {
        Ok(admitted) => (None, admitted.tables().link_count()),
        Err((tables, fault)) => (Some(*fault), tables.link_count()),
    }
}

/// What is told of the tables of a text.
fn judged(alloc: Global, text: &str) -> Result<(Option<AdmitFault>, usize), Fail> {
    let answer = admit(read(alloc, text)?);
    Ok(told(&answer))
}

#[test]
fn tables_come_back(rt: HostRuntime) -> Result<(), Fail> {
    equal(judged(rt.alloc(), base())?, (None, 2))?;
    let late = changed(base(), "latency_us = 17", "latency_us = 16")?;
    let wanted = AdmitFault::HighLatency(3, VlId(1), 16_800);
    equal(judged(rt.alloc(), late.as_str())?, (Some(wanted), 2))
}

/// All false lines of the tables of a text.
fn all_judged(alloc: Global, text: &str) -> Result<Vec<AdmitFault>, Fail> {
    let tables = read(alloc, text)?;
    match all_faults(alloc, &tables) {
        Ok(found) => Ok(found),
        Err(_) => Ok(all_faults(alloc, &tables)?),
    }
}

#[test]
fn refused_lists_of_faults_are_made_again(rt: HostRuntime) -> Result<(), Fail> {
    let text = changed(base(), "buffer = 252", "buffer = 251")?;
    let text = changed(text.as_str(), "latency_us = 17", "latency_us = 16")?;
    let text = changed(text.as_str(), "latency_us = 21", "latency_us = 20")?;
    let text = changed(text.as_str(), "skew_us = 1000", "skew_us = 15")?;
    let found = all_judged(rt.alloc(), text.as_str())?;
    let wanted = [
        AdmitFault::Buffer(3, 252),
        AdmitFault::HighLatency(3, VlId(1), 16_800),
        AdmitFault::LowLatency(3, VlId(2), 20_297),
        AdmitFault::Skew(VlId(1)),
    ];
    equal(found.as_slice(), wanted.as_slice())?;
    equal(all_judged(rt.alloc(), base())?.len(), 0)
}
