//! The items of `afdx_send`.

ghost use Rattle.std.specs.Prelude.{◌≡◌, ◌<◌, IfOk};
ghost use Rattle.afdx_send.specs.Sender.{IsQuiet, last_time};

use afdx_admit::Admitted;
use afdx_config::SystemId;
use afdx_frame::VlId;
use afdx_send::{Emission, SendFault, Sender};
use afdx_test_samples::{admitted, base, equal};
use std::alloc::{AllocError, Global};
use std::test::Fail;

/// The place of a refusal in the order in which they are answered.
fn place(fault: SendFault) -> u8 {
    match fault {
        SendFault::NotMyLink => 1,
        SendFault::NoSuchSub => 2,
        SendFault::Empty => 3,
        SendFault::TooLarge => 4,
        SendFault::QueueFull => 5,
        SendFault::Memory => 6,
    }
}

/// What an emission tells: its time, its link, and how long the frames are.
fn parts(emission: &Emission) -> (u64, VlId, usize, usize) {
    let time: u64 = emission.time;
    let vl: VlId = emission.vl;
    let a: &Vec<u8> = &emission.a;
    let b: &Vec<u8> = &emission.b;
    (time, vl, a.len(), b.len())
}

/// A sender of the first system.
fn new_sender(alloc: Global, tables: &Admitted) -> Result<Sender, AllocError>
    requires { 0 < tables.now.own }
    ensures quiet { IfOk result (λ w. IsQuiet w 0) }
    ensures clock { IfOk result (λ w. last_time w ≡ 0) }
{
    let sender: Result<Sender, AllocError> = Sender::new(alloc, tables, SystemId(0));
    sender
}

/// What an emission of a message tells by 6,720 ns. Its frames are given back.
fn emitted(alloc: Global, tables: &Admitted) -> Result<Option<(u64, VlId, usize, usize)>, Fail>
    requires { 0 < tables.now.own }
{
    let mut sender = new_sender(alloc, tables)?;
    let (time, sub, udp): (u64, u8, u16) = (0, 1, 1000);
    let payload: &[u8] = b"hello";
    let taken: Result<(), SendFault> = sender.submit(time, VlId(1), sub, udp, payload);
    equal(taken.map_err(place), Ok(()))?;
    let until: u64 = 6720;
    let emission: Result<Option<Emission>, AllocError> = sender.emit(until);
    let Some(emission) = emission? else {
        return Ok(None);
    };
    let told = parts(&emission);
    sender.give_back(emission);
    Ok(Some(told))
}

#[test]
fn emissions(rt: HostRuntime) -> Result<(), Fail> {
    let tables = admitted(rt.alloc(), base())?;
    if tables.tables().own_count() == 0 {
        return Err("a system".into());
    }
    let told = emitted(rt.alloc(), &tables)?.ok_or("an emission")?;
    equal(told, (6720, VlId(1), 64, 64))
}
