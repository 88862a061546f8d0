//! A switch that wants memory: each call that is refused it is made again, and gives its answer.

use super::steps::Fate::{Dropped, Forwarded};
use super::steps::Step::{Comes, Leaves, Rests};
use super::steps::wrong_step;
use afdx_police::Reason;
use afdx_test_samples::{all_right, base, hello};
use std::test::Fail;

#[test]
fn a_refused_arrival_is_neither_charged_nor_forwarded(rt: HostRuntime) -> Result<(), Fail> {
    let frame = hello(0);
    let steps = [
        (0, Comes(1, 1, &frame, Forwarded)),
        (499999, Leaves(1, 6720, 3)),
        (499999, Comes(1, 2, &frame, Dropped(Reason::OverRate))),
        (500000, Comes(1, 3, &frame, Forwarded)),
        (1000000, Leaves(3, 506720, 3)),
        (1000000, Rests),
    ];
    all_right(wrong_step(rt.alloc(), base(), &steps)?)
}
