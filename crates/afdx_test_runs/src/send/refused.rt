//! A sender that wants memory: each call that is refused it is made again, and gives its answer.

use super::steps::Step::{Emits, Submits};
use super::steps::wrong_step;
use afdx_test_samples::all_right;
use std::test::Fail;

#[test]
fn a_refused_emission_is_left_to_be_taken(rt: HostRuntime) -> Result<(), Fail> {
    let steps = [
        (0, Submits(1, 1, "a", Ok(()))),
        (0, Submits(1, 1, "b", Ok(()))),
        (0, Submits(1, 2, "c", Ok(()))),
        (6720, Emits(6720, 0, b'a')),
        (1006720, Emits(1006720, 1, b'c')),
        (3000000, Emits(2006720, 2, b'b')),
    ];
    all_right(wrong_step(rt.alloc(), &steps)?)
}
