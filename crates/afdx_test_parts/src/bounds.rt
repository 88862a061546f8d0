//! That a network can be admitted, and that each line of admission is needed: both are laws. What
//! happens without a line is tried at the program (tests/program/replay.sh).

use afdx_law_bounds::laws;

#[test]
fn the_laws_of_admission(_rt: HostRuntime) {
    laws::examples_are_admitted();
    laws::each_line_is_needed();
}
