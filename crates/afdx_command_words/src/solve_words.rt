//! The words of `solve`.

use crate::words::{CONFIG_HELP, command, explain_option, flag, word};
use clap::{Arg, ArgAction, Command, value_parser};
use std::alloc::{AllocError, Global};

const SOLVE_ABOUT: &str = "Writes a network with the least values that keep its latencies";

const SOLVE_AFTER: &str = "\
CONFIG is written to standard output with the least values with which 'check' says
ok, in this order, each from those before it as written:

  jitter_us    of each link, from all that its sender sends
  buffer       from the port where most may wait
  latency_us   of each link, from the bounds at all its ports
  skew_us      of each link, its latency, and what --apart adds

Of several switches a side they are the least that are enough for each other: a
jitter behind a cable is the jitter and the latency at the switch before, a skew of
a link to a system the sum of the latencies on its way, and what --apart adds.

A skew of just the latency leaves the copies of a frame no more than its time on the
wire: where a system sends one copy later than the other by more, a receiver may take
both. --apart says by how much later it may be; 'check --margins' prints what is left.

In CONFIG these keys may be absent, or any whole number from 0. The text that is
written has one layout, that of the program: remarks and spaces of CONFIG aren't
kept. Of each link at each port whose bound, with the jitters that are written, is
more than the latency_us of CONFIG, a line is told on standard error:

  vl 20 at 3: 111111 ns needed, 100 us asked

Of several switches the switch's name stands before the port: 'vl 1 at fwd 24: ..'.

Where no values in range are enough, the one line that is printed is 'no' with the
first line of admission that is false, as 'check' has them, each value being at its
greatest in range; the status is 1. Where a link then leaves less than --apart asks
for, it is 'no apart vl ns' with what it leaves, of several switches 'no apart switch
vl ns'.

A closed pipe, as with '| head', is the fault 'device Write', status 4.

Examples:
  afdx solve examples/network.toml
  afdx solve --keep buffer,latency --raise-only examples/network.toml
  afdx solve --apart 1000000 examples/network.toml
  afdx solve examples/two_switches.toml";

const KEEP_HELP: &str = "\
Keys that keep their values, which have to be there, in range: any of
jitter, buffer, latency and skew, with commas between
them";

const APART_HELP: &str = "\
By how many ns later one copy of a frame may be sent than the other, at
most 100,000,000: each skew_us is so much more, in us, rounded up";

const RAISE_HELP: &str = "Lowers no value: each is the greater of the least and that of CONFIG";

/// The keys that may be kept, without their units.
const KEYS_TO_KEEP: &[&str] = &["jitter", "buffer", "latency", "skew"];

/// The option by which keys are kept.
fn keep_option<'a>(alloc: Global) -> Arg<'a> {
    Arg::new(alloc, "keep")
        .long("keep")
        .value_name("KEYS")
        .help(KEEP_HELP)
        .action(ArgAction::Append)
        .value_delimiter(',')
        .value_parser(KEYS_TO_KEEP)
}

/// The option by which skews allow for copies that aren't sent at once.
fn apart_option<'a>(alloc: Global) -> Arg<'a> {
    Arg::new(alloc, "apart")
        .long("apart")
        .value_name("NS")
        .help(APART_HELP)
        .value_parser(value_parser!(u64))
}

pub fn solve_command<'a>(alloc: Global) -> Result<Command<'a>, AllocError> {
    let words = vec![in alloc;
        keep_option(alloc),
        flag(alloc, "raise-only", RAISE_HELP),
        apart_option(alloc),
        explain_option(alloc),
        word(alloc, "CONFIG", CONFIG_HELP),
    ]?;
    command(alloc, "solve", SOLVE_ABOUT, SOLVE_AFTER).args(words)
}
