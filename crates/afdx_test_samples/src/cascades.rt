//! A configuration of several switches.

const TWO_SWITCHES: &str = r#"[[switch]]
name = "fwd"
profile = 1
buffer = 254

[[switch.system]]
name = "s1"
port = 1
id = 1
partition = 1
rate = 100

[[switch.neighbour]]
name = "aft"
port = 24
rate = 100

[[switch.link]]
vl = 1
from = "s1"
to = ["aft"]
bag_ms = 1
lmin = 64
lmax = 64
jitter_us = 500
priority = "high"
policing = "frame"
latency_us = 17
skew_us = 1000
subs = 2

[[switch.link]]
vl = 2
from = "aft"
to = ["s1"]
bag_ms = 1
lmin = 64
lmax = 64
jitter_us = 521
priority = "low"
policing = "frame"
latency_us = 21
skew_us = 1000
subs = 1

[[switch.port]]
system = "s1"
link = 2
udp = 2000
kind = "queuing"
depth = 4

[[switch]]
name = "aft"
profile = 1
buffer = 254

[[switch.system]]
name = "s2"
port = 2
id = 2
partition = 1
rate = 100

[[switch.system]]
name = "s3"
port = 3
id = 3
partition = 1
rate = 100

[[switch.neighbour]]
name = "fwd"
port = 20
rate = 100

[[switch.link]]
vl = 1
from = "fwd"
to = ["s3"]
bag_ms = 1
lmin = 64
lmax = 64
jitter_us = 517
priority = "high"
policing = "frame"
latency_us = 18
skew_us = 1000
subs = 2

[[switch.link]]
vl = 2
from = "s2"
to = ["fwd", "s3"]
bag_ms = 1
lmin = 64
lmax = 64
jitter_us = 500
priority = "low"
policing = "frame"
latency_us = 21
skew_us = 1000
subs = 1

[[switch.port]]
system = "s3"
link = 1
udp = 1000
kind = "sampling"
depth = 1

[[switch.port]]
system = "s3"
link = 2
udp = 2000
kind = "queuing"
depth = 4
"#;

/// Two switches on a side, `fwd` and `aft`, that a cable joins: link 1 goes from a system at the
/// first to one at the second, link 2 from one at the second to one there and to the first.
pub fn two_switches() -> &'static str {
    TWO_SWITCHES
}
