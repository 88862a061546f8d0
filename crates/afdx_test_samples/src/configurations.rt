//! Configurations, and the tables that are read from them.

use afdx_admit::{Admitted, admit};
use afdx_config::{ConfigFault, Tables, read_tables};
use arrayvec::ArrayString;
use std::alloc::Global;
use std::test::Fail;

const BASE: &str = r#"profile = 1
buffer = 252

[[system]]
name = "s1"
port = 1
id = 1
partition = 1
rate = 100

[[system]]
name = "s2"
port = 2
id = 2
partition = 1
rate = 100

[[system]]
name = "s3"
port = 3
id = 3
partition = 1
rate = 100

[[link]]
vl = 1
from = "s1"
to = ["s3"]
bag_ms = 1
lmin = 64
lmax = 64
jitter_us = 500
priority = "high"
policing = "frame"
latency_us = 17
skew_us = 1000
subs = 2

[[link]]
vl = 2
from = "s2"
to = ["s3"]
bag_ms = 1
lmin = 64
lmax = 64
jitter_us = 500
priority = "low"
policing = "frame"
latency_us = 21
skew_us = 1000
subs = 1

[[port]]
system = "s3"
link = 1
udp = 1000
kind = "sampling"
depth = 1

[[port]]
system = "s3"
link = 2
udp = 2000
kind = "queuing"
depth = 4
"#;

/// A high link from the first system to the third and a low one from the second, with a port there
/// for each.
pub fn base() -> &'static str {
    BASE
}

/// The tables of a text. Of all growths one alone may be refused: they are then read again.
pub fn read(alloc: Global, text: &str) -> Result<Tables, ConfigFault> {
    match read_tables(alloc, text.as_bytes()) {
        Err(ConfigFault::Memory) => read_tables(alloc, text.as_bytes()),
        answer => answer,
    }
}

/// The tables of the text `base`.
pub fn base_tables(alloc: Global) -> Result<Tables, ConfigFault> {
    read(alloc, base())
}

/// A text of up to 2,048 bytes, made without memory of its own.
pub type ShortText = ArrayString<2048>;

/// The three pieces one after the other. Fails where they have more than 2,048 bytes.
fn joined(front: &str, middle: &str, back: &str) -> Result<ShortText, Fail> {
    let mut text = ShortText::from(front)?;
    text.try_push_str(middle)?;
    text.try_push_str(back)?;
    Ok(text)
}

/// The text with `new` in the place of the first `old`. Fails where there is none, or the new text
/// has more than 2,048 bytes.
pub fn changed(text: &str, old: &str, new: &str) -> Result<ShortText, Fail> {
    let (front, back) = text.split_once(old).ok_or("nothing to change")?;
    joined(front, new, back)
}

/// The tables of a text, admitted. Fails where they can't be read, or aren't admitted.
pub fn admitted(alloc: Global, text: &str) -> Result<Admitted, Fail> {
    match admit(read(alloc, text)?) {
        Ok(tables) => Ok(tables),
        Err(_) => Err("admission".into()),
    }
}
