//! The keys of a configuration: a table for each part, in which each key stands at its number, from
//! 1 on.

/// A key of a part of a configuration: its name; the least and the greatest of its values; the
/// forms of the lines of its faults, each on a line of its own; its number, its part, its name and
/// its values in words, and what it is.
///
/// The values are those of whole numbers, of the bytes of a text, of the rows or texts of an array.
/// What was read before may narrow them. Both are 0 where it is one of two words.
pub type Key = (&'static str, u64, u64, &'static str, &'static str);

/// What is said of key 1 of the top, whatever is wrong with it.
pub(crate) const BAD_PROFILE: &str = "\
Profile is absent, no whole number, or neither 1 nor 2. It is key 1 of the top: profile: 1
or 2. Write profile = 1; profile 2 also has lines of 1000 Mbit/s, and its switches drop
frames that wait for longer than their link's latency.";

/// The keys of the top.
pub const TOP_KEYS: [Key; 5] = [
    ("profile", 1, 2, "config BadProfile", BAD_PROFILE),
    (
        "buffer",
        64,
        4194304,
        "config Missing|WrongKind|OutOfRange top 0 key 2",
        "\
Key 2 of the top is buffer: bytes of waiting frames in each output port: 64 to 4194304.
'afdx check' prints the bytes that each port needs in the last field of its P line.",
    ),
    (
        "system",
        0,
        24,
        "config WrongKind|OutOfRange top 0 key 3",
        "\
Key 3 of the top is system: at most 24 tables, one for each end system.
Write system = [ { .. }, { .. } ], or [[system]] before the keys of each.",
    ),
    (
        "link",
        0,
        4096,
        "config WrongKind|OutOfRange top 0 key 4",
        "\
Key 4 of the top is link: at most 4096 tables, one for each virtual link.
Write link = [ { .. }, { .. } ], or [[link]] before the keys of each.",
    ),
    (
        "port",
        0,
        4096,
        "config WrongKind|OutOfRange top 0 key 5",
        "\
Key 5 of the top is port: at most 4096 tables: the communication ports.
Write port = [ { .. }, { .. } ], or [[port]] before the keys of each.",
    ),
];

/// The keys of a system.
pub const SYSTEM_KEYS: [Key; 5] = [
    (
        "name",
        1,
        16,
        "config Missing|WrongKind|OutOfRange|Twice system n key 1",
        "\
Key 1 of a system is name: 1 to 16 ASCII letters and digits, in quotes.
Each system has a name of its own; links and ports speak of it by this name.",
    ),
    (
        "port",
        1,
        24,
        "config Missing|WrongKind|OutOfRange|Twice system n key 2",
        "\
Key 2 of a system is port: its port at both switches: 1 to 24.
Each system has a port of its own.",
    ),
    (
        "id",
        0,
        65535,
        "config Missing|WrongKind|OutOfRange|Twice system n key 3\n\
         config Missing|WrongKind|OutOfRange|Twice switch n system n key 3",
        "\
Key 3 of a system is id: its number in addresses: 0 to 65535.
Each system has a number of its own.",
    ),
    (
        "partition",
        0,
        255,
        "config Missing|WrongKind|OutOfRange system n key 4\n\
         config Missing|WrongKind|OutOfRange switch n system n key 4",
        "\
Key 4 of a system is partition: last byte of its IPv4 address: 0 to 255.",
    ),
    (
        "rate",
        10,
        1000,
        "config Missing|WrongKind|OutOfRange system n key 5\n\
         config Missing|WrongKind|OutOfRange switch n system n key 5",
        "\
Key 5 of a system is rate: Mbit/s: 10 or 100; with profile 2 also 1000.",
    ),
];

/// The keys of a link.
pub const LINK_KEYS: [Key; 12] = [
    (
        "vl",
        0,
        65535,
        "config Missing|WrongKind|OutOfRange|Twice link n key 1",
        "\
Key 1 of a link is vl: identifier: 0 to 65535.
Each link has an identifier of its own.",
    ),
    (
        "from",
        1,
        16,
        "config Missing|WrongKind|NoSuchSystem link n key 2",
        "\
Key 2 of a link is from: the sender's name, which is the name of a system.",
    ),
    (
        "to",
        1,
        24,
        "config Missing|WrongKind|OutOfRange|Twice|NoSuchSystem link n key 3",
        "\
Key 3 of a link is to: array of 1 to 24 names, the receivers'.
Each is the name of a system, stands once, and isn't the sender's: to = [\"s2\", \"s3\"].",
    ),
    (
        "bag_ms",
        1,
        128,
        "config Missing|WrongKind|OutOfRange link n key 4\n\
         config Missing|WrongKind|OutOfRange switch n link n key 4",
        "\
Key 4 of a link is bag_ms: 1, 2, 4, 8, 16, 32, 64 or 128.
It is the gap in ms between two frames of the link at their sender. Take the greatest
that isn't more than the period of the messages.",
    ),
    (
        "lmin",
        64,
        1518,
        "config Missing|WrongKind|OutOfRange link n key 5\n\
         config Missing|WrongKind|OutOfRange switch n link n key 5",
        "\
Key 5 of a link is lmin: bytes: 64 to 1518.
It is the length of the shortest frame that may pass, check sequence included.",
    ),
    (
        "lmax",
        64,
        1518,
        "config Missing|WrongKind|OutOfRange link n key 6\n\
         config Missing|WrongKind|OutOfRange switch n link n key 6",
        "\
Key 6 of a link is lmax: bytes: lmin to 1518.
It is the length of the longest frame that may pass: the bytes of the longest message
and 47, and at least 64.",
    ),
    (
        "jitter_us",
        0,
        128000,
        "config Missing|WrongKind|OutOfRange link n key 7",
        "\
Key 7 of a link is jitter_us: 0 to 1000 times bag_ms.
It is how late in us a frame may be at the switch. 'afdx check' says by the line A6 how
much the sender needs.",
    ),
    (
        "priority",
        0,
        0,
        "config Missing|WrongKind|OutOfRange link n key 8\n\
         config Missing|WrongKind|OutOfRange switch n link n key 8",
        "\
Key 8 of a link is priority: \"high\" or \"low\", in quotes.
Of the frames that wait in an output port those of high links go first.",
    ),
    (
        "policing",
        0,
        0,
        "config Missing|WrongKind|OutOfRange link n key 9\n\
         config Missing|WrongKind|OutOfRange switch n link n key 9",
        "\
Key 9 of a link is policing: \"byte\" or \"frame\", in quotes.
By bytes a frame is charged by its length, by frames each as the longest of its link.",
    ),
    (
        "latency_us",
        1,
        100000,
        "config Missing|WrongKind|OutOfRange link n key 10\n\
         config Missing|WrongKind|OutOfRange switch n link n key 10",
        "\
Key 10 of a link is latency_us: 1 to 100000.
It is the longest in us that a frame may take through a switch.",
    ),
    (
        "skew_us",
        1,
        100000,
        "config Missing|WrongKind|OutOfRange link n key 11",
        "\
Key 11 of a link is skew_us: 1 to 100000.
It is by how much in us the second copy of a frame may be late; 'afdx check' wants at least
latency_us.",
    ),
    (
        "subs",
        1,
        4,
        "config Missing|WrongKind|OutOfRange link n key 12\n\
         config Missing|WrongKind|OutOfRange switch n link n key 12",
        "\
Key 12 of a link is subs: number of sub-VLs: 1 to 4.
Messages of each wait in a queue of their own; 1 where the link needs no such queues.",
    ),
];

/// The keys of a port entry.
pub const PORT_KEYS: [Key; 5] = [
    (
        "system",
        1,
        16,
        "config Missing|WrongKind|NoSuchSystem port n key 1\n\
         config Missing|WrongKind|NoSuchSystem switch n port n key 1",
        "\
Key 1 of a port is system: a system's name, that of the system that reads there.",
    ),
    (
        "link",
        0,
        65535,
        "config Missing|WrongKind|OutOfRange port n key 2\n\
         config Missing|WrongKind|OutOfRange switch n port n key 2",
        "\
Key 2 of a port is link: the vl of a link whose to names that system.",
    ),
    (
        "udp",
        1,
        65535,
        "config Missing|WrongKind|OutOfRange|Twice port n key 3\n\
         config Missing|WrongKind|OutOfRange|Twice switch n port n key 3",
        "\
Key 3 of a port is udp: UDP destination port: 1 to 65535.
A system has one port for each link and UDP port.",
    ),
    (
        "kind",
        0,
        0,
        "config Missing|WrongKind|OutOfRange port n key 4\n\
         config Missing|WrongKind|OutOfRange switch n port n key 4",
        "\
Key 4 of a port is kind: \"sampling\" or \"queuing\", in quotes.
A sampling port keeps the newest message, a queuing port gives each one, in order.",
    ),
    (
        "depth",
        1,
        64,
        "config Missing|WrongKind|OutOfRange port n key 5\n\
         config Missing|WrongKind|OutOfRange switch n port n key 5",
        "\
Key 5 of a port is depth: 1 for sampling, 1 to 64 for queuing.
It is the number of messages that may wait in the port.",
    ),
];

/// The forms of the lines of keys that aren't known, and what they mean: the names in the tables.
pub const UNKNOWN_KEYS: [(&str, &str); 3] = [
    (
        "\
config UnknownKey top 0 key 0
config UnknownKey system|link|port n key 0
config UnknownKey switch n system|link|port n key 0",
        "\
Keys of the top are profile, buffer, system, link and port.
Keys of a system are name, port, id, partition and rate.
Keys of a link are vl, from, to, bag_ms, lmin, lmax, jitter_us, priority, policing,
latency_us, skew_us and subs.
Keys of a port are system, link, udp, kind and depth.
Correct the key's name, or take the key out; capital letters count.
Where a file describes several switches, its top has the key switch alone.",
    ),
    (
        "config UnknownKey switch n top 0 key 0",
        "\
Keys of a switch are profile, buffer, system, link, port, name and neighbour.
Correct the key's name, or take the key out; capital letters count.",
    ),
    (
        "config UnknownKey switch n neighbour n key 0",
        "\
Keys of a neighbour are name, port and rate.
Correct the key's name, or take the key out; capital letters count.",
    ),
];
