//! The keys of a file that describes several switches, beside those that it shares with a file of
//! one: a table for each part, in which each key stands at its number, from 1 on.

use crate::key_tables::Key;

/// The key of the top of a file that describes several switches. Its number comes after those of a
/// file of one switch.
pub const CASCADE_KEYS: [Key; 1] = [(
    "switch",
    1,
    24,
    "config WrongKind|OutOfRange top 0 key 6",
    "\
Key 6 of the top is switch: 1 to 24 tables, one for each switch of a cascade.
Write [[switch]] before the keys of each, and no other key at the top.",
)];

/// What is said of key 1 of a switch, whatever is wrong with it.
const BAD_SWITCH_PROFILE: &str = "\
The switch's profile is absent, no whole number, or neither 1 nor 2. It is key 1 of a switch:
profile: 1 or 2. Each switch has its own; profile 2 also has lines of 1000 Mbit/s, and its
switches drop frames that wait for longer than their link's latency.";

/// The keys of the top of a switch, in a file that describes several.
pub const SWITCH_KEYS: [Key; 7] = [
    (
        "profile",
        1,
        2,
        "config BadProfile switch n top 0 key 1",
        BAD_SWITCH_PROFILE,
    ),
    (
        "buffer",
        64,
        4194304,
        "config Missing|WrongKind|OutOfRange switch n top 0 key 2",
        "\
Key 2 of a switch is buffer: bytes of waiting frames in each output port: 64 to 4194304.
'afdx check' prints the bytes that each port needs in the last field of its P line.",
    ),
    (
        "system",
        0,
        24,
        "config WrongKind|OutOfRange switch n top 0 key 3",
        "\
Key 3 of a switch is system: at most 24 tables, one for each end system at this switch.
Write [[switch.system]] before the keys of each.",
    ),
    (
        "link",
        0,
        4096,
        "config WrongKind|OutOfRange switch n top 0 key 4",
        "\
Key 4 of a switch is link: at most 4096 tables, one for each virtual link that it forwards.
Write [[switch.link]] before the keys of each.",
    ),
    (
        "port",
        0,
        4096,
        "config WrongKind|OutOfRange switch n top 0 key 5",
        "\
Key 5 of a switch is port: at most 4096 tables: the communication ports of its systems.
Write [[switch.port]] before the keys of each.",
    ),
    (
        "name",
        1,
        16,
        "config Missing|WrongKind|OutOfRange|Twice switch n top 0 key 6",
        "\
Key 6 of a switch is name: 1 to 16 ASCII letters and digits, in quotes.
Each switch has a name of its own; its neighbours speak of it by this name.",
    ),
    (
        "neighbour",
        0,
        23,
        "config WrongKind|OutOfRange switch n top 0 key 7",
        "\
Key 7 of a switch is neighbour: at most 23 tables, one for each switch at one of its ports.
Write [[switch.neighbour]] before the keys of each.",
    ),
];

/// The keys of a neighbour of a switch.
pub const NEIGHBOUR_KEYS: [Key; 3] = [
    (
        "name",
        1,
        16,
        "config Missing|WrongKind|OutOfRange|Twice|NoSuchSystem switch n neighbour n key 1",
        "\
Key 1 of a neighbour is name: a switch's name, that of the switch at the other end of the cable.
It is another switch than this one, which lists this one as its neighbour.",
    ),
    (
        "port",
        1,
        24,
        "config Missing|WrongKind|OutOfRange|Twice switch n neighbour n key 2",
        "\
Key 2 of a neighbour is port: the port of this switch at which its cable ends: 1 to 24.
Each system and each neighbour of a switch has a port of its own.",
    ),
    (
        "rate",
        10,
        1000,
        "config Missing|WrongKind|OutOfRange switch n neighbour n key 3",
        "\
Key 3 of a neighbour is rate: Mbit/s: 10 or 100; with profile 2 also 1000.
It is that of the cable, so both of its ends have the same.",
    ),
];

/// The keys of a system or of a link that mean more in a switch of several than in the one of a
/// file: the forms of the lines of their faults there, and the number, the part, the name, the
/// values in words, and what it is. All other keys mean the same in both.
pub const WIDER_KEYS: [(&str, &str); 7] = [
    (
        "config Missing|WrongKind|OutOfRange|Twice switch n system n key 1",
        "\
Key 1 of a switch's system is name: 1 to 16 ASCII letters and digits, in quotes.
No other system of any switch has this name, and no switch; the links and ports of its switch
speak of it by this name.",
    ),
    (
        "config Missing|WrongKind|OutOfRange|Twice switch n system n key 2",
        "\
Key 2 of a switch's system is port: its port at this switch, on each side: 1 to 24.
Each system and each neighbour of a switch has a port of its own.",
    ),
    (
        "config Missing|WrongKind|OutOfRange|Twice switch n link n key 1",
        "\
Key 1 of a switch's link is vl: identifier: 0 to 65535.
Each link of a switch has an identifier of its own; a link of the next switch that has the same
one is the same virtual link, further on its way.",
    ),
    (
        "config Missing|WrongKind|Twice|NoSuchSystem switch n link n key 2",
        "\
Key 2 of a switch's link is from: a system or a neighbour of this switch, by its name, from which
the link comes to it.
A virtual link comes from a system at one switch alone, and from a neighbour at all others.",
    ),
    (
        "config Missing|WrongKind|OutOfRange|Twice|NoSuchSystem switch n link n key 3",
        "\
Key 3 of a switch's link is to: array of 1 to 24 names, of systems and neighbours of this switch.
Each stands once, and isn't that of from: to = [\"s2\", \"aft\"].",
    ),
    (
        "config Missing|WrongKind|OutOfRange switch n link n key 7",
        "\
Key 7 of a switch's link is jitter_us: 0 to 1000 times bag_ms; where from is a neighbour, up to
100000 more.
It is how late in us a frame may be at this switch. 'afdx check' says by the lines A6 and B3 how
much the sender needs, and how much the way from it.",
    ),
    (
        "config Missing|WrongKind|OutOfRange switch n link n key 11",
        "\
Key 11 of a switch's link is skew_us: 1 to 100000.
It is by how much in us the second copy of a frame may be late; 'afdx check' wants at least
latency_us, and for a system at least the sum of latency_us in all switches on the way to it.",
    ),
];
