//! Faults of the words, and of files that can't be opened.

use crate::entry::Entry;

/// Faults that come before a command has begun.
pub const FAULTS: [Entry; 10] = [
    (
        "words NotText",
        "\
A word isn't UTF-8.
Give the file another name, or name it by a path that is text.",
    ),
    (
        "words BadInterface",
        "\
A word of --interface or --left has another form than K=PLACE, an interface is given twice, CONFIG
hasn't the place, or 'conform' has recordings without one of both. K is the interface's number as
Wireshark shows it, 0 to 4095 in one to four digits; 0 in a pcap. PLACE is A or B, the side where
its frames came in; A:P or B:P with the switch's port P, 1 to 24; of several switches 'A SWITCH' or
'A SWITCH:P', with the name of one and a port without a cable, and no A:P; or - to leave them out.
Of two recordings each side has its own interface K: K=A and K=B may both be given, but K=-, which
is for both, stands alone.
Of 'conform' PLACE is A:P or B:P; of --interface also A or B, but not with --switch. One input is a
recording of both, and has each K once. Of two --interface names those of CAME, --left those of
LEFT.",
    ),
    (
        "words BadNumber",
        "\
The number of --origin is over 2^63 - 1, that of --reorder over 100,000, or one of 'conform' out of
its range.
--origin is the moment that is time 0, in ns since 1970; --reorder is by how many arrivals times
may go back. --slack, --inner and --asked are at most 1,000,000 ns, --between 100,000,000 ns,
--drift 1,000 millionths, --from and --until 10^15 ns; --leave-out is 0 to 65535, or the word
other.",
    ),
    (
        "words SameInput",
        "\
Both inputs are -, which is standard input: two recordings, or CAME and LEFT. Name one of them by
its path.",
    ),
    (
        "words BadRule",
        "\
A number of 'police' is out of its range. BAG_MS is 1, 2, 4, 8, 16, 32, 64 or 128, LMAX is
64 to 1518 bytes, JITTER_US is 0 to 1000 times BAG_MS, --vl is 0 to 65535, --port is 1 to 24
and --lmin is 64 to LMAX bytes.",
    ),
    (
        "words NoSuchSystem",
        "\
The configuration has no SYSTEM of that name.
The names stand at the key name of its systems; capital letters count. A name of a switch or a
neighbour is none.",
    ),
    (
        "words NoSuchSwitch",
        "\
No switch of the configuration has the name that --switch gives; or it describes several switches
and there is no --switch; or it describes one a side and there is one.
The names stand at the key name of its switches; capital letters count.",
    ),
    (
        "words UnknownText",
        "\
The text that was given to 'explain' is no line or word of the program.
Give a whole line, in quotes and without a line feed, as it was printed.",
    ),
    (
        "device Config",
        "\
CONFIG can't be opened or read, or has more than 4,194,304 bytes.
See that the path is right, is a file, and may be read.",
    ),
    (
        "device List",
        "\
LIST, SUBMISSIONS, CAME or LEFT can't be opened.
See that the path is right and may be read; - is standard input.",
    ),
];
