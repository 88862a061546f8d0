//! What is said of all lines of a kind.

use crate::entry::Entry;

/// What the lines of a kind have in common.
pub const KINDS: [Entry; 25] = [
    (
        "list * n",
        "\
The list has a fault in the line of this number, counted from 1; empty lines and remarks
count. What the lines before it gave stands on standard output.",
    ),
    (
        "list came|left * n",
        "\
CAME or LEFT, as the second word says, has a fault in the line of this number, counted from 1 in
that list alone; empty lines and remarks count. What was found before it stands on standard output,
without the last line.",
    ),
    (
        "\
recording Absent n
recording Absent n came|left",
        "\
All frames of the recordings were judged, and what was found stands on standard output, but for the
last line. A port that no interface stands for was counted as one that was recorded.",
    ),
    (
        "recording Lossy n",
        "\
All frames of the recordings were judged, and what was found stands on standard output, but for the
last line. Of dumpcap at several interfaces it is mostly its own queue, of 1000 frames, that
was full: dumpcap -N 1000000 -C 1000000000 has room for more.",
    ),
    (
        "\
recording * n
recording * n A|B
recording * n came|left",
        "\
The recording can't be read beyond this place; what the frames before it gave stands on standard
output. Numbers are those of the frames in Wireshark, from 1. Of two recordings, A or B behind the
number says which, of 'conform' came or left.",
    ),
    (
        "config Missing switch n * n key n",
        "\
A switch of the configuration has a fault: the key is absent.
Add it to the table that the line names: top is the switch's own. Switches are counted from 1 in
the order of the file, their systems, links, ports and neighbours from 1 in that of the switch.",
    ),
    (
        "config WrongKind switch n * n key n",
        "\
A switch of the configuration has a fault: the value isn't a whole number, a text, an array of
texts or an array of tables, as its key wants it.
Texts stand in quotes, numbers don't. Switches are counted from 1 in the order of the file, their
tables from 1 in that of the switch.",
    ),
    (
        "config UnknownKey switch n * n key 0",
        "\
A switch of the configuration has a fault: the table has a key that isn't one of its keys.
Switches are counted from 1 in the order of the file, their tables from 1 in that of the switch;
0 is the top of the switch, its own table.",
    ),
    (
        "config OutOfRange switch n * n key n",
        "\
A switch of the configuration has a fault: the value is outside its range; to is empty; a port
entry's link is no link's vl in this switch, or that link doesn't go to the system; the switch
that a neighbour names doesn't list this one as its neighbour (key 1), or with another rate
(key 3).
Switches are counted from 1 in the order of the file, their tables from 1 in that of the switch.",
    ),
    (
        "config Twice switch n * n key n",
        "\
A switch of the configuration has a fault: in the switch a name or a port of a system or of a
neighbour, a system's id, or a link's vl, stood earlier; in the file a switch's name, or a
system's name or id, stood earlier, or a system has a switch's name; an earlier switch has this
link from a system, too (link, key 2); a name stands twice in to, or is that of from; a port
entry's system, link and udp stood together earlier (port, key 3).
The table that the line names is the second one. Switches are counted from 1 in the order of the
file, their tables from 1 in that of the switch.",
    ),
    (
        "config NoSuchSystem switch n * n key n",
        "\
A switch of the configuration has a fault: from, or a name in to, is that of no system and no
neighbour of the switch; a port entry's system is no system of it; a neighbour's name is no other
switch's.
Correct the name, or add the system or the neighbour. Switches are counted from 1 in the order of
the file, their tables from 1 in that of the switch.",
    ),
    (
        "NoSuchSystem",
        "\
The words and a configuration have a fault of this name. Here is that of the words; of a
configuration ask for 'config NoSuchSystem'.",
    ),
    (
        "TimeBack|TimeTooLarge",
        "\
A list and a recording have a fault of this name. Here is that of a list; of a recording ask for
'recording TimeBack' or 'recording TimeTooLarge'.",
    ),
    (
        "\
no apart n n
no apart * n n",
        "\
With its least values the network is admitted, but the copies of a frame can't be sent so far apart:
no configuration is written.",
    ),
    (
        "\
no|admit * n
no|admit * * n
no|admit * * * n
no|admit * * n *
no|admit * * n n n
no * * n n -",
        "\
The network isn't admitted: it isn't sure that every frame is in time and that none is lost.
This is the first line of admission that is false; of several switches the switch's name stands
behind its word, A1 to B5. 'afdx replay --no-admission' replays a network that isn't admitted.",
    ),
    (
        "config BadProfile",
        "\
A file with switch and without profile at its top describes several switches a side, each with a
profile of its own.",
    ),
    (
        "V n A|B * accept",
        "\
The frame of the list's line of this number came to the switch of this name, on this side, A or B:
by the list, or over a cable.",
    ),
    (
        "V n A|B drop *",
        "\
The frame of the list's line of this number was dropped at the switch of this side, A or B.",
    ),
    (
        "V n A|B * drop *",
        "\
The frame of the list's line of this number was dropped at the switch of this name, on this side, A
or B; it came there by the list, or over a cable.",
    ),
    (
        "X n * n *",
        "\
At this time, in ns, the frame of the list's line (the second number) came to this system,
whose receiver dropped it.",
    ),
    (
        "strange n A|B n bad-address",
        "\
The frame of this line of LEFT, of a recording of this number, left that output port, on this side,
and nothing explains it.
Mostly it is one that the recording host itself sent there (IPv6, ARP, LLDP): switch these off, or
pass over what is no frame of a link: --leave-out other.",
    ),
    (
        "strange n A|B n *",
        "\
The frame of this line of LEFT, of a recording of this number, left that output port, on this side,
and nothing explains it.",
    ),
    (
        "passed n A|B n *",
        "\
The frame of this line of CAME, of a recording of this number, left that output port, on this side,
though the switch had to drop it; here is why.",
    ),
    (
        "unlawful n A|B n *",
        "\
The system at that port, on this side, sent the frame of this line of CAME, of a recording of this
number, which isn't lawful by itself; here is why.",
    ),
    (
        "# n *",
        "\
The message of the submission list's line of this number was refused. A refused message
changes nothing, and the run goes on.",
    ),
];
