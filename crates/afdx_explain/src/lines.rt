//! The lines of the output but for the words in them, which stand in tables of their own.

use crate::entry::Entry;

/// Lines of the output.
pub const LINES: [Entry; 20] = [
    (
        "\
accept
V n A|B accept
V n A|B * accept",
        "\
accept: the frame of line n was accepted at the switch of this side.",
    ),
    (
        "\
early n n
early n A|B * n",
        "\
early n NS: on standard error, with --explain-drops: the frame of line n was dropped as
over-rate: it came NS ns too early. It would have been accepted that much later, and no
sooner. Of several switches the side and the name of the one that dropped it stand before NS.",
    ),
    (
        "\
L
L n A|B n
L n A|B * n",
        "\
L n side port: its copy for that output port was lost to a full buffer.
Of several switches the switch's name stands behind the side. It doesn't come on an admitted
network. A larger buffer, or less traffic to that port; 'afdx check' says what the port needs.",
    ),
    (
        "\
D
D n n A|B n
D n n A|B * n",
        "\
D n time side port: its copy left that port at that time: its slot ended, in ns. n is the
list's line of the frame. Of several switches the switch's name stands behind the side; if a cable
is at the port, the copy arrives at its other end at that time.",
    ),
    (
        "\
T
T n n A|B n
T n n A|B * n",
        "\
T n time side port: profile 2: its copy was dropped there as too old, at that time: it had
waited for longer than the latency_us of its link, 1 to 100000.
Of several switches the switch's name stands behind the side. It doesn't come on an admitted
network.",
    ),
    (
        "\
M
M n * n *",
        "\
M time system vl hex: the system's communication port read this message, in lower-case
digits, of the link vl.",
    ),
    (
        "\
P
P n n n n
P n n - n",
        "\
P port high low buffer: of this switch port the longest time in ns that a high frame can
take there, rounded up; the same for a low frame; - where the high links alone take the
whole line; bytes of buffer that the port needs, rounded up.",
    ),
    (
        "\
m
m n n n n
m n n - n",
        "\
m port vl bound latency: with --margins: the link vl goes to this switch port; bound is the
longest time in ns that its frames can take there, rounded up, - where the high links alone
take the whole line; latency is the link's, in ns.
The link's frames are in time there if latency is bound or more, and the port isn't
overloaded.",
    ),
    (
        "\
S
S *",
        "\
S SWITCH: of several switches: the lines P and m that follow are those of this switch, by its own
tables.",
    ),
    (
        "\
E
E n * n
E n * -",
        "\
E vl system ns: of several switches: the link vl goes to this system; ns is the sum of the link's
latencies, in ns, in all switches on its way there, - where the way is broken: a switch gets the
link from a neighbour that doesn't send it there.
On an admitted network no frame takes longer from its arrival at the first of these switches to
the end of its slot at the last.",
    ),
    (
        "\
vl n at * n ns needed, n us asked
vl n at * * n ns needed, n us asked",
        "\
vl VL at PORT: NEEDED ns needed, ASKED us asked: 'solve' on standard error: at this switch port
the frames of this link can take so long, with the jitters that are written; the latency_us of
CONFIG is less.
Of several switches the switch's name stands before PORT.
Where so long is too long, send less to that port, or give its system or cable a faster line; the
lines m of 'check --margins' say what fills the port.",
    ),
    (
        "\
apart
apart n n
apart n -",
        "\
apart vl ns: with --margins, of an admitted network: by so many ns may one copy of a frame of the
link vl be sent later than the other, on the two networks; then each system that gets it takes the
later one for a copy. - where no system gets the link.
It is the least, over these systems, of what the skew leaves of the latencies on the way there
beyond the time that the link's shortest frame takes at least, lmin and 8 bytes more on each line.
0 is not what an end system keeps, since it hands the copies over one after the other: 'solve
--apart NS' makes room for more.",
    ),
    (
        "\
no apart n n
no apart * n n",
        "\
no apart vl ns: 'solve' --apart asks for more than the tables can leave: the copies of a frame of
the link vl may be sent ns apart at most, though its skew is as great as it may be, or is kept.
Of several switches the name of the one where it goes to a system stands before vl. Ask for less,
don't keep skew, or take latency off its way: less traffic to its ports, faster lines.",
    ),
    (
        "ok",
        "\
ok: the network is admitted: no accepted frame is lost in a switch, and each is in time.",
    ),
    (
        "summary lines n accepted n dropped n lost n departed n too-old n delivered n",
        "\
summary: the counts of a run: the lines that were read; frames that were accepted and those
that were dropped at a switch, of several at each; copies that were lost to a full buffer, that
left a port, and that were dropped as too old; messages that were delivered. With 'send' accepted
are the messages that were taken, dropped those that were refused, departed the frames that left,
one for both sides.",
    ),
    (
        "\
recorder-lost
claimed
contradicted
unused
skipped no-frame n left-out n not-afdx n unknown-sender n no-network n before-origin n \
recorder-lost n claimed n contradicted n unused n",
        "\
skipped: with --summary, of a recording: how many of its numbers were no arrivals, for each
reason; then recorder-lost: frames that the recorder itself lost, by the last statistics of each
interface in a pcapng, at most 2^64 - 1; 0 also where it has none, as in a ring of dumpcap and
behind editcap and mergecap; then claimed: arrivals whose side or port was taken from their own
bytes; then contradicted: arrivals whose own source address names another side than the one where
options say they came in: two cables may be crossed; then unused: interfaces that --interface
names and the recording doesn't have.
'afdx list' says of each number which reason it is. --interface says where frames came in, so
that they aren't claimed.
'conform' writes it behind its last line, of two recordings CAME's first; there a frame that left is
as an arrival, --left as --interface, and interfaces that aren't named are left out.",
    ),
    (
        "\
R
R n A n *
R n A * n *",
        "\
R time A port HEX: the frame of a message left the system for switch A; its slot ended then.
port is the system's port at the switches, HEX the whole frame.
Of 'list' it is an arrival with its check sequence, or an arrival of which over 2,000 bytes were
recorded with the first 2,000, which every switch drops as too-long; port is the switch's. Of
several switches the name of the system's switch stands behind A.",
    ),
    (
        "\
R n B n *
R n B * n *",
        "\
R time B port HEX: its copy for switch B, always right behind it.
Of 'list' it is an arrival with its check sequence, or an arrival of which over 2,000 bytes were
recorded with the first 2,000, which every switch drops as too-long. Of several switches the name
of the system's switch stands behind B.",
    ),
    (
        "\
F
F n A|B n *
F n A|B * n *",
        "\
F time side port HEX: of 'list' it is an arrival without its check sequence: a frame that came
at that time, in ns, on that side, at that input port of the switch. In a frame list the program
appends the check sequence. Of several switches the switch's name stands behind the side.",
    ),
    (
        "\
B
B n A|B n *
B n A|B * n *",
        "\
B time side port HEX: of 'list' it is an arrival without its check sequence, which the recorder
found wrong. In a frame list the program appends a bad one: each bit of the right one inverted. Of
several switches the switch's name stands behind the side.",
    ),
];
