//! The lines of `conform` but for the words in them, which stand in tables of their own.

use crate::entry::Entry;

/// Lines of `conform`, and the first words of those that have a word of a table at their end.
pub const CONFORM_LINES: [Entry; 15] = [
    (
        "strange",
        "\
strange m side port WORD: frame m of LEFT left that output port, and nothing explains it.
m is its line, of a recording its number. WORD says why; 'afdx explain --list' has each.",
    ),
    (
        "passed",
        "\
passed n side port WORD: frame n of CAME left that output port, and had to be dropped.
n is its line, of a recording its number. WORD says why; 'afdx explain --list' has each.
If most are over-rate, a recorder's clock was set, or CAME has frames twice.",
    ),
    (
        "\
stopped
stopped n A|B n",
        "\
stopped n side port: frame n of CAME had to pass, and it didn't leave that output port in time, or
not at all. n is its line, of a recording its number.
If all are at the begin, give --from; if all are at the end, --until. If it is so at the edge of a
link's account, frames may wait before the account is asked: --asked. If 'strange .. no-arrival'
comes too, the time inside may be longer than the latency: --inner.
A recorder or a mirror that loses frames makes such lines, and so do a switch that was reset in the
middle, and a frame that was damaged.",
    ),
    (
        "\
late
late n A|B n n",
        "\
late n side port NS: frame n of CAME left that output port NS ns later than its link's latency_us
allows.
If the switch may take longer inside, give --inner; if the stamps are less exact, --slack; if two
recorders' clocks are apart, --between. Stamps of first bits at one side and of last bits at the
other make frames early or late: --stamps.",
    ),
    (
        "\
early
early n A|B n n",
        "\
early n side port NS: frame n of CAME left that output port NS ns before all of it can have gone
over the line, so the stamps are wrong.
They may be cut to 8 ns or to whole us: --slack; or come from two clocks that are apart:
--between. If all are early, they are those of first bits: --stamps, of lists stamps of last bits
on both sides.
With --explain-drops, of several switches: port is a switch's name that is all digits, and the
frame came NS ns too early for its link's account.",
    ),
    (
        "unlawful",
        "\
unlawful n side port WORD: the system at that port sent frame n of CAME, which isn't lawful by
itself.
n is its line, of a recording its number. WORD says why; 'afdx explain --list' has each.",
    ),
    (
        "\
number
number n A|B n n",
        "\
number n side port Q: the system at that port sent frame n of CAME with another sequence number
than Q, the one behind that of the frame before it of its link there; the first one has 0.
If it is so once for each link and side, the recorders began in the middle: --from. If the frame has
0, its system was reset: two runs, --until and --from. A recorder or a mirror that loses frames
makes such lines, and 'single' on the other network: record at taps. If all frames have it, with
'single' or 'differs', they have trailers: editcap -L -C -12 and --fcs no.",
    ),
    (
        "\
soon
soon n A|B n n",
        "\
soon n side port NS: the system at that port sent frame n of CAME NS ns too soon after those of its
link before it there, by bag_ms and jitter_us.
If few frames do, by some 100, stamps are late or early by chance: --slack of as much. If many do,
again and again by few ns, its clock is faster than the recorder's: --drift. A mirror that queues
makes such lines: record at the system's cable. A host without priority in real time is held up,
and one that catches up after a pause sends so: then it is as it is said.",
    ),
    (
        "\
differs
differs n A|B n",
        "\
differs n side port: the system at that port sent frame n of CAME, which isn't the same as its copy
on the other network.
The byte of the network in the source address and the check sequence may differ, all else may not.
If all frames have it, with 'number', they have trailers: editcap -L -C -12 and --fcs no.",
    ),
    (
        "apart n A|B n n",
        "\
apart n side port NS: the system at that port sent frame n of CAME NS ns later than it may behind
its copy on the other network: a receiver may take both.
If nearly all frames have it, by about the same, two recorders' clocks are apart: use one recorder,
or --slack. If few have it, by less than 1000, stamps are cut to us: --slack of half a us. In
tables by 'afdx solve' skew_us leaves the time on the lines alone: give a greater skew_us. A host
without priority in real time is held up between its two networks.",
    ),
    (
        "\
single
single n A|B n",
        "\
single n side port: the system at that port sent frame n of CAME, and no copy of it came on the
other network within the greatest skew_us that there is.
If many are at the begin or at the end, recorders began or stopped apart: --from of a second and
more, --until before the first one stopped. If all frames have it, two recorders' clocks are over
100 ms apart. A recorder or a mirror that loses frames makes such lines.",
    ),
    (
        "\
unsure
unsure n A|B n",
        "\
unsure n side port: from the arrival of frame n of CAME on nothing is said of its link at that
output port: with these options more than 1024 explanations were possible.
Less --slack, --between, --drift and --asked, or no --from, leave fewer; so do frames of unlike
bytes.",
    ),
    (
        "\
conforms
conforms explained n open n uncertain n left-out n unseen n idle n
conforms explained n open n uncertain n left-out n unseen n idle n sent n cut n alone n",
        "\
conforms: each frame that left is explained, and each that had to leave did; or with --senders the
systems sent as the tables say.
explained: frames that left rightly; open: arrivals whose frames may come behind the end;
uncertain: where dropping and passing would both be right; left-out: frames that weren't looked at,
by --leave-out, or since what their link's sender sends wasn't recorded; unseen: links at output
ports that aren't judged, since the sender's port or the output port wasn't recorded; idle: those
that are judged, and of which no frame is explained: nothing was shown of them.
If uncertain is near explained, nothing was shown of the accounts: --slack is near jitter_us.
Record with stamps of hardware, or test with greater bag_ms. Of what is unseen nothing is said:
record these ports too, and name them by --interface and --left. With --exercised it is undecided
where one is idle: send on each link.
Where senders are judged: sent: frames of systems of which nothing is found; cut: frames whose copy
on the other network may have been sent before the recordings began or after they ended; alone:
links that weren't recorded on both networks, so that their copies aren't compared.",
    ),
    (
        "\
deviates
deviates n explained n open n uncertain n left-out n unseen n idle n
deviates n explained n open n uncertain n left-out n unseen n idle n sent n cut n alone n",
        "\
deviates D: there are D lines above of what the switch did wrong, or with --senders its systems.
Only the first of a link at an output port, or at its sender's port, is sure to name the cause.
See first that the recordings are right: GUIDE has a table of what a recorder makes of a right
switch, and one of what it makes of a right sender. All that is counted is as with conforms.",
    ),
    (
        "\
undecided
undecided explained n open n uncertain n left-out n unseen n idle n
undecided explained n open n uncertain n left-out n unseen n idle n sent n cut n alone n",
        "\
undecided: nothing wrong was found, but no frame was explained either, or a line 'unsure' stands
above; or --exercised was given, and of a link at an output port no frame was explained: idle.
If explained is 0, LEFT may be empty, or all its frames are left out, or its times are others than
those of CAME: both count from one moment. If unseen is great, --interface or --left names other
ports than those of the links; --summary says what was left out. The status is 3.
Where senders are judged: no frame came at the port of the system that sends its link. CAME may be
empty, or say other ports; or its frames are left out, or stand before --from or behind --until.",
    ),
];
