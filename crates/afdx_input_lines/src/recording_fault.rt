//! Why a run over a recording ended before the end of its recording.

use thiserror::Error;

/// What is wrong with a recording, or with a frame of it. Frames are counted from 1, and so are
/// blocks that take a number.
///
/// Its text is the line of the fault on standard error, without its line feed.
#[derive(Clone, Copy, Debug, PartialEq, Eq, Error)]
pub enum RecordingFault {
    /// It doesn't begin as a recording does: 0.
    #[error("recording NotRecording {0}")]
    NotRecording(u64),
    /// It has another version, or its section has, behind so many numbers.
    #[error("recording BadVersion {0}")]
    BadVersion(u64),
    /// What comes behind so many numbers can't be read.
    #[error("recording Damaged {0}")]
    Damaged(u64),
    /// It ends within what comes behind so many numbers.
    #[error("recording Ended {0}")]
    Ended(u64),
    /// So many numbers, and no arrival.
    #[error("recording NoArrival {0}")]
    NoArrival(u64),
    /// The interface of the frame of this number isn't Ethernet.
    #[error("recording NotEthernet {0}")]
    NotEthernet(u64),
    /// The frame of this number has no stamp.
    #[error("recording NoTime {0}")]
    NoTime(u64),
    /// The stamp of the frame of this number isn't 0 to 2^63 - 1 ns, or its fraction is a second or
    /// more.
    #[error("recording BadTime {0}")]
    BadTime(u64),
    /// The frame of this number was longer than what was recorded of it.
    #[error("recording Cut {0}")]
    Cut(u64),
    /// Nobody says whether the frame of this number ends with its check sequence, and it seems to.
    #[error("recording FcsUnclear {0}")]
    FcsUnclear(u64),
    /// More arrivals before that of this number have a later moment than may.
    #[error("recording TimeBack {0}")]
    TimeBack(u64),
    /// The arrival of this number has a time over 10^15 ns.
    #[error("recording TimeTooLarge {0}")]
    TimeTooLarge(u64),
    /// It begins as a packed file does.
    #[error("recording Packed")]
    Packed,
    /// It never described the interface of this number, of which an option speaks.
    #[error("recording Absent {0}")]
    Absent(u64),
    /// The recorder lost so many frames, by its own word.
    #[error("recording Lossy {0}")]
    Lossy(u64),
}

/// Each fault of a recording, in the order of `RecordingFault`: the form of its line (`n` is the
/// number of a frame, or a count), and what it means, with what may be done.
pub const RECORDING_FAULTS: [(&str, &str); 15] = [
    (
        "recording NotRecording n",
        "\
The input isn't a recording: its first four bytes are those of no pcap and no pcapng. The
option that was given, or the command, needs one; two LISTs both have to be recordings, and so has
the one input of 'conform'. Make one of another format by: editcap -F pcapng IN OUT.",
    ),
    (
        "recording BadVersion n",
        "\
A pcap has another version than 2.4, or a section of a pcapng another than 1.0 and 1.2.
n is how many numbers come before it. Write it anew by: editcap -F pcapng IN OUT.",
    ),
    (
        "recording Damaged n",
        "\
A length, a version's mark, an interface's number or an option that can't be right.
n is how many numbers come before it. Were pcap files put together by 'cat'? mergecap joins
them. Else editcap IN OUT keeps the whole frames before it.",
    ),
    (
        "recording Ended n",
        "\
The recording ends within its head, a frame or a block: the recorder was stopped, or the file
is cut short. n is how many numbers come before it. Keep the whole frames by: editcap IN OUT.",
    ),
    (
        "recording NoArrival n",
        "\
The recording has n numbers, and none is an arrival; of 'conform', none came in or left.
'afdx list' says why each was skipped; --interface K=PLACE says where the frames of interface K
came in: A:1, of several switches 'A fwd:1'; of 'conform' --left K=A:3 says where they left, and
interfaces that aren't named are left out.",
    ),
    (
        "recording NotEthernet n",
        "\
The frame can't be an arrival: its interface has another link type than Ethernet.
Leave the interface out: --interface K=-; of 'conform', name it nowhere.",
    ),
    (
        "recording NoTime n",
        "\
The frame can't be an arrival: it has no stamp, as in each simple packet block.
Record enhanced packets, or leave the interface out: --interface K=-; of 'conform', name it
nowhere.",
    ),
    (
        "recording BadTime n",
        "\
The frame can't be an arrival: its stamp isn't 0 to 2^63 - 1 ns since 1970, or its fraction is
a second or more. The recorder's clock is at fault; editcap -t SECONDS IN OUT moves all stamps.",
    ),
    (
        "recording Cut n",
        "\
The frame isn't whole: fewer bytes were recorded of it than it had on the wire. Record without
a snap length (dumpcap -s 0). If the recorder took the check sequence off but counts it in the
frame's length, say --fcs no.",
    ),
    (
        "recording FcsUnclear n",
        "\
It isn't clear what the frame was: the recording doesn't say whether frames end with their
check sequence, and its last four bytes are that of the others.
Say --fcs yes if each frame ends with it, --fcs no if none does.",
    ),
    (
        "recording TimeBack n",
        "\
More arrivals in front of the frame have a later moment than --reorder N says: 10,000 if it isn't
given, none with --line-buffered. With --line-buffered --reorder N each verdict comes N frames
later. reordercap IN OUT puts a file in order. A clock that was set back also looks so.",
    ),
    (
        "recording TimeTooLarge n",
        "\
The frame came or left too late: its moment is more than 10^15 ns behind the origin, about eleven
days and a half. The origin is the moment of the first arrival, of 'conform' of the first frame, or
that of --origin. Cut the recording in pieces by: editcap -A START -B STOP IN OUT.",
    ),
    (
        "recording Packed",
        "\
The input isn't read: its first four bytes are those of a packed file: gzip, zstd, bzip2, xz or
zip. Unpack it on the way, with - in the place of FILE: zcat FILE | afdx .. -
So do zstdcat, bzcat and xzcat, and unzip -p for zip. Of two inputs, A or B, or came or left,
behind the word says which, and one alone may be -.",
    ),
    (
        "recording Absent n",
        "\
An option speaks of interface n, and the recording has none of that number: it stands for what no
recorder saw. Count the interfaces from 0, as Wireshark does, anew in each file: capinfos IN lists
them. A pcap has interface 0 alone. Of two recordings, came or left behind the number says which.",
    ),
    (
        "recording Lossy n",
        "\
The recorder lost n frames by its own word, of all interfaces together. So a frame that it didn't
keep would stand for one that the switch stopped, or for one that never came.
Record with a longer queue (dumpcap -N 1000000 -C 1000000000), on a faster disk, or less at once.
With --lossy the last line comes all the same: then any 'stopped' and 'no-arrival' may be the
recorder's.",
    ),
];
