//! Why a frame is strange that a switch sent.

use afdx_police::Reason;

/// Why a frame is strange that a switch sent: no arrival explains it.
#[derive(Clone, Copy, Debug, PartialEq, Eq)]
pub enum Strangeness {
    /// What the tables say against it, as against an arrival: it is no frame of a virtual link, or
    /// no link is named like this. Of a stream's frame: it is too short or too long, or its check
    /// sequence is wrong.
    Shape(Reason),
    /// It left at a port, or on a side, that its link doesn't go to: it is of no stream.
    NotItsPort,
    /// It fits an arrival, but that one left before, or the order doesn't allow it.
    OutOfTurn,
    /// It fits no arrival.
    NoArrival,
}

/// Each reason that isn't of the tables, in their order: in a word, and what it means, with what
/// may be done. The others are in the words of the reasons to drop an arrival.
pub const STRANGE_REASONS: [(Strangeness, &str, &str); 3] = [
    (
        Strangeness::NotItsPort,
        "not-its-port",
        "\
not-its-port: the frame left at an output port, or on a side, that its link doesn't go to.
The switch has other tables than CONFIG, or LEFT gives the wrong port or side.
On a bench it is mostly a cable in the wrong port.",
    ),
    (
        Strangeness::OutOfTurn,
        "out-of-turn",
        "\
out-of-turn: the frame is that of an arrival, but this one left before, or frames of its link
that came later did. The switch sent it twice, or in the wrong order.
If all frames have this, they were recorded twice, as at a mirror port: record at taps.
If the stamps of one line go back, record with one receive queue.",
    ),
    (
        Strangeness::NoArrival,
        "no-arrival",
        "\
no-arrival: the frame has the bytes of no arrival that came in time before it. A switch makes no
frame of its own: the recorder of CAME lost the arrival, or began later, or the frame was changed.
If it is so at the begin alone, give --from. If most frames have this, and 'stopped' too,
the time inside is longer than the latency (--inner), or frames have tags or trailers.",
    ),
];

impl Strangeness {
    ghost use Rattle.std.specs.Prelude.{◌≡◌, ◌<◌, Some, slice_get};
    ghost use Rattle.afdx_conform.specs.Words.{own_reasons, own_word, strange_word};

    /// Its row, which stands at this place.
    #[tactic(auto, unfolding(crate::specs::Words::own_reasons, crate::specs::Words::own_words))]
    fn row(self, place: usize) -> &'static (Strangeness, &'static str, &'static str)
        requires within { place < 3 }
        requires own { slice_get own_reasons place ≡ Some self }
        ensures word { result.now.1.now ≡ own_word place }
    {
        &STRANGE_REASONS[place]
    }

    /// It in a word.
    #[tactic(auto, unfolding(crate::specs::Words::own_reasons))]
    pub fn word(self) -> &'static str
        ensures { result.now ≡ strange_word self }
    {
        match self {
            Strangeness::Shape(reason) => reason.word(),
            Strangeness::NotItsPort => self.row(0).1,
            Strangeness::OutOfTurn => self.row(1).1,
            Strangeness::NoArrival => self.row(2).1,
        }
    }
}
