//! Why a number of a recording is skipped.

use std::fmt;

/// Why a number of a recording is no arrival: the first of these, in this order, that is true.
#[derive(Clone, Copy, Debug, PartialEq, Eq)]
pub enum Skipped {
    /// It is a custom or a journal block.
    NoFrame,
    /// The frames of its interface are left out.
    LeftOut,
    /// Its destination address names no link.
    NotAfdx,
    /// No option says its port, and its source address names no system of the tables.
    UnknownSender,
    /// No option says its side, and its source address names no network.
    NoNetwork,
    /// It came before the moment that is time 0.
    BeforeOrigin,
}

/// Each reason at its own place, the order of `Skipped`: in a word, and what it means, with what
/// may be done.
pub const SKIPPED: [(Skipped, &str, &str); 6] = [
    (
        Skipped::NoFrame,
        "no-frame",
        "no-frame: a custom or a journal block takes the number, and is no frame.",
    ),
    (
        Skipped::LeftOut,
        "left-out",
        "\
left-out: the frames of its interface are left out, by --interface K=-, or with 'conform'
since neither --interface nor --left names it.",
    ),
    (
        Skipped::NotAfdx,
        "not-afdx",
        "\
not-afdx: the frame has under 6 bytes, or a destination address that doesn't begin with
03 00 00 00.",
    ),
    (
        Skipped::UnknownSender,
        "unknown-sender",
        "\
unknown-sender: no option says the frame's port, and no system of the configuration, or of the
switch that an option names, has the number in its source address, 02 00 00, the number and the
network. Say it: --interface K=SIDE:PORT, of several switches 'K=SIDE SWITCH:PORT'. At a switch's
mirror it came over a cable, which is computed.",
    ),
    (
        Skipped::NoNetwork,
        "no-network",
        "\
no-network: no option says the frame's side, and its source address ends neither in 20, for A,
nor in 40, for B. Say it: --interface K=SIDE.",
    ),
    (
        Skipped::BeforeOrigin,
        "before-origin",
        "before-origin: the frame's moment is before that of --origin.",
    ),
];

impl Skipped {
    ghost use Rattle.std.specs.Prelude.{◌≡◌};
    ghost use Rattle.afdx_input_sources.specs.Words.{skipped_word, skipped_meaning};

    /// Its row, which stands at its place.
    #[tactic(auto, unfolding(crate::specs::Words::words, crate::specs::Words::meanings))]
    fn row(self) -> &'static (Skipped, &'static str, &'static str)
        ensures own { result.now.0 ≡ self }
        ensures word { result.now.1.now ≡ skipped_word self }
        ensures meaning { result.now.2.now ≡ skipped_meaning self }
    {
        &SKIPPED[self as usize]
    }

    /// It in a word.
    pub fn word(self) -> &'static str
        ensures { result.now ≡ skipped_word self }
    {
        self.row().1
    }

    /// What it means, with what may be done.
    pub fn meaning(self) -> &'static str
        ensures { result.now ≡ skipped_meaning self }
    {
        self.row().2
    }
}

impl fmt::Display for Skipped {
    ghost use Rattle.std.specs.Prelude.{Some};
    ghost use Rattle.afdx_input_sources.specs.Words.{skipped_word};

    ghost output = { λ reason. Some (skipped_word reason) };

    fn fmt<W: fmt::Write>(&self, f: &mut fmt::Formatter<W>) -> fmt::Result {
        f.write_str(self.word())
    }
}
