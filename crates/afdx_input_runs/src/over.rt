//! What a run reads, one input or two, and what it answers over recordings, whatever machine tells
//! them.

ghost use Rattle.std.specs.Prelude.{◌≡◌, ◌||◌, ℕ, List, [], Bool, Option, Some, IfSome, OnOk, true, false};
ghost use Rattle.afdx_input_lines.specs.Calls.{is_read, is_failed_read, is_failed_write};
ghost use Rattle.afdx_input_lines.specs.Watching.{device_of, has_ended, has_failed};
ghost use Rattle.afdx_input_lines.specs.declared.fault.RunFault.{RunFault as Fault};
ghost use Rattle.afdx_input_sources.specs.Engine.{HoldsOfTold, IsReadyFor, Item};
ghost use Rattle.afdx_input_runs.specs.ListText.{lines_themselves};
ghost use Rattle.afdx_input_sources.specs.NumberLines.{CanBePeeled, Lines, arrivals_listed};
ghost use Rattle.afdx_input_runs.specs.Over.{IsAsked, Takes};
ghost use Rattle.afdx_input_sources.specs.Taking.{Taken};
ghost use Rattle.afdx_input_runs.specs.TakenRun.{TakenAnswers};
ghost use Rattle.afdx_input_sources.specs.declared.counts.Tally.{Tally as Counted};

use afdx_frame::BySide;
use afdx_input_lines::{ByRole, Heading, RunFault, Watched};
use afdx_input_sources::{
    Arriving, Head, Machine, NumberLine, Ordered, ReadRecording, Source, Tally, TimedNumbers,
    TimedPair, Two, drive,
};
use afdx_text::Sink;
use std::io::Read;

/// What a run reads: an input, or two at once.
pub trait Input {
    /// A read of it failed.
    ghost failed: { Self → Bool };

    /// All of it was read.
    ghost ended: { Self → Type 0 };

    /// How often it was asked, from the first to the last.
    ghost asked: { Self → Self → Type 0 };
}

impl<R: Read> Input for Watched<R> {
    ghost failed = { has_failed };

    ghost ended = { λ input. has_ended input ≡ true };

    ghost asked = { IsAsked R.remaining };
}

impl<R: Read> Input for BySide<Watched<R>> {
    ghost failed = { λ inputs. has_failed inputs.a || has_failed inputs.b };

    ghost ended = { λ inputs. (has_ended inputs.a ≡ true) × (has_ended inputs.b ≡ true) };

    ghost asked = { λ first last.
        IsAsked R.remaining first.a last.a × IsAsked R.remaining first.b last.b };
}

impl<R: Read> Input for ByRole<Watched<R>> {
    ghost failed = { λ inputs. has_failed inputs.came || has_failed inputs.left };

    ghost ended = { λ inputs.
        (has_ended inputs.came ≡ true) × (has_ended inputs.left ≡ true) };

    ghost asked = { λ first last. IsAsked R.remaining first.came last.came
        × IsAsked R.remaining first.left last.left };
}

/// Two inputs at once: what is true of them is so by what is true of each.
pub trait TwoInputs<R: Read>: Two<Part = Watched<R>> + Input {
    /// A read failed where one of either did; both were read, and asked, where each was.
    fn agrees()
        ensures failed { (inputs : Self) → Self.failed inputs
            ≡ (has_failed (Self.both inputs).a || has_failed (Self.both inputs).b) }
        ensures ended { (inputs : Self) → has_ended (Self.both inputs).a ≡ true →
            has_ended (Self.both inputs).b ≡ true → Self.ended inputs }
        ensures asked { (first last : Self) →
            IsAsked R.remaining (Self.both first).a (Self.both last).a →
            IsAsked R.remaining (Self.both first).b (Self.both last).b → Self.asked first last };
}

impl<R: Read> TwoInputs<R> for BySide<Watched<R>> {
    fn agrees() {}
}

impl<R: Read> TwoInputs<R> for ByRole<Watched<R>> {
    fn agrees() {}
}

/// What lines of recordings stand for.
pub trait OfLines: Head {
    /// These items.
    ghost items_of: { Lines → List (Item Self) };

    /// Without the newest they are those of some first lines.
    fn peels()
        ensures { CanBePeeled items_of };
}

impl OfLines for NumberLine {
    ghost items_of = { lines_themselves };

    fn peels() {}
}

impl OfLines for Heading {
    ghost items_of = { arrivals_listed };

    fn peels() {}
}

/// A source of which a run can say what it takes.
pub trait Reads<H: OfLines, I: Input>: Source<H, I> {
    /// What it counted.
    ghost counted: { Self → Counted };

    /// That is few enough to be added up.
    ghost AreFew: { Self → Type 0 };

    /// The bytes of its input, or of both.
    ghost Bytes: { Type 0 };

    /// What that still gives, where it is known.
    ghost known: { I → Option Bytes };

    /// Its settings.
    ghost Way: { Type 0 };

    ghost way: { Self → Way };

    /// They fit each other.
    ghost IsSet: { Way → Type 0 };

    /// What it takes of an input of these bytes.
    ghost whole: { Way → Bytes → Taken };

    /// These are the lines that it takes of such an input, up to a read that fails.
    ghost AreCut: { Way → Bytes → I → Lines → Type 0 };

    /// What it counted.
    fn tally(&self) -> Tally
        requires { AreFew self.now }
        ensures { result ≡ counted self.now };

    /// No call changes how it is set.
    fn stays()
        ensures { (a b : Self) → Self.settings a ≡ Self.settings b → way a ≡ way b };

    /// What it says of its input.
    fn reads()
        ensures gave { (start input : I) (source : Self) (past : List (Item H)) →
            Self.Gave start source input past → I.failed input ≡ false }
        ensures ended { (start input : I) (source : Self) (past : List (Item H)) →
            Self.Ended start source input past →
            (I.failed input ≡ false) × I.ended input × AreFew source }
        ensures stopped { (start input : I) (source : Self) (past : List (Item H))
            (fault : Fault) →
            Self.Stopped start source input past fault → I.failed input ≡ is_read fault }
        ensures gave_asked { (start input : I) (source : Self) (past : List (Item H)) →
            Self.Gave start source input past → I.asked start input }
        ensures ended_asked { (start input : I) (source : Self) (past : List (Item H)) →
            Self.Ended start source input past → I.asked start input }
        ensures stopped_asked { (start input : I) (source : Self) (past : List (Item H))
            (fault : Fault) →
            Self.Stopped start source input past fault → I.asked start input };

    /// What it takes of its input.
    fn takes()
        ensures { (start input : I) (source : Self) (bytes : Bytes) →
            known start ≡ Some bytes → IsSet (way source) →
            Takes H.items_of (whole (way source) bytes) (AreCut (way source) bytes input)
            (Self.Gave start source input) (Self.Ended start source input)
            (Self.Stopped start source input) (counted source) };
}

impl<R: Read> Reads<NumberLine, Watched<R>> for TimedNumbers<Ordered<ReadRecording>> {
    ghost use Rattle.afdx_input_sources.specs.OrderedRecording.{tally_of_source};
    ghost use Rattle.afdx_input_runs.specs.Over.{Set, IsSetOne, way_of_one, whole_of_one, CutOfOne};

    ghost Bytes = { List ℕ };

    ghost known = { λ input. R.remaining (device_of input) };

    ghost counted = { λ source. tally_of_source source.numbers };

    ghost AreFew = { λ source. Unit {0} };

    ghost Way = { Set × Option ℕ };

    ghost way = { way_of_one };

    ghost IsSet = { IsSetOne };

    ghost whole = { whole_of_one };

    ghost AreCut = { CutOfOne R.remaining };

    fn tally(&self) -> Tally {
        self.numbers.tally()
    }

    fn stays() {}

    fn reads() {}

    fn takes() {}
}

impl<R: Read, P: TwoInputs<R> + Two<Part = Watched<R>>> Reads<NumberLine, P>
    for TimedPair<Ordered<ReadRecording>> {
    ghost use Rattle.afdx_input_sources.specs.Counting.{IsFew, plus_tally};
    ghost use Rattle.afdx_input_sources.specs.OrderedRecording.{tally_of_source};
    ghost use Rattle.afdx_input_runs.specs.Over.{bytes_of_both, Set, IsSetTwo, way_of_two, whole_of_two, CutOfTwo};

    ghost Bytes = { List ℕ × List ℕ };

    ghost known = { λ inputs. bytes_of_both R.remaining (P.both inputs) };

    ghost counted = { λ source. plus_tally (tally_of_source source.pair.first.source)
        (tally_of_source source.pair.second.source) };

    ghost AreFew = { λ source. IsFew (tally_of_source source.pair.first.source)
        × IsFew (tally_of_source source.pair.second.source) };

    ghost Way = { Set × Set × Option ℕ };

    ghost way = { way_of_two };

    ghost IsSet = { IsSetTwo };

    ghost whole = { whole_of_two };

    ghost AreCut = { λ way bytes inputs. CutOfTwo R.remaining way bytes (P.both inputs) };

    fn tally(&self) -> Tally {
        let (a, b) = (
            self.pair.first.source.tally(),
            self.pair.second.source.tally(),
        );
        a.plus(&b)
    }

    fn stays() {}

    fn reads() {
        P::agrees();
    }

    fn takes() {}
}

impl<I: Input, S: Reads<NumberLine, I>> Reads<Heading, I> for Arriving<S> {
    ghost Bytes = { S.Bytes };

    ghost known = { S.known };

    ghost counted = { λ source. S.counted source.lines };

    ghost AreFew = { λ source. S.AreFew source.lines };

    ghost Way = { S.Way };

    ghost way = { λ source. S.way source.lines };

    ghost IsSet = { S.IsSet };

    ghost whole = { S.whole };

    ghost AreCut = { S.AreCut };

    fn tally(&self) -> Tally {
        self.lines.tally()
    }

    fn stays() {
        S::stays();
    }

    fn reads() {
        S::reads();
    }

    fn takes() {
        S::takes();
    }
}

/// Lets a machine tell what a source gives, and counts what is no arrival.
///
/// The machine can tell each item that the source gives. Each is told before the next one is read.
/// The first fault ends the run.
pub(crate) fn run_over<H: OfLines, I: Input, S: Reads<H, I>, M: Machine<H>, O: Sink>(
    source: &mut S,
    machine: &mut M,
    input: &mut I,
    output: &mut O,
) -> Result<Tally, RunFault>
    requires gave { S.Gave input.old source.old input.old [] }
    requires set { S.IsSet (S.way source.old) }
    requires sound_output { O.failed output.old ≡ false }
    requires told { IsReadyFor M.Can M.Told machine.old (O.written output.old)
        (S.Gives (S.settings source.old)) }
    ensures ended { OnOk result (I.ended input.new) }
    ensures read { I.failed input.new ≡ is_failed_read result }
    ensures write { O.failed output.new ≡ is_failed_write result }
    ensures calls { I.asked input.old input.new }
    ensures settings { S.settings source.new ≡ S.settings source.old }
    ensures whole { OnOk result ((past : List (Item H))
        × S.Ended input.old source.new input.new past) }
    ensures answer { HoldsOfTold M.Can M.Done M.Told M.Begins machine.old machine.new
        (O.written output.old) (O.written output.new) (S.Gives (S.settings source.old))
        (λ done told begins. IfSome (S.known input.old) (λ bytes.
        TakenAnswers (S.whole (S.way source.old) bytes)
        (S.AreCut (S.way source.old) bytes input.new) H.items_of done told begins result)) }
{
    H::peels();
    S::stays();
    S::reads();
    S::takes();
    drive(source, input, machine, output)?;
    Ok(source.tally())
}
