//! What gives a run what it takes, whatever that is.

ghost use Rattle.std.specs.Prelude.{◌≡◌, [], Bool, List, Option, Result, Some, Err, IfSome, OnOk, false};
ghost use Rattle.afdx_input_lines.specs.Calls.{is_failed_read, is_failed_write};
ghost use Rattle.afdx_input_lines.specs.declared.fault.RunFault.{RunFault as Fault};
ghost use Rattle.afdx_input_lines.specs.declared.fault.RunFault.TheVariants.{Memory};
ghost use Rattle.afdx_input_sources.specs.Claims.{Ports, ports_unsaid};
ghost use Rattle.afdx_input_lines.specs.declared.frame_line.Heading.{Heading as Headed};
ghost use Rattle.afdx_input_sources.specs.Engine.{HoldsOfTold, IsReadyFor, Item};
ghost use Rattle.afdx_input_sources.specs.Lists.{Kind};
ghost use Rattle.afdx_input_runs.specs.Arrivals.{ListTaking, TakesForm, TakesFrames, TakesKind, TookAndTold};

use crate::over::{Input, OfLines};
use crate::reading::Reading;
use afdx_input_lines::{Heading, RunFault};
use afdx_input_sources::{LineForm, Machine};
use afdx_text::Sink;
use std::alloc::Global;

/// What a run takes with options `P`, by what is said of each: arrivals, frames that came and that
/// left, or the numbers of recordings.
pub trait RunHead<P>: OfLines {
    /// What it counts of its inputs.
    type Count;

    /// What the input is doesn't rest on its first bytes.
    ghost is_settled: { P → Bool };

    /// Such an item can come, by the options and these ports, and of lists whose lines say items of
    /// which this holds.
    ghost CanCome: { P → Ports → (Item Headed → Type 0) → Item Self → Type 0 };

    /// The times of these, of which the newest is the first, don't go back.
    ghost GoOn: { List (Item Self) → Type 0 };
}

/// What gives a run what it takes, with options `P`: one input, or two that are read at once.
pub trait RunInput<P, H: RunHead<P>>: Input {
    /// Nothing was asked of it yet.
    ghost IsNew: { Self → Type 0 };

    /// The bytes of it, or of both.
    ghost Bytes: { Type 0 };

    /// All that it still gives, where it is known.
    ghost known: { Self → Option Bytes };

    /// From the first to the last it was asked no more often than is needed, where what it is
    /// doesn't rest on its first bytes (true), or does.
    ghost IsAskedFew: { Bool → Self → Self → Type 0 };

    /// Of an input of these bytes, which is then this one, a run with this answer has taken these,
    /// where of a list it takes what the first says.
    ghost Takes: { ListTaking → P → Ports → Bytes → Self → List (Item H) →
        Result H.Count Fault → Type 0 };

    /// Nothing was asked of a new one.
    fn starts()
        ensures sound { (input : Self) → IsNew input → Self.failed input ≡ false }
        ensures asked { (settled : Bool) (input : Self) → IsNew input →
            IsAskedFew settled input input };

    /// A run that wants memory at once takes none, whatever kind of list it may read.
    fn takes_none<F: LineForm<Heading>>()
        ensures { (kind : Kind F.Said F.Thing) (said : Item Headed → F.Thing) (options : P)
            (ports : Ports) (bytes : Bytes) (input : Self) →
            IsNew input → known input ≡ Some bytes →
            Takes (TakesKind kind said) options ports bytes input [] (Err Memory) };

    /// The times of what it takes don't go back, of lists those of one switch.
    fn orders()
        ensures { (options : P) (ports : Ports) (bytes : Bytes) (rest : Self)
            (past : List (Item H)) (answer : Result H.Count Fault) →
            Takes TakesFrames options ports bytes rest past answer → H.GoOn past };

    /// Lets a machine tell what the run takes, and counts what was read. The lines of a list have
    /// the form of the reading; those of two lists with roles are of one switch, whatever it is.
    /// The machine can tell what can come of it.
    ///
    /// The whole text of an arrival, or of a frame, is handed to `output` before the next byte is
    /// read. The first fault ends the run; what was told before it stands written. Of two
    /// recordings it is that of the one that has it. `RunFault::Read` and `RunFault::Write` come
    /// exactly where the device of an input, or the output's, failed; none is tried again.
    fn tell_all<F: LineForm<Heading>, M: Machine<H>, O: Sink>(
        &mut self,
        alloc: Global,
        options: P,
        reading: Reading<'_, F>,
        machine: &mut M,
        output: &mut O,
    ) -> Result<H::Count, RunFault>
        requires new { IsNew self.old }
        requires sound_output { O.failed output.old ≡ false }
        requires form { F.IsForm reading.form }
        requires told { IsReadyFor M.Can M.Told machine.old (O.written output.old)
            (H.CanCome options (ports_unsaid reading.unsaid) (F.Gives reading.form)) }
        ensures ended { OnOk result (Self.ended self.new) }
        ensures read { Self.failed self.new ≡ is_failed_read result }
        ensures write { O.failed output.new ≡ is_failed_write result }
        ensures calls { IsAskedFew (H.is_settled options) self.old self.new }
        ensures answer { let how = reading.entry in let ports = ports_unsaid how.unsaid in
            HoldsOfTold M.Can M.Done M.Told M.Begins machine.old machine.new
            (O.written output.old) (O.written output.new)
            (H.CanCome options ports (F.Gives how.form)) (λ done told begins.
            IfSome (known self.old) (λ bytes. TookAndTold
            (Takes (TakesForm F.kind F.says_of how.form) options ports bytes self.new) result
            done told begins)) };
}
