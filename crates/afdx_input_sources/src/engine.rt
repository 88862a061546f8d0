//! One run: what a source gives, one item after another, a machine tells.

ghost use Rattle.std.specs.Prelude.{◌≡◌, ◌<◌, ◌⊎◌, ◌∷◌, [], ℕ, List, Ok, OnOk, OnErr, IfErr, false};
ghost use Rattle.afdx_input_lines.specs.Calls.{is_failed_write};
ghost use Rattle.afdx_input_lines.specs.declared.fault.RunFault.{RunFault as Fault};
ghost use Rattle.afdx_input_sources.specs.Engine.{Bytes, HoldsOfTold, IsReadyFor, Item, item_of, Runs};
ghost use Rattle.afdx_text.specs.Sinks.{SinkKept};

use afdx_input_lines::{Next, RunFault};
use afdx_text::Sink;

/// What is said of an item beside its bytes.
pub trait Head: Copy {
    /// Such an item may come after these.
    ghost can_follow: { List (Item Self) → Item Self → Type 0 };
}

/// What gives items one after another, from an input `I`.
pub trait Source<H: Head, I> {
    /// The item that was given last.
    ghost current: { Self → Item H };

    /// No more calls than this give an item.
    ghost left_of: { Self → ℕ };

    /// What it works by, which no call changes.
    ghost Settings: { Type 0 };

    ghost settings: { Self → Settings };

    /// What holds of each item that it gives.
    ghost Gives: { Settings → Item H → Type 0 };

    /// From the input as it was first, these were given: the newest first.
    ghost Gave: { I → Self → I → List (Item H) → Type 0 };

    /// And these are all.
    ghost Ended: { I → Self → I → List (Item H) → Type 0 };

    /// Or this fault stands behind them.
    ghost Stopped: { I → Self → I → List (Item H) → Fault → Type 0 };

    /// Gives the next item.
    fn next(&mut self, input: &mut I) -> Result<Next, RunFault>
        requires { (start : I) × (past : List (Item H)) × Gave start self.old input.old past }
        ensures item { (start : I) (past : List (Item H)) → Gave start self.old input.old past →
            result ≡ Ok Next.Given → Gave start self.new input.new (current self.new ∷ past)
            × H.can_follow past (current self.new)
            × Gives (settings self.new) (current self.new) }
        ensures end { (start : I) (past : List (Item H)) → Gave start self.old input.old past →
            result ≡ Ok Next.Ended → Ended start self.new input.new past }
        ensures stop { (start : I) (past : List (Item H)) → Gave start self.old input.old past →
            IfErr result (Stopped start self.new input.new past) }
        ensures unwritten { is_failed_write result ≡ false }
        ensures settings { settings self.new ≡ settings self.old }
        ensures less { result ≡ Ok Next.Given → left_of self.new < left_of self.old };

    /// Its number.
    fn number(&self) -> u64
        ensures { result ≡ (current self.now).number };

    /// Its heading.
    fn head(&self) -> H
        ensures { result ≡ (current self.now).head };

    /// Its bytes.
    fn bytes(&self) -> &[u8]
        ensures { result.now ≡ (current self.now).bytes };
}

/// What tells of each item.
pub trait Machine<H: Head> {
    /// What it works by.
    ghost Rules: { Type 0 };

    /// By these rules it can tell this item.
    ghost Can: { Rules → Item H → Type 0 };

    /// By these rules it stands for these items, and told them: the output held the first bytes
    /// and now holds the second.
    ghost Told: { Rules → Self → Bytes → Bytes → List (Item H) → Type 0 };

    /// The output now holds, behind what it held, a beginning of the text of these items.
    ghost Begins: { Rules → Self → Bytes → Bytes → List (Item H) → Type 0 };

    /// Or all of it, with all that is told at the end.
    ghost Done: { Rules → Self → Bytes → Bytes → List (Item H) → Type 0 };

    /// Tells an item.
    fn tell<O: Sink>(
        &mut self,
        n: u64,
        head: &H,
        bytes: &[u8],
        output: &mut O,
    ) -> Result<(), RunFault>
        requires sound { O.failed output.old ≡ false }
        requires told { (rules : Rules) × (start : Bytes) × (past : List (Item H))
            × Told rules self.old start (O.written output.old) past
            × H.can_follow past (item_of n head.now bytes.now)
            × Can rules (item_of n head.now bytes.now) }
        ensures sink { SinkKept O.failed O.settings output.old output.new result }
        ensures told { (rules : Rules) (start : Bytes) (past : List (Item H)) →
            Told rules self.old start (O.written output.old) past →
            H.can_follow past (item_of n head.now bytes.now) →
            Can rules (item_of n head.now bytes.now) →
            OnOk result (Told rules self.new start (O.written output.new)
            (item_of n head.now bytes.now ∷ past)) }
        ensures begins { (rules : Rules) (start : Bytes) (past : List (Item H)) →
            Told rules self.old start (O.written output.old) past →
            OnErr result (Begins rules self.new start (O.written output.new) past
            ⊎ Begins rules self.new start (O.written output.new)
            (item_of n head.now bytes.now ∷ past)) };

    /// Tells what is still to be told.
    fn end<O: Sink>(&mut self, output: &mut O) -> Result<(), RunFault>
        requires sound { O.failed output.old ≡ false }
        requires told { (rules : Rules) × (start : Bytes) × (past : List (Item H))
            × Told rules self.old start (O.written output.old) past }
        ensures sink { SinkKept O.failed O.settings output.old output.new result }
        ensures done { (rules : Rules) (start : Bytes) (past : List (Item H)) →
            Told rules self.old start (O.written output.old) past →
            OnOk result (Done rules self.new start (O.written output.new) past) }
        ensures begins { (rules : Rules) (start : Bytes) (past : List (Item H)) →
            Told rules self.old start (O.written output.old) past →
            OnErr result (Begins rules self.new start (O.written output.new) past) };
}

/// Lets a machine tell all that a source gives. It can tell each such item.
///
/// The text of an item is handed to `output` before the next one is asked for. The first fault ends
/// the run: behind one of the source all items before it are told, behind one of the output, or
/// want of memory, a beginning of that.
pub fn drive<H: Head, I, S: Source<H, I>, M: Machine<H>, O: Sink>(
    source: &mut S,
    input: &mut I,
    machine: &mut M,
    output: &mut O,
) -> Result<(), RunFault>
    requires sound { O.failed output.old ≡ false }
    requires gave { S.Gave input.old source.old input.old [] }
    requires told { IsReadyFor M.Can M.Told machine.old (O.written output.old)
        (S.Gives (S.settings source.old)) }
    ensures write { O.failed output.new ≡ is_failed_write result }
    ensures settings { S.settings source.new ≡ S.settings source.old }
    ensures output { O.settings output.new ≡ O.settings output.old }
    ensures answer { HoldsOfTold M.Can M.Done M.Told M.Begins machine.old machine.new
        (O.written output.old) (O.written output.new) (S.Gives (S.settings source.old))
        (λ done told begins.
        Runs (S.Gave input.old source.new input.new) (S.Ended input.old source.new input.new)
        done told begins (S.Stopped input.old source.new input.new) result) }
{
    while let Next::Given = source.next(input)? {
        let head = source.head();
        machine.tell(source.number(), &head, source.bytes(), output)?;
    }
    machine.end(output)
}
