//! The frames of two lists, of what came in at switches and of what left them: the earlier first.

ghost use Rattle.std.specs.Prelude.{◌≡◌};
ghost use Rattle.afdx_input_runs.specs.Joining as spec;

use crate::seen::Seen;
use afdx_input_lines::{ByRole, Heading, Next, Role, RunFault};
use afdx_input_sources::{Merged, Nth, Source, give_next};

/// Two lists that are read at once: the first is that of what came in.
#[derive(Drop)]
pub struct TwoLists<S> {
    pub both: Merged<S>,
}

impl<S> TwoLists<S> {
    ghost use Rattle.afdx_input_sources.specs.declared.ahead.AtHead.TheVariants.{Unknown};

    /// Of these nothing was read.
    pub fn new(came: S, left: S) -> TwoLists<S>
        ensures came { result.both.first.source ≡ came }
        ensures left { result.both.second.source ≡ left }
        ensures head_came { result.both.first.head ≡ Unknown }
        ensures head_left { result.both.second.head ≡ Unknown }
    {
        TwoLists {
            both: Merged::new(came, left),
        }
    }
}

/// The role of the frames of a list, the first or the second.
fn role_of(n: Nth) -> Role
    ensures { result ≡ spec.role_of n }
{
    match n {
        Nth::First => Role::Came,
        Nth::Second => Role::Left,
    }
}

impl<I, S: Source<Heading, I>> Source<Seen, ByRole<I>> for TwoLists<S> {
    ghost use Rattle.afdx_input_runs.specs.TwoListsSource.{IsJoined, IsJoinedToEnd, StopsJoining};
    ghost use Rattle.afdx_input_runs.specs.TwoListsSource.{frame_given};
    ghost use Rattle.afdx_input_sources.specs.MergedSource.{left_in};

    ghost current = { frame_given S.current };

    ghost left_of = { λ source. left_in S.left_of source.both };

    ghost Settings = { S.Settings × S.Settings };

    ghost settings = { λ source.
        (S.settings source.both.first.source, S.settings source.both.second.source) };

    ghost Gives = { λ settings item. Unit {0} };

    ghost Gave = { IsJoined S.current S.Gave S.Ended };

    ghost Ended = { IsJoinedToEnd S.current S.Gave S.Ended };

    ghost Stopped = { StopsJoining S.current S.Gave S.Ended S.Stopped };

    fn next(&mut self, inputs: &mut ByRole<I>) -> Result<Next, RunFault> {
        match give_next(&mut self.both, inputs) {
            Ok(next) => Ok(next),
            Err(fault) => Err(RunFault::of_list(role_of(self.both.from), fault)),
        }
    }

    fn number(&self) -> u64 {
        self.both.source().number()
    }

    fn head(&self) -> Seen {
        Seen {
            role: role_of(self.both.from),
            heading: self.both.source().head(),
        }
    }

    fn bytes(&self) -> &[u8] {
        self.both.source().bytes()
    }
}
