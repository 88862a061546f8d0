//! A replay of several switches over whatever gives it its frames.

ghost use Rattle.std.specs.Prelude.{◌≡◌, OnOk, false};
ghost use Rattle.afdx_input_lines.specs.Calls.{is_failed_read, is_failed_write};
ghost use Rattle.afdx_input_sources.specs.Claims.{ports_of_several};
ghost use Rattle.afdx_replay.specs.cascading.Input.{AreThere, Replays, TakesSited};

use crate::cascading::run::Cascading;
use crate::cascading::sites::{SitedLines, sites_of};
use crate::input_ending::InputSummary;
use afdx_config::Switches;
use afdx_input_lines::{Heading, RunFault, Watched};
use afdx_input_runs::{Reading, RunInput};
use afdx_input_sources::{Placing, UnsaidPort};
use afdx_text::Sink;
use std::alloc::Global;
use std::io::Write;

/// Replays the frames of an input through several switches on each side and the systems behind
/// them, and tells `early`, if there is such a device, by how much each frame came too early that
/// was dropped for its link's rate. `early` is handed back.
pub(crate) fn replay_sited<P: Placing + Drop, A: RunInput<P, Heading>, O: Sink, D: Write + Drop>(
    alloc: Global,
    options: P,
    switches: &Switches,
    input: &mut A,
    output: &mut O,
    early: Option<Watched<D>>,
) -> (Result<InputSummary, RunFault>, Option<Watched<D>>)
    requires new { A.IsNew input.old }
    requires there { AreThere switches.now P.Enters options }
    requires sound_output { O.failed output.old ≡ false }
    ensures ended { OnOk result.0 (A.ended input.new) }
    ensures read { A.failed input.new ≡ is_failed_read result.0 }
    ensures write { O.failed output.new ≡ is_failed_write result.0 }
    ensures calls { A.IsAskedFew (P.is_settled options) input.old input.new }

    // Where its bytes are known: what is answered, written and told for the items that it takes.
    ensures replays { let ss = switches.now in
        Replays D.contents ss early result.1 (O.written output.old) (O.written output.new)
        (A.known input.old)
        (λ bytes. A.Takes (TakesSited ss) options (ports_of_several ss) bytes input.new) result.0 }
{
    // (laws of the input: before it is asked for anything it hasn't failed; where memory is refused
    // at once nothing is taken)
    A::starts();
    A::takes_none::<SitedLines<'_>>();
    let sites = match sites_of(alloc, switches) {
        Ok(sites) => sites,
        Err(error) => return (Err(RunFault::from(error)), early),
    };
    let Cascading { cascade, teller } = match Cascading::new(alloc, switches) {
        Ok(cascading) => cascading,
        Err(error) => return (Err(RunFault::from(error)), early),
    };
    let teller = teller.with_early(early);
    let mut cascading = Cascading { cascade, teller };
    let reading = Reading {
        unsaid: UnsaidPort::OfSenders(switches),
        form: SitedLines {
            switches: sites.as_slice(),
        },
    };
    let count = input.tell_all(alloc, options, reading, &mut cascading, output);
    let teller = cascading.teller;
    match count {
        Ok(count) => (Ok(InputSummary::of(teller.counts, count)), teller.early),
        Err(fault) => (Err(fault), teller.early),
    }
}
