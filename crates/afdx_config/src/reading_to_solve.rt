//! The reading of a file that is to be solved.

ghost use Rattle.std.specs.Prelude.{◌≢◌, IfOk, IfErr};
ghost use Rattle.toml.specs.View.{table_view};
ghost use Rattle.afdx_config.specs.Files.{IsFileFaultKeeping};
ghost use Rattle.afdx_config.specs.ToSolve.{IsToSolve};

use crate::asked::{latencies_by_switch, latencies_in};
use crate::describing::{Described, described_by};
use crate::fault::ConfigFault;
use crate::file_fault::{FileFault, in_switch};
use crate::read::tree_of;
use crate::rows::KeptKeys;
use crate::switches::Switches;
use crate::tables::Tables;
use std::alloc::Global;

/// What a file describes that is to be solved, with the latency in us that each link asks for, in
/// their order: what stands in the text, also where it is out of range; none where the key is
/// absent. Of several switches there is a list for each.
#[derive(Debug, Drop)]
pub enum ToSolve {
    One(Tables, Vec<Option<u64>>),
    Several(Switches, Vec<Vec<Option<u64>>>),
}

/// What a text describes, which is to be solved, or the first check that fails. Of jitter, buffer,
/// latency and skew those that aren't kept may be absent, in each switch, which stands for the
/// least value, or any whole number from 0 on, which stands for the nearest in the key's range.
/// All other checks are those of `read_file`, in their order. The bytes may be any.
///
/// Memory is answered as by `read_file`.
pub fn read_file_to_solve(alloc: Global, text: &[u8], kept: KeptKeys) -> Result<ToSolve, FileFault>
    ensures ok { IfOk result (IsToSolve kept text.now) }
    ensures fault { IfErr result (λ e. e.fault ≢ ConfigFault.Memory →
        IsFileFaultKeeping kept text.now e) }
{
    let tree = in_switch(0, tree_of(alloc, text))?;
    match described_by(alloc, &tree, kept)? {
        Described::One(tables) => {
            let asked = in_switch(0, latencies_in(alloc, &tree))?;
            Ok(ToSolve::One(tables, asked))
        }
        Described::Several(switches) => {
            let asked = in_switch(0, latencies_by_switch(alloc, &tree))?;
            Ok(ToSolve::Several(switches, asked))
        }
    }
}
