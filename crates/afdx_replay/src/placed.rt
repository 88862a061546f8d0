//! The places that options of recordings say, in a configuration.

ghost use Rattle.std.specs.Prelude.{◌≡◌, ◌⊎◌, IfErr, IfOk, OnOk};
ghost use Rattle.afdx_command_tables.specs.Checking.{IsRead};
ghost use Rattle.afdx_replay.specs.Placed.{IsUnplaced};

use afdx_command_tables::read_described;
use afdx_command_tables::refusing::refuse_place;
use afdx_config::Described;
use afdx_input_lines::Watched;
use afdx_input_sources::Placing;
use std::alloc::Global;
use std::io::Write;

/// What a configuration describes; each place of the options is put where it is there. Else the
/// exit status: 1 a fault of the configuration, 2 a place that it hasn't, 4 want of memory;
/// `errors` is told why.
pub(crate) fn read_placed<P: Placing, E: Write>(
    alloc: Global,
    config: &[u8],
    options: &mut P,
    errors: &mut Watched<E>,
) -> Result<Described, u8>
    ensures read { IfOk result (IsRead config.now) }
    ensures placed { IfOk result (λ d. P.ArePlaced d options.old options.new) }
    ensures silent { OnOk result (errors.new ≡ errors.old) }
    ensures refused { IfErr result (IsUnplaced P.ArePlaced options.old P.AreNotPlaced E.contents
        errors.old errors.new config.now) }
    ensures statuses { IfErr result (λ status. (status ≡ 1) ⊎ (status ≡ 2) ⊎ (status ≡ 4)) }
{
    let described = read_described(alloc, config, errors)?;
    if options.place_in(&described) {
        Ok(described)
    } else {
        Err(refuse_place(errors))
    }
}
