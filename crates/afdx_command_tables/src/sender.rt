//! The system from which a command sends.

ghost use Rattle.std.specs.Prelude.{◌≡◌, ◌⊎◌, ◌<◌, IfErr, IfOk, IfSome, OnOk, Some, length};
ghost use Rattle.std.specs.Prelude.{option_map, slice_get};
ghost use Rattle.afdx_config.specs.Rows.{Rows};
ghost use Rattle.afdx_config.specs.Switches.{system_of};
ghost use Rattle.afdx_config.specs.declared.describing.Described.TheVariants as described;
ghost use Rattle.afdx_command_tables.specs.Checking.{IsAdmittedFile};
ghost use Rattle.afdx_command_tables.specs.Senders.{sender_of, sender_taken, HasNoSender, IsNoSender};
ghost use Rattle.afdx_command_tables.specs.Senders.{TakesSender};

use crate::refusing::{refuse_file, refuse_name, want_memory};
use crate::taking::{admit_switches, admit_tables};
use afdx_admit::Admitted;
use afdx_config::{Described, SwitchId, Switches, SystemId, Tables, read_file};
use afdx_input_lines::Watched;
use std::alloc::Global;
use std::io::Write;

/// A system that may send: all that the configuration describes is admitted.
#[derive(Debug, Drop)]
pub struct SenderTaken {
    /// The tables of its switch.
    pub admitted: Admitted,
    /// Its place there.
    pub system: SystemId,
    /// The name of the switch, which is empty where there is one on a side.
    pub switch: String,
}

/// The system of this name in the tables of one switch, which have to be admitted. Else the exit
/// status; `errors` is told why.
fn sender_in<E: Write>(
    alloc: Global,
    tables: Tables,
    name: &str,
    errors: &mut Watched<E>,
) -> Result<SenderTaken, u8>
    ensures stands { IfOk result (λ taken.
        sender_of (described.One tables) name.now ≡ Some (sender_taken taken)) }
    ensures own { IfOk result (λ taken. taken.system.0 < taken.admitted.own) }
    ensures admitted { OnOk result (IsAdmittedFile (described.One tables)) }
    ensures silent { OnOk result (errors.new ≡ errors.old) }
    ensures refused { IfErr result (λ status.
        HasNoSender E.contents errors.old errors.new (described.One tables) name.now status) }
{
    let Some(system) = tables.own_named(name) else {
        return Err(refuse_name(errors));
    };
    let admitted = admit_tables(tables, errors)?;
    Ok(SenderTaken {
        admitted,
        system,
        switch: String::new(alloc),
    })
}

/// The system of this name at one of several switches, with its switch.
fn named_among(switches: &Switches, name: &str) -> Option<(SwitchId, SystemId)>
    ensures place { option_map (λ found. (found.0.0, found.1.0)) result
        ≡ system_of switches.now name.now }
    ensures known { IfSome result (λ found. found.0.0 < length switches.now) }
    ensures own { IfSome result (λ found. (t : Rows) →
        option_map (λ s. s.rows) (slice_get switches.now found.0.0) ≡ Some t →
        found.1.0 < t.own) }
{
    switches.system_named(name)
}

/// The system of this name at one of several switches, which have to be admitted together. Else the
/// exit status; `errors` is told why.
fn sender_among<E: Write>(
    alloc: Global,
    switches: Switches,
    name: &str,
    errors: &mut Watched<E>,
) -> Result<SenderTaken, u8>
    ensures stands { IfOk result (λ taken.
        sender_of (described.Several switches) name.now ≡ Some (sender_taken taken)) }
    ensures own { IfOk result (λ taken. taken.system.0 < taken.admitted.own) }
    ensures admitted { OnOk result (IsAdmittedFile (described.Several switches)) }
    ensures silent { OnOk result (errors.new ≡ errors.old) }
    ensures refused { IfErr result (λ status.
        HasNoSender E.contents errors.old errors.new (described.Several switches) name.now status) }
{
    let Some((place, system)) = named_among(&switches, name) else {
        return Err(refuse_name(errors));
    };
    let Ok(switch) = String::from_str(alloc, switches.name(place)) else {
        return Err(want_memory(errors));
    };
    let admitted = admit_switches(switches, errors)?;
    Ok(SenderTaken {
        admitted: admitted.into_admitted(place),
        system,
        switch,
    })
}

/// The system of this name in what a configuration describes, all of which has to be admitted. Else
/// the exit status, and `errors` is told why. Of several causes the first is answered: a fault of
/// the configuration (1), the system's name (2), admission (1); or memory (4).
pub fn take_sender<E: Write>(
    alloc: Global,
    config: &[u8],
    system: &str,
    errors: &mut Watched<E>,
) -> Result<SenderTaken, u8>
    ensures taken { IfOk result (TakesSender config.now system.now) }
    ensures own { IfOk result (λ taken. taken.system.0 < taken.admitted.own) }
    ensures silent { OnOk result (errors.new ≡ errors.old) }
    ensures refused { IfErr result (λ status.
        IsNoSender E.contents errors.old errors.new config.now system.now status) }
    ensures statuses { IfErr result (λ status. (status ≡ 1) ⊎ (status ≡ 2) ⊎ (status ≡ 4)) }
{
    let described = match read_file(alloc, config) {
        Ok(described) => described,
        Err(fault) => return Err(refuse_file(fault, errors)),
    };
    match described {
        Described::One(tables) => sender_in(alloc, tables, system, errors),
        Described::Several(switches) => sender_among(alloc, switches, system, errors),
    }
}
