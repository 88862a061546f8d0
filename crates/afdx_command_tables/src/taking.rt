//! What a command takes of a configuration.

ghost use Rattle.std.specs.Prelude.{◌≡◌, ◌⊎◌, IfErr, IfOk, OnOk, true};
ghost use Rattle.afdx_config.specs.Admission.{IsAdmitted};
ghost use Rattle.afdx_config.specs.declared.describing.Described.TheVariants as described;
ghost use Rattle.afdx_admit.specs.Cascade.{IsCascadeAdmitted};
ghost use Rattle.afdx_command_tables.specs.Checking.{IsAdmittedFile, IsRead};
ghost use Rattle.afdx_command_tables.specs.Taking.{described_of, IsNotTaken, IsToldDenied, IsUnread};

use crate::refusing::{refuse_file, refuse_switches, refuse_tables};
use afdx_admit::{Admitted, AdmittedSwitches, admit, admit_all};
use afdx_config::{Described, Switches, Tables, read_file};
use afdx_input_lines::Watched;
use std::alloc::Global;
use std::io::Write;

/// What a command takes of a configuration: of one switch on a side or of several, admitted or
/// whatever they are.
#[derive(Debug, Drop)]
pub enum Taken {
    /// The tables of one switch, which were admitted.
    OneAdmitted(Admitted),
    /// The tables of one switch; nobody asked.
    OneUnasked(Tables),
    /// Several switches, which were admitted.
    SeveralAdmitted(AdmittedSwitches),
    /// Several switches; nobody asked.
    SeveralUnasked(Switches),
}

/// Admits tables, or tells why they aren't admitted and gives the exit status.
pub(crate) fn admit_tables<E: Write>(
    tables: Tables,
    errors: &mut Watched<E>,
) -> Result<Admitted, u8>
    ensures same { IfOk result (λ admitted. admitted ≡ tables) }
    ensures admitted { OnOk result (IsAdmitted tables) }
    ensures silent { OnOk result (errors.new ≡ errors.old) }
    ensures denied { IfErr result (λ status.
        IsToldDenied E.contents errors.old errors.new (described.One tables) status) }
{
    match admit(tables) {
        Ok(admitted) => Ok(admitted),
        Err((tables, fault)) => Err(refuse_tables(&tables, fault, errors)),
    }
}

/// Admits switches, or tells why they aren't admitted and gives the exit status.
pub(crate) fn admit_switches<E: Write>(
    switches: Switches,
    errors: &mut Watched<E>,
) -> Result<AdmittedSwitches, u8>
    ensures same { IfOk result (λ admitted. admitted ≡ switches) }
    ensures admitted { OnOk result (IsCascadeAdmitted switches) }
    ensures silent { OnOk result (errors.new ≡ errors.old) }
    ensures denied { IfErr result (λ status.
        IsToldDenied E.contents errors.old errors.new (described.Several switches) status) }
{
    match admit_all(switches) {
        Ok(admitted) => Ok(admitted),
        Err((switches, fault)) => Err(refuse_switches(&switches, fault, errors)),
    }
}

/// Takes what a file describes, if it is admitted.
fn take_admitted<E: Write>(described: Described, errors: &mut Watched<E>) -> Result<Taken, u8>
    ensures same { IfOk result (λ taken. described_of taken ≡ described) }
    ensures admitted { OnOk result (IsAdmittedFile described) }
    ensures silent { OnOk result (errors.new ≡ errors.old) }
    ensures denied { IfErr result (λ status.
        IsToldDenied E.contents errors.old errors.new described status) }
{
    match described {
        Described::One(tables) => {
            let admitted = admit_tables(tables, errors)?;
            Ok(Taken::OneAdmitted(admitted))
        }
        Described::Several(switches) => {
            let admitted = admit_switches(switches, errors)?;
            Ok(Taken::SeveralAdmitted(admitted))
        }
    }
}

/// Takes what a file describes, whatever it is.
fn take_unasked(described: Described) -> Taken
    ensures { described_of result ≡ described }
{
    match described {
        Described::One(tables) => Taken::OneUnasked(tables),
        Described::Several(switches) => Taken::SeveralUnasked(switches),
    }
}

/// What a configuration describes, admitted or not. Else the exit status, 1 or 4; `errors` is told
/// why it isn't read.
pub fn read_described<E: Write>(
    alloc: Global,
    config: &[u8],
    errors: &mut Watched<E>,
) -> Result<Described, u8>
    ensures read { IfOk result (IsRead config.now) }
    ensures silent { OnOk result (errors.new ≡ errors.old) }
    ensures refused { IfErr result (λ status.
        IsUnread E.contents errors.old errors.new config.now status) }
    ensures statuses { IfErr result (λ status. (status ≡ 1) ⊎ (status ≡ 4)) }
{
    match read_file(alloc, config) {
        Ok(described) => Ok(described),
        Err(fault) => Err(refuse_file(fault, errors)),
    }
}

/// Takes what a configuration describes, which with `admission` has to be admitted. Else the exit
/// status, 1; `errors` is told why it isn't.
pub fn take_described<E: Write>(
    admission: bool,
    described: Described,
    errors: &mut Watched<E>,
) -> Result<Taken, u8>
    ensures same { IfOk result (λ taken. described_of taken ≡ described) }
    ensures admitted { OnOk result (admission ≡ true → IsAdmittedFile described) }
    ensures silent { OnOk result (errors.new ≡ errors.old) }
    ensures denied { IfErr result (λ status. (admission ≡ true)
        × IsToldDenied E.contents errors.old errors.new described status) }
{
    if admission {
        take_admitted(described, errors)
    } else {
        Ok(take_unasked(described))
    }
}

/// What a configuration describes, which with `admission` has to be admitted. Else the exit status,
/// 1 or 4; `errors` is told why it isn't taken.
pub fn take_file<E: Write>(
    alloc: Global,
    admission: bool,
    config: &[u8],
    errors: &mut Watched<E>,
) -> Result<Taken, u8>
    ensures read { IfOk result (λ taken. IsRead config.now (described_of taken)) }
    ensures admitted { IfOk result (λ taken.
        admission ≡ true → IsAdmittedFile (described_of taken)) }
    ensures silent { OnOk result (errors.new ≡ errors.old) }
    ensures refused { IfErr result (λ status.
        IsNotTaken E.contents config.now admission errors.old errors.new status) }
    ensures statuses { IfErr result (λ status. (status ≡ 1) ⊎ (status ≡ 4)) }
{
    let described = read_described(alloc, config, errors)?;
    take_described(admission, described, errors)
}
