//! The solution.

ghost use Rattle.std.specs.Prelude.{◌≡◌, ◌<◌, IfOk, OnOk, IfErr, Some, length};
ghost use Rattle.afdx_config.specs.Admission.{IsAdmitted};
ghost use Rattle.afdx_admit.specs.Lines.{first_false, lines};
ghost use Rattle.afdx_admit.specs.Known.{IsKnown};
ghost use Rattle.afdx_solve.specs.Solved as spec;

use crate::delays::set_delays;
use crate::jitters::set_jitters;
use crate::options::{SolveOptions, chosen};
use afdx_admit::{AdmitFault, Admitted, admit, bounds_to};
use afdx_config::{SystemId, Tables};

/// The least and the most bytes that a buffer may have.
pub(crate) const LEAST_BUFFER: u64 = 64;

const GREATEST_BUFFER: u64 = 4_194_304;

/// The most bytes that wait at the output port to a system.
fn need_to(tables: &Tables, system: SystemId) -> u64
    requires { system.0 < length tables.now.systems }
    ensures { result ≡ spec.need_to tables.now system.0 }
{
    let bounds = bounds_to(tables, system);
    bounds.buffer
}

/// The most bytes that wait at one of the output ports.
fn greatest_need(tables: &Tables) -> u64
    ensures { result ≡ spec.greatest_need tables.now (length tables.now.systems) }
{
    let count = tables.system_count();
    let mut greatest = 0_u64;
    for i in 0..count {
        let needed = need_to(tables, SystemId(i as u8));
        greatest = greatest.max(needed);
    }
    greatest
}

/// The buffer that the output ports need, or the greatest that there may be.
pub(crate) fn least_buffer(tables: &Tables) -> u64
    ensures { result ≡ spec.least_buffer tables.now }
{
    GREATEST_BUFFER.min(LEAST_BUFFER.max(greatest_need(tables)))
}

/// Gives the output ports the buffer that they take.
fn set_buffer(tables: &mut Tables, options: SolveOptions)
    ensures { tables.new ≡ spec.with_least_buffer options tables.old }
{
    let buffer = chosen(
        options.kept.buffer,
        options.raise_only,
        tables.buffer(),
        least_buffer(tables),
    );
    tables.set_buffer(buffer);
}

/// The tables with the least jitter, buffer, latency and skew, each from those before it, which are
/// admitted. A skew is more than the latency by how far apart copies may be sent. A key that no
/// value in its range is enough for has the greatest one. Where the tables aren't admitted, they
/// are handed back with the first line of admission that is false.
pub fn solve(tables: Tables, options: SolveOptions) -> Result<Admitted, (Tables, AdmitFault)>
    ensures solved { IfOk result (λ admitted. admitted ≡ spec.solved options tables) }
    ensures admitted { OnOk result (IsAdmitted (spec.solved options tables)) }
    ensures handed_back { IfErr result (λ e. e.0 ≡ spec.solved options tables) }
    ensures first { IfErr result (λ e.
        first_false (lines (spec.solved options tables)) ≡ Some e.1) }
    ensures known { IfErr result (λ e. IsKnown (spec.solved options tables) e.1) }
{
    let mut tables = tables;
    set_jitters(&mut tables, options);
    set_buffer(&mut tables, options);
    set_delays(&mut tables, options);
    admit(tables)
}
