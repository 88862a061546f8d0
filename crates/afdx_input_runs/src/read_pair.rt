//! A recording, or two that are read at once, as a source of lines.

ghost use Rattle.std.specs.Prelude.{IfOk};
ghost use Rattle.afdx_input_sources.specs.Claims.{ports_unsaid};
ghost use Rattle.afdx_input_runs.specs.ReadPair.{IsNewByRole, IsNewOne, IsNewPair};

use afdx_input_lines::ByRole;
use afdx_input_sources::{
    Ordered, PairOptions, ReadRecording, RecordingOptions, SystemPorts, TimedNumbers, TimedPair,
    UnsaidPort, read_in_order,
};
use std::alloc::{AllocError, Global};

/// A recording of which nothing was read yet.
pub(crate) fn read_one(
    alloc: Global,
    options: RecordingOptions,
    ports: SystemPorts,
) -> Result<TimedNumbers<Ordered<ReadRecording>>, AllocError>
    ensures { IfOk result (IsNewOne options ports) }
{
    let origin = options.origin;
    let numbers = read_in_order(alloc, options, ports)?;
    Ok(TimedNumbers::new(numbers, origin))
}

/// Two recordings of which nothing was read yet, of network A and of network B.
pub(crate) fn read_pair(
    alloc: Global,
    options: PairOptions,
    unsaid: UnsaidPort<'_>,
) -> Result<TimedPair<Ordered<ReadRecording>>, AllocError>
    ensures { IfOk result (λ source. IsNewPair options (ports_unsaid unsaid.entry) source) }
{
    let origin = options.origin;
    let (of_a, of_b) = options.split();
    let a = read_in_order(alloc, of_a, SystemPorts::unsaid(alloc, unsaid)?)?;
    let b = read_in_order(alloc, of_b, SystemPorts::unsaid(alloc, unsaid)?)?;
    Ok(TimedPair::new(a, b, origin))
}

/// Two recordings of which nothing was read yet, of what came in and of what left.
pub(crate) fn read_by_role(
    alloc: Global,
    options: ByRole<RecordingOptions>,
    unsaid: UnsaidPort<'_>,
) -> Result<TimedPair<Ordered<ReadRecording>>, AllocError>
    ensures { IfOk result (λ source. IsNewByRole options (ports_unsaid unsaid.entry) source) }
{
    let ByRole { mut came, mut left } = options;
    let origin = came.origin;
    came.is_second = false;
    left.is_second = true;
    let a = read_in_order(alloc, came, SystemPorts::unsaid(alloc, unsaid)?)?;
    let b = read_in_order(alloc, left, SystemPorts::unsaid(alloc, unsaid)?)?;
    Ok(TimedPair::new(a, b, origin))
}
