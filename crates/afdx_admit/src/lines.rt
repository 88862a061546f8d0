//! The lines of admission: a walk over those of a port, a system, a link, and over all.

ghost use Rattle.std.specs.Prelude.{◌≡◌, ◌<◌, ◌≤◌, length, map, IfSome, Some};
ghost use Rattle.afdx_config.specs.Rows.{link_row};
ghost use Rattle.afdx_config.specs.Reading.{system_at_port};
ghost use Rattle.afdx_config.specs.Lawful.{IsLawfulSwitch};
ghost use Rattle.afdx_frame.specs.Flows.{is_class, of_class};
ghost use Rattle.afdx_frame.specs.Regulation.{byte_units};
ghost use Rattle.afdx_frame.specs.Ports.{last_port};
ghost use Rattle.afdx_config.specs.Admission.{flows_to};
ghost use Rattle.afdx_admit.specs.Lines as spec;
ghost use Rattle.afdx_admit.specs.Late as late;
ghost use Rattle.afdx_admit.specs.Sums.{AreJitters, CanSend};
ghost use Rattle.afdx_admit.specs.Known.{IsKnown};
ghost use Rattle.afdx_admit.specs.Walk.{Walks};

use crate::fault::AdmitFault;
use crate::found::{First, Found, add_if_false};
use crate::sums::{link_at, sums_to, wire_size};
use afdx_config::{Link, SystemId, Tables};
use afdx_frame::{BYTE_UNITS, LAST_PORT, PORT_COUNT, Priority, VlId, port_at};

/// The jitter that each system has of its own, in ns (ARINC 664 Part 7).
const FIXED_JITTER: u64 = 40_000;

/// The greatest jitter that a system may have, in ns (ARINC 664 Part 7).
const GREATEST_JITTER: u64 = 500_000;

fn is_class(class: Priority, priority: Priority) -> bool
    ensures { result ≡ is_class class priority }
{
    class == priority
}

/// Whether a link goes to the system, has the class, and its latency times `left` is less than
/// `wait`.
fn is_late(link: &Link, system: SystemId, class: Priority, wait: u64, left: u64) -> bool
    requires lawful { CanSend (link_row link.now) }
    requires small { left ≤ byte_units }
    ensures { result ≡ late.is_late system.0 class wait left (link_row link.now) }
{
    link.goes_to(system) && is_class(class, link.priority) && 1000 * link.latency_us * left < wait
}

/// The jitter at a system's output, in ns, from the links that it sends to the switch.
fn sender_jitter(tables: &Tables, id: SystemId) -> u64
    requires { id.0 < length tables.now.systems }
    ensures { result ≡ spec.jitter_at tables.now id.0 }
{
    let byte_ns = tables.byte_ns(id);
    let count = tables.link_count();
    let mut sum = FIXED_JITTER;
    for i in 0..count {
        let link = link_at(tables, i);
        if link.from == id {
            sum += wire_size(link) * byte_ns;
        }
    }
    sum
}

/// The jitters at the outputs of all that stands at the ports, by their places, in ns. Those of
/// neighbours count only the links that they send to the switch.
pub fn sender_jitters(tables: &Tables) -> [u64; PORT_COUNT]
    ensures jitters { AreJitters tables.now result }
    ensures lawful { IsLawfulSwitch tables.now }
{
    let mut jitters = [0; PORT_COUNT];
    let count = tables.system_count();
    for i in 0..count {
        jitters[i] = sender_jitter(tables, SystemId(i as u8));
    }
    jitters
}

/// Whether a link's jitter allows for that of its sender, which is so many ns. It is not asked of a
/// link that comes from a neighbour.
fn allows_jitter(tables: &Tables, link: &Link, needed: u64) -> bool
    requires { CanSend (link_row link.now) }
    ensures { result ≡ spec.allows_jitter tables.now needed (link_row link.now) }
{
    !tables.is_own(link.from) || needed <= 1000 * link.jitter_us
}

/// What the links of a class are to keep at an output port: `wait` is at most their latency times
/// `left`. `bound` is that in ns.
#[derive(Clone, Copy)]
struct Deadline {
    port: u8,
    class: Priority,
    wait: u64,
    left: u64,
    bound: u64,
}

impl Deadline {
    ghost use Rattle.std.specs.Prelude.{◌≡◌};
    ghost use Rattle.afdx_admit.specs.Late as late;

    fn fault(&self, vl: VlId) -> AdmitFault
        ensures { result ≡ late.late_fault self.now.class self.now.port self.now.bound vl.0 }
    {
        match self.class {
            Priority::High => AdmitFault::HighLatency(self.port, vl, self.bound),
            Priority::Low => AdmitFault::LowLatency(self.port, vl, self.bound),
        }
    }
}

/// Adds the faults of the links to a system that don't keep it.
fn add_late<E, C: Found<AdmitFault, E>>(
    found: &mut C,
    tables: &Tables,
    system: SystemId,
    kept: &Deadline,
) -> Result<(), E>
    requires { kept.now.left ≤ byte_units }
    ensures { Walks C.Stops (C.items found.old) (C.items found.new)
        (map (late.class_line kept.now.wait kept.now.left
        (late.late_fault kept.now.class kept.now.port kept.now.bound))
        (of_class kept.now.class (flows_to tables.now.links system.0))) result }
{
    let count = tables.link_count();
    for i in 0..count {
        let link = link_at(tables, i);
        if is_late(link, system, kept.class, kept.wait, kept.left) {
            found.add(kept.fault(link.vl))?;
        }
    }
    Ok(())
}

/// Adds the faults of the output port to a system, at this port of the switch.
fn add_output<E, C: Found<AdmitFault, E>>(
    found: &mut C,
    tables: &Tables,
    port: u8,
    system: SystemId,
) -> Result<(), E>
    requires { system_at_port tables.now.systems port ≡ Some system.0 }
    ensures { Walks C.Stops (C.items found.old) (C.items found.new)
        (spec.port_lines tables.now port) result }
{
    let sums = sums_to(tables, system);
    let carries = sums.rate <= sums.line;
    add_if_false(found, carries, AdmitFault::Overload(port))?;
    let fits = sums.burst <= tables.buffer() * BYTE_UNITS;
    add_if_false(found, fits, AdmitFault::Buffer(port, sums.buffer_need()))?;
    let high = Deadline {
        port,
        class: Priority::High,
        wait: sums.high_wait(),
        left: sums.line,
        bound: sums.high_bound(),
    };
    add_late(found, tables, system, &high)?;
    let low = Deadline {
        port,
        class: Priority::Low,
        wait: sums.low_wait(),
        left: sums.line.saturating_sub(sums.high_rate),
        bound: sums.told_low_bound(),
    };
    add_late(found, tables, system, &low)
}

/// Adds the faults of a port of the switch.
fn add_port<E, C: Found<AdmitFault, E>>(found: &mut C, tables: &Tables, port: u8) -> Result<(), E>
    ensures { Walks C.Stops (C.items found.old) (C.items found.new)
        (spec.port_lines tables.now port) result }
{
    match tables.system_at(port) {
        Some(system) => add_output(found, tables, port, system),
        None => Ok(()),
    }
}

/// Adds the faults of all ports.
fn add_ports<E, C: Found<AdmitFault, E>>(found: &mut C, tables: &Tables) -> Result<(), E>
    ensures { Walks C.Stops (C.items found.old) (C.items found.new)
        (spec.each_from (spec.port_lines tables.now) 1 last_port) result }
{
    for place in 0..LAST_PORT {
        add_port(found, tables, port_at(place))?;
    }
    Ok(())
}

/// Adds the faults of all systems.
fn add_senders<E, C: Found<AdmitFault, E>>(
    found: &mut C,
    tables: &Tables,
    jitters: &[u64],
) -> Result<(), E>
    requires { AreJitters tables.now jitters.now }
    ensures { Walks C.Stops (C.items found.old) (C.items found.new)
        (spec.each_from (spec.sender_lines tables.now) 0 tables.now.own) result }
{
    let count = tables.own_count();
    for i in 0..count {
        let jitter = jitters[i];
        let holds = jitter <= GREATEST_JITTER;
        add_if_false(
            found,
            holds,
            AdmitFault::SenderJitter(SystemId(i as u8), jitter),
        )?;
    }
    Ok(())
}

/// Adds the faults of a link.
fn add_link<E, C: Found<AdmitFault, E>>(
    found: &mut C,
    tables: &Tables,
    jitters: &[u64],
    index: usize,
) -> Result<(), E>
    requires jitters { AreJitters tables.now jitters.now }
    requires within { index < length tables.now.links }
    ensures { Walks C.Stops (C.items found.old) (C.items found.new)
        (spec.link_lines tables.now index) result }
{
    let link = tables.link(index);
    let needed = jitters[link.from.0 as usize];
    let holds = allows_jitter(tables, link, needed);
    add_if_false(found, holds, AdmitFault::LinkJitter(link.vl, needed))?;
    let keeps = link.latency_us <= link.skew_us;
    add_if_false(found, keeps, AdmitFault::Skew(link.vl))
}

/// Adds the faults of all links.
fn add_links<E, C: Found<AdmitFault, E>>(
    found: &mut C,
    tables: &Tables,
    jitters: &[u64],
) -> Result<(), E>
    requires { AreJitters tables.now jitters.now }
    ensures { Walks C.Stops (C.items found.old) (C.items found.new)
        (spec.each_from (spec.link_lines tables.now) 0 (length tables.now.links)) result }
{
    let count = tables.link_count();
    for i in 0..count {
        add_link(found, tables, jitters, i)?;
    }
    Ok(())
}

/// Adds the faults of all lines: ports ascending, then systems, then links in the order of the
/// file.
pub(crate) fn add_lines<E, C: Found<AdmitFault, E>>(found: &mut C, tables: &Tables) -> Result<(), E>
    ensures walks { Walks C.Stops (C.items found.old) (C.items found.new)
        (spec.lines tables.now) result }
    ensures lawful { IsLawfulSwitch tables.now }
{
    let jitters = sender_jitters(tables);
    add_ports(found, tables)?;
    add_senders(found, tables, &jitters)?;
    add_links(found, tables, &jitters)
}

/// The first false line of all.
pub(crate) fn first_fault(tables: &Tables) -> Option<AdmitFault>
    ensures fault { result ≡ spec.first_false (spec.lines tables.now) }
    ensures known { IfSome result (IsKnown tables.now) }
    ensures lawful { IsLawfulSwitch tables.now }
{
    match add_lines(&mut First, tables) {
        Ok(()) => None,
        Err(fault) => Some(fault),
    }
}
