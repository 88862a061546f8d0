//! What comes in or leaves joins the stream that it is of.

ghost use Rattle.std.specs.Prelude.{◌≡◌, ◌<◌, ℕ, List, None, IfOk, OnOk, length, true};
ghost use Rattle.afdx_config.specs.Lawful.{IsLawfulSwitch};
ghost use Rattle.afdx_config.specs.Rows.{Rows};
ghost use Rattle.afdx_conform.specs.Limits.{gone_of};
ghost use Rattle.afdx_command_conform.specs.Choices.{Choices};
ghost use Rattle.afdx_command_conform.specs.Keeping.{AreKept, Given, is_known, slot_at};
ghost use Rattle.afdx_command_conform.specs.Keys.{key_of, key_with};
ghost use Rattle.afdx_command_conform.specs.Lines.{Due};
ghost use Rattle.afdx_command_conform.specs.Slots.{IsStrange};
ghost use Rattle.afdx_command_conform.specs.Taking.{FindsStream, MakesStream, TakesArrival, TakesFrame};
ghost use Rattle.afdx_command_conform.specs.Taking.{TakesStranger};

use crate::kept::KeptByKey;
use crate::key::Key;
use crate::outlets::{Outlet, StreamRules, key_at, new_stream};
use crate::strangers::Stranger;
use afdx_conform::{Arrived, LeftFrame};
use afdx_frame::Side;
use std::alloc::{AllocError, Global};

/// The stream at an outlet is made, where none is kept of its key. Apart from those who call it, so
/// that no room for it is cleared where one is kept.
#[cold]
#[inline(never)]
fn make_stream(
    alloc: Global,
    rules: &StreamRules<'_>,
    kept: &mut KeptByKey,
    outlet: Outlet,
    key: Key,
) -> Result<(), AllocError>
    requires link { outlet.link < length rules.now.tables.now.links }
    requires system { outlet.system.0 < length rules.now.tables.now.systems }
    ensures { MakesStream (λ done. OnOk result done) kept.old kept.new rules.now outlet key }
{
    let stream = new_stream(alloc, rules, outlet);
    kept.put_stream(alloc, key, stream)
}

/// The key of the stream at an outlet. It is made if nothing of it came.
fn stream_to(
    alloc: Global,
    rules: &StreamRules<'_>,
    kept: &mut KeptByKey,
    outlet: Outlet,
) -> Result<Key, AllocError>
    requires link { outlet.link < length rules.now.tables.now.links }
    requires system { outlet.system.0 < length rules.now.tables.now.systems }
    ensures lawful { IsLawfulSwitch rules.now.tables.now }
    ensures key { IfOk result (λ key. key ≡ key_of rules.now.tables.now outlet) }
    ensures stands { FindsStream (λ done. IfOk result done) kept.old kept.new rules.now outlet }
{
    let key = key_at(rules.tables, outlet);
    if !kept.has_stream(key) {
        make_stream(alloc, rules, kept, outlet, key)?;
    }
    Ok(key)
}

/// An arrival comes to one stream of its link.
pub(crate) fn come_to(
    alloc: Global,
    rules: &StreamRules<'_>,
    kept: &mut KeptByKey,
    outlet: Outlet,
    arrived: Arrived,
) -> Result<(), AllocError>
    requires link { outlet.link < length rules.now.tables.now.links }
    requires system { outlet.system.0 < length rules.now.tables.now.systems }
    ensures { TakesArrival (λ done. OnOk result done) kept.old kept.new rules.now outlet arrived }
{
    let key = stream_to(alloc, rules, kept, outlet)?;
    kept.add_arrival(key, arrived)
}

/// A frame of a link left where the link goes.
pub(crate) fn leave_to(
    alloc: Global,
    rules: &StreamRules<'_>,
    kept: &mut KeptByKey,
    outlet: Outlet,
    frame: LeftFrame,
) -> Result<(), AllocError>
    requires link { outlet.link < length rules.now.tables.now.links }
    requires system { outlet.system.0 < length rules.now.tables.now.systems }
    ensures { TakesFrame (λ done. OnOk result done) kept.old kept.new rules.now outlet
        (gone_of frame) }
{
    let key = stream_to(alloc, rules, kept, outlet)?;
    kept.add_frame(key, frame)
}

/// Room for frames of no stream of the key is made if none was.
fn strangers_at(alloc: Global, kept: &mut KeptByKey, key: Key) -> Result<(), AllocError>
    ensures { (t : Rows) (c : Choices) (until time : ℕ) (given : Key → Given) (lines : List Due) →
        IsLawfulSwitch t → key.link ≡ None → is_known t key ≡ true →
        AreKept t c until None time given lines kept.old →
        OnOk result (AreKept t c until None time given lines kept.new
        × IsStrange (slot_at kept.new.slots.items key)) }
{
    if kept.has_strangers(key) {
        return Ok(());
    }
    kept.put_strangers(alloc, key)
}

/// A frame of no stream left.
#[cold]
#[inline(never)]
pub(crate) fn leave_strange(
    alloc: Global,
    kept: &mut KeptByKey,
    side: Side,
    port: u8,
    stranger: Stranger,
) -> Result<(), AllocError>
    ensures { TakesStranger (λ done. OnOk result done) kept.old kept.new (key_with side port None)
        stranger }
{
    let key = Key {
        side,
        port,
        link: None,
    };
    strangers_at(alloc, kept, key)?;
    kept.add_stranger(key, stranger)
}
