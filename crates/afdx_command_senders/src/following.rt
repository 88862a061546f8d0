//! The senders of a switch that are judged.

ghost use Rattle.std.specs.Prelude.{◌≡◌, ◌<◌, ℕ, [], IfOk, Option, length, slice_get, Some};
ghost use Rattle.afdx_config.specs.Rows.{LinkRow};
ghost use Rattle.afdx_lawful.specs.Ways.{IsApart};
ghost use Rattle.afdx_senders.specs.History.{HaveTold};
ghost use Rattle.afdx_senders.specs.Setups.{Setup, ending};
ghost use Rattle.afdx_senders.specs.Terms.{terms_at};
ghost use Rattle.afdx_command_conform.specs.Tapped.{Taps as Tapped};
ghost use Rattle.afdx_command_senders.specs.Asked.{asked_of};
ghost use Rattle.afdx_command_senders.specs.Outlook.{outlook_of};
ghost use Rattle.afdx_command_senders.specs.Setting.{AreRecorded, IsSetting, IsSettingBelow};
ghost use Rattle.afdx_senders.specs.Sites.{recorded_in};

use crate::asked::SenderChoices;
use crate::outlook::SenderOutlook;
use crate::ways::link_ways;
use afdx_lawful::Apart;
use afdx_senders::{RecordedPorts, Senders};
use std::alloc::{AllocError, Global};

/// How far apart the copies of frames of the link at this place may be sent: as is given, or as the
/// tables leave.
fn apart_of(
    alloc: Global,
    outlook: &SenderOutlook<'_>,
    place: usize,
    asked: &SenderChoices<'_>,
) -> Result<Apart, AllocError>
    requires { place < length outlook.now.tables.now.links }
    ensures { (n : ℕ) (taps : Tapped) (z : Setup) (l : LinkRow) →
        slice_get outlook.now.tables.now.links place ≡ Some l →
        IsSettingBelow n (outlook_of outlook.now)
        (asked_of outlook.now.tables.now taps asked.now) z →
        IfOk result (IsApart (terms_at z.tables z.recorded z.asked place l)) }
{
    if let Some(ns) = asked.apart {
        let Some(apart) = Apart::given(alloc, ns) else {
            // Never: it is at most 100,000,000 ns.
            unreachable!();
        };
        return Ok(apart);
    }
    let ways = link_ways(alloc, outlook, place)?;
    Ok(Apart::left_by(ways))
}

/// The senders of a switch, where these ports were recorded: of each link that one of its systems
/// sends. Nothing came of them. Fails only out of memory.
pub(crate) fn senders_of<'a>(
    alloc: Global,
    outlook: SenderOutlook<'a>,
    asked: &SenderChoices<'_>,
    recorded: RecordedPorts,
) -> Result<Senders<'a>, AllocError>
    ensures { (taps : Tapped) → AreRecorded taps (recorded_in recorded) →
        IfOk result (λ senders. (z : Setup)
        × IsSetting (outlook_of outlook.entry)
        (asked_of outlook.entry.tables.now taps asked.entry.now) z
        × ((until : ℕ) (before : Option ℕ) → HaveTold (ending until z) before [] [] senders)) }
{
    let tables = outlook.tables;
    let mut senders = Senders::new(alloc, tables, outlook.among, recorded)?;
    for place in 0..tables.link_count() {
        if tables.is_own(tables.link(place).from) {
            let apart = apart_of(alloc, &outlook, place, asked)?;
            senders.judge(alloc, place, &asked.choices.leeway, apart);
        }
    }
    Ok(senders)
}
