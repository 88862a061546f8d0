//! What is counted of all streams.

ghost use Rattle.std.specs.Prelude.{◌≡◌, ◌<◌, ℕ, List, Some, length, slice_get, true};
ghost use Rattle.afdx_law_bounds.specs.Tables.{port_of};
ghost use Rattle.afdx_config.specs.Rows.{LinkRow, is_to};
ghost use Rattle.afdx_input_runs.specs.Joining.{Frame as Seen};
ghost use Rattle.afdx_command_conform.specs.Choices.{Choices};
ghost use Rattle.afdx_command_conform.specs.Counting.{AreEnded, Counted, HasCounted, both_counted};
ghost use Rattle.afdx_command_conform.specs.Counting.{counted_among, counted_at, counted_of, counted_to};
ghost use Rattle.afdx_command_conform.specs.Counting.{none_counted};
ghost use Rattle.afdx_command_conform.specs.Sight.{sight_in};

use crate::kept::KeptByKey;
use crate::outlets::{Outlet, key_at, receiver};
use crate::tapped::is_judged;
use crate::totals::Totals;
use afdx_config::Tables;
use afdx_frame::Side;
use afdx_input_sources::Taps;

/// What is counted of the stream at an outlet, if it is judged.
fn count_at(tables: &Tables, taps: &Taps, kept: &KeptByKey, outlet: Outlet, totals: &mut Totals)
    requires link { outlet.link < length tables.now.links }
    requires system { outlet.system.0 < length tables.now.systems }
    ensures findings { totals.new.findings ≡ totals.old.findings }
    ensures left_out { totals.new.left_out ≡ totals.old.left_out }
    ensures unseen { totals.new.unseen ≡ totals.old.unseen }
    ensures exercised { totals.new.is_exercised ≡ totals.old.is_exercised }
    ensures counted { let t = tables.now in
        (c : Choices) (until : ℕ) (frames : List Seen) (n : Counted) (l : LinkRow) →
        slice_get t.links outlet.link ≡ Some l → is_to outlet.system.0 l ≡ true →
        sight_in t taps.now ≡ c.sight → AreEnded t c until frames kept.now →
        HasCounted n totals.old →
        HasCounted (both_counted n (counted_at t c until frames outlet.side l
        (port_of t outlet.system.0))) totals.new }
{
    if is_judged(tables, taps, outlet) {
        kept.count(key_at(tables, outlet), totals);
    }
}

/// What is counted of a link's streams on a side.
fn count_to(
    tables: &Tables,
    taps: &Taps,
    kept: &KeptByKey,
    side: Side,
    link: usize,
    totals: &mut Totals,
)
    requires { link < length tables.now.links }
    ensures findings { totals.new.findings ≡ totals.old.findings }
    ensures left_out { totals.new.left_out ≡ totals.old.left_out }
    ensures unseen { totals.new.unseen ≡ totals.old.unseen }
    ensures exercised { totals.new.is_exercised ≡ totals.old.is_exercised }
    ensures counted { (c : Choices) (until : ℕ) (frames : List Seen) (n : Counted) (l : LinkRow) →
        slice_get tables.now.links link ≡ Some l → sight_in tables.now taps.now ≡ c.sight →
        AreEnded tables.now c until frames kept.now → HasCounted n totals.old →
        HasCounted (both_counted n (counted_to tables.now c until frames side l l.to))
        totals.new }
{
    for rank in 0..tables.link(link).to.len() {
        let system = receiver(tables, link, rank);
        let outlet = Outlet { side, link, system };
        count_at(tables, taps, kept, outlet, totals);
    }
}

/// What is counted of all streams on a side.
fn count_on(tables: &Tables, taps: &Taps, kept: &KeptByKey, side: Side, totals: &mut Totals)
    ensures findings { totals.new.findings ≡ totals.old.findings }
    ensures left_out { totals.new.left_out ≡ totals.old.left_out }
    ensures unseen { totals.new.unseen ≡ totals.old.unseen }
    ensures exercised { totals.new.is_exercised ≡ totals.old.is_exercised }
    ensures counted { (c : Choices) (until : ℕ) (frames : List Seen) (n : Counted) →
        sight_in tables.now taps.now ≡ c.sight → AreEnded tables.now c until frames kept.now →
        HasCounted n totals.old →
        HasCounted (both_counted n (counted_among tables.now c until frames side
        tables.now.links)) totals.new }
{
    for link in 0..tables.link_count() {
        count_to(tables, taps, kept, side, link, totals);
    }
}

/// What is counted of all streams, on both sides.
pub(crate) fn count_streams(tables: &Tables, taps: &Taps, kept: &KeptByKey, totals: &mut Totals)
    ensures findings { totals.new.findings ≡ totals.old.findings }
    ensures left_out { totals.new.left_out ≡ totals.old.left_out }
    ensures unseen { totals.new.unseen ≡ totals.old.unseen }
    ensures exercised { totals.new.is_exercised ≡ totals.old.is_exercised }
    ensures counted { (c : Choices) (until : ℕ) (frames : List Seen) →
        sight_in tables.now taps.now ≡ c.sight → AreEnded tables.now c until frames kept.now →
        HasCounted none_counted totals.old →
        HasCounted (counted_of tables.now c until frames) totals.new }
{
    count_on(tables, taps, kept, Side::A, totals);
    count_on(tables, taps, kept, Side::B, totals);
}
