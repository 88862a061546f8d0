//! What is wrong with a frame by itself.

ghost use Rattle.std.specs.Prelude.{◌≡◌, ◌≤◌, if◌then◌else◌, length, Ok, Some, None, List, ℕ};
ghost use Rattle.std.specs.Str.{bytes_eq};
ghost use Rattle.afdx_frame.specs.Carried.{carried_by};
ghost use Rattle.afdx_frame.specs.Grammar.{network as network_of};
ghost use Rattle.afdx_frame.specs.Parts.{IsFrameOf, bytes_of, parts_of};
ghost use Rattle.afdx_police.specs.RuleOf.{rule_of};
ghost use Rattle.afdx_lawful.specs.Alone.{number_in};
ghost use Rattle.afdx_lawful.specs.Flaws.{address_in, address_of, flaw_carrying, flaw_in, flaw_of};
ghost use Rattle.afdx_lawful.specs.Flaws.{is_whole};
ghost use Rattle.afdx_lawful.specs.Sources.{Came, Source as Terms};

use crate::finding::Flaw;
use afdx_frame::{Checked, Datagram, MacView, Side};
use afdx_police::LinkRule;

/// The byte of a network in a source address.
fn network(side: Side) -> u8
    ensures { result ≡ network_of side }
{
    match side {
        Side::A => 0x20,
        Side::B => 0x40,
    }
}

/// Whether the six bytes after the destination address are those of a system on a network.
fn is_from(message: &[u8], system: u16, side: Side) -> bool
    requires { 12 ≤ length message.now }
    ensures { result ≡ bytes_eq (address_in message.now) (address_of system side) }
{
    let [high, low] = system.to_be_bytes();
    let address = [2, 0, 0, high, low, network(side)];
    &message[6..12] == address.as_slice()
}

/// What is wrong with a frame that carries no datagram.
fn unread(view: MacView<'_>) -> Option<Flaw>
    ensures { (bytes : List ℕ) → IsFrameOf bytes (parts_of view.entry) →
        result ≡ flaw_carrying (carried_by bytes) }
{
    match Datagram::parse(view) {
        Ok(_) => None,
        Err(fault) => Some(Flaw::Unread(fault)),
    }
}

/// What is wrong with a frame that isn't damaged.
fn flaw_of_view(
    rule: &LinkRule,
    system: u16,
    side: Side,
    frame: Checked<'_>,
    view: MacView<'_>,
) -> Option<Flaw>
    requires { IsFrameOf (bytes_of frame) (parts_of view) }
    ensures { (s : Terms) (x : Came) → s.rule ≡ rule_of rule.now → s.system ≡ system →
        x.side ≡ side → x.bytes ≡ bytes_of frame.entry →
        result ≡ flaw_in s x (Ok (parts_of view.entry)) }
{
    let length = frame.length();
    if length > rule.lmax {
        return Some(Flaw::OverLmax);
    }
    if length < rule.lmin {
        return Some(Flaw::UnderLmin);
    }
    if !is_from(frame.message, system, side) {
        return Some(Flaw::NotItsAddress);
    }
    unread(view)
}

/// What is seen of a frame: what is wrong with it by itself, and its sequence number, if it isn't
/// damaged.
#[derive(Clone, Copy, Debug)]
pub(crate) struct Looked {
    pub flaw: Option<Flaw>,
    pub number: Option<u8>,
}

/// Looks at a frame that a system sent of a link of this rule, on this network.
pub(crate) fn look(rule: &LinkRule, system: u16, side: Side, frame: Checked<'_>) -> Looked
    ensures flaw { (s : Terms) (x : Came) → s.rule ≡ rule_of rule.now → s.system ≡ system →
        x.side ≡ side → x.bytes ≡ bytes_of frame.entry → result.flaw ≡ flaw_of s x }
    ensures number { (x : Came) → x.bytes ≡ bytes_of frame.entry →
        result.number ≡ (if is_whole x then Some (number_in x) else None) }
{
    let view = match MacView::of(frame) {
        Ok(view) => view,
        Err(fault) => {
            return Looked {
                flaw: Some(Flaw::Damaged(fault)),
                number: None,
            };
        }
    };
    let flaw = flaw_of_view(rule, system, side, frame, view);
    let number = view.sequence();
    Looked {
        flaw,
        number: Some(number),
    }
}
