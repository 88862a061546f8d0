//! Where the frames of each interface of a recording came in, by the words of `--interface`.

ghost use Rattle.std.specs.Prelude.{◌<◌, ◌≡◌, ◌↔◌, ◌^◌, ◌++◌, ◌∷◌, [], ℕ, IfOk, OnOk, IfSome, IsTrue};
ghost use Rattle.std.specs.Prelude.{List, None, Option, Some, length, map, option_map};
ghost use Rattle.std.specs.List.{list_all};
ghost use Rattle.std.specs.Char.{is_ascii_alphanumeric};
ghost use Rattle.afdx_frame.specs.declared.link.Side.{Side};
ghost use Rattle.afdx_input_sources.specs.Places.{most_interfaces, names_of};
ghost use Rattle.afdx_command_words.specs.PlaceSaid.{IsName, IsPlace, IsPort, IsSite, IsWord, IsWritten};
ghost use Rattle.afdx_command_words.specs.PlaceSaid.{Reads, Spot, letter, spot_of};
ghost use Rattle.afdx_command_words.specs.Placed.{AreCame, AreCameOn, IsMeant, IsNew, IsNewBy, IsNewOn, place_on};

use crate::misplaced::{Given, Misplaced};
use crate::recording_words::Refused;
use afdx_frame::{BySide, LAST_PORT, Side};
use afdx_input_sources::{Interfaces, TapPoint};
use std::alloc::Global;

/// The greatest number of an interface.
const LAST_INTERFACE: u16 = 4_095;

/// The number that at most so many digits write, with nothing beside them.
fn number_in(digits: &str, most: usize) -> Option<u16>
    ensures { Reads (λ n. IsWritten most digits.now n × (n < 2 ^ 16)) result }
{
    if digits.len() > most || digits.starts_with('+') {
        return None;
    }
    match digits.parse::<u16>() {
        Ok(number) => Some(number),
        Err(_) => None,
    }
}

/// The side that a word names.
fn side_in(word: &str) -> Option<Side>
    ensures { Reads (λ side. word.now ≡ letter side) result }
{
    match word.as_bytes() {
        b"A" => Some(Side::A),
        b"B" => Some(Side::B),
        _ => None,
    }
}

/// The port that a word names: 1 to 24, in one or two digits.
fn port_in(word: &str) -> Option<u8>
    ensures { Reads (IsPort word.now) result }
{
    let port = number_in(word, 2)?;
    if port == 0 || port > u16::from(LAST_PORT) {
        return None;
    }
    Some(port as u8)
}

/// A place as a word says it.
#[derive(Clone, Copy, Debug)]
enum Said<'a> {
    /// Frames are left out.
    LeftOut,
    /// A side, the name of a switch of it, and a port.
    At(Side, Option<&'a str>, Option<u8>),
}

/// The most bytes of a switch's name.
const LONGEST_NAME: usize = 16;

/// Whether all bytes are letters and digits of ASCII.
fn is_alphanumeric(word: &str) -> bool
    ensures { result ≡ list_all is_ascii_alphanumeric word.now }
{
    word.as_bytes().iter().all(|b| b.is_ascii_alphanumeric())
}

/// Whether a switch can have this name: 1 to 16 letters and digits of ASCII.
fn is_name(word: &str) -> bool
    ensures { IsTrue result ↔ IsName word.now }
{
    !word.is_empty() && word.len() <= LONGEST_NAME && is_alphanumeric(word)
}

/// The side that a word names and, behind one space, the name of a switch.
fn side_and_name_in(word: &str) -> Option<(Side, Option<&str>)>
    ensures { Reads (λ (at : Side × Option (List ℕ)). IsSite word.now at.0 at.1)
        (option_map (λ at. (at.0, option_map (λ name. name.now) at.1)) result) }
{
    let Some((side, name)) = word.split_once(' ') else {
        return Some((side_in(word)?, None));
    };
    if is_name(name) {
        Some((side_in(side)?, Some(name)))
    } else {
        None
    }
}

/// The place that a word names: `-`, or a side, which the name of a switch and a port may follow.
fn place_in(word: &str) -> Option<Said<'_>>
    ensures { Reads (IsPlace word.now) (option_map spot_of result) }
{
    if word == "-" {
        return Some(Said::LeftOut);
    }
    let (site, port) = match word.split_once(':') {
        Some((site, port)) => (site, Some(port_in(port)?)),
        None => (word, None),
    };
    let (side, name) = side_and_name_in(site)?;
    Some(Said::At(side, name, port))
}

/// The interface and the place that a word `K=PLACE` names.
fn interface_in(word: &str) -> Option<(u16, Said<'_>)>
    ensures range { IfSome result (λ at. at.0 < most_interfaces) }
    ensures read { Reads (λ (at : ℕ × Option Spot). IsWord word.now at.0 at.1)
        (option_map (λ at. (at.0, spot_of at.1)) result) }
{
    let (digits, place) = word.split_once('=')?;
    let interface = number_in(digits, 4)?;
    if interface > LAST_INTERFACE {
        return None;
    }
    Some((interface, place_in(place)?))
}

/// The place on a side or, if a port is said, at that one.
pub(crate) fn place_on(side: Side, port: Option<u8>) -> TapPoint
    ensures { result ≡ place_on side port }
{
    match port {
        Some(port) => TapPoint::AtPort(side, port),
        None => TapPoint::OnSide(side),
    }
}

/// The number that the name of a switch gets.
fn number_of_name<'a>(
    alloc: Global,
    interfaces: &mut Interfaces,
    given: Given<'a>,
    name: &str,
) -> Result<u16, Refused<'a>>
    ensures number { IfOk result (λ n. n ≡ length (names_of interfaces.old)) }
    ensures names { OnOk result
        (names_of interfaces.new ≡ names_of interfaces.old ++ name.now ∷ []) }
    ensures places { OnOk result (interfaces.new.places ≡ interfaces.old.places) }
{
    let name = String::from_str(alloc, name)?;
    match interfaces.name(name)? {
        Some(number) => Ok(number),
        None => Err(given.refused(Misplaced::Many)),
    }
}

/// The place that is said, with the number that a name of a switch gets.
fn place_meant<'a>(
    alloc: Global,
    interfaces: &mut Interfaces,
    given: Given<'a>,
    said: Said<'_>,
) -> Result<TapPoint, Refused<'a>>
    ensures { IfOk result (IsMeant interfaces.old interfaces.new (spot_of said.entry)) }
{
    match said {
        Said::LeftOut => Ok(TapPoint::LeftOut),
        Said::At(side, Some(name), port) => {
            let number = number_of_name(alloc, interfaces, given, name)?;
            Ok(TapPoint::AtNamed(side, number, port))
        }
        Said::At(side, None, port) => Ok(place_on(side, port)),
    }
}

/// Says where the frames of an interface were, unless that was said before.
pub(crate) fn put_new<'a>(
    interfaces: &mut Interfaces,
    given: Given<'a>,
    interface: u16,
    place: TapPoint,
) -> Result<(), Refused<'a>>
    requires { interface < most_interfaces }
    ensures { OnOk result (IsNew interfaces.old interfaces.new interface place) }
{
    if interfaces.place(interface).is_some() {
        return Err(given.refused(Misplaced::Twice));
    }
    interfaces.put(interface, place);
    Ok(())
}

/// Says where the frames of an interface came in, unless that was said before.
fn put_once<'a>(
    alloc: Global,
    interfaces: &mut Interfaces,
    given: Given<'a>,
    interface: u16,
    said: Said<'_>,
) -> Result<(), Refused<'a>>
    requires { interface < most_interfaces }
    ensures { OnOk result
        (IsNewBy interfaces.old interfaces.new interface (spot_of said.entry)) }
{
    let place = place_meant(alloc, interfaces, given, said)?;
    put_new(interfaces, given, interface, place)
}

/// An interface, and the side and the port that a word `K=SIDE` or `K=SIDE:PORT` names.
pub(crate) fn sided_in<'a>(given: Given<'a>) -> Result<(u16, Side, Option<u8>), Refused<'a>>
    ensures range { IfOk result (λ at. at.0 < most_interfaces) }
    ensures said { IfOk result (λ at. IsWord given.entry.word.now at.0
        (Some (record { side = at.1; switch = None; port = at.2 }))) }
{
    match interface_in(given.word) {
        Some((interface, Said::At(side, None, port))) => Ok((interface, side, port)),
        Some((_, Said::At(_, Some(_), _))) => Err(given.refused(Misplaced::Switch)),
        Some((_, Said::LeftOut)) | None => Err(given.refused(Misplaced::Form)),
    }
}

/// Whether a switch is named.
fn names_switch(said: Said<'_>) -> bool {
    match said {
        Said::At(_, Some(_), _) => true,
        Said::At(_, None, _) | Said::LeftOut => false,
    }
}

/// Where the frames of each interface came in, by the words of `--interface`; there may be several
/// switches on a side, or there is one.
pub(crate) fn interfaces_in<'a>(
    alloc: Global,
    words: &[&'a str],
    several: bool,
) -> Result<Interfaces, Refused<'a>>
    ensures { IfOk result (AreCame (map (λ word. word.now) words.now)) }
{
    let mut interfaces = Interfaces::new(alloc)?;
    for word in words {
        let given = Given::interface(word);
        let Some((interface, said)) = interface_in(word) else {
            return Err(given.refused(Misplaced::Form));
        };
        if names_switch(said) && !several {
            return Err(given.refused(Misplaced::Switch));
        }
        put_once(alloc, &mut interfaces, given, interface, said)?;
    }
    Ok(interfaces)
}

/// Says where the frames of an interface came in, unless that was said before: in the recording of
/// the place's side, or that they are left out of both.
fn put_in_pair<'a>(
    alloc: Global,
    pair: &mut BySide<Interfaces>,
    given: Given<'a>,
    interface: u16,
    said: Said<'_>,
) -> Result<(), Refused<'a>>
    requires { interface < most_interfaces }
    ensures a { OnOk result
        (IsNewOn Side.A pair.old.a pair.new.a interface (spot_of said.entry)) }
    ensures b { OnOk result
        (IsNewOn Side.B pair.old.b pair.new.b interface (spot_of said.entry)) }
{
    match said {
        Said::LeftOut => {
            put_once(alloc, &mut pair.a, given, interface, said)?;
            put_once(alloc, &mut pair.b, given, interface, said)
        }
        Said::At(Side::A, _, _) => put_once(alloc, &mut pair.a, given, interface, said),
        Said::At(Side::B, _, _) => put_once(alloc, &mut pair.b, given, interface, said),
    }
}

/// Where the frames of each interface of two recordings came in, by the words of `--interface`.
pub(crate) fn pair_interfaces_in<'a>(
    alloc: Global,
    words: &[&'a str],
) -> Result<BySide<Interfaces>, Refused<'a>>
    ensures a { IfOk result (λ pair. AreCameOn Side.A (map (λ word. word.now) words.now) pair.a) }
    ensures b { IfOk result (λ pair. AreCameOn Side.B (map (λ word. word.now) words.now) pair.b) }
{
    let a = Interfaces::new(alloc)?;
    let b = Interfaces::new(alloc)?;
    let mut pair = BySide { a, b };
    for word in words {
        let given = Given::interface(word);
        let Some((interface, said)) = interface_in(word) else {
            return Err(given.refused(Misplaced::Form));
        };
        put_in_pair(alloc, &mut pair, given, interface, said)?;
    }
    Ok(pair)
}
