//! Whether frames are the same on both networks.

ghost use Rattle.std.specs.Prelude.{◌≡◌, ◌≤◌, ◌++◌, length, take, drop};
ghost use Rattle.std.specs.Str.{bytes_eq};
ghost use Rattle.afdx_frame.specs.Parts.{bytes_of};
ghost use Rattle.afdx_lawful.specs.Flaws.{IsWholeFrame, is_copy as is_copy_of};
ghost use Rattle.afdx_lawful.specs.Sources.{Came};

use afdx_frame::Checked;

/// What stands in a message before the byte of the network.
fn before_network(message: &[u8]) -> &[u8]
    requires { 12 ≤ length message.now }
    ensures { result.now ≡ take 11 message.entry.now }
{
    &message[..11]
}

/// What stands behind it.
fn behind_network(message: &[u8]) -> &[u8]
    requires { 12 ≤ length message.now }
    ensures { result.now ≡ drop 12 message.entry.now }
{
    &message[12..]
}

/// Whether two messages are the same but for the byte of the network.
fn is_alike(message: &[u8], other: &[u8]) -> bool
    requires long { 12 ≤ length message.now }
    requires other_long { 12 ≤ length other.now }
    ensures { result ≡ bytes_eq (take 11 message.now ++ drop 12 message.now)
        (take 11 other.now ++ drop 12 other.now) }
{
    let front = before_network(message) == before_network(other);
    front && behind_network(message) == behind_network(other)
}

/// Whether two frames that aren't damaged are the same but for the byte of the network and the
/// check sequence.
pub(crate) fn is_copy(frame: Checked<'_>, other: Checked<'_>) -> bool
    requires whole { IsWholeFrame (bytes_of frame) }
    requires other_whole { IsWholeFrame (bytes_of other) }
    ensures { (x y : Came) → x.bytes ≡ bytes_of frame.entry → y.bytes ≡ bytes_of other.entry →
        result ≡ is_copy_of x y }
{
    is_alike(frame.message, other.message)
}
