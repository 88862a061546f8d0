//! Whose lines stand together: those of one stream, or of the frames of no stream at one output
//! port.

ghost use Rattle.std.specs.Prelude.{◌≡◌};
ghost use Rattle.afdx_command_conform.specs.Keys as spec;

use afdx_frame::Side;

/// A link's frames on a side at an output port; without a link the frames there that are of no
/// stream. The link is its place in the tables.
#[derive(Clone, Copy, Debug, PartialEq, Eq)]
pub struct Key {
    pub side: Side,
    pub port: u8,
    pub link: Option<u16>,
}

/// The numbers of a key are those that its types hold.
pub(crate) fn are_small(key: Key)
    ensures { spec.IsKey key }
{
    let Key {
        side: _,
        port: _,
        link: _,
    } = key;
}

/// The number of a side, in its order.
fn side_rank(side: Side) -> u64
    ensures { result ≡ spec.side_rank side }
{
    match side {
        Side::A => 0,
        Side::B => 1,
    }
}

impl Key {
    /// By what its lines come among those of one moment: by side, port, those of no stream first,
    /// and the link's place.
    pub(crate) fn rank(self) -> u64
        ensures { result ≡ spec.key_rank self }
    {
        let at = side_rank(self.side) * 256 + u64::from(self.port);
        match self.link {
            None => at * 0x1_0000_0000,
            Some(link) => at * 0x1_0000_0000 + u64::from(link) + 1,
        }
    }

    /// The place of what is kept of it: first of all ports of both sides those of no stream, then
    /// of each link in the order of the tables 32 ports on each side.
    pub(crate) fn place(self) -> usize
        ensures { result ≡ spec.key_place self }
    {
        let side = side_rank(self.side) as usize;
        let port = self.port as usize;
        match self.link {
            None => side * 256 + port,
            Some(link) => 512 + (link as usize) * 64 + side * 32 + port,
        }
    }
}
