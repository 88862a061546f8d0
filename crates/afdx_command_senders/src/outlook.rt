//! From where senders are judged.

ghost use Rattle.std.specs.Prelude.{◌≡◌, option_map};
ghost use Rattle.afdx_command_senders.specs.Outlook as spec;

use afdx_config::{Described, Switches, Tables};

/// From where senders are judged: by the tables of their switch, and by all switches of its
/// configuration, where that describes several a side.
#[derive(Clone, Copy, Debug)]
pub(crate) struct SenderOutlook<'a> {
    pub tables: &'a Tables,
    pub among: Option<&'a Switches>,
}

/// The switches of a configuration, where it describes several.
fn among_all(described: &Described) -> Option<&Switches>
    ensures { option_map (λ switches. switches.now) result ≡ spec.among_all described.now }
{
    match described {
        Described::One(_) => None,
        Described::Several(switches) => Some(switches),
    }
}

impl<'a> SenderOutlook<'a> {
    /// At the switch with these tables, by all that the configuration describes.
    pub(crate) fn at(described: &'a Described, tables: &'a Tables) -> SenderOutlook<'a>
        ensures { spec.outlook_of result ≡ spec.outlook_at described.now tables.now }
    {
        let among = among_all(described);
        SenderOutlook { tables, among }
    }
}
