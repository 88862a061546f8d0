//! Laws over the definitions.

ghost use Rattle.afdx_config.specs.Format.{TheTopKeys, TheSystemKeys, TheLinkKeys, ThePortKeys};
ghost use Rattle.afdx_config.specs.Format.{TheFaultWords};
ghost use Rattle.afdx_config.specs.Format.{TheCascadeKeys, TheSwitchKeys, TheNeighbourKeys};
ghost use Rattle.afdx_config.specs.Laws.{EachRowIsFound, SystemsAlwaysListen, OneIsAmongOthers};
ghost use Rattle.afdx_config.specs.Laws.{AloneIsOne, OneIsBetweenSystems, AdmittedIsServing};

/// In lawful tables a look-up by name, by port or by identifier gives the row's own place.
pub fn each_row_is_found()
    ensures { EachRowIsFound }
{}

/// What hears at a port of lawful tables is the system there; a neighbour hears nothing.
pub fn systems_listen()
    ensures { SystemsAlwaysListen }
{}

/// What holds of the one switch on a side holds of it where others stand beside it, which may send
/// links to it with a greater jitter; a switch without neighbours is the one switch, and its links
/// are between systems; and what admission asks of all asks what the switch and its receivers need.
pub fn one_is_among_others()
    ensures lawful { OneIsAmongOthers }
    ensures alone { AloneIsOne }
    ensures between { OneIsBetweenSystems }
    ensures admitted { AdmittedIsServing }
{}

/// The keys of the top are those of the format, by name and range, each at its number.
#[tactic(auto, unfolding(crate::specs::Keys::top_keys))]
pub fn top_keys_are()
    ensures { TheTopKeys }
{}

/// The keys of a system are those of the format, by name and range, each at its number.
#[tactic(auto, unfolding(crate::specs::Keys::system_keys))]
pub fn system_keys_are()
    ensures { TheSystemKeys }
{}

/// The keys of a link are those of the format, by name and range, each at its number.
#[tactic(auto, unfolding(crate::specs::Keys::link_keys))]
pub fn link_keys_are()
    ensures { TheLinkKeys }
{}

/// The keys of a port entry are those of the format, by name and range, each at its number.
#[tactic(auto, unfolding(crate::specs::Keys::port_keys))]
pub fn port_keys_are()
    ensures { ThePortKeys }
{}

/// The keys of a file that describes several switches are those of the format, by name and range,
/// each at its number: of its top, of a switch, and of a neighbour.
#[tactic(auto, unfolding(crate::specs::Keys::cascade_keys, crate::specs::Keys::switch_keys, crate::specs::Keys::neighbour_keys))]
pub fn cascade_keys_are()
    ensures top { TheCascadeKeys }
    ensures switches { TheSwitchKeys }
    ensures neighbours { TheNeighbourKeys }
{}

/// The words of the faults are those of the format.
#[tactic(auto, unfolding(crate::specs::FaultText::fault_words))]
pub fn words_are()
    ensures { TheFaultWords }
{}
