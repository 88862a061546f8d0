//! The systems of a switch, judged as senders by the frames that came at their ports.
//!
//! Of each frame is said whose it is: a source's, a link's that another system sends, or one of no
//! link of the tables. Sources are followed by their links' places, and lines that wait to be told
//! go by their moments.
#![tactic(auto)]

mod agenda;
mod followed;
mod found_lines;
mod hearing;
pub mod laws;
mod link_places;
mod new_source;
mod recorded_ports;
mod sender_line;
mod senders;
mod settling;
mod site_frame;
mod sites;
mod stray;

pub use followed::FollowedSources;
pub use found_lines::FoundLines;
pub use recorded_ports::RecordedPorts;
pub use sender_line::{SenderLine, ToldOf};
pub use senders::Senders;
pub use site_frame::SiteFrame;
pub use sites::{SenderSites, SourceOf};
pub use stray::Stray;
