//! Where a link is looked for first.

ghost use Rattle.std.specs.Prelude.{◌≡◌, ◌<◌, IfSome, IsTrue, Some, length};
ghost use Rattle.afdx_config.specs.Reading.{link_of};

use afdx_config::Tables;
use afdx_config::laws::each_row_is_found;
use afdx_frame::VlId;
use std::alloc::{AllocError, Global};

/// So many identifiers there are.
const IDENTIFIERS: usize = 65_536;

/// By identifier, the place in the tables at which its link is looked for first. Nothing relies on
/// it: a link that isn't there is looked up.
#[derive(Debug, Drop)]
pub(crate) struct LinkPlaces {
    places: Vec<u16>,
}

/// Whether the link of this identifier is at this place.
fn is_at(tables: &Tables, place: usize, vl: VlId) -> bool
    ensures within { IsTrue result → place < length tables.now.links }
    ensures found { IsTrue result → link_of tables.now.links vl.0 ≡ Some place }
{
    each_row_is_found();
    if place >= tables.link_count() {
        return false;
    }
    let link = tables.link(place);
    link.vl.0 == vl.0
}

impl LinkPlaces {
    /// The places of all links.
    pub(crate) fn new(alloc: Global, tables: &Tables) -> Result<LinkPlaces, AllocError> {
        let mut places = Vec::from_elem(alloc, 0, IDENTIFIERS)?;
        for place in 0..tables.link_count() {
            if let Some(first) = places.get_mut(usize::from(tables.link(place).vl.0)) {
                *first = place as u16;
            }
        }
        Ok(LinkPlaces { places })
    }

    /// The place of the link of this identifier, if the tables have it.
    pub(crate) fn of(&self, tables: &Tables, vl: VlId) -> Option<usize>
        ensures known { IfSome result (λ link. link < length tables.now.links) }
        ensures place { result ≡ link_of tables.now.links vl.0 }
    {
        if let Some(first) = self.places.get(usize::from(vl.0)) {
            let place = usize::from(*first);
            if is_at(tables, place, vl) {
                return Some(place);
            }
        }
        tables.link_of(vl)
    }
}
