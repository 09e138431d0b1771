//! The extensions of a map, one after the other.

ghost use Rattle.std.specs.Prelude.{◌≡◌};
ghost use Rattle.rtp_wire.specs.Iteration.{entries_left, numbered};

use crate::extension::Extension;
use crate::map::{ExtensionMap, MAX_ID};

/// The extensions of a map with their numbers, in rising number.
#[derive(Drop)]
pub struct ExtensionMapIter<'a> {
    map: &'a ExtensionMap,
    id: u8,
}

impl<'a> ExtensionMapIter<'a> {
    /// Those of a map.
    pub(crate) fn new(map: &'a ExtensionMap) -> ExtensionMapIter<'a>
        ensures { entries_left result ≡ numbered map.now 1 16 }
    {
        ExtensionMapIter { map, id: 1 }
    }
}

impl<'a> Iterator for ExtensionMapIter<'a> {
    ghost use Rattle.std.specs.Iterator.{YieldsFirstBy, item_count};
    ghost use Rattle.rtp_wire.specs.Iteration.{entries_left, entry_of};

    type Item = (u8, &'a Extension);

    ghost next_gives = { YieldsFirstBy entry_of entries_left };

    ghost remaining = { item_count entries_left };

    #[tactic(auto, using(crate::proofs::EntryLaws::entries_step, crate::proofs::EntryLaws::entries_end))]
    fn next(&mut self) -> Option<(u8, &'a Extension)> {
        while self.id <= MAX_ID {
            let id = self.id;
            self.id += 1;
            match self.map.lookup(id) {
                Some(ext) => return Some((id, ext)),
                None => {}
            }
        }
        None
    }
}
