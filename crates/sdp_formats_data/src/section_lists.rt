//! What several attributes of a section say, in order.

ghost use Rattle.std.specs.Prelude.{◌≡◌, ◌++◌, IfOk, OnOk};
ghost use Rattle.std.specs.List.{flat_map};
ghost use Rattle.sdp_formats_data.specs.Sections.{extmap_in, extmaps_view, rid_in};

use crate::media::{MediaAttribute, MediaLine};
use rtp_wire::{Extension, Rid};
use std::alloc::{AllocError, Global};

#[tactic(auto, unfolding(crate::specs::Sections::rid_in))]
fn push_rid(rids: &mut Vec<Rid>, attribute: &MediaAttribute) -> Result<(), AllocError>
    ensures { OnOk result (rids.new.items ≡ rids.old.items ++ rid_in attribute.now) }
{
    match attribute {
        MediaAttribute::Rid { id, .. } => {
            rids.push(Rid::from(id.0.as_str()))?;
            Ok(())
        }
        _ => Ok(()),
    }
}

#[tactic(auto, unfolding(crate::specs::Sections::extmap_in))]
fn push_extmap<'a>(
    extmaps: &mut Vec<(u8, &'a Extension)>,
    attribute: &'a MediaAttribute,
) -> Result<(), AllocError>
    ensures { OnOk result (extmaps_view extmaps.new.items ≡ extmaps_view extmaps.old.items ++ extmap_in attribute.now) }
{
    match attribute {
        MediaAttribute::ExtMap { id, ext } => {
            extmaps.push((*id, ext))?;
            Ok(())
        }
        _ => Ok(()),
    }
}

impl MediaLine {
    /// The names of the streams that a section restricts, in order (RFC 8851 4): eight bytes of each.
    ///
    /// # Errors
    ///
    /// `AllocError` if memory runs out.
    pub fn rids(&self, alloc: Global) -> Result<Vec<Rid>, AllocError>
        ensures { IfOk result (λ rids. rids.items ≡ flat_map rid_in self.now.attrs) }
    {
        let mut rids = Vec::new(alloc);
        let attributes = self.attrs.as_slice();
        for attribute in attributes {
            push_rid(&mut rids, attribute)?;
        }
        Ok(rids)
    }

    /// The header extensions of a section and their numbers, in order (RFC 8285 8).
    ///
    /// # Errors
    ///
    /// `AllocError` if memory runs out.
    pub fn extmaps(&self, alloc: Global) -> Result<Vec<(u8, &Extension)>, AllocError>
        ensures { IfOk result (λ extmaps. extmaps_view extmaps.items ≡ flat_map extmap_in self.now.attrs) }
    {
        let mut extmaps = Vec::new(alloc);
        let attributes = self.attrs.as_slice();
        for attribute in attributes {
            push_extmap(&mut extmaps, attribute)?;
        }
        Ok(extmaps)
    }
}
