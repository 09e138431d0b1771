//! The direction of a section and its change (RFC 8866 6.7).

ghost use Rattle.std.specs.Prelude.{◌≡◌, ◌<◌, IfSome, IsTrue, length};
ghost use Rattle.std.specs.List.{list_any, position};
ghost use Rattle.sdp_formats_data.specs.Directions.{directed, gives_direction, with_attrs};
ghost use Rattle.sdp_formats_data.specs.Lookups.{direction_of};

use crate::media::{MediaAttribute, MediaLine};
use rtp_wire::Direction;
use sdp_formats_grammar::Listed;
use std::alloc::Global;
use std::mem;

#[tactic(auto, unfolding(crate::specs::Lookups::direction_in))]
fn gives_direction(attribute: &MediaAttribute) -> bool
    ensures { result ≡ gives_direction attribute.now }
{
    match attribute {
        MediaAttribute::SendRecv => true,
        MediaAttribute::SendOnly => true,
        MediaAttribute::RecvOnly => true,
        MediaAttribute::Inactive => true,
        _ => false,
    }
}

/// The place of the first attribute that gives a direction.
fn place_of_direction(attributes: &[MediaAttribute]) -> Option<usize>
    ensures value { result ≡ position gives_direction attributes.now }
    ensures within { IfSome result (λ place. place < length attributes.now) }
{
    attributes
        .iter()
        .position(|attribute| gives_direction(attribute))
}

/// Turns the first attribute that gives a direction.
fn turn(attributes: &mut [MediaAttribute], direction: Direction)
    ensures { attributes.new ≡ directed direction attributes.old }
{
    if let Some(place) = place_of_direction(attributes) {
        let turned = MediaAttribute::from(direction);
        drop(mem::replace(&mut attributes[place], turned));
    }
}

fn turned(attributes: Vec<MediaAttribute>, direction: Direction) -> Vec<MediaAttribute>
    ensures { result.items ≡ directed direction attributes.items }
{
    let mut attributes = attributes;
    turn(&mut attributes, direction);
    attributes
}

impl MediaLine {
    /// Whether an attribute of a section gives its direction: the test of `set_direction`.
    pub fn has_direction(&self) -> bool
        ensures { result ≡ list_any gives_direction self.now.attrs }
    {
        self.attrs
            .as_slice()
            .iter()
            .any(|attribute| gives_direction(attribute))
    }

    /// Gives a section another direction: its first attribute that gives one gives this one, and all others stay.
    ///
    /// # Conditions
    ///
    /// An attribute gives its direction, which `has_direction` tells.
    pub fn set_direction(&mut self, alloc: Global, direction: Direction)
        requires { IsTrue (list_any gives_direction self.old.attrs) }
        ensures attributes { self.new ≡ with_attrs self.old (directed direction self.old.attrs) }
        ensures direction { direction_of self.new.attrs ≡ direction }
    {
        let attributes = mem::replace(&mut self.attrs, Listed::new(alloc));
        self.attrs = Listed::of(turned(attributes.into_vec(), direction));
    }
}
