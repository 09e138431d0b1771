//! Simulcasts (RFC 8853 5.1).

ghost use Rattle.std.specs.Prelude.{◌≡◌};
ghost use Rattle.std.specs.Option.{option_copied};
ghost use Rattle.sdp_formats_grammar.specs.Form.{maybe};
ghost use Rattle.sdp_formats_grammar.specs.Refusals.{Gives};
ghost use Rattle.sdp_formats_reader.specs.Simulcasts.{layer_name, layer, first_layer, groups, direction_layers};
ghost use Rattle.sdp_formats_reader.specs.Simulcasts.{is_other, other_layers, sent, simulcast};

use crate::names::name;
use crate::rids::way;
use sdp_formats_grammar::{Listed, Reads, Refusal, halves, list_of, split, stripped};
use sdp_formats_values::{RestrictionId, RidDirection, Simulcast, SimulcastGroups, SimulcastLayer};
use std::alloc::Global;

// One of several alternatives for a layer.
struct Alternative;

// The alternatives for a layer.
struct Alternatives;

// One way and its layers.
#[derive(Drop)]
struct OneWay {
    direction: RidDirection,
    layers: Listed<SimulcastLayer>,
}

fn layer_name(alloc: Global, text: &str) -> Result<RestrictionId, Refusal>
    ensures { Gives result (layer_name text.now) }
{
    match stripped(text, "~") {
        Some(rest) => Ok(RestrictionId::new(name(alloc, rest)?, false)),
        None => Ok(RestrictionId::new_active(name(alloc, text)?)),
    }
}

impl Reads<SimulcastLayer> for Alternative {
    ghost use Rattle.sdp_formats_reader.specs.Simulcasts.{layer};

    ghost reads = { layer };

    fn read(alloc: Global, text: &str) -> Result<SimulcastLayer, Refusal> {
        Ok(SimulcastLayer {
            restriction_id: layer_name(alloc, text)?,
            attributes: None,
        })
    }
}

impl Reads<SimulcastLayer> for Alternatives {
    ghost use Rattle.sdp_formats_reader.specs.Simulcasts.{first_layer};

    ghost reads = { first_layer };

    fn read(alloc: Global, text: &str) -> Result<SimulcastLayer, Refusal> {
        let layers = list_of::<SimulcastLayer, Alternative>(alloc, text, ',')?;
        layers.into_first().ok_or(Refusal::Unfit)
    }
}

fn groups(alloc: Global, text: &str) -> Result<Listed<SimulcastLayer>, Refusal>
    ensures { Gives result (groups.reads text.now) }
{
    list_of::<SimulcastLayer, Alternatives>(alloc, text, ';')
}

fn other_layers(alloc: Global, text: &str) -> Result<OneWay, Refusal>
    ensures { Gives result (direction_layers.reads text.now) }
{
    let (word, text) = split(text, ' ')?;
    let direction = way(word)?;
    let layers = groups(alloc, text)?;
    Ok(OneWay { direction, layers })
}

fn maybe_other(alloc: Global, text: Option<&str>) -> Result<Option<OneWay>, Refusal>
    ensures { Gives result (maybe direction_layers.reads (option_copied text.entry)) }
{
    match text {
        Some(text) => Ok(Some(other_layers(alloc, text)?)),
        None => Ok(None),
    }
}

fn is_other(direction: RidDirection, other: &Option<OneWay>) -> bool
    ensures { result ≡ is_other direction other.now }
{
    match other {
        Some(other) => other.direction != direction,
        None => true,
    }
}

fn layers_of(alloc: Global, other: Option<OneWay>) -> Listed<SimulcastLayer>
    ensures { result ≡ other_layers other }
{
    match other {
        Some(other) => other.layers,
        None => Listed::new(alloc),
    }
}

fn made(
    direction: RidDirection,
    one: Listed<SimulcastLayer>,
    other: Listed<SimulcastLayer>,
) -> Simulcast
    ensures { result ≡ sent direction one other }
{
    match direction {
        RidDirection::Send => Simulcast {
            send: SimulcastGroups(one),
            recv: SimulcastGroups(other),
            is_munged: false,
        },
        RidDirection::Recv => Simulcast {
            send: SimulcastGroups(other),
            recv: SimulcastGroups(one),
            is_munged: false,
        },
    }
}

/// The value of an `a=simulcast` line: one way, or both in either order; of alternatives the first (RFC 8853 5.1).
///
/// # Errors
///
/// `Unfit` if it is no such value, `Memory` if memory runs out.
pub fn simulcast(alloc: Global, value: &str) -> Result<Simulcast, Refusal>
    ensures { Gives result (simulcast.reads value.now) }
{
    let (word, rest) = split(value, ' ')?;
    let direction = way(word)?;
    let (text, more) = halves(rest, ' ');
    let layers = groups(alloc, text)?;
    let other = maybe_other(alloc, more)?;
    if !is_other(direction, &other) {
        return Err(Refusal::Unfit);
    }
    Ok(made(direction, layers, layers_of(alloc, other)))
}
