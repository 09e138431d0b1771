//! SSRCs and the SSRCs of their repairs.

ghost use Rattle.std.specs.Prelude.{◌≡◌, ◌==◌, ◌++◌, find, IfOk, OnOk};
ghost use Rattle.std.specs.Option.{option_map};
ghost use Rattle.rtp_media_sections.specs.Repairs.{are_sound_pairs, is_among, is_repaired, is_repairing};
ghost use Rattle.rtp_media_sections.specs.Repairs.{pair_of, repair_in, repairing_of, repairs_in};

use crate::sections::Source;
use rtp_wire::Ssrc;
use std::alloc::{AllocError, Global};

fn is_among(ssrcs: &[Ssrc], ssrc: Ssrc) -> bool
    ensures { result ≡ is_among ssrcs.now ssrc }
{
    ssrcs.iter().any(|s| s.get() == ssrc.get())
}

fn is_repaired(pairs: &[(Ssrc, Ssrc)], ssrc: Ssrc) -> bool
    ensures { result ≡ is_repaired pairs.now ssrc }
{
    pairs.iter().any(|p| p.0.get() == ssrc.get())
}

fn is_repairing(pairs: &[(Ssrc, Ssrc)], ssrc: Ssrc) -> bool
    ensures { result ≡ is_repairing pairs.now ssrc }
{
    pairs.iter().any(|p| p.1.get() == ssrc.get())
}

/// Whether (SSRC, RTX SSRC) pairs fit the SSRCs of a section: each primary is one of the SSRCs, no
/// RTX SSRC is; primaries are distinct, and so are RTX SSRCs.
pub fn are_sound_pairs(ssrcs: &[Ssrc], pairs: &[(Ssrc, Ssrc)]) -> bool
    ensures { result ≡ are_sound_pairs ssrcs.now pairs.now }
{
    match pairs {
        [] => true,
        [(primary, repairing), rest @ ..] => {
            is_among(ssrcs, *primary)
                && !is_among(ssrcs, *repairing)
                && !is_repaired(rest, *primary)
                && !is_repairing(rest, *repairing)
                && are_sound_pairs(ssrcs, rest)
        }
    }
}

fn push_pair(pairs: &mut Vec<(Ssrc, Ssrc)>, source: &Source) -> Result<(), AllocError>
    ensures { OnOk result (pairs.new.items ≡ pairs.old.items ++ repair_in source.now) }
{
    if let Some(repaired) = source.repairs {
        if repaired.get() != source.ssrc.get() {
            pairs.push((repaired, source.ssrc))?;
        }
    }
    Ok(())
}

/// The (SSRC, RTX SSRC) pairs of sources, in order.
pub(crate) fn repairs_in(alloc: Global, sources: &[Source]) -> Result<Vec<(Ssrc, Ssrc)>, AllocError>
    ensures { IfOk result (λ pairs. pairs.items ≡ repairs_in sources.now) }
{
    let mut pairs = Vec::new(alloc);
    for source in sources {
        push_pair(&mut pairs, source)?;
    }
    Ok(pairs)
}

fn pair_with(pairs: &[(Ssrc, Ssrc)], ssrc: Ssrc) -> Option<(Ssrc, Ssrc)>
    ensures { result ≡ find (λ p. p.0 == ssrc) pairs.now }
{
    pairs
        .iter()
        .copied()
        .find(|pair| pair.0.get() == ssrc.get())
}

fn repairing_in(pair: Option<(Ssrc, Ssrc)>) -> Option<Ssrc>
    ensures { result ≡ option_map (λ p. p.1) pair }
{
    match pair {
        Some(pair) => Some(pair.1),
        None => None,
    }
}

/// The RTX SSRC of this SSRC: that of the first pair.
pub(crate) fn repairing_of(pairs: &[(Ssrc, Ssrc)], ssrc: Ssrc) -> Option<Ssrc>
    ensures { result ≡ repairing_of pairs.now ssrc }
{
    repairing_in(pair_with(pairs, ssrc))
}
