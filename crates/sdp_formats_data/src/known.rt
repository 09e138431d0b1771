//! What is known of each source.

ghost use Rattle.std.specs.Prelude.{◌≡◌, ◌∷◌, [], ℕ, List, IfOk, OnOk};
ghost use Rattle.std.specs.Option.{option_copied, option_flatten, option_map, option_or};
ghost use Rattle.sdp_formats_data.specs.KnownSources.{info_with, repaired_at, word_at};
ghost use Rattle.sdp_formats_data.specs.Said.{word_of};
ghost use Rattle.sdp_formats_data.specs.Sources.{info_of, repaired_if};
ghost use Rattle.sdp_formats_data.specs.declared.media.MediaAttribute.{MediaAttribute};

use crate::media::MediaAttribute;
use crate::said::{cname_said, name_given, repair_in, stream_said, track_said};
use rtp_wire::Ssrc;
use sdp_formats_grammar::Text;
use sdp_formats_values::SsrcInfo;
use std::alloc::{AllocError, Global};
use std::collections::BTreeMap;

fn copied(alloc: Global, text: Option<&str>) -> Result<Option<Text>, AllocError>
    ensures { IfOk result (λ copy. copy ≡ option_copied text.entry) }
{
    match text {
        Some(text) => Ok(Some(Text::of(String::from_str(alloc, text)?))),
        None => Ok(None),
    }
}

fn word_at<'a>(words: &BTreeMap<u32, &'a str>, source: Ssrc) -> Option<&'a str>
    ensures { option_copied result ≡ word_at words.now source }
{
    words.get(&source.get()).copied()
}

/// Keeps what is said of a source, in place of what was said before.
fn keep_word<'a>(
    words: &mut BTreeMap<u32, &'a str>,
    said: Option<(u32, &'a str)>,
) -> Result<(), AllocError>
    ensures { OnOk result ((source : ℕ) → word_at words.new source
        ≡ option_or (word_of source said.entry) (word_at words.old source)) }
{
    let Some((source, word)) = said else {
        return Ok(());
    };
    words.insert(source, word)?;
    Ok(())
}

/// Keeps which source another repairs, in place of the one that was said before.
fn keep_repaired(
    repaired: &mut BTreeMap<u32, Ssrc>,
    pair: Option<(Ssrc, Ssrc)>,
) -> Result<(), AllocError>
    ensures { OnOk result ((source : ℕ) → repaired_at repaired.new source
        ≡ option_or (option_flatten (option_map (repaired_if source) pair)) (repaired_at repaired.old source)) }
{
    let Some((source, repairing)) = pair else {
        return Ok(());
    };
    repaired.insert(repairing.get(), source)?;
    Ok(())
}

/// The last value of each item, by source. The maps are sorted, not hashed: a remote peer chooses
/// the SSRCs, and could choose colliding ones.
#[derive(Drop)]
pub(crate) struct Known<'a> {
    repaired: BTreeMap<u32, Ssrc>,
    cnames: BTreeMap<u32, &'a str>,
    streams: BTreeMap<u32, &'a str>,
    tracks: BTreeMap<u32, &'a str>,
}

impl<'a> Known<'a> {
    fn new(alloc: Global) -> Known<'a>
        ensures { (attributes : List MediaAttribute) (source : ℕ)
            → info_with result attributes source ≡ info_of attributes source }
    {
        Known {
            repaired: BTreeMap::new(alloc),
            cnames: BTreeMap::new(alloc),
            streams: BTreeMap::new(alloc),
            tracks: BTreeMap::new(alloc),
        }
    }

    fn add(&mut self, attribute: &'a MediaAttribute) -> Result<(), AllocError>
        ensures { OnOk result ((rest : List MediaAttribute) (source : ℕ)
            → info_with self.new rest source ≡ info_with self.old (attribute.now ∷ rest) source) }
    {
        keep_repaired(&mut self.repaired, repair_in(attribute))?;
        keep_word(&mut self.cnames, cname_said(attribute))?;
        keep_word(&mut self.streams, stream_said(attribute))?;
        keep_word(&mut self.tracks, track_said(attribute))
    }

    /// What attributes say of their sources.
    pub(crate) fn from_attributes(
        alloc: Global,
        attributes: &'a [MediaAttribute],
    ) -> Result<Known<'a>, AllocError>
        ensures { IfOk result (λ known. (source : ℕ) → info_with known [] source ≡ info_of attributes.now source) }
    {
        let mut known = Known::new(alloc);
        for attribute in attributes {
            known.add(attribute)?;
        }
        Ok(known)
    }

    /// What is known of a source.
    pub(crate) fn info(&self, alloc: Global, source: Ssrc) -> Result<SsrcInfo, AllocError>
        ensures { IfOk result (λ info. info ≡ info_with self.now [] source) }
    {
        Ok(SsrcInfo {
            ssrc: source,
            repairs: self.repaired.get(&source.get()).copied(),
            cname: copied(alloc, word_at(&self.cnames, source))?,
            stream_id: name_given(alloc, word_at(&self.streams, source))?,
            track_id: name_given(alloc, word_at(&self.tracks, source))?,
        })
    }
}
