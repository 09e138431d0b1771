//! What files need to know of a stream's units in front of them.

use crate::av1::sequence_in;
use crate::hevc::{HevcSequence, hevc_sequence};
use crate::sets::{Kind, kind_of};
use crate::sizes::{Size, h264_size, vp8_size, vp9_size};
use h26x_payload::{Codec, nal_units};
use std::alloc::{AllocError, Global};

/// What the first units that have it say.
#[derive(Drop)]
pub(crate) struct Heads {
    /// Width and height of the pictures.
    pub(crate) size: Option<Size>,
    /// The first sequence header of AV1, after what a decoder is told of it (AV1 codec ISO media file format binding
    /// 2.3).
    pub(crate) sequence: Vec<u8>,
    /// The first parameter sets of H.264, H.265 and H.266; of a session text, all that it says.
    pub(crate) vps: Vec<Vec<u8>>,
    pub(crate) sps: Vec<Vec<u8>>,
    pub(crate) pps: Vec<Vec<u8>>,
    /// What a decoder of H.265 is told of them.
    pub(crate) hevc: Option<HevcSequence>,
    /// Whether the first key frame, if it came, lacks a parameter set.
    is_key_lacking: Option<bool>,
}

impl Heads {
    /// Nothing yet.
    pub(crate) fn new(alloc: Global) -> Heads {
        Heads {
            size: None,
            sequence: Vec::new(alloc),
            vps: Vec::new(alloc),
            sps: Vec::new(alloc),
            pps: Vec::new(alloc),
            hevc: None,
            is_key_lacking: None,
        }
    }

    /// What parameter sets say that aren't in the units.
    pub(crate) fn of_sets(
        alloc: Global,
        codec: Codec,
        sets: &[Vec<u8>],
    ) -> Result<Heads, AllocError> {
        let mut heads = Heads::new(alloc);
        for set in sets {
            heads.note_set(alloc, codec, set)?;
        }
        Ok(heads)
    }

    /// Notes what a unit says, which may be told to be a key frame.
    pub(crate) fn note(
        &mut self,
        alloc: Global,
        codec: Codec,
        is_key: bool,
        unit: &[u8],
    ) -> Result<(), AllocError> {
        match codec {
            Codec::Vp8 if self.size.is_none() => self.size = vp8_size(unit),
            Codec::Vp9 if self.size.is_none() => self.size = vp9_size(unit),
            Codec::Av1 if self.size.is_none() => self.note_sequence(alloc, unit)?,
            Codec::H264 | Codec::H265 | Codec::H266 if self.lack_sets(codec) => {
                self.note_sets(alloc, codec, unit)?
            }
            _ => {}
        }
        if is_key && self.is_key_lacking.is_none() {
            self.is_key_lacking = Some(self.lack_sets(codec));
        }
        Ok(())
    }

    /// Whether the units up to the first key frame, or all if there is none, lack a parameter set.
    pub(crate) fn begin_without_sets(&self, codec: Codec) -> bool {
        self.is_key_lacking.unwrap_or(self.lack_sets(codec))
    }

    /// Notes the sequence header of AV1.
    fn note_sequence(&mut self, alloc: Global, unit: &[u8]) -> Result<(), AllocError> {
        let Some((header, sequence)) = sequence_in(unit) else {
            return Ok(());
        };
        let mut told = Vec::from_slice(alloc, &sequence.told)?;
        told.extend_from_slice(header)?;
        self.sequence = told;
        self.size = Some(sequence.size);
        Ok(())
    }

    /// Whether a parameter set is missing that each stream of the codec needs (H.266 7.4.3.4 needs no video's).
    pub(crate) fn lack_sets(&self, codec: Codec) -> bool {
        let lacks_video = codec == Codec::H265 && self.vps.is_empty();
        lacks_video || self.sps.is_empty() || self.pps.is_empty()
    }

    /// Whether there is a parameter set of a kind, or none is kept of it.
    fn have(&self, kind: Kind) -> bool {
        match kind {
            Kind::Video => !self.vps.is_empty(),
            Kind::Sequence => !self.sps.is_empty(),
            Kind::Picture => !self.pps.is_empty(),
            Kind::Extension | Kind::Other => true,
        }
    }

    /// Notes the first parameter sets of a unit.
    fn note_sets(&mut self, alloc: Global, codec: Codec, unit: &[u8]) -> Result<(), AllocError> {
        for nal in nal_units(unit) {
            if !self.have(kind_of(codec, nal)) {
                self.note_set(alloc, codec, nal)?;
            }
        }
        Ok(())
    }

    /// Notes a parameter set.
    fn note_set(&mut self, alloc: Global, codec: Codec, set: &[u8]) -> Result<(), AllocError> {
        let kind = kind_of(codec, set);
        if kind == Kind::Sequence && self.sps.is_empty() {
            self.note_sequence_of(alloc, codec, set)?;
        }
        let kept = Vec::from_slice(alloc, set)?;
        match kind {
            Kind::Video => self.vps.push(kept)?,
            Kind::Sequence => self.sps.push(kept)?,
            Kind::Picture => self.pps.push(kept)?,
            Kind::Extension | Kind::Other => {}
        }
        Ok(())
    }

    /// Notes what the first set of sequence parameters says.
    fn note_sequence_of(
        &mut self,
        alloc: Global,
        codec: Codec,
        sps: &[u8],
    ) -> Result<(), AllocError> {
        match codec {
            Codec::H264 => self.size = h264_size(alloc, sps)?,
            Codec::H265 => {
                self.hevc = hevc_sequence(alloc, sps)?;
                self.size = self.hevc.map(|sequence| sequence.size);
            }
            _ => {}
        }
        Ok(())
    }
}
