//! The codec law of audio payloads.

ghost use Rattle.payload_core_audio.specs.Plain.{noise_coding, pieces_coding};
ghost use Rattle.payload_core_audio.specs.Telephone.{telephone_coding};
ghost use Rattle.payload_core_base.specs.Law.{CodecLaw};
ghost use Rattle.std.specs.Prelude.{ℕ};

/// Opus, G.711, G.722 and comfort noise obey the codec law: for the first three each piece of a
/// sample is a unit, for comfort noise the sample.
pub fn plain_laws()
    ensures pieces { CodecLaw pieces_coding }
    ensures noise { CodecLaw noise_coding }
{}

/// Telephone events keep the codec law at every clock rate: the unit of one report is the report with the R
/// bit clear.
pub fn telephone_law()
    ensures { (rate : ℕ) → CodecLaw (telephone_coding rate) }
{}
