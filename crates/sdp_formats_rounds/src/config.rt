//! Configs of rows.

ghost use Rattle.std.specs.Prelude.{◌≡◌, IfOk, []};
ghost use Rattle.sdp_formats_rows.specs.DefaultRows.{default_rows};

mod adding;
mod enabling;
mod finding;
mod matching;
mod redundancy;
mod rounds;

pub use rounds::RemoteSection;
use sdp_formats_rows::{PayloadParams, rows};
use std::alloc::{AllocError, Global};
use std::marker::Model;
use std::ops::DerefSlice;

/// The rows that an end is ready to use, in order of preference, and the distances of redundant
/// audio.
#[derive(Debug)]
pub struct CodecConfig {
    params: Vec<PayloadParams>,
    red_distances: Vec<u32>,
}

/// Written by hand, so that crates that drop this type need no proof about its fields.
impl Drop for CodecConfig {
    fn drop(self) {
        let CodecConfig {
            params: _params,
            red_distances: _red_distances,
        } = self;
    }
}

impl Model for CodecConfig {
    ghost use Rattle.sdp_formats_rounds.specs.Configs.{Config};

    ghost Value = { Config };

    ghost view = { λ c. record { rows = c.params.items; distances = c.red_distances.items } };
}

impl CodecConfig {
    /// An empty config, distances unset.
    pub fn empty(alloc: Global) -> Self
        ensures { result ≡ record { rows = []; distances = [] } }
    {
        CodecConfig {
            params: Vec::new(alloc),
            red_distances: Vec::new(alloc),
        }
    }

    /// A config of these rows, with the distances unset.
    pub fn new_from_payload_params(payload_params: Vec<PayloadParams>) -> Self
        ensures { result ≡ record { rows = payload_params.items; distances = [] } }
    {
        let alloc = *payload_params.allocator();
        CodecConfig {
            params: payload_params,
            red_distances: Vec::new(alloc),
        }
    }

    /// The rows in order of preference.
    pub fn params(&self) -> &[PayloadParams]
        ensures { result.now ≡ self.now.rows }
    {
        self.params.as_slice()
    }

    /// Drops all rows; the distances stay.
    pub fn clear(&mut self)
        ensures { self.new ≡ record self.old { rows = [] } }
    {
        self.params.clear();
    }

    /// A config of the default rows of Opus without redundancy, VP8, H.264, H.265, VP9 and AV1, in this order, with the
    /// distances unset.
    ///
    /// # Errors
    ///
    /// `AllocError` if memory runs out.
    pub fn new_with_defaults(alloc: Global) -> Result<Self, AllocError>
        ensures { IfOk result (λ config. config ≡ record { rows = default_rows; distances = [] }) }
    {
        let mut params = Vec::new(alloc);
        params.extend_from_slice(&[rows::opus(false), rows::vp8()])?;
        params.extend_from_slice(&rows::h264())?;
        params.push(rows::h265())?;
        params.extend_from_slice(&rows::vp9())?;
        params.push(rows::av1())?;
        Ok(CodecConfig {
            params,
            red_distances: Vec::new(alloc),
        })
    }

    /// The same config.
    ///
    /// # Errors
    ///
    /// `AllocError` if memory runs out.
    pub fn clone(&self) -> Result<Self, AllocError>
        ensures { IfOk result (λ config. config ≡ self.now) }
    {
        Ok(CodecConfig {
            params: self.params.clone()?,
            red_distances: self.red_distances.clone()?,
        })
    }
}

/// Its rows, in order of preference.
impl DerefSlice for CodecConfig {
    type Elem = PayloadParams;

    ghost deref_gives = { λ config rows. rows ≡ config.rows };

    fn deref(&self) -> &[PayloadParams] {
        self.params.as_slice()
    }
}
