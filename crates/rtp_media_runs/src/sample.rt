//! Samples of a run.

ghost use Rattle.std.specs.Prelude.{◌≡◌};

use rtp_wire::{ExtensionValues, MediaTime};
use std::marker::Model;

/// A sample with its time and its values of header extensions.
pub struct Sample {
    time: MediaTime,
    values: ExtensionValues,
    bytes: Vec<u8>,
}

/// Written by hand, so that crates that drop this type need no proof about its fields.
impl Drop for Sample {
    fn drop(self) {
        let Sample {
            time: _time,
            values: _values,
            bytes: _bytes,
        } = self;
    }
}

impl Model for Sample {
    ghost use Rattle.rtp_media_streams.specs.Sending.{Sample as Given};

    ghost Value = { Given };

    ghost view = { λ s. record { time = s.time; values = s.values; bytes = s.bytes.items } };
}

impl Sample {
    /// A sample of these bytes, at a time of the sending stream's clock, with these values.
    pub fn new(time: MediaTime, values: ExtensionValues, bytes: Vec<u8>) -> Self
        ensures { result ≡ record { time = time; values = values; bytes = bytes.items } }
    {
        Sample {
            time,
            values,
            bytes,
        }
    }

    /// The time.
    pub fn time(&self) -> MediaTime
        ensures { result ≡ self.now.time }
    {
        self.time
    }

    /// The values of header extensions.
    pub fn values(&self) -> &ExtensionValues
        ensures { result.now ≡ self.now.values }
    {
        &self.values
    }

    /// The bytes.
    pub fn bytes(&self) -> &[u8]
        ensures { result.now ≡ self.now.bytes }
    {
        self.bytes.as_slice()
    }
}
