//! The distances of redundant audio.

ghost use Rattle.std.specs.Prelude.{◌≡◌, ◌==◌, IfOk, OnOk, OnErr};
ghost use Rattle.std.specs.List.{list_any};
ghost use Rattle.sdp_formats_rounds.specs.Configs.{distances_of, kept_distances};

use super::CodecConfig;
use std::alloc::{AllocError, Global};

fn is_given(distances: &[u32], distance: u32) -> bool
    ensures { result ≡ list_any (λ e. e == distance) distances.now }
{
    distances.iter().any(|given| *given == distance)
}

fn kept_distances(alloc: Global, distances: &[u32]) -> Result<Vec<u32>, AllocError>
    ensures { IfOk result (λ kept. kept.items ≡ kept_distances distances.now) }
{
    [1, 2, 3, 4, 5, 6, 7, 8]
        .iter()
        .copied()
        .filter(|distance| *distance == 1 || is_given(distances, *distance))
        .collect(alloc)
}

impl CodecConfig {
    /// The distances of redundant audio, increasing; `[1]` by default (RFC 2198).
    pub fn red_distances(&self) -> &[u32]
        ensures { result.now ≡ distances_of self.now.distances }
    {
        if self.red_distances.is_empty() {
            return &[1];
        }
        self.red_distances.as_slice()
    }

    /// Sets how many packets back each level of redundant audio lies (RFC 2198): of those given 1
    /// to 8 are kept, rising and each once, and 1 is put first if it is missing.
    ///
    /// # Errors
    ///
    /// `AllocError` if memory runs out; the config is then as before.
    pub fn set_red_distances(&mut self, distances: &[u32]) -> Result<(), AllocError>
        ensures ok { OnOk result (self.new ≡ record self.old { distances = kept_distances distances.now }) }
        ensures err { OnErr result (self.new ≡ self.old) }
    {
        self.red_distances = kept_distances(*self.params.allocator(), distances)?;
        Ok(())
    }
}
