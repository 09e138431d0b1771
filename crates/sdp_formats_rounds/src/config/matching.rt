//! Which rows of a config match, and which are of a kind.

ghost use Rattle.std.specs.Prelude.{◌≡◌, ◌==◌, ◌&&◌, IfOk, find};
ghost use Rattle.std.specs.List.{list_any};
ghost use Rattle.std.specs.Option.{option_copied, option_map};
ghost use Rattle.media_types.specs.Codecs.{is_tele_codec};
ghost use Rattle.rtp_wire.specs.Direction.{receives};
ghost use Rattle.sdp_formats_rounds.specs.Best.{best_row};
ghost use Rattle.sdp_formats_rounds.specs.Negotiated.{events_of};
ghost use Rattle.sdp_formats_rounds.specs.Matching.{type_for};
ghost use Rattle.sdp_formats_rows.specs.Kinds.{rows_of_kind};

use super::CodecConfig;
use crate::best::best_row;
use media_types::MediaKind;
use rtp_wire::{Direction, Pt};
use sdp_formats_rows::{PayloadParams, rows_of_kind};
use std::alloc::{AllocError, Global};

impl CodecConfig {
    /// The own row that matches a row best, the last of the greatest score; None if none matches.
    pub fn match_params(&self, params: PayloadParams) -> Option<&PayloadParams>
        ensures { option_copied result ≡ best_row params.spec self.now.rows }
    {
        best_row(&params, self.params.as_slice())
    }

    /// The payload type with which a remote row is used, if an own row matches it: the remote row's
    /// type if the other end receives, since that is what it expects; otherwise that of the own row
    /// that matches best (RFC 3264 5.1).
    pub fn sdp_match_remote(
        &self,
        remote_params: PayloadParams,
        remote_dir: Direction,
    ) -> Option<Pt>
        ensures { result ≡ type_for (receives remote_dir) remote_params (best_row remote_params.spec self.now.rows) }
    {
        let own = self.match_params(remote_params)?;
        if remote_dir.is_receiving() {
            return Some(remote_params.pt());
        }
        Some(own.pt())
    }

    /// The rows of a kind of media, in order: video codecs, or audio codecs and telephone events. For a new offer
    /// telephone events count only at the clock rate of an audio row, if there are such ones.
    ///
    /// # Errors
    ///
    /// `AllocError` if memory runs out.
    pub fn all_for_kind(
        &self,
        kind: MediaKind,
        for_new_offer: bool,
    ) -> Result<Vec<PayloadParams>, AllocError>
        ensures { IfOk result (λ rows. rows.items ≡ rows_of_kind kind for_new_offer self.now.rows) }
    {
        let alloc = *self.params.allocator();
        rows_of_kind(alloc, kind, for_new_offer, self.params.as_slice())
    }

    /// The highest telephone event of the first row of this type that is of telephone events, 16 if it gives none
    /// (RFC 4733 2.4.1 has 15).
    pub fn tele_event_max(&self, pt: Pt) -> Option<u8>
        ensures { result ≡ option_map (λ row. events_of row.spec.format)
            (find (λ row. row.pt == pt && is_tele_codec row.spec.codec) self.now.rows) }
    {
        self.params
            .iter()
            .find(|row| row.pt().get() == pt.get() && row.spec().codec.is_tele())
            .map(|row| row.spec().format.telephone_event_max.unwrap_or(16))
    }

    /// Whether a row has this payload type.
    pub fn has_pt(&self, pt: Pt) -> bool
        ensures { result ≡ list_any (λ row. row.pt == pt) self.now.rows }
    {
        self.params.iter().any(|row| row.pt().get() == pt.get())
    }
}
