//! What a letter of the program stands for.

ghost use Rattle.std.specs.Prelude.{◌≡◌, None};
ghost use Rattle.rtp_media_program.specs.Making.{empty_draft};

use rtp_media_ends::End;
use rtp_wire::ExtensionMap;
use sdp_formats_rows::PayloadParams;
use std::alloc::Global;
use std::marker::Model;

/// What a letter stands for: its end, and the draft of the next one.
pub struct EndAndDraft {
    /// The end, once one is made.
    pub end: Option<End>,
    /// The rows of the draft.
    pub rows: Vec<PayloadParams>,
    /// The header extensions of the draft, by their numbers.
    pub exts: ExtensionMap,
}

/// Written by hand, so that crates that drop this type need no proof about its fields.
impl Drop for EndAndDraft {
    fn drop(self) {
        let EndAndDraft {
            end: _end,
            rows: _rows,
            exts: _exts,
        } = self;
    }
}

impl Model for EndAndDraft {
    ghost use Rattle.rtp_media_program.specs.Making.{EndAndDraft as Kept};
    ghost use Rattle.rtp_wire.specs.Replay.{window_code};
    ghost use Rattle.std.specs.Coded.{codes};

    ghost Value = { Kept };

    ghost coded = { Prim.hlevel (codes, window_code) };

    ghost view = { λ d. record { end = d.end; rows = d.rows.items; exts = d.exts } };
}

impl EndAndDraft {
    /// No end is made, and the draft is empty.
    pub fn clear(alloc: Global) -> EndAndDraft
        ensures { result ≡ empty_draft None }
    {
        EndAndDraft {
            end: None,
            rows: Vec::new(alloc),
            exts: ExtensionMap::empty(),
        }
    }
}
