//! What a handle of an end holds.

ghost use Rattle.std.specs.Prelude.{◌≡◌};
ghost use Rattle.jilqamur.specs.HeldEnds.{empty_held_end};

use crate::draft::Draft;
use payload_core_buffer::Unit;
use rtp_media_browsers::BrowserState;
use rtp_media_ends::End;
use rtp_media_streams::Datagram;
use std::alloc::Global;
use std::marker::Model;

/// What a handle of an end holds.
#[derive(Drop)]
pub struct HeldEnd {
    /// The end, once it is made.
    pub end: Option<End>,
    /// The state remembered from a browser's texts.
    pub state: BrowserState,
    /// What the next end is made of, and what the next offer or answer has.
    pub draft: Draft,
    /// The text that the last offer or answer left.
    pub text: Vec<u8>,
    /// The datagrams that the last sample left.
    pub datagrams: Vec<Datagram>,
    /// The unit that a poll left last.
    pub unit: Option<Unit>,
}

impl Model for HeldEnd {
    ghost use Rattle.jilqamur.specs.HeldEnds.{HeldEndState};
    ghost use Rattle.rtp_wire.specs.Replay.{window_code};
    ghost use Rattle.std.specs.Coded.{codes};

    ghost Value = { HeldEndState };

    ghost coded = { Prim.hlevel (codes, window_code) };

    ghost view = { λ p. record {
      end = p.end;
      state = p.state;
      draft = p.draft;
      text = p.text.items;
      datagrams = p.datagrams.items;
      unit = p.unit;
    } };
}

impl HeldEnd {
    /// One without an end, rows and sections.
    pub fn empty(alloc: Global) -> Self
        ensures { result ≡ empty_held_end }
    {
        HeldEnd {
            end: None,
            state: BrowserState::new(alloc),
            draft: Draft::empty(alloc),
            text: Vec::new(alloc),
            datagrams: Vec::new(alloc),
            unit: None,
        }
    }
}
