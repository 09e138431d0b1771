//! What `==` says of session texts: that they are the same if and only if it holds.

ghost use Rattle.std.specs.Prelude.{◌≡◌, ◌↔◌, IsTrue, List, Option, ℕ};
ghost use Rattle.sdp_formats_values.specs.declared.bandwidth.Bandwidth.{Bandwidth};
ghost use Rattle.rtp_wire.specs.declared.extension.Extension.{Extension};
ghost use Rattle.sdp_formats_values.specs.declared.param.FormatParam.{FormatParam};
ghost use Rattle.sdp_formats_data.specs.declared.media.MediaAttribute.{MediaAttribute};
ghost use Rattle.sdp_formats_data.specs.declared.media.MediaLine.{MediaLine};
ghost use Rattle.sdp_formats_values.specs.declared.media_type.MediaType.{MediaType};
ghost use Rattle.sdp_formats_values.specs.declared.media_type.Proto.{Proto};
ghost use Rattle.sdp_formats_data.specs.declared.media.RtpMap.{RtpMap};
ghost use Rattle.sdp_formats_data.specs.declared.session.Sdp.{Sdp};
ghost use Rattle.sdp_formats_data.specs.declared.session.Session.{Session};
ghost use Rattle.sdp_formats_data.specs.declared.session.SessionAttribute.{SessionAttribute};

use crate::media::{MediaAttribute, MediaLine, RtpMap};
use crate::session::{Sdp, Session, SessionAttribute};
use crate::value_equality::{
    candidate_equality_law, directions_law, fingerprints_law, mid_lists_law, mids_law, msids_law,
    pair_lists_law, restriction_ids_law, sessions_numbers_law, setups_law, simulcasts_law,
    source_lists_law, text_lists_law, texts_law, type_lists_law,
};
use rtp_wire::Extension;
use sdp_formats_grammar::Listed;
use sdp_formats_values::{Bandwidth, FormatParam, MediaType, Proto};

fn params_law()
    ensures { (a b : FormatParam) → IsTrue (⟦<FormatParam as PartialEq>⟧.eq a b) ↔ (a ≡ b) }
{}

#[tactic(auto, using(crate::proofs::AlikeLists::alike_lists))]
fn param_lists_law()
    ensures { (a b : List FormatParam) → IsTrue (⟦<Listed<FormatParam> as PartialEq>⟧.eq a b) ↔ (a ≡ b) }
{
    params_law();
}

fn extensions_law()
    ensures { (a b : Extension) → IsTrue (⟦<Extension as PartialEq>⟧.eq a b) ↔ (a ≡ b) }
{}

fn rtp_maps_law()
    ensures { (a b : RtpMap) → IsTrue (⟦<RtpMap as PartialEq>⟧.eq a b) ↔ (a ≡ b) }
{}

/// Two bandwidths are equal by `==` if and only if they are the same.
pub fn bandwidth_equality_law()
    ensures { (a b : Bandwidth) → IsTrue (⟦<Bandwidth as PartialEq>⟧.eq a b) ↔ (a ≡ b) }
{
    texts_law();
}

fn bandwidths_if_any_law()
    ensures { (a b : Option Bandwidth) → IsTrue (⟦<Option<Bandwidth> as PartialEq>⟧.eq a b) ↔ (a ≡ b) }
{
    bandwidth_equality_law();
}

/// Two attributes of sections are equal by `==` if and only if they are the same.
pub fn attribute_equality_law()
    ensures { (a b : MediaAttribute) → IsTrue (⟦<MediaAttribute as PartialEq>⟧.eq a b) ↔ (a ≡ b) }
{
    texts_law();
    mids_law();
    setups_law();
    directions_law();
    fingerprints_law();
    pair_lists_law();
    restriction_ids_law();
    simulcasts_law();
    msids_law();
    candidate_equality_law();
    type_lists_law();
    source_lists_law();
    param_lists_law();
    extensions_law();
    rtp_maps_law();
}

#[tactic(auto, using(crate::proofs::AlikeLists::alike_lists))]
fn attribute_lists_law()
    ensures { (a b : List MediaAttribute) → IsTrue (⟦<Listed<MediaAttribute> as PartialEq>⟧.eq a b) ↔ (a ≡ b) }
{
    attribute_equality_law();
}

/// Two attributes of sessions are equal by `==` if and only if they are the same.
pub fn session_attribute_equality_law()
    ensures { (a b : SessionAttribute) → IsTrue (⟦<SessionAttribute as PartialEq>⟧.eq a b) ↔ (a ≡ b) }
{
    texts_law();
    text_lists_law();
    mid_lists_law();
    setups_law();
    fingerprints_law();
    candidate_equality_law();
}

#[tactic(auto, using(crate::proofs::AlikeLists::alike_lists))]
fn session_attribute_lists_law()
    ensures { (a b : List SessionAttribute) → IsTrue (⟦<Listed<SessionAttribute> as PartialEq>⟧.eq a b) ↔ (a ≡ b) }
{
    session_attribute_equality_law();
}

fn media_types_law()
    ensures { (a b : MediaType) → IsTrue (⟦<MediaType as PartialEq>⟧.eq a b) ↔ (a ≡ b) }
{
    texts_law();
}

fn carried_law()
    ensures { (a b : Proto) → IsTrue (⟦<Proto as PartialEq>⟧.eq a b) ↔ (a ≡ b) }
{}

/// Two sections are equal by `==` if and only if they are the same.
pub fn section_equality_law()
    ensures { (a b : MediaLine) → IsTrue (⟦<MediaLine as PartialEq>⟧.eq a b) ↔ (a ≡ b) }
{
    media_types_law();
    carried_law();
    type_lists_law();
    bandwidths_if_any_law();
    attribute_lists_law();
}

#[tactic(auto, using(crate::proofs::AlikeLists::alike_lists))]
fn section_lists_law()
    ensures { (a b : List MediaLine) → IsTrue (⟦<Listed<MediaLine> as PartialEq>⟧.eq a b) ↔ (a ≡ b) }
{
    section_equality_law();
}

/// Two sessions are equal by `==` if and only if they are the same.
pub fn session_equality_law()
    ensures { (a b : Session) → IsTrue (⟦<Session as PartialEq>⟧.eq a b) ↔ (a ≡ b) }
{
    sessions_numbers_law();
    bandwidths_if_any_law();
    session_attribute_lists_law();
}

/// Two session texts are equal by `==` if and only if they are the same.
pub fn sdp_equality_law()
    ensures { (a b : Sdp) → IsTrue (⟦<Sdp as PartialEq>⟧.eq a b) ↔ (a ≡ b) }
{
    session_equality_law();
    section_lists_law();
}
