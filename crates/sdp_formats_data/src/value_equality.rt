//! What `==` says of values of session texts: that they are the same if and only if it holds.

ghost use Rattle.std.specs.Prelude.{◌≡◌, ◌↔◌, IsTrue, List, Option, ℕ};
ghost use Rattle.sdp_formats_values.specs.declared.candidate.Candidate.{Candidate};
ghost use Rattle.sdp_formats_values.specs.declared.candidate.CandidateKind.{CandidateKind};
ghost use Rattle.sdp_formats_values.specs.declared.fingerprint.Fingerprint.{Fingerprint};
ghost use Rattle.sdp_formats_values.specs.declared.streams.Msid.{Msid};
ghost use Rattle.sdp_formats_values.specs.declared.pairs.Pair.{Pair};
ghost use Rattle.sdp_formats_values.specs.declared.candidate.Protocol.{Protocol};
ghost use Rattle.sdp_formats_values.specs.declared.candidate.RelatedAddress.{RelatedAddress};
ghost use Rattle.sdp_formats_values.specs.declared.streams.RestrictionId.{RestrictionId};
ghost use Rattle.sdp_formats_values.specs.declared.streams.RidDirection.{RidDirection};
ghost use Rattle.sdp_formats_values.specs.declared.setup.Setup.{Setup};
ghost use Rattle.sdp_formats_values.specs.declared.streams.Simulcast.{Simulcast};
ghost use Rattle.sdp_formats_values.specs.declared.streams.SimulcastGroups.{SimulcastGroups};
ghost use Rattle.sdp_formats_values.specs.declared.streams.SimulcastLayer.{SimulcastLayer};
ghost use Rattle.sdp_formats_values.specs.declared.candidate.TcpType.{TcpType};

use rtp_wire::{Mid, Pt, SessionId, Ssrc};
use sdp_formats_grammar::{Listed, Text};
use sdp_formats_values::{
    Candidate, CandidateKind, Fingerprint, Msid, Pair, Protocol, RelatedAddress, RestrictionId,
    RidDirection, Setup, Simulcast, SimulcastGroups, SimulcastLayer, TcpType,
};

pub(crate) fn texts_law()
    ensures { (a b : List ℕ) → IsTrue (⟦<Text as PartialEq>⟧.eq a b) ↔ (a ≡ b) }
{}

#[tactic(auto, using(crate::proofs::AlikeLists::alike_lists))]
pub(crate) fn text_lists_law()
    ensures { (a b : List (List ℕ)) → IsTrue (⟦<Listed<Text> as PartialEq>⟧.eq a b) ↔ (a ≡ b) }
{
    texts_law();
}

fn texts_if_any_law()
    ensures { (a b : Option (List ℕ)) → IsTrue (⟦<Option<Text> as PartialEq>⟧.eq a b) ↔ (a ≡ b) }
{
    texts_law();
}

pub(crate) fn mids_law()
    ensures { (a b : List ℕ) → IsTrue (⟦<Mid as PartialEq>⟧.eq a b) ↔ (a ≡ b) }
{}

/// Two lists of names are equal by `==` if and only if they are the same.
#[tactic(auto, using(crate::proofs::AlikeLists::alike_lists))]
pub(crate) fn mid_lists_law()
    ensures { (a b : List (List ℕ)) → IsTrue (⟦<Listed<Mid> as PartialEq>⟧.eq a b) ↔ (a ≡ b) }
{
    mids_law();
}

fn byte_lists_law()
    ensures { (a b : List ℕ) → IsTrue (⟦<Listed<u8> as PartialEq>⟧.eq a b) ↔ (a ≡ b) }
{}

fn types_law()
    ensures { (a b : ℕ) → IsTrue (⟦<Pt as PartialEq>⟧.eq a b) ↔ (a ≡ b) }
{}

#[tactic(auto, using(crate::proofs::AlikeLists::alike_lists))]
pub(crate) fn type_lists_law()
    ensures { (a b : List ℕ) → IsTrue (⟦<Listed<Pt> as PartialEq>⟧.eq a b) ↔ (a ≡ b) }
{
    types_law();
}

fn sources_law()
    ensures { (a b : ℕ) → IsTrue (⟦<Ssrc as PartialEq>⟧.eq a b) ↔ (a ≡ b) }
{}

#[tactic(auto, using(crate::proofs::AlikeLists::alike_lists))]
pub(crate) fn source_lists_law()
    ensures { (a b : List ℕ) → IsTrue (⟦<Listed<Ssrc> as PartialEq>⟧.eq a b) ↔ (a ≡ b) }
{
    sources_law();
}

fn numbers_law()
    ensures { (a b : ℕ) → IsTrue (⟦<u32 as PartialEq>⟧.eq a b) ↔ (a ≡ b) }
{}

pub(crate) fn sessions_numbers_law()
    ensures { (a b : ℕ) → IsTrue (⟦<SessionId as PartialEq>⟧.eq a b) ↔ (a ≡ b) }
{}

pub(crate) fn setups_law()
    ensures { (a b : Setup) → IsTrue (⟦<Setup as PartialEq>⟧.eq a b) ↔ (a ≡ b) }
{}

pub(crate) fn directions_law()
    ensures { (a b : RidDirection) → IsTrue (⟦<RidDirection as PartialEq>⟧.eq a b) ↔ (a ≡ b) }
{}

pub(crate) fn fingerprints_law()
    ensures { (a b : Fingerprint) → IsTrue (⟦<Fingerprint as PartialEq>⟧.eq a b) ↔ (a ≡ b) }
{
    texts_law();
    byte_lists_law();
}

fn pairs_law()
    ensures { (a b : Pair) → IsTrue (⟦<Pair as PartialEq>⟧.eq a b) ↔ (a ≡ b) }
{
    texts_law();
}

#[tactic(auto, using(crate::proofs::AlikeLists::alike_lists))]
pub(crate) fn pair_lists_law()
    ensures { (a b : List Pair) → IsTrue (⟦<Listed<Pair> as PartialEq>⟧.eq a b) ↔ (a ≡ b) }
{
    pairs_law();
}

fn pair_lists_if_any_law()
    ensures { (a b : Option (List Pair)) → IsTrue (⟦<Option<Listed<Pair>> as PartialEq>⟧.eq a b) ↔ (a ≡ b) }
{
    pair_lists_law();
}

pub(crate) fn restriction_ids_law()
    ensures { (a b : RestrictionId) → IsTrue (⟦<RestrictionId as PartialEq>⟧.eq a b) ↔ (a ≡ b) }
{
    texts_law();
}

fn layers_law()
    ensures { (a b : SimulcastLayer) → IsTrue (⟦<SimulcastLayer as PartialEq>⟧.eq a b) ↔ (a ≡ b) }
{
    restriction_ids_law();
    pair_lists_if_any_law();
}

#[tactic(auto, using(crate::proofs::AlikeLists::alike_lists))]
fn layer_lists_law()
    ensures { (a b : List SimulcastLayer) → IsTrue (⟦<Listed<SimulcastLayer> as PartialEq>⟧.eq a b) ↔ (a ≡ b) }
{
    layers_law();
}

fn groups_law()
    ensures { (a b : SimulcastGroups) → IsTrue (⟦<SimulcastGroups as PartialEq>⟧.eq a b) ↔ (a ≡ b) }
{
    layer_lists_law();
}

pub(crate) fn simulcasts_law()
    ensures { (a b : Simulcast) → IsTrue (⟦<Simulcast as PartialEq>⟧.eq a b) ↔ (a ≡ b) }
{
    groups_law();
}

pub(crate) fn msids_law()
    ensures { (a b : Msid) → IsTrue (⟦<Msid as PartialEq>⟧.eq a b) ↔ (a ≡ b) }
{
    texts_law();
}

fn protocols_law()
    ensures { (a b : Protocol) → IsTrue (⟦<Protocol as PartialEq>⟧.eq a b) ↔ (a ≡ b) }
{}

fn kinds_law()
    ensures { (a b : CandidateKind) → IsTrue (⟦<CandidateKind as PartialEq>⟧.eq a b) ↔ (a ≡ b) }
{}

fn tcp_types_law()
    ensures { (a b : TcpType) → IsTrue (⟦<TcpType as PartialEq>⟧.eq a b) ↔ (a ≡ b) }
{}

fn tcp_types_if_any_law()
    ensures { (a b : Option TcpType) → IsTrue (⟦<Option<TcpType> as PartialEq>⟧.eq a b) ↔ (a ≡ b) }
{
    tcp_types_law();
}

fn related_law()
    ensures { (a b : RelatedAddress) → IsTrue (⟦<RelatedAddress as PartialEq>⟧.eq a b) ↔ (a ≡ b) }
{}

fn related_if_any_law()
    ensures { (a b : Option RelatedAddress) → IsTrue (⟦<Option<RelatedAddress> as PartialEq>⟧.eq a b) ↔ (a ≡ b) }
{
    related_law();
}

/// Two candidates are equal by `==` if and only if all their fields are (RFC 8839 5.1).
pub fn candidate_equality_law()
    ensures { (a b : Candidate) → IsTrue (⟦<Candidate as PartialEq>⟧.eq a b) ↔ (a ≡ b) }
{
    texts_law();
    numbers_law();
    protocols_law();
    kinds_law();
    related_if_any_law();
    tcp_types_if_any_law();
    texts_if_any_law();
}
