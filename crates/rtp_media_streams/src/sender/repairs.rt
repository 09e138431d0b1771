//! Repairs that a sending stream makes (RFC 4588).

ghost use Rattle.std.specs.Prelude.{◌≡◌, ◌<◌, ◌≤◌, IfOk, IfSome, length};
ghost use Rattle.std.specs.Option.{option_map};
ghost use Rattle.rtp_wire.specs.Header.{header_in, payload_in};
ghost use Rattle.rtp_wire.specs.Maps.{empty_map};
ghost use Rattle.rtp_wire.specs.Padding.{unpadded};
ghost use Rattle.rtp_media_streams.specs.PacketSteps.{MakesBy, repair_step};
ghost use Rattle.rtp_media_streams.specs.Repairing.{has_byte, own_header, repair_key};

use super::SendingStream;
use crate::datagram::Datagram;
use crate::errors::RepairError;
use crate::types::RepairKey;
use rtp_wire::{RtpHeader, repair_of, unpad_payload};

/// How long a datagram's header is, if there is one.
fn len_of(header: Option<RtpHeader>, datagram: &[u8]) -> Option<usize>
    requires { IfSome header (λ h. (12 ≤ h.header_len) × (h.header_len ≤ length datagram.now)) }
    ensures len { result ≡ option_map (λ h. h.header_len) header }
    ensures ends { IfSome result (λ len. (12 ≤ len) × (len ≤ length datagram.now)) }
{
    match header {
        Some(header) => Some(header.header_len),
        None => None,
    }
}

/// Whether a datagram has a payload, padding aside.
fn has_payload(header: &RtpHeader, datagram: &[u8]) -> bool
    requires { header.now.header_len ≤ length datagram.now }
    ensures { result ≡ has_byte (unpadded header.now.has_padding (payload_in header.now datagram.now)) }
{
    match unpad_payload(header.has_padding, &datagram[header.header_len..]) {
        Some(payload) => !payload.is_empty(),
        None => false,
    }
}

impl SendingStream {
    /// The repair of one of its datagrams, under the SSRC and type of its repairs and the next of their numbers: the
    /// datagram with its type, number and SSRC replaced, and the two bytes of its own number after the header. A
    /// stream that failed repairs too.
    ///
    /// # Errors
    /// The first that holds of `NoRepair`, `NotOwn` and `LimitTooSmall`; or `Memory`. Nothing has then changed.
    pub fn repair(&mut self, datagram: &[u8]) -> Result<Datagram, RepairError>
        ensures repairs { MakesBy (repair_step self.old datagram.now) self.new result }
        ensures within { IfOk result (λ d. length d ≤ self.old.limit) }
    {
        let key = self.repair_key().ok_or(RepairError::NoRepair)?;
        let header = self.own_header(datagram);
        let header_len = len_of(header, datagram).ok_or(RepairError::NotOwn)?;
        if self.limit < 2 || datagram.len() > self.limit - 2 {
            return Err(RepairError::LimitTooSmall);
        }
        let bytes = repair_of(
            self.alloc,
            datagram,
            header_len,
            key.pt,
            self.repairs,
            key.ssrc,
        )?;
        self.repairs = self.repairs.wrapping_add(1);
        Ok(Datagram::from_vec(bytes))
    }

    /// The SSRC and type of its repairs, if it makes any.
    fn repair_key(&self) -> Option<RepairKey>
        ensures key { result ≡ repair_key self.now }
        ensures payload_type { IfSome result (λ key. key.pt < 128) }
    {
        match &self.redundancy {
            Some(_) => None,
            None => self.types.repair,
        }
    }

    /// The header of a datagram of the row's own type, with a payload.
    fn own_header(&self, datagram: &[u8]) -> Option<RtpHeader>
        ensures header { result ≡ own_header self.now (header_in empty_map datagram.now) datagram.now }
        ensures ends { IfSome result (λ h. (12 ≤ h.header_len) × (h.header_len ≤ length datagram.now)) }
    {
        let header = RtpHeader::parse_without_values(datagram)?;
        let is_own = self.stamp.ssrc.get() == header.ssrc.get()
            && self.types.pt.get() == header.payload_type.get();
        if is_own && has_payload(&header, datagram) {
            Some(header)
        } else {
            None
        }
    }
}
