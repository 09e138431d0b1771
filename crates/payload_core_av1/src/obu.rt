//! Open bitstream units (AV1 bitstream specification 5.3.1 to 5.3.3).

ghost use Rattle.payload_core_av1.specs.Obus.{extension_bytes, first_obu, has_extension, has_size, if_small};
ghost use Rattle.payload_core_av1.specs.Obus.{is_kept};
ghost use Rattle.payload_core_av1.specs.Obus.{obu, obu_cut, obu_of, payload_in, payload_limit, whole_obu};
ghost use Rattle.payload_core_av1.specs.Obus.{with_its_size, with_size, without_size};
ghost use Rattle.payload_core_av1.specs.Av1ReadingViews.{Keeps};
ghost use Rattle.payload_core_av1.specs.Samples.{is_sequence_header};
ghost use Rattle.std.specs.Prelude.{◌≡◌, ◌+◌, ◌++◌, ◌∷◌, ◌<◌, ◌≤◌, IfOk, IfSome, MatchOption, None, Some};
ghost use Rattle.std.specs.Prelude.{length};

use crate::leb128::{push_size, sized_part};
use std::alloc::AllocError;

// Payloads below this, 2^56 - 2 bytes, have sizes that are spelled in eight bytes, header included.
const PAYLOAD_LIMIT: usize = 72_057_594_037_927_934;

/// A unit: its header, with X an extension byte, and its payload.
#[derive(Clone, Copy, Drop)]
pub struct Obu<'a> {
    /// The byte of F, type, X, S and a reserved bit.
    pub header: u8,
    /// The byte of temporal and spatial layer, if X is set.
    pub extension: Option<u8>,
    /// What follows both and a size.
    pub payload: &'a [u8],
}

/// Whether the header byte has X.
fn has_extension(header: u8) -> bool
    ensures { result ≡ has_extension header }
{
    header / 4 % 2 == 1
}

/// Whether the header byte has S.
fn has_size(header: u8) -> bool
    ensures { result ≡ has_size header }
{
    header / 2 % 2 == 1
}

/// The header byte with S.
fn with_size(header: u8) -> u8
    ensures { result ≡ with_size header }
{
    if has_size(header) { header } else { header + 2 }
}

/// The header byte without S.
pub fn without_size(header: u8) -> u8
    ensures { result ≡ without_size header }
{
    if has_size(header) { header - 2 } else { header }
}

/// A payload and what follows it, if its size can be spelled.
fn if_small<'a>(payload: &'a [u8], rest: &'a [u8]) -> Option<(&'a [u8], &'a [u8])>
    ensures value { MatchOption result (if_small (Some (record { part = payload.now; rest = rest.now })) ≡ None)
        (λ cut. if_small (Some (record { part = payload.now; rest = rest.now }))
        ≡ Some (record { part = cut.0.now; rest = cut.1.now })) }
    ensures same { IfSome result (λ cut. (cut.0.now ≡ payload.now) × (cut.1.now ≡ rest.now)
        × (length payload.now < payload_limit)) }
{
    if payload.len() < PAYLOAD_LIMIT {
        Some((payload, rest))
    } else {
        None
    }
}

/// The payload that is in front of a text, with S after its size, and what follows it.
fn payload_in(has_size: bool, text: &[u8]) -> Option<(&[u8], &[u8])>
    ensures value { MatchOption result (payload_in has_size text.now ≡ None)
        (λ cut. payload_in has_size text.now ≡ Some (record { part = cut.0.now; rest = cut.1.now })) }
    ensures shorter { IfSome result (λ cut. length cut.0.now + length cut.1.now ≤ length text.now) }
    ensures small { IfSome result (λ cut. length cut.0.now < payload_limit) }
{
    if !has_size {
        return if_small(text, &[]);
    }
    let (payload, rest) = sized_part(text)?;
    if_small(payload, rest)
}

/// The unit of a header and an extension byte whose payload is in front of a text, and what follows it.
fn obu_in_front(header: u8, extension: Option<u8>, text: &[u8]) -> Option<(Obu<'_>, &[u8])>
    ensures value { let cut = obu_of header extension (payload_in (has_size header) text.now) in
        MatchOption result (cut ≡ None)
        (λ c. cut ≡ Some (obu_cut c.0.header c.0.extension c.0.payload.now c.1.now)) }
    ensures shorter { IfSome result (λ cut. length cut.0.payload.now + length cut.1.now ≤ length text.now) }
    ensures small { IfSome result (λ cut. length cut.0.payload.now < payload_limit) }
{
    let (payload, rest) = payload_in(has_size(header), text)?;
    Some((
        Obu {
            header,
            extension,
            payload,
        },
        rest,
    ))
}

/// The unit that is in front of a text, and what follows it.
pub fn first_obu(text: &[u8]) -> Option<(Obu<'_>, &[u8])>
    ensures value { MatchOption result (first_obu text.now ≡ None)
        (λ cut. first_obu text.now ≡ Some (obu_cut cut.0.header cut.0.extension cut.0.payload.now cut.1.now)) }
    ensures shorter { IfSome result (λ cut. length cut.0.payload.now + length cut.1.now < length text.now) }
    ensures small { IfSome result (λ cut. length cut.0.payload.now < payload_limit) }
{
    let (header, behind) = text.split_first()?;
    if !has_extension(*header) {
        return obu_in_front(*header, None, behind);
    }
    let (byte, behind) = behind.split_first()?;
    obu_in_front(*header, Some(*byte), behind)
}

/// Writes the header byte of a unit and its extension byte.
fn push_header(header: u8, extension: Option<u8>, out: &mut Vec<u8>) -> Result<(), AllocError>
    ensures written { IfOk result (λ _. out.new.items ≡ out.old.items ++ (header ∷ extension_bytes extension)) }
    ensures kept { Keeps out.old.items out.new.items }
{
    out.push(header)?;
    if let Some(byte) = extension {
        out.push(byte)?;
    }
    Ok(())
}

/// The OBU that the text is; with S its size must be that of the whole rest.
pub fn whole_obu(text: &[u8]) -> Option<Obu<'_>>
    ensures value { MatchOption result (whole_obu text.now ≡ None)
        (λ o. whole_obu text.now ≡ Some (obu o.header o.extension o.payload.now)) }
    ensures small { IfSome result (λ o. length o.payload.now < payload_limit) }
{
    let (obu, rest) = first_obu(text)?;
    rest.is_empty().then_some(obu)
}

impl Obu<'_> {
    /// Whether the OBU is sent: temporal delimiters, tile lists and padding are not.
    pub fn is_kept(&self) -> bool
        ensures { result ≡ is_kept (obu self.now.header self.now.extension self.now.payload.now) }
    {
        !matches!(self.header / 8 % 16, 2 | 8 | 15)
    }

    /// Writes the unit with S and its size in the shortest form. If memory runs out, a part of it may be
    /// after the old bytes.
    ///
    /// # Conditions
    ///
    /// The payload is below the limit of units.
    ///
    /// # Errors
    ///
    /// `AllocError` if memory runs out.
    pub fn push_with_size(&self, out: &mut Vec<u8>) -> Result<(), AllocError>
        requires { length self.now.payload.now < payload_limit }
        ensures written { IfOk result (λ _. out.new.items ≡ out.old.items
            ++ with_its_size (obu self.now.header self.now.extension self.now.payload.now)) }
        ensures kept { Keeps out.old.items out.new.items }
    {
        push_header(with_size(self.header), self.extension, out)?;
        push_size(out, self.payload.len())?;
        out.extend_from_slice(self.payload)?;
        Ok(())
    }

    /// Whether the unit is a sequence header.
    pub fn is_sequence_header(&self) -> bool
        ensures { result ≡ is_sequence_header (obu self.now.header self.now.extension self.now.payload.now) }
    {
        self.header / 8 % 16 == 1
    }
}
