//! Units that are put together from fragments, and the start code that each unit is written after.

ghost use Rattle.h26x_payload_units.specs.Fragments.{behind_code, continued, open_after, put_behind, written_at};
ghost use Rattle.std.specs.Prelude.{◌++◌, ◌≡◌, [], IfOk, None, OnErr, OnOk, Some, length, true, unwrap_or};

use std::alloc::{AllocError, Global};
use std::marker::Model;
use std::mem;

/// The start code that each unit is written after (ITU-T H.264 annex B).
pub const ANNEXB_NALUSTART_CODE: [u8; 4] = [0, 0, 0, 1];

/// Writes a unit after its start code. If memory runs out, `out` is as it was.
///
/// # Errors
///
/// `AllocError` if memory runs out.
pub fn push_unit(unit: &[u8], out: &mut Vec<u8>) -> Result<(), AllocError>
    ensures written { OnOk result (out.new.items ≡ out.old.items ++ behind_code unit.now) }
    ensures unchanged { OnErr result (out.new.items ≡ out.old.items) }
{
    let len = out.len();
    out.extend_from_slice(&ANNEXB_NALUSTART_CODE)?;
    if let Err(e) = out.extend_from_slice(unit) {
        out.truncate(len);
        return Err(e);
    }
    Ok(())
}

/// Writes a unit of a header and a body after its start code. If memory runs out, `out` is as it was.
///
/// # Errors
///
/// `AllocError` if memory runs out.
pub fn push_unit_of(header: &[u8], body: &[u8], out: &mut Vec<u8>) -> Result<(), AllocError>
    ensures written { OnOk result (out.new.items ≡ out.old.items ++ behind_code (header.now ++ body.now)) }
    ensures unchanged { OnErr result (out.new.items ≡ out.old.items) }
{
    let len = out.len();
    push_unit(header, out)?;
    if let Err(e) = out.extend_from_slice(body) {
        out.truncate(len);
        return Err(e);
    }
    Ok(())
}

/// Writes the bytes of an ending unit with its last part. If nothing is written yet, they are handed out as they are,
/// and the memory of `out` is kept in their place.
fn finish(bytes: &mut Vec<u8>, part: &[u8], out: &mut Vec<u8>) -> Result<(), AllocError>
    ensures written { OnOk result (out.new.items ≡ out.old.items ++ (bytes.old.items ++ part.now)) }
    ensures unchanged { OnErr result ((bytes.new.items ≡ bytes.old.items) × (out.new.items ≡ out.old.items)) }
{
    if out.is_empty() {
        bytes.extend_from_slice(part)?;
        mem::swap(bytes, out);
        return Ok(());
    }
    let len = out.len();
    out.extend_from_slice(bytes)?;
    if let Err(e) = out.extend_from_slice(part) {
        out.truncate(len);
        return Err(e);
    }
    Ok(())
}

/// A unit that begins with this header, after its start code.
fn begun(alloc: Global, header: &[u8], part: &[u8]) -> Result<Vec<u8>, AllocError>
    ensures { IfOk result (λ v. v.items ≡ behind_code (header.now ++ part.now)) }
{
    let mut unit = Vec::from_slice(alloc, &ANNEXB_NALUSTART_CODE)?;
    unit.extend_from_slice(header)?;
    unit.extend_from_slice(part)?;
    Ok(unit)
}

/// A unit that has begun in a fragment and has not ended, if there is one. After its end its memory is kept for the
/// next one.
pub struct OpenUnit {
    alloc: Global,
    // Whether there is one.
    is_open: bool,
    // If there is one, its bytes so far, after its start code.
    bytes: Vec<u8>,
}

/// Written by hand, so that crates that drop this type need no proof about its fields.
impl Drop for OpenUnit {
    fn drop(self) {
        let OpenUnit {
            alloc: _alloc,
            is_open: _is_open,
            bytes: _bytes,
        } = self;
    }
}

impl Model for OpenUnit {
    ghost use Rattle.payload_core_base.specs.Format.{Fragment};
    ghost use Rattle.std.specs.Prelude.{None, Some, if◌then◌else◌};

    ghost Value = { Fragment };

    ghost view = { λ u. if u.is_open then Some u.bytes.items else None };
}

impl OpenUnit {
    /// None, which takes memory from `alloc` for the one that it will keep.
    pub fn new(alloc: Global) -> Self
        ensures { result ≡ None }
    {
        OpenUnit {
            alloc,
            is_open: false,
            bytes: Vec::new(alloc),
        }
    }

    /// How many bytes it has, with its start code; 0 if there is none.
    pub fn len(&self) -> usize
        ensures { result ≡ length (unwrap_or self.now []) }
    {
        if self.is_open { self.bytes.len() } else { 0 }
    }

    /// Takes a fragment: with `is_start` it begins a unit with this header, whatever was open; else it goes on with
    /// the open one, and is passed over where none is. With `is_end` the unit is then written after its start code,
    /// and none is open. If memory runs out, the open unit and `out` are as they were.
    ///
    /// # Errors
    ///
    /// `AllocError` if memory runs out.
    pub fn put(
        &mut self,
        is_start: bool,
        is_end: bool,
        header: &[u8],
        part: &[u8],
        out: &mut Vec<u8>,
    ) -> Result<(), AllocError>
        ensures written { OnOk result (out.new.items ≡ out.old.items
            ++ written_at is_end (put_behind is_start header.now part.now self.old)) }
        ensures open_unit { OnOk result (self.new
            ≡ open_after is_end (put_behind is_start header.now part.now self.old)) }
        ensures unchanged { OnErr result ((self.new ≡ self.old) × (out.new.items ≡ out.old.items)) }
    {
        if is_start {
            return self.start(is_end, header, part, out);
        }
        self.go_on(is_end, part, out)
    }

    /// A fragment that begins a unit.
    fn start(
        &mut self,
        is_end: bool,
        header: &[u8],
        part: &[u8],
        out: &mut Vec<u8>,
    ) -> Result<(), AllocError>
        ensures written { OnOk result (out.new.items ≡ out.old.items
            ++ written_at is_end (put_behind true header.now part.now None)) }
        ensures open_unit { OnOk result (self.new ≡ open_after is_end (put_behind true header.now part.now None)) }
        ensures unchanged { OnErr result ((self.new ≡ self.old) × (out.new.items ≡ out.old.items)) }
    {
        if !is_end {
            return self.begin(header, part);
        }
        push_unit_of(header, part, out)?;
        self.is_open = false;
        Ok(())
    }

    /// Begins a unit, whatever was open.
    fn begin(&mut self, header: &[u8], part: &[u8]) -> Result<(), AllocError>
        ensures open_unit { OnOk result (self.new ≡ Some (behind_code (header.now ++ part.now))) }
        ensures unchanged { OnErr result (self.new ≡ self.old) }
    {
        if self.is_open {
            self.bytes = begun(self.alloc, header, part)?;
            return Ok(());
        }
        self.bytes.clear();
        push_unit_of(header, part, &mut self.bytes)?;
        self.is_open = true;
        Ok(())
    }

    /// A fragment that goes on with a unit.
    fn go_on(&mut self, is_end: bool, part: &[u8], out: &mut Vec<u8>) -> Result<(), AllocError>
        ensures written { OnOk result (out.new.items ≡ out.old.items
            ++ written_at is_end (continued self.old part.now)) }
        ensures open_unit { OnOk result (self.new ≡ open_after is_end (continued self.old part.now)) }
        ensures unchanged { OnErr result ((self.new ≡ self.old) × (out.new.items ≡ out.old.items)) }
    {
        if !self.is_open {
            return Ok(());
        }
        if is_end {
            finish(&mut self.bytes, part, out)?;
            self.is_open = false;
            return Ok(());
        }
        self.bytes.extend_from_slice(part)?;
        Ok(())
    }
}
