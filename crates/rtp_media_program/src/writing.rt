//! Writing bytes in pieces.

ghost use Rattle.std.specs.Prelude.{◌<◌, OnOk, IfOk, OnErr, length};
ghost use Rattle.std.specs.Io.KnownBytes.{Appends, Keeps};
ghost use Rattle.rtp_media_program.specs.Writes.{AppendsFront, LeavesRest};

use std::io::Write;

/// A write failed, or took no bytes.
#[derive(Clone, Copy, Debug, Drop, PartialEq, Eq)]
pub struct WriteFault;

/// Writes all the bytes, in as many writes as it takes.
///
/// # Errors
/// If a write fails or takes no bytes: a front of the bytes, and not all, has then been written.
pub fn write_whole<W: Write>(writer: &mut W, bytes: &[u8]) -> Result<(), WriteFault>
    ensures ok { OnOk result (Appends (W.contents writer.old) (W.contents writer.new) bytes.now) }
    ensures err { OnErr result (AppendsFront (W.contents writer.old) (W.contents writer.new) bytes.now) }
{
    let mut rest = bytes;
    while !rest.is_empty() {
        rest = write_some(writer, rest)?;
    }
    Ok(())
}

/// One write, which returns the bytes that are still to be written.
fn write_some<'a, W: Write>(writer: &mut W, bytes: &'a [u8]) -> Result<&'a [u8], WriteFault>
    ensures ok { IfOk result (λ rest. LeavesRest (W.contents writer.old) (W.contents writer.new) bytes.now rest.now) }
    ensures shorter { IfOk result (λ rest. length rest.now < length bytes.now) }
    ensures err { OnErr result (Keeps (W.contents writer.old) (W.contents writer.new)) }
{
    let Ok(count) = writer.write(bytes) else {
        return Err(WriteFault);
    };
    if count == 0 {
        return Err(WriteFault);
    }
    Ok(&bytes[count..])
}
