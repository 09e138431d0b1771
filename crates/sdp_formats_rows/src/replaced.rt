//! Rows of a codec dropped and replaced.

ghost use Rattle.std.specs.Prelude.{◌≡◌, ◌≤◌, ◌++◌, OnOk, OnErr, vec_len, vec_capacity};
ghost use Rattle.sdp_formats_rows.specs.Codecs.{is_codec};
ghost use Rattle.sdp_formats_rows.specs.Replaced.{rows_without};

use crate::row::PayloadParams;
use media_types::Codec;
use std::alloc::AllocError;

fn is_same_codec(codec: Codec, other: Codec) -> bool
    ensures { result ≡ is_codec codec other }
{
    codec == other
}

/// Drops the rows of a codec; no memory is needed, and none is given back.
pub fn drop_rows(rows: &mut Vec<PayloadParams>, codec: Codec)
    ensures rows { rows.new.items ≡ rows_without codec rows.old.items }
    ensures len { vec_len rows.new ≤ vec_len rows.old }
    ensures capacity { vec_capacity rows.new ≡ vec_capacity rows.old }
{
    rows.retain(|row| !is_same_codec(row.spec().codec, codec));
}

/// Puts these rows after all others in the place of those of a codec.
///
/// # Errors
///
/// `AllocError` if memory runs out; the rows are then as before.
pub fn put_rows(
    rows: &mut Vec<PayloadParams>,
    codec: Codec,
    added: &[PayloadParams],
) -> Result<(), AllocError>
    ensures ok { OnOk result (rows.new.items ≡ rows_without codec rows.old.items ++ added.now) }
    ensures err { OnErr result (rows.new.items ≡ rows.old.items) }
{
    rows.reserve(added.len())?;
    drop_rows(rows, codec);
    rows.extend_from_slice(added)
}
