//! Samples pushed one after the other.

ghost use Rattle.std.specs.Prelude.{◌≡◌, ◌≢◌, ◌++◌, true, None, IfOk, IfErr, OnOk};
ghost use Rattle.rtp_media_ends.specs.Ends.{is_sender_at, sender_at};
ghost use Rattle.rtp_media_streams.specs.Sending.{datagrams_of};
ghost use Rattle.rtp_media_runs.specs.Pushing.{IsRefusedAt, PushesSome, after_pushes, refusal_of_samples};

use crate::sample::Sample;
use rtp_media_ends::End;
use rtp_media_streams::{Datagram, SampleError};
use std::alloc::{AllocError, Global};

/// Pushes samples at a sending stream, and returns their datagrams, in order.
///
/// # Errors
/// What the first refused sample is refused for; those before it were pushed. `SampleError::Memory` also if memory
/// for the list of datagrams runs out.
pub(crate) fn push_samples(
    alloc: Global,
    end: &mut End,
    tx: usize,
    samples: &[Sample],
) -> Result<Vec<Datagram>, SampleError>
    requires { is_sender_at end.old tx ≡ true }
    ensures sent { IfOk result (λ ds. ds.items ≡ datagrams_of (sender_at end.old tx) samples.now) }
    ensures accepted { OnOk result (refusal_of_samples (sender_at end.old tx) samples.now ≡ None) }
    ensures after { OnOk result (end.new ≡ after_pushes end.old tx samples.now) }
    ensures refused { IfErr result (λ e. e ≢ SampleError.Memory → IsRefusedAt end.old tx samples.now e end.new) }
    ensures memory { IfErr result (λ e. e ≡ SampleError.Memory → PushesSome end.old tx samples.now end.new) }
{
    let mut datagrams = Vec::new(alloc);
    for sample in samples {
        match end.push_sample(tx, sample.time(), sample.bytes(), sample.values()) {
            Ok(sent) => append(&mut datagrams, sent)?,
            Err(refusal) => return Err(refusal),
        }
    }
    Ok(datagrams)
}

/// Puts datagrams after others.
fn append(datagrams: &mut Vec<Datagram>, more: Vec<Datagram>) -> Result<(), AllocError>
    ensures { OnOk result (datagrams.new.items ≡ datagrams.old.items ++ more.items) }
{
    for datagram in more {
        datagrams.push(datagram)?;
    }
    Ok(())
}
