//! Streams that an end opens.

ghost use Rattle.std.specs.Prelude.{◌≡◌, ◌≢◌, Some, None, length, true, OnOk, OnErr, IfOk, IfErr};
ghost use Rattle.payload_core_buffer.specs.Buffered.{holding_of, is_valid_capacity};
ghost use Rattle.rtp_media_ends.specs.Ends.{after_open_receiver, after_open_sender, agreed_red};
ghost use Rattle.rtp_media_ends.specs.Ends.{is_receiver_at, is_sender_at, new_receiver, new_sender};
ghost use Rattle.rtp_media_ends.specs.Ends.{refusal_of_open_receiver, refusal_of_open_sender};
ghost use Rattle.rtp_media_ends.specs.Ends.{refusal_of_open_unsignalled, sender_at};
ghost use Rattle.rtp_media_ends.specs.FullArrival.{HasReceiver, IsSender};
ghost use Rattle.rtp_media_ends.specs.Params.{IsSound};

use super::End;
use crate::errors::OpenError;
use crate::new_streams::{new_receiver, new_sender, new_unsignalled};
use crate::params::StreamParams;
use rtp_wire::{Mid, Pt, Ssrc};

impl End {
    /// Opens a sending stream of this SSRC for the agreed row of a payload type, and returns its
    /// number, counted from 0 over the streams of both directions. If `params` has distances, it
    /// sends under the row's RED type, each payload after older ones (RFC 2198).
    ///
    /// # Conditions
    /// The parameters are sound for the agreed row's RED type: `StreamParams::is_sound` of [`End::agreed_red`].
    ///
    /// # Errors
    /// The first that holds of `NoSection`, `RowNotAgreed`, `RowDiffers` (the end's own row of the type
    /// is missing, not locked, or means something else), `WrongDirection`, `SsrcNotNamed` (the
    /// section of this end doesn't name the SSRC) and `AlreadyOpen`; or `Memory`. The end is then
    /// unchanged.
    #[tactic(auto, unfolding(crate::specs::Ends::after_open_sender))]
    pub fn open_sender(
        &mut self,
        mid: Mid,
        ssrc: Ssrc,
        pt: Pt,
        params: StreamParams,
    ) -> Result<usize, OpenError>
        requires { IsSound (agreed_red self.old mid pt) params }
        ensures number { IfOk result (λ n. n ≡ length self.old.streams) }
        ensures opens { OnOk result (refusal_of_open_sender self.old mid ssrc pt ≡ None) }
        ensures after { OnOk result (self.new ≡ after_open_sender self.old mid ssrc pt params) }
        ensures stream { IfOk result (λ n. sender_at self.new n ≡ new_sender self.old mid ssrc pt params) }
        ensures sender { IfOk result (λ n. IsSender (sender_at self.new n)) }
        ensures sends { IfOk result (λ n. is_sender_at self.new n ≡ true) }
        ensures refused { IfErr result (λ e. e ≢ OpenError.Memory → refusal_of_open_sender self.old mid ssrc pt
            ≡ Some e) }
        ensures unchanged { OnErr result (self.new ≡ self.old) }
    {
        let streams = &self.streams;
        let stream = new_sender(self.alloc, &self.exchange, streams, mid, ssrc, pt, &params)?;
        Ok(self.streams.add_sender(stream)?)
    }

    /// Opens a receiving stream of this SSRC for the agreed row of a payload type, and returns its
    /// number, counted from 0 over the streams of both directions. Past a missing datagram a unit is
    /// handed out only once more than `hold_back` frames are complete. At most `held` packets wait; of more the
    /// lowest are dropped.
    ///
    /// # Conditions
    /// `held` is 4,096 to 16,384, as `is_valid_capacity` says.
    ///
    /// # Errors
    /// As [`End::open_sender`]; `SsrcNotNamed` if the section of the other end doesn't name the
    /// SSRC.
    #[tactic(auto, unfolding(crate::specs::Ends::after_open_receiver))]
    pub fn open_receiver(
        &mut self,
        mid: Mid,
        ssrc: Ssrc,
        pt: Pt,
        hold_back: usize,
        held: usize,
    ) -> Result<usize, OpenError>
        requires { is_valid_capacity held ≡ true }
        ensures number { IfOk result (λ n. n ≡ length self.old.streams) }
        ensures opens { OnOk result (refusal_of_open_receiver self.old mid ssrc pt ≡ None) }
        ensures after { OnOk result (self.new ≡ after_open_receiver self.old mid ssrc pt (holding_of hold_back held)) }
        ensures receiver { IfOk result (λ n. HasReceiver self.new n (new_receiver self.old mid ssrc pt
            (holding_of hold_back held))) }
        ensures receives { IfOk result (λ n. is_receiver_at self.new n ≡ true) }
        ensures refused { IfErr result (λ e. e ≢ OpenError.Memory → refusal_of_open_receiver self.old mid ssrc pt
            ≡ Some e) }
        ensures unchanged { OnErr result (self.new ≡ self.old) }
    {
        let streams = &self.streams;
        let stream = new_receiver(
            self.alloc,
            &self.exchange,
            streams,
            mid,
            ssrc,
            pt,
            hold_back,
            held,
        )?;
        Ok(self.streams.add_receiver(stream)?)
    }

    /// Opens a receiving stream as [`End::open_receiver`], in a section whose sender names this SSRC or no SSRC at all,
    /// as one whose simulcast streams `a=rid` alone tells apart (RFC 8853 6.1): the SSRC is that of a datagram which
    /// `receive` said to be foreign, and whose header extensions say the section and the stream.
    ///
    /// # Conditions
    /// `held` is 4,096 to 16,384, as `is_valid_capacity` says.
    ///
    /// # Errors
    /// As [`End::open_receiver`]; `SsrcNotNamed` if the section of the other end names SSRCs, and not this one.
    #[tactic(auto, unfolding(crate::specs::Ends::after_open_receiver))]
    pub fn open_unsignalled(
        &mut self,
        mid: Mid,
        ssrc: Ssrc,
        pt: Pt,
        hold_back: usize,
        held: usize,
    ) -> Result<usize, OpenError>
        requires { is_valid_capacity held ≡ true }
        ensures number { IfOk result (λ n. n ≡ length self.old.streams) }
        ensures opens { OnOk result (refusal_of_open_unsignalled self.old mid ssrc pt ≡ None) }
        ensures after { OnOk result (self.new ≡ after_open_receiver self.old mid ssrc pt (holding_of hold_back held)) }
        ensures receiver { IfOk result (λ n. HasReceiver self.new n (new_receiver self.old mid ssrc pt
            (holding_of hold_back held))) }
        ensures receives { IfOk result (λ n. is_receiver_at self.new n ≡ true) }
        ensures refused { IfErr result (λ e. e ≢ OpenError.Memory → refusal_of_open_unsignalled self.old mid ssrc pt
            ≡ Some e) }
        ensures unchanged { OnErr result (self.new ≡ self.old) }
    {
        let streams = &self.streams;
        let stream = new_unsignalled(
            self.alloc,
            &self.exchange,
            streams,
            mid,
            ssrc,
            pt,
            hold_back,
            held,
        )?;
        Ok(self.streams.add_receiver(stream)?)
    }
}
