//! Streams that an end closes.

ghost use Rattle.std.specs.Prelude.{◌≡◌, true};
ghost use Rattle.rtp_media_ends.specs.Ends.{is_receiver_at, is_sender_at, without_stream};

use super::End;

impl End {
    /// Closes a sending stream: what it holds is given back, and its SSRC can be opened again, with new numbers. The
    /// stream's own number is not used again: [`End::is_sender`] and [`End::is_receiver`] are false for it. Every other
    /// stream is as it was.
    ///
    /// # Conditions
    /// The number is that of a sending stream: [`End::is_sender`].
    pub fn close_sender(&mut self, stream: usize)
        requires { is_sender_at self.old stream ≡ true }
        ensures { self.new ≡ without_stream self.old stream }
    {
        let streams = &mut self.streams;
        streams.close_sender(stream);
    }

    /// Closes a receiving stream: what it holds is given back, and its SSRC can be opened again, as one that nothing
    /// came of. The stream's own number is not used again: [`End::is_sender`] and [`End::is_receiver`] are false for
    /// it. Every other stream is as it was. Datagrams of its SSRC and types are `Foreign` from then on.
    ///
    /// # Conditions
    /// The number is that of a receiving stream: [`End::is_receiver`].
    pub fn close_receiver(&mut self, stream: usize)
        requires { is_receiver_at self.old stream ≡ true }
        ensures { self.new ≡ without_stream self.old stream }
    {
        let streams = &mut self.streams;
        streams.close_receiver(stream);
    }
}
