//! Streams that are closed.

ghost use Rattle.std.specs.Prelude.{◌≡◌, true};
ghost use Rattle.rtp_media_stream_table.specs.Streams.{is_nth_receiver, is_nth_sender, set_closed};

use super::StreamTable;
use crate::open_stream::OpenStream;
use rtp_media_streams::{ReceivingStream, SendingStream};

impl StreamTable {
    /// Closes a sending stream: what it holds is given back, and another one may send its datagrams. Its number is not
    /// used again, and the other streams keep theirs.
    ///
    /// # Conditions
    /// The number is that of a sending stream: [`StreamTable::is_sender`].
    pub fn close_sender(&mut self, stream: usize)
        requires { is_nth_sender self.old stream ≡ true }
        ensures { self.new ≡ set_closed self.old stream }
    {
        let OpenStream::Sender(sender) = &self.streams[stream] else {
            unreachable!()
        };
        let sending: &SendingStream = &sender.stream;
        let (ssrc, types) = (sending.ssrc(), sending.types());
        self.streams[stream] = OpenStream::Closed;
        self.senders.remove_types(ssrc, &types);
    }

    /// Closes a receiving stream: what it holds is given back, and another one may take its datagrams. Its number is
    /// not used again, and the other streams keep theirs.
    ///
    /// # Conditions
    /// The number is that of a receiving stream: [`StreamTable::is_receiver`].
    pub fn close_receiver(&mut self, stream: usize)
        requires { is_nth_receiver self.old stream ≡ true }
        ensures { self.new ≡ set_closed self.old stream }
    {
        let OpenStream::Receiver(receiver) = &self.streams[stream] else {
            unreachable!()
        };
        let receiving: &ReceivingStream = &receiver.stream;
        let (ssrc, types) = (receiving.ssrc(), receiving.types());
        self.streams[stream] = OpenStream::Closed;
        self.receivers.remove_types(ssrc, &types);
    }
}
