//! What a browser tells of its transport.

use rtp_media_browsers::Remote;
use words_and_replies::ReplyText;

/// Credentials, fingerprint, setup and candidates, and whether more of them may come.
pub(crate) fn put_remote(remote: &Remote, reply: &mut ReplyText) {
    if let Some(creds) = &remote.creds {
        reply.say("\n  name ", &creds.ufrag);
        reply.say(", password ", &creds.pass);
    }
    reply.say_some("\n  fingerprint ", &remote.fingerprint);
    reply.say_some("\n  setup ", &remote.setup);
    for candidate in remote.candidates.as_slice() {
        reply.say("\n  ", candidate);
    }
    reply.put("\n  ");
    reply.put_flag("", "trickles", remote.is_trickling);
    reply.put_flag(" ", "lite", remote.is_lite);
}
